//! Sets of variables, listed, and signatures: one walk collects the names or the symbols of a tree, each once and in order.
ghost use Rattle.std.specs.Prelude.{◌≡◌, IfOk, OnOk, ◌&&◌};
ghost use Rattle.std.specs.List.{list_any};
ghost use Rattle.std.specs.List.Sorted.{IsStrictlySortedBy};
ghost use Rattle.std.specs.Str.{bytes_eq};
ghost use Rattle.dlk_tree.specs.Tests.{var_eq, sym_eq};
ghost use Rattle.dlk_tree.specs.Listed.{var_cmp, sym_cmp};
ghost use Rattle.dlk_tree.specs.Named.{any_taboo, any_item_name, any_name, is_named};
ghost use Rattle.dlk_tree.specs.Occurs.{constants, has_symbol, occurs};
ghost use Rattle.dlk_store.specs.Stores.{IsId, tree};
ghost use Rattle.dlk_plain.specs.Plain.{trees_of};
ghost use Rattle.dlk_plain.specs.Sets.{set_of, IsSet};
ghost use Rattle.dlk_plain.specs.Added.{told, Adds};

use crate::sought::VarSet;
use crate::store::PlainStore;
use dlk_store::{Id, StoreFault};
use dlk_tree::{Name, OdeItem, Op, Sym, Var};
use std::alloc::{AllocError, Global};
use std::collections::BTreeSet;

fn add_name(names: &mut BTreeSet<Name>, x: &Name) -> Result<(), StoreFault>
    ensures { OnOk result (Adds bytes_eq (λ y. bytes_eq y x.now) names.old.keys names.new.keys) }
{
    let x = x.clone()?;
    names.insert(x)?;
    Ok(())
}

fn add_taboo(names: &mut BTreeSet<Name>, taboo: &Option<Name>) -> Result<(), StoreFault>
    ensures { OnOk result (Adds bytes_eq (λ y. any_taboo (bytes_eq y) taboo.now) names.old.keys names.new.keys) }
{
    match taboo {
        None => Ok(()),
        Some(y) => add_name(names, y),
    }
}

fn add_item_names(names: &mut BTreeSet<Name>, items: &[OdeItem]) -> Result<(), StoreFault>
    ensures { OnOk result (Adds bytes_eq (λ y. list_any (any_item_name (bytes_eq y)) items.now) names.old.keys names.new.keys) }
{
    for item in items {
        match item {
            OdeItem::Evolve(x) => add_name(names, x)?,
            OdeItem::Const(s) => add_taboo(names, &s.taboo)?,
        }
    }
    Ok(())
}

/// Adds the names of the operator.
fn add_names(names: &mut BTreeSet<Name>, op: &Op) -> Result<(), StoreFault>
    ensures { OnOk result (Adds bytes_eq (λ y. any_name (bytes_eq y) op.now) names.old.keys names.new.keys) }
{
    match op {
        Op::Variable(v) | Op::Assign(v) => add_name(names, &v.name),
        Op::UnitFun(s) | Op::UnitPred(s) => add_taboo(names, &s.taboo),
        Op::Forall(x) | Op::Exists(x) | Op::Any(x) => add_name(names, x),
        Op::System(items) => add_item_names(names, items.items()),
        _ => Ok(()),
    }
}

fn add_symbol(syms: &mut BTreeSet<Sym>, s: &Sym) -> Result<(), StoreFault>
    ensures { OnOk result (Adds sym_eq (λ t. sym_eq t s.now) syms.old.keys syms.new.keys) }
{
    let s = s.clone()?;
    syms.insert(s)?;
    Ok(())
}

fn add_constants(syms: &mut BTreeSet<Sym>, items: &[OdeItem]) -> Result<(), StoreFault>
    ensures { OnOk result (Adds sym_eq (λ t. list_any (sym_eq t) (constants items.now)) syms.old.keys syms.new.keys) }
{
    for item in items {
        match item {
            OdeItem::Evolve(_) => {}
            OdeItem::Const(s) => add_symbol(syms, s)?,
        }
    }
    Ok(())
}

/// Adds the symbols of the operator.
fn add_symbols(syms: &mut BTreeSet<Sym>, op: &Op) -> Result<(), StoreFault>
    ensures { OnOk result (Adds sym_eq (λ t. has_symbol t op.now) syms.old.keys syms.new.keys) }
{
    match op {
        Op::UnitFun(s)
        | Op::Apply(s)
        | Op::UnitPred(s)
        | Op::Holds(s)
        | Op::Predicational(s)
        | Op::Const(s) => add_symbol(syms, s),
        Op::System(items) => add_constants(syms, items.items()),
        _ => Ok(()),
    }
}

impl PlainStore {
    /// Adds the names of the tree.
    pub(crate) fn names_at(&self, names: &mut BTreeSet<Name>, id: Id) -> Result<(), StoreFault>
        requires { IsId (trees_of self.now.nodes.items) id }
        ensures { OnOk result (Adds bytes_eq (λ y. is_named y (tree (trees_of self.now.nodes.items) id)) names.old.keys names.new.keys) }
    {
        let node = self.node(id);
        add_names(names, node.op)?;
        for k in node.kids {
            self.names_at(names, *k)?;
        }
        Ok(())
    }

    /// Adds the symbols of the tree.
    pub(crate) fn symbols_at(&self, syms: &mut BTreeSet<Sym>, id: Id) -> Result<(), StoreFault>
        requires { IsId (trees_of self.now.nodes.items) id }
        ensures { OnOk result (Adds sym_eq (λ t. occurs t (tree (trees_of self.now.nodes.items) id)) syms.old.keys syms.new.keys) }
    {
        let node = self.node(id);
        add_symbols(syms, node.op)?;
        for k in node.kids {
            self.symbols_at(syms, *k)?;
        }
        Ok(())
    }

    /// Adds the variables of the name that stand out: that are in the set where the rest isn't, or not in it where the rest is.
    fn list_name(
        &self,
        vars: &mut BTreeSet<Var>,
        set: VarSet,
        others: bool,
        name: &Name,
    ) -> Result<(), StoreFault>
        requires { IsSet (trees_of self.now.nodes.items) set }
        ensures { OnOk result (Adds var_eq (told (set_of (trees_of self.now.nodes.items) set) others (λ x. bytes_eq x name.now)) vars.old.keys vars.new.keys) }
    {
        let two = self.in_set(set, name.bytes());
        add_var(vars, name, false, two.plain != others)?;
        add_var(vars, name, true, two.prime != others)
    }

    /// Adds the variables of these names that stand out.
    pub(crate) fn list_names(
        &self,
        vars: &mut BTreeSet<Var>,
        set: VarSet,
        others: bool,
        names: &[Name],
    ) -> Result<(), StoreFault>
        requires { IsSet (trees_of self.now.nodes.items) set }
        ensures { OnOk result
            (Adds var_eq (told (set_of (trees_of self.now.nodes.items) set) others (λ x. list_any (bytes_eq x) names.now)) vars.old.keys vars.new.keys) }
    {
        for name in names {
            self.list_name(vars, set, others, name)?;
        }
        Ok(())
    }
}

/// Adds the variable of this name and mark, if it is wanted.
fn add_var(
    vars: &mut BTreeSet<Var>,
    name: &Name,
    primed: bool,
    wanted: bool,
) -> Result<(), StoreFault>
    ensures { OnOk result (Adds var_eq (λ v. var_eq v (record { name = name.now; primed = primed }) && wanted) vars.old.keys vars.new.keys) }
{
    if wanted {
        let name = name.clone()?;
        vars.insert(Var { name, primed })?;
    }
    Ok(())
}

/// The names in order.
pub fn names_in_order(alloc: Global, names: BTreeSet<Name>) -> Result<Vec<Name>, AllocError>
    ensures items { IfOk result (λ v. v.items ≡ names.keys) }
{
    names.into_iter().collect(alloc)
}

/// The variables in order.
pub fn vars_in_order(alloc: Global, vars: BTreeSet<Var>) -> Result<Vec<Var>, AllocError>
    ensures items { IfOk result (λ v. v.items ≡ vars.keys) }
    ensures ordered { IsStrictlySortedBy var_cmp vars.keys }
{
    vars.into_iter().collect(alloc)
}

/// The symbols in order.
pub fn symbols_in_order(alloc: Global, syms: BTreeSet<Sym>) -> Result<Vec<Sym>, AllocError>
    ensures items { IfOk result (λ v. v.items ≡ syms.keys) }
    ensures ordered { IsStrictlySortedBy sym_cmp syms.keys }
{
    syms.into_iter().collect(alloc)
}
