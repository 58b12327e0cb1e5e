//! What stands at some node of a tree.
ghost use Rattle.std.specs.Prelude.{◌≡◌, ◌||◌};
ghost use Rattle.std.specs.List.{list_any};
ghost use Rattle.dlk_tree.specs.Tests.{sym_eq};
ghost use Rattle.dlk_tree.specs.Occurs.{has, constants, has_symbol, is_dot};
ghost use Rattle.dlk_tree.specs.Named.{any_taboo, any_item_name, any_name, has_either, nowhere};
ghost use Rattle.dlk_store.specs.Stores.{IsId, tree};
ghost use Rattle.dlk_plain.specs.Plain.{trees_of};
ghost use Rattle.dlk_plain.specs.Sets.{set_of, IsSet};
ghost use Rattle.dlk_plain.specs.Sought.{is_sought, CanSeek};

use crate::sought::{Sought, VarSet};
use crate::store::PlainStore;
use dlk_store::Id;
use dlk_tree::{Name, OdeItem, Op, Sym, same_sym};

impl PlainStore {
    /// Whether the set has one of the two variables of the name.
    fn has_either(&self, set: VarSet, name: &Name) -> bool
        requires { IsSet (trees_of self.now.nodes.items) set }
        ensures { result ≡ has_either (set_of (trees_of self.now.nodes.items) set) name.now }
    {
        let two = self.in_set(set, name.bytes());
        two.plain || two.prime
    }

    fn has_taboo(&self, set: VarSet, taboo: &Option<Name>) -> bool
        requires { IsSet (trees_of self.now.nodes.items) set }
        ensures { result ≡ any_taboo (has_either (set_of (trees_of self.now.nodes.items) set)) taboo.now }
    {
        match taboo {
            None => false,
            Some(y) => self.has_either(set, y),
        }
    }

    fn has_item_name(&self, set: VarSet, item: &OdeItem) -> bool
        requires { IsSet (trees_of self.now.nodes.items) set }
        ensures { result ≡ any_item_name (has_either (set_of (trees_of self.now.nodes.items) set)) item.now }
    {
        match item {
            OdeItem::Evolve(x) => self.has_either(set, x),
            OdeItem::Const(s) => self.has_taboo(set, &s.taboo),
        }
    }

    fn has_item_names(&self, set: VarSet, items: &[OdeItem]) -> bool
        requires { IsSet (trees_of self.now.nodes.items) set }
        ensures { result ≡ list_any (any_item_name (has_either (set_of (trees_of self.now.nodes.items) set))) items.now }
    {
        items.iter().any(|item| self.has_item_name(set, item))
    }

    /// Whether the set has a variable that the operator names.
    fn has_name(&self, set: VarSet, op: &Op) -> bool
        requires { IsSet (trees_of self.now.nodes.items) set }
        ensures { result ≡ any_name (has_either (set_of (trees_of self.now.nodes.items) set)) op.now }
    {
        match op {
            Op::Variable(v) | Op::Assign(v) => self.has_either(set, &v.name),
            Op::UnitFun(s) | Op::UnitPred(s) => self.has_taboo(set, &s.taboo),
            Op::Forall(x) | Op::Exists(x) | Op::Any(x) => self.has_either(set, x),
            Op::System(items) => self.has_item_names(set, items.items()),
            _ => false,
        }
    }

    fn is_sought(&self, sought: Sought<'_>, op: &Op) -> bool
        requires { CanSeek (trees_of self.now.nodes.items) sought }
        ensures { result ≡ is_sought (trees_of self.now.nodes.items) sought.entry op.now }
    {
        match sought {
            Sought::Symbol(s) => has_symbol(s, op),
            Sought::Dot(n) => is_dot(op, n),
            Sought::Hole => matches!(op, Op::Hole),
            Sought::NameOf(set) => self.has_name(set, op),
        }
    }

    /// Whether it is found at some node of the tree.
    pub(crate) fn has_at(&self, id: Id, sought: Sought<'_>) -> bool
        requires known { IsId (trees_of self.now.nodes.items) id }
        requires can { CanSeek (trees_of self.now.nodes.items) sought }
        ensures { result ≡ has (is_sought (trees_of self.now.nodes.items) sought.entry) (tree (trees_of self.now.nodes.items) id) }
    {
        let node = self.node(id);
        if self.is_sought(sought, node.op) {
            return true;
        }
        for k in node.kids {
            if self.has_at(*k, sought) {
                return true;
            }
        }
        false
    }

    /// Whether the set has a variable that the tree names, or one that it doesn't name.
    pub(crate) fn has_some(&self, set: VarSet, id: Id) -> bool
        requires known { IsId (trees_of self.now.nodes.items) id }
        requires set { IsSet (trees_of self.now.nodes.items) set }
        ensures { let set = set_of (trees_of self.now.nodes.items) set in
            result ≡ (set nowhere || has (any_name (has_either set)) (tree (trees_of self.now.nodes.items) id)) }
    {
        self.in_set(set, &[]).plain || self.has_at(id, Sought::NameOf(set))
    }
}

/// Whether the operator has the symbol.
fn has_symbol(s: &Sym, op: &Op) -> bool
    ensures { result ≡ has_symbol s.now op.now }
{
    match op {
        Op::UnitFun(t)
        | Op::Apply(t)
        | Op::UnitPred(t)
        | Op::Holds(t)
        | Op::Predicational(t)
        | Op::Const(t) => same_sym(s, t),
        Op::System(items) => has_constant(s, items.items()),
        _ => false,
    }
}

/// Whether the symbol is one of the ODE constants.
fn has_constant(s: &Sym, items: &[OdeItem]) -> bool
    ensures { result ≡ list_any (sym_eq s.now) (constants items.now) }
{
    match items.split_first() {
        None => false,
        Some((OdeItem::Evolve(_), rest)) => has_constant(s, rest),
        Some((OdeItem::Const(t), rest)) => same_sym(s, t) || has_constant(s, rest),
    }
}

fn is_dot(op: &Op, n: u8) -> bool
    ensures { result ≡ is_dot n op.now }
{
    matches!(op, Op::Dot(m) if *m == n)
}
