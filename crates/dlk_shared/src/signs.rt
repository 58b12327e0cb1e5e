//! Signatures, each kept once.
ghost use Rattle.std.specs.Prelude.{◌≡◌, ◌<◌, ◌||◌, ◌∷◌, [], false, length, IfOk, All, Some, slice_get};
ghost use Rattle.std.specs.List.{list_any};
ghost use Rattle.dlk_tree.specs.Occurs.{constants, has_symbol};
ghost use Rattle.dlk_tree.specs.Tests.{sym_eq};
ghost use Rattle.dlk_shared.specs.SetTables.{row_at};
ghost use Rattle.dlk_shared.specs.Signs.{sign_at, IsSign, Signs, KeepsSigns, AreSymbols};

use crate::listed::{list_symbol, symbols_in_order};
use crate::rows::RowTable;
use dlk_tree::{OdeItem, Op, Sym};
use dlk_vars::{VarFault, VarNo, VarSet};
use indexmap::IndexSet;
use std::alloc::Global;
use std::collections::BTreeSet;
use std::marker::Model;

/// Signatures, each kept once and known by its number, over a table that numbers the symbols.
#[derive(Drop)]
pub struct SignTable {
    syms: IndexSet<Sym>,
    rows: RowTable,
}

impl Model for SignTable {
    ghost use Rattle.dlk_shared.specs.Signs.{SignTable as Table};

    ghost Value = { Table };

    ghost view = { λ t. record { syms = t.syms.keys; signs = t.rows } };
}

impl SignTable {
    /// A table without signatures.
    pub fn new(alloc: Global) -> SignTable
        ensures syms { result.syms ≡ [] }
        ensures signs { result.signs ≡ [] }
    {
        SignTable {
            syms: IndexSet::new(alloc),
            rows: RowTable::new(alloc),
        }
    }

    /// The signature of a number.
    fn sign(&self, n: u32) -> &VarSet
        requires { n < length self.now.signs }
        ensures { result.now ≡ row_at self.now.signs n }
    {
        self.rows.at(n)
    }

    /// The number of a signature, which is kept if it isn't yet.
    fn keep(&mut self, set: VarSet) -> Result<u32, VarFault>
        ensures known { IfOk result (λ n. n < length self.new.signs) }
        ensures row { IfOk result (λ n. row_at self.new.signs n ≡ set) }
        ensures syms { self.new.syms ≡ self.old.syms }
        ensures keeps { KeepsSigns self.old self.new }
    {
        self.rows.keep(set)
    }

    /// The number of a symbol.
    fn number(&mut self, s: &Sym) -> Result<usize, VarFault>
        ensures at { IfOk result (λ n. slice_get self.new.syms n ≡ Some s.now) }
        ensures keeps { KeepsSigns self.old self.new }
    {
        let (n, _) = self.syms.insert_full(s.clone()?)?;
        Ok(n)
    }

    /// No symbols.
    fn none(&mut self) -> Result<u32, VarFault>
        ensures signs { IfOk result (λ n. Signs self.new n (λ _. false)) }
        ensures keeps { KeepsSigns self.old self.new }
    {
        self.rows.none()
    }

    /// The signature with this symbol.
    fn with(&mut self, n: u32, s: &Sym) -> Result<u32, VarFault>
        requires { IsSign self.old n }
        ensures signs { IfOk result (λ m. Signs self.new m (λ t. sym_eq t s.now || sign_at self.old n t)) }
        ensures keeps { KeepsSigns self.old self.new }
    {
        let number = self.number(s)?;
        let set = self.sign(n).with(VarNo(number))?;
        self.keep(set)
    }

    /// The symbols of either signature.
    fn either(&mut self, a: u32, b: u32) -> Result<u32, VarFault>
        requires first { IsSign self.old a }
        requires second { IsSign self.old b }
        ensures signs { IfOk result (λ n. Signs self.new n (λ t. sign_at self.old a t || sign_at self.old b t)) }
        ensures keeps { KeepsSigns self.old self.new }
    {
        self.rows.union(a, b)
    }

    /// The signature with the constant that the item may be.
    fn with_item(&mut self, n: u32, item: &OdeItem) -> Result<u32, VarFault>
        requires { IsSign self.old n }
        ensures signs { IfOk result (λ m. Signs self.new m (λ t. sign_at self.old n t || list_any (sym_eq t) (constants (item.now ∷ [])))) }
        ensures keeps { KeepsSigns self.old self.new }
    {
        match item {
            OdeItem::Evolve(_) => Ok(n),
            OdeItem::Const(s) => self.with(n, s),
        }
    }

    /// The constants of a system's items.
    fn constants(&mut self, items: &[OdeItem]) -> Result<u32, VarFault>
        ensures signs { IfOk result (λ n. Signs self.new n (λ s. list_any (sym_eq s) (constants items.now))) }
        ensures keeps { KeepsSigns self.old self.new }
    {
        let mut all = self.none()?;
        for item in items {
            all = self.with_item(all, item)?;
        }
        Ok(all)
    }

    /// A symbol alone.
    fn just(&mut self, s: &Sym) -> Result<u32, VarFault>
        ensures signs { IfOk result (λ n. Signs self.new n (λ t. list_any (sym_eq t) (s.now ∷ []))) }
        ensures keeps { KeepsSigns self.old self.new }
    {
        let none = self.none()?;
        self.with(none, s)
    }

    /// The symbols of the operator.
    fn own(&mut self, op: &Op) -> Result<u32, VarFault>
        ensures signs { IfOk result (λ n. Signs self.new n (λ s. has_symbol s op.now)) }
        ensures keeps { KeepsSigns self.old self.new }
    {
        match op {
            Op::UnitFun(s)
            | Op::Apply(s)
            | Op::UnitPred(s)
            | Op::Holds(s)
            | Op::Predicational(s)
            | Op::Const(s) => self.just(s),
            Op::System(items) => self.constants(items.items()),
            _ => self.none(),
        }
    }

    /// A signature with those of kids.
    fn with_kids(&mut self, own: u32, kids: &[u32]) -> Result<u32, VarFault>
        requires own { IsSign self.old own }
        requires kids { All (IsSign self.old) kids.now }
        ensures signs { IfOk result (λ n. Signs self.new n (λ s. sign_at self.old own s || list_any (λ k. sign_at self.old k s) kids.now)) }
        ensures keeps { KeepsSigns self.old self.new }
    {
        let mut all = own;
        for kid in kids {
            all = self.either(all, *kid)?;
        }
        Ok(all)
    }

    /// The symbols of a node with this operator over kids with these signatures.
    pub fn node_sign(&mut self, op: &Op, kids: &[u32]) -> Result<u32, VarFault>
        requires { All (IsSign self.old) kids.now }
        ensures signs { IfOk result (λ n. Signs self.new n (λ s. has_symbol s op.now || list_any (λ k. sign_at self.old k s) kids.now)) }
        ensures keeps { KeepsSigns self.old self.new }
    {
        let own = self.own(op)?;
        self.with_kids(own, kids)
    }

    /// Whether the symbol is in the signature.
    pub fn has(&self, n: u32, s: &Sym) -> bool
        requires { n < length self.now.signs }
        ensures { result ≡ sign_at self.now n s.now }
    {
        let _ = self.syms.as_slice();
        match self.syms.get_index_of(s) {
            Some(k) => self.sign(n).has(VarNo(k)),
            None => false,
        }
    }

    /// The symbols of a signature in order.
    pub fn list(&self, alloc: Global, n: u32) -> Result<Vec<Sym>, VarFault>
        requires { IsSign self.now n }
        ensures { IfOk result (λ listed. AreSymbols (sign_at self.now n) listed.items) }
    {
        let sign = self.sign(n);
        let syms = self.syms.as_slice();
        let mut listed = BTreeSet::new(alloc);
        for k in 0..syms.len() {
            list_symbol(&mut listed, &syms[k], sign.has(VarNo(k)))?;
        }
        let listed = symbols_in_order(alloc, listed)?;
        Ok(listed)
    }
}
