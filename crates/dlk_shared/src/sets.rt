//! Sets of variables, each kept once.
ghost use Rattle.std.specs.Prelude.{◌≡◌, ◌<◌, [], length, IfOk, OnOk, Some, true, not, ◌&&◌, ◌↔◌, IsTrue};
ghost use Rattle.dlk_tree.specs.Statics.{none, all, just, plain, prime, with_prime, all_but, either, both, without};
ghost use Rattle.dlk_tree.specs.Listed.{is_among, IsInhabited};
ghost use Rattle.dlk_store.specs.Listings.{IsListingOf};
ghost use Rattle.dlk_vars.specs.Tables.{number_of, Grows};
ghost use Rattle.dlk_vars.specs.Sets.{IsWithin, IsNonempty};
ghost use Rattle.dlk_vars.specs.Rows.{has_number};
ghost use Rattle.dlk_shared.specs.Shapes.{own_sets, in_item, in_items};
ghost use Rattle.dlk_tree.specs.declared.op.Op.TheVariants.{System};
ghost use Rattle.dlk_shared.specs.SetTables.{row_at, set_at, IsSet, IsNone, Means, MeanSets, Keeps, Makes, MakesPrimes, GainsPrime};

use crate::listed::{list_var, vars_in_order};
use crate::node::NodeSets;
use crate::rows::RowTable;
use dlk_store::{Listing, Vars, Which};
use dlk_tree::{Name, OdeItem, Op, Var};
use dlk_vars::{VarFault, VarNo, VarSet, VarTable};
use std::alloc::Global;
use std::collections::BTreeSet;
use std::marker::Model;

/// Sets of variables, each kept once and known by its number, over a table that numbers the variables.
#[derive(Drop)]
pub struct SetTable {
    vars: VarTable,
    rows: RowTable,
}

impl Model for SetTable {
    ghost use Rattle.dlk_shared.specs.SetTables.{SetTable as Table, ArePlainToo};

    ghost Value = { Table };

    ghost view = { λ t. record { vars = t.vars; sets = t.rows } };

    ghost invariant = { λ t. ArePlainToo t.vars };
}

impl SetTable {
    /// A table without sets.
    pub fn new(alloc: Global) -> SetTable
        ensures vars { result.vars ≡ [] }
        ensures sets { result.sets ≡ [] }
    {
        SetTable {
            vars: VarTable::new(alloc),
            rows: RowTable::new(alloc),
        }
    }

    fn alloc(&self) -> Global {
        self.rows.alloc()
    }

    /// The set of a number.
    pub fn set(&self, n: u32) -> &VarSet
        requires { n < length self.now.sets }
        ensures { result.now ≡ row_at self.now.sets n }
    {
        self.rows.at(n)
    }

    /// Whether the variable is in the set.
    pub fn has(&self, n: u32, v: &Var) -> bool
        requires { n < length self.now.sets }
        ensures { result ≡ set_at self.now n v.now }
    {
        match self.vars.find(v) {
            Some(number) => self.set(n).has(number),
            None => self.set(n).has_others(),
        }
    }

    /// Whether some variable is in the set.
    pub fn has_any(&self, n: u32) -> bool
        requires { IsSet self.now n }
        ensures { IsTrue result ↔ IsInhabited (set_at self.now n) }
    {
        let _ = self.vars.as_slice();
        !self.set(n).is_empty()
    }

    /// Whether some variable is in both sets.
    pub fn meet(&self, a: u32, b: u32) -> bool
        requires first { IsSet self.now a }
        requires second { IsSet self.now b }
        ensures { IsTrue result ↔ IsInhabited (both (set_at self.now a) (set_at self.now b)) }
    {
        let _ = self.vars.as_slice();
        self.set(a).meets(self.set(b))
    }

    /// The set, listed.
    pub fn list(&self, alloc: Global, n: u32) -> Result<Listing, VarFault>
        requires { IsSet self.now n }
        ensures { IfOk result (IsListingOf (set_at self.now n)) }
    {
        let set = self.set(n);
        let vars = self.vars.as_slice();
        let mut listed = BTreeSet::new(alloc);
        for k in 0..vars.len() {
            list_var(&mut listed, set, &vars[k], k)?;
        }
        let listed = vars_in_order(alloc, listed)?;
        Ok(Listing {
            all_but: set.has_others(),
            vars: Vars::new(listed),
        })
    }

    /// The number of a set, which is kept if it isn't yet.
    fn keep(&mut self, set: VarSet) -> Result<u32, VarFault>
        ensures known { IfOk result (λ n. n < length self.new.sets) }
        ensures row { IfOk result (λ n. row_at self.new.sets n ≡ set) }
        ensures vars { self.new.vars ≡ self.old.vars }
        ensures keeps { Keeps self.old self.new }
    {
        self.rows.keep(set)
    }

    /// The empty set.
    pub fn none(&mut self) -> Result<u32, VarFault>
        ensures means { IfOk result (λ n. Means self.new n none) }
        ensures keeps { Keeps self.old self.new }
    {
        self.rows.none()
    }

    /// The set of all variables.
    pub fn all(&mut self) -> Result<u32, VarFault>
        ensures means { IfOk result (λ n. Means self.new n all) }
        ensures keeps { Keeps self.old self.new }
    {
        let set = VarSet::all(self.alloc());
        self.keep(set)
    }

    /// Numbers the unprimed variable of a primed one.
    fn number_plain(&mut self, v: &Var) -> Result<(), VarFault>
        ensures plain { OnOk result (v.now.primed ≡ true → is_among self.new.vars (plain v.now.name) ≡ true) }
        ensures keeps { Keeps self.old self.new }
    {
        if !v.primed {
            return Ok(());
        }
        let plain = Var::plain(v.name.clone()?);
        self.vars.number(&plain)?;
        Ok(())
    }

    /// The number of the variable. An unprimed one is numbered before its primed one.
    fn number(&mut self, v: &Var) -> Result<VarNo, VarFault>
        ensures number { IfOk result (λ n. number_of self.new.vars v.now ≡ Some n.0) }
        ensures keeps { Keeps self.old self.new }
    {
        self.number_plain(v)?;
        self.vars.number(v)
    }

    /// The variable alone.
    pub fn just(&mut self, v: &Var) -> Result<u32, VarFault>
        ensures means { IfOk result (λ n. Means self.new n (just v.now)) }
        ensures keeps { Keeps self.old self.new }
    {
        let v = self.number(v)?;
        let set = VarSet::empty(self.alloc()).with(v)?;
        self.keep(set)
    }

    /// The unprimed variable of a name alone.
    fn just_plain(&mut self, x: &Name) -> Result<u32, VarFault>
        ensures means { IfOk result (λ n. Means self.new n (just (plain x.now))) }
        ensures keeps { Keeps self.old self.new }
    {
        let v = Var::plain(x.clone()?);
        self.just(&v)
    }

    /// The primed variable of a name alone.
    fn just_prime(&mut self, x: &Name) -> Result<u32, VarFault>
        ensures means { IfOk result (λ n. Means self.new n (just (prime x.now))) }
        ensures keeps { Keeps self.old self.new }
    {
        let v = primed(x.clone()?);
        self.just(&v)
    }

    /// Both variables of a name.
    fn with_prime(&mut self, x: &Name) -> Result<u32, VarFault>
        ensures means { IfOk result (λ n. Means self.new n (with_prime x.now)) }
        ensures keeps { Keeps self.old self.new }
    {
        let plain = self.just_plain(x)?;
        let prime = self.just_prime(x)?;
        self.either(plain, prime)
    }

    /// All variables but the two of a name.
    fn all_but_name(&mut self, y: &Name) -> Result<u32, VarFault>
        ensures means { IfOk result (λ n. Means self.new n (all_but (Some y.now))) }
        ensures keeps { Keeps self.old self.new }
    {
        let all = self.all()?;
        let y = self.with_prime(y)?;
        self.without(all, y)
    }

    /// All variables, or with a taboo all but its two variables.
    fn all_but(&mut self, taboo: &Option<Name>) -> Result<u32, VarFault>
        ensures means { IfOk result (λ n. Means self.new n (all_but taboo.now)) }
        ensures keeps { Keeps self.old self.new }
    {
        match taboo {
            None => self.all(),
            Some(y) => self.all_but_name(y),
        }
    }

    /// What an item of a system reads, binds or must-binds.
    fn in_item(&mut self, which: Which, item: &OdeItem, empty: u32) -> Result<u32, VarFault>
        requires { Means self.old empty none }
        ensures means { IfOk result (λ n. Means self.new n (in_item which item.now)) }
        ensures keeps { Keeps self.old self.new }
    {
        match item {
            OdeItem::Evolve(x) => match which {
                Which::Free => self.just_plain(x),
                Which::Bound => self.with_prime(x),
                Which::Must => self.with_prime(x),
            },
            OdeItem::Const(s) => match which {
                Which::Free => self.all_but(&s.taboo),
                Which::Bound => self.all_but(&s.taboo),
                Which::Must => Ok(empty),
            },
        }
    }

    /// What the items of a system read, bind or must-bind.
    fn in_items(&mut self, which: Which, items: &[OdeItem], empty: u32) -> Result<u32, VarFault>
        requires { Means self.old empty none }
        ensures means { IfOk result (λ n. Means self.new n (in_items which items.now)) }
        ensures keeps { Keeps self.old self.new }
    {
        let mut all = empty;
        for item in items {
            let one = self.in_item(which, item, empty)?;
            all = self.either(all, one)?;
        }
        Ok(all)
    }

    /// What a system reads, binds and must-binds by itself.
    fn system_sets(&mut self, items: &[OdeItem], empty: u32) -> Result<NodeSets, VarFault>
        requires { Means self.old empty none }
        ensures means { IfOk result (λ n. MeanSets self.new n (own_sets (System items.now))) }
        ensures keeps { Keeps self.old self.new }
    {
        let free = self.in_items(Which::Free, items, empty)?;
        let bound = self.in_items(Which::Bound, items, empty)?;
        let must = self.in_items(Which::Must, items, empty)?;
        Ok(NodeSets { free, bound, must })
    }

    /// What the operator reads, binds and must-binds by itself. Most operators have the empty set alone.
    pub fn own_sets(&mut self, op: &Op, empty: u32) -> Result<NodeSets, VarFault>
        requires { Means self.old empty none }
        ensures means { IfOk result (λ n. MeanSets self.new n (own_sets op.now)) }
        ensures keeps { Keeps self.old self.new }
    {
        match op {
            Op::Variable(v) => {
                let free = self.just(v)?;
                Ok(reads(free, empty))
            }
            Op::UnitFun(s) | Op::UnitPred(s) => {
                let free = self.all_but(&s.taboo)?;
                Ok(reads(free, empty))
            }
            Op::Hole | Op::Predicational(_) | Op::Const(_) => {
                let all = self.all()?;
                Ok(NodeSets {
                    free: all,
                    bound: all,
                    must: empty,
                })
            }
            Op::Forall(x) | Op::Exists(x) => {
                let bound = self.just_plain(x)?;
                Ok(NodeSets {
                    free: empty,
                    bound,
                    must: empty,
                })
            }
            Op::Assign(v) => {
                let v = self.just(v)?;
                Ok(assigns(v, empty))
            }
            Op::Any(x) => {
                let v = self.just_plain(x)?;
                Ok(assigns(v, empty))
            }
            Op::System(items) => self.system_sets(items.items(), empty),
            _ => Ok(reads(empty, empty)),
        }
    }

    /// Whether the set is empty.
    fn is_none(&self, n: u32) -> bool
        requires { n < length self.now.sets }
        ensures some { IsNonempty (not result) (row_at self.now.sets n) }
        ensures none { IsTrue result → IsNone self.now n }
    {
        self.set(n).is_empty()
    }

    /// What is in one of the two sets.
    pub fn either(&mut self, a: u32, b: u32) -> Result<u32, VarFault>
        requires first { a < length self.old.sets }
        requires second { b < length self.old.sets }
        ensures known { IfOk result (λ n. n < length self.new.sets) }
        ensures makes { IfOk result (Makes either self.old a b self.new) }
        ensures keeps { Keeps self.old self.new }
    {
        self.rows.union(a, b)
    }

    /// What is in both sets.
    pub fn both(&mut self, a: u32, b: u32) -> Result<u32, VarFault>
        requires first { a < length self.old.sets }
        requires second { b < length self.old.sets }
        ensures known { IfOk result (λ n. n < length self.new.sets) }
        ensures makes { IfOk result (Makes both self.old a b self.new) }
        ensures keeps { Keeps self.old self.new }
    {
        if a == b {
            return Ok(a);
        }
        let set = self.set(a).meet(self.set(b))?;
        self.keep(set)
    }

    /// What is in the first set and not in the second.
    pub fn without(&mut self, a: u32, b: u32) -> Result<u32, VarFault>
        requires first { a < length self.old.sets }
        requires second { b < length self.old.sets }
        ensures known { IfOk result (λ n. n < length self.new.sets) }
        ensures makes { IfOk result (Makes without self.old a b self.new) }
        ensures keeps { Keeps self.old self.new }
    {
        if self.is_none(b) {
            return Ok(a);
        }
        let set = self.set(a).minus(self.set(b))?;
        self.keep(set)
    }

    /// The set with `x'` for each `x` in it.
    pub fn and_primes(&mut self, a: u32) -> Result<u32, VarFault>
        requires known { a < length self.old.sets }
        requires within { IsWithin self.old.vars (row_at self.old.sets a) }
        ensures makes { IfOk result (MakesPrimes self.old a self.new) }
        ensures keeps { Keeps self.old self.new }
    {
        let mut set = self.set(a).clone()?;
        for n in 0..self.vars.as_slice().len() {
            set = self.with_prime_of(set, a, n)?;
        }
        self.keep(set)
    }

    /// The set with `x'` where the n-th variable is an `x` in the set of the number `a`.
    fn with_prime_of(&mut self, set: VarSet, a: u32, n: usize) -> Result<VarSet, VarFault>
        requires set { a < length self.old.sets }
        requires known { n < length self.old.vars }
        requires within { IsWithin self.old.vars set }
        ensures gains { IfOk result (GainsPrime self.old.vars set (row_at self.old.sets a) n self.new.vars) }
        ensures grows { Grows self.old.vars self.new.vars }
        ensures sets { self.new.sets ≡ self.old.sets }
    {
        let v = &self.vars.as_slice()[n];
        if !is_plain_in(v, self.set(a), n) {
            return Ok(set);
        }
        let prime = primed(v.name.clone()?);
        let p = self.vars.number(&prime)?;
        set.with(p)
    }
}

/// Whether the variable of this number is an `x` in the set.
fn is_plain_in(v: &Var, set: &VarSet, n: usize) -> bool
    ensures { result ≡ (not v.now.primed && has_number set.now n) }
{
    !v.primed && set.has(VarNo(n))
}

/// The variable `x'`.
fn primed(x: Name) -> Var
    ensures { result ≡ prime x }
{
    Var {
        name: x,
        primed: true,
    }
}

/// An operator that reads these variables, and binds none.
fn reads(free: u32, none: u32) -> NodeSets
    ensures { result ≡ record { free = free; bound = none; must = none } }
{
    NodeSets {
        free,
        bound: none,
        must: none,
    }
}

/// An operator that assigns to this variable.
fn assigns(v: u32, none: u32) -> NodeSets
    ensures { result ≡ record { free = none; bound = v; must = v } }
{
    NodeSets {
        free: none,
        bound: v,
        must: v,
    }
}
