//! Sets of numbers, each kept once.
ghost use Rattle.std.specs.Prelude.{◌≡◌, ◌<◌, ◌||◌, [], length, IfOk};
ghost use Rattle.dlk_tree.specs.Statics.{either};
ghost use Rattle.dlk_vars.specs.Rows.{ByNumber};
ghost use Rattle.dlk_vars.specs.Sets.{Picks};
ghost use Rattle.dlk_shared.specs.SetTables.{row_at};
ghost use Rattle.dlk_shared.specs.RowTables.{IsEmptyAt, KeepsRows};

use crate::node::narrow;
use dlk_vars::{VarFault, VarSet};
use indexmap::IndexSet;
use std::alloc::Global;
use std::marker::Model;

/// Sets of numbers, each kept once and known by its place. The place of the empty set is remembered, as it is asked for again and again.
#[derive(Drop)]
pub struct RowTable {
    rows: IndexSet<VarSet>,
    empty: Option<u32>,
}

impl Model for RowTable {
    ghost use Rattle.std.specs.Prelude.{List};
    ghost use Rattle.dlk_vars.specs.Rows.{Row};
    ghost use Rattle.dlk_shared.specs.RowTables.{KnowsEmpty};

    ghost Value = { List Row };

    ghost view = { λ t. t.rows.keys };

    ghost invariant = { λ t. KnowsEmpty t.rows.keys t.empty };
}

impl RowTable {
    /// A table without sets.
    pub fn new(alloc: Global) -> RowTable
        ensures { result ≡ [] }
    {
        RowTable {
            rows: IndexSet::new(alloc),
            empty: None,
        }
    }

    pub fn alloc(&self) -> Global {
        *self.rows.allocator()
    }

    /// The set at a place.
    pub fn at(&self, n: u32) -> &VarSet
        requires { n < length self.now }
        ensures { result.now ≡ row_at self.now n }
    {
        &self.rows.as_slice()[n as usize]
    }

    /// The place of a set, which is kept if it isn't yet.
    pub fn keep(&mut self, set: VarSet) -> Result<u32, VarFault>
        ensures known { IfOk result (λ n. n < length self.new) }
        ensures row { IfOk result (λ n. row_at self.new n ≡ set) }
        ensures keeps { KeepsRows self.old self.new }
    {
        let (n, _) = self.rows.insert_full(set)?;
        narrow(n)
    }

    /// The place of the empty set.
    pub fn none(&mut self) -> Result<u32, VarFault>
        ensures empty { IfOk result (IsEmptyAt self.new) }
        ensures keeps { KeepsRows self.old self.new }
    {
        if let Some(n) = self.empty {
            return Ok(n);
        }
        let set = VarSet::empty(self.alloc());
        let n = self.keep(set)?;
        self.empty = Some(n);
        Ok(n)
    }

    /// The place of the union of two sets. Where one of them is within the other, no set is made.
    pub fn union(&mut self, a: u32, b: u32) -> Result<u32, VarFault>
        requires first { a < length self.old }
        requires second { b < length self.old }
        ensures known { IfOk result (λ n. n < length self.new) }
        ensures numbers { IfOk result (λ n. ByNumber ◌||◌ (row_at self.old a) (row_at self.old b) (row_at self.new n)) }
        ensures vars { IfOk result (λ n. Picks either (row_at self.old a) (row_at self.old b) (row_at self.new n)) }
        ensures keeps { KeepsRows self.old self.new }
    {
        if self.at(a).includes(self.at(b)) {
            return Ok(a);
        }
        if self.at(b).includes(self.at(a)) {
            return Ok(b);
        }
        let set = self.at(a).union(self.at(b))?;
        self.keep(set)
    }
}
