//! A few entries of a table in a row.
ghost use Rattle.std.specs.Prelude.{◌≡◌, ◌++◌, ◌∷◌, ◌<◌, ◌≤◌, [], length, false, IsTrue, None, Some};
ghost use Rattle.std.specs.List.{slice_set};

use dlk_store::Id;
use std::marker::Model;

/// So many entries stand in a row at most.
const MOST_NEAR: usize = 16;

/// What stands in a row where no entry does.
const NO_ENTRY: (Id, Option<Id>) = (Id(0), None);

/// Ids with what was made of their trees, or with nothing as yet. Contracts see it as a list. The entries stand in the value itself,
/// as most tables have no more.
#[derive(Drop)]
pub(crate) struct Near {
    entries: [(Id, Option<Id>); MOST_NEAR],
    count: usize,
}

impl Model for Near {
    ghost use Rattle.std.specs.Prelude.{◌≤◌, take};
    ghost use Rattle.dlk_memo.specs.Tables.{Table};

    ghost Value = { Table };

    ghost view = { λ n. take n.count n.entries };

    ghost invariant = { λ n. n.count ≤ 16 };
}

impl Near {
    /// No entries.
    pub fn new() -> Near
        ensures { result ≡ [] }
    {
        Near {
            entries: [NO_ENTRY; MOST_NEAR],
            count: 0,
        }
    }

    /// The entries in order.
    pub fn as_slice(&self) -> &[(Id, Option<Id>)]
        ensures items { result.now ≡ self.now }
        ensures few { length self.now ≤ 16 }
    {
        &self.entries[..self.count]
    }

    /// The id without a result at the end, if there is a place for it: whether there is.
    pub fn push(&mut self, id: Id) -> bool
        ensures there { IsTrue result → self.new ≡ self.old ++ (id, None) ∷ [] }
        ensures full { result ≡ false → self.new ≡ self.old }
    {
        let end = self.count;
        if end >= MOST_NEAR {
            return false;
        }
        self.entries[end] = (id, None);
        self.count = end + 1;
        true
    }

    /// The id with this result in place of the entry at this index.
    pub fn set(&mut self, i: usize, id: Id, made: Id)
        requires within { i < length self.old }
        requires few { length self.old ≤ 16 }
        ensures { self.new ≡ slice_set self.old i (id, Some made) }
    {
        self.entries[i] = (id, Some(made));
    }
}
