//! A table of results.
ghost use Rattle.std.specs.Prelude.{◌≡◌, ◌+◌, ◌≤◌, [], length, position, None, Some, OnOk, OnErr};
ghost use Rattle.dlk_subst.specs.Looked.{same_id};
ghost use Rattle.dlk_memo.specs.Tables.{found, HasEachOnce, Puts};

use crate::near::Near;
use dlk_store::Id;
use std::alloc::{AllocError, Global};
use std::collections::HashMap;
use std::marker::Model;

/// What was made of trees, by their ids. A tree that is still being made has no result. Contracts see it as a list.
///
/// The first entries stand in a row that is looked through, further ones in a map.
#[derive(Drop)]
pub(crate) struct Results {
    near: Near,
    far: HashMap<Id, Option<Id>>,
}

impl Model for Results {
    ghost use Rattle.std.specs.Prelude.{◌++◌};
    ghost use Rattle.dlk_memo.specs.Tables.{Table, AreParts};

    ghost Value = { Table };

    ghost view = { λ r. r.near ++ r.far.entries };

    ghost invariant = { λ r. AreParts r.near r.far.entries };
}

/// The place in a row at which the id stands.
fn place(row: &[(Id, Option<Id>)], id: Id) -> Option<usize>
    ensures { result ≡ position (λ e. same_id id e.0) row.now }
{
    row.iter().position(|e| id == e.0)
}

impl Results {
    pub fn new(alloc: Global) -> Results
        ensures empty { result ≡ [] }
        ensures once { HasEachOnce result }
    {
        Results {
            near: Near::new(),
            far: HashMap::new(alloc),
        }
    }

    /// What the table has for the id.
    #[inline(never)]
    pub fn find(&self, id: Id) -> Option<Option<Id>>
        ensures found { result ≡ found self.now id }
        ensures once { HasEachOnce self.now }
    {
        let near = self.near.as_slice();
        match place(near, id) {
            Some(i) => Some(near[i].1),
            None => self.far.get(&id).copied(),
        }
    }

    /// The id has no result as yet.
    pub fn begin(&mut self, id: Id) -> Result<(), AllocError>
        requires { found self.old id ≡ None }
        ensures put { OnOk result (Puts self.old self.new id None) }
        ensures long { OnOk result (length self.new ≡ length self.old + 1) }
        ensures err { OnErr result (self.new ≡ self.old) }
        ensures once { HasEachOnce self.new }
    {
        if self.near.push(id) {
            return Ok(());
        }
        self.far.insert(id, None)?;
        Ok(())
    }

    /// The id has this result.
    pub fn finish(&mut self, id: Id, made: Id) -> Result<(), AllocError>
        ensures put { OnOk result (Puts self.old self.new id (Some made)) }
        ensures long { length self.old ≤ length self.new }
        ensures err { OnErr result (self.new ≡ self.old) }
        ensures once { HasEachOnce self.new }
    {
        if let Some(i) = place(self.near.as_slice(), id) {
            self.near.set(i, id, made);
            return Ok(());
        }
        self.far.insert(id, Some(made))?;
        Ok(())
    }
}
