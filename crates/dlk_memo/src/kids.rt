//! Kids of a node while it is made.
ghost use Rattle.std.specs.Prelude.{◌≡◌, ◌++◌, ◌∷◌, [], IfOk};
ghost use Rattle.dlk_memo.specs.Ids.{ids_in};

use dlk_store::Id;
use std::alloc::{AllocError, Global};
use std::marker::Model;

/// Ids in a row. Up to two stand in the value itself, as almost every node has no more kids.
#[derive(Drop)]
pub(crate) enum Ids {
    None,
    One([Id; 1]),
    Two([Id; 2]),
    More(Vec<Id>),
}

/// The kids of a node, which contracts see as the list of their ids.
pub(crate) struct Kids {
    ids: Ids,
}

/// They are given back by a call, and not by cases wherever a walk ends.
impl Drop for Kids {
    fn drop(self) {
        let Kids { ids: _ids } = self;
    }
}

impl Model for Kids {
    ghost use Rattle.std.specs.Prelude.{List};
    ghost use Rattle.dlk_store.specs.declared.Id.{Id};
    ghost use Rattle.dlk_memo.specs.Ids.{ids_in};

    ghost Value = { List Id };

    ghost view = { λ k. ids_in k.ids };
}

/// One id and one more.
fn two(few: [Id; 1], id: Id) -> [Id; 2]
    ensures { result ≡ few ++ id ∷ [] }
{
    [few[0], id]
}

/// Two ids and one more.
fn three(alloc: Global, few: [Id; 2], id: Id) -> Result<Vec<Id>, AllocError>
    ensures { IfOk result (λ all. all.items ≡ few ++ id ∷ []) }
{
    Vec::from_slice(alloc, &[few[0], few[1], id])
}

/// The ids of a vector and one more at the end.
fn pushed(all: Vec<Id>, id: Id) -> Result<Vec<Id>, AllocError>
    ensures { IfOk result (λ longer. longer.items ≡ all.items ++ id ∷ []) }
{
    let mut longer = all;
    longer.push(id)?;
    Ok(longer)
}

/// One more id at the end.
fn one_more(alloc: Global, ids: Ids, id: Id) -> Result<Ids, AllocError>
    ensures { IfOk result (λ all. ids_in all ≡ ids_in ids ++ id ∷ []) }
{
    match ids {
        Ids::None => Ok(Ids::One([id])),
        Ids::One(few) => Ok(Ids::Two(two(few, id))),
        Ids::Two(few) => Ok(Ids::More(three(alloc, few, id)?)),
        Ids::More(all) => Ok(Ids::More(pushed(all, id)?)),
    }
}

impl Kids {
    /// No kids.
    pub fn new() -> Kids
        ensures { result ≡ [] }
    {
        Kids { ids: Ids::None }
    }

    /// The kids with these ids. Up to two take no memory.
    pub fn from_slice(alloc: Global, ids: &[Id]) -> Result<Kids, AllocError>
        ensures { IfOk result (λ kids. kids ≡ ids.now) }
    {
        match ids {
            [] => Ok(Kids { ids: Ids::None }),
            [a] => Ok(Kids {
                ids: Ids::One([*a]),
            }),
            [a, b] => Ok(Kids {
                ids: Ids::Two([*a, *b]),
            }),
            _ => Ok(Kids {
                ids: Ids::More(Vec::from_slice(alloc, ids)?),
            }),
        }
    }

    /// These kids and one more at the end.
    pub fn with(self, alloc: Global, id: Id) -> Result<Kids, AllocError>
        ensures { IfOk result (λ kids. kids ≡ self ++ id ∷ []) }
    {
        let Kids { ids } = self;
        let ids = one_more(alloc, ids, id)?;
        Ok(Kids { ids })
    }

    /// The ids in order.
    pub fn as_slice(&self) -> &[Id]
        ensures { result.now ≡ self.now }
    {
        match &self.ids {
            Ids::None => &[],
            Ids::One(ids) => ids.as_slice(),
            Ids::Two(ids) => ids.as_slice(),
            Ids::More(ids) => ids.as_slice(),
        }
    }
}
