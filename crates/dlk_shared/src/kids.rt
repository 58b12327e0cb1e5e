//! The kids of a node.
ghost use Rattle.std.specs.Prelude.{◌≡◌, IfOk};

use dlk_store::Id;
use std::alloc::{AllocError, Global};
use std::marker::Model;

/// Ids in a row. Up to two stand in the value itself, as almost every node has no more; further ones stand elsewhere, so that the value stays small.
#[derive(Drop)]
pub enum Ids {
    None,
    One([Id; 1]),
    Two([Id; 2]),
    More(Box<Vec<Id>>),
}

/// The kids of a node, which contracts see as the list of their ids.
#[derive(Drop)]
pub struct Kids {
    ids: Ids,
}

impl Model for Kids {
    ghost use Rattle.std.specs.Prelude.{List};
    ghost use Rattle.dlk_store.specs.declared.Id.{Id};
    ghost use Rattle.dlk_shared.specs.Ids.{ids_in};

    ghost Value = { List Id };

    ghost view = { λ k. ids_in k.ids };
}

impl Kids {
    /// The kids with these ids. Up to two take no memory.
    pub fn new(alloc: Global, ids: &[Id]) -> Result<Kids, AllocError>
        ensures { IfOk result (λ kids. kids ≡ ids.now) }
    {
        match ids {
            [] => Ok(Kids { ids: Ids::None }),
            [a] => Ok(Kids {
                ids: Ids::One([*a]),
            }),
            [a, b] => Ok(Kids {
                ids: Ids::Two([*a, *b]),
            }),
            _ => {
                let ids = Vec::from_slice(alloc, ids)?;
                Ok(Kids {
                    ids: Ids::More(Box::new(alloc, ids)?),
                })
            }
        }
    }

    /// The ids in order.
    pub fn as_slice(&self) -> &[Id]
        ensures { result.now ≡ self.now }
    {
        match &self.ids {
            Ids::None => &[],
            Ids::One(ids) => ids.as_slice(),
            Ids::Two(ids) => ids.as_slice(),
            Ids::More(ids) => ids.as_slice(),
        }
    }
}

impl PartialEq for Kids {
    ghost use Rattle.std.specs.Cmp.Lexicographic.{pointwise, lists_per};
    ghost use Rattle.dlk_store.specs.contracts.IdPartialEq.TheImpl.Laws.{laws-law as id_per};

    ghost eq = { pointwise ⟦<Id as PartialEq>⟧.eq };

    ghost laws = { lists_per id_per };

    fn eq(&self, other: &Kids) -> bool {
        self.as_slice() == other.as_slice()
    }
}

impl Eq for Kids {
    ghost use Rattle.std.specs.Cmp.Lexicographic.{lists_equiv};
    ghost use Rattle.dlk_store.specs.contracts.IdEq.TheImpl.Laws.{laws-law as id_equiv};

    ghost laws = { lists_equiv id_equiv };
}
