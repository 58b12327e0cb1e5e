//! Nodes that are looked at once each.
ghost use Rattle.std.specs.Prelude.{◌≡◌, IfOk, IfSome, All, List, None, false, Contains};
ghost use Rattle.dlk_tree.specs.Trees.{Tree};
ghost use Rattle.dlk_store.specs.Stores.{IsId, tree};
ghost use Rattle.dlk_subst.specs.Looked.{same_id, IsSeen, AreSeen, SeesMore};

use dlk_store::{Id, Steps, Store};
use dlk_tree::Op;
use std::alloc::AllocError;
use std::sync::ledger::Ledger;

/// A node that was looked at.
#[derive(Clone, Copy)]
pub(crate) struct Seen<'a> {
    pub id: Id,
    pub op: &'a Op,
    pub kids: &'a [Id],
}

/// The node of the id, if it was seen.
fn find_seen<'a>(seen: &[Seen<'a>], id: Id) -> Option<Seen<'a>>
    ensures found { IfSome result (λ s. (s.id ≡ id) × Contains seen.now s) }
    ensures absent { result ≡ None → All (λ s. same_id s.id id ≡ false) seen.now }
{
    for s in seen {
        if s.id == id {
            return Some(*s);
        }
    }
    None
}

/// The node of the id, which is looked at where it wasn't seen before.
pub(crate) fn look_once<'a, S: Store, L: Ledger>(
    store: &'a S,
    seen: &mut Vec<Seen<'a>>,
    id: Id,
    steps: &mut Steps<L>,
) -> Result<Seen<'a>, AllocError>
    requires known { IsId (S.trees store.now) id }
    ensures id { IfOk result (λ s. s.id ≡ id) }
    ensures node { (all : List Tree) → AreSeen (S.trees store.now) all seen.old.items → IfOk result (IsSeen (S.trees store.now)) }
    ensures sees { (all : List Tree) → Contains all (tree (S.trees store.now) id) → AreSeen (S.trees store.now) all seen.old.items →
        SeesMore (S.trees store.now) all seen.old.items seen.new.items steps.old steps.new }
{
    if let Some(s) = find_seen(seen.as_slice(), id) {
        return Ok(s);
    }
    seen.reserve(1)?;
    let node = store.look(id, steps);
    let s = Seen {
        id,
        op: node.op,
        kids: node.kids,
    };
    seen.push(s)?;
    Ok(s)
}
