//! Paths into the trees of a store.
ghost use Rattle.std.specs.Prelude.{◌≡◌, ◌+◌, ◌≤◌, [], ◌∷◌, None, length, MatchOption, IfOk, IfErr};
ghost use Rattle.dlk_store.specs.Stores.{IsId, tree};
ghost use Rattle.dlk_calculus.specs.Paths.{subtree};
ghost use Rattle.dlk_sequent.specs.Spines.{LeadsTo, IsPut, IsPutFault};

use crate::fault::PutFault;
use crate::spine::Spine;
use dlk_store::{Id, Steps, Store};
use std::alloc::Global;
use std::sync::ledger::Ledger;

/// The kid of this number, counted from 0. None comes where there is no such kid.
pub(crate) fn kid_at<S: Store, L: Ledger>(
    store: &S,
    id: Id,
    n: u32,
    steps: &mut Steps<L>,
) -> Option<Id>
    requires { IsId (S.trees store.now) id }
    ensures kid { MatchOption result (subtree (tree (S.trees store.now) id) (n ∷ []) ≡ None) (LeadsTo (S.trees store.now) id (n ∷ [])) }
    ensures cost { steps.new ≤ steps.old + 1 }
{
    match store.look(id, steps).kids.get(n as usize) {
        Some(kid) => Some(*kid),
        None => None,
    }
}

/// The subtree at a path: the numbers of the kids that lead to it, counted from 0. None comes exactly where the path leaves the
/// tree. It takes no memory, and at most a look for each kid of the path.
pub fn subtree<S: Store, L: Ledger>(
    store: &S,
    id: Id,
    path: &[u32],
    steps: &mut Steps<L>,
) -> Option<Id>
    requires { IsId (S.trees store.now) id }
    ensures found { MatchOption result (subtree (tree (S.trees store.now) id) path.now ≡ None) (LeadsTo (S.trees store.now) id path.now) }
    ensures cost { steps.new ≤ steps.old + length path.now }
{
    let mut at = id;
    for kid in path {
        let Some(next) = kid_at(store, at, *kid, steps) else {
            return None;
        };
        at = next;
    }
    Some(at)
}

/// The tree with another one at a path: the numbers of the kids that lead to that place, counted from 0. Nodes are made for the
/// way alone; the rest is shared. Whoever wants the subtree too, or several trees with something else there, makes a `Spine`.
///
/// # Errors
///
/// `NoPlace` exactly where the path leaves the tree, and `WrongSort` exactly where it doesn't and the new tree is of another sort
/// than the one there. `Memory` where none was left; the store may have more nodes then.
pub fn put<S: Store, L: Ledger>(
    alloc: Global,
    store: &mut S,
    id: Id,
    path: &[u32],
    new: Id,
    steps: &mut Steps<L>,
) -> Result<Id, PutFault>
    requires known { IsId (S.trees store.old) id }
    requires new { IsId (S.trees store.old) new }
    ensures ok { IfOk result (IsPut (S.trees store.old) (S.trees store.new) id path.now new) }
    ensures err { IfErr result (IsPutFault (S.trees store.old) id path.now new) }
    ensures grows { S.grows store.old store.new }
{
    let Some(spine) = Spine::of(alloc, store, id, path, steps)? else {
        return Err(PutFault::NoPlace);
    };
    spine.put(alloc, store, new, steps)
}
