//! Nodes as copies, for walks that make trees of what they look at.
ghost use Rattle.std.specs.Prelude.{◌≡◌, ◌+◌, IfOk, All};
ghost use Rattle.dlk_tree.specs.Trees.{node};
ghost use Rattle.dlk_store.specs.Stores.{IsId, tree, kid_trees};

use crate::{Id, Steps, Store};
use dlk_tree::Op;
use std::alloc::{AllocError, Global};
use std::sync::ledger::Ledger;

/// A copy of the root of a tree: its operator and its kids. It is one look.
///
/// # Errors
///
/// [`AllocError`]: memory ran out.
pub fn copied<S: Store, L: Ledger>(
    alloc: Global,
    store: &S,
    id: Id,
    steps: &mut Steps<L>,
) -> Result<(Op, Vec<Id>), AllocError>
    requires { IsId (S.trees store.now) id }
    ensures node { IfOk result (λ r. tree (S.trees store.now) id ≡ node r.0 (kid_trees (S.trees store.now) r.1.items)) }
    ensures kids { IfOk result (λ r. All (IsId (S.trees store.now)) r.1.items) }
    ensures step { steps.new ≡ steps.old + 1 }
{
    let node = store.look(id, steps);
    let kids = node.kids.to_vec(alloc)?;
    let op = node.op.clone()?;
    Ok((op, kids))
}
