//! Key and target together, kids in order.
ghost use Rattle.std.specs.Prelude.{◌≡◌, IfOk, All};
ghost use Rattle.dlk_tree.specs.Trees.{node};
ghost use Rattle.dlk_store.specs.Stores.{IsId, tree, kid_trees};
ghost use Rattle.dlk_sequent.specs.Extras.{extra_at, IsKnownExtra};
ghost use Rattle.dlk_match.specs.Matching.{Matches};
ghost use Rattle.dlk_match.specs.Tried.{Tried};
ghost use Rattle.dlk_match.specs.Rests.{rest_of, RestIs};

use crate::head::{Head, match_node};
use dlk_sequent::Extra;
use dlk_store::{Id, Steps, Store, StoreFault};
use dlk_tree::Op;
use std::alloc::{AllocError, Global};
use std::sync::ledger::Ledger;

/// What the roots of key and target leave to match.
#[derive(Drop)]
pub(crate) enum Rest {
    /// Nothing: the trees match, or they don't.
    Over(bool),
    /// As many kids of the key as of the target.
    Kids { keys: Vec<Id>, targets: Vec<Id> },
}

/// The root of a tree, as a copy.
fn root<S: Store, L: Ledger>(
    alloc: Global,
    store: &S,
    id: Id,
    steps: &mut Steps<L>,
) -> Result<(Op, Vec<Id>), AllocError>
    requires { IsId (S.trees store.now) id }
    ensures tree { IfOk result (λ r. tree (S.trees store.now) id ≡ node r.0 (kid_trees (S.trees store.now) r.1.items)) }
    ensures known { IfOk result (λ r. All (IsId (S.trees store.now)) r.1.items) }
{
    let node = store.look(id, steps);
    let kids = node.kids.to_vec(alloc)?;
    let op = node.op.clone()?;
    Ok((op, kids))
}

/// What is left where the key's root over these kids comes to this.
fn rest_of(keys: Vec<Id>, head: Head) -> Rest
    ensures { result ≡ rest_of keys head }
{
    match head {
        Head::Refused => Rest::Over(false),
        Head::Taken => Rest::Over(true),
        Head::Left(targets) => {
            if keys.len() == targets.len() {
                Rest::Kids { keys, targets }
            } else {
                Rest::Over(false)
            }
        }
    }
}

/// The roots of key and target.
fn match_roots<S: Store, L: Ledger>(
    alloc: Global,
    store: &mut S,
    extra: &mut Extra,
    key: Id,
    target: Id,
    steps: &mut Steps<L>,
) -> Result<Rest, StoreFault>
    requires extra { IsKnownExtra (S.trees store.old) extra.old }
    requires key { IsId (S.trees store.old) key }
    requires target { IsId (S.trees store.old) target }
    ensures matched { IfOk result (RestIs (S.trees store.old) (S.trees store.new) (tree (S.trees store.old) key) (tree (S.trees store.old) target)
        (extra_at (S.trees store.old) extra.old) (extra_at (S.trees store.new) extra.new)) }
    ensures known { IsKnownExtra (S.trees store.new) extra.new }
    ensures grows { S.grows store.old store.new }
{
    let (op, keys) = root(alloc, store, key, steps)?;
    let head = match_node(alloc, store, extra, &op, keys.as_slice(), target, steps)?;
    Ok(rest_of(keys, head))
}

/// The key matches the target, from the names and pairs of before to the new ones. False where it doesn't.
pub(crate) fn match_tree<S: Store, L: Ledger>(
    alloc: Global,
    store: &mut S,
    extra: &mut Extra,
    key: Id,
    target: Id,
    steps: &mut Steps<L>,
) -> Result<bool, StoreFault>
    requires extra { IsKnownExtra (S.trees store.old) extra.old }
    requires key { IsId (S.trees store.old) key }
    requires target { IsId (S.trees store.old) target }
    ensures matched { IfOk result (Tried (Matches (tree (S.trees store.old) key) (tree (S.trees store.old) target)) (extra_at (S.trees store.old) extra.old)
        (extra_at (S.trees store.new) extra.new)) }
    ensures known { IsKnownExtra (S.trees store.new) extra.new }
    ensures grows { S.grows store.old store.new }
{
    let (keys, targets) = match match_roots(alloc, store, extra, key, target, steps)? {
        Rest::Over(is) => return Ok(is),
        Rest::Kids { keys, targets } => (keys, targets),
    };
    for i in 0..keys.len() {
        if !match_tree(alloc, store, extra, keys[i], targets[i], steps)? {
            return Ok(false);
        }
    }
    Ok(true)
}
