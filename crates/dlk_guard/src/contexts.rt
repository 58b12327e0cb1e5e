//! Contexts whose `_` stands in a differential.
ghost use Rattle.std.specs.Prelude.{◌≡◌, ◌+◌, ◌≤◌, map};
ghost use Rattle.dlk_tree.specs.Trees.{size};
ghost use Rattle.std.specs.List.{list_any};
ghost use Rattle.dlk_store.specs.Stores.{IsId, tree};
ghost use Rattle.dlk_sequent.specs.Substitutions.{pairs_at, AreKnownPairs};
ghost use Rattle.dlk_guard.specs.Guarded.{is_differential, has_hole_in_differential, is_differential_context};
ghost use Rattle.dlk_guard.specs.Looks.{pairs_looks};

use dlk_sequent::Pair;
use dlk_store::{Id, Steps, Store};
use dlk_tree::Op;
use std::sync::ledger::Ledger;

fn is_differential(op: &Op) -> bool
    ensures { result ≡ is_differential op.now }
{
    matches!(op, Op::DiffF)
}

/// Whether `_` stands in the tree below a `( )'` of a formula. It goes where `_` stands, and nowhere else.
fn has_hole_in_differential<S: Store, L: Ledger>(store: &S, id: Id, steps: &mut Steps<L>) -> bool
    requires { IsId (S.trees store.now) id }
    ensures value { result ≡ has_hole_in_differential (tree (S.trees store.now) id) }
    ensures cost { steps.new ≤ steps.old + size (tree (S.trees store.now) id) }
{
    if !store.has_hole(id) {
        return false;
    }
    let node = store.look(id, steps);
    if is_differential(node.op) {
        return true;
    }
    for kid in node.kids {
        if has_hole_in_differential(store, *kid, steps) {
            return true;
        }
    }
    false
}

/// Whether it does in one of the replacements.
pub(crate) fn has_differential_context<S: Store, L: Ledger>(
    store: &S,
    pairs: &[Pair],
    steps: &mut Steps<L>,
) -> bool
    requires { AreKnownPairs (S.trees store.now) pairs.now }
    ensures value { result ≡ list_any is_differential_context (pairs_at (S.trees store.now) pairs.now) }
    ensures cost { steps.new ≤ steps.old + pairs_looks (pairs_at (S.trees store.now) pairs.now) }
{
    for pair in pairs {
        if has_hole_in_differential(store, pair.by, steps) {
            return true;
        }
    }
    false
}
