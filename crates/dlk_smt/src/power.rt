//! Exponents that have a text, and powers that have none.
ghost use Rattle.std.specs.Prelude.{◌≡◌, All, map};
ghost use Rattle.std.specs.List.{list_any};
ghost use Rattle.dlk_store.specs.Stores.{IsId, tree, kid_trees};
ghost use Rattle.dlk_sequent.specs.Sequents.{sequent_at, IsKnown};
ghost use Rattle.dlk_smt.specs.Smt.{small_whole, exponent, is_other_power, has_other_power, is_power};

use dlk_sequent::Sequent;
use dlk_store::{Id, Steps, Store};
use dlk_tree::Op;
use std::sync::ledger::Ledger;

/// A whole literal from 1 to 16.
fn small_whole(op: &Op) -> Option<u128>
    ensures { result ≡ small_whole op.now }
{
    match op {
        Op::Number(n) if n.scale == 0 && 1 <= n.digits && n.digits <= 16 => Some(n.digits),
        _ => None,
    }
}

/// The exponent among a power's kids, if it is a whole literal from 1 to 16.
pub(crate) fn exponent<S: Store, L: Ledger>(
    store: &S,
    kids: &[Id],
    steps: &mut Steps<L>,
) -> Option<u128>
    requires { All (IsId (S.trees store.now)) kids.now }
    ensures { result ≡ exponent (kid_trees (S.trees store.now) kids.now) }
{
    let [_, id, ..] = kids else {
        return None;
    };
    let node = store.look(*id, steps);
    small_whole(node.op)
}

fn is_other_power<S: Store, L: Ledger>(
    store: &S,
    op: &Op,
    kids: &[Id],
    steps: &mut Steps<L>,
) -> bool
    requires { All (IsId (S.trees store.now)) kids.now }
    ensures { result ≡ is_other_power op.now (kid_trees (S.trees store.now) kids.now) }
{
    match op {
        Op::Pow => exponent(store, kids, steps).is_none(),
        _ => false,
    }
}

/// Whether a power in the tree has another exponent.
fn has_other_power<S: Store, L: Ledger>(store: &S, id: Id, steps: &mut Steps<L>) -> bool
    requires { IsId (S.trees store.now) id }
    ensures { result ≡ has_other_power (tree (S.trees store.now) id) }
{
    let node = store.look(id, steps);
    if is_other_power(store, node.op, node.kids, steps) {
        return true;
    }
    for kid in node.kids {
        if has_other_power(store, *kid, steps) {
            return true;
        }
    }
    false
}

fn any_has_other_power<S: Store, L: Ledger>(store: &S, ids: &[Id], steps: &mut Steps<L>) -> bool
    requires { All (IsId (S.trees store.now)) ids.now }
    ensures { result ≡ list_any has_other_power (map (tree (S.trees store.now)) ids.now) }
{
    for id in ids {
        if has_other_power(store, *id, steps) {
            return true;
        }
    }
    false
}

/// Whether a power in the sequent has another exponent.
pub(crate) fn is_power<S: Store, L: Ledger>(store: &S, s: &Sequent, steps: &mut Steps<L>) -> bool
    requires { IsKnown (S.trees store.now) s.now }
    ensures { result ≡ is_power (sequent_at (S.trees store.now) s.now) }
{
    any_has_other_power(store, s.ante.as_slice(), steps)
        || any_has_other_power(store, s.succ.as_slice(), steps)
}
