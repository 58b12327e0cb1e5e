//! Sequents that are the same.
ghost use Rattle.std.specs.Prelude.{◌≡◌, ◌↔◌, IsTrue, All, map};
ghost use Rattle.dlk_store.specs.Stores.{IsId, tree};
ghost use Rattle.dlk_sequent.specs.Sequents.{sequent_at, IsKnown};

use crate::sequent::Sequent;
use dlk_store::{Id, Store};

/// Whether the ids stand for the same trees, one by one.
fn same_side<S: Store>(store: &S, a: &[Id], b: &[Id]) -> bool
    requires first { All (IsId (S.trees store.now)) a.now }
    requires second { All (IsId (S.trees store.now)) b.now }
    ensures { IsTrue result ↔ (map (tree (S.trees store.now)) a.now ≡ map (tree (S.trees store.now)) b.now) }
{
    if a.len() != b.len() {
        return false;
    }
    for i in 0..a.len() {
        if !store.same(a[i], b[i]) {
            return false;
        }
    }
    true
}

/// Whether the two sequents are the same, formula by formula in order.
pub fn same_sequent<S: Store>(store: &S, a: &Sequent, b: &Sequent) -> bool
    requires first { IsKnown (S.trees store.now) a.now }
    requires second { IsKnown (S.trees store.now) b.now }
    ensures { IsTrue result ↔ (sequent_at (S.trees store.now) a.now ≡ sequent_at (S.trees store.now) b.now) }
{
    same_side(store, a.ante.as_slice(), b.ante.as_slice())
        && same_side(store, a.succ.as_slice(), b.succ.as_slice())
}
