//! The first formulas of two sides that are the same.
ghost use Rattle.std.specs.Prelude.{◌≤◌, ℕ, length, map, All, IfSome, IfNone};
ghost use Rattle.dlk_store.specs.Stores.{IsId, tree};
ghost use Rattle.dlk_calculus.specs.Limits.{most_formulas};
ghost use Rattle.dlk_calculus.specs.Limited.{HasFewFormulas};
ghost use Rattle.dlk_calculus.specs.Places.{At};
ghost use Rattle.dlk_sequent.specs.Sequents.{sequent_at, IsKnown};
ghost use Rattle.dlk_elab.specs.Atoms.{AreSame, AreFirstSame};
ghost use Rattle.dlk_elab.specs.Ties.{IsFirstPlace};

use dlk_sequent::Sequent;
use dlk_store::{Id, Store};

/// The first place of a formula on a side.
fn first_place<S: Store>(store: &S, f: Id, side: &[Id]) -> Option<u32>
    requires formula { IsId (S.trees store.now) f }
    requires side { All (IsId (S.trees store.now)) side.now }
    requires few { length side.now ≤ most_formulas }
    ensures found { IfSome result (λ j. IsFirstPlace (map (tree (S.trees store.now)) side.now) j (tree (S.trees store.now) f)) }
    ensures none { IfNone result ((j : ℕ) → ¬ At (map (tree (S.trees store.now)) side.now) j (tree (S.trees store.now) f)) }
{
    for (i, g) in side.iter().enumerate() {
        if store.same(f, *g) {
            return Some(i as u32 + 1);
        }
    }
    None
}

/// The first place on the left whose formula stands on the right too, and its first place there.
pub(crate) fn first_same<S: Store>(store: &S, s: &Sequent) -> Option<(u32, u32)>
    requires known { IsKnown (S.trees store.now) s.now }
    requires few { HasFewFormulas (sequent_at (S.trees store.now) s.now) }
    ensures found { IfSome result (λ p. AreFirstSame (sequent_at (S.trees store.now) s.now) p.0 p.1) }
    ensures none { IfNone result ((i j : ℕ) → ¬ AreSame (sequent_at (S.trees store.now) s.now) i j) }
{
    let left = s.ante.as_slice();
    let right = s.succ.as_slice();
    for (i, f) in left.iter().enumerate() {
        if let Some(j) = first_place(store, *f, right) {
            return Some((i as u32 + 1, j));
        }
    }
    None
}
