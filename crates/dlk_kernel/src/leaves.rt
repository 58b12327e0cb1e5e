//! The leaves of a merge: those of one fact that are new to the other.
ghost use Rattle.std.specs.Prelude.{◌≡◌, ◌↔◌, ◌++◌, List, map, All, IfOk, IsTrue};
ghost use Rattle.dlk_calculus.specs.Sequents.{Sequent as TreeSequent};
ghost use Rattle.dlk_calculus.specs.Provables.{IsAmong, AreNew};
ghost use Rattle.dlk_sequent.specs.Sequents.{sequent_at, IsKnown};

use dlk_sequent::{Listed, Sequent, Shared, same_sequent};
use dlk_store::Store;
use std::alloc::{AllocError, Global};

/// Whether the sequent is the same as one of these.
fn is_among<S: Store>(store: &S, all: &[Shared<Sequent>], s: &Sequent) -> bool
    requires all { All (IsKnown (S.trees store.now)) all.now }
    requires known { IsKnown (S.trees store.now) s.now }
    ensures { IsTrue result ↔ IsAmong (sequent_at (S.trees store.now) s.now) (map (sequent_at (S.trees store.now)) all.now) }
{
    for t in all {
        if same_sequent(store, s, t.value()) {
            return true;
        }
    }
    false
}

/// The old leaves, and behind them, in their order, those of `more` that aren't among them.
fn append_new<S: Store>(
    alloc: Global,
    store: &S,
    old: &Listed<Shared<Sequent>>,
    more: &[Shared<Sequent>],
) -> Result<Listed<Shared<Sequent>>, AllocError>
    requires old { All (IsKnown (S.trees store.now)) old.now }
    requires more { All (IsKnown (S.trees store.now)) more.now }
    ensures joined { IfOk result (λ all. (new : List TreeSequent)
        × AreNew (map (sequent_at (S.trees store.now)) old.now) (map (sequent_at (S.trees store.now)) more.now) new
        × (map (sequent_at (S.trees store.now)) all ≡ map (sequent_at (S.trees store.now)) old.now ++ new)) }
    ensures known { IfOk result (All (IsKnown (S.trees store.now))) }
{
    let mut all = old.share_with_room(alloc, more.len())?;
    for s in more {
        if is_among(store, old.as_slice(), s.value()) {
            continue;
        }
        let leaf = s.share()?;
        all.push(leaf)?;
    }
    Ok(all)
}

/// The old leaves, and behind them, in their order, those of `more` that aren't among them. Where one list is empty the other is
/// shared.
pub(crate) fn join<S: Store>(
    alloc: Global,
    store: &S,
    old: &Shared<Listed<Shared<Sequent>>>,
    more: &Shared<Listed<Shared<Sequent>>>,
) -> Result<Shared<Listed<Shared<Sequent>>>, AllocError>
    requires old { All (IsKnown (S.trees store.now)) old.now }
    requires more { All (IsKnown (S.trees store.now)) more.now }
    ensures joined { IfOk result (λ all. (new : List TreeSequent)
        × AreNew (map (sequent_at (S.trees store.now)) old.now) (map (sequent_at (S.trees store.now)) more.now) new
        × (map (sequent_at (S.trees store.now)) all ≡ map (sequent_at (S.trees store.now)) old.now ++ new)) }
    ensures known { IfOk result (All (IsKnown (S.trees store.now))) }
{
    if more.value().as_slice().is_empty() {
        return old.share();
    }
    if old.value().as_slice().is_empty() {
        return more.share();
    }
    let all = append_new(alloc, store, old.value(), more.value().as_slice())?;
    Shared::new(alloc, all)
}
