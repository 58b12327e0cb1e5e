//! Two names exchanged in sequents.
ghost use Rattle.std.specs.Prelude.{◌≡◌, map, All, IfOk};
ghost use Rattle.dlk_store.specs.Stores.{IsId, tree};
ghost use Rattle.dlk_calculus.specs.Rename.{swap};
ghost use Rattle.dlk_calculus.specs.Provables.{swap_sequent};
ghost use Rattle.dlk_sequent.specs.Sequents.{sequent_at, IsKnown};

use crate::goals::Goals;
use dlk_rename::swap;
use dlk_sequent::{Listed, Sequent, Shared};
use dlk_store::{Id, Steps, Store, StoreFault};
use dlk_tree::Name;
use std::alloc::Global;
use std::sync::ledger::Ledger;

/// The trees with two names exchanged.
fn swap_ids<S: Store, L: Ledger>(
    alloc: Global,
    store: &mut S,
    ids: &[Id],
    x: &Name,
    y: &Name,
    steps: &mut Steps<L>,
) -> Result<Listed<Id>, StoreFault>
    requires { All (IsId (S.trees store.old)) ids.now }
    ensures made { IfOk result (λ made. map (tree (S.trees store.new)) made ≡ map (swap x.now y.now) (map (tree (S.trees store.old)) ids.now)) }
    ensures known { IfOk result (All (IsId (S.trees store.new))) }
    ensures grows { S.grows store.old store.new }
{
    let mut made = Listed::new(alloc);
    for id in ids {
        let swapped = swap(alloc, store, *id, x, y, steps)?;
        made.push(swapped)?;
    }
    Ok(made)
}

/// The sequent with two names exchanged in its formulas.
pub(crate) fn swap_sequent<S: Store, L: Ledger>(
    alloc: Global,
    store: &mut S,
    s: &Sequent,
    x: &Name,
    y: &Name,
    steps: &mut Steps<L>,
) -> Result<Sequent, StoreFault>
    requires { IsKnown (S.trees store.old) s.now }
    ensures made { IfOk result (λ made. sequent_at (S.trees store.new) made ≡ swap_sequent x.now y.now (sequent_at (S.trees store.old) s.now)) }
    ensures known { IfOk result (IsKnown (S.trees store.new)) }
    ensures grows { S.grows store.old store.new }
{
    let ante = swap_ids(alloc, store, s.ante.as_slice(), x, y, steps)?;
    let succ = swap_ids(alloc, store, s.succ.as_slice(), x, y, steps)?;
    Ok(Sequent { ante, succ })
}

/// The sequents with two names exchanged in their formulas.
pub(crate) fn swap_sequents<S: Store, L: Ledger>(
    alloc: Global,
    store: &mut S,
    all: &[Shared<Sequent>],
    x: &Name,
    y: &Name,
    steps: &mut Steps<L>,
) -> Result<Goals, StoreFault>
    requires { All (IsKnown (S.trees store.old)) all.now }
    ensures made { IfOk result (λ made.
        map (sequent_at (S.trees store.new)) made ≡ map (swap_sequent x.now y.now) (map (sequent_at (S.trees store.old)) all.now)) }
    ensures known { IfOk result (All (IsKnown (S.trees store.new))) }
    ensures grows { S.grows store.old store.new }
{
    let mut made = Goals::new();
    for s in all {
        let swapped = swap_sequent(alloc, store, s.value(), x, y, steps)?;
        let swapped = Shared::new(alloc, swapped)?;
        made = made.with(alloc, swapped)?;
    }
    Ok(made)
}
