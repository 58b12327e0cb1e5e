//! A leaf: a sequent of arithmetic is a leaf of its own.
ghost use Rattle.std.specs.Prelude.{List, IfOk, IfErr};
ghost use Rattle.dlk_calculus.specs.Provables.{Provable};
ghost use Rattle.dlk_calculus.specs.Steps.{Leaf, Gives, IsWithin, Fault};
ghost use Rattle.dlk_sequent.specs.Sequents.{sequent_at, IsKnown};
ghost use Rattle.dlk_kernel.specs.Faults.{IsStepFault};
ghost use Rattle.dlk_kernel.specs.Kernel.{provable_at, IsKnownRow};

use crate::fault::StepFault;
use crate::goals::Goals;
use crate::limits::limit_sequents;
use crate::row::Row;
use dlk_calculus::Reason;
use dlk_sequent::{Listed, Sequent, Shared, is_arith, is_sequent};
use dlk_store::{Steps, Store};
use std::alloc::Global;
use std::sync::ledger::Ledger;

/// A sequent of arithmetic, without goals. It is a leaf of its own:
///
/// ```text
///
/// ---
/// s
/// ```
pub(super) fn leaf<S: Store, L: Ledger>(
    alloc: Global,
    store: &S,
    s: &Sequent,
    steps: &mut Steps<L>,
) -> Result<Row, StepFault>
    requires { IsKnown (S.trees store.now) s.now }
    ensures given { IfOk result (λ row. (rows : List Provable) →
        Gives rows (Leaf (sequent_at (S.trees store.now) s.now)) (provable_at (S.trees store.now) row)) }
    ensures within { IfOk result (λ row. IsWithin (Leaf (sequent_at (S.trees store.now) s.now)) (provable_at (S.trees store.now) row)) }
    ensures known { IfOk result (IsKnownRow (S.trees store.now)) }
    ensures fault { IfErr result (IsStepFault (λ why. (rows : List Provable) → Fault rows (Leaf (sequent_at (S.trees store.now) s.now)) why)) }
{
    if !is_sequent(store, s, steps) {
        return Err(StepFault::Refused(Reason::WrongShape));
    }
    if !is_arith(store, s, steps) {
        return Err(StepFault::Refused(Reason::NotArith));
    }
    let conclusion = Shared::new(alloc, s.copy(alloc)?)?;
    let own = conclusion.share()?;
    let leaves = Listed::from_vec(vec![in alloc; own]?);
    limit_sequents(store, leaves.as_slice())?;
    let leaves = Shared::new(alloc, leaves)?;
    let goals = Goals::new();
    Ok(Row {
        conclusion,
        goals,
        leaves,
    })
}
