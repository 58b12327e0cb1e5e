//! A merge: a fact's goals stand in the place of the goal that it proves.
ghost use Rattle.std.specs.Prelude.{All, IfOk, IfErr};
ghost use Rattle.dlk_calculus.specs.Steps.{Merge, Gives, IsWithin, Fault};
ghost use Rattle.dlk_kernel.specs.Faults.{IsStepFault};
ghost use Rattle.dlk_kernel.specs.Kernel.{provable_at, provables_at, IsKnownRow};

use crate::fault::StepFault;
use crate::leaves::join;
use crate::row::Row;
use dlk_calculus::{MOST_GOALS, MOST_LEAVES, Reason};
use dlk_sequent::{item_at, same_sequent};
use dlk_store::Store;
use std::alloc::Global;

/// A fact with the goals of another in the place of the goal that the other proves. The other's leaves join its own:
///
/// ```text
/// goals before, the goals of `by`, goals after
/// --------------------------------------------
/// the fact's conclusion
/// ```
pub(super) fn merge<S: Store>(
    alloc: Global,
    store: &S,
    rows: &[Row],
    fact: u32,
    goal: u32,
    by: u32,
) -> Result<Row, StepFault>
    requires { All (IsKnownRow (S.trees store.now)) rows.now }
    ensures given { IfOk result (λ row. Gives (provables_at (S.trees store.now) rows.now) (Merge fact goal by) (provable_at (S.trees store.now) row)) }
    ensures within { IfOk result (λ row. IsWithin (Merge fact goal by) (provable_at (S.trees store.now) row)) }
    ensures known { IfOk result (IsKnownRow (S.trees store.now)) }
    ensures fault { IfErr result (IsStepFault (Fault (provables_at (S.trees store.now) rows.now) (Merge fact goal by))) }
{
    let Some(row) = item_at(rows, fact) else {
        return Err(StepFault::Refused(Reason::NoFact));
    };
    let Some(proof) = item_at(rows, by) else {
        return Err(StepFault::Refused(Reason::NoFact));
    };
    let Some(s) = item_at(row.goals.as_slice(), goal) else {
        return Err(StepFault::Refused(Reason::NoGoal));
    };
    if !same_sequent(store, s.value(), proof.conclusion.value()) {
        return Err(StepFault::Refused(Reason::NotEqual));
    }
    let goals = row.goals.with_all_at(alloc, goal, proof.goals.as_slice())?;
    if goals.as_slice().len() > MOST_GOALS {
        return Err(StepFault::Refused(Reason::GoalsFull));
    }
    let leaves = join(alloc, store, &row.leaves, &proof.leaves)?;
    if leaves.value().as_slice().len() > MOST_LEAVES {
        return Err(StepFault::Refused(Reason::LeavesFull));
    }
    let conclusion = row.conclusion.share()?;
    Ok(Row {
        conclusion,
        goals,
        leaves,
    })
}
