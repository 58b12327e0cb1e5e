//! A rule on a goal: the rule's premises stand in its place.
ghost use Rattle.std.specs.Prelude.{All, IfOk, IfErr};
ghost use Rattle.dlk_calculus.specs.Provables.{HasFormulas};
ghost use Rattle.dlk_calculus.specs.Limited.{IsLimited};
ghost use Rattle.dlk_calculus.specs.Steps.{Apply, Gives, IsWithin, Fault};
ghost use Rattle.dlk_rules.specs.Steps.{rule_at, RuleIsKnown};
ghost use Rattle.dlk_kernel.specs.Faults.{IsStepFault};
ghost use Rattle.dlk_kernel.specs.Kernel.{provable_at, provables_at, IsKnownRow};

use crate::fault::StepFault;
use crate::limits::limit_sequents;
use crate::row::Row;
use dlk_calculus::{MOST_GOALS, Reason};
use dlk_rules::{Rule, premises};
use dlk_sequent::{item_at, shared_each};
use dlk_store::{Steps, Store};
use std::alloc::Global;
use std::sync::ledger::Ledger;

/// A fact with the premises of a rule instead of a goal:
///
/// ```text
/// goals before, the rule's premises, goals after
/// ----------------------------------------------
/// the fact's conclusion
/// ```
pub(super) fn apply<S: Store, L: Ledger>(
    alloc: Global,
    store: &mut S,
    rows: &[Row],
    fact: u32,
    goal: u32,
    rule: &Rule,
    steps: &mut Steps<L>,
) -> Result<Row, StepFault>
    requires rule { RuleIsKnown (S.trees store.old) rule.now }
    requires rows { All (IsKnownRow (S.trees store.old)) rows.now }
    requires formulas { All HasFormulas (provables_at (S.trees store.old) rows.now) }
    requires limited { All IsLimited (provables_at (S.trees store.old) rows.now) }
    ensures given { IfOk result (λ row.
        Gives (provables_at (S.trees store.old) rows.now) (Apply fact goal (rule_at (S.trees store.old) rule.now)) (provable_at (S.trees store.new) row)) }
    ensures within { IfOk result (λ row. IsWithin (Apply fact goal (rule_at (S.trees store.old) rule.now)) (provable_at (S.trees store.new) row)) }
    ensures known { IfOk result (IsKnownRow (S.trees store.new)) }
    ensures fault { IfErr result (IsStepFault (Fault (provables_at (S.trees store.old) rows.now) (Apply fact goal (rule_at (S.trees store.old) rule.now)))) }
    ensures grows { S.grows store.old store.new }
{
    prove!(rule.is_proper());
    let Some(row) = item_at(rows, fact) else {
        return Err(StepFault::Refused(Reason::NoFact));
    };
    let Some(s) = item_at(row.goals.as_slice(), goal) else {
        return Err(StepFault::Refused(Reason::NoGoal));
    };
    let new = premises(alloc, store, rule, s.value(), steps)?;
    let new = shared_each(alloc, new)?;
    limit_sequents(store, new.as_slice())?;
    let goals = row.goals.with_all_at(alloc, goal, new.as_slice())?;
    if goals.as_slice().len() > MOST_GOALS {
        return Err(StepFault::Refused(Reason::GoalsFull));
    }
    let conclusion = row.conclusion.share()?;
    let leaves = row.leaves.share()?;
    Ok(Row {
        conclusion,
        goals,
        leaves,
    })
}
