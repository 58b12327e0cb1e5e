//! The steps of the calculus, a file for each, and the row that one gives.
ghost use Rattle.std.specs.Prelude.{All, IsTrue, IfOk, IfErr};
ghost use Rattle.dlk_calculus.specs.Provables.{HasFormulas};
ghost use Rattle.dlk_calculus.specs.Limited.{IsLimited};
ghost use Rattle.dlk_calculus.specs.Steps.{Gives, IsWithin, Fault};
ghost use Rattle.dlk_rules.specs.Steps.{step_at, HasKnownIds};
ghost use Rattle.dlk_kernel.specs.Faults.{IsStepFault};
ghost use Rattle.dlk_kernel.specs.Kernel.{provable_at, provables_at, IsKnownRow};
ghost use Rattle.dlk_kernel.specs.Looks.{LooksAtFew};
ghost use Rattle.dlk_kernel.specs.Named.{AreNamed};

mod apply;
mod axiom;
mod axiomatic_rule;
mod leaf;
mod merge;
mod rename;
mod start;
mod substitute;

use crate::fault::StepFault;
use crate::named::Named;
use crate::row::Row;
use dlk_rules::Step;
use dlk_store::{Steps, Store};
use std::alloc::Global;
use std::sync::ledger::Ledger;

/// The row that a step gives from the rows, within the limits but for the number of rows.
pub(crate) fn give<S: Store, L: Ledger>(
    alloc: Global,
    store: &mut S,
    named: &mut Named,
    rows: &[Row],
    step: &Step,
    steps: &mut Steps<L>,
) -> Result<Row, StepFault>
    requires known { HasKnownIds (S.trees store.old) step.now }
    requires named { AreNamed (S.trees store.old) named.old }
    requires rows { All (IsKnownRow (S.trees store.old)) rows.now }
    requires formulas { All HasFormulas (provables_at (S.trees store.old) rows.now) }
    requires limited { All IsLimited (provables_at (S.trees store.old) rows.now) }
    ensures given { IfOk result (λ row.
        Gives (provables_at (S.trees store.old) rows.now) (step_at (S.trees store.old) step.now) (provable_at (S.trees store.new) row)) }
    ensures within { IfOk result (λ row. IsWithin (step_at (S.trees store.old) step.now) (provable_at (S.trees store.new) row)) }
    ensures known { IfOk result (IsKnownRow (S.trees store.new)) }
    ensures fault { IfErr result (IsStepFault (Fault (provables_at (S.trees store.old) rows.now) (step_at (S.trees store.old) step.now))) }
    ensures named { AreNamed (S.trees store.new) named.new }
    ensures grows { S.grows store.old store.new }
    ensures looks { IsTrue S.unique → LooksAtFew (provables_at (S.trees store.old) rows.now) (step_at (S.trees store.old) step.now) steps.old steps.new }
{
    match step {
        Step::Start(s) => start::start(alloc, store, s, steps),
        Step::Axiom(name) => axiom::axiom(alloc, store, &mut named.axioms, name),
        Step::AxRule(name) => {
            axiomatic_rule::axiomatic_rule(alloc, store, &mut named.rules, name)
        }
        Step::Leaf(s) => leaf::leaf(alloc, store, s, steps),
        Step::Apply { fact, goal, rule } => {
            apply::apply(alloc, store, rows, *fact, *goal, rule, steps)
        }
        Step::Merge { fact, goal, by } => merge::merge(alloc, store, rows, *fact, *goal, *by),
        Step::Subst { fact, pairs } => {
            substitute::substitute(alloc, store, rows, *fact, pairs.as_slice(), steps)
        }
        Step::Rename { fact, x, y } => rename::rename(alloc, store, rows, *fact, x, y, steps),
    }
}
