//! A substitution in a fact.
ghost use Rattle.std.specs.Prelude.{All, IsTrue, IfOk, IfErr};
ghost use Rattle.dlk_calculus.specs.Steps.{Substitute, Gives, IsWithin, Fault};
ghost use Rattle.dlk_sequent.specs.Substitutions.{pairs_at, AreKnownPairs};
ghost use Rattle.dlk_kernel.specs.Faults.{IsStepFault};
ghost use Rattle.dlk_kernel.specs.Kernel.{provable_at, provables_at, IsKnownRow};
ghost use Rattle.dlk_kernel.specs.Looks.{LooksAtFew};

use crate::fault::StepFault;
use crate::limits::{Measure, is_substituted_within};
use crate::row::Row;
use crate::substituting::{is_free_over_goals, subst_row, substitution};
use dlk_calculus::Reason;
use dlk_sequent::{Pair, item_at};
use dlk_store::{Steps, Store};
use std::alloc::Global;
use std::sync::ledger::Ledger;

/// A fact under the substitution of the pairs. Its leaves stay. Where it has a goal, no variable may be free in what
/// replaces a function or a predicate:
///
/// ```text
/// the fact's goals under the substitution
/// --------------------------------------------
/// the fact's conclusion under the substitution
/// ```
pub(super) fn substitute<S: Store, L: Ledger>(
    alloc: Global,
    store: &mut S,
    rows: &[Row],
    fact: u32,
    pairs: &[Pair],
    steps: &mut Steps<L>,
) -> Result<Row, StepFault>
    requires pairs { AreKnownPairs (S.trees store.old) pairs.now }
    requires rows { All (IsKnownRow (S.trees store.old)) rows.now }
    ensures given { IfOk result (λ row.
        Gives (provables_at (S.trees store.old) rows.now) (Substitute fact (pairs_at (S.trees store.old) pairs.now)) (provable_at (S.trees store.new) row)) }
    ensures within { IfOk result (λ row. IsWithin (Substitute fact (pairs_at (S.trees store.old) pairs.now)) (provable_at (S.trees store.new) row)) }
    ensures known { IfOk result (IsKnownRow (S.trees store.new)) }
    ensures fault { IfErr result (IsStepFault (Fault (provables_at (S.trees store.old) rows.now) (Substitute fact (pairs_at (S.trees store.old) pairs.now)))) }
    ensures grows { S.grows store.old store.new }
    ensures looks { IsTrue S.unique →
        LooksAtFew (provables_at (S.trees store.old) rows.now) (Substitute fact (pairs_at (S.trees store.old) pairs.now)) steps.old steps.new }
{
    let Some(row) = item_at(rows, fact) else {
        return Err(StepFault::Refused(Reason::NoFact));
    };
    let sigma = substitution(alloc, store, pairs, steps)?;
    if is_free_over_goals(&sigma, row) {
        return Err(StepFault::Refused(Reason::FreeInSubst));
    }
    let made = subst_row(alloc, store, &sigma, row, steps)?;
    if !is_substituted_within(store, Measure::Nodes, pairs, &made) {
        return Err(StepFault::Refused(Reason::TooBig));
    }
    if !is_substituted_within(store, Measure::Levels, pairs, &made) {
        return Err(StepFault::Refused(Reason::TooDeep));
    }
    Ok(made)
}
