//! Two names exchanged in a fact.
ghost use Rattle.std.specs.Prelude.{All, IfOk, IfErr};
ghost use Rattle.dlk_calculus.specs.Steps.{Rename, Gives, IsWithin, Fault};
ghost use Rattle.dlk_kernel.specs.Faults.{IsStepFault};
ghost use Rattle.dlk_kernel.specs.Kernel.{provable_at, provables_at, IsKnownRow};

use crate::fault::StepFault;
use crate::renaming::{swap_sequent, swap_sequents};
use crate::row::Row;
use dlk_calculus::Reason;
use dlk_sequent::{Shared, item_at};
use dlk_store::{Steps, Store};
use dlk_tree::Name;
use std::alloc::Global;
use std::sync::ledger::Ledger;

/// A fact with two names exchanged. Its leaves stay:
///
/// ```text
/// the fact's goals, with x and y exchanged
/// ---------------------------------------------
/// the fact's conclusion, with x and y exchanged
/// ```
pub(super) fn rename<S: Store, L: Ledger>(
    alloc: Global,
    store: &mut S,
    rows: &[Row],
    fact: u32,
    x: &Name,
    y: &Name,
    steps: &mut Steps<L>,
) -> Result<Row, StepFault>
    requires { All (IsKnownRow (S.trees store.old)) rows.now }
    ensures given { IfOk result (λ row. Gives (provables_at (S.trees store.old) rows.now) (Rename fact x.now y.now) (provable_at (S.trees store.new) row)) }
    ensures within { IfOk result (λ row. IsWithin (Rename fact x.now y.now) (provable_at (S.trees store.new) row)) }
    ensures known { IfOk result (IsKnownRow (S.trees store.new)) }
    ensures fault { IfErr result (IsStepFault (Fault (provables_at (S.trees store.old) rows.now) (Rename fact x.now y.now))) }
    ensures grows { S.grows store.old store.new }
{
    prove!(x.is_name());
    prove!(y.is_name());
    let Some(row) = item_at(rows, fact) else {
        return Err(StepFault::Refused(Reason::NoFact));
    };
    let conclusion = swap_sequent(alloc, store, row.conclusion.value(), x, y, steps)?;
    let goals = swap_sequents(alloc, store, row.goals.as_slice(), x, y, steps)?;
    let conclusion = Shared::new(alloc, conclusion)?;
    let leaves = row.leaves.share()?;
    Ok(Row {
        conclusion,
        goals,
        leaves,
    })
}
