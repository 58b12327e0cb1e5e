//! The last row of a kernel, and the first.
ghost use Rattle.std.specs.Prelude.{◌≡◌, ◌≤◌, [], ◌∷◌, length, IfOk, OnOk};
ghost use Rattle.dlk_calculus.specs.Limits.{most_goals, IsSmall, IsShallow};
ghost use Rattle.dlk_calculus.specs.Sequents.{IsFormula, alone_right};
ghost use Rattle.dlk_calculus.specs.Steps.{Start, Adds};
ghost use Rattle.dlk_store.specs.Stores.{IsId, tree};
ghost use Rattle.dlk_rules.specs.Steps.{step_at, HasKnownIds};
ghost use Rattle.dlk_kernel.specs.Kernel.{facts};
ghost use Rattle.dlk_elab.specs.Outcomes.{main_goals};

use crate::fault::SessionFault;
use dlk_kernel::{Kernel, Step, StepFault};
use dlk_sequent::Sequent;
use dlk_store::{Id, Steps, Store};
use std::alloc::Global;
use std::sync::ledger::Ledger;

/// How many goals the last row has.
pub(crate) fn goals_left<S: Store>(kernel: &Kernel<S>) -> u32
    requires { 1 ≤ length kernel.now.rows }
    ensures goals { result ≡ length (main_goals (facts S.trees kernel.now)) }
    ensures few { result ≤ most_goals }
{
    kernel.goals(kernel.rows()).len() as u32
}

/// The step that states the model, taken on a kernel without rows.
pub(crate) fn stated<S: Store, L: Ledger>(
    alloc: Global,
    kernel: &mut Kernel<S>,
    model: Id,
    steps: &mut Steps<L>,
) -> Result<Step, SessionFault>
    requires none { kernel.old.rows ≡ [] }
    requires model { IsId (S.trees kernel.old.store) model }
    requires formula { IsFormula (tree (S.trees kernel.old.store) model) }
    requires small { IsSmall (tree (S.trees kernel.old.store) model) }
    requires shallow { IsShallow (tree (S.trees kernel.old.store) model) }
    ensures step { IfOk result (λ step. step_at (S.trees kernel.new.store) step ≡ Start (alone_right (tree (S.trees kernel.old.store) model))) }
    ensures known { IfOk result (HasKnownIds (S.trees kernel.new.store)) }
    ensures row { OnOk result (Adds [] (Start (alone_right (tree (S.trees kernel.old.store) model))) (facts S.trees kernel.new)) }
    ensures grows { S.grows kernel.old.store kernel.new.store }
{
    let start = Step::Start(Sequent::alone_right(alloc, model)?);
    match kernel.step(alloc, &start, steps) {
        Ok(_) => Ok(start),
        Err(StepFault::Memory) => Err(SessionFault::Memory),
        Err(StepFault::Refused(_)) => unreachable!(),
    }
}
