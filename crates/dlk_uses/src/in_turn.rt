//! Steps taken in turn.
ghost use Rattle.std.specs.Prelude.{List, map, All, OnOk, IfErr};
ghost use Rattle.dlk_kernel.specs.Faults.{IsStepFault};
ghost use Rattle.dlk_kernel.specs.Kernel.{facts, ExtendsRows};
ghost use Rattle.dlk_kernel.specs.Taken.{Takes};
ghost use Rattle.dlk_rules.specs.Steps.{step_at, HasKnownIds};
ghost use Rattle.dlk_uses.specs.Taking.{FirstFault};

use dlk_kernel::{Kernel, StepFault};
use dlk_rules::{Step, step_stays};
use dlk_store::{Steps, Store};
use std::alloc::Global;
use std::sync::ledger::Ledger;

/// Takes steps in turn, as an atom's plan or a linked proof wants.
///
/// # Errors
///
/// The fault of the first step that the kernel doesn't take: the reason that it refuses it for, or want of memory. The rows of those before it stay.
pub fn take_in_turn<S: Store, L: Ledger>(
    alloc: Global,
    kernel: &mut Kernel<S>,
    plan: &[Step],
    steps: &mut Steps<L>,
) -> Result<(), StepFault>
    requires { All (HasKnownIds (S.trees kernel.old.store)) plan.now }
    ensures taken { OnOk result (Takes (facts S.trees kernel.old) (map (step_at (S.trees kernel.old.store)) plan.now) (facts S.trees kernel.new)) }
    ensures fault { IfErr result (IsStepFault (FirstFault (facts S.trees kernel.old) (map (step_at (S.trees kernel.old.store)) plan.now))) }
    ensures kept { ExtendsRows S.trees kernel.old kernel.new }
    ensures grows { S.grows kernel.old.store kernel.new.store }
{
    step_stays();
    for step in plan {
        kernel.step(alloc, step, steps)?;
    }
    Ok(())
}
