//! Steps taken in turn.
ghost use Rattle.std.specs.Prelude.{◌≡◌, List, map, All, OnOk, IfErr};
ghost use Rattle.dlk_calculus.specs.Provables.{Provable};
ghost use Rattle.dlk_kernel.specs.Kernel.{facts};
ghost use Rattle.dlk_kernel.specs.Taken.{Takes};
ghost use Rattle.dlk_rules.specs.Steps.{step_at, HasKnownIds};
ghost use Rattle.dlk_link.specs.declared.fault.LinkFault.TheVariants.{Memory};

use crate::fault::LinkFault;
use dlk_kernel::{Kernel, StepFault};
use dlk_rules::Step;
use dlk_store::{Steps, Store};
use dlk_uses::take_in_turn;
use std::alloc::Global;
use std::sync::ledger::Ledger;

/// Takes steps without fault behind others, whose rows the kernel has: but for want of memory each is taken.
pub(crate) fn take_known<S: Store, L: Ledger>(
    alloc: Global,
    kernel: &mut Kernel<S>,
    plan: &[Step],
    steps: &mut Steps<L>,
) -> Result<(), LinkFault>
    requires known { All (HasKnownIds (S.trees kernel.old.store)) plan.now }
    requires taken { (rows : List Provable) × Takes (facts S.trees kernel.old) (map (step_at (S.trees kernel.old.store)) plan.now) rows }
    ensures taken { OnOk result (Takes (facts S.trees kernel.old) (map (step_at (S.trees kernel.old.store)) plan.now) (facts S.trees kernel.new)) }
    ensures err { IfErr result (λ e. e ≡ Memory) }
    ensures grows { S.grows kernel.old.store kernel.new.store }
{
    match take_in_turn(alloc, kernel, plan, steps) {
        Ok(()) => Ok(()),
        Err(StepFault::Memory) => Err(LinkFault::Memory),
        Err(StepFault::Refused(_)) => unreachable!(),
    }
}
