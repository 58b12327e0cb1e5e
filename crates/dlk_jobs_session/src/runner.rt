// What a session runs its strategies with.
ghost use Rattle.dlk_strategy.specs.Runs.{RunsOn};

use dlk_elab::{More, OnFault};
use dlk_kernel::Kernel;
use dlk_session::Runner;
use dlk_store::{Steps, Store};
use dlk_strategy::{one_outcome_on, run_on, run_on_is_counted, run_on_is_taken};
use dlk_tacsyn::Tactic;
use std::alloc::Global;
use std::sync::ledger::Ledger;

/// Runs strategies as `prove` does, on a goal of a kernel that has rows.
#[derive(Clone, Copy, Debug)]
pub struct Strategies;

impl Runner for Strategies {
    ghost becomes = { RunsOn };

    fn run_on<S: Store, L: Ledger>(
        &mut self,
        alloc: Global,
        strategy: &Tactic,
        kernel: &mut Kernel<S>,
        goal: u32,
        used: u32,
        steps: &mut Steps<L>,
    ) -> Result<More, OnFault> {
        run_on(alloc, strategy, kernel, goal, used, steps)
    }

    fn laws() {
        one_outcome_on();
        run_on_is_taken();
        run_on_is_counted();
    }
}
