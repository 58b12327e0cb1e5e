//! What a run records.
ghost use Rattle.std.specs.Prelude.{◌≡◌, ◌≤◌, ◌+◌, length, take, All};
ghost use Rattle.dlk_calculus.specs.Limited.{HasFewFormulas};
ghost use Rattle.dlk_calculus.specs.Limits.{most_goals};
ghost use Rattle.dlk_calculus.specs.Places.{At, IsPlace};
ghost use Rattle.dlk_kernel.specs.Kernel.{facts, ExtendsRows};
ghost use Rattle.dlk_rules.specs.Steps.{HasKnownIds};
ghost use Rattle.dlk_sequent.specs.Sequents.{sequent_at, IsKnown};
ghost use Rattle.dlk_strategy.specs.Runs.{main_goals, most_runs};
ghost use Rattle.dlk_strategy.specs.Ties.{goals_of, Extends, IsBack};

use dlk_kernel::{Kernel, Step};
use dlk_sequent::Sequent;
use dlk_store::Store;

/// What a run has recorded so far.
#[derive(Drop, Debug)]
pub(crate) struct Trace {
    /// The steps of the kernel's rows, in order.
    pub(crate) steps: Vec<Step>,
    /// How many runs of atoms, and of `derive`, there were, those that failed included.
    pub(crate) used: u32,
}

/// How many goals the last row has.
pub(crate) fn goals_left<S: Store>(kernel: &Kernel<S>) -> u32
    requires { 1 ≤ length kernel.now.rows }
    ensures goals { result ≡ goals_of S.trees kernel.now }
    ensures few { result ≤ most_goals }
{
    kernel.goals(kernel.rows()).len() as u32
}

/// A goal of the last row.
pub(crate) fn goal_at<S: Store>(kernel: &Kernel<S>, goal: u32) -> &Sequent
    requires { IsPlace (main_goals (facts S.trees kernel.now)) goal }
    ensures goal { At (main_goals (facts S.trees kernel.now)) goal (sequent_at (S.trees kernel.now.store) result.now) }
    ensures known { IsKnown (S.trees kernel.now.store) result.now }
    ensures few { HasFewFormulas (sequent_at (S.trees kernel.now.store) result.now) }
{
    kernel.goals(kernel.rows())[goal as usize - 1].value()
}

/// Takes back what was made since there were so many rows and so many steps.
pub(crate) fn take_back<S: Store>(
    kernel: &mut Kernel<S>,
    trace: &mut Trace,
    rows: u32,
    steps: usize,
)
    requires rows { rows ≤ length kernel.old.rows }
    ensures rows { kernel.new.rows ≡ take rows kernel.old.rows }
    ensures store { kernel.new.store ≡ kernel.old.store }
    ensures steps { trace.new.steps.items ≡ take steps trace.old.steps.items }
    ensures used { trace.new.used ≡ trace.old.used }
{
    kernel.release(rows);
    trace.steps.truncate(steps);
}
