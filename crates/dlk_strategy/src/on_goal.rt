//! Strategies on a goal of a kernel that has rows.
ghost use Rattle.std.specs.Prelude.{◌≡◌, ◌≤◌, All, IfOk, OnOk, IfErr, OnErr};
ghost use Rattle.dlk_calculus.specs.Places.{IsPlace};
ghost use Rattle.dlk_kernel.specs.Kernel.{facts, SameRows, ExtendsRows};
ghost use Rattle.dlk_rules.specs.Steps.{HasKnownIds};
ghost use Rattle.dlk_tacsyn.specs.Ties.{tactic_at};
ghost use Rattle.dlk_elab.specs.Outcomes.{Done as IsDone, main_goals, most_runs};
ghost use Rattle.dlk_elab.specs.Ties.{progress_at, IsOnFaultOf};
ghost use Rattle.dlk_strategy.specs.Runs.{RunsOn};
ghost use Rattle.dlk_strategy.specs.Ties.{with_runs, IsStrategy};

use crate::fault::RunFault;
use crate::running::run_goals;
use crate::trace::{Trace, goals_left};
use dlk_elab::{More, OnFault};
use dlk_kernel::Kernel;
use dlk_library::expanded;
use dlk_library::laws::expansion_fits;
use dlk_store::{Steps, Store};
use dlk_tacsyn::Tactic;
use std::alloc::Global;
use std::sync::ledger::Ledger;

/// The fault of a run on a goal, where there were so many runs of atoms and of `derive`.
fn with_runs_counted(fault: RunFault, used: u32) -> OnFault
    ensures { result ≡ with_runs fault used }
{
    match fault {
        RunFault::Fails { at, why } => OnFault::Fails { at, why, used },
        RunFault::Budget { at } => OnFault::Budget { at },
        RunFault::Memory => OnFault::Memory,
    }
}

/// Runs a strategy on a goal of the last row, where there were so many runs before, at most 16,000. The goal is there, the strategy's ids
/// are those of this kernel's store, and its atoms those of a text: names of the library run what they stand for. The new rows stand
/// behind those that were there, and after a refusal the rows are as before.
///
/// # Errors
///
/// - `Fails`: the strategy fails, at a byte of its text.
/// - `Budget`: 16,000 runs of atoms were counted, those of before and those that failed included, and one more would start at this byte.
/// - `Memory`: for want of memory.
pub fn run_on<S: Store, L: Ledger>(
    alloc: Global,
    strategy: &Tactic,
    kernel: &mut Kernel<S>,
    goal: u32,
    used: u32,
    steps: &mut Steps<L>,
) -> Result<More, OnFault>
    requires runnable { IsStrategy (S.trees kernel.old.store) strategy.now }
    requires goal { IsPlace (main_goals (facts S.trees kernel.old)) goal }
    requires used { used ≤ most_runs }
    ensures done { IfOk result (λ more. RunsOn (tactic_at (S.trees kernel.old.store) strategy.now) (facts S.trees kernel.old) goal used
        (IsDone (progress_at S.trees kernel.new more.steps.items more.used) more.count)) }
    ensures known { IfOk result (λ more. All (HasKnownIds (S.trees kernel.new.store)) more.steps.items) }
    ensures kept { OnOk result (ExtendsRows S.trees kernel.old kernel.new) }
    ensures fault { IfErr result (IsOnFaultOf (RunsOn (tactic_at (S.trees kernel.old.store) strategy.now) (facts S.trees kernel.old) goal used)) }
    ensures err { OnErr result (SameRows S.trees kernel.old kernel.new) }
    ensures grows { S.grows kernel.old.store kernel.new.store }
{
    expansion_fits();
    let expansion = expanded(alloc, strategy, &*kernel)?;
    let _ = goals_left(kernel);
    let rows = kernel.mark();
    let mut trace = Trace {
        steps: Vec::new(alloc),
        used,
    };
    match run_goals(alloc, kernel, &mut trace, &expansion, goal, 1, steps) {
        Ok(count) => Ok(More {
            steps: trace.steps,
            count,
            used: trace.used,
        }),
        Err(fault) => {
            kernel.release(rows);
            Err(with_runs_counted(fault, trace.used))
        }
    }
}
