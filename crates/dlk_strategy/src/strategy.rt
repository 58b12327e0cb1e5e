//! Strategies on a model.
ghost use Rattle.std.specs.Prelude.{◌≡◌, ℕ, [], length, All, IfOk, IfErr, OnErr};
ghost use Rattle.dlk_calculus.specs.Limits.{IsSmall, IsShallow};
ghost use Rattle.dlk_calculus.specs.Sequents.{IsFormula};
ghost use Rattle.dlk_store.specs.Stores.{IsId, tree};
ghost use Rattle.dlk_rules.specs.Steps.{HasKnownIds};
ghost use Rattle.dlk_kernel.specs.Kernel.{facts};
ghost use Rattle.dlk_tacsyn.specs.Ties.{tactic_at};
ghost use Rattle.dlk_strategy.specs.Differentiated.{Differentiates};
ghost use Rattle.dlk_strategy.specs.Runs.{Done as IsDone, RunsModel, RunsPlain};
ghost use Rattle.dlk_strategy.specs.Ties.{progress_at, IsRunnable, IsStrategy, IsRunFaultOf};

use crate::fault::RunFault;
use crate::laws::{derive_differentiates, one_outcome};
use crate::running::run_goals;
use crate::trace::Trace;
use dlk_kernel::{Fact, Kernel, Step, StepFault};
use dlk_library::expanded;
use dlk_library::laws::expansion_fits;
use dlk_sequent::Sequent;
use dlk_store::{Id, Steps, Store};
use dlk_tacsyn::Tactic;
use std::alloc::Global;
use std::sync::ledger::Ledger;

/// What a strategy made.
#[derive(Drop, Debug)]
pub struct Done {
    /// The last row.
    pub fact: Fact,
    /// The steps of the rows, in order.
    pub steps: Vec<Step>,
}

/// Runs a strategy on the model, on a kernel without rows. The first step states the model, and the others are those of the strategy's atoms.
/// The model is a formula without argument dots or `_` within the limits. The ids are those of this kernel's store, and the strategy's atoms
/// are those of a text: names of the library run what they stand for. After a refusal the kernel has no rows.
///
/// `derive(P)` alone differentiates: on a model of at most 150 nodes with a `( )'` at P on the right whose kid has a derivative, and for a term
/// with nothing but arithmetic and one comparison between it and the smallest formula round it, it is done, or wants memory. The last row has one
/// goal, the model with the derivative at the place, and its leaves are `==> k!=0` for the exponents, each once, in the order in which they are
/// met.
///
/// # Errors
///
/// - `Fails`: the strategy fails, at a byte of its text.
/// - `Budget`: 16,000 runs of atoms were counted, those that failed included, and one more would start at this byte.
/// - `Memory`: for want of memory.
pub fn run_strategy<S: Store, L: Ledger>(
    alloc: Global,
    strategy: &Tactic,
    kernel: &mut Kernel<S>,
    model: Id,
    steps: &mut Steps<L>,
) -> Result<Done, RunFault>
    requires none { kernel.old.rows ≡ [] }
    requires runnable { IsStrategy (S.trees kernel.old.store) strategy.now }
    requires model { IsId (S.trees kernel.old.store) model }
    requires formula { IsFormula (tree (S.trees kernel.old.store) model) }
    requires small { IsSmall (tree (S.trees kernel.old.store) model) }
    requires shallow { IsShallow (tree (S.trees kernel.old.store) model) }
    ensures done { IfOk result (λ done. (used : ℕ) × (left : ℕ) × RunsModel (tactic_at (S.trees kernel.old.store) strategy.now)
        (tree (S.trees kernel.old.store) model) (IsDone (progress_at S.trees kernel.new done.steps.items used) left)) }
    ensures fact { IfOk result (λ done. done.fact ≡ length kernel.new.rows) }
    ensures known { IfOk result (λ done. All (HasKnownIds (S.trees kernel.new.store)) done.steps.items) }
    ensures fault { IfErr result (IsRunFaultOf (RunsModel (tactic_at (S.trees kernel.old.store) strategy.now) (tree (S.trees kernel.old.store) model))) }
    ensures err { OnErr result (kernel.new.rows ≡ []) }
    ensures derivative { Differentiates (tactic_at (S.trees kernel.old.store) strategy.now) (tree (S.trees kernel.old.store) model)
        (facts S.trees kernel.new) result }
    ensures grows { S.grows kernel.old.store kernel.new.store }
{
    expansion_fits();
    one_outcome();
    derive_differentiates();
    let expansion = expanded(alloc, strategy, &*kernel)?;
    match run_model(alloc, &expansion, kernel, model, steps) {
        Ok(trace) => Ok(Done {
            fact: kernel.rows(),
            steps: trace.steps,
        }),
        Err(fault) => {
            kernel.release(0);
            Err(fault)
        }
    }
}

/// The same where no name of the library stands in the strategy, but for the rows that a refusal leaves.
fn run_model<S: Store, L: Ledger>(
    alloc: Global,
    strategy: &Tactic,
    kernel: &mut Kernel<S>,
    model: Id,
    steps: &mut Steps<L>,
) -> Result<Trace, RunFault>
    requires none { kernel.old.rows ≡ [] }
    requires runnable { IsRunnable (S.trees kernel.old.store) strategy.now }
    requires model { IsId (S.trees kernel.old.store) model }
    requires formula { IsFormula (tree (S.trees kernel.old.store) model) }
    requires small { IsSmall (tree (S.trees kernel.old.store) model) }
    requires shallow { IsShallow (tree (S.trees kernel.old.store) model) }
    ensures done { IfOk result (λ trace. (left : ℕ) × RunsPlain (tactic_at (S.trees kernel.old.store) strategy.now) (tree (S.trees kernel.old.store) model)
        (IsDone (progress_at S.trees kernel.new trace.steps.items trace.used) left)) }
    ensures known { IfOk result (λ trace. All (HasKnownIds (S.trees kernel.new.store)) trace.steps.items) }
    ensures fault { IfErr result (IsRunFaultOf (RunsPlain (tactic_at (S.trees kernel.old.store) strategy.now) (tree (S.trees kernel.old.store) model))) }
    ensures grows { S.grows kernel.old.store kernel.new.store }
{
    let start = Step::Start(Sequent::alone_right(alloc, model)?);
    match kernel.step(alloc, &start, steps) {
        Ok(_) => {}
        Err(StepFault::Memory) => return Err(RunFault::Memory),
        Err(StepFault::Refused(_)) => unreachable!(),
    }
    let mut trace = Trace {
        steps: Vec::new(alloc),
        used: 0,
    };
    trace.steps.push(start)?;
    run_goals(alloc, kernel, &mut trace, strategy, 1, 1, steps)?;
    Ok(trace)
}
