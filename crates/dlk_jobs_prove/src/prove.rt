// `prove MODEL STRATEGY TERM`: run a strategy on a model, write the term that it makes, and report.
ghost use Rattle.std.specs.Prelude.{◌≡◌, ℕ, [], length, All, IfOk, IfErr};
ghost use Rattle.dlk_calculus.specs.Limits.{IsSmall, IsShallow};
ghost use Rattle.dlk_calculus.specs.Sequents.{IsFormula};
ghost use Rattle.dlk_store.specs.Stores.{IsId, tree};
ghost use Rattle.dlk_rules.specs.Steps.{HasKnownIds};
ghost use Rattle.dlk_tacsyn.specs.Strategies.{StrategyText};
ghost use Rattle.dlk_tacsyn.specs.Ties.{tactic_at};
ghost use Rattle.dlk_strategy.specs.Runs.{Done as IsDone, RunsModel};
ghost use Rattle.dlk_strategy.specs.Ties.{progress_at, IsStrategy};
ghost use Rattle.dlk_jobs_prove.specs.Proves.{Proves};
ghost use Rattle.dlk_jobs_prove.specs.Proved.{IsStrategyRefused, IsRunRefused, RefusesStrategy, RefusesRun};
ghost use Rattle.dlk_replies.specs.Ended.{EndsIn};
ghost use Rattle.dlk_replies.specs.Shown.{reply_of};

use dlk_jobs_check::term::read_model;
use dlk_jobs_record::{budget_text, fails_text, finish};
use dlk_kernel::Kernel;
use dlk_replies::{Ended, NoReply, Reply, Role, answer_of, end_by, refuse_at, refused};
use dlk_shared::SharedStore;
use dlk_store::{Id, Steps, Store};
use dlk_strategy::{Done, RunFault, run_is_taken, run_shows_formula, run_strategy};
use dlk_tacsyn::{TacSyntax, Tactic, strategy};
use std::alloc::Global;
use std::mem::forget;
use std::sync::ledger::Ledger;

/// The answer to a text that is no strategy.
fn refuse_strategy(alloc: Global, fault: TacSyntax) -> Result<Reply, NoReply>
    ensures { IfOk result (λ r. IsStrategyRefused fault (reply_of r)) }
{
    match fault {
        TacSyntax::Syntax { at } => refuse_at(alloc, Role::Strategy, at, "syntax"),
        TacSyntax::Nesting { at } => refuse_at(alloc, Role::Strategy, at, "nesting"),
        TacSyntax::Repeat { at } => refuse_at(alloc, Role::Strategy, at, "repeat"),
        TacSyntax::UnknownAtom { at } => refuse_at(alloc, Role::Strategy, at, "unknown"),
        TacSyntax::Arguments { at } => refuse_at(alloc, Role::Strategy, at, "arguments"),
        TacSyntax::Memory => Err(NoReply::Memory),
    }
}

/// The answer to a run that isn't done.
fn refuse_run(alloc: Global, fault: RunFault) -> Result<Reply, NoReply>
    ensures { IfOk result (λ r. IsRunRefused fault (reply_of r)) }
{
    match fault {
        RunFault::Fails { at, why } => {
            let why = fails_text(alloc, at, why)?;
            refused(alloc, why.as_str())
        }
        RunFault::Budget { at } => {
            let why = budget_text(alloc, at)?;
            refused(alloc, why.as_str())
        }
        RunFault::Memory => Err(NoReply::Memory),
    }
}

/// The strategy of a text.
fn read_strategy<S: Store>(alloc: Global, text: &[u8], store: &mut S) -> Result<Tactic, Ended>
    ensures found { IfOk result (λ t. StrategyText text.now (tactic_at (S.trees store.new) t)) }
    ensures runnable { IfOk result (IsStrategy (S.trees store.new)) }
    ensures refused { IfErr result (EndsIn (RefusesStrategy text.now)) }
    ensures grows { S.grows store.old store.new }
{
    match strategy(alloc, text, store) {
        Ok(tactic) => Ok(tactic),
        Err(fault) => Err(end_by(refuse_strategy(alloc, fault))),
    }
}

/// What a strategy makes of a model's formula, on a kernel without rows.
fn run<S: Store, L: Ledger>(
    alloc: Global,
    tactic: &Tactic,
    kernel: &mut Kernel<S>,
    formula: Id,
    steps: &mut Steps<L>,
) -> Result<Done, Ended>
    requires none { kernel.old.rows ≡ [] }
    requires runnable { IsStrategy (S.trees kernel.old.store) tactic.now }
    requires known { IsId (S.trees kernel.old.store) formula }
    requires formula { IsFormula (tree (S.trees kernel.old.store) formula) }
    requires small { IsSmall (tree (S.trees kernel.old.store) formula) }
    requires shallow { IsShallow (tree (S.trees kernel.old.store) formula) }
    ensures done { IfOk result (λ done. (used : ℕ) × (left : ℕ) × RunsModel (tactic_at (S.trees kernel.old.store) tactic.now)
        (tree (S.trees kernel.old.store) formula) (IsDone (progress_at S.trees kernel.new done.steps.items used) left)) }
    ensures fact { IfOk result (λ done. done.fact ≡ length kernel.new.rows) }
    ensures known { IfOk result (λ done. All (HasKnownIds (S.trees kernel.new.store)) done.steps.items) }
    ensures refused { IfErr result
        (EndsIn (RefusesRun (RunsModel (tactic_at (S.trees kernel.old.store) tactic.now) (tree (S.trees kernel.old.store) formula)))) }
    ensures grows { S.grows kernel.old.store kernel.new.store }
{
    match run_strategy(alloc, tactic, kernel, formula, steps) {
        Ok(done) => Ok(done),
        Err(fault) => Err(end_by(refuse_run(alloc, fault))),
    }
}

/// Proves a model on a kernel without rows.
fn prove_on<S: Store, L: Ledger>(
    alloc: Global,
    kernel: &mut Kernel<S>,
    model: &[u8],
    text: &[u8],
    steps: &mut Steps<L>,
) -> Result<Reply, Ended>
    requires { kernel.old.rows ≡ [] }
    ensures reply { IfOk result (λ r. Proves model.now text.now (reply_of r)) }
    ensures ended { IfErr result (EndsIn (Proves model.now text.now)) }
{
    run_is_taken();
    run_shows_formula();
    let formula = read_model(alloc, model, kernel)?;
    let tactic = read_strategy(alloc, text, kernel)?;
    let done = run(alloc, &tactic, kernel, formula, steps)?;
    finish(alloc, kernel, done.fact, done.steps.as_slice(), steps)
}

/// Runs a strategy on a model. The reply has the report, and the text of the term to be written. The kernel's memory isn't given back,
/// since the program ends behind this.
///
/// # Errors
///
/// `Memory` alone: each refusal is a reply.
#[inline(never)]
pub fn prove<L: Ledger>(
    alloc: Global,
    model: &[u8],
    strategy: &[u8],
    steps: &mut Steps<L>,
) -> Result<Reply, NoReply>
    ensures { IfOk result (λ r. Proves model.now strategy.now (reply_of r)) }
{
    let mut kernel = Kernel::new(alloc, SharedStore::new(alloc));
    let answer = answer_of(prove_on(alloc, &mut kernel, model, strategy, steps));
    forget(kernel);
    answer
}
