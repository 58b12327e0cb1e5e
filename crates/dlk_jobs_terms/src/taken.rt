// The steps of a term, of which the rows stay, and those of a lemma, of which they are dropped again.
ghost use Rattle.std.specs.Prelude.{◌≡◌, ◌≤◌, ℕ, List, [], length, map, All, IfOk, IfErr, codes};
ghost use Rattle.dlk_calculus.specs.Provables.{Provable};
ghost use Rattle.dlk_store.specs.Stores.{IsId, tree};
ghost use Rattle.dlk_kernel.specs.Kernel.{facts};
ghost use Rattle.dlk_kernel.specs.Taken.{Takes};
ghost use Rattle.dlk_rules.specs.Steps.{step_at, HasKnownIds};
ghost use Rattle.dlk_replies.specs.Ended.{EndsIn};
ghost use Rattle.dlk_replies.specs.Shown.{reply_of};
ghost use Rattle.dlk_jobs_check.specs.Judged.{RefusesLine};
ghost use Rattle.dlk_jobs_check.specs.Terms.{ModelText, TakesTerm, RefusesTerm};
ghost use Rattle.dlk_jobs_terms.specs.Kept.{IsKept, IsLemma};
ghost use Rattle.dlk_jobs_terms.specs.Made.{RecordsLast};

use dlk_jobs_check::term::{judge, read_model, refuse_term};
use dlk_jobs_record::finish;
use dlk_kernel::Kernel;
use dlk_replay::{Outcome, replay};
use dlk_replies::{Ended, Reply};
use dlk_rules::Step;
use dlk_sequent::Sequent;
use dlk_store::{Id, Steps, Store};
use std::alloc::Global;
use std::sync::ledger::Ledger;

/// Replays a term on a kernel without rows. The words say of which file a wrong line is.
///
/// # Errors
///
/// - `Refused`: a line of the term is not as it must be.
/// - `Memory`: for want of memory.
pub(crate) fn replayed<S: Store, L: Ledger>(
    alloc: Global,
    words: &str,
    term: &[u8],
    kernel: &mut Kernel<S>,
    steps: &mut Steps<L>,
) -> Result<Outcome, Ended>
    requires { kernel.old.rows ≡ [] }
    ensures kept { IfOk result (λ outcome. IsKept (S.trees kernel.new.store) term.now (facts S.trees kernel.new) outcome) }
    ensures known { IfOk result (λ outcome. All (HasKnownIds (S.trees kernel.new.store)) outcome.steps.items) }
    ensures refused { IfErr result (EndsIn (RefusesLine words.now term.now)) }
    ensures grows { S.grows kernel.old.store kernel.new.store }
{
    match replay(alloc, term, kernel, steps) {
        Ok(outcome) => Ok(outcome),
        Err(fault) => Err(refuse_term(alloc, words, fault)),
    }
}

/// The steps of a term that is taken for a formula, whatever model it was read from. The kernel has no rows, and then those of the term.
///
/// # Errors
///
/// - `Refused`: a line of the term is not as it must be; or the term's last row shows something else than the formula.
/// - `Memory`: for want of memory.
pub(crate) fn taken_for<S: Store, L: Ledger>(
    alloc: Global,
    formula: Id,
    term: &[u8],
    kernel: &mut Kernel<S>,
    steps: &mut Steps<L>,
) -> Result<Vec<Step>, Ended>
    requires none { kernel.old.rows ≡ [] }
    requires formula { IsId (S.trees kernel.old.store) formula }
    ensures taken { IfOk result (λ kept. (model : List ℕ) → ModelText model (tree (S.trees kernel.old.store) formula) → (p : Provable) ×
        TakesTerm model term.now (map (step_at (S.trees kernel.new.store)) kept.items) (facts S.trees kernel.new) p) }
    ensures known { IfOk result (λ kept. All (HasKnownIds (S.trees kernel.new.store)) kept.items) }
    ensures refused { (model : List ℕ) → ModelText model (tree (S.trees kernel.old.store) formula) → IfErr result (EndsIn (RefusesTerm model term.now)) }
    ensures grows { S.grows kernel.old.store kernel.new.store }
{
    let outcome = replayed(alloc, "line", term, kernel, steps)?;
    judge(alloc, kernel, formula, outcome.fact, outcome.line, steps)?;
    Ok(outcome.steps)
}

/// The steps of a term that is taken for a model. The kernel has no rows, and then those of the term.
///
/// # Errors
///
/// - `Refused`: the bytes of the model are no formula; or a line of the term is not as it must be; or the term's last row shows something
///   else than the model.
/// - `Memory`: for want of memory.
pub(crate) fn taken<S: Store, L: Ledger>(
    alloc: Global,
    model: &[u8],
    term: &[u8],
    kernel: &mut Kernel<S>,
    steps: &mut Steps<L>,
) -> Result<Vec<Step>, Ended>
    requires { kernel.old.rows ≡ [] }
    ensures taken { IfOk result (λ kept. (p : Provable) ×
        TakesTerm model.now term.now (map (step_at (S.trees kernel.new.store)) kept.items) (facts S.trees kernel.new) p) }
    ensures known { IfOk result (λ kept. All (HasKnownIds (S.trees kernel.new.store)) kept.items) }
    ensures refused { IfErr result (EndsIn (RefusesTerm model.now term.now)) }
    ensures grows { S.grows kernel.old.store kernel.new.store }
{
    let formula = read_model(alloc, model, kernel)?;
    taken_for(alloc, formula, term, kernel, steps)
}

/// A lemma: its steps, and what the last of them concludes.
#[derive(Drop)]
pub(crate) struct Lemma {
    pub(crate) steps: Vec<Step>,
    pub(crate) concludes: Sequent,
}

/// A lemma on a kernel without rows. Then the kernel has those of the lemma.
fn lemma_rows<S: Store, L: Ledger>(
    alloc: Global,
    lemma: &[u8],
    kernel: &mut Kernel<S>,
    steps: &mut Steps<L>,
) -> Result<Lemma, Ended>
    requires { kernel.old.rows ≡ [] }
    ensures lemma { IfOk result (IsLemma (S.trees kernel.new.store) lemma.now) }
    ensures refused { IfErr result (EndsIn (RefusesLine (codes "lemma line") lemma.now)) }
    ensures grows { S.grows kernel.old.store kernel.new.store }
{
    let outcome = replayed(alloc, "lemma line", lemma, kernel, steps)?;
    // It is refused for want of memory alone.
    let Ok(concludes) = kernel.conclusion(outcome.fact).copy(alloc) else {
        return Err(Ended::Memory);
    };
    Ok(Lemma {
        steps: outcome.steps,
        concludes,
    })
}

/// A lemma. The kernel has no rows, and none again, whatever comes.
///
/// # Errors
///
/// - `Refused`: a line of the lemma is not as it must be.
/// - `Memory`: for want of memory.
pub(crate) fn taken_lemma<S: Store, L: Ledger>(
    alloc: Global,
    lemma: &[u8],
    kernel: &mut Kernel<S>,
    steps: &mut Steps<L>,
) -> Result<Lemma, Ended>
    requires { kernel.old.rows ≡ [] }
    ensures lemma { IfOk result (IsLemma (S.trees kernel.new.store) lemma.now) }
    ensures none { kernel.new.rows ≡ [] }
    ensures refused { IfErr result (EndsIn (RefusesLine (codes "lemma line") lemma.now)) }
    ensures grows { S.grows kernel.old.store kernel.new.store }
{
    let lemma = lemma_rows(alloc, lemma, kernel, steps);
    kernel.release(0);
    lemma
}

/// The end of a command that has made steps, which a kernel without rows has taken: their term file, and the report of the last row.
///
/// # Errors
///
/// - `Refused`: the file would be longer than a term may be.
/// - `Memory`: for want of memory.
pub(crate) fn record_taken<S: Store, L: Ledger>(
    alloc: Global,
    kernel: &Kernel<S>,
    made: &[Step],
    steps: &mut Steps<L>,
) -> Result<Reply, Ended>
    requires some { 1 ≤ length made.now }
    requires takes { Takes [] (map (step_at (S.trees kernel.now.store)) made.now) (facts S.trees kernel.now) }
    requires known { All (HasKnownIds (S.trees kernel.now.store)) made.now }
    ensures reply { IfOk result (λ r. RecordsLast (map (step_at (S.trees kernel.now.store)) made.now) (reply_of r)) }
    ensures ended { IfErr result (EndsIn (RecordsLast (map (step_at (S.trees kernel.now.store)) made.now))) }
{
    finish(alloc, kernel, kernel.rows(), made, steps)
}
