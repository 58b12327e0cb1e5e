// The model and the term of a command: the term is taken for the model, or the command ends with a refusal.
ghost use Rattle.std.specs.Prelude.{◌≡◌, [], ◌↔◌, codes, IfOk, OnOk, IfErr, IsTrue};
ghost use Rattle.dlk_tree.specs.Trees.{Tree};
ghost use Rattle.dlk_calculus.specs.Places.{At, IsPlace};
ghost use Rattle.dlk_calculus.specs.Provables.{Provable};
ghost use Rattle.dlk_calculus.specs.Sequents.{IsFormula};
ghost use Rattle.dlk_store.specs.Stores.{IsId, tree, StandsFor};
ghost use Rattle.dlk_sequent.specs.Sequents.{sequent_at, IsKnown};
ghost use Rattle.dlk_kernel.specs.Kernel.{facts};
ghost use Rattle.dlk_replies.specs.Ended.{EndsIn};
ghost use Rattle.dlk_replies.specs.Shown.{reply_of};
ghost use Rattle.dlk_jobs_check.specs.Terms.{ModelText, proves, refused_line, other_conclusion, RefusesTerm};
ghost use Rattle.dlk_jobs_check.specs.Judged.{RefusesModel, RefusesLine, IsTermRefused, RefusesConclusion, IsReplayed, IsTaken};

use dlk_guard::Watcher;
use dlk_kernel::{Fact, Kernel};
use dlk_parse::read_formula;
use dlk_print::{append_decimal, sequent_text};
use dlk_replay::{Ending, LineWhy, ReplayFault, replay_watched};
use dlk_replies::{Ended, NoReply, Reply, Role, Status, end_by, printing, refuse_text, refused};
use dlk_sequent::Sequent;
use dlk_store::{Id, Steps, Store};
use std::alloc::Global;
use std::sync::ledger::Ledger;

/// The formula of a model.
///
/// # Errors
///
/// - `Refused`: the bytes are no formula.
/// - `Memory`: for want of memory.
pub fn read_model<S: Store>(alloc: Global, model: &[u8], store: &mut S) -> Result<Id, Ended>
    ensures found { IfOk result (λ id. (f : Tree) × ModelText model.now f × StandsFor (S.trees store.new) id f) }
    ensures formula { IfOk result (λ id. IsFormula (tree (S.trees store.new) id)) }
    ensures refused { IfErr result (EndsIn (RefusesModel model.now)) }
    ensures grows { S.grows store.old store.new }
{
    match read_formula(alloc, model, store) {
        Ok(formula) => Ok(formula),
        Err(fault) => Err(end_by(refuse_text(alloc, Role::Model, fault))),
    }
}

/// The answer to a file of which this is the first wrong line. The words say of which file it is.
fn refuse_line(alloc: Global, words: &str, line: usize, why: LineWhy) -> Result<Reply, NoReply>
    ensures { IfOk result (λ r. reply_of r ≡ refused_line words.now line why) }
{
    let word = why.word();
    let why = format!(in alloc; "{words} {line}: {word}")?;
    refused(alloc, why.as_str())
}

/// The end of a command of which a term is not accepted. The words say which term it is.
pub fn refuse_term(alloc: Global, words: &str, fault: ReplayFault) -> Ended
    ensures { IsTermRefused words.now fault result }
{
    match fault {
        ReplayFault::Bad { line, why } => end_by(refuse_line(alloc, words, line, why)),
        ReplayFault::Memory => Ended::Memory,
    }
}

/// Whether a sequent is what a proof of the formula shows.
fn is_proof_of<S: Store>(store: &S, s: &Sequent, formula: Id) -> bool
    requires known { IsKnown (S.trees store.now) s.now }
    requires formula { IsId (S.trees store.now) formula }
    ensures { IsTrue result ↔ (sequent_at (S.trees store.now) s.now ≡ proves (tree (S.trees store.now) formula)) }
{
    match s.succ.as_slice() {
        [f] => s.ante.as_slice().is_empty() && store.same(*f, formula),
        _ => false,
    }
}

/// The answer to a term whose lines are all steps and that ends in another conclusion.
fn refuse_conclusion<S: Store, L: Ledger>(
    alloc: Global,
    store: &S,
    formula: Id,
    found: &Sequent,
    line: usize,
    steps: &mut Steps<L>,
) -> Result<Reply, NoReply>
    requires formula { IsId (S.trees store.now) formula }
    requires found { IsKnown (S.trees store.now) found.now }
    ensures { IfOk result (λ r. reply_of r ≡ other_conclusion line (tree (S.trees store.now) formula) (sequent_at (S.trees store.now) found.now)) }
{
    let expected = Sequent::alone_right(alloc, formula)?;
    let mut printed = Vec::new(alloc);
    printed.extend_from_slice(b"refused: other-conclusion ")?;
    append_decimal(&mut printed, line as u128)?;
    printed.extend_from_slice(b"\nexpected ")?;
    sequent_text(store, &expected, &mut printed, steps)?;
    printed.extend_from_slice(b"\nfound ")?;
    sequent_text(store, found, &mut printed, steps)?;
    printed.push(b'\n')?;
    Ok(printing(Status::Refused, printed))
}

/// Compares what a fact shows, which is the last row of a term, by this line, with the formula of the model.
///
/// # Errors
///
/// - `Refused`: it shows something else.
/// - `Memory`: for want of memory.
pub fn judge<S: Store, L: Ledger>(
    alloc: Global,
    kernel: &Kernel<S>,
    formula: Id,
    fact: Fact,
    line: usize,
    steps: &mut Steps<L>,
) -> Result<(), Ended>
    requires formula { IsId (S.trees kernel.now.store) formula }
    requires fact { IsPlace kernel.now.rows fact }
    ensures shown { OnOk result ((p : Provable) → At (facts S.trees kernel.now) fact p → p.conclusion ≡ proves (tree (S.trees kernel.now.store) formula)) }
    ensures refused { IfErr result (EndsIn (λ reply. (p : Provable) → At (facts S.trees kernel.now) fact p →
        RefusesConclusion (tree (S.trees kernel.now.store) formula) line p reply)) }
{
    let found = kernel.conclusion(fact);
    if is_proof_of(kernel, found, formula) {
        return Ok(());
    }
    Err(end_by(refuse_conclusion(alloc, kernel, formula, found, line, steps)))
}

/// Replays a term, while a watcher looks on.
fn replayed<S: Store, L: Ledger, W: Watcher>(
    alloc: Global,
    term: &[u8],
    kernel: &mut Kernel<S>,
    watcher: &mut W,
    steps: &mut Steps<L>,
) -> Result<Ending, Ended>
    requires { kernel.old.rows ≡ [] }
    ensures replays { IfOk result (λ ending. IsReplayed W.after term.now (facts S.trees kernel.new) ending watcher.old watcher.new) }
    ensures fact { IfOk result (λ ending. IsPlace kernel.new.rows ending.fact) }
    ensures refused { IfErr result (EndsIn (RefusesLine (codes "line") term.now)) }
    ensures grows { S.grows kernel.old.store kernel.new.store }
{
    match replay_watched(alloc, term, kernel, watcher, steps) {
        Ok(ending) => Ok(ending),
        Err(fault) => Err(refuse_term(alloc, "line", fault)),
    }
}

/// Takes a term for a model on a kernel without rows, while a watcher looks on. No step is kept.
///
/// # Errors
///
/// - `Refused`: the bytes of the model are no formula; or a line of the term is not as it must be; or the term's last row shows something
///   else than the model.
/// - `Memory`: for want of memory, that of the watcher among it.
pub fn take_term<S: Store, L: Ledger, W: Watcher>(
    alloc: Global,
    model: &[u8],
    term: &[u8],
    kernel: &mut Kernel<S>,
    watcher: &mut W,
    steps: &mut Steps<L>,
) -> Result<Ending, Ended>
    requires { kernel.old.rows ≡ [] }
    ensures taken { IfOk result (λ ending. IsTaken W.after model.now term.now (facts S.trees kernel.new) ending watcher.old watcher.new) }
    ensures fact { IfOk result (λ ending. IsPlace kernel.new.rows ending.fact) }
    ensures refused { IfErr result (EndsIn (RefusesTerm model.now term.now)) }
{
    let formula = read_model(alloc, model, kernel)?;
    let ending = replayed(alloc, term, kernel, watcher, steps)?;
    judge(alloc, kernel, formula, ending.fact, ending.line, steps)?;
    Ok(ending)
}
