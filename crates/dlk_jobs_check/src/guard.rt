// `guard MODEL TERM`: take a term for a model as `check` does, and say before the report whether its lines are guarded.
ghost use Rattle.std.specs.Prelude.{◌≡◌, [], ◌++◌, IfOk, OnOk, IfErr};
ghost use Rattle.dlk_tree.specs.declared.op.OdeItem.TheVariants.{Const};
ghost use Rattle.dlk_grammar.specs.Shown.{spell, item_text};
ghost use Rattle.dlk_jobs_check.specs.Guards.{guard_word, with_line_first, Guards};
ghost use Rattle.dlk_jobs_check.specs.Verdicts.{line_of};
ghost use Rattle.dlk_replies.specs.Ended.{EndsIn};
ghost use Rattle.dlk_replies.specs.Shown.{reply_of};

use crate::check::report;
use crate::term::take_term;
use dlk_guard::{Guard, Refusal, Why, verdict_is_first};
use dlk_kernel::Kernel;
use dlk_print::{PrintFault, append, append_decimal};
use dlk_replies::{Ended, Layout, NoReply, Reply, answer_of, printing};
use dlk_shared::SharedStore;
use dlk_store::{Steps, Store};
use dlk_tree::{Name, Sym};
use std::alloc::Global;
use std::sync::ledger::Ledger;

/// Appends a name with what stands before and behind it.
fn append_name(
    out: &mut Vec<u8>,
    before: &[u8],
    name: &Name,
    behind: &[u8],
) -> Result<(), PrintFault>
    ensures { OnOk result (out.new.items ≡ out.old.items ++ (before.now ++ (name.now ++ behind.now))) }
{
    append(out, before)?;
    append(out, name.bytes())?;
    append(out, behind)
}

/// Appends an ODE constant as it stands in a system: `c`, or with a taboo `c{|x|}`.
fn append_constant(out: &mut Vec<u8>, s: &Sym) -> Result<(), PrintFault>
    ensures { OnOk result (out.new.items ≡ out.old.items ++ spell (item_text (Const s.now) [])) }
{
    append(out, s.name.bytes())?;
    match &s.taboo {
        None => Ok(()),
        Some(x) => append_name(out, b"{|", x, b"|}"),
    }
}

/// Appends the word for why a line is unguarded.
fn append_why(out: &mut Vec<u8>, why: &Why) -> Result<(), PrintFault>
    ensures { OnOk result (out.new.items ≡ out.old.items ++ guard_word why.now) }
{
    match why {
        Why::OdeConstant(s) => {
            append(out, b"di-constant ")?;
            append_constant(out, s)
        }
        Why::NotSmooth => append(out, b"di-not-smooth"),
        Why::NotEvolved(x) => append_name(out, b"di-not-evolved ", x, b""),
        Why::Primed(x) => append_name(out, b"di-primed ", x, b"'"),
        Why::GhostNotSmooth => append(out, b"dg-not-smooth"),
        Why::DifferentialContext => append(out, b"differential-context"),
        Why::Dforall => append(out, b"dforall"),
        Why::RawFact => append(out, b"raw-fact"),
    }
}

/// The line of the guard.
fn line_of(alloc: Global, verdict: Option<Refusal>) -> Result<Vec<u8>, NoReply>
    ensures { IfOk result (λ line. line.items ≡ line_of verdict) }
{
    let mut line = Vec::new(alloc);
    let Some(refusal) = verdict else {
        line.extend_from_slice(b"guarded\n")?;
        return Ok(line);
    };
    line.extend_from_slice(b"unguarded line ")?;
    append_decimal(&mut line, refusal.line as u128)?;
    line.extend_from_slice(b": ")?;
    append_why(&mut line, &refusal.why)?;
    line.push(b'\n')?;
    Ok(line)
}

/// The reply with a line before what it prints.
fn with_line_first(mut line: Vec<u8>, reply: &Reply) -> Result<Reply, NoReply>
    ensures { IfOk result (λ r. reply_of r ≡ with_line_first line.items (reply_of reply.now)) }
{
    line.extend_from_slice(&reply.printed)?;
    Ok(printing(reply.status, line))
}

/// Checks a term on a kernel without rows, with a guard that sees each of its lines.
fn guard_on<S: Store, L: Ledger>(
    alloc: Global,
    kernel: &mut Kernel<S>,
    model: &[u8],
    term: &[u8],
    steps: &mut Steps<L>,
) -> Result<Reply, Ended>
    requires { kernel.old.rows ≡ [] }
    ensures reply { IfOk result (λ r. Guards model.now term.now (reply_of r)) }
    ensures ended { IfErr result (EndsIn (Guards model.now term.now)) }
{
    verdict_is_first();
    let mut guard = Guard::new(alloc);
    let taken = take_term(alloc, model, term, kernel, &mut guard, steps)?;
    let shown = report(alloc, Layout::Text, kernel, taken.fact, taken.lines, steps)?;
    let line = line_of(alloc, guard.verdict())?;
    let reply = with_line_first(line, &shown)?;
    Ok(reply)
}

/// Checks a term against a model. The reply is that of `check`, and where the term is accepted the line of the guard stands before
/// the report.
///
/// # Errors
///
/// `Memory` alone: each refusal is a reply.
#[inline(never)]
pub fn guard<L: Ledger>(
    alloc: Global,
    model: &[u8],
    term: &[u8],
    steps: &mut Steps<L>,
) -> Result<Reply, NoReply>
    ensures { IfOk result (λ r. Guards model.now term.now (reply_of r)) }
{
    let mut kernel = Kernel::new(alloc, SharedStore::new(alloc));
    answer_of(guard_on(alloc, &mut kernel, model, term, steps))
}
