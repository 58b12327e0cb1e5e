// The lines of a script on a session, and their answers.
ghost use Rattle.std.specs.Prelude.{◌≡◌, ◌++◌, List, map, All, IfOk, OnOk, string_bytes};
ghost use Rattle.dlk_print.specs.Lines.{line};
ghost use Rattle.dlk_strategy.specs.Runs.{RunsOn};
ghost use Rattle.dlk_session.specs.Held.{state};
ghost use Rattle.dlk_session.specs.Sessions.{Answer, Turn, Turns};
ghost use Rattle.dlk_jobs_session.specs.Sessions.{reply_text, answer_text, answers_text};
ghost use Rattle.dlk_jobs_session.specs.Ties.{line_at, IsKnownLine};

use crate::runner::Strategies;
use crate::script::Line;
use dlk_jobs_record::{budget_text, fails_text};
use dlk_print::append;
use dlk_replies::NoReply;
use dlk_session::{Reply, Session, SessionFault};
use dlk_store::{Steps, Store};
use std::alloc::Global;
use std::sync::ledger::Ledger;

/// What a reply says.
fn reply_text(alloc: Global, says: Reply) -> Result<String, NoReply>
    ensures { IfOk result (λ text. string_bytes text ≡ reply_text says) }
{
    let text = match says {
        Reply::Ok { goals } => format!(in alloc; "ok goals {goals}")?,
        Reply::NoGoal => format!(in alloc; "no-goal")?,
        Reply::Fails { at, why } => fails_text(alloc, at, why)?,
        Reply::Budget { at } => budget_text(alloc, at)?,
        Reply::Nothing => format!(in alloc; "nothing")?,
        Reply::Saved { lines } => format!(in alloc; "saved {lines}")?,
    };
    Ok(text)
}

/// Appends the line of a reply.
fn append_reply(alloc: Global, says: Reply, out: &mut Vec<u8>) -> Result<(), NoReply>
    ensures { OnOk result (out.new.items ≡ out.old.items ++ line (reply_text says)) }
{
    let text = reply_text(alloc, says)?;
    append(out, text.as_bytes())?;
    append(out, b"\n")?;
    Ok(())
}

/// One line of a script: what it answers is appended.
fn play_line<S: Store, L: Ledger>(
    alloc: Global,
    session: &mut Session<S>,
    line: &Line,
    out: &mut Vec<u8>,
    steps: &mut Steps<L>,
) -> Result<(), NoReply>
    requires { IsKnownLine (S.trees session.old.kernel.store) line.now }
    ensures turn { OnOk result ((answer : Answer) × Turn RunsOn (state S.trees session.old) (line_at (S.trees session.old.kernel.store) line.now) answer
        (state S.trees session.new) × (out.new.items ≡ out.old.items ++ answer_text answer)) }
    ensures grows { S.grows session.old.kernel.store session.new.kernel.store }
{
    match line {
        Line::Apply { goal, strategy } => {
            match session.apply(alloc, *goal, strategy, &mut Strategies, steps) {
                Ok(says) => append_reply(alloc, says, out),
                Err(SessionFault::Memory) => Err(NoReply::Memory),
            }
        }
        Line::Undo => append_reply(alloc, session.undo(), out),
        Line::Show => match session.show(alloc, steps) {
            Ok(report) => Ok(append(out, &report)?),
            Err(SessionFault::Memory) => Err(NoReply::Memory),
        },
        Line::Save => match session.save(alloc) {
            Ok(says) => append_reply(alloc, says, out),
            Err(SessionFault::Memory) => Err(NoReply::Memory),
        },
    }
}

/// The lines of a script in order, and all that they answer.
pub(crate) fn play<S: Store, L: Ledger>(
    alloc: Global,
    session: &mut Session<S>,
    lines: &[Line],
    steps: &mut Steps<L>,
) -> Result<Vec<u8>, NoReply>
    requires { All (IsKnownLine (S.trees session.old.kernel.store)) lines.now }
    ensures turns { IfOk result (λ out. (answers : List Answer) × Turns RunsOn (state S.trees session.old)
        (map (line_at (S.trees session.old.kernel.store)) lines.now) answers (state S.trees session.new) × (out.items ≡ answers_text answers)) }
    ensures grows { S.grows session.old.kernel.store session.new.kernel.store }
{
    let mut out = Vec::new(alloc);
    for line in lines {
        play_line(alloc, session, line, &mut out, steps)?;
    }
    Ok(out)
}
