// `session MODEL SCRIPT TERM`: run strategies line by line on chosen goals of a model's proof, and write the term that is saved.
ghost use Rattle.std.specs.Prelude.{◌≡◌, [], IfOk, OnOk, IfErr, option_map};
ghost use Rattle.dlk_elab.specs.Outcomes.{main_goals};
ghost use Rattle.dlk_report.specs.Reports.{is_closed};
ghost use Rattle.dlk_session.specs.Held.{state};
ghost use Rattle.dlk_replies.specs.Ended.{EndsIn};
ghost use Rattle.dlk_replies.specs.Shown.{reply_of};
ghost use Rattle.dlk_jobs_session.specs.Sessions.{script_refused, Sessions};
ghost use Rattle.dlk_jobs_session.specs.Ties.{AreRead};
ghost use Rattle.dlk_jobs_session.specs.Written.{IsFileOf, IsTooLong};
ghost use Rattle.dlk_jobs_check.specs.Checks.{status_of};

use crate::playing::play;
use crate::script::{Line, ScriptFault, read_script};
use dlk_jobs_check::term::read_model;
use dlk_jobs_record::refuse_length;
use dlk_kernel::Kernel;
use dlk_machine::laws::tree_texts;
use dlk_recorder::{Recorded, record};
use dlk_replies::{Ended, NoReply, Reply, Role, Status, answer_of, end_by, refused};
use dlk_session::{Session, SessionFault};
use dlk_shared::SharedStore;
use dlk_store::{Id, Steps, Store};
use std::alloc::Global;
use std::sync::ledger::Ledger;

/// The answer to a script of which this line says nothing.
fn refuse_script(alloc: Global, line: usize) -> Result<Reply, NoReply>
    ensures { IfOk result (λ r. reply_of r ≡ script_refused line) }
{
    let why = format!(in alloc; "script line {line}")?;
    refused(alloc, why.as_str())
}

/// Whether the last row of a session has no goals left.
fn status<S: Store>(session: &Session<S>) -> Status
    ensures { result ≡ status_of (is_closed (main_goals (state S.trees session.now).rows)) }
{
    let kernel = session.kernel();
    if kernel.goals(kernel.rows()).is_empty() {
        Status::Closed
    } else {
        Status::Open
    }
}

/// The term file of what a session has saved, if it has saved steps.
fn saved_term<S: Store, L: Ledger>(
    alloc: Global,
    session: &Session<S>,
    steps: &mut Steps<L>,
) -> Result<Option<Vec<u8>>, Ended>
    ensures file { IfOk result (λ file. IsFileOf (state S.trees session.now).saved (option_map (λ v. v.items) file)) }
    ensures ended { IfErr result (EndsIn (IsTooLong (state S.trees session.now).saved)) }
{
    let Some(saved) = session.saved() else {
        return Ok(None);
    };
    let kernel = session.kernel();
    // That its store keeps each tree once is what a kernel says with the number of its rows.
    let _rows = kernel.rows();
    match record(alloc, kernel, saved, Role::Term.limit(), steps)? {
        Recorded::Whole(term) => Ok(Some(term)),
        Recorded::TooLong(bytes) => Err(end_by(refuse_length(alloc, bytes))),
    }
}

/// The model's formula and the lines of the script, read into the store of a kernel.
fn read<S: Store>(
    alloc: Global,
    model: &[u8],
    script: &[u8],
    kernel: &mut Kernel<S>,
) -> Result<(Id, Vec<Line>), Ended>
    ensures read { IfOk result (λ p. AreRead model.now script.now (S.trees kernel.new.store) p.0 p.1.items) }
    ensures ended { IfErr result (EndsIn (Sessions model.now script.now)) }
    ensures rows { OnOk result (kernel.new.rows ≡ kernel.old.rows) }
{
    let formula = read_model(alloc, model, kernel)?;
    match read_script(alloc, script, kernel) {
        Ok(lines) => Ok((formula, lines)),
        Err(ScriptFault::Wrong(line)) => Err(end_by(refuse_script(alloc, line))),
        Err(ScriptFault::Memory) => Err(Ended::Memory),
    }
}

/// Plays a script on a kernel without rows.
fn session_on<S: Store + Drop, L: Ledger>(
    alloc: Global,
    mut kernel: Kernel<S>,
    model: &[u8],
    script: &[u8],
    steps: &mut Steps<L>,
) -> Result<Reply, Ended>
    requires { kernel.rows ≡ [] }
    ensures reply { IfOk result (λ r. Sessions model.now script.now (reply_of r)) }
    ensures ended { IfErr result (EndsIn (Sessions model.now script.now)) }
{
    tree_texts();
    let (formula, lines) = read(alloc, model, script, &mut kernel)?;
    let mut session = match Session::new(alloc, kernel, formula, steps) {
        Ok(session) => session,
        Err(SessionFault::Memory) => return Err(Ended::Memory),
    };
    let printed = play(alloc, &mut session, &lines, steps)?;
    let written = saved_term(alloc, &session, steps)?;
    Ok(Reply {
        status: status(&session),
        printed,
        written,
    })
}

/// Runs the lines of a script on a model. The reply has what they answer, and the text of the term to be written, if steps were saved.
///
/// # Errors
///
/// `Memory` alone: each refusal is a reply.
#[inline(never)]
pub fn session<L: Ledger>(
    alloc: Global,
    model: &[u8],
    script: &[u8],
    steps: &mut Steps<L>,
) -> Result<Reply, NoReply>
    ensures { IfOk result (λ r. Sessions model.now script.now (reply_of r)) }
{
    let kernel = Kernel::new(alloc, SharedStore::new(alloc));
    answer_of(session_on(alloc, kernel, model, script, steps))
}
