// The top call: reads the inputs, answers, and gives the answer.
ghost use Rattle.std.specs.Prelude.{◌≡◌, ℕ, ◌<◌, ◌≤◌, ◌++◌, length, map, string_bytes, Some, IfOk, OnOk, IsSome, IsNone, IsErrOf, ◌↔◌, ◌⊎◌, option_copied};
ghost use Rattle.dlk_desk.specs.Outside.{Rose};
ghost use Rattle.dlk_desk.specs.Desk.{OnlyReads};
ghost use Rattle.dlk_transfer.specs.declared.transfer.ReadError.TheVariants.{Fault};
ghost use Rattle.dlk_replies.specs.Forms.{limit_of, command_of};
ghost use Rattle.dlk_replies.specs.Inputs.{inputs as inputs_named, limits as limits_named};
ghost use Rattle.dlk_replies.specs.Replies.{code_of};
ghost use Rattle.dlk_replies.specs.Shown.{texts_of, reply_of};
ghost use Rattle.dlk.specs.Cuts.{cut_bytes_of};
ghost use Rattle.dlk.specs.Answers.{Answers};
ghost use Rattle.dlk.specs.Runs.{Caused, AsksFor, Asks, Keeps, HasInputs, Answered, Completes};
ghost use Rattle.dlk.specs.Headline.{DerivedTruly, ClosedTruly, JudgesTruly, ProvesTruly, GuardsTruly};
ghost use Rattle.dlk.specs.WrittenTerms.{ConvertsTruly, LinksTruly, TrimsTruly};
ghost use Rattle.dlk.specs.Sessions.{SessionsTruly};
ghost use Rattle.dlk.specs.Looks.{LooksAtFewFor, LooksAtFew};

use crate::call::CommandLine;
use crate::fault::NoAnswer;
use crate::give::give;
use dlk_answers::{respond, words_refused};
use dlk_desk::Desk;
use dlk_jobs_prove::laws::proved_is_checked;
use dlk_jobs_session::laws::session_is_checked;
use dlk_jobs_terms::laws::{converted_is_accepted, linked_is_checked, trimmed_is_checked};
use dlk_replay::one_verdict;
use dlk_replies::{Command, Reply, Role};
use dlk_store::Steps;
use dlk_transfer::{ReadError, read_all};
use std::alloc::Global;
use std::sync::ledger::Ledger;

/// The status where an input could not be read.
pub const READ_FAULT: u8 = 4;

/// The status where the answer could not be given.
pub const WRITE_FAULT: u8 = 5;

/// The status where memory ran out.
pub const NO_MEMORY: u8 = 6;

/// Reads these files in order, each to its end or to one byte past its limit.
#[inline(never)]
fn read_inputs<D: Desk>(
    alloc: Global,
    desk: &mut D,
    names: &[String],
    roles: &[Role],
) -> Result<Vec<Vec<u8>>, ReadError>
    requires { length names.now ≡ length roles.now }
    ensures ok { IfOk result (λ inputs. D.tells →
        cut_bytes_of (D.outside desk.old).files (map string_bytes names.now) (map limit_of roles.now) ≡ Some (texts_of inputs.items)) }
    ensures count { IfOk result (λ inputs. length inputs.items ≡ length names.now) }
    ensures all { OnOk result ((D.outside desk.new).asked ≡ (D.outside desk.old).asked ++ map string_bytes names.now) }
    ensures fault { IsErrOf result Fault → Rose (D.outside desk.old).read_faults (D.outside desk.new).read_faults }
    ensures asks { (count : ℕ) × AsksFor D.tells (map string_bytes names.now) (map limit_of roles.now) count (D.outside desk.old) (D.outside desk.new) }
    ensures only { OnlyReads D.tells (D.outside desk.old) (D.outside desk.new) }
{
    let mut inputs = Vec::new(alloc);
    for (i, name) in names.iter().enumerate() {
        let role = roles[i];
        inputs.push(read_all(alloc, desk, name, role.limit())?)?;
    }
    Ok(inputs)
}

/// Reads the inputs of a call and answers.
fn work<D: Desk, L: Ledger>(
    alloc: Global,
    call: CommandLine<'_>,
    desk: &mut D,
    steps: &mut Steps<L>,
) -> Result<Reply, NoAnswer>
    requires { call.command ≡ command_of (map string_bytes call.words.now) }
    ensures ok { IfOk result (λ r. D.tells → Answers (map string_bytes call.entry.words.now) (D.outside desk.old).files (reply_of r)) }
    ensures words { IfOk result (λ r. (code_of r.status ≡ 3) ↔ IsNone (command_of (map string_bytes call.entry.words.now))) }
    ensures kinds { IfOk result (λ r. code_of r.status ≤ 3) }
    ensures refusal { IfOk result (λ r. code_of r.status ≡ 2 → IsNone r.written) }
    ensures form { IsErrOf result NoAnswer.Fault → IsSome (command_of (map string_bytes call.entry.words.now)) }
    ensures missing { IfOk result (λ r. D.tells → HasInputs (map string_bytes call.entry.words.now) (D.outside desk.old)) }
    ensures fault { IsErrOf result NoAnswer.Fault → Rose (D.outside desk.old).read_faults (D.outside desk.new).read_faults }
    ensures all { OnOk result ((D.outside desk.new).asked ≡ (D.outside desk.old).asked ++ inputs_named (map string_bytes call.entry.words.now)) }
    ensures asks { (count : ℕ) × AsksFor D.tells (inputs_named (map string_bytes call.entry.words.now))
        (limits_named (map string_bytes call.entry.words.now)) count (D.outside desk.old) (D.outside desk.new) }
    ensures only { OnlyReads D.tells (D.outside desk.old) (D.outside desk.new) }
    ensures looks { D.tells → LooksAtFewFor (map string_bytes call.entry.words.now) (D.outside desk.old).files steps.old steps.new }
{
    let Some(command) = call.command else {
        return Ok(words_refused(alloc)?);
    };
    let inputs = read_inputs(
        alloc,
        desk,
        command.inputs(call.words),
        command.form().inputs,
    )?;
    Ok(respond(alloc, command, call.words, &inputs, steps)?)
}

/// Does what the words say, and answers the exit status of the program.
///
/// The words do not hold the program's own name. The statuses are 0 where the proof is closed or what was asked for is
/// printed, 1 where the proof is open, 2 where an input is refused, or what comes of the inputs, 3 where the words are none of
/// the forms, 4 where an input could not be read, 5 where the answer could not be given, 6 where memory ran out.
pub fn run<D: Desk, L: Ledger>(
    alloc: Global,
    words: &[String],
    desk: &mut D,
    steps: &mut Steps<L>,
) -> u8
    // Whenever `closed` is printed, the model is derived from exactly the leaves of the report, of which with status 5 a front is printed.
    ensures derived_truly { D.tells → DerivedTruly (map string_bytes words.now) result (D.outside desk.old) (D.outside desk.new) }
    // And it is so by the lines of the term.
    ensures closed_truly { D.tells → ClosedTruly (map string_bytes words.now) result (D.outside desk.old) (D.outside desk.new) }
    // A term is accepted exactly where each of its lines is a step, and else its first wrong line is named.
    ensures judges_truly { D.tells → JudgesTruly (map string_bytes words.now) result (D.outside desk.old) (D.outside desk.new) }
    // What `prove` writes is accepted by `check`, with the same report and the same status.
    ensures proves_truly { D.tells → ProvesTruly (map string_bytes words.now) result (D.outside desk.old) (D.outside desk.new) }
    // What `guard` says before the report of an accepted term: whether its lines are guarded, or which is the first that isn't.
    ensures guards_truly { D.tells → GuardsTruly (map string_bytes words.now) result (D.outside desk.old) (D.outside desk.new) }
    // What `convert` writes is the term file of the steps that the term's lines say, and is accepted with the very same rows.
    ensures converts_truly { D.tells → ConvertsTruly (map string_bytes words.now) result (D.outside desk.old) (D.outside desk.new) }
    // What `link` writes is accepted by `check`, with the same report and the same status, and shows the term with the lemma linked into it.
    ensures links_truly { D.tells → LinksTruly (map string_bytes words.now) result (D.outside desk.old) (D.outside desk.new) }
    // What `trim` writes is accepted by `check`, with the same report and the same status, shows what the term shows, and has no step that nothing needs.
    ensures trims_truly { D.tells → TrimsTruly (map string_bytes words.now) result (D.outside desk.old) (D.outside desk.new) }
    // What `session` prints are the replies to the script's lines in turn, and what it saves is accepted by `check`.
    ensures sessions_truly { D.tells → SessionsTruly (map string_bytes words.now) result (D.outside desk.old) (D.outside desk.new) }
    // On every desk: status 3 has wrong words as its cause, 4 a read fault and 5 a write fault, and no status is above 6.
    ensures caused { Caused (map string_bytes words.now) result (D.outside desk.old) (D.outside desk.new) }
    // On every desk: what is asked for are the inputs of the words in their order, and of the last of them little is taken.
    ensures asks { Asks D.tells (map string_bytes words.now) result (D.outside desk.old) (D.outside desk.new) }
    // On every desk: without an output no write is started, and with a read fault or for want of memory nothing is printed.
    ensures keeps { Keeps D.tells (map string_bytes words.now) result (D.outside desk.old) (D.outside desk.new) }
    // Where an input is missing: a read fault, or want of memory.
    ensures lacks { D.tells → (HasInputs (map string_bytes words.now) (D.outside desk.old) → ⊥) → (result ≡ 4) ⊎ (result ≡ 6) }
    // Where the inputs are there: the answer, or a fault, or want of memory. A file that was written whole stays so where printing fails.
    ensures answered { D.tells → HasInputs (map string_bytes words.now) (D.outside desk.old) →
        Answered (map string_bytes words.now) result (D.outside desk.old) (D.outside desk.new) }
    // Where moreover neither count of faults rose: the answer, or want of memory.
    ensures completes { D.tells → HasInputs (map string_bytes words.now) (D.outside desk.old) →
        Completes (map string_bytes words.now) result (D.outside desk.old) (D.outside desk.new) }
    // Where well-formed pairs make nothing, or a tree past a limit, few nodes were looked at.
    ensures looks { D.tells → LooksAtFew (map string_bytes words.now) result (D.outside desk.old) (D.outside desk.new) steps.old steps.new }
{
    proved_is_checked();
    converted_is_accepted();
    linked_is_checked();
    trimmed_is_checked();
    session_is_checked();
    one_verdict();
    let call = CommandLine {
        words,
        command: Command::parse(words),
    };
    let reply = match work(alloc, call, desk, steps) {
        Ok(reply) => reply,
        Err(NoAnswer::Memory) => return NO_MEMORY,
        Err(NoAnswer::Fault) => return READ_FAULT,
    };
    match give(desk, call.output(), &reply) {
        Ok(()) => reply.status.code(),
        Err(_) => WRITE_FAULT,
    }
}
