// What the program answers to its words and inputs. It reads and writes nothing.
ghost use Rattle.std.specs.Prelude.{◌≡◌, ◌≢◌, map, IfOk, option_copied, string_bytes, length, Some, IsTrue};
ghost use Rattle.dlk_replies.specs.declared.form.LastWord.TheVariants.{Output};
ghost use Rattle.dlk_replies.specs.Forms.{form_of, limit_of, ends_in, command_of};
ghost use Rattle.dlk_replies.specs.Inputs.{first_too_long as first_too_long_of};
ghost use Rattle.dlk_replies.specs.Replies.{refused_words};
ghost use Rattle.dlk_answers.specs.Answers.{Does, Responds, too_long};
ghost use Rattle.dlk_answers.specs.Looks.{CommandLooksAtFew};
ghost use Rattle.dlk_replies.specs.Shown.{texts_of, reply_of};

use dlk_jobs_check::check::check;
use dlk_jobs_check::guard::guard;
use dlk_jobs_prove::generate::generated;
use dlk_jobs_prove::prove::prove;
use dlk_jobs_session::session::session;
use dlk_jobs_terms::convert::convert;
use dlk_jobs_terms::link::link;
use dlk_jobs_terms::trim::trim;
use dlk_jobs_text::print::print;
use dlk_jobs_text::subst::subst;
use dlk_jobs_text::vars::vars;
use dlk_replies::{
    Command, Layout, NoReply, Reply, Role, Showing, Status, count_of, printing, refused,
};
use dlk_store::Steps;
use std::alloc::Global;
use std::sync::ledger::Ledger;

/// The answer where the words have none of the forms.
pub fn words_refused(alloc: Global) -> Result<Reply, NoReply>
    ensures { IfOk result (λ r. reply_of r ≡ refused_words) }
{
    let text = b"refused: words\n".as_slice().to_vec(alloc)?;
    Ok(printing(Status::Words, text))
}

/// The answer where this input is longer than its limit.
fn refused_too_long(alloc: Global, name: &str) -> Result<Reply, NoReply>
    ensures { IfOk result (λ r. reply_of r ≡ too_long name.now) }
{
    let why = format!(in alloc; "too-long {name}")?;
    refused(alloc, why.as_str())
}

/// The name of the first input that is longer than its limit.
fn first_too_long<'a>(names: &'a [String], roles: &[Role], inputs: &[Vec<u8>]) -> Option<&'a str>
    ensures { option_copied result ≡ first_too_long_of (map string_bytes names.now) (map limit_of roles.now) (texts_of inputs.now) }
{
    let [name, names @ ..] = names else {
        return None;
    };
    let [role, roles @ ..] = roles else {
        return None;
    };
    let [bytes, inputs @ ..] = inputs else {
        return None;
    };
    if bytes.len() > role.limit() {
        return Some(name.as_str());
    }
    first_too_long(names, roles, inputs)
}

/// The answer of a command that writes no file.
fn printing_job<L: Ledger>(
    alloc: Global,
    command: Command,
    others: &[String],
    inputs: &[Vec<u8>],
    steps: &mut Steps<L>,
) -> Result<Reply, NoReply>
    requires form { (form_of command).last ≢ Some Output }
    requires words { IsTrue (ends_in (form_of command).last (map string_bytes others.now)) }
    requires inputs { length inputs.now ≡ length (form_of command).inputs }
    ensures reply { IfOk result (λ r. Does command (map string_bytes others.now) (texts_of inputs.now) (reply_of r)) }
    ensures looks { CommandLooksAtFew command (texts_of inputs.now) steps.old steps.new }
{
    match (command, others, inputs) {
        (Command::Check, [], [model, term]) => check(
            alloc,
            Showing::Reported(Layout::Text),
            model,
            term,
            steps,
        ),
        (Command::Print, [], [file]) => print(alloc, file, steps),
        (Command::Vars, [], [file]) => vars(alloc, file),
        (Command::Subst, [], [file, substitution]) => subst(alloc, file, substitution, steps),
        (Command::Report, [], [model, term]) => check(
            alloc,
            Showing::Reported(Layout::Json),
            model,
            term,
            steps,
        ),
        (Command::Smt, [], [model, term]) => check(alloc, Showing::Exported, model, term, steps),
        (Command::Guard, [], [model, term]) => guard(alloc, model, term, steps),
        (Command::Gen, [count], []) => generated(alloc, count_of(count), steps),
        _ => unreachable!(),
    }
}

/// The answer of a command that writes a file.
fn writing_job<L: Ledger>(
    alloc: Global,
    command: Command,
    others: &[String],
    inputs: &[Vec<u8>],
    steps: &mut Steps<L>,
) -> Result<Reply, NoReply>
    requires form { (form_of command).last ≡ Some Output }
    requires words { IsTrue (ends_in (form_of command).last (map string_bytes others.now)) }
    requires inputs { length inputs.now ≡ length (form_of command).inputs }
    ensures { IfOk result (λ r. Does command (map string_bytes others.now) (texts_of inputs.now) (reply_of r)) }
{
    match (command, others, inputs) {
        (Command::Prove, [_], [model, strategy]) => prove(alloc, model, strategy, steps),
        (Command::Convert, [_], [term]) => convert(alloc, term, steps),
        (Command::Link, [_], [model, term, lemma]) => link(alloc, model, term, lemma, steps),
        (Command::Trim, [_], [model, term]) => trim(alloc, model, term, steps),
        (Command::Session, [_], [model, script]) => session(alloc, model, script, steps),
        _ => unreachable!(),
    }
}

/// The answer of a command to the words behind its inputs and to the inputs, each within its limit.
fn job<L: Ledger>(
    alloc: Global,
    command: Command,
    others: &[String],
    inputs: &[Vec<u8>],
    steps: &mut Steps<L>,
) -> Result<Reply, NoReply>
    requires words { IsTrue (ends_in (form_of command).last (map string_bytes others.now)) }
    requires inputs { length inputs.now ≡ length (form_of command).inputs }
    ensures reply { IfOk result (λ r. Does command (map string_bytes others.now) (texts_of inputs.now) (reply_of r)) }
    ensures looks { CommandLooksAtFew command (texts_of inputs.now) steps.old steps.new }
{
    match command {
        Command::Prove | Command::Convert | Command::Link | Command::Trim | Command::Session =>
            writing_job(alloc, command, others, inputs, steps),
        _ => printing_job(alloc, command, others, inputs, steps),
    }
}

/// The answer of a command to its inputs, each read to its end or to one byte past its limit.
pub fn respond<L: Ledger>(
    alloc: Global,
    command: Command,
    words: &[String],
    inputs: &[Vec<u8>],
    steps: &mut Steps<L>,
) -> Result<Reply, NoReply>
    requires form { command_of (map string_bytes words.now) ≡ Some command }
    requires inputs { length inputs.now ≡ length (form_of command).inputs }
    ensures reply { IfOk result (λ r. Responds command (map string_bytes words.now) (texts_of inputs.now) (reply_of r)) }
    ensures looks { CommandLooksAtFew command (texts_of inputs.now) steps.old steps.new }
{
    match first_too_long(command.inputs(words), command.form().inputs, inputs) {
        Some(name) => refused_too_long(alloc, name),
        None => job(alloc, command, command.others(words), inputs, steps),
    }
}
