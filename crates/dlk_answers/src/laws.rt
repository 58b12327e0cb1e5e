//! The laws of answers. Each is a contract of a function that does nothing but call the laws below it.
ghost use Rattle.std.specs.Prelude.{◌≡◌, ◌<◌, ℕ, List, length, None, Some};
ghost use Rattle.dlk_replies.specs.declared.command.Command.{Command as TheCommand};
ghost use Rattle.dlk_replies.specs.Forms.{Word, command_of, form_of};
ghost use Rattle.dlk_replies.specs.Replies.{Reply as TheReply, code_of};
ghost use Rattle.dlk_answers.specs.Answers.{Responds};

use dlk_jobs_check::laws::{one_check_reply, some_check_reply};
use dlk_jobs_prove::laws::{one_proof_reply, some_proof_reply};
use dlk_jobs_session::laws::{one_session_reply, some_session_reply};
use dlk_jobs_terms::laws::{one_term_reply, some_term_reply};
use dlk_jobs_text::laws::{one_text_reply, some_text_reply};

/// A command has one answer to words and texts.
pub fn one_response()
    ensures { (command : TheCommand) (words : List Word) (texts : List (List ℕ)) (one other : TheReply) →
        Responds command words texts one → Responds command words texts other → one ≡ other }
{
    one_text_reply();
    one_check_reply();
    one_proof_reply();
    one_term_reply();
    one_session_reply();
}

/// A command answers something to words of its form and to as many texts as it has inputs.
pub fn some_response()
    ensures { (command : TheCommand) (words : List Word) (texts : List (List ℕ)) → command_of words ≡ Some command →
        length texts ≡ length (form_of command).inputs → (reply : TheReply) × Responds command words texts reply }
{
    some_text_reply();
    some_check_reply();
    some_proof_reply();
    some_term_reply();
    some_session_reply();
}

/// A command answers with a status below 3, and a refusal writes no file.
/// The statement of the program's answers asks for it.
pub fn refusals_write_nothing()
    ensures status { (command : TheCommand) (words : List Word) (texts : List (List ℕ)) (reply : TheReply) →
        Responds command words texts reply → code_of reply.status < 3 }
    ensures refusal { (command : TheCommand) (words : List Word) (texts : List (List ℕ)) (reply : TheReply) →
        Responds command words texts reply → code_of reply.status ≡ 2 → reply.written ≡ None }
{}
