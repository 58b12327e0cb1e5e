//! The laws of what `convert`, `link` and `trim` answer. Each is a contract of a function that does nothing but call the laws below it.
ghost use Rattle.std.specs.Prelude.{◌≡◌, ◌≤◌, ℕ, List, length, Some};
ghost use Rattle.dlk_replies.specs.declared.form.Role.TheVariants.{Term};
ghost use Rattle.dlk_replies.specs.declared.reply.Layout.TheVariants.{Text};
ghost use Rattle.dlk_replies.specs.declared.reply.Showing.TheVariants.{Reported};
ghost use Rattle.dlk_replies.specs.Forms.{limit_of};
ghost use Rattle.dlk_replies.specs.Replies.{Reply as TheReply, printing};
ghost use Rattle.dlk_jobs_check.specs.Checks.{Checks};
ghost use Rattle.dlk_jobs_record.specs.Records.{WritesUnlessRefused};
ghost use Rattle.dlk_jobs_terms.specs.Converts.{Converts, IsConverted};
ghost use Rattle.dlk_jobs_terms.specs.Links.{Links, IsJoined};
ghost use Rattle.dlk_jobs_terms.specs.Trims.{Trims, IsTrimmed};

use dlk_calculus::laws::{given_unless_against, one_fault, one_provable};
use dlk_jobs_record::laws::recorded_is_written;
use dlk_link::{linked_is_joined, trimmed_is_neat, trimmed_is_taken};
use dlk_replay::{accepted_says_steps, accepted_steps_have_symbols};
use dlk_rules::rule_is_its_word_and_arguments;

/// There is one answer of each of the commands.
pub fn one_term_reply()
    ensures converts { (term : List ℕ) (one other : TheReply) → Converts term one → Converts term other → one ≡ other }
    ensures links { (model term lemma : List ℕ) (one other : TheReply) → Links model term lemma one → Links model term lemma other → one ≡ other }
    ensures trims { (model term : List ℕ) (one other : TheReply) → Trims model term one → Trims model term other → one ≡ other }
{
    one_provable();
    one_fault();
}

/// There is some answer of each of the commands.
pub fn some_term_reply()
    ensures converts { (term : List ℕ) → (reply : TheReply) × Converts term reply }
    ensures links { (model term lemma : List ℕ) → (reply : TheReply) × Links model term lemma reply }
    ensures trims { (model term : List ℕ) → (reply : TheReply) × Trims model term reply }
{
    given_unless_against();
    rule_is_its_word_and_arguments();
    accepted_says_steps();
    linked_is_joined();
    trimmed_is_taken();
}

/// Each of the commands writes a term, or refuses. The statement of the program's answers asks for it.
pub fn term_or_refusal()
    ensures converts { (term : List ℕ) (reply : TheReply) → Converts term reply → WritesUnlessRefused reply }
    ensures links { (model term lemma : List ℕ) (reply : TheReply) → Links model term lemma reply → WritesUnlessRefused reply }
    ensures trims { (model term : List ℕ) (reply : TheReply) → Trims model term reply → WritesUnlessRefused reply }
{}

/// What `convert` writes is no longer than a term may be, and is accepted with the very rows of the term, of which the last is reported.
pub fn converted_is_accepted()
    ensures { (term written : List ℕ) (reply : TheReply) → Converts term reply → reply.written ≡ Some written → IsConverted term written reply }
{
    accepted_says_steps();
    accepted_steps_have_symbols();
    recorded_is_written();
}

/// What `link` writes is accepted, and shows what the term shows, with the lemma's goals in the place of each goal that the lemma concludes and with
/// the lemma's leaves that aren't there yet behind the others. So it is no longer than a term may be, and `check` answers the same to it: the same
/// status, and the same report.
pub fn linked_is_checked()
    ensures joined { (model term lemma written : List ℕ) (reply : TheReply) → Links model term lemma reply → reply.written ≡ Some written →
        IsJoined model term lemma written reply }
    ensures checked { (model term lemma written : List ℕ) (reply : TheReply) → Links model term lemma reply → reply.written ≡ Some written →
        (length written ≤ limit_of Term) × Checks (Reported Text) model written (printing reply.status reply.printed) }
{
    accepted_says_steps();
    accepted_steps_have_symbols();
    linked_is_joined();
    recorded_is_written();
}

/// What `trim` writes is accepted, and shows what the term shows, by at most as many steps, of which no two are equal and each but the last is named by
/// a later one. So it is no longer than a term may be, and `check` answers the same to it: the same status, and the same report.
pub fn trimmed_is_checked()
    ensures trimmed { (model term written : List ℕ) (reply : TheReply) → Trims model term reply → reply.written ≡ Some written →
        IsTrimmed model term written reply }
    ensures checked { (model term written : List ℕ) (reply : TheReply) → Trims model term reply → reply.written ≡ Some written →
        (length written ≤ limit_of Term) × Checks (Reported Text) model written (printing reply.status reply.printed) }
{
    accepted_says_steps();
    accepted_steps_have_symbols();
    trimmed_is_taken();
    trimmed_is_neat();
    recorded_is_written();
}
