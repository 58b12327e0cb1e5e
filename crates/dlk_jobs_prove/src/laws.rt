//! The laws of what `prove` and `gen` answer. Each is a contract of a function that does nothing but call the laws below it.
ghost use Rattle.std.specs.Prelude.{◌≡◌, ◌⊎◌, ◌≤◌, ℕ, List, length, Some};
ghost use Rattle.dlk_library.specs.Generated.{generated_model, generated_strategy};
ghost use Rattle.dlk_replies.specs.declared.form.Role.TheVariants.{Term};
ghost use Rattle.dlk_replies.specs.declared.reply.Layout.TheVariants.{Text};
ghost use Rattle.dlk_replies.specs.declared.reply.Showing.TheVariants.{Reported};
ghost use Rattle.dlk_replies.specs.declared.reply.Status.TheVariants.{Done, Refused};
ghost use Rattle.dlk_replies.specs.Forms.{limit_of};
ghost use Rattle.dlk_replies.specs.Replies.{Reply as TheReply, printing};
ghost use Rattle.dlk_jobs_check.specs.Checks.{Checks};
ghost use Rattle.dlk_jobs_prove.specs.Proves.{Proves};
ghost use Rattle.dlk_jobs_prove.specs.Generates.{Generates, SumsUp};

use dlk_jobs_record::laws::recorded_is_written;
use dlk_machine::laws::tree_texts;
use dlk_strategy::{one_outcome, run_has_symbols, run_is_taken, run_shows_formula, some_outcome};
use dlk_tacsyn::laws::{fit_strategy, one_strategy, strategy_or_fault};

/// There is one answer to a model and a strategy, and one to a number.
pub fn one_proof_reply()
    ensures proves { (model strategy : List ℕ) (one other : TheReply) → Proves model strategy one → Proves model strategy other → one ≡ other }
    ensures generates { (n : ℕ) (one other : TheReply) → Generates n one → Generates n other → one ≡ other }
{
    one_strategy();
    one_outcome();
}

/// There is some answer to a model and a strategy, and some answer to a number.
pub fn some_proof_reply()
    ensures proves { (model strategy : List ℕ) → (reply : TheReply) × Proves model strategy reply }
    ensures generates { (n : ℕ) → (reply : TheReply) × Generates n reply }
{
    tree_texts();
    strategy_or_fault();
    fit_strategy();
    some_outcome();
    run_shows_formula();
}

/// What `prove` writes is no longer than a term may be, and `check` answers the same to it: the same status, and the same report.
pub fn proved_is_checked()
    ensures { (model strategy term : List ℕ) (reply : TheReply) → Proves model strategy reply → reply.written ≡ Some term →
        (length term ≤ limit_of Term) × Checks (Reported Text) model term (printing reply.status reply.printed) }
{
    fit_strategy();
    run_is_taken();
    run_has_symbols();
    run_shows_formula();
    recorded_is_written();
}

/// `gen` is done or refuses, and its status never says that a proof is open. Where `prove` writes a term for what is generated, the answer sums up
/// the very proof that `prove` reports, and no term that is written is refused.
/// The statement of the program's answers asks for it.
pub fn generated_is_checked()
    ensures status { (n : ℕ) (reply : TheReply) → Generates n reply → (reply.status ≡ Done) ⊎ (reply.status ≡ Refused) }
    ensures summary { (n : ℕ) (term : List ℕ) (reply proved : TheReply) → Proves (generated_model n) (generated_strategy n) proved →
        proved.written ≡ Some term → Generates n reply → SumsUp n reply proved }
{
    one_strategy();
    one_outcome();
    fit_strategy();
    run_is_taken();
    run_has_symbols();
    run_shows_formula();
    recorded_is_written();
}
