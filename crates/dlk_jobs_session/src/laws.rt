//! The laws of what `session` answers. Each is a contract of a function that does nothing but call the laws below it.
ghost use Rattle.std.specs.Prelude.{◌≡◌, ◌⊎◌, ℕ, List, Some};
ghost use Rattle.dlk_session.specs.Sessions.{Line};
ghost use Rattle.dlk_replies.specs.Replies.{Reply as TheReply};
ghost use Rattle.dlk_jobs_session.specs.Scripts.{Script, ScriptFault};
ghost use Rattle.dlk_jobs_session.specs.Sessions.{Sessions};
ghost use Rattle.dlk_jobs_session.specs.Saved.{IsChecked};

use crate::runner::Strategies;
use dlk_calculus::laws::{derived_formulas, history_derives};
use dlk_derive::laws::plan_is_fitting;
use dlk_elab::{atom_has_symbols, atom_is_taken, atom_replaces_goal};
use dlk_jobs_record::laws::{recorded_is_written, written_is_checked};
use dlk_machine::laws::tree_texts;
use dlk_session::{one_session, session_is_kept};
use dlk_strategy::{run_on_has_symbols, run_on_is_taken, run_on_keeps_conclusion, some_outcome_on};
use dlk_tacsyn::laws::{fit_strategy, one_strategy, strategy_or_fault};

/// A file says one list of lines, or has one first line that says nothing, and not both; and it says lines or has such a line.
pub fn one_script()
    ensures one { (bytes : List ℕ) (a b : List Line) → Script bytes a → Script bytes b → a ≡ b }
    ensures one_fault { (bytes : List ℕ) (m n : ℕ) → ScriptFault bytes m → ScriptFault bytes n → m ≡ n }
    ensures not_both { (bytes : List ℕ) (lines : List Line) (n : ℕ) → Script bytes lines → ScriptFault bytes n → ⊥ }
    ensures some { (bytes : List ℕ) → ((lines : List Line) × Script bytes lines) ⊎ ((n : ℕ) × ScriptFault bytes n) }
{
    one_strategy();
    strategy_or_fault();
}

/// There is one answer to a model and a script.
pub fn one_session_reply()
    ensures { (model script : List ℕ) (one other : TheReply) → Sessions model script one → Sessions model script other → one ≡ other }
{
    one_script();
    one_session::<Strategies>();
}

/// There is some answer to a model and a script.
pub fn some_session_reply()
    ensures { (model script : List ℕ) → (reply : TheReply) × Sessions model script reply }
{
    tree_texts();
    fit_strategy();
    one_script();
    session_is_kept::<Strategies>();
    some_outcome_on();
}

/// Where `session` writes a term, it is that of the steps that were saved last. It is no longer than a term may be, and `check` accepts it and reports
/// what these steps show.
pub fn session_is_checked()
    ensures { (model script term : List ℕ) (reply : TheReply) → Sessions model script reply → reply.written ≡ Some term → IsChecked model script term }
{
    fit_strategy();
    session_is_kept::<Strategies>();
    run_on_is_taken();
    run_on_has_symbols();
    run_on_keeps_conclusion();
    recorded_is_written();
    written_is_checked();
}
