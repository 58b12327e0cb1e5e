//! The laws of sessions. Each is a contract of a function that does nothing.
ghost use Rattle.std.specs.Prelude.{◌≡◌, ◌≤◌, ◌+◌, ◌*◌, ◌-◌, ℕ, List, [], length};
ghost use Rattle.dlk_tree.specs.Trees.{Tree};
ghost use Rattle.dlk_calculus.specs.Limits.{most_rows};
ghost use Rattle.dlk_tacsyn.specs.Tactics.{Tactic};
ghost use Rattle.dlk_elab.specs.Outcomes.{most_runs, most_steps};
ghost use Rattle.dlk_session.specs.declared.reply.Reply.{Reply};
ghost use Rattle.dlk_session.specs.declared.reply.Reply.TheVariants.{Ok as TheOk};
ghost use Rattle.dlk_session.specs.Kept.{IsKept};
ghost use Rattle.dlk_session.specs.Sessions.{State, Line, Answer, Begins, Applies, Undoes, Turn, Turns};

use crate::runner::Runner;

/// Lines have at most one list of answers, and leave at most one state.
pub fn one_session<R: Runner>()
    ensures line { (now next other : State) (line : Line) (a b : Answer) → Turn R.becomes now line a next → Turn R.becomes now line b other →
        (a ≡ b) × (next ≡ other) }
    ensures lines { (now last other : State) (lines : List Line) (a b : List Answer) → Turns R.becomes now lines a last → Turns R.becomes now lines b other →
        (a ≡ b) × (last ≡ other) }
{
    R::laws();
}

/// The steps of a session are taken in turn and give its rows. There are never more than 384,001, so that there is room for all that can still be
/// made.
pub fn session_is_kept<R: Runner>()
    ensures begins { (formula : Tree) (now : State) → Begins formula now → IsKept now }
    ensures line { (now next : State) (line : Line) (answer : Answer) → IsKept now → Turn R.becomes now line answer next → IsKept next }
    ensures room { (now : State) → IsKept now → length now.rows + most_steps * (most_runs - now.used) ≤ most_rows }
{
    R::laws();
}

/// A run that is done and then undone leaves the steps, the rows and what can be undone as they were. Its atoms stay counted.
/// The statement of sessions asks for it.
pub fn undo_gives_back<R: Runner>()
    ensures steps { (now next last : State) (goal goals : ℕ) (strategy : Tactic) (says : Reply) → IsKept now →
        Applies R.becomes goal strategy now (TheOk goals) next → Undoes next says last → last.steps ≡ now.steps }
    ensures rows { (now next last : State) (goal goals : ℕ) (strategy : Tactic) (says : Reply) → IsKept now →
        Applies R.becomes goal strategy now (TheOk goals) next → Undoes next says last → last.rows ≡ now.rows }
    ensures earlier { (now next last : State) (goal goals : ℕ) (strategy : Tactic) (says : Reply) → IsKept now →
        Applies R.becomes goal strategy now (TheOk goals) next → Undoes next says last → last.earlier ≡ now.earlier }
    ensures used { (now next last : State) (goal goals : ℕ) (strategy : Tactic) (says : Reply) → Applies R.becomes goal strategy now (TheOk goals) next →
        Undoes next says last → last.used ≡ next.used }
{
    R::laws();
}
