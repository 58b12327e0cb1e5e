//! The laws of what `check`, `report`, `smt` and `guard` answer. Each is a contract of a function that does nothing but call the laws
//! below it.
ghost use Rattle.std.specs.Prelude.{◌≡◌, ◌≢◌, ◌⊎◌, ℕ, List};
ghost use Rattle.dlk_calculus.specs.Provables.{Provable};
ghost use Rattle.dlk_calculus.specs.Steps.{Step};
ghost use Rattle.dlk_replies.specs.declared.reply.Layout.TheVariants.{Text};
ghost use Rattle.dlk_replies.specs.declared.reply.Showing.{Showing as TheShowing};
ghost use Rattle.dlk_replies.specs.declared.reply.Showing.TheVariants.{Reported};
ghost use Rattle.dlk_replies.specs.declared.reply.Status.TheVariants.{Refused};
ghost use Rattle.dlk_replies.specs.Replies.{Reply as TheReply};
ghost use Rattle.dlk_jobs_check.specs.Terms.{TakesTerm, RefusesTerm};
ghost use Rattle.dlk_jobs_check.specs.Checks.{Checks};
ghost use Rattle.dlk_jobs_check.specs.Guards.{Guards, GuardSays, with_line_first};

use dlk_guard::first_or_guarded;

/// A term is taken for a model in one way, or refused with one reply, and not both.
/// The statement of the program's answers asks for it.
pub fn taken_or_refused()
    ensures some { (model term : List ℕ) → ((reply : TheReply) × RefusesTerm model term reply)
        ⊎ ((steps : List Step) × (rows : List Provable) × (p : Provable) × TakesTerm model term steps rows p) }
    ensures refused { (model term : List ℕ) (one other : TheReply) → RefusesTerm model term one → RefusesTerm model term other → one ≡ other }
    ensures taken { (model term : List ℕ) (steps others : List Step) (rows more : List Provable) (p q : Provable) → TakesTerm model term steps rows p →
        TakesTerm model term others more q → (steps ≡ others) × (rows ≡ more) × (p ≡ q) }
    ensures not_both { (model term : List ℕ) (reply : TheReply) (steps : List Step) (rows : List Provable) (p : Provable) → RefusesTerm model term reply →
        TakesTerm model term steps rows p → ⊥ }
{}

/// There is one answer to a model and a term, whatever is shown of the proof, and one of `guard`.
pub fn one_check_reply()
    ensures checks { (showing : TheShowing) (model term : List ℕ) (one other : TheReply) → Checks showing model term one →
        Checks showing model term other → one ≡ other }
    ensures guards { (model term : List ℕ) (one other : TheReply) → Guards model term one → Guards model term other → one ≡ other }
{
    first_or_guarded();
}

/// There is some answer to a model and a term, whatever is shown of the proof, and some answer of `guard`.
pub fn some_check_reply()
    ensures checks { (showing : TheShowing) (model term : List ℕ) → (reply : TheReply) × Checks showing model term reply }
    ensures guards { (model term : List ℕ) → (reply : TheReply) × Guards model term reply }
{
    first_or_guarded();
}

/// `guard` says one thing of a term before the report.
pub fn guard_says_one_thing()
    ensures { (term one other : List ℕ) → GuardSays term one → GuardSays term other → one ≡ other }
{
    first_or_guarded();
}

/// `guard` answers what `check` answers: where that refuses, the same, and else the same behind one line.
pub fn guard_reports_as_check()
    ensures refused { (model term : List ℕ) (reply checked : TheReply) → Guards model term reply → Checks (Reported Text) model term checked →
        checked.status ≡ Refused → reply ≡ checked }
    ensures accepted { (model term : List ℕ) (reply checked : TheReply) → Guards model term reply → Checks (Reported Text) model term checked →
        checked.status ≢ Refused → (said : List ℕ) × GuardSays term said × (reply ≡ with_line_first said checked) }
{}
