//! The laws of links and of trimmed proofs: contracts of functions that do nothing.
ghost use Rattle.std.specs.Prelude.{◌≡◌, ◌≤◌, ℕ, List, [], length};
ghost use Rattle.dlk_calculus.specs.Places.{At};
ghost use Rattle.dlk_calculus.specs.Provables.{Provable, IsAmong};
ghost use Rattle.dlk_calculus.specs.Sequents.{Sequent};
ghost use Rattle.dlk_calculus.specs.declared.reason.Reason.{Reason as TheReason};
ghost use Rattle.dlk_calculus.specs.Steps.{Step, Gives, IsWithin};
ghost use Rattle.dlk_kernel.specs.Taken.{Takes};
ghost use Rattle.dlk_rules.specs.Facts.{renumbered};
ghost use Rattle.dlk_uses.specs.Taking.{FirstFault};
ghost use Rattle.dlk_link.specs.Kept.{Keeps, ShowsSame};
ghost use Rattle.dlk_link.specs.Linked.{Linked, Joined, IsLinkLimit};
ghost use Rattle.dlk_link.specs.Neat.{AreUnlike, AreNamed};
ghost use Rattle.dlk_link.specs.Trimmed.{Names, Trims, Trimmed};

use dlk_calculus::laws::{one_fault, one_provable, taken_as_given};

/// Where each fact that a step names stands under another number, the step with these numbers gives the same, and is as well within the limits.
pub fn moved_steps()
    ensures gives { (rows others : List Provable) (to : ℕ → ℕ) (step : Step) (p : Provable) →
        ((fact : ℕ) (q : Provable) → Names step fact → At rows fact q → At others (to fact) q) → Gives rows step p → Gives others (renumbered to step) p }
    ensures within { (to : ℕ → ℕ) (step : Step) (p : Provable) → IsWithin step p → IsWithin (renumbered to step) p }
{}

/// Of a term at most one list of steps is kept. The statement of trimmed terms asks for it.
pub fn one_trimmed()
    ensures { (term kept others : List Step) → Trimmed term kept → Trimmed term others → kept ≡ others }
{}

/// What is kept of a term is taken, and each row that the last one needs is there under its new number. So it ends in the same provable.
/// At most as many steps are kept.
pub fn trimmed_is_taken()
    ensures rows { (term kept : List Step) (numbers : List ℕ) (rows : List Provable) → Takes [] term rows → Trims term term kept numbers →
        Keeps term numbers rows kept }
    ensures last { (term kept : List Step) (rows : List Provable) → Takes [] term rows → 1 ≤ length term → Trimmed term kept → ShowsSame rows kept }
{
    taken_as_given();
    one_provable();
}

/// No two kept steps are equal, and each but the last is named by a later one.
pub fn trimmed_is_neat()
    ensures unlike { (term kept : List Step) → Trimmed term kept → AreUnlike kept }
    ensures named { (term kept : List Step) (rows : List Provable) → Takes [] term rows → 1 ≤ length term → Trimmed term kept → AreNamed kept }
{
    taken_as_given();
    one_provable();
}

/// Trimmed again, what is kept stays as it is: so do any steps of which no two are equal and each but the last is named by a later one.
pub fn neat_is_trimmed()
    ensures { (steps : List Step) (rows : List Provable) → Takes [] steps rows → 1 ≤ length steps → AreUnlike steps → AreNamed steps → Trimmed steps steps }
{}

/// There is one list of linked steps. The statement of linked terms asks for it.
pub fn one_linked()
    ensures one { (term lemma steps others : List Step) (goals : List Sequent) (c : Sequent) → Linked term goals lemma c steps →
        Linked term goals lemma c others → steps ≡ others }
    ensures some { (term lemma : List Step) (goals : List Sequent) (c : Sequent) → (steps : List Step) × Linked term goals lemma c steps }
{}

/// Where a goal of the term's last row is what the lemma concludes, linked steps that are taken end in the term's last row with the lemma in the
/// place of each such goal. Only a limit on goals, leaves or rows can be against one of them.
pub fn linked_is_joined()
    ensures row { (term lemma steps : List Step) (rows others after : List Provable) (p q : Provable) → Takes [] term rows → Takes [] lemma others →
        At rows (length rows) p → At others (length others) q → Linked term p.goals lemma q.conclusion steps → IsAmong q.conclusion p.goals →
        Takes [] steps after → (r : Provable) × At after (length after) r × Joined p q r }
    ensures fault { (term lemma steps : List Step) (rows others : List Provable) (p q : Provable) (why : TheReason) → Takes [] term rows →
        Takes [] lemma others → At rows (length rows) p → At others (length others) q → Linked term p.goals lemma q.conclusion steps → FirstFault [] steps why →
        IsLinkLimit why }
{
    one_fault();
}
