//! The laws of atoms. Each is a contract of a function that does nothing but call laws of the calculus.
ghost use Rattle.std.specs.Prelude.{◌≡◌, ◌≤◌, ◌<◌, ◌+◌, ◌⊎◌, ℕ, List, length, All};
ghost use Rattle.dlk_calculus.specs.Places.{At};
ghost use Rattle.dlk_calculus.specs.declared.reason.Reason.TheVariants.{NotEqual, LinesFull};
ghost use Rattle.dlk_calculus.specs.Limits.{most_rows};
ghost use Rattle.dlk_calculus.specs.Provables.{Provable, HasFormulas};
ghost use Rattle.dlk_calculus.specs.Sequents.{Sequent};
ghost use Rattle.dlk_calculus.specs.Steps.{Step};
ghost use Rattle.dlk_kernel.specs.Taken.{Takes};
ghost use Rattle.dlk_tacsyn.specs.Rows.{IsFitting};
ghost use Rattle.dlk_tacsyn.specs.Tactics.{Atom};
ghost use Rattle.dlk_elab.specs.Atoms.{FailWhy, HasNoLocator, HasNames, HasGoalAt, AtStep, AtomSteps, AtomFault, Replaces, IsByAxioms};
ghost use Rattle.dlk_elab.specs.Outcomes.{most_steps};
ghost use Rattle.dlk_elab.specs.Symbols.{ReplacesSymbols};

use dlk_calculus::laws::{
    given_unless_against, one_fault, one_innermost, one_provable, paths_join, put_is_there,
    subtrees_keep,
};
use dlk_match::{axioms_have_own_names, match_is_proper, match_keeps_sort, one_match, some_match};
use dlk_rules::{rule_is_its_word_and_arguments, word_wants_one_shape};
use dlk_uses::{boxes_fit, uses_fit, uses_have_shapes, uses_rename_few};

/// An atom gives at most one list of steps with one list of rows, or it has at most one fault.
pub fn one_atom()
    ensures steps { (rows : List Provable) (fact goal : ℕ) (atom : Atom) (s t : List Step) (a b : List Provable) → AtomSteps rows fact goal atom s a →
        AtomSteps rows fact goal atom t b → (s ≡ t) × (a ≡ b) }
    ensures fault { (rows : List Provable) (fact goal : ℕ) (atom : Atom) (why other : FailWhy) → AtomFault rows fact goal atom why →
        AtomFault rows fact goal atom other → why ≡ other }
    ensures not_both { (rows : List Provable) (fact goal : ℕ) (atom : Atom) (s : List Step) (a : List Provable) (why : FailWhy) →
        AtomSteps rows fact goal atom s a → AtomFault rows fact goal atom why → ⊥ }
{
    one_provable();
    one_fault();
    rule_is_its_word_and_arguments();
    word_wants_one_shape();
    one_match();
    one_innermost();
    uses_have_shapes();
}

/// A fitting atom without a locator, whose names are names, gives steps on a goal that is there, or has a fault. The rows are of formulas, as
/// those of a kernel are: what a use of an axiom puts in the place of symbols is made of what stands in the goal.
pub fn some_atom()
    ensures { (rows : List Provable) (fact goal : ℕ) (atom : Atom) → HasGoalAt rows fact goal → All HasFormulas rows → IsFitting atom → HasNoLocator atom →
        HasNames atom → ((s : List Step) × (a : List Provable) × AtomSteps rows fact goal atom s a) ⊎ ((why : FailWhy) × AtomFault rows fact goal atom why) }
{
    given_unless_against();
    one_innermost();
    paths_join();
    put_is_there();
    subtrees_keep();
    axioms_have_own_names();
    match_is_proper();
    match_keeps_sort();
    some_match();
    uses_have_shapes();
}

/// The last row after an atom on a goal of the last row is that one, with other goals in the goal's place, which are as many as there are
/// goals more, and one.
pub fn atom_replaces_goal()
    ensures count { (rows : List Provable) (goal : ℕ) (atom : Atom) (s : List Step) (a : List Provable) (new : List Sequent) (p q : Provable) →
        AtomSteps rows (length rows) goal atom s a → Replaces rows goal a new → At rows (length rows) p → At a (length a) q →
        length q.goals + 1 ≡ length p.goals + length new }
    ensures new { (rows : List Provable) (goal : ℕ) (atom : Atom) (s : List Step) (a : List Provable) → AtomSteps rows (length rows) goal atom s a →
        (new : List Sequent) × Replaces rows goal a new }
{}

/// What an atom for a box, or one that uses an axiom, merges proves the goal into which it is merged, and what it closes stands on both
/// sides: over rows of formulas none of its steps is refused since formulas are unlike.
/// The statement of strategies asks for it.
pub fn merges_fit()
    ensures { (rows : List Provable) (fact goal : ℕ) (atom : Atom) → All HasFormulas rows → IsByAxioms atom.name →
        AtomFault rows fact goal atom (AtStep NotEqual) → ⊥ }
{
    uses_fit();
    boxes_fit();
}

/// The steps of an atom are taken in turn, and with them the rows come to be those that the atom gives.
pub fn atom_is_taken()
    ensures { (rows : List Provable) (fact goal : ℕ) (atom : Atom) (s : List Step) (a : List Provable) → AtomSteps rows fact goal atom s a → Takes rows s a }
{}

/// An atom makes at most 24 steps.
pub fn atom_makes_few()
    ensures { (rows : List Provable) (fact goal : ℕ) (atom : Atom) (s : List Step) (a : List Provable) → AtomSteps rows fact goal atom s a →
        length s ≤ most_steps }
{
    uses_rename_few();
}

/// Where there is room for so many rows more, no step of an atom is refused since there are 400,000 rows.
pub fn atom_has_room()
    ensures { (rows : List Provable) (fact goal : ℕ) (atom : Atom) → AtomFault rows fact goal atom (AtStep LinesFull) → most_rows < length rows + most_steps }
{
    uses_rename_few();
}

/// What the steps of an atom replace are symbols, over rows of formulas, where the names that the atom is given are names and what it is
/// given to replace are symbols.
pub fn atom_has_symbols()
    ensures { (rows : List Provable) (fact goal : ℕ) (atom : Atom) (s : List Step) (a : List Provable) → All HasFormulas rows → HasNames atom →
        AtomSteps rows fact goal atom s a → All ReplacesSymbols s }
{
    axioms_have_own_names();
    subtrees_keep();
    match_is_proper();
}
