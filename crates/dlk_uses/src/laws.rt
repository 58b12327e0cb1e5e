//! The laws of uses. Each is a contract of a function that does nothing but call laws of the calculus and of matching.
ghost use Rattle.std.specs.Prelude.{◌≡◌, ◌≢◌, ◌+◌, ◌≤◌, ℕ, List, [], ◌∷◌, length, Some};
ghost use Rattle.dlk_tree.specs.Trees.{Tree, WellMade};
ghost use Rattle.dlk_calculus.specs.declared.reason.Reason.TheVariants.{NotEqual};
ghost use Rattle.dlk_calculus.specs.Axioms.{Axiom, axiom_named};
ghost use Rattle.dlk_calculus.specs.Notation.{box};
ghost use Rattle.dlk_calculus.specs.Pairs.{Extra};
ghost use Rattle.dlk_calculus.specs.Places.{At};
ghost use Rattle.dlk_calculus.specs.Provables.{Provable};
ghost use Rattle.dlk_calculus.specs.Rules.{Rule, Close};
ghost use Rattle.dlk_calculus.specs.Sequents.{Sequent};
ghost use Rattle.dlk_calculus.specs.Steps.{Step, Leaf, Apply, Merge, IsGoal};
ghost use Rattle.dlk_kernel.specs.Taken.{Takes};
ghost use Rattle.dlk_match.specs.Matching.{Match};
ghost use Rattle.dlk_sequent.specs.declared.sequent.Place.{Place};
ghost use Rattle.dlk_uses.specs.Applying.{Applies};
ghost use Rattle.dlk_uses.specs.Taking.{FirstFault};
ghost use Rattle.dlk_uses.specs.Uses.{Direction, Use, Spot, key, instance, FinishesBehind, HasShape, ProvesLast, generalizing, cutting_box};

use dlk_calculus::laws::{
    derived_formulas, paths_join, put_is_filled, put_is_there, subtrees_keep,
};
use dlk_match::{
    axioms_have_own_names, exchanged_over_kids, match_gives_target, match_is_proper,
    nothing_replaced, subst_over_kids,
};

/// What the steps of a use merge into a goal proves that goal, and what they close stands on both sides, whatever the axiom's form is: no
/// step is refused since formulas are unlike. The lines of the instance merge and close nothing. Those behind them do, on a goal to
/// which the use applies, where the instance is taken.
pub fn uses_fit()
    ensures instance { (rows : List Provable) (n : ℕ) (name : List ℕ) (extra : Extra) → FirstFault rows (instance n name extra) NotEqual → ⊥ }
    ensures behind { (rows between : List Provable) (name : List ℕ) (spot : Spot) (used : Use) (e : Tree) (extra : Extra) (rest : List Step) →
        Applies rows spot used e extra → axiom_named name ≡ Some used.its_axiom → Takes rows (instance (length rows) name extra) between →
        FinishesBehind between spot used e rest → FirstFault between rest NotEqual → ⊥ }
{
    derived_formulas();
    put_is_there();
    put_is_filled();
    subtrees_keep();
    paths_join();
    match_gives_target();
    axioms_have_own_names();
    exchanged_over_kids();
    subst_over_kids();
    nothing_replaced();
}

/// An axiom has the shape that its form says, and so has its instance, which the last row proves where it is taken, and which is well made.
/// The last row proves one formula alone.
pub fn uses_have_shapes()
    ensures axioms { (name : List ℕ) (a : Axiom) → axiom_named name ≡ Some a → HasShape a.form a.formula }
    ensures instances { (rows between : List Provable) (name : List ℕ) (extra : Extra) (a : Axiom) → axiom_named name ≡ Some a →
        Takes rows (instance (length rows) name extra) between → (f : Tree) × ProvesLast between f × HasShape a.form f }
    ensures made { (rows between : List Provable) (name : List ℕ) (extra : Extra) (a : Axiom) → axiom_named name ≡ Some a →
        Takes rows (instance (length rows) name extra) between → (f : Tree) → ProvesLast between f → WellMade f }
    ensures one { (rows : List Provable) (f g : Tree) → ProvesLast rows f → ProvesLast rows g → f ≡ g }
{
    derived_formulas();
    exchanged_over_kids();
    subst_over_kids();
    nothing_replaced();
}

/// With the names that a match gives to an axiom at most three are renamed: no axiom has more of its own.
pub fn uses_rename_few()
    ensures { (name : List ℕ) (a : Axiom) (direction : Direction) (place : Place) (t : Tree) (given extra : Extra) → axiom_named name ≡ Some a →
        Match (key a.form direction place a.formula) a.own_names t given extra → length extra.renames ≤ 3 }
{
    match_is_proper();
    axioms_have_own_names();
}

/// The same of the steps for a box at a place on the right: that it follows from its formula alone, and from another box.
pub fn boxes_fit()
    ensures generalizing { (rows : List Provable) (spot : Spot) (j : ℕ) (b f : Tree) → IsGoal rows spot.fact spot.goal spot.s → At spot.s.succ j (box b f) →
        FirstFault rows (generalizing (length rows) spot j b f) NotEqual → ⊥ }
    ensures cutting { (rows : List Provable) (spot : Spot) (j : ℕ) (b f h : Tree) → IsGoal rows spot.fact spot.goal spot.s → At spot.s.succ j (box b f) →
        FirstFault rows (cutting_box (length rows) spot j b f h) NotEqual → ⊥ }
{}

/// No leaf that is merged into the goal that it is, and no rule but the one that closes by two formulas, is refused since formulas are
/// unlike.
pub fn goals_fit()
    ensures leaf { (rows : List Provable) (fact goal : ℕ) (s : Sequent) → IsGoal rows fact goal s →
        FirstFault rows (Leaf s ∷ Merge fact goal (length rows + 1) ∷ []) NotEqual → ⊥ }
    ensures rule { (rows : List Provable) (fact goal : ℕ) (rule : Rule) → ((i j : ℕ) → rule ≢ Close i j) →
        FirstFault rows (Apply fact goal rule ∷ []) NotEqual → ⊥ }
{}
