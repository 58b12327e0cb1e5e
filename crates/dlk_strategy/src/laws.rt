//! The laws of runs. Each is a contract of a function that does nothing but call laws of atoms, of the library and of the calculus.
ghost use Rattle.std.specs.Prelude.{◌≡◌, ◌≤◌, ◌+◌, ◌-◌, ◌*◌, ◌∷◌, ℕ, List, [], length, map, All};
ghost use Rattle.dlk_tree.specs.Trees.{Tree};
ghost use Rattle.dlk_calculus.specs.declared.reason.Reason.TheVariants.{LinesFull};
ghost use Rattle.dlk_calculus.specs.Limits.{most_rows, IsSmall, IsShallow};
ghost use Rattle.dlk_calculus.specs.Places.{At, IsPlace};
ghost use Rattle.dlk_calculus.specs.Provables.{Provable};
ghost use Rattle.dlk_calculus.specs.Sequents.{IsFormula, alone_right};
ghost use Rattle.dlk_calculus.specs.Steps.{Step, Start, StepOf, IsProper};
ghost use Rattle.dlk_derive.specs.Derives.{use_of};
ghost use Rattle.dlk_derive.specs.Plans.{Call};
ghost use Rattle.dlk_kernel.specs.Taken.{Takes};
ghost use Rattle.dlk_sequent.specs.declared.sequent.Place.{Place};
ghost use Rattle.dlk_tacsyn.specs.Strategies.{parts};
ghost use Rattle.dlk_tacsyn.specs.Rows.{AreOfText};
ghost use Rattle.dlk_tacsyn.specs.Tactics.{Tactic, One, EachAtom};
ghost use Rattle.dlk_elab.specs.Atoms.{HasNames};
ghost use Rattle.dlk_elab.specs.declared.fault.FailWhy.{FailWhy};
ghost use Rattle.dlk_elab.specs.declared.fault.FailWhy.TheVariants.{Step as AtStep};
ghost use Rattle.dlk_elab.specs.Outcomes.{most_steps};
ghost use Rattle.dlk_elab.specs.Symbols.{ReplacesSymbols};
ghost use Rattle.dlk_reach.specs.Derived.{Derivable};
ghost use Rattle.dlk_strategy.specs.Differentiated.{derive_at, IsDifferentiated};
ghost use Rattle.dlk_strategy.specs.Runs.{Progress, Outcome, Done, Fails, OneByOne, InTurn, Runs, RunsModel, RunsOn, main_goals, most_runs, moved, behind};

use dlk_calculus::laws::{derived_formulas, history_derives, one_provable};
use dlk_derive::laws::{one_plan, plan_is_fitting, some_plan};
use dlk_elab::{
    atom_has_room, atom_has_symbols, atom_is_taken, atom_makes_few, atom_replaces_goal, one_atom,
    some_atom,
};
use dlk_library::laws::{expansion_fits, one_expansion, some_expansion};
use dlk_reach::derivative_is_reached;

/// The steps of a run that is done are taken in turn, and give its rows. Their names are names, and their replacements well made.
pub fn run_is_taken()
    ensures taken { (t : Tactic) (formula : Tree) (made : Progress) (left : ℕ) → RunsModel t formula (Done made left) → Takes [] made.steps made.rows }
    ensures proper { (t : Tactic) (formula : Tree) (made : Progress) (left : ℕ) → RunsModel t formula (Done made left) → All IsProper made.steps }
{
    atom_is_taken();
}

/// What the steps of a run that is done replace are symbols, where the names of its atoms are names and what they are given to replace are
/// symbols.
pub fn run_has_symbols()
    ensures { (t : Tactic) (formula : Tree) (made : Progress) (left : ℕ) → EachAtom HasNames t → RunsModel t formula (Done made left) →
        All ReplacesSymbols made.steps }
{
    atom_is_taken();
    history_derives();
    derived_formulas();
    expansion_fits();
    atom_has_symbols();
    plan_is_fitting();
}

/// The last row of a run that is done shows its formula.
pub fn run_shows_formula()
    ensures { (t : Tactic) (formula : Tree) (made : Progress) (left : ℕ) → RunsModel t formula (Done made left) →
        (p : Provable) × At made.rows (length made.rows) p × (p.conclusion ≡ alone_right formula) }
{
    atom_replaces_goal();
}

/// The uses of axioms that `derive` runs become what they become as parts of a sequence.
/// The statement of strategies asks for it.
pub fn derive_runs_as_sequence()
    ensures sequence { (byte : ℕ) (place : Place) (calls : List Call) (goals goal : ℕ) (now : Progress) (o : Outcome) →
        OneByOne (map (use_of byte place) calls) goals goal now o → InTurn (parts (map (λ call. One (use_of byte place call)) calls)) goals goal now o }
    ensures uses { (byte : ℕ) (place : Place) (calls : List Call) (goals goal : ℕ) (now : Progress) (o : Outcome) →
        InTurn (parts (map (λ call. One (use_of byte place call)) calls)) goals goal now o → OneByOne (map (use_of byte place) calls) goals goal now o }
{}

/// `derive` alone, on a model of at most 150 nodes where the kid of the `( )'` at its place has a derivative, is done: the last row has one goal,
/// the model with the derivative at the place, and its leaves are the conditions on exponents, each once.
pub fn derive_differentiates()
    ensures { (byte : ℕ) (model k d : Tree) (path : List ℕ) → Derivable model path k d →
        (made : Progress) × RunsModel (derive_at byte path) model (Done made 1) × IsDifferentiated made.rows (length made.rows) model path k d }
{
    derivative_is_reached();
}

/// A strategy on a model has at most one outcome.
pub fn one_outcome()
    ensures { (t : Tactic) (formula : Tree) (a b : Outcome) → RunsModel t formula a → RunsModel t formula b → a ≡ b }
{
    one_expansion();
    one_atom();
    one_plan();
    one_provable();
}

/// A strategy whose atoms are those of a text, with names that are names, has an outcome on each formula within the limits.
pub fn some_outcome()
    ensures { (t : Tactic) (formula : Tree) → AreOfText t → EachAtom HasNames t → IsFormula formula → IsSmall formula → IsShallow formula →
        (o : Outcome) × RunsModel t formula o }
{
    atom_is_taken();
    history_derives();
    derived_formulas();
    some_expansion();
    expansion_fits();
    some_atom();
    some_plan();
    plan_is_fitting();
}

/// A strategy on a goal of rows, where there were so many runs before, has at most one outcome.
pub fn one_outcome_on()
    ensures { (t : Tactic) (rows : List Provable) (goal used : ℕ) (a b : Outcome) → RunsOn t rows goal used a → RunsOn t rows goal used b → a ≡ b }
{
    one_expansion();
    one_atom();
    one_plan();
}

/// A strategy whose atoms are those of a text, with names that are names, has an outcome on each goal of the last of rows that steps give.
pub fn some_outcome_on()
    ensures { (t : Tactic) (steps : List Step) (rows : List Provable) (goal used : ℕ) → AreOfText t → EachAtom HasNames t → Takes [] steps rows →
        IsPlace (main_goals rows) goal → (o : Outcome) × RunsOn t rows goal used o }
{
    atom_is_taken();
    history_derives();
    derived_formulas();
    some_expansion();
    expansion_fits();
    some_atom();
    some_plan();
    plan_is_fitting();
}

/// The steps that a run on a goal makes are taken in turn behind the rows, and give its rows. Their names are names, and their replacements well
/// made.
pub fn run_on_is_taken()
    ensures taken { (t : Tactic) (rows : List Provable) (goal used : ℕ) (made : Progress) (left : ℕ) → RunsOn t rows goal used (Done made left) →
        Takes rows made.steps made.rows }
    ensures proper { (t : Tactic) (rows : List Provable) (goal used : ℕ) (made : Progress) (left : ℕ) → RunsOn t rows goal used (Done made left) →
        All IsProper made.steps }
{
    atom_is_taken();
}

/// What the steps replace that a run on a goal makes are symbols, where the names of its atoms are names and what they are given to replace are
/// symbols.
pub fn run_on_has_symbols()
    ensures { (t : Tactic) (steps : List Step) (rows : List Provable) (goal used : ℕ) (made : Progress) (left : ℕ) → EachAtom HasNames t → Takes [] steps rows →
        RunsOn t rows goal used (Done made left) → All ReplacesSymbols made.steps }
{
    atom_is_taken();
    history_derives();
    derived_formulas();
    expansion_fits();
    atom_has_symbols();
    plan_is_fitting();
}

/// The last row of a run on a goal shows what the last of the rows shows on which it ran.
pub fn run_on_keeps_conclusion()
    ensures { (t : Tactic) (rows : List Provable) (goal used : ℕ) (made : Progress) (left : ℕ) (p : Provable) → At rows (length rows) p →
        RunsOn t rows goal used (Done made left) → (q : Provable) × At made.rows (length made.rows) q × (q.conclusion ≡ p.conclusion) }
{
    atom_replaces_goal();
}

/// A run on a goal counts on from the atoms that were run before, up to 16,000, and makes at most 24 steps for each that it counts.
pub fn run_on_is_counted()
    ensures done { (t : Tactic) (rows : List Provable) (goal used : ℕ) (made : Progress) (left : ℕ) → used ≤ most_runs →
        RunsOn t rows goal used (Done made left) → (used ≤ made.used) × (made.used ≤ most_runs) × (length made.steps ≤ most_steps * (made.used - used)) }
    ensures fails { (t : Tactic) (rows : List Provable) (goal used at count : ℕ) (why : FailWhy) → used ≤ most_runs →
        RunsOn t rows goal used (Fails at why count) → (used ≤ count) × (count ≤ most_runs) }
{
    atom_makes_few();
}

/// Where there is room for all rows that the atoms still to be run can make, a run on a goal doesn't fail since there are 400,000 rows.
/// The statement of strategies asks for it.
pub fn run_on_has_room()
    ensures { (t : Tactic) (rows : List Provable) (goal used at count : ℕ) → length rows + most_steps * (most_runs - used) ≤ most_rows →
        RunsOn t rows goal used (Fails at (AtStep LinesFull) count) → ⊥ }
{
    atom_is_taken();
    atom_makes_few();
    atom_has_room();
}

/// A run doesn't look at the steps that were made before: with more of them it makes the same behind them.
/// The statement of strategies asks for it.
pub fn run_ignores_steps()
    ensures more { (t : Tactic) (goals goal : ℕ) (before : List Step) (now : Progress) (o : Outcome) → Runs t goals goal now o →
        Runs t goals goal (moved before now) (behind before o) }
    ensures fewer { (t : Tactic) (goals goal : ℕ) (before : List Step) (now : Progress) (o : Outcome) → Runs t goals goal (moved before now) o →
        (made : Outcome) × Runs t goals goal now made × (o ≡ behind before made) }
{}

/// A run on a model is the run on the goal of the row that states it, behind the step that does.
/// The statement of strategies asks for it.
pub fn model_runs_on_goal()
    ensures goal { (t : Tactic) (formula : Tree) (o : Outcome) → RunsModel t formula o → (p : Provable) × StepOf [] (Start (alone_right formula)) p ×
        (made : Outcome) × RunsOn t (p ∷ []) 1 0 made × (o ≡ behind (Start (alone_right formula) ∷ []) made) }
    ensures model { (t : Tactic) (formula : Tree) (p : Provable) (o : Outcome) → StepOf [] (Start (alone_right formula)) p → RunsOn t (p ∷ []) 1 0 o →
        RunsModel t formula (behind (Start (alone_right formula) ∷ []) o) }
{}
