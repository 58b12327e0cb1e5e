//! The laws of step lines. Each is a contract of a function that does nothing.
ghost use Rattle.std.specs.Prelude.{◌≡◌, ◌⊎◌, ℕ, List, codes};
ghost use Rattle.dlk_calculus.specs.Pairs.{Pair, AreWellMade};
ghost use Rattle.dlk_calculus.specs.Steps.{Step, IsProper};
ghost use Rattle.dlk_lines.specs.Numbers.{IsLineNumber};
ghost use Rattle.dlk_lines.specs.Spelled.{Spelling, ArePairsText};
ghost use Rattle.dlk_lines.specs.Lines.{IsStepLine};
ghost use Rattle.dlk_lines.specs.Written.{line_text};
ghost use Rattle.dlk_lines.specs.Laws.{SaysOne, SaysOrNot, IsRead};

/// A text says at most one number and step, where it says at most one sequent, one formula and one list of pairs.
/// The statement of term files asks for it.
pub fn one_step_line()
    ensures { (w : Spelling) → SaysOne w → (text : List ℕ) (m n : ℕ) (s t : Step) → IsStepLine w text m s → IsStepLine w text n t → (m ≡ n) × (s ≡ t) }
{}

/// A text says a number and a step, or it says none, where it says a sequent, a formula and pairs or none.
/// The statement of term files asks for it.
pub fn some_step_line()
    ensures { (w : Spelling) → SaysOrNot w → (text : List ℕ) → ((n : ℕ) × (s : Step) × IsStepLine w text n s) ⊎ ((n : ℕ) (s : Step) → ¬ IsStepLine w text n s) }
{}

/// `done` says no step. The statement of term files asks for it.
pub fn done_is_no_step()
    ensures { (w : Spelling) (number : ℕ) (step : Step) → ¬ IsStepLine w (codes "done") number step }
{}

/// The step of a line is a proper one, where the replacements of pairs are well made: its names are names.
pub fn steps_are_proper()
    ensures { (w : Spelling) → ((text : List ℕ) (pairs : List Pair) → ArePairsText w text pairs → AreWellMade pairs) →
        (text : List ℕ) (number : ℕ) (step : Step) → IsStepLine w text number step → IsProper step }
{}

/// The written form of a step's line is read as that line, where its parts are.
/// The statement of term files asks for it.
pub fn written_line_is_read()
    ensures { (w : Spelling) (number : ℕ) (step : Step) → IsLineNumber number → IsRead w step → IsStepLine w (line_text w number step) number step }
{}
