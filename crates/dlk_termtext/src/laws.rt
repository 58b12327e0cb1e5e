//! The laws of lines. Each is a contract of a function that does nothing.
ghost use Rattle.std.specs.Prelude.{◌≡◌, ◌⊎◌, ℕ, List};
ghost use Rattle.dlk_calculus.specs.Steps.{Step, IsProper};
ghost use Rattle.dlk_lines.specs.Numbers.{IsLineNumber};
ghost use Rattle.dlk_termtext.specs.Lines.{Line as TreeLine, Numbered, IsLine};
ghost use Rattle.dlk_termtext.specs.Written.{line_text, IsWritable};

/// A text says at most one line. The statement of term files asks for it.
pub fn one_line()
    ensures { (text : List ℕ) (l m : TreeLine) → IsLine text l → IsLine text m → l ≡ m }
{}

/// A text says a line, or it says none. The statement of term files asks for it.
pub fn some_line()
    ensures { (text : List ℕ) → ((l : TreeLine) × IsLine text l) ⊎ ((l : TreeLine) → ¬ IsLine text l) }
{}

/// The step of a line is a proper one: its names are names, and its replacements are well made.
pub fn steps_are_proper()
    ensures { (text : List ℕ) (number : ℕ) (step : Step) → IsLine text (Numbered number step) → IsProper step }
{}

/// The written form of a line is read as that line: its numbers are from 1 to 999,999,999, its names are names, and its formulas
/// and its pairs are within the limits of what is read. The statement of term files asks for it.
pub fn written_line_is_read()
    ensures { (number : ℕ) (step : Step) → IsLineNumber number → IsWritable step → IsLine (line_text number step) (Numbered number step) }
{}
