//! The laws of what is recorded. Each is a contract of a function that does nothing.
ghost use Rattle.std.specs.Prelude.{◌≤◌, [], List, length, All};
ghost use Rattle.dlk_calculus.specs.Provables.{Provable};
ghost use Rattle.dlk_calculus.specs.Steps.{Step as TreeStep};
ghost use Rattle.dlk_kernel.specs.Taken.{Takes};
ghost use Rattle.dlk_nodes.specs.TermFiles.{all_nodes, AreWritable};
ghost use Rattle.dlk_replay.specs.Files.{file_lines, accepted, Verdict, FileSteps};
ghost use Rattle.dlk_replay.specs.Symbols.{HasSymbols};
ghost use Rattle.dlk_recorder.specs.Terms.{term_text, last_line};

/// The term file of steps that are taken in turn, at least one, is accepted with the rows that they give, the last of them at
/// the last step's line, and it says these steps. It has at most 999,999,999 bytes, so that each node has a number.
pub fn recorded_is_accepted()
    ensures accepted { (steps : List TreeStep) (rows : List Provable) → Takes [] steps rows → All HasSymbols steps → 1 ≤ length steps →
        length (term_text steps) ≤ 999999999 → Verdict (file_lines (term_text steps)) (accepted rows (last_line steps)) }
    ensures steps { (steps : List TreeStep) (rows : List Provable) → Takes [] steps rows → All HasSymbols steps → length (term_text steps) ≤ 999999999 →
        FileSteps (file_lines (term_text steps)) steps }
{}

/// Steps that are taken in turn may be written by the numbers of their nodes, where what their pairs replace are symbols.
/// The statement of term files asks for it.
pub fn taken_steps_are_writable()
    ensures { (steps : List TreeStep) (rows : List Provable) → Takes [] steps rows → All HasSymbols steps → AreWritable steps }
{}

/// A term file has no more nodes than bytes.
pub fn nodes_are_fewer_than_bytes()
    ensures { (steps : List TreeStep) → length (all_nodes [] steps) ≤ length (term_text steps) }
{}
