//! The laws of proof-term files of both versions. Each is a contract of a function that does nothing.
ghost use Rattle.std.specs.Prelude.{◌≡◌, ◌⊎◌, ℕ, List, [], length, All};
ghost use Rattle.dlk_tree.specs.Trees.{Tree};
ghost use Rattle.dlk_calculus.specs.Provables.{Provable};
ghost use Rattle.dlk_calculus.specs.Steps.{Step, History, Derives};
ghost use Rattle.dlk_kernel.specs.Taken.{Takes};
ghost use Rattle.dlk_nodes.specs.Recorded.{Records};
ghost use Rattle.dlk_replay.specs.Formats.{Said, SaysInFile};
ghost use Rattle.dlk_replay.specs.Files.{Answer, accepted, StepLines, Verdict, SaySteps, FileSteps};
ghost use Rattle.dlk_replay.specs.Symbols.{HasSymbols};

/// A line says at most one thing. The statement of term files asks for it.
pub fn one_said()
    ensures { (before : List (List ℕ)) (line : List ℕ) (s t : Said) → SaysInFile before line s → SaysInFile before line t → s ≡ t }
{}

/// A line says something, or nothing. The statement of term files asks for it.
pub fn some_said()
    ensures { (before : List (List ℕ)) (line : List ℕ) → ((s : Said) × SaysInFile before line s) ⊎ ((s : Said) → ¬ SaysInFile before line s) }
{}

/// One thing becomes of a file.
pub fn one_verdict()
    ensures { (lines : List (List ℕ)) (a b : Answer) → Verdict lines a → Verdict lines b → a ≡ b }
{}

/// Something becomes of each file. The statement of term files asks for it.
pub fn some_verdict()
    ensures { (lines : List (List ℕ)) → (a : Answer) × Verdict lines a }
{}

/// The rows of an accepted file are a history, and so each of them is derived.
/// The statement of the program asks for it.
pub fn accepted_derived()
    ensures history { (lines : List (List ℕ)) (rows : List Provable) (last : ℕ) → Verdict lines (accepted rows last) → History rows }
    ensures derived { (lines : List (List ℕ)) (rows : List Provable) (last : ℕ) → Verdict lines (accepted rows last) → All Derives rows }
{}

/// The lines of an accepted file say steps, one for each row, and the rows are what these steps give in turn.
pub fn accepted_says_steps()
    ensures some { (lines : List (List ℕ)) (rows : List Provable) (last : ℕ) → Verdict lines (accepted rows last) → (s : List Step) × FileSteps lines s }
    ensures as_many { (lines : List (List ℕ)) (rows : List Provable) (last : ℕ) (s : List Step) → Verdict lines (accepted rows last) → FileSteps lines s →
        length s ≡ length rows }
    ensures taken { (lines : List (List ℕ)) (rows : List Provable) (last : ℕ) (s : List Step) → Verdict lines (accepted rows last) → FileSteps lines s →
        Takes [] s rows }
{}

/// What the pairs of these steps replace are symbols.
pub fn accepted_steps_have_symbols()
    ensures { (lines : List (List ℕ)) (s : List Step) → FileSteps lines s → All HasSymbols s }
{}

/// Lines say one list of steps, behind whichever lines they stand. The statement of term files asks for it.
pub fn one_list_of_steps()
    ensures { (before lines : List (List ℕ)) (a b : List Step) → SaySteps SaysInFile before lines a → SaySteps SaysInFile before lines b → a ≡ b }
{}

/// First lines of version 2 that record steps which are taken in turn give the rows of these steps.
/// The statement of term files asks for it.
pub fn recorded_lines_give_rows()
    ensures { (lines : List (List ℕ)) (nodes : List Tree) (steps : List Step) (rows : List Provable) → Records lines nodes steps → Takes [] steps rows →
        (last : ℕ) × StepLines SaysInFile lines rows last }
{}
