//! The laws of the library. Each is a contract of a function that does nothing.
ghost use Rattle.std.specs.Prelude.{◌≡◌};
ghost use Rattle.dlk_tacsyn.specs.Tactics.{Atom, Tactic, EachAtom};
ghost use Rattle.dlk_tacsyn.specs.Rows.{IsOfText, AreOfText, AreRun, HasNames};
ghost use Rattle.dlk_library.specs.Library.{Expands};
ghost use Rattle.dlk_library.specs.Expanded.{Expanded};

/// A name stands for at most one strategy, and a strategy becomes at most one.
pub fn one_expansion()
    ensures names { (atom : Atom) (t u : Tactic) → Expands atom t → Expands atom u → t ≡ u }
    ensures strategies { (t a b : Tactic) → Expanded t a → Expanded t b → a ≡ b }
{}

/// A strategy whose atoms are those of a text becomes one.
pub fn some_expansion()
    ensures { (t : Tactic) → AreOfText t → (u : Tactic) × Expanded t u }
{}

/// What a strategy becomes has fitting atoms and `derive` alone, where its atoms are those of a text, and names that are names, where its names
/// are names.
pub fn expansion_fits()
    ensures fitting { (t u : Tactic) → AreOfText t → Expanded t u → AreRun u }
    ensures names { (t u : Tactic) → EachAtom HasNames t → Expanded t u → EachAtom HasNames u }
{}
