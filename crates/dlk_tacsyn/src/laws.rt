//! The laws of strategies. Each is a contract of a function that does nothing but call the laws below it.
ghost use Rattle.std.specs.Prelude.{◌≡◌, ◌⊎◌, ℕ, List};
ghost use Rattle.dlk_tacsyn.specs.Tactics.{Tactic as TreeTactic, EachAtom, IsShaped};
ghost use Rattle.dlk_tacsyn.specs.Rows.{AreOfText, HasNames};
ghost use Rattle.dlk_tacsyn.specs.Faults.{Fault};
ghost use Rattle.dlk_tacsyn.specs.Strategies.{StrategyText, StrategyFault};

use dlk_machine::laws::{extra_texts, tree_texts};
use dlk_scripts::laws::{no_stop, one_script, one_stop, script_or_stop};

/// Bytes are a text of at most one strategy or have at most one fault, and never both.
pub fn one_strategy()
    ensures one { (bytes : List ℕ) (t u : TreeTactic) → StrategyText bytes t → StrategyText bytes u → t ≡ u }
    ensures no_fault { (bytes : List ℕ) (t : TreeTactic) (f : Fault) → StrategyText bytes t → StrategyFault bytes f → ⊥ }
    ensures one_fault { (bytes : List ℕ) (f e : Fault) → StrategyFault bytes f → StrategyFault bytes e → f ≡ e }
{
    tree_texts();
    extra_texts();
    one_script();
    one_stop();
    no_stop();
}

/// Bytes are a text of a strategy or have a fault.
pub fn strategy_or_fault()
    ensures { (bytes : List ℕ) → ((t : TreeTactic) × StrategyText bytes t) ⊎ ((f : Fault) × StrategyFault bytes f) }
{
    tree_texts();
    extra_texts();
    script_or_stop();
}

/// What a text says as a strategy is fit to be run: its atoms are of known names, those of the library and `derive` among them, and have the
/// arguments of their rows, each name among these is one, and its branches stand where branches may.
pub fn fit_strategy()
    ensures fitting { (bytes : List ℕ) (t : TreeTactic) → StrategyText bytes t → AreOfText t }
    ensures names { (bytes : List ℕ) (t : TreeTactic) → StrategyText bytes t → EachAtom HasNames t }
    ensures shaped { (bytes : List ℕ) (t : TreeTactic) → StrategyText bytes t → IsShaped t }
{
    tree_texts();
    extra_texts();
}
