//! The laws of the words of rules, and of steps. Each is a contract of a function that does nothing.
ghost use Rattle.std.specs.Prelude.{◌≡◌, ◌↔◌, List, Some};
ghost use Rattle.dlk_tree.specs.Trees.{Tree};
ghost use Rattle.dlk_store.specs.Stores.{Keeps};
ghost use Rattle.dlk_calculus.specs.Rules.{Rule as TreeRule, figure, word_of, arguments_of};
ghost use Rattle.dlk_rules.specs.declared.arguments.Side.{Side};
ghost use Rattle.dlk_rules.specs.declared.rule.RuleWord.{RuleWord};
ghost use Rattle.dlk_rules.specs.declared.step.Step.{Step};
ghost use Rattle.dlk_rules.specs.Steps.{step_at, HasKnownIds, side_of};
ghost use Rattle.dlk_rules.specs.Words.{shape_of, text_of, wanted, formulas_of, ArePlaces};

/// No other rule has the word and the arguments of a rule.
pub fn rule_is_its_word_and_arguments()
    ensures { (r s : TreeRule) → word_of r ≡ word_of s → arguments_of r ≡ arguments_of s → r ≡ s }
{}

/// The arguments of each rule of a word have the shape that the word wants.
pub fn word_wants_one_shape()
    ensures { (word : RuleWord) (rule : TreeRule) → word_of rule ≡ text_of word → shape_of (arguments_of rule) ≡ wanted word }
{}

/// The places of each rule of a word are those of the side that the word has: a rule's places are there exactly where each of them is one
/// of that side.
pub fn places_are_on_one_side()
    ensures { (word : RuleWord) (side : Side) (rule : TreeRule) → side_of word ≡ Some side → word_of rule ≡ text_of word → (A S : List Tree) →
        (figure rule A S).places ↔ ArePlaces (formulas_of side A S) (arguments_of rule) }
{}

/// A step stays one while its store grows: its ids are those of the store, and it stands for the same.
pub fn step_stays()
    ensures known { (old new : List Tree) (step : Step) → Keeps old new → HasKnownIds old step → HasKnownIds new step }
    ensures same { (old new : List Tree) (step : Step) → Keeps old new → HasKnownIds old step → step_at new step ≡ step_at old step }
{}
