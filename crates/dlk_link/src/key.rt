//! What a step is known by among others.
ghost use Rattle.std.specs.Prelude.{◌≡◌, ℕ, ◌+◌, ◌++◌, [], ◌∷◌, List, length, map, IfOk, OnOk};
ghost use Rattle.std.specs.Cmp.Rules.{comparing};
ghost use Rattle.std.specs.Cmp.Lexicographic.{pointwise};
ghost use Rattle.std.specs.Prelude.{nat_eq};
ghost use Rattle.std.proofs.Common.{rules};
ghost use Rattle.dlk_tree.specs.Trees.{Tree};
ghost use Rattle.dlk_calculus.specs.Rules.{word_of, arguments_of};
ghost use Rattle.dlk_rules.specs.Steps.{rule_at, RuleIsKnown, step_at, HasKnownIds};
ghost use Rattle.dlk_rules.specs.Words.{arguments_at, ArgumentsAreKnown};
ghost use Rattle.dlk_link.specs.Keys.{counted, index, sequent_words, taboo_words, sym_words, pair_words, pairs_words, AreArguments, IsKey};
ghost use Rattle.dlk_link.specs.RuleWords.{AddsRule, AddsArguments};

use dlk_rules::{Arguments, Rule, Step};
use dlk_sequent::{Pair, Sequent};
use dlk_store::Id;
use dlk_tree::{Name, Sym};
use std::alloc::{AllocError, Global};
use std::hash::{Hash, Hasher};
use std::marker::Model;

/// A key has room for so many words from the start.
const USUAL_WORDS: usize = 8;

/// The words that a step is known by. Over a store in which a tree has at most one id, two steps are equal exactly where their
/// words are.
#[derive(Drop, Debug)]
pub(crate) struct StepKey {
    words: Vec<usize>,
}

impl Model for StepKey {
    ghost use Rattle.std.specs.Prelude.{List, ℕ};

    ghost Value = { List ℕ };

    ghost view = { λ k. k.words.items };
}

impl PartialEq for StepKey {
    ghost eq = { pointwise nat_eq };

    ghost laws = { Prim.search (comparing, rules) };

    fn eq(&self, other: &StepKey) -> bool {
        self.words == other.words
    }
}

impl Eq for StepKey {
    ghost laws = { Prim.search (comparing, rules) };
}

impl Hash for StepKey {
    ghost use Rattle.std.specs.Hash as fed;
    ghost use Rattle.std.specs.Cmp.Rules.{hashing};

    ghost hash_input = { fed.slice fed.usize };

    ghost respects_eq = { Prim.search (hashing, rules) };

    fn hash<H: Hasher>(&self, state: &mut H) {
        self.words.hash(state);
    }
}

impl StepKey {
    /// The key of a step.
    pub(crate) fn of(alloc: Global, step: &Step) -> Result<StepKey, AllocError>
        ensures { IfOk result (λ key. (trees : List Tree) → HasKnownIds trees step.now → IsKey trees (step_at trees step.now) key) }
    {
        let mut words = Vec::with_capacity(alloc, USUAL_WORDS)?;
        push_step(&mut words, step)?;
        Ok(StepKey { words })
    }
}

/// Adds the words of a step to none.
fn push_step(words: &mut Vec<usize>, step: &Step) -> Result<(), AllocError>
    requires { words.old.items ≡ [] }
    ensures { OnOk result ((trees : List Tree) → HasKnownIds trees step.now → IsKey trees (step_at trees step.now) words.new.items) }
{
    match step {
        Step::Start(s) => push_sequent(words, 0, s),
        Step::Axiom(name) => push_name(words, 1, name),
        Step::AxRule(name) => push_name(words, 2, name),
        Step::Leaf(s) => push_sequent(words, 3, s),
        Step::Apply { fact, goal, rule } => push_apply(words, *fact, *goal, rule),
        Step::Merge { fact, goal, by } => push_merge(words, *fact, *goal, *by),
        Step::Subst { fact, pairs } => push_pairs(words, *fact, pairs.as_slice()),
        Step::Rename { fact, x, y } => push_rename(words, *fact, x, y),
    }
}

/// Adds a number, and a sequent.
fn push_sequent(words: &mut Vec<usize>, tag: usize, s: &Sequent) -> Result<(), AllocError>
    ensures { OnOk result (words.new.items ≡ words.old.items ++ (tag ∷ sequent_words s.now)) }
{
    words.push(tag)?;
    push_ids(words, s.ante.as_slice())?;
    push_ids(words, s.succ.as_slice())
}

/// Adds a number, and a name.
fn push_name(words: &mut Vec<usize>, tag: usize, name: &Name) -> Result<(), AllocError>
    ensures { OnOk result (words.new.items ≡ words.old.items ++ (tag ∷ counted name.now)) }
{
    words.push(tag)?;
    push_bytes(words, name.bytes())
}

/// Adds a rule on a goal.
fn push_apply(words: &mut Vec<usize>, fact: u32, goal: u32, rule: &Rule) -> Result<(), AllocError>
    ensures { OnOk result (AddsRule words.old.items words.new.items fact goal rule.now) }
{
    words.push(4)?;
    words.push(fact as usize)?;
    words.push(goal as usize)?;
    push_bytes(words, rule.word().text().as_bytes())?;
    push_arguments(words, rule.arguments())
}

/// Adds the arguments of a rule.
fn push_arguments(words: &mut Vec<usize>, arguments: Arguments<&Name>) -> Result<(), AllocError>
    ensures { OnOk result (AddsArguments (λ y. y.now) words.old.items words.new.items arguments.entry) }
{
    match arguments {
        Arguments::OnePlace(i) => push_two(words, 0, i as usize),
        Arguments::TwoPlaces(i, k) => {
            push_two(words, 1, i as usize)?;
            words.push(k as usize)?;
            Ok(())
        }
        Arguments::PlaceAndFormula(i, h) => {
            push_two(words, 2, i as usize)?;
            words.push(h.0)?;
            Ok(())
        }
        Arguments::OneFormula(h) => push_two(words, 3, h.0),
        Arguments::PlaceAndName(i, y) => {
            push_two(words, 4, i as usize)?;
            push_bytes(words, y.bytes())
        }
    }
}

/// Adds two numbers.
fn push_two(words: &mut Vec<usize>, a: usize, b: usize) -> Result<(), AllocError>
    ensures { OnOk result (words.new.items ≡ words.old.items ++ (a ∷ b ∷ [])) }
{
    words.push(a)?;
    words.push(b)?;
    Ok(())
}

/// Adds a merge.
fn push_merge(words: &mut Vec<usize>, fact: u32, goal: u32, by: u32) -> Result<(), AllocError>
    ensures { OnOk result (words.new.items ≡ words.old.items ++ (5 ∷ fact ∷ goal ∷ by ∷ [])) }
{
    push_two(words, 5, fact as usize)?;
    push_two(words, goal as usize, by as usize)
}

/// Adds a substitution in a fact.
fn push_pairs(words: &mut Vec<usize>, fact: u32, pairs: &[Pair]) -> Result<(), AllocError>
    ensures { OnOk result (words.new.items ≡ words.old.items ++ (6 ∷ fact ∷ pairs_words pairs.now)) }
{
    push_two(words, 6, fact as usize)?;
    words.push(pairs.len())?;
    for pair in pairs {
        push_pair(words, pair)?;
    }
    Ok(())
}

/// Adds a pair.
fn push_pair(words: &mut Vec<usize>, pair: &Pair) -> Result<(), AllocError>
    ensures { OnOk result (words.new.items ≡ words.old.items ++ pair_words pair.now) }
{
    words.push(pair.by.0)?;
    push_two(words, pair.sym.kind as usize, pair.sym.arity as usize)?;
    push_bytes(words, pair.sym.name.bytes())?;
    push_taboo(words, &pair.sym.taboo)
}

/// Adds the taboo of a symbol.
fn push_taboo(words: &mut Vec<usize>, taboo: &Option<Name>) -> Result<(), AllocError>
    ensures { OnOk result (words.new.items ≡ words.old.items ++ taboo_words taboo.now) }
{
    match taboo {
        None => {
            words.push(0)?;
            Ok(())
        }
        Some(y) => {
            words.push(1)?;
            push_bytes(words, y.bytes())
        }
    }
}

/// Adds two names that are exchanged in a fact.
fn push_rename(words: &mut Vec<usize>, fact: u32, x: &Name, y: &Name) -> Result<(), AllocError>
    ensures { OnOk result (words.new.items ≡ words.old.items ++ (7 ∷ fact ∷ (counted x.now ++ counted y.now))) }
{
    push_two(words, 7, fact as usize)?;
    push_bytes(words, x.bytes())?;
    push_bytes(words, y.bytes())
}

/// Adds ids behind their number.
fn push_ids(words: &mut Vec<usize>, ids: &[Id]) -> Result<(), AllocError>
    ensures { OnOk result (words.new.items ≡ words.old.items ++ counted (map index ids.now)) }
{
    words.push(ids.len())?;
    for id in ids {
        words.push(id.0)?;
    }
    Ok(())
}

/// Adds bytes behind their number.
fn push_bytes(words: &mut Vec<usize>, bytes: &[u8]) -> Result<(), AllocError>
    ensures { OnOk result (words.new.items ≡ words.old.items ++ counted bytes.now) }
{
    words.push(bytes.len())?;
    for byte in bytes {
        words.push(usize::from(*byte))?;
    }
    Ok(())
}
