//! What an atom asks for on a goal.
ghost use Rattle.std.specs.Prelude.{◌≡◌, ◌<◌, ◌^◌, ℕ, List, map, Err, IfOk, IfErr, codes};
ghost use Rattle.dlk_tree.specs.Trees.{Tree};
ghost use Rattle.dlk_calculus.specs.Limited.{HasFewFormulas};
ghost use Rattle.dlk_calculus.specs.Steps.{Step as TreeStep};
ghost use Rattle.dlk_sequent.specs.Sequents.{sequent_at, IsKnown};
ghost use Rattle.dlk_rules.specs.Steps.{side_of};
ghost use Rattle.dlk_rules.specs.Words.{text_of, wanted};
ghost use Rattle.dlk_tacsyn.specs.Tactics.{Atom as TreeAtom};
ghost use Rattle.dlk_tacsyn.specs.Rows.{IsFitting};
ghost use Rattle.dlk_tacsyn.specs.Ties.{argument_at, atom_at, AtomIsKnown};
ghost use Rattle.dlk_elab.specs.declared.fault.TacFault.TheVariants.{Memory};
ghost use Rattle.dlk_elab.specs.Atoms.{HasNoLocator, AreFirstSame, Asks, Steps, Refused, NoPlace};
ghost use Rattle.dlk_elab.specs.Calls.{IsPlain};
ghost use Rattle.dlk_elab.specs.Ties.{IsPlan, IsTacFault, HasNone, HasSome};

use crate::arguments::rule_arguments;
use crate::fault::TacFault;
use crate::same::first_same;
use dlk_calculus::Reason;
use dlk_kernel::Fact;
use dlk_rules::{Rule, RuleWord, Step};
use dlk_sequent::Sequent;
use dlk_store::Store;
use dlk_tacsyn::Atom;
use std::alloc::Global;

/// Where an atom acts: the number of rows so far, and a goal of a fact.
#[derive(Clone, Copy, Debug)]
pub(crate) struct Target {
    pub(crate) rows: u32,
    pub(crate) fact: Fact,
    pub(crate) goal: u32,
}

impl Target {
    /// The step that applies a rule there.
    pub(crate) fn apply(self, rule: Rule) -> Step
        ensures { result ≡ Step.Apply self.fact self.goal rule }
    {
        Step::Apply {
            fact: self.fact,
            goal: self.goal,
            rule,
        }
    }
}

/// The steps that an atom asks for on a goal, which is the sequent. It is one for a rule, or without arguments.
///
/// # Errors
///
/// - `NoPlace`: a place has a path, or is on the other side.
/// - `Step(NotEqual)`: the atom is `close`, and no formula stands on both sides.
/// - `Memory`: for want of memory.
pub(crate) fn plan<S: Store>(
    alloc: Global,
    store: &S,
    target: Target,
    s: &Sequent,
    atom: &Atom,
) -> Result<Vec<Step>, TacFault>
    requires sequent { IsKnown (S.trees store.now) s.now }
    requires few { HasFewFormulas (sequent_at (S.trees store.now) s.now) }
    requires known { AtomIsKnown (S.trees store.now) atom.now }
    requires fitting { IsFitting (atom_at (S.trees store.now) atom.now) }
    requires fixed { HasNoLocator (atom_at (S.trees store.now) atom.now) }
    requires plain { IsPlain atom.now.name }
    requires room { target.rows < 2 ^ 31 }
    ensures plan { IfOk result (λ steps. IsPlan target.rows target.fact target.goal (S.trees store.now) s.now atom.now steps.items) }
    ensures fault { IfErr result (IsTacFault (λ why.
        Asks target.rows target.fact target.goal (sequent_at (S.trees store.now) s.now) (atom_at (S.trees store.now) atom.now) (Refused why))) }
    ensures memory { result ≡ Err Memory → (steps : List TreeStep) ×
        Asks target.rows target.fact target.goal (sequent_at (S.trees store.now) s.now) (atom_at (S.trees store.now) atom.now) (Steps steps) }
{
    let Ok(name) = str::from_utf8(atom.name.bytes()) else {
        return Err(TacFault::NoPlace);
    };
    if name == "nil" {
        return Ok(Vec::new(alloc));
    }
    if name == "close" {
        return close_plan(alloc, store, target, s);
    }
    if name == "leaf" {
        return leaf_plan(alloc, target, s);
    }
    let Some(word) = RuleWord::of(name) else {
        return Err(TacFault::NoPlace);
    };
    rule_plan(alloc, target, word, atom)
}

/// The rule `close` at the first formulas that are the same.
fn close_plan<S: Store>(
    alloc: Global,
    store: &S,
    target: Target,
    s: &Sequent,
) -> Result<Vec<Step>, TacFault>
    requires known { IsKnown (S.trees store.now) s.now }
    requires few { HasFewFormulas (sequent_at (S.trees store.now) s.now) }
    ensures plan { IfOk result (λ steps. (atom : Atom) → atom.name ≡ codes "close" →
        IsPlan target.rows target.fact target.goal (S.trees store.now) s.now atom steps.items) }
    ensures fault { IfErr result (IsTacFault (λ why. (atom : TreeAtom) → atom.name ≡ codes "close" →
        Asks target.rows target.fact target.goal (sequent_at (S.trees store.now) s.now) atom (Refused why))) }
    ensures memory { result ≡ Err Memory → (i : ℕ) × (j : ℕ) × AreFirstSame (sequent_at (S.trees store.now) s.now) i j }
{
    let Some((i, j)) = first_same(store, s) else {
        return Err(TacFault::Step(Reason::NotEqual));
    };
    let mut plan = Vec::new(alloc);
    plan.push(target.apply(Rule::Close(i, j)))?;
    Ok(plan)
}

/// A leaf of the goal, and its merge into the goal.
fn leaf_plan(alloc: Global, target: Target, s: &Sequent) -> Result<Vec<Step>, TacFault>
    requires { target.rows < 2 ^ 31 }
    ensures plan { IfOk result (λ steps. (trees : List Tree) (atom : Atom) → IsKnown trees s.now → atom.name ≡ codes "leaf" →
        IsPlan target.rows target.fact target.goal trees s.now atom steps.items) }
    ensures fault { IfErr result (IsTacFault (λ why. ⊥)) }
{
    let leaf = s.copy(alloc)?;
    let merge = Step::Merge {
        fact: target.fact,
        goal: target.goal,
        by: target.rows + 1,
    };
    let mut plan = Vec::new(alloc);
    plan.push(Step::Leaf(leaf))?;
    plan.push(merge)?;
    Ok(plan)
}

/// The rule of the word, with the atom's arguments.
fn rule_plan(
    alloc: Global,
    target: Target,
    word: RuleWord,
    atom: &Atom,
) -> Result<Vec<Step>, TacFault>
    ensures plan { IfOk result (λ steps. (trees : List Tree) (s : Sequent) → AtomIsKnown trees atom.now → atom.now.name ≡ text_of word →
        IsPlan target.rows target.fact target.goal trees s atom.now steps.items) }
    ensures fault { IfErr result (IsTacFault (λ why. (why ≡ NoPlace) ×
        ((trees : List Tree) → HasNone (wanted word) (side_of word) (map (argument_at trees) atom.now.args)))) }
    ensures memory { result ≡ Err Memory → (trees : List Tree) → HasSome (wanted word) (side_of word) (map (argument_at trees) atom.now.args) }
{
    let arguments = rule_arguments(alloc, word, atom.args.as_slice())?;
    let Some(rule) = word.rule(arguments) else {
        return Err(TacFault::NoPlace);
    };
    let mut plan = Vec::new(alloc);
    plan.push(target.apply(rule))?;
    Ok(plan)
}
