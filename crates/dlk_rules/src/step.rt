//! Steps over ids.
ghost use Rattle.std.specs.Prelude.{◌≡◌, ℕ, List, []};
ghost use Rattle.std.specs.List.{Contains};
ghost use Rattle.dlk_tree.specs.Trees.{Tree};
ghost use Rattle.dlk_rules.specs.Facts.{facts_of, renumbered};
ghost use Rattle.dlk_rules.specs.Steps.{step_at, HasKnownIds, facts_in};

use crate::rule::Rule;
use dlk_sequent::{Listed, Pair, Sequent};
use dlk_tree::Name;

/// A step of a proof. Facts, which are earlier rows, and their goals go by their numbers, counted from 1.
#[derive(Debug)]
pub enum Step {
    /// The sequent is the conclusion, and its own goal.
    Start(Sequent),
    /// The axiom of this name is the conclusion.
    Axiom(Name),
    /// The conclusion of the axiomatic rule of this name, with its premise as goal.
    AxRule(Name),
    /// The sequent, which is one of arithmetic, is the conclusion and a leaf.
    Leaf(Sequent),
    /// The premises of a rule on a goal of a fact stand in the goal's place.
    Apply { fact: u32, goal: u32, rule: Rule },
    /// The goals of the fact `by` stand in the goal's place, and its leaves join those of the fact.
    Merge { fact: u32, goal: u32, by: u32 },
    /// The substitution of these pairs is applied to the conclusion and the goals of a fact.
    Subst { fact: u32, pairs: Listed<Pair> },
    /// Two names are exchanged in the conclusion and the goals of a fact.
    Rename { fact: u32, x: Name, y: Name },
}

/// A step is given back by a call, and not by cases wherever one ends.
impl Drop for Step {
    fn drop(self) {
        match self {
            Step::Start(_s) | Step::Leaf(_s) => {}
            Step::Axiom(_name) | Step::AxRule(_name) => {}
            Step::Apply {
                fact: _,
                goal: _,
                rule: _rule,
            } => {}
            Step::Merge {
                fact: _,
                goal: _,
                by: _,
            } => {}
            Step::Subst {
                fact: _,
                pairs: _pairs,
            } => {}
            Step::Rename {
                fact: _,
                x: _x,
                y: _y,
            } => {}
        }
    }
}

impl Step {
    /// The facts that it names, in order: none, one, or the two of a merge.
    pub fn facts(&self) -> [Option<u32>; 2]
        ensures { (trees : List Tree) → facts_in result ≡ facts_of (step_at trees self.now) }
    {
        match self {
            Step::Start(_) | Step::Axiom(_) | Step::AxRule(_) | Step::Leaf(_) => [None, None],
            Step::Merge { fact, goal: _, by } => [Some(*fact), Some(*by)],
            Step::Apply { fact, .. } | Step::Subst { fact, .. } | Step::Rename { fact, .. } => {
                [Some(*fact), None]
            }
        }
    }

    /// The step with another number for each fact that it names.
    pub fn renumbered<F: Fn(u32) -> u32>(mut self, to: F) -> Step
        requires { (fact : ℕ) → Contains (facts_of (step_at [] self)) fact → F.pre to fact }
        ensures same { (numbers : ℕ → ℕ) → ((fact new : ℕ) → Contains (facts_of (step_at [] self)) fact → F.post to fact new → new ≡ numbers fact) →
            (trees : List Tree) → step_at trees result ≡ renumbered numbers (step_at trees self) }
        ensures known { (trees : List Tree) → HasKnownIds trees self → HasKnownIds trees result }
    {
        match &mut self {
            Step::Start(_) | Step::Axiom(_) | Step::AxRule(_) | Step::Leaf(_) => {}
            Step::Apply { fact, .. } => *fact = to(*fact),
            Step::Merge { fact, goal: _, by } => {
                *fact = to(*fact);
                *by = to(*by);
            }
            Step::Subst { fact, .. } => *fact = to(*fact),
            Step::Rename { fact, .. } => *fact = to(*fact),
        }
        self
    }
}
