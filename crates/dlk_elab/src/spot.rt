//! Where an atom acts, and rules in turn there.
ghost use Rattle.std.specs.Prelude.{◌≡◌, ◌++◌, ◌∷◌, [], ◌+◌, ◌<◌, ◌^◌, length, List, map, All, IfOk};
ghost use Rattle.dlk_tree.specs.Trees.{Tree};
ghost use Rattle.dlk_rules.specs.Steps.{RuleIsKnown};
ghost use Rattle.dlk_uses.specs.Uses.{closed_by};
ghost use Rattle.dlk_elab.specs.Forms.{applying};
ghost use Rattle.dlk_elab.specs.Plans.{ArePlanned, goals_and_rules};

use dlk_kernel::Fact;
use dlk_rules::{Rule, Step};
use std::alloc::{AllocError, Global};

/// A goal of a fact, and the number of its formulas on the right.
#[derive(Clone, Copy, Debug)]
pub(crate) struct Spot {
    pub(crate) fact: Fact,
    pub(crate) goal: u32,
    pub(crate) right: u32,
}

/// The steps of rules in turn, each on a goal, and of a merge into a goal of what they make.
fn turns(
    alloc: Global,
    by: Fact,
    spot: Spot,
    rows: u32,
    rules: Vec<(u32, Rule)>,
    goal: u32,
) -> Result<Vec<Step>, AllocError>
    requires { rows + length rules.items < 2 ^ 32 }
    ensures { IfOk result (λ steps. steps.items ≡ applying spot.fact rows rules.items ++ Step.Merge (rows + length rules.items) goal by ∷ []) }
{
    let mut steps = Vec::new(alloc);
    let mut fact = spot.fact;
    let mut last = rows;
    for (at, rule) in rules {
        steps.push(Step::Apply {
            fact,
            goal: at,
            rule,
        })?;
        last += 1;
        fact = last;
    }
    steps.push(Step::Merge {
        fact: last,
        goal,
        by,
    })?;
    Ok(steps)
}

/// The rules in turn, each on a goal, and then a row in the place of a goal of what they make. The first is on the spot's fact, where
/// there are so many rows, and each other one on the row of the rule before.
pub(crate) fn closed_by(
    alloc: Global,
    by: Fact,
    spot: Spot,
    rows: u32,
    rules: Vec<(u32, Rule)>,
    goal: u32,
) -> Result<Vec<Step>, AllocError>
    requires { rows + length rules.items < 2 ^ 32 }
    ensures { IfOk result (λ steps. (trees : List Tree) → All (λ r. RuleIsKnown trees r.1) rules.items →
        ArePlanned trees steps.items (closed_by by spot.fact rows (goals_and_rules trees rules.items) goal)) }
{
    let steps = turns(alloc, by, spot, rows, rules, goal)?;
    Ok(steps)
}
