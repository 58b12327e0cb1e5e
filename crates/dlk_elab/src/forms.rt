//! The plans of uses: the steps behind the instance of an axiom, form by form.
ghost use Rattle.std.specs.Prelude.{◌≡◌, ◌++◌, ◌+◌, ◌<◌, ◌^◌, ℕ, List, [], ◌∷◌, length, IfOk};
ghost use Rattle.dlk_tree.specs.Trees.{Tree};
ghost use Rattle.dlk_store.specs.Stores.{IsId, tree, StandsFor};
ghost use Rattle.dlk_calculus.specs.Notation.{eq};
ghost use Rattle.dlk_calculus.specs.Paths.{put_at};
ghost use Rattle.dlk_calculus.specs.Rules.{imply, equiv};
ghost use Rattle.dlk_calculus.specs.Sequents.{Sequent as TreeSequent};
ghost use Rattle.dlk_uses.specs.Uses.{any_p, any_q, any_f, any_g, p_of_one, context_c, exchange, by_equivalence, by_equation, by_conditional_equation};
ghost use Rattle.dlk_uses.specs.Uses.{by_conditional_equivalence, by_implication, by_fact};
ghost use Rattle.dlk_elab.specs.Calls.{direction_of};
ghost use Rattle.dlk_elab.specs.Forms.{exchange_rules, contextual, with_equal_terms, under_condition, AreExchangeTrees, AreEquatedTrees};
ghost use Rattle.dlk_elab.specs.Plans.{ArePlanned, spot_at};

use crate::calls::Direction;
use crate::spot::{Spot, closed_by};
use crate::symbols::{name_of, pair};
use dlk_kernel::Fact;
use dlk_rules::{Rule, Step};
use dlk_sequent::{Listed, Pair, Place, Sequent};
use dlk_store::Id;
use dlk_tree::Kind;
use std::alloc::{AllocError, Global};

/// The two sides of an equivalence, the formula with `_` where one of them stands, and the formula with the other one there.
#[derive(Clone, Copy, Debug)]
pub(crate) struct Exchanged {
    pub(crate) left: Id,
    pub(crate) right: Id,
    pub(crate) context: Id,
    pub(crate) new: Id,
}

/// The two sides of an equation, and the formula with `._0` where one of them stands.
#[derive(Clone, Copy, Debug)]
pub(crate) struct Equated {
    pub(crate) left: Id,
    pub(crate) right: Id,
    pub(crate) context: Id,
}

/// Where a use acts, and in which direction.
#[derive(Clone, Copy, Debug)]
pub(crate) struct Aim {
    pub(crate) spot: Spot,
    pub(crate) place: Place,
    pub(crate) direction: Direction,
}

/// The fact closes the goal.
pub(crate) fn by_fact(alloc: Global, now: Fact, spot: Spot, j: u32) -> Result<Vec<Step>, AllocError>
    requires { now < 2 ^ 31 }
    ensures { IfOk result (λ steps. (trees : List Tree) (s : TreeSequent) → ArePlanned trees steps.items (by_fact now (spot_at spot s) j)) }
{
    let rules = vec![in alloc; (spot.goal, Rule::CoHideR(j))]?;
    closed_by(alloc, now, spot, now, rules, spot.goal)
}

/// On the right the conclusion of an implication comes to be its condition.
fn by_implication_right(
    alloc: Global,
    now: Fact,
    spot: Spot,
    j: u32,
    condition: Id,
) -> Result<Vec<Step>, AllocError>
    requires now { now < 2 ^ 31 }
    requires goal { spot.goal < 2 ^ 31 }
    ensures { IfOk result (λ steps. (trees : List Tree) (s : TreeSequent) (h : Tree) → IsId trees condition →
        ArePlanned trees steps.items (by_implication now (spot_at spot s) (Place.Succ j) (tree trees condition) h)) }
{
    let second = spot.goal + 1;
    let rules = vec![in alloc;
        (spot.goal, Rule::CutR(j, condition)),
        (second, Rule::CoHideR(j)),
    ]?;
    closed_by(alloc, now, spot, now, rules, second)
}

/// On the left the condition of an implication comes to be its conclusion.
fn by_implication_left(
    alloc: Global,
    now: Fact,
    spot: Spot,
    i: u32,
    conclusion: Id,
) -> Result<Vec<Step>, AllocError>
    requires now { now < 2 ^ 31 }
    requires goal { spot.goal < 2 ^ 31 }
    requires right { spot.right < 2 ^ 31 }
    ensures { IfOk result (λ steps. (trees : List Tree) (s : TreeSequent) (b : Tree) → IsId trees conclusion → spot.right ≡ length s.succ →
        ArePlanned trees steps.items (by_implication now (spot_at spot s) (Place.Ante i) b (tree trees conclusion))) }
{
    let second = spot.goal + 1;
    let rules = vec![in alloc;
        (spot.goal, Rule::CutL(i, conclusion)),
        (second, Rule::CoHideR(spot.right + 1)),
    ]?;
    closed_by(alloc, now, spot, now, rules, second)
}

/// On the right the conclusion of an implication comes to be its condition, and on the left the condition its conclusion.
pub(crate) fn by_implication(
    alloc: Global,
    now: Fact,
    spot: Spot,
    place: Place,
    condition: Id,
    conclusion: Id,
) -> Result<Vec<Step>, AllocError>
    requires now { now < 2 ^ 31 }
    requires goal { spot.goal < 2 ^ 31 }
    requires right { spot.right < 2 ^ 31 }
    ensures { IfOk result (λ steps. (trees : List Tree) (s : TreeSequent) → IsId trees condition → IsId trees conclusion → spot.right ≡ length s.succ →
        ArePlanned trees steps.items (by_implication now (spot_at spot s) place (tree trees condition) (tree trees conclusion))) }
{
    match place {
        Place::Succ(j) => by_implication_right(alloc, now, spot, j, condition),
        Place::Ante(i) => by_implication_left(alloc, now, spot, i, conclusion),
    }
}

/// The left side of a conditional equivalence comes to be its right side, and its condition is a goal behind that.
pub(crate) fn by_conditional_equivalence(
    alloc: Global,
    now: Fact,
    spot: Spot,
    j: u32,
    instance: Id,
    condition: Id,
    right: Id,
) -> Result<Vec<Step>, AllocError>
    requires now { now < 2 ^ 31 }
    requires goal { spot.goal < 2 ^ 31 }
    ensures { IfOk result (λ steps. (trees : List Tree) (s : TreeSequent) (l : Tree) → IsId trees condition → IsId trees right →
        StandsFor trees instance (imply (tree trees condition) (equiv l (tree trees right))) →
        ArePlanned trees steps.items (by_conditional_equivalence now (spot_at spot s) j (tree trees condition) l (tree trees right))) }
{
    let third = spot.goal + 2;
    let rules = vec![in alloc;
        (spot.goal, Rule::CutR(j, right)),
        (spot.goal + 1, Rule::CutR(j, condition)),
        (third, Rule::CoHideR(j)),
        (third, Rule::ImplyR(1)),
        (third, Rule::EquivifyR(1)),
        (third, Rule::CommuteEquivR(1)),
        (third, Rule::Cut(instance)),
        (third, Rule::ImplyL(2)),
        (third, Rule::Close(1, 2)),
        (third, Rule::Close(2, 1)),
        (third, Rule::CoHideR(2)),
    ]?;
    closed_by(alloc, now, spot, now, rules, third)
}

/// The rules of an exchange.
fn exchange_rules(alloc: Global, aim: Aim, new: Id) -> Result<Vec<(u32, Rule)>, AllocError>
    requires goal { aim.spot.goal < 2 ^ 31 }
    requires right { aim.spot.right < 2 ^ 31 }
    ensures { IfOk result (λ rules. rules.items ≡ exchange_rules aim.spot aim.place (direction_of aim.direction) new) }
{
    let goal = aim.spot.goal;
    let second = goal + 1;
    match aim.place {
        Place::Succ(j) => match aim.direction {
            Direction::Forwards => Ok(vec![in alloc;
                (goal, Rule::CutR(j, new)),
                (second, Rule::CoHideR(j)),
                (second, Rule::EquivifyR(1)),
                (second, Rule::CommuteEquivR(1)),
            ]?),
            Direction::Backwards => Ok(vec![in alloc;
                (goal, Rule::CutR(j, new)),
                (second, Rule::CoHideR(j)),
                (second, Rule::EquivifyR(1)),
            ]?),
        },
        Place::Ante(i) => match aim.direction {
            Direction::Forwards => Ok(vec![in alloc;
                (goal, Rule::CutL(i, new)),
                (second, Rule::CoHideR(aim.spot.right + 1)),
                (second, Rule::EquivifyR(1)),
            ]?),
            Direction::Backwards => Ok(vec![in alloc;
                (goal, Rule::CutL(i, new)),
                (second, Rule::CoHideR(aim.spot.right + 1)),
                (second, Rule::EquivifyR(1)),
                (second, Rule::CommuteEquivR(1)),
            ]?),
        },
    }
}

/// The formula at the place, which is one side of an equivalence that a row proves, comes to be the other one.
fn exchange(alloc: Global, by: Fact, aim: Aim, new: Id) -> Result<Vec<Step>, AllocError>
    requires now { by < 2 ^ 31 + 16 }
    requires goal { aim.spot.goal < 2 ^ 31 }
    requires right { aim.spot.right < 2 ^ 31 }
    ensures { IfOk result (λ steps. (trees : List Tree) (s : TreeSequent) → IsId trees new → aim.spot.right ≡ length s.succ →
        ArePlanned trees steps.items (exchange by by (spot_at aim.spot s) aim.place (direction_of aim.direction) (tree trees new))) }
{
    let rules = exchange_rules(alloc, aim, new)?;
    prove!(rules.len() < 5);
    closed_by(alloc, by, aim.spot, by, rules, aim.spot.goal + 1)
}

/// Steps, and others behind them.
pub(crate) fn joined(mut steps: Vec<Step>, more: Vec<Step>) -> Result<Vec<Step>, AllocError>
    ensures { IfOk result (λ all. all.items ≡ steps.items ++ more.items) }
{
    for step in more {
        steps.push(step)?;
    }
    Ok(steps)
}

/// The pairs for the rule by which a context of equivalent formulas is equivalent.
fn in_context(alloc: Global, x: Exchanged) -> Result<Listed<Pair>, AllocError>
    ensures { IfOk result (λ pairs. pairs ≡ (record { sym = any_p; by = x.left }) ∷ (record { sym = any_q; by = x.right }) ∷
        (record { sym = context_c; by = x.context }) ∷ []) }
{
    let left = pair(alloc, Kind::UnitPred, b"p", 0, x.left)?;
    let right = pair(alloc, Kind::UnitPred, b"q", 0, x.right)?;
    let context = pair(alloc, Kind::Quant, b"C", 0, x.context)?;
    Ok(Listed::from_vec(vec![in alloc; left, right, context]?))
}

/// The steps by which a context of equivalent formulas is equivalent.
fn contextual(alloc: Global, now: Fact, x: Exchanged) -> Result<Vec<Step>, AllocError>
    requires { now < 2 ^ 31 + 12 }
    ensures { IfOk result (λ steps. steps.items ≡ contextual now x) }
{
    let rule = name_of(alloc, b"CE")?;
    let pairs = in_context(alloc, x)?;
    let steps = vec![in alloc;
        Step::AxRule(rule),
        Step::Subst {
            fact: now + 1,
            pairs
        },
        Step::Merge {
            fact: now + 2,
            goal: 1,
            by: now
        },
    ]?;
    Ok(steps)
}

/// One side of an equivalence comes to be the other one, inside a formula.
pub(crate) fn by_equivalence(
    alloc: Global,
    now: Fact,
    aim: Aim,
    x: Exchanged,
) -> Result<Vec<Step>, AllocError>
    requires now { now < 2 ^ 31 + 12 }
    requires goal { aim.spot.goal < 2 ^ 31 }
    requires right { aim.spot.right < 2 ^ 31 }
    ensures { IfOk result (λ steps. (trees : List Tree) (s : TreeSequent) (e : Tree) (path : List ℕ) (l r : Tree) →
        AreExchangeTrees trees (direction_of aim.direction) e path l r x → aim.spot.right ≡ length s.succ →
        ArePlanned trees steps.items (by_equivalence now (spot_at aim.spot s) aim.place (direction_of aim.direction) e path l r)) }
{
    let steps = contextual(alloc, now, x)?;
    let more = exchange(alloc, now + 3, aim, x.new)?;
    let all = joined(steps, more)?;
    Ok(all)
}

/// The pairs for the rule by which formulas with equal terms are equivalent.
fn of_terms(alloc: Global, y: Equated) -> Result<Listed<Pair>, AllocError>
    ensures { IfOk result (λ pairs. pairs ≡ (record { sym = any_f; by = y.left }) ∷ (record { sym = any_g; by = y.right }) ∷ []) }
{
    let left = pair(alloc, Kind::UnitFunc, b"f", 0, y.left)?;
    let right = pair(alloc, Kind::UnitFunc, b"g", 0, y.right)?;
    Ok(Listed::from_vec(vec![in alloc; left, right]?))
}

/// The pair for the formula in which the terms stand.
fn of_formula(alloc: Global, y: Equated) -> Result<Listed<Pair>, AllocError>
    ensures { IfOk result (λ pairs. pairs ≡ (record { sym = p_of_one; by = y.context }) ∷ []) }
{
    let formula = pair(alloc, Kind::Pred, b"p", 1, y.context)?;
    Ok(Listed::from_vec(vec![in alloc; formula]?))
}

/// The steps by which formulas with equal terms are equivalent.
fn with_equal_terms(alloc: Global, now: Fact, y: Equated) -> Result<Vec<Step>, AllocError>
    requires { now < 2 ^ 31 + 8 }
    ensures { IfOk result (λ steps. steps.items ≡ with_equal_terms now y) }
{
    let rule = name_of(alloc, b"CQ")?;
    let terms = of_terms(alloc, y)?;
    let formula = of_formula(alloc, y)?;
    let steps = vec![in alloc;
        Step::AxRule(rule),
        Step::Subst {
            fact: now + 1,
            pairs: terms
        },
        Step::Merge {
            fact: now + 2,
            goal: 1,
            by: now
        },
        Step::Subst {
            fact: now + 3,
            pairs: formula
        },
    ]?;
    Ok(steps)
}

/// One side of an equation comes to be the other one, inside a formula.
pub(crate) fn by_equation(
    alloc: Global,
    now: Fact,
    aim: Aim,
    y: Equated,
    x: Exchanged,
) -> Result<Vec<Step>, AllocError>
    requires now { now < 2 ^ 31 + 8 }
    requires goal { aim.spot.goal < 2 ^ 31 }
    requires right { aim.spot.right < 2 ^ 31 }
    ensures { IfOk result (λ steps. (trees : List Tree) (s : TreeSequent) (e : Tree) (outer inner : List ℕ) (d l r : Tree) →
        AreEquatedTrees trees d inner l r y → AreExchangeTrees trees (direction_of aim.direction) e outer (put_at d inner l) (put_at d inner r) x →
        aim.spot.right ≡ length s.succ →
        ArePlanned trees steps.items (by_equation now (spot_at aim.spot s) aim.place (direction_of aim.direction) e outer inner d l r)) }
{
    let steps = with_equal_terms(alloc, now, y)?;
    let more = by_equivalence(alloc, now + 4, aim, x)?;
    let all = joined(steps, more)?;
    Ok(all)
}

/// The steps by which an equation holds under a condition that is a leaf.
fn under_condition(
    alloc: Global,
    now: Fact,
    equation: Id,
    condition: Id,
) -> Result<Vec<Step>, AllocError>
    requires { now < 2 ^ 31 }
    ensures { IfOk result (λ steps. steps.items ≡ under_condition now equation condition) }
{
    let wanted = Sequent::alone_right(alloc, equation)?;
    let leaf = Sequent::alone_right(alloc, condition)?;
    let steps = vec![in alloc;
        Step::Start(wanted),
        Step::Apply {
            fact: now + 1,
            goal: 1,
            rule: Rule::CutR(1, condition)
        },
        Step::Merge {
            fact: now + 2,
            goal: 2,
            by: now
        },
        Step::Leaf(leaf),
        Step::Merge {
            fact: now + 3,
            goal: 1,
            by: now + 4
        },
    ]?;
    Ok(steps)
}

/// One side of a conditional equation comes to be the other one, inside a formula, and its condition is a leaf.
pub(crate) fn by_conditional_equation(
    alloc: Global,
    now: Fact,
    aim: Aim,
    condition: Id,
    equation: Id,
    y: Equated,
    x: Exchanged,
) -> Result<Vec<Step>, AllocError>
    requires now { now < 2 ^ 31 }
    requires goal { aim.spot.goal < 2 ^ 31 }
    requires right { aim.spot.right < 2 ^ 31 }
    ensures { IfOk result (λ steps. (trees : List Tree) (s : TreeSequent) (e : Tree) (outer inner : List ℕ) (d l r : Tree) → IsId trees condition →
        StandsFor trees equation (eq l r) → AreEquatedTrees trees d inner l r y →
        AreExchangeTrees trees (direction_of aim.direction) e outer (put_at d inner l) (put_at d inner r) x → aim.spot.right ≡ length s.succ →
        ArePlanned trees steps.items
        (by_conditional_equation now (spot_at aim.spot s) aim.place (direction_of aim.direction) e outer inner d (tree trees condition) l r)) }
{
    let steps = under_condition(alloc, now, equation, condition)?;
    let more = by_equation(alloc, now + 5, aim, y, x)?;
    let all = joined(steps, more)?;
    Ok(all)
}
