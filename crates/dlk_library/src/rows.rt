//! What each name of the library stands for.
ghost use Rattle.std.specs.Prelude.{◌≡◌, ◌++◌, ◌∷◌, [], List, map, All, IfOk, IsTrue};
ghost use Rattle.dlk_tree.specs.Names.{is_name};
ghost use Rattle.dlk_tree.specs.Trees.{Tree};
ghost use Rattle.dlk_store.specs.Stores.{IsId, tree};
ghost use Rattle.dlk_tacsyn.specs.Ties.{argument_at, ArgumentIsKnown, tactic_at, TacticIsKnown};
ghost use Rattle.dlk_library.specs.Parts.{rule_at, use_at};
ghost use Rattle.dlk_library.specs.Library.{base_and_step, connective, cut_of, ghost_of, invariant_of, loop_of, propositional_of, step_of, weakening_of};

use crate::parts::{atom, for_ghost, for_r, generalized, nothing, rule_at, use_at, use_with};
use dlk_store::Id;
use dlk_tacsyn::{Arg, Tactic};
use dlk_tree::Name;
use std::alloc::{AllocError, Global};

/// `cutR("J",P); <(nil, useAt(I,P); G(P); implyR(1))`
fn base_and_step(alloc: Global, at: usize, j: Id, place: &Arg) -> Result<Tactic, AllocError>
    ensures made { IfOk result (λ t. (trees : List Tree) → tactic_at trees t ≡ base_and_step at (tree trees j) (argument_at trees place.now)) }
    ensures known { IfOk result (λ t. (trees : List Tree) → IsId trees j → ArgumentIsKnown trees place.now → TacticIsKnown trees t) }
{
    let args = vec![in alloc; Arg::Formula(j), place.copy(alloc)?]?;
    let cut = atom(alloc, at, b"cutR", args)?;
    let base = nothing(alloc, at)?;
    let step = generalized(alloc, at, b"I", place)?;
    let branch = Tactic::branch(at, vec![in alloc; base, step]?);
    Ok(Tactic::sequence(vec![in alloc; cut, branch]?))
}

/// `loop("J",P)`: the formula holds first, is kept by the loop's body, and implies what stands behind the loop.
pub(crate) fn loop_of(alloc: Global, at: usize, j: Id, place: &Arg) -> Result<Tactic, AllocError>
    ensures made { IfOk result (λ t. (trees : List Tree) → tactic_at trees t ≡ loop_of at (tree trees j) (argument_at trees place.now)) }
    ensures known { IfOk result (λ t. (trees : List Tree) → IsId trees j → ArgumentIsKnown trees place.now → TacticIsKnown trees t) }
{
    let args = vec![in alloc; Arg::Formula(j), place.copy(alloc)?]?;
    let cut = atom(alloc, at, b"boxCut", args)?;
    let kept = base_and_step(alloc, at, j, place)?;
    let used = nothing(alloc, at)?;
    let branch = Tactic::branch(at, vec![in alloc; kept, used]?);
    Ok(Tactic::sequence(vec![in alloc; cut, branch]?))
}

/// `dW(P)`: what the domain implies holds behind a system.
pub(crate) fn weakening_of(alloc: Global, at: usize, place: &Arg) -> Result<Tactic, AllocError>
    ensures made { IfOk result (λ t. (trees : List Tree) → tactic_at trees t ≡ weakening_of at (argument_at trees place.now)) }
    ensures known { IfOk result (λ t. (trees : List Tree) → ArgumentIsKnown trees place.now → TacticIsKnown trees t) }
{
    generalized(alloc, at, b"DWeq", place)
}

/// `dC("R",P)`: the formula, shown of a system, may be put into its domain.
pub(crate) fn cut_of(alloc: Global, at: usize, r: Id, place: &Arg) -> Result<Tactic, AllocError>
    ensures made { IfOk result (λ t. (trees : List Tree) → tactic_at trees t ≡ cut_of at (tree trees r) (argument_at trees place.now)) }
    ensures known { IfOk result (λ t. (trees : List Tree) → IsId trees r → ArgumentIsKnown trees place.now → TacticIsKnown trees t) }
{
    let extra = for_r(alloc, r)?;
    use_with(alloc, at, b"DC", place, extra)
}

/// `dI(P)`: what holds first, and whose differential holds all along, holds behind a system.
pub(crate) fn invariant_of(alloc: Global, at: usize, place: &Arg) -> Result<Tactic, AllocError>
    ensures made { IfOk result (λ t. (trees : List Tree) → tactic_at trees t ≡ invariant_of at (argument_at trees place.now)) }
    ensures known { IfOk result (λ t. (trees : List Tree) → ArgumentIsKnown trees place.now → TacticIsKnown trees t) }
{
    let used = use_at(alloc, at, b"DI", place)?;
    let tested = use_at(alloc, at, b"testb", place)?;
    let assumed = rule_at(alloc, at, b"implyR", place.copy(alloc)?)?;
    let first = Tactic::sequence(vec![in alloc; tested, assumed]?);
    let along = rule_at(alloc, at, b"implyR", place.copy(alloc)?)?;
    let branch = Tactic::branch(at, vec![in alloc; first, along]?);
    Ok(Tactic::sequence(vec![in alloc; used, branch]?))
}

/// `dG(y,"a","b",P)`: a system may get a variable more, which evolves by `y' = a*y + b`.
pub(crate) fn ghost_of(
    alloc: Global,
    at: usize,
    y: &Name,
    a: Id,
    b: Id,
    place: &Arg,
) -> Result<Tactic, AllocError>
    ensures made { IfOk result (λ t. (trees : List Tree) → tactic_at trees t ≡ ghost_of at y.now (tree trees a) (tree trees b) (argument_at trees place.now)) }
    ensures known { IfOk result (λ t. (trees : List Tree) → IsId trees a → IsId trees b → ArgumentIsKnown trees place.now → TacticIsKnown trees t) }
{
    let extra = for_ghost(alloc, y, a, b)?;
    use_with(alloc, at, b"DG", place, extra)
}

/// The steps, and behind them the use of an axiom at the place.
fn or_use(
    alloc: Global,
    at: usize,
    mut steps: Vec<Tactic>,
    name: &[u8],
    place: &Arg,
) -> Result<Vec<Tactic>, AllocError>
    requires { IsTrue (is_name name.now) }
    ensures made { IfOk result (λ all. (trees : List Tree) →
        map (tactic_at trees) all.items ≡ map (tactic_at trees) steps.items ++ use_at at name.now (argument_at trees place.now) ∷ []) }
    ensures known { IfOk result (λ all. (trees : List Tree) → ArgumentIsKnown trees place.now → All (TacticIsKnown trees) steps.items →
        All (TacticIsKnown trees) all.items) }
{
    let step = use_at(alloc, at, name, place)?;
    steps.push(step)?;
    Ok(steps)
}

/// `step(P)`: the axiom of the program that stands outermost.
pub(crate) fn step_of(alloc: Global, at: usize, place: &Arg) -> Result<Tactic, AllocError>
    ensures made { IfOk result (λ t. (trees : List Tree) → tactic_at trees t ≡ step_of at (argument_at trees place.now)) }
    ensures known { IfOk result (λ t. (trees : List Tree) → ArgumentIsKnown trees place.now → TacticIsKnown trees t) }
{
    let steps = or_use(alloc, at, Vec::new(alloc), b"assignb", place)?;
    let steps = or_use(alloc, at, steps, b"dassignb", place)?;
    let steps = or_use(alloc, at, steps, b"assigneq", place)?;
    let steps = or_use(alloc, at, steps, b"testb", place)?;
    let steps = or_use(alloc, at, steps, b"choiceb", place)?;
    let steps = or_use(alloc, at, steps, b"composeb", place)?;
    let steps = or_use(alloc, at, steps, b"randomb", place)?;
    let steps = or_use(alloc, at, steps, b"diamond", place)?;
    Ok(Tactic::choice(steps))
}

/// The rules, and behind them one more at the place.
fn or_rule(
    alloc: Global,
    at: usize,
    mut rules: Vec<Tactic>,
    name: &[u8],
    place: Arg,
) -> Result<Vec<Tactic>, AllocError>
    requires { IsTrue (is_name name.now) }
    ensures made { IfOk result (λ all. (trees : List Tree) →
        map (tactic_at trees) all.items ≡ map (tactic_at trees) rules.items ++ rule_at at name.now (argument_at trees place) ∷ []) }
    ensures known { IfOk result (λ all. (trees : List Tree) → ArgumentIsKnown trees place → All (TacticIsKnown trees) rules.items →
        All (TacticIsKnown trees) all.items) }
{
    let rule = rule_at(alloc, at, name, place)?;
    rules.push(rule)?;
    Ok(rules)
}

/// A rule on a connective, or one that closes the goal.
fn connective(alloc: Global, at: usize) -> Result<Tactic, AllocError>
    ensures made { IfOk result (λ t. (trees : List Tree) → tactic_at trees t ≡ connective at) }
    ensures known { IfOk result (λ t. (trees : List Tree) → TacticIsKnown trees t) }
{
    let rules = vec![in alloc; atom(alloc, at, b"close", Vec::new(alloc))?]?;
    let rules = or_rule(alloc, at, rules, b"closeTrue", Arg::AnyRight)?;
    let rules = or_rule(alloc, at, rules, b"closeFalse", Arg::AnyLeft)?;
    let rules = or_rule(alloc, at, rules, b"notL", Arg::AnyLeft)?;
    let rules = or_rule(alloc, at, rules, b"notR", Arg::AnyRight)?;
    let rules = or_rule(alloc, at, rules, b"andL", Arg::AnyLeft)?;
    let rules = or_rule(alloc, at, rules, b"orR", Arg::AnyRight)?;
    let rules = or_rule(alloc, at, rules, b"implyR", Arg::AnyRight)?;
    let rules = or_rule(alloc, at, rules, b"equivL", Arg::AnyLeft)?;
    let rules = or_rule(alloc, at, rules, b"andR", Arg::AnyRight)?;
    let rules = or_rule(alloc, at, rules, b"orL", Arg::AnyLeft)?;
    let rules = or_rule(alloc, at, rules, b"implyL", Arg::AnyLeft)?;
    let rules = or_rule(alloc, at, rules, b"equivR", Arg::AnyRight)?;
    Ok(Tactic::choice(rules))
}

/// `prop`: takes the connectives of a goal apart, and of all goals that come of it, and closes those whose sides have a formula in common.
pub(crate) fn propositional_of(alloc: Global, at: usize) -> Result<Tactic, AllocError>
    ensures made { IfOk result (λ t. (trees : List Tree) → tactic_at trees t ≡ propositional_of at) }
    ensures known { IfOk result (λ t. (trees : List Tree) → TacticIsKnown trees t) }
{
    let body = Box::new(alloc, connective(alloc, at)?)?;
    Ok(Tactic::Repeat { body, times: 200 })
}
