//! The rules on bound variables, a function a rule. Each is drawn with its premise over its conclusion, in which A is the left side of the
//! sequent and S the right side.
ghost use Rattle.std.specs.Prelude.{◌≡◌, ◌∷◌, ◌||◌, [], All, List, ℕ, map, MatchOption, OnSome, IfOk, IfErr};
ghost use Rattle.std.specs.List.{list_any};
ghost use Rattle.dlk_tree.specs.declared.op.Sort.TheVariants.{Formula};
ghost use Rattle.dlk_tree.specs.Table.{kid_sorts};
ghost use Rattle.dlk_tree.specs.Trees.{Tree};
ghost use Rattle.dlk_tree.specs.Statics.{free, plain};
ghost use Rattle.dlk_store.specs.Stores.{IsId, tree};
ghost use Rattle.dlk_calculus.specs.Notation.{one};
ghost use Rattle.dlk_calculus.specs.Places.{IsPlace, without_place};
ghost use Rattle.dlk_calculus.specs.Sequents.{◌==>◌};
ghost use Rattle.dlk_calculus.specs.Rules.{SkolemL, SkolemR, BoundL, BoundR, FirstAgainst};
ghost use Rattle.dlk_sequent.specs.Sequents.{sequent_at, IsKnown};
ghost use Rattle.dlk_rules.specs.Looks.{IsFormFault};
ghost use Rattle.dlk_rules.specs.Quantifiers.{quantifier_of, IsOther, is_read, IsQuantifiedAt, IsReboundAt, IsReboundFault};
ghost use Rattle.dlk_rules.specs.Steps.{ArePremises, IsRuleFault};

use crate::look::{formula_at, top_at};
use crate::made::one;
use crate::rule::RuleFault;
use dlk_rename::bound;
use dlk_sequent::{Listed, Sequent};
use dlk_store::{Id, Steps, Store};
use dlk_tree::{Name, Op, Var};
use std::alloc::Global;
use std::sync::ledger::Ledger;

/// One of the two quantifiers of a variable.
#[derive(Clone, Copy)]
enum Quantifier {
    /// `\exists`
    Exists,
    /// `\forall`
    Forall,
}

/// The name of the variable of an operator that is this quantifier, which has a kid.
fn bound_name<'a>(quantifier: Quantifier, op: &'a Op) -> Option<&'a Name>
    ensures name { MatchOption result (IsOther quantifier op.now) (λ x. op.now ≡ quantifier_of quantifier x.now) }
    ensures kid { OnSome result (kid_sorts op.now ≡ Formula ∷ []) }
{
    match (quantifier, op) {
        (Quantifier::Exists, Op::Exists(x)) => Some(x),
        (Quantifier::Forall, Op::Forall(x)) => Some(x),
        _ => None,
    }
}

/// The variable and the kid of the formula at a place, which has this quantifier at its top: `WrongShape` where it hasn't.
fn quantified_at<S: Store, L: Ledger>(
    store: &S,
    side: &Listed<Id>,
    place: u32,
    quantifier: Quantifier,
    steps: &mut Steps<L>,
) -> Result<(Var, Id), RuleFault>
    requires { All (IsId (S.trees store.now)) side.now }
    ensures ok { IfOk result (λ made. IsQuantifiedAt (S.trees store.now) (map (tree (S.trees store.now)) side.now) place quantifier made.0 made.1) }
    ensures fault { IfErr result (IsFormFault (S.trees store.now) side.now place (List ℕ × Tree) (λ p. one (quantifier_of quantifier p.0) p.1)) }
{
    let top = top_at(store, side, place, steps)?;
    let Some(x) = bound_name(quantifier, top.op) else {
        return Err(RuleFault::WrongShape);
    };
    Ok((Var::plain(x.clone()?), top.kids[0]))
}

/// Whether the variable is free in one of the formulas.
fn is_read_by_any<S: Store>(store: &S, formulas: &[Id], v: &Var) -> bool
    requires { All (IsId (S.trees store.now)) formulas.now }
    ensures { result ≡ list_any (λ t. free t v.now) (map (tree (S.trees store.now)) formulas.now) }
{
    for id in formulas {
        if store.frees(*id, v) {
            return true;
        }
    }
    false
}

/// Whether the variable is free in one of the formulas but the one at a place, which is there. Places count from 1.
fn is_read_by_others<S: Store>(store: &S, formulas: &[Id], place: u32, v: &Var) -> bool
    requires known { All (IsId (S.trees store.now)) formulas.now }
    requires place { IsPlace formulas.now place }
    ensures { result ≡ list_any (λ t. free t v.now) (without_place (map (tree (S.trees store.now)) formulas.now) place) }
{
    is_read_by_any(store, &formulas[..place as usize - 1], v)
        || is_read_by_any(store, &formulas[place as usize..], v)
}

/// Whether the variable is free in a formula of the sequent but the one at place `i` on the left, which is there.
fn is_read_beside_left<S: Store>(store: &S, i: u32, s: &Sequent, v: &Var) -> bool
    requires known { IsKnown (S.trees store.now) s.now }
    requires place { IsPlace s.now.ante i }
    ensures { result ≡ is_read (without_place (sequent_at (S.trees store.now) s.now).ante i ==> (sequent_at (S.trees store.now) s.now).succ) v.now }
{
    is_read_by_others(store, s.ante.as_slice(), i, v) || is_read_by_any(store, s.succ.as_slice(), v)
}

/// Whether the variable is free in a formula of the sequent but the one at place `j` on the right, which is there.
fn is_read_beside_right<S: Store>(store: &S, j: u32, s: &Sequent, v: &Var) -> bool
    requires known { IsKnown (S.trees store.now) s.now }
    requires place { IsPlace s.now.succ j }
    ensures { result ≡ is_read ((sequent_at (S.trees store.now) s.now).ante ==> without_place (sequent_at (S.trees store.now) s.now).succ j) v.now }
{
    is_read_by_any(store, s.ante.as_slice(), v) || is_read_by_others(store, s.succ.as_slice(), j, v)
}

/// The formula at a place with `y` for the variable that it binds: `WrongShape` and `NotFresh` as `bound` has them.
fn rebound_at<S: Store, L: Ledger>(
    alloc: Global,
    store: &mut S,
    side: &Listed<Id>,
    place: u32,
    y: &Name,
    steps: &mut Steps<L>,
) -> Result<Id, RuleFault>
    requires { All (IsId (S.trees store.old)) side.now }
    ensures ok { IfOk result (IsReboundAt (map (tree (S.trees store.old)) side.now) place y.now (S.trees store.new)) }
    ensures fault { IfErr result (IsReboundFault (S.trees store.old) side.now place y.now) }
    ensures grows { S.grows store.old store.new }
{
    let id = formula_at(store, side, place)?;
    Ok(bound(alloc, store, id, y, steps)?)
}

/// The rule `skolemL(i)`, where x is free in no other formula:
///
/// ```text
/// A with f at i ==> S
/// -----------------------------
/// A with \exists x f at i ==> S
/// ```
///
/// # Errors
///
/// The first of these that applies, or `Memory`:
///
/// - `NoPlace`: no formula is at `i` on the left.
/// - `WrongShape`: the one there is no `\exists x f`.
/// - `NotFresh`: x is free in another formula of the sequent, on the left or on the right.
pub(crate) fn skolem_left<S: Store, L: Ledger>(
    alloc: Global,
    store: &S,
    i: u32,
    s: &Sequent,
    steps: &mut Steps<L>,
) -> Result<Vec<Sequent>, RuleFault>
    requires { IsKnown (S.trees store.now) s.now }
    ensures made { IfOk result (ArePremises (SkolemL i) (S.trees store.now) s.now (S.trees store.now)) }
    ensures fault { IfErr result (IsRuleFault (FirstAgainst (SkolemL i) (sequent_at (S.trees store.now) s.now))) }
{
    let (v, f) = quantified_at(store, &s.ante, i, Quantifier::Exists, steps)?;
    if is_read_beside_left(store, i, s, &v) {
        return Err(RuleFault::NotFresh);
    }
    let mut premise = s.copy(alloc)?;
    premise.ante.set(i, f);
    Ok(one(alloc, premise)?)
}

/// The rule `skolemR(j)`, where x is free in no other formula:
///
/// ```text
/// A ==> S with f at j
/// -----------------------------
/// A ==> S with \forall x f at j
/// ```
///
/// # Errors
///
/// The first of these that applies, or `Memory`:
///
/// - `NoPlace`: no formula is at `j` on the right.
/// - `WrongShape`: the one there is no `\forall x f`.
/// - `NotFresh`: x is free in another formula of the sequent, on the left or on the right.
pub(crate) fn skolem_right<S: Store, L: Ledger>(
    alloc: Global,
    store: &S,
    j: u32,
    s: &Sequent,
    steps: &mut Steps<L>,
) -> Result<Vec<Sequent>, RuleFault>
    requires { IsKnown (S.trees store.now) s.now }
    ensures made { IfOk result (ArePremises (SkolemR j) (S.trees store.now) s.now (S.trees store.now)) }
    ensures fault { IfErr result (IsRuleFault (FirstAgainst (SkolemR j) (sequent_at (S.trees store.now) s.now))) }
{
    let (v, f) = quantified_at(store, &s.succ, j, Quantifier::Forall, steps)?;
    if is_read_beside_right(store, j, s, &v) {
        return Err(RuleFault::NotFresh);
    }
    let mut premise = s.copy(alloc)?;
    premise.succ.set(j, f);
    Ok(one(alloc, premise)?)
}

/// The rule `boundL(i,y)`, where f binds x, and g is f with y for it:
///
/// ```text
/// A with g at i ==> S
/// -------------------
/// A with f at i ==> S
/// ```
///
/// # Errors
///
/// The first of these that applies, or `Memory`; the store may have more nodes then:
///
/// - `NoPlace`: no formula is at `i` on the left.
/// - `WrongShape`: the one there is no `\forall x h`, `\exists x h`, `[x:=e;]h` or `<x:=e;>h`.
/// - `NotFresh`: `y`, `y'` or `x'` is free in h, or a unit symbol, a predicational, a program constant or an ODE constant occurs in h.
pub(crate) fn bound_left<S: Store, L: Ledger>(
    alloc: Global,
    store: &mut S,
    i: u32,
    y: &Name,
    s: &Sequent,
    steps: &mut Steps<L>,
) -> Result<Vec<Sequent>, RuleFault>
    requires { IsKnown (S.trees store.old) s.now }
    ensures made { IfOk result (ArePremises (BoundL i y.now) (S.trees store.old) s.now (S.trees store.new)) }
    ensures fault { IfErr result (IsRuleFault (FirstAgainst (BoundL i y.now) (sequent_at (S.trees store.old) s.now))) }
    ensures grows { S.grows store.old store.new }
{
    let g = rebound_at(alloc, store, &s.ante, i, y, steps)?;
    let mut premise = s.copy(alloc)?;
    premise.ante.set(i, g);
    Ok(one(alloc, premise)?)
}

/// The rule `boundR(j,y)`, where f binds x, and g is f with y for it:
///
/// ```text
/// A ==> S with g at j
/// -------------------
/// A ==> S with f at j
/// ```
///
/// # Errors
///
/// The first of these that applies, or `Memory`; the store may have more nodes then:
///
/// - `NoPlace`: no formula is at `j` on the right.
/// - `WrongShape`: the one there is no `\forall x h`, `\exists x h`, `[x:=e;]h` or `<x:=e;>h`.
/// - `NotFresh`: `y`, `y'` or `x'` is free in h, or a unit symbol, a predicational, a program constant or an ODE constant occurs in h.
pub(crate) fn bound_right<S: Store, L: Ledger>(
    alloc: Global,
    store: &mut S,
    j: u32,
    y: &Name,
    s: &Sequent,
    steps: &mut Steps<L>,
) -> Result<Vec<Sequent>, RuleFault>
    requires { IsKnown (S.trees store.old) s.now }
    ensures made { IfOk result (ArePremises (BoundR j y.now) (S.trees store.old) s.now (S.trees store.new)) }
    ensures fault { IfErr result (IsRuleFault (FirstAgainst (BoundR j y.now) (sequent_at (S.trees store.old) s.now))) }
    ensures grows { S.grows store.old store.new }
{
    let g = rebound_at(alloc, store, &s.succ, j, y, steps)?;
    let mut premise = s.copy(alloc)?;
    premise.succ.set(j, g);
    Ok(one(alloc, premise)?)
}
