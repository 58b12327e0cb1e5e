//! The rules of cuts and of the structure of a sequent, a function a rule. Each is drawn with its premises over its conclusion, in which A
//! is the left side of the sequent and S the right side.
ghost use Rattle.std.specs.Prelude.{◌≡◌, ◌≢◌, Err, IfOk, IfErr};
ghost use Rattle.dlk_store.specs.Stores.{IsId, tree};
ghost use Rattle.dlk_calculus.specs.Rules.{Cut, CutL, CutR, HideL, HideR, CoHideR, ExchangeL, ExchangeR, FirstAgainst};
ghost use Rattle.dlk_calculus.specs.Sequents.{IsFormula};
ghost use Rattle.dlk_sequent.specs.Sequents.{sequent_at, IsKnown};
ghost use Rattle.dlk_rules.specs.declared.rule.RuleFault.TheVariants.{WrongShape, Memory};
ghost use Rattle.dlk_rules.specs.Steps.{IsOfFormulas, ArePremises, IsRuleFault};

use crate::look::formula_at;
use crate::made::{imply, one, two};
use crate::rule::RuleFault;
use dlk_sequent::{Listed, Sequent, is_formula};
use dlk_store::{Id, Steps, Store};
use std::alloc::Global;
use std::sync::ledger::Ledger;

/// The rule `cut(h)`: `WrongShape` where h is no formula, or a dot or `_` stands in it.
///
/// ```text
/// A, h ==> S     A ==> S, h
/// -------------------------
/// A ==> S
/// ```
pub(crate) fn cut<S: Store, L: Ledger>(
    alloc: Global,
    store: &S,
    h: Id,
    s: &Sequent,
    steps: &mut Steps<L>,
) -> Result<Vec<Sequent>, RuleFault>
    requires formula { IsId (S.trees store.now) h }
    requires known { IsKnown (S.trees store.now) s.now }
    ensures made { IfOk result (ArePremises (Cut (tree (S.trees store.now) h)) (S.trees store.now) s.now (S.trees store.now)) }
    ensures fault { IfErr result (IsRuleFault (FirstAgainst (Cut (tree (S.trees store.now) h)) (sequent_at (S.trees store.now) s.now))) }
    ensures owed { ¬ IsFormula (tree (S.trees store.now) h) → result ≡ Err WrongShape }
{
    if !is_formula(store, h, steps) {
        return Err(RuleFault::WrongShape);
    }
    let mut first = s.copy(alloc)?;
    first.ante.push(h)?;
    let mut second = s.copy(alloc)?;
    second.succ.push(h)?;
    Ok(two(alloc, first, second)?)
}

/// The rule `cutL(i,h)`: `WrongShape` where h is no formula, or a dot or `_` stands in it.
///
/// ```text
/// A with h at i ==> S     A without f ==> S, f -> h
/// -------------------------------------------------
/// A with f at i ==> S
/// ```
pub(crate) fn cut_left<S: Store, L: Ledger>(
    alloc: Global,
    store: &mut S,
    i: u32,
    h: Id,
    s: &Sequent,
    steps: &mut Steps<L>,
) -> Result<Vec<Sequent>, RuleFault>
    requires formula { IsId (S.trees store.old) h }
    requires sequent { IsOfFormulas (S.trees store.old) s.now }
    ensures made { IfOk result (ArePremises (CutL i (tree (S.trees store.old) h)) (S.trees store.old) s.now (S.trees store.new)) }
    ensures fault { IfErr result (IsRuleFault (FirstAgainst (CutL i (tree (S.trees store.old) h)) (sequent_at (S.trees store.old) s.now))) }
    ensures owed { ¬ IsFormula (tree (S.trees store.old) h) → result ≢ Err Memory }
    ensures grows { S.grows store.old store.new }
{
    let f = formula_at(store, &s.ante, i)?;
    if !is_formula(store, h, steps) {
        return Err(RuleFault::WrongShape);
    }
    let implied = imply(alloc, store, f, h)?;
    let mut first = s.copy(alloc)?;
    first.ante.set(i, h);
    let mut second = s.copy(alloc)?;
    second.ante.remove(i);
    second.succ.push(implied)?;
    Ok(two(alloc, first, second)?)
}

/// The rule `cutR(j,h)`: `WrongShape` where h is no formula, or a dot or `_` stands in it.
///
/// ```text
/// A ==> S with h at j     A ==> S with h -> f at j
/// ------------------------------------------------
/// A ==> S with f at j
/// ```
pub(crate) fn cut_right<S: Store, L: Ledger>(
    alloc: Global,
    store: &mut S,
    j: u32,
    h: Id,
    s: &Sequent,
    steps: &mut Steps<L>,
) -> Result<Vec<Sequent>, RuleFault>
    requires formula { IsId (S.trees store.old) h }
    requires sequent { IsOfFormulas (S.trees store.old) s.now }
    ensures made { IfOk result (ArePremises (CutR j (tree (S.trees store.old) h)) (S.trees store.old) s.now (S.trees store.new)) }
    ensures fault { IfErr result (IsRuleFault (FirstAgainst (CutR j (tree (S.trees store.old) h)) (sequent_at (S.trees store.old) s.now))) }
    ensures owed { ¬ IsFormula (tree (S.trees store.old) h) → result ≢ Err Memory }
    ensures grows { S.grows store.old store.new }
{
    let f = formula_at(store, &s.succ, j)?;
    if !is_formula(store, h, steps) {
        return Err(RuleFault::WrongShape);
    }
    let implies = imply(alloc, store, h, f)?;
    let mut first = s.copy(alloc)?;
    first.succ.set(j, h);
    let mut second = s.copy(alloc)?;
    second.succ.set(j, implies);
    Ok(two(alloc, first, second)?)
}

/// The rule `hideL(i)`:
///
/// ```text
/// A without f ==> S
/// -------------------
/// A with f at i ==> S
/// ```
pub(crate) fn hide_left<S: Store>(
    alloc: Global,
    store: &S,
    i: u32,
    s: &Sequent,
) -> Result<Vec<Sequent>, RuleFault>
    requires { IsKnown (S.trees store.now) s.now }
    ensures made { IfOk result (ArePremises (HideL i) (S.trees store.now) s.now (S.trees store.now)) }
    ensures fault { IfErr result (IsRuleFault (FirstAgainst (HideL i) (sequent_at (S.trees store.now) s.now))) }
{
    formula_at(store, &s.ante, i)?;
    let mut premise = s.copy(alloc)?;
    premise.ante.remove(i);
    Ok(one(alloc, premise)?)
}

/// The rule `hideR(j)`:
///
/// ```text
/// A ==> S without f
/// -------------------
/// A ==> S with f at j
/// ```
pub(crate) fn hide_right<S: Store>(
    alloc: Global,
    store: &S,
    j: u32,
    s: &Sequent,
) -> Result<Vec<Sequent>, RuleFault>
    requires { IsKnown (S.trees store.now) s.now }
    ensures made { IfOk result (ArePremises (HideR j) (S.trees store.now) s.now (S.trees store.now)) }
    ensures fault { IfErr result (IsRuleFault (FirstAgainst (HideR j) (sequent_at (S.trees store.now) s.now))) }
{
    formula_at(store, &s.succ, j)?;
    let mut premise = s.copy(alloc)?;
    premise.succ.remove(j);
    Ok(one(alloc, premise)?)
}

/// The rule `coHideR(j)`:
///
/// ```text
/// ==> f
/// -------------------
/// A ==> S with f at j
/// ```
pub(crate) fn co_hide_right<S: Store>(
    alloc: Global,
    store: &S,
    j: u32,
    s: &Sequent,
) -> Result<Vec<Sequent>, RuleFault>
    requires { IsKnown (S.trees store.now) s.now }
    ensures made { IfOk result (ArePremises (CoHideR j) (S.trees store.now) s.now (S.trees store.now)) }
    ensures fault { IfErr result (IsRuleFault (FirstAgainst (CoHideR j) (sequent_at (S.trees store.now) s.now))) }
{
    let f = formula_at(store, &s.succ, j)?;
    Ok(one(alloc, Sequent::alone_right(alloc, f)?)?)
}

/// The rule `exchangeL(i,k)`:
///
/// ```text
/// A with g at i and f at k ==> S
/// ------------------------------
/// A with f at i and g at k ==> S
/// ```
pub(crate) fn exchange_left<S: Store>(
    alloc: Global,
    store: &S,
    i: u32,
    k: u32,
    s: &Sequent,
) -> Result<Vec<Sequent>, RuleFault>
    requires { IsKnown (S.trees store.now) s.now }
    ensures made { IfOk result (ArePremises (ExchangeL i k) (S.trees store.now) s.now (S.trees store.now)) }
    ensures fault { IfErr result (IsRuleFault (FirstAgainst (ExchangeL i k) (sequent_at (S.trees store.now) s.now))) }
{
    let f = formula_at(store, &s.ante, i)?;
    let g = formula_at(store, &s.ante, k)?;
    let mut premise = s.copy(alloc)?;
    premise.ante.set(i, g);
    premise.ante.set(k, f);
    Ok(one(alloc, premise)?)
}

/// The rule `exchangeR(j,k)`:
///
/// ```text
/// A ==> S with g at j and f at k
/// ------------------------------
/// A ==> S with f at j and g at k
/// ```
pub(crate) fn exchange_right<S: Store>(
    alloc: Global,
    store: &S,
    j: u32,
    k: u32,
    s: &Sequent,
) -> Result<Vec<Sequent>, RuleFault>
    requires { IsKnown (S.trees store.now) s.now }
    ensures made { IfOk result (ArePremises (ExchangeR j k) (S.trees store.now) s.now (S.trees store.now)) }
    ensures fault { IfErr result (IsRuleFault (FirstAgainst (ExchangeR j k) (sequent_at (S.trees store.now) s.now))) }
{
    let f = formula_at(store, &s.succ, j)?;
    let g = formula_at(store, &s.succ, k)?;
    let mut premise = s.copy(alloc)?;
    premise.succ.set(j, g);
    premise.succ.set(k, f);
    Ok(one(alloc, premise)?)
}
