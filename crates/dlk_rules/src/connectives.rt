//! The rules of the connectives, a function a rule. Each is drawn with its premises over its conclusion, in which A is the left side of
//! the sequent and S the right side.
//!
//! Each answers `NoPlace` where its place isn't there, and `WrongShape` where another operator stands at the top of the formula there.
ghost use Rattle.std.specs.Prelude.{IfOk, IfErr};
ghost use Rattle.dlk_calculus.specs.Rules.{NotL, NotR, AndL, AndR, OrL, OrR, ImplyL, ImplyR, EquivL, EquivR, FirstAgainst};
ghost use Rattle.dlk_sequent.specs.Sequents.{sequent_at, IsKnown};
ghost use Rattle.dlk_rules.specs.Steps.{ArePremises, IsRuleFault};

use crate::look::{kid_at, kids_at};
use crate::made::{both_ways, one, two};
use crate::rule::RuleFault;
use dlk_sequent::Sequent;
use dlk_store::{Steps, Store};
use dlk_tree::Op;
use std::alloc::Global;
use std::sync::ledger::Ledger;

/// The rule `notL(i)`:
///
/// ```text
/// A without !f ==> S, f
/// ---------------------
/// A with !f at i ==> S
/// ```
pub(crate) fn not_left<S: Store, L: Ledger>(
    alloc: Global,
    store: &S,
    i: u32,
    s: &Sequent,
    steps: &mut Steps<L>,
) -> Result<Vec<Sequent>, RuleFault>
    requires { IsKnown (S.trees store.now) s.now }
    ensures made { IfOk result (ArePremises (NotL i) (S.trees store.now) s.now (S.trees store.now)) }
    ensures fault { IfErr result (IsRuleFault (FirstAgainst (NotL i) (sequent_at (S.trees store.now) s.now))) }
{
    let f = kid_at(store, &s.ante, i, &Op::Not, steps)?;
    let mut premise = s.copy(alloc)?;
    premise.ante.remove(i);
    premise.succ.push(f)?;
    Ok(one(alloc, premise)?)
}

/// The rule `notR(j)`:
///
/// ```text
/// A, f ==> S without !f
/// ---------------------
/// A ==> S with !f at j
/// ```
pub(crate) fn not_right<S: Store, L: Ledger>(
    alloc: Global,
    store: &S,
    j: u32,
    s: &Sequent,
    steps: &mut Steps<L>,
) -> Result<Vec<Sequent>, RuleFault>
    requires { IsKnown (S.trees store.now) s.now }
    ensures made { IfOk result (ArePremises (NotR j) (S.trees store.now) s.now (S.trees store.now)) }
    ensures fault { IfErr result (IsRuleFault (FirstAgainst (NotR j) (sequent_at (S.trees store.now) s.now))) }
{
    let f = kid_at(store, &s.succ, j, &Op::Not, steps)?;
    let mut premise = s.copy(alloc)?;
    premise.succ.remove(j);
    premise.ante.push(f)?;
    Ok(one(alloc, premise)?)
}

/// The rule `andL(i)`:
///
/// ```text
/// A with f at i, g ==> S
/// -----------------------
/// A with f & g at i ==> S
/// ```
pub(crate) fn and_left<S: Store, L: Ledger>(
    alloc: Global,
    store: &S,
    i: u32,
    s: &Sequent,
    steps: &mut Steps<L>,
) -> Result<Vec<Sequent>, RuleFault>
    requires { IsKnown (S.trees store.now) s.now }
    ensures made { IfOk result (ArePremises (AndL i) (S.trees store.now) s.now (S.trees store.now)) }
    ensures fault { IfErr result (IsRuleFault (FirstAgainst (AndL i) (sequent_at (S.trees store.now) s.now))) }
{
    let (f, g) = kids_at(store, &s.ante, i, &Op::And, steps)?;
    let mut premise = s.copy(alloc)?;
    premise.ante.set(i, f);
    premise.ante.push(g)?;
    Ok(one(alloc, premise)?)
}

/// The rule `andR(j)`:
///
/// ```text
/// A ==> S with f at j     A ==> S with g at j
/// -------------------------------------------
/// A ==> S with f & g at j
/// ```
pub(crate) fn and_right<S: Store, L: Ledger>(
    alloc: Global,
    store: &S,
    j: u32,
    s: &Sequent,
    steps: &mut Steps<L>,
) -> Result<Vec<Sequent>, RuleFault>
    requires { IsKnown (S.trees store.now) s.now }
    ensures made { IfOk result (ArePremises (AndR j) (S.trees store.now) s.now (S.trees store.now)) }
    ensures fault { IfErr result (IsRuleFault (FirstAgainst (AndR j) (sequent_at (S.trees store.now) s.now))) }
{
    let (f, g) = kids_at(store, &s.succ, j, &Op::And, steps)?;
    let mut first = s.copy(alloc)?;
    first.succ.set(j, f);
    let mut second = s.copy(alloc)?;
    second.succ.set(j, g);
    Ok(two(alloc, first, second)?)
}

/// The rule `orL(i)`:
///
/// ```text
/// A with f at i ==> S     A with g at i ==> S
/// -------------------------------------------
/// A with f | g at i ==> S
/// ```
pub(crate) fn or_left<S: Store, L: Ledger>(
    alloc: Global,
    store: &S,
    i: u32,
    s: &Sequent,
    steps: &mut Steps<L>,
) -> Result<Vec<Sequent>, RuleFault>
    requires { IsKnown (S.trees store.now) s.now }
    ensures made { IfOk result (ArePremises (OrL i) (S.trees store.now) s.now (S.trees store.now)) }
    ensures fault { IfErr result (IsRuleFault (FirstAgainst (OrL i) (sequent_at (S.trees store.now) s.now))) }
{
    let (f, g) = kids_at(store, &s.ante, i, &Op::Or, steps)?;
    let mut first = s.copy(alloc)?;
    first.ante.set(i, f);
    let mut second = s.copy(alloc)?;
    second.ante.set(i, g);
    Ok(two(alloc, first, second)?)
}

/// The rule `orR(j)`:
///
/// ```text
/// A ==> S with f at j, g
/// -----------------------
/// A ==> S with f | g at j
/// ```
pub(crate) fn or_right<S: Store, L: Ledger>(
    alloc: Global,
    store: &S,
    j: u32,
    s: &Sequent,
    steps: &mut Steps<L>,
) -> Result<Vec<Sequent>, RuleFault>
    requires { IsKnown (S.trees store.now) s.now }
    ensures made { IfOk result (ArePremises (OrR j) (S.trees store.now) s.now (S.trees store.now)) }
    ensures fault { IfErr result (IsRuleFault (FirstAgainst (OrR j) (sequent_at (S.trees store.now) s.now))) }
{
    let (f, g) = kids_at(store, &s.succ, j, &Op::Or, steps)?;
    let mut premise = s.copy(alloc)?;
    premise.succ.set(j, f);
    premise.succ.push(g)?;
    Ok(one(alloc, premise)?)
}

/// The rule `implyL(i)`:
///
/// ```text
/// A without f -> g ==> S, f     A with g at i ==> S
/// -------------------------------------------------
/// A with f -> g at i ==> S
/// ```
pub(crate) fn imply_left<S: Store, L: Ledger>(
    alloc: Global,
    store: &S,
    i: u32,
    s: &Sequent,
    steps: &mut Steps<L>,
) -> Result<Vec<Sequent>, RuleFault>
    requires { IsKnown (S.trees store.now) s.now }
    ensures made { IfOk result (ArePremises (ImplyL i) (S.trees store.now) s.now (S.trees store.now)) }
    ensures fault { IfErr result (IsRuleFault (FirstAgainst (ImplyL i) (sequent_at (S.trees store.now) s.now))) }
{
    let (f, g) = kids_at(store, &s.ante, i, &Op::Imply, steps)?;
    let mut first = s.copy(alloc)?;
    first.ante.remove(i);
    first.succ.push(f)?;
    let mut second = s.copy(alloc)?;
    second.ante.set(i, g);
    Ok(two(alloc, first, second)?)
}

/// The rule `implyR(j)`:
///
/// ```text
/// A, f ==> S with g at j
/// ------------------------
/// A ==> S with f -> g at j
/// ```
pub(crate) fn imply_right<S: Store, L: Ledger>(
    alloc: Global,
    store: &S,
    j: u32,
    s: &Sequent,
    steps: &mut Steps<L>,
) -> Result<Vec<Sequent>, RuleFault>
    requires { IsKnown (S.trees store.now) s.now }
    ensures made { IfOk result (ArePremises (ImplyR j) (S.trees store.now) s.now (S.trees store.now)) }
    ensures fault { IfErr result (IsRuleFault (FirstAgainst (ImplyR j) (sequent_at (S.trees store.now) s.now))) }
{
    let (f, g) = kids_at(store, &s.succ, j, &Op::Imply, steps)?;
    let mut premise = s.copy(alloc)?;
    premise.succ.set(j, g);
    premise.ante.push(f)?;
    Ok(one(alloc, premise)?)
}

/// The rule `equivL(i)`:
///
/// ```text
/// A with f -> g at i, g -> f ==> S
/// --------------------------------
/// A with f <-> g at i ==> S
/// ```
pub(crate) fn equiv_left<S: Store, L: Ledger>(
    alloc: Global,
    store: &mut S,
    i: u32,
    s: &Sequent,
    steps: &mut Steps<L>,
) -> Result<Vec<Sequent>, RuleFault>
    requires { IsKnown (S.trees store.old) s.now }
    ensures made { IfOk result (ArePremises (EquivL i) (S.trees store.old) s.now (S.trees store.new)) }
    ensures fault { IfErr result (IsRuleFault (FirstAgainst (EquivL i) (sequent_at (S.trees store.old) s.now))) }
    ensures grows { S.grows store.old store.new }
{
    let (f, g) = kids_at(store, &s.ante, i, &Op::Equiv, steps)?;
    let (there, back) = both_ways(alloc, store, f, g)?;
    let mut premise = s.copy(alloc)?;
    premise.ante.set(i, there);
    premise.ante.push(back)?;
    Ok(one(alloc, premise)?)
}

/// The rule `equivR(j)`:
///
/// ```text
/// A ==> S with f -> g at j     A ==> S with g -> f at j
/// -----------------------------------------------------
/// A ==> S with f <-> g at j
/// ```
pub(crate) fn equiv_right<S: Store, L: Ledger>(
    alloc: Global,
    store: &mut S,
    j: u32,
    s: &Sequent,
    steps: &mut Steps<L>,
) -> Result<Vec<Sequent>, RuleFault>
    requires { IsKnown (S.trees store.old) s.now }
    ensures made { IfOk result (ArePremises (EquivR j) (S.trees store.old) s.now (S.trees store.new)) }
    ensures fault { IfErr result (IsRuleFault (FirstAgainst (EquivR j) (sequent_at (S.trees store.old) s.now))) }
    ensures grows { S.grows store.old store.new }
{
    let (f, g) = kids_at(store, &s.succ, j, &Op::Equiv, steps)?;
    let (there, back) = both_ways(alloc, store, f, g)?;
    let mut first = s.copy(alloc)?;
    first.succ.set(j, there);
    let mut second = s.copy(alloc)?;
    second.succ.set(j, back);
    Ok(two(alloc, first, second)?)
}
