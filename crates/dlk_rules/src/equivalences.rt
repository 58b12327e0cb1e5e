//! The rules that make or turn an equivalence, a function a rule. Each is drawn with its premise over its conclusion, in which A is the
//! left side of the sequent and S the right side.
ghost use Rattle.std.specs.Prelude.{IfOk, IfErr};
ghost use Rattle.dlk_calculus.specs.Rules.{EquivifyR, CommuteEquivL, CommuteEquivR, FirstAgainst};
ghost use Rattle.dlk_sequent.specs.Sequents.{sequent_at, IsKnown};
ghost use Rattle.dlk_rules.specs.Steps.{ArePremises, IsRuleFault};

use crate::look::kids_at;
use crate::made::{equiv, one};
use crate::rule::RuleFault;
use dlk_sequent::Sequent;
use dlk_store::{Steps, Store};
use dlk_tree::Op;
use std::alloc::Global;
use std::sync::ledger::Ledger;

/// The rule `equivifyR(j)`:
///
/// ```text
/// A ==> S with f <-> g at j
/// -------------------------
/// A ==> S with f -> g at j
/// ```
pub(crate) fn equivify_right<S: Store, L: Ledger>(
    alloc: Global,
    store: &mut S,
    j: u32,
    s: &Sequent,
    steps: &mut Steps<L>,
) -> Result<Vec<Sequent>, RuleFault>
    requires { IsKnown (S.trees store.old) s.now }
    ensures made { IfOk result (ArePremises (EquivifyR j) (S.trees store.old) s.now (S.trees store.new)) }
    ensures fault { IfErr result (IsRuleFault (FirstAgainst (EquivifyR j) (sequent_at (S.trees store.old) s.now))) }
    ensures grows { S.grows store.old store.new }
{
    let (f, g) = kids_at(store, &s.succ, j, &Op::Imply, steps)?;
    let new = equiv(alloc, store, f, g)?;
    let mut premise = s.copy(alloc)?;
    premise.succ.set(j, new);
    Ok(one(alloc, premise)?)
}

/// The rule `commuteEquivL(i)`:
///
/// ```text
/// A with g <-> f at i ==> S
/// -------------------------
/// A with f <-> g at i ==> S
/// ```
pub(crate) fn commute_left<S: Store, L: Ledger>(
    alloc: Global,
    store: &mut S,
    i: u32,
    s: &Sequent,
    steps: &mut Steps<L>,
) -> Result<Vec<Sequent>, RuleFault>
    requires { IsKnown (S.trees store.old) s.now }
    ensures made { IfOk result (ArePremises (CommuteEquivL i) (S.trees store.old) s.now (S.trees store.new)) }
    ensures fault { IfErr result (IsRuleFault (FirstAgainst (CommuteEquivL i) (sequent_at (S.trees store.old) s.now))) }
    ensures grows { S.grows store.old store.new }
{
    let (f, g) = kids_at(store, &s.ante, i, &Op::Equiv, steps)?;
    let new = equiv(alloc, store, g, f)?;
    let mut premise = s.copy(alloc)?;
    premise.ante.set(i, new);
    Ok(one(alloc, premise)?)
}

/// The rule `commuteEquivR(j)`:
///
/// ```text
/// A ==> S with g <-> f at j
/// -------------------------
/// A ==> S with f <-> g at j
/// ```
pub(crate) fn commute_right<S: Store, L: Ledger>(
    alloc: Global,
    store: &mut S,
    j: u32,
    s: &Sequent,
    steps: &mut Steps<L>,
) -> Result<Vec<Sequent>, RuleFault>
    requires { IsKnown (S.trees store.old) s.now }
    ensures made { IfOk result (ArePremises (CommuteEquivR j) (S.trees store.old) s.now (S.trees store.new)) }
    ensures fault { IfErr result (IsRuleFault (FirstAgainst (CommuteEquivR j) (sequent_at (S.trees store.old) s.now))) }
    ensures grows { S.grows store.old store.new }
{
    let (f, g) = kids_at(store, &s.succ, j, &Op::Equiv, steps)?;
    let new = equiv(alloc, store, g, f)?;
    let mut premise = s.copy(alloc)?;
    premise.succ.set(j, new);
    Ok(one(alloc, premise)?)
}
