//! The rules that close a goal, a function a rule. Each is drawn with its premises over its conclusion, in which A is the left side of
//! the sequent and S the right side.
ghost use Rattle.std.specs.Prelude.{◌≢◌, IfOk, IfErr};
ghost use Rattle.dlk_calculus.specs.Rules.{Close, CloseTrue, CloseFalse, FirstAgainst};
ghost use Rattle.dlk_sequent.specs.Sequents.{sequent_at, IsKnown};
ghost use Rattle.dlk_rules.specs.declared.rule.RuleFault.TheVariants.{Memory};
ghost use Rattle.dlk_rules.specs.Steps.{ArePremises, IsRuleFault};

use crate::look::{check_leaf, formula_at};
use crate::rule::RuleFault;
use dlk_sequent::Sequent;
use dlk_store::{Steps, Store};
use dlk_tree::Op;
use std::alloc::Global;
use std::sync::ledger::Ledger;

/// The rule `close(i,j)`: `NotEqual` where the two formulas aren't the same.
///
/// ```text
/// (no premises)
/// -------------------------------
/// A with f at i ==> S with f at j
/// ```
pub(crate) fn close<S: Store>(
    alloc: Global,
    store: &S,
    i: u32,
    j: u32,
    s: &Sequent,
) -> Result<Vec<Sequent>, RuleFault>
    requires { IsKnown (S.trees store.now) s.now }
    ensures made { IfOk result (ArePremises (Close i j) (S.trees store.now) s.now (S.trees store.now)) }
    ensures fault { IfErr result (IsRuleFault (FirstAgainst (Close i j) (sequent_at (S.trees store.now) s.now))) }
    ensures decides { IfErr result (λ why. why ≢ Memory) }
{
    let f = formula_at(store, &s.ante, i)?;
    let g = formula_at(store, &s.succ, j)?;
    if !store.same(f, g) {
        return Err(RuleFault::NotEqual);
    }
    Ok(Vec::new(alloc))
}

/// The rule `closeTrue(j)`:
///
/// ```text
/// (no premises)
/// ----------------------
/// A ==> S with true at j
/// ```
pub(crate) fn close_true<S: Store, L: Ledger>(
    alloc: Global,
    store: &S,
    j: u32,
    s: &Sequent,
    steps: &mut Steps<L>,
) -> Result<Vec<Sequent>, RuleFault>
    requires { IsKnown (S.trees store.now) s.now }
    ensures made { IfOk result (ArePremises (CloseTrue j) (S.trees store.now) s.now (S.trees store.now)) }
    ensures fault { IfErr result (IsRuleFault (FirstAgainst (CloseTrue j) (sequent_at (S.trees store.now) s.now))) }
    ensures decides { IfErr result (λ why. why ≢ Memory) }
{
    check_leaf(store, &s.succ, j, &Op::True, steps)?;
    Ok(Vec::new(alloc))
}

/// The rule `closeFalse(i)`:
///
/// ```text
/// (no premises)
/// -----------------------
/// A with false at i ==> S
/// ```
pub(crate) fn close_false<S: Store, L: Ledger>(
    alloc: Global,
    store: &S,
    i: u32,
    s: &Sequent,
    steps: &mut Steps<L>,
) -> Result<Vec<Sequent>, RuleFault>
    requires { IsKnown (S.trees store.now) s.now }
    ensures made { IfOk result (ArePremises (CloseFalse i) (S.trees store.now) s.now (S.trees store.now)) }
    ensures fault { IfErr result (IsRuleFault (FirstAgainst (CloseFalse i) (sequent_at (S.trees store.now) s.now))) }
    ensures decides { IfErr result (λ why. why ≢ Memory) }
{
    check_leaf(store, &s.ante, i, &Op::False, steps)?;
    Ok(Vec::new(alloc))
}
