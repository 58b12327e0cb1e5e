//! What a substitution makes of a row.
ghost use Rattle.std.specs.Prelude.{◌≡◌, ◌↔◌, ◌+◌, ◌*◌, ◌<◌, ◌≤◌, List, length, map, All, IsTrue, Err, IfOk, IfErr};
ghost use Rattle.std.specs.List.{sum_by};
ghost use Rattle.dlk_tree.specs.Trees.{Tree};
ghost use Rattle.dlk_store.specs.Stores.{IsId, tree};
ghost use Rattle.dlk_calculus.specs.declared.reason.Reason.TheVariants.{IllSubst};
ghost use Rattle.dlk_calculus.specs.Pairs.{IsFreeIn, IsWellFormed};
ghost use Rattle.dlk_calculus.specs.Sequents.{Sequent as TreeSequent};
ghost use Rattle.dlk_calculus.specs.Provables.{Provable, SubstEach, SubstSequent, SubstSequents, Substitutes};
ghost use Rattle.dlk_sequent.specs.Sequents.{sequent_at, IsKnown};
ghost use Rattle.dlk_sequent.specs.Substitutions.{pairs_at, AreKnownPairs, IsMadeOver};
ghost use Rattle.dlk_sequent.specs.declared.fault.ApplyFault.TheVariants.{NotAdmissible};
ghost use Rattle.dlk_kernel.specs.Faults.{IsStepFault};
ghost use Rattle.dlk_kernel.specs.Kernel.{provable_at, IsKnownRow};
ghost use Rattle.dlk_kernel.specs.Looks.{sequent_looks, provable_looks};
ghost use Rattle.dlk_memo.specs.Looks.{most_looks};

use crate::fault::StepFault;
use crate::goals::Goals;
use crate::row::Row;
use dlk_calculus::Reason;
use dlk_memo::{ApplyFault, apply_of};
use dlk_sequent::{Listed, Pair, Sequent, Shared, SubstFault, SubstOf};
use dlk_store::{Id, Steps, Store};
use std::alloc::Global;
use std::sync::ledger::Ledger;

/// The substitution of the pairs.
pub(crate) fn substitution<'a, S: Store, L: Ledger>(
    alloc: Global,
    store: &S,
    pairs: &'a [Pair],
    steps: &mut Steps<L>,
) -> Result<SubstOf<'a>, StepFault>
    requires { AreKnownPairs (S.trees store.now) pairs.now }
    ensures pairs { IfOk result (λ sigma. sigma.pairs ≡ pairs.now) }
    ensures made { IfOk result (IsMadeOver (S.trees store.now)) }
    ensures ill { IfErr result (IsStepFault (λ why. (why ≡ IllSubst) × (¬ IsWellFormed (pairs_at (S.trees store.now) pairs.now)))) }
    ensures looks { steps.new ≤ steps.old + 2 * length pairs.now }
{
    match SubstOf::new(alloc, store, pairs, steps) {
        Ok(sigma) => Ok(sigma),
        Err(SubstFault::Ill { .. }) => Err(StepFault::Refused(Reason::IllSubst)),
        Err(SubstFault::Memory) => Err(StepFault::Memory),
    }
}

/// What the substitution makes of the trees.
///
/// # Errors
///
/// `NotAdmissible` exactly where it makes nothing of one of them. `Memory` for want of memory.
fn subst_ids<S: Store, L: Ledger>(
    alloc: Global,
    store: &mut S,
    sigma: &SubstOf<'_>,
    ids: &[Id],
    steps: &mut Steps<L>,
) -> Result<Listed<Id>, ApplyFault>
    requires sigma { IsMadeOver (S.trees store.old) sigma.now }
    requires known { All (IsId (S.trees store.old)) ids.now }
    ensures made { IfOk result (λ made.
        SubstEach (pairs_at (S.trees store.old) sigma.now.pairs) (map (tree (S.trees store.old)) ids.now) (map (tree (S.trees store.new)) made)) }
    ensures known { IfOk result (All (IsId (S.trees store.new))) }
    ensures none { result ≡ Err NotAdmissible → (made : List Tree) →
        ¬ SubstEach (pairs_at (S.trees store.old) sigma.now.pairs) (map (tree (S.trees store.old)) ids.now) made }
    ensures grows { S.grows store.old store.new }
    ensures looks { IsTrue S.unique →
        steps.new ≤ steps.old + sum_by (most_looks (pairs_at (S.trees store.old) sigma.now.pairs)) (map (tree (S.trees store.old)) ids.now) }
{
    let mut made = Listed::new(alloc);
    for id in ids {
        let substituted = apply_of(alloc, store, sigma, *id, steps)?;
        made.push(substituted)?;
    }
    Ok(made)
}

/// What the substitution makes of the sequent's formulas.
///
/// # Errors
///
/// As `subst_ids`.
fn subst_sequent<S: Store, L: Ledger>(
    alloc: Global,
    store: &mut S,
    sigma: &SubstOf<'_>,
    s: &Sequent,
    steps: &mut Steps<L>,
) -> Result<Sequent, ApplyFault>
    requires sigma { IsMadeOver (S.trees store.old) sigma.now }
    requires known { IsKnown (S.trees store.old) s.now }
    ensures made { IfOk result (λ made.
        SubstSequent (pairs_at (S.trees store.old) sigma.now.pairs) (sequent_at (S.trees store.old) s.now) (sequent_at (S.trees store.new) made)) }
    ensures known { IfOk result (IsKnown (S.trees store.new)) }
    ensures none { result ≡ Err NotAdmissible → (made : TreeSequent) →
        ¬ SubstSequent (pairs_at (S.trees store.old) sigma.now.pairs) (sequent_at (S.trees store.old) s.now) made }
    ensures grows { S.grows store.old store.new }
    ensures looks { IsTrue S.unique →
        steps.new ≤ steps.old + sequent_looks (pairs_at (S.trees store.old) sigma.now.pairs) (sequent_at (S.trees store.old) s.now) }
{
    let ante = subst_ids(alloc, store, sigma, s.ante.as_slice(), steps)?;
    let succ = subst_ids(alloc, store, sigma, s.succ.as_slice(), steps)?;
    Ok(Sequent { ante, succ })
}

/// What the substitution makes of the formulas of the sequents.
///
/// # Errors
///
/// As `subst_ids`.
fn subst_sequents<S: Store, L: Ledger>(
    alloc: Global,
    store: &mut S,
    sigma: &SubstOf<'_>,
    all: &[Shared<Sequent>],
    steps: &mut Steps<L>,
) -> Result<Goals, ApplyFault>
    requires sigma { IsMadeOver (S.trees store.old) sigma.now }
    requires known { All (IsKnown (S.trees store.old)) all.now }
    ensures made { IfOk result (λ made. SubstSequents (pairs_at (S.trees store.old) sigma.now.pairs) (map (sequent_at (S.trees store.old)) all.now)
        (map (sequent_at (S.trees store.new)) made)) }
    ensures known { IfOk result (All (IsKnown (S.trees store.new))) }
    ensures none { result ≡ Err NotAdmissible → (made : List TreeSequent) →
        ¬ SubstSequents (pairs_at (S.trees store.old) sigma.now.pairs) (map (sequent_at (S.trees store.old)) all.now) made }
    ensures grows { S.grows store.old store.new }
    ensures looks { IsTrue S.unique →
        steps.new ≤ steps.old + sum_by (sequent_looks (pairs_at (S.trees store.old) sigma.now.pairs)) (map (sequent_at (S.trees store.old)) all.now) }
{
    let mut made = Goals::new();
    for s in all {
        let substituted = subst_sequent(alloc, store, sigma, s.value(), steps)?;
        let substituted = Shared::new(alloc, substituted)?;
        made = made.with(alloc, substituted)?;
    }
    Ok(made)
}

/// What the substitution makes of the row's conclusion and goals, with its leaves.
///
/// # Errors
///
/// As `subst_ids`.
pub(crate) fn subst_row<S: Store, L: Ledger>(
    alloc: Global,
    store: &mut S,
    sigma: &SubstOf<'_>,
    row: &Row,
    steps: &mut Steps<L>,
) -> Result<Row, ApplyFault>
    requires sigma { IsMadeOver (S.trees store.old) sigma.now }
    requires known { IsKnownRow (S.trees store.old) row.now }
    ensures made { IfOk result (λ made.
        Substitutes (pairs_at (S.trees store.old) sigma.now.pairs) (provable_at (S.trees store.old) row.now) (provable_at (S.trees store.new) made)) }
    ensures known { IfOk result (IsKnownRow (S.trees store.new)) }
    ensures none { result ≡ Err NotAdmissible → (made : Provable) →
        ¬ Substitutes (pairs_at (S.trees store.old) sigma.now.pairs) (provable_at (S.trees store.old) row.now) made }
    ensures grows { S.grows store.old store.new }
    ensures looks { IsTrue S.unique →
        steps.new ≤ steps.old + provable_looks (pairs_at (S.trees store.old) sigma.now.pairs) (provable_at (S.trees store.old) row.now) }
{
    let conclusion = subst_sequent(alloc, store, sigma, row.conclusion.value(), steps)?;
    let goals = subst_sequents(alloc, store, sigma, row.goals.as_slice(), steps)?;
    let conclusion = Shared::new(alloc, conclusion)?;
    let leaves = row.leaves.share()?;
    Ok(Row {
        conclusion,
        goals,
        leaves,
    })
}

/// Whether the row has a goal, and some variable is free in what replaces a function or a predicate.
pub(crate) fn is_free_over_goals(sigma: &SubstOf<'_>, row: &Row) -> bool
    ensures { (trees : List Tree) → IsMadeOver trees sigma.now → (IsTrue result ↔ (IsFreeIn (pairs_at trees sigma.now.pairs) × (0 < length row.now.goals))) }
{
    sigma.free() && !row.goals.as_slice().is_empty()
}
