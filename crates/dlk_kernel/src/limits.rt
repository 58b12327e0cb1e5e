//! Whether what a step makes is within the limits.
ghost use Rattle.std.specs.Prelude.{◌≡◌, ◌≢◌, ◌&&◌, map, All, length, nat_le, IfOk, IfErr};
ghost use Rattle.std.specs.List.{list_all};
ghost use Rattle.dlk_store.specs.Stores.{IsId, tree};
ghost use Rattle.dlk_calculus.specs.Limits.{most_formulas};
ghost use Rattle.dlk_sequent.specs.Sequents.{sequent_at, IsKnown};
ghost use Rattle.dlk_sequent.specs.Substitutions.{pairs_at, AreKnownPairs};
ghost use Rattle.dlk_kernel.specs.declared.fault.StepFault.TheVariants.{Memory};
ghost use Rattle.dlk_kernel.specs.Faults.{IsStepFault};
ghost use Rattle.dlk_kernel.specs.Kernel.{provable_at, IsKnownRow};
ghost use Rattle.dlk_kernel.specs.Limits.{is_within, is_sequent_within, is_substituted_within, has_few, AreWithin, IsPast};

use crate::fault::StepFault;
use crate::row::Row;
use dlk_calculus::{GREATEST_DEPTH, MOST_FORMULAS, MOST_NODES, Reason};
use dlk_sequent::{Pair, Sequent, Shared};
use dlk_store::{Id, Store};

/// What is counted of a tree.
#[derive(Clone, Copy, Debug, PartialEq, Eq)]
pub(crate) enum Measure {
    Nodes,
    Levels,
}

/// Whether the tree is within the limit of this measure.
fn is_within<S: Store>(store: &S, measure: Measure, id: Id) -> bool
    requires { IsId (S.trees store.now) id }
    ensures { result ≡ is_within measure (tree (S.trees store.now) id) }
{
    match measure {
        Measure::Nodes => store.size(id) <= MOST_NODES,
        Measure::Levels => store.depth(id) <= GREATEST_DEPTH,
    }
}

fn are_within<S: Store>(store: &S, measure: Measure, ids: &[Id]) -> bool
    requires { All (IsId (S.trees store.now)) ids.now }
    ensures { result ≡ list_all (is_within measure) (map (tree (S.trees store.now)) ids.now) }
{
    for id in ids {
        if !is_within(store, measure, *id) {
            return false;
        }
    }
    true
}

fn is_sequent_within<S: Store>(store: &S, measure: Measure, s: &Sequent) -> bool
    requires { IsKnown (S.trees store.now) s.now }
    ensures { result ≡ is_sequent_within measure (sequent_at (S.trees store.now) s.now) }
{
    are_within(store, measure, s.ante.as_slice()) && are_within(store, measure, s.succ.as_slice())
}

fn are_sequents_within<S: Store>(store: &S, measure: Measure, all: &[Shared<Sequent>]) -> bool
    requires { All (IsKnown (S.trees store.now)) all.now }
    ensures { result ≡ list_all (is_sequent_within measure) (map (sequent_at (S.trees store.now)) all.now) }
{
    for s in all {
        if !is_sequent_within(store, measure, s.value()) {
            return false;
        }
    }
    true
}

/// Whether neither side of the sequent has too many formulas.
fn has_few(s: &Sequent) -> bool
    ensures { result ≡ nat_le (length s.now.ante) most_formulas && nat_le (length s.now.succ) most_formulas }
{
    s.ante.as_slice().len() <= MOST_FORMULAS && s.succ.as_slice().len() <= MOST_FORMULAS
}

fn have_few<S: Store>(store: &S, all: &[Shared<Sequent>]) -> bool
    ensures { result ≡ list_all has_few (map (sequent_at (S.trees store.now)) all.now) }
{
    for s in all {
        if !has_few(s.value()) {
            return false;
        }
    }
    true
}

/// Lets sequents pass that are within the limits.
///
/// # Errors
///
/// `TooBig` where a formula has too many nodes, else `TooDeep` where one is too deep, else `SideFull` where a side has too many
/// formulas.
pub(crate) fn limit_sequents<S: Store>(store: &S, all: &[Shared<Sequent>]) -> Result<(), StepFault>
    requires { All (IsKnown (S.trees store.now)) all.now }
    ensures within { IfOk result (λ _. AreWithin (map (sequent_at (S.trees store.now)) all.now)) }
    ensures past { IfErr result (IsStepFault (IsPast (map (sequent_at (S.trees store.now)) all.now))) }
    ensures decides { IfErr result (λ why. why ≢ Memory) }
{
    if !are_sequents_within(store, Measure::Nodes, all) {
        return Err(StepFault::Refused(Reason::TooBig));
    }
    if !are_sequents_within(store, Measure::Levels, all) {
        return Err(StepFault::Refused(Reason::TooDeep));
    }
    if !have_few(store, all) {
        return Err(StepFault::Refused(Reason::SideFull));
    }
    Ok(())
}

fn are_pairs_within<S: Store>(store: &S, measure: Measure, pairs: &[Pair]) -> bool
    requires { AreKnownPairs (S.trees store.now) pairs.now }
    ensures { result ≡ list_all (λ pair. is_within measure pair.by) (pairs_at (S.trees store.now) pairs.now) }
{
    for pair in pairs {
        if !is_within(store, measure, pair.by) {
            return false;
        }
    }
    true
}

/// Whether the replacements, and the formulas of the row's conclusion and goals, are within the limit of this measure.
pub(crate) fn is_substituted_within<S: Store>(
    store: &S,
    measure: Measure,
    pairs: &[Pair],
    row: &Row,
) -> bool
    requires pairs { AreKnownPairs (S.trees store.now) pairs.now }
    requires row { IsKnownRow (S.trees store.now) row.now }
    ensures { result ≡ is_substituted_within measure (pairs_at (S.trees store.now) pairs.now) (provable_at (S.trees store.now) row.now) }
{
    are_pairs_within(store, measure, pairs)
        && is_sequent_within(store, measure, row.conclusion.value())
        && are_sequents_within(store, measure, row.goals.as_slice())
}
