//! Uniform substitution.
ghost use Rattle.std.specs.Prelude.{◌≡◌, ◌<◌, IfOk, All, length, Err};
ghost use Rattle.dlk_tree.specs.Table.{Fits};
ghost use Rattle.dlk_tree.specs.Trees.{sort, WellMade};
ghost use Rattle.dlk_tree.specs.Statics.{all};
ghost use Rattle.dlk_tree.specs.declared.op.Sort.TheVariants.{Formula};
ghost use Rattle.dlk_store.specs.Stores.{IsId, tree, kid_trees, sorts_at};
ghost use Rattle.dlk_calculus.specs.Kids.{first};
ghost use Rattle.dlk_calculus.specs.Pairs.{IsWellFormed};
ghost use Rattle.dlk_calculus.specs.Plug.{filled};
ghost use Rattle.dlk_calculus.specs.Subst.{IsAdmissible, SubstAt, Subst as IsSubst};
ghost use Rattle.dlk_sequent.specs.Substitutions.{pairs_at, AreKnownPairs, IsMadeOver};
ghost use Rattle.dlk_subst.specs.Results.{IsResult, HasNone};
ghost use Rattle.dlk_sequent.specs.declared.fault.ApplyFault.TheVariants.{NotAdmissible};

use crate::fill::fill;
use crate::plug::plug;
use dlk_sequent::{ApplyFault, Pair, Subst};
use dlk_store::{Id, Steps, Store, copied};
use dlk_subst::{Effect, Scope, effect_at, is_admissible, keep_admissible, splice_at};
use dlk_tree::Op;
use std::alloc::Global;
use std::sync::ledger::Ledger;

/// The replacement of a predicational, with the new kid in place of each `_`, where every variable is admissible for the kids of
/// before.
fn fill_admissible<S: Store, L: Ledger>(
    alloc: Global,
    store: &mut S,
    pairs: &[Pair],
    by: Id,
    old: &[Id],
    new: &[Id],
    steps: &mut Steps<L>,
) -> Result<Id, ApplyFault>
    requires pairs { AreKnownPairs (S.trees store.old) pairs.now }
    requires by { IsId (S.trees store.old) by }
    requires old { All (IsId (S.trees store.old)) old.now }
    requires new { All (IsId (S.trees store.old)) new.now }
    requires some { 0 < length new.now }
    requires formula { sort (first (kid_trees (S.trees store.old) new.now)) ≡ Formula }
    ensures ok { IfOk result (IsResult (λ t. IsAdmissible (pairs_at (S.trees store.old) pairs.now) all (kid_trees (S.trees store.old) old.now) ×
        (t ≡ filled (first (kid_trees (S.trees store.old) new.now)) (tree (S.trees store.old) by))) (S.trees store.new)) }
    ensures none { result ≡ Err NotAdmissible →
        HasNone (λ t. IsAdmissible (pairs_at (S.trees store.old) pairs.now) all (kid_trees (S.trees store.old) old.now) ×
        (t ≡ filled (first (kid_trees (S.trees store.old) new.now)) (tree (S.trees store.old) by))) }
    ensures owed { ¬ IsAdmissible (pairs_at (S.trees store.old) pairs.now) all (kid_trees (S.trees store.old) old.now) → result ≡ Err NotAdmissible }
    ensures grows { S.grows store.old store.new }
{
    if !is_admissible(store, pairs, &Scope::Every, old) {
        return Err(ApplyFault::NotAdmissible);
    }
    Ok(fill(alloc, store, by, new[0], steps)?)
}

/// What the substitution makes of the operator over old kids, of which it made the new ones.
fn subst_at<S: Store, L: Ledger>(
    alloc: Global,
    store: &mut S,
    pairs: &[Pair],
    op: &Op,
    old: &[Id],
    new: &[Id],
    steps: &mut Steps<L>,
) -> Result<Id, ApplyFault>
    requires pairs { AreKnownPairs (S.trees store.old) pairs.now }
    requires old { All (IsId (S.trees store.old)) old.now }
    requires new { All (IsId (S.trees store.old)) new.now }
    requires fits { Fits op.now (sorts_at (S.trees store.old) new.now) }
    ensures ok { IfOk result (IsResult (SubstAt (pairs_at (S.trees store.old) pairs.now) op.now (kid_trees (S.trees store.old) old.now)
        (kid_trees (S.trees store.old) new.now)) (S.trees store.new)) }
    ensures none { result ≡ Err NotAdmissible → HasNone (λ t. SubstAt (pairs_at (S.trees store.old) pairs.now) op.now (kid_trees (S.trees store.old) old.now)
        (kid_trees (S.trees store.old) new.now) t × WellMade t) }
    ensures grows { S.grows store.old store.new }
{
    if let Op::System(items) = op {
        return splice_at(alloc, store, pairs, items.items(), old, new, steps);
    }
    match effect_at(pairs, op) {
        Effect::Gives(by) => Ok(by),
        Effect::Plugs(by) => plug(alloc, store, new, by, steps),
        Effect::Fills(by) => fill_admissible(alloc, store, pairs, by, old, new, steps),
        Effect::Stays => keep_admissible(alloc, store, pairs, op, old, new),
    }
}

/// What these pairs make of the tree.
fn substitute<S: Store, L: Ledger>(
    alloc: Global,
    store: &mut S,
    pairs: &[Pair],
    id: Id,
    steps: &mut Steps<L>,
) -> Result<Id, ApplyFault>
    requires pairs { AreKnownPairs (S.trees store.old) pairs.now }
    requires well_formed { IsWellFormed (pairs_at (S.trees store.old) pairs.now) }
    requires known { IsId (S.trees store.old) id }
    ensures ok { IfOk result (IsResult (IsSubst (pairs_at (S.trees store.old) pairs.now) (tree (S.trees store.old) id)) (S.trees store.new)) }
    ensures none { result ≡ Err NotAdmissible → HasNone (IsSubst (pairs_at (S.trees store.old) pairs.now) (tree (S.trees store.old) id)) }
    ensures grows { S.grows store.old store.new }
{
    let (op, old) = copied(alloc, store, id, steps)?;
    let mut new = Vec::new(alloc);
    for kid in &old {
        let made = substitute(alloc, store, pairs, *kid, steps)?;
        new.push(made)?;
    }
    subst_at(
        alloc,
        store,
        pairs,
        &op,
        old.as_slice(),
        new.as_slice(),
        steps,
    )
}

/// The tree that a substitution makes of this one (Platzer 2017, section on uniform substitution). The substitution was made
/// over this store.
///
/// # Errors
///
/// - `NotAdmissible`: exactly where it makes none, since a variable would be captured, or a system would evolve a variable twice
///   or have more than 64 items.
/// - `Memory`: memory ran out.
///
/// The store may have more nodes then.
pub fn apply<S: Store, L: Ledger>(
    alloc: Global,
    store: &mut S,
    sigma: &Subst,
    id: Id,
    steps: &mut Steps<L>,
) -> Result<Id, ApplyFault>
    requires made { IsMadeOver (S.trees store.old) sigma.now }
    requires known { IsId (S.trees store.old) id }
    ensures ok { IfOk result (IsResult (IsSubst (pairs_at (S.trees store.old) sigma.now.pairs) (tree (S.trees store.old) id)) (S.trees store.new)) }
    ensures none { result ≡ Err NotAdmissible → HasNone (IsSubst (pairs_at (S.trees store.old) sigma.now.pairs) (tree (S.trees store.old) id)) }
    ensures grows { S.grows store.old store.new }
{
    substitute(alloc, store, sigma.pairs(), id, steps)
}
