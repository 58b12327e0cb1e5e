//! Uniform substitution.
ghost use Rattle.std.specs.Prelude.{◌≡◌, ◌+◌, ◌≤◌, IsTrue, IfOk, Err};
ghost use Rattle.dlk_store.specs.Stores.{IsId, tree};
ghost use Rattle.dlk_calculus.specs.Subst.{Subst as IsSubst};
ghost use Rattle.dlk_sequent.specs.Substitutions.{pairs_at, IsMadeOver};
ghost use Rattle.dlk_subst.specs.Results.{IsResult, HasNone};
ghost use Rattle.dlk_memo.specs.Looks.{most_looks};
ghost use Rattle.dlk_sequent.specs.declared.fault.ApplyFault.TheVariants.{NotAdmissible};

use crate::substituting::Substituting;
use crate::walk::run;
use dlk_sequent::{ApplyFault, Subst, SubstOf};
use dlk_store::{Id, Steps, Store};
use std::alloc::Global;
use std::sync::ledger::Ledger;

/// The tree that a substitution makes of this one (Platzer 2017, section on uniform substitution). The substitution was made
/// over this store.
///
/// Each subtree is looked at once, and each subtree of a replacement at most once for each application of its symbol that is
/// unlike the others: in a store that keeps each tree once this takes at most `n * (1 + m)` steps for `n` unlike subtrees of the
/// tree and `m` of all replacements, whatever is answered.
///
/// # Errors
///
/// - `NotAdmissible`: exactly where it makes none, since a variable would be captured, or a system would evolve a variable twice
///   or have more than 64 items.
/// - `Memory`: memory ran out.
///
/// The store may have more nodes then.
pub fn apply<S: Store, L: Ledger>(
    alloc: Global,
    store: &mut S,
    sigma: &Subst,
    id: Id,
    steps: &mut Steps<L>,
) -> Result<Id, ApplyFault>
    requires made { IsMadeOver (S.trees store.old) sigma.now }
    requires known { IsId (S.trees store.old) id }
    ensures ok { IfOk result (IsResult (IsSubst (pairs_at (S.trees store.old) sigma.now.pairs) (tree (S.trees store.old) id)) (S.trees store.new)) }
    ensures none { result ≡ Err NotAdmissible → HasNone (IsSubst (pairs_at (S.trees store.old) sigma.now.pairs) (tree (S.trees store.old) id)) }
    ensures grows { S.grows store.old store.new }
    ensures cost { IsTrue S.unique → steps.new ≤ steps.old + most_looks (pairs_at (S.trees store.old) sigma.now.pairs) (tree (S.trees store.old) id) }
{
    let substituting = Substituting {
        pairs: sigma.pairs(),
    };
    run(alloc, store, &substituting, id, steps)
}

/// The same for a substitution whose pairs stand elsewhere.
///
/// # Errors
///
/// As `apply`.
pub fn apply_of<S: Store, L: Ledger>(
    alloc: Global,
    store: &mut S,
    sigma: &SubstOf<'_>,
    id: Id,
    steps: &mut Steps<L>,
) -> Result<Id, ApplyFault>
    requires made { IsMadeOver (S.trees store.old) sigma.now }
    requires known { IsId (S.trees store.old) id }
    ensures ok { IfOk result (IsResult (IsSubst (pairs_at (S.trees store.old) sigma.now.pairs) (tree (S.trees store.old) id)) (S.trees store.new)) }
    ensures none { result ≡ Err NotAdmissible → HasNone (IsSubst (pairs_at (S.trees store.old) sigma.now.pairs) (tree (S.trees store.old) id)) }
    ensures grows { S.grows store.old store.new }
    ensures cost { IsTrue S.unique → steps.new ≤ steps.old + most_looks (pairs_at (S.trees store.old) sigma.now.pairs) (tree (S.trees store.old) id) }
{
    let pairs = sigma.pairs();
    run(alloc, store, &Substituting { pairs }, id, steps)
}
