//! Replacements in place of symbols.
ghost use Rattle.std.specs.Prelude.{◌≡◌, ◌+◌, ◌≤◌, ◌<◌, IsTrue, IfOk, All, Err, List, length};
ghost use Rattle.dlk_tree.specs.Trees.{sort};
ghost use Rattle.dlk_tree.specs.Statics.{all};
ghost use Rattle.dlk_tree.specs.declared.op.Sort.TheVariants.{Formula};
ghost use Rattle.dlk_store.specs.Stores.{IsId, tree, kid_trees};
ghost use Rattle.dlk_calculus.specs.Kids.{first};
ghost use Rattle.dlk_calculus.specs.Pairs.{Pair as TreePair};
ghost use Rattle.dlk_calculus.specs.Plug.{Plug, filled};
ghost use Rattle.dlk_calculus.specs.Subst.{IsAdmissible, Subst, SubstAll};
ghost use Rattle.dlk_sequent.specs.Substitutions.{pairs_at, AreKnownPairs};
ghost use Rattle.dlk_subst.specs.Results.{IsResult, HasNone, args_at};
ghost use Rattle.dlk_subst.specs.Rows.{SubstRow, substituting};
ghost use Rattle.dlk_memo.specs.Binders.{AllowsBelow};
ghost use Rattle.dlk_memo.specs.Tasks.{items_of, IsTaskAt};
ghost use Rattle.dlk_memo.specs.Looks.{subtrees, replacement_subtrees, distinct_count};
ghost use Rattle.dlk_memo.specs.Rules.{AreReadyArgs, AreReadyPairs, ready_pairs_kept, pairs_same, subst_allows, any_occurs, may_occur};
ghost use Rattle.dlk_sequent.specs.declared.fault.ApplyFault.TheVariants.{NotAdmissible};

use crate::binder::quantified;
use crate::filling::Filling;
use crate::plugging::Plugging;
use crate::rule::Rule;
use crate::walk::run;
use dlk_sequent::{ApplyFault, Pair};
use dlk_store::{Id, Steps, Store};
use dlk_subst::{
    Captures, Effect, Scope, captures_of, effect_at, is_admissible, keep_like, splice_at,
};
use dlk_tree::{Items, Op};
use std::alloc::{AllocError, Global};
use std::sync::ledger::Ledger;

/// The replacements of these pairs come in place of their symbols.
#[derive(Drop)]
pub(crate) struct Substituting<'a> {
    pub pairs: &'a [Pair],
}

/// What a substitution does at a node.
#[derive(Drop)]
pub(crate) struct Task {
    /// The items of a system, which are spliced.
    pub items: Option<Items>,
    pub effect: Effect,
    pub captures: Captures,
}

/// The items, if the operator is a system.
fn items_of(op: &Op) -> Result<Option<Items>, AllocError>
    ensures { IfOk result (λ i. i ≡ items_of op.now) }
{
    match op {
        Op::System(items) => Ok(Some(items.clone()?)),
        _ => Ok(None),
    }
}

/// So many pairs are asked for at most, and in trees of so many nodes at least: then asking costs little beside a walk.
const MOST_ASKED: usize = 4;

const LEAST_SIZE: u32 = 16;

/// Whether the symbol of a pair occurs in the tree.
fn any_occurs<S: Store>(store: &S, pairs: &[Pair], id: Id) -> bool
    requires { IsId (S.trees store.now) id }
    ensures { result ≡ any_occurs (pairs_at (S.trees store.now) pairs.now) (tree (S.trees store.now) id) }
{
    for pair in pairs {
        if store.mentions(id, &pair.sym) {
            return true;
        }
    }
    false
}

/// Whether the symbol of a pair may occur in the tree, which is said to be so where asking would cost too much.
fn may_occur<S: Store>(store: &S, pairs: &[Pair], id: Id) -> bool
    requires { IsId (S.trees store.now) id }
    ensures { result ≡ may_occur (pairs_at (S.trees store.now) pairs.now) (tree (S.trees store.now) id) }
{
    pairs.len() > MOST_ASKED || store.size(id) < LEAST_SIZE || any_occurs(store, pairs, id)
}

/// The replacement of a predicational, with the new kid in place of each `_`, where every variable is admissible for the kids of
/// before.
fn fill_admissible<S: Store, L: Ledger>(
    alloc: Global,
    store: &mut S,
    pairs: &[Pair],
    by: Id,
    old: &[Id],
    new: &[Id],
    steps: &mut Steps<L>,
) -> Result<Id, ApplyFault>
    requires pairs { AreKnownPairs (S.trees store.old) pairs.now }
    requires by { IsId (S.trees store.old) by }
    requires old { All (IsId (S.trees store.old)) old.now }
    requires new { All (IsId (S.trees store.old)) new.now }
    requires some { 0 < length new.now }
    requires formula { sort (first (kid_trees (S.trees store.old) new.now)) ≡ Formula }
    ensures ok { IfOk result (IsResult (λ t. IsAdmissible (pairs_at (S.trees store.old) pairs.now) all (kid_trees (S.trees store.old) old.now) ×
        (t ≡ filled (first (kid_trees (S.trees store.old) new.now)) (tree (S.trees store.old) by))) (S.trees store.new)) }
    ensures none { result ≡ Err NotAdmissible →
        HasNone (λ t. IsAdmissible (pairs_at (S.trees store.old) pairs.now) all (kid_trees (S.trees store.old) old.now) ×
        (t ≡ filled (first (kid_trees (S.trees store.old) new.now)) (tree (S.trees store.old) by))) }
    ensures owed { ¬ IsAdmissible (pairs_at (S.trees store.old) pairs.now) all (kid_trees (S.trees store.old) old.now) → result ≡ Err NotAdmissible }
    ensures grows { S.grows store.old store.new }
    ensures cost { IsTrue S.unique → steps.new ≤ steps.old + distinct_count (subtrees (tree (S.trees store.old) by)) }
{
    if !is_admissible(store, pairs, &Scope::Every, old) {
        return Err(ApplyFault::NotAdmissible);
    }
    let filling = Filling { formula: new[0] };
    run(alloc, store, &filling, by, steps)
}

/// The replacement of a function or predicate, with these arguments in place of its dots.
fn plug_in<S: Store, L: Ledger>(
    alloc: Global,
    store: &mut S,
    args: &[Id],
    by: Id,
    steps: &mut Steps<L>,
) -> Result<Id, ApplyFault>
    requires ready { AreReadyArgs (S.trees store.old) args.now }
    requires by { IsId (S.trees store.old) by }
    ensures ok { IfOk result (IsResult (Plug (args_at (S.trees store.old) args.now) (tree (S.trees store.old) by)) (S.trees store.new)) }
    ensures none { result ≡ Err NotAdmissible → HasNone (Plug (args_at (S.trees store.old) args.now) (tree (S.trees store.old) by)) }
    ensures grows { S.grows store.old store.new }
    ensures cost { IsTrue S.unique → steps.new ≤ steps.old + distinct_count (subtrees (tree (S.trees store.old) by)) }
{
    let plugging = Plugging { args };
    run(alloc, store, &plugging, by, steps)
}

impl Rule for Substituting<'_> {
    type Task = Task;

    ghost IsTask = { λ r op task. IsTaskAt r.pairs.now op task };

    ghost Job = { List TreePair };

    ghost job = { λ r trees. pairs_at trees r.pairs.now };

    ghost Makes = { Subst };

    ghost MakesAll = { SubstAll };

    ghost MakesAt = { SubstRow };

    ghost IsReady = { λ r trees. AreReadyPairs trees r.pairs.now };

    ghost Allows = { λ pairs op old. AllowsBelow (IsAdmissible pairs) op old };

    ghost looks = { λ job. distinct_count (replacement_subtrees job) };

    ghost may_change = { may_occur };

    ghost rows = { substituting };

    ghost allowed = { subst_allows };

    ghost ready_kept = { λ r old new keeps ready. ready_pairs_kept keeps r.pairs.now ready };

    ghost job_kept = { λ r old new keeps ready. pairs_same keeps r.pairs.now ready };

    ghost sort_kept = { λ r trees t u ready well made. ready.keeps_sort t u well made };

    fn may_change<S: Store>(&self, store: &S, id: Id) -> bool {
        may_occur(store, self.pairs, id)
    }

    fn allows<S: Store>(&self, store: &S, op: &Op, kids: &[Id]) -> Result<bool, AllocError> {
        match quantified(op)? {
            Some(x) => Ok(is_admissible(store, self.pairs, &Scope::Only(x), kids)),
            None => Ok(true),
        }
    }

    fn task(&self, op: &Op) -> Result<Task, AllocError> {
        Ok(Task {
            items: items_of(op)?,
            effect: effect_at(self.pairs, op),
            captures: captures_of(op)?,
        })
    }

    fn at<S: Store, L: Ledger>(
        &self,
        alloc: Global,
        store: &mut S,
        id: Id,
        task: Task,
        old: &[Id],
        new: &[Id],
        steps: &mut Steps<L>,
    ) -> Result<Id, ApplyFault> {
        let Task {
            items: found,
            effect,
            captures,
        } = task;
        if let Some(system) = found {
            return splice_at(alloc, store, self.pairs, system.items(), old, new, steps);
        }
        match effect {
            Effect::Gives(by) => Ok(by),
            Effect::Plugs(by) => plug_in(alloc, store, new, by, steps),
            Effect::Fills(by) => fill_admissible(alloc, store, self.pairs, by, old, new, steps),
            Effect::Stays => keep_like(alloc, store, self.pairs, id, captures, old, new),
        }
    }
}
