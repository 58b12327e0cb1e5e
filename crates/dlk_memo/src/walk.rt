//! A walk by a rule, with a table of results.
ghost use Rattle.std.specs.Prelude.{◌≡◌, ◌+◌, ◌*◌, ◌≤◌, ◌⊎◌, IsTrue, IfOk, OnOk, OnErr, All, Err, None, Some, length, false};
ghost use Rattle.dlk_tree.specs.Table.{Fits};
ghost use Rattle.dlk_tree.specs.Trees.{node, root, size};
ghost use Rattle.dlk_store.specs.Stores.{IsId, tree, kid_trees, sorts_at};
ghost use Rattle.dlk_subst.specs.Results.{IsResult, HasNone};
ghost use Rattle.dlk_memo.specs.Looks.{subtrees, distinct_count};
ghost use Rattle.dlk_memo.specs.Tables.{found, HasEachOnce, Puts, Opened, Unopened, IsRight, IsOpenAbove, OpensNone, Spends};
ghost use Rattle.dlk_sequent.specs.declared.fault.ApplyFault.TheVariants.{NotAdmissible};

use crate::kids::Kids;
use crate::results::Results;
use crate::rule::Rule;
use dlk_sequent::ApplyFault;
use dlk_store::{Id, Steps, Store};
use std::alloc::Global;
use std::sync::ledger::Ledger;

/// What the rule is to do at the root of a tree that has no entry, and a copy of the kids, unless the rule makes nothing of it. Each
/// look pays for a new entry, whatever comes of it.
#[inline(never)]
fn open<S: Store, L: Ledger, R: Rule>(
    alloc: Global,
    store: &S,
    rule: &R,
    id: Id,
    done: &mut Results,
    steps: &mut Steps<L>,
) -> Result<(R::Task, Kids), ApplyFault>
    requires ready { R.IsReady rule.now (S.trees store.now) }
    requires known { IsId (S.trees store.now) id }
    requires absent { found done.old id ≡ None }
    ensures tree { IfOk result (λ r. tree (S.trees store.now) id ≡ node (root (tree (S.trees store.now) id)) (kid_trees (S.trees store.now) r.1)) }
    ensures task { IfOk result (λ r. R.IsTask rule.now (root (tree (S.trees store.now) id)) r.0) }
    ensures kids { IfOk result (λ r. All (IsId (S.trees store.now)) r.1) }
    ensures allowed { IfOk result (λ r.
        R.Allows (R.job rule.now (S.trees store.now)) (root (tree (S.trees store.now) id)) (kid_trees (S.trees store.now) r.1)) }
    ensures none { result ≡ Err NotAdmissible → HasNone (R.Makes (R.job rule.now (S.trees store.now)) (tree (S.trees store.now) id)) }
    ensures opened { OnOk result (Opened done.old done.new id steps.old steps.new) }
    ensures err { OnErr result (Opened done.old done.new id steps.old steps.new ⊎ Unopened done.old done.new steps.old steps.new) }
    ensures once { HasEachOnce done.new }
{
    done.begin(id)?;
    let node = store.look(id, steps);
    if !rule.allows(store, node.op, node.kids)? {
        return Err(ApplyFault::NotAdmissible);
    }
    let kids = Kids::from_slice(alloc, node.kids)?;
    let task = rule.task(node.op)?;
    Ok((task, kids))
}

/// What the rule makes of the operator of the node over old kids, of which it made the new ones. It is the result of the id from now
/// on.
#[inline(never)]
fn conclude<S: Store, L: Ledger, R: Rule>(
    alloc: Global,
    store: &mut S,
    rule: &R,
    id: Id,
    task: R::Task,
    old: &[Id],
    new: &[Id],
    done: &mut Results,
    steps: &mut Steps<L>,
) -> Result<Id, ApplyFault>
    requires ready { R.IsReady rule.now (S.trees store.old) }
    requires known { IsId (S.trees store.old) id }
    requires task { R.IsTask rule.now (root (tree (S.trees store.old) id)) task }
    requires old { All (IsId (S.trees store.old)) old.now }
    requires new { All (IsId (S.trees store.old)) new.now }
    requires fits { Fits (root (tree (S.trees store.old) id)) (sorts_at (S.trees store.old) new.now) }
    requires once { HasEachOnce done.old }
    ensures ok { IfOk result (IsResult (R.MakesAt (R.job rule.now (S.trees store.old)) (root (tree (S.trees store.old) id))
        (kid_trees (S.trees store.old) old.now) (kid_trees (S.trees store.old) new.now)) (S.trees store.new)) }
    ensures none { result ≡ Err NotAdmissible → HasNone (R.MakesAt (R.job rule.now (S.trees store.old)) (root (tree (S.trees store.old) id))
        (kid_trees (S.trees store.old) old.now) (kid_trees (S.trees store.old) new.now)) }
    ensures grows { S.grows store.old store.new }
    ensures put { IfOk result (λ made. Puts done.old done.new id (Some made)) }
    ensures err { OnErr result (done.new ≡ done.old) }
    ensures long { length done.old ≤ length done.new }
    ensures once { HasEachOnce done.new }
    ensures cost { IsTrue S.unique → steps.new ≤ steps.old + R.looks (R.job rule.now (S.trees store.old)) }
{
    let made = rule.at(alloc, store, id, task, old, new, steps)?;
    done.finish(id, made)?;
    Ok(made)
}

/// What the rule makes of the tree, by a table of what it made before. A tree that it doesn't change is neither looked at nor put
/// into the table.
fn walk<S: Store, L: Ledger, R: Rule>(
    alloc: Global,
    store: &mut S,
    rule: &R,
    id: Id,
    done: &mut Results,
    steps: &mut Steps<L>,
) -> Result<Id, ApplyFault>
    requires ready { R.IsReady rule.now (S.trees store.old) }
    requires known { IsId (S.trees store.old) id }
    requires right { IsRight (R.Makes (R.job rule.now (S.trees store.old))) (S.trees store.old) done.old }
    requires above { IsOpenAbove (S.trees store.old) (size (tree (S.trees store.old) id)) done.old }
    requires once { HasEachOnce done.old }
    ensures ok { IfOk result (IsResult (R.Makes (R.job rule.now (S.trees store.old)) (tree (S.trees store.old) id)) (S.trees store.new)) }
    ensures none { result ≡ Err NotAdmissible → HasNone (R.Makes (R.job rule.now (S.trees store.old)) (tree (S.trees store.old) id)) }
    ensures grows { S.grows store.old store.new }
    ensures right { OnOk result (IsRight (R.Makes (R.job rule.now (S.trees store.old))) (S.trees store.new) done.new) }
    ensures opens { OnOk result (OpensNone done.old done.new) }
    ensures spends { Spends S.unique (1 + R.looks (R.job rule.now (S.trees store.old))) (tree (S.trees store.old) id)
        (S.trees store.new) done.old done.new steps.old steps.new }
    ensures unlooked { R.may_change (R.job rule.now (S.trees store.old)) (tree (S.trees store.old) id) ≡ false → steps.new ≡ steps.old }
{
    if !rule.may_change(store, id) {
        return Ok(id);
    }
    if let Some(known) = done.find(id) {
        return known.ok_or(ApplyFault::NotAdmissible);
    }
    let (task, old) = open(alloc, store, rule, id, done, steps)?;
    let kids = old.as_slice();
    let mut new = Kids::new();
    for kid in kids {
        let made = walk(alloc, store, rule, *kid, done, steps)?;
        new = new.with(alloc, made)?;
    }
    conclude(
        alloc,
        store,
        rule,
        id,
        task,
        kids,
        new.as_slice(),
        done,
        steps,
    )
}

/// What the rule makes of the tree, by a table of its own.
pub(crate) fn run<S: Store, L: Ledger, R: Rule>(
    alloc: Global,
    store: &mut S,
    rule: &R,
    id: Id,
    steps: &mut Steps<L>,
) -> Result<Id, ApplyFault>
    requires ready { R.IsReady rule.now (S.trees store.old) }
    requires known { IsId (S.trees store.old) id }
    ensures ok { IfOk result (IsResult (R.Makes (R.job rule.now (S.trees store.old)) (tree (S.trees store.old) id)) (S.trees store.new)) }
    ensures none { result ≡ Err NotAdmissible → HasNone (R.Makes (R.job rule.now (S.trees store.old)) (tree (S.trees store.old) id)) }
    ensures grows { S.grows store.old store.new }
    ensures cost { IsTrue S.unique →
        steps.new ≤ steps.old + distinct_count (subtrees (tree (S.trees store.old) id)) * (1 + R.looks (R.job rule.now (S.trees store.old))) }
    ensures unlooked { R.may_change (R.job rule.now (S.trees store.old)) (tree (S.trees store.old) id) ≡ false → steps.new ≡ steps.old }
{
    let mut done = Results::new(alloc);
    walk(alloc, store, rule, id, &mut done, steps)
}
