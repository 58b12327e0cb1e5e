//! What a walk makes of a node.
ghost use Rattle.std.specs.Prelude.{◌≡◌, ◌↔◌, ◌+◌, ◌≤◌, ℕ, Bool, IsTrue, IfOk, All, Err, List, false};
ghost use Rattle.dlk_tree.specs.Table.{Fits};
ghost use Rattle.dlk_tree.specs.Trees.{Tree, Forest, root, sort, WellMade};
ghost use Rattle.dlk_tree.specs.declared.op.Op.{Op as TheOp};
ghost use Rattle.dlk_store.specs.Stores.{IsId, tree, Keeps, kid_trees, sorts_at};
ghost use Rattle.dlk_store.specs.Rows.{GoesByRows};
ghost use Rattle.dlk_subst.specs.Results.{IsResult, HasNone};
ghost use Rattle.dlk_sequent.specs.declared.fault.ApplyFault.TheVariants.{NotAdmissible};

use dlk_sequent::ApplyFault;
use dlk_store::{Id, Steps, Store};
use dlk_tree::Op;
use std::alloc::{AllocError, Global};
use std::sync::ledger::Ledger;

/// A rule by which a walk makes a tree of a tree, node by node. It depends on the node alone and never on the path to it.
pub(crate) trait Rule {
    /// What it is to do at a node once the kids are made. It is found when the node is looked at, so that the operator isn't needed again.
    type Task: Drop;

    /// What it stands for over trees.
    ghost Job: { Type 0 };

    ghost job: { Self → List Tree → Job };

    /// What it makes of a tree, of kids, and of an operator over old kids, of which the new ones were made.
    ghost Makes: { Job → Tree → Tree → Type 0 };

    ghost MakesAll: { Job → Forest → Forest → Type 0 };

    ghost MakesAt: { Job → TheOp → Forest → Forest → Tree → Type 0 };

    /// When it can be followed over a store with these trees.
    ghost IsReady: { Self → List Tree → Type 0 };

    /// What it asks of an operator over kids before it makes anything of them. Without that it makes nothing of the operator, whatever
    /// it makes of the kids.
    ghost Allows: { Job → TheOp → Forest → Type 0 };

    /// The task is the one at this operator.
    ghost IsTask: { Self → TheOp → Self.Task → Type 0 };

    /// How many looks it takes at a node, beside the one at the node.
    ghost looks: { Job → ℕ };

    /// Whether it may change a tree, as far as that is asked for. Where it doesn't, the tree is what it makes of it.
    ghost may_change: { Job → Tree → Bool };

    fn may_change<S: Store>(&self, store: &S, id: Id) -> bool
        requires ready { IsReady self.now (S.trees store.now) }
        requires known { IsId (S.trees store.now) id }
        ensures asked { result ≡ may_change (job self.now (S.trees store.now)) (tree (S.trees store.now) id) }
        ensures stays { result ≡ false → Makes (job self.now (S.trees store.now)) (tree (S.trees store.now) id) (tree (S.trees store.now) id) };

    /// Whether the operator over these kids has what it asks before it makes anything of them.
    fn allows<S: Store>(&self, store: &S, op: &Op, kids: &[Id]) -> Result<bool, AllocError>
        requires ready { IsReady self.now (S.trees store.now) }
        requires known { All (IsId (S.trees store.now)) kids.now }
        ensures asked { IfOk result (λ b. IsTrue b ↔ Allows (job self.now (S.trees store.now)) op.now (kid_trees (S.trees store.now) kids.now)) };

    /// What it is to do at the operator.
    fn task(&self, op: &Op) -> Result<Self::Task, AllocError>
        ensures { IfOk result (IsTask self.now op.now) };

    /// What it makes of the operator of the node over old kids, of which it made the new ones.
    fn at<S: Store, L: Ledger>(
        &self,
        alloc: Global,
        store: &mut S,
        id: Id,
        task: Self::Task,
        old: &[Id],
        new: &[Id],
        steps: &mut Steps<L>,
    ) -> Result<Id, ApplyFault>
        requires ready { IsReady self.now (S.trees store.old) }
        requires known { IsId (S.trees store.old) id }
        requires task { IsTask self.now (root (tree (S.trees store.old) id)) task }
        requires old { All (IsId (S.trees store.old)) old.now }
        requires new { All (IsId (S.trees store.old)) new.now }
        requires fits { Fits (root (tree (S.trees store.old) id)) (sorts_at (S.trees store.old) new.now) }
        ensures ok { IfOk result (IsResult (MakesAt (job self.now (S.trees store.old)) (root (tree (S.trees store.old) id))
            (kid_trees (S.trees store.old) old.now) (kid_trees (S.trees store.old) new.now)) (S.trees store.new)) }
        ensures none { result ≡ Err NotAdmissible → HasNone (MakesAt (job self.now (S.trees store.old)) (root (tree (S.trees store.old) id))
            (kid_trees (S.trees store.old) old.now) (kid_trees (S.trees store.old) new.now)) }
        ensures grows { S.grows store.old store.new }
        ensures cost { IsTrue S.unique → steps.new ≤ steps.old + looks (job self.now (S.trees store.old)) };

    ghost rows: { GoesByRows Makes MakesAll MakesAt };

    ghost allowed: { (job : Job) (op : TheOp) (old new : Forest) (t : Tree) → MakesAt job op old new t → Allows job op old };

    // It stands for the same while the store grows.
    ghost ready_kept: { (r : Self) (old new : List Tree) → Keeps old new → IsReady r old → IsReady r new };

    ghost job_kept: { (r : Self) (old new : List Tree) → Keeps old new → IsReady r old → job r new ≡ job r old };

    ghost sort_kept: { (r : Self) (trees : List Tree) (t u : Tree) → IsReady r trees → WellMade t → Makes (job r trees) t u → sort u ≡ sort t };
}
