//! What a store of trees answers. Each id of a store stands for a plain tree, and no call changes what an old id stands for.
#![tactic(auto)]

ghost use Rattle.std.specs.Prelude.{◌≡◌, ◌↔◌, ◌+◌, ◌-◌, ◌^◌, min, IsTrue, IfOk, All, List, Bool};
ghost use Rattle.dlk_tree.specs.Trees.{Tree, node, root, size, depth, WellMade};
ghost use Rattle.dlk_tree.specs.Table.{Fits};
ghost use Rattle.dlk_tree.specs.Statics.{free, bound, must, both};
ghost use Rattle.dlk_tree.specs.Occurs.{occurs, has_dot, has_hole};
ghost use Rattle.dlk_tree.specs.Listed.{IsInhabited, IsSignature};
ghost use Rattle.dlk_store.specs.declared.StoreFault.TheVariants.{Memory};
ghost use Rattle.dlk_store.specs.Listings.{set_of, IsListingOf};
ghost use Rattle.dlk_store.specs.Stores.{IsId, tree, StandsFor, Keeps, kid_trees, sorts_at, HasOneId};

use dlk_tree::{Op, Sym, Var};
use std::alloc::{AllocError, AllocFailed, Global};
use std::sync::ledger::Ledger;
use thiserror::Error;

mod copies;
mod laws;
mod listing;
mod steps;

pub use copies::copied;
pub use laws::{one_listing, one_signature};
pub use listing::{Listing, Vars, Which};
pub use steps::Steps;

/// A node's number in its store.
#[derive(Clone, Copy, Debug, PartialEq, Eq, PartialOrd, Ord, Hash)]
pub struct Id(pub usize);

/// An operator with its kids.
#[derive(Clone, Copy)]
pub struct Node<'a> {
    pub op: &'a Op,
    pub kids: &'a [Id],
}

/// Why a store did not make a node.
#[derive(Clone, Copy, Debug, PartialEq, Eq, Error)]
pub enum StoreFault {
    #[error("out of memory")]
    Memory,
}

impl From<AllocError> for StoreFault {
    ghost from_gives = { λ _ e. e ≡ Memory };

    fn from(_: AllocError) -> StoreFault {
        StoreFault::Memory
    }
}

impl<T: Drop> From<AllocFailed<T>> for StoreFault {
    ghost from_gives = { λ _ e. e ≡ Memory };

    fn from(_: AllocFailed<T>) -> StoreFault {
        StoreFault::Memory
    }
}

/// Trees by their ids. The ids that a call is given are those of the store. A store only grows: every id that it had
/// still stands for the same tree, whatever was called and whatever that answered.
pub trait Store {
    /// What the ids stand for, in order of the ids.
    ghost trees: { Self → List Tree };

    /// Whether a tree has at most one id.
    ghost unique: { Bool };

    /// The second came of the first by making nodes alone.
    ghost grows: { Self → Self → Type 0 };

    /// An id of the tree with this operator and these kids, which are ids of the store whose sorts fit the operator.
    ///
    /// # Errors
    ///
    /// `Memory` alone; the store may have more nodes then.
    fn make(&mut self, alloc: Global, op: Op, kids: &[Id]) -> Result<Id, StoreFault>
        requires known { All (IsId (trees self.old)) kids.now }
        requires fits { Fits op (sorts_at (trees self.old) kids.now) }
        ensures made { IfOk result (λ id. StandsFor (trees self.new) id (node op (kid_trees (trees self.old) kids.now))) }
        ensures grows { grows self.old self.new };

    /// An id of the tree with the operator of the tree `like` and these kids, which are ids of the store whose sorts
    /// fit the operator. The operator is neither shown nor copied by its name, and no step is counted.
    ///
    /// # Errors
    ///
    /// `Memory` alone; the store may have more nodes then.
    fn make_like(&mut self, alloc: Global, like: Id, kids: &[Id]) -> Result<Id, StoreFault>
        requires like { IsId (trees self.old) like }
        requires known { All (IsId (trees self.old)) kids.now }
        requires fits { Fits (root (tree (trees self.old) like)) (sorts_at (trees self.old) kids.now) }
        ensures made { IfOk result (λ id. StandsFor (trees self.new) id (node (root (tree (trees self.old) like)) (kid_trees (trees self.old) kids.now))) }
        ensures grows { grows self.old self.new };

    /// The root of the tree, in one step: the one way to see an operator and its kids.
    fn look<L: Ledger>(&self, id: Id, steps: &mut Steps<L>) -> Node<'_>
        requires { IsId (trees self.now) id }
        ensures node { tree (trees self.now) id ≡ node result.op.now (kid_trees (trees self.now) result.kids.now) }
        ensures known { All (IsId (trees self.now)) result.kids.now }
        ensures step { steps.new ≡ steps.old + 1 };

    /// Whether the two trees are equal.
    fn same(&self, a: Id, b: Id) -> bool
        requires first { IsId (trees self.now) a }
        requires second { IsId (trees self.now) b }
        ensures { IsTrue result ↔ (tree (trees self.now) a ≡ tree (trees self.now) b) };

    /// The number of nodes, at most the greatest `u32`.
    fn size(&self, id: Id) -> u32
        requires { IsId (trees self.now) id }
        ensures { result ≡ min (size (tree (trees self.now) id)) (2 ^ 32 - 1) };

    /// The depth, at most the greatest `u32`.
    fn depth(&self, id: Id) -> u32
        requires { IsId (trees self.now) id }
        ensures { result ≡ min (depth (tree (trees self.now) id)) (2 ^ 32 - 1) };

    /// Whether the variable is free in the tree: the tree reads it.
    fn frees(&self, id: Id, v: &Var) -> bool
        requires { IsId (trees self.now) id }
        ensures { result ≡ free (tree (trees self.now) id) v.now };

    /// Whether the variable is bound in the tree: the tree may bind it, as a quantifier does, or a program that may write it.
    fn binds(&self, id: Id, v: &Var) -> bool
        requires { IsId (trees self.now) id }
        ensures { result ≡ bound (tree (trees self.now) id) v.now };

    /// Whether the variable is must-bound in the program: each run writes it. False for a term and a formula.
    fn must(&self, id: Id, v: &Var) -> bool
        requires { IsId (trees self.now) id }
        ensures { result ≡ must (tree (trees self.now) id) v.now };

    /// Whether the symbol occurs in the tree, with this kind, name, arity and taboo.
    fn mentions(&self, id: Id, s: &Sym) -> bool
        requires { IsId (trees self.now) id }
        ensures { result ≡ occurs s.now (tree (trees self.now) id) };

    /// Whether the argument dot of this number stands in the tree.
    fn has_dot(&self, id: Id, n: u8) -> bool
        requires { IsId (trees self.now) id }
        ensures { result ≡ has_dot n (tree (trees self.now) id) };

    /// Whether `_` stands in the tree.
    fn has_hole(&self, id: Id) -> bool
        requires { IsId (trees self.now) id }
        ensures { result ≡ has_hole (tree (trees self.now) id) };

    /// Whether some variable is free in the tree.
    fn any_free(&self, id: Id) -> bool
        requires { IsId (trees self.now) id }
        ensures { IsTrue result ↔ IsInhabited (free (tree (trees self.now) id)) };

    /// Whether some variable is free in `e` and bound in `a`.
    fn free_meets_bound(&self, e: Id, a: Id) -> bool
        requires first { IsId (trees self.now) e }
        requires second { IsId (trees self.now) a }
        ensures { IsTrue result ↔ IsInhabited (both (free (tree (trees self.now) e)) (bound (tree (trees self.now) a))) };

    /// One of the three sets of the tree, listed; there is one listing of it (`one_listing`).
    ///
    /// # Errors
    ///
    /// `Memory` alone.
    fn list(&self, alloc: Global, id: Id, which: Which) -> Result<Listing, StoreFault>
        requires { IsId (trees self.now) id }
        ensures { IfOk result (IsListingOf (set_of which (tree (trees self.now) id))) };

    /// The symbols that occur in the tree, in order of kind, name, arity and taboo, no taboo first; there is one such list
    /// (`one_signature`).
    ///
    /// # Errors
    ///
    /// `Memory` alone.
    fn symbols(&self, alloc: Global, id: Id) -> Result<Vec<Sym>, StoreFault>
        requires { IsId (trees self.now) id }
        ensures { IfOk result (λ syms. IsSignature (tree (trees self.now) id) syms.items) };

    // Growth goes on, and each old id stands for the same tree.
    ghost grows_refl: { (a : Self) → grows a a };

    ghost grows_trans: { (a b c : Self) → grows a b → grows b c → grows a c };

    ghost grows_keeps: { (a b : Self) → grows a b → Keeps (trees a) (trees b) };

    /// Every tree of a store is well made.
    ghost well_made: { (s : Self) → All WellMade (trees s) };

    /// In a unique store ids of equal trees are equal.
    ghost one_id: { IsTrue unique → (s : Self) → HasOneId (trees s) };
}
