//! The nodes on the way to a subtree, found in one walk.
ghost use Rattle.std.specs.Prelude.{◌≡◌, ◌≢◌, ◌↔◌, ◌≤◌, length, IsTrue, [], ◌∷◌, Err, None, MatchOption, IfOk, IfErr};
ghost use Rattle.dlk_tree.specs.declared.op.Sort.TheVariants.{Formula};
ghost use Rattle.dlk_tree.specs.Trees.{sort};
ghost use Rattle.dlk_store.specs.Stores.{IsId, tree, StandsFor};
ghost use Rattle.dlk_calculus.specs.Paths.{subtree, put_at};
ghost use Rattle.dlk_sequent.specs.Spines.{HasSort, IsPut, IsPutFault, top, path_of, IsSpine, IsSpineOf, outer_part, inner_part, IsInnermostOf, HasNoInnermost};
ghost use Rattle.dlk_sequent.specs.declared.fault.PutFault.TheVariants.{NoPlace};

use crate::fault::PutFault;
use crate::path::kid_at;
use dlk_store::{Id, Steps, Store};
use dlk_tree::{Sort, sort_of};
use std::alloc::{AllocError, Global};
use std::marker::Model;
use std::sync::ledger::Ledger;

/// A node, and the number of the kid that is taken there, counted from 0.
#[derive(Clone, Copy, Debug, PartialEq, Eq)]
pub struct Turn {
    pub node: Id,
    pub kid: u32,
}

/// The nodes on the way to a subtree, for who wants the subtree and trees with others in its place. A spine stays one while its
/// store grows (`spine_stays`), and its parts are spines (`spine_parts`).
#[derive(Drop, Debug)]
pub struct Spine {
    turns: Vec<Turn>,
    found: Id,
}

impl Model for Spine {
    ghost use Rattle.dlk_sequent.specs.Spines.{Way};

    ghost Value = { Way };

    ghost view = { λ s. record { turns = s.turns.items; found = s.found } };
}

/// The smallest formula round a subtree: how long the path is that leads to it, and its id.
#[derive(Clone, Copy, Debug, PartialEq, Eq)]
pub struct Innermost {
    pub outer: usize,
    pub formula: Id,
}

/// Whether the tree is of the sort of formulas.
fn has_formula_sort<S: Store, L: Ledger>(store: &S, id: Id, steps: &mut Steps<L>) -> bool
    requires { IsId (S.trees store.now) id }
    ensures { IsTrue result ↔ (sort (tree (S.trees store.now) id) ≡ Formula) }
{
    sort_of(store.look(id, steps).op) == Sort::Formula
}

/// Whether the two trees are of the same sort.
fn have_one_sort<S: Store, L: Ledger>(store: &S, a: Id, b: Id, steps: &mut Steps<L>) -> bool
    requires first { IsId (S.trees store.now) a }
    requires second { IsId (S.trees store.now) b }
    ensures { IsTrue result ↔ (sort (tree (S.trees store.now) a) ≡ sort (tree (S.trees store.now) b)) }
{
    sort_of(store.look(a, steps).op) == sort_of(store.look(b, steps).op)
}

/// The node with another kid of the same sort, instead of one that is there.
fn with_kid<S: Store, L: Ledger>(
    alloc: Global,
    store: &mut S,
    turn: Turn,
    new: Id,
    steps: &mut Steps<L>,
) -> Result<Id, PutFault>
    requires known { IsId (S.trees store.old) turn.node }
    requires new { IsId (S.trees store.old) new }
    requires fits { HasSort (sort (tree (S.trees store.old) new)) (subtree (tree (S.trees store.old) turn.node) (turn.kid ∷ [])) }
    ensures ok { IfOk result (λ id.
        StandsFor (S.trees store.new) id (put_at (tree (S.trees store.old) turn.node) (turn.kid ∷ []) (tree (S.trees store.old) new))) }
    ensures err { IfErr result (λ e. e ≡ PutFault.Memory) }
    ensures grows { S.grows store.old store.new }
{
    let node = store.look(turn.node, steps);
    let op = node.op.clone()?;
    let mut kids = node.kids.to_vec(alloc)?;
    kids[turn.kid as usize] = new;
    Ok(store.make(alloc, op, kids.as_slice())?)
}

impl Spine {
    /// The spine of a path: the numbers of the kids that lead to the subtree, counted from 0. None comes exactly where the path
    /// leaves the tree.
    ///
    /// # Errors
    ///
    /// Where no memory was left.
    pub fn of<S: Store, L: Ledger>(
        alloc: Global,
        store: &S,
        id: Id,
        path: &[u32],
        steps: &mut Steps<L>,
    ) -> Result<Option<Spine>, AllocError>
        requires { IsId (S.trees store.now) id }
        ensures { IfOk result (λ o. MatchOption o (subtree (tree (S.trees store.now) id) path.now ≡ None) (IsSpineOf (S.trees store.now) id path.now)) }
    {
        let mut turns = Vec::new(alloc);
        let mut at = id;
        for kid in path {
            let Some(next) = kid_at(store, at, *kid, steps) else {
                return Ok(None);
            };
            turns.push(Turn {
                node: at,
                kid: *kid,
            })?;
            at = next;
        }
        Ok(Some(Spine { turns, found: at }))
    }

    /// The spine of the first kids of the path, `outer` of them, at whose end the spine of the others begins.
    pub fn outer(&self, alloc: Global, outer: usize) -> Result<Spine, AllocError>
        requires { outer ≤ length self.now.turns }
        ensures { IfOk result (λ s. s ≡ outer_part self.now outer) }
    {
        let turns = Vec::from_slice(alloc, &self.turns[..outer])?;
        let found = if outer == self.turns.len() {
            self.found
        } else {
            self.turns[outer].node
        };
        Ok(Spine { turns, found })
    }

    /// The spine of the other kids of the path, behind the first `outer` of them.
    pub fn inner(&self, alloc: Global, outer: usize) -> Result<Spine, AllocError>
        requires { outer ≤ length self.now.turns }
        ensures { IfOk result (λ s. s ≡ inner_part self.now outer) }
    {
        let turns = Vec::from_slice(alloc, &self.turns[outer..])?;
        Ok(Spine {
            turns,
            found: self.found,
        })
    }

    /// The subtree. It takes no step and no memory.
    pub fn subtree(&self) -> Id
        ensures { result ≡ self.now.found }
    {
        self.found
    }

    /// The tree with another one in the subtree's place, over the store that this is a spine over. Nodes are made for the way
    /// alone; the rest is shared.
    ///
    /// # Errors
    ///
    /// `WrongSort` exactly where the new tree is of another sort than the subtree. `Memory` where none was left; the store may have
    /// more nodes then. `NoPlace` never comes.
    pub fn put<S: Store, L: Ledger>(
        &self,
        alloc: Global,
        store: &mut S,
        new: Id,
        steps: &mut Steps<L>,
    ) -> Result<Id, PutFault>
        requires spine { IsSpine (S.trees store.old) self.now }
        requires new { IsId (S.trees store.old) new }
        ensures ok { IfOk result (IsPut (S.trees store.old) (S.trees store.new) (top self.now) (path_of self.now) new) }
        ensures err { IfErr result (IsPutFault (S.trees store.old) (top self.now) (path_of self.now) new) }
        ensures there { result ≢ Err NoPlace }
        ensures grows { S.grows store.old store.new }
    {
        if !have_one_sort(store, new, self.found, steps) {
            return Err(PutFault::WrongSort);
        }
        let mut made = new;
        let mut left = self.turns.len();
        while left > 0 {
            left -= 1;
            made = with_kid(alloc, store, self.turns[left], made, steps)?;
        }
        Ok(made)
    }

    /// The smallest formula round the subtree, which may be the subtree itself, over the store that this is a spine over. None
    /// comes exactly where no formula is on the way. It takes no memory.
    pub fn innermost<S: Store, L: Ledger>(
        &self,
        store: &S,
        steps: &mut Steps<L>,
    ) -> Option<Innermost>
        requires { IsSpine (S.trees store.now) self.now }
        ensures { MatchOption result (HasNoInnermost (S.trees store.now) self.now) (IsInnermostOf (S.trees store.now) self.now) }
    {
        let mut outer = self.turns.len();
        let mut formula = self.found;
        while !has_formula_sort(store, formula, steps) {
            if outer == 0 {
                return None;
            }
            outer -= 1;
            formula = self.turns[outer].node;
        }
        Some(Innermost { outer, formula })
    }
}
