//! The plain store.
ghost use Rattle.std.specs.Prelude.{◌≡◌, ◌↔◌, ◌-◌, ◌^◌, min, IsTrue, [], All, length};
ghost use Rattle.std.proofs.Props.{props};
ghost use Rattle.dlk_tree.specs.Table.{kid_sorts};
ghost use Rattle.dlk_tree.specs.Trees.{node, size, depth};
ghost use Rattle.dlk_store.specs.Stores.{IsId, tree, kid_trees};
ghost use Rattle.dlk_plain.specs.Plain.{trees_of, AreSoundNodes};

use crate::list::{names_in_order, symbols_in_order, vars_in_order};
use crate::node::PlainNode;
use crate::sought::{Sought, VarSet, of_tree};
use dlk_store::{Id, Listing, Node, Steps, Store, StoreFault, Vars, Which};
use dlk_tree::{Op, Sym, Var, same_op};
use std::alloc::Global;
use std::collections::BTreeSet;
use std::sync::ledger::Ledger;

/// A store that keeps a node for each `make` and answers every question by walking. Its ids are the nodes' places.
#[derive(Drop)]
pub struct PlainStore {
    nodes: Vec<PlainNode>,
    ghost sound: { AreSoundNodes nodes.items } by { Prim.hlevel props },
}

impl PlainStore {
    /// A store without nodes.
    pub fn new(alloc: Global) -> PlainStore
        ensures { ⟦<PlainStore as Store>⟧.trees result ≡ [] }
    {
        PlainStore {
            nodes: Vec::new(alloc),
        }
    }

    /// The node of an id, without a step.
    pub(crate) fn node(&self, id: Id) -> Node<'_>
        requires { IsId (trees_of self.now.nodes.items) id }
        ensures node { tree (trees_of self.now.nodes.items) id ≡ node result.op.now (kid_trees (trees_of self.now.nodes.items) result.kids.now) }
        ensures known { All (IsId (trees_of self.now.nodes.items)) result.kids.now }
        ensures arity { length result.kids.now ≡ length (kid_sorts result.op.now) }
    {
        let found = &self.nodes[id.0];
        Node {
            op: &found.op,
            kids: found.kids.as_slice(),
        }
    }

    fn size_at(&self, id: Id) -> u32
        requires { IsId (trees_of self.now.nodes.items) id }
        ensures { result ≡ min (size (tree (trees_of self.now.nodes.items) id)) (2 ^ 32 - 1) }
    {
        let node = self.node(id);
        let mut n: u32 = 1;
        for k in node.kids {
            n = n.saturating_add(self.size_at(*k));
        }
        n
    }

    fn depth_at(&self, id: Id) -> u32
        requires { IsId (trees_of self.now.nodes.items) id }
        ensures { result ≡ min (depth (tree (trees_of self.now.nodes.items) id)) (2 ^ 32 - 1) }
    {
        let node = self.node(id);
        let mut n: u32 = 0;
        for k in node.kids {
            n = n.max(self.depth_at(*k));
        }
        n.saturating_add(1)
    }

    fn same_at(&self, a: Id, b: Id) -> bool
        requires first { IsId (trees_of self.now.nodes.items) a }
        requires second { IsId (trees_of self.now.nodes.items) b }
        ensures { IsTrue result ↔ (tree (trees_of self.now.nodes.items) a ≡ tree (trees_of self.now.nodes.items) b) }
    {
        let m = self.node(a);
        let n = self.node(b);
        if m.kids.len() != n.kids.len() {
            return false;
        }
        if !same_op(m.op, n.op) {
            return false;
        }
        for i in 0..m.kids.len() {
            if !self.same_at(m.kids[i], n.kids[i]) {
                return false;
            }
        }
        true
    }
}

impl Store for PlainStore {
    ghost use Rattle.dlk_plain.specs.Plain.{trees_of};
    ghost use Rattle.dlk_plain.specs.Growth.{all_made, plain_one_id};
    ghost use Rattle.dlk_store.specs.Stores.{Keeps};
    ghost use Rattle.dlk_store.specs.Kids.{Keeps-refl, Keeps-trans};
    ghost use Rattle.std.specs.Prelude.{false};

    ghost trees = { λ s. trees_of s.nodes.items };

    ghost unique = { false };

    ghost grows = { λ a b. Keeps (trees_of a.nodes.items) (trees_of b.nodes.items) };

    ghost grows_refl = { λ a. Keeps-refl (trees_of a.nodes.items) };

    ghost grows_trans = { λ a b c p q. Keeps-trans p q };

    ghost grows_keeps = { λ a b p. p };

    ghost one_id = { λ h s. plain_one_id h s.nodes.items };

    ghost well_made = { λ s. all_made s.nodes.items s.sound };

    fn make(&mut self, alloc: Global, op: Op, kids: &[Id]) -> Result<Id, StoreFault> {
        let id = Id(self.nodes.len());
        let kids = kids.to_vec(alloc)?;
        self.nodes.push(PlainNode { op, kids })?;
        Ok(id)
    }

    fn make_like(&mut self, alloc: Global, like: Id, kids: &[Id]) -> Result<Id, StoreFault> {
        let op = self.node(like).op.clone()?;
        self.make(alloc, op, kids)
    }

    fn look<L: Ledger>(&self, id: Id, steps: &mut Steps<L>) -> Node<'_> {
        steps.tick();
        self.node(id)
    }

    fn same(&self, a: Id, b: Id) -> bool {
        self.same_at(a, b)
    }

    fn size(&self, id: Id) -> u32 {
        self.size_at(id)
    }

    fn depth(&self, id: Id) -> u32 {
        self.depth_at(id)
    }

    fn frees(&self, id: Id, v: &Var) -> bool {
        self.sets_at(id, v.name.bytes()).free.at(v.primed)
    }

    fn binds(&self, id: Id, v: &Var) -> bool {
        self.sets_at(id, v.name.bytes()).bound.at(v.primed)
    }

    fn must(&self, id: Id, v: &Var) -> bool {
        self.sets_at(id, v.name.bytes()).must.at(v.primed)
    }

    fn mentions(&self, id: Id, s: &Sym) -> bool {
        self.has_at(id, Sought::Symbol(s))
    }

    fn has_dot(&self, id: Id, n: u8) -> bool {
        self.has_at(id, Sought::Dot(n))
    }

    fn has_hole(&self, id: Id) -> bool {
        self.has_at(id, Sought::Hole)
    }

    fn any_free(&self, id: Id) -> bool {
        self.has_some(VarSet::Free(id), id)
    }

    fn free_meets_bound(&self, e: Id, a: Id) -> bool {
        let set = VarSet::FreeAndBound(e, a);
        self.has_some(set, e) || self.has_some(set, a)
    }

    fn list(&self, alloc: Global, id: Id, which: Which) -> Result<Listing, StoreFault> {
        let set = of_tree(which, id);
        let others = self.in_set(set, &[]).plain;
        let mut names = BTreeSet::new(alloc);
        self.names_at(&mut names, id)?;
        let names = names_in_order(alloc, names)?;
        let mut vars = BTreeSet::new(alloc);
        self.list_names(&mut vars, set, others, names.as_slice())?;
        let vars = vars_in_order(alloc, vars)?;
        Ok(Listing {
            all_but: others,
            vars: Vars::new(vars),
        })
    }

    fn symbols(&self, alloc: Global, id: Id) -> Result<Vec<Sym>, StoreFault> {
        let mut syms = BTreeSet::new(alloc);
        self.symbols_at(&mut syms, id)?;
        let syms = symbols_in_order(alloc, syms)?;
        Ok(syms)
    }
}
