//! The shared store.
ghost use Rattle.std.specs.Prelude.{◌≡◌, ◌↔◌, ◌+◌, ◌<◌, ◌-◌, ◌^◌, min, IsTrue, IfOk, [], List, All, length, Some, None, slice_get, map};
ghost use Rattle.std.proofs.Props.{props};
ghost use Rattle.std.specs.List.{IsDistinct, list_any};
ghost use Rattle.std.specs.Map.{keys_of};
ghost use Rattle.std.proofs.lemmas.Map.Keys.{IsDistinct-prop};
ghost use Rattle.indexmap.specs.IndexMap.{get};
ghost use Rattle.dlk_tree.specs.Table.{Fits, has_parts};
ghost use Rattle.dlk_tree.specs.Trees.{node, size, size_all, depth, depth_all};
ghost use Rattle.dlk_store.specs.Stores.{IsId, tree, kid_trees, sorts_at, StandsFor, Keeps};
ghost use Rattle.dlk_shared.specs.Nodes.{op_at, trees_of, AreSoundNodes, EachIs};
ghost use Rattle.dlk_shared.specs.Kept.{capped, AreDotsOf, IsFactsOf};
ghost use Rattle.dlk_tree.specs.Occurs.{occurs, any_has, has_symbol, has_dot, has_hole};
ghost use Rattle.dlk_tree.specs.Statics.{sets as sets_of, sets_all, free, bound, must, both};
ghost use Rattle.dlk_tree.specs.Listed.{IsInhabited, IsSignature};
ghost use Rattle.dlk_store.specs.Listings.{set_of, IsListingOf};
ghost use Rattle.dlk_shared.specs.SetTables.{MeanSets, AreSets, sets_at};
ghost use Rattle.dlk_shared.specs.Signs.{sign_at, IsSign, Signs};
ghost use Rattle.dlk_tree.specs.declared.op.Sym.{Sym};

use crate::kids::Kids;
use crate::node::{Facts, Key, NodeSets, dot_bit, is_hole, narrow};
use crate::sets::SetTable;
use crate::signs::SignTable;
use dlk_store::{Id, Listing, Node, Steps, Store, StoreFault, Which};
use dlk_tree::{Op, Sym, Var};
use dlk_vars::VarFault;
use indexmap::{IndexMap, IndexSet};
use std::alloc::Global;
use std::sync::ledger::Ledger;

/// A store that keeps each operator once and each node once, with the measures of its tree. Its ids are the nodes' places.
#[derive(Drop)]
pub struct SharedStore {
    ops: IndexSet<Op>,
    nodes: IndexMap<Key, Facts>,
    sets: SetTable,
    signs: SignTable,
    ghost ops_apart: { IsDistinct ⟦<Op as PartialEq>⟧.eq ops.keys } by { IsDistinct-prop ⟦<Op as PartialEq>⟧.eq ops.keys },
    ghost nodes_apart: { IsDistinct ⟦<Key as PartialEq>⟧.eq (keys_of nodes.entries) } by { IsDistinct-prop ⟦<Key as PartialEq>⟧.eq (keys_of nodes.entries) },
    ghost sound: { AreSoundNodes ops.keys nodes.entries } by { Prim.hlevel props },
    ghost facts: { EachIs (IsFactsOf sets signs) (trees_of ops.keys nodes.entries) nodes.entries } by { Prim.hlevel props },
}

impl SharedStore {
    /// A store without nodes.
    pub fn new(alloc: Global) -> SharedStore
        ensures { ⟦<SharedStore as Store>⟧.trees result ≡ [] }
    {
        SharedStore {
            ops: IndexSet::new(alloc),
            nodes: IndexMap::new(alloc),
            sets: SetTable::new(alloc),
            signs: SignTable::new(alloc),
        }
    }

    /// What is kept of the node.
    fn kept(&self, id: Id) -> (&Key, &Facts)
        requires { IsId (trees_of self.now.ops.keys self.now.nodes.entries) id }
        ensures { slice_get self.now.nodes.entries id.0 ≡ Some (result.0.now, result.1.now) }
    {
        self.nodes.get_index(id.0).unwrap()
    }

    fn key(&self, id: Id) -> &Key
        requires { IsId (trees_of self.now.ops.keys self.now.nodes.entries) id }
        ensures node { tree (trees_of self.now.ops.keys self.now.nodes.entries) id ≡
            node (op_at self.now.ops.keys result.now.op) (kid_trees (trees_of self.now.ops.keys self.now.nodes.entries) result.now.kids) }
        ensures op { result.now.op < length self.now.ops.keys }
        ensures kids { All (IsId (trees_of self.now.ops.keys self.now.nodes.entries)) result.now.kids }
    {
        self.kept(id).0
    }

    fn facts(&self, id: Id) -> Facts
        requires { IsId (trees_of self.now.ops.keys self.now.nodes.entries) id }
        ensures { IsFactsOf self.now.sets self.now.signs (tree (trees_of self.now.ops.keys self.now.nodes.entries) id) result }
    {
        *self.kept(id).1
    }

    /// The sets of these trees.
    fn kid_sets(&self, alloc: Global, kids: &[Id]) -> Result<Vec<NodeSets>, StoreFault>
        requires { All (IsId (trees_of self.now.ops.keys self.now.nodes.entries)) kids.now }
        ensures are { IfOk result (λ found.
            map (sets_at self.now.sets) found.items ≡ sets_all (kid_trees (trees_of self.now.ops.keys self.now.nodes.entries) kids.now)) }
        ensures known { IfOk result (λ found. All (AreSets self.now.sets) found.items) }
    {
        let mut found = Vec::with_capacity(alloc, kids.len())?;
        for k in kids {
            found.push(self.facts(*k).sets)?;
        }
        Ok(found)
    }

    /// The sets of a node. Its variables are numbered, and no node is kept.
    fn sets_over(&mut self, alloc: Global, key: &Key) -> Result<NodeSets, StoreFault>
        requires op { key.now.op < length self.old.ops.keys }
        requires known { All (IsId (trees_of self.old.ops.keys self.old.nodes.entries)) key.now.kids }
        ensures means { IfOk result (λ n. MeanSets self.new.sets n
            (sets_of (node (op_at self.old.ops.keys key.now.op) (kid_trees (trees_of self.old.ops.keys self.old.nodes.entries) key.now.kids)))) }
        ensures ops { self.new.ops ≡ self.old.ops }
        ensures nodes { self.new.nodes ≡ self.old.nodes }
    {
        let kids = self.kid_sets(alloc, key.kids.as_slice())?;
        match self
            .sets
            .node_sets(&self.ops.as_slice()[key.op as usize], kids.as_slice())
        {
            Ok(sets) => Ok(sets),
            Err(VarFault::Memory) => Err(StoreFault::Memory),
        }
    }

    /// The signatures of these trees.
    fn kid_signs(&self, alloc: Global, kids: &[Id]) -> Result<Vec<u32>, StoreFault>
        requires { All (IsId (trees_of self.now.ops.keys self.now.nodes.entries)) kids.now }
        ensures are { IfOk result (λ found. (s : Sym) → list_any (λ k. sign_at self.now.signs k s) found.items ≡
            any_has (has_symbol s) (kid_trees (trees_of self.now.ops.keys self.now.nodes.entries) kids.now)) }
        ensures known { IfOk result (λ found. All (IsSign self.now.signs) found.items) }
    {
        let mut found = Vec::with_capacity(alloc, kids.len())?;
        for k in kids {
            found.push(self.facts(*k).sign)?;
        }
        Ok(found)
    }

    /// The signature of a node. Its symbols are numbered, and no node is kept.
    fn sign_over(&mut self, alloc: Global, key: &Key) -> Result<u32, StoreFault>
        requires op { key.now.op < length self.old.ops.keys }
        requires known { All (IsId (trees_of self.old.ops.keys self.old.nodes.entries)) key.now.kids }
        ensures signs { IfOk result (λ n. Signs self.new.signs n (λ s.
            occurs s (node (op_at self.old.ops.keys key.now.op) (kid_trees (trees_of self.old.ops.keys self.old.nodes.entries) key.now.kids)))) }
        ensures ops { self.new.ops ≡ self.old.ops }
        ensures nodes { self.new.nodes ≡ self.old.nodes }
        ensures sets { self.new.sets ≡ self.old.sets }
    {
        let kids = self.kid_signs(alloc, key.kids.as_slice())?;
        match self
            .signs
            .node_sign(&self.ops.as_slice()[key.op as usize], kids.as_slice())
        {
            Ok(sign) => Ok(sign),
            Err(VarFault::Memory) => Err(StoreFault::Memory),
        }
    }

    /// What is kept of a node with this operator, these kids, these sets and this signature.
    fn facts_over(&self, op: &Op, kids: &[Id], sets: NodeSets, sign: u32) -> Facts
        requires parts { IsTrue (has_parts op.now) }
        requires known { All (IsId (trees_of self.now.ops.keys self.now.nodes.entries)) kids.now }
        requires sets { MeanSets self.now.sets sets (sets_of (node op.now (kid_trees (trees_of self.now.ops.keys self.now.nodes.entries) kids.now))) }
        requires sign { Signs self.now.signs sign (λ s. occurs s (node op.now (kid_trees (trees_of self.now.ops.keys self.now.nodes.entries) kids.now))) }
        ensures { IsFactsOf self.now.sets self.now.signs (node op.now (kid_trees (trees_of self.now.ops.keys self.now.nodes.entries) kids.now)) result }
    {
        Facts {
            size: self.size_over(kids),
            depth: self.depth_over(kids),
            dots: self.dots_over(op, kids),
            hole: self.hole_over(op, kids),
            sets,
            sign,
        }
    }

    fn size_over(&self, kids: &[Id]) -> u32
        requires { All (IsId (trees_of self.now.ops.keys self.now.nodes.entries)) kids.now }
        ensures { result ≡ capped (1 + size_all (kid_trees (trees_of self.now.ops.keys self.now.nodes.entries) kids.now)) }
    {
        let mut n: u32 = 1;
        for k in kids {
            n = n.saturating_add(self.facts(*k).size);
        }
        n
    }

    fn depth_over(&self, kids: &[Id]) -> u32
        requires { All (IsId (trees_of self.now.ops.keys self.now.nodes.entries)) kids.now }
        ensures { result ≡ capped (1 + depth_all (kid_trees (trees_of self.now.ops.keys self.now.nodes.entries) kids.now)) }
    {
        let mut n: u32 = 0;
        for k in kids {
            n = n.max(self.facts(*k).depth);
        }
        n.saturating_add(1)
    }

    fn dots_over(&self, op: &Op, kids: &[Id]) -> u8
        requires parts { IsTrue (has_parts op.now) }
        requires known { All (IsId (trees_of self.now.ops.keys self.now.nodes.entries)) kids.now }
        ensures { AreDotsOf (node op.now (kid_trees (trees_of self.now.ops.keys self.now.nodes.entries) kids.now)) result }
    {
        let mut dots = dot_bit(op);
        for k in kids {
            dots |= self.facts(*k).dots;
        }
        dots
    }

    fn hole_over(&self, op: &Op, kids: &[Id]) -> bool
        requires { All (IsId (trees_of self.now.ops.keys self.now.nodes.entries)) kids.now }
        ensures { result ≡ has_hole (node op.now (kid_trees (trees_of self.now.ops.keys self.now.nodes.entries) kids.now)) }
    {
        let mut hole = is_hole(op);
        for k in kids {
            hole |= self.facts(*k).hole;
        }
        hole
    }

    /// The number of the operator, which is kept if it isn't yet.
    fn number(&mut self, op: Op) -> Result<u32, StoreFault>
        ensures op { IfOk result (λ n. op_at self.new.ops.keys n ≡ op) }
        ensures known { IfOk result (λ n. n < length self.new.ops.keys) }
        ensures trees { trees_of self.new.ops.keys self.new.nodes.entries ≡ trees_of self.old.ops.keys self.old.nodes.entries }
    {
        let (n, _) = self.ops.insert_full(op)?;
        match narrow(n) {
            Ok(n) => Ok(n),
            Err(VarFault::Memory) => Err(StoreFault::Memory),
        }
    }

    /// The id of a node, which is kept if it isn't yet.
    fn id_of(&mut self, alloc: Global, key: Key) -> Result<Id, StoreFault>
        requires op { key.op < length self.old.ops.keys }
        requires known { All (IsId (trees_of self.old.ops.keys self.old.nodes.entries)) key.kids }
        requires fits { Fits (op_at self.old.ops.keys key.op) (sorts_at (trees_of self.old.ops.keys self.old.nodes.entries) key.kids) }
        ensures made { IfOk result (λ id. StandsFor (trees_of self.new.ops.keys self.new.nodes.entries) id
            (node (op_at self.old.ops.keys key.op) (kid_trees (trees_of self.old.ops.keys self.old.nodes.entries) key.kids))) }
        ensures grows { Keeps (trees_of self.old.ops.keys self.old.nodes.entries) (trees_of self.new.ops.keys self.new.nodes.entries) }
    {
        match self.nodes.get_index_of(&key) {
            Some(place) => Ok(Id(place)),
            None => self.keep(alloc, key),
        }
    }

    /// Keeps a node that isn't kept yet, and first numbers its variables and symbols.
    fn keep(&mut self, alloc: Global, key: Key) -> Result<Id, StoreFault>
        requires absent { get ⟦<Key as PartialEq>⟧.eq self.old.nodes key ≡ None }
        requires op { key.op < length self.old.ops.keys }
        requires known { All (IsId (trees_of self.old.ops.keys self.old.nodes.entries)) key.kids }
        requires fits { Fits (op_at self.old.ops.keys key.op) (sorts_at (trees_of self.old.ops.keys self.old.nodes.entries) key.kids) }
        ensures made { IfOk result (λ id. StandsFor (trees_of self.new.ops.keys self.new.nodes.entries) id
            (node (op_at self.old.ops.keys key.op) (kid_trees (trees_of self.old.ops.keys self.old.nodes.entries) key.kids))) }
        ensures grows { Keeps (trees_of self.old.ops.keys self.old.nodes.entries) (trees_of self.new.ops.keys self.new.nodes.entries) }
    {
        let sets = self.sets_over(alloc, &key)?;
        let sign = self.sign_over(alloc, &key)?;
        self.push(key, sets, sign)
    }

    /// Keeps a node that isn't kept yet, with these sets and this signature.
    fn push(&mut self, key: Key, sets: NodeSets, sign: u32) -> Result<Id, StoreFault>
        requires absent { get ⟦<Key as PartialEq>⟧.eq self.old.nodes key ≡ None }
        requires op { key.op < length self.old.ops.keys }
        requires known { All (IsId (trees_of self.old.ops.keys self.old.nodes.entries)) key.kids }
        requires fits { Fits (op_at self.old.ops.keys key.op) (sorts_at (trees_of self.old.ops.keys self.old.nodes.entries) key.kids) }
        requires sets { MeanSets self.old.sets sets
            (sets_of (node (op_at self.old.ops.keys key.op) (kid_trees (trees_of self.old.ops.keys self.old.nodes.entries) key.kids))) }
        requires sign { Signs self.old.signs sign (λ s.
            occurs s (node (op_at self.old.ops.keys key.op) (kid_trees (trees_of self.old.ops.keys self.old.nodes.entries) key.kids))) }
        ensures made { IfOk result (λ id. StandsFor (trees_of self.new.ops.keys self.new.nodes.entries) id
            (node (op_at self.old.ops.keys key.op) (kid_trees (trees_of self.old.ops.keys self.old.nodes.entries) key.kids))) }
        ensures grows { Keeps (trees_of self.old.ops.keys self.old.nodes.entries) (trees_of self.new.ops.keys self.new.nodes.entries) }
    {
        let facts = self.facts_over(
            &self.ops.as_slice()[key.op as usize],
            key.kids.as_slice(),
            sets,
            sign,
        );
        let id = Id(self.nodes.len());
        self.nodes.insert(key, facts)?;
        Ok(id)
    }
}

impl Store for SharedStore {
    ghost use Rattle.dlk_shared.specs.Nodes.{trees_of};
    ghost use Rattle.dlk_shared.specs.Sound.{nodes_made};
    ghost use Rattle.dlk_shared.specs.Unique.{nodes_one_id};
    ghost use Rattle.dlk_store.specs.Stores.{Keeps};
    ghost use Rattle.dlk_store.specs.Kids.{Keeps-refl, Keeps-trans};
    ghost use Rattle.std.specs.Prelude.{true};

    ghost trees = { λ s. trees_of s.ops.keys s.nodes.entries };

    ghost unique = { true };

    ghost grows = { λ a b. Keeps (trees_of a.ops.keys a.nodes.entries) (trees_of b.ops.keys b.nodes.entries) };

    ghost grows_refl = { λ a. Keeps-refl (trees_of a.ops.keys a.nodes.entries) };

    ghost grows_trans = { λ a b c p q. Keeps-trans p q };

    ghost grows_keeps = { λ a b p. p };

    ghost one_id = { λ h s. nodes_one_id s.ops.keys s.nodes.entries s.ops_apart s.nodes_apart s.sound };

    ghost well_made = { λ s. nodes_made s.ops.keys s.nodes.entries s.sound };

    /// Where the node is there, its id is given and nothing is kept. Else its variables and symbols are numbered first.
    fn make(&mut self, alloc: Global, op: Op, kids: &[Id]) -> Result<Id, StoreFault> {
        let kids = Kids::new(alloc, kids)?;
        let op = self.number(op)?;
        self.id_of(alloc, Key { op, kids })
    }

    /// Over the very kids of `like` it is `like`. The operator is found by its number.
    fn make_like(&mut self, alloc: Global, like: Id, kids: &[Id]) -> Result<Id, StoreFault> {
        let key = self.key(like);
        if key.kids.as_slice() == kids {
            return Ok(like);
        }
        let op = key.op;
        let kids = Kids::new(alloc, kids)?;
        self.id_of(alloc, Key { op, kids })
    }

    fn look<L: Ledger>(&self, id: Id, steps: &mut Steps<L>) -> Node<'_> {
        steps.tick();
        let key = self.key(id);
        Node {
            op: &self.ops.as_slice()[key.op as usize],
            kids: key.kids.as_slice(),
        }
    }

    fn same(&self, a: Id, b: Id) -> bool {
        a == b
    }

    fn size(&self, id: Id) -> u32 {
        self.facts(id).size
    }

    fn depth(&self, id: Id) -> u32 {
        self.facts(id).depth
    }

    fn has_dot(&self, id: Id, n: u8) -> bool {
        let dots = self.facts(id).dots;
        n < 8 && (dots >> n) & 1 == 1
    }

    fn has_hole(&self, id: Id) -> bool {
        self.facts(id).hole
    }

    fn frees(&self, id: Id, v: &Var) -> bool {
        self.sets.has(self.facts(id).sets.free, v)
    }

    fn binds(&self, id: Id, v: &Var) -> bool {
        self.sets.has(self.facts(id).sets.bound, v)
    }

    fn must(&self, id: Id, v: &Var) -> bool {
        self.sets.has(self.facts(id).sets.must, v)
    }

    fn any_free(&self, id: Id) -> bool {
        self.sets.has_any(self.facts(id).sets.free)
    }

    fn free_meets_bound(&self, e: Id, a: Id) -> bool {
        self.sets
            .meet(self.facts(e).sets.free, self.facts(a).sets.bound)
    }

    fn list(&self, alloc: Global, id: Id, which: Which) -> Result<Listing, StoreFault> {
        match self.sets.list(alloc, self.facts(id).sets.of(which)) {
            Ok(listing) => Ok(listing),
            Err(VarFault::Memory) => Err(StoreFault::Memory),
        }
    }

    fn mentions(&self, id: Id, s: &Sym) -> bool {
        self.signs.has(self.facts(id).sign, s)
    }

    fn symbols(&self, alloc: Global, id: Id) -> Result<Vec<Sym>, StoreFault> {
        match self.signs.list(alloc, self.facts(id).sign) {
            Ok(syms) => Ok(syms),
            Err(VarFault::Memory) => Err(StoreFault::Memory),
        }
    }
}
