//! The static semantics by walking: one walk answers for the two variables of a name.
ghost use Rattle.std.specs.Prelude.{◌≡◌, All};
ghost use Rattle.dlk_tree.specs.Statics.{sets, sets_all, as_kids};
ghost use Rattle.dlk_store.specs.Stores.{IsId, tree, kid_trees};
ghost use Rattle.dlk_plain.specs.Plain.{trees_of};
ghost use Rattle.dlk_plain.specs.Sets.{on, members, set_of, IsSet};

use crate::sets::{Members, Two, all_but, just, just_plain, none, reads, unknown};
use crate::sought::VarSet;
use crate::store::PlainStore;
use dlk_store::Id;
use dlk_tree::Op;

impl PlainStore {
    /// What is free or bound in one of the trees.
    #[cycle(sets)]
    fn of_kids(&self, kids: &[Id], name: &[u8]) -> Members
        requires { All (IsId (trees_of self.now.nodes.items)) kids.now }
        ensures { result ≡ members name.now (as_kids (sets_all (kid_trees (trees_of self.now.nodes.items) kids.now))) }
    {
        let mut free = none();
        let mut bound = none();
        for k in kids {
            let kid = self.sets_at(*k, name);
            free = free.either(kid.free);
            bound = bound.either(kid.bound);
        }
        Members {
            free,
            bound,
            must: none(),
        }
    }

    /// The sets of a tree, on the two variables of the name: one arm a row of the table.
    #[cycle(sets)]
    pub(crate) fn sets_at(&self, id: Id, name: &[u8]) -> Members
        requires { IsId (trees_of self.now.nodes.items) id }
        ensures { result ≡ members name.now (sets (tree (trees_of self.now.nodes.items) id)) }
    {
        let node = self.node(id);
        let kids = node.kids;
        match node.op {
            Op::Variable(v) => reads(just(v, name)),
            Op::Number(_) | Op::Dot(_) | Op::True | Op::False => reads(none()),
            Op::UnitFun(s) | Op::UnitPred(s) => reads(all_but(&s.taboo, name)),
            Op::Predicational(_) | Op::Hole | Op::Const(_) => unknown(),
            Op::Diff | Op::DiffF => self.of_kids(kids, name).and_primes(),
            Op::Forall(x) | Op::Exists(x) => {
                self.of_kids(kids, name).quantified(just_plain(x, name))
            }
            Op::Box | Op::Dia => self
                .sets_at(kids[0], name)
                .modal(self.sets_at(kids[1], name)),
            Op::Assign(v) => self.of_kids(kids, name).assigns(just(v, name)),
            Op::Any(x) => reads(none()).assigns(just_plain(x, name)),
            Op::Test => reads(self.of_kids(kids, name).free),
            Op::System(items) => self.of_kids(kids, name).evolves(items.items(), name),
            Op::Choice => self.sets_at(kids[0], name).or(self.sets_at(kids[1], name)),
            Op::Seq => self
                .sets_at(kids[0], name)
                .then(self.sets_at(kids[1], name)),
            _ => self.of_kids(kids, name),
        }
    }

    /// Whether the two variables of the name are in the set.
    pub(crate) fn in_set(&self, set: VarSet, name: &[u8]) -> Two
        requires { IsSet (trees_of self.now.nodes.items) set }
        ensures { result ≡ on name.now (set_of (trees_of self.now.nodes.items) set) }
    {
        match set {
            VarSet::Free(id) => self.sets_at(id, name).free,
            VarSet::Bound(id) => self.sets_at(id, name).bound,
            VarSet::Must(id) => self.sets_at(id, name).must,
            VarSet::FreeAndBound(e, a) => {
                self.sets_at(e, name).free.both(self.sets_at(a, name).bound)
            }
        }
    }
}
