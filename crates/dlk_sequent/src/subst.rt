//! Substitutions: well-formed lists of pairs.
ghost use Rattle.std.specs.Prelude.{◌≡◌, ◌↔◌, ◌+◌, ◌*◌, ◌≤◌, List, length, IsTrue, IfOk, IfErr};
ghost use Rattle.dlk_tree.specs.Table.{kind_row};
ghost use Rattle.dlk_tree.specs.Listed.{IsInhabited};
ghost use Rattle.dlk_tree.specs.Statics.{free};
ghost use Rattle.dlk_tree.specs.Trees.{Tree};
ghost use Rattle.dlk_store.specs.Stores.{IsId, tree};
ghost use Rattle.dlk_calculus.specs.Pairs.{IsFreeIn};
ghost use Rattle.dlk_sequent.specs.Substitutions.{pairs_at, AreKnownPairs, IsMadeOver, IsIllFault};

use crate::fault::SubstFault;
use crate::well_formed::check;
use dlk_store::{Id, Steps, Store};
use dlk_tree::{Sym, kind_row};
use std::alloc::Global;
use std::marker::Model;
use std::sync::ledger::Ledger;

/// A symbol, and the tree that replaces it. In the tree for a function or a predicate a dot stands for each argument, and in
/// that for a predicational `_` stands for the formula.
#[derive(Drop, Debug)]
pub struct Pair {
    pub sym: Sym,
    pub by: Id,
}

/// A uniform substitution: pairs that are well formed over the store that they were made over, and over that store however
/// it grows (Platzer 2017, section on uniform substitution). Only `Subst::new` makes one.
#[derive(Drop, Debug)]
pub struct Subst {
    pairs: Vec<Pair>,
    free: bool,
}

impl Model for Subst {
    ghost use Rattle.dlk_sequent.specs.Substitutions.{Checked};

    ghost Value = { Checked };

    ghost view = { λ s. record { pairs = s.pairs.items; free = s.free } };
}

/// A uniform substitution as `Subst` is one, whose pairs stand elsewhere. Only `SubstOf::new` makes one, and it copies nothing.
#[derive(Drop, Debug)]
pub struct SubstOf<'a> {
    pairs: &'a [Pair],
    free: bool,
}

impl<'a> Model for SubstOf<'a> {
    ghost use Rattle.dlk_sequent.specs.Substitutions.{Checked};

    ghost Value = { Checked };

    ghost view = { λ s. record { pairs = s.pairs.now; free = s.free } };
}

/// Whether the pair replaces a function or a predicate, and some variable is free in the replacement.
fn is_free<S: Store>(store: &S, pair: &Pair) -> bool
    requires { IsId (S.trees store.now) pair.now.by }
    ensures { IsTrue result ↔ (IsTrue (kind_row pair.now.sym.kind).arguments × IsInhabited (free (tree (S.trees store.now) pair.now.by))) }
{
    kind_row(pair.sym.kind).arguments && store.any_free(pair.by)
}

/// Whether one of the pairs does so, with such a replacement.
fn is_free_in<S: Store>(store: &S, pairs: &[Pair]) -> bool
    requires { AreKnownPairs (S.trees store.now) pairs.now }
    ensures { IsTrue result ↔ IsFreeIn (pairs_at (S.trees store.now) pairs.now) }
{
    for pair in pairs {
        if is_free(store, pair) {
            return true;
        }
    }
    false
}

impl Subst {
    /// The substitution of these pairs, whose replacements are ids of the store, for use over this store or what it grows to.
    /// It takes at most two steps a pair.
    ///
    /// # Errors
    ///
    /// `Ill` where some pair is bad: it names the first one, counted from 1, and the first reason against it in the order of
    /// `Why`. `Memory` where none was left for the symbols of the pairs or the name of a taboo. The pairs are dropped then.
    pub fn new<S: Store, L: Ledger>(
        alloc: Global,
        store: &S,
        pairs: Vec<Pair>,
        steps: &mut Steps<L>,
    ) -> Result<Subst, SubstFault>
        requires known { AreKnownPairs (S.trees store.now) pairs.items }
        ensures pairs { IfOk result (λ sigma. sigma.pairs ≡ pairs.items) }
        ensures made { IfOk result (IsMadeOver (S.trees store.now)) }
        ensures ill { IfErr result (IsIllFault (S.trees store.now) pairs.items) }
        ensures cost { steps.new ≤ steps.old + 2 * length pairs.items }
    {
        check(alloc, store, &pairs, steps)?;
        let free = is_free_in(store, &pairs);
        Ok(Subst { pairs, free })
    }

    /// The pairs, in the order in which they were given. It takes no memory.
    pub fn pairs(&self) -> &[Pair]
        ensures { result.now ≡ self.now.pairs }
    {
        self.pairs.as_slice()
    }

    /// Whether some variable is free in the replacement of a function or a predicate, for rules that forbid such a
    /// substitution. It was found at making, and holds over each store that this is a substitution over. It takes no step and no
    /// memory.
    pub fn free(&self) -> bool
        ensures value { result ≡ self.now.free }
        ensures over { (trees : List Tree) → IsMadeOver trees self.now → (IsTrue result ↔ IsFreeIn (pairs_at trees self.now.pairs)) }
    {
        self.free
    }
}

impl<'a> SubstOf<'a> {
    /// The substitution of these pairs, as `Subst::new` makes one of pairs that it is given.
    ///
    /// # Errors
    ///
    /// As `Subst::new`.
    pub fn new<S: Store, L: Ledger>(
        alloc: Global,
        store: &S,
        pairs: &'a [Pair],
        steps: &mut Steps<L>,
    ) -> Result<SubstOf<'a>, SubstFault>
        requires known { AreKnownPairs (S.trees store.now) pairs.now }
        ensures pairs { IfOk result (λ sigma. sigma.pairs ≡ pairs.now) }
        ensures made { IfOk result (IsMadeOver (S.trees store.now)) }
        ensures ill { IfErr result (IsIllFault (S.trees store.now) pairs.now) }
        ensures cost { steps.new ≤ steps.old + 2 * length pairs.now }
    {
        check(alloc, store, pairs, steps)?;
        let free = is_free_in(store, pairs);
        Ok(SubstOf { pairs, free })
    }

    /// The pairs, in the order in which they were given.
    pub fn pairs(&self) -> &'a [Pair]
        ensures { result.now ≡ self.now.pairs }
    {
        self.pairs
    }

    /// Whether some variable is free in the replacement of a function or a predicate, as `Subst::free` says it.
    pub fn free(&self) -> bool
        ensures value { result ≡ self.now.free }
        ensures over { (trees : List Tree) → IsMadeOver trees self.now → (IsTrue result ↔ IsFreeIn (pairs_at trees self.now.pairs)) }
    {
        self.free
    }
}
