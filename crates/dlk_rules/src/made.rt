//! What rules make: implications and equivalences, and lists of premises.
ghost use Rattle.std.specs.Prelude.{◌≡◌, ◌∷◌, [], IfOk, IsTrue};
ghost use Rattle.dlk_tree.specs.declared.op.Sort.TheVariants.{Formula};
ghost use Rattle.dlk_tree.specs.Table.{kid_sorts, has_parts};
ghost use Rattle.dlk_tree.specs.Trees.{node, kid, no_kids, sort};
ghost use Rattle.dlk_store.specs.Stores.{IsId, tree, StandsFor};
ghost use Rattle.dlk_calculus.specs.Rules.{imply, equiv};

use dlk_sequent::Sequent;
use dlk_store::{Id, Store, StoreFault};
use dlk_tree::Op;
use std::alloc::{AllocError, Global};

/// `f -> g`.
pub(crate) fn imply<S: Store>(alloc: Global, store: &mut S, f: Id, g: Id) -> Result<Id, StoreFault>
    requires f { IsId (S.trees store.old) f }
    requires g { IsId (S.trees store.old) g }
    requires f_sort { sort (tree (S.trees store.old) f) ≡ Formula }
    requires g_sort { sort (tree (S.trees store.old) g) ≡ Formula }
    ensures made { IfOk result (λ made. StandsFor (S.trees store.new) made (imply (tree (S.trees store.old) f) (tree (S.trees store.old) g))) }
    ensures grows { S.grows store.old store.new }
{
    store.make(alloc, Op::Imply, &[f, g])
}

/// `f <-> g`.
pub(crate) fn equiv<S: Store>(alloc: Global, store: &mut S, f: Id, g: Id) -> Result<Id, StoreFault>
    requires f { IsId (S.trees store.old) f }
    requires g { IsId (S.trees store.old) g }
    requires f_sort { sort (tree (S.trees store.old) f) ≡ Formula }
    requires g_sort { sort (tree (S.trees store.old) g) ≡ Formula }
    ensures made { IfOk result (λ made. StandsFor (S.trees store.new) made (equiv (tree (S.trees store.old) f) (tree (S.trees store.old) g))) }
    ensures grows { S.grows store.old store.new }
{
    store.make(alloc, Op::Equiv, &[f, g])
}

/// `f -> g` and `g -> f`.
pub(crate) fn both_ways<S: Store>(
    alloc: Global,
    store: &mut S,
    f: Id,
    g: Id,
) -> Result<(Id, Id), StoreFault>
    requires f { IsId (S.trees store.old) f }
    requires g { IsId (S.trees store.old) g }
    requires f_sort { sort (tree (S.trees store.old) f) ≡ Formula }
    requires g_sort { sort (tree (S.trees store.old) g) ≡ Formula }
    ensures there { IfOk result (λ made. StandsFor (S.trees store.new) made.0 (imply (tree (S.trees store.old) f) (tree (S.trees store.old) g))) }
    ensures back { IfOk result (λ made. StandsFor (S.trees store.new) made.1 (imply (tree (S.trees store.old) g) (tree (S.trees store.old) f))) }
    ensures grows { S.grows store.old store.new }
{
    let there = imply(alloc, store, f, g)?;
    let back = imply(alloc, store, g, f)?;
    Ok((there, back))
}

/// One premise.
pub(crate) fn one(alloc: Global, s: Sequent) -> Result<Vec<Sequent>, AllocError>
    ensures { IfOk result (λ all. all.items ≡ s ∷ []) }
{
    let mut all = Vec::new(alloc);
    all.push(s)?;
    Ok(all)
}

/// Two premises.
pub(crate) fn two(alloc: Global, s: Sequent, t: Sequent) -> Result<Vec<Sequent>, AllocError>
    ensures { IfOk result (λ all. all.items ≡ s ∷ t ∷ []) }
{
    let mut all = one(alloc, s)?;
    all.push(t)?;
    Ok(all)
}
