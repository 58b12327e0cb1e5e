//! Whether pairs are well formed.
ghost use Rattle.std.specs.Prelude.{◌≡◌, ◌+◌, ◌*◌, ◌≤◌, length, IfOk, IfErr};
ghost use Rattle.std.specs.List.{list_any};
ghost use Rattle.dlk_tree.specs.Tests.{sym_eq};
ghost use Rattle.dlk_calculus.specs.Pairs.{IsWellFormed};
ghost use Rattle.dlk_sequent.specs.declared.subst.Pair.{Pair as IdPair};
ghost use Rattle.dlk_sequent.specs.Substitutions.{pairs_at, AreKnownPairs, IsIllFault};

use crate::fault::SubstFault;
use crate::subst::Pair;
use crate::symbols::Symbols;
use crate::why::why;
use dlk_store::{Steps, Store};
use dlk_tree::{Sym, same_sym};
use std::alloc::Global;
use std::sync::ledger::Ledger;

/// So many pairs are compared with each other at most: the symbols of more of them are kept in a set.
const MOST_COMPARED: usize = 8;

/// Whether one of the pairs has this symbol.
fn have_symbol(pairs: &[Pair], s: &Sym) -> bool
    ensures { result ≡ list_any (λ (p : IdPair). sym_eq s.now p.sym) pairs.now }
{
    for pair in pairs {
        if same_sym(s, &pair.sym) {
            return true;
        }
    }
    false
}

/// Checks that these pairs are well formed, each against those before it.
fn check_few<S: Store, L: Ledger>(
    store: &S,
    pairs: &[Pair],
    steps: &mut Steps<L>,
) -> Result<(), SubstFault>
    requires { AreKnownPairs (S.trees store.now) pairs.now }
    ensures well_formed { IfOk result (λ done. IsWellFormed (pairs_at (S.trees store.now) pairs.now)) }
    ensures ill { IfErr result (IsIllFault (S.trees store.now) pairs.now) }
    ensures cost { steps.new ≤ steps.old + 2 * length pairs.now }
{
    for i in 0..pairs.len() {
        let pair = &pairs[i];
        let twice = have_symbol(&pairs[..i], &pair.sym);
        if let Some(why) = why(store, twice, pair, steps)? {
            return Err(SubstFault::Ill { pair: i + 1, why });
        }
    }
    Ok(())
}

/// The same by a set of the symbols of those before it.
fn check_many<S: Store, L: Ledger>(
    alloc: Global,
    store: &S,
    pairs: &[Pair],
    steps: &mut Steps<L>,
) -> Result<(), SubstFault>
    requires { AreKnownPairs (S.trees store.now) pairs.now }
    ensures well_formed { IfOk result (λ done. IsWellFormed (pairs_at (S.trees store.now) pairs.now)) }
    ensures ill { IfErr result (IsIllFault (S.trees store.now) pairs.now) }
    ensures cost { steps.new ≤ steps.old + 2 * length pairs.now }
{
    let mut earlier = Symbols::new(alloc);
    for i in 0..pairs.len() {
        let pair = &pairs[i];
        let twice = earlier.has(&pair.sym);
        if let Some(why) = why(store, twice, pair, steps)? {
            return Err(SubstFault::Ill { pair: i + 1, why });
        }
        earlier.insert(&pair.sym)?;
    }
    Ok(())
}

/// Checks that these pairs, whose replacements are ids of the store, are well formed, in at most two steps a pair.
///
/// # Errors
///
/// `Ill` where some pair is bad: it names the first one, counted from 1, and the first reason against it in the order of `Why`.
/// `Memory` where none was left for the symbols of the pairs or the name of a taboo.
pub(crate) fn check<S: Store, L: Ledger>(
    alloc: Global,
    store: &S,
    pairs: &[Pair],
    steps: &mut Steps<L>,
) -> Result<(), SubstFault>
    requires { AreKnownPairs (S.trees store.now) pairs.now }
    ensures well_formed { IfOk result (λ done. IsWellFormed (pairs_at (S.trees store.now) pairs.now)) }
    ensures ill { IfErr result (IsIllFault (S.trees store.now) pairs.now) }
    ensures cost { steps.new ≤ steps.old + 2 * length pairs.now }
{
    if pairs.len() <= MOST_COMPARED {
        check_few(store, pairs, steps)
    } else {
        check_many(alloc, store, pairs, steps)
    }
}
