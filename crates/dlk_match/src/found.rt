//! The names and pairs with which an axiom's key is a given tree.
ghost use Rattle.std.specs.Prelude.{◌≡◌, IfOk, MatchOption};
ghost use Rattle.dlk_store.specs.Stores.{IsId, tree};
ghost use Rattle.dlk_sequent.specs.Extras.{extra_at, IsKnownExtra};
ghost use Rattle.dlk_match.specs.Found.{HasNoMatch, IsMatch, pairs_renamed};
ghost use Rattle.dlk_match.specs.Matching.{renamed_taboo, renamed_symbol};

use crate::naming::{are_apart, are_given};
use crate::taking::new_name;
use crate::walk::match_tree;
use dlk_sequent::{Extra, Listed, Pair};
use dlk_store::{Id, Steps, Store, StoreFault};
use dlk_tree::{Name, Sym};
use std::alloc::{AllocError, Global};
use std::sync::ledger::Ledger;

/// The name that the taboo gets, or the same.
fn renamed_taboo(renames: &[(Name, Name)], y: &Name) -> Result<Name, AllocError>
    ensures { IfOk result (λ z. z ≡ renamed_taboo renames.now y.now) }
{
    match new_name(renames, y) {
        Some(z) => z.clone(),
        None => y.clone(),
    }
}

/// The symbol with the name that its taboo gets.
fn renamed_symbol(renames: &[(Name, Name)], s: &Sym) -> Result<Sym, AllocError>
    ensures { IfOk result (λ t. t ≡ renamed_symbol renames.now s.now) }
{
    let name = s.name.clone()?;
    let taboo = match &s.taboo {
        None => None,
        Some(y) => Some(renamed_taboo(renames, y)?),
    };
    Ok(Sym {
        kind: s.kind,
        name,
        arity: s.arity,
        taboo,
    })
}

/// The pairs with the taboos of their symbols renamed.
fn renamed_pairs(
    alloc: Global,
    renames: &[(Name, Name)],
    pairs: &[Pair],
) -> Result<Listed<Pair>, AllocError>
    ensures { IfOk result (λ new. new ≡ pairs_renamed renames.now pairs.now) }
{
    let mut new = Vec::new(alloc);
    for pair in pairs {
        let sym = renamed_symbol(renames, &pair.sym)?;
        new.push(Pair { sym, by: pair.by })?;
    }
    Ok(Listed::from_vec(new))
}

/// The names and pairs, the given ones first, with which the key of an axiom with these own names is the target. None comes exactly
/// where there are none (`one_match` says that there is at most one such answer): where the key's shape isn't the target's, a symbol
/// would have two replacements, two names would become one, a name would become another of the axiom's own, or the given names begin
/// with one that isn't the axiom's or twice with one. The symbols of the pairs have the names of their taboos changed, too.
///
/// # Errors
///
/// `Memory` alone; the store may have more nodes then.
pub fn matching<S: Store, L: Ledger>(
    alloc: Global,
    store: &mut S,
    key: Id,
    own: &[Name],
    target: Id,
    given: &Extra,
    steps: &mut Steps<L>,
) -> Result<Option<Extra>, StoreFault>
    requires key { IsId (S.trees store.old) key }
    requires target { IsId (S.trees store.old) target }
    requires given { IsKnownExtra (S.trees store.old) given.now }
    ensures found { IfOk result (λ found.
        MatchOption found (HasNoMatch (tree (S.trees store.old) key) own.now (tree (S.trees store.old) target) (extra_at (S.trees store.old) given.now))
        (IsMatch (tree (S.trees store.old) key) own.now (tree (S.trees store.old) target) (extra_at (S.trees store.old) given.now) (S.trees store.new))) }
    ensures grows { S.grows store.old store.new }
{
    if !are_given(own, given.renames.as_slice()) {
        return Ok(None);
    }
    let mut extra = given.copy(alloc)?;
    if !match_tree(alloc, store, &mut extra, key, target, steps)? {
        return Ok(None);
    }
    if !are_apart(own, extra.renames.as_slice()) {
        return Ok(None);
    }
    extra.pairs = renamed_pairs(alloc, extra.renames.as_slice(), extra.pairs.as_slice())?;
    Ok(Some(extra))
}
