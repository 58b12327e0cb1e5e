//! Strategies with what names of the library stand for in their places.
ghost use Rattle.std.specs.Prelude.{◌≡◌, None, map, All, IfOk, IfSome, IfNone};
ghost use Rattle.dlk_tacsyn.specs.Rows.{IsOfText, AreOfText, library_row_of};
ghost use Rattle.dlk_tacsyn.specs.Strategies.{parts as all_parts};
ghost use Rattle.dlk_tacsyn.specs.Ties.{atom_at, AtomIsKnown, tactic_at, TacticIsKnown};
ghost use Rattle.dlk_library.specs.Library.{Expands};
ghost use Rattle.dlk_library.specs.Expanded.{AllExpanded, Expanded, Expansion};

use crate::calls::{at_place, formula_and_place, ghost_call, place_alone, with_formula};
use crate::rows::{ghost_of, propositional_of};
use dlk_store::{Store, StoreFault};
use dlk_tacsyn::{Atom, Tactic};
use std::alloc::Global;

/// The strategy that an atom's name stands for; each of its parts has the byte of the name. The atom is one of a text, and its ids are those of
/// the store. None comes exactly where the library doesn't have the name.
///
/// # Errors
///
/// `Memory`, at any time.
pub fn expand<S: Store>(alloc: Global, atom: &Atom, store: &S) -> Result<Option<Tactic>, StoreFault>
    requires known { AtomIsKnown (S.trees store.now) atom.now }
    requires of_text { IsOfText (atom_at (S.trees store.now) atom.now) }
    ensures found { IfOk result (λ found. IfSome found (λ t. Expands (atom_at (S.trees store.now) atom.now) (tactic_at (S.trees store.now) t))) }
    ensures known { IfOk result (λ found. IfSome found (TacticIsKnown (S.trees store.now))) }
    ensures none { IfOk result (λ found. IfNone found (library_row_of atom.now.name ≡ None)) }
{
    let at = atom.at;
    let name = atom.name.bytes();
    let args = atom.args.as_slice();
    if name == b"prop".as_slice() {
        return Ok(Some(propositional_of(alloc, at)?));
    }
    if name == b"dG".as_slice() {
        let Some((y, a, b, place)) = ghost_call(args) else {
            return Ok(None);
        };
        return Ok(Some(ghost_of(alloc, at, y, a, b, place)?));
    }
    if let Some(place) = place_alone(args) {
        return Ok(at_place(alloc, at, name, place)?);
    }
    let Some((h, place)) = formula_and_place(args) else {
        return Ok(None);
    };
    Ok(with_formula(alloc, at, name, h, place)?)
}

/// What an atom of a text becomes: what its name stands for, or the atom itself.
fn expansion<S: Store>(alloc: Global, atom: &Atom, store: &S) -> Result<Tactic, StoreFault>
    requires known { AtomIsKnown (S.trees store.now) atom.now }
    requires of_text { IsOfText (atom_at (S.trees store.now) atom.now) }
    ensures found { IfOk result (λ t. Expansion (atom_at (S.trees store.now) atom.now) (tactic_at (S.trees store.now) t)) }
    ensures known { IfOk result (TacticIsKnown (S.trees store.now)) }
{
    match expand(alloc, atom, store)? {
        Some(t) => Ok(t),
        None => Ok(Tactic::One(atom.copy(alloc)?)),
    }
}

/// The strategy with what names of the library stand for in their places. Its atoms are those of a text, and its ids those of the store.
///
/// # Errors
///
/// `Memory`, at any time.
#[cycle(expanded)]
pub fn expanded<S: Store>(alloc: Global, t: &Tactic, store: &S) -> Result<Tactic, StoreFault>
    requires known { TacticIsKnown (S.trees store.now) t.now }
    requires of_text { AreOfText (tactic_at (S.trees store.now) t.now) }
    ensures found { IfOk result (λ new. Expanded (tactic_at (S.trees store.now) t.now) (tactic_at (S.trees store.now) new)) }
    ensures known { IfOk result (TacticIsKnown (S.trees store.now)) }
{
    match t {
        Tactic::Choice(parts) => Ok(Tactic::choice(all_expanded(alloc, parts.as_slice(), store)?)),
        Tactic::Seq(parts) => Ok(Tactic::sequence(all_expanded(alloc, parts.as_slice(), store)?)),
        Tactic::Branch { at, parts } => {
            Ok(Tactic::branch(*at, all_expanded(alloc, parts.as_slice(), store)?))
        }
        Tactic::Repeat { body, times } => {
            let body = Box::new(alloc, expanded(alloc, body, store)?)?;
            Ok(Tactic::Repeat {
                body,
                times: *times,
            })
        }
        Tactic::One(atom) => expansion(alloc, atom, store),
    }
}

/// The same of each of these, in order.
#[cycle(expanded)]
fn all_expanded<S: Store>(
    alloc: Global,
    parts: &[Tactic],
    store: &S,
) -> Result<Vec<Tactic>, StoreFault>
    requires known { All (TacticIsKnown (S.trees store.now)) parts.now }
    requires of_text { All (λ t. AreOfText (tactic_at (S.trees store.now) t)) parts.now }
    ensures found { IfOk result (λ new.
        AllExpanded (all_parts (map (tactic_at (S.trees store.now)) parts.now)) (all_parts (map (tactic_at (S.trees store.now)) new.items))) }
    ensures known { IfOk result (λ new. All (TacticIsKnown (S.trees store.now)) new.items) }
{
    let mut new = Vec::new(alloc);
    for t in parts {
        let t = expanded(alloc, t, store)?;
        new.push(t)?;
    }
    Ok(new)
}
