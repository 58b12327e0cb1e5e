//! Names of the library by their arguments.
ghost use Rattle.std.specs.Prelude.{◌≡◌, ◌≢◌, ◌∷◌, [], ℕ, List, false, IfOk, IfSome, IfNone};
ghost use Rattle.dlk_tree.specs.Trees.{Tree};
ghost use Rattle.dlk_store.specs.declared.Id.{Id};
ghost use Rattle.dlk_store.specs.Stores.{IsId, tree};
ghost use Rattle.dlk_tacsyn.specs.Tactics.{GivenFormula};
ghost use Rattle.dlk_tacsyn.specs.Rows.{is_at_place, is_with_formula};
ghost use Rattle.dlk_tacsyn.specs.Ties.{argument_at, ArgumentIsKnown, tactic_at, TacticIsKnown};
ghost use Rattle.dlk_library.specs.Library.{Expands};

use crate::rows::{cut_of, invariant_of, loop_of, step_of, weakening_of};
use dlk_store::Id;
use dlk_tacsyn::{Arg, Tactic};
use dlk_tree::Name;
use std::alloc::{AllocError, Global};

/// A place alone.
pub(crate) fn place_alone(args: &[Arg]) -> Option<&Arg>
    ensures found { IfSome result (λ p. args.now ≡ p.now ∷ []) }
    ensures none { IfNone result ((p : Arg) → args.now ≢ p ∷ []) }
{
    let [place] = args else {
        return None;
    };
    Some(place)
}

/// A formula and a place.
pub(crate) fn formula_and_place(args: &[Arg]) -> Option<(Id, &Arg)>
    ensures found { IfSome result (λ c. args.now ≡ Arg.Formula c.0 ∷ c.1.now ∷ []) }
    ensures none { IfNone result ((h : Id) (p : Arg) → args.now ≢ Arg.Formula h ∷ p ∷ []) }
{
    let [quoted, place] = args else {
        return None;
    };
    let Arg::Formula(h) = quoted else {
        return None;
    };
    Some((*h, place))
}

/// A name, two terms and a place.
pub(crate) fn ghost_call(args: &[Arg]) -> Option<(&Name, Id, Id, &Arg)>
    ensures found { IfSome result (λ c. args.now ≡ Arg.Word c.0.now ∷ Arg.Term c.1 ∷ Arg.Term c.2 ∷ c.3.now ∷ []) }
    ensures none { IfNone result ((y : List ℕ) (a b : Id) (p : Arg) → args.now ≢ Arg.Word y ∷ Arg.Term a ∷ Arg.Term b ∷ p ∷ []) }
{
    let [named, first, second, place] = args else {
        return None;
    };
    let Arg::Word(y) = named else {
        return None;
    };
    let Arg::Term(a) = first else {
        return None;
    };
    let Arg::Term(b) = second else {
        return None;
    };
    Some((y, *a, *b, place))
}

/// What a name at a place alone stands for. None comes where it is none of these.
pub(crate) fn at_place(
    alloc: Global,
    at: usize,
    name: &[u8],
    place: &Arg,
) -> Result<Option<Tactic>, AllocError>
    ensures found { IfOk result (λ found. IfSome found (λ t. (trees : List Tree)
        → Expands (record { name = name.now; arguments = argument_at trees place.now ∷ []; at = at }) (tactic_at trees t))) }
    ensures known { IfOk result (λ found. IfSome found (λ t. (trees : List Tree) → ArgumentIsKnown trees place.now → TacticIsKnown trees t)) }
    ensures none { IfOk result (λ found. IfNone found (is_at_place name.now ≡ false)) }
{
    if name == b"dW".as_slice() {
        return Ok(Some(weakening_of(alloc, at, place)?));
    }
    if name == b"dI".as_slice() {
        return Ok(Some(invariant_of(alloc, at, place)?));
    }
    if name == b"step".as_slice() {
        return Ok(Some(step_of(alloc, at, place)?));
    }
    Ok(None)
}

/// What a name with a formula and a place stands for. None comes where it is none of these.
pub(crate) fn with_formula(
    alloc: Global,
    at: usize,
    name: &[u8],
    h: Id,
    place: &Arg,
) -> Result<Option<Tactic>, AllocError>
    ensures found { IfOk result (λ found. IfSome found (λ t. (trees : List Tree)
        → Expands (record { name = name.now; arguments = GivenFormula (tree trees h) ∷ argument_at trees place.now ∷ []; at = at }) (tactic_at trees t))) }
    ensures known { IfOk result (λ found. IfSome found (λ t. (trees : List Tree) → IsId trees h → ArgumentIsKnown trees place.now → TacticIsKnown trees t)) }
    ensures none { IfOk result (λ found. IfNone found (is_with_formula name.now ≡ false)) }
{
    if name == b"loop".as_slice() {
        return Ok(Some(loop_of(alloc, at, h, place)?));
    }
    if name == b"dC".as_slice() {
        return Ok(Some(cut_of(alloc, at, h, place)?));
    }
    Ok(None)
}
