//! What stands in the brackets of a rule or behind the word of a step.
ghost use Rattle.std.specs.Prelude.{◌≡◌, ℕ, List, IsTrue, Err, IfSome, IfNone, IfOk, OnOk, IfErr};
ghost use Rattle.dlk_tree.specs.Names.{is_name};
ghost use Rattle.dlk_tree.specs.Trees.{Tree};
ghost use Rattle.dlk_store.specs.Stores.{IsId, tree};
ghost use Rattle.dlk_calculus.specs.Rules.{TwoPlaces, PlaceAndFormula, PlaceAndName};
ghost use Rattle.dlk_lines.specs.Spelled.{Spelling};
ghost use Rattle.dlk_lines.specs.Lines.{IsArguments};
ghost use Rattle.dlk_lines.specs.declared.fault.LineFault.TheVariants.{Memory};
ghost use Rattle.dlk_lines.specs.Read.{IsLineFaultOf};
ghost use Rattle.dlk_lines.specs.Wants.{BeginsWithNumber, IsPlaceAndName};

use crate::digits::{number, number_before};
use crate::fault::LineFault;
use crate::spelled::Spelled;
use dlk_store::{Id, Store};
use dlk_tree::Name;
use std::alloc::Global;

/// Two places with `,` between.
pub(crate) fn two_places(text: &[u8]) -> Option<(u32, u32)>
    ensures found { IfSome result (λ p. (w : Spelling) → IsArguments w text.now (TwoPlaces p.0 p.1)) }
    ensures none { IfNone result ((w : Spelling) (i k : ℕ) → ¬ IsArguments w text.now (TwoPlaces i k)) }
{
    let (first, rest) = number_before(text, b',')?;
    let second = number(rest)?;
    Some((first, second))
}

/// The name that the text is.
pub(crate) fn name(alloc: Global, text: &[u8]) -> Result<Name, LineFault>
    ensures found { IfOk result (λ name. name ≡ text.now) }
    ensures real { OnOk result (IsTrue (is_name text.now)) }
    ensures fault { IfErr result (IsLineFaultOf (¬ IsTrue (is_name text.now))) }
    ensures memory { result ≡ Err Memory → IsTrue (is_name text.now) }
{
    let name = Name::new(alloc, text)?;
    Ok(name)
}

/// A place and a name with `,` between.
pub(crate) fn place_and_name(alloc: Global, text: &[u8]) -> Result<(u32, Name), LineFault>
    ensures found { IfOk result (λ p. (w : Spelling) → IsArguments w text.now (PlaceAndName p.0 p.1)) }
    ensures fault { IfErr result (IsLineFaultOf ((w : Spelling) (i : ℕ) (y : List ℕ) → ¬ IsArguments w text.now (PlaceAndName i y))) }
    ensures memory { result ≡ Err Memory → IsPlaceAndName text.now }
{
    let Some((place, rest)) = number_before(text, b',') else {
        return Err(LineFault::Malformed);
    };
    let name = name(alloc, rest)?;
    Ok((place, name))
}

/// A place and a formula with `,` between.
pub(crate) fn place_and_formula<P: Spelled, S: Store>(
    alloc: Global,
    text: &[u8],
    spelled: &mut P,
    store: &mut S,
) -> Result<(u32, Id), LineFault>
    requires { P.IsReady spelled.old (S.trees store.old) }
    ensures found { IfOk result (λ p. IsArguments (P.spelling spelled.old (S.trees store.old)) text.now (PlaceAndFormula p.0 (tree (S.trees store.new) p.1))) }
    ensures known { IfOk result (λ p. IsId (S.trees store.new) p.1) }
    ensures fault { IfErr result (IsLineFaultOf ((i : ℕ) (h : Tree) →
        ¬ IsArguments (P.spelling spelled.old (S.trees store.old)) text.now (PlaceAndFormula i h))) }
    ensures memory { result ≡ Err Memory → BeginsWithNumber text.now 44 }
    ensures stays { P.spelling spelled.new (S.trees store.new) ≡ P.spelling spelled.old (S.trees store.old) }
    ensures grows { S.grows store.old store.new }
{
    let Some((place, rest)) = number_before(text, b',') else {
        return Err(LineFault::Malformed);
    };
    let formula = spelled.formula(alloc, rest, store)?;
    Ok((place, formula))
}
