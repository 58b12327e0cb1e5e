//! Rules with their arguments in brackets.
ghost use Rattle.std.specs.Prelude.{◌≡◌, Err, IfOk, IfErr};
ghost use Rattle.dlk_calculus.specs.Rules.{Rule as TreeRule, Arguments as TreeArguments};
ghost use Rattle.dlk_rules.specs.Steps.{rule_at, RuleIsKnown};
ghost use Rattle.dlk_rules.specs.Words.{shape_of, shape_in, arguments_at, ArgumentsAreKnown};
ghost use Rattle.dlk_lines.specs.Lines.{IsArguments, IsRule};
ghost use Rattle.dlk_lines.specs.declared.fault.LineFault.TheVariants.{Memory};
ghost use Rattle.dlk_lines.specs.Read.{IsLineFaultOf};
ghost use Rattle.dlk_lines.specs.Wants.{ArgumentsWant, RuleWants};

use crate::arguments::{place_and_formula, place_and_name, two_places};
use crate::digits::number;
use crate::fault::LineFault;
use crate::parts::bracketed;
use crate::spelled::Spelled;
use dlk_rules::{Arguments, Rule, RuleWord, Shape};
use dlk_store::Store;
use dlk_tree::Name;
use std::alloc::Global;

/// A rule with its arguments in brackets: its word decides what they are.
pub(crate) fn read_rule<P: Spelled, S: Store>(
    alloc: Global,
    text: &[u8],
    spelled: &mut P,
    store: &mut S,
) -> Result<Rule, LineFault>
    requires { P.IsReady spelled.old (S.trees store.old) }
    ensures found { IfOk result (λ rule. IsRule (P.spelling spelled.old (S.trees store.old)) text.now (rule_at (S.trees store.new) rule)) }
    ensures known { IfOk result (RuleIsKnown (S.trees store.new)) }
    ensures fault { IfErr result (IsLineFaultOf ((rule : TreeRule) → ¬ IsRule (P.spelling spelled.old (S.trees store.old)) text.now rule)) }
    ensures memory { result ≡ Err Memory → RuleWants text.now }
    ensures stays { P.spelling spelled.new (S.trees store.new) ≡ P.spelling spelled.old (S.trees store.old) }
    ensures grows { S.grows store.old store.new }
{
    let Some((word, arguments)) = bracketed(text) else {
        return Err(LineFault::Malformed);
    };
    let Some(word) = RuleWord::of_bytes(word) else {
        return Err(LineFault::Malformed);
    };
    let arguments = read_arguments(alloc, word.shape(), arguments, spelled, store)?;
    match word.rule(arguments) {
        Some(rule) => Ok(rule),
        None => Err(LineFault::Malformed),
    }
}

/// Arguments of this shape.
fn read_arguments<P: Spelled, S: Store>(
    alloc: Global,
    shape: Shape,
    text: &[u8],
    spelled: &mut P,
    store: &mut S,
) -> Result<Arguments<Name>, LineFault>
    requires { P.IsReady spelled.old (S.trees store.old) }
    ensures found { IfOk result (λ arguments.
        IsArguments (P.spelling spelled.old (S.trees store.old)) text.now (arguments_at (λ y. y) (S.trees store.new) arguments)) }
    ensures shape { IfOk result (λ arguments. shape_in arguments ≡ shape) }
    ensures known { IfOk result (ArgumentsAreKnown (S.trees store.new)) }
    ensures fault { IfErr result (IsLineFaultOf ((arguments : TreeArguments) → shape ≡ shape_of arguments →
        ¬ IsArguments (P.spelling spelled.old (S.trees store.old)) text.now arguments)) }
    ensures memory { result ≡ Err Memory → ArgumentsWant shape text.now }
    ensures stays { P.spelling spelled.new (S.trees store.new) ≡ P.spelling spelled.old (S.trees store.old) }
    ensures grows { S.grows store.old store.new }
{
    match shape {
        Shape::OnePlace => {
            let Some(place) = number(text) else {
                return Err(LineFault::Malformed);
            };
            Ok(Arguments::OnePlace(place))
        }
        Shape::TwoPlaces => {
            let Some((first, second)) = two_places(text) else {
                return Err(LineFault::Malformed);
            };
            Ok(Arguments::TwoPlaces(first, second))
        }
        Shape::PlaceAndFormula => {
            let (place, h) = place_and_formula(alloc, text, spelled, store)?;
            Ok(Arguments::PlaceAndFormula(place, h))
        }
        Shape::OneFormula => {
            let h = spelled.formula(alloc, text, store)?;
            Ok(Arguments::OneFormula(h))
        }
        Shape::PlaceAndName => {
            let (place, y) = place_and_name(alloc, text)?;
            Ok(Arguments::PlaceAndName(place, y))
        }
    }
}
