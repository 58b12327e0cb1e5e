//! The arguments of atoms as those of rules.
ghost use Rattle.std.specs.Prelude.{◌≡◌, ◌≢◌, ℕ, List, map, All, Err, IfSome, IfNone, IfOk, IfErr};
ghost use Rattle.dlk_tree.specs.Trees.{Tree};
ghost use Rattle.dlk_calculus.specs.Rules.{Arguments as TreeArguments};
ghost use Rattle.dlk_rules.specs.Steps.{side_of};
ghost use Rattle.dlk_rules.specs.Words.{shape_of, shape_in, wanted, arguments_at, ArgumentsAreKnown};
ghost use Rattle.dlk_tacsyn.specs.Ties.{argument_at, ArgumentIsKnown};
ghost use Rattle.dlk_elab.specs.Atoms.{IsThere, AreFor, NoPlace};
ghost use Rattle.dlk_elab.specs.declared.fault.TacFault.TheVariants.{Memory};
ghost use Rattle.dlk_elab.specs.Ties.{IsTacFault, HasNone, HasSome};

use crate::fault::TacFault;
use dlk_rules::{Arguments, RuleWord, Shape, Side};
use dlk_sequent::Place;
use dlk_store::Id;
use dlk_tacsyn::Arg;
use dlk_tree::Name;
use std::alloc::Global;

/// The number of a place on a side, without a path.
fn place(side: Option<Side>, arg: &Arg) -> Result<u32, TacFault>
    ensures ok { IfOk result (λ i. (trees : List Tree) → IsThere side i (argument_at trees arg.now)) }
    ensures fault { IfErr result (IsTacFault (λ why. (why ≡ NoPlace) × ((trees : List Tree) (i : ℕ) → ¬ IsThere side i (argument_at trees arg.now)))) }
    ensures decides { IfErr result (λ why. why ≢ Memory) }
{
    let Arg::At { place, path } = arg else {
        return Err(TacFault::NoPlace);
    };
    if !path.as_slice().is_empty() {
        return Err(TacFault::NoPlace);
    }
    match (side, place) {
        (Some(Side::Left), Place::Ante(i)) => Ok(*i),
        (Some(Side::Right), Place::Succ(j)) => Ok(*j),
        _ => Err(TacFault::NoPlace),
    }
}

/// A formula in quotes.
fn formula(arg: &Arg) -> Option<Id>
    ensures found { IfSome result (λ h. arg.now ≡ Arg.Formula h) }
    ensures none { IfNone result ((h : Id) → arg.now ≢ Arg.Formula h) }
{
    match arg {
        Arg::Formula(h) => Some(*h),
        _ => None,
    }
}

/// A name.
fn word(arg: &Arg) -> Option<&Name>
    ensures found { IfSome result (λ y. arg.now ≡ Arg.Word y.now) }
    ensures none { IfNone result ((y : List ℕ) → arg.now ≢ Arg.Word y) }
{
    match arg {
        Arg::Word(y) => Some(y),
        _ => None,
    }
}

/// The arguments of a rule with this word that an atom's say: a formula and a name come before a place.
pub(crate) fn rule_arguments(
    alloc: Global,
    rule: RuleWord,
    args: &[Arg],
) -> Result<Arguments<Name>, TacFault>
    ensures found { IfOk result (λ a. (trees : List Tree) → AreFor (side_of rule) (map (argument_at trees) args.now) (arguments_at (λ y. y) trees a)) }
    ensures shape { IfOk result (λ a. shape_in a ≡ wanted rule) }
    ensures known { IfOk result (λ a. (trees : List Tree) → All (ArgumentIsKnown trees) args.now → ArgumentsAreKnown trees a) }
    ensures fault { IfErr result (IsTacFault (λ why. (why ≡ NoPlace) ×
        ((trees : List Tree) → HasNone (wanted rule) (side_of rule) (map (argument_at trees) args.now)))) }
    ensures memory { result ≡ Err Memory → (trees : List Tree) → HasSome (wanted rule) (side_of rule) (map (argument_at trees) args.now) }
{
    let side = rule.side();
    match rule.shape() {
        Shape::OnePlace => {
            let [at] = args else {
                return Err(TacFault::NoPlace);
            };
            let i = place(side, at)?;
            Ok(Arguments::OnePlace(i))
        }
        Shape::TwoPlaces => {
            let [first, second] = args else {
                return Err(TacFault::NoPlace);
            };
            let i = place(side, first)?;
            let k = place(side, second)?;
            Ok(Arguments::TwoPlaces(i, k))
        }
        Shape::PlaceAndFormula => {
            let [quoted, at] = args else {
                return Err(TacFault::NoPlace);
            };
            let Some(h) = formula(quoted) else {
                return Err(TacFault::NoPlace);
            };
            let i = place(side, at)?;
            Ok(Arguments::PlaceAndFormula(i, h))
        }
        Shape::OneFormula => {
            let [quoted] = args else {
                return Err(TacFault::NoPlace);
            };
            let Some(h) = formula(quoted) else {
                return Err(TacFault::NoPlace);
            };
            Ok(Arguments::OneFormula(h))
        }
        Shape::PlaceAndName => {
            let [named, at] = args else {
                return Err(TacFault::NoPlace);
            };
            let Some(y) = word(named) else {
                return Err(TacFault::NoPlace);
            };
            let i = place(side, at)?;
            let y = y.clone()?;
            Ok(Arguments::PlaceAndName(i, y))
        }
    }
}
