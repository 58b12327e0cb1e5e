//! The written form of rules.
ghost use Rattle.std.specs.Prelude.{◌+◌, ◌≤◌, [], ◌∷◌};
ghost use Rattle.std.specs.Fmt.{decimal};
ghost use Rattle.dlk_calculus.specs.Rules.{arguments_of};
ghost use Rattle.dlk_store.specs.Stores.{IsId, tree};
ghost use Rattle.dlk_rules.specs.Steps.{rule_at, RuleIsKnown};
ghost use Rattle.dlk_print.specs.Printed.{Appends};
ghost use Rattle.dlk_rules.specs.Words.{arguments_at, ArgumentsAreKnown};
ghost use Rattle.dlk_lines.specs.Written.{both, formula_text, arguments_text, rule_text, formulas_in};
ghost use Rattle.dlk_lines.specs.Looks.{formula_looks, arguments_looks, rule_looks};

use crate::append::{append_formula, append_name, append_number};
use crate::spelled::Spells;
use dlk_print::{PrintFault, append, append_decimal};
use dlk_rules::{Arguments, Rule};
use dlk_store::{Id, Steps};
use dlk_tree::Name;
use std::sync::ledger::Ledger;

/// Appends a rule: its word, and its arguments in brackets.
pub(crate) fn write_rule<W: Spells, L: Ledger>(
    writer: &W,
    rule: &Rule,
    out: &mut Vec<u8>,
    steps: &mut Steps<L>,
) -> Result<(), PrintFault>
    requires known { RuleIsKnown (W.trees writer.now) rule.now }
    requires there { W.Has writer.now (formulas_in (arguments_of (rule_at (W.trees writer.now) rule.now))) }
    ensures text { Appends out.old.items out.new.items (rule_text (W.spelling writer.now) (rule_at (W.trees writer.now) rule.now)) result }
    ensures cost { steps.new ≤ steps.old + rule_looks (W.spelling writer.now) (rule_at (W.trees writer.now) rule.now) }
{
    append(out, rule.word().text().as_bytes())?;
    append(out, b"(")?;
    write_arguments(writer, rule.arguments(), out, steps)?;
    append(out, b")")
}

/// Appends the arguments of a rule.
fn write_arguments<W: Spells, L: Ledger>(
    writer: &W,
    arguments: Arguments<&Name>,
    out: &mut Vec<u8>,
    steps: &mut Steps<L>,
) -> Result<(), PrintFault>
    requires known { ArgumentsAreKnown (W.trees writer.now) arguments }
    requires there { W.Has writer.now (formulas_in (arguments_at (λ y. y.now) (W.trees writer.now) arguments)) }
    ensures text { Appends out.old.items out.new.items
        (arguments_text (W.spelling writer.now) (arguments_at (λ y. y.now) (W.trees writer.now) arguments.entry)) result }
    ensures cost { steps.new ≤ steps.old + arguments_looks (W.spelling writer.now) (arguments_at (λ y. y.now) (W.trees writer.now) arguments.entry) }
{
    match arguments {
        Arguments::OnePlace(i) => append_decimal(out, u128::from(i)),
        Arguments::TwoPlaces(i, k) => write_two_places(out, i, k),
        Arguments::PlaceAndFormula(i, h) => write_place_and_formula(writer, i, h, out, steps),
        Arguments::OneFormula(h) => writer.formula(h, out, steps),
        Arguments::PlaceAndName(i, y) => write_place_and_name(out, i, y),
    }
}

/// Appends two places with `,` between.
fn write_two_places(out: &mut Vec<u8>, i: u32, k: u32) -> Result<(), PrintFault>
    ensures { Appends out.old.items out.new.items (both (decimal i) (decimal k)) result }
{
    append_decimal(out, u128::from(i))?;
    append_number(out, b",", k)
}

/// Appends a place and a formula with `,` between.
fn write_place_and_formula<W: Spells, L: Ledger>(
    writer: &W,
    i: u32,
    h: Id,
    out: &mut Vec<u8>,
    steps: &mut Steps<L>,
) -> Result<(), PrintFault>
    requires known { IsId (W.trees writer.now) h }
    requires there { W.Has writer.now (tree (W.trees writer.now) h ∷ []) }
    ensures text { Appends out.old.items out.new.items (both (decimal i) (formula_text (W.spelling writer.now) (tree (W.trees writer.now) h))) result }
    ensures cost { steps.new ≤ steps.old + formula_looks (W.spelling writer.now) (tree (W.trees writer.now) h) }
{
    append_decimal(out, u128::from(i))?;
    append_formula(writer, b",", h, out, steps)
}

/// Appends a place and a name with `,` between.
fn write_place_and_name(out: &mut Vec<u8>, i: u32, y: &Name) -> Result<(), PrintFault>
    ensures { Appends out.old.items out.new.items (both (decimal i) y.now) result }
{
    append_decimal(out, u128::from(i))?;
    append_name(out, b",", y)
}
