//! Steps once more, and with other numbers for their facts.
ghost use Rattle.std.specs.Prelude.{◌≡◌, ◌+◌, ◌≤◌, List, IfOk};
ghost use Rattle.dlk_tree.specs.Trees.{Tree};
ghost use Rattle.dlk_calculus.specs.Limits.{most_rows};
ghost use Rattle.dlk_rules.specs.Facts.{renumbered};
ghost use Rattle.dlk_rules.specs.Steps.{rule_at, RuleIsKnown, step_at, HasKnownIds};
ghost use Rattle.dlk_rules.specs.Words.{arguments_at, ArgumentsAreKnown};
ghost use Rattle.dlk_link.specs.Trimmed.{new_number, moved};
ghost use Rattle.dlk_link.specs.Copies.{IsSameStep, IsSameRule, IsSameArguments};
ghost use Rattle.dlk_link.specs.Marks.{NamesFew};

use dlk_rules::{Arguments, Rule, Step, rule_is_its_word_and_arguments, word_wants_one_shape};
use dlk_sequent::{Listed, Pair, item_at};
use dlk_tree::Name;
use std::alloc::{AllocError, Global};

/// The same step once more.
///
/// # Errors
///
/// For want of memory.
pub fn copied(alloc: Global, step: &Step) -> Result<Step, AllocError>
    ensures { IfOk result (IsSameStep step.now) }
{
    match step {
        Step::Start(s) => Ok(Step::Start(s.copy(alloc)?)),
        Step::Axiom(name) => Ok(Step::Axiom(name.clone()?)),
        Step::AxRule(name) => Ok(Step::AxRule(name.clone()?)),
        Step::Leaf(s) => Ok(Step::Leaf(s.copy(alloc)?)),
        Step::Apply { fact, goal, rule } => Ok(Step::Apply {
            fact: *fact,
            goal: *goal,
            rule: copied_rule(rule)?,
        }),
        Step::Merge { fact, goal, by } => Ok(Step::Merge {
            fact: *fact,
            goal: *goal,
            by: *by,
        }),
        Step::Subst { fact, pairs } => Ok(Step::Subst {
            fact: *fact,
            pairs: copied_pairs(alloc, pairs.as_slice())?,
        }),
        Step::Rename { fact, x, y } => Ok(Step::Rename {
            fact: *fact,
            x: x.clone()?,
            y: y.clone()?,
        }),
    }
}

/// The same pairs once more.
fn copied_pairs(alloc: Global, pairs: &[Pair]) -> Result<Listed<Pair>, AllocError>
    ensures { IfOk result (λ copies. copies ≡ pairs.now) }
{
    let mut copies = Vec::with_capacity(alloc, pairs.len())?;
    for pair in pairs {
        let sym = pair.sym.clone()?;
        copies.push(Pair { sym, by: pair.by })?;
    }
    Ok(Listed::from_vec(copies))
}

/// The same rule once more: that of its word and its arguments.
fn copied_rule(rule: &Rule) -> Result<Rule, AllocError>
    ensures { IfOk result (IsSameRule rule.now) }
{
    word_wants_one_shape();
    rule_is_its_word_and_arguments();
    let arguments = copied_arguments(rule.arguments())?;
    match rule.word().rule(arguments) {
        Some(copy) => Ok(copy),
        None => unreachable!(),
    }
}

/// The same arguments once more.
fn copied_arguments(arguments: Arguments<&Name>) -> Result<Arguments<Name>, AllocError>
    ensures { IfOk result (IsSameArguments (λ y. y.now) arguments.entry) }
{
    match arguments {
        Arguments::OnePlace(i) => Ok(Arguments::OnePlace(i)),
        Arguments::TwoPlaces(i, k) => Ok(Arguments::TwoPlaces(i, k)),
        Arguments::PlaceAndFormula(i, h) => Ok(Arguments::PlaceAndFormula(i, h)),
        Arguments::OneFormula(h) => Ok(Arguments::OneFormula(h)),
        Arguments::PlaceAndName(i, y) => Ok(Arguments::PlaceAndName(i, y.clone()?)),
    }
}

/// The new number of a row, by those of the rows so far. A row that has none has 0.
fn new_number(numbers: &[u32], row: u32) -> u32
    ensures { result ≡ new_number numbers.now row }
{
    match item_at(numbers, row) {
        None => 0,
        Some(number) => *number,
    }
}

/// The step with the new numbers of its facts.
pub(crate) fn moved(step: Step, numbers: &[u32]) -> Step
    ensures same { (trees : List Tree) → step_at trees result ≡ moved numbers.now (step_at trees step) }
    ensures known { (trees : List Tree) → HasKnownIds trees step → HasKnownIds trees result }
{
    step.renumbered(|row| new_number(numbers, row))
}

/// The step as it stands behind so many rows.
pub(crate) fn behind(step: Step, rows: u32) -> Step
    requires few { NamesFew step }
    requires room { rows ≤ most_rows }
    ensures same { (trees : List Tree) → step_at trees result ≡ renumbered (λ fact. fact + rows) (step_at trees step) }
    ensures known { (trees : List Tree) → HasKnownIds trees step → HasKnownIds trees result }
{
    step.renumbered(|fact| fact + rows)
}
