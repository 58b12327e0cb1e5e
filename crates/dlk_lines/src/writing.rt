//! The written form of steps.
ghost use Rattle.std.specs.Prelude.{◌+◌, ◌≤◌, ◌++◌};
ghost use Rattle.dlk_calculus.specs.Rules.{arguments_of};
ghost use Rattle.dlk_calculus.specs.Steps.{Apply, Merge, Substitute, Rename};
ghost use Rattle.dlk_sequent.specs.Sequents.{sequent_at, IsKnown};
ghost use Rattle.dlk_sequent.specs.Substitutions.{pairs_at, AreKnownPairs};
ghost use Rattle.dlk_rules.specs.Steps.{rule_at, RuleIsKnown, step_at, HasKnownIds};
ghost use Rattle.dlk_print.specs.Printed.{Appends};
ghost use Rattle.dlk_lines.specs.Spelled.{InFull};
ghost use Rattle.dlk_lines.specs.Written.{sequent_text, step_text, trees_in, replacements_in, formulas_in, trees_of};
ghost use Rattle.dlk_lines.specs.Looks.{sequent_looks, pairs_looks, rule_looks, step_looks};

use crate::append::{append_name, append_number};
use crate::spelled::Spells;
use crate::writing_rule::write_rule;
use dlk_print::{PrintFault, append};
use dlk_rules::{Rule, Step};
use dlk_sequent::{Pair, Sequent};
use dlk_store::Steps;
use dlk_tree::Name;
use std::sync::ledger::Ledger;

/// Appends a step: its word, and what it wants behind it. Without memory a prefix of it was appended.
///
/// # Errors
///
/// `Memory` alone.
pub fn write_step<W: Spells, L: Ledger>(
    step: &Step,
    writer: &W,
    out: &mut Vec<u8>,
    steps: &mut Steps<L>,
) -> Result<(), PrintFault>
    requires known { HasKnownIds (W.trees writer.now) step.now }
    requires there { W.Has writer.now (trees_of (step_at (W.trees writer.now) step.now)) }
    ensures text { Appends out.old.items out.new.items (step_text (W.spelling writer.now) (step_at (W.trees writer.now) step.now)) result }
    ensures cost { steps.new ≤ steps.old + step_looks (W.spelling writer.now) (step_at (W.trees writer.now) step.now) }
{
    match step {
        Step::Start(s) => write_sequent(writer, b"start ", s, out, steps),
        Step::Axiom(name) => append_name(out, b"axiom ", name),
        Step::AxRule(name) => append_name(out, b"rule ", name),
        Step::Leaf(s) => write_sequent(writer, b"leaf ", s, out, steps),
        Step::Apply { fact, goal, rule } => write_apply(writer, *fact, *goal, rule, out, steps),
        Step::Merge { fact, goal, by } => write_merge(out, *fact, *goal, *by),
        Step::Subst { fact, pairs } => write_subst(writer, *fact, pairs.as_slice(), out, steps),
        Step::Rename { fact, x, y } => write_rename(out, *fact, x, y),
    }
}

/// Appends a word and a sequent.
fn write_sequent<W: Spells, L: Ledger>(
    writer: &W,
    word: &[u8],
    s: &Sequent,
    out: &mut Vec<u8>,
    steps: &mut Steps<L>,
) -> Result<(), PrintFault>
    requires known { IsKnown (W.trees writer.now) s.now }
    requires there { W.Has writer.now (trees_in (sequent_at (W.trees writer.now) s.now)) }
    ensures text { Appends out.old.items out.new.items (word.now ++ sequent_text (W.spelling writer.now) (sequent_at (W.trees writer.now) s.now)) result }
    ensures cost { steps.new ≤ steps.old + sequent_looks (W.spelling writer.now) (sequent_at (W.trees writer.now) s.now) }
{
    append(out, word)?;
    writer.sequent(s, out, steps)
}

/// Appends the step of a rule on a goal.
fn write_apply<W: Spells, L: Ledger>(
    writer: &W,
    fact: u32,
    goal: u32,
    rule: &Rule,
    out: &mut Vec<u8>,
    steps: &mut Steps<L>,
) -> Result<(), PrintFault>
    requires known { RuleIsKnown (W.trees writer.now) rule.now }
    requires there { W.Has writer.now (formulas_in (arguments_of (rule_at (W.trees writer.now) rule.now))) }
    ensures text { Appends out.old.items out.new.items (step_text (W.spelling writer.now) (Apply fact goal (rule_at (W.trees writer.now) rule.now))) result }
    ensures cost { steps.new ≤ steps.old + rule_looks (W.spelling writer.now) (rule_at (W.trees writer.now) rule.now) }
{
    append_number(out, b"apply ", fact)?;
    append_number(out, b" ", goal)?;
    append(out, b" ")?;
    write_rule(writer, rule, out, steps)
}

/// Appends the step of a fact that is merged into a goal. Each spelling has this text.
fn write_merge(out: &mut Vec<u8>, fact: u32, goal: u32, by: u32) -> Result<(), PrintFault>
    ensures { Appends out.old.items out.new.items (step_text InFull (Merge fact goal by)) result }
{
    append_number(out, b"merge ", fact)?;
    append_number(out, b" ", goal)?;
    append_number(out, b" ", by)
}

/// Appends the step of a substitution.
fn write_subst<W: Spells, L: Ledger>(
    writer: &W,
    fact: u32,
    pairs: &[Pair],
    out: &mut Vec<u8>,
    steps: &mut Steps<L>,
) -> Result<(), PrintFault>
    requires known { AreKnownPairs (W.trees writer.now) pairs.now }
    requires there { W.Has writer.now (replacements_in (pairs_at (W.trees writer.now) pairs.now)) }
    ensures text { Appends out.old.items out.new.items (step_text (W.spelling writer.now) (Substitute fact (pairs_at (W.trees writer.now) pairs.now))) result }
    ensures cost { steps.new ≤ steps.old + pairs_looks (W.spelling writer.now) (pairs_at (W.trees writer.now) pairs.now) }
{
    append_number(out, b"subst ", fact)?;
    append(out, b" ")?;
    writer.pairs(pairs, out, steps)
}

/// Appends the step that exchanges two names. Each spelling has this text.
fn write_rename(out: &mut Vec<u8>, fact: u32, x: &Name, y: &Name) -> Result<(), PrintFault>
    ensures { Appends out.old.items out.new.items (step_text InFull (Rename fact x.now y.now)) result }
{
    append_number(out, b"rename ", fact)?;
    append_name(out, b" ", x)?;
    append_name(out, b" ", y)
}
