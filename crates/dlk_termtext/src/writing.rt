//! The written form of lines.
ghost use Rattle.std.specs.Prelude.{◌≡◌, ◌+◌, ◌≤◌, ◌++◌, OnOk};
ghost use Rattle.dlk_rules.specs.Steps.{step_at, HasKnownIds};
ghost use Rattle.dlk_print.specs.Printed.{Begun};
ghost use Rattle.dlk_termtext.specs.Written.{line_text};
ghost use Rattle.dlk_termtext.specs.Looks.{step_looks};

use crate::full::FullOf;
use dlk_lines::write_step_line;
use dlk_print::PrintFault;
use dlk_rules::Step;
use dlk_store::{Steps, Store};
use std::sync::ledger::Ledger;

/// Appends the written form of a step's line: its number, a space and the step, with canonical texts and without a line
/// feed. Without memory a prefix of it was appended. Each node of a formula is looked at once, and each node of a replacement
/// twice at most.
///
/// # Errors
///
/// `Memory` alone.
pub fn write_line<S: Store, L: Ledger>(
    number: u32,
    step: &Step,
    store: &S,
    out: &mut Vec<u8>,
    steps: &mut Steps<L>,
) -> Result<(), PrintFault>
    requires known { HasKnownIds (S.trees store.now) step.now }
    ensures ok { OnOk result (out.new.items ≡ out.old.items ++ line_text number (step_at (S.trees store.now) step.now)) }
    ensures memory { Begun out.old.items out.new.items (line_text number (step_at (S.trees store.now) step.now)) }
    ensures cost { steps.new ≤ steps.old + step_looks (step_at (S.trees store.now) step.now) }
{
    write_step_line(number, step, &FullOf { store }, out, steps)
}
