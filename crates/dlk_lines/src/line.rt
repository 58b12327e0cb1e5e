//! Steps with their numbers.
ghost use Rattle.std.specs.Prelude.{◌≡◌, ◌+◌, ◌≤◌, ℕ, Err, IfOk, IfErr};
ghost use Rattle.dlk_calculus.specs.Steps.{Step as TreeStep};
ghost use Rattle.dlk_rules.specs.Steps.{step_at, HasKnownIds};
ghost use Rattle.dlk_print.specs.Printed.{Appends};
ghost use Rattle.dlk_lines.specs.Lines.{IsStepLine};
ghost use Rattle.dlk_lines.specs.Written.{line_text, trees_of};
ghost use Rattle.dlk_lines.specs.Looks.{step_looks};
ghost use Rattle.dlk_lines.specs.declared.fault.LineFault.TheVariants.{Memory};
ghost use Rattle.dlk_lines.specs.Read.{IsLineFaultOf};
ghost use Rattle.dlk_lines.specs.Wants.{LineWants};

use crate::digits::number_before;
use crate::fault::LineFault;
use crate::spelled::{Spelled, Spells};
use crate::step::read_step;
use crate::writing::write_step;
use dlk_print::{PrintFault, append, append_decimal};
use dlk_rules::Step;
use dlk_store::{Steps, Store};
use std::alloc::Global;
use std::sync::ledger::Ledger;

/// The number and the step that a line says.
///
/// # Errors
///
/// `Malformed` exactly where the text says no step with its number, and `Memory` when memory runs out. Whatever comes, the store
/// keeps its trees, and the spelling stays.
pub fn read_step_line<P: Spelled, S: Store>(
    alloc: Global,
    line: &[u8],
    spelled: &mut P,
    store: &mut S,
) -> Result<(u32, Step), LineFault>
    requires { P.IsReady spelled.old (S.trees store.old) }
    ensures found { IfOk result (λ p. IsStepLine (P.spelling spelled.old (S.trees store.old)) line.now p.0 (step_at (S.trees store.new) p.1)) }
    ensures known { IfOk result (λ p. HasKnownIds (S.trees store.new) p.1) }
    ensures fault { IfErr result (IsLineFaultOf ((number : ℕ) (step : TreeStep) →
        ¬ IsStepLine (P.spelling spelled.old (S.trees store.old)) line.now number step)) }
    ensures memory { result ≡ Err Memory → LineWants line.now }
    ensures stays { P.spelling spelled.new (S.trees store.new) ≡ P.spelling spelled.old (S.trees store.old) }
    ensures grows { S.grows store.old store.new }
{
    let Some((number, text)) = number_before(line, b' ') else {
        return Err(LineFault::Malformed);
    };
    let step = read_step(alloc, text, spelled, store)?;
    Ok((number, step))
}

/// Appends the line of a step: its number, a space and the step, without a line feed. Without memory a prefix of it was appended.
///
/// # Errors
///
/// `Memory` alone.
pub fn write_step_line<W: Spells, L: Ledger>(
    number: u32,
    step: &Step,
    writer: &W,
    out: &mut Vec<u8>,
    steps: &mut Steps<L>,
) -> Result<(), PrintFault>
    requires known { HasKnownIds (W.trees writer.now) step.now }
    requires there { W.Has writer.now (trees_of (step_at (W.trees writer.now) step.now)) }
    ensures text { Appends out.old.items out.new.items (line_text (W.spelling writer.now) number (step_at (W.trees writer.now) step.now)) result }
    ensures cost { steps.new ≤ steps.old + step_looks (W.spelling writer.now) (step_at (W.trees writer.now) step.now) }
{
    append_decimal(out, u128::from(number))?;
    append(out, b" ")?;
    write_step(step, writer, out, steps)
}
