//! Appending numbers, names and formulas.
ghost use Rattle.std.specs.Prelude.{◌+◌, ◌≤◌, ◌++◌, [], ◌∷◌};
ghost use Rattle.std.specs.Fmt.{decimal};
ghost use Rattle.dlk_store.specs.Stores.{IsId, tree};
ghost use Rattle.dlk_print.specs.Printed.{Appends};
ghost use Rattle.dlk_lines.specs.Written.{formula_text};
ghost use Rattle.dlk_lines.specs.Looks.{formula_looks};

use crate::spelled::Spells;
use dlk_print::{PrintFault, append, append_decimal};
use dlk_store::{Id, Steps};
use dlk_tree::Name;
use std::sync::ledger::Ledger;

/// Appends a number with the bytes before it. Without memory a prefix was appended.
///
/// # Errors
///
/// `Memory` alone.
pub fn append_number(out: &mut Vec<u8>, before: &[u8], n: u32) -> Result<(), PrintFault>
    ensures { Appends out.old.items out.new.items (before.now ++ decimal n) result }
{
    append(out, before)?;
    append_decimal(out, u128::from(n))
}

/// Appends a name with the bytes before it.
pub(crate) fn append_name(out: &mut Vec<u8>, before: &[u8], name: &Name) -> Result<(), PrintFault>
    ensures { Appends out.old.items out.new.items (before.now ++ name.now) result }
{
    append(out, before)?;
    append(out, name.bytes())
}

/// Appends the text of a formula with the bytes before it.
pub(crate) fn append_formula<W: Spells, L: Ledger>(
    writer: &W,
    before: &[u8],
    h: Id,
    out: &mut Vec<u8>,
    steps: &mut Steps<L>,
) -> Result<(), PrintFault>
    requires known { IsId (W.trees writer.now) h }
    requires there { W.Has writer.now (tree (W.trees writer.now) h ∷ []) }
    ensures text { Appends out.old.items out.new.items (before.now ++ formula_text (W.spelling writer.now) (tree (W.trees writer.now) h)) result }
    ensures cost { steps.new ≤ steps.old + formula_looks (W.spelling writer.now) (tree (W.trees writer.now) h) }
{
    append(out, before)?;
    writer.formula(h, out, steps)
}
