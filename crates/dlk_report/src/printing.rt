//! The text of a report.
ghost use Rattle.std.specs.Prelude.{◌≡◌, ◌+◌, ◌++◌, ◌∷◌, [], IfOk, OnOk, codes, decimal, length, map};
ghost use Rattle.dlk_print.specs.Lines.{line};
ghost use Rattle.dlk_report.specs.Reports.{numbered, first_word, report_of};
ghost use Rattle.dlk_report.specs.Shown.{bytes_of, parts};

use crate::fault::ReportFault;
use crate::report::Report;
use dlk_print::{PrintFault, append, append_decimal};
use std::alloc::Global;

/// Appends a line feed.
fn end_line(out: &mut Vec<u8>) -> Result<(), PrintFault>
    ensures { OnOk result (out.new.items ≡ out.old.items ++ 10 ∷ []) }
{
    append(out, b"\n")
}

/// Appends a line of a name and a text.
fn append_line(out: &mut Vec<u8>, name: &[u8], text: &[u8]) -> Result<(), PrintFault>
    ensures { OnOk result (out.new.items ≡ out.old.items ++ line (name.now ++ text.now)) }
{
    append(out, name)?;
    append(out, text)?;
    end_line(out)
}

/// Appends a line of a name and a number.
fn append_count(out: &mut Vec<u8>, name: &[u8], count: usize) -> Result<(), PrintFault>
    ensures { OnOk result (out.new.items ≡ out.old.items ++ line (name.now ++ decimal count)) }
{
    append(out, name)?;
    append_decimal(out, count as u128)?;
    end_line(out)
}

/// Appends a line of a name, a number and a text, with spaces between.
fn append_item(out: &mut Vec<u8>, name: &[u8], number: usize, text: &[u8]) -> Result<(), PrintFault>
    ensures { OnOk result (out.new.items ≡ out.old.items ++ line (name.now ++ codes " " ++ decimal number ++ codes " " ++ text.now)) }
{
    append(out, name)?;
    append(out, b" ")?;
    append_decimal(out, number as u128)?;
    append_line(out, b" ", text)
}

/// Appends a line for each text, with a name and the text's number from 1 on.
fn append_numbered(out: &mut Vec<u8>, name: &[u8], texts: &[Vec<u8>]) -> Result<(), PrintFault>
    ensures { OnOk result (out.new.items ≡ out.old.items ++ numbered name.now 1 (map bytes_of texts.now)) }
{
    for (i, text) in texts.iter().enumerate() {
        append_item(out, name, i + 1, text)?;
    }
    Ok(())
}

/// The text of a report, each of its lines ended by a line feed.
///
/// # Errors
///
/// `Memory` alone.
pub fn report_text(alloc: Global, report: &Report) -> Result<Vec<u8>, ReportFault>
    ensures { IfOk result (λ text. text.items ≡ report_of (parts report.now)) }
{
    let mut out = Vec::new(alloc);
    let first: &[u8] = if report.closed { b"closed" } else { b"open" };
    append_line(&mut out, first, b"")?;
    append_line(&mut out, b"conclusion ", &report.conclusion)?;
    append_count(&mut out, b"goals ", report.goals.len())?;
    append_numbered(&mut out, b"goal", &report.goals)?;
    append_count(&mut out, b"leaves ", report.leaves.len())?;
    append_numbered(&mut out, b"leaf", &report.leaves)?;
    append_count(&mut out, b"lines ", report.lines as usize)?;
    Ok(out)
}
