//! The report as JSON.
ghost use Rattle.std.specs.Prelude.{◌≡◌, All, IfOk, IsAscii, map};
ghost use Rattle.serde_json.specs.Data.{string};
ghost use Rattle.serde_json.specs.View.{view};
ghost use Rattle.dlk_report.specs.Reports.{first_word, HasAsciiTexts};
ghost use Rattle.dlk_report.specs.Shown.{bytes_of, parts};
ghost use Rattle.dlk_report.specs.Json.{json_of};
ghost use Rattle.dlk_report.specs.Values.{strings, value_of};

use crate::fault::ReportFault;
use crate::report::Report;
use serde_json::{Value, json};
use std::alloc::Global;

/// A text as a value.
fn text_value(alloc: Global, text: &[u8]) -> Result<Value, ReportFault>
    requires { IsAscii text.now }
    ensures { IfOk result (λ value. view value ≡ string text.now) }
{
    let Ok(text) = str::from_utf8(text) else {
        unreachable!()
    };
    Ok(Value::try_from_str(alloc, text)?)
}

/// Texts as a value, in their order.
fn texts_value(alloc: Global, texts: &[Vec<u8>]) -> Result<Value, ReportFault>
    requires { All IsAscii (map bytes_of texts.now) }
    ensures { IfOk result (λ value. view value ≡ strings (map bytes_of texts.now)) }
{
    let mut values = Vec::new(alloc);
    for text in texts {
        values.push(text_value(alloc, text)?)?;
    }
    Ok(Value::Array(values))
}

/// The word for a report with no goals left, or with some.
fn status(closed: bool) -> &'static str
    ensures { result.now ≡ first_word closed }
{
    if closed { "closed" } else { "open" }
}

/// A report as a value.
fn report_value(alloc: Global, report: &Report) -> Result<Value, ReportFault>
    requires { HasAsciiTexts (parts report.now) }
    ensures { IfOk result (λ value. view value ≡ value_of (parts report.now)) }
{
    let value = json!(in alloc; {
        "conclusion": text_value(alloc, &report.conclusion)?,
        "goals": texts_value(alloc, &report.goals)?,
        "leaves": texts_value(alloc, &report.leaves)?,
        "lines": report.lines,
        "status": status(report.closed),
    })?;
    Ok(value)
}

/// The report as JSON: an object on one line, with no line feed behind it.
///
/// # Errors
///
/// `Memory` alone.
pub fn report_json(alloc: Global, report: &Report) -> Result<Vec<u8>, ReportFault>
    requires { HasAsciiTexts (parts report.now) }
    ensures { IfOk result (λ text. text.items ≡ json_of (parts report.now)) }
{
    let value = report_value(alloc, report)?;
    let text = value.to_vec(alloc)?;
    Ok(text)
}
