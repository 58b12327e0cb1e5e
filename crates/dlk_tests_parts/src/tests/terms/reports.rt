ghost use Rattle.std.specs.Prelude.{All, IfOk, IsAscii, map};
ghost use Rattle.dlk_report.specs.Shown.{bytes_of};

use super::same;
use dlk_report::{Report, report_json};
use std::alloc::Global;
use std::test::Fail;

/// The bytes of a text, which is ASCII.
fn ascii(alloc: Global, text: &str) -> Result<Vec<u8>, Fail>
    ensures { IfOk result (λ bytes. IsAscii bytes.items) }
{
    if !text.is_ascii() {
        return Err(Fail::new("not ASCII"));
    }
    let mut bytes = Vec::new(alloc);
    bytes.extend_from_slice(text.as_bytes())?;
    Ok(bytes)
}

/// The bytes of texts, which are ASCII.
fn all_ascii(alloc: Global, texts: &[&str]) -> Result<Vec<Vec<u8>>, Fail>
    ensures { IfOk result (λ all. All IsAscii (map bytes_of all.items)) }
{
    let mut all = Vec::new(alloc);
    for text in texts {
        all.push(ascii(alloc, text)?)?;
    }
    Ok(all)
}

/// The JSON of the report with these texts.
fn written(
    alloc: Global,
    conclusion: &str,
    goals: &[&str],
    leaves: &[&str],
    lines: u32,
) -> Result<Vec<u8>, Fail> {
    let report = Report {
        closed: goals.is_empty(),
        conclusion: ascii(alloc, conclusion)?,
        goals: all_ascii(alloc, goals)?,
        leaves: all_ascii(alloc, leaves)?,
        lines,
    };
    Ok(report_json(alloc, &report)?)
}

/// The conclusion, the goals, the leaves and the number of lines of a report, and its JSON.
const ROWS: &[(&str, &[&str], &[&str], u32, &str)] = &[
    (
        "==> x>=0 -> x>=0",
        &[],
        &[],
        3,
        "{\"conclusion\":\"==> x>=0 -> x>=0\",\"goals\":[],\"leaves\":[],\"lines\":3,\"status\":\"closed\"}",
    ),
    (
        "x>=0 ==> x>=1 & x+1>=1",
        &["x>=0 ==> x>=1", "==> y=0"],
        &["x>=0 ==> x+1>=1", "==> 1>=0"],
        4294967295,
        "{\"conclusion\":\"x>=0 ==> x>=1 & x+1>=1\",\"goals\":[\"x>=0 ==> x>=1\",\"==> y=0\"],\"leaves\":[\"x>=0 ==> x+1>=1\",\"==> 1>=0\"],\"lines\":4294967295,\"status\":\"open\"}",
    ),
    (
        "==> \\forall x \\exists y x>=y",
        &["==> \\exists y x>=y"],
        &["\\forall x x>=0 ==>"],
        0,
        "{\"conclusion\":\"==> \\\\forall x \\\\exists y x>=y\",\"goals\":[\"==> \\\\exists y x>=y\"],\"leaves\":[\"\\\\forall x x>=0 ==>\"],\"lines\":0,\"status\":\"open\"}",
    ),
    (
        "\"\\/\u{0}\u{8}\t\n\u{b}\u{c}\r\u{1f} ~\u{7f}",
        &[],
        &[""],
        1,
        "{\"conclusion\":\"\\\"\\\\/\\u0000\\b\\t\\n\\u000b\\f\\r\\u001f ~\u{7f}\",\"goals\":[],\"leaves\":[\"\"],\"lines\":1,\"status\":\"closed\"}",
    ),
];

#[test]
fn writes_json(rt: HostRuntime) -> Result<(), Fail> {
    for (conclusion, goals, leaves, lines, want) in ROWS {
        let found = written(rt.alloc(), conclusion, goals, leaves, *lines)?;
        same(&rt, found.as_slice(), want.as_bytes(), conclusion);
    }
    Ok(())
}
