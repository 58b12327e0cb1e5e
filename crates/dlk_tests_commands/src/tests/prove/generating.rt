// What `gen` answers.
use super::*;

/// Words, the status and what is printed.
const ROWS: &[(&[&str], u8, &str)] = &[
    (
        &["gen", "1"],
        0,
        "generated 1\nlines 15\nleaves 1\nclosed\n",
    ),
    (
        &["gen", "3"],
        0,
        "generated 3\nlines 37\nleaves 1\nclosed\n",
    ),
    (
        &["gen", "10"],
        0,
        "generated 10\nlines 114\nleaves 1\nclosed\n",
    ),
    (
        &["gen", "500"],
        0,
        "generated 500\nlines 5504\nleaves 1\nclosed\n",
    ),
    (&["gen", "0"], 3, "refused: words\n"),
    (&["gen", "01"], 3, "refused: words\n"),
    (&["gen", "501"], 3, "refused: words\n"),
    (&["gen"], 3, "refused: words\n"),
    (&["gen", "1", "2"], 3, "refused: words\n"),
    (&["gen", "x"], 3, "refused: words\n"),
];

#[test]
fn generates_and_proves(rt: HostRuntime) -> Result<(), Fail> {
    let alloc = rt.alloc();
    for (words, status, printed) in ROWS {
        let line = printed.as_bytes();
        let written = prints(&rt, alloc, words, &[], *status, line, printed)?;
        assert!(rt; written.is_none(), "{printed}");
    }
    Ok(())
}
