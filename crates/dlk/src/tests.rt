// The program over a desk in memory.
mod limits;
mod starving;

ghost use Rattle.std.specs.Prelude.{◌≤◌};

use crate::give::give;
use crate::start;
use dlk_desk::MemoryDesk;
use dlk_replies::{Reply, Status};
use std::alloc::{AllocError, Global};
use std::marker::Brand;
use std::process::Abort;
use std::sync::ledger::Blank;
use std::test::Fail;

/// The words of a command line.
fn words_of(alloc: Global, line: &str) -> Result<Vec<String>, AllocError> {
    let mut words = Vec::new(alloc);
    for word in line.split_ascii_whitespace() {
        words.push(String::from_str(alloc, word)?)?;
    }
    Ok(words)
}

/// A desk with these files, which moves so many bytes a call and fails at these calls.
fn desk_with(
    alloc: Global,
    named: &[(&str, &[u8])],
    chunk: usize,
    fails: &[u64],
) -> Result<MemoryDesk, AllocError>
    requires { 1 ≤ chunk }
{
    let mut files = Vec::new(alloc);
    for (name, bytes) in named {
        files.push((String::from_str(alloc, name)?, bytes.to_vec(alloc)?))?;
    }
    Ok(MemoryDesk::new(alloc, files, chunk, fails.to_vec(alloc)?))
}

/// The same with a model and a term.
fn desk_of(
    alloc: Global,
    model: &[u8],
    term: &[u8],
    chunk: usize,
    fails: &[u64],
) -> Result<MemoryDesk, AllocError>
    requires { 1 ≤ chunk }
{
    desk_with(alloc, &[("model", model), ("term", term)], chunk, fails)
}

/// The status of a run of the program with the words of this line.
fn status_of(alloc: Global, line: &str, desk: &mut MemoryDesk) -> Result<u8, AllocError> {
    let words = words_of(alloc, line)?;
    Ok(start::<MemoryDesk, Brand>(alloc, &words, desk, Blank::new(1)))
}

/// A run with the words of this line ends with this status and has printed this.
fn answers(
    rt: &impl Abort,
    alloc: Global,
    desk: &mut MemoryDesk,
    line: &str,
    status: u8,
    printed: &str,
) -> Result<(), AllocError> {
    let found = status_of(alloc, line, desk)?;
    assert_eq!(rt; found, status, "{line}");
    assert_eq!(rt; desk.printed(), printed.as_bytes(), "{line}");
    Ok(())
}

/// A term that is open.
const OPEN: &[u8] = b"1 start ==> x>=0\ndone\n";

/// Each command prints what it answers.
#[test]
fn runs_each_command(rt: HostRuntime) -> Result<(), Fail> {
    let alloc = rt.alloc();
    for (line, status, printed) in &[
        (
            "check model term",
            1,
            "open\nconclusion ==> x>=0\ngoals 1\ngoal 1 ==> x>=0\nleaves 0\nlines 1\n",
        ),
        (
            "report model term",
            1,
            "{\"conclusion\":\"==> x>=0\",\"goals\":[\"==> x>=0\"],\"leaves\":[],\"lines\":1,\"status\":\"open\"}\n",
        ),
        ("print model", 0, "x>=0\n"),
        (
            "vars model",
            0,
            "free: x\nbound: none\nmust: none\nsymbols: none\n",
        ),
        ("subst model model", 2, "refused: subst at 1: syntax\n"),
        ("smt model term", 1, ""),
        (
            "prove model term out",
            2,
            "refused: strategy at 0: syntax\n",
        ),
        ("gen 1", 0, "generated 1\nlines 15\nleaves 1\nclosed\n"),
        (
            "convert term out",
            1,
            "open\nconclusion ==> x>=0\ngoals 1\ngoal 1 ==> x>=0\nleaves 0\nlines 1\n",
        ),
        (
            "link model term term out",
            1,
            "open\nconclusion ==> x>=0\ngoals 1\ngoal 1 ==> x>=0\nleaves 0\nlines 3\n",
        ),
        (
            "trim model term out",
            1,
            "open\nconclusion ==> x>=0\ngoals 1\ngoal 1 ==> x>=0\nleaves 0\nlines 1\n",
        ),
        ("session model term out", 2, "refused: script line 1\n"),
    ] {
        let mut desk = desk_of(alloc, b"x>=0", OPEN, 7, &[])?;
        answers(&rt, alloc, &mut desk, line, *status, printed)?;
    }
    Ok(())
}

/// Two lines that start, of which one is needed.
const TWICE: &[u8] = b"1 start ==> x>=0\n2 start ==> x>=0\ndone\n";

/// A command that writes over one of its inputs prints a report of so many lines, and what it wrote is checked with the same report.
fn overwrites(
    rt: &impl Abort,
    alloc: Global,
    line: &str,
    name: &str,
    lines: u32,
) -> Result<(), Fail> {
    let report = format!(in alloc;
        "open\nconclusion ==> x>=0\ngoals 1\ngoal 1 ==> x>=0\nleaves 0\nlines {lines}\n"
    )?;
    let mut desk = desk_of(alloc, b"x>=0", TWICE, 7, &[])?;
    answers(rt, alloc, &mut desk, line, 1, report.as_str())?;
    let written = desk.file(name).unwrap_or(&[]);
    let mut again = desk_of(alloc, b"x>=0", written, 7, &[])?;
    answers(
        rt,
        alloc,
        &mut again,
        "check model term",
        1,
        report.as_str(),
    )?;
    Ok(())
}

/// A file that is written may be an input, which is read whole before.
#[test]
fn overwrites_inputs(rt: HostRuntime) -> Result<(), Fail> {
    let alloc = rt.alloc();
    for (line, name, lines) in &[
        ("convert term term", "term", 2),
        ("link model term term term", "term", 5),
        ("link model term term model", "model", 5),
        ("trim model term term", "term", 1),
    ] {
        overwrites(&rt, alloc, line, name, *lines)?;
    }
    Ok(())
}

/// What is refused leaves a file that would be written as it was.
#[test]
fn leaves_files_where_it_refuses(rt: HostRuntime) -> Result<(), Fail> {
    let alloc = rt.alloc();
    for line in &[
        "convert model model",
        "link model term model model",
        "trim model model model",
        "session model term term",
    ] {
        let mut desk = desk_of(alloc, b"x>=0", TWICE, 7, &[])?;
        assert_eq!(rt; status_of(alloc, line, &mut desk)?, 2);
        assert_eq!(rt; desk.file("model"), Some(b"x>=0".as_slice()));
        assert_eq!(rt; desk.file("term"), Some(TWICE));
    }
    Ok(())
}

/// Words that are no command's, and files that aren't there.
#[test]
fn refuses_words_and_files(rt: HostRuntime) -> Result<(), Fail> {
    let alloc = rt.alloc();
    for (line, status, printed) in &[
        ("", 3, "refused: words\n"),
        ("check", 3, "refused: words\n"),
        ("check model", 3, "refused: words\n"),
        ("check model term more", 3, "refused: words\n"),
        ("--help", 3, "refused: words\n"),
        ("gen 0", 3, "refused: words\n"),
        ("print", 3, "refused: words\n"),
        ("print model term", 3, "refused: words\n"),
        ("print nothing", 4, ""),
        ("vars", 3, "refused: words\n"),
        ("vars model term", 3, "refused: words\n"),
        ("vars nothing", 4, ""),
        ("prove model term", 3, "refused: words\n"),
        ("check nothing term", 4, ""),
        ("check model nothing", 4, ""),
    ] {
        let mut desk = desk_of(alloc, b"x>=0", OPEN, 100, &[])?;
        answers(&rt, alloc, &mut desk, line, *status, printed)?;
    }
    Ok(())
}

/// The model is read in two pieces and at its end, the term in four pieces and at its end, and the report is printed in pieces.
#[test]
fn tells_the_call_that_fails(rt: HostRuntime) -> Result<(), Fail> {
    let alloc = rt.alloc();
    for (call, status, printed) in &[
        (1, 4, ""),
        (2, 4, ""),
        (3, 4, ""),
        (4, 4, ""),
        (9, 4, ""),
        (10, 5, ""),
        (11, 5, "open\nco"),
    ] {
        let mut desk = desk_of(alloc, b"x>=0", OPEN, 7, &[*call])?;
        answers(&rt, alloc, &mut desk, "check model term", *status, printed)?;
    }
    Ok(())
}

/// How often a count of faults rose: those of reading, of writing, of files and of printing.
fn counts(desk: &MemoryDesk) -> [u64; 4] {
    [
        desk.read_faults(),
        desk.write_faults(),
        desk.file_faults(),
        desk.print_faults(),
    ]
}

/// `convert` while one call fails: the status, and by how much each count rose. A fault of writing a file and one of printing each raise the count
/// of write faults, and one of the two beside it. The term is read in two calls behind the one that begins; one call moves all that is written, and
/// one all that is printed. Without a failing call, and behind the last one, no count rises.
#[test]
fn counts_the_call_that_fails(rt: HostRuntime) -> Result<(), Fail> {
    let alloc = rt.alloc();
    for (name, call, status, faults) in &[
        ("start_read", 1, 4, [1, 0, 0, 0]),
        ("read", 2, 4, [1, 0, 0, 0]),
        ("read at the end", 3, 4, [1, 0, 0, 0]),
        ("start_write", 4, 5, [0, 1, 1, 0]),
        ("append", 5, 5, [0, 1, 1, 0]),
        ("print", 6, 5, [0, 1, 0, 1]),
        ("none", 7, 1, [0, 0, 0, 0]),
    ] {
        let mut desk = desk_of(alloc, b"x>=0", OPEN, 1_000, &[*call])?;
        let found = status_of(alloc, "convert term out", &mut desk)?;
        assert_eq!(rt; found, *status, "{name}");
        assert_eq!(rt; counts(&desk), *faults, "{name}");
    }
    let mut desk = desk_of(alloc, b"x>=0", b"", 1_000, &[])?;
    assert_eq!(rt; status_of(alloc, "print nothing", &mut desk)?, 4);
    assert_eq!(rt; counts(&desk), [1, 0, 0, 0]);
    Ok(())
}

/// A reply with a file: in one call the write begins, in four the seven bytes are written, in three the five are printed.
#[test]
fn gives_files_first(rt: HostRuntime) -> Result<(), Fail> {
    let alloc = rt.alloc();
    for (call, gives, file, printed) in [
        (0, true, "written", "hello"),
        (1, false, "x>=0", ""),
        (2, false, "", ""),
        (3, false, "wr", ""),
        (5, false, "writte", ""),
        (6, false, "written", ""),
        (7, false, "written", "he"),
    ] {
        let reply = Reply {
            status: Status::Done,
            printed: b"hello".as_slice().to_vec(alloc)?,
            written: Some(b"written".as_slice().to_vec(alloc)?),
        };
        let mut desk = desk_of(alloc, b"x>=0", b"", 2, &[call])?;
        assert_eq!(rt;
            give(&mut desk, Some("model"), &reply).is_ok(),
            gives,
            "call {call}"
        );
        assert_eq!(rt; desk.file("model"), Some(file.as_bytes()), "call {call}");
        assert_eq!(rt; desk.printed(), printed.as_bytes(), "call {call}");
    }
    Ok(())
}

/// A product of two equal products, and so on, so many times.
fn squared(alloc: Global, times: usize) -> Result<Vec<u8>, AllocError> {
    let mut text = b"f(x)".as_slice().to_vec(alloc)?;
    for _ in 0..times {
        let mut next = b"(".as_slice().to_vec(alloc)?;
        next.extend_from_slice(&text)?;
        next.extend_from_slice(b")*(")?;
        next.extend_from_slice(&text)?;
        next.push(b')')?;
        text = next;
    }
    Ok(text)
}

/// A file of 3,073 nodes, of which 14 are unlike, and a replacement of 64 unlike ones. The result would have 131,073 nodes. By the clause
/// `looks` of `run` no more than 14 * (1 + 64) + 2 are looked at.
#[test]
fn refuses_a_result(rt: HostRuntime) -> Result<(), Fail> {
    let alloc = rt.alloc();
    let mut file = squared(alloc, 10)?;
    file.extend_from_slice(b">=0")?;
    let mut pairs = b"f(._0)~>._0".as_slice().to_vec(alloc)?;
    for _ in 1..64 {
        pairs.extend_from_slice(b"+._0")?;
    }
    let mut desk = desk_of(alloc, &file, &pairs, 100, &[])?;
    answers(
        &rt,
        alloc,
        &mut desk,
        "subst model term",
        2,
        "refused: result-too-big\n",
    )?;
    Ok(())
}

/// An input that goes on behind its limit: as many bytes are read as the limit and one, in 256 pieces and a last one of one byte, behind the call
/// that begins. The next call prints.
#[test]
fn reads_one_byte_past_a_limit(rt: HostRuntime) -> Result<(), Fail> {
    let alloc = rt.alloc();
    let mut file = Vec::new(alloc);
    file.resize(1_048_700, b' ')?;
    for (call, status, printed) in [
        (0, 2, "refused: too-long model\n"),
        (258, 4, ""),
        (259, 5, ""),
    ] {
        let mut desk = desk_of(alloc, &file, b"", 65_536, &[call])?;
        answers(&rt, alloc, &mut desk, "print model", status, printed)?;
    }
    Ok(())
}

/// The term that `prove` writes of `examples/increment`.
const TERM: &str =
    "dlk 2\nnode 1 var x\nnode 2 num 0\nnode 3 ge 1 2\nnode 4 num 1\nnode 5 add 1 4\nnode 6 assign x 5\nnode 7 ge 1 4\nnode 8 box 6 7\nnode 9 imply 3 8\n1 start ==> 9\n2 apply 1 1 implyR(1)\n3 axiom assignb\n4 rename 3 x_ x\nnode 10 dot 0\nnode 11 ge 10 4\n5 subst 4 f()~>5,p(._0)~>11\n6 rule CE\nnode 12 ge 5 4\nnode 13 hole\n7 subst 6 p(||)~>8,q(||)~>12,C{_}~>13\n8 merge 7 1 5\n9 apply 2 1 cutR(1,#12)\n10 apply 9 2 coHideR(1)\n11 apply 10 2 equivifyR(1)\n12 apply 11 2 commuteEquivR(1)\n13 merge 12 2 8\n14 leaf 3 ==> 12\n15 merge 13 1 14\ndone\n";

/// What it prints.
const REPORT: &str =
    "closed\nconclusion ==> x>=0 -> [x:=x+1;]x>=1\ngoals 0\nleaves 1\nleaf 1 x>=0 ==> x+1>=1\nlines 15\n";

/// So many pieces of seven bytes from the front of a text, or all of it.
fn front(text: &str, pieces: usize) -> &[u8] {
    let bytes = text.as_bytes();
    bytes.get(..pieces.saturating_mul(7)).unwrap_or(bytes)
}

/// `prove` with pieces of seven bytes, while each call in turn fails. Five calls read the model, of 21 bytes: one begins, three move bytes, and one
/// meets the end. Seven read the strategy, of 33. The 13th begins to write the term. Each that follows moves a piece, first of the term
/// and then of the report. The last turn has one call more than there are, so none fails.
#[test]
fn proves_while_each_call_fails(rt: HostRuntime) -> Result<(), Fail> {
    let alloc = rt.alloc();
    let model = b"x>=0 -> [x:=x+1;]x>=1".as_slice();
    let strategy = b"implyR(1); useAt(assignb,1); leaf".as_slice();
    let written = TERM.len().div_ceil(7);
    let last = REPORT
        .len()
        .div_ceil(7)
        .saturating_add(written)
        .saturating_add(13);
    for call in 1..=last.saturating_add(1) {
        let files = [
            ("model", model),
            ("strategy", strategy),
            ("term", b"old".as_slice()),
        ];
        let mut desk = desk_with(alloc, &files, 7, &[call as u64])?;
        let status = status_of(alloc, "prove model strategy term", &mut desk)?;
        let due = if call < 13 {
            4
        } else if call <= last {
            5
        } else {
            0
        };
        assert_eq!(rt; status, due, "call {call}");
        let moved = call.saturating_sub(14);
        let file = if call < 14 {
            b"old".as_slice()
        } else {
            front(TERM, moved)
        };
        assert_eq!(rt; desk.file("term"), Some(file), "call {call}");
        let printed = front(REPORT, moved.saturating_sub(written));
        assert_eq!(rt; desk.printed(), printed, "call {call}");
        assert_eq!(rt; desk.file("model"), Some(model), "call {call}");
        assert_eq!(rt; desk.file("strategy"), Some(strategy), "call {call}");
    }
    Ok(())
}

/// A desk with a file of each kind, and one that is written over.
fn full_desk(alloc: Global, fails: &[u64]) -> Result<MemoryDesk, AllocError> {
    let files = [
        ("model", b"x>=0".as_slice()),
        ("term", OPEN),
        ("strategy", b"leaf".as_slice()),
        ("script", b"save\n".as_slice()),
        ("out", b"old".as_slice()),
    ];
    desk_with(alloc, &files, 7, fails)
}

/// A run whose call of this number fails: whether that call prints. Then the status is 5, and the file that was written is this one.
fn fails_printing(
    rt: &impl Abort,
    alloc: Global,
    line: &str,
    call: u64,
    file: Option<&[u8]>,
) -> Result<bool, AllocError> {
    let mut desk = full_desk(alloc, &[call])?;
    let status = status_of(alloc, line, &mut desk)?;
    if desk.print_faults() == 0 {
        return Ok(false);
    }
    assert_eq!(rt; status, 5, "{line}, call {call}");
    assert_eq!(rt; desk.file("out"), file, "{line}, call {call}");
    assert_eq!(rt; counts(&desk), [0, 1, 0, 1], "{line}, call {call}");
    Ok(true)
}

/// Each command that writes a file, with pieces of seven bytes, while each call in turn fails. Where that call prints, the file is that of the run
/// in which none fails. In each run all is done before the hundredth call.
#[test]
fn keeps_the_file_where_printing_fails(rt: HostRuntime) -> Result<(), Fail> {
    let alloc = rt.alloc();
    for (line, status) in &[
        ("prove model strategy out", 0),
        ("convert term out", 1),
        ("link model term term out", 1),
        ("trim model term out", 1),
        ("session model script out", 1),
    ] {
        let mut whole = full_desk(alloc, &[])?;
        assert_eq!(rt; status_of(alloc, line, &mut whole)?, *status);
        assert!(rt; whole.file("out") != Some(b"old".as_slice()));
        let mut failed = 0usize;
        for call in 1..100 {
            if fails_printing(&rt, alloc, line, call, whole.file("out"))? {
                failed = failed.saturating_add(1);
            }
        }
        assert_eq!(rt; failed, whole.printed().len().div_ceil(7));
    }
    Ok(())
}
