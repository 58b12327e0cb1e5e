// What `convert`, `link`, `trim` and `session` answer, and what they write.
mod converting;
mod linking;
mod sessions;
mod trimming;

use super::answers::{
    INCREMENT_BY_NODES, INCREMENT_MODEL, INCREMENT_REPORT, INCREMENT_TERM, REPORT, TERM,
    TERM_BY_NODES, checked, joined, proof, repeated, replied,
};
use dlk_replies::NoReply;
use std::alloc::Global;
use std::process::Abort;
use std::test::Fail;

/// A proof of `x>=0` that is open, in version 2.
const OPEN_BY_NODES: &str =
    "dlk 2\nnode 1 var x\nnode 2 num 0\nnode 3 ge 1 2\n1 start ==> 3\ndone\n";

/// What is reported of it.
const OPEN_REPORT: &str =
    "open\nconclusion ==> x>=0\ngoals 1\ngoal 1 ==> x>=0\nleaves 0\nlines 1\n";

/// A command prints this, with this status, and writes this.
fn writes(
    rt: &impl Abort,
    alloc: Global,
    words: &[&str],
    texts: &[&[u8]],
    status: u8,
    printed: &str,
    written: Option<&str>,
) -> Result<(), NoReply> {
    let (found, reply) = replied(alloc, words, texts)?;
    assert_eq!(rt; reply.printed.as_slice(), printed.as_bytes(), "{printed}");
    assert_eq!(rt; found, status, "{printed}");
    let bytes = match &reply.written {
        Some(bytes) => Some(bytes.as_slice()),
        None => None,
    };
    assert_eq!(rt; bytes, written.map(|text| text.as_bytes()), "{printed}");
    Ok(())
}

/// A command refuses its inputs by this line, and writes nothing.
fn refuses(
    rt: &impl Abort,
    alloc: Global,
    words: &[&str],
    texts: &[&[u8]],
    line: &str,
) -> Result<(), NoReply> {
    let printed = format!(in alloc; "refused: {line}\n")?;
    writes(rt, alloc, words, texts, 2, printed.as_str(), None)
}
