// What `prove` and `gen` answer.
mod differentiating;
mod gallery;
mod generating;
mod library;
mod proving;

use super::answers::{
    INCREMENT_BY_NODES, INCREMENT_MODEL, INCREMENT_REPORT, TERM_BY_NODES, joined, padded, repeated,
    replied,
};
use dlk_replies::NoReply;
use std::alloc::Global;
use std::process::Abort;
use std::test::Fail;

/// The words of a proof.
const PROVE: [&str; 4] = ["prove", "model", "strategy", "term"];

/// The words of a check.
const CHECK: [&str; 3] = ["check", "model", "term"];

/// A command prints these bytes, with this status: what it writes. What is said where it doesn't names the row.
fn prints(
    rt: &impl Abort,
    alloc: Global,
    words: &[&str],
    texts: &[&[u8]],
    status: u8,
    printed: &[u8],
    row: &str,
) -> Result<Option<Vec<u8>>, NoReply> {
    let (found, reply) = replied(alloc, words, texts)?;
    assert_eq!(rt; reply.printed.as_slice(), printed, "{row}");
    assert_eq!(rt; found, status, "{row}");
    Ok(reply.written)
}

/// `prove` refuses a model or its strategy by this line, and writes nothing.
fn refuses(
    rt: &impl Abort,
    alloc: Global,
    texts: [&[u8]; 2],
    line: &str,
    row: &str,
) -> Result<(), NoReply> {
    let printed = line.as_bytes();
    let written = prints(rt, alloc, &PROVE, &texts, 2, printed, row)?;
    assert!(rt; written.is_none(), "{row}");
    Ok(())
}
