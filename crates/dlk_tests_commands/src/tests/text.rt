// What `print` and `vars` answer.
mod examples;
mod listing;
mod printing;

use super::answers::{answered, joined, padded, repeated};
use dlk_replies::NoReply;
use std::alloc::{AllocError, Global};
use std::process::Abort;
use std::test::Fail;

/// A command on one file prints these bytes, with this status. What is said where it doesn't names the row.
fn answers(
    rt: &impl Abort,
    alloc: Global,
    verb: &str,
    file: &[u8],
    status: u8,
    printed: &[u8],
    row: &str,
) -> Result<(), NoReply> {
    let (found, reply) = answered(alloc, verb, file)?;
    assert_eq!(rt; reply.printed.as_slice(), printed, "{row}");
    assert_eq!(rt; found, status, "{row}");
    Ok(())
}
