// Refusals of one line, and those of texts that are not read.
ghost use Rattle.std.specs.Prelude.{◌≡◌, ◌<◌, IfOk};
ghost use Rattle.dlk_replies.specs.Replies.{refusal};
ghost use Rattle.dlk_replies.specs.Refusals.{refused_at, refused_past};
ghost use Rattle.dlk_replies.specs.Refused.{IsTextRefused, IsUnreadRefused};
ghost use Rattle.dlk_replies.specs.Shown.{reply_of};

use crate::fault::NoReply;
use crate::form::Role;
use crate::reply::{Reply, Status, printing};
use dlk_parse::{ParseFault, TextFault};
use std::alloc::Global;

/// A refusal of one line.
pub fn refused(alloc: Global, why: &str) -> Result<Reply, NoReply>
    ensures { IfOk result (λ r. reply_of r ≡ refusal why.now) }
{
    let text = format!(in alloc; "refused: {why}\n")?;
    Ok(printing(Status::Refused, text.into_bytes()))
}

/// The answer to an input that is refused at a byte.
pub fn refuse_at(alloc: Global, role: Role, at: usize, why: &str) -> Result<Reply, NoReply>
    ensures { IfOk result (λ r. reply_of r ≡ refused_at role at why.now) }
{
    let word = role.word();
    let why = format!(in alloc; "{word} at {at}: {why}")?;
    refused(alloc, why.as_str())
}

/// The answer to an input of which a tree passes a limit.
fn refuse_past(alloc: Global, role: Role, measure: &str, number: u32) -> Result<Reply, NoReply>
    ensures { IfOk result (λ r. reply_of r ≡ refused_past role measure.now number) }
{
    let word = role.word();
    let why = format!(in alloc; "{word}: {measure} {number}")?;
    refused(alloc, why.as_str())
}

/// The answer to an input whose tokens are not read.
fn refuse_unread(alloc: Global, role: Role, fault: ParseFault) -> Result<Reply, NoReply>
    ensures { IfOk result (λ r. IsUnreadRefused role fault (reply_of r)) }
{
    match fault {
        ParseFault::Literal { at } => refuse_at(alloc, role, at, "literal"),
        ParseFault::Nesting { at } => refuse_at(alloc, role, at, "nesting"),
        ParseFault::Syntax { at } => refuse_at(alloc, role, at, "syntax"),
        ParseFault::Shape { at } => refuse_at(alloc, role, at, "shape"),
        ParseFault::TooBig { size } => refuse_past(alloc, role, "size", size),
        ParseFault::TooDeep { depth } => refuse_past(alloc, role, "depth", depth),
        ParseFault::Memory => Err(NoReply::Memory),
    }
}

/// The answer to an input that is no text of what it is to be.
///
/// # Errors
///
/// `Memory`: where reading it wanted memory, too.
pub fn refuse_text(alloc: Global, role: Role, fault: TextFault) -> Result<Reply, NoReply>
    ensures { IfOk result (λ r. IsTextRefused role fault (reply_of r)) }
{
    match fault {
        TextFault::BadByte { at } => refuse_at(alloc, role, at, "byte"),
        TextFault::Unread(why) => refuse_unread(alloc, role, why),
        TextFault::Memory => Err(NoReply::Memory),
    }
}
