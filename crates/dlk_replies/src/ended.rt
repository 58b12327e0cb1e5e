// The end of a job that goes step by step: a refusal ends it early, and so does want of memory.
ghost use Rattle.std.specs.Prelude.{◌≡◌};
ghost use Rattle.dlk_replies.specs.declared.ended.Ended.TheVariants.{Memory};
ghost use Rattle.dlk_replies.specs.Ended.{end_of, answer_of};

use crate::fault::NoReply;
use crate::reply::Reply;
use dlk_print::PrintFault;

/// Why a job ended before its last step.
#[derive(Drop, Debug)]
pub enum Ended {
    /// An input is refused, or what comes of the inputs is, with this reply.
    Refused(Reply),
    /// Memory ran out.
    Memory,
}

impl From<NoReply> for Ended {
    ghost from_gives = { λ _ e. e ≡ Memory };

    fn from(_: NoReply) -> Ended {
        Ended::Memory
    }
}

impl From<PrintFault> for Ended {
    ghost from_gives = { λ _ e. e ≡ Memory };

    fn from(_: PrintFault) -> Ended {
        Ended::Memory
    }
}

/// The end of a job with a refusal, if there was memory for its reply.
pub fn end_by(refusal: Result<Reply, NoReply>) -> Ended
    ensures { result ≡ end_of refusal }
{
    match refusal {
        Ok(reply) => Ended::Refused(reply),
        Err(NoReply::Memory) => Ended::Memory,
    }
}

/// The answer of a job, whether it came to its last step or ended before it.
///
/// # Errors
///
/// `Memory`: exactly where memory ran out.
pub fn answer_of(job: Result<Reply, Ended>) -> Result<Reply, NoReply>
    ensures { result ≡ answer_of job }
{
    match job {
        Ok(reply) => Ok(reply),
        Err(Ended::Refused(reply)) => Ok(reply),
        Err(Ended::Memory) => Err(NoReply::Memory),
    }
}
