// The end of a command that writes a term: its text and its report.
ghost use Rattle.std.specs.Prelude.{◌≡◌, length, map, All, IfOk, IfErr};
ghost use Rattle.dlk_calculus.specs.Places.{At, IsPlace};
ghost use Rattle.dlk_calculus.specs.Provables.{Provable};
ghost use Rattle.dlk_kernel.specs.Kernel.{facts};
ghost use Rattle.dlk_rules.specs.Steps.{step_at, HasKnownIds};
ghost use Rattle.dlk_jobs_record.specs.Records.{term_too_long, Records};
ghost use Rattle.dlk_replies.specs.Ended.{EndsIn};
ghost use Rattle.dlk_replies.specs.Shown.{reply_of};

use dlk_jobs_check::check::report;
use dlk_kernel::{Fact, Kernel};
use dlk_recorder::{Recorded, record};
use dlk_replies::{Ended, Layout, NoReply, Reply, Role, end_by, refused};
use dlk_rules::Step;
use dlk_store::{Steps, Store};
use std::alloc::Global;
use std::sync::ledger::Ledger;

/// The answer to a command whose term would have so many bytes.
pub fn refuse_length(alloc: Global, bytes: u128) -> Result<Reply, NoReply>
    ensures { IfOk result (λ r. reply_of r ≡ term_too_long bytes) }
{
    let why = format!(in alloc; "term-too-long {bytes}")?;
    refused(alloc, why.as_str())
}

/// The end of a command that writes a term: the term file of steps, and the report of the last row, which is the fact that they show.
/// The text is made before the report.
///
/// # Errors
///
/// - `Refused`: the file would be longer than a term may be.
/// - `Memory`: for want of memory.
pub fn finish<S: Store, L: Ledger>(
    alloc: Global,
    kernel: &Kernel<S>,
    fact: Fact,
    taken: &[Step],
    steps: &mut Steps<L>,
) -> Result<Reply, Ended>
    requires fact { IsPlace kernel.now.rows fact }
    requires known { All (HasKnownIds (S.trees kernel.now.store)) taken.now }
    requires few { length taken.now ≡ length kernel.now.rows }
    ensures reply { IfOk result (λ r. (p : Provable) → At (facts S.trees kernel.now) fact p →
        Records (map (step_at (S.trees kernel.now.store)) taken.now) p (reply_of r)) }
    ensures ended { IfErr result (EndsIn (λ reply. (p : Provable) → Records (map (step_at (S.trees kernel.now.store)) taken.now) p reply)) }
{
    let lines = kernel.rows();
    let term = match record(alloc, kernel, taken, Role::Term.limit(), steps)? {
        Recorded::Whole(term) => term,
        Recorded::TooLong(bytes) => return Err(end_by(refuse_length(alloc, bytes))),
    };
    let mut reply = report(alloc, Layout::Text, kernel, fact, lines, steps)?;
    reply.written = Some(term);
    Ok(reply)
}
