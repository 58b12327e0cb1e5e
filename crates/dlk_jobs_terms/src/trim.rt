// `trim MODEL TERM OUT`: leave out what the last line of a term doesn't need, write what is left, and report.
ghost use Rattle.std.specs.Prelude.{◌≡◌, [], IfOk, IfErr};
ghost use Rattle.dlk_jobs_terms.specs.Trims.{Trims};
ghost use Rattle.dlk_replies.specs.Ended.{EndsIn};
ghost use Rattle.dlk_replies.specs.Shown.{reply_of};

use crate::taken::{record_taken, taken};
use dlk_kernel::Kernel;
use dlk_link::trimmed_is_taken;
use dlk_replay::accepted_says_steps;
use dlk_replies::{Ended, NoReply, Reply, answer_of};
use dlk_rules::step_stays;
use dlk_shared::SharedStore;
use dlk_store::{Steps, Store};
use std::alloc::Global;
use std::sync::ledger::Ledger;

/// Trims a term on a kernel without rows.
fn trim_on<S: Store, L: Ledger>(
    alloc: Global,
    kernel: &mut Kernel<S>,
    model: &[u8],
    term: &[u8],
    steps: &mut Steps<L>,
) -> Result<Reply, Ended>
    requires { kernel.old.rows ≡ [] }
    ensures reply { IfOk result (λ r. Trims model.now term.now (reply_of r)) }
    ensures ended { IfErr result (EndsIn (Trims model.now term.now)) }
{
    accepted_says_steps();
    step_stays();
    trimmed_is_taken();
    let whole = taken(alloc, model, term, kernel, steps)?;
    // It is refused for want of memory alone.
    let Ok(kept) = dlk_link::trim(alloc, whole, kernel, steps) else {
        return Err(Ended::Memory);
    };
    record_taken(alloc, kernel, &kept, steps)
}

/// Leaves out the steps of a term that its last one doesn't need, and those that equal earlier ones. The reply has the report, and the text of
/// the term to be written.
///
/// # Errors
///
/// `Memory` alone: each refusal is a reply.
#[inline(never)]
pub fn trim<L: Ledger>(
    alloc: Global,
    model: &[u8],
    term: &[u8],
    steps: &mut Steps<L>,
) -> Result<Reply, NoReply>
    ensures { IfOk result (λ r. Trims model.now term.now (reply_of r)) }
{
    let mut kernel = Kernel::new(alloc, SharedStore::new(alloc));
    answer_of(trim_on(alloc, &mut kernel, model, term, steps))
}
