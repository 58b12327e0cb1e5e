// `convert TERM OUT`: replay a term, and write its steps anew.
ghost use Rattle.std.specs.Prelude.{◌≡◌, [], IfOk, IfErr};
ghost use Rattle.dlk_jobs_terms.specs.Converts.{Converts};
ghost use Rattle.dlk_replies.specs.Ended.{EndsIn};
ghost use Rattle.dlk_replies.specs.Shown.{reply_of};

use crate::taken::{record_taken, replayed};
use dlk_kernel::Kernel;
use dlk_replay::accepted_says_steps;
use dlk_replies::{Ended, NoReply, Reply, answer_of};
use dlk_shared::SharedStore;
use dlk_store::{Steps, Store};
use std::alloc::Global;
use std::sync::ledger::Ledger;

/// Writes a term anew on a kernel without rows.
fn convert_on<S: Store, L: Ledger>(
    alloc: Global,
    kernel: &mut Kernel<S>,
    term: &[u8],
    steps: &mut Steps<L>,
) -> Result<Reply, Ended>
    requires { kernel.old.rows ≡ [] }
    ensures reply { IfOk result (λ r. Converts term.now (reply_of r)) }
    ensures ended { IfErr result (EndsIn (Converts term.now)) }
{
    accepted_says_steps();
    let outcome = replayed(alloc, "line", term, kernel, steps)?;
    record_taken(alloc, kernel, &outcome.steps, steps)
}

/// Writes the steps of a term anew. The reply has the report, and the text of the term to be written.
///
/// # Errors
///
/// `Memory` alone: each refusal is a reply.
#[inline(never)]
pub fn convert<L: Ledger>(
    alloc: Global,
    term: &[u8],
    steps: &mut Steps<L>,
) -> Result<Reply, NoReply>
    ensures { IfOk result (λ r. Converts term.now (reply_of r)) }
{
    let mut kernel = Kernel::new(alloc, SharedStore::new(alloc));
    answer_of(convert_on(alloc, &mut kernel, term, steps))
}
