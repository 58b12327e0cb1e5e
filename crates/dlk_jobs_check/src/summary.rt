// The summary of a proof, which `gen N` prints where `check` prints a report.
ghost use Rattle.std.specs.Prelude.{◌≡◌, IfOk};
ghost use Rattle.dlk_calculus.specs.Places.{At, IsPlace};
ghost use Rattle.dlk_calculus.specs.Provables.{Provable};
ghost use Rattle.dlk_kernel.specs.Kernel.{facts};
ghost use Rattle.dlk_report.specs.Reports.{first_word};
ghost use Rattle.dlk_jobs_check.specs.Checks.{summed};
ghost use Rattle.dlk_replies.specs.Shown.{reply_of};

use dlk_kernel::{Fact, Kernel};
use dlk_replies::{NoReply, Reply, Status, printing};
use dlk_store::Store;
use std::alloc::Global;

/// The first line of a report.
fn first_word(closed: bool) -> &'static str
    ensures { result.now ≡ first_word closed }
{
    if closed { "closed" } else { "open" }
}

/// The summary of a fact that so many lines have shown, of a model of so many assignments.
pub(crate) fn sum_up<S: Store>(
    alloc: Global,
    count: u32,
    kernel: &Kernel<S>,
    fact: Fact,
    lines: u32,
) -> Result<Reply, NoReply>
    requires { IsPlace kernel.now.rows fact }
    ensures { IfOk result (λ r. (p : Provable) → At (facts S.trees kernel.now) fact p → reply_of r ≡ summed count p lines) }
{
    let leaves = kernel.leaves(fact).len();
    let ended = first_word(kernel.goals(fact).is_empty());
    let text = format!(in alloc; "generated {count}\nlines {lines}\nleaves {leaves}\n{ended}\n")?;
    Ok(printing(Status::Done, text.into_bytes()))
}
