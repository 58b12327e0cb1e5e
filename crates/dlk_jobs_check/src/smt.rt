// `smt MODEL TERM`: the leaves of a proof as a script for a solver, where `check` prints a report.
ghost use Rattle.std.specs.Prelude.{◌≡◌, IfOk};
ghost use Rattle.dlk_calculus.specs.Places.{At, IsPlace};
ghost use Rattle.dlk_calculus.specs.Provables.{Provable};
ghost use Rattle.dlk_kernel.specs.Kernel.{facts};
ghost use Rattle.dlk_jobs_check.specs.Checks.{power_refused, exported};
ghost use Rattle.dlk_replies.specs.Shown.{reply_of};

use dlk_kernel::{Fact, Kernel};
use dlk_replies::{NoReply, Reply, Status, printing, refused};
use dlk_smt::{LeavesFault, leaves_text};
use dlk_store::{Steps, Store};
use std::alloc::Global;
use std::sync::ledger::Ledger;

/// The answer to a proof in which this leaf is the first with a power that has no text.
fn refuse_power(alloc: Global, leaf: usize) -> Result<Reply, NoReply>
    ensures { IfOk result (λ r. reply_of r ≡ power_refused leaf) }
{
    let why = format!(in alloc; "leaf {leaf}: power")?;
    refused(alloc, why.as_str())
}

/// The leaves of a fact as a script for a solver.
pub(crate) fn export<S: Store, L: Ledger>(
    alloc: Global,
    kernel: &Kernel<S>,
    fact: Fact,
    steps: &mut Steps<L>,
) -> Result<Reply, NoReply>
    requires { IsPlace kernel.now.rows fact }
    ensures { IfOk result (λ r. (p : Provable) → At (facts S.trees kernel.now) fact p → reply_of r ≡ exported p) }
{
    let printed = match leaves_text(alloc, kernel, kernel.leaves(fact), steps) {
        Ok(text) => text,
        Err(LeavesFault::Power { leaf }) => return refuse_power(alloc, leaf),
        Err(LeavesFault::Memory) => return Err(NoReply::Memory),
    };
    let status = if kernel.goals(fact).is_empty() {
        Status::Closed
    } else {
        Status::Open
    };
    Ok(printing(status, printed))
}
