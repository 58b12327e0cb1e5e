// `check MODEL TERM`, `report MODEL TERM` and `smt MODEL TERM`: take a term for a model, and show its proof.
ghost use Rattle.std.specs.Prelude.{◌≡◌, [], IfOk, IfErr};
ghost use Rattle.dlk_calculus.specs.Places.{At, IsPlace};
ghost use Rattle.dlk_calculus.specs.Provables.{Provable};
ghost use Rattle.dlk_kernel.specs.Kernel.{facts};
ghost use Rattle.dlk_report.specs.Reports.{HasAsciiTexts};
ghost use Rattle.dlk_report.specs.Shown.{parts};
ghost use Rattle.dlk_jobs_check.specs.Checks.{laid_out, reported, answered, Checks};
ghost use Rattle.dlk_replies.specs.Ended.{EndsIn};
ghost use Rattle.dlk_replies.specs.Shown.{reply_of};

use crate::smt::export;
use crate::summary::sum_up;
use crate::term::take_term;
use dlk_guard::Unwatched;
use dlk_kernel::{Fact, Kernel};
use dlk_replies::{Ended, Layout, NoReply, Reply, Showing, Status, answer_of, printing};
use dlk_report::{Report, ReportFault, report_json, report_text, shown};
use dlk_shared::SharedStore;
use dlk_store::{Steps, Store};
use std::alloc::Global;
use std::mem::forget;
use std::sync::ledger::Ledger;

/// The bytes of a report.
fn lay_out(alloc: Global, layout: Layout, report: &Report) -> Result<Vec<u8>, ReportFault>
    requires { HasAsciiTexts (parts report.now) }
    ensures { IfOk result (λ bytes. bytes.items ≡ laid_out layout (parts report.now)) }
{
    match layout {
        Layout::Text => report_text(alloc, report),
        Layout::Json => {
            let mut bytes = report_json(alloc, report)?;
            bytes.push(b'\n')?;
            Ok(bytes)
        }
    }
}

/// The report of a fact that so many lines have shown.
pub fn report<S: Store, L: Ledger>(
    alloc: Global,
    layout: Layout,
    kernel: &Kernel<S>,
    fact: Fact,
    lines: u32,
    steps: &mut Steps<L>,
) -> Result<Reply, NoReply>
    requires { IsPlace kernel.now.rows fact }
    ensures { IfOk result (λ r. (p : Provable) → At (facts S.trees kernel.now) fact p → reply_of r ≡ reported layout p lines) }
{
    let report = match shown(alloc, kernel, fact, lines, steps) {
        Ok(report) => report,
        Err(ReportFault::Memory) => return Err(NoReply::Memory),
    };
    let printed = match lay_out(alloc, layout, &report) {
        Ok(printed) => printed,
        Err(ReportFault::Memory) => return Err(NoReply::Memory),
    };
    let status = if report.closed {
        Status::Closed
    } else {
        Status::Open
    };
    Ok(printing(status, printed))
}

/// What is shown of a fact that so many lines have shown.
fn show<S: Store, L: Ledger>(
    alloc: Global,
    showing: Showing,
    kernel: &Kernel<S>,
    fact: Fact,
    lines: u32,
    steps: &mut Steps<L>,
) -> Result<Reply, NoReply>
    requires { IsPlace kernel.now.rows fact }
    ensures { IfOk result (λ r. (p : Provable) → At (facts S.trees kernel.now) fact p → reply_of r ≡ answered showing p lines) }
{
    match showing {
        Showing::Reported(layout) => report(alloc, layout, kernel, fact, lines, steps),
        Showing::Exported => export(alloc, kernel, fact, steps),
        Showing::Summed(count) => sum_up(alloc, count, kernel, fact, lines),
    }
}

/// Checks a term on a kernel without rows.
fn check_on<S: Store, L: Ledger>(
    alloc: Global,
    showing: Showing,
    kernel: &mut Kernel<S>,
    model: &[u8],
    term: &[u8],
    steps: &mut Steps<L>,
) -> Result<Reply, Ended>
    requires { kernel.old.rows ≡ [] }
    ensures reply { IfOk result (λ r. Checks showing model.now term.now (reply_of r)) }
    ensures ended { IfErr result (EndsIn (Checks showing model.now term.now)) }
{
    let taken = take_term(alloc, model, term, kernel, &mut Unwatched, steps)?;
    let reply = show(alloc, showing, kernel, taken.fact, taken.lines, steps)?;
    Ok(reply)
}

/// Checks a term against a model, and shows the proof that it is so. The kernel's memory isn't given back: the program ends behind
/// this, and to give it back piece by piece takes a tenth of the time.
///
/// # Errors
///
/// `Memory` alone: each refusal is a reply.
#[inline(never)]
pub fn check<L: Ledger>(
    alloc: Global,
    showing: Showing,
    model: &[u8],
    term: &[u8],
    steps: &mut Steps<L>,
) -> Result<Reply, NoReply>
    ensures { IfOk result (λ r. Checks showing model.now term.now (reply_of r)) }
{
    let mut kernel = Kernel::new(alloc, SharedStore::new(alloc));
    let answer = answer_of(check_on(alloc, showing, &mut kernel, model, term, steps));
    forget(kernel);
    answer
}
