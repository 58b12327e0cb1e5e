//! Files of lines.
ghost use Rattle.std.specs.Prelude.{◌≡◌, ◌<◌, ◌≤◌, ◌+◌, ◌^◌, ◌++◌, List, [], ◌∷◌, length, map, All, OnOk, IfOk, IfErr};
ghost use Rattle.dlk_calculus.specs.Steps.{Step as TreeStep};
ghost use Rattle.dlk_rules.specs.Steps.{step_at, HasKnownIds};
ghost use Rattle.dlk_kernel.specs.Kernel.{facts};
ghost use Rattle.dlk_guard.specs.Guarded.{lines};
ghost use Rattle.dlk_guard.specs.Watched.{after_all};
ghost use Rattle.dlk_replay.specs.Files.{file_lines, Verdict, accepted, FileSteps};
ghost use Rattle.dlk_replay.specs.Replay.{IsReplayFaultOf, LeavesRows, Shows, Ends, EndsWrong, kept_of};

use crate::fault::{Ending, LineWhy, Outcome, ReplayFault};
use crate::taking::{Taken, first_line, show_last, take_line};
use crate::version::begin;
use dlk_guard::{Unwatched, Watcher};
use dlk_kernel::Kernel;
use dlk_rules::{Step, step_stays};
use dlk_store::{Steps, Store};
use std::alloc::{AllocError, Global};
use std::sync::ledger::Ledger;

/// Takes the steps of a proof-term file of either version on a kernel without rows, and keeps them. Each line is read once.
///
/// # Errors
///
/// - `Bad`: the first line that is not as it must be, and why. The kernel has the rows of the lines before it.
/// - `Memory`: for want of memory. The kernel has the rows of some first lines.
pub fn replay<S: Store, L: Ledger>(
    alloc: Global,
    bytes: &[u8],
    kernel: &mut Kernel<S>,
    steps: &mut Steps<L>,
) -> Result<Outcome, ReplayFault>
    requires { kernel.old.rows ≡ [] }

    // The rows are those that the lines give, and the last one is named, with its line.
    ensures ok { IfOk result (λ outcome. Verdict (file_lines bytes.now) (accepted (facts S.trees kernel.new) outcome.line)) }
    ensures fact { IfOk result (λ outcome. outcome.fact ≡ length kernel.new.rows) }
    ensures lines { IfOk result (λ outcome. outcome.lines ≡ length kernel.new.rows) }
    ensures some { OnOk result (1 ≤ length kernel.new.rows) }

    // The steps are those that the lines say.
    ensures steps { IfOk result (λ outcome. FileSteps (file_lines bytes.now) (map (step_at (S.trees kernel.new.store)) outcome.steps.items)) }
    ensures known { IfOk result (λ outcome. All (HasKnownIds (S.trees kernel.new.store)) outcome.steps.items) }

    ensures bad { IfErr result (IsReplayFaultOf (file_lines bytes.now)) }
    ensures left { IfErr result (LeavesRows (file_lines bytes.now) (facts S.trees kernel.new)) }
    ensures grows { S.grows kernel.old.store kernel.new.store }
{
    take_lines(alloc, bytes, kernel, &mut Unwatched, true, steps)
}

/// Takes the steps of a proof-term file on a kernel without rows, as `replay` does, while a watcher looks on: it sees each step that the
/// kernel has taken, with the conclusion of the row that the step gave. No step is kept.
///
/// # Errors
///
/// - `Bad`: the first line that is not as it must be, and why. The kernel has the rows of the lines before it.
/// - `Memory`: for want of memory, that of the watcher among it. The kernel has the rows of some first lines.
pub fn replay_watched<S: Store, L: Ledger, W: Watcher>(
    alloc: Global,
    bytes: &[u8],
    kernel: &mut Kernel<S>,
    watcher: &mut W,
    steps: &mut Steps<L>,
) -> Result<Ending, ReplayFault>
    requires { kernel.old.rows ≡ [] }

    // The rows are those that the lines give, and the last one is named, with its line.
    ensures ok { IfOk result (λ ending. Verdict (file_lines bytes.now) (accepted (facts S.trees kernel.new) ending.line)) }
    ensures fact { IfOk result (λ ending. ending.fact ≡ length kernel.new.rows) }
    ensures lines { IfOk result (λ ending. ending.lines ≡ length kernel.new.rows) }
    ensures some { OnOk result (1 ≤ length kernel.new.rows) }

    // The watcher saw the steps that the lines say, each with the conclusion of the row that it gave.
    ensures seen { OnOk result ((taken : List TreeStep) × FileSteps (file_lines bytes.now) taken ×
        (watcher.new ≡ after_all W.after watcher.old (lines taken (facts S.trees kernel.new)))) }

    ensures bad { IfErr result (IsReplayFaultOf (file_lines bytes.now)) }
    ensures left { IfErr result (LeavesRows (file_lines bytes.now) (facts S.trees kernel.new)) }
    ensures grows { S.grows kernel.old.store kernel.new.store }
{
    let outcome = take_lines(alloc, bytes, kernel, watcher, false, steps)?;
    Ok(Ending {
        fact: outcome.fact,
        lines: outcome.lines,
        line: outcome.line,
    })
}

/// Takes the steps of the lines of a file, and keeps them if they are to be kept, while a watcher looks on.
fn take_lines<S: Store, L: Ledger, W: Watcher>(
    alloc: Global,
    bytes: &[u8],
    kernel: &mut Kernel<S>,
    watcher: &mut W,
    keep: bool,
    steps: &mut Steps<L>,
) -> Result<Outcome, ReplayFault>
    requires { kernel.old.rows ≡ [] }
    ensures ok { IfOk result (λ outcome. Verdict (file_lines bytes.now) (accepted (facts S.trees kernel.new) outcome.line)) }
    ensures fact { IfOk result (λ outcome. outcome.fact ≡ length kernel.new.rows) }
    ensures lines { IfOk result (λ outcome. outcome.lines ≡ length kernel.new.rows) }
    ensures some { OnOk result (1 ≤ length kernel.new.rows) }
    ensures shows { IfOk result (λ outcome. Shows W.after (file_lines bytes.now) (facts S.trees kernel.new) keep
        (map (step_at (S.trees kernel.new.store)) outcome.steps.items) watcher.old watcher.new) }
    ensures known { IfOk result (λ outcome. All (HasKnownIds (S.trees kernel.new.store)) outcome.steps.items) }
    ensures bad { IfErr result (IsReplayFaultOf (file_lines bytes.now)) }
    ensures left { IfErr result (LeavesRows (file_lines bytes.now) (facts S.trees kernel.new)) }
    ensures grows { S.grows kernel.old.store kernel.new.store }
{
    step_stays();
    let mut kept = Vec::new(alloc);
    let (mut version, mut left, mut place) = begin(alloc, bytes);
    let mut last = 0;
    while !left.is_empty() {
        let (line, behind) = first_line(left);
        left = behind;
        place += 1;
        match take_line(alloc, line, place, &mut version, kernel, steps)? {
            Taken::Node => {}
            Taken::Step(step) => {
                show_last(alloc, kernel, &step, watcher, steps)?;
                last = place;
                keep_step(keep, &mut kept, step)?;
            }
            Taken::Done => {
                let end = end_at(place, kernel.rows(), last, behind)?;
                return Ok(Outcome {
                    fact: end.fact,
                    lines: end.lines,
                    line: end.line,
                    steps: kept,
                });
            }
        }
    }
    Err(ReplayFault::Bad {
        line: place + 1,
        why: LineWhy::NoEnd,
    })
}

/// Puts a step behind those before it, if they are kept.
fn keep_step(keep: bool, kept: &mut Vec<Step>, step: Step) -> Result<(), AllocError>
    ensures { OnOk result (kept.new.items ≡ kept.old.items ++ kept_of keep (step ∷ [])) }
{
    if keep {
        kept.push(step)?;
    }
    Ok(())
}

/// What becomes of a file that ends with the line at this place, behind lines that gave so many rows, the last of them at its line.
fn end_at(place: usize, rows: u32, last: usize, behind: &[u8]) -> Result<Ending, ReplayFault>
    requires { place + 1 < 2 ^ 64 }
    ensures ok { IfOk result (Ends rows last behind.now) }
    ensures bad { IfErr result (EndsWrong rows place behind.now) }
{
    if rows == 0 {
        return Err(ReplayFault::Bad {
            line: place,
            why: LineWhy::Malformed,
        });
    }
    if !behind.is_empty() {
        return Err(ReplayFault::Bad {
            line: place + 1,
            why: LineWhy::Malformed,
        });
    }
    Ok(Ending {
        fact: rows,
        lines: rows,
        line: last,
    })
}
