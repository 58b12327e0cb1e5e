//! One line of a file.
ghost use Rattle.std.specs.Prelude.{◌≡◌, ◌≢◌, ◌<◌, ◌≤◌, ◌+◌, ◌∷◌, ◌++◌, [], ℕ, List, length, false, All, Err, OnOk, IfOk, IfErr, OnErr};
ghost use Rattle.std.specs.List.{position_or_len};
ghost use Rattle.dlk_calculus.specs.Steps.{Adds};
ghost use Rattle.dlk_store.specs.Stores.{IsId};
ghost use Rattle.dlk_rules.specs.Steps.{step_at, HasKnownIds};
ghost use Rattle.dlk_kernel.specs.Kernel.{facts};
ghost use Rattle.dlk_nodes.specs.Lines.{IsLine};
ghost use Rattle.dlk_nodes.specs.Tables.{nodes_at, has};
ghost use Rattle.dlk_replay.specs.declared.fault.LineWhy.TheVariants.{WrongNumber};
ghost use Rattle.dlk_replay.specs.declared.fault.ReplayFault.TheVariants.{Bad};
ghost use Rattle.dlk_replay.specs.declared.version.Version.TheVariants.{One, Two};
ghost use Rattle.dlk_replay.specs.Files.{file_lines, is_line_feed};
ghost use Rattle.dlk_replay.specs.Replay.{IsLineInFull, IsLineOf, nodes_of, AreKnownNodes, IsLineFault, IsStepFault, IsNodeFault, of_text};
ghost use Rattle.dlk_replay.specs.Replay.{of_step, Takes, SeesLast};

use crate::fault::{LineWhy, ReplayFault};
use crate::version::Version;
use dlk_guard::Watcher;
use dlk_kernel::{Kernel, StepFault};
use dlk_nodes::{Line2, NodeTable, read_node_line};
use dlk_rules::{Step, step_stays};
use dlk_store::{Id, Steps, Store};
use dlk_termtext::{Line, LineFault, read_line};
use memchr::memchr;
use std::alloc::{AllocError, Global};
use std::sync::ledger::Ledger;

/// What a line did.
#[derive(Drop, Debug)]
pub(crate) enum Taken {
    /// This step, which it says, was taken.
    Step(Step),
    /// The node that it says was put behind the others.
    Node,
    /// It is `done`.
    Done,
}

/// Reads the line at this place of a file of this version, and takes its step or its node.
pub(crate) fn take_line<S: Store, L: Ledger>(
    alloc: Global,
    line: &[u8],
    place: usize,
    version: &mut Version,
    kernel: &mut Kernel<S>,
    steps: &mut Steps<L>,
) -> Result<Taken, ReplayFault>
    requires { AreKnownNodes (S.trees kernel.old.store) version.old }
    ensures taken { IfOk result
        (Takes (S.trees kernel.old.store) (S.trees kernel.new.store) version.old version.new (facts S.trees kernel.old) line.now (facts S.trees kernel.new)) }
    ensures nodes { OnOk result (AreKnownNodes (S.trees kernel.new.store) version.new) }
    ensures fault { IfErr result
        (IsLineFault (IsLineOf (S.trees kernel.old.store) version.old) (nodes_of version.old) place (facts S.trees kernel.old) line.now) }
    ensures err { OnErr result (facts S.trees kernel.new ≡ facts S.trees kernel.old) }
    ensures grows { S.grows kernel.old.store kernel.new.store }
{
    match version {
        Version::One => take_in_full(alloc, line, place, kernel, steps),
        Version::Two(table) => take_by_nodes(alloc, line, place, table, kernel, steps),
    }
}

/// Reads the line at this place of a file of version 1, and takes its step.
fn take_in_full<S: Store, L: Ledger>(
    alloc: Global,
    line: &[u8],
    place: usize,
    kernel: &mut Kernel<S>,
    steps: &mut Steps<L>,
) -> Result<Taken, ReplayFault>
    ensures taken { IfOk result
        (Takes (S.trees kernel.old.store) (S.trees kernel.new.store) One One (facts S.trees kernel.old) line.now (facts S.trees kernel.new)) }
    ensures fault { IfErr result (IsLineFault IsLineInFull 0 place (facts S.trees kernel.old) line.now) }
    ensures err { OnErr result (facts S.trees kernel.new ≡ facts S.trees kernel.old) }
    ensures grows { S.grows kernel.old.store kernel.new.store }
{
    step_stays();
    match read_line(alloc, line, kernel) {
        Ok(Line::Done) => Ok(Taken::Done),
        Ok(Line::Step { number, step }) => {
            take_step(alloc, &step, number, place, kernel, steps)?;
            Ok(Taken::Step(step))
        }
        Err(fault) => Err(of_text(place, fault)),
    }
}

/// Reads the line at this place of a file of version 2, and takes its step, or puts its node behind those of the table.
fn take_by_nodes<S: Store, L: Ledger>(
    alloc: Global,
    line: &[u8],
    place: usize,
    table: &mut NodeTable,
    kernel: &mut Kernel<S>,
    steps: &mut Steps<L>,
) -> Result<Taken, ReplayFault>
    requires { All (IsId (S.trees kernel.old.store)) table.old }
    ensures taken { IfOk result (Takes (S.trees kernel.old.store) (S.trees kernel.new.store) (Two table.old) (Two table.new) (facts S.trees kernel.old) line.now
        (facts S.trees kernel.new)) }
    ensures nodes { OnOk result (All (IsId (S.trees kernel.new.store)) table.new) }
    ensures fault { IfErr result
        (IsLineFault (IsLine (nodes_at (S.trees kernel.old.store) table.old)) (length table.old) place (facts S.trees kernel.old) line.now) }
    ensures err { OnErr result (facts S.trees kernel.new ≡ facts S.trees kernel.old) }
    ensures grows { S.grows kernel.old.store kernel.new.store }
{
    step_stays();
    let _rows = kernel.rows();
    match read_node_line(alloc, line, table, kernel, steps) {
        Ok(Line2::Done) => Ok(Taken::Done),
        Ok(Line2::Node { number, id }) => {
            take_node(number, id, place, table)?;
            Ok(Taken::Node)
        }
        Ok(Line2::Step { number, step }) => {
            take_step(alloc, &step, number, place, kernel, steps)?;
            Ok(Taken::Step(step))
        }
        Err(fault) => Err(of_text(place, fault)),
    }
}

/// Takes a step whose line stands at this place, if the number of the line is its own.
fn take_step<S: Store, L: Ledger>(
    alloc: Global,
    step: &Step,
    number: u32,
    place: usize,
    kernel: &mut Kernel<S>,
    steps: &mut Steps<L>,
) -> Result<(), ReplayFault>
    requires { HasKnownIds (S.trees kernel.old.store) step.now }
    ensures number { OnOk result (number ≡ length kernel.old.rows + 1) }
    ensures adds { OnOk result (Adds (facts S.trees kernel.old) (step_at (S.trees kernel.old.store) step.now) (facts S.trees kernel.new)) }
    ensures fault { IfErr result (IsStepFault place number (facts S.trees kernel.old) (step_at (S.trees kernel.old.store) step.now)) }
    ensures owed { number ≢ length kernel.old.rows + 1 → result ≡ Err (Bad place WrongNumber) }
    ensures err { OnErr result (facts S.trees kernel.new ≡ facts S.trees kernel.old) }
    ensures grows { S.grows kernel.old.store kernel.new.store }
{
    if number != kernel.rows() + 1 {
        return Err(ReplayFault::Bad {
            line: place,
            why: LineWhy::WrongNumber,
        });
    }
    match kernel.step(alloc, step, steps) {
        Ok(_) => Ok(()),
        Err(fault) => Err(of_step(place, fault)),
    }
}

/// The fault of the line at this place whose text says nothing.
fn of_text(place: usize, fault: LineFault) -> ReplayFault
    ensures { result ≡ of_text place fault }
{
    match fault {
        LineFault::Malformed => ReplayFault::Bad {
            line: place,
            why: LineWhy::Malformed,
        },
        LineFault::Memory => ReplayFault::Memory,
    }
}

/// The fault of the line at this place whose step the kernel doesn't take.
fn of_step(place: usize, fault: StepFault) -> ReplayFault
    ensures { result ≡ of_step place fault }
{
    match fault {
        StepFault::Refused(reason) => ReplayFault::Bad {
            line: place,
            why: LineWhy::Step(reason),
        },
        StepFault::Memory => ReplayFault::Memory,
    }
}

/// Puts a node, whose line stands at this place, behind those of the table, if the number of the line is its own.
fn take_node(number: u32, id: Id, place: usize, table: &mut NodeTable) -> Result<(), ReplayFault>
    requires { has table.old id ≡ false }
    ensures number { OnOk result (number ≡ length table.old + 1) }
    ensures added { OnOk result (table.new ≡ table.old ++ id ∷ []) }
    ensures fault { IfErr result (IsNodeFault place number (length table.old)) }
{
    let Ok(own) = table.add(id) else {
        return Err(ReplayFault::Memory);
    };
    if number as usize != own {
        return Err(ReplayFault::Bad {
            line: place,
            why: LineWhy::WrongNumber,
        });
    }
    Ok(())
}

/// Shows a watcher the step that was taken last, with the conclusion of the row that it gave.
pub(crate) fn show_last<S: Store, L: Ledger, W: Watcher>(
    alloc: Global,
    kernel: &Kernel<S>,
    step: &Step,
    watcher: &mut W,
    steps: &mut Steps<L>,
) -> Result<(), AllocError>
    requires some { 1 ≤ length kernel.now.rows }
    requires known { HasKnownIds (S.trees kernel.now.store) step.now }
    ensures seen { OnOk result (SeesLast W.after (facts S.trees kernel.now) (step_at (S.trees kernel.now.store) step.now) watcher.old watcher.new) }
{
    let row = kernel.rows();
    watcher.see(alloc, kernel, step, kernel.conclusion(row), steps)?;
    Ok(())
}

/// The first line of what is left of a file, without its line feed, and what comes behind it.
pub fn first_line(left: &[u8]) -> (&[u8], &[u8])
    requires { 0 < length left.now }
    ensures lines { file_lines left.now ≡ result.0.now ∷ file_lines result.1.now }
    ensures less { length result.1.now < length left.now }
{
    let (line, rest) = left.split_at(line_end(left));
    let [_feed, behind @ ..] = rest else {
        return (line, rest);
    };
    (line, behind)
}

/// Where the first line ends: the place of the first line feed, or the length.
fn line_end(left: &[u8]) -> usize
    ensures place { result ≡ position_or_len is_line_feed left.now }
    ensures within { result ≤ length left.now }
{
    memchr(b'\n', left).unwrap_or(left.len())
}
