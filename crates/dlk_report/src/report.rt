//! What a report says.
ghost use Rattle.std.specs.Prelude.{◌≡◌, All, IfOk, map};
ghost use Rattle.dlk_calculus.specs.Places.{At, IsPlace};
ghost use Rattle.dlk_calculus.specs.Provables.{Provable};
ghost use Rattle.dlk_sequent.specs.Sequents.{sequent_at, IsKnown};
ghost use Rattle.dlk_kernel.specs.Kernel.{facts};
ghost use Rattle.dlk_report.specs.Reports.{parts_of, text_of, HasAsciiTexts};

use crate::fault::ReportFault;
use dlk_kernel::{Fact, Kernel};
use dlk_print::sequent_text;
use dlk_sequent::{Sequent, Shared};
use dlk_store::{Steps, Store};
use std::alloc::Global;
use std::sync::ledger::Ledger;

/// What is reported of a provable: whether no goals are left, and the canonical texts of its sequents.
#[derive(Drop, Debug)]
pub struct Report {
    pub closed: bool,
    pub conclusion: Vec<u8>,
    pub goals: Vec<Vec<u8>>,
    pub leaves: Vec<Vec<u8>>,
    pub lines: u32,
}

ghost use Rattle.dlk_report.specs.Shown.{bytes_of, parts};

/// The canonical text of a sequent.
fn text<S: Store, L: Ledger>(
    alloc: Global,
    store: &S,
    s: &Sequent,
    steps: &mut Steps<L>,
) -> Result<Vec<u8>, ReportFault>
    requires { IsKnown (S.trees store.now) s.now }
    ensures { IfOk result (λ text. text.items ≡ text_of (sequent_at (S.trees store.now) s.now)) }
{
    let mut text = Vec::new(alloc);
    sequent_text(store, s, &mut text, steps)?;
    Ok(text)
}

/// The canonical texts of sequents.
fn texts<S: Store, L: Ledger>(
    alloc: Global,
    store: &S,
    sequents: &[Shared<Sequent>],
    steps: &mut Steps<L>,
) -> Result<Vec<Vec<u8>>, ReportFault>
    requires { All (IsKnown (S.trees store.now)) sequents.now }
    ensures { IfOk result (λ texts. map bytes_of texts.items ≡ map text_of (map (sequent_at (S.trees store.now)) sequents.now)) }
{
    let mut texts = Vec::new(alloc);
    for s in sequents {
        texts.push(text(alloc, store, s.value(), steps)?)?;
    }
    Ok(texts)
}

/// The report of a fact, from 1 to the number of rows, that so many lines have shown.
///
/// # Errors
///
/// `Memory` alone.
pub fn shown<S: Store, L: Ledger>(
    alloc: Global,
    kernel: &Kernel<S>,
    fact: Fact,
    lines: u32,
    steps: &mut Steps<L>,
) -> Result<Report, ReportFault>
    requires { IsPlace kernel.now.rows fact }
    ensures parts { IfOk result (λ report. (p : Provable) → At (facts S.trees kernel.now) fact p → parts report ≡ parts_of p lines) }
    ensures ascii { IfOk result (λ report. HasAsciiTexts (parts report)) }
{
    let conclusion = text(alloc, kernel, kernel.conclusion(fact), steps)?;
    let goals = texts(alloc, kernel, kernel.goals(fact), steps)?;
    let leaves = texts(alloc, kernel, kernel.leaves(fact), steps)?;
    Ok(Report {
        closed: goals.is_empty(),
        conclusion,
        goals,
        leaves,
        lines,
    })
}
