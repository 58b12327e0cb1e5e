//! The guard: it looks at the lines one by one, and finds the first one that is unguarded.
ghost use Rattle.std.specs.Prelude.{◌≡◌, ◌+◌, ◌≤◌, IfOk, option_map, length};
ghost use Rattle.dlk_sequent.specs.Sequents.{sequent_at, IsKnown};
ghost use Rattle.dlk_rules.specs.Steps.{step_at, HasKnownIds};
ghost use Rattle.dlk_guard.specs.Guarded.{raw_axiom, shown, shown_why, made_of, mark_at, mark_of, why_raw, misuse};
ghost use Rattle.dlk_guard.specs.Watched.{started, watched, verdict};
ghost use Rattle.dlk_guard.specs.Looks.{shown_looks, made_looks, misuse_looks, line_looks};

use crate::conditions::instance_why;
use crate::contexts::has_differential_context;
use crate::raw::{Raw, RawAxiom};
use crate::watcher::Watcher;
use crate::why::Why;
use dlk_rules::Step;
use dlk_sequent::{Sequent, item_at};
use dlk_store::{Steps, Store};
use dlk_tree::Name;
use std::alloc::{AllocError, Global};
use std::marker::Model;
use std::sync::ledger::Ledger;

/// A line that is unguarded, counted from 1, and why.
#[derive(Drop, Debug)]
pub struct Refusal {
    pub line: usize,
    pub why: Why,
}

/// What is known of the lines that went by: of each row whether it is raw and why, and the first line that is refused whatever follows.
#[derive(Drop, Debug)]
pub struct Guard {
    marks: Vec<Option<Raw>>,
    refused: Option<Refusal>,
}

impl Model for Guard {
    ghost use Rattle.dlk_guard.specs.Watched.{Watch};

    ghost Value = { Watch };

    ghost view = { λ g. record { marks = g.marks.items; refused = g.refused } };
}

/// The axiom of this name, where its row is raw.
fn raw_axiom(name: &Name) -> Option<RawAxiom>
    ensures { result ≡ raw_axiom name.now }
{
    if name.bytes() == b"DI".as_slice() {
        return Some(RawAxiom::Di);
    }
    if name.bytes() == b"DG".as_slice() {
        return Some(RawAxiom::Dg);
    }
    None
}

/// Why what the sequent shows is no good instance of the axiom.
fn shown_why<S: Store, L: Ledger>(
    alloc: Global,
    store: &S,
    origin: RawAxiom,
    s: &Sequent,
    steps: &mut Steps<L>,
) -> Result<Option<Why>, AllocError>
    requires { IsKnown (S.trees store.now) s.now }
    ensures why { IfOk result (λ why. let t = sequent_at (S.trees store.now) s.now in why ≡ shown_why origin (shown t.ante t.succ)) }
    ensures cost { steps.new ≤ steps.old + shown_looks (sequent_at (S.trees store.now) s.now) }
{
    if s.ante.as_slice().len() != 0 || s.succ.as_slice().len() != 1 {
        return Ok(Some(Why::RawFact));
    }
    instance_why(alloc, store, origin, s.succ.as_slice()[0], steps)
}

/// The mark of what is made of a row with this mark.
fn made_of<S: Store, L: Ledger>(
    alloc: Global,
    store: &S,
    raw: Option<&Raw>,
    s: &Sequent,
    steps: &mut Steps<L>,
) -> Result<Option<Raw>, AllocError>
    requires { IsKnown (S.trees store.now) s.now }
    ensures mark { IfOk result (λ mark. mark ≡ made_of (option_map (λ r. r.now) raw.entry) (sequent_at (S.trees store.now) s.now)) }
    ensures cost { steps.new ≤ steps.old + shown_looks (sequent_at (S.trees store.now) s.now) }
{
    let Some(raw) = raw else {
        return Ok(None);
    };
    let origin = raw.origin;
    match shown_why(alloc, store, origin, s, steps)? {
        Some(why) => Ok(Some(Raw { origin, why })),
        None => Ok(None),
    }
}

/// The mark of a row: none where it isn't raw or isn't there.
fn mark_at(marks: &[Option<Raw>], fact: u32) -> Option<&Raw>
    ensures { option_map (λ r. r.now) result ≡ mark_at marks.now fact }
{
    match item_at(marks, fact) {
        Some(Some(raw)) => Some(raw),
        _ => None,
    }
}

/// The mark of what the step gives behind rows with these marks.
fn mark_of<S: Store, L: Ledger>(
    alloc: Global,
    store: &S,
    marks: &[Option<Raw>],
    step: &Step,
    s: &Sequent,
    steps: &mut Steps<L>,
) -> Result<Option<Raw>, AllocError>
    requires { IsKnown (S.trees store.now) s.now }
    ensures mark { IfOk result (λ mark. mark ≡ mark_of marks.now (step_at (S.trees store.now) step.now) (sequent_at (S.trees store.now) s.now)) }
    ensures cost { steps.new ≤ steps.old + made_looks (step_at (S.trees store.now) step.now) (sequent_at (S.trees store.now) s.now) }
{
    match step {
        Step::Axiom(name) => Ok(raw_axiom(name).map(|origin| Raw {
            origin,
            why: Why::RawFact,
        })),
        Step::Subst { fact, .. } => made_of(alloc, store, mark_at(marks, *fact), s, steps),
        Step::Rename { fact, .. } => made_of(alloc, store, mark_at(marks, *fact), s, steps),
        _ => Ok(None),
    }
}

/// The mark of the last row.
fn last_mark(mut marks: Vec<Option<Raw>>) -> Option<Raw>
    ensures { result ≡ mark_at marks.items (length marks.items) }
{
    match marks.pop() {
        Some(mark) => mark,
        None => None,
    }
}

/// Why the row is raw.
fn why_raw(raw: Option<&Raw>) -> Result<Option<Why>, AllocError>
    ensures { IfOk result (λ why. why ≡ why_raw (option_map (λ r. r.now) raw.entry)) }
{
    match raw {
        Some(raw) => Ok(Some(raw.why.clone()?)),
        None => Ok(None),
    }
}

/// Why a step behind rows with these marks is refused.
fn misuse<S: Store, L: Ledger>(
    store: &S,
    marks: &[Option<Raw>],
    step: &Step,
    steps: &mut Steps<L>,
) -> Result<Option<Why>, AllocError>
    requires { HasKnownIds (S.trees store.now) step.now }
    ensures why { IfOk result (λ why. why ≡ misuse marks.now (step_at (S.trees store.now) step.now)) }
    ensures cost { steps.new ≤ steps.old + misuse_looks (step_at (S.trees store.now) step.now) }
{
    match step {
        Step::Axiom(name) if name.bytes() == b"Dforall".as_slice() => Ok(Some(Why::Dforall)),
        Step::Merge { fact, by, .. } => {
            if let Some(why) = why_raw(mark_at(marks, *fact))? {
                return Ok(Some(why));
            }
            why_raw(mark_at(marks, *by))
        }
        Step::Subst { pairs, .. } if has_differential_context(store, pairs.as_slice(), steps) => {
            Ok(Some(Why::DifferentialContext))
        }
        _ => Ok(None),
    }
}

impl Guard {
    /// A guard that has seen no line.
    pub fn new(alloc: Global) -> Guard
        ensures { result ≡ started }
    {
        Guard {
            marks: Vec::new(alloc),
            refused: None,
        }
    }

    /// The first line that is unguarded, where there is one: one that was refused, or else the last, where its row is raw.
    pub fn verdict(self) -> Option<Refusal>
        ensures { result ≡ verdict self }
    {
        if self.refused.is_some() {
            return self.refused;
        }
        let line = self.marks.len();
        match last_mark(self.marks) {
            Some(raw) => Some(Refusal { line, why: raw.why }),
            None => None,
        }
    }
}

/// A guard looks at each line.
impl Watcher for Guard {
    ghost after = { watched };

    ghost looks = { line_looks };

    fn see<S: Store, L: Ledger>(
        &mut self,
        alloc: Global,
        store: &S,
        step: &Step,
        conclusion: &Sequent,
        steps: &mut Steps<L>,
    ) -> Result<(), AllocError> {
        let mark = mark_of(alloc, store, self.marks.as_slice(), step, conclusion, steps)?;
        let why = misuse(store, self.marks.as_slice(), step, steps)?;
        self.marks.push(mark)?;
        if self.refused.is_none() {
            let line = self.marks.len();
            self.refused = why.map(|why| Refusal { line, why });
        }
        Ok(())
    }
}
