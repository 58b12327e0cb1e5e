//! Sessions on a kernel.
use crate::copies::{all_copied, save_behind};
use crate::fault::SessionFault;
use crate::goals::{goals_left, stated};
use crate::reply::Reply;
use crate::runner::Runner;
use dlk_elab::OnFault;
use dlk_kernel::{Kernel, Step};
use dlk_report::{report_text, shown};
use dlk_rules::step_stays;
use dlk_store::{Id, Steps, Store};
use dlk_tacsyn::Tactic;
use std::alloc::Global;
use std::marker::Model;
use std::sync::ledger::Ledger;

/// The most runs of atoms, those that fail included.
const MOST_RUNS: u32 = 16_000;

/// A kernel with the steps of its rows, on whose last row strategies run one after another. The last of those that were done can be undone.
///
/// Contracts see a session as what it holds, and by `state` as the state that this stands for.
#[derive(Drop)]
pub struct Session<S: Store> {
    kernel: Kernel<S>,
    /// The steps of the kernel's rows, in order.
    steps: Vec<Step>,
    /// How many rows there were before each run that is done and wasn't undone, the last one last.
    earlier: Vec<u32>,
    /// How many atoms were run, those that failed included.
    used: u32,
    /// The steps that were saved last.
    saved: Option<Vec<Step>>,
    /// How many of the first steps are those that were saved.
    shared: usize,
}

impl<S: Store> Model for Session<S> {
    ghost use Rattle.std.specs.Prelude.{option_map};
    ghost use Rattle.dlk_session.specs.Held.{Held, AreShared, IsHeld};

    ghost Value = { Held S };

    ghost view = { λ s.
        record { kernel = s.kernel; steps = s.steps.items; earlier = s.earlier.items; used = s.used; saved = option_map (λ v. v.items) s.saved } };

    ghost invariant = { λ s.
        IsHeld S.trees
        (record { kernel = s.kernel; steps = s.steps.items; earlier = s.earlier.items; used = s.used; saved = option_map (λ v. v.items) s.saved }) ×
        AreShared (S.trees s.kernel.store) s.shared s.steps.items (option_map (λ v. v.items) s.saved) };
}

impl<S: Store> Session<S> {
    ghost use Rattle.std.specs.Prelude.{◌≡◌, [], None, Some, length, IfOk, OnErr, MatchOption, IfSome};
    ghost use Rattle.dlk_calculus.specs.Limits.{IsSmall, IsShallow};
    ghost use Rattle.dlk_calculus.specs.Places.{At};
    ghost use Rattle.dlk_calculus.specs.Provables.{Provable};
    ghost use Rattle.dlk_calculus.specs.Sequents.{IsFormula};
    ghost use Rattle.dlk_store.specs.Stores.{IsId, tree};
    ghost use Rattle.dlk_tacsyn.specs.Rows.{AreOfText};
    ghost use Rattle.dlk_tacsyn.specs.Ties.{tactic_at, TacticIsKnown};
    ghost use Rattle.dlk_report.specs.Reports.{text_report};
    ghost use Rattle.dlk_session.specs.declared.reply.Reply.TheVariants.{Saved};
    ghost use Rattle.dlk_session.specs.Sessions.{Begins, Applies, Undoes, saving};
    ghost use Rattle.dlk_session.specs.Kept.{IsKept};
    ghost use Rattle.dlk_session.specs.Held.{state, IsSaved};

    /// A session on the model, with a kernel without rows: its one step states the model. The model is a formula without argument dots or `_`
    /// within the limits, and its id is that of this kernel's store.
    ///
    /// # Errors
    ///
    /// `Memory` alone; nothing is given back then.
    pub fn new<L: Ledger>(
        alloc: Global,
        mut kernel: Kernel<S>,
        model: Id,
        steps: &mut Steps<L>,
    ) -> Result<Session<S>, SessionFault>
    where
        S: Drop,
        requires none { kernel.rows ≡ [] }
        requires model { IsId (S.trees kernel.store) model }
        requires formula { IsFormula (tree (S.trees kernel.store) model) }
        requires small { IsSmall (tree (S.trees kernel.store) model) }
        requires shallow { IsShallow (tree (S.trees kernel.store) model) }
        ensures begins { IfOk result (λ session. Begins (tree (S.trees kernel.store) model) (state S.trees session)) }
        ensures grows { IfOk result (λ session. S.grows kernel.store session.kernel.store) }
    {
        let start = stated(alloc, &mut kernel, model, steps)?;
        let mut taken = Vec::new(alloc);
        taken.push(start)?;
        Ok(Session {
            kernel,
            steps: taken,
            earlier: Vec::new(alloc),
            used: 0,
            saved: None,
            shared: 0,
        })
    }

    /// Runs a strategy on a goal of the last row. Where it is done, its steps stand behind those of before, and can be undone. Where it isn't, the
    /// steps stay, and only the runs of its atoms are counted. The strategy's ids are those of this kernel's store, and its atoms those of a text.
    ///
    /// # Errors
    ///
    /// `Memory` alone; the state is as it was.
    pub fn apply<R: Runner, L: Ledger>(
        &mut self,
        alloc: Global,
        goal: u32,
        strategy: &Tactic,
        runner: &mut R,
        steps: &mut Steps<L>,
    ) -> Result<Reply, SessionFault>
        requires known { TacticIsKnown (S.trees self.old.kernel.store) strategy.now }
        requires of_text { AreOfText (tactic_at (S.trees self.old.kernel.store) strategy.now) }
        ensures applies { IfOk result (λ says.
            Applies R.becomes goal (tactic_at (S.trees self.old.kernel.store) strategy.now) (state S.trees self.old) says (state S.trees self.new)) }
        ensures err { OnErr result (state S.trees self.new ≡ state S.trees self.old) }
        ensures grows { S.grows self.old.kernel.store self.new.kernel.store }
    {
        R::laws();
        step_stays();
        if goal == 0 || goal > goals_left(&self.kernel) {
            return Ok(Reply::NoGoal);
        }
        self.earlier.reserve(1)?;
        let mark = self.kernel.mark();
        match runner.run_on(alloc, strategy, &mut self.kernel, goal, self.used, steps) {
            Ok(mut more) => {
                let Ok(()) = self.steps.append(&mut more.steps) else {
                    self.kernel.release(mark);
                    return Err(SessionFault::Memory);
                };
                let Ok(()) = self.earlier.push(mark) else {
                    unreachable!();
                };
                self.used = more.used;
                Ok(Reply::Ok {
                    goals: goals_left(&self.kernel),
                })
            }
            Err(OnFault::Fails { at, why, used }) => {
                self.used = used;
                Ok(Reply::Fails { at, why })
            }
            Err(OnFault::Budget { at }) => {
                self.used = MOST_RUNS;
                Ok(Reply::Budget { at })
            }
            Err(OnFault::Memory) => Err(SessionFault::Memory),
        }
    }

    /// Undoes the last run that is done and wasn't undone. Its atoms stay counted.
    pub fn undo(&mut self) -> Reply
        ensures undoes { Undoes (state S.trees self.old) result (state S.trees self.new) }
        ensures store { self.new.kernel.store ≡ self.old.kernel.store }
    {
        let Some(count) = self.earlier.pop() else {
            return Reply::Nothing;
        };
        self.kernel.release(count);
        self.steps.truncate(count as usize);
        self.shared = self.shared.min(count as usize);
        Reply::Ok {
            goals: goals_left(&self.kernel),
        }
    }

    /// The text report of the last row.
    ///
    /// # Errors
    ///
    /// `Memory` alone.
    pub fn show<L: Ledger>(
        &self,
        alloc: Global,
        steps: &mut Steps<L>,
    ) -> Result<Vec<u8>, SessionFault>
        ensures { IfOk result (λ text. (p : Provable) × At (state S.trees self.now).rows (length (state S.trees self.now).rows) p ×
            (text.items ≡ text_report p (length (state S.trees self.now).rows))) }
    {
        let rows = self.kernel.rows();
        let report = shown(alloc, &self.kernel, rows, rows, steps)?;
        Ok(report_text(alloc, &report)?)
    }

    /// Saves the steps that there are. What was saved before is let go, but for the first steps that are the same: each step is copied once.
    ///
    /// # Errors
    ///
    /// `Memory` alone; the state is as it was.
    pub fn save(&mut self, alloc: Global) -> Result<Reply, SessionFault>
        ensures says { IfOk result (λ says. says ≡ Saved (length (state S.trees self.old).steps)) }
        ensures saves { IfOk result (λ _. state S.trees self.new ≡ saving (state S.trees self.old)) }
        ensures err { OnErr result (state S.trees self.new ≡ state S.trees self.old) }
        ensures kernel { self.new.kernel ≡ self.old.kernel }
    {
        let new = all_copied(alloc, &self.steps[self.shared..])?;
        save_behind(&mut self.saved, self.shared, new)?;
        self.shared = self.steps.len();
        Ok(Reply::Saved {
            lines: self.kernel.rows(),
        })
    }

    /// The kernel, with the rows of the steps.
    pub fn kernel(&self) -> &Kernel<S>
        ensures kernel { result.now ≡ self.now.kernel }
        ensures kept { IsKept (state S.trees self.now) }
    {
        &self.kernel
    }

    /// The steps that were saved last. `None` comes exactly where none were saved.
    pub fn saved(&self) -> Option<&[Step]>
        ensures saved { MatchOption result (self.now.saved ≡ None) (λ steps. self.now.saved ≡ Some steps.now) }
        ensures known { IfSome result (λ steps. IsSaved (S.trees self.now.kernel.store) steps.now) }
    {
        match &self.saved {
            None => None,
            Some(steps) => Some(steps.as_slice()),
        }
    }
}
