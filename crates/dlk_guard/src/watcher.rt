//! Observers of a replay.
ghost use Rattle.std.specs.Prelude.{◌≡◌, ◌+◌, ◌≤◌, ℕ, OnOk, OnErr};
ghost use Rattle.dlk_sequent.specs.Sequents.{sequent_at, IsKnown};
ghost use Rattle.dlk_rules.specs.Steps.{step_at, HasKnownIds};
ghost use Rattle.dlk_guard.specs.Guarded.{Line};

use dlk_rules::Step;
use dlk_sequent::Sequent;
use dlk_store::{Steps, Store};
use std::alloc::{AllocError, Global};
use std::sync::ledger::Ledger;

/// What looks on while the lines of a term are taken. Its meaning is what it knows of them.
pub trait Watcher {
    /// What it knows after one line more.
    ghost after: { Self → Line → Self };

    /// How many nodes it looks at for one line, at most.
    ghost looks: { Line → ℕ };

    /// Looks at the next line: at its step, and at the conclusion of the row that the step gives. Their ids are those of the store.
    ///
    /// # Errors
    ///
    /// For want of memory, and then nothing has changed.
    fn see<S: Store, L: Ledger>(
        &mut self,
        alloc: Global,
        store: &S,
        step: &Step,
        conclusion: &Sequent,
        steps: &mut Steps<L>,
    ) -> Result<(), AllocError>
        requires step { HasKnownIds (S.trees store.now) step.now }
        requires conclusion { IsKnown (S.trees store.now) conclusion.now }
        ensures ok { OnOk result
            (self.new ≡ after self.old (record { step = step_at (S.trees store.now) step.now; conclusion = sequent_at (S.trees store.now) conclusion.now })) }
        ensures err { OnErr result (self.new ≡ self.old) }
        ensures cost { steps.new ≤
            steps.old + looks (record { step = step_at (S.trees store.now) step.now; conclusion = sequent_at (S.trees store.now) conclusion.now }) };
}

/// A watcher that sees nothing.
#[derive(Clone, Copy, Debug)]
pub struct Unwatched;

impl Watcher for Unwatched {
    ghost after = { λ it _. it };

    ghost looks = { λ _. 0 };

    fn see<S: Store, L: Ledger>(
        &mut self,
        _alloc: Global,
        _store: &S,
        _step: &Step,
        _conclusion: &Sequent,
        _steps: &mut Steps<L>,
    ) -> Result<(), AllocError> {
        Ok(())
    }
}
