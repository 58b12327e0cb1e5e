//! What a session runs strategies with.
ghost use Rattle.std.specs.Prelude.{◌≡◌, ◌≤◌, ◌-◌, ◌*◌, ℕ, List, length, All, IfOk, OnOk, IfErr, OnErr};
ghost use Rattle.dlk_calculus.specs.Places.{IsPlace};
ghost use Rattle.dlk_calculus.specs.Provables.{Provable};
ghost use Rattle.dlk_kernel.specs.Kernel.{facts, SameRows, ExtendsRows};
ghost use Rattle.dlk_kernel.specs.Taken.{Takes};
ghost use Rattle.dlk_rules.specs.Steps.{HasKnownIds};
ghost use Rattle.dlk_tacsyn.specs.Rows.{AreOfText};
ghost use Rattle.dlk_tacsyn.specs.Tactics.{Tactic as TreeTactic};
ghost use Rattle.dlk_tacsyn.specs.Ties.{tactic_at, TacticIsKnown};
ghost use Rattle.dlk_elab.specs.declared.fault.FailWhy.{FailWhy};
ghost use Rattle.dlk_elab.specs.Outcomes.{Progress, Outcome, Done, Fails, main_goals, most_runs, most_steps};
ghost use Rattle.dlk_elab.specs.Ties.{progress_at, IsOnFaultOf};

use dlk_elab::{More, OnFault};
use dlk_kernel::Kernel;
use dlk_store::{Steps, Store};
use dlk_tacsyn::Tactic;
use std::alloc::Global;
use std::sync::ledger::Ledger;

/// Runs strategies on goals of kernels.
pub trait Runner {
    /// What becomes of a goal of the last of these rows, by a strategy, where so many atoms were run before.
    ghost becomes: { TreeTactic → List Provable → ℕ → ℕ → Outcome → Type 0 };

    /// Runs a strategy on a goal of the last row, where so many atoms were run before, at most 16,000. The goal is there, the strategy's ids are
    /// those of this kernel's store, and its atoms those of a text. The new rows stand behind those that were there, and after a refusal the rows
    /// are as before.
    ///
    /// # Errors
    ///
    /// - `Fails`: the strategy fails, at a byte of its text.
    /// - `Budget`: the 16,001st run of an atom would start at this byte.
    /// - `Memory`: for want of memory.
    fn run_on<S: Store, L: Ledger>(
        &mut self,
        alloc: Global,
        strategy: &Tactic,
        kernel: &mut Kernel<S>,
        goal: u32,
        used: u32,
        steps: &mut Steps<L>,
    ) -> Result<More, OnFault>
        requires known { TacticIsKnown (S.trees kernel.old.store) strategy.now }
        requires of_text { AreOfText (tactic_at (S.trees kernel.old.store) strategy.now) }
        requires goal { IsPlace (main_goals (facts S.trees kernel.old)) goal }
        requires used { used ≤ most_runs }
        ensures done { IfOk result (λ more. becomes (tactic_at (S.trees kernel.old.store) strategy.now) (facts S.trees kernel.old) goal used
            (Done (progress_at S.trees kernel.new more.steps.items more.used) more.count)) }
        ensures known { IfOk result (λ more. All (HasKnownIds (S.trees kernel.new.store)) more.steps.items) }
        ensures kept { OnOk result (ExtendsRows S.trees kernel.old kernel.new) }
        ensures fault { IfErr result (IsOnFaultOf (becomes (tactic_at (S.trees kernel.old.store) strategy.now) (facts S.trees kernel.old) goal used)) }
        ensures err { OnErr result (SameRows S.trees kernel.old kernel.new) }
        ensures grows { S.grows kernel.old.store kernel.new.store };

    /// The laws of what becomes of a goal: a contract of a call that does nothing. There is at most one outcome. The steps that are made are taken in
    /// turn behind the rows, and give the rows. Runs are counted on from those of before, up to 16,000, and each makes at most 24 steps.
    fn laws()
        ensures one { (t : TreeTactic) (rows : List Provable) (goal used : ℕ) (a b : Outcome) → becomes t rows goal used a → becomes t rows goal used b →
            a ≡ b }
        ensures taken { (t : TreeTactic) (rows : List Provable) (goal used : ℕ) (made : Progress) (left : ℕ) → becomes t rows goal used (Done made left) →
            Takes rows made.steps made.rows }
        ensures counted { (t : TreeTactic) (rows : List Provable) (goal used : ℕ) (made : Progress) (left : ℕ) → used ≤ most_runs →
            becomes t rows goal used (Done made left) → (used ≤ made.used) × (made.used ≤ most_runs) × (length made.steps ≤ most_steps * (made.used - used)) }
        ensures failed { (t : TreeTactic) (rows : List Provable) (goal used at count : ℕ) (why : FailWhy) → used ≤ most_runs →
            becomes t rows goal used (Fails at why count) → (used ≤ count) × (count ≤ most_runs) };
}
