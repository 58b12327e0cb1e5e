//! A proof without what its last row doesn't need, and with each step once.
ghost use Rattle.std.specs.Prelude.{◌≡◌, ◌≢◌, ◌+◌, ◌<◌, ◌≤◌, List, [], length, map, slice_index, All, IfOk, OnOk, IfErr, OnErr};
ghost use Rattle.dlk_tree.specs.Trees.{Tree};
ghost use Rattle.dlk_store.specs.Stores.{HasOneId};
ghost use Rattle.dlk_calculus.specs.Limits.{most_rows};
ghost use Rattle.dlk_kernel.specs.Kernel.{facts};
ghost use Rattle.dlk_kernel.specs.Taken.{Takes};
ghost use Rattle.dlk_rules.specs.Steps.{step_at, HasKnownIds};
ghost use Rattle.dlk_link.specs.declared.fault.LinkFault.TheVariants.{Memory};
ghost use Rattle.dlk_link.specs.Keyed.{AreKeyed, Numbers};
ghost use Rattle.dlk_link.specs.Marks.{NameEarlier};
ghost use Rattle.dlk_link.specs.Trimmed.{Trimmed, moved};
ghost use Rattle.dlk_link.specs.Unmoved.{HaveOldNumbers, TrimmedFrom};

use crate::copies::moved;
use crate::fault::LinkFault;
use crate::key::StepKey;
use crate::laws::trimmed_is_taken;
use crate::needed::needed;
use crate::taking::take_known;
use dlk_kernel::Kernel;
use dlk_rules::{Step, rule_is_its_word_and_arguments};
use dlk_store::{Steps, Store};
use indexmap::IndexSet;
use std::alloc::Global;
use std::sync::ledger::Ledger;

/// The steps that are kept, each with its key.
#[derive(Drop)]
struct Kept {
    steps: Vec<Step>,
    keys: IndexSet<StepKey>,
}

impl Kept {
    /// The number of the kept step that equals this one. Where none does, it is kept, too, behind the others.
    fn number(&mut self, alloc: Global, step: Step) -> Result<u32, LinkFault>
        requires few { length self.old.steps.items < most_rows }
        requires count { length self.old.keys.keys ≡ length self.old.steps.items }
        ensures few { OnOk result (length self.new.steps.items ≤ length self.old.steps.items + 1) }
        ensures count { OnOk result (length self.new.keys.keys ≡ length self.new.steps.items) }
        ensures err { IfErr result (λ e. e ≡ Memory) }
        ensures number { IfOk result (λ n. (trees : List Tree) → HasOneId trees → HasKnownIds trees step →
            AreKeyed trees self.old.steps.items self.old.keys.keys →
            AreKeyed trees self.new.steps.items self.new.keys.keys × Numbers trees self.old.steps.items step self.new.steps.items n) }
    {
        rule_is_its_word_and_arguments();
        let key = StepKey::of(alloc, &step)?;
        let (n, is_new) = self.keys.insert_full(key)?;
        if is_new {
            self.steps.push(step)?;
        }
        Ok(n as u32 + 1)
    }
}

/// How many of the first rows have the numbers that they had: the row behind them, if there is one, has another.
fn unmoved(numbers: &[u32]) -> usize
    ensures same { HaveOldNumbers numbers.now result }
    ensures most { result < length numbers.now → slice_index numbers.now result ≢ result + 1 }
{
    for row in 0..numbers.len() {
        if numbers[row] as usize != row + 1 {
            return row;
        }
    }
    numbers.len()
}

/// The steps that are kept of some steps, of which each names earlier rows, and how many of the first rows stay as they are. It takes a look
/// at each step.
pub(crate) fn kept_steps(alloc: Global, term: Vec<Step>) -> Result<(Vec<Step>, usize), LinkFault>
    requires some { 1 ≤ length term.items }
    requires few { length term.items ≤ most_rows }
    requires earlier { NameEarlier term.items }
    ensures trimmed { IfOk result (λ kept. (trees : List Tree) → HasOneId trees → All (HasKnownIds trees) term.items →
        TrimmedFrom (map (step_at trees) term.items) (map (step_at trees) kept.0.items) kept.1) }
    ensures known { IfOk result (λ kept. (trees : List Tree) → HasOneId trees → All (HasKnownIds trees) term.items → All (HasKnownIds trees) kept.0.items) }
    ensures err { IfErr result (λ e. e ≡ Memory) }
{
    let marks = needed(alloc, &term)?;
    let mut kept = Kept {
        steps: Vec::new(alloc),
        keys: IndexSet::new(alloc),
    };
    let mut numbers = Vec::with_capacity(alloc, term.len())?;
    for step in term {
        let number = if marks[numbers.len()] {
            kept.number(alloc, moved(step, &numbers))?
        } else {
            let _left_out = step;
            0
        };
        numbers.push(number)?;
    }
    let same = unmoved(&numbers);
    Ok((kept.steps, same))
}

/// Trims on a kernel that has taken the steps. For want of memory some rows may stay.
fn trimmed<S: Store, L: Ledger>(
    alloc: Global,
    term: Vec<Step>,
    kernel: &mut Kernel<S>,
    steps: &mut Steps<L>,
) -> Result<Vec<Step>, LinkFault>
    requires taken { Takes [] (map (step_at (S.trees kernel.old.store)) term.items) (facts S.trees kernel.old) }
    requires known { All (HasKnownIds (S.trees kernel.old.store)) term.items }
    requires some { 1 ≤ length term.items }
    ensures trimmed { IfOk result (λ kept.
        Trimmed (map (step_at (S.trees kernel.old.store)) term.items) (map (step_at (S.trees kernel.old.store)) kept.items)) }
    ensures rows { IfOk result (λ kept. Takes [] (map (step_at (S.trees kernel.old.store)) kept.items) (facts S.trees kernel.new)) }
    ensures known { IfOk result (λ kept. All (HasKnownIds (S.trees kernel.old.store)) kept.items) }
    ensures err { IfErr result (λ e. e ≡ Memory) }
    ensures grows { S.grows kernel.old.store kernel.new.store }
{
    trimmed_is_taken();
    kernel.rows();
    let (kept, same) = kept_steps(alloc, term)?;
    kernel.release(same as u32);
    take_known(alloc, kernel, &kept[same..], steps)?;
    Ok(kept)
}

/// What the last step of a proof needs, with each step once: a list without the steps that no kept one names, in which a step that equals
/// an earlier one is that one. The steps that are given are taken without fault, and the kernel has their rows; it takes those that are
/// answered as well, and then has their rows, of which the last is the same (`trimmed_is_taken`). No two of the steps are equal, each but the
/// last is named by a later one (`trimmed_is_neat`), and trimmed again they stay as they are (`neat_is_trimmed`). Each step is looked at
/// twice, and looked up once. The rows up to the first step that isn't kept, or is an earlier one, stay; the kept steps behind them are taken
/// again.
///
/// # Errors
///
/// `Memory` alone. The kernel has no rows then.
pub fn trim<S: Store, L: Ledger>(
    alloc: Global,
    term: Vec<Step>,
    kernel: &mut Kernel<S>,
    steps: &mut Steps<L>,
) -> Result<Vec<Step>, LinkFault>
    requires taken { Takes [] (map (step_at (S.trees kernel.old.store)) term.items) (facts S.trees kernel.old) }
    requires known { All (HasKnownIds (S.trees kernel.old.store)) term.items }
    requires some { 1 ≤ length term.items }

    ensures trimmed { IfOk result (λ kept.
        Trimmed (map (step_at (S.trees kernel.old.store)) term.items) (map (step_at (S.trees kernel.old.store)) kept.items)) }
    ensures rows { IfOk result (λ kept. Takes [] (map (step_at (S.trees kernel.old.store)) kept.items) (facts S.trees kernel.new)) }
    ensures known { IfOk result (λ kept. All (HasKnownIds (S.trees kernel.old.store)) kept.items) }

    ensures err { IfErr result (λ e. e ≡ Memory) }
    ensures none { OnErr result (kernel.new.rows ≡ []) }

    ensures grows { S.grows kernel.old.store kernel.new.store }
{
    match trimmed(alloc, term, kernel, steps) {
        Ok(kept) => Ok(kept),
        Err(why) => {
            kernel.release(0);
            Err(why)
        }
    }
}
