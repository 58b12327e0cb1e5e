//! One proof as a lemma in another.
ghost use Rattle.std.specs.Prelude.{◌≡◌, ℕ, ◌+◌, ◌<◌, ◌≤◌, ◌++◌, List, [], length, map, All, IfOk, OnOk, IfErr, OnErr};
ghost use Rattle.dlk_tree.specs.Trees.{Tree};
ghost use Rattle.dlk_calculus.specs.Limits.{most_rows};
ghost use Rattle.dlk_calculus.specs.Places.{At};
ghost use Rattle.dlk_calculus.specs.Provables.{Provable};
ghost use Rattle.dlk_kernel.specs.Kernel.{facts};
ghost use Rattle.dlk_kernel.specs.Taken.{Takes};
ghost use Rattle.dlk_rules.specs.Facts.{renumbered};
ghost use Rattle.dlk_rules.specs.Steps.{step_at, HasKnownIds};
ghost use Rattle.dlk_sequent.specs.Sequents.{sequent_at, IsKnown};
ghost use Rattle.dlk_link.specs.Ends.{EndsIn};
ghost use Rattle.dlk_link.specs.Faults.{IsLinkFault};
ghost use Rattle.dlk_link.specs.Linked.{Joins};
ghost use Rattle.dlk_link.specs.Links.{Links, LacksGoal, LinksUpTo};
ghost use Rattle.dlk_link.specs.Marks.{NamesFew};

use crate::copies::behind;
use crate::fault::LinkFault;
use dlk_kernel::Kernel;
use dlk_rules::{Step, step_stays};
use dlk_sequent::{Sequent, Shared, same_sequent};
use dlk_store::{Steps, Store};
use dlk_uses::take_in_turn;
use std::alloc::{AllocError, Global};
use std::sync::ledger::Ledger;

/// The merges of the fact `by`, which concludes `c`, into each of the goals of the fact `main` that is `c`, from the last goal down.
/// There are `by` rows before.
fn merges_into<S: Store>(
    alloc: Global,
    store: &S,
    goals: &[Shared<Sequent>],
    c: &Sequent,
    main: u32,
    by: u32,
) -> Result<Vec<Step>, AllocError>
    requires goals { All (IsKnown (S.trees store.now)) goals.now }
    requires known { IsKnown (S.trees store.now) c.now }
    requires few { length goals.now ≤ 256 }
    requires room { by ≤ 800000 }
    ensures joins { IfOk result (λ made. Joins (sequent_at (S.trees store.now) c.now) by main by (map (sequent_at (S.trees store.now)) goals.now)
        (map (step_at (S.trees store.now)) made.items)) }
    ensures known { IfOk result (λ made. (trees : List Tree) → All (HasKnownIds trees) made.items) }
{
    let mut merges = Vec::new(alloc);
    let mut fact = main;
    let mut rows = by;
    let mut goal = goals.len();
    while goal > 0 {
        if same_sequent(store, goals[goal - 1].value(), c) {
            merges.push(Step::Merge {
                fact,
                goal: goal as u32,
                by,
            })?;
            rows += 1;
            fact = rows;
        }
        goal -= 1;
    }
    Ok(merges)
}

/// The steps of a lemma, of which each names earlier ones, as they stand behind so many rows, and the merges behind them.
fn behind_rows(
    alloc: Global,
    lemma: Vec<Step>,
    mut merges: Vec<Step>,
    rows: u32,
) -> Result<Vec<Step>, AllocError>
    requires few { All NamesFew lemma.items }
    requires room { rows ≤ most_rows }
    ensures steps { IfOk result (λ made. (trees : List Tree) →
        map (step_at trees) made.items ≡ map (renumbered (λ fact. fact + rows)) (map (step_at trees) lemma.items) ++ map (step_at trees) merges.items) }
    ensures known { IfOk result (λ made. (trees : List Tree) → All (HasKnownIds trees) lemma.items → All (HasKnownIds trees) merges.items →
        All (HasKnownIds trees) made.items) }
{
    let mut made = Vec::with_capacity(alloc, lemma.len())?;
    for step in lemma {
        made.push(behind(step, rows))?;
    }
    made.append(&mut merges)?;
    Ok(made)
}

/// The merges of a lemma of so many steps, which concludes `c`, into the goals of the last row. They come behind the steps of the lemma.
fn merges_behind<S: Store>(
    alloc: Global,
    kernel: &Kernel<S>,
    lemma: u32,
    c: &Sequent,
) -> Result<Vec<Step>, AllocError>
    requires some { 1 ≤ length (facts S.trees kernel.now) }
    requires few { lemma ≤ most_rows }
    requires conclusion { IsKnown (S.trees kernel.now.store) c.now }
    ensures joins { IfOk result (λ made. (p : Provable) → At (facts S.trees kernel.now) (length (facts S.trees kernel.now)) p →
        Joins (sequent_at (S.trees kernel.now.store) c.now) (length (facts S.trees kernel.now) + lemma) (length (facts S.trees kernel.now))
        (length (facts S.trees kernel.now) + lemma) p.goals (map (step_at (S.trees kernel.now.store)) made.items)) }
    ensures known { IfOk result (λ made. (trees : List Tree) → All (HasKnownIds trees) made.items) }
{
    let last = kernel.rows();
    let merges = merges_into(alloc, kernel, kernel.goals(last), c, last, last + lemma)?;
    Ok(merges)
}

/// The linked steps on a kernel that has taken those of the term. After a refusal some rows may stay.
fn linked<S: Store, L: Ledger>(
    alloc: Global,
    mut term: Vec<Step>,
    lemma: Vec<Step>,
    c: &Sequent,
    kernel: &mut Kernel<S>,
    steps: &mut Steps<L>,
) -> Result<Vec<Step>, LinkFault>
    requires taken { Takes [] (map (step_at (S.trees kernel.old.store)) term.items) (facts S.trees kernel.old) }
    requires term_known { All (HasKnownIds (S.trees kernel.old.store)) term.items }
    requires lemma_known { All (HasKnownIds (S.trees kernel.old.store)) lemma.items }
    requires term_ends { (p : Provable) × EndsIn (map (step_at (S.trees kernel.old.store)) term.items) p }
    requires lemma_ends { (q : Provable) × EndsIn (map (step_at (S.trees kernel.old.store)) lemma.items) q }
    requires conclusion { (q : Provable) → EndsIn (map (step_at (S.trees kernel.old.store)) lemma.items) q →
        q.conclusion ≡ sequent_at (S.trees kernel.old.store) c.now }
    requires conclusion_known { IsKnown (S.trees kernel.old.store) c.now }
    ensures linked { IfOk result (λ made. Links (map (step_at (S.trees kernel.old.store)) term.items) (map (step_at (S.trees kernel.old.store)) lemma.items)
        (map (step_at (S.trees kernel.old.store)) made.items)) }
    ensures rows { IfOk result (λ made. Takes [] (map (step_at (S.trees kernel.old.store)) made.items) (facts S.trees kernel.new)) }
    ensures known { IfOk result (λ made. All (HasKnownIds (S.trees kernel.old.store)) made.items) }
    ensures fault { IfErr result (IsLinkFault
        (LacksGoal (map (step_at (S.trees kernel.old.store)) term.items) (map (step_at (S.trees kernel.old.store)) lemma.items))
        (LinksUpTo (map (step_at (S.trees kernel.old.store)) term.items) (map (step_at (S.trees kernel.old.store)) lemma.items))) }
    ensures grows { S.grows kernel.old.store kernel.new.store }
{
    let merges = merges_behind(alloc, &*kernel, lemma.len() as u32, c)?;
    if merges.is_empty() {
        return Err(LinkFault::NoGoal);
    }
    let mut rest = behind_rows(alloc, lemma, merges, term.len() as u32)?;
    take_in_turn(alloc, kernel, &rest, steps)?;
    term.append(&mut rest)?;
    Ok(term)
}

/// One list of steps as a lemma in another: the steps of the term, those of the lemma behind them, with other numbers for their facts, and
/// then the lemma in the place of each goal of the term's last row that the lemma concludes, from the last goal down. Both lists hold steps
/// that are taken without fault from nothing, at least one, with ids of the kernel's store; `c` is what the lemma's last step concludes. The
/// kernel has the rows of the term, and then those of the linked steps. Their last row has the term's conclusion, its goals with the lemma's
/// in the place of each that the lemma concludes, and its leaves, behind them those of the lemma that aren't there yet (`linked_is_joined`).
/// Each step of the lemma is taken once, behind the term, and none of the term.
///
/// # Errors
///
/// The kernel has no rows then.
///
/// - `NoGoal` exactly where no goal of the term's last row is what the lemma concludes, whatever else is against the linked steps.
/// - `Step` exactly where some goal is, and a linked step isn't taken: the first reason against the first such step. That is `GoalsFull`,
///   `LeavesFull` or `LinesFull`.
/// - `Memory`: for want of memory.
pub fn link<S: Store, L: Ledger>(
    alloc: Global,
    term: Vec<Step>,
    lemma: Vec<Step>,
    c: &Sequent,
    kernel: &mut Kernel<S>,
    steps: &mut Steps<L>,
) -> Result<Vec<Step>, LinkFault>
    requires taken { Takes [] (map (step_at (S.trees kernel.old.store)) term.items) (facts S.trees kernel.old) }
    requires term_known { All (HasKnownIds (S.trees kernel.old.store)) term.items }
    requires lemma_known { All (HasKnownIds (S.trees kernel.old.store)) lemma.items }
    requires term_ends { (p : Provable) × EndsIn (map (step_at (S.trees kernel.old.store)) term.items) p }
    requires lemma_ends { (q : Provable) × EndsIn (map (step_at (S.trees kernel.old.store)) lemma.items) q }
    requires conclusion { (q : Provable) → EndsIn (map (step_at (S.trees kernel.old.store)) lemma.items) q →
        q.conclusion ≡ sequent_at (S.trees kernel.old.store) c.now }
    requires conclusion_known { IsKnown (S.trees kernel.old.store) c.now }

    ensures linked { IfOk result (λ made. Links (map (step_at (S.trees kernel.old.store)) term.items) (map (step_at (S.trees kernel.old.store)) lemma.items)
        (map (step_at (S.trees kernel.old.store)) made.items)) }
    ensures rows { IfOk result (λ made. Takes [] (map (step_at (S.trees kernel.old.store)) made.items) (facts S.trees kernel.new)) }
    ensures known { IfOk result (λ made. All (HasKnownIds (S.trees kernel.old.store)) made.items) }

    ensures fault { IfErr result (IsLinkFault
        (LacksGoal (map (step_at (S.trees kernel.old.store)) term.items) (map (step_at (S.trees kernel.old.store)) lemma.items))
        (LinksUpTo (map (step_at (S.trees kernel.old.store)) term.items) (map (step_at (S.trees kernel.old.store)) lemma.items))) }
    ensures none { OnErr result (kernel.new.rows ≡ []) }

    ensures grows { S.grows kernel.old.store kernel.new.store }
{
    match linked(alloc, term, lemma, c, kernel, steps) {
        Ok(made) => Ok(made),
        Err(why) => {
            kernel.release(0);
            Err(why)
        }
    }
}
