//! Runs of strategies on goals.
ghost use Rattle.std.specs.Prelude.{◌≡◌, ◌≤◌, ◌+◌, ◌++◌, ℕ, List, length, map, take, reverse, replicate, All, Option, Some, None, IfOk, OnOk, IfSome};
ghost use Rattle.dlk_calculus.specs.Limits.{most_goals};
ghost use Rattle.dlk_kernel.specs.Kernel.{facts, ExtendsRows};
ghost use Rattle.dlk_tacsyn.specs.Ties.{tactic_at};
ghost use Rattle.dlk_strategy.specs.Runs.{Runs, Alternatives, InTurn, OnOwn, Branched, Again};
ghost use Rattle.dlk_strategy.specs.Ties.{goals_of, now, on_one, tactics_of, IsReady, IsRunnable, Extends, IsBack, Becomes, BecomesTried, UnlessOver};
ghost use Rattle.dlk_strategy.specs.Ties.{IsBackOnNone, HasLeft};

use crate::derivation::run_named;
use crate::fault::RunFault;
use crate::trace::{Trace, take_back};
use dlk_elab::FailWhy;
use dlk_kernel::Kernel;
use dlk_store::{Steps, Store};
use dlk_tacsyn::Tactic;
use std::alloc::{AllocError, Global};
use std::sync::ledger::Ledger;

/// Runs a strategy on so many goals of the last row, from this one on, and answers how many goals stand in their place.
#[cycle(run)]
pub(crate) fn run_goals<S: Store, L: Ledger>(
    alloc: Global,
    kernel: &mut Kernel<S>,
    trace: &mut Trace,
    t: &Tactic,
    goal: u32,
    goals: u32,
    steps: &mut Steps<L>,
) -> Result<u32, RunFault>
    requires ready { IsReady S.trees kernel.old trace.old goal goals }
    requires runnable { IsRunnable (S.trees kernel.old.store) t.now }
    ensures fate { Becomes (Runs (tactic_at (S.trees kernel.old.store) t.now) goals goal) (now S.trees kernel.old trace.old)
        (now S.trees kernel.new trace.new) result }
    ensures extends { UnlessOver (Extends S.trees kernel.old trace.old kernel.new trace.new) result }
    ensures rows { ExtendsRows S.trees kernel.old kernel.new }
    ensures left { IfOk result (HasLeft (goals_of S.trees kernel.old) goals (goals_of S.trees kernel.new)) }
    ensures few { OnOk result (goals_of S.trees kernel.new ≤ most_goals) }
    ensures grows { S.grows kernel.old.store kernel.new.store }
{
    if let Tactic::Branch { at, parts } = t {
        return branch(
            alloc,
            kernel,
            trace,
            *at,
            parts.as_slice(),
            goal,
            goals,
            steps,
        );
    }
    let mut left = 0;
    for _ in 0..goals {
        left += run_one(alloc, kernel, trace, t, goal + left, steps)?;
    }
    Ok(left)
}

/// Runs a strategy on a goal of the last row.
#[cycle(run)]
fn run_one<S: Store, L: Ledger>(
    alloc: Global,
    kernel: &mut Kernel<S>,
    trace: &mut Trace,
    t: &Tactic,
    goal: u32,
    steps: &mut Steps<L>,
) -> Result<u32, RunFault>
    requires ready { IsReady S.trees kernel.old trace.old goal 1 }
    requires runnable { IsRunnable (S.trees kernel.old.store) t.now }
    ensures fate { Becomes (on_one (tactic_at (S.trees kernel.old.store) t.now) goal) (now S.trees kernel.old trace.old)
        (now S.trees kernel.new trace.new) result }
    ensures extends { UnlessOver (Extends S.trees kernel.old trace.old kernel.new trace.new) result }
    ensures rows { ExtendsRows S.trees kernel.old kernel.new }
    ensures left { IfOk result (HasLeft (goals_of S.trees kernel.old) 1 (goals_of S.trees kernel.new)) }
    ensures few { OnOk result (goals_of S.trees kernel.new ≤ most_goals) }
    ensures grows { S.grows kernel.old.store kernel.new.store }
{
    match t {
        Tactic::Choice(parts) => choose(alloc, kernel, trace, parts.as_slice(), goal, steps),
        Tactic::Seq(parts) => in_turn(alloc, kernel, trace, parts.as_slice(), goal, steps),
        Tactic::Branch { at, parts } => {
            branch(alloc, kernel, trace, *at, parts.as_slice(), goal, 1, steps)
        }
        Tactic::Repeat { body, times } => repeat(alloc, kernel, trace, body, *times, goal, steps),
        Tactic::One(atom) => run_named(alloc, kernel, trace, atom, goal, steps),
    }
}

/// Tries a strategy on a goal. Where it fails, what it made is taken back, and none is answered; its runs stay counted.
#[cycle(run)]
fn attempt<S: Store, L: Ledger>(
    alloc: Global,
    kernel: &mut Kernel<S>,
    trace: &mut Trace,
    t: &Tactic,
    goal: u32,
    steps: &mut Steps<L>,
) -> Result<Option<u32>, RunFault>
    requires ready { IsReady S.trees kernel.old trace.old goal 1 }
    requires runnable { IsRunnable (S.trees kernel.old.store) t.now }
    ensures fate { BecomesTried (Runs (tactic_at (S.trees kernel.old.store) t.now) 1 goal) (now S.trees kernel.old trace.old)
        (now S.trees kernel.new trace.new) result }
    ensures extends { UnlessOver (Extends S.trees kernel.old trace.old kernel.new trace.new) result }
    ensures rows { ExtendsRows S.trees kernel.old kernel.new }
    ensures back { IsBackOnNone (IsBack S.trees kernel.old trace.old kernel.new trace.new) result }
    ensures left { IfOk result (λ found. IfSome found (HasLeft (goals_of S.trees kernel.old) 1 (goals_of S.trees kernel.new))) }
    ensures few { OnOk result (goals_of S.trees kernel.new ≤ most_goals) }
    ensures grows { S.grows kernel.old.store kernel.new.store }
{
    let rows = kernel.mark();
    let recorded = trace.steps.len();
    match run_goals(alloc, kernel, trace, t, goal, 1, steps) {
        Ok(left) => Ok(Some(left)),
        Err(RunFault::Fails { .. }) => {
            take_back(kernel, trace, rows, recorded);
            Ok(None)
        }
        Err(fault) => Err(fault),
    }
}

/// The first of the strategies that doesn't fail, and else the last.
#[cycle(run)]
fn choose<S: Store, L: Ledger>(
    alloc: Global,
    kernel: &mut Kernel<S>,
    trace: &mut Trace,
    parts: &[Tactic],
    goal: u32,
    steps: &mut Steps<L>,
) -> Result<u32, RunFault>
    requires ready { IsReady S.trees kernel.old trace.old goal 1 }
    requires runnable { All (IsRunnable (S.trees kernel.old.store)) parts.now }
    ensures fate { Becomes (Alternatives (tactics_of (S.trees kernel.old.store) parts.now) goal) (now S.trees kernel.old trace.old)
        (now S.trees kernel.new trace.new) result }
    ensures extends { UnlessOver (Extends S.trees kernel.old trace.old kernel.new trace.new) result }
    ensures rows { ExtendsRows S.trees kernel.old kernel.new }
    ensures left { IfOk result (HasLeft (goals_of S.trees kernel.old) 1 (goals_of S.trees kernel.new)) }
    ensures few { OnOk result (goals_of S.trees kernel.new ≤ most_goals) }
    ensures grows { S.grows kernel.old.store kernel.new.store }
{
    let [earlier @ .., last] = parts else {
        return Ok(1);
    };
    for t in earlier {
        if let Some(left) = attempt(alloc, kernel, trace, t, goal, steps)? {
            return Ok(left);
        }
    }
    run_goals(alloc, kernel, trace, last, goal, 1, steps)
}

/// One strategy after another, each on all goals that those before it have left of this one.
#[cycle(run)]
fn in_turn<S: Store, L: Ledger>(
    alloc: Global,
    kernel: &mut Kernel<S>,
    trace: &mut Trace,
    parts: &[Tactic],
    goal: u32,
    steps: &mut Steps<L>,
) -> Result<u32, RunFault>
    requires ready { IsReady S.trees kernel.old trace.old goal 1 }
    requires runnable { All (IsRunnable (S.trees kernel.old.store)) parts.now }
    ensures fate { Becomes (InTurn (tactics_of (S.trees kernel.old.store) parts.now) 1 goal) (now S.trees kernel.old trace.old)
        (now S.trees kernel.new trace.new) result }
    ensures extends { UnlessOver (Extends S.trees kernel.old trace.old kernel.new trace.new) result }
    ensures rows { ExtendsRows S.trees kernel.old kernel.new }
    ensures left { IfOk result (HasLeft (goals_of S.trees kernel.old) 1 (goals_of S.trees kernel.new)) }
    ensures few { OnOk result (goals_of S.trees kernel.new ≤ most_goals) }
    ensures grows { S.grows kernel.old.store kernel.new.store }
{
    let mut goals = 1;
    for t in parts {
        goals = run_goals(alloc, kernel, trace, t, goal, goals, steps)?;
    }
    Ok(goals)
}

/// Each strategy on a goal of its own.
#[cycle(run)]
fn branch<S: Store, L: Ledger>(
    alloc: Global,
    kernel: &mut Kernel<S>,
    trace: &mut Trace,
    at: usize,
    parts: &[Tactic],
    goal: u32,
    goals: u32,
    steps: &mut Steps<L>,
) -> Result<u32, RunFault>
    requires ready { IsReady S.trees kernel.old trace.old goal goals }
    requires runnable { All (IsRunnable (S.trees kernel.old.store)) parts.now }
    ensures fate { Becomes (Branched at (length parts.now) goals (OnOwn (tactics_of (S.trees kernel.old.store) parts.now) goal 0))
        (now S.trees kernel.old trace.old) (now S.trees kernel.new trace.new) result }
    ensures extends { UnlessOver (Extends S.trees kernel.old trace.old kernel.new trace.new) result }
    ensures rows { ExtendsRows S.trees kernel.old kernel.new }
    ensures left { IfOk result (HasLeft (goals_of S.trees kernel.old) goals (goals_of S.trees kernel.new)) }
    ensures few { OnOk result (goals_of S.trees kernel.new ≤ most_goals) }
    ensures grows { S.grows kernel.old.store kernel.new.store }
{
    if parts.len() != goals as usize {
        return Err(RunFault::Fails {
            at,
            why: FailWhy::WrongCount,
        });
    }
    let mut left = 0;
    for t in parts {
        left += run_goals(alloc, kernel, trace, t, goal + left, 1, steps)?;
    }
    Ok(left)
}

/// The strategy on the goal, and again on each goal that it leaves, until it fails or was run so many times. The goals that wait stand with
/// the times that they have left, the next one last. A run that counts nothing changes nothing, so it is the last one there.
#[cycle(run)]
fn repeat<S: Store, L: Ledger>(
    alloc: Global,
    kernel: &mut Kernel<S>,
    trace: &mut Trace,
    body: &Tactic,
    times: u32,
    goal: u32,
    steps: &mut Steps<L>,
) -> Result<u32, RunFault>
    requires ready { IsReady S.trees kernel.old trace.old goal 1 }
    requires runnable { IsRunnable (S.trees kernel.old.store) body.now }
    ensures fate { Becomes (Again (Runs (tactic_at (S.trees kernel.old.store) body.now) 1) times goal) (now S.trees kernel.old trace.old)
        (now S.trees kernel.new trace.new) result }
    ensures extends { UnlessOver (Extends S.trees kernel.old trace.old kernel.new trace.new) result }
    ensures rows { ExtendsRows S.trees kernel.old kernel.new }
    ensures left { IfOk result (HasLeft (goals_of S.trees kernel.old) 1 (goals_of S.trees kernel.new)) }
    ensures few { OnOk result (goals_of S.trees kernel.new ≤ most_goals) }
    ensures grows { S.grows kernel.old.store kernel.new.store }
{
    let mut waiting = Vec::new(alloc);
    waiting.push(times)?;
    let mut left = 0;
    while let Some(turns) = waiting.pop() {
        if turns == 0 {
            left += 1;
            continue;
        }
        let used = trace.used;
        match attempt(alloc, kernel, trace, body, goal + left, steps)? {
            None => left += 1,
            Some(new) => {
                if trace.used == used {
                    left += 1;
                } else {
                    wait(&mut waiting, turns - 1, new)?;
                }
            }
        }
    }
    Ok(left)
}

/// So many more goals wait, each with so many turns.
fn wait(waiting: &mut Vec<u32>, turns: u32, goals: u32) -> Result<(), AllocError>
    ensures { OnOk result (reverse waiting.new.items ≡ replicate goals turns ++ reverse waiting.old.items) }
{
    for _ in 0..goals {
        waiting.push(turns)?;
    }
    Ok(())
}
