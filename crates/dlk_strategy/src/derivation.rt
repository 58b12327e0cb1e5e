//! Runs of `derive`.
ghost use Rattle.std.specs.Prelude.{◌≡◌, ◌≢◌, ◌≤◌, ◌∷◌, [], ℕ, List, map, All, Err, IfOk, IfSome, IfNone, OnOk};
ghost use Rattle.dlk_calculus.specs.Limits.{most_goals};
ghost use Rattle.dlk_kernel.specs.Kernel.{facts, ExtendsRows};
ghost use Rattle.dlk_sequent.specs.declared.sequent.Place.{Place as ThePlace};
ghost use Rattle.dlk_tacsyn.specs.Rows.{IsFitting, IsDerivation, IsRun};
ghost use Rattle.dlk_tacsyn.specs.Ties.{atom_at, AtomIsKnown};
ghost use Rattle.dlk_strategy.specs.declared.fault.RunFault.TheVariants.{Memory};
ghost use Rattle.dlk_strategy.specs.Runs.{OnEach, OneByOne, RunAtom, RunDerive, RunNamed};
ghost use Rattle.dlk_strategy.specs.Ties.{goals_of, now, at_byte, IsReady, Extends, Becomes, UnlessOver, HasLeft, HasPlan};

use crate::atoms::{MOST_RUNS, run_atom};
use crate::fault::{RunFault, of_plan};
use crate::trace::{Trace, goal_at};
use dlk_derive::laws::plan_is_fitting;
use dlk_derive::plan;
use dlk_kernel::Kernel;
use dlk_sequent::Place;
use dlk_store::{Steps, Store};
use dlk_tacsyn::{Arg, Atom};
use std::alloc::Global;
use std::sync::ledger::Ledger;

/// Runs an atom or `derive` on a goal of the last row.
pub(crate) fn run_named<S: Store, L: Ledger>(
    alloc: Global,
    kernel: &mut Kernel<S>,
    trace: &mut Trace,
    atom: &Atom,
    goal: u32,
    steps: &mut Steps<L>,
) -> Result<u32, RunFault>
    requires ready { IsReady S.trees kernel.old trace.old goal 1 }
    requires known { AtomIsKnown (S.trees kernel.old.store) atom.now }
    requires run { IsRun (atom_at (S.trees kernel.old.store) atom.now) }
    ensures fate { Becomes (RunNamed (atom_at (S.trees kernel.old.store) atom.now) goal) (now S.trees kernel.old trace.old)
        (now S.trees kernel.new trace.new) result }
    ensures extends { UnlessOver (Extends S.trees kernel.old trace.old kernel.new trace.new) result }
    ensures rows { ExtendsRows S.trees kernel.old kernel.new }
    ensures left { IfOk result (HasLeft (goals_of S.trees kernel.old) 1 (goals_of S.trees kernel.new)) }
    ensures few { OnOk result (goals_of S.trees kernel.new ≤ most_goals) }
    ensures grows { S.grows kernel.old.store kernel.new.store }
{
    if atom.name.bytes() == b"derive".as_slice() {
        return derive(alloc, kernel, trace, atom, goal, steps);
    }
    run_atom(alloc, kernel, trace, atom, goal, steps)
}

/// The one argument, a place with a path.
fn place_of(args: &[Arg]) -> Option<(Place, &[u32])>
    ensures found { IfSome result (λ p. args.now ≡ Arg.At p.0 p.1.now ∷ []) }
    ensures none { IfNone result ((place : ThePlace) (path : List ℕ) → args.now ≢ Arg.At place path ∷ []) }
{
    let [only] = args else {
        return None;
    };
    let Arg::At { place, path } = only else {
        return None;
    };
    Some((*place, path.as_slice()))
}

/// Runs `derive` on a goal of the last row. It is counted, and so is each use of an axiom by which it goes on.
///
/// # Errors
///
/// - `Fails`: there is no plan, for this reason, or one of the uses fails. The byte is that of the name.
/// - `Budget`: 16,000 runs were counted, and this one or one of the uses, at the byte of the name, would be one more. It isn't counted.
/// - `Memory`: for want of memory, where there is a plan.
fn derive<S: Store, L: Ledger>(
    alloc: Global,
    kernel: &mut Kernel<S>,
    trace: &mut Trace,
    atom: &Atom,
    goal: u32,
    steps: &mut Steps<L>,
) -> Result<u32, RunFault>
    requires ready { IsReady S.trees kernel.old trace.old goal 1 }
    requires derivation { IsDerivation (atom_at (S.trees kernel.old.store) atom.now) }
    ensures fate { Becomes (RunDerive (atom_at (S.trees kernel.old.store) atom.now) goal) (now S.trees kernel.old trace.old)
        (now S.trees kernel.new trace.new) result }
    ensures memory { result ≡ Err Memory → HasPlan (facts S.trees kernel.old) goal (atom_at (S.trees kernel.old.store) atom.now) }
    ensures extends { UnlessOver (Extends S.trees kernel.old trace.old kernel.new trace.new) result }
    ensures rows { ExtendsRows S.trees kernel.old kernel.new }
    ensures left { IfOk result (HasLeft (goals_of S.trees kernel.old) 1 (goals_of S.trees kernel.new)) }
    ensures few { OnOk result (goals_of S.trees kernel.new ≤ most_goals) }
    ensures grows { S.grows kernel.old.store kernel.new.store }
{
    plan_is_fitting();
    let at = atom.at;
    if trace.used >= MOST_RUNS {
        return Err(RunFault::Budget { at });
    }
    let Some((place, path)) = place_of(atom.args.as_slice()) else {
        unreachable!();
    };
    trace.used += 1;
    match plan(alloc, &*kernel, goal_at(kernel, goal), place, path, steps) {
        Ok(uses) => one_by_one(alloc, kernel, trace, uses, at, goal, steps),
        Err(why) => Err(of_plan(at, why)),
    }
}

/// Runs atoms one after another, each on all goals that those before it have left of this one. They stand at this byte.
fn one_by_one<S: Store, L: Ledger>(
    alloc: Global,
    kernel: &mut Kernel<S>,
    trace: &mut Trace,
    atoms: Vec<Atom>,
    at: usize,
    goal: u32,
    steps: &mut Steps<L>,
) -> Result<u32, RunFault>
    requires ready { IsReady S.trees kernel.old trace.old goal 1 }
    requires known { All (AtomIsKnown (S.trees kernel.old.store)) atoms.items }
    requires fitting { All IsFitting (map (atom_at (S.trees kernel.old.store)) atoms.items) }
    ensures fate { Becomes (OneByOne (map (at_byte at) (map (atom_at (S.trees kernel.old.store)) atoms.items)) 1 goal) (now S.trees kernel.old trace.old)
        (now S.trees kernel.new trace.new) result }
    ensures extends { UnlessOver (Extends S.trees kernel.old trace.old kernel.new trace.new) result }
    ensures rows { ExtendsRows S.trees kernel.old kernel.new }
    ensures left { IfOk result (HasLeft (goals_of S.trees kernel.old) 1 (goals_of S.trees kernel.new)) }
    ensures few { OnOk result (goals_of S.trees kernel.new ≤ most_goals) }
    ensures grows { S.grows kernel.old.store kernel.new.store }
{
    let mut goals = 1;
    for a in atoms {
        let Atom { name, args, .. } = a;
        let atom = Atom { name, args, at };
        goals = on_each(alloc, kernel, trace, &atom, goal, goals, steps)?;
    }
    Ok(goals)
}

/// Runs an atom on so many goals of the last row, from this one on, and answers how many goals stand in their place.
fn on_each<S: Store, L: Ledger>(
    alloc: Global,
    kernel: &mut Kernel<S>,
    trace: &mut Trace,
    atom: &Atom,
    goal: u32,
    goals: u32,
    steps: &mut Steps<L>,
) -> Result<u32, RunFault>
    requires ready { IsReady S.trees kernel.old trace.old goal goals }
    requires known { AtomIsKnown (S.trees kernel.old.store) atom.now }
    requires fitting { IsFitting (atom_at (S.trees kernel.old.store) atom.now) }
    ensures fate { Becomes (OnEach (RunAtom (atom_at (S.trees kernel.old.store) atom.now)) goals goal) (now S.trees kernel.old trace.old)
        (now S.trees kernel.new trace.new) result }
    ensures extends { UnlessOver (Extends S.trees kernel.old trace.old kernel.new trace.new) result }
    ensures rows { ExtendsRows S.trees kernel.old kernel.new }
    ensures left { IfOk result (HasLeft (goals_of S.trees kernel.old) goals (goals_of S.trees kernel.new)) }
    ensures few { OnOk result (goals_of S.trees kernel.new ≤ most_goals) }
    ensures grows { S.grows kernel.old.store kernel.new.store }
{
    let mut left = 0;
    for _ in 0..goals {
        left += run_atom(alloc, kernel, trace, atom, goal + left, steps)?;
    }
    Ok(left)
}
