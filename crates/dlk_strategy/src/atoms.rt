//! Runs of atoms.
ghost use Rattle.std.specs.Prelude.{◌≡◌, ◌≤◌, ◌+◌, ◌++◌, ℕ, List, length, map, take, All, Option, Some, None, Err, IfOk, OnOk, IfNone, IfSome, MatchOption};
ghost use Rattle.dlk_tree.specs.Trees.{Tree};
ghost use Rattle.dlk_calculus.specs.Limits.{most_goals};
ghost use Rattle.dlk_calculus.specs.Places.{At, IsPlace};
ghost use Rattle.dlk_calculus.specs.Sequents.{Sequent};
ghost use Rattle.dlk_kernel.specs.Kernel.{facts, ExtendsRows};
ghost use Rattle.dlk_tacsyn.specs.Rows.{IsFitting};
ghost use Rattle.dlk_tacsyn.specs.Ties.{argument_at, ArgumentIsKnown, atom_at, AtomIsKnown};
ghost use Rattle.dlk_elab.specs.Atoms.{HasNoLocator};
ghost use Rattle.dlk_elab.specs.Ties.{AsksOrUses};
ghost use Rattle.dlk_strategy.specs.declared.fault.RunFault.TheVariants.{Memory};
ghost use Rattle.dlk_strategy.specs.Runs.{main_goals, formulas, side_of, side, put_place, placed, Once, TriesAll, RunAtom};
ghost use Rattle.dlk_strategy.specs.Ties.{goals_of, now, IsReady, Extends, IsBack, Becomes, UnlessOver, HasLeft, IsBackOnFailure};

use crate::fault::{RunFault, of_atom};
use crate::trace::{Trace, goal_at, goals_left};
use dlk_elab::{FailWhy, elaborate};
use dlk_kernel::{Kernel, Step};
use dlk_rules::Side;
use dlk_sequent::{Listed, Place};
use dlk_store::{Steps, Store};
use dlk_tacsyn::{Arg, Atom};
use std::alloc::{AllocError, Global};
use std::sync::ledger::Ledger;

/// The most runs of atoms, those that fail included.
pub(crate) const MOST_RUNS: u32 = 16_000;

/// Steps at the end of others.
fn append(into: &mut Vec<Step>, from: Vec<Step>) -> Result<(), AllocError>
    ensures { OnOk result (into.new.items ≡ into.old.items ++ from.items) }
{
    for step in from {
        into.push(step)?;
    }
    Ok(())
}

/// One run of an atom without a locator, on a goal of the last row. It is counted.
///
/// # Errors
///
/// - `Fails`: the atom gives no steps, for this reason. The byte is that of the atom.
/// - `Budget`: 16,000 runs were counted, and this one, at the byte of the atom, would be one more. It isn't counted.
/// - `Memory`: for want of memory, where the atom asks for steps or uses an axiom.
fn run_once<S: Store, L: Ledger>(
    alloc: Global,
    kernel: &mut Kernel<S>,
    trace: &mut Trace,
    atom: &Atom,
    goal: u32,
    steps: &mut Steps<L>,
) -> Result<u32, RunFault>
    requires ready { IsReady S.trees kernel.old trace.old goal 1 }
    requires known { AtomIsKnown (S.trees kernel.old.store) atom.now }
    requires fitting { IsFitting (atom_at (S.trees kernel.old.store) atom.now) }
    requires fixed { HasNoLocator (atom_at (S.trees kernel.old.store) atom.now) }
    ensures fate { Becomes (Once (atom_at (S.trees kernel.old.store) atom.now) goal) (now S.trees kernel.old trace.old)
        (now S.trees kernel.new trace.new) result }
    ensures memory { result ≡ Err Memory → AsksOrUses (facts S.trees kernel.old) (length kernel.old.rows) goal (atom_at (S.trees kernel.old.store) atom.now) }
    ensures extends { UnlessOver (Extends S.trees kernel.old trace.old kernel.new trace.new) result }
    ensures rows { ExtendsRows S.trees kernel.old kernel.new }
    ensures back { IsBackOnFailure (IsBack S.trees kernel.old trace.old kernel.new trace.new) result }
    ensures left { IfOk result (HasLeft (goals_of S.trees kernel.old) 1 (goals_of S.trees kernel.new)) }
    ensures few { OnOk result (goals_of S.trees kernel.new ≤ most_goals) }
    ensures grows { S.grows kernel.old.store kernel.new.store }
{
    if trace.used >= MOST_RUNS {
        return Err(RunFault::Budget { at: atom.at });
    }
    let before = goals_left(kernel);
    let fact = kernel.rows();
    trace.used += 1;
    match elaborate(alloc, kernel, fact, goal, atom, steps) {
        Ok(made) => {
            append(&mut trace.steps, made.steps)?;
            let after = goals_left(kernel);
            Ok(after + 1 - before)
        }
        Err(why) => Err(of_atom(atom.at, why)),
    }
}

/// The side of a locator.
fn locator_side(arg: &Arg) -> Option<Side>
    ensures { (trees : List Tree) → result ≡ side_of (argument_at trees arg.now) }
{
    match arg {
        Arg::AnyLeft => Some(Side::Left),
        Arg::AnyRight => Some(Side::Right),
        Arg::At { .. } | Arg::Word(_) | Arg::Formula(_) | Arg::Term(_) | Arg::With(_) => None,
    }
}

/// The side of the first locator of the arguments.
fn first_side(args: &[Arg]) -> Option<Side>
    ensures { (trees : List Tree) → result ≡ side (map (argument_at trees) args.now) }
{
    for arg in args {
        let found = locator_side(arg);
        if found.is_some() {
            return found;
        }
    }
    None
}

/// The argument with this place for a locator.
fn place_put(alloc: Global, arg: &Arg, place: u32) -> Result<Arg, AllocError>
    ensures made { IfOk result (λ made. (trees : List Tree) → argument_at trees made ≡ put_place place (argument_at trees arg.now)) }
    ensures known { IfOk result (λ made. (trees : List Tree) → ArgumentIsKnown trees arg.now → ArgumentIsKnown trees made) }
{
    let no_path = Listed::new(alloc);
    match arg {
        Arg::At { place: at, path } => {
            let path = path.copied(alloc)?;
            Ok(Arg::At { place: *at, path })
        }
        Arg::AnyLeft => Ok(Arg::At {
            place: Place::Ante(place),
            path: no_path,
        }),
        Arg::AnyRight => Ok(Arg::At {
            place: Place::Succ(place),
            path: no_path,
        }),
        Arg::Word(name) => Ok(Arg::Word(name.clone()?)),
        Arg::Formula(id) => Ok(Arg::Formula(*id)),
        Arg::Term(id) => Ok(Arg::Term(*id)),
        Arg::With(extra) => Ok(Arg::With(extra.copy(alloc)?)),
    }
}

/// The atom with this place for its locator.
fn placed(alloc: Global, atom: &Atom, place: u32) -> Result<Atom, AllocError>
    ensures made { IfOk result (λ made. (trees : List Tree) → atom_at trees made ≡ placed place (atom_at trees atom.now)) }
    ensures known { IfOk result (λ made. (trees : List Tree) → AtomIsKnown trees atom.now → AtomIsKnown trees made) }
{
    let mut args = Listed::new(alloc);
    for arg in atom.args.as_slice() {
        let arg = place_put(alloc, arg, place)?;
        args.push(arg)?;
    }
    let name = atom.name.clone()?;
    Ok(Atom {
        name,
        args,
        at: atom.at,
    })
}

/// How many formulas stand on a side of a goal of the last row.
fn places_on<S: Store>(kernel: &Kernel<S>, side: Side, goal: u32) -> u32
    requires { IsPlace (main_goals (facts S.trees kernel.now)) goal }
    ensures { (s : Sequent) → At (main_goals (facts S.trees kernel.now)) goal s → result ≡ length (formulas side s) }
{
    let goal = goal_at(kernel, goal);
    match side {
        Side::Left => goal.ante.as_slice().len() as u32,
        Side::Right => goal.succ.as_slice().len() as u32,
    }
}

/// Tries the places of a side of a goal in order, each a run of its own, until one doesn't fail.
fn try_places<S: Store, L: Ledger>(
    alloc: Global,
    kernel: &mut Kernel<S>,
    trace: &mut Trace,
    atom: &Atom,
    side: Side,
    goal: u32,
    steps: &mut Steps<L>,
) -> Result<u32, RunFault>
    requires ready { IsReady S.trees kernel.old trace.old goal 1 }
    requires known { AtomIsKnown (S.trees kernel.old.store) atom.now }
    requires fitting { IsFitting (atom_at (S.trees kernel.old.store) atom.now) }
    ensures fate { Becomes (TriesAll (atom_at (S.trees kernel.old.store) atom.now) side goal) (now S.trees kernel.old trace.old)
        (now S.trees kernel.new trace.new) result }
    ensures extends { UnlessOver (Extends S.trees kernel.old trace.old kernel.new trace.new) result }
    ensures rows { ExtendsRows S.trees kernel.old kernel.new }
    ensures left { IfOk result (HasLeft (goals_of S.trees kernel.old) 1 (goals_of S.trees kernel.new)) }
    ensures few { OnOk result (goals_of S.trees kernel.new ≤ most_goals) }
    ensures grows { S.grows kernel.old.store kernel.new.store }
{
    let places = places_on(kernel, side, goal);
    let mut why = FailWhy::NoPlace;
    for place in 0..places {
        let placed = placed(alloc, atom, place + 1)?;
        match run_once(alloc, kernel, trace, &placed, goal, steps) {
            Err(RunFault::Fails { why: last, .. }) => why = last,
            Ok(left) => return Ok(left),
            Err(RunFault::Budget { at }) => return Err(RunFault::Budget { at }),
            Err(RunFault::Memory) => return Err(RunFault::Memory),
        }
    }
    Err(RunFault::Fails { at: atom.at, why })
}

/// Runs an atom on a goal of the last row; where it has a locator, at the first place at which it doesn't fail.
pub(crate) fn run_atom<S: Store, L: Ledger>(
    alloc: Global,
    kernel: &mut Kernel<S>,
    trace: &mut Trace,
    atom: &Atom,
    goal: u32,
    steps: &mut Steps<L>,
) -> Result<u32, RunFault>
    requires ready { IsReady S.trees kernel.old trace.old goal 1 }
    requires known { AtomIsKnown (S.trees kernel.old.store) atom.now }
    requires fitting { IsFitting (atom_at (S.trees kernel.old.store) atom.now) }
    ensures fate { Becomes (RunAtom (atom_at (S.trees kernel.old.store) atom.now) goal) (now S.trees kernel.old trace.old)
        (now S.trees kernel.new trace.new) result }
    ensures extends { UnlessOver (Extends S.trees kernel.old trace.old kernel.new trace.new) result }
    ensures rows { ExtendsRows S.trees kernel.old kernel.new }
    ensures left { IfOk result (HasLeft (goals_of S.trees kernel.old) 1 (goals_of S.trees kernel.new)) }
    ensures few { OnOk result (goals_of S.trees kernel.new ≤ most_goals) }
    ensures grows { S.grows kernel.old.store kernel.new.store }
{
    match first_side(atom.args.as_slice()) {
        None => run_once(alloc, kernel, trace, atom, goal, steps),
        Some(side) => try_places(alloc, kernel, trace, atom, side, goal, steps),
    }
}
