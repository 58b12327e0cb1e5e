//! Atoms on a kernel.
ghost use Rattle.std.specs.Prelude.{◌≡◌, length, map, All, Err, IfOk, OnOk, IfErr, OnErr};
ghost use Rattle.dlk_store.specs.Stores.{IsId, tree};
ghost use Rattle.dlk_calculus.specs.Sequents.{IsFormula};
ghost use Rattle.dlk_calculus.specs.Steps.{IsProper};
ghost use Rattle.dlk_kernel.specs.Kernel.{facts, SameRows, ExtendsRows};
ghost use Rattle.dlk_rules.specs.Steps.{step_at, HasKnownIds};
ghost use Rattle.dlk_tacsyn.specs.Rows.{IsFitting};
ghost use Rattle.dlk_tacsyn.specs.Ties.{atom_at, AtomIsKnown};
ghost use Rattle.dlk_elab.specs.Atoms.{HasNoLocator, HasGoalAt, AtomSteps, AtomFault};
ghost use Rattle.dlk_elab.specs.Calls.{IsPlain, IsCall, CallIsKnown, UsesNone};
ghost use Rattle.dlk_elab.specs.declared.fault.TacFault.TheVariants.{Memory};
ghost use Rattle.dlk_elab.specs.Ties.{IsTacFault, AreAsked, AsksSome, AsksOrUses, AreMade};

use crate::boxes::{box_at, cut_trees, cutting_box, generalizing};
use crate::calls::{Call, call_of};
use crate::fault::TacFault;
use crate::plan::{Target, plan};
use crate::uses::use_axiom;
use dlk_kernel::{Fact, Kernel};
use dlk_rules::{Step, step_stays};
use dlk_store::{Id, Steps, Store};
use dlk_tacsyn::{Arg, Atom};
use dlk_uses::take_in_turn;
use std::alloc::Global;
use std::sync::ledger::Ledger;

/// What an atom made.
#[derive(Drop, Debug)]
pub struct Elaborated {
    /// The last row, which stands for the fact now.
    pub fact: Fact,
    /// The steps of the new rows, in order.
    pub steps: Vec<Step>,
}

/// Takes the steps that an atom asks for on a goal of the last row. The atom is fitting and has no locator, and its ids are those of
/// this kernel's store. After a fault the rows are as they were. After it the last row is that of the fact before, with other goals in
/// the goal's place.
///
/// # Errors
///
/// - `UnknownName`: the atom uses an axiom, and none has the name.
/// - `NoPlace`: the atom is for a rule or a box, and one of its places has a path, is on the other side, or, for a box, is not there; or
///   it uses an axiom, and the place or the path is not there.
/// - `NoMatch`: the atom uses an axiom that doesn't match what stands at the place, or may not be used there.
/// - `Step`: the kernel does not take a step of the atom: the first reason against the first such step. For `close` it is `NotEqual`
///   where no formula stands on both sides, and for a box `WrongShape` where none stands at the place.
/// - `Memory`: for want of memory.
pub fn elaborate<S: Store, L: Ledger>(
    alloc: Global,
    kernel: &mut Kernel<S>,
    fact: Fact,
    goal: u32,
    atom: &Atom,
    steps: &mut Steps<L>,
) -> Result<Elaborated, TacFault>
    requires last { fact ≡ length kernel.old.rows }
    requires goal { HasGoalAt (facts S.trees kernel.old) fact goal }
    requires known { AtomIsKnown (S.trees kernel.old.store) atom.now }
    requires fitting { IsFitting (atom_at (S.trees kernel.old.store) atom.now) }
    requires fixed { HasNoLocator (atom_at (S.trees kernel.old.store) atom.now) }

    // The steps are those of the atom, and the rows those that they give. Names in them are names.
    ensures made { IfOk result (λ made. AtomSteps (facts S.trees kernel.old) fact goal (atom_at (S.trees kernel.old.store) atom.now)
        (map (step_at (S.trees kernel.new.store)) made.steps.items) (facts S.trees kernel.new)) }
    ensures fact { IfOk result (λ made. made.fact ≡ length kernel.new.rows) }
    ensures known { IfOk result (λ made. All (HasKnownIds (S.trees kernel.new.store)) made.steps.items) }
    ensures proper { IfOk result (λ made. All IsProper (map (step_at (S.trees kernel.new.store)) made.steps.items)) }
    ensures kept { OnOk result (ExtendsRows S.trees kernel.old kernel.new) }

    // Want of memory aside, the fault is the atom's. An atom without steps that uses no axiom is refused before memory is taken.
    ensures fault { IfErr result (IsTacFault (AtomFault (facts S.trees kernel.old) fact goal (atom_at (S.trees kernel.old.store) atom.now))) }
    ensures memory { result ≡ Err Memory → AsksOrUses (facts S.trees kernel.old) fact goal (atom_at (S.trees kernel.old.store) atom.now) }
    ensures err { OnErr result (SameRows S.trees kernel.old kernel.new) }

    ensures grows { S.grows kernel.old.store kernel.new.store }
{
    let rows = kernel.rows();
    let target = Target { rows, fact, goal };
    match atom_steps(alloc, kernel, target, atom, steps) {
        Ok(made) => Ok(Elaborated {
            fact: kernel.rows(),
            steps: made,
        }),
        Err(why) => {
            kernel.release(rows);
            Err(why)
        }
    }
}

/// Takes the steps of an atom. After a fault the rows of those before it stay.
fn atom_steps<S: Store, L: Ledger>(
    alloc: Global,
    kernel: &mut Kernel<S>,
    target: Target,
    atom: &Atom,
    steps: &mut Steps<L>,
) -> Result<Vec<Step>, TacFault>
    requires rows { target.rows ≡ length kernel.old.rows }
    requires goal { HasGoalAt (facts S.trees kernel.old) target.fact target.goal }
    requires known { AtomIsKnown (S.trees kernel.old.store) atom.now }
    requires fitting { IsFitting (atom_at (S.trees kernel.old.store) atom.now) }
    requires fixed { HasNoLocator (atom_at (S.trees kernel.old.store) atom.now) }
    ensures made { IfOk result (λ made. AreMade (facts S.trees kernel.old) target.fact target.goal (atom_at (S.trees kernel.old.store) atom.now)
        (S.trees kernel.new.store) made.items (facts S.trees kernel.new)) }
    ensures fault { IfErr result (IsTacFault (AtomFault (facts S.trees kernel.old) target.fact target.goal (atom_at (S.trees kernel.old.store) atom.now))) }
    ensures memory { result ≡ Err Memory → AsksOrUses (facts S.trees kernel.old) target.fact target.goal (atom_at (S.trees kernel.old.store) atom.now) }
    ensures kept { ExtendsRows S.trees kernel.old kernel.new }
    ensures grows { S.grows kernel.old.store kernel.new.store }
{
    step_stays();
    let call = call_of(atom);
    if let Call::Use(used) = call {
        return use_axiom(alloc, kernel, target, atom, used, steps);
    }
    let plan = planned(alloc, kernel, target, atom, call, steps)?;
    take_in_turn(alloc, kernel, plan.as_slice(), steps)?;
    Ok(plan)
}

/// The steps that an atom asks for, where it uses no axiom.
fn planned<S: Store, L: Ledger>(
    alloc: Global,
    kernel: &mut Kernel<S>,
    target: Target,
    atom: &Atom,
    call: Call<'_>,
    steps: &mut Steps<L>,
) -> Result<Vec<Step>, TacFault>
    requires rows { target.rows ≡ length kernel.old.rows }
    requires goal { HasGoalAt (facts S.trees kernel.old) target.fact target.goal }
    requires known { AtomIsKnown (S.trees kernel.old.store) atom.now }
    requires fitting { IsFitting (atom_at (S.trees kernel.old.store) atom.now) }
    requires fixed { HasNoLocator (atom_at (S.trees kernel.old.store) atom.now) }
    requires call { IsCall (S.trees kernel.old.store) (atom_at (S.trees kernel.old.store) atom.now) call }
    requires call_known { CallIsKnown (S.trees kernel.old.store) call }
    requires no_use { UsesNone call }
    ensures plan { IfOk result (λ plan.
        AreAsked (facts S.trees kernel.old) target.fact target.goal (atom_at (S.trees kernel.old.store) atom.now) (S.trees kernel.new.store) plan.items) }
    ensures fault { IfErr result (IsTacFault (AtomFault (facts S.trees kernel.old) target.fact target.goal (atom_at (S.trees kernel.old.store) atom.now))) }
    ensures memory { result ≡ Err Memory → AsksSome (facts S.trees kernel.old) target.fact target.goal (atom_at (S.trees kernel.old.store) atom.now) }
    ensures same { SameRows S.trees kernel.old kernel.new }
    ensures grows { S.grows kernel.old.store kernel.new.store }
{
    match call {
        Call::Plain => plain(alloc, &*kernel, target, atom),
        Call::Generalize(at) => generalize(alloc, &*kernel, target, atom, at, steps),
        Call::CutBox(h, at) => cut_box(alloc, kernel, target, atom, h, at, steps),
        Call::Use(_) => unreachable!(),
    }
}

/// The steps of an atom for a rule, or without arguments.
fn plain<S: Store>(
    alloc: Global,
    kernel: &Kernel<S>,
    target: Target,
    atom: &Atom,
) -> Result<Vec<Step>, TacFault>
    requires rows { target.rows ≡ length kernel.now.rows }
    requires goal { HasGoalAt (facts S.trees kernel.now) target.fact target.goal }
    requires known { AtomIsKnown (S.trees kernel.now.store) atom.now }
    requires fitting { IsFitting (atom_at (S.trees kernel.now.store) atom.now) }
    requires fixed { HasNoLocator (atom_at (S.trees kernel.now.store) atom.now) }
    requires plain { IsPlain atom.now.name }
    ensures plan { IfOk result (λ plan.
        AreAsked (facts S.trees kernel.now) target.fact target.goal (atom_at (S.trees kernel.now.store) atom.now) (S.trees kernel.now.store) plan.items) }
    ensures fault { IfErr result (IsTacFault (AtomFault (facts S.trees kernel.now) target.fact target.goal (atom_at (S.trees kernel.now.store) atom.now))) }
    ensures memory { result ≡ Err Memory → AsksSome (facts S.trees kernel.now) target.fact target.goal (atom_at (S.trees kernel.now.store) atom.now) }
{
    let _ = kernel.rows();
    let s = kernel.goals(target.fact)[target.goal as usize - 1].value();
    plan(alloc, kernel, target, s, atom)
}

/// The steps of `G`.
fn generalize<S: Store, L: Ledger>(
    alloc: Global,
    kernel: &Kernel<S>,
    target: Target,
    atom: &Atom,
    at: &Arg,
    steps: &mut Steps<L>,
) -> Result<Vec<Step>, TacFault>
    requires rows { target.rows ≡ length kernel.now.rows }
    requires goal { HasGoalAt (facts S.trees kernel.now) target.fact target.goal }
    requires call { IsCall (S.trees kernel.now.store) (atom_at (S.trees kernel.now.store) atom.now) (Call.Generalize at) }
    ensures plan { IfOk result (λ plan.
        AreAsked (facts S.trees kernel.now) target.fact target.goal (atom_at (S.trees kernel.now.store) atom.now) (S.trees kernel.now.store) plan.items) }
    ensures fault { IfErr result (IsTacFault (AtomFault (facts S.trees kernel.now) target.fact target.goal (atom_at (S.trees kernel.now.store) atom.now))) }
    ensures memory { result ≡ Err Memory → AsksSome (facts S.trees kernel.now) target.fact target.goal (atom_at (S.trees kernel.now.store) atom.now) }
{
    let _ = kernel.rows();
    let s = kernel.goals(target.fact)[target.goal as usize - 1].value();
    let boxed = box_at(kernel, s, at, steps)?;
    let plan = generalizing(alloc, target, boxed)?;
    Ok(plan)
}

/// The steps of `boxCut`.
fn cut_box<S: Store, L: Ledger>(
    alloc: Global,
    kernel: &mut Kernel<S>,
    target: Target,
    atom: &Atom,
    h: Id,
    at: &Arg,
    steps: &mut Steps<L>,
) -> Result<Vec<Step>, TacFault>
    requires rows { target.rows ≡ length kernel.old.rows }
    requires goal { HasGoalAt (facts S.trees kernel.old) target.fact target.goal }
    requires known { IsId (S.trees kernel.old.store) h }
    requires formula { IsFormula (tree (S.trees kernel.old.store) h) }
    requires call { IsCall (S.trees kernel.old.store) (atom_at (S.trees kernel.old.store) atom.now) (Call.CutBox h at) }
    ensures plan { IfOk result (λ plan.
        AreAsked (facts S.trees kernel.old) target.fact target.goal (atom_at (S.trees kernel.old.store) atom.now) (S.trees kernel.new.store) plan.items) }
    ensures fault { IfErr result (IsTacFault (AtomFault (facts S.trees kernel.old) target.fact target.goal (atom_at (S.trees kernel.old.store) atom.now))) }
    ensures memory { result ≡ Err Memory → AsksSome (facts S.trees kernel.old) target.fact target.goal (atom_at (S.trees kernel.old.store) atom.now) }
    ensures same { SameRows S.trees kernel.old kernel.new }
    ensures grows { S.grows kernel.old.store kernel.new.store }
{
    let _ = kernel.rows();
    let s = kernel.goals(target.fact)[target.goal as usize - 1].value();
    let boxed = box_at(&*kernel, s, at, steps)?;
    let cut = cut_trees(alloc, kernel, boxed, h)?;
    let plan = cutting_box(alloc, target, boxed, cut)?;
    Ok(plan)
}
