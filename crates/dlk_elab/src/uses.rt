//! Uses of axioms.
ghost use Rattle.std.specs.Prelude.{◌≡◌, ◌<◌, ◌^◌, length, None, Err, IfOk, IfErr};
ghost use Rattle.dlk_tree.specs.declared.op.Sort.TheVariants.{Formula};
ghost use Rattle.dlk_tree.specs.Trees.{Tree, sort};
ghost use Rattle.dlk_store.specs.Stores.{tree, StandsFor};
ghost use Rattle.dlk_calculus.specs.Axioms.{axiom_named};
ghost use Rattle.dlk_sequent.specs.Spines.{top, path_of, IsSpine};
ghost use Rattle.dlk_uses.specs.Uses.{ProvesLast};
ghost use Rattle.dlk_elab.specs.Finishing.{FinishLast};
ghost use Rattle.dlk_kernel.specs.Kernel.{facts, SameRows, ExtendsRows};
ghost use Rattle.dlk_tacsyn.specs.Ties.{atom_at, AtomIsKnown};
ghost use Rattle.dlk_elab.specs.Atoms.{HasGoalAt, AtomFault};
ghost use Rattle.dlk_elab.specs.Calls.{IsCall, GivenIsKnown};
ghost use Rattle.dlk_elab.specs.Uses.{IsFound, ProvesForm, aim_of};
ghost use Rattle.std.specs.Option.{option_copied};
ghost use Rattle.dlk_elab.specs.Ties.{IsTacFault, AreMade};

use crate::calls::{Call, UseCall};
use crate::fault::TacFault;
use crate::finishing::finish;
use crate::forms::{Aim, joined};
use crate::instance::instance;
use crate::keys::{matched, named_axiom};
use crate::plan::Target;
use crate::spot::Spot;
use crate::ways::reach;
use dlk_axioms::AxiomForm;
use dlk_kernel::Kernel;
use dlk_match::{axioms_have_own_names, match_keeps_sort};
use dlk_rules::{Step, step_stays};
use dlk_sequent::laws::{spine_leads, spine_stays};
use dlk_sequent::{Extra, Spine};
use dlk_store::{Id, Steps, Store, StoreFault};
use dlk_tacsyn::Atom;
use dlk_uses::{take_in_turn, uses_have_shapes, uses_rename_few};
use std::alloc::Global;
use std::sync::ledger::Ledger;

/// What a use finds: the form of its axiom, the names and replacements of the instance, the way to where it acts, and the number of
/// formulas on the right there.
#[derive(Debug)]
pub(crate) struct Found {
    pub(crate) form: AxiomForm,
    pub(crate) extra: Extra,
    pub(crate) way: Spine,
    pub(crate) right: u32,
}

/// What is found is given back by a call, and not part by part wherever a use stops.
impl Drop for Found {
    fn drop(self) {
        let Found {
            form: _,
            extra: _extra,
            way: _way,
            right: _,
        } = self;
    }
}

/// What a use finds on the goal.
///
/// # Errors
///
/// - `UnknownName`: no axiom has the name.
/// - `NoPlace`: the place or the path is not there.
/// - `NoMatch`: the axiom doesn't match what stands there, or may not be used there.
/// - `Memory`: for want of memory.
fn find<S: Store, L: Ledger>(
    alloc: Global,
    kernel: &mut Kernel<S>,
    target: Target,
    atom: &Atom,
    used: UseCall<'_>,
    steps: &mut Steps<L>,
) -> Result<Found, TacFault>
    requires goal { HasGoalAt (facts S.trees kernel.old) target.fact target.goal }
    requires call { IsCall (S.trees kernel.old.store) (atom_at (S.trees kernel.old.store) atom.now) (Call.Use used) }
    requires given { GivenIsKnown (S.trees kernel.old.store) (option_copied used.given) }
    ensures found { IfOk result
        (IsFound (facts S.trees kernel.old) target (atom_at (S.trees kernel.old.store) atom.now) (S.trees kernel.new.store) used.entry) }
    ensures fault { IfErr result (IsTacFault (AtomFault (facts S.trees kernel.old) target.fact target.goal (atom_at (S.trees kernel.old.store) atom.now))) }
    ensures unknown { axiom_named used.entry.name.now ≡ None → result ≡ Err TacFault.UnknownName }
    ensures same { SameRows S.trees kernel.old kernel.new }
    ensures grows { S.grows kernel.old.store kernel.new.store }
{
    spine_leads();
    spine_stays();
    let named = named_axiom(alloc, kernel, used.name)?;
    let reached = reach(alloc, &*kernel, target, used.place, used.path, steps)?;
    let extra = matched(alloc, kernel, &named, used, reached.way.subtree(), steps)?;
    Ok(Found {
        form: named.form,
        extra,
        way: reached.way,
        right: reached.right,
    })
}

/// The formula that the last row proves.
fn last_proved<S: Store>(kernel: &Kernel<S>) -> Id
    requires { (f : Tree) × ProvesLast (facts S.trees kernel.now) f }
    ensures { (f : Tree) → ProvesLast (facts S.trees kernel.now) f → StandsFor (S.trees kernel.now.store) result f }
{
    kernel.conclusion(kernel.rows()).succ.as_slice()[0]
}

/// The steps behind the instance, which the last row proves.
fn behind<S: Store, L: Ledger>(
    alloc: Global,
    kernel: &mut Kernel<S>,
    target: Target,
    used: UseCall<'_>,
    found: &Found,
    steps: &mut Steps<L>,
) -> Result<Vec<Step>, StoreFault>
    requires goal { target.goal < 2 ^ 31 }
    requires right { found.now.right < 2 ^ 31 }
    requires spine { IsSpine (S.trees kernel.old.store) found.now.way }
    requires formula { sort (tree (S.trees kernel.old.store) (top found.now.way)) ≡ Formula }
    requires proves { ProvesForm (facts S.trees kernel.old) found.now.form used.place (tree (S.trees kernel.old.store) found.now.way.found) }
    ensures made { IfOk result (λ rest. FinishLast (S.trees kernel.new.store) (facts S.trees kernel.old)
        (aim_of target used.entry found.now.right) found.now.form (path_of found.now.way) (tree (S.trees kernel.old.store) (top found.now.way)) rest.items) }
    ensures same { SameRows S.trees kernel.old kernel.new }
    ensures grows { S.grows kernel.old.store kernel.new.store }
{
    let now = kernel.rows();
    let f = last_proved(&*kernel);
    let spot = Spot {
        fact: target.fact,
        goal: target.goal,
        right: found.right,
    };
    let aim = Aim {
        spot,
        place: used.place,
        direction: used.direction,
    };
    finish(alloc, kernel, now, aim, found.form, &found.way, f, steps)
}

/// Takes the steps of a use of an axiom. After a fault the rows of those before it stay.
pub(crate) fn use_axiom<S: Store, L: Ledger>(
    alloc: Global,
    kernel: &mut Kernel<S>,
    target: Target,
    atom: &Atom,
    used: UseCall<'_>,
    steps: &mut Steps<L>,
) -> Result<Vec<Step>, TacFault>
    requires rows { target.rows ≡ length kernel.old.rows }
    requires goal { HasGoalAt (facts S.trees kernel.old) target.fact target.goal }
    requires known { AtomIsKnown (S.trees kernel.old.store) atom.now }
    requires call { IsCall (S.trees kernel.old.store) (atom_at (S.trees kernel.old.store) atom.now) (Call.Use used) }
    requires given { GivenIsKnown (S.trees kernel.old.store) (option_copied used.given) }
    ensures made { IfOk result (λ made. AreMade (facts S.trees kernel.old) target.fact target.goal (atom_at (S.trees kernel.old.store) atom.now)
        (S.trees kernel.new.store) made.items (facts S.trees kernel.new)) }
    ensures fault { IfErr result (IsTacFault (AtomFault (facts S.trees kernel.old) target.fact target.goal (atom_at (S.trees kernel.old.store) atom.now))) }
    ensures unknown { axiom_named used.entry.name.now ≡ None → result ≡ Err TacFault.UnknownName }
    ensures kept { ExtendsRows S.trees kernel.old kernel.new }
    ensures grows { S.grows kernel.old.store kernel.new.store }
{
    uses_have_shapes();
    uses_rename_few();
    match_keeps_sort();
    axioms_have_own_names();
    step_stays();
    spine_stays();
    let _ = kernel.rows();
    let found = find(alloc, kernel, target, atom, used, steps)?;
    let plan = instance(alloc, target.rows, used.name, &found.extra)?;
    take_in_turn(alloc, kernel, plan.as_slice(), steps)?;
    let rest = behind(alloc, kernel, target, used, &found, steps)?;
    take_in_turn(alloc, kernel, rest.as_slice(), steps)?;
    let all = joined(plan, rest)?;
    Ok(all)
}
