//! Where a use of an axiom acts.
ghost use Rattle.std.specs.Prelude.{◌≡◌, None, Err, IfOk, IfErr};
ghost use Rattle.dlk_sequent.specs.Sequents.{sequent_at, IsKnown};
ghost use Rattle.dlk_uses.specs.Uses.{formula_at};
ghost use Rattle.dlk_kernel.specs.Kernel.{facts};
ghost use Rattle.dlk_elab.specs.Atoms.{NoPlace, HasGoalAt};
ghost use Rattle.dlk_elab.specs.Ties.{IsTacFault};
ghost use Rattle.dlk_elab.specs.Uses.{IsWayAt, HasNoWay, IsReached, IsNotThere};

use crate::fault::TacFault;
use crate::plan::Target;
use dlk_kernel::Kernel;
use dlk_sequent::{Place, Sequent, Spine};
use dlk_store::{Steps, Store};
use dlk_uses::formula_at;
use std::alloc::Global;
use std::sync::ledger::Ledger;

/// The way to where a use acts, and the number of formulas on the right there.
#[derive(Drop, Debug)]
pub(crate) struct Reached {
    pub(crate) way: Spine,
    pub(crate) right: u32,
}

/// The way along a path in the formula at a place.
///
/// # Errors
///
/// - `NoPlace`: the place or the path is not there.
/// - `Memory`: for want of memory.
fn way_at<S: Store, L: Ledger>(
    alloc: Global,
    store: &S,
    s: &Sequent,
    place: Place,
    path: &[u32],
    steps: &mut Steps<L>,
) -> Result<Spine, TacFault>
    requires { IsKnown (S.trees store.now) s.now }
    ensures found { IfOk result (IsWayAt (S.trees store.now) s.now place path.now) }
    ensures fault { IfErr result (IsTacFault (λ why. (why ≡ NoPlace) × HasNoWay (S.trees store.now) s.now place path.now)) }
    ensures owed { formula_at (sequent_at (S.trees store.now) s.now) place ≡ None → result ≡ Err TacFault.NoPlace }
{
    let Some(formula) = formula_at(s, place) else {
        return Err(TacFault::NoPlace);
    };
    let Some(way) = Spine::of(alloc, store, formula, path, steps)? else {
        return Err(TacFault::NoPlace);
    };
    Ok(way)
}

/// The way along a path in the formula at a place of the goal.
///
/// # Errors
///
/// - `NoPlace`: the place or the path is not there.
/// - `Memory`: for want of memory.
pub(crate) fn reach<S: Store, L: Ledger>(
    alloc: Global,
    kernel: &Kernel<S>,
    target: Target,
    place: Place,
    path: &[u32],
    steps: &mut Steps<L>,
) -> Result<Reached, TacFault>
    requires { HasGoalAt (facts S.trees kernel.now) target.fact target.goal }
    ensures found { IfOk result (IsReached (facts S.trees kernel.now) target (S.trees kernel.now.store) place path.now) }
    ensures fault { IfErr result (IsTacFault (λ why. (why ≡ NoPlace) × IsNotThere (facts S.trees kernel.now) target place path.now)) }
{
    let _ = kernel.rows();
    let s = kernel.goals(target.fact)[target.goal as usize - 1].value();
    let way = way_at(alloc, kernel, s, place, path, steps)?;
    let right = s.succ.as_slice().len() as u32;
    Ok(Reached { way, right })
}
