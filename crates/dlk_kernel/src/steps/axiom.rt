//! An axiom: it is proved from nothing.
ghost use Rattle.std.specs.Prelude.{List, IfOk, IfErr};
ghost use Rattle.dlk_calculus.specs.Provables.{Provable};
ghost use Rattle.dlk_calculus.specs.Steps.{UseAxiom, Gives, IsWithin, Fault};
ghost use Rattle.dlk_kernel.specs.Faults.{IsStepFault};
ghost use Rattle.dlk_kernel.specs.Kernel.{provable_at, IsKnownRow};
ghost use Rattle.dlk_kernel.specs.Named.{AreFormulas};

use crate::axioms::NamedAxioms;
use crate::fault::StepFault;
use crate::goals::Goals;
use crate::row::Row;
use dlk_calculus::Reason;
use dlk_sequent::{Listed, Sequent, Shared};
use dlk_store::Store;
use dlk_tree::Name;
use std::alloc::Global;

/// An axiom, without goals and leaves:
///
/// ```text
///
/// -------------
/// ==> the axiom
/// ```
pub(super) fn axiom<S: Store>(
    alloc: Global,
    store: &mut S,
    axioms: &mut NamedAxioms,
    name: &Name,
) -> Result<Row, StepFault>
    requires { AreFormulas (S.trees store.old) axioms.old }
    ensures given { IfOk result (λ row. (rows : List Provable) → Gives rows (UseAxiom name.now) (provable_at (S.trees store.new) row)) }
    ensures within { IfOk result (λ row. IsWithin (UseAxiom name.now) (provable_at (S.trees store.new) row)) }
    ensures known { IfOk result (IsKnownRow (S.trees store.new)) }
    ensures fault { IfErr result (IsStepFault (λ why. (rows : List Provable) → Fault rows (UseAxiom name.now) why)) }
    ensures named { AreFormulas (S.trees store.new) axioms.new }
    ensures grows { S.grows store.old store.new }
{
    let Some(formula) = axioms.formula(alloc, store, name)? else {
        return Err(StepFault::Refused(Reason::UnknownName));
    };
    let conclusion = Shared::new(alloc, Sequent::alone_right(alloc, formula)?)?;
    let leaves = Shared::new(alloc, Listed::new(alloc))?;
    let goals = Goals::new();
    Ok(Row {
        conclusion,
        goals,
        leaves,
    })
}
