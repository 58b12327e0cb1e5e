//! An axiomatic rule: its conclusion is proved from its premise.
ghost use Rattle.std.specs.Prelude.{List, IfOk, IfErr};
ghost use Rattle.dlk_calculus.specs.Provables.{Provable};
ghost use Rattle.dlk_calculus.specs.Steps.{UseRule, Gives, IsWithin, Fault};
ghost use Rattle.dlk_kernel.specs.Faults.{IsStepFault};
ghost use Rattle.dlk_kernel.specs.Kernel.{provable_at, IsKnownRow};
ghost use Rattle.dlk_kernel.specs.Named.{AreRows};

use crate::fault::StepFault;
use crate::named_rules::NamedRules;
use crate::row::Row;
use dlk_calculus::Reason;
use dlk_store::Store;
use dlk_tree::Name;
use std::alloc::Global;

/// An axiomatic rule, without leaves:
///
/// ```text
/// ==> the rule's premise
/// -------------------------
/// ==> the rule's conclusion
/// ```
pub(super) fn axiomatic_rule<S: Store>(
    alloc: Global,
    store: &mut S,
    rules: &mut NamedRules,
    name: &Name,
) -> Result<Row, StepFault>
    requires { AreRows (S.trees store.old) rules.old }
    ensures given { IfOk result (λ row. (rows : List Provable) → Gives rows (UseRule name.now) (provable_at (S.trees store.new) row)) }
    ensures within { IfOk result (λ row. IsWithin (UseRule name.now) (provable_at (S.trees store.new) row)) }
    ensures known { IfOk result (IsKnownRow (S.trees store.new)) }
    ensures fault { IfErr result (IsStepFault (λ why. (rows : List Provable) → Fault rows (UseRule name.now) why)) }
    ensures named { AreRows (S.trees store.new) rules.new }
    ensures grows { S.grows store.old store.new }
{
    match rules.row(alloc, store, name)? {
        Some(row) => Ok(row),
        None => Err(StepFault::Refused(Reason::UnknownName)),
    }
}
