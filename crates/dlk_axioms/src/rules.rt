//! The axiomatic rules.
ghost use Rattle.std.specs.Prelude.{◌≡◌, IfOk};
ghost use Rattle.dlk_calculus.specs.Axioms.{AxiomaticRule, rule_named};
ghost use Rattle.dlk_axioms.specs.Answers.{Finds, IsRuleAt};

use crate::lookup::rule_row;
use crate::making::make_alone_right;
use dlk_sequent::Sequent;
use dlk_store::{Store, StoreFault};
use std::alloc::Global;

/// The axiomatic rule of this name, by its premises and its conclusion, and `None` exactly where no such rule has the name. There is one
/// premise; it and the conclusion are a formula alone on the right. A proof uses the rule as an inference, or an instance of it by
/// uniform substitution (Platzer 2017, section on axioms).
///
/// # Errors
///
/// `Memory` alone. Whatever comes, the store keeps its trees; it may have more nodes then.
pub fn axiomatic_rule<S: Store>(
    alloc: Global,
    store: &mut S,
    name: &[u8],
) -> Result<Option<(Vec<Sequent>, Sequent)>, StoreFault>
    ensures rule { IfOk result (Finds (λ (r : AxiomaticRule) made. IsRuleAt (S.trees store.new) r made.0.items made.1) (rule_named name.now)) }
    ensures grows { S.grows store.old store.new }
{
    let Some(row) = rule_row(name) else {
        return Ok(None);
    };
    let premise = make_alone_right(alloc, row.premise, store)?;
    let conclusion = make_alone_right(alloc, row.conclusion, store)?;
    let premises = vec![in alloc; premise]?;
    Ok(Some((premises, conclusion)))
}
