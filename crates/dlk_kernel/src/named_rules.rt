//! The axiomatic rules that were named before: the row of each is made once.
ghost use Rattle.std.specs.Prelude.{◌≡◌, ◌↔◌, [], ℕ, List, IsSome, IfOk, MatchOption};
ghost use Rattle.dlk_tree.specs.Trees.{Tree};
ghost use Rattle.dlk_calculus.specs.Axioms.{AxiomaticRule, rule_named};
ghost use Rattle.dlk_axioms.specs.Answers.{Finds};
ghost use Rattle.dlk_kernel.specs.Named.{IsRowOf, IsRowNamed, AreRows, IsRuleNamed};

use crate::goals::Goals;
use crate::row::Row;
use dlk_sequent::{Listed, Shared, shared_each};
use dlk_store::{Store, StoreFault};
use dlk_tree::Name;
use std::alloc::Global;
use std::marker::Model;

/// An axiomatic rule's name, and the row that it gives.
#[derive(Drop, Debug)]
pub(crate) struct NamedRule {
    name: Name,
    row: Row,
}

/// The axiomatic rules that were named so far. Contracts see their list.
#[derive(Drop, Debug)]
pub(crate) struct NamedRules {
    all: Vec<NamedRule>,
}

impl Model for NamedRules {
    ghost use Rattle.std.specs.Prelude.{List};
    ghost use Rattle.dlk_kernel.specs.declared.named_rules.NamedRule.{NamedRule};

    ghost Value = { List NamedRule };

    ghost view = { λ a. a.all.items };
}

/// The row of the axiomatic rule of this name, made now. `None` comes exactly where no such rule has the name.
fn make_row<S: Store>(alloc: Global, store: &mut S, name: &Name) -> Result<Option<Row>, StoreFault>
    ensures rule { IfOk result (Finds (λ (r : AxiomaticRule) row. IsRowOf (S.trees store.new) r row) (rule_named name.now)) }
    ensures grows { S.grows store.old store.new }
{
    let Some((premises, conclusion)) = dlk_axioms::axiomatic_rule(alloc, store, name.bytes())?
    else {
        return Ok(None);
    };
    let conclusion = Shared::new(alloc, conclusion)?;
    let leaves = Shared::new(alloc, Listed::new(alloc))?;
    let goals = Goals::of(shared_each(alloc, premises)?);
    Ok(Some(Row {
        conclusion,
        goals,
        leaves,
    }))
}

impl NamedRules {
    /// None so far.
    pub(crate) fn new(alloc: Global) -> NamedRules
        ensures { result ≡ [] }
    {
        NamedRules {
            all: Vec::new(alloc),
        }
    }

    /// The row of the axiomatic rule of this name, exactly if it was named before.
    fn find(&self, name: &Name) -> Option<&Row>
        ensures found { (trees : List Tree) → AreRows trees self.now → MatchOption result (Unit {0}) (λ row. IsRowNamed trees name.now row.now) }
        ensures named { IsSome result ↔ IsRuleNamed self.now name.now }
    {
        for named in &self.all {
            if named.name.bytes() == name.bytes() {
                return Some(&named.row);
            }
        }
        None
    }

    /// The row of the axiomatic rule of this name: made before and shared, or made now. `None` comes exactly where no such rule has the
    /// name.
    ///
    /// A name that is there already changes neither the store nor the table; one whose row is made now is there from then on, and none
    /// is ever lost.
    pub(crate) fn row<S: Store>(
        &mut self,
        alloc: Global,
        store: &mut S,
        name: &Name,
    ) -> Result<Option<Row>, StoreFault>
        requires { AreRows (S.trees store.old) self.old }
        ensures rule { IfOk result (Finds (λ (r : AxiomaticRule) row. IsRowOf (S.trees store.new) r row) (rule_named name.now)) }
        ensures named { AreRows (S.trees store.new) self.new }
        ensures once { IsRuleNamed self.old name.now → store.new ≡ store.old }
        ensures same { IsRuleNamed self.old name.now → self.new ≡ self.old }
        ensures put { IfOk result (λ found. IsSome found → IsRuleNamed self.new name.now) }
        ensures kept { (other : List ℕ) → IsRuleNamed self.old other → IsRuleNamed self.new other }
        ensures grows { S.grows store.old store.new }
    {
        if let Some(row) = self.find(name) {
            return Ok(Some(row.share(alloc)?));
        }
        let Some(row) = make_row(alloc, store, name)? else {
            return Ok(None);
        };
        let name = name.clone()?;
        let kept = row.share(alloc)?;
        self.all.push(NamedRule { name, row: kept })?;
        Ok(Some(row))
    }
}
