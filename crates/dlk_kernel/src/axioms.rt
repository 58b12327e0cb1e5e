//! The axioms that were named before: the formula of each is made once.
ghost use Rattle.std.specs.Prelude.{◌≡◌, ◌↔◌, [], ℕ, List, IsSome, IfOk};
ghost use Rattle.std.specs.Option.{IsSomeAnd};
ghost use Rattle.dlk_tree.specs.Trees.{Tree};
ghost use Rattle.dlk_calculus.specs.Axioms.{Axiom, axiom_named};
ghost use Rattle.dlk_store.specs.Stores.{StandsFor};
ghost use Rattle.dlk_axioms.specs.Answers.{Finds};
ghost use Rattle.dlk_kernel.specs.Named.{IsFormulaOf, AreFormulas, IsNamed};

use dlk_store::{Id, Store, StoreFault};
use dlk_tree::Name;
use std::alloc::Global;
use std::marker::Model;

/// An axiom's name, and an id of its formula.
#[derive(Drop, Debug)]
pub(crate) struct NamedFormula {
    name: Name,
    formula: Id,
}

/// The axioms that were named so far. Contracts see their list.
#[derive(Drop, Debug)]
pub(crate) struct NamedAxioms {
    all: Vec<NamedFormula>,
}

impl Model for NamedAxioms {
    ghost use Rattle.std.specs.Prelude.{List};
    ghost use Rattle.dlk_kernel.specs.declared.axioms.NamedFormula.{NamedFormula};

    ghost Value = { List NamedFormula };

    ghost view = { λ a. a.all.items };
}

impl NamedAxioms {
    /// None so far.
    pub(crate) fn new(alloc: Global) -> NamedAxioms
        ensures { result ≡ [] }
    {
        NamedAxioms {
            all: Vec::new(alloc),
        }
    }

    /// The formula of the axiom of this name, exactly if it was named before.
    fn find(&self, name: &Name) -> Option<Id>
        ensures found { (trees : List Tree) → AreFormulas trees self.now → (id : Id) → result ≡ Some id → IsFormulaOf trees name.now id }
        ensures named { IsSome result ↔ IsNamed self.now name.now }
    {
        for named in &self.all {
            if named.name.bytes() == name.bytes() {
                return Some(named.formula);
            }
        }
        None
    }

    /// The formula of the axiom of this name: made before, or made now. `None` comes exactly where no axiom has the name.
    ///
    /// A name that is there already changes neither the store nor the table; one whose formula is made now is there from then on, and
    /// none is ever lost.
    pub(crate) fn formula<S: Store>(
        &mut self,
        alloc: Global,
        store: &mut S,
        name: &Name,
    ) -> Result<Option<Id>, StoreFault>
        requires { AreFormulas (S.trees store.old) self.old }
        ensures axiom { IfOk result (Finds (λ (a : Axiom) id. StandsFor (S.trees store.new) id a.formula) (axiom_named name.now)) }
        ensures named { AreFormulas (S.trees store.new) self.new }
        ensures once { IsNamed self.old name.now → store.new ≡ store.old }
        ensures same { IsNamed self.old name.now → self.new ≡ self.old }
        ensures put { IfOk result (λ found. IsSome found → IsNamed self.new name.now) }
        ensures kept { (other : List ℕ) → IsNamed self.old other → IsNamed self.new other }
        ensures grows { S.grows store.old store.new }
    {
        if let Some(formula) = self.find(name) {
            return Ok(Some(formula));
        }
        let Some(formula) = dlk_axioms::axiom(alloc, store, name.bytes())? else {
            return Ok(None);
        };
        let name = name.clone()?;
        self.all.push(NamedFormula { name, formula })?;
        Ok(Some(formula))
    }
}
