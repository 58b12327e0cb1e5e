//! The axioms.
ghost use Rattle.std.specs.Prelude.{◌≡◌, IfOk};
ghost use Rattle.dlk_calculus.specs.Axioms.{Axiom, axiom_named};
ghost use Rattle.dlk_store.specs.Stores.{StandsFor};
ghost use Rattle.dlk_axioms.specs.Answers.{Finds};

use crate::lookup::axiom_row;
use crate::making::make;
use crate::names::names_of;
use dlk_calculus::AxiomForm;
use dlk_store::{Id, Store, StoreFault};
use dlk_tree::Name;
use std::alloc::Global;

/// The axiom of this name: an id that stands for its formula, and `None` exactly where no axiom has the name. A proof uses the formula
/// as a fact, or an instance of it by uniform substitution (Platzer 2017, section on axioms).
///
/// # Errors
///
/// `Memory` alone. Whatever comes, the store keeps its trees; it may have more nodes then.
pub fn axiom<S: Store>(alloc: Global, store: &mut S, name: &[u8]) -> Result<Option<Id>, StoreFault>
    ensures axiom { IfOk result (Finds (λ (a : Axiom) id. StandsFor (S.trees store.new) id a.formula) (axiom_named name.now)) }
    ensures grows { S.grows store.old store.new }
{
    let Some(row) = axiom_row(name) else {
        return Ok(None);
    };
    let id = make(alloc, row.formula, store)?;
    Ok(Some(id))
}

/// The form of the axiom of this name, which says how it can be used, and `None` exactly where no axiom has the name.
pub fn form(name: &[u8]) -> Option<AxiomForm>
    ensures { Finds (λ (a : Axiom) form. form ≡ a.form) (axiom_named name.now) result }
{
    let row = axiom_row(name)?;
    Some(row.form)
}

/// The names of variables that the axiom of this name brings along, those that end in `_`, in order of their first place in it. `None`
/// comes exactly where no axiom has the name. Where such a name stands in what the axiom is used on, another one has to be put for it
/// first.
///
/// # Errors
///
/// `Memory` alone.
pub fn own_names(alloc: Global, name: &[u8]) -> Result<Option<Vec<Name>>, StoreFault>
    ensures { IfOk result (Finds (λ (a : Axiom) names. names.items ≡ a.own_names) (axiom_named name.now)) }
{
    let Some(row) = axiom_row(name) else {
        return Ok(None);
    };
    let names = names_of(alloc, row.own_names)?;
    Ok(Some(names))
}
