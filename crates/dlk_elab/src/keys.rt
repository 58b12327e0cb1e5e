//! What is looked for of an axiom, and where it may be used.
ghost use Rattle.std.specs.Prelude.{◌≡◌, None, Err, MatchOption, IfOk, IfErr};
ghost use Rattle.dlk_store.specs.Stores.{IsId, tree, StandsFor};
ghost use Rattle.dlk_calculus.specs.Axioms.{axiom_named};
ghost use Rattle.dlk_uses.specs.Uses.{left_of, right_of, key, may_stand};
ghost use Rattle.dlk_match.specs.Found.{HasNoMatch, IsMatch};
ghost use Rattle.dlk_elab.specs.Atoms.{UnknownName, NoMatch};
ghost use Rattle.dlk_elab.specs.Calls.{direction_of, given_at, GivenIsKnown};
ghost use Rattle.dlk_elab.specs.Ties.{IsTacFault};
ghost use Rattle.dlk_elab.specs.Uses.{HasKids, HasParts, IsAxiomAt, wanted, MayBeUsed};
ghost use Rattle.std.specs.Option.{option_copied};

use crate::calls::{Direction, UseCall};
use crate::fault::TacFault;
use dlk_axioms::{AxiomForm, axiom, form, own_names};
use dlk_match::matching;
use dlk_sequent::{Extra, Listed, Place};
use dlk_store::{Id, Steps, Store};
use dlk_tree::Name;
use dlk_uses::uses_have_shapes;
use std::alloc::Global;
use std::sync::ledger::Ledger;

/// What the tables say of an axiom.
#[derive(Drop, Debug)]
pub(crate) struct Named {
    pub(crate) form: AxiomForm,
    pub(crate) own: Vec<Name>,
    pub(crate) formula: Id,
}

/// The axiom of this name.
///
/// # Errors
///
/// - `UnknownName`: there is none.
/// - `Memory`: for want of memory.
pub(crate) fn named_axiom<S: Store>(
    alloc: Global,
    store: &mut S,
    name: &Name,
) -> Result<Named, TacFault>
    ensures found { IfOk result (IsAxiomAt (S.trees store.new) name.now) }
    ensures fault { IfErr result (IsTacFault (λ why. (why ≡ UnknownName) × (axiom_named name.now ≡ None))) }
    ensures unknown { axiom_named name.now ≡ None → result ≡ Err TacFault.UnknownName }
    ensures grows { S.grows store.old store.new }
{
    let Some(form) = form(name.bytes()) else {
        return Err(TacFault::UnknownName);
    };
    let Some(own) = own_names(alloc, name.bytes())? else {
        return Err(TacFault::UnknownName);
    };
    let Some(formula) = axiom(alloc, store, name.bytes())? else {
        return Err(TacFault::UnknownName);
    };
    Ok(Named { form, own, formula })
}

/// Whether an axiom of this form may be used so.
pub(crate) fn may_stand(form: AxiomForm, direction: Direction, place: Place, path: &[u32]) -> bool
    ensures { result ≡ may_stand form (direction_of direction) place path.now }
{
    let forwards = direction == Direction::Forwards;
    let right = matches!(place, Place::Succ(_));
    match form {
        AxiomForm::E | AxiomForm::Q => true,
        AxiomForm::R => forwards,
        AxiomForm::I => forwards && path.is_empty(),
        AxiomForm::C | AxiomForm::F => forwards && right && path.is_empty(),
    }
}

/// The left part of a formula.
pub(crate) fn left_of<S: Store, L: Ledger>(store: &S, f: Id, steps: &mut Steps<L>) -> Id
    requires known { IsId (S.trees store.now) f }
    requires kids { HasKids (tree (S.trees store.now) f) }
    ensures { StandsFor (S.trees store.now) result (left_of (tree (S.trees store.now) f)) }
{
    store.look(f, steps).kids[0]
}

/// The right part of a formula.
pub(crate) fn right_of<S: Store, L: Ledger>(store: &S, f: Id, steps: &mut Steps<L>) -> Id
    requires known { IsId (S.trees store.now) f }
    requires kids { HasKids (tree (S.trees store.now) f) }
    ensures { StandsFor (S.trees store.now) result (right_of (tree (S.trees store.now) f)) }
{
    let kids = store.look(f, steps).kids;
    kids[kids.len() - 1]
}

/// What is looked for of an axiom with this formula.
pub(crate) fn key<S: Store, L: Ledger>(
    store: &S,
    form: AxiomForm,
    direction: Direction,
    place: Place,
    formula: Id,
    steps: &mut Steps<L>,
) -> Id
    requires known { IsId (S.trees store.now) formula }
    requires parts { HasParts form (tree (S.trees store.now) formula) }
    ensures { StandsFor (S.trees store.now) result (key form (direction_of direction) place (tree (S.trees store.now) formula)) }
{
    match form {
        AxiomForm::E | AxiomForm::Q => match direction {
            Direction::Forwards => left_of(store, formula, steps),
            Direction::Backwards => right_of(store, formula, steps),
        },
        AxiomForm::C | AxiomForm::R => {
            let behind = right_of(store, formula, steps);
            left_of(store, behind, steps)
        }
        AxiomForm::I => match place {
            Place::Succ(_) => right_of(store, formula, steps),
            Place::Ante(_) => left_of(store, formula, steps),
        },
        AxiomForm::F => formula,
    }
}

/// The names and the replacements with which what is looked for of the axiom is the tree that is found.
///
/// # Errors
///
/// - `NoMatch`: there are none, or the axiom may not be used so.
/// - `Memory`: for want of memory.
pub(crate) fn matched<S: Store, L: Ledger>(
    alloc: Global,
    store: &mut S,
    named: &Named,
    used: UseCall<'_>,
    found: Id,
    steps: &mut Steps<L>,
) -> Result<Extra, TacFault>
    requires axiom { IsAxiomAt (S.trees store.old) used.name.now named.now }
    requires given { GivenIsKnown (S.trees store.old) (option_copied used.given) }
    requires found { IsId (S.trees store.old) found }
    ensures may { IfOk result (λ _. MayBeUsed named.now used.entry) }
    ensures matches { IfOk result (IsMatch (wanted (S.trees store.old) named.now used.entry) named.now.own.items (tree (S.trees store.old) found)
        (given_at (S.trees store.old) (option_copied used.entry.given)) (S.trees store.new)) }
    ensures fault { IfErr result (IsTacFault (λ why. (why ≡ NoMatch) × (MayBeUsed named.now used.entry →
        HasNoMatch (wanted (S.trees store.old) named.now used.entry) named.now.own.items (tree (S.trees store.old) found)
        (given_at (S.trees store.old) (option_copied used.entry.given))))) }
    ensures grows { S.grows store.old store.new }
{
    uses_have_shapes();
    if !may_stand(named.form, used.direction, used.place, used.path) {
        return Err(TacFault::NoMatch);
    }
    let none = Extra {
        renames: Listed::new(alloc),
        pairs: Listed::new(alloc),
    };
    let given = used.given.unwrap_or(&none);
    let key = key(
        store,
        named.form,
        used.direction,
        used.place,
        named.formula,
        steps,
    );
    let Some(extra) = matching(alloc, store, key, named.own.as_slice(), found, given, steps)? else {
        return Err(TacFault::NoMatch);
    };
    Ok(extra)
}
