//! Formulas that may stand in a sequent.
ghost use Rattle.std.specs.Prelude.{◌≡◌, ◌↔◌, IsTrue, All, map};
ghost use Rattle.dlk_tree.specs.Occurs.{has_dots};
ghost use Rattle.dlk_store.specs.Stores.{IsId, tree};
ghost use Rattle.dlk_calculus.specs.Sequents.{IsFormula, IsSequent};
ghost use Rattle.dlk_sequent.specs.Sequents.{sequent_at, IsKnown};

use crate::sequent::Sequent;
use crate::why::has_dot_from;
use dlk_store::{Id, Steps, Store};
use dlk_tree::{Sort, sort_of};
use std::sync::ledger::Ledger;

/// Whether an argument dot stands in the tree.
fn has_dots<S: Store>(store: &S, id: Id) -> bool
    requires { IsId (S.trees store.now) id }
    ensures { result ≡ has_dots (tree (S.trees store.now) id) }
{
    has_dot_from(store, 0, id)
}

/// Whether the tree is a formula without argument dots and without `_`, in one step.
pub fn is_formula<S: Store, L: Ledger>(store: &S, id: Id, steps: &mut Steps<L>) -> bool
    requires { IsId (S.trees store.now) id }
    ensures { IsTrue result ↔ IsFormula (tree (S.trees store.now) id) }
{
    sort_of(store.look(id, steps).op) == Sort::Formula
        && !has_dots(store, id)
        && !store.has_hole(id)
}

/// Whether each of the trees is such a formula.
fn are_formulas<S: Store, L: Ledger>(store: &S, ids: &[Id], steps: &mut Steps<L>) -> bool
    requires { All (IsId (S.trees store.now)) ids.now }
    ensures { IsTrue result ↔ All IsFormula (map (tree (S.trees store.now)) ids.now) }
{
    for id in ids {
        if !is_formula(store, *id, steps) {
            return false;
        }
    }
    true
}

/// Whether each formula of the sequent is one without argument dots and without `_`, in a step each.
pub fn is_sequent<S: Store, L: Ledger>(store: &S, s: &Sequent, steps: &mut Steps<L>) -> bool
    requires { IsKnown (S.trees store.now) s.now }
    ensures { IsTrue result ↔ IsSequent (sequent_at (S.trees store.now) s.now) }
{
    are_formulas(store, s.ante.as_slice(), steps) && are_formulas(store, s.succ.as_slice(), steps)
}
