//! Which trees of a store have a derivative.
ghost use Rattle.std.specs.Prelude.{◌≡◌, ◌+◌, ◌*◌, ◌≤◌, ◌↔◌, All, IsTrue};
ghost use Rattle.dlk_tree.specs.Trees.{Tree, size, size_all};
ghost use Rattle.dlk_store.specs.Stores.{IsId, tree, kid_trees};
ghost use Rattle.dlk_calculus.specs.Kids.{last};
ghost use Rattle.dlk_derive.specs.Derivative.{IsDerivative};
ghost use Rattle.dlk_derive.specs.Decided.{is_exponent, joins_terms, is_derivable, are_derivable, joins_formulas, is_derivable_formula, are_derivable_formulas};

use dlk_sequent::is_comparison;
use dlk_store::{Id, Steps, Store};
use dlk_tree::Op;
use std::sync::ledger::Ledger;

/// Whether the tree is a number other than 0, as a literal.
fn is_exponent<S: Store, L: Ledger>(store: &S, id: Id, steps: &mut Steps<L>) -> bool
    requires { IsId (S.trees store.now) id }
    ensures value { result ≡ is_exponent (tree (S.trees store.now) id) }
    ensures cost { steps.new ≤ steps.old + 1 }
{
    match store.look(id, steps).op {
        Op::Number(n) => n.digits != 0,
        _ => false,
    }
}

/// Whether the last of these trees is.
fn ends_in_exponent<S: Store, L: Ledger>(store: &S, ids: &[Id], steps: &mut Steps<L>) -> bool
    requires { All (IsId (S.trees store.now)) ids.now }
    ensures value { result ≡ is_exponent (last (kid_trees (S.trees store.now) ids.now)) }
    ensures cost { steps.new ≤ steps.old + 1 }
{
    let Some(id) = ids.last() else {
        return false;
    };
    is_exponent(store, *id, steps)
}

/// Whether a term with this operator over these kids has a derivative, where each kid has one.
fn joins_terms<S: Store, L: Ledger>(store: &S, op: &Op, kids: &[Id], steps: &mut Steps<L>) -> bool
    requires { All (IsId (S.trees store.now)) kids.now }
    ensures value { result ≡ joins_terms op.now (kid_trees (S.trees store.now) kids.now) }
    ensures cost { steps.new ≤ steps.old + 1 }
{
    match op {
        Op::Variable(v) => !v.primed,
        Op::Number(_) | Op::Neg | Op::Add | Op::Sub | Op::Mul => true,
        Op::Apply(_) => kids.is_empty(),
        Op::Pow => ends_in_exponent(store, kids, steps),
        _ => false,
    }
}

/// Whether the tree is a term that has a derivative.
fn is_derivable<S: Store, L: Ledger>(store: &S, id: Id, steps: &mut Steps<L>) -> bool
    requires { IsId (S.trees store.now) id }
    ensures value { result ≡ is_derivable (tree (S.trees store.now) id) }
    ensures cost { steps.new ≤ steps.old + 2 * size (tree (S.trees store.now) id) }
{
    let node = store.look(id, steps);
    if !joins_terms(store, node.op, node.kids, steps) {
        return false;
    }
    for kid in node.kids {
        if !is_derivable(store, *kid, steps) {
            return false;
        }
    }
    true
}

/// Whether each of the trees is.
fn are_derivable<S: Store, L: Ledger>(store: &S, ids: &[Id], steps: &mut Steps<L>) -> bool
    requires { All (IsId (S.trees store.now)) ids.now }
    ensures value { result ≡ are_derivable (kid_trees (S.trees store.now) ids.now) }
    ensures cost { steps.new ≤ steps.old + 2 * size_all (kid_trees (S.trees store.now) ids.now) }
{
    for id in ids {
        if !is_derivable(store, *id, steps) {
            return false;
        }
    }
    true
}

/// Whether a formula with this operator has a derivative, where each kid has one.
fn joins_formulas(op: &Op) -> bool
    ensures { result ≡ joins_formulas op.now }
{
    matches!(op, Op::And | Op::Or | Op::Forall(_))
}

/// Whether the tree is a formula that has a derivative.
fn is_derivable_formula<S: Store, L: Ledger>(store: &S, id: Id, steps: &mut Steps<L>) -> bool
    requires { IsId (S.trees store.now) id }
    ensures value { result ≡ is_derivable_formula (tree (S.trees store.now) id) }
    ensures cost { steps.new ≤ steps.old + 2 * size (tree (S.trees store.now) id) }
{
    let node = store.look(id, steps);
    if is_comparison(node.op) {
        return are_derivable(store, node.kids, steps);
    }
    if !joins_formulas(node.op) {
        return false;
    }
    for kid in node.kids {
        if !is_derivable_formula(store, *kid, steps) {
            return false;
        }
    }
    true
}

/// Whether each of the trees is.
fn are_derivable_formulas<S: Store, L: Ledger>(store: &S, ids: &[Id], steps: &mut Steps<L>) -> bool
    requires { All (IsId (S.trees store.now)) ids.now }
    ensures value { result ≡ are_derivable_formulas (kid_trees (S.trees store.now) ids.now) }
    ensures cost { steps.new ≤ steps.old + 2 * size_all (kid_trees (S.trees store.now) ids.now) }
{
    for id in ids {
        if !is_derivable_formula(store, *id, steps) {
            return false;
        }
    }
    true
}

/// Whether the tree is a `( )'` that stands for a derivative.
pub(crate) fn has_derivative<S: Store, L: Ledger>(store: &S, id: Id, steps: &mut Steps<L>) -> bool
    requires { IsId (S.trees store.now) id }
    ensures value { IsTrue result ↔ ((d : Tree) × IsDerivative (tree (S.trees store.now) id) d) }
    ensures cost { steps.new ≤ steps.old + 2 * size (tree (S.trees store.now) id) }
{
    let node = store.look(id, steps);
    match node.op {
        Op::Diff => are_derivable(store, node.kids, steps),
        Op::DiffF => are_derivable_formulas(store, node.kids, steps),
        _ => false,
    }
}
