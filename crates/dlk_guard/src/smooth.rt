//! Smooth terms, and the formulas that are made of their comparisons.
ghost use Rattle.std.specs.Prelude.{◌≡◌, ◌+◌, ◌*◌, ◌≤◌, length, map, All};
ghost use Rattle.dlk_tree.specs.Trees.{size, size_all};
ghost use Rattle.dlk_store.specs.Stores.{IsId, tree, kid_trees};
ghost use Rattle.dlk_calculus.specs.Kids.{last};
ghost use Rattle.dlk_guard.specs.Smooth.{is_constant_op, is_constant, are_constant, is_whole, ends_in_divisor, joins_smooth, is_smooth, are_smooth};
ghost use Rattle.dlk_guard.specs.Smooth.{is_connective, is_smooth_formula};
ghost use Rattle.dlk_guard.specs.Looks.{smooth_looks, smooth_looks_all};

use crate::parts::is_kept_off_zero;
use dlk_sequent::is_comparison;
use dlk_store::{Id, Steps, Store};
use dlk_tree::Op;
use std::sync::ledger::Ledger;

/// Whether a term without variables may have the operator.
fn is_constant_op(op: &Op) -> bool
    ensures { result ≡ is_constant_op op.now }
{
    match op {
        Op::Number(_) | Op::Neg | Op::Add | Op::Sub | Op::Mul | Op::Div | Op::Pow => true,
        Op::Apply(s) => s.arity == 0,
        _ => false,
    }
}

/// Whether the tree is a term without variables: of numbers and functions without arguments.
fn is_constant<S: Store, L: Ledger>(store: &S, id: Id, steps: &mut Steps<L>) -> bool
    requires { IsId (S.trees store.now) id }
    ensures value { result ≡ is_constant (tree (S.trees store.now) id) }
    ensures cost { steps.new ≤ steps.old + size (tree (S.trees store.now) id) }
{
    let node = store.look(id, steps);
    if !is_constant_op(node.op) {
        return false;
    }
    for kid in node.kids {
        if !is_constant(store, *kid, steps) {
            return false;
        }
    }
    true
}

/// Whether each of the trees is.
fn are_constant<S: Store, L: Ledger>(store: &S, ids: &[Id], steps: &mut Steps<L>) -> bool
    requires { All (IsId (S.trees store.now)) ids.now }
    ensures value { result ≡ are_constant (kid_trees (S.trees store.now) ids.now) }
    ensures cost { steps.new ≤ steps.old + size_all (kid_trees (S.trees store.now) ids.now) }
{
    for id in ids {
        if !is_constant(store, *id, steps) {
            return false;
        }
    }
    true
}

/// Whether the last of these trees is a whole number from 0 on, as a literal.
fn ends_in_whole<S: Store, L: Ledger>(store: &S, ids: &[Id], steps: &mut Steps<L>) -> bool
    requires { All (IsId (S.trees store.now)) ids.now }
    ensures value { result ≡ is_whole (last (kid_trees (S.trees store.now) ids.now)) }
    ensures cost { steps.new ≤ steps.old + 1 }
{
    let Some(id) = ids.last() else {
        return false;
    };
    match store.look(*id, steps).op {
        Op::Number(n) => n.scale == 0,
        _ => false,
    }
}

/// Whether one may divide by the last of these trees: it is a term without variables, or the domain keeps it off 0.
fn ends_in_divisor<S: Store, L: Ledger>(
    store: &S,
    domain: &[Id],
    ids: &[Id],
    steps: &mut Steps<L>,
) -> bool
    requires domain { All (IsId (S.trees store.now)) domain.now }
    requires ids { All (IsId (S.trees store.now)) ids.now }
    ensures value { result ≡ ends_in_divisor (map (tree (S.trees store.now)) domain.now) (kid_trees (S.trees store.now) ids.now) }
    ensures cost { steps.new ≤ steps.old + size_all (kid_trees (S.trees store.now) ids.now) + 3 * length domain.now }
{
    let Some(id) = ids.last() else {
        return false;
    };
    is_constant(store, *id, steps) || is_kept_off_zero(store, domain, *id, steps)
}

/// Whether a smooth term may have the operator over these kids, where they are smooth.
fn joins_smooth<S: Store, L: Ledger>(
    store: &S,
    domain: &[Id],
    op: &Op,
    kids: &[Id],
    steps: &mut Steps<L>,
) -> bool
    requires domain { All (IsId (S.trees store.now)) domain.now }
    requires kids { All (IsId (S.trees store.now)) kids.now }
    ensures value { result ≡ joins_smooth (map (tree (S.trees store.now)) domain.now) op.now (kid_trees (S.trees store.now) kids.now) }
    ensures cost { steps.new ≤ steps.old + 1 + size_all (kid_trees (S.trees store.now) kids.now) + 3 * length domain.now }
{
    match op {
        Op::Variable(v) => !v.primed,
        Op::Number(_) | Op::Neg | Op::Add | Op::Sub | Op::Mul => true,
        Op::Apply(s) => s.arity == 0,
        Op::Pow => ends_in_whole(store, kids, steps) || are_constant(store, kids, steps),
        Op::Div => ends_in_divisor(store, domain, kids, steps),
        _ => false,
    }
}

/// Whether the tree is a smooth term over a domain with these parts.
pub(crate) fn is_smooth<S: Store, L: Ledger>(
    store: &S,
    domain: &[Id],
    id: Id,
    steps: &mut Steps<L>,
) -> bool
    requires domain { All (IsId (S.trees store.now)) domain.now }
    requires id { IsId (S.trees store.now) id }
    ensures value { result ≡ is_smooth (map (tree (S.trees store.now)) domain.now) (tree (S.trees store.now) id) }
    ensures cost { steps.new ≤ steps.old + smooth_looks (length domain.now) (tree (S.trees store.now) id) }
{
    let node = store.look(id, steps);
    if !joins_smooth(store, domain, node.op, node.kids, steps) {
        return false;
    }
    for kid in node.kids {
        if !is_smooth(store, domain, *kid, steps) {
            return false;
        }
    }
    true
}

/// Whether each of the trees is.
fn are_smooth<S: Store, L: Ledger>(
    store: &S,
    domain: &[Id],
    ids: &[Id],
    steps: &mut Steps<L>,
) -> bool
    requires domain { All (IsId (S.trees store.now)) domain.now }
    requires ids { All (IsId (S.trees store.now)) ids.now }
    ensures value { result ≡ are_smooth (map (tree (S.trees store.now)) domain.now) (kid_trees (S.trees store.now) ids.now) }
    ensures cost { steps.new ≤ steps.old + smooth_looks_all (length domain.now) (kid_trees (S.trees store.now) ids.now) }
{
    for id in ids {
        if !is_smooth(store, domain, *id, steps) {
            return false;
        }
    }
    true
}

fn is_connective(op: &Op) -> bool
    ensures { result ≡ is_connective op.now }
{
    matches!(
        op,
        Op::True | Op::False | Op::Not | Op::And | Op::Or | Op::Imply | Op::Equiv
    )
}

/// Whether the tree is a formula of connectives over comparisons of smooth terms.
pub(crate) fn is_smooth_formula<S: Store, L: Ledger>(
    store: &S,
    domain: &[Id],
    id: Id,
    steps: &mut Steps<L>,
) -> bool
    requires domain { All (IsId (S.trees store.now)) domain.now }
    requires id { IsId (S.trees store.now) id }
    ensures value { result ≡ is_smooth_formula (map (tree (S.trees store.now)) domain.now) (tree (S.trees store.now) id) }
    ensures cost { steps.new ≤ steps.old + smooth_looks (length domain.now) (tree (S.trees store.now) id) }
{
    let node = store.look(id, steps);
    if is_comparison(node.op) {
        return are_smooth(store, domain, node.kids, steps);
    }
    if !is_connective(node.op) {
        return false;
    }
    for kid in node.kids {
        if !is_smooth_formula(store, domain, *kid, steps) {
            return false;
        }
    }
    true
}
