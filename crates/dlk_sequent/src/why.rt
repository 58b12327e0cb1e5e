//! What speaks against a pair of a substitution: a function for each reason, and one for the first that applies.
ghost use Rattle.std.specs.Prelude.{◌≡◌, ◌+◌, ◌≤◌, ◌&&◌, not, All, List, IfOk};
ghost use Rattle.std.specs.List.{list_any};
ghost use Rattle.dlk_tree.specs.Tests.{sym_eq};
ghost use Rattle.dlk_tree.specs.Table.{kind_row};
ghost use Rattle.dlk_tree.specs.Trees.{node, root};
ghost use Rattle.dlk_tree.specs.Occurs.{has, has_hole};
ghost use Rattle.dlk_store.specs.Stores.{IsId, tree, kid_trees};
ghost use Rattle.dlk_calculus.specs.Kids.{last};
ghost use Rattle.dlk_calculus.specs.Pairs.{Pair as TreePair, is_true, is_system_without_domain, is_of_kind, is_dot_from, touched, has_taboo, why};
ghost use Rattle.dlk_sequent.specs.Substitutions.{pair_at};

use crate::subst::Pair;
use dlk_calculus::Why;
use dlk_store::{Id, Steps, Store};
use dlk_tree::{Kind, Op, Sym, Var, kind_row, sort_of};
use std::alloc::AllocError;
use std::sync::ledger::Ledger;

/// Whether the last of these kids of a system, its domain, is `true`.
fn ends_in_true<S: Store, L: Ledger>(store: &S, kids: &[Id], steps: &mut Steps<L>) -> bool
    requires { All (IsId (S.trees store.now)) kids.now }
    ensures value { result ≡ is_true (root (last (kid_trees (S.trees store.now) kids.now))) }
    ensures cost { steps.new ≤ steps.old + 1 }
{
    match kids.last() {
        Some(domain) => matches!(store.look(*domain, steps).op, Op::True),
        None => true,
    }
}

/// Whether the operator over these kids is a system whose domain is `true`.
fn is_system_without_domain<S: Store, L: Ledger>(
    store: &S,
    op: &Op,
    kids: &[Id],
    steps: &mut Steps<L>,
) -> bool
    requires { All (IsId (S.trees store.now)) kids.now }
    ensures value { result ≡ is_system_without_domain (node op.now (kid_trees (S.trees store.now) kids.now)) }
    ensures cost { steps.new ≤ steps.old + 1 }
{
    matches!(op, Op::System(_)) && ends_in_true(store, kids, steps)
}

/// Whether the tree is of the sort of a symbol of this kind. For an ODE constant it is to be a system whose domain is `true`.
fn is_of_kind<S: Store, L: Ledger>(store: &S, kind: Kind, id: Id, steps: &mut Steps<L>) -> bool
    requires { IsId (S.trees store.now) id }
    ensures value { result ≡ is_of_kind kind (tree (S.trees store.now) id) }
    ensures cost { steps.new ≤ steps.old + 2 }
{
    let node = store.look(id, steps);
    if kind == Kind::Ode && !is_system_without_domain(store, node.op, node.kids, steps) {
        return false;
    }
    sort_of(node.op) == kind_row(kind).sort
}

/// Whether an argument dot stands in the tree that isn't below the arity. No tree has a dot past 7.
pub(crate) fn has_dot_from<S: Store>(store: &S, arity: u8, id: Id) -> bool
    requires { IsId (S.trees store.now) id }
    ensures { result ≡ has (is_dot_from arity) (tree (S.trees store.now) id) }
{
    for n in arity..8 {
        if store.has_dot(id, n) {
            return true;
        }
    }
    false
}

/// Whether `_` stands in the tree, and a symbol of this kind doesn't allow it.
fn has_stray_hole<S: Store>(store: &S, kind: Kind, id: Id) -> bool
    requires { IsId (S.trees store.now) id }
    ensures { result ≡ (has_hole (tree (S.trees store.now) id) && not (kind_row kind).hole) }
{
    store.has_hole(id) && !kind_row(kind).hole
}

/// Whether the variable is free in the tree, or where the symbol is an ODE constant free or bound.
fn touches<S: Store>(store: &S, kind: Kind, id: Id, v: &Var) -> bool
    requires { IsId (S.trees store.now) id }
    ensures { result ≡ touched kind (tree (S.trees store.now) id) v.now }
{
    store.frees(id, v) || (kind == Kind::Ode && store.binds(id, v))
}

/// Whether the symbol's taboo forbids the tree, by its plain or its primed variable.
fn has_taboo<S: Store>(store: &S, s: &Sym, id: Id) -> Result<bool, AllocError>
    requires { IsId (S.trees store.now) id }
    ensures { IfOk result (λ b. b ≡ has_taboo s.now.taboo (touched s.now.kind (tree (S.trees store.now) id))) }
{
    let Some(y) = &s.taboo else {
        return Ok(false);
    };
    let plain = Var::plain(y.clone()?);
    if touches(store, s.kind, id, &plain) {
        return Ok(true);
    }
    let prime = Var {
        name: plain.name,
        primed: true,
    };
    Ok(touches(store, s.kind, id, &prime))
}

/// The first reason against a pair that stands behind earlier ones, in the order of `Why`. It is told whether one of these has the
/// pair's symbol. It takes at most two steps.
pub(crate) fn why<S: Store, L: Ledger>(
    store: &S,
    twice: bool,
    pair: &Pair,
    steps: &mut Steps<L>,
) -> Result<Option<Why>, AllocError>
    requires { IsId (S.trees store.now) pair.now.by }
    ensures why { (pairs : List TreePair) → twice ≡ list_any (λ (p : TreePair). sym_eq pair.now.sym p.sym) pairs →
        IfOk result (λ w. w ≡ why pairs (pair_at (S.trees store.now) pair.now)) }
    ensures cost { steps.new ≤ steps.old + 2 }
{
    let kind = pair.sym.kind;
    if !is_of_kind(store, kind, pair.by, steps) {
        return Ok(Some(Why::Sort));
    }
    if twice {
        return Ok(Some(Why::Twice));
    }
    if has_dot_from(store, pair.sym.arity, pair.by) {
        return Ok(Some(Why::Dot));
    }
    if has_stray_hole(store, kind, pair.by) {
        return Ok(Some(Why::Hole));
    }
    if has_taboo(store, &pair.sym, pair.by)? {
        return Ok(Some(Why::Taboo));
    }
    Ok(None)
}
