//! Arguments in place of argument dots.
ghost use Rattle.std.specs.Prelude.{◌≡◌, ◌≤◌, ◌↔◌, IsTrue, IfOk, All, length, Err};
ghost use Rattle.dlk_tree.specs.Table.{Fits};
ghost use Rattle.dlk_tree.specs.Trees.{root};
ghost use Rattle.dlk_tree.specs.Statics.{free};
ghost use Rattle.dlk_tree.specs.Occurs.{any_has, is_dot};
ghost use Rattle.dlk_store.specs.Stores.{IsId, tree, kid_trees, sorts_at};
ghost use Rattle.dlk_calculus.specs.Captures.{AreApart, Stays};
ghost use Rattle.dlk_calculus.specs.Plug.{IsClear, PlugAt};
ghost use Rattle.dlk_subst.specs.Results.{IsResult, HasNone, args_at};
ghost use Rattle.dlk_subst.specs.Scopes.{scope_set, IsKnownScope, captures_of, scope_by, reach_by};
ghost use Rattle.dlk_subst.specs.DotEffects.{dot_effect_of};
ghost use Rattle.dlk_sequent.specs.declared.fault.ApplyFault.TheVariants.{NotAdmissible};

use crate::scope::{Captures, Scope, captures_of, is_apart};
use dlk_sequent::ApplyFault;
use dlk_store::{Id, Store};
use dlk_tree::Op;
use std::alloc::{AllocError, Global};

/// Whether the dot stands in one of the trees.
fn any_has_dot<S: Store>(store: &S, kids: &[Id], n: u8) -> bool
    requires { All (IsId (S.trees store.now)) kids.now }
    ensures { result ≡ any_has (is_dot n) (kid_trees (S.trees store.now) kids.now) }
{
    for kid in kids {
        if store.has_dot(*kid, n) {
            return true;
        }
    }
    false
}

/// Whether no variable of the scope is free in the argument, if its dot stands in the kids.
fn is_safe<S: Store>(store: &S, arg: Id, n: u8, scope: &Scope, kids: &[Id]) -> bool
    requires arg { IsId (S.trees store.now) arg }
    requires scope { IsKnownScope (S.trees store.now) scope.now }
    requires kids { All (IsId (S.trees store.now)) kids.now }
    ensures { IsTrue result ↔ (IsTrue (any_has (is_dot n) (kid_trees (S.trees store.now) kids.now)) →
        AreApart (scope_set (S.trees store.now) scope.now) (free (tree (S.trees store.now) arg))) }
{
    is_apart(store, scope, arg) || !any_has_dot(store, kids, n)
}

/// Whether no variable of the scope is free in an argument whose dot stands in the kids. Where the scope is nothing, no argument is
/// looked at.
pub fn is_clear<S: Store>(store: &S, args: &[Id], scope: &Scope, kids: &[Id]) -> bool
    requires few { length args.now ≤ 8 }
    requires args { All (IsId (S.trees store.now)) args.now }
    requires scope { IsKnownScope (S.trees store.now) scope.now }
    requires kids { All (IsId (S.trees store.now)) kids.now }
    ensures { IsTrue result ↔
        IsClear (args_at (S.trees store.now) args.now) (scope_set (S.trees store.now) scope.now) (kid_trees (S.trees store.now) kids.now) }
{
    if matches!(scope, Scope::Nothing) {
        return true;
    }
    let mut n: u8 = 0;
    for arg in args {
        if !is_safe(store, *arg, n, scope, kids) {
            return false;
        }
        n += 1;
    }
    true
}

/// Whether what is captured, where `made` is the node over the new kids, has no variable of an argument whose dot stands in those kids
/// of before in which it is captured.
fn clears<S: Store>(
    store: &S,
    args: &[Id],
    captures: Captures,
    made: Id,
    old: &[Id],
    new: &[Id],
) -> bool
    requires few { length args.now ≤ 8 }
    requires args { All (IsId (S.trees store.now)) args.now }
    requires scope { IsKnownScope (S.trees store.now) (scope_by captures new.now made) }
    requires kids { All (IsId (S.trees store.now)) (reach_by captures old.now) }
    ensures { IsTrue result ↔ IsClear (args_at (S.trees store.now) args.now) (scope_set (S.trees store.now) (scope_by captures new.now made))
        (kid_trees (S.trees store.now) (reach_by captures old.now)) }
{
    let reached = captures.reach(old);
    let scope = captures.scope(new, made);
    is_clear(store, args, &scope, reached)
}

/// The operator over new kids, where it captures no variable of an argument.
fn keep_clear<S: Store>(
    alloc: Global,
    store: &mut S,
    args: &[Id],
    op: &Op,
    old: &[Id],
    new: &[Id],
) -> Result<Id, ApplyFault>
    requires few { length args.now ≤ 8 }
    requires args { All (IsId (S.trees store.old)) args.now }
    requires old { All (IsId (S.trees store.old)) old.now }
    requires new { All (IsId (S.trees store.old)) new.now }
    requires fits { Fits op.now (sorts_at (S.trees store.old) new.now) }
    ensures ok { IfOk result (IsResult (Stays (IsClear (args_at (S.trees store.old) args.now)) op.now (kid_trees (S.trees store.old) old.now)
        (kid_trees (S.trees store.old) new.now)) (S.trees store.new)) }
    ensures none { result ≡ Err NotAdmissible → HasNone (Stays (IsClear (args_at (S.trees store.old) args.now)) op.now (kid_trees (S.trees store.old) old.now)
        (kid_trees (S.trees store.old) new.now)) }
    ensures grows { S.grows store.old store.new }
{
    let made = store.make(alloc, op.clone()?, new)?;
    let captures = captures_of(op)?;
    if clears(store, args, captures, made, old, new) {
        Ok(made)
    } else {
        Err(ApplyFault::NotAdmissible)
    }
}

/// The node `like` over new kids, where its operator captures no variable of an argument.
fn keep_clear_like<S: Store>(
    alloc: Global,
    store: &mut S,
    args: &[Id],
    like: Id,
    captures: Captures,
    old: &[Id],
    new: &[Id],
) -> Result<Id, ApplyFault>
    requires few { length args.now ≤ 8 }
    requires args { All (IsId (S.trees store.old)) args.now }
    requires like { IsId (S.trees store.old) like }
    requires captures { captures ≡ captures_of (root (tree (S.trees store.old) like)) }
    requires old { All (IsId (S.trees store.old)) old.now }
    requires new { All (IsId (S.trees store.old)) new.now }
    requires fits { Fits (root (tree (S.trees store.old) like)) (sorts_at (S.trees store.old) new.now) }
    ensures ok { IfOk result (IsResult (Stays (IsClear (args_at (S.trees store.old) args.now)) (root (tree (S.trees store.old) like))
        (kid_trees (S.trees store.old) old.now) (kid_trees (S.trees store.old) new.now)) (S.trees store.new)) }
    ensures none { result ≡ Err NotAdmissible → HasNone (Stays (IsClear (args_at (S.trees store.old) args.now)) (root (tree (S.trees store.old) like))
        (kid_trees (S.trees store.old) old.now) (kid_trees (S.trees store.old) new.now)) }
    ensures grows { S.grows store.old store.new }
{
    let made = store.make_like(alloc, like, new)?;
    if clears(store, args, captures, made, old, new) {
        Ok(made)
    } else {
        Err(ApplyFault::NotAdmissible)
    }
}

/// The argument in place of a dot, or the operator over new kids.
pub fn plug_at<S: Store>(
    alloc: Global,
    store: &mut S,
    args: &[Id],
    op: &Op,
    old: &[Id],
    new: &[Id],
) -> Result<Id, ApplyFault>
    requires few { length args.now ≤ 8 }
    requires args { All (IsId (S.trees store.old)) args.now }
    requires old { All (IsId (S.trees store.old)) old.now }
    requires new { All (IsId (S.trees store.old)) new.now }
    requires fits { Fits op.now (sorts_at (S.trees store.old) new.now) }
    ensures ok { IfOk result (IsResult (PlugAt (args_at (S.trees store.old) args.now) op.now (kid_trees (S.trees store.old) old.now)
        (kid_trees (S.trees store.old) new.now)) (S.trees store.new)) }
    ensures none { result ≡ Err NotAdmissible →
        HasNone (PlugAt (args_at (S.trees store.old) args.now) op.now (kid_trees (S.trees store.old) old.now) (kid_trees (S.trees store.old) new.now)) }
    ensures grows { S.grows store.old store.new }
{
    let Op::Dot(n) = op else {
        return keep_clear(alloc, store, args, op, old, new);
    };
    match args.get(usize::from(*n)) {
        Some(arg) => Ok(*arg),
        None => Err(ApplyFault::NotAdmissible),
    }
}

/// What plugging does at an operator.
#[derive(Drop)]
pub enum DotEffect {
    /// The argument of this number stands in its place.
    Gives(u8),
    /// The operator stays over its new kids, and captures this.
    Stays(Captures),
}

/// What plugging does at the operator.
pub fn dot_effect_at(op: &Op) -> Result<DotEffect, AllocError>
    ensures { IfOk result (λ p. p ≡ dot_effect_of op.now) }
{
    match op {
        Op::Dot(n) => Ok(DotEffect::Gives(*n)),
        other => Ok(DotEffect::Stays(captures_of(other)?)),
    }
}

/// The argument in place of a dot `like`, or the node `like` over new kids.
pub fn plug_like<S: Store>(
    alloc: Global,
    store: &mut S,
    args: &[Id],
    like: Id,
    effect: DotEffect,
    old: &[Id],
    new: &[Id],
) -> Result<Id, ApplyFault>
    requires few { length args.now ≤ 8 }
    requires args { All (IsId (S.trees store.old)) args.now }
    requires like { IsId (S.trees store.old) like }
    requires effect { effect ≡ dot_effect_of (root (tree (S.trees store.old) like)) }
    requires old { All (IsId (S.trees store.old)) old.now }
    requires new { All (IsId (S.trees store.old)) new.now }
    requires fits { Fits (root (tree (S.trees store.old) like)) (sorts_at (S.trees store.old) new.now) }
    ensures ok { IfOk result (IsResult (PlugAt (args_at (S.trees store.old) args.now) (root (tree (S.trees store.old) like))
        (kid_trees (S.trees store.old) old.now) (kid_trees (S.trees store.old) new.now)) (S.trees store.new)) }
    ensures none { result ≡ Err NotAdmissible → HasNone (PlugAt (args_at (S.trees store.old) args.now) (root (tree (S.trees store.old) like))
        (kid_trees (S.trees store.old) old.now) (kid_trees (S.trees store.old) new.now)) }
    ensures grows { S.grows store.old store.new }
{
    match effect {
        DotEffect::Gives(n) => match args.get(usize::from(n)) {
            Some(arg) => Ok(*arg),
            None => Err(ApplyFault::NotAdmissible),
        },
        DotEffect::Stays(captures) => {
            keep_clear_like(alloc, store, args, like, captures, old, new)
        }
    }
}
