//! The pairs of a substitution: what it does at an operator, and what is admissible.
ghost use Rattle.std.specs.Prelude.{◌≡◌, ◌↔◌, ◌&&◌, IsTrue, IfOk, All, Err};
ghost use Rattle.dlk_tree.specs.Table.{kind_row, Fits};
ghost use Rattle.dlk_tree.specs.Trees.{root};
ghost use Rattle.dlk_tree.specs.Statics.{free};
ghost use Rattle.dlk_tree.specs.Occurs.{any_has, has_symbol};
ghost use Rattle.dlk_store.specs.Stores.{IsId, tree, kid_trees, sorts_at};
ghost use Rattle.dlk_calculus.specs.Captures.{AreApart, Stays};
ghost use Rattle.dlk_calculus.specs.Subst.{IsAdmissible};
ghost use Rattle.dlk_sequent.specs.Substitutions.{pairs_at, AreKnownPairs};
ghost use Rattle.dlk_subst.specs.Results.{IsResult, HasNone};
ghost use Rattle.dlk_subst.specs.Scopes.{scope_set, IsKnownScope, captures_of, scope_by, reach_by};
ghost use Rattle.dlk_subst.specs.Effects.{found, effect_of};
ghost use Rattle.dlk_sequent.specs.declared.fault.ApplyFault.TheVariants.{NotAdmissible};

use crate::scope::{Captures, Scope, captures_of, is_apart};
use dlk_sequent::{ApplyFault, Pair};
use dlk_store::{Id, Store};
use dlk_tree::{Op, Sym, kind_row, same_sym};
use std::alloc::Global;

/// What a substitution does at an operator.
#[derive(Clone, Copy, Debug)]
pub enum Effect {
    /// The replacement stands in its place.
    Gives(Id),
    /// The replacement does, with the kids in place of its dots.
    Plugs(Id),
    /// The replacement does, with the kid in place of its `_`.
    Fills(Id),
    /// The operator stays over its new kids.
    Stays,
}

/// What replaces the symbol.
pub(crate) fn find(pairs: &[Pair], s: &Sym) -> Option<Id>
    ensures { result ≡ found pairs.now s.now }
{
    for pair in pairs {
        if same_sym(s, &pair.sym) {
            return Some(pair.by);
        }
    }
    None
}

/// What the substitution does at the operator. It is no system: those are for `splice`.
pub fn effect_at(pairs: &[Pair], op: &Op) -> Effect
    ensures { result ≡ effect_of pairs.now op.now }
{
    match op {
        Op::UnitFun(s) | Op::UnitPred(s) | Op::Const(s) => {
            find(pairs, s).map_or(Effect::Stays, Effect::Gives)
        }
        Op::Apply(s) | Op::Holds(s) => find(pairs, s).map_or(Effect::Stays, Effect::Plugs),
        Op::Predicational(s) => find(pairs, s).map_or(Effect::Stays, Effect::Fills),
        _ => Effect::Stays,
    }
}

/// Whether the symbol occurs in one of the trees.
fn any_mentions<S: Store>(store: &S, kids: &[Id], s: &Sym) -> bool
    requires { All (IsId (S.trees store.now)) kids.now }
    ensures { result ≡ any_has (has_symbol s.now) (kid_trees (S.trees store.now) kids.now) }
{
    for kid in kids {
        if store.mentions(*kid, s) {
            return true;
        }
    }
    false
}

/// Whether no variable of the scope is free in the replacement, if its symbol takes arguments and occurs in the kids.
fn is_safe<S: Store>(store: &S, pair: &Pair, scope: &Scope, kids: &[Id]) -> bool
    requires by { IsId (S.trees store.now) pair.now.by }
    requires scope { IsKnownScope (S.trees store.now) scope.now }
    requires kids { All (IsId (S.trees store.now)) kids.now }
    ensures { IsTrue result ↔ (IsTrue ((kind_row pair.now.sym.kind).arguments && any_has (has_symbol pair.now.sym) (kid_trees (S.trees store.now) kids.now)) →
        AreApart (scope_set (S.trees store.now) scope.now) (free (tree (S.trees store.now) pair.now.by))) }
{
    !kind_row(pair.sym.kind).arguments
        || is_apart(store, scope, pair.by)
        || !any_mentions(store, kids, &pair.sym)
}

/// Whether no variable of the scope is free in the replacement of a function or predicate that occurs in the kids. Where the scope
/// is nothing, no pair is looked at.
pub fn is_admissible<S: Store>(store: &S, pairs: &[Pair], scope: &Scope, kids: &[Id]) -> bool
    requires pairs { AreKnownPairs (S.trees store.now) pairs.now }
    requires scope { IsKnownScope (S.trees store.now) scope.now }
    requires kids { All (IsId (S.trees store.now)) kids.now }
    ensures { IsTrue result ↔
        IsAdmissible (pairs_at (S.trees store.now) pairs.now) (scope_set (S.trees store.now) scope.now) (kid_trees (S.trees store.now) kids.now) }
{
    if matches!(scope, Scope::Nothing) {
        return true;
    }
    for pair in pairs {
        if !is_safe(store, pair, scope, kids) {
            return false;
        }
    }
    true
}

/// Whether what is captured, where `made` is the node over the new kids, is admissible for those kids of before in which it is captured.
fn admits<S: Store>(
    store: &S,
    pairs: &[Pair],
    captures: Captures,
    made: Id,
    old: &[Id],
    new: &[Id],
) -> bool
    requires pairs { AreKnownPairs (S.trees store.now) pairs.now }
    requires scope { IsKnownScope (S.trees store.now) (scope_by captures new.now made) }
    requires kids { All (IsId (S.trees store.now)) (reach_by captures old.now) }
    ensures { IsTrue result ↔ IsAdmissible (pairs_at (S.trees store.now) pairs.now) (scope_set (S.trees store.now) (scope_by captures new.now made))
        (kid_trees (S.trees store.now) (reach_by captures old.now)) }
{
    let reached = captures.reach(old);
    let scope = captures.scope(new, made);
    is_admissible(store, pairs, &scope, reached)
}

/// The operator over new kids, where what it captures is admissible for those kids of before in which it is captured.
pub fn keep_admissible<S: Store>(
    alloc: Global,
    store: &mut S,
    pairs: &[Pair],
    op: &Op,
    old: &[Id],
    new: &[Id],
) -> Result<Id, ApplyFault>
    requires pairs { AreKnownPairs (S.trees store.old) pairs.now }
    requires old { All (IsId (S.trees store.old)) old.now }
    requires new { All (IsId (S.trees store.old)) new.now }
    requires fits { Fits op.now (sorts_at (S.trees store.old) new.now) }
    ensures ok { IfOk result (IsResult (Stays (IsAdmissible (pairs_at (S.trees store.old) pairs.now)) op.now (kid_trees (S.trees store.old) old.now)
        (kid_trees (S.trees store.old) new.now)) (S.trees store.new)) }
    ensures none { result ≡ Err NotAdmissible → HasNone (Stays (IsAdmissible (pairs_at (S.trees store.old) pairs.now)) op.now
        (kid_trees (S.trees store.old) old.now) (kid_trees (S.trees store.old) new.now)) }
    ensures grows { S.grows store.old store.new }
{
    let made = store.make(alloc, op.clone()?, new)?;
    let captures = captures_of(op)?;
    if admits(store, pairs, captures, made, old, new) {
        Ok(made)
    } else {
        Err(ApplyFault::NotAdmissible)
    }
}

/// The node `like` over new kids, where what its operator captures is admissible for those kids of before in which it is captured.
pub fn keep_like<S: Store>(
    alloc: Global,
    store: &mut S,
    pairs: &[Pair],
    like: Id,
    captures: Captures,
    old: &[Id],
    new: &[Id],
) -> Result<Id, ApplyFault>
    requires pairs { AreKnownPairs (S.trees store.old) pairs.now }
    requires like { IsId (S.trees store.old) like }
    requires captures { captures ≡ captures_of (root (tree (S.trees store.old) like)) }
    requires old { All (IsId (S.trees store.old)) old.now }
    requires new { All (IsId (S.trees store.old)) new.now }
    requires fits { Fits (root (tree (S.trees store.old) like)) (sorts_at (S.trees store.old) new.now) }
    ensures ok { IfOk result (IsResult (Stays (IsAdmissible (pairs_at (S.trees store.old) pairs.now)) (root (tree (S.trees store.old) like))
        (kid_trees (S.trees store.old) old.now) (kid_trees (S.trees store.old) new.now)) (S.trees store.new)) }
    ensures none { result ≡ Err NotAdmissible → HasNone (Stays (IsAdmissible (pairs_at (S.trees store.old) pairs.now)) (root (tree (S.trees store.old) like))
        (kid_trees (S.trees store.old) old.now) (kid_trees (S.trees store.old) new.now)) }
    ensures grows { S.grows store.old store.new }
{
    let made = store.make_like(alloc, like, new)?;
    if admits(store, pairs, captures, made, old, new) {
        Ok(made)
    } else {
        Err(ApplyFault::NotAdmissible)
    }
}
