//! What an operator captures.
ghost use Rattle.std.specs.Prelude.{◌≡◌, ◌↔◌, IsTrue, IfOk};
ghost use Rattle.dlk_tree.specs.Statics.{free};
ghost use Rattle.dlk_store.specs.Stores.{IsId, tree};
ghost use Rattle.dlk_calculus.specs.Captures.{AreApart};
ghost use Rattle.dlk_subst.specs.Scopes.{scope_set, IsKnownScope, first_scope, captures_of, scope_by, reach_by};

use dlk_store::{Id, Store};
use dlk_tree::{Op, Var};
use std::alloc::AllocError;

/// A set of variables.
#[derive(Drop)]
pub enum Scope {
    Nothing,
    Every,
    Only(Var),
    /// What the tree binds.
    BoundBy(Id),
}

/// What an operator captures, as far as it tells without its kids.
#[derive(Drop)]
pub enum Captures {
    Nothing,
    Every,
    Only(Var),
    /// What the first kid binds, in the kids behind it.
    FirstInLater,
    /// What the first kid binds, in each kid.
    FirstInAll,
    /// What the node itself binds.
    Itself,
}

/// What the operator captures.
pub fn captures_of(op: &Op) -> Result<Captures, AllocError>
    ensures { IfOk result (λ c. c ≡ captures_of op.now) }
{
    Ok(match op {
        Op::Diff | Op::DiffF | Op::Predicational(_) => Captures::Every,
        Op::Forall(x) | Op::Exists(x) => Captures::Only(Var::plain(x.clone()?)),
        Op::Box | Op::Dia | Op::Seq => Captures::FirstInLater,
        Op::Loop => Captures::FirstInAll,
        Op::System(_) => Captures::Itself,
        _ => Captures::Nothing,
    })
}

fn bound_by_first(new: &[Id]) -> Scope
    ensures { result ≡ first_scope new.now }
{
    match new.first() {
        Some(id) => Scope::BoundBy(*id),
        None => Scope::Nothing,
    }
}

impl Captures {
    /// The variables, where `made` is the operator's node over these kids.
    pub(crate) fn scope(self, new: &[Id], made: Id) -> Scope
        ensures { result ≡ scope_by self new.now made }
    {
        match self {
            Captures::Nothing => Scope::Nothing,
            Captures::Every => Scope::Every,
            Captures::Only(x) => Scope::Only(x),
            Captures::FirstInLater | Captures::FirstInAll => bound_by_first(new),
            Captures::Itself => Scope::BoundBy(made),
        }
    }

    /// The kids in which they are captured.
    pub(crate) fn reach<'a>(&self, old: &'a [Id]) -> &'a [Id]
        ensures { result.now ≡ reach_by self.now old.now }
    {
        match self {
            Captures::FirstInLater => match old.split_first() {
                Some((_, later)) => later,
                None => old,
            },
            _ => old,
        }
    }
}

/// Whether no variable of the scope is free in the tree.
pub(crate) fn is_apart<S: Store>(store: &S, scope: &Scope, id: Id) -> bool
    requires scope { IsKnownScope (S.trees store.now) scope.now }
    requires known { IsId (S.trees store.now) id }
    ensures { IsTrue result ↔ AreApart (scope_set (S.trees store.now) scope.now) (free (tree (S.trees store.now) id)) }
{
    match scope {
        Scope::Nothing => true,
        Scope::Every => !store.any_free(id),
        Scope::Only(x) => !store.frees(id, x),
        Scope::BoundBy(binder) => !store.free_meets_bound(id, *binder),
    }
}
