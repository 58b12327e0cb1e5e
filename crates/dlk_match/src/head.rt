//! A node of the key: its operator, and what is left to match.
ghost use Rattle.std.specs.Prelude.{◌≡◌, ◌↔◌, List, None, Some, MatchOption, IfOk, IsTrue, All};
ghost use Rattle.dlk_tree.specs.Trees.{Tree, Forest};
ghost use Rattle.dlk_store.specs.Stores.{IsId, tree, kid_trees};
ghost use Rattle.dlk_sequent.specs.Extras.{extra_at, IsKnownExtra};
ghost use Rattle.dlk_match.specs.Matching.{Application};
ghost use Rattle.dlk_match.specs.Tried.{Tried, name_in, with_name, IsLike, HeadIs, is_other, IsArgument, IsNoArgument, taken};

use crate::abstraction::abstract_var;
use crate::members::match_system;
use crate::taking::{new_name, rename, replace};
use dlk_sequent::Extra;
use dlk_store::{Id, Steps, Store, StoreFault};
use dlk_tree::{Name, Op, Sym, Var, same_op};
use std::alloc::{AllocError, Global};
use std::sync::ledger::Ledger;

/// What is left to match of a node of the key.
#[derive(Drop)]
pub(crate) enum Head {
    /// The node doesn't match.
    Refused,
    /// The node is a symbol's, and its replacement is taken.
    Taken,
    /// The key's kids are to match these.
    Left(Vec<Id>),
}

/// The name of a variable in an operator with one name.
fn name_in(op: &Op) -> Option<&Name>
    ensures { MatchOption result (name_in op.now ≡ None) (λ x. name_in op.now ≡ Some x.now) }
{
    match op {
        Op::Variable(v) | Op::Assign(v) => Some(&v.name),
        Op::Forall(x) | Op::Exists(x) | Op::Any(x) => Some(x),
        _ => None,
    }
}

/// The operator with another name for it.
fn with_name(y: &Name, op: &Op) -> Result<Op, AllocError>
    ensures { IfOk result (λ new. new ≡ with_name y.now op.now) }
{
    let name = y.clone()?;
    Ok(match op {
        Op::Variable(v) => Op::Variable(Var {
            name,
            primed: v.primed,
        }),
        Op::Forall(_) => Op::Forall(name),
        Op::Exists(_) => Op::Exists(name),
        Op::Assign(v) => Op::Assign(Var {
            name,
            primed: v.primed,
        }),
        Op::Any(_) => Op::Any(name),
        other => other.clone()?,
    })
}

/// Whether the target's operator is the key's with this name.
fn is_with_name(y: &Name, key: &Op, target: &Op) -> Result<bool, AllocError>
    ensures { IfOk result (λ is. IsTrue is ↔ (target.now ≡ with_name y.now key.now)) }
{
    let named = with_name(y, key)?;
    Ok(same_op(target, &named))
}

/// The key's operator is the target's, with the name that its name gets.
fn like(extra: &mut Extra, key: &Op, target: &Op) -> Result<bool, AllocError>
    ensures matched { IfOk result (λ is. (trees : List Tree) → Tried (IsLike key.now target.now) (extra_at trees extra.old) (extra_at trees extra.new) is) }
    ensures pairs { extra.new.pairs ≡ extra.old.pairs }
{
    let Some(x) = name_in(key) else {
        return Ok(same_op(key, target));
    };
    let Some(y) = name_in(target) else {
        return Ok(false);
    };
    if !is_with_name(y, key, target)? {
        return Ok(false);
    }
    rename(extra, x, y)
}

/// An operator that is no symbol's and no system's.
fn match_other<S: Store, L: Ledger>(
    alloc: Global,
    store: &S,
    extra: &mut Extra,
    op: &Op,
    target: Id,
    steps: &mut Steps<L>,
) -> Result<Head, AllocError>
    requires other { IsTrue (is_other op.now) }
    requires target { IsId (S.trees store.now) target }
    ensures matched { (keys : Forest) → IfOk result (HeadIs op.now keys (tree (S.trees store.now) target) (S.trees store.now)
        (extra_at (S.trees store.now) extra.old) (extra_at (S.trees store.now) extra.new)) }
    ensures pairs { extra.new.pairs ≡ extra.old.pairs }
{
    let node = store.look(target, steps);
    if !like(extra, op, node.op)? {
        return Ok(Head::Refused);
    }
    Ok(Head::Left(node.kids.to_vec(alloc)?))
}

/// The variable to which the one argument is renamed.
fn argument<S: Store, L: Ledger>(
    store: &S,
    renames: &[(Name, Name)],
    kids: &[Id],
    steps: &mut Steps<L>,
) -> Result<Option<Var>, AllocError>
    requires { All (IsId (S.trees store.now)) kids.now }
    ensures { IfOk result (λ found. MatchOption found (IsNoArgument renames.now (kid_trees (S.trees store.now) kids.now))
        (IsArgument renames.now (kid_trees (S.trees store.now) kids.now))) }
{
    if kids.len() != 1 {
        return Ok(None);
    }
    let Op::Variable(v) = store.look(kids[0], steps).op else {
        return Ok(None);
    };
    let Some(y) = new_name(renames, &v.name) else {
        return Ok(None);
    };
    Ok(Some(Var {
        name: y.clone()?,
        primed: v.primed,
    }))
}

/// An application: of no arguments, or to one variable that has its name.
fn apply<S: Store, L: Ledger>(
    alloc: Global,
    store: &mut S,
    extra: &mut Extra,
    s: &Sym,
    kids: &[Id],
    e: Id,
    steps: &mut Steps<L>,
) -> Result<bool, StoreFault>
    requires extra { IsKnownExtra (S.trees store.old) extra.old }
    requires kids { All (IsId (S.trees store.old)) kids.now }
    requires e { IsId (S.trees store.old) e }
    ensures matched { IfOk result (Tried (Application s.now (kid_trees (S.trees store.old) kids.now) (tree (S.trees store.old) e))
        (extra_at (S.trees store.old) extra.old) (extra_at (S.trees store.new) extra.new)) }
    ensures known { IsKnownExtra (S.trees store.new) extra.new }
    ensures grows { S.grows store.old store.new }
{
    if kids.is_empty() {
        return Ok(replace(store, extra, s, e, steps)?);
    }
    let Some(v) = argument(store, extra.renames.as_slice(), kids, steps)? else {
        return Ok(false);
    };
    let body = abstract_var(alloc, store, e, &v, steps)?;
    Ok(replace(store, extra, s, body, steps)?)
}

/// What a try comes to for a symbol's node.
fn taken(is: bool) -> Head
    ensures { result ≡ taken is }
{
    if is { Head::Taken } else { Head::Refused }
}

/// The operator of the key over these kids, and the target.
pub(crate) fn match_node<S: Store, L: Ledger>(
    alloc: Global,
    store: &mut S,
    extra: &mut Extra,
    op: &Op,
    keys: &[Id],
    target: Id,
    steps: &mut Steps<L>,
) -> Result<Head, StoreFault>
    requires extra { IsKnownExtra (S.trees store.old) extra.old }
    requires keys { All (IsId (S.trees store.old)) keys.now }
    requires target { IsId (S.trees store.old) target }
    ensures matched { IfOk result (HeadIs op.now (kid_trees (S.trees store.old) keys.now) (tree (S.trees store.old) target) (S.trees store.new)
        (extra_at (S.trees store.old) extra.old) (extra_at (S.trees store.new) extra.new)) }
    ensures known { IsKnownExtra (S.trees store.new) extra.new }
    ensures grows { S.grows store.old store.new }
{
    match op {
        Op::UnitFun(s) | Op::UnitPred(s) | Op::Const(s) => {
            Ok(taken(replace(store, extra, s, target, steps)?))
        }
        Op::Apply(s) | Op::Holds(s) => {
            Ok(taken(apply(alloc, store, extra, s, keys, target, steps)?))
        }
        Op::Predicational(_) => Ok(Head::Refused),
        Op::System(items) => match_system(alloc, store, extra, items.items(), target, steps),
        _ => Ok(match_other(alloc, store, extra, op, target, steps)?),
    }
}
