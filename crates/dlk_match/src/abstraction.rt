//! Abstracting a variable: `._0` in its place.
ghost use Rattle.std.specs.Prelude.{◌≡◌, ◌-◌, ◌≤◌, IfOk, All, List, length};
ghost use Rattle.dlk_tree.specs.Trees.{Tree, node};
ghost use Rattle.dlk_store.specs.Stores.{IsId, tree, kid_trees, StandsFor};
ghost use Rattle.dlk_calculus.specs.Captures.{captures};
ghost use Rattle.dlk_match.specs.Abstract.{is_variable, abstracted};
ghost use Rattle.dlk_match.specs.Entered.{count, entered};

use dlk_store::{Id, Steps, Store, StoreFault};
use dlk_tree::{Op, Var};
use std::alloc::Global;
use std::sync::ledger::Ledger;

/// Whether the operator is the variable.
fn is_variable(v: &Var, op: &Op) -> bool
    ensures { result ≡ is_variable v.now op.now }
{
    match op {
        Op::Variable(w) => v == w,
        _ => false,
    }
}

/// Whether the node binds the variable over some of its kids, or reads it there where it stands for no argument.
fn captures<S: Store>(store: &S, id: Id, op: &Op, kids: &[Id], v: &Var) -> bool
    requires known { IsId (S.trees store.now) id }
    requires kids { All (IsId (S.trees store.now)) kids.now }
    requires node { tree (S.trees store.now) id ≡ node op.now (kid_trees (S.trees store.now) kids.now) }
    ensures { result ≡ (captures op.now).set (kid_trees (S.trees store.now) kids.now) v.now }
{
    match op {
        Op::Diff | Op::DiffF | Op::Predicational(_) => true,
        Op::Forall(x) | Op::Exists(x) => !v.primed && v.name == *x,
        Op::System(_) => store.binds(id, v),
        Op::Box | Op::Dia | Op::Seq | Op::Loop => match kids.first() {
            Some(first) => store.binds(*first, v),
            None => false,
        },
        _ => false,
    }
}

/// How many kids are outside of what the operator captures, from the first on.
fn outside(op: &Op, kids: &[Id]) -> usize
    ensures value { (trees : List Tree) → result ≡ count (kid_trees trees kids.now) - count ((captures op.now).reach (kid_trees trees kids.now)) }
    ensures few { result ≤ length kids.now }
{
    match op {
        Op::Box | Op::Dia | Op::Seq if !kids.is_empty() => 1,
        _ => 0,
    }
}

/// How many kids of the node, from the first on, are outside the scope of a binder of the variable.
fn entered<S: Store>(store: &S, id: Id, op: &Op, kids: &[Id], v: &Var) -> usize
    requires known { IsId (S.trees store.now) id }
    requires kids { All (IsId (S.trees store.now)) kids.now }
    requires node { tree (S.trees store.now) id ≡ node op.now (kid_trees (S.trees store.now) kids.now) }
    ensures value { result ≡ entered v.now op.now (kid_trees (S.trees store.now) kids.now) }
    ensures few { result ≤ length kids.now }
{
    if captures(store, id, op, kids, v) {
        outside(op, kids)
    } else {
        kids.len()
    }
}

/// The tree with `._0` for the variable, outside each operator that captures the variable: neither in a differential nor in a
/// predicational, and behind a program only where the program doesn't bind it.
///
/// # Errors
///
/// `Memory` alone; the store may have more nodes then.
pub fn abstract_var<S: Store, L: Ledger>(
    alloc: Global,
    store: &mut S,
    id: Id,
    v: &Var,
    steps: &mut Steps<L>,
) -> Result<Id, StoreFault>
    requires { IsId (S.trees store.old) id }
    ensures made { IfOk result (λ made. StandsFor (S.trees store.new) made (abstracted v.now (tree (S.trees store.old) id))) }
    ensures grows { S.grows store.old store.new }
{
    let node = store.look(id, steps);
    if is_variable(v, node.op) {
        return store.make(alloc, Op::Dot(0), &[]);
    }
    let count = entered(store, id, node.op, node.kids, v);
    let op = node.op.clone()?;
    let kids = node.kids.to_vec(alloc)?;
    let mut new = Vec::new(alloc);
    for i in 0..count {
        let made = abstract_var(alloc, store, kids[i], v, steps)?;
        new.push(made)?;
    }
    new.extend_from_slice(&kids[count..])?;
    store.make(alloc, op, new.as_slice())
}
