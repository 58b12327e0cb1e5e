//! The parts of a domain, and what they say.
ghost use Rattle.std.specs.Prelude.{◌≡◌, ◌+◌, ◌*◌, ◌≤◌, [], ◌++◌, List, length, map, All, OnOk, IfOk, IfSome, MatchOption};
ghost use Rattle.dlk_tree.specs.Trees.{Tree, size, size_all};
ghost use Rattle.dlk_store.specs.Stores.{IsId, tree, kid_trees};
ghost use Rattle.dlk_guard.specs.Ends.{AreEnds};
ghost use Rattle.dlk_guard.specs.Smooth.{is_and, parts, domain_parts, is_zero, is_variable, is_apart, are_term_and_zero, keeps_off_zero, is_kept_off_zero};
ghost use Rattle.dlk_guard.specs.Smooth.{is_equation, says_constant, is_frozen};
ghost use Rattle.dlk_tree.specs.Statics.{prime};

use dlk_store::{Id, Steps, Store};
use dlk_tree::{Name, Op};
use std::alloc::{AllocError, Global};
use std::sync::ledger::Ledger;

fn is_and(op: &Op) -> bool
    ensures { result ≡ is_and op.now }
{
    matches!(op, Op::And)
}

/// Adds the parts of a formula: what `&` joins, from the top.
fn add_parts<S: Store, L: Ledger>(
    store: &S,
    id: Id,
    into: &mut Vec<Id>,
    steps: &mut Steps<L>,
) -> Result<(), AllocError>
    requires id { IsId (S.trees store.now) id }
    requires into { All (IsId (S.trees store.now)) into.old.items }
    ensures parts { OnOk result (map (tree (S.trees store.now)) into.new.items ≡ map (tree (S.trees store.now)) into.old.items ++
        parts (tree (S.trees store.now) id)) }
    ensures known { OnOk result (All (IsId (S.trees store.now)) into.new.items) }
    ensures cost { steps.new ≤ steps.old + size (tree (S.trees store.now) id) }
{
    let node = store.look(id, steps);
    if !is_and(node.op) {
        into.push(id)?;
        return Ok(());
    }
    for kid in node.kids {
        add_parts(store, *kid, into, steps)?;
    }
    Ok(())
}

/// The parts of the domain of a system with these kids: the last one is its domain.
pub(crate) fn domain_parts<S: Store, L: Ledger>(
    alloc: Global,
    store: &S,
    kids: &[Id],
    steps: &mut Steps<L>,
) -> Result<Vec<Id>, AllocError>
    requires { All (IsId (S.trees store.now)) kids.now }
    ensures parts { IfOk result (λ ids. map (tree (S.trees store.now)) ids.items ≡ domain_parts (kid_trees (S.trees store.now) kids.now)) }
    ensures known { IfOk result (λ ids. All (IsId (S.trees store.now)) ids.items) }
    ensures cost { steps.new ≤ steps.old + size_all (kid_trees (S.trees store.now) kids.now) }
{
    let mut ids = Vec::new(alloc);
    let Some(domain) = kids.last() else {
        return Ok(ids);
    };
    add_parts(store, *domain, &mut ids, steps)?;
    Ok(ids)
}

/// The first and the last of these kids.
fn ends(kids: &[Id]) -> Option<(Id, Id)>
    ensures value { (trees : List Tree) → MatchOption result (kids.now ≡ []) (AreEnds trees (kid_trees trees kids.now)) }
    ensures known { (trees : List Tree) → All (IsId trees) kids.now → IfSome result (λ e. IsId trees e.0 × IsId trees e.1) }
{
    let Some(first) = kids.first() else {
        return None;
    };
    let Some(last) = kids.last() else {
        return None;
    };
    Some((*first, *last))
}

/// Whether the tree is a literal of value 0.
fn is_zero<S: Store, L: Ledger>(store: &S, id: Id, steps: &mut Steps<L>) -> bool
    requires { IsId (S.trees store.now) id }
    ensures value { result ≡ is_zero (tree (S.trees store.now) id) }
    ensures cost { steps.new ≤ steps.old + 1 }
{
    match store.look(id, steps).op {
        Op::Number(n) => n.digits == 0,
        _ => false,
    }
}

/// Whether the tree is the primed variable of this name.
fn is_prime<S: Store, L: Ledger>(store: &S, x: &Name, id: Id, steps: &mut Steps<L>) -> bool
    requires { IsId (S.trees store.now) id }
    ensures value { result ≡ is_variable (prime x.now) (tree (S.trees store.now) id) }
    ensures cost { steps.new ≤ steps.old + 1 }
{
    match store.look(id, steps).op {
        Op::Variable(v) => v.primed && v.name == *x,
        _ => false,
    }
}

/// `!=`, `>` or `<`.
fn is_apart(op: &Op) -> bool
    ensures { result ≡ is_apart op.now }
{
    matches!(op, Op::Ne | Op::Gt | Op::Lt)
}

/// Whether one side is the term, and the other is 0.
fn are_term_and_zero<S: Store, L: Ledger>(
    store: &S,
    d: Id,
    side: Id,
    other: Id,
    steps: &mut Steps<L>,
) -> bool
    requires term { IsId (S.trees store.now) d }
    requires side { IsId (S.trees store.now) side }
    requires other { IsId (S.trees store.now) other }
    ensures value { result ≡ are_term_and_zero (tree (S.trees store.now) d) (tree (S.trees store.now) side) (tree (S.trees store.now) other) }
    ensures cost { steps.new ≤ steps.old + 1 }
{
    store.same(d, side) && is_zero(store, other, steps)
}

/// Whether the part says that the term isn't 0: it is `d!=0`, `d>0` or `d<0`, or the same turned round.
fn keeps_off_zero<S: Store, L: Ledger>(store: &S, d: Id, part: Id, steps: &mut Steps<L>) -> bool
    requires term { IsId (S.trees store.now) d }
    requires part { IsId (S.trees store.now) part }
    ensures value { result ≡ keeps_off_zero (tree (S.trees store.now) d) (tree (S.trees store.now) part) }
    ensures cost { steps.new ≤ steps.old + 3 }
{
    let node = store.look(part, steps);
    if !is_apart(node.op) {
        return false;
    }
    let Some((left, right)) = ends(node.kids) else {
        return false;
    };
    if are_term_and_zero(store, d, left, right, steps) {
        return true;
    }
    are_term_and_zero(store, d, right, left, steps)
}

/// Whether some part of a domain says so.
pub(crate) fn is_kept_off_zero<S: Store, L: Ledger>(
    store: &S,
    domain: &[Id],
    d: Id,
    steps: &mut Steps<L>,
) -> bool
    requires domain { All (IsId (S.trees store.now)) domain.now }
    requires term { IsId (S.trees store.now) d }
    ensures value { result ≡ is_kept_off_zero (map (tree (S.trees store.now)) domain.now) (tree (S.trees store.now) d) }
    ensures cost { steps.new ≤ steps.old + 3 * length domain.now }
{
    for part in domain {
        if keeps_off_zero(store, d, *part, steps) {
            return true;
        }
    }
    false
}

fn is_equation(op: &Op) -> bool
    ensures { result ≡ is_equation op.now }
{
    matches!(op, Op::Eq)
}

/// Whether the part is `x'=0`.
fn says_constant<S: Store, L: Ledger>(store: &S, x: &Name, part: Id, steps: &mut Steps<L>) -> bool
    requires { IsId (S.trees store.now) part }
    ensures value { result ≡ says_constant x.now (tree (S.trees store.now) part) }
    ensures cost { steps.new ≤ steps.old + 3 }
{
    let node = store.look(part, steps);
    if !is_equation(node.op) {
        return false;
    }
    let Some((left, right)) = ends(node.kids) else {
        return false;
    };
    is_prime(store, x, left, steps) && is_zero(store, right, steps)
}

/// Whether some part of a domain is.
pub(crate) fn is_frozen<S: Store, L: Ledger>(
    store: &S,
    domain: &[Id],
    x: &Name,
    steps: &mut Steps<L>,
) -> bool
    requires { All (IsId (S.trees store.now)) domain.now }
    ensures value { result ≡ is_frozen (map (tree (S.trees store.now)) domain.now) x.now }
    ensures cost { steps.new ≤ steps.old + 3 * length domain.now }
{
    for part in domain {
        if says_constant(store, x, *part, steps) {
            return true;
        }
    }
    false
}
