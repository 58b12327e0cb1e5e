//! What is wanted of an instance of `DI` and of one of `DG`.
ghost use Rattle.std.specs.Prelude.{◌≡◌, ◌+◌, ◌*◌, ◌≤◌, ◌&&◌, List, length, map, All, IfOk, IfSome, option_map};
ghost use Rattle.std.specs.List.{list_any};
ghost use Rattle.std.specs.Str.{bytes_eq};
ghost use Rattle.dlk_tree.specs.Table.{evolved};
ghost use Rattle.dlk_tree.specs.Trees.{Tree, node};
ghost use Rattle.dlk_store.specs.Stores.{IsId, tree, kid_trees};
ghost use Rattle.dlk_guard.specs.Smooth.{domain_parts, is_smooth};
ghost use Rattle.dlk_guard.specs.Instances.{first_constant, loose_in_op, first_loose, is_free_in, first_primed, di_conditions, system_items, di_why};
ghost use Rattle.dlk_guard.specs.Instances.{dg_conditions, dg_why, instance_why, before_last};
ghost use Rattle.dlk_guard.specs.Looks.{smooth_looks, loose_looks, di_looks, dg_looks, instance_looks};

use crate::parts::{domain_parts, is_frozen};
use crate::raw::RawAxiom;
use crate::smooth::{is_smooth, is_smooth_formula};
use crate::why::Why;
use dlk_sequent::subtree;
use dlk_store::{Id, Steps, Store};
use dlk_tree::{Name, OdeItem, Op, Sym, Var};
use std::alloc::{AllocError, Global};
use std::sync::ledger::Ledger;

/// The first ODE constant of a system.
fn first_constant(items: &[OdeItem]) -> Result<Option<Sym>, AllocError>
    ensures { IfOk result (λ s. s ≡ first_constant items.now) }
{
    for item in items {
        if let OdeItem::Const(s) = item {
            return Ok(Some(s.clone()?));
        }
    }
    Ok(None)
}

/// Whether a system evolves the variable.
fn evolves(items: &[OdeItem], x: &Name) -> bool
    ensures { result ≡ list_any (bytes_eq x.now) (evolved items.now) }
{
    for item in items {
        if let OdeItem::Evolve(y) = item {
            if x == y {
                return true;
            }
        }
    }
    false
}

/// The variable of an operator, where the system doesn't evolve it and the domain doesn't say that it is constant.
fn loose_in_op<S: Store, L: Ledger>(
    store: &S,
    items: &[OdeItem],
    domain: &[Id],
    op: &Op,
    steps: &mut Steps<L>,
) -> Result<Option<Name>, AllocError>
    requires { All (IsId (S.trees store.now)) domain.now }
    ensures value { IfOk result (λ x. x ≡ loose_in_op items.now (map (tree (S.trees store.now)) domain.now) op.now) }
    ensures cost { steps.new ≤ steps.old + 3 * length domain.now }
{
    let Op::Variable(v) = op else {
        return Ok(None);
    };
    if evolves(items, &v.name) || is_frozen(store, domain, &v.name, steps) {
        return Ok(None);
    }
    Ok(Some(v.name.clone()?))
}

/// The first such variable of a formula.
fn first_loose<S: Store, L: Ledger>(
    store: &S,
    items: &[OdeItem],
    domain: &[Id],
    id: Id,
    steps: &mut Steps<L>,
) -> Result<Option<Name>, AllocError>
    requires domain { All (IsId (S.trees store.now)) domain.now }
    requires id { IsId (S.trees store.now) id }
    ensures value { IfOk result (λ x. x ≡ first_loose items.now (map (tree (S.trees store.now)) domain.now) (tree (S.trees store.now) id)) }
    ensures cost { steps.new ≤ steps.old + loose_looks (length domain.now) (tree (S.trees store.now) id) }
{
    let node = store.look(id, steps);
    if let Some(own) = loose_in_op(store, items, domain, node.op, steps)? {
        return Ok(Some(own));
    }
    for kid in node.kids {
        if let Some(x) = first_loose(store, items, domain, *kid, steps)? {
            return Ok(Some(x));
        }
    }
    Ok(None)
}

/// Whether the variable is free in one of the trees.
fn is_free_in<S: Store>(store: &S, ids: &[Id], v: &Var) -> bool
    requires { All (IsId (S.trees store.now)) ids.now }
    ensures { result ≡ is_free_in (kid_trees (S.trees store.now) ids.now) v.now }
{
    for id in ids {
        if store.frees(*id, v) {
            return true;
        }
    }
    false
}

/// The first evolved variable whose primed one is free in one of the trees.
fn first_primed<S: Store>(
    store: &S,
    items: &[OdeItem],
    ids: &[Id],
) -> Result<Option<Name>, AllocError>
    requires { All (IsId (S.trees store.now)) ids.now }
    ensures { IfOk result (λ x. x ≡ first_primed items.now (kid_trees (S.trees store.now) ids.now)) }
{
    for item in items {
        if let OdeItem::Evolve(x) = item {
            let prime = Var {
                name: x.clone()?,
                primed: true,
            };
            if is_free_in(store, ids, &prime) {
                return Ok(Some(prime.name));
            }
        }
    }
    Ok(None)
}

/// Why an instance of `DI` isn't a good one: by the items of its system, the kids of the system, which are the right sides and the domain,
/// and the formula.
fn di_conditions<S: Store, L: Ledger>(
    alloc: Global,
    store: &S,
    items: &[OdeItem],
    kids: &[Id],
    p: Id,
    steps: &mut Steps<L>,
) -> Result<Option<Why>, AllocError>
    requires kids { All (IsId (S.trees store.now)) kids.now }
    requires p { IsId (S.trees store.now) p }
    ensures why { IfOk result (λ why. why ≡ di_conditions items.now (kid_trees (S.trees store.now) kids.now) (tree (S.trees store.now) p)) }
    ensures cost { steps.new ≤ steps.old + di_looks (kid_trees (S.trees store.now) kids.now) (tree (S.trees store.now) p) }
{
    if let Some(s) = first_constant(items)? {
        return Ok(Some(Why::OdeConstant(s)));
    }
    let domain = domain_parts(alloc, store, kids, steps)?;
    if !is_smooth_formula(store, domain.as_slice(), p, steps) {
        return Ok(Some(Why::NotSmooth));
    }
    if let Some(x) = first_loose(store, items, domain.as_slice(), p, steps)? {
        return Ok(Some(Why::NotEvolved(x)));
    }
    match first_primed(store, items, kids)? {
        Some(x) => Ok(Some(Why::Primed(x))),
        None => Ok(None),
    }
}

/// The items, where the operator is a system.
fn system_items(op: &Op) -> Option<&[OdeItem]>
    ensures { option_map (λ items. items.now) result ≡ system_items op.now }
{
    match op {
        Op::System(items) => Some(items.items()),
        _ => None,
    }
}

/// Why the formula is no good instance of `DI`.
fn di_why<S: Store, L: Ledger>(
    alloc: Global,
    store: &S,
    id: Id,
    steps: &mut Steps<L>,
) -> Result<Option<Why>, AllocError>
    requires { IsId (S.trees store.now) id }
    ensures why { IfOk result (λ why. why ≡ di_why (tree (S.trees store.now) id)) }
    ensures cost { steps.new ≤ steps.old + instance_looks (tree (S.trees store.now) id) }
{
    let Some(system) = subtree(store, id, &[1, 0, 0], steps) else {
        return Ok(Some(Why::RawFact));
    };
    let Some(p) = subtree(store, id, &[1, 0, 1], steps) else {
        return Ok(Some(Why::RawFact));
    };
    let node = store.look(system, steps);
    let Some(items) = system_items(node.op) else {
        return Ok(Some(Why::RawFact));
    };
    di_conditions(alloc, store, items, node.kids, p, steps)
}

/// The last but one of these trees.
fn before_last(ids: &[Id]) -> Option<Id>
    ensures value { (trees : List Tree) → option_map (tree trees) result ≡ before_last (kid_trees trees ids.now) }
    ensures known { (trees : List Tree) → All (IsId trees) ids.now → IfSome result (IsId trees) }
{
    if ids.len() < 2 {
        return None;
    }
    Some(ids[ids.len() - 2])
}

/// Whether both terms are smooth over a domain with these parts.
fn are_both_smooth<S: Store, L: Ledger>(
    store: &S,
    domain: &[Id],
    a: Id,
    b: Id,
    steps: &mut Steps<L>,
) -> bool
    requires domain { All (IsId (S.trees store.now)) domain.now }
    requires a { IsId (S.trees store.now) a }
    requires b { IsId (S.trees store.now) b }
    ensures value { let parts = map (tree (S.trees store.now)) domain.now in
        result ≡ (is_smooth parts (tree (S.trees store.now) a) && is_smooth parts (tree (S.trees store.now) b)) }
    ensures cost { steps.new ≤
        steps.old + smooth_looks (length domain.now) (tree (S.trees store.now) a) + smooth_looks (length domain.now) (tree (S.trees store.now) b) }
{
    is_smooth(store, domain, a, steps) && is_smooth(store, domain, b, steps)
}

/// Why `a` or `b` of the last right side isn't smooth, by the kids of a system, which are the right sides and the domain.
fn dg_conditions<S: Store, L: Ledger>(
    alloc: Global,
    store: &S,
    kids: &[Id],
    steps: &mut Steps<L>,
) -> Result<Option<Why>, AllocError>
    requires { All (IsId (S.trees store.now)) kids.now }
    ensures why { IfOk result (λ why.
        why ≡ dg_conditions (domain_parts (kid_trees (S.trees store.now) kids.now)) (before_last (kid_trees (S.trees store.now) kids.now))) }
    ensures cost { steps.new ≤ steps.old + dg_looks (kid_trees (S.trees store.now) kids.now) }
{
    let Some(side) = before_last(kids) else {
        return Ok(Some(Why::RawFact));
    };
    let Some(a) = subtree(store, side, &[0, 0], steps) else {
        return Ok(Some(Why::RawFact));
    };
    let Some(b) = subtree(store, side, &[1], steps) else {
        return Ok(Some(Why::RawFact));
    };
    let domain = domain_parts(alloc, store, kids, steps)?;
    if are_both_smooth(store, domain.as_slice(), a, b, steps) {
        return Ok(None);
    }
    Ok(Some(Why::GhostNotSmooth))
}

/// Why the formula is no good instance of `DG`.
fn dg_why<S: Store, L: Ledger>(
    alloc: Global,
    store: &S,
    id: Id,
    steps: &mut Steps<L>,
) -> Result<Option<Why>, AllocError>
    requires { IsId (S.trees store.now) id }
    ensures why { IfOk result (λ why. why ≡ dg_why (tree (S.trees store.now) id)) }
    ensures cost { steps.new ≤ steps.old + instance_looks (tree (S.trees store.now) id) }
{
    let Some(system) = subtree(store, id, &[1, 0, 0], steps) else {
        return Ok(Some(Why::RawFact));
    };
    let node = store.look(system, steps);
    if system_items(node.op).is_none() {
        return Ok(Some(Why::RawFact));
    }
    dg_conditions(alloc, store, node.kids, steps)
}

/// Why the formula is no good instance of the axiom.
pub(crate) fn instance_why<S: Store, L: Ledger>(
    alloc: Global,
    store: &S,
    origin: RawAxiom,
    id: Id,
    steps: &mut Steps<L>,
) -> Result<Option<Why>, AllocError>
    requires { IsId (S.trees store.now) id }
    ensures why { IfOk result (λ why. why ≡ instance_why origin (tree (S.trees store.now) id)) }
    ensures cost { steps.new ≤ steps.old + instance_looks (tree (S.trees store.now) id) }
{
    match origin {
        RawAxiom::Di => di_why(alloc, store, id, steps),
        RawAxiom::Dg => dg_why(alloc, store, id, steps),
    }
}
