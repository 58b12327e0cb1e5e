//! Exchanging two names in a tree.
ghost use Rattle.std.specs.Prelude.{◌≡◌, IfOk, All, map};
ghost use Rattle.dlk_tree.specs.Table.{Fits};
ghost use Rattle.dlk_tree.specs.Trees.{node, root};
ghost use Rattle.dlk_store.specs.Stores.{IsId, tree, kid_trees, sorts_at, StandsFor};
ghost use Rattle.dlk_rename.specs.Exchanges.{or_same};
ghost use Rattle.dlk_calculus.specs.Rename.{swap, swap_name, swap_var, swap_sym, swap_item, swap_op};

use dlk_store::{Id, Steps, Store, StoreFault};
use dlk_tree::{Items, Name, OdeItem, Op, Sym, Var};
use std::alloc::{AllocError, Global};
use std::sync::ledger::Ledger;

fn swap_name(x: &Name, y: &Name, name: &Name) -> Result<Name, AllocError>
    ensures { IfOk result (λ r. r ≡ swap_name x.now y.now name.now) }
{
    if name == x {
        y.clone()
    } else if name == y {
        x.clone()
    } else {
        name.clone()
    }
}

fn swap_var(x: &Name, y: &Name, v: &Var) -> Result<Var, AllocError>
    ensures { IfOk result (λ r. r ≡ swap_var x.now y.now v.now) }
{
    Ok(Var {
        name: swap_name(x, y, &v.name)?,
        primed: v.primed,
    })
}

fn swap_sym(x: &Name, y: &Name, s: &Sym) -> Result<Sym, AllocError>
    ensures { IfOk result (λ r. r ≡ swap_sym x.now y.now s.now) }
{
    let name = s.name.clone()?;
    let taboo = match &s.taboo {
        None => None,
        Some(z) => Some(swap_name(x, y, z)?),
    };
    Ok(Sym {
        kind: s.kind,
        name,
        arity: s.arity,
        taboo,
    })
}

fn swap_item(x: &Name, y: &Name, item: &OdeItem) -> Result<OdeItem, AllocError>
    ensures { IfOk result (λ r. r ≡ swap_item x.now y.now item.now) }
{
    match item {
        OdeItem::Evolve(z) => Ok(OdeItem::Evolve(swap_name(x, y, z)?)),
        OdeItem::Const(s) => Ok(OdeItem::Const(swap_sym(x, y, s)?)),
    }
}

fn swap_items(alloc: Global, x: &Name, y: &Name, items: &Items) -> Result<Items, AllocError>
    ensures { IfOk result (λ r. r ≡ map (swap_item x.now y.now) items.now) }
{
    let mut swapped = Vec::new(alloc);
    for item in items.items() {
        swapped.push(swap_item(x, y, item)?)?;
    }
    Ok(Items::new(swapped))
}

/// The operator with the names exchanged, unless it has no name.
fn swap_op(alloc: Global, x: &Name, y: &Name, op: &Op) -> Result<Option<Op>, AllocError>
    ensures { IfOk result (λ r. or_same op.now r ≡ swap_op x.now y.now op.now) }
{
    Ok(Some(match op {
        Op::Variable(v) => Op::Variable(swap_var(x, y, v)?),
        Op::UnitFun(s) => Op::UnitFun(swap_sym(x, y, s)?),
        Op::Apply(s) => Op::Apply(swap_sym(x, y, s)?),
        Op::UnitPred(s) => Op::UnitPred(swap_sym(x, y, s)?),
        Op::Holds(s) => Op::Holds(swap_sym(x, y, s)?),
        Op::Predicational(s) => Op::Predicational(swap_sym(x, y, s)?),
        Op::Forall(z) => Op::Forall(swap_name(x, y, z)?),
        Op::Exists(z) => Op::Exists(swap_name(x, y, z)?),
        Op::Const(s) => Op::Const(swap_sym(x, y, s)?),
        Op::Assign(v) => Op::Assign(swap_var(x, y, v)?),
        Op::Any(z) => Op::Any(swap_name(x, y, z)?),
        Op::System(items) => Op::System(swap_items(alloc, x, y, items)?),
        _ => return Ok(None),
    }))
}

/// The node of this operator over these kids, or without one the node of the operator of `like`.
fn make_over<S: Store>(
    alloc: Global,
    store: &mut S,
    like: Id,
    op: Option<Op>,
    kids: &[Id],
) -> Result<Id, StoreFault>
    requires like { IsId (S.trees store.old) like }
    requires known { All (IsId (S.trees store.old)) kids.now }
    requires fits { Fits (or_same (root (tree (S.trees store.old) like)) op) (sorts_at (S.trees store.old) kids.now) }
    ensures made { IfOk result (λ id.
        StandsFor (S.trees store.new) id (node (or_same (root (tree (S.trees store.old) like)) op) (kid_trees (S.trees store.old) kids.now))) }
    ensures grows { S.grows store.old store.new }
{
    match op {
        Some(op) => store.make(alloc, op, kids),
        None => store.make_like(alloc, like, kids),
    }
}

/// The tree with the names `x` and `y` exchanged, and so `x'` and `y'`: in variables, quantifiers, assigned variables, evolved
/// variables and taboos (uniform renaming). Names of symbols stay.
///
/// # Errors
///
/// `Memory` alone; the store may have more nodes then.
pub fn swap<S: Store, L: Ledger>(
    alloc: Global,
    store: &mut S,
    id: Id,
    x: &Name,
    y: &Name,
    steps: &mut Steps<L>,
) -> Result<Id, StoreFault>
    requires { IsId (S.trees store.old) id }
    ensures made { IfOk result (λ made. StandsFor (S.trees store.new) made (swap x.now y.now (tree (S.trees store.old) id))) }
    ensures grows { S.grows store.old store.new }
{
    let node = store.look(id, steps);
    let op = swap_op(alloc, x, y, node.op)?;
    let kids = node.kids.to_vec(alloc)?;
    let mut new = Vec::new(alloc);
    for kid in &kids {
        let made = swap(alloc, store, *kid, x, y, steps)?;
        new.push(made)?;
    }
    prove!(x.is_name());
    prove!(y.is_name());
    make_over(alloc, store, id, op, new.as_slice())
}
