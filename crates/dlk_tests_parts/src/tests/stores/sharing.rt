ghost use Rattle.std.specs.Prelude.{◌≡◌, ◌<◌, IfOk};
ghost use Rattle.dlk_store.specs.Stores.{IsId, tree};
ghost use Rattle.dlk_tree.specs.Trees.{sort};
ghost use Rattle.dlk_tree.specs.declared.op.Sort.TheVariants.{Term};

use super::same;
use dlk_plain::PlainStore;
use dlk_shared::SharedStore;
use dlk_store::{Id, Steps, Store, StoreFault, Which};
use dlk_tree::{Kind, Name, Op, Sym, Var};
use std::alloc::Global;
use std::marker::Brand;
use std::sync::ledger::{Blank, Ledger};
use std::test::Fail;

const LEVELS: u32 = 1_000_000;

/// What is true of a variable behind signs, of what `told` asks.
const TRUTHS: [bool; 9] = [true, false, false, true, false, false, false, false, true];

/// `true & !true`.
fn conjunction<S: Store>(alloc: Global, store: &mut S) -> Result<Id, StoreFault>
    ensures known { IfOk result (IsId (S.trees store.new)) }
    ensures grows { S.grows store.old store.new }
{
    let t = store.make(alloc, Op::True, &[])?;
    let not = store.make(alloc, Op::Not, &[t])?;
    store.make(alloc, Op::And, &[t, not])
}

/// The size, the depth and the id of a conjunction that is made twice, and the next id.
fn made_twice<S: Store>(alloc: Global, store: &mut S) -> Result<(u32, u32, [Id; 3]), StoreFault> {
    let first = conjunction(alloc, store)?;
    let second = conjunction(alloc, store)?;
    let (size, depth) = (store.size(first), store.depth(first));
    let next = store.make(alloc, Op::False, &[])?;
    Ok((size, depth, [first, second, next]))
}

/// The same of a store that keeps each tree once.
fn shared_twice(alloc: Global) -> Result<(u32, u32, [Id; 3]), StoreFault> {
    made_twice(alloc, &mut SharedStore::new(alloc))
}

#[test]
fn a_tree_made_twice(rt: HostRuntime) -> Result<(), Fail> {
    let (size, depth, [first, second, next]) = shared_twice(rt.alloc())?;
    same(&rt, (size, depth), (4, 3), &"counts");
    same(&rt, first, second, &"an id");
    same(&rt, next, Id(3), &"the next id");
    Ok(())
}

/// The ids of `!true`, of what is made like it over `true`, and of what is made like it over `false`; and the size and the depth of the last.
fn made_like<S: Store>(alloc: Global, store: &mut S) -> Result<([Id; 3], u32, u32), StoreFault> {
    let t = store.make(alloc, Op::True, &[])?;
    let first = store.make(alloc, Op::Not, &[t])?;
    let again = store.make_like(alloc, first, &[t])?;
    let f = store.make(alloc, Op::False, &[])?;
    let other = store.make_like(alloc, first, &[f])?;
    Ok(([first, again, other], store.size(other), store.depth(other)))
}

#[test]
fn a_node_made_like_another(rt: HostRuntime) -> Result<(), Fail> {
    let alloc = rt.alloc();
    let shared = made_like(alloc, &mut SharedStore::new(alloc))?;
    same(&rt, shared, ([Id(1), Id(1), Id(3)], 2, 2), &"shared");
    let plain = made_like(alloc, &mut PlainStore::new(alloc))?;
    same(&rt, plain, ([Id(1), Id(2), Id(4)], 2, 2), &"plain");
    Ok(())
}

fn variable<S: Store>(alloc: Global, store: &mut S, name: Name) -> Result<Id, StoreFault>
    ensures known { IfOk result (IsId (S.trees store.new)) }
    ensures term { IfOk result (λ id. sort (tree (S.trees store.new) id) ≡ Term) }
{
    prove!(name.is_name());
    store.make(alloc, Op::Variable(Var::plain(name)), &[])
}

/// A sign before a term.
fn negated<S: Store>(alloc: Global, store: &mut S, id: Id) -> Result<Id, StoreFault>
    requires known { IsId (S.trees store.old) id }
    requires term { sort (tree (S.trees store.old) id) ≡ Term }
    ensures known { IfOk result (IsId (S.trees store.new)) }
    ensures term { IfOk result (λ n. sort (tree (S.trees store.new) n) ≡ Term) }
{
    store.make(alloc, Op::Neg, &[id])
}

/// A variable behind many signs.
fn behind_signs<S: Store>(alloc: Global, store: &mut S, name: Name) -> Result<Id, StoreFault>
    ensures known { IfOk result (IsId (S.trees store.new)) }
{
    let mut id = variable(alloc, store, name)?;
    for level in 0..LEVELS {
        id = negated(alloc, store, id)?;
    }
    Ok(id)
}

/// What a store says of a tree, a variable and a symbol by a truth value.
fn told<S: Store>(store: &S, id: Id, x: &Var, s: &Sym) -> [bool; 9]
    requires { IsId (S.trees store.now) id }
{
    [
        store.frees(id, x),
        store.binds(id, x),
        store.must(id, x),
        store.any_free(id),
        store.free_meets_bound(id, id),
        store.mentions(id, s),
        store.has_dot(id, 0),
        store.has_hole(id),
        store.same(id, id),
    ]
}

/// The size and the depth of a tree, how many variables are free in it, and how many symbols occur in it.
fn counted<S: Store>(alloc: Global, store: &S, id: Id) -> Result<[usize; 4], StoreFault>
    requires { IsId (S.trees store.now) id }
{
    let free = store.list(alloc, id, Which::Free)?;
    let symbols = store.symbols(alloc, id)?;
    Ok([
        store.size(id) as usize,
        store.depth(id) as usize,
        free.vars.as_slice().len(),
        symbols.len(),
    ])
}

/// How many kids a root has.
fn looked<S: Store, L: Ledger>(store: &S, id: Id, blank: Blank) -> usize
    requires known { IsId (S.trees store.now) id }
    requires name { blank.name ≡ L.name }
    requires parts { blank.parts ≡ L.parts }
    requires some { 0 < blank.parts }
{
    let mut steps = Steps::<L>::new(blank);
    store.look(id, &mut steps).kids.len()
}

/// What a store says of a variable behind many signs: the counts, how many kids the root has, and of the truth values those that are wanted.
fn asked<S: Store>(
    alloc: Global,
    store: &mut S,
    x: &Var,
    f: &Sym,
) -> Result<[usize; 6], StoreFault> {
    let id = behind_signs(alloc, store, x.name.clone()?)?;
    let [size, depth, free, symbols] = counted(alloc, store, id)?;
    let kids = looked::<S, Brand>(store, id, Blank::new(1));
    let truths = told(store, id, x, f);
    Ok([
        size,
        depth,
        free,
        symbols,
        kids,
        usize::from(truths == TRUTHS),
    ])
}

/// The same of a store that keeps each tree once.
fn shared_asked(alloc: Global, x: &Var, f: &Sym) -> Result<[usize; 6], StoreFault> {
    asked(alloc, &mut SharedStore::new(alloc), x, f)
}

/// A nullary function.
fn constant(name: Name) -> Sym {
    Sym {
        kind: Kind::Func,
        name,
        arity: 0,
        taboo: None,
    }
}

/// No question and no end of a store goes down a tree.
#[test]
fn a_million_levels(rt: HostRuntime) -> Result<(), Fail> {
    let alloc = rt.alloc();
    let x = Var::plain(Name::new(alloc, b"x")?);
    let f = constant(Name::new(alloc, b"f")?);
    let told = shared_asked(alloc, &x, &f)?;
    same(&rt, told, [1_000_001, 1_000_001, 1, 0, 1, 1], &"told");
    Ok(())
}
