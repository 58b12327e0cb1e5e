// The two stores compared, and a variable that comes later.
use super::*;
use dlk_grammar::Dots;
use dlk_parse::{TextFault, read_expression};
use dlk_plain::PlainStore;
use dlk_shared::SharedStore;
use dlk_store::Store;

/// Each group of operators, with symbols that have a taboo, systems with constants, loops, quantifiers, dots and the hole.
const TEXTS: [&str; 24] = [
    "-x+2.5*y'",
    "(x*y')'/f(x,y)^2",
    "f(|y|)-f(||)",
    "._0+g(._1,._7)",
    "_",
    "p(|y|)&q(||)|!p(x,y)",
    "C{x>=0}<->true",
    "(x>=y & \\forall z z=x)'",
    "\\exists y (p(|y|) -> y>x)",
    "[x:=y;]x=1 & <y':=x;>false",
    "x:=*;",
    "x:=1;y:=x;",
    "x:=1;++y:=x;++x:=2;?y>x;",
    "{{x:=1;++y:=2;}{x:=y;++?x>0;}}*",
    "a;?x>0;{b;}*",
    "{x'=y,y'=x&x>=0}",
    "{x'=f(||),c&q(||)}",
    "{c,d{|y|},z'=2}",
    "[{x'=y,c{|x|}&true}]p(|y|)",
    "[a;b;]<{c,x'=1}>(x>=y)'",
    "[{x:=1;x':=2;}*]x'>=x",
    "[?x=y;y:=z;]\\forall y true",
    "\\forall x [{y'=x}]x*._0>=y",
    "[y:=1;]C{_}&p(._0)",
];

/// What a store says of two texts: whether the trees are the same, and whether one reads what the other changes.
fn compared<S: Store>(
    alloc: Global,
    store: &mut S,
    one: &str,
    other: &str,
) -> Result<[bool; 3], TextFault> {
    let a = read_expression(alloc, one.as_bytes(), Dots::Allowed, store)?;
    let b = read_expression(alloc, other.as_bytes(), Dots::Allowed, store)?;
    Ok([
        store.same(a, b),
        store.free_meets_bound(a, b),
        store.free_meets_bound(b, a),
    ])
}

/// The same, of a plain store.
fn compared_plainly(alloc: Global, one: &str, other: &str) -> Result<[bool; 3], TextFault> {
    compared(alloc, &mut PlainStore::new(alloc), one, other)
}

/// A store says of each two texts what a plain one says.
fn compares_alike<S: Store>(
    rt: &impl Abort,
    alloc: Global,
    store: &mut S,
) -> Result<(), TextFault> {
    for one in &TEXTS {
        for other in &TEXTS {
            let want = compared_plainly(alloc, one, other)?;
            let found = compared(alloc, store, one, other)?;
            same(rt, &found, &want, one);
        }
    }
    Ok(())
}

#[test]
fn stores_compare_alike(rt: HostRuntime) -> Result<(), Fail> {
    let found = compares_alike(&rt, rt.alloc(), &mut SharedStore::new(rt.alloc()));
    Ok(found?)
}

/// Whether a variable is free in a tree, asked once another text is read.
fn frees_later<S: Store>(
    alloc: Global,
    store: &mut S,
    text: &str,
    later: &str,
    v: &Var,
) -> Result<bool, TextFault> {
    let id = read_expression(alloc, text.as_bytes(), Dots::Allowed, store)?;
    read_expression(alloc, later.as_bytes(), Dots::Allowed, store)?;
    Ok(store.frees(id, v))
}

/// Whether `p(|y|)` reads this variable, which comes only behind it.
fn reads_later<S: Store>(
    alloc: Global,
    store: &mut S,
    name: &str,
    primed: bool,
) -> Result<bool, TextFault> {
    let name = match Name::new(alloc, name.as_bytes()) {
        Ok(name) => name,
        Err(_) => return Err(TextFault::Memory),
    };
    frees_later(alloc, store, "p(|y|)", "z=z'", &Var { name, primed })
}

/// Which of these variables it reads.
fn all_read_later<S: Store>(rt: &impl Abort, alloc: Global, store: &mut S) {
    for (name, primed, free) in &[
        ("z", false, true),
        ("z", true, true),
        ("y", false, false),
        ("y", true, false),
    ] {
        let found = reads_later(alloc, store, name, *primed);
        same(rt, &found, &Ok(*free), name);
    }
}

/// A predicate with a taboo reads a variable that is met only after its sets were made.
#[test]
fn a_variable_comes_later(rt: HostRuntime) {
    all_read_later(&rt, rt.alloc(), &mut SharedStore::new(rt.alloc()));
}
