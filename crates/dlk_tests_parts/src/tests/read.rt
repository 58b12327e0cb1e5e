// Names and operators, the stores, and what is read into them.
mod readers;
mod stores;
mod texts;
mod tokens;

use dlk_tree::{Items, Kind, Name, OdeItem, Op, Sym, Var, same_op};
use std::alloc::Global;
use std::cmp::Ordering;
use std::fmt::Debug;
use std::process::Abort;
use std::test::Fail;

/// What is found of a row is what is wanted.
fn same<T: PartialEq + Debug>(rt: &impl Abort, found: &T, want: &T, row: &str) {
    assert_eq!(rt; found, want, "{row}");
}

/// A constant that does not change `x`.
fn constant(alloc: Global) -> Option<Sym> {
    let name = Name::new(alloc, b"c").ok()?;
    let taboo = Name::new(alloc, b"x").ok()?;
    Some(Sym {
        kind: Kind::Ode,
        name,
        arity: 0,
        taboo: Some(taboo),
    })
}

/// A system of a variable and a constant.
fn system(alloc: Global) -> Option<Op> {
    let evolved = OdeItem::Evolve(Name::new(alloc, b"x").ok()?);
    let items = [evolved, OdeItem::Const(constant(alloc)?)];
    Some(Op::System(Items::new(Vec::from_array(alloc, items).ok()?)))
}

fn variable(alloc: Global) -> Option<Op> {
    let name = Name::new(alloc, b"x").ok()?;
    Some(Op::Variable(Var { name, primed: true }))
}

/// Whether a copy of an operator is the same.
fn is_copied(op: &Op) -> Option<bool> {
    let copy = op.clone().ok()?;
    Some(same_op(op, &copy))
}

#[test]
fn copies_operators(rt: HostRuntime) -> Result<(), Fail> {
    for op in [system(rt.alloc()), variable(rt.alloc())] {
        same(&rt, &op.as_ref().and_then(is_copied), &Some(true), "copied");
    }
    Ok(())
}

/// Whether a name and its copy have the bytes of a text.
fn is_kept(alloc: Global, text: &str) -> Option<bool> {
    let name = Name::new(alloc, text.as_bytes()).ok()?;
    let copy = name.clone().ok()?;
    Some(name.bytes() == text.as_bytes() && copy.bytes() == text.as_bytes())
}

/// Whether the names of two texts are the same, and their order.
fn names_compared(alloc: Global, one: &str, other: &str) -> Option<(bool, Ordering)> {
    let one = Name::new(alloc, one.as_bytes()).ok()?;
    let other = Name::new(alloc, other.as_bytes()).ok()?;
    Some((one == other, one.cmp(&other)))
}

/// Names of up to 14 bytes are kept in place, and longer ones apart.
#[test]
fn keeps_names(rt: HostRuntime) {
    let texts = [
        "x",
        "fourteen_bytes",
        "fifteen_bytes_x",
        "position_of_the_car_in_front",
    ];
    for text in texts {
        same(&rt, &is_kept(rt.alloc(), text), &Some(true), text);
        for other in texts {
            let want = (text == other, text.cmp(other));
            let found = names_compared(rt.alloc(), text, other);
            same(&rt, &found, &Some(want), other);
        }
    }
}
