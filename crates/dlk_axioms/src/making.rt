//! Makes the trees of shapes in a store.
ghost use Rattle.std.specs.Prelude.{◌≡◌, IsTrue, IfOk, All, map};
ghost use Rattle.std.specs.Option.{option_copied};
ghost use Rattle.dlk_tree.specs.Table.{has_parts, taboo_is_name, is_item};
ghost use Rattle.dlk_tree.specs.Names.{is_name};
ghost use Rattle.dlk_tree.specs.Trees.{WellMade};
ghost use Rattle.dlk_store.specs.Stores.{StandsFor};
ghost use Rattle.dlk_axioms.specs.Answers.{StandsAlone};
ghost use Rattle.dlk_axioms.specs.Shapes.{operator_of, item_of, tree_of};

use crate::names::name_of;
use crate::shape::{Item, Label, TreeShape};
use dlk_sequent::Sequent;
use dlk_store::{Id, Store, StoreFault};
use dlk_tree::{Items, Kind, Name, Num, OdeItem, Op, Sym, Var};
use std::alloc::{AllocError, Global};

/// The symbol of these parts.
fn symbol(
    alloc: Global,
    kind: Kind,
    name: &[u8],
    arity: u8,
    taboo: Option<&[u8]>,
) -> Result<Sym, AllocError>
    requires name { IsTrue (is_name name.now) }
    requires taboo { IsTrue (taboo_is_name (option_copied taboo)) }
    ensures { IfOk result (λ s. s ≡ record { kind = kind; name = name.now; arity = arity; taboo = option_copied taboo.entry }) }
{
    let name = name_of(alloc, name)?;
    let taboo = match taboo {
        None => None,
        Some(y) => Some(name_of(alloc, y)?),
    };
    Ok(Sym {
        kind,
        name,
        arity,
        taboo,
    })
}

/// An item of a system.
fn item(alloc: Global, item: &Item) -> Result<OdeItem, AllocError>
    requires { IsTrue (is_item (item_of item.now)) }
    ensures { IfOk result (λ made. made ≡ item_of item.now) }
{
    match item {
        Item::Evolve(x) => Ok(OdeItem::Evolve(name_of(alloc, x)?)),
        Item::Const(c, taboo) => Ok(OdeItem::Const(symbol(alloc, Kind::Ode, c, 0, *taboo)?)),
    }
}

/// The items of a system, in order.
fn items(alloc: Global, all: &[Item]) -> Result<Vec<OdeItem>, AllocError>
    requires { All (λ i. IsTrue (is_item (item_of i))) all.now }
    ensures { IfOk result (λ made. made.items ≡ map item_of all.now) }
{
    let mut made = Vec::new(alloc);
    for one in all {
        let one = item(alloc, one)?;
        made.push(one)?;
    }
    Ok(made)
}

/// The variable of this name, with a prime or without.
fn variable(alloc: Global, name: &[u8], primed: bool) -> Result<Var, AllocError>
    requires { IsTrue (is_name name.now) }
    ensures { IfOk result (λ v. v ≡ record { name = name.now; primed = primed }) }
{
    let name = name_of(alloc, name)?;
    Ok(Var { name, primed })
}

/// The operator of a label whose parts are as they must be.
fn operator(alloc: Global, label: &Label) -> Result<Op, AllocError>
    requires { IsTrue (has_parts (operator_of label.now)) }
    ensures { IfOk result (λ op. op ≡ operator_of label.now) }
{
    match label {
        Label::Variable(x) => Ok(Op::Variable(variable(alloc, x, false)?)),
        Label::Primed(x) => Ok(Op::Variable(variable(alloc, x, true)?)),
        Label::Number(n) => Ok(Op::Number(Num {
            digits: u128::from(*n),
            scale: 0,
        })),
        Label::Apply(f, arity) => Ok(Op::Apply(symbol(alloc, Kind::Func, f, *arity, None)?)),
        Label::UnitFun(f, taboo) => Ok(Op::UnitFun(symbol(alloc, Kind::UnitFunc, f, 0, *taboo)?)),
        Label::Holds(p, arity) => Ok(Op::Holds(symbol(alloc, Kind::Pred, p, *arity, None)?)),
        Label::UnitPred(p, taboo) => Ok(Op::UnitPred(symbol(alloc, Kind::UnitPred, p, 0, *taboo)?)),
        Label::Predicational(c) => Ok(Op::Predicational(symbol(alloc, Kind::Quant, c, 0, None)?)),
        Label::Const(a) => Ok(Op::Const(symbol(alloc, Kind::Prog, a, 0, None)?)),
        Label::Forall(x) => Ok(Op::Forall(name_of(alloc, x)?)),
        Label::Exists(x) => Ok(Op::Exists(name_of(alloc, x)?)),
        Label::Assign(x) => Ok(Op::Assign(variable(alloc, x, false)?)),
        Label::AssignPrimed(x) => Ok(Op::Assign(variable(alloc, x, true)?)),
        Label::Any(x) => Ok(Op::Any(name_of(alloc, x)?)),
        Label::System(all) => Ok(Op::System(Items::new(items(alloc, all)?))),
        Label::Neg => Ok(Op::Neg),
        Label::Diff => Ok(Op::Diff),
        Label::Add => Ok(Op::Add),
        Label::Sub => Ok(Op::Sub),
        Label::Mul => Ok(Op::Mul),
        Label::Div => Ok(Op::Div),
        Label::Pow => Ok(Op::Pow),
        Label::Eq => Ok(Op::Eq),
        Label::Ne => Ok(Op::Ne),
        Label::Ge => Ok(Op::Ge),
        Label::Gt => Ok(Op::Gt),
        Label::Le => Ok(Op::Le),
        Label::Lt => Ok(Op::Lt),
        Label::Not => Ok(Op::Not),
        Label::DiffF => Ok(Op::DiffF),
        Label::And => Ok(Op::And),
        Label::Or => Ok(Op::Or),
        Label::Imply => Ok(Op::Imply),
        Label::Equiv => Ok(Op::Equiv),
        Label::Box => Ok(Op::Box),
        Label::Dia => Ok(Op::Dia),
        Label::Test => Ok(Op::Test),
        Label::Choice => Ok(Op::Choice),
        Label::Seq => Ok(Op::Seq),
        Label::Loop => Ok(Op::Loop),
    }
}

/// An id of the tree of a shape.
pub(crate) fn make<S: Store>(
    alloc: Global,
    shape: &TreeShape,
    store: &mut S,
) -> Result<Id, StoreFault>
    requires { WellMade (tree_of shape.now) }
    ensures made { IfOk result (λ id. StandsFor (S.trees store.new) id (tree_of shape.now)) }
    ensures grows { S.grows store.old store.new }
{
    match shape {
        TreeShape::Leaf(label) => {
            let op = operator(alloc, label)?;
            store.make(alloc, op, &[])
        }
        TreeShape::One(label, first) => {
            let first = make(alloc, first, store)?;
            let op = operator(alloc, label)?;
            store.make(alloc, op, &[first])
        }
        TreeShape::Two(label, first, second) => {
            let first = make(alloc, first, store)?;
            let second = make(alloc, second, store)?;
            let op = operator(alloc, label)?;
            store.make(alloc, op, &[first, second])
        }
    }
}

/// The sequent with the tree of a shape alone on the right.
pub(crate) fn make_alone_right<S: Store>(
    alloc: Global,
    shape: &TreeShape,
    store: &mut S,
) -> Result<Sequent, StoreFault>
    requires { WellMade (tree_of shape.now) }
    ensures made { IfOk result (λ s. StandsAlone (S.trees store.new) s (tree_of shape.now)) }
    ensures grows { S.grows store.old store.new }
{
    let id = make(alloc, shape, store)?;
    Ok(Sequent::alone_right(alloc, id)?)
}
