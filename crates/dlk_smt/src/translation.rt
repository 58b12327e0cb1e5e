//! The expression of a tree.
ghost use Rattle.std.specs.Prelude.{◌≡◌, ◌++◌, [], All, OnOk, codes, if◌then◌else◌, ◌==◌};
ghost use Rattle.dlk_tree.specs.Trees.{node, root};
ghost use Rattle.dlk_tree.specs.Statics.{plain};
ghost use Rattle.dlk_tree.specs.declared.op.Op.TheVariants.{Number};
ghost use Rattle.dlk_store.specs.Stores.{IsId, tree, kid_trees};
ghost use Rattle.dlk_smt.specs.Smt.{shown, shown_all, call, quantify, negation, next, none, first, times, power, exponent, real, symbol, base_symbol};
ghost use Rattle.dlk_smt.specs.Smt.{variable_symbol, expression, expressions};

use crate::power::exponent;
use crate::symbol::{append_function, append_unprimed, append_variable};
use dlk_print::{PrintFault, append, text};
use dlk_store::{Id, Steps, Store};
use dlk_tree::{Name, Num, Op};
use std::sync::ledger::Ledger;

/// Appends the text of a tree's expression.
#[cycle(expression)]
pub(crate) fn append_expression<S: Store, L: Ledger>(
    store: &S,
    id: Id,
    out: &mut Vec<u8>,
    steps: &mut Steps<L>,
) -> Result<(), PrintFault>
    requires { IsId (S.trees store.now) id }
    ensures { OnOk result (out.new.items ≡ out.old.items ++ shown (expression (tree (S.trees store.now) id))) }
{
    let node = store.look(id, steps);
    append_node(store, id, node.op, node.kids, out, steps)
}

/// Appends the text of the expression of a node. One arm an operator.
#[cycle(expression)]
fn append_node<S: Store, L: Ledger>(
    store: &S,
    id: Id,
    op: &Op,
    kids: &[Id],
    out: &mut Vec<u8>,
    steps: &mut Steps<L>,
) -> Result<(), PrintFault>
    requires known { IsId (S.trees store.now) id }
    requires node { tree (S.trees store.now) id ≡ node op.now (kid_trees (S.trees store.now) kids.now) }
    requires kids { All (IsId (S.trees store.now)) kids.now }
    ensures { OnOk result (out.new.items ≡ out.old.items ++ shown (expression (node op.now (kid_trees (S.trees store.now) kids.now)))) }
{
    match op {
        Op::Variable(v) => append_variable(out, v),
        Op::Number(n) => append_number(store, id, n, out, steps),
        Op::Apply(s) => append_function(out, &s.name),
        Op::Neg | Op::Sub => append_call(store, b"-", kids, out, steps),
        Op::Add => append_call(store, b"+", kids, out, steps),
        Op::Mul => append_call(store, b"*", kids, out, steps),
        Op::Div => append_call(store, b"/", kids, out, steps),
        Op::Pow => append_power(store, kids, out, steps),
        Op::True => append(out, b"true"),
        Op::False => append(out, b"false"),
        Op::Eq | Op::Equiv => append_call(store, b"=", kids, out, steps),
        Op::Ne => append_unequal(store, kids, out, steps),
        Op::Ge => append_call(store, b">=", kids, out, steps),
        Op::Gt => append_call(store, b">", kids, out, steps),
        Op::Le => append_call(store, b"<=", kids, out, steps),
        Op::Lt => append_call(store, b"<", kids, out, steps),
        Op::Not => append_call(store, b"not", kids, out, steps),
        Op::And => append_call(store, b"and", kids, out, steps),
        Op::Or => append_call(store, b"or", kids, out, steps),
        Op::Imply => append_call(store, b"=>", kids, out, steps),
        Op::Forall(x) => append_quantified(store, b"forall", x, kids, out, steps),
        Op::Exists(x) => append_quantified(store, b"exists", x, kids, out, steps),
        _ => append(out, b""),
    }
}

/// What stands behind a number's canonical text.
fn point_zero(n: &Num) -> &'static [u8]
    ensures { result.now ≡ (if n.now.scale == 0 then codes ".0" else []) }
{
    if n.scale == 0 { b".0" } else { b"" }
}

/// Appends a number, which has a point always.
fn append_number<S: Store, L: Ledger>(
    store: &S,
    id: Id,
    n: &Num,
    out: &mut Vec<u8>,
    steps: &mut Steps<L>,
) -> Result<(), PrintFault>
    requires known { IsId (S.trees store.now) id }
    requires number { root (tree (S.trees store.now) id) ≡ Number n.now }
    ensures { OnOk result (out.new.items ≡ out.old.items ++ real n.now) }
{
    text(store, id, out, steps)?;
    append(out, point_zero(n))
}

/// Appends a word with the kids' expressions behind it, in brackets.
#[cycle(expression)]
fn append_call<S: Store, L: Ledger>(
    store: &S,
    word: &[u8],
    kids: &[Id],
    out: &mut Vec<u8>,
    steps: &mut Steps<L>,
) -> Result<(), PrintFault>
    requires { All (IsId (S.trees store.now)) kids.now }
    ensures { OnOk result (out.new.items ≡ out.old.items ++ shown (call word.now (expressions (kid_trees (S.trees store.now) kids.now)))) }
{
    append(out, b"(")?;
    append(out, word)?;
    append_kids(store, kids, out, steps)?;
    append(out, b")")
}

/// Appends the kids' expressions, each behind a space.
#[cycle(expression)]
fn append_kids<S: Store, L: Ledger>(
    store: &S,
    kids: &[Id],
    out: &mut Vec<u8>,
    steps: &mut Steps<L>,
) -> Result<(), PrintFault>
    requires { All (IsId (S.trees store.now)) kids.now }
    ensures { OnOk result (out.new.items ≡ out.old.items ++ shown_all (expressions (kid_trees (S.trees store.now) kids.now))) }
{
    let [kid, rest @ ..] = kids else {
        return Ok(());
    };
    append(out, b" ")?;
    append_expression(store, *kid, out, steps)?;
    append_kids(store, rest, out, steps)
}

/// Appends the first kid's expression, if there is a kid.
#[cycle(expression)]
fn append_first<S: Store, L: Ledger>(
    store: &S,
    kids: &[Id],
    out: &mut Vec<u8>,
    steps: &mut Steps<L>,
) -> Result<(), PrintFault>
    requires { All (IsId (S.trees store.now)) kids.now }
    ensures { OnOk result (out.new.items ≡ out.old.items ++ shown (first (expressions (kid_trees (S.trees store.now) kids.now)))) }
{
    let [kid, ..] = kids else {
        return append(out, b"");
    };
    append_expression(store, *kid, out, steps)
}

/// Appends that the kids aren't equal.
#[cycle(expression)]
fn append_unequal<S: Store, L: Ledger>(
    store: &S,
    kids: &[Id],
    out: &mut Vec<u8>,
    steps: &mut Steps<L>,
) -> Result<(), PrintFault>
    requires { All (IsId (S.trees store.now)) kids.now }
    ensures { OnOk result (out.new.items ≡ out.old.items ++
        shown (negation (next (call (codes "=") (expressions (kid_trees (S.trees store.now) kids.now))) none))) }
{
    append(out, b"(not ")?;
    append_call(store, b"=", kids, out, steps)?;
    append(out, b")")
}

/// Appends a quantifier over a real.
#[cycle(expression)]
fn append_quantified<S: Store, L: Ledger>(
    store: &S,
    word: &[u8],
    x: &Name,
    kids: &[Id],
    out: &mut Vec<u8>,
    steps: &mut Steps<L>,
) -> Result<(), PrintFault>
    requires { All (IsId (S.trees store.now)) kids.now }
    ensures { OnOk result (out.new.items ≡ out.old.items ++
        shown (quantify word.now (variable_symbol (plain x.now)) (first (expressions (kid_trees (S.trees store.now) kids.now))))) }
{
    append(out, b"(")?;
    append(out, word)?;
    append(out, b" ((")?;
    append_unprimed(out, x)?;
    append(out, b" Real)) ")?;
    append_first(store, kids, out, steps)?;
    append(out, b")")
}

/// Appends a power: its base is named, and multiplied.
#[cycle(expression)]
fn append_power<S: Store, L: Ledger>(
    store: &S,
    kids: &[Id],
    out: &mut Vec<u8>,
    steps: &mut Steps<L>,
) -> Result<(), PrintFault>
    requires { All (IsId (S.trees store.now)) kids.now }
    ensures { let trees = kid_trees (S.trees store.now) kids.now in
        OnOk result (out.new.items ≡ out.old.items ++ shown (power (exponent trees) (first (expressions trees)))) }
{
    let Some(count) = exponent(store, kids, steps) else {
        return append(out, b"");
    };
    if count == 1 {
        return append_first(store, kids, out, steps);
    }
    append(out, b"(let ((|e| ")?;
    append_first(store, kids, out, steps)?;
    append(out, b")) (*")?;
    append_bases(count, out)?;
    append(out, b"))")
}

/// Appends the name of a power's base so often.
fn append_bases(count: u128, out: &mut Vec<u8>) -> Result<(), PrintFault>
    ensures { OnOk result (out.new.items ≡ out.old.items ++ shown_all (times count (symbol base_symbol))) }
{
    if count == 0 {
        return Ok(());
    }
    append(out, b" |e|")?;
    append_bases(count - 1, out)
}
