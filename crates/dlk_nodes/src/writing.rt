//! Node lines, written.
ghost use Rattle.std.specs.Prelude.{◌+◌, ◌≤◌, ◌++◌, codes, All, IsTrue, Option};
ghost use Rattle.std.specs.Fmt.{decimal};
ghost use Rattle.std.specs.List.{join_by, flat_map};
ghost use Rattle.dlk_store.specs.Stores.{IsId, tree};
ghost use Rattle.dlk_grammar.specs.Shown.{literal};
ghost use Rattle.dlk_print.specs.Printed.{Appends};
ghost use Rattle.dlk_nodes.specs.Words.{variable_text, with_taboo, unit_text, item_text, detail_text, call_of, op_text};
ghost use Rattle.dlk_nodes.specs.Written.{numbered_text};
ghost use Rattle.dlk_nodes.specs.Tables.{nodes_at, id_text};

use crate::table::NodeTable;
use crate::words::word;
use dlk_print::{PrintFault, append, append_decimal, append_number};
use dlk_store::{Id, Steps, Store};
use dlk_tree::{Items, Name, Num, OdeItem, Op, Sym, Var};
use std::sync::ledger::Ledger;

/// Appends the bytes and a name behind them.
fn append_name(out: &mut Vec<u8>, before: &[u8], name: &Name) -> Result<(), PrintFault>
    ensures { Appends out.old.items out.new.items (before.now ++ name.now) result }
{
    append(out, before)?;
    append(out, name.bytes())
}

/// Appends a space and a variable: its name, and a prime where it is primed.
fn append_variable(out: &mut Vec<u8>, v: &Var) -> Result<(), PrintFault>
    ensures { Appends out.old.items out.new.items (codes " " ++ variable_text v.now) result }
{
    if !v.primed {
        return append_name(out, b" ", &v.name);
    }
    append_name(out, b" ", &v.name)?;
    append(out, b"'")
}

/// Appends a space and a number.
fn append_literal(out: &mut Vec<u8>, n: &Num) -> Result<(), PrintFault>
    ensures { Appends out.old.items out.new.items (codes " " ++ literal n.now) result }
{
    append(out, b" ")?;
    append_number(out, n)
}

/// Appends a space and the number of an argument dot.
fn append_dot(out: &mut Vec<u8>, n: u8) -> Result<(), PrintFault>
    ensures { Appends out.old.items out.new.items (codes " " ++ decimal n) result }
{
    append(out, b" ")?;
    append_decimal(out, u128::from(n))
}

/// Appends a name, and its taboo between the two texts if there is one.
fn append_taboo(
    out: &mut Vec<u8>,
    x: &Name,
    taboo: &Option<Name>,
    before: &[u8],
    after: &[u8],
) -> Result<(), PrintFault>
    ensures { Appends out.old.items out.new.items (with_taboo before.now after.now x.now taboo.now) result }
{
    append(out, x.bytes())?;
    let Some(y) = taboo else {
        return Ok(());
    };
    append_name(out, before, y)?;
    append(out, after)
}

/// Appends an item of a system.
fn append_item(out: &mut Vec<u8>, item: &OdeItem) -> Result<(), PrintFault>
    ensures { Appends out.old.items out.new.items (item_text item.now) result }
{
    match item {
        OdeItem::Evolve(x) => {
            append(out, x.bytes())?;
            append(out, b"'")
        }
        OdeItem::Const(s) => append_taboo(out, &s.name, &s.taboo, b"{|", b"|}"),
    }
}

/// Appends a space and a unit symbol.
fn append_unit(out: &mut Vec<u8>, s: &Sym) -> Result<(), PrintFault>
    ensures { Appends out.old.items out.new.items (codes " " ++ unit_text s.now.name s.now.taboo) result }
{
    append(out, b" ")?;
    append_taboo(out, &s.name, &s.taboo, b"|", b"|")
}

/// Appends the items of a system with commas between.
fn append_items(out: &mut Vec<u8>, items: &[OdeItem]) -> Result<(), PrintFault>
    ensures { Appends out.old.items out.new.items (join_by item_text (codes ",") items.now) result }
{
    let Some((first, rest)) = items.split_first() else {
        return Ok(());
    };
    append_item(out, first)?;
    for item in rest {
        append(out, b",")?;
        append_item(out, item)?;
    }
    Ok(())
}

/// Appends a space and the items of a system.
fn append_system(out: &mut Vec<u8>, items: &Items) -> Result<(), PrintFault>
    ensures { Appends out.old.items out.new.items (codes " " ++ join_by item_text (codes ",") items.now) result }
{
    append(out, b" ")?;
    append_items(out, items.items())
}

/// Appends what stands behind the word of an operator.
fn append_detail(out: &mut Vec<u8>, op: &Op) -> Result<(), PrintFault>
    ensures { Appends out.old.items out.new.items (detail_text (call_of op.now).1) result }
{
    match op {
        Op::Variable(v) | Op::Assign(v) => append_variable(out, v),
        Op::Number(n) => append_literal(out, n),
        Op::Dot(n) => append_dot(out, *n),
        Op::UnitFun(s) | Op::UnitPred(s) => append_unit(out, s),
        Op::Apply(s) | Op::Holds(s) | Op::Predicational(s) | Op::Const(s) => {
            append_name(out, b" ", &s.name)
        }
        Op::Forall(x) | Op::Exists(x) | Op::Any(x) => append_name(out, b" ", x),
        Op::System(items) => append_system(out, items),
        Op::Neg
        | Op::Diff
        | Op::Add
        | Op::Sub
        | Op::Mul
        | Op::Div
        | Op::Pow
        | Op::True
        | Op::False
        | Op::Hole
        | Op::Eq
        | Op::Ne
        | Op::Ge
        | Op::Gt
        | Op::Le
        | Op::Lt
        | Op::Not
        | Op::DiffF
        | Op::And
        | Op::Or
        | Op::Imply
        | Op::Equiv
        | Op::Box
        | Op::Dia
        | Op::Test
        | Op::Choice
        | Op::Seq
        | Op::Loop => Ok(()),
    }
}

/// Appends the word of an operator and what stands behind it.
fn append_op(out: &mut Vec<u8>, op: &Op) -> Result<(), PrintFault>
    ensures { Appends out.old.items out.new.items (op_text op.now) result }
{
    append(out, word(op).as_bytes())?;
    append_detail(out, op)
}

/// Appends the number of the id's node, which counts from 1.
pub(crate) fn append_place(table: &NodeTable, id: Id, out: &mut Vec<u8>) -> Result<(), PrintFault>
    ensures { Appends out.old.items out.new.items (id_text table.now id) result }
{
    let place = table.place(id).unwrap_or(table.len());
    append_decimal(out, place as u128 + 1)
}

/// Appends the numbers of nodes, each behind a space.
pub(crate) fn append_behind(
    table: &NodeTable,
    ids: &[Id],
    out: &mut Vec<u8>,
) -> Result<(), PrintFault>
    ensures { Appends out.old.items out.new.items (flat_map (λ id. codes " " ++ id_text table.now id) ids.now) result }
{
    for id in ids {
        append(out, b" ")?;
        append_place(table, *id, out)?;
    }
    Ok(())
}

/// Appends the line of a node with this number, without a line feed. Without memory a prefix of it was appended. It is one look.
///
/// # Errors
///
/// `Memory` alone.
pub fn append_node<S: Store, L: Ledger>(
    store: &S,
    table: &NodeTable,
    number: usize,
    id: Id,
    out: &mut Vec<u8>,
    steps: &mut Steps<L>,
) -> Result<(), PrintFault>
    requires unique { IsTrue S.unique }
    requires nodes { All (IsId (S.trees store.now)) table.now }
    requires id { IsId (S.trees store.now) id }
    ensures text { Appends out.old.items out.new.items (numbered_text number (nodes_at (S.trees store.now) table.now) (tree (S.trees store.now) id)) result }
    ensures cost { steps.new ≤ steps.old + 1 }
{
    let node = store.look(id, steps);
    append(out, b"node ")?;
    append_decimal(out, number as u128)?;
    append(out, b" ")?;
    append_op(out, node.op)?;
    append_behind(table, node.kids, out)
}
