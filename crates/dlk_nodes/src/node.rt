//! Node lines, read.
ghost use Rattle.std.specs.Prelude.{◌≡◌, ◌+◌, ◌≤◌, ◌++◌, ℕ, length, All, Err, IsTrue, IfOk, IfErr, codes};
ghost use Rattle.dlk_tree.specs.Trees.{Tree};
ghost use Rattle.dlk_calculus.specs.Limits.{IsSmall, IsShallow};
ghost use Rattle.dlk_store.specs.Stores.{IsId, tree, sorts_at};
ghost use Rattle.dlk_nodes.specs.Nodes.{IsNode, IsNodeLine};
ghost use Rattle.dlk_nodes.specs.Tables.{nodes_at};
ghost use Rattle.dlk_lines.specs.declared.fault.LineFault.TheVariants.{Memory};
ghost use Rattle.dlk_lines.specs.Read.{IsLineFaultOf};
ghost use Rattle.dlk_nodes.specs.Wants.{NodeLineWants};

use crate::calls::op_and_kids;
use crate::table::NodeTable;
use dlk_calculus::{GREATEST_DEPTH, MOST_NODES};
use dlk_lines::{LineFault, number_before};
use dlk_store::{Id, Steps, Store};
use dlk_tree::{Sort, fits, sort_of};
use std::alloc::{AllocError, Global};
use std::sync::ledger::Ledger;

/// The sorts of these trees, a look each.
fn sorts_of<S: Store, L: Ledger>(
    alloc: Global,
    ids: &[Id],
    store: &S,
    steps: &mut Steps<L>,
) -> Result<Vec<Sort>, AllocError>
    requires { All (IsId (S.trees store.now)) ids.now }
    ensures sorts { IfOk result (λ sorts. sorts.items ≡ sorts_at (S.trees store.now) ids.now) }
    ensures cost { steps.new ≤ steps.old + length ids.now }
{
    let mut sorts = Vec::new(alloc);
    for id in ids {
        sorts.push(sort_of(store.look(*id, steps).op))?;
    }
    Ok(sorts)
}

/// Whether the tree is within the limits of what is read.
fn is_within_limits<S: Store>(store: &S, id: Id) -> bool
    requires { IsId (S.trees store.now) id }
    ensures small { IsTrue result → IsSmall (tree (S.trees store.now) id) }
    ensures shallow { IsTrue result → IsShallow (tree (S.trees store.now) id) }
    ensures is { IsSmall (tree (S.trees store.now) id) → IsShallow (tree (S.trees store.now) id) → IsTrue result }
{
    store.size(id) <= MOST_NODES && store.depth(id) <= GREATEST_DEPTH
}

/// The new node of which this is the text: an operator with the numbers of its kids.
pub(crate) fn read_node<S: Store, L: Ledger>(
    alloc: Global,
    text: &[u8],
    table: &NodeTable,
    store: &mut S,
    steps: &mut Steps<L>,
) -> Result<Id, LineFault>
    requires unique { IsTrue S.unique }
    requires known { All (IsId (S.trees store.old)) table.now }
    ensures found { IfOk result (λ id. IsNode (nodes_at (S.trees store.old) table.now) text.now (tree (S.trees store.new) id)) }
    ensures known { IfOk result (IsId (S.trees store.new)) }
    ensures fault { IfErr result (IsLineFaultOf ((t : Tree) → ¬ IsNode (nodes_at (S.trees store.old) table.now) text.now t)) }
    ensures grows { S.grows store.old store.new }
{
    let (op, kids) = op_and_kids(alloc, text, table)?;
    let sorts = sorts_of(alloc, kids.as_slice(), store, steps)?;
    if !fits(&op, sorts.as_slice()) {
        return Err(LineFault::Malformed);
    }
    let id = store.make(alloc, op, kids.as_slice())?;
    if table.place(id).is_some() {
        return Err(LineFault::Malformed);
    }
    if !is_within_limits(store, id) {
        return Err(LineFault::Malformed);
    }
    Ok(id)
}

/// The number and the new node of the line that this text stands in behind its word.
pub(crate) fn node_line<S: Store, L: Ledger>(
    alloc: Global,
    text: &[u8],
    table: &NodeTable,
    store: &mut S,
    steps: &mut Steps<L>,
) -> Result<(u32, Id), LineFault>
    requires unique { IsTrue S.unique }
    requires known { All (IsId (S.trees store.old)) table.now }
    ensures found { IfOk result (λ p. IsNodeLine (nodes_at (S.trees store.old) table.now) (codes "node " ++ text.now) p.0 (tree (S.trees store.new) p.1)) }
    ensures known { IfOk result (λ p. IsId (S.trees store.new) p.1) }
    ensures fault { IfErr result (IsLineFaultOf ((n : ℕ) (t : Tree) → ¬ IsNodeLine (nodes_at (S.trees store.old) table.now) (codes "node " ++ text.now) n t)) }
    ensures memory { result ≡ Err Memory → NodeLineWants (codes "node " ++ text.now) }
    ensures grows { S.grows store.old store.new }
{
    let Some((number, node)) = number_before(text, b' ') else {
        return Err(LineFault::Malformed);
    };
    let id = read_node(alloc, node, table, store, steps)?;
    Ok((number, id))
}
