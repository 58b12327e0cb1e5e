//! Lines of a file of version 2, read.
ghost use Rattle.std.specs.Prelude.{◌≡◌, ◌++◌, ℕ, List, All, Err, IsTrue, IfOk, IfErr, codes};
ghost use Rattle.dlk_store.specs.Stores.{IsId};
ghost use Rattle.dlk_lines.specs.declared.fault.LineFault.TheVariants.{Memory};
ghost use Rattle.dlk_lines.specs.Read.{IsLineFaultOf};
ghost use Rattle.dlk_nodes.specs.Lines.{Line as TreeLine, IsLine};
ghost use Rattle.dlk_nodes.specs.Read.{line_at, LineIsKnown};
ghost use Rattle.dlk_nodes.specs.Tables.{nodes_at};
ghost use Rattle.dlk_nodes.specs.Wants.{NodeLineWants};

use crate::by_nodes::NodesRead;
use crate::line::Line2;
use crate::node::node_line;
use crate::parts::behind;
use crate::table::NodeTable;
use dlk_lines::{LineFault, read_step_line};
use dlk_store::{Steps, Store};
use std::alloc::Global;
use std::sync::ledger::Ledger;

/// What a line of a file of version 2 says behind its first: a new node, a step whose trees go by the numbers of their nodes, or `done`.
/// The bytes are those before its line feed. Numbers aren't looked at: whether a node or a step is the next one is the caller's affair.
///
/// # Errors
///
/// `Malformed` exactly where the bytes are no line behind the nodes of the table, and `Memory` when memory runs out. Whatever comes, the
/// store keeps its trees.
pub fn read_node_line<S: Store, L: Ledger>(
    alloc: Global,
    line: &[u8],
    table: &NodeTable,
    store: &mut S,
    steps: &mut Steps<L>,
) -> Result<Line2, LineFault>
    requires unique { IsTrue S.unique }
    requires known { All (IsId (S.trees store.old)) table.now }
    ensures found { IfOk result (λ l. IsLine (nodes_at (S.trees store.old) table.now) line.now (line_at (S.trees store.new) l)) }
    ensures known { IfOk result (LineIsKnown (S.trees store.new)) }
    ensures fault { IfErr result (IsLineFaultOf ((l : TreeLine) → ¬ IsLine (nodes_at (S.trees store.old) table.now) line.now l)) }
    ensures memory { result ≡ Err Memory → (text : List ℕ) → line.now ≡ codes "node " ++ text → NodeLineWants line.now }
    ensures grows { S.grows store.old store.new }
{
    if line == b"done".as_slice() {
        return Ok(Line2::Done);
    }
    if let Some(text) = behind(line, b"node ") {
        let (number, id) = node_line(alloc, text, table, store, steps)?;
        return Ok(Line2::Node { number, id });
    }
    let mut spelled = NodesRead { table, steps };
    let (number, step) = read_step_line(alloc, line, &mut spelled, store)?;
    Ok(Line2::Step { number, step })
}
