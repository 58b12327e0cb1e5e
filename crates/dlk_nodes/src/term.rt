//! The lines of a step, written.
ghost use Rattle.std.specs.Prelude.{◌≡◌, ◌+◌, ◌*◌, ◌-◌, ◌≤◌, ◌++◌, length, take, drop, All, IsTrue, OnOk, IfErr};
ghost use Rattle.dlk_store.specs.Stores.{IsId};
ghost use Rattle.dlk_rules.specs.Steps.{step_at, HasKnownIds};
ghost use Rattle.dlk_print.specs.Printed.{Begun, Appends};
ghost use Rattle.dlk_lines.specs.Written.{trees_of};
ghost use Rattle.dlk_lines.specs.declared.fault.LineFault.TheVariants.{Memory};
ghost use Rattle.dlk_nodes.specs.Put.{AreBegun, KidsFollow};
ghost use Rattle.dlk_nodes.specs.Tables.{nodes_at};
ghost use Rattle.dlk_nodes.specs.TermFiles.{nodes_after, node_lines, its_lines, ended};
ghost use Rattle.dlk_nodes.specs.Terms.{new_in_each};

use crate::adding::add_step;
use crate::spelling::NodesOf;
use crate::table::NodeTable;
use crate::writing::append_node;
use dlk_lines::{LineFault, write_step_line};
use dlk_print::{PrintFault, append};
use dlk_rules::Step;
use dlk_store::{Steps, Store};
use std::sync::ledger::Ledger;

/// Appends the lines of the nodes from this place on, each with a line feed behind it.
fn append_nodes<S: Store, L: Ledger>(
    store: &S,
    table: &NodeTable,
    from: usize,
    out: &mut Vec<u8>,
    steps: &mut Steps<L>,
) -> Result<(), PrintFault>
    requires unique { IsTrue S.unique }
    requires nodes { All (IsId (S.trees store.now)) table.now }
    requires from { from ≤ length table.now }
    requires follow { KidsFollow (take from (nodes_at (S.trees store.now) table.now)) (drop from (nodes_at (S.trees store.now) table.now)) }
    ensures text { Appends out.old.items out.new.items
        (ended (node_lines (take from (nodes_at (S.trees store.now) table.now)) (drop from (nodes_at (S.trees store.now) table.now)))) result }
    ensures looks { steps.new ≤ steps.old + (length table.now - from) }
{
    for place in from..table.len() {
        let id = table.ids()[place];
        append_node(store, table, place + 1, id, out, steps)?;
        append(out, b"\n")?;
    }
    Ok(())
}

/// Appends the lines of the nodes that the step's trees lack, and then the line of the step by the numbers of nodes, each with a line feed
/// behind it. The nodes are put behind those of the table. Each of them is looked at twice, and no other one.
///
/// # Errors
///
/// `Memory` alone. Then a prefix of the text was appended, and some first ones of the nodes were put behind the others.
pub fn write_step<S: Store, L: Ledger>(
    number: u32,
    step: &Step,
    table: &mut NodeTable,
    store: &S,
    out: &mut Vec<u8>,
    steps: &mut Steps<L>,
) -> Result<(), LineFault>
    requires unique { IsTrue S.unique }
    requires step { HasKnownIds (S.trees store.now) step.now }
    requires nodes { All (IsId (S.trees store.now)) table.old }
    ensures text { OnOk result (out.new.items ≡ out.old.items ++
        ended (its_lines (nodes_at (S.trees store.now) table.old) number (step_at (S.trees store.now) step.now))) }
    ensures begun { Begun out.old.items out.new.items
        (ended (its_lines (nodes_at (S.trees store.now) table.old) number (step_at (S.trees store.now) step.now))) }
    ensures nodes { OnOk result
        (nodes_at (S.trees store.now) table.new ≡ nodes_after (nodes_at (S.trees store.now) table.old) (step_at (S.trees store.now) step.now)) }
    ensures put { AreBegun (nodes_at (S.trees store.now) table.old) (nodes_at (S.trees store.now) table.new)
        (new_in_each (nodes_at (S.trees store.now) table.old) (trees_of (step_at (S.trees store.now) step.now))) }
    ensures known { All (IsId (S.trees store.now)) table.new }
    ensures memory { IfErr result (λ e. e ≡ Memory) }
    ensures looks { OnOk result (steps.new + 2 * length table.old ≤ steps.old + 2 * length table.new) }
{
    let from = table.len();
    add_step(step, store, table, steps)?;
    append_nodes(store, table, from, out, steps)?;
    write_step_line(number, step, &NodesOf { store, table }, out, steps)?;
    append(out, b"\n")?;
    Ok(())
}
