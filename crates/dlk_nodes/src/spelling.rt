//! The trees of a step, written by the numbers of their nodes.
ghost use Rattle.std.specs.Prelude.{◌++◌, codes};
ghost use Rattle.std.specs.List.{flat_map};
ghost use Rattle.dlk_grammar.specs.Shown.{spell};
ghost use Rattle.dlk_grammar.specs.Symbols.{shown_symbol};
ghost use Rattle.dlk_print.specs.Printed.{Appends};
ghost use Rattle.dlk_nodes.specs.Tables.{id_text};

use crate::table::NodeTable;
use crate::writing::{append_behind, append_place};
use dlk_lines::Spells;
use dlk_print::{PrintFault, append, symbol_text};
use dlk_sequent::{Pair, Sequent};
use dlk_store::{Id, Steps, Store};
use std::sync::ledger::Ledger;

/// Appends the numbers of nodes, each before a space.
fn append_before(table: &NodeTable, ids: &[Id], out: &mut Vec<u8>) -> Result<(), PrintFault>
    ensures { Appends out.old.items out.new.items (flat_map (λ id. id_text table.now id ++ codes " ") ids.now) result }
{
    for id in ids {
        append_place(table, *id, out)?;
        append(out, b" ")?;
    }
    Ok(())
}

/// Appends a pair: its symbol, the sign, and the number of the node that replaces it.
fn append_pair(table: &NodeTable, pair: &Pair, out: &mut Vec<u8>) -> Result<(), PrintFault>
    ensures { Appends out.old.items out.new.items (spell (shown_symbol pair.now.sym) ++ codes "~>" ++ id_text table.now pair.now.by) result }
{
    symbol_text(&pair.sym, out)?;
    append(out, b"~>")?;
    append_place(table, pair.by, out)
}

/// Writes the trees of a store by the numbers of their nodes.
#[derive(Drop)]
pub(crate) struct NodesOf<'a, S> {
    pub store: &'a S,
    pub table: &'a NodeTable,
}

impl<'a, S: Store> Spells for NodesOf<'a, S> {
    ghost use Rattle.std.specs.Prelude.{All, IsTrue};
    ghost use Rattle.dlk_store.specs.Stores.{IsId};
    ghost use Rattle.dlk_lines.specs.Spelled.{ByNodes};
    ghost use Rattle.dlk_nodes.specs.Tables.{nodes_at};

    ghost trees = { λ w. S.trees w.store.now };

    ghost spelling = { λ w. ByNodes (nodes_at (S.trees w.store.now) w.table.now) };

    ghost Has = { λ w _. IsTrue S.unique × All (IsId (S.trees w.store.now)) w.table.now };

    fn sequent<L: Ledger>(
        &self,
        s: &Sequent,
        out: &mut Vec<u8>,
        _steps: &mut Steps<L>,
    ) -> Result<(), PrintFault> {
        append_before(self.table, s.ante.as_slice(), out)?;
        append(out, b"==>")?;
        append_behind(self.table, s.succ.as_slice(), out)
    }

    fn pairs<L: Ledger>(
        &self,
        pairs: &[Pair],
        out: &mut Vec<u8>,
        _steps: &mut Steps<L>,
    ) -> Result<(), PrintFault> {
        let Some((first, rest)) = pairs.split_first() else {
            return Ok(());
        };
        append_pair(self.table, first, out)?;
        for pair in rest {
            append(out, b",")?;
            append_pair(self.table, pair, out)?;
        }
        Ok(())
    }

    fn formula<L: Ledger>(
        &self,
        h: Id,
        out: &mut Vec<u8>,
        _steps: &mut Steps<L>,
    ) -> Result<(), PrintFault> {
        append(out, b"#")?;
        append_place(self.table, h, out)
    }
}
