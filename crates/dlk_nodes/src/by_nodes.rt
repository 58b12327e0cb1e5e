//! The trees of a step by the numbers of their nodes.
use crate::pairs::read_pairs;
use crate::sequents::{read_formula, read_sequent};
use crate::table::NodeTable;
use dlk_lines::{LineFault, Spelled};
use dlk_sequent::{Listed, Pair, Sequent};
use dlk_store::{Id, Steps, Store};
use std::alloc::Global;
use std::sync::ledger::Ledger;

/// Reads the numbers of nodes. The sort of each node that is named takes a look.
#[derive(Drop)]
pub(crate) struct NodesRead<'a, L: Ledger> {
    pub table: &'a NodeTable,
    pub steps: &'a mut Steps<L>,
}

impl<'a, L: Ledger> Spelled for NodesRead<'a, L> {
    ghost use Rattle.std.specs.Prelude.{All};
    ghost use Rattle.dlk_store.specs.Stores.{IsId};
    ghost use Rattle.dlk_lines.specs.Spelled.{ByNodes};
    ghost use Rattle.dlk_nodes.specs.Tables.{nodes_at};

    ghost spelling = { λ s trees. ByNodes (nodes_at trees s.table.now) };

    ghost IsReady = { λ s trees. All (IsId trees) s.table.now };

    fn sequent<S: Store>(
        &mut self,
        alloc: Global,
        text: &[u8],
        store: &mut S,
    ) -> Result<Sequent, LineFault> {
        read_sequent(alloc, text, self.table, store, self.steps)
    }

    fn pairs<S: Store>(
        &mut self,
        alloc: Global,
        text: &[u8],
        store: &mut S,
    ) -> Result<Listed<Pair>, LineFault> {
        let pairs = read_pairs(alloc, text, self.table, store, self.steps)?;
        Ok(Listed::from_vec(pairs))
    }

    fn formula<S: Store>(
        &mut self,
        _alloc: Global,
        text: &[u8],
        store: &mut S,
    ) -> Result<Id, LineFault> {
        read_formula(text, self.table, store, self.steps)
    }
}
