//! A formula in place of `_`.
ghost use Rattle.std.specs.Prelude.{◌≡◌, ⊤};
ghost use Rattle.dlk_tree.specs.Trees.{Tree};
ghost use Rattle.dlk_tree.specs.Occurs.{has_hole, is_hole};
ghost use Rattle.dlk_store.specs.Stores.{tree};
ghost use Rattle.dlk_memo.specs.Rules.{IsReadyFormula, Fills, FillsAll, FillsAt, filling, ready_formula_kept, formula_same};

use crate::rule::Rule;
use dlk_sequent::ApplyFault;
use dlk_store::{Id, Steps, Store};
use dlk_tree::Op;
use std::alloc::{AllocError, Global};
use std::sync::ledger::Ledger;

/// The formula comes in place of each `_`.
#[derive(Drop)]
pub(crate) struct Filling {
    pub formula: Id,
}

impl Rule for Filling {
    /// Whether the operator is `_`.
    type Task = bool;

    ghost IsTask = { λ r op task. task ≡ is_hole op };

    ghost Job = { Tree };

    ghost job = { λ r trees. tree trees r.formula };

    ghost Makes = { Fills };

    ghost MakesAll = { FillsAll };

    ghost MakesAt = { FillsAt };

    ghost IsReady = { λ r trees. IsReadyFormula trees r.formula };

    ghost Allows = { λ f op old. ⊤ };

    ghost looks = { λ job. 0 };

    ghost may_change = { λ f t. has_hole t };

    ghost rows = { filling };

    ghost allowed = { λ f op old new t row. tt };

    ghost ready_kept = { λ r old new keeps ready. ready_formula_kept keeps r.formula ready };

    ghost job_kept = { λ r old new keeps ready. formula_same keeps r.formula ready };

    ghost sort_kept = { λ r trees t u ready well made. ready.keeps_sort t u well made };

    fn may_change<S: Store>(&self, store: &S, id: Id) -> bool {
        store.has_hole(id)
    }

    fn allows<S: Store>(&self, _store: &S, _op: &Op, _kids: &[Id]) -> Result<bool, AllocError> {
        Ok(true)
    }

    fn task(&self, op: &Op) -> Result<bool, AllocError> {
        Ok(matches!(op, Op::Hole))
    }

    fn at<S: Store, L: Ledger>(
        &self,
        alloc: Global,
        store: &mut S,
        id: Id,
        task: bool,
        _old: &[Id],
        new: &[Id],
        _steps: &mut Steps<L>,
    ) -> Result<Id, ApplyFault> {
        if task {
            return Ok(self.formula);
        }
        Ok(store.make_like(alloc, id, new)?)
    }
}
