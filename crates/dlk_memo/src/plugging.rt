//! Arguments in place of argument dots.
ghost use Rattle.std.specs.Prelude.{◌≡◌, List};
ghost use Rattle.dlk_tree.specs.Trees.{Tree};
ghost use Rattle.dlk_tree.specs.Occurs.{has_dots};
ghost use Rattle.dlk_store.specs.Stores.{IsId, tree};
ghost use Rattle.dlk_calculus.specs.Plug.{IsClear, Plug, PlugAll, PlugAt};
ghost use Rattle.dlk_subst.specs.Results.{args_at};
ghost use Rattle.dlk_subst.specs.Rows.{plugging};
ghost use Rattle.dlk_subst.specs.DotEffects.{dot_effect_of};
ghost use Rattle.dlk_memo.specs.Binders.{AllowsBelow};
ghost use Rattle.dlk_memo.specs.Rules.{AreReadyArgs, ready_args_kept, args_same, plug_allows};

use crate::binder::quantified;
use crate::rule::Rule;
use dlk_sequent::ApplyFault;
use dlk_store::{Id, Steps, Store};
use dlk_subst::{DotEffect, Scope, dot_effect_at, is_clear, plug_like};
use dlk_tree::Op;
use std::alloc::{AllocError, Global};
use std::sync::ledger::Ledger;

/// The arguments come in place of the dots.
#[derive(Drop)]
pub(crate) struct Plugging<'a> {
    pub args: &'a [Id],
}

/// Whether an argument dot stands in the tree.
fn has_dots<S: Store>(store: &S, id: Id) -> bool
    requires { IsId (S.trees store.now) id }
    ensures { result ≡ has_dots (tree (S.trees store.now) id) }
{
    for n in 0..8 {
        if store.has_dot(id, n) {
            return true;
        }
    }
    false
}

impl Rule for Plugging<'_> {
    type Task = DotEffect;

    ghost IsTask = { λ r op task. task ≡ dot_effect_of op };

    ghost Job = { List Tree };

    ghost job = { λ r trees. args_at trees r.args.now };

    ghost Makes = { Plug };

    ghost MakesAll = { PlugAll };

    ghost MakesAt = { PlugAt };

    ghost IsReady = { λ r trees. AreReadyArgs trees r.args.now };

    ghost Allows = { λ args op old. AllowsBelow (IsClear args) op old };

    ghost looks = { λ job. 0 };

    ghost may_change = { λ args t. has_dots t };

    ghost rows = { plugging };

    ghost allowed = { plug_allows };

    ghost ready_kept = { λ r old new keeps ready. ready_args_kept keeps r.args.now ready };

    ghost job_kept = { λ r old new keeps ready. args_same keeps r.args.now ready };

    ghost sort_kept = { λ r trees t u ready well made. ready.keeps_sort t u well made };

    fn may_change<S: Store>(&self, store: &S, id: Id) -> bool {
        has_dots(store, id)
    }

    fn allows<S: Store>(&self, store: &S, op: &Op, kids: &[Id]) -> Result<bool, AllocError> {
        match quantified(op)? {
            Some(x) => Ok(is_clear(store, self.args, &Scope::Only(x), kids)),
            None => Ok(true),
        }
    }

    fn task(&self, op: &Op) -> Result<DotEffect, AllocError> {
        dot_effect_at(op)
    }

    fn at<S: Store, L: Ledger>(
        &self,
        alloc: Global,
        store: &mut S,
        id: Id,
        task: DotEffect,
        old: &[Id],
        new: &[Id],
        _steps: &mut Steps<L>,
    ) -> Result<Id, ApplyFault> {
        plug_like(alloc, store, self.args, id, task, old, new)
    }
}
