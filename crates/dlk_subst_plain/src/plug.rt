//! Arguments in place of argument dots.
ghost use Rattle.std.specs.Prelude.{◌≡◌, ◌≤◌, IfOk, All, length, Err};
ghost use Rattle.dlk_tree.specs.Trees.{Tree, sort};
ghost use Rattle.dlk_tree.specs.declared.op.Sort.TheVariants.{Term};
ghost use Rattle.dlk_store.specs.Stores.{IsId, tree};
ghost use Rattle.dlk_calculus.specs.Plug.{Plug};
ghost use Rattle.dlk_subst.specs.Results.{IsResult, HasNone, args_at};
ghost use Rattle.dlk_sequent.specs.declared.fault.ApplyFault.TheVariants.{NotAdmissible};

use dlk_sequent::ApplyFault;
use dlk_store::{Id, Steps, Store, copied};
use dlk_subst::plug_at;
use std::alloc::Global;
use std::sync::ledger::Ledger;

/// The tree with the arguments in place of its dots.
///
/// # Errors
///
/// `NotAdmissible` exactly where there is none: a dot has no argument, or an operator captures a variable of an argument.
pub(crate) fn plug<S: Store, L: Ledger>(
    alloc: Global,
    store: &mut S,
    args: &[Id],
    id: Id,
    steps: &mut Steps<L>,
) -> Result<Id, ApplyFault>
    requires few { length args.now ≤ 8 }
    requires args { All (IsId (S.trees store.old)) args.now }
    requires terms { All (λ (a : Tree). sort a ≡ Term) (args_at (S.trees store.old) args.now) }
    requires known { IsId (S.trees store.old) id }
    ensures ok { IfOk result (IsResult (Plug (args_at (S.trees store.old) args.now) (tree (S.trees store.old) id)) (S.trees store.new)) }
    ensures none { result ≡ Err NotAdmissible → HasNone (Plug (args_at (S.trees store.old) args.now) (tree (S.trees store.old) id)) }
    ensures grows { S.grows store.old store.new }
{
    let (op, old) = copied(alloc, store, id, steps)?;
    let mut new = Vec::new(alloc);
    for kid in &old {
        let made = plug(alloc, store, args, *kid, steps)?;
        new.push(made)?;
    }
    plug_at(alloc, store, args, &op, old.as_slice(), new.as_slice())
}
