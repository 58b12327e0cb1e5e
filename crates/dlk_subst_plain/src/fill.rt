//! A formula in place of `_`.
ghost use Rattle.std.specs.Prelude.{◌≡◌, IfOk};
ghost use Rattle.dlk_tree.specs.Trees.{sort};
ghost use Rattle.dlk_tree.specs.Occurs.{is_hole};
ghost use Rattle.dlk_tree.specs.declared.op.Sort.TheVariants.{Formula};
ghost use Rattle.dlk_store.specs.Stores.{IsId, tree, StandsFor};
ghost use Rattle.dlk_calculus.specs.Plug.{filled};

use dlk_store::{Id, Steps, Store, StoreFault};
use dlk_tree::Op;
use std::alloc::Global;
use std::sync::ledger::Ledger;

fn is_hole(op: &Op) -> bool
    ensures { result ≡ is_hole op.now }
{
    matches!(op, Op::Hole)
}

/// The tree with the formula in place of each `_`.
pub(crate) fn fill<S: Store, L: Ledger>(
    alloc: Global,
    store: &mut S,
    id: Id,
    formula: Id,
    steps: &mut Steps<L>,
) -> Result<Id, StoreFault>
    requires known { IsId (S.trees store.old) id }
    requires filler { IsId (S.trees store.old) formula }
    requires sort { sort (tree (S.trees store.old) formula) ≡ Formula }
    ensures made { IfOk result (λ made. StandsFor (S.trees store.new) made (filled (tree (S.trees store.old) formula) (tree (S.trees store.old) id))) }
    ensures grows { S.grows store.old store.new }
{
    let node = store.look(id, steps);
    if is_hole(node.op) {
        return Ok(formula);
    }
    let op = node.op.clone()?;
    let kids = node.kids.to_vec(alloc)?;
    let mut new = Vec::new(alloc);
    for kid in &kids {
        let made = fill(alloc, store, *kid, formula, steps)?;
        new.push(made)?;
    }
    store.make(alloc, op, new.as_slice())
}
