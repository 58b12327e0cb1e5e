//! What a rule looks at: the formulas at its places, their top operators and their kids.
ghost use Rattle.std.specs.Prelude.{◌≡◌, ◌≢◌, ◌∷◌, [], All, map, IfOk, IfErr};
ghost use Rattle.dlk_tree.specs.declared.op.Sort.TheVariants.{Formula};
ghost use Rattle.dlk_tree.specs.Table.{kid_sorts};
ghost use Rattle.dlk_tree.specs.Trees.{Tree, Forest, node};
ghost use Rattle.dlk_store.specs.Stores.{IsId, tree};
ghost use Rattle.dlk_calculus.specs.Notation.{leaf, one, two};
ghost use Rattle.dlk_calculus.specs.Places.{At};
ghost use Rattle.dlk_rules.specs.declared.rule.RuleFault.TheVariants.{Memory};
ghost use Rattle.dlk_rules.specs.Looks.{IsAt, IsNodeAt, IsKidAt, AreKidsAt, IsPlaceFault, IsFormFault};

use crate::rule::RuleFault;
use dlk_sequent::{Listed, item_at};
use dlk_store::{Id, Node, Steps, Store};
use dlk_tree::{Op, same_op};
use std::sync::ledger::Ledger;

/// The formula at a place of a side, counted from 1.
pub(crate) fn formula_at<S: Store>(
    store: &S,
    side: &Listed<Id>,
    place: u32,
) -> Result<Id, RuleFault>
    requires { All (IsId (S.trees store.now)) side.now }
    ensures ok { IfOk result (IsAt (S.trees store.now) (map (tree (S.trees store.now)) side.now) place) }
    ensures fault { IfErr result (IsPlaceFault (S.trees store.now) side.now place) }
{
    match item_at(side.as_slice(), place) {
        Some(id) => Ok(*id),
        None => Err(RuleFault::NoPlace),
    }
}

/// The operator at the top of the formula at a place, with its kids.
pub(crate) fn top_at<'a, S: Store, L: Ledger>(
    store: &'a S,
    side: &Listed<Id>,
    place: u32,
    steps: &mut Steps<L>,
) -> Result<Node<'a>, RuleFault>
    requires { All (IsId (S.trees store.now)) side.now }
    ensures ok { IfOk result (λ top. IsNodeAt (S.trees store.now) (map (tree (S.trees store.now)) side.now) place top.op.now top.kids.now) }
    ensures fault { IfErr result (IsPlaceFault (S.trees store.now) side.now place) }
{
    let id = formula_at(store, side, place)?;
    Ok(store.look(id, steps))
}

/// The formula at a place, which has this operator at its top.
fn node_at<'a, S: Store, L: Ledger>(
    store: &'a S,
    side: &Listed<Id>,
    place: u32,
    op: &Op,
    steps: &mut Steps<L>,
) -> Result<&'a [Id], RuleFault>
    requires { All (IsId (S.trees store.now)) side.now }
    ensures ok { IfOk result (λ kids. IsNodeAt (S.trees store.now) (map (tree (S.trees store.now)) side.now) place op.now kids.now) }
    ensures fault { IfErr result (IsFormFault (S.trees store.now) side.now place Forest (node op.now)) }
    ensures decides { IfErr result (λ why. why ≢ Memory) }
{
    let top = top_at(store, side, place, steps)?;
    if !same_op(top.op, op) {
        return Err(RuleFault::WrongShape);
    }
    Ok(top.kids)
}

/// Whether the formula at a place is this operator, which has no kids: `WrongShape` where it isn't.
pub(crate) fn check_leaf<S: Store, L: Ledger>(
    store: &S,
    side: &Listed<Id>,
    place: u32,
    op: &Op,
    steps: &mut Steps<L>,
) -> Result<(), RuleFault>
    requires known { All (IsId (S.trees store.now)) side.now }
    requires alone { kid_sorts op.now ≡ [] }
    ensures ok { IfOk result (λ done. At (map (tree (S.trees store.now)) side.now) place (leaf op.now)) }
    ensures fault { IfErr result (IsFormFault (S.trees store.now) side.now place (Unit {0}) (λ p. leaf op.now)) }
    ensures decides { IfErr result (λ why. why ≢ Memory) }
{
    node_at(store, side, place, op, steps)?;
    Ok(())
}

/// The kid of the formula at a place, which has this operator at its top: `WrongShape` where it hasn't.
pub(crate) fn kid_at<S: Store, L: Ledger>(
    store: &S,
    side: &Listed<Id>,
    place: u32,
    op: &Op,
    steps: &mut Steps<L>,
) -> Result<Id, RuleFault>
    requires known { All (IsId (S.trees store.now)) side.now }
    requires kid { kid_sorts op.now ≡ Formula ∷ [] }
    ensures ok { IfOk result (IsKidAt (S.trees store.now) (map (tree (S.trees store.now)) side.now) place op.now) }
    ensures fault { IfErr result (IsFormFault (S.trees store.now) side.now place Tree (one op.now)) }
    ensures decides { IfErr result (λ why. why ≢ Memory) }
{
    let kids = node_at(store, side, place, op, steps)?;
    Ok(kids[0])
}

/// The two kids of the formula at a place, which has this operator at its top: `WrongShape` where it hasn't.
pub(crate) fn kids_at<S: Store, L: Ledger>(
    store: &S,
    side: &Listed<Id>,
    place: u32,
    op: &Op,
    steps: &mut Steps<L>,
) -> Result<(Id, Id), RuleFault>
    requires known { All (IsId (S.trees store.now)) side.now }
    requires kids { kid_sorts op.now ≡ Formula ∷ Formula ∷ [] }
    ensures ok { IfOk result (λ kids. AreKidsAt (S.trees store.now) (map (tree (S.trees store.now)) side.now) place op.now kids.0 kids.1) }
    ensures fault { IfErr result (IsFormFault (S.trees store.now) side.now place (Tree × Tree) (λ p. two op.now p.0 p.1)) }
    ensures decides { IfErr result (λ why. why ≢ Memory) }
{
    let kids = node_at(store, side, place, op, steps)?;
    Ok((kids[0], kids[1]))
}
