//! The plan of a `( )'`: the uses of axioms that make its derivative of it.
ghost use Rattle.std.specs.Prelude.{◌≡◌, ◌+◌, ◌≤◌, ◌++◌, List, length, map, All, Err, MatchOption, IfOk, IfErr, OnOk};
ghost use Rattle.dlk_tree.specs.Trees.{Tree, size};
ghost use Rattle.dlk_store.specs.Stores.{IsId, tree};
ghost use Rattle.dlk_sequent.specs.Sequents.{sequent_at, IsKnown};
ghost use Rattle.dlk_tacsyn.specs.Ties.{atom_at, AtomIsKnown};
ghost use Rattle.dlk_uses.specs.Uses.{formula_at};
ghost use Rattle.dlk_derive.specs.declared.fault.DeriveFault.TheVariants.{Memory};
ghost use Rattle.dlk_derive.specs.Decided.{IsDerivable};
ghost use Rattle.dlk_derive.specs.Derives.{NoPlace, IsDifferential, Plans, NoPlan, use_of};
ghost use Rattle.dlk_derive.specs.Plans.{Call, plan_at};
ghost use Rattle.dlk_derive.specs.Looks.{plan_looks};
ghost use Rattle.dlk_derive.specs.Ties.{IsDeriveFaultOf, IsTreeAt, IsDifferentialOf, atom_of};

use crate::calls::{further, use_of, ways_for};
use crate::derivable::has_derivative;
use crate::fault::DeriveFault;
use dlk_sequent::{Place, Sequent, subtree};
use dlk_store::{Id, Steps, Store};
use dlk_tacsyn::Atom;
use dlk_tree::Op;
use dlk_uses::formula_at;
use std::alloc::{AllocError, Global};
use std::sync::ledger::Ledger;

/// The tree at a path in the formula at a place. None comes where the place or the path isn't there.
fn tree_at<S: Store, L: Ledger>(
    store: &S,
    s: &Sequent,
    place: Place,
    path: &[u32],
    steps: &mut Steps<L>,
) -> Option<Id>
    requires { IsKnown (S.trees store.now) s.now }
    ensures found { MatchOption result (NoPlan (formula_at (sequent_at (S.trees store.now) s.now) place) path.now NoPlace)
        (IsTreeAt (S.trees store.now) s.now place path.now) }
    ensures cost { steps.new ≤ steps.old + length path.now }
{
    let Some(formula) = formula_at(s, place) else {
        return None;
    };
    subtree(store, formula, path, steps)
}

/// What the tree is the `( )'` of. None comes where it is none.
fn under_differential<S: Store, L: Ledger>(store: &S, id: Id, steps: &mut Steps<L>) -> Option<Id>
    requires { IsId (S.trees store.now) id }
    ensures kid { MatchOption result ((k : Tree) → ¬ IsDifferential (tree (S.trees store.now) id) k) (IsDifferentialOf (S.trees store.now) id) }
    ensures cost { steps.new ≤ steps.old + 1 }
{
    let node = store.look(id, steps);
    match node.op {
        Op::Diff | Op::DiffF => Some(node.kids[0]),
        _ => None,
    }
}

/// Adds the uses for a `( )'` of this tree at a path, in turn: that of its own axiom, and then those for each `( )'` that this makes.
fn add_uses<S: Store, L: Ledger>(
    alloc: Global,
    store: &S,
    id: Id,
    place: Place,
    path: &[u32],
    uses: &mut Vec<Atom>,
    steps: &mut Steps<L>,
) -> Result<(), AllocError>
    requires known { IsId (S.trees store.now) id }
    requires derivable { IsDerivable (tree (S.trees store.now) id) }
    ensures uses { OnOk result (uses.new.items ≡ uses.old.items ++ map (atom_of place) (plan_at (tree (S.trees store.now) id) path.now)) }
    ensures cost { steps.new ≤ steps.old + size (tree (S.trees store.now) id) }
{
    let node = store.look(id, steps);
    let own = use_of(alloc, node.op, place, path)?;
    uses.push(own)?;
    let ways = ways_for(node.op);
    for n in 0..ways.len().min(node.kids.len()) {
        let further = further(alloc, path, ways[n])?;
        add_uses(
            alloc,
            store,
            node.kids[n],
            place,
            further.as_slice(),
            uses,
            steps,
        )?;
    }
    Ok(())
}

/// The plan of the `( )'` at a path in the formula at a place of a goal: an atom `useAt` for each use of an axiom, in turn. Run one after
/// another they make the derivative of the `( )'`. The byte of each is 0; who runs them gives them that of the name they stand for. It only
/// looks: nothing is made in the store, and the ids of the goal are those of the store. It takes at most a look for each kid of the path, and
/// three at each node of the `( )'`.
///
/// # Errors
///
/// - `NoPlace`: the place or the path isn't there.
/// - `WrongShape`: they are, and no `( )'` stands there.
/// - `NoMatch`: one does, and what is under it has no derivative.
/// - `Memory`: for want of memory.
pub fn plan<S: Store, L: Ledger>(
    alloc: Global,
    store: &S,
    s: &Sequent,
    place: Place,
    path: &[u32],
    steps: &mut Steps<L>,
) -> Result<Vec<Atom>, DeriveFault>
    requires { IsKnown (S.trees store.now) s.now }
    ensures plan { IfOk result (λ atoms. (calls : List Call) × Plans (formula_at (sequent_at (S.trees store.now) s.now) place) path.now calls ×
        ((trees : List Tree) → map (atom_at trees) atoms.items ≡ map (use_of 0 place) calls)) }
    ensures known { IfOk result (λ atoms. (trees : List Tree) → All (AtomIsKnown trees) atoms.items) }
    ensures fault { IfErr result (IsDeriveFaultOf (NoPlan (formula_at (sequent_at (S.trees store.now) s.now) place) path.now)) }
    ensures memory { result ≡ Err Memory → (calls : List Call) × Plans (formula_at (sequent_at (S.trees store.now) s.now) place) path.now calls }
    ensures cost { steps.new ≤ steps.old + plan_looks (formula_at (sequent_at (S.trees store.now) s.now) place) path.now }
{
    let Some(found) = tree_at(store, s, place, path, steps) else {
        return Err(DeriveFault::NoPlace);
    };
    let Some(kid) = under_differential(store, found, steps) else {
        return Err(DeriveFault::WrongShape);
    };
    if !has_derivative(store, found, steps) {
        return Err(DeriveFault::NoMatch);
    }
    let mut uses = Vec::new(alloc);
    add_uses(alloc, store, kid, place, path, &mut uses, steps)?;
    Ok(uses)
}
