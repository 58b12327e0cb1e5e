//! Sequents and formulas by the numbers of their nodes.
ghost use Rattle.std.specs.Prelude.{◌≡◌, ◌≢◌, List, All, IsTrue, IfOk, IfErr};
ghost use Rattle.dlk_tree.specs.declared.op.Sort.TheVariants.{Formula as OfFormulas};
ghost use Rattle.dlk_tree.specs.Trees.{Tree, sort};
ghost use Rattle.dlk_calculus.specs.Sequents.{Sequent as TreeSequent};
ghost use Rattle.dlk_store.specs.declared.Id.{Id as TreeId};
ghost use Rattle.dlk_store.specs.Stores.{IsId, tree};
ghost use Rattle.dlk_sequent.specs.Sequents.{sequent_at, IsKnown};
ghost use Rattle.dlk_lines.specs.Spelled.{NamesSequent, NamesFormula};
ghost use Rattle.dlk_lines.specs.declared.fault.LineFault.TheVariants.{Memory};
ghost use Rattle.dlk_lines.specs.Read.{IsLineFaultOf};
ghost use Rattle.dlk_nodes.specs.Sides.{Sides};
ghost use Rattle.dlk_nodes.specs.Tables.{nodes_at};

use crate::numbers::{node_numbered, nodes_behind};
use crate::parts::behind;
use crate::table::NodeTable;
use dlk_lines::{LineFault, cut_at};
use dlk_sequent::{Listed, Sequent};
use dlk_store::{Id, Steps, Store};
use dlk_tree::{Sort, sort_of};
use std::alloc::Global;
use std::sync::ledger::Ledger;

/// The nodes on both sides of a sequent: numbers each before a space, the arrow, and numbers each behind a space.
fn sides(alloc: Global, text: &[u8], table: &NodeTable) -> Result<(Vec<Id>, Vec<Id>), LineFault>
    ensures found { IfOk result (λ p. Sides table.now text.now p.0.items p.1.items) }
    ensures fault { IfErr result (IsLineFaultOf ((xs ys : List TreeId) → ¬ Sides table.now text.now xs ys)) }
{
    let mut ante = Vec::new(alloc);
    let mut left = text;
    loop {
        if let Some(right) = behind(left, b"==>") {
            let succ = nodes_behind(alloc, right, table)?;
            return Ok((ante, succ));
        }
        let Some((digits, more)) = cut_at(left, b' ') else {
            return Err(LineFault::Malformed);
        };
        let Some(id) = node_numbered(digits, table) else {
            return Err(LineFault::Malformed);
        };
        ante.push(id)?;
        left = more;
    }
}

/// Whether the tree is a formula.
fn is_formula<S: Store, L: Ledger>(id: Id, store: &S, steps: &mut Steps<L>) -> bool
    requires { IsId (S.trees store.now) id }
    ensures yes { IsTrue result → sort (tree (S.trees store.now) id) ≡ OfFormulas }
    ensures no { sort (tree (S.trees store.now) id) ≡ OfFormulas → IsTrue result }
{
    sort_of(store.look(id, steps).op) == Sort::Formula
}

/// Whether the trees are formulas.
fn are_formulas<S: Store, L: Ledger>(ids: &[Id], store: &S, steps: &mut Steps<L>) -> bool
    requires { All (IsId (S.trees store.now)) ids.now }
    ensures yes { IsTrue result → All (λ t. sort t ≡ OfFormulas) (nodes_at (S.trees store.now) ids.now) }
    ensures no { All (λ t. sort t ≡ OfFormulas) (nodes_at (S.trees store.now) ids.now) → IsTrue result }
{
    for id in ids {
        if !is_formula(*id, store, steps) {
            return false;
        }
    }
    true
}

/// The sequent that the text says by the numbers of nodes.
pub(crate) fn read_sequent<S: Store, L: Ledger>(
    alloc: Global,
    text: &[u8],
    table: &NodeTable,
    store: &S,
    steps: &mut Steps<L>,
) -> Result<Sequent, LineFault>
    requires { All (IsId (S.trees store.now)) table.now }
    ensures found { IfOk result (λ s. NamesSequent (nodes_at (S.trees store.now) table.now) text.now (sequent_at (S.trees store.now) s)) }
    ensures known { IfOk result (IsKnown (S.trees store.now)) }
    ensures fault { IfErr result (IsLineFaultOf ((s : TreeSequent) → ¬ NamesSequent (nodes_at (S.trees store.now) table.now) text.now s)) }
{
    let (ante, succ) = sides(alloc, text, table)?;
    if !are_formulas(ante.as_slice(), store, steps) {
        return Err(LineFault::Malformed);
    }
    if !are_formulas(succ.as_slice(), store, steps) {
        return Err(LineFault::Malformed);
    }
    Ok(Sequent {
        ante: Listed::from_vec(ante),
        succ: Listed::from_vec(succ),
    })
}

/// The formula that the text says by the number of its node.
pub(crate) fn read_formula<S: Store, L: Ledger>(
    text: &[u8],
    table: &NodeTable,
    store: &S,
    steps: &mut Steps<L>,
) -> Result<Id, LineFault>
    requires { All (IsId (S.trees store.now)) table.now }
    ensures found { IfOk result (λ h. NamesFormula (nodes_at (S.trees store.now) table.now) text.now (tree (S.trees store.now) h)) }
    ensures known { IfOk result (IsId (S.trees store.now)) }
    ensures fault { IfErr result (IsLineFaultOf ((h : Tree) → ¬ NamesFormula (nodes_at (S.trees store.now) table.now) text.now h)) }
    ensures decides { IfErr result (λ why. why ≢ Memory) }
{
    let Some(digits) = behind(text, b"#") else {
        return Err(LineFault::Malformed);
    };
    let Some(id) = node_numbered(digits, table) else {
        return Err(LineFault::Malformed);
    };
    if !is_formula(id, store, steps) {
        return Err(LineFault::Malformed);
    }
    Ok(id)
}
