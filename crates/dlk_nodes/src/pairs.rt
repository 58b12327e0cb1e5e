//! The pairs of a substitution by the numbers of their nodes.
ghost use Rattle.std.specs.Prelude.{◌≡◌, ◌≢◌, ℕ, List, [], Option, option_copied, MatchOption, All, IfOk, IfErr};
ghost use Rattle.dlk_tree.specs.Trees.{node, root};
ghost use Rattle.dlk_calculus.specs.Kids.{last};
ghost use Rattle.dlk_calculus.specs.Pairs.{Pair as TreePair, is_true, is_of_kind};
ghost use Rattle.dlk_store.specs.Stores.{IsId, kid_trees};
ghost use Rattle.dlk_sequent.specs.Substitutions.{pair_at, pairs_at, AreKnownPairs};
ghost use Rattle.dlk_lines.specs.Spelled.{NamesPairs};
ghost use Rattle.dlk_lines.specs.Read.{IsLineFaultOf};
ghost use Rattle.dlk_nodes.specs.FirstPair.{UpToComma, FirstPair};
ghost use Rattle.dlk_nodes.specs.Tables.{nodes_at};

use crate::numbers::node_numbered;
use crate::parts::behind;
use crate::symbols::symbol_for;
use crate::table::NodeTable;
use dlk_lines::{LineFault, cut_at};
use dlk_sequent::Pair;
use dlk_store::{Id, Node, Steps, Store};
use dlk_tree::{Kind, Op, kind_row, sort_of};
use std::alloc::Global;
use std::sync::ledger::Ledger;

/// Whether the last of these kids of a system, its domain, is `true`.
fn ends_in_true<S: Store, L: Ledger>(kids: &[Id], store: &S, steps: &mut Steps<L>) -> bool
    requires { All (IsId (S.trees store.now)) kids.now }
    ensures { result ≡ is_true (root (last (kid_trees (S.trees store.now) kids.now))) }
{
    match kids.last() {
        Some(domain) => matches!(store.look(*domain, steps).op, Op::True),
        None => true,
    }
}

/// Whether the node is of the sort of a symbol of this kind. For an ODE constant it is to be a system whose domain is `true`.
fn suits<S: Store, L: Ledger>(kind: Kind, root: Node<'_>, store: &S, steps: &mut Steps<L>) -> bool
    requires { All (IsId (S.trees store.now)) root.kids.now }
    ensures { result ≡ is_of_kind kind (node root.entry.op.now (kid_trees (S.trees store.now) root.entry.kids.now)) }
{
    if kind == Kind::Ode {
        return matches!(root.op, Op::System(_)) && ends_in_true(root.kids, store, steps);
    }
    sort_of(root.op) == kind_row(kind).sort
}

/// The text up to the first comma, and what comes behind it.
fn up_to_comma(text: &[u8]) -> (&[u8], Option<&[u8]>)
    ensures { UpToComma text.now result.0.now (option_copied result.1) }
{
    match cut_at(text, b',') {
        Some((front, rest)) => (front, Some(rest)),
        None => (text, None),
    }
}

/// The text, unless it is empty.
fn unless_empty(text: &[u8]) -> Option<&[u8]>
    ensures { MatchOption result (text.now ≡ []) (λ all. (all.now ≡ text.now) × (text.now ≢ [])) }
{
    if text.is_empty() {
        return None;
    }
    Some(text)
}

/// The pair that the text begins with, and what comes behind its comma.
fn first_pair<'a, S: Store, L: Ledger>(
    alloc: Global,
    text: &'a [u8],
    table: &NodeTable,
    store: &S,
    steps: &mut Steps<L>,
) -> Result<(Pair, Option<&'a [u8]>), LineFault>
    requires { All (IsId (S.trees store.now)) table.now }
    ensures found { IfOk result (λ p. FirstPair (nodes_at (S.trees store.now) table.now) text.now (pair_at (S.trees store.now) p.0) (option_copied p.1)) }
    ensures known { IfOk result (λ p. IsId (S.trees store.now) p.0.by) }
    ensures fault { IfErr result (IsLineFaultOf ((p : TreePair) (rest : Option (List ℕ)) →
        ¬ FirstPair (nodes_at (S.trees store.now) table.now) text.now p rest)) }
{
    let Some((left, right)) = cut_at(text, b'~') else {
        return Err(LineFault::Malformed);
    };
    let Some(right) = behind(right, b">") else {
        return Err(LineFault::Malformed);
    };
    let (digits, rest) = up_to_comma(right);
    let Some(by) = node_numbered(digits, table) else {
        return Err(LineFault::Malformed);
    };
    let root = store.look(by, steps);
    let sym = symbol_for(alloc, sort_of(root.op), left)?;
    if !suits(sym.kind, root, store, steps) {
        return Err(LineFault::Malformed);
    }
    Ok((Pair { sym, by }, rest))
}

/// The pairs that the text says, with commas between.
pub(crate) fn read_pairs<S: Store, L: Ledger>(
    alloc: Global,
    text: &[u8],
    table: &NodeTable,
    store: &S,
    steps: &mut Steps<L>,
) -> Result<Vec<Pair>, LineFault>
    requires { All (IsId (S.trees store.now)) table.now }
    ensures found { IfOk result (λ pairs. NamesPairs (nodes_at (S.trees store.now) table.now) text.now (pairs_at (S.trees store.now) pairs.items)) }
    ensures known { IfOk result (λ pairs. AreKnownPairs (S.trees store.now) pairs.items) }
    ensures fault { IfErr result (IsLineFaultOf ((pairs : List TreePair) → ¬ NamesPairs (nodes_at (S.trees store.now) table.now) text.now pairs)) }
{
    let mut pairs = Vec::new(alloc);
    let mut left = unless_empty(text);
    while let Some(part) = left {
        let (pair, rest) = first_pair(alloc, part, table, store, steps)?;
        pairs.push(pair)?;
        left = rest;
    }
    Ok(pairs)
}
