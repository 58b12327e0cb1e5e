//! The text of a sequent.
ghost use Rattle.std.specs.Prelude.{◌≡◌, ◌+◌, ◌≤◌, ◌++◌, All, OnOk, map, sum_by};
ghost use Rattle.dlk_tree.specs.Trees.{size};
ghost use Rattle.dlk_store.specs.Stores.{IsId, tree};
ghost use Rattle.dlk_sequent.specs.Sequents.{sequent_at, IsKnown};
ghost use Rattle.dlk_grammar.specs.Shown.{spell, formulas, left_side, right_side, shown_sequent};
ghost use Rattle.dlk_print.specs.Printed.{Begun, Appends};

use crate::appending::append;
use crate::fault::PrintFault;
use crate::printing::{gap, text};
use dlk_sequent::Sequent;
use dlk_store::{Id, Steps, Store};
use std::sync::ledger::Ledger;

/// Appends the canonical text of a sequent. Without memory a prefix of it was appended.
pub fn sequent_text<S: Store, L: Ledger>(
    store: &S,
    s: &Sequent,
    out: &mut Vec<u8>,
    steps: &mut Steps<L>,
) -> Result<(), PrintFault>
    requires known { IsKnown (S.trees store.now) s.now }
    ensures ok { OnOk result (out.new.items ≡ out.old.items ++ spell (shown_sequent (sequent_at (S.trees store.now) s.now))) }
    ensures memory { Begun out.old.items out.new.items (spell (shown_sequent (sequent_at (S.trees store.now) s.now))) }
    ensures cost { let s = sequent_at (S.trees store.now) s.now in steps.new ≤ steps.old + (sum_by size s.ante + sum_by size s.succ) }
{
    left_side(store, s.ante.as_slice(), out, steps)?;
    append(out, b"==>")?;
    right_side(store, s.succ.as_slice(), out, steps)
}

fn left_side<S: Store, L: Ledger>(
    store: &S,
    ids: &[Id],
    out: &mut Vec<u8>,
    steps: &mut Steps<L>,
) -> Result<(), PrintFault>
    requires { All (IsId (S.trees store.now)) ids.now }
    ensures text { Appends out.old.items out.new.items (spell (left_side (map (tree (S.trees store.now)) ids.now))) result }
    ensures cost { steps.new ≤ steps.old + sum_by size (map (tree (S.trees store.now)) ids.now) }
{
    if ids.is_empty() {
        return Ok(());
    }
    formulas(store, ids, out, steps)?;
    append(out, b" ")
}

fn right_side<S: Store, L: Ledger>(
    store: &S,
    ids: &[Id],
    out: &mut Vec<u8>,
    steps: &mut Steps<L>,
) -> Result<(), PrintFault>
    requires { All (IsId (S.trees store.now)) ids.now }
    ensures text { Appends out.old.items out.new.items (spell (right_side (map (tree (S.trees store.now)) ids.now))) result }
    ensures cost { steps.new ≤ steps.old + sum_by size (map (tree (S.trees store.now)) ids.now) }
{
    if ids.is_empty() {
        return Ok(());
    }
    append(out, b" ")?;
    formulas(store, ids, out, steps)
}

/// Appends the formulas with commas and spaces between them.
fn formulas<S: Store, L: Ledger>(
    store: &S,
    ids: &[Id],
    out: &mut Vec<u8>,
    steps: &mut Steps<L>,
) -> Result<(), PrintFault>
    requires { All (IsId (S.trees store.now)) ids.now }
    ensures text { Appends out.old.items out.new.items (spell (formulas (map (tree (S.trees store.now)) ids.now))) result }
    ensures cost { steps.new ≤ steps.old + sum_by size (map (tree (S.trees store.now)) ids.now) }
{
    for (i, id) in ids.iter().enumerate() {
        append(out, gap(i, b", "))?;
        text(store, *id, out, steps)?;
    }
    Ok(())
}
