//! The text of a tree.
ghost use Rattle.std.specs.Prelude.{◌≡◌, ◌+◌, ◌≤◌, ◌++◌, [], ◌∷◌, All, IfOk, OnOk, MatchResult, length, drop, slice_index_or};
ghost use Rattle.dlk_tree.specs.Table.{evolved};
ghost use Rattle.dlk_tree.specs.Trees.{node, trees_in, size, size_all};
ghost use Rattle.dlk_store.specs.Stores.{IsId, tree, kid_trees};
ghost use Rattle.dlk_grammar.specs.Shown.{mark, spell, between, items_of, inside, joined, item_text, item_texts, shown_at, shown_kids, shown};
ghost use Rattle.dlk_grammar.specs.declared.token.Mark.TheVariants.{Comma};
ghost use Rattle.dlk_print.specs.Printed.{Begun, Appends, gap};
ghost use Rattle.dlk_print.specs.Kids.{texts_of, first_domain};

use crate::appending::{append, append_name};
use crate::fault::PrintFault;
use crate::style::{
    between, close, close_bracket, is_true, items_of, least, level, ode_brackets, open,
    open_bracket,
};
use dlk_store::{Id, Node, Steps, Store};
use dlk_tree::{OdeItem, Op, sort_of};
use std::sync::ledger::Ledger;

/// Appends the canonical text of a tree. Without memory a prefix of it was appended.
pub fn text<S: Store, L: Ledger>(
    store: &S,
    id: Id,
    out: &mut Vec<u8>,
    steps: &mut Steps<L>,
) -> Result<(), PrintFault>
    requires known { IsId (S.trees store.now) id }
    ensures ok { OnOk result (out.new.items ≡ out.old.items ++ spell (shown (tree (S.trees store.now) id))) }
    ensures memory { Begun out.old.items out.new.items (spell (shown (tree (S.trees store.now) id))) }
    ensures cost { steps.new ≤ steps.old + size (tree (S.trees store.now) id) }
{
    text_at(store, id, 1, out, steps)
}

/// Appends the text of a tree, in brackets where its level is below the lowest.
#[cycle(text)]
fn text_at<S: Store, L: Ledger>(
    store: &S,
    id: Id,
    lowest: u8,
    out: &mut Vec<u8>,
    steps: &mut Steps<L>,
) -> Result<(), PrintFault>
    requires { IsId (S.trees store.now) id }
    ensures text { Appends out.old.items out.new.items (spell (shown_at lowest (tree (S.trees store.now) id))) result }
    ensures cost { steps.new ≤ steps.old + size (tree (S.trees store.now) id) }
{
    let node = store.look(id, steps);
    node_text(store, node.op, node.kids, lowest, out, steps)
}

#[cycle(text)]
fn node_text<S: Store, L: Ledger>(
    store: &S,
    op: &Op,
    kids: &[Id],
    lowest: u8,
    out: &mut Vec<u8>,
    steps: &mut Steps<L>,
) -> Result<(), PrintFault>
    requires { All (IsId (S.trees store.now)) kids.now }
    ensures text { Appends out.old.items out.new.items (spell (shown_at lowest (node op.now (kid_trees (S.trees store.now) kids.now)))) result }
    ensures cost { steps.new ≤ steps.old + size_all (kid_trees (S.trees store.now) kids.now) }
{
    let enclosed = level(op) < lowest;
    let sort = sort_of(op);
    append(out, open_bracket(enclosed, sort))?;
    open(out, op)?;
    inside_text(store, op, kids, out, steps)?;
    close(out, op)?;
    append(out, close_bracket(enclosed, sort))
}

/// Appends what stands between an operator's opening and closing.
#[cycle(text)]
fn inside_text<S: Store, L: Ledger>(
    store: &S,
    op: &Op,
    kids: &[Id],
    out: &mut Vec<u8>,
    steps: &mut Steps<L>,
) -> Result<(), PrintFault>
    requires { All (IsId (S.trees store.now)) kids.now }
    ensures text { let trees = kid_trees (S.trees store.now) kids.now in
        Appends out.old.items out.new.items (spell (inside (items_of op.now) (between op.now) (trees_in trees) (shown_kids op.now 0 trees))) result }
    ensures cost { steps.new ≤ steps.old + size_all (kid_trees (S.trees store.now) kids.now) }
{
    match items_of(op) {
        None => kids_text(store, op, kids, out, steps),
        Some(items) => {
            let left = items_text(store, items.items(), kids, out, steps)?;
            domain(store, left, out, steps)
        }
    }
}

/// Appends the kids' texts with what stands between them.
#[cycle(text)]
fn kids_text<S: Store, L: Ledger>(
    store: &S,
    op: &Op,
    kids: &[Id],
    out: &mut Vec<u8>,
    steps: &mut Steps<L>,
) -> Result<(), PrintFault>
    requires { All (IsId (S.trees store.now)) kids.now }
    ensures text { Appends out.old.items out.new.items (spell (joined (between op.now) (shown_kids op.now 0 (kid_trees (S.trees store.now) kids.now)))) result }
    ensures cost { steps.new ≤ steps.old + size_all (kid_trees (S.trees store.now) kids.now) }
{
    for i in 0..kids.len() {
        append(out, gap(i, between(op)))?;
        text_at(store, kids[i], least(op, i), out, steps)?;
    }
    Ok(())
}

/// What stands before the part at place `i` of several.
pub(crate) fn gap(i: usize, between: &[u8]) -> &[u8]
    ensures { result.now ≡ gap i between.now }
{
    if i == 0 { b"" } else { between }
}

/// Appends a system's items, and answers the kids behind their terms.
#[cycle(text)]
fn items_text<'a, S: Store, L: Ledger>(
    store: &S,
    items: &[OdeItem],
    kids: &'a [Id],
    out: &mut Vec<u8>,
    steps: &mut Steps<L>,
) -> Result<&'a [Id], PrintFault>
    requires { All (IsId (S.trees store.now)) kids.now }
    ensures text { Appends out.old.items out.new.items
        (spell (joined (mark Comma ∷ []) (item_texts items.now (texts_of (S.trees store.now) kids.now)))) result }
    ensures left { IfOk result (λ left. left.now ≡ drop (length (evolved items.now)) kids.now) }
    ensures cost { MatchResult result
        (λ left. steps.new + size_all (kid_trees (S.trees store.now) left.now) ≤ steps.old + size_all (kid_trees (S.trees store.now) kids.now))
        (λ _. steps.new ≤ steps.old + size_all (kid_trees (S.trees store.now) kids.now)) }
{
    let mut left = kids;
    for (i, next) in items.iter().enumerate() {
        append(out, gap(i, b","))?;
        left = item(store, next, left, out, steps)?;
    }
    Ok(left)
}

/// Appends an item with the first kid as its term, if it wants one, and answers the kids that are left.
#[cycle(text)]
fn item<'a, S: Store, L: Ledger>(
    store: &S,
    item: &OdeItem,
    kids: &'a [Id],
    out: &mut Vec<u8>,
    steps: &mut Steps<L>,
) -> Result<&'a [Id], PrintFault>
    requires { All (IsId (S.trees store.now)) kids.now }
    ensures text { Appends out.old.items out.new.items (spell (item_text item.now (texts_of (S.trees store.now) kids.now))) result }
    ensures left { IfOk result (λ left. left.now ≡ drop (length (evolved (item.now ∷ []))) kids.now) }
    ensures cost { MatchResult result
        (λ left. steps.new + size_all (kid_trees (S.trees store.now) left.now) ≤ steps.old + size_all (kid_trees (S.trees store.now) kids.now))
        (λ _. steps.new ≤ steps.old + size_all (kid_trees (S.trees store.now) kids.now)) }
{
    match item {
        OdeItem::Const(s) => {
            append_name(out, &s.name, b"")?;
            ode_brackets(out, &s.taboo)?;
            Ok(kids)
        }
        OdeItem::Evolve(x) => {
            append_name(out, x, b"'=")?;
            term(store, kids, out, steps)
        }
    }
}

/// Appends the text of the first kid, if there is one, and answers the others.
#[cycle(text)]
fn term<'a, S: Store, L: Ledger>(
    store: &S,
    kids: &'a [Id],
    out: &mut Vec<u8>,
    steps: &mut Steps<L>,
) -> Result<&'a [Id], PrintFault>
    requires { All (IsId (S.trees store.now)) kids.now }
    ensures text { Appends out.old.items out.new.items (spell (slice_index_or (texts_of (S.trees store.now) kids.now) 0 [])) result }
    ensures left { IfOk result (λ left. left.now ≡ drop 1 kids.now) }
    ensures cost { MatchResult result
        (λ left. steps.new + size_all (kid_trees (S.trees store.now) left.now) ≤ steps.old + size_all (kid_trees (S.trees store.now) kids.now))
        (λ _. steps.new ≤ steps.old + size_all (kid_trees (S.trees store.now) kids.now)) }
{
    let Some((kid, left)) = kids.split_first() else {
        return Ok(kids);
    };
    text_at(store, *kid, 1, out, steps)?;
    Ok(left)
}

/// Appends the first kid as a domain, unless it is `true`.
#[cycle(text)]
fn domain<S: Store, L: Ledger>(
    store: &S,
    kids: &[Id],
    out: &mut Vec<u8>,
    steps: &mut Steps<L>,
) -> Result<(), PrintFault>
    requires { All (IsId (S.trees store.now)) kids.now }
    ensures text { Appends out.old.items out.new.items (spell (first_domain (S.trees store.now) kids.now)) result }
    ensures cost { steps.new ≤ steps.old + size_all (kid_trees (S.trees store.now) kids.now) }
{
    let Some(id) = kids.first() else {
        return Ok(());
    };
    let node = store.look(*id, steps);
    if is_true(node.op) {
        return Ok(());
    }
    append(out, b"&")?;
    node_text(store, node.op, node.kids, 1, out, steps)
}
