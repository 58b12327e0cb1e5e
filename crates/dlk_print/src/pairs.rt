//! The text of a substitution.
ghost use Rattle.std.specs.Prelude.{◌≡◌, ◌+◌, ◌*◌, ◌≤◌, ◌++◌, OnOk, sum_by};
ghost use Rattle.dlk_tree.specs.Trees.{size};
ghost use Rattle.dlk_store.specs.Stores.{IsId, tree};
ghost use Rattle.dlk_sequent.specs.Substitutions.{pair_at, pairs_at, AreKnownPairs};
ghost use Rattle.dlk_grammar.specs.Shown.{spell};
ghost use Rattle.dlk_grammar.specs.Symbols.{is_function, is_formula_too, term_word, shown_pair, shown_pairs};
ghost use Rattle.dlk_print.specs.Printed.{Begun, Appends};

use crate::appending::append;
use crate::fault::PrintFault;
use crate::printing::{gap, text};
use crate::symbol::symbol_text;
use dlk_sequent::Pair;
use dlk_store::{Id, Steps, Store};
use dlk_tree::{Kind, Op};
use std::sync::ledger::Ledger;

/// Appends the canonical text of a substitution's pairs, as `f(._0)~>._0+1,a;~>x:=1;`. The word `term` stands before a
/// function's pair whose right side is a formula's text, too, as in `term f(._0)~>g(._0)`. Without memory a prefix of it was
/// appended. Each node of a replacement is looked at twice at most.
///
/// # Errors
///
/// `Memory` alone.
pub fn pairs_text<S: Store, L: Ledger>(
    store: &S,
    pairs: &[Pair],
    out: &mut Vec<u8>,
    steps: &mut Steps<L>,
) -> Result<(), PrintFault>
    requires known { AreKnownPairs (S.trees store.now) pairs.now }
    ensures ok { OnOk result (out.new.items ≡ out.old.items ++ spell (shown_pairs (pairs_at (S.trees store.now) pairs.now))) }
    ensures memory { Begun out.old.items out.new.items (spell (shown_pairs (pairs_at (S.trees store.now) pairs.now))) }
    ensures cost { steps.new ≤ steps.old + 2 * sum_by (λ p. size p.by) (pairs_at (S.trees store.now) pairs.now) }
{
    for (i, pair) in pairs.iter().enumerate() {
        append(out, gap(i, b","))?;
        pair_text(store, pair, out, steps)?;
    }
    Ok(())
}

/// Appends a pair.
fn pair_text<S: Store, L: Ledger>(
    store: &S,
    pair: &Pair,
    out: &mut Vec<u8>,
    steps: &mut Steps<L>,
) -> Result<(), PrintFault>
    requires { IsId (S.trees store.now) pair.now.by }
    ensures text { Appends out.old.items out.new.items (spell (shown_pair (pair_at (S.trees store.now) pair.now))) result }
    ensures cost { steps.new ≤ steps.old + 2 * size (tree (S.trees store.now) pair.now.by) }
{
    append(out, term_word(store, pair, steps))?;
    symbol_text(&pair.sym, out)?;
    append(out, b"~>")?;
    text(store, pair.by, out, steps)
}

/// The word `term` and a space where the right side doesn't tell the pair from a predicate's.
fn term_word<S: Store, L: Ledger>(store: &S, pair: &Pair, steps: &mut Steps<L>) -> &'static [u8]
    requires { IsId (S.trees store.now) pair.now.by }
    ensures word { result.now ≡ spell (term_word (pair_at (S.trees store.now) pair.now)) }
    ensures cost { steps.new ≤ steps.old + size (tree (S.trees store.now) pair.now.by) }
{
    if is_function(pair.sym.kind) && is_formula_too(store, pair.by, steps) {
        b"term "
    } else {
        b""
    }
}

fn is_function(kind: Kind) -> bool
    ensures { result ≡ is_function kind }
{
    matches!(kind, Kind::Func | Kind::UnitFunc)
}

/// Whether a term's text is a formula's, too.
fn is_formula_too<S: Store, L: Ledger>(store: &S, id: Id, steps: &mut Steps<L>) -> bool
    requires { IsId (S.trees store.now) id }
    ensures value { result ≡ is_formula_too (tree (S.trees store.now) id) }
    ensures cost { steps.new ≤ steps.old + size (tree (S.trees store.now) id) }
{
    let node = store.look(id, steps);
    match node.op {
        Op::Apply(_) | Op::UnitFun(_) => true,
        Op::Diff => match node.kids.first() {
            Some(kid) => is_formula_too(store, *kid, steps),
            None => false,
        },
        _ => false,
    }
}
