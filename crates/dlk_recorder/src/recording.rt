//! The text of a term.
ghost use Rattle.std.specs.Prelude.{◌≡◌, ◌<◌, ◌≤◌, ◌++◌, [], length, map, All, IsTrue, IfOk};
ghost use Rattle.dlk_calculus.specs.Limits.{most_rows};
ghost use Rattle.dlk_rules.specs.Steps.{step_at, HasKnownIds};
ghost use Rattle.dlk_recorder.specs.Terms.{term_text};
ghost use Rattle.dlk_recorder.specs.Recorded.{IsRecorded};

use dlk_nodes::{NodeTable, write_step};
use dlk_print::{PrintFault, append};
use dlk_rules::Step;
use dlk_store::{Steps, Store};
use std::alloc::Global;
use std::sync::ledger::Ledger;

/// What became of a text that is to stay within a limit.
#[derive(Drop, Debug)]
pub enum Recorded {
    /// Its bytes.
    Whole(Vec<u8>),
    /// It is past the limit: how many bytes it would have.
    TooLong(u128),
}

/// The line that begins a term file.
const HEAD: &[u8] = b"dlk 2\n";

/// The line that ends it.
const DONE: &[u8] = b"done\n";

/// Writes the term file of steps, which are at most 400,000 and have ids of the store: the head, then for each step the lines of
/// the nodes that are new and its own, by the numbers of nodes, and then `done`. Nodes and steps are each numbered from 1 on. A
/// file of more bytes than the limit is not made: once the lines pass it, what was kept is let go, and only the lines' lengths are
/// added up. The store has at most one id for a tree.
///
/// # Errors
///
/// `Memory` alone.
pub fn record<S: Store, L: Ledger>(
    alloc: Global,
    store: &S,
    taken: &[Step],
    limit: usize,
    steps: &mut Steps<L>,
) -> Result<Recorded, PrintFault>
    requires unique { IsTrue S.unique }
    requires known { All (HasKnownIds (S.trees store.now)) taken.now }
    requires few { length taken.now ≤ most_rows }
    ensures { IfOk result (IsRecorded limit (term_text (map (step_at (S.trees store.now)) taken.now))) }
{
    let mut table = NodeTable::new(alloc);
    let mut line = Vec::new(alloc);
    let mut bytes = HEAD.len() as u128;
    let mut text = kept(alloc, Vec::new(alloc), HEAD, bytes, limit)?;
    for (i, step) in taken.iter().enumerate() {
        line.clear();
        let written = write_step(i as u32 + 1, step, &mut table, store, &mut line, steps);
        written.map_err(|_| PrintFault::Memory)?;
        bytes += line.len() as u128;
        text = kept(alloc, text, &line, bytes, limit)?;
    }
    bytes += DONE.len() as u128;
    text = kept(alloc, text, DONE, bytes, limit)?;
    if bytes <= limit as u128 {
        Ok(Recorded::Whole(text))
    } else {
        Ok(Recorded::TooLong(bytes))
    }
}

/// A text with more behind it, if both together, which have this many bytes, are within the limit, and else nothing.
fn kept(
    alloc: Global,
    mut text: Vec<u8>,
    more: &[u8],
    bytes: u128,
    limit: usize,
) -> Result<Vec<u8>, PrintFault>
    ensures within { IfOk result (λ new. bytes ≤ limit → new.items ≡ text.items ++ more.now) }
    ensures past { IfOk result (λ new. limit < bytes → new.items ≡ []) }
{
    if bytes > limit as u128 {
        return Ok(Vec::new(alloc));
    }
    append(&mut text, more)?;
    Ok(text)
}
