//! Atoms by their names and arguments.
ghost use Rattle.std.specs.Prelude.{◌≡◌, None, Err, IfOk, IfErr};
ghost use Rattle.dlk_tacsyn.specs.declared.fault.TacSyntax.TheVariants.{UnknownAtom};
ghost use Rattle.dlk_tacsyn.specs.Rows.{text_row_of};
ghost use Rattle.dlk_tacsyn.specs.Faults.{IsTacSyntaxOf};
ghost use Rattle.dlk_tacsyn.specs.Strategies.{Says, Fails, atom_of};
ghost use Rattle.dlk_tacsyn.specs.Ties.{tactic_at, TacticIsKnown};
ghost use Rattle.dlk_tacsyn.specs.States.{ByReading};

use crate::argument::{Written, arguments};
use crate::fault::TacSyntax;
use crate::kind::text_row_of;
use crate::tactic::{Atom, Tactic};
use dlk_sequent::Listed;
use dlk_store::Store;
use dlk_tree::Name;
use std::alloc::Global;

/// The atom of this name, be it one of the library or `derive`, which is at this byte, with these arguments. A quoted text is read once the
/// name is known.
pub(crate) fn atom<S: Store>(
    alloc: Global,
    at: usize,
    name: Name,
    written: Listed<Written>,
    store: &mut S,
) -> Result<Tactic, TacSyntax>
    ensures found { IfOk result (λ t. ByReading (λ read. atom_of read at name written ≡ Says (tactic_at (S.trees store.new) t))) }
    ensures known { IfOk result (TacticIsKnown (S.trees store.new)) }
    ensures fault { IfErr result (IsTacSyntaxOf (λ f. ByReading (λ read. atom_of read at name written ≡ Fails f))) }
    ensures unknown { text_row_of name ≡ None → result ≡ Err (UnknownAtom at) }
    ensures grows { S.grows store.old store.new }
{
    let Some(row) = text_row_of(&name) else {
        return Err(TacSyntax::UnknownAtom { at });
    };
    let args = arguments(alloc, at, row, written, store)?;
    Ok(Tactic::One(Atom { name, args, at }))
}
