//! The trees of a step as texts in full.
ghost use Rattle.std.specs.Prelude.{◌≡◌};
ghost use Rattle.dlk_lines.specs.Spelled.{InFull};
ghost use Rattle.dlk_termtext.specs.Read.{of_text};

use dlk_lines::{LineFault, Spelled, Spells};
use dlk_parse::{ParseFault, TextFault, read_formula, read_sequent, read_substitution};
use dlk_print::{PrintFault, pairs_text, sequent_text, text};
use dlk_sequent::{Listed, Pair, Sequent};
use dlk_store::{Id, Steps, Store};
use std::alloc::Global;
use std::sync::ledger::Ledger;

/// What a text that isn't read makes of its line.
fn line_fault(fault: TextFault) -> LineFault
    ensures { result ≡ of_text fault }
{
    match fault {
        TextFault::BadByte { at: _ } => LineFault::Malformed,
        TextFault::Unread(ParseFault::Memory) | TextFault::Memory => LineFault::Memory,
        TextFault::Unread(_) => LineFault::Malformed,
    }
}

/// Reads texts in full.
#[derive(Drop)]
pub(crate) struct FullTexts;

impl Spelled for FullTexts {
    ghost spelling = { λ _ _. InFull };

    ghost IsReady = { λ _ _. Unit {0} };

    fn sequent<S: Store>(
        &mut self,
        alloc: Global,
        text: &[u8],
        store: &mut S,
    ) -> Result<Sequent, LineFault> {
        match read_sequent(alloc, text, store) {
            Ok(sequent) => Ok(sequent),
            Err(why) => Err(line_fault(why)),
        }
    }

    fn pairs<S: Store>(
        &mut self,
        alloc: Global,
        text: &[u8],
        store: &mut S,
    ) -> Result<Listed<Pair>, LineFault> {
        match read_substitution(alloc, text, store) {
            Ok(pairs) => Ok(Listed::from_vec(pairs)),
            Err(why) => Err(line_fault(why)),
        }
    }

    fn formula<S: Store>(
        &mut self,
        alloc: Global,
        text: &[u8],
        store: &mut S,
    ) -> Result<Id, LineFault> {
        match read_formula(alloc, text, store) {
            Ok(id) => Ok(id),
            Err(why) => Err(line_fault(why)),
        }
    }
}

/// Writes canonical texts of the trees of a store.
#[derive(Drop)]
pub(crate) struct FullOf<'a, S> {
    pub store: &'a S,
}

impl<'a, S: Store> Spells for FullOf<'a, S> {
    ghost trees = { λ w. S.trees w.store.now };

    ghost spelling = { λ _. InFull };

    ghost Has = { λ _ _. Unit {0} };

    fn sequent<L: Ledger>(
        &self,
        s: &Sequent,
        out: &mut Vec<u8>,
        steps: &mut Steps<L>,
    ) -> Result<(), PrintFault> {
        sequent_text(self.store, s, out, steps)
    }

    fn pairs<L: Ledger>(
        &self,
        pairs: &[Pair],
        out: &mut Vec<u8>,
        steps: &mut Steps<L>,
    ) -> Result<(), PrintFault> {
        pairs_text(self.store, pairs, out, steps)
    }

    fn formula<L: Ledger>(
        &self,
        h: Id,
        out: &mut Vec<u8>,
        steps: &mut Steps<L>,
    ) -> Result<(), PrintFault> {
        text(self.store, h, out, steps)
    }
}
