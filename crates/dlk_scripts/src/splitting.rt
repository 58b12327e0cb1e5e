//! Splits a text into parts.
ghost use Rattle.std.specs.Prelude.{◌≡◌, IfOk, IfErr};
ghost use Rattle.dlk_scripts.specs.Texts.{HasParts, IsPartsFaultOf};
ghost use Rattle.dlk_scripts.specs.Steps.{stop_at};

use crate::fault::PartsFault;
use crate::part::Part;
use crate::state::{ByteFault, State};
use std::alloc::Global;

/// A fault at this byte.
fn stop(fault: ByteFault, at: usize) -> PartsFault
    ensures { result ≡ stop_at fault at }
{
    match fault {
        ByteFault::Memory => PartsFault::Memory,
        ByteFault::Syntax => PartsFault::Syntax { at },
    }
}

/// The parts of a text of a strategy, in order. The text says one script, which has these parts.
///
/// # Errors
///
/// `Syntax` comes exactly where the bytes are no text of a strategy, with the first byte at which no text goes on, or the
/// number of the bytes where they are the front of a text. `Memory` comes where memory ran out.
pub fn parts(alloc: Global, bytes: &[u8]) -> Result<Vec<Part>, PartsFault>
    ensures found { IfOk result (λ v. HasParts bytes.now v.items) }
    ensures fault { IfErr result (IsPartsFaultOf bytes.now) }
{
    let mut state = State::new(alloc);
    let mut at = 0;
    while at < bytes.len() {
        if let Err(fault) = state.step(alloc, at, bytes[at]) {
            return Err(stop(fault, at));
        }
        at += 1;
    }
    match state.ended(alloc) {
        Ok(()) => Ok(state.into_parts()),
        Err(fault) => Err(stop(fault, at)),
    }
}
