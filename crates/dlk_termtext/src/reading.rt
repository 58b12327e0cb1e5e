//! Lines of bytes.
ghost use Rattle.std.specs.Prelude.{IfOk, IfErr};
ghost use Rattle.dlk_lines.specs.Read.{IsLineFaultOf};
ghost use Rattle.dlk_termtext.specs.Lines.{Line as TreeLine, IsLine};
ghost use Rattle.dlk_termtext.specs.Read.{line_at, LineIsKnown};

use crate::full::FullTexts;
use crate::line::Line;
use dlk_lines::{LineFault, read_step_line};
use dlk_store::Store;
use std::alloc::Global;

/// What a line of a proof-term file of version 1 says: a number and a step, or `done`. The bytes are those before its line feed.
///
/// `Malformed` comes exactly where the bytes are no line, and `Memory` when memory runs out. Whatever comes, the
/// store keeps its trees.
pub fn read_line<S: Store>(alloc: Global, line: &[u8], store: &mut S) -> Result<Line, LineFault>
    ensures found { IfOk result (λ l. IsLine line.now (line_at (S.trees store.new) l)) }
    ensures known { IfOk result (LineIsKnown (S.trees store.new)) }
    ensures fault { IfErr result (IsLineFaultOf ((l : TreeLine) → ¬ IsLine line.now l)) }
    ensures grows { S.grows store.old store.new }
{
    if line == b"done".as_slice() {
        return Ok(Line::Done);
    }
    let (number, step) = read_step_line(alloc, line, &mut FullTexts, store)?;
    Ok(Line::Step { number, step })
}
