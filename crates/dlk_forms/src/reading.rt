//! Reads the tokens of a text.
ghost use Rattle.std.specs.Prelude.{[]};
ghost use Rattle.dlk_lex.specs.Sources.{HasTaken};
ghost use Rattle.dlk_reader.specs.Outcomes.{ReadsAll};
ghost use Rattle.dlk_forms.specs.Said.{AnswersTree, AnswersSides, AnswersPairs, AnswersExtra};

use crate::extras::{ExtraCode, ExtraReader};
use crate::pairs::{PairsCode, PairsReader};
use crate::sides::{SidesCode, SidesReader};
use crate::trees::TreeReader;
use dlk_grammar::{Dots, Form};
use dlk_lex::Source;
use dlk_reader::{Code, Stop, read};
use std::alloc::Global;

/// Reads one tree from a source, from which no token was taken. Its operators stand behind their operands.
///
/// # Errors
///
/// `BadByte` comes exactly where the bytes aren't all tokens. Else `Syntax` comes exactly where the tokens stop as a
/// text of the form: the byte of the first token at which no text goes on. `Memory` comes where memory runs out.
pub fn read_tree(
    alloc: Global,
    form: Form,
    dots: Dots,
    source: &mut Source<'_>,
) -> Result<Vec<Code>, Stop>
    requires { HasTaken source.old.origin [] source.old }
    ensures { ReadsAll (AnswersTree form dots) source.old.origin source.new result }
{
    read(alloc, TreeReader::new(alloc, form, dots), source)
}

/// Reads the formulas of both sides of a sequent from a source, from which no token was taken. Argument dots and the hole are refused.
///
/// # Errors
///
/// `BadByte` comes exactly where the bytes aren't all tokens. Else `Syntax` comes exactly where the tokens stop as a
/// sequent: the byte of the first token at which none goes on. `Memory` comes where memory runs out.
pub fn read_sides(alloc: Global, source: &mut Source<'_>) -> Result<SidesCode, Stop>
    requires { HasTaken source.old.origin [] source.old }
    ensures { ReadsAll AnswersSides source.old.origin source.new result }
{
    read(alloc, SidesReader::new(alloc), source)
}

/// Reads the pairs of a substitution from a source, from which no token was taken. Argument dots and the hole are allowed.
///
/// # Errors
///
/// `BadByte` comes exactly where the bytes aren't all tokens. Else `Syntax` comes exactly where the tokens stop as a
/// substitution: the byte of the first token at which none goes on. `Memory` comes where memory runs out.
pub fn read_pairs(alloc: Global, source: &mut Source<'_>) -> Result<PairsCode, Stop>
    requires { HasTaken source.old.origin [] source.old }
    ensures { ReadsAll AnswersPairs source.old.origin source.new result }
{
    read(alloc, PairsReader::new(alloc), source)
}

/// Reads renames and the pairs behind them from a source, from which no token was taken. Argument dots and the hole are allowed.
///
/// # Errors
///
/// `BadByte` comes exactly where the bytes aren't all tokens. Else `Syntax` comes exactly where the tokens stop as
/// renames and pairs: the byte of the first token at which none goes on. `Memory` comes where memory runs out.
pub fn read_extra(alloc: Global, source: &mut Source<'_>) -> Result<ExtraCode, Stop>
    requires { HasTaken source.old.origin [] source.old }
    ensures { ReadsAll AnswersExtra source.old.origin source.new result }
{
    read(alloc, ExtraReader::new(alloc), source)
}
