//! Reads the tokens of a source, whatever is read.
ghost use Rattle.std.specs.Prelude.{◌≡◌, List, []};
ghost use Rattle.dlk_grammar.specs.Lexemes.{Lexeme as TheLexeme};
ghost use Rattle.dlk_lex.specs.Sources.{HasTaken};
ghost use Rattle.dlk_reader.specs.Shows.{seen};
ghost use Rattle.dlk_reader.specs.Outcomes.{Outcome, Steps, leaving, Ends, EndsAt, stop_at, ReadsTokens, ReadsUp, ReadsAll};

use crate::lexeme::{Lexeme, lexeme_at};
use crate::stop::{LexemeFault, Stop};
use dlk_lex::Source;
use std::alloc::Global;

/// What reads lexeme by lexeme. Its meaning is what comes of reading on: something whole, or a place at which the lexemes stop.
pub trait LexemeReader: Sized + Drop {
    /// What is read.
    type Output: Drop;

    /// From this reader on these lexemes come out so.
    ghost comes: { Self → List TheLexeme → Outcome Self.Output → Type 0 };

    /// Goes on by one more lexeme. After a fault nothing can be said of the reader.
    ///
    /// # Errors
    ///
    /// `Syntax` comes exactly where no text goes on with the lexeme, and `Memory` where memory ran out.
    fn step(&mut self, alloc: Global, lexeme: Lexeme) -> Result<(), LexemeFault>
        ensures { Steps comes self.old (seen lexeme) (leaving self.new result) };

    /// What was read, at the end of the lexemes.
    ///
    /// # Errors
    ///
    /// `Syntax` comes exactly where what was read is no whole text, and `Memory` where memory ran out.
    fn end(self) -> Result<Self::Output, LexemeFault>
        ensures { Ends comes self result };
}

/// A fault at the token that begins at this byte.
fn stop(fault: LexemeFault, at: usize) -> Stop
    ensures { result ≡ stop_at fault at }
{
    match fault {
        LexemeFault::Memory => Stop::Memory,
        LexemeFault::Syntax => Stop::Syntax { at },
    }
}

/// What was read, at the end, which is at this byte.
fn ended<R: LexemeReader>(reader: R, at: usize) -> Result<R::Output, Stop>
    ensures { EndsAt R.comes reader at result }
{
    match reader.end() {
        Ok(output) => Ok(output),
        Err(fault) => Err(stop(fault, at)),
    }
}

/// Goes from token to token as far as they are read.
fn read_up<R: LexemeReader>(
    alloc: Global,
    reader: R,
    source: &mut Source<'_>,
) -> Result<R::Output, Stop>
    requires { HasTaken source.old.origin [] source.old }
    ensures { ReadsUp (ReadsTokens R.comes reader) source.old.origin source.new result }
{
    let mut reader = reader;
    loop {
        let place = source.number();
        let token = source.next(alloc)?;
        let at = token.at;
        let read = match lexeme_at(place, token.kind) {
            Some(lexeme) => reader.step(alloc, lexeme),
            None => return ended(reader, at),
        };
        match read {
            Ok(()) => {}
            Err(fault) => return Err(stop(fault, at)),
        }
    }
}

/// Reads all tokens of a source, from which none was taken.
///
/// # Errors
///
/// `BadByte` comes exactly where the bytes aren't all tokens. Else `Syntax` comes exactly where the lexemes stop, with the byte of the token at
/// which they do. `Memory` comes where memory ran out.
pub fn read<R: LexemeReader>(
    alloc: Global,
    reader: R,
    source: &mut Source<'_>,
) -> Result<R::Output, Stop>
    requires { HasTaken source.old.origin [] source.old }
    ensures { ReadsAll (ReadsTokens R.comes reader) source.old.origin source.new result }
{
    match read_up(alloc, reader, source) {
        Ok(output) => {
            source.finish(alloc)?;
            Ok(output)
        }
        Err(Stop::Syntax { at }) => {
            source.finish(alloc)?;
            Err(Stop::Syntax { at })
        }
        Err(stop) => Err(stop),
    }
}
