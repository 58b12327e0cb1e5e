//! Which lexemes are in the grammar of a text.
ghost use Rattle.std.specs.Prelude.{◌≡◌};
ghost use Rattle.dlk_grammar.specs.Readings.{permits};
ghost use Rattle.dlk_reader.specs.Shows.{seen};

use dlk_grammar::Dots;
use dlk_reader::Lexeme;

/// Whether a lexeme is in the grammar of a text.
pub(crate) fn permits(dots: Dots, lexeme: &Lexeme) -> bool
    ensures { result ≡ permits dots (seen lexeme.now) }
{
    match dots {
        Dots::Refused => match lexeme {
            Lexeme::Dot(_) => false,
            Lexeme::Blank => false,
            _ => true,
        },
        Dots::Allowed => true,
    }
}
