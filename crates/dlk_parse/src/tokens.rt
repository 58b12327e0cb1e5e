//! Faults of tokens: over-long literals, brackets nested too deep.
ghost use Rattle.std.specs.Prelude.{◌≡◌, List, MatchResult};
ghost use Rattle.dlk_grammar.specs.declared.token.Token.{Token as TheToken};
ghost use Rattle.dlk_lex.specs.Noted.{AreNoted};
ghost use Rattle.dlk_parse.specs.Limits.{AreWithinTokenLimits, IsPastTokenLimit};
ghost use Rattle.dlk_parse.specs.Faults.{IsRefusal};

use crate::fault::{ParseFault, TextFault};
use dlk_lex::Source;
use dlk_reader::Stop;

/// Refuses a literal that is too long, and else a bracket that is too deep.
pub(crate) fn check_tokens(source: &Source<'_>) -> Result<(), ParseFault>
    ensures { (ts : List TheToken) → AreNoted ts source.now.noted → MatchResult result (λ _. AreWithinTokenLimits ts) (IsPastTokenLimit ts) }
{
    if let Some(at) = source.first_long() {
        return Err(ParseFault::Literal { at });
    }
    if let Some(at) = source.first_deep() {
        return Err(ParseFault::Nesting { at });
    }
    Ok(())
}

/// Why tokens are refused that stop: a literal and a bracket come before the token at which no text goes on.
pub(crate) fn refusal(source: &Source<'_>, stop: Stop) -> TextFault
    ensures { IsRefusal source.now.noted stop result }
{
    match stop {
        Stop::Memory => TextFault::Memory,
        Stop::BadByte { at } => TextFault::BadByte { at },
        Stop::Syntax { at } => match check_tokens(source) {
            Ok(()) => TextFault::Unread(ParseFault::Syntax { at }),
            Err(fault) => TextFault::Unread(fault),
        },
    }
}
