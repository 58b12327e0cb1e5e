//! Copies of tokens.
ghost use Rattle.std.specs.Prelude.{◌≡◌, IfOk};

use dlk_grammar::{Token, TokenKind};
use std::alloc::AllocError;

fn kind_of(kind: &TokenKind) -> Result<TokenKind, AllocError>
    ensures { IfOk result (λ k. k ≡ kind.now) }
{
    Ok(match kind {
        TokenKind::Word(name) => TokenKind::Word(name.clone()?),
        TokenKind::True => TokenKind::True,
        TokenKind::False => TokenKind::False,
        TokenKind::Number(number) => TokenKind::Number(*number),
        TokenKind::LongNumber => TokenKind::LongNumber,
        TokenKind::Dot(number) => TokenKind::Dot(*number),
        TokenKind::Hole => TokenKind::Hole,
        TokenKind::Mark(mark) => TokenKind::Mark(*mark),
        TokenKind::End => TokenKind::End,
    })
}

/// The token once more.
pub(crate) fn copy(token: &Token) -> Result<Token, AllocError>
    ensures { IfOk result (λ t. t ≡ token.now) }
{
    let kind = kind_of(&token.kind)?;
    Ok(Token {
        kind,
        at: token.at,
        end: token.end,
    })
}
