//! Splits bytes.
ghost use Rattle.std.specs.Prelude.{◌≡◌, ◌≤◌, ◌↔◌, IsTrue, List, Err, IfOk, IfErr, drop, length};
ghost use Rattle.dlk_grammar.specs.declared.token.TokenKind.TheVariants.{End as TheEnd};
ghost use Rattle.dlk_grammar.specs.RealTokens.{AreTokens};
ghost use Rattle.dlk_grammar.specs.Splits.{Splits, BadAt};
ghost use Rattle.dlk_lex.specs.declared.fault.LexFault.TheVariants.{Memory};
ghost use Rattle.dlk_lex.specs.Faults.{IsLexFaultOf};
ghost use Rattle.dlk_lex.specs.Taken.{BeginsWord, IsFirst};

use crate::bytes::is_space;
use crate::fault::LexFault;
use crate::front::{Piece, front};
use dlk_grammar::{Token, TokenKind};
use std::alloc::Global;

/// Whether a token is the end.
pub(crate) fn is_end(kind: &TokenKind) -> bool
    ensures { IsTrue result ↔ (kind.now ≡ TheEnd) }
{
    matches!(kind, TokenKind::End)
}

/// The first token from a place on, which is the end where only spaces and comments are left.
#[inline(always)]
pub(crate) fn first_token(alloc: Global, bytes: &[u8], from: usize) -> Result<Token, LexFault>
    requires { from ≤ length bytes.now }
    ensures first { IfOk result (IsFirst bytes.now from) }
    ensures bad { IfErr result (IsLexFaultOf (BadAt from (drop from bytes.now))) }
    ensures memory { result ≡ Err Memory → BeginsWord bytes.now from }
{
    let mut at = from;
    while at < bytes.len() {
        if is_space(bytes[at]) {
            at += 1;
            continue;
        }
        match front(alloc, &bytes[at..])? {
            Piece::Comment(n) => at += n,
            Piece::Token(kind, n) => {
                return Ok(Token {
                    kind,
                    at,
                    end: at + n,
                });
            }
            Piece::Nothing => return Err(LexFault::BadByte { at }),
        }
    }
    Ok(Token {
        kind: TokenKind::End,
        at,
        end: at,
    })
}

/// The tokens of the bytes, and the end as the last of them. Spaces and comments separate tokens, and at each place the
/// longest token is taken.
///
/// `BadByte` comes exactly where the split comes to a byte at which no token, space or whole comment begins, and `Memory`
/// when memory runs out.
pub fn tokens(alloc: Global, bytes: &[u8]) -> Result<Vec<Token>, LexFault>
    ensures found { IfOk result (λ v. Splits 0 bytes.now v.items) }
    ensures real { IfOk result (λ v. AreTokens v.items) }
    ensures bad { IfErr result (IsLexFaultOf (BadAt 0 bytes.now)) }
{
    let mut out = Vec::new(alloc);
    let mut at = 0;
    loop {
        let token = first_token(alloc, bytes, at)?;
        let ends = is_end(&token.kind);
        at = token.end;
        out.push(token)?;
        if ends {
            return Ok(out);
        }
    }
}
