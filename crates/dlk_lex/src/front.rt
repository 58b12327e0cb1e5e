//! The token, space or comment at the front of bytes.
ghost use Rattle.std.specs.Prelude.{◌≡◌, ◌<◌, IsTrue, false, IfOk, OnErr, IfSome, IfNone, length, slice_index, codes, nat_eq};
ghost use Rattle.std.specs.List.{starts_with};
ghost use Rattle.dlk_tree.specs.Names.{is_between, is_letter, is_word};
ghost use Rattle.dlk_grammar.specs.Tokens.{Spells, is_space};
ghost use Rattle.dlk_lex.specs.Fronts.{EndsBlock, HasNoEnd, IsToken, IsPiece};

use crate::bytes::{is_digit, line_run, word_run};
use crate::marks::front_mark;
use crate::numbers::number;
use dlk_grammar::TokenKind;
use dlk_tree::{Name, NameFault, is_letter};
use std::alloc::{AllocError, Global};

/// What is at the front, and how many bytes it has.
#[derive(Drop)]
pub(crate) enum Piece {
    /// A comment.
    Comment(usize),
    Token(TokenKind, usize),
    /// No token, space or whole comment.
    Nothing,
}

/// A word as a token. One that is no name is `true` or `false`.
fn word(alloc: Global, bytes: &[u8]) -> Result<TokenKind, AllocError>
    requires { IsTrue (is_word bytes.now) }
    ensures { IfOk result (Spells bytes.now) }
{
    match Name::new(alloc, bytes) {
        Ok(name) => Ok(TokenKind::Word(name)),
        Err(NameFault::Memory) => Err(AllocError),
        Err(NameFault::NotAName) => Ok(if bytes == b"true".as_slice() {
            TokenKind::True
        } else {
            TokenKind::False
        }),
    }
}

fn is_dot_digit(b: u8) -> bool
    ensures { result ≡ is_between 48 55 b }
{
    matches!(b, b'0'..=b'7')
}

/// The dot at the front of bytes that begin with a point.
fn dot(bytes: &[u8]) -> Piece
    requires { slice_index bytes.now 0 ≡ 46 }
    ensures { IsToken bytes.now result }
{
    if bytes.len() < 3 || bytes[1] != b'_' || !is_dot_digit(bytes[2]) {
        return Piece::Nothing;
    }
    Piece::Token(TokenKind::Dot(bytes[2] - b'0'), 3)
}

/// The longest token at the front.
fn token(alloc: Global, bytes: &[u8]) -> Result<Piece, AllocError>
    requires { 0 < length bytes.now }
    ensures token { IfOk result (IsToken bytes.now) }
    ensures memory { OnErr result (IsTrue (is_letter (slice_index bytes.now 0))) }
{
    let first = bytes[0];
    if is_letter(first) {
        let n = word_run(bytes);
        return Ok(Piece::Token(word(alloc, &bytes[..n])?, n));
    }
    if is_digit(first) {
        let (kind, n) = number(bytes);
        return Ok(Piece::Token(kind, n));
    }
    if first == b'.' {
        return Ok(dot(bytes));
    }
    if first == b'_' {
        return Ok(Piece::Token(TokenKind::Hole, 1));
    }
    let Some((mark, n)) = front_mark(bytes) else {
        return Ok(Piece::Nothing);
    };
    Ok(Piece::Token(TokenKind::Mark(mark), n))
}

/// How many bytes are before the first `*/`.
fn before_end(bytes: &[u8]) -> Option<usize>
    ensures found { IfSome result (EndsBlock bytes.now) }
    ensures none { IfNone result (HasNoEnd bytes.now) }
{
    for n in 1..bytes.len() {
        if bytes[n - 1] == b'*' && bytes[n] == b'/' {
            return Some(n - 1);
        }
    }
    None
}

/// The comment at the front of bytes that begin with `/*`.
fn block(bytes: &[u8]) -> Piece
    requires { IsTrue (starts_with nat_eq bytes.now (codes "/*")) }
    ensures { IsPiece bytes.now result }
{
    match before_end(&bytes[2..]) {
        Some(n) => Piece::Comment(n + 4),
        None => Piece::Nothing,
    }
}

/// The comment at the front of bytes that begin with `//`.
fn line(bytes: &[u8]) -> Piece
    requires { IsTrue (starts_with nat_eq bytes.now (codes "//")) }
    ensures { IsPiece bytes.now result }
{
    Piece::Comment(2 + line_run(&bytes[2..]))
}

/// What is at the front of bytes that begin with no space.
pub(crate) fn front(alloc: Global, bytes: &[u8]) -> Result<Piece, AllocError>
    requires some { 0 < length bytes.now }
    requires no_space { is_space (slice_index bytes.now 0) ≡ false }
    ensures piece { IfOk result (IsPiece bytes.now) }

    // Memory is wanted for a word alone.
    ensures memory { OnErr result (IsTrue (is_letter (slice_index bytes.now 0))) }
{
    if bytes.starts_with(b"/*") {
        return Ok(block(bytes));
    }
    if bytes.starts_with(b"//") {
        return Ok(line(bytes));
    }
    token(alloc, bytes)
}
