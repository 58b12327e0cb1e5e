//! Tokens as the grammar sees them.
ghost use Rattle.std.specs.Prelude.{◌≡◌};
ghost use Rattle.dlk_grammar.specs.Lexemes.{lexeme_of, lexeme_of_mark};
ghost use Rattle.dlk_reader.specs.Shows.{IsNameOf, IsSeen, seen};

use crate::halves::Halves;
use crate::stop::LexemeFault;
use dlk_grammar::{Infix, Mark, TokenKind};
use dlk_tree::{Name, Num};

/// A token as the grammar sees it. Names and opening braces have their place among the tokens.
#[derive(Drop)]
pub enum Lexeme {
    Name(usize, Name),
    Number(Halves),
    Dot(u8),
    Blank,
    True,
    False,
    All,
    Exist,
    Invariant,
    RoundBars,
    RoundBar,
    BarRound,
    BraceBar,
    BarBrace,
    Open,
    Close,
    OpenBox,
    CloseBox,
    OpenBrace(usize),
    CloseBrace,
    Bang,
    Prime,
    Gets,
    Query,
    Semi,
    Comma,
    Turnstile,
    Becomes,
    Swaps,
    Op(Infix),
}

impl Lexeme {
    /// The name that it is.
    ///
    /// # Errors
    ///
    /// `Syntax` comes exactly where it is no name.
    pub fn into_name(self) -> Result<Name, LexemeFault>
        ensures { IsNameOf (seen self) result }
    {
        match self {
            Lexeme::Name(_, name) => Ok(name),
            _ => Err(LexemeFault::Syntax),
        }
    }
}

/// The token at a place, which is none at the end.
#[inline(always)]
pub(crate) fn lexeme_at(place: usize, kind: TokenKind) -> Option<Lexeme>
    ensures { IsSeen (lexeme_of place kind) result }
{
    match kind {
        TokenKind::Word(name) => Some(Lexeme::Name(place, name)),
        TokenKind::True => Some(Lexeme::True),
        TokenKind::False => Some(Lexeme::False),
        TokenKind::Number(number) => Some(Lexeme::Number(Halves::of(number))),
        TokenKind::LongNumber => Some(Lexeme::Number(Halves::of(Num {
            digits: 0,
            scale: 0,
        }))),
        TokenKind::Dot(number) => Some(Lexeme::Dot(number)),
        TokenKind::Hole => Some(Lexeme::Blank),
        TokenKind::Mark(mark) => Some(lexeme_of_mark(place, mark)),
        TokenKind::End => None,
    }
}

fn lexeme_of_mark(place: usize, mark: Mark) -> Lexeme
    ensures { lexeme_of_mark place mark ≡ seen result }
{
    match mark {
        Mark::Forall => Lexeme::All,
        Mark::Exists => Lexeme::Exist,
        Mark::Invariant => Lexeme::Invariant,
        Mark::RoundBars => Lexeme::RoundBars,
        Mark::RoundBar => Lexeme::RoundBar,
        Mark::BarRound => Lexeme::BarRound,
        Mark::BraceBar => Lexeme::BraceBar,
        Mark::BarBrace => Lexeme::BarBrace,
        Mark::OpenRound => Lexeme::Open,
        Mark::CloseRound => Lexeme::Close,
        Mark::OpenSquare => Lexeme::OpenBox,
        Mark::CloseSquare => Lexeme::CloseBox,
        Mark::OpenBrace => Lexeme::OpenBrace(place),
        Mark::CloseBrace => Lexeme::CloseBrace,
        Mark::Equiv => Lexeme::Op(Infix::Equiv),
        Mark::Imply => Lexeme::Op(Infix::Imply),
        Mark::And => Lexeme::Op(Infix::And),
        Mark::Or => Lexeme::Op(Infix::Or),
        Mark::Not => Lexeme::Bang,
        Mark::Turnstile => Lexeme::Turnstile,
        Mark::Equal => Lexeme::Op(Infix::Equal),
        Mark::NotEqual => Lexeme::Op(Infix::NotEqual),
        Mark::AtLeast => Lexeme::Op(Infix::AtLeast),
        Mark::Greater => Lexeme::Op(Infix::Greater),
        Mark::AtMost => Lexeme::Op(Infix::AtMost),
        Mark::Less => Lexeme::Op(Infix::Less),
        Mark::Plus => Lexeme::Op(Infix::Add),
        Mark::Minus => Lexeme::Op(Infix::Sub),
        Mark::Star => Lexeme::Op(Infix::Mul),
        Mark::Slash => Lexeme::Op(Infix::Div),
        Mark::Caret => Lexeme::Op(Infix::Pow),
        Mark::Prime => Lexeme::Prime,
        Mark::Gets => Lexeme::Gets,
        Mark::Choice => Lexeme::Op(Infix::Choice),
        Mark::Query => Lexeme::Query,
        Mark::Semicolon => Lexeme::Semi,
        Mark::Comma => Lexeme::Comma,
        Mark::Becomes => Lexeme::Becomes,
        Mark::Swaps => Lexeme::Swaps,
    }
}
