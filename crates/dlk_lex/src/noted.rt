//! What is noted of tokens: where each begins, and the first that is past a limit.
ghost use Rattle.std.specs.Prelude.{◌≡◌, ◌≤◌, ◌↔◌, ◌∷◌, ◌++◌, [], List, IsTrue, true, OnOk};
ghost use Rattle.dlk_grammar.specs.declared.token.Token.{Token as TheToken};
ghost use Rattle.dlk_grammar.specs.declared.token.TokenKind.TheVariants.{LongNumber};
ghost use Rattle.dlk_grammar.specs.Readings.{opens, closes, level_behind, most_levels, IsLong};
ghost use Rattle.dlk_lex.specs.Noted.{FirstOf, AreLevels, AreNoted};

use dlk_grammar::{Mark, Token, TokenKind};
use std::alloc::{AllocError, Global};

/// How many bracket levels may be open.
const MOST_LEVELS: u32 = 1_200;

fn is_long(kind: &TokenKind) -> bool
    ensures { IsTrue result ↔ (kind.now ≡ LongNumber) }
{
    matches!(kind, TokenKind::LongNumber)
}

fn opens(kind: &TokenKind) -> bool
    ensures { result ≡ opens kind.now }
{
    matches!(
        kind,
        TokenKind::Mark(Mark::OpenRound | Mark::OpenSquare | Mark::OpenBrace)
    )
}

fn closes(kind: &TokenKind) -> bool
    ensures { result ≡ closes kind.now }
{
    matches!(
        kind,
        TokenKind::Mark(Mark::CloseRound | Mark::CloseSquare | Mark::CloseBrace)
    )
}

fn opens_too_deep(level: u32, kind: &TokenKind) -> bool
    ensures { IsTrue result ↔ (level ≡ most_levels) × (opens kind.now ≡ true) }
{
    level == MOST_LEVELS && opens(kind)
}

/// The bracket level behind a token.
fn level_behind(level: u32, kind: &TokenKind) -> u32
    ensures { level ≤ most_levels → result ≡ level_behind level kind.now }
{
    if opens(kind) {
        level.saturating_add(1)
    } else if closes(kind) {
        level.saturating_sub(1)
    } else {
        level
    }
}

/// The byte of the first literal of more than 38 digits, behind one more token.
fn first_long(long: Option<usize>, token: &Token) -> Option<usize>
    ensures { (seen : List TheToken) → FirstOf IsLong seen long → FirstOf IsLong (seen ++ token.now ∷ []) result }
{
    if let Some(at) = long {
        return Some(at);
    }
    if is_long(&token.kind) {
        return Some(token.at);
    }
    None
}

/// The bracket level behind some tokens, as long as none is too deep, and the byte of the first bracket that is.
#[derive(Clone, Copy)]
pub(crate) struct Levels {
    pub(crate) level: u32,
    pub(crate) deep: Option<usize>,
}

/// The same behind one more token.
fn levels_behind(levels: Levels, token: &Token) -> Levels
    ensures { (seen : List TheToken) → AreLevels seen levels → AreLevels (seen ++ token.now ∷ []) result }
{
    if let Some(at) = levels.deep {
        return Levels {
            level: levels.level,
            deep: Some(at),
        };
    }
    if opens_too_deep(levels.level, &token.kind) {
        return Levels {
            level: levels.level,
            deep: Some(token.at),
        };
    }
    Levels {
        level: level_behind(levels.level, &token.kind),
        deep: None,
    }
}

/// What tokens have shown so far: the bytes at which they begin, the first literal that is too long, and the first bracket that is too deep.
#[derive(Drop)]
pub(crate) struct Noted {
    pub(crate) starts: Vec<usize>,
    pub(crate) long: Option<usize>,
    pub(crate) levels: Levels,
}

impl Noted {
    /// What no tokens have shown.
    pub(crate) fn new(alloc: Global) -> Noted
        ensures { AreNoted [] result }
    {
        Noted {
            starts: Vec::new(alloc),
            long: None,
            levels: Levels {
                level: 0,
                deep: None,
            },
        }
    }

    /// What is shown behind one more token.
    #[inline(always)]
    pub(crate) fn note(&mut self, token: &Token) -> Result<(), AllocError>
        ensures { (seen : List TheToken) → AreNoted seen self.old → OnOk result (AreNoted (seen ++ token.now ∷ []) self.new) }
    {
        self.starts.push(token.at)?;
        self.long = first_long(self.long, token);
        self.levels = levels_behind(self.levels, token);
        Ok(())
    }
}
