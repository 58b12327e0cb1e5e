//! The parts of a text of a strategy.
ghost use Rattle.std.specs.Prelude.{◌≡◌};

use dlk_tree::Name;
use std::marker::Model;

/// The bytes between the quotes of a string, which contracts see as their list.
#[derive(Drop, Debug)]
pub struct Quoted {
    bytes: Vec<u8>,
}

impl Model for Quoted {
    ghost use Rattle.std.specs.Prelude.{List, ℕ};

    ghost Value = { List ℕ };

    ghost view = { λ q. q.bytes.items };
}

impl Quoted {
    /// A string of these bytes, which takes no memory.
    pub(crate) fn new(bytes: Vec<u8>) -> Self
        ensures { result ≡ bytes.items }
    {
        Quoted { bytes }
    }

    /// The bytes.
    pub fn bytes(&self) -> &[u8]
        ensures { result.now ≡ self.now }
    {
        self.bytes.as_slice()
    }
}

/// What a part is: one terminal of the grammar.
#[derive(Drop, Debug)]
pub enum PartKind {
    /// `(`
    Open,
    /// `)`
    Close,
    /// `<(`
    Fork,
    /// `;`
    Semicolon,
    /// `|`
    Bar,
    /// `,`
    Comma,
    /// `*`
    Star,
    /// `-`
    Minus,
    /// `.`
    Point,
    /// `'L`
    AnyLeft,
    /// `'R`
    AnyRight,
    Name(Name),
    /// A number of at most nine digits.
    Number(u32),
    /// A string, by the bytes between its quotes.
    Quoted(Quoted),
}

/// A part, with the place of its first byte.
#[derive(Drop, Debug)]
pub struct Part {
    pub kind: PartKind,
    pub at: usize,
}
