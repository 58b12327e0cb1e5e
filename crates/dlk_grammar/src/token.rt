use dlk_tree::{Name, Num};

/// A fixed spelling.
#[derive(Clone, Copy)]
pub enum Mark {
    /// `\forall`
    Forall,
    /// `\exists`
    Exists,
    /// `@invariant`
    Invariant,
    /// `(||)`
    RoundBars,
    /// `(|`
    RoundBar,
    /// `|)`
    BarRound,
    /// `{|`
    BraceBar,
    /// `|}`
    BarBrace,
    /// `(`
    OpenRound,
    /// `)`
    CloseRound,
    /// `[`
    OpenSquare,
    /// `]`
    CloseSquare,
    /// `{`
    OpenBrace,
    /// `}`
    CloseBrace,
    /// `<->`
    Equiv,
    /// `->`
    Imply,
    /// `&`
    And,
    /// `|`
    Or,
    /// `!`
    Not,
    /// `==>`
    Turnstile,
    /// `=`
    Equal,
    /// `!=`
    NotEqual,
    /// `>=`
    AtLeast,
    /// `>`
    Greater,
    /// `<=`
    AtMost,
    /// `<`
    Less,
    /// `+`
    Plus,
    /// `-`
    Minus,
    /// `*`
    Star,
    /// `/`
    Slash,
    /// `^`
    Caret,
    /// `'`
    Prime,
    /// `:=`
    Gets,
    /// `++`
    Choice,
    /// `?`
    Query,
    /// `;`
    Semicolon,
    /// `,`
    Comma,
    /// `~>`
    Becomes,
    /// `~~`
    Swaps,
}

/// What a token is.
#[derive(Drop)]
pub enum TokenKind {
    Word(Name),
    /// The word `true`.
    True,
    /// The word `false`.
    False,
    Number(Num),
    /// A literal of more than 38 digits as written.
    LongNumber,
    /// An argument dot, as `._0`.
    Dot(u8),
    /// `_`
    Hole,
    Mark(Mark),
    /// The end of the text.
    End,
}

/// A token, with the places of its first byte and of the byte behind its last.
#[derive(Drop)]
pub struct Token {
    pub kind: TokenKind,
    pub at: usize,
    pub end: usize,
}

/// Whether argument dots and the hole are in the grammar of a text.
#[derive(Clone, Copy)]
pub enum Dots {
    Refused,
    Allowed,
}

/// What a text of one tree is to be.
#[derive(Clone, Copy)]
pub enum Form {
    Formula,
    Term,
    Program,
    /// A formula, a program, or a term that is no formula.
    Expression,
}

/// What stands between two operands.
#[derive(Clone, Copy)]
pub enum Infix {
    Equiv,
    Imply,
    Or,
    And,
    Equal,
    NotEqual,
    AtLeast,
    Greater,
    AtMost,
    Less,
    Add,
    Sub,
    Mul,
    Div,
    Pow,
    Choice,
}
