ghost use Rattle.std.specs.Prelude.{◌≡◌};
ghost use Rattle.dlk_calculus.specs.Pairs.{why_text};

/// Why a pair may not stand in a substitution, in the order in which it is looked for.
#[derive(Clone, Copy, Debug, PartialEq, Eq)]
pub enum Why {
    /// The replacement isn't of the symbol's sort; that of an ODE constant is to be a system whose domain is `true`.
    Sort,
    /// An earlier pair has the same symbol.
    Twice,
    /// An argument dot stands in the replacement that isn't below the symbol's arity.
    Dot,
    /// `_` stands in the replacement, and the symbol is no predicational.
    Hole,
    /// The symbol's taboo variable, plain or primed, is free in the replacement, or for an ODE constant free or bound.
    Taboo,
}

impl Why {
    /// Its word, as it is printed.
    pub fn word(self) -> &'static str
        ensures { result.now ≡ why_text self }
    {
        match self {
            Why::Sort => "sort",
            Why::Twice => "twice",
            Why::Dot => "dot",
            Why::Hole => "hole",
            Why::Taboo => "taboo",
        }
    }
}
