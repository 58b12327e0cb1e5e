//! The laws of texts. Each is a contract of a function that does nothing.
ghost use Rattle.std.specs.Prelude.{◌≡◌, ◌⊎◌, ℕ, List, All, IsAscii};
ghost use Rattle.dlk_grammar.specs.declared.token.Token.{Token as TheToken};
ghost use Rattle.dlk_tree.specs.Trees.{Tree, WellMade};
ghost use Rattle.dlk_calculus.specs.Sequents.{Sequent};
ghost use Rattle.dlk_grammar.specs.RealTokens.{AreTokens};
ghost use Rattle.dlk_grammar.specs.Splits.{Splits, BadAt};
ghost use Rattle.dlk_grammar.specs.Shown.{spell, shown, shown_sequent};

/// Bytes are split into tokens in one way. The statement of tokens asks for it.
pub fn one_split()
    ensures { (at : ℕ) (bytes : List ℕ) (ts us : List TheToken) → Splits at bytes ts → Splits at bytes us → ts ≡ us }
{}

/// Bytes are split, or come to a bad place. The statement of tokens asks for it.
pub fn some_split()
    ensures { (at : ℕ) (bytes : List ℕ) → ((tokens : List TheToken) × Splits at bytes tokens) ⊎ ((bad : ℕ) × BadAt at bytes bad) }
{}

/// Bytes that come to a bad place aren't split. The statement of tokens asks for it.
pub fn bad_is_no_split()
    ensures { (at : ℕ) (bytes : List ℕ) (ts : List TheToken) (bad : ℕ) → BadAt at bytes bad → Splits at bytes ts → ⊥ }
{}

/// Bytes come to at most one bad place. The statement of tokens asks for it.
pub fn one_bad()
    ensures { (at : ℕ) (bytes : List ℕ) (bad other : ℕ) → BadAt at bytes bad → BadAt at bytes other → bad ≡ other }
{}

/// What bytes are split into are tokens: the end is the last of them and stands nowhere else, and each is real.
/// The statement of tokens asks for it.
pub fn splits_are_tokens()
    ensures { (at : ℕ) (bytes : List ℕ) (ts : List TheToken) → Splits at bytes ts → AreTokens ts }
{}

/// Canonical text is ASCII: that of a well-made tree, and that of a sequent of well-made trees.
/// The statement of reports asks for it.
pub fn canonical_texts()
    ensures trees { (t : Tree) → WellMade t → IsAscii (spell (shown t)) }
    ensures sequents { (s : Sequent) → All WellMade s.ante → All WellMade s.succ → IsAscii (spell (shown_sequent s)) }
{}
