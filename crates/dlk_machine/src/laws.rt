//! The laws of reading. Each is a contract of a function that does nothing.
ghost use Rattle.std.specs.Prelude.{◌≡◌, ◌⊎◌, ℕ, List, All};
ghost use Rattle.dlk_tree.specs.Trees.{Tree, WellMade};
ghost use Rattle.dlk_calculus.specs.Sequents.{Sequent, IsFormula, IsSequent};
ghost use Rattle.dlk_calculus.specs.Pairs.{Pair, Extra, AreWellMade};
ghost use Rattle.dlk_grammar.specs.declared.token.Dots.{Dots as TheDots};
ghost use Rattle.dlk_grammar.specs.declared.token.Dots.TheVariants.{Refused};
ghost use Rattle.dlk_grammar.specs.declared.token.Form.{Form as TheForm};
ghost use Rattle.dlk_grammar.specs.declared.token.Form.TheVariants.{Formula};
ghost use Rattle.dlk_grammar.specs.Lexemes.{Lexeme};
ghost use Rattle.dlk_grammar.specs.Phrases.{Phrase};
ghost use Rattle.dlk_grammar.specs.Grammar.{Nonterminal, Reads, Sides, ReadsSequent, ReadsExpression};
ghost use Rattle.dlk_grammar.specs.Readings.{Says, Stops, grammar};
ghost use Rattle.dlk_grammar.specs.Substitutions.{PairPhrase, ReadsSubstitution};
ghost use Rattle.dlk_grammar.specs.Extras.{ExtraPhrase, ReadsExtra};
ghost use Rattle.dlk_grammar.specs.Texts.{TreeText, SequentText, PairsText, ExtraText, TextFault, TreeTextFault, SequentTextFault, PairsTextFault};
ghost use Rattle.dlk_grammar.specs.Texts.{ExtraTextFault};
ghost use Rattle.dlk_machine.specs.Symbols.{ReplacesSymbol};

/// Lexemes are at most one phrase of each nonterminal. The statement of reading asks for it.
pub fn one_phrase()
    ensures { (n : Nonterminal) (s : List Lexeme) (p q : Phrase) → Reads n s p → Reads n s q → p ≡ q }
{}

/// Lexemes are at most one expression. The statement of reading asks for it.
pub fn one_expression()
    ensures { (s : List Lexeme) (p q : Phrase) → ReadsExpression s p → ReadsExpression s q → p ≡ q }
{}

/// Lexemes are the two sides of at most one sequent. The statement of reading asks for it.
pub fn one_sides()
    ensures { (s : List Lexeme) (p q : Sides) → ReadsSequent s p → ReadsSequent s q → p ≡ q }
{}

/// Lexemes are the pairs of at most one substitution. The statement of reading asks for it.
pub fn one_pairs()
    ensures { (s : List Lexeme) (p q : List PairPhrase) → ReadsSubstitution s p → ReadsSubstitution s q → p ≡ q }
{}

/// Lexemes are the renames and the pairs of at most one extra. The statement of reading asks for it.
pub fn one_extra()
    ensures { (s : List Lexeme) (p q : ExtraPhrase) → ReadsExtra s p → ReadsExtra s q → p ≡ q }
{}

/// The first lexeme at which no text of a form goes on is one. The statement of reading asks for it.
pub fn one_stop()
    ensures trees { (form : TheForm) (d : TheDots) (s : List Lexeme) (i j : ℕ) → Stops d (grammar form) s i → Stops d (grammar form) s j → i ≡ j }
    ensures sequents { (d : TheDots) (s : List Lexeme) (i j : ℕ) → Stops d ReadsSequent s i → Stops d ReadsSequent s j → i ≡ j }
    ensures pairs { (d : TheDots) (s : List Lexeme) (i j : ℕ) → Stops d ReadsSubstitution s i → Stops d ReadsSubstitution s j → i ≡ j }
    ensures extras { (d : TheDots) (s : List Lexeme) (i j : ℕ) → Stops d ReadsExtra s i → Stops d ReadsExtra s j → i ≡ j }
{}

/// A text of a form stops nowhere. The statement of reading asks for it.
pub fn no_stop()
    ensures trees { (form : TheForm) (d : TheDots) (s : List Lexeme) (p : Phrase) (i : ℕ) → Says d (grammar form) s p → Stops d (grammar form) s i → ⊥ }
    ensures sequents { (d : TheDots) (s : List Lexeme) (p : Sides) (i : ℕ) → Says d ReadsSequent s p → Stops d ReadsSequent s i → ⊥ }
    ensures pairs { (d : TheDots) (s : List Lexeme) (p : List PairPhrase) (i : ℕ) → Says d ReadsSubstitution s p → Stops d ReadsSubstitution s i → ⊥ }
    ensures extras { (d : TheDots) (s : List Lexeme) (p : ExtraPhrase) (i : ℕ) → Says d ReadsExtra s p → Stops d ReadsExtra s i → ⊥ }
{}

/// Bytes are a text of one tree or have one fault, and never both. The tree is well made, and where a formula without
/// argument dots is wanted, it is one.
pub fn tree_texts()
    ensures one { (form : TheForm) (d : TheDots) (bytes : List ℕ) (t u : Tree) → TreeText form d bytes t → TreeText form d bytes u → t ≡ u }
    ensures no_fault { (form : TheForm) (d : TheDots) (bytes : List ℕ) (t : Tree) (why : TextFault)
        → TreeText form d bytes t → TreeTextFault form d bytes why → ⊥ }
    ensures one_fault { (form : TheForm) (d : TheDots) (bytes : List ℕ) (why other : TextFault)
        → TreeTextFault form d bytes why → TreeTextFault form d bytes other → why ≡ other }
    ensures some { (form : TheForm) (d : TheDots) (bytes : List ℕ)
        → ((t : Tree) × TreeText form d bytes t) ⊎ ((why : TextFault) × TreeTextFault form d bytes why) }
    ensures well_made { (form : TheForm) (d : TheDots) (bytes : List ℕ) (t : Tree) → TreeText form d bytes t → WellMade t }
    ensures formulas { (bytes : List ℕ) (t : Tree) → TreeText Formula Refused bytes t → IsFormula t }
{}

/// Bytes are a text of one sequent or have one fault, and never both. Its formulas are formulas without argument dots.
/// The statement of reading asks for it.
pub fn sequent_texts()
    ensures one { (bytes : List ℕ) (s z : Sequent) → SequentText bytes s → SequentText bytes z → s ≡ z }
    ensures no_fault { (bytes : List ℕ) (s : Sequent) (why : TextFault) → SequentText bytes s → SequentTextFault bytes why → ⊥ }
    ensures one_fault { (bytes : List ℕ) (why other : TextFault) → SequentTextFault bytes why → SequentTextFault bytes other → why ≡ other }
    ensures some { (bytes : List ℕ) → ((s : Sequent) × SequentText bytes s) ⊎ ((why : TextFault) × SequentTextFault bytes why) }
    ensures formulas { (bytes : List ℕ) (s : Sequent) → SequentText bytes s → IsSequent s }
{}

/// Bytes are a text of the pairs of one substitution or have one fault, and never both. Each replacement is well made, and
/// what a pair replaces is a symbol. The statement of reading asks for it.
pub fn pairs_texts()
    ensures one { (bytes : List ℕ) (pairs others : List Pair) → PairsText bytes pairs → PairsText bytes others → pairs ≡ others }
    ensures no_fault { (bytes : List ℕ) (pairs : List Pair) (why : TextFault) → PairsText bytes pairs → PairsTextFault bytes why → ⊥ }
    ensures one_fault { (bytes : List ℕ) (why other : TextFault) → PairsTextFault bytes why → PairsTextFault bytes other → why ≡ other }
    ensures some { (bytes : List ℕ) → ((pairs : List Pair) × PairsText bytes pairs) ⊎ ((why : TextFault) × PairsTextFault bytes why) }
    ensures well_made { (bytes : List ℕ) (pairs : List Pair) → PairsText bytes pairs → AreWellMade pairs }
    ensures symbols { (bytes : List ℕ) (pairs : List Pair) → PairsText bytes pairs → All ReplacesSymbol pairs }
{}

/// The same of the texts of renames with pairs behind them, each of whose replacements is well made. What a pair replaces is a symbol.
pub fn extra_texts()
    ensures one { (bytes : List ℕ) (extra other : Extra) → ExtraText bytes extra → ExtraText bytes other → extra ≡ other }
    ensures no_fault { (bytes : List ℕ) (extra : Extra) (why : TextFault) → ExtraText bytes extra → ExtraTextFault bytes why → ⊥ }
    ensures one_fault { (bytes : List ℕ) (why other : TextFault) → ExtraTextFault bytes why → ExtraTextFault bytes other → why ≡ other }
    ensures some { (bytes : List ℕ) → ((extra : Extra) × ExtraText bytes extra) ⊎ ((why : TextFault) × ExtraTextFault bytes why) }
    ensures well_made { (bytes : List ℕ) (extra : Extra) → ExtraText bytes extra → AreWellMade extra.pairs }
    ensures symbols { (bytes : List ℕ) (extra : Extra) → ExtraText bytes extra → All ReplacesSymbol extra.pairs }
{}
