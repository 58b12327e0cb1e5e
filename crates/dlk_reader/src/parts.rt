//! What a reader keeps of a text that is not yet whole. The operators of what was read stand on a list beside it.
ghost use Rattle.std.specs.Prelude.{◌≡◌, Some};
ghost use Rattle.dlk_grammar.specs.Phrases.{no_items};
ghost use Rattle.dlk_reader.specs.Shows.{equations_of, Agrees};

use crate::kept::Kept;
use crate::stop::LexemeFault;
use dlk_grammar::Infix;
use dlk_tree::{Items, Name, Sort};
use std::alloc::Global;

/// What stands between two operands: an operator with a lexeme, or none between two statements.
#[derive(Clone, Copy)]
pub enum Between {
    By(Infix),
    Next,
}

/// `\forall` and `\exists`.
#[derive(Clone, Copy)]
pub enum Quantifier {
    ForAll,
    ForSome,
}

/// `[` and `<` before a program.
#[derive(Clone, Copy)]
pub enum Modality {
    InBox,
    InDia,
}

/// An operator before its operand. The program of a modality is on the list.
#[derive(Drop)]
pub enum Prefix {
    Minus,
    Not,
    Bound(Quantifier, Name),
    Modal(Modality),
}

/// A system that is being read: the place of its brace, and its items so far. Their right sides are on the list.
#[derive(Drop)]
pub struct Equations {
    /// The place of its brace.
    pub at: usize,
    /// Its items so far.
    pub items: Kept<Items>,
}

impl Equations {
    /// A system without items.
    ///
    /// # Errors
    ///
    /// `Memory` comes where memory ran out.
    pub fn new(alloc: Global, at: usize) -> Result<Equations, LexemeFault>
        ensures { Agrees (λ e x. e ≡ x) result (Some (equations_of at no_items)) }
    {
        Ok(Equations {
            at,
            items: Kept::new(alloc, Items::new(Vec::new(alloc)))?,
        })
    }
}

/// What is closed by a lexeme of its own.
#[derive(Drop)]
pub enum Holder {
    /// A bracket, and whether a formula can stand for it.
    Round(bool),
    /// An application: the place of its name, its name, the number of arguments so far, which are on the list.
    Args { at: usize, name: Name, count: usize },
    InContext(Name),
    In(Modality),
    InBrace,
    /// An assignment to a variable, or with `primed` to its differential symbol.
    Assigns { name: Name, primed: bool },
    Tests,
    /// The right side of a variable of a system.
    Evolves(Equations, Name),
    /// The domain of a system.
    Domain(Equations),
    /// The formulas of `@invariant` behind a program: their number so far. The program and they are on the list.
    Notes(usize),
}

/// What is open: an operator behind its left operand, which is on the list, a prefix or a holder.
#[derive(Drop)]
pub enum Part {
    Left(Between),
    Before(Prefix),
    Inside(Holder),
}

/// What may come right behind a piece, beside an operator.
#[derive(Clone, Copy)]
pub enum Tail {
    Done,
    /// Behind a term or a formula in brackets.
    Grouped,
    /// Behind a brace; behind its star; behind its invariants.
    Braced,
    Starred,
    Annotated,
}

/// A symbol that is a term or a formula.
#[derive(Drop)]
pub enum Head {
    /// An application: the place of its name, its name, the number of its arguments, which are on the list.
    Call { at: usize, name: Name, count: usize },
    /// A unit symbol, and the variable on which it does not depend.
    Any { name: Name, taboo: Option<Name> },
}

/// What was read last.
#[derive(Drop)]
pub enum Last {
    /// A tree, which is on the list.
    Tree(Sort, Tail),
    /// A lone name, whose variable is not yet on the list.
    Name {
        at: usize,
        name: Name,
    },
    /// A symbol with a number of primes. Whether it is a term or a formula is not known, and its operator not yet on the list.
    Symbol {
        head: Kept<Head>,
        primes: usize,
        tail: Tail,
    },
}

/// Where a reader stands.
#[derive(Drop)]
pub enum Mode {
    Wants,
    Has(Last),
    /// After `x (` and after `x (|` and after `x (| y`.
    Calls {
        at: usize,
        name: Name,
    },
    Bars(Name),
    BarsName {
        name: Name,
        taboo: Name,
    },
    /// After `\forall` or `\exists`.
    Binds(Quantifier),
    /// After `x`, after `x '`, after `x :=` and after `x := *` where a statement begins.
    Starts(Name),
    StartsPrime(Name),
    StartsGets(Name),
    StartsStar(Name),
    /// After `{` and after `{ x` and after `{ x '` where a program or a system may follow.
    Opens(usize),
    OpensName {
        at: usize,
        name: Name,
    },
    OpensPrime {
        at: usize,
        name: Name,
    },
    /// Where an item is wanted, after `x`, after `x '`, after `x {|`, after `x {| y`, and where it is whole.
    WantsItem(Equations),
    ItemName(Equations, Name),
    ItemPrime(Equations, Name),
    ItemBar(Equations, Name),
    ItemBarName {
        equations: Equations,
        name: Name,
        taboo: Name,
    },
    ItemEnds(Equations),
    /// After `@invariant`.
    Invariants,
}

impl Mode {
    /// Where the reader stands now.
    #[inline(always)]
    pub(crate) fn set(&mut self, to: Mode)
        ensures { self.new ≡ to }
    {
        *self = to;
    }
}

/// A lexeme that closes a holder.
#[derive(Clone, Copy)]
pub enum Closer {
    Round,
    Square,
    Brace,
    Greater,
    Comma,
    Semicolon,
}
