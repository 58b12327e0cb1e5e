//! The reader of a substitution: pairs with commas between.
ghost use Rattle.std.specs.Prelude.{◌≡◌, ◌↔◌, IsTrue, List, [], ◌∷◌, ◌++◌, Some};
ghost use Rattle.dlk_grammar.specs.Lexemes.{Comma as CommaLexeme};
ghost use Rattle.dlk_grammar.specs.Phrases.{Phrase};
ghost use Rattle.dlk_grammar.specs.Substitutions.{PairPhrase, to, predicate, function};
ghost use Rattle.dlk_machine.specs.Machine.{Part as MachinePart, Piece, State, when};
ghost use Rattle.dlk_grammar.specs.declared.token.Dots.TheVariants.{Allowed};
ghost use Rattle.dlk_grammar.specs.Readings.{permits};
ghost use Rattle.dlk_machine.specs.Pairs.{PairState, PairsState, Fresh, Within, LeftEnds, InRight, BraceWanted, InSystem, pair_step, pairs_step};
ghost use Rattle.dlk_machine.specs.Pairs.{pairs_ended, right_ended, right_sort};
ghost use Rattle.dlk_reader.specs.declared.lexeme.Lexeme.TheVariants.{Comma as SeenComma};
ghost use Rattle.dlk_reader.specs.Outcomes.{leaving};
ghost use Rattle.dlk_reader.specs.Shows.{seen, IsWhole, Stands, Shows, Agrees};
ghost use Rattle.dlk_forms.specs.PairReaders.{target_of, wants, symbol_as, right_whole, with_pair, KeepsPairs, Rests, IsPairOf, is_and, is_system};
ghost use Rattle.dlk_forms.specs.PairReaders.{ShowsPair, ShowsWithin, ShowsPairsAt, ShowsPairs, PairsComes};
ghost use Rattle.dlk_forms.specs.Said.{IsCodeOfPairs};
ghost use Rattle.dlk_forms.specs.declared.pairs.PairsSoFar.{PairsSoFar as TheReader};

use crate::dots::permits;
use crate::pair_heads::{LeftMode, Right, Target, function, left_step, predicate};
use dlk_grammar::{Dots, Infix};
use dlk_reader::{
    Code, Comma, Equations, Last, Lexeme, LexemeFault, LexemeReader, Mode, Stack, Tail,
};
use dlk_tree::{Sort, Sym};
use std::alloc::Global;

/// Where the reader of a pair stands.
#[derive(Drop)]
pub(crate) enum PairMode {
    Left(LeftMode),
    /// A left side is whole.
    LeftEnds(Right),
    InRight(Right, Mode),
    /// Where the brace of a system is wanted, in a system, and behind its brace.
    BraceWanted(Sym),
    InSystem(Sym, Mode),
    SystemEnds(Sym),
}

/// What is read of a substitution.
#[derive(Drop)]
pub(crate) struct PairsSoFar {
    pub(crate) stack: Stack,
    /// The symbols of the pairs that are whole, in order.
    pub(crate) symbols: Vec<Sym>,
    /// The operators of their replacements.
    pub(crate) done: Vec<Code>,
}

/// The symbols of pairs in order, and the operators of their replacements in order, each behind its operands.
#[derive(Drop)]
pub struct PairsCode {
    /// The symbols.
    pub symbols: Vec<Sym>,
    /// The operators.
    pub code: Vec<Code>,
}

/// A reader of a substitution, in which dots are allowed. There is no mode where nothing was read.
#[derive(Drop)]
pub(crate) struct PairsReader {
    pub(crate) pairs: PairsSoFar,
    pub(crate) mode: Option<PairMode>,
}

/// A lexeme behind a whole left side.
fn right_begins(right: Right, lexeme: Lexeme) -> Result<PairMode, LexemeFault>
    ensures { (r : TheReader) (l : List PairPhrase) → Rests r l
        → Agrees (ShowsPair r l) result (pair_step (LeftEnds (wants right)) (seen lexeme)) }
{
    match lexeme {
        Lexeme::Becomes => Ok(match right {
            Right::SystemOf(symbol) => PairMode::BraceWanted(symbol),
            right => PairMode::InRight(right, Mode::Wants),
        }),
        _ => Err(LexemeFault::Syntax),
    }
}

/// A lexeme where the brace of a system is wanted.
fn brace_step(alloc: Global, symbol: Sym, lexeme: Lexeme) -> Result<PairMode, LexemeFault>
    ensures { (r : TheReader) (l : List PairPhrase) → Rests r l
        → Agrees (ShowsPair r l) result (pair_step (BraceWanted symbol) (seen lexeme)) }
{
    match lexeme {
        Lexeme::OpenBrace(at) => {
            let equations = Equations::new(alloc, at)?;
            Ok(PairMode::InSystem(symbol, Mode::WantsItem(equations)))
        }
        _ => Err(LexemeFault::Syntax),
    }
}

/// The sort by which a right side is read: a formula's reader reads a term, too.
fn right_sort(right: &Right) -> Sort
    ensures { result ≡ right_sort (wants right.now) }
{
    match right {
        Right::EitherOf(_) => Sort::Formula,
        Right::TextOf(sort, _) => *sort,
        Right::SystemOf(_) => Sort::Program,
    }
}

/// The symbol of a function or a predicate whose right side is of a sort.
fn symbol_as(target: Target, sort: Sort) -> Sym
    ensures { result ≡ symbol_as sort (target_of target) }
{
    match sort {
        Sort::Formula => predicate(target),
        Sort::Term => function(target),
        Sort::Program => function(target),
    }
}

/// A right side is whole: the symbol of its pair.
fn settle_right(stack: &mut Stack, right: Right, last: Last) -> Result<Sym, LexemeFault>
    ensures { (S : List MachinePart) (p : Piece) → Stands stack.old last S p
        → Agrees (IsPairOf stack.new) result (right_whole (wants right) S p) }
{
    match right {
        Right::EitherOf(target) => {
            let sort = stack.settle_either(last)?;
            Ok(symbol_as(target, sort))
        }
        Right::TextOf(sort, symbol) => {
            stack.settle_whole(sort, last)?;
            Ok(symbol)
        }
        Right::SystemOf(_) => Err(LexemeFault::Syntax),
    }
}

fn is_comma(lexeme: &Lexeme) -> bool
    ensures { IsTrue result ↔ (lexeme.now ≡ SeenComma) }
{
    matches!(lexeme, Lexeme::Comma)
}

/// Whether a lexeme begins a domain.
fn is_and(lexeme: &Lexeme) -> bool
    ensures { result ≡ is_and (seen lexeme.now) }
{
    match lexeme {
        Lexeme::Op(Infix::And) => true,
        _ => false,
    }
}

/// Whether a system is whole: nothing is open behind its brace.
fn is_system(stack: &Stack, mode: &Mode) -> bool
    ensures { (x : State) → Shows stack.now mode.now x → result ≡ is_system x }
{
    match mode {
        Mode::Has(Last::Tree(Sort::Program, Tail::Braced)) => stack.parts.is_empty(),
        _ => false,
    }
}

impl PairsSoFar {
    /// A pair is whole: its symbol, and its right side on the stack.
    fn keep(&mut self, symbol: Sym) -> Result<(), LexemeFault>
        ensures { (l : List PairPhrase) (t : Phrase) → KeepsPairs self.old l → IsWhole self.old.stack t
            → Agrees (λ _ m. Rests self.new m) result (Some (l ++ to symbol t ∷ [])) }
    {
        self.done.append(&mut self.stack.out)?;
        Ok(self.symbols.push(symbol)?)
    }

    /// A pair with a right side that was read last is whole.
    fn keep_right(&mut self, right: Right, last: Last) -> Result<(), LexemeFault>
        ensures { (l : List PairPhrase) (S : List MachinePart) (p : Piece) → KeepsPairs self.old l → Stands self.old.stack last S p
            → Agrees (λ _ m. Rests self.new m) result (with_pair l (right_whole (wants right) S p)) }
    {
        let symbol = settle_right(&mut self.stack, right, last)?;
        self.keep(symbol)
    }

    /// The end of a right side.
    fn end_right(&mut self, right: Right, mode: Mode) -> Result<(), LexemeFault>
        ensures { (l : List PairPhrase) (x : State) → KeepsPairs self.old l → Shows self.old.stack mode x
            → Agrees (λ _ m. Rests self.new m) result (with_pair l (right_ended (wants right) x)) }
    {
        let Mode::Has(last) = mode else {
            return Err(LexemeFault::Syntax);
        };
        let last = self.stack.reduce(0, last)?;
        self.keep_right(right, last)
    }

    /// A lexeme of a right side.
    fn right_step(
        &mut self,
        alloc: Global,
        right: Right,
        mode: Mode,
        lexeme: Lexeme,
    ) -> Result<PairMode, LexemeFault>
        ensures { (l : List PairPhrase) (x : State) → KeepsPairs self.old l → Shows self.old.stack mode x
            → Agrees (ShowsPair self.new l) result (pair_step (InRight (wants right) x) (seen lexeme)) }
    {
        let sort = right_sort(&right);
        let mode = self.stack.step(alloc, sort, mode, lexeme)?;
        Ok(PairMode::InRight(right, mode))
    }

    /// A lexeme of a system. It has no domain, and is whole behind its brace.
    fn system_step(
        &mut self,
        alloc: Global,
        symbol: Sym,
        mode: Mode,
        lexeme: Lexeme,
    ) -> Result<PairMode, LexemeFault>
        ensures { (l : List PairPhrase) (x : State) → KeepsPairs self.old l → Shows self.old.stack mode x
            → Agrees (ShowsPair self.new l) result (pair_step (InSystem symbol x) (seen lexeme)) }
    {
        if is_and(&lexeme) {
            return Err(LexemeFault::Syntax);
        }
        let mode = self.stack.step(alloc, Sort::Program, mode, lexeme)?;
        if is_system(&self.stack, &mode) {
            return Ok(PairMode::SystemEnds(symbol));
        }
        Ok(PairMode::InSystem(symbol, mode))
    }

    /// A lexeme of a pair.
    fn pair_step(
        &mut self,
        alloc: Global,
        mode: PairMode,
        lexeme: Lexeme,
    ) -> Result<PairMode, LexemeFault>
        ensures { (l : List PairPhrase) (x : PairState) → ShowsPair self.old l mode x
            → Agrees (ShowsPair self.new l) result (pair_step x (seen lexeme)) }
    {
        match mode {
            PairMode::Left(mode) => left_step(mode, lexeme),
            PairMode::LeftEnds(right) => right_begins(right, lexeme),
            PairMode::InRight(right, mode) => self.right_step(alloc, right, mode, lexeme),
            PairMode::BraceWanted(symbol) => brace_step(alloc, symbol, lexeme),
            PairMode::InSystem(symbol, mode) => self.system_step(alloc, symbol, mode, lexeme),
            PairMode::SystemEnds(_) => Err(LexemeFault::Syntax),
        }
    }

    /// A comma behind a right side, or in it.
    fn right_comma(
        &mut self,
        alloc: Global,
        right: Right,
        mode: Mode,
    ) -> Result<PairMode, LexemeFault>
        ensures { (l : List PairPhrase) (x : State) → KeepsPairs self.old l → Shows self.old.stack mode x
            → Agrees (ShowsWithin self.new) result (pairs_step (Within l (InRight (wants right) x)) CommaLexeme) }
    {
        let sort = right_sort(&right);
        match self.stack.at_comma(alloc, sort, mode)? {
            Comma::GoesOn(mode) => Ok(PairMode::InRight(right, mode)),
            Comma::Ends(last) => {
                self.keep_right(right, last)?;
                Ok(PairMode::Left(LeftMode::Begins))
            }
        }
    }

    /// A comma behind a pair, or in it.
    fn comma_step(&mut self, alloc: Global, mode: PairMode) -> Result<PairMode, LexemeFault>
        ensures { (l : List PairPhrase) (x : PairState) → ShowsPair self.old l mode x
            → Agrees (ShowsWithin self.new) result (pairs_step (Within l x) CommaLexeme) }
    {
        match mode {
            PairMode::InRight(right, mode) => self.right_comma(alloc, right, mode),
            PairMode::SystemEnds(symbol) => {
                self.keep(symbol)?;
                Ok(PairMode::Left(LeftMode::Begins))
            }
            mode => self.pair_step(alloc, mode, Lexeme::Comma),
        }
    }

    /// What a lexeme makes of what was read.
    pub(crate) fn step(
        &mut self,
        alloc: Global,
        mode: Option<PairMode>,
        lexeme: Lexeme,
    ) -> Result<PairMode, LexemeFault>
        ensures { (x : PairsState) → ShowsPairsAt self.old mode x
            → Agrees (ShowsWithin self.new) result (pairs_step x (seen lexeme)) }
    {
        let Some(mode) = mode else {
            return self.pair_step(alloc, PairMode::Left(LeftMode::Begins), lexeme);
        };
        if let Lexeme::Comma = lexeme {
            return self.comma_step(alloc, mode);
        }
        self.pair_step(alloc, mode, lexeme)
    }

    /// The last pair ends.
    fn finish(&mut self, mode: PairMode) -> Result<(), LexemeFault>
        ensures { (l : List PairPhrase) (x : PairState) → ShowsPair self.old l mode x
            → Agrees (λ _ m. Rests self.new m) result (pairs_ended (Within l x)) }
    {
        match mode {
            PairMode::InRight(right, mode) => self.end_right(right, mode),
            PairMode::SystemEnds(symbol) => self.keep(symbol),
            PairMode::Left(_) => Err(LexemeFault::Syntax),
            PairMode::LeftEnds(_) => Err(LexemeFault::Syntax),
            PairMode::BraceWanted(_) => Err(LexemeFault::Syntax),
            PairMode::InSystem(_, _) => Err(LexemeFault::Syntax),
        }
    }

    /// The end of a substitution.
    pub(crate) fn end(self, mode: Option<PairMode>) -> Result<PairsCode, LexemeFault>
        ensures { (x : PairsState) → ShowsPairsAt self mode x
            → Agrees IsCodeOfPairs result (pairs_ended x) }
    {
        let mut reader = self;
        if let Some(mode) = mode {
            reader.finish(mode)?;
        }
        Ok(PairsCode {
            symbols: reader.symbols,
            code: reader.done,
        })
    }
}

impl PairsReader {
    /// A reader where a substitution begins.
    pub(crate) fn new(alloc: Global) -> PairsReader
        ensures { ShowsPairs result Fresh }
    {
        let pairs = PairsSoFar {
            stack: Stack::new(alloc),
            symbols: Vec::new(alloc),
            done: Vec::new(alloc),
        };
        PairsReader { pairs, mode: None }
    }

    /// Goes on by one more lexeme.
    fn go_on(&mut self, alloc: Global, lexeme: Lexeme) -> Result<(), LexemeFault>
        ensures { (x : PairsState) → ShowsPairs self.old x
            → Agrees ShowsPairs (leaving self.new result) (when (permits Allowed (seen lexeme)) (pairs_step x (seen lexeme))) }
    {
        if !permits(Dots::Allowed, &lexeme) {
            return Err(LexemeFault::Syntax);
        }
        self.go_on_permitted(alloc, lexeme)
    }

    /// Goes on by one more lexeme, which is permitted. In a right side only where that is read changes.
    fn go_on_permitted(&mut self, alloc: Global, lexeme: Lexeme) -> Result<(), LexemeFault>
        ensures { (x : PairsState) → ShowsPairs self.old x
            → Agrees ShowsPairs (leaving self.new result) (pairs_step x (seen lexeme)) }
    {
        if !is_comma(&lexeme) {
            if let Some(pair) = &mut self.mode {
                if let PairMode::InRight(right, mode) = pair {
                    let sort = right_sort(right);
                    return self.pairs.stack.go_on(alloc, sort, mode, lexeme);
                }
            }
        }
        let mode = self.mode.take();
        self.mode = Some(self.pairs.step(alloc, mode, lexeme)?);
        Ok(())
    }
}

impl LexemeReader for PairsReader {
    type Output = PairsCode;

    ghost comes = { PairsComes };

    fn step(&mut self, alloc: Global, lexeme: Lexeme) -> Result<(), LexemeFault> {
        self.go_on(alloc, lexeme)
    }

    fn end(self) -> Result<PairsCode, LexemeFault> {
        self.pairs.end(self.mode)
    }
}
