//! What the end of a text makes of what is open.
ghost use Rattle.std.specs.Prelude.{◌≡◌, List, Some};
ghost use Rattle.dlk_grammar.specs.Phrases.{Phrase};
ghost use Rattle.dlk_machine.specs.Machine.{Part as MachinePart, Piece, State, as_sort, whole, ended};
ghost use Rattle.dlk_machine.specs.Parse.{or_else};
ghost use Rattle.dlk_machine.specs.Expressions.{term_or_formula};
ghost use Rattle.dlk_tree.specs.declared.op.Sort.TheVariants as sort_of;
ghost use Rattle.dlk_reader.specs.Shows.{IsWhole, Shows, Agrees, IsLast, Stands};
ghost use Rattle.dlk_reader.specs.Ends.{either_sort, at_comma, IsEither, ShowsComma};

use crate::lexeme::Lexeme;
use crate::parts::{Last, Mode};
use crate::stack::{Stack, settle};
use crate::stop::LexemeFault;
use dlk_tree::Sort;
use std::alloc::Global;

/// What a comma makes of what is read.
#[derive(Drop)]
pub enum Comma {
    /// Nothing is open, and what was read last stands before the comma.
    Ends(Last),
    /// Where the reader stands behind a comma that is inside.
    GoesOn(Mode),
}

impl Stack {
    /// The tree, where nothing is open any more.
    ///
    /// # Errors
    ///
    /// `Syntax` comes exactly where something is open or what was read last is of another sort, and `Memory` where memory ran out.
    pub fn settle_whole(&mut self, goal: Sort, last: Last) -> Result<(), LexemeFault>
        ensures { (S : List MachinePart) (p : Piece) → Stands self.old last S p
            → Agrees (λ _ t. IsWhole self.new t) result (whole goal S p) }
    {
        if !self.parts.is_empty() {
            return Err(LexemeFault::Syntax);
        }
        settle(&mut self.out, last, goal)
    }

    /// The end of a term, a formula or a program.
    ///
    /// # Errors
    ///
    /// `Syntax` comes exactly where what was read is none of that sort, and `Memory` where memory ran out.
    pub fn end(&mut self, goal: Sort, mode: Mode) -> Result<(), LexemeFault>
        ensures { (x : State) → Shows self.old mode x
            → Agrees (λ _ t. IsWhole self.new t) result (ended goal x) }
    {
        let Mode::Has(last) = mode else {
            return Err(LexemeFault::Syntax);
        };
        let last = self.reduce(0, last)?;
        self.settle_whole(goal, last)
    }

    /// The end of a formula, or of a term that is no formula.
    ///
    /// # Errors
    ///
    /// `Syntax` comes exactly where what was read is neither, and `Memory` where memory ran out.
    pub fn end_either(&mut self, mode: Mode) -> Result<(), LexemeFault>
        ensures { (x : State) → Shows self.old mode x
            → Agrees (λ _ t. IsWhole self.new t) result (term_or_formula x) }
    {
        let Mode::Has(last) = mode else {
            return Err(LexemeFault::Syntax);
        };
        let last = self.reduce(0, last)?;
        let sort = either_sort(&last);
        self.settle_whole(sort, last)
    }

    /// What was read last as a formula where it can be one, and else as a term, where nothing is open any more: its sort.
    ///
    /// # Errors
    ///
    /// `Syntax` comes exactly where something is open or a program was read last, and `Memory` where memory ran out.
    pub fn settle_either(&mut self, last: Last) -> Result<Sort, LexemeFault>
        ensures { (S : List MachinePart) (p : Piece) → Stands self.old last S p
            → Agrees (IsEither self.new p) result (whole (either_sort p) S p) }
    {
        let sort = either_sort(&last);
        self.settle_whole(sort, last)?;
        Ok(sort)
    }

    /// A comma behind what is read, or in it.
    ///
    /// # Errors
    ///
    /// `Syntax` comes exactly where what stands before the comma can not be closed, or no text goes on with it, and `Memory` where memory ran out.
    pub fn at_comma(&mut self, alloc: Global, goal: Sort, mode: Mode) -> Result<Comma, LexemeFault>
        ensures { (x : State) → Shows self.old mode x
            → Agrees (ShowsComma self.new) result (at_comma goal x) }
    {
        let last = match mode {
            Mode::Has(last) => last,
            mode => {
                let mode = self.step(alloc, goal, mode, Lexeme::Comma)?;
                return Ok(Comma::GoesOn(mode));
            }
        };
        let last = self.reduce(0, last)?;
        if self.parts.is_empty() {
            return Ok(Comma::Ends(last));
        }
        let mode = self.step(alloc, goal, Mode::Has(last), Lexeme::Comma)?;
        Ok(Comma::GoesOn(mode))
    }
}

/// A formula where it can be one, and else a term.
fn either_sort(last: &Last) -> Sort
    ensures sort { (p : Piece) → IsLast last.now p → result ≡ either_sort p }
    ensures either { (p : Piece) → IsLast last.now p
        → as_sort result p ≡ or_else {A = Phrase} (as_sort sort_of.Formula p) (as_sort sort_of.Term p) (λ t. Some t) }
{
    match last {
        Last::Tree(Sort::Term, _) => Sort::Term,
        Last::Tree(Sort::Formula, _) => Sort::Formula,
        Last::Tree(Sort::Program, _) => Sort::Formula,
        Last::Name { .. } => Sort::Term,
        Last::Symbol { .. } => Sort::Formula,
    }
}
