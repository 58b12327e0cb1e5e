//! What a lexeme makes of a reader's lists and where it stands.
ghost use Rattle.std.specs.Prelude.{◌≡◌, List, []};
ghost use Rattle.dlk_machine.specs.Machine.{Part as MachinePart, Piece, State, Has, infix_after, next_after, after_program, after_other, start, step, ended};
ghost use Rattle.dlk_reader.specs.Outcomes.{leaving};
ghost use Rattle.dlk_reader.specs.Shows.{seen, IsOpen, IsWhole, Stands, Shows, Agrees};

use crate::items::item_bar_name_step;
use crate::lexeme::Lexeme;
use crate::operands::bars_name_step;
use crate::parts::{Between, Closer, Last, Mode};
use crate::stack::{Stack, place, settle};
use crate::statements::{invariant_after, semi_after};
use crate::stop::LexemeFault;
use dlk_grammar::Infix;
use dlk_tree::Sort;
use std::alloc::Global;
use std::mem;

impl Stack {
    /// A lexeme where an operand or a statement is wanted.
    #[inline(always)]
    fn start(&mut self, goal: Sort, mode: &mut Mode, lexeme: Lexeme) -> Result<(), LexemeFault>
        ensures { (S : List MachinePart) → IsOpen self.old S []
            → Agrees (Shows self.new) (leaving mode.new result) (start goal S (seen lexeme)) }
    {
        match place(goal, self.parts.as_slice()) {
            Sort::Program => self.start_statement(mode, lexeme),
            Sort::Term => self.start_operand(goal, mode, lexeme),
            Sort::Formula => self.start_operand(goal, mode, lexeme),
        }
    }

    /// An operator behind an operand.
    #[inline(always)]
    fn infix_after(
        &mut self,
        goal: Sort,
        mode: &mut Mode,
        operator: Infix,
        last: Last,
    ) -> Result<(), LexemeFault>
        ensures { (S : List MachinePart) (p : Piece) → Stands self.old last S p
            → Agrees (Shows self.new) (leaving mode.new result) (infix_after goal operator S p) }
    {
        if let Infix::And = operator {
            return self.and(goal, mode, last);
        }
        self.after_operand(goal, Between::By(operator), last)?;
        mode.set(Mode::Wants);
        Ok(())
    }

    /// A statement behind a program.
    fn next_after(
        &mut self,
        goal: Sort,
        mode: &mut Mode,
        last: Last,
        lexeme: Lexeme,
    ) -> Result<(), LexemeFault>
        ensures { (S : List MachinePart) (p : Piece) → Stands self.old last S p
            → Agrees (Shows self.new) (leaving mode.new result) (next_after goal S p (seen lexeme)) }
    {
        self.after_operand(goal, Between::Next, last)?;
        self.start_statement(mode, lexeme)
    }

    /// A lexeme behind a program.
    fn after_program(
        &mut self,
        goal: Sort,
        mode: &mut Mode,
        last: Last,
        lexeme: Lexeme,
    ) -> Result<(), LexemeFault>
        ensures { (S : List MachinePart) (p : Piece) → Stands self.old last S p
            → Agrees (Shows self.new) (leaving mode.new result) (after_program goal S p (seen lexeme)) }
    {
        match lexeme {
            Lexeme::Op(Infix::Mul) => self.star_after(mode, last),
            Lexeme::Op(Infix::Choice) => self.infix_after(goal, mode, Infix::Choice, last),
            Lexeme::Op(Infix::Greater) => self.closing(mode, Closer::Greater, last),
            Lexeme::Invariant => invariant_after(mode, last),
            Lexeme::Semi => semi_after(mode, last),
            Lexeme::CloseBox => self.closing(mode, Closer::Square, last),
            Lexeme::CloseBrace => self.closing(mode, Closer::Brace, last),
            Lexeme::Name(at, name) => self.next_after(goal, mode, last, Lexeme::Name(at, name)),
            Lexeme::Query => self.next_after(goal, mode, last, Lexeme::Query),
            Lexeme::OpenBrace(at) => self.next_after(goal, mode, last, Lexeme::OpenBrace(at)),
            _ => Err(LexemeFault::Syntax),
        }
    }

    /// A lexeme behind a term or a formula.
    #[inline(always)]
    fn after_other(
        &mut self,
        goal: Sort,
        mode: &mut Mode,
        last: Last,
        lexeme: Lexeme,
    ) -> Result<(), LexemeFault>
        ensures { (S : List MachinePart) (p : Piece) → Stands self.old last S p
            → Agrees (Shows self.new) (leaving mode.new result) (after_other goal S p (seen lexeme)) }
    {
        match lexeme {
            Lexeme::Op(operator) => self.infix_after(goal, mode, operator, last),
            Lexeme::Open => self.name_after(goal, mode, last, Lexeme::Open),
            Lexeme::RoundBars => self.name_after(goal, mode, last, Lexeme::RoundBars),
            Lexeme::RoundBar => self.name_after(goal, mode, last, Lexeme::RoundBar),
            Lexeme::OpenBrace(at) => self.name_after(goal, mode, last, Lexeme::OpenBrace(at)),
            Lexeme::Prime => self.prime_after(mode, last),
            Lexeme::Close => self.closing(mode, Closer::Round, last),
            Lexeme::CloseBrace => self.closing(mode, Closer::Brace, last),
            Lexeme::Comma => self.closing(mode, Closer::Comma, last),
            Lexeme::Semi => self.closing(mode, Closer::Semicolon, last),
            _ => Err(LexemeFault::Syntax),
        }
    }

    /// A lexeme behind what was read last.
    #[inline(always)]
    fn after(
        &mut self,
        goal: Sort,
        mode: &mut Mode,
        last: Last,
        lexeme: Lexeme,
    ) -> Result<(), LexemeFault>
        ensures { (S : List MachinePart) (p : Piece) → Stands self.old last S p
            → Agrees (Shows self.new) (leaving mode.new result) (step goal (Has S p) (seen lexeme)) }
    {
        match last {
            Last::Tree(Sort::Program, tail) => {
                self.after_program(goal, mode, Last::Tree(Sort::Program, tail), lexeme)
            }
            last => self.after_other(goal, mode, last, lexeme),
        }
    }

    /// What the next lexeme makes of the lists and of where the reader stands. After a fault nothing can be said of the lists.
    ///
    /// # Errors
    ///
    /// `Syntax` comes exactly where no text goes on with the lexeme, and `Memory` where memory ran out.
    pub fn go_on(
        &mut self,
        alloc: Global,
        goal: Sort,
        mode: &mut Mode,
        lexeme: Lexeme,
    ) -> Result<(), LexemeFault>
        ensures { (x : State) → Shows self.old mode.old x
            → Agrees (Shows self.new) (leaving mode.new result) (step goal x (seen lexeme)) }
    {
        match mem::replace(mode, Mode::Wants) {
            Mode::Wants => self.start(goal, mode, lexeme),
            Mode::Has(last) => self.after(goal, mode, last, lexeme),
            Mode::Calls { at, name } => self.call_step(goal, mode, at, name, lexeme),
            Mode::Bars(name) => {
                let taboo = lexeme.into_name()?;
                mode.set(Mode::BarsName { name, taboo });
                Ok(())
            }
            Mode::BarsName { name, taboo } => bars_name_step(alloc, mode, name, taboo, lexeme),
            Mode::Binds(quantifier) => self.bind_step(mode, quantifier, lexeme),
            Mode::Starts(name) => self.statement_step(mode, name, lexeme),
            Mode::StartsPrime(name) => self.statement_prime_step(mode, name, lexeme),
            Mode::StartsGets(name) => self.statement_gets_step(goal, mode, name, lexeme),
            Mode::StartsStar(name) => self.statement_star_step(mode, name, lexeme),
            Mode::Opens(at) => self.opens_step(mode, at, lexeme),
            Mode::OpensName { at, name } => self.opens_name_step(alloc, mode, at, name, lexeme),
            Mode::OpensPrime { at, name } => self.opens_prime_step(alloc, mode, at, name, lexeme),
            Mode::WantsItem(equations) => {
                mode.set(Mode::ItemName(equations, lexeme.into_name()?));
                Ok(())
            }
            Mode::ItemName(equations, name) => self.item_name_step(mode, equations, name, lexeme),
            Mode::ItemPrime(equations, name) => self.item_prime_step(mode, equations, name, lexeme),
            Mode::ItemBar(equations, name) => {
                let taboo = lexeme.into_name()?;
                mode.set(Mode::ItemBarName {
                    equations,
                    name,
                    taboo,
                });
                Ok(())
            }
            Mode::ItemBarName {
                equations,
                name,
                taboo,
            } => item_bar_name_step(mode, equations, name, taboo, lexeme),
            Mode::ItemEnds(equations) => self.items_step(mode, equations, lexeme),
            Mode::Invariants => self.invariants_step(mode, lexeme),
        }
    }

    /// What the next lexeme makes of the lists, and where the reader then stands.
    ///
    /// # Errors
    ///
    /// `Syntax` comes exactly where no text goes on with the lexeme, and `Memory` where memory ran out.
    pub fn step(
        &mut self,
        alloc: Global,
        goal: Sort,
        mode: Mode,
        lexeme: Lexeme,
    ) -> Result<Mode, LexemeFault>
        ensures { (x : State) → Shows self.old mode x
            → Agrees (Shows self.new) result (step goal x (seen lexeme)) }
    {
        let mut mode = mode;
        self.go_on(alloc, goal, &mut mode, lexeme)?;
        Ok(mode)
    }
}
