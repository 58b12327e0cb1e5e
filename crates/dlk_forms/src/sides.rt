//! The reader of a sequent: formulas on both sides of `==>`.
ghost use Rattle.std.specs.Prelude.{◌≡◌, Some, Err, false};
ghost use Rattle.dlk_grammar.specs.Phrases.{Phrase, Phrases, snoc};
ghost use Rattle.dlk_grammar.specs.declared.token.Dots.TheVariants.{Refused};
ghost use Rattle.dlk_grammar.specs.Readings.{permits};
ghost use Rattle.dlk_machine.specs.Machine.{State, when};
ghost use Rattle.dlk_machine.specs.Sequents.{Side, LeftSide, SequentState, Fresh, Reading, sequent_step, sequent_ended, turn, inner};
ghost use Rattle.dlk_grammar.specs.Lexemes.{Comma as CommaLexeme, Turnstile};
ghost use Rattle.dlk_reader.specs.declared.stop.LexemeFault.TheVariants.{Syntax};
ghost use Rattle.dlk_reader.specs.Outcomes.{leaving};
ghost use Rattle.dlk_reader.specs.Owed.{Owes};
ghost use Rattle.dlk_reader.specs.Shows.{IsWhole, seen, Agrees};
ghost use Rattle.dlk_forms.specs.Readers.{ShowsBetween, ShowsReading, ShowsSidesAt, ShowsSides, SidesComes, KeepsSide, IsCodeOf, finished, both_of};

use crate::dots::permits;
use dlk_grammar::Dots;
use dlk_reader::{Code, Comma, Lexeme, LexemeFault, LexemeReader, Mode, Stack, one_more};
use dlk_tree::Sort;
use std::alloc::Global;

/// What is read of a sequent.
#[derive(Drop)]
pub(crate) struct SidesSoFar {
    pub(crate) stack: Stack,
    /// The operators of the formulas that are whole, in order.
    pub(crate) done: Vec<Code>,
    /// The number of formulas of the left side, where the right one is read.
    pub(crate) left: Option<usize>,
    /// The number of whole formulas of the side that is read.
    pub(crate) number: usize,
}

/// The operators of the formulas of both sides in order, each behind its operands, and how many formulas the left side has.
#[derive(Drop)]
pub struct SidesCode {
    /// How many formulas the left side has.
    pub left: usize,
    /// The operators.
    pub code: Vec<Code>,
}

/// A reader of a sequent, in which dots are refused. There is no mode where nothing of a side was read.
#[derive(Drop)]
pub(crate) struct SidesReader {
    pub(crate) sides: SidesSoFar,
    pub(crate) mode: Option<Mode>,
}

impl SidesSoFar {
    /// A lexeme of the formula that is read.
    fn step_inner(
        &mut self,
        alloc: Global,
        mode: Mode,
        lexeme: Lexeme,
    ) -> Result<Option<Mode>, LexemeFault>
        ensures { (w : Side) (l : Phrases) (x : State) → ShowsReading self.old mode w l x
            → Agrees (ShowsSidesAt self.new) result (inner w l x (seen lexeme)) }
    {
        Ok(Some(self.stack.step(alloc, Sort::Formula, mode, lexeme)?))
    }

    /// The formula on the stack is whole.
    fn keep(&mut self) -> Result<(), LexemeFault>
        ensures { (w : Side) (l : Phrases) (t : Phrase) → KeepsSide self.old w l → IsWhole self.old.stack t
            → Agrees (λ _ m. ShowsBetween self.new w m) result (Some (snoc l t)) }
    {
        self.number = one_more(self.number)?;
        self.done.append(&mut self.stack.out)?;
        Ok(())
    }

    /// The formula that is read ends.
    fn finish(&mut self, mode: Mode) -> Result<(), LexemeFault>
        ensures { (w : Side) (l : Phrases) (x : State) → ShowsReading self.old mode w l x
            → Agrees (λ _ m. ShowsBetween self.new w m) result (finished l x) }
    {
        self.stack.end(Sort::Formula, mode)?;
        self.keep()
    }

    /// A comma behind a formula that is whole, or in one that is not.
    fn step_comma(&mut self, alloc: Global, mode: Mode) -> Result<Option<Mode>, LexemeFault>
        ensures { (w : Side) (l : Phrases) (x : State) → ShowsReading self.old mode w l x
            → Agrees (ShowsSidesAt self.new) result (sequent_step (Reading w l x) CommaLexeme) }
    {
        match self.stack.at_comma(alloc, Sort::Formula, mode)? {
            Comma::GoesOn(mode) => Ok(Some(mode)),
            Comma::Ends(last) => {
                self.stack.settle_whole(Sort::Formula, last)?;
                self.keep()?;
                Ok(Some(Mode::Wants))
            }
        }
    }

    /// The left side ends.
    fn turn(&mut self) -> Result<Option<Mode>, LexemeFault>
        ensures agrees { (w : Side) (l : Phrases) → ShowsBetween self.old w l
            → Agrees (ShowsSidesAt self.new) result (turn w l) }
        ensures owed { (w : Side) (l : Phrases) → ShowsBetween self.old w l → Owes result (turn w l) }
    {
        if self.left.is_some() {
            return Err(LexemeFault::Syntax);
        }
        self.left = Some(self.number);
        self.number = 0;
        Ok(None)
    }

    /// What `==>` makes of what was read.
    fn step_turnstile(&mut self, mode: Option<Mode>) -> Result<Option<Mode>, LexemeFault>
        ensures { (x : SequentState) → ShowsSidesAt self.old mode x
            → Agrees (ShowsSidesAt self.new) result (sequent_step x Turnstile) }
    {
        let Some(mode) = mode else {
            return self.turn();
        };
        self.finish(mode)?;
        self.turn()
    }

    /// What a lexeme makes of what was read.
    fn step(
        &mut self,
        alloc: Global,
        mode: Option<Mode>,
        lexeme: Lexeme,
    ) -> Result<Option<Mode>, LexemeFault>
        ensures { (x : SequentState) → ShowsSidesAt self.old mode x
            → Agrees (ShowsSidesAt self.new) result (sequent_step x (seen lexeme)) }
    {
        if let Lexeme::Turnstile = lexeme {
            return self.step_turnstile(mode);
        }
        let Some(mode) = mode else {
            return self.step_inner(alloc, Mode::Wants, lexeme);
        };
        if let Lexeme::Comma = lexeme {
            return self.step_comma(alloc, mode);
        }
        self.step_inner(alloc, mode, lexeme)
    }

    /// Both sides, where nothing is read of a next formula.
    fn both(self) -> Result<SidesCode, LexemeFault>
        ensures agrees { (w : Side) (l : Phrases) → ShowsBetween self w l
            → Agrees IsCodeOf result (both_of w l) }
        ensures owed { (w : Side) (l : Phrases) → ShowsBetween self w l → Owes result (both_of w l) }
    {
        match self.left {
            Some(left) => Ok(SidesCode {
                left,
                code: self.done,
            }),
            None => Err(LexemeFault::Syntax),
        }
    }

    /// The end of a sequent.
    fn end(self, mode: Option<Mode>) -> Result<SidesCode, LexemeFault>
        ensures { (x : SequentState) → ShowsSidesAt self mode x
            → Agrees IsCodeOf result (sequent_ended x) }
    {
        let Some(mode) = mode else {
            return self.both();
        };
        let mut reader = self;
        reader.finish(mode)?;
        reader.both()
    }
}

impl SidesReader {
    /// A reader where a sequent begins.
    pub(crate) fn new(alloc: Global) -> SidesReader
        ensures { ShowsSides result (Fresh LeftSide) }
    {
        let sides = SidesSoFar {
            stack: Stack::new(alloc),
            done: Vec::new(alloc),
            left: None,
            number: 0,
        };
        SidesReader { sides, mode: None }
    }

    /// Goes on by one more lexeme.
    fn go_on(&mut self, alloc: Global, lexeme: Lexeme) -> Result<(), LexemeFault>
        ensures agrees { (x : SequentState) → ShowsSides self.old x
            → Agrees ShowsSides (leaving self.new result) (when (permits Refused (seen lexeme)) (sequent_step x (seen lexeme))) }
        ensures owed { permits Refused (seen lexeme) ≡ false → result ≡ Err Syntax }
    {
        if !permits(Dots::Refused, &lexeme) {
            return Err(LexemeFault::Syntax);
        }
        let mode = self.mode.take();
        self.mode = self.sides.step(alloc, mode, lexeme)?;
        Ok(())
    }
}

impl LexemeReader for SidesReader {
    type Output = SidesCode;

    ghost comes = { SidesComes };

    fn step(&mut self, alloc: Global, lexeme: Lexeme) -> Result<(), LexemeFault> {
        self.go_on(alloc, lexeme)
    }

    fn end(self) -> Result<SidesCode, LexemeFault> {
        self.sides.end(self.mode)
    }
}
