//! The reader of one tree.
ghost use Rattle.std.specs.Prelude.{[]};
ghost use Rattle.dlk_grammar.specs.declared.token.Dots.{Dots as TheDots};
ghost use Rattle.dlk_grammar.specs.declared.token.Form.{Form as TheForm};
ghost use Rattle.dlk_grammar.specs.Readings.{permits};
ghost use Rattle.dlk_machine.specs.Machine.{when};
ghost use Rattle.dlk_machine.specs.Forms.{FormState};
ghost use Rattle.dlk_reader.specs.declared.stack.Stack.{Stack as TheStack};
ghost use Rattle.dlk_reader.specs.Outcomes.{leaving};
ghost use Rattle.dlk_reader.specs.Shows.{seen, Agrees, IsOpen};
ghost use Rattle.dlk_forms.specs.Readers.{ShowsPlace, ShowsTree, IsTreeCode, TreeComes, tree_start, tree_step, tree_ended};

use crate::dots::permits;
use crate::expressions::{Place, end_tree, step_tree};
use dlk_grammar::{Dots, Form};
use dlk_reader::{Code, Lexeme, LexemeFault, LexemeReader, Mode, Stack};
use dlk_tree::Sort;
use std::alloc::Global;
use std::mem;

/// A reader of a term, a formula, a program or an expression, in which dots are allowed or refused.
#[derive(Drop)]
pub(crate) struct TreeReader {
    pub(crate) dots: Dots,
    pub(crate) stack: Stack,
    pub(crate) place: Place,
}

/// Where the reader of a form starts.
fn start(form: Form) -> Place
    ensures { (k : TheStack) → IsOpen k [] [] → ShowsPlace form k result (tree_start form) }
{
    match form {
        Form::Formula => Place::Of(Sort::Formula, Mode::Wants),
        Form::Term => Place::Of(Sort::Term, Mode::Wants),
        Form::Program => Place::Of(Sort::Program, Mode::Wants),
        Form::Expression => Place::Unread,
    }
}

impl TreeReader {
    /// A reader of a form, where it starts.
    pub(crate) fn new(alloc: Global, form: Form, dots: Dots) -> TreeReader
        ensures { ShowsTree dots form result (tree_start form) }
    {
        TreeReader {
            dots,
            stack: Stack::new(alloc),
            place: start(form),
        }
    }

    /// Goes on by one more lexeme. In a tree of a known sort only where it is read changes.
    fn go_on(&mut self, alloc: Global, lexeme: Lexeme) -> Result<(), LexemeFault>
        ensures { (d : TheDots) (form : TheForm) (x : FormState form) → ShowsTree d form self.old x
            → Agrees (ShowsTree d form) (leaving self.new result) (when (permits d (seen lexeme)) (tree_step form x (seen lexeme))) }
    {
        if !permits(self.dots, &lexeme) {
            return Err(LexemeFault::Syntax);
        }
        if let Place::Of(sort, mode) = &mut self.place {
            return self.stack.go_on(alloc, *sort, mode, lexeme);
        }
        let place = mem::replace(&mut self.place, Place::Unread);
        self.place = step_tree(&mut self.stack, alloc, place, lexeme)?;
        Ok(())
    }

    /// The operators of the tree, at the end of its lexemes.
    fn whole(self) -> Result<Vec<Code>, LexemeFault>
        ensures { (d : TheDots) (form : TheForm) (x : FormState form) → ShowsTree d form self x
            → Agrees IsTreeCode result (tree_ended form x) }
    {
        let TreeReader {
            dots: _,
            mut stack,
            place,
        } = self;
        end_tree(&mut stack, place)?;
        Ok(stack.out)
    }
}

impl LexemeReader for TreeReader {
    type Output = Vec<Code>;

    ghost comes = { TreeComes };

    fn step(&mut self, alloc: Global, lexeme: Lexeme) -> Result<(), LexemeFault> {
        self.go_on(alloc, lexeme)
    }

    fn end(self) -> Result<Vec<Code>, LexemeFault> {
        self.whole()
    }
}
