//! A term, a formula, a program or an expression on the reader's stack.
ghost use Rattle.std.specs.Prelude.{true, [], Some};
ghost use Rattle.dlk_grammar.specs.Phrases.{Variable};
ghost use Rattle.dlk_tree.specs.declared.op.Sort.{Sort as TheSort};
ghost use Rattle.dlk_tree.specs.declared.op.Sort.TheVariants as sort_of;
ghost use Rattle.dlk_machine.specs.Machine.{State, Done, Is, Has, step, ended};
ghost use Rattle.dlk_machine.specs.Expressions.{ExpressionState, Unread, FirstName, FirstPrime, as_formula, as_program, expression_step, expression_ended};
ghost use Rattle.dlk_reader.specs.Shows.{IsWhole, seen, Shows, Agrees, IsOpen};
ghost use Rattle.dlk_forms.specs.Readers.{ShowsOf, ShowsExpression};

use dlk_reader::{Last, Lexeme, LexemeFault, Mode, Stack, Tail, variable};
use dlk_tree::{Name, Sort};
use std::alloc::Global;

/// Where the reader of one tree stands.
#[derive(Drop)]
pub(crate) enum Place {
    /// Where an expression begins; after `x` and after `x '`, which leave open what is read.
    Unread,
    FirstName { at: usize, name: Name },
    FirstPrime(Name),
    /// An expression that is a formula or a term.
    Either(Mode),
    /// A tree of a sort.
    Of(Sort, Mode),
}

/// A lexeme of a tree of a sort.
fn step_of(
    stack: &mut Stack,
    alloc: Global,
    sort: Sort,
    mode: Mode,
    lexeme: Lexeme,
) -> Result<Place, LexemeFault>
    ensures { (x : State) → Shows stack.old mode x → Agrees (ShowsOf sort stack.new) result (step sort x (seen lexeme)) }
{
    Ok(Place::Of(sort, stack.step(alloc, sort, mode, lexeme)?))
}

/// A lexeme of an expression that is a program.
fn step_program(
    stack: &mut Stack,
    alloc: Global,
    mode: Mode,
    lexeme: Lexeme,
) -> Result<Place, LexemeFault>
    ensures { (x : State) → Shows stack.old mode x → Agrees (ShowsExpression stack.new) result (as_program x (seen lexeme)) }
{
    step_of(stack, alloc, Sort::Program, mode, lexeme)
}

/// A lexeme of an expression that is a formula or a term.
fn step_either(
    stack: &mut Stack,
    alloc: Global,
    mode: Mode,
    lexeme: Lexeme,
) -> Result<Place, LexemeFault>
    ensures { (x : State) → Shows stack.old mode x → Agrees (ShowsExpression stack.new) result (as_formula x (seen lexeme)) }
{
    Ok(Place::Either(stack.step(alloc, Sort::Formula, mode, lexeme)?))
}

/// The first lexeme of an expression.
fn step_unread(stack: &mut Stack, alloc: Global, lexeme: Lexeme) -> Result<Place, LexemeFault>
    ensures { IsOpen stack.old [] [] → Agrees (ShowsExpression stack.new) result (expression_step Unread (seen lexeme)) }
{
    match lexeme {
        Lexeme::Name(at, name) => Ok(Place::FirstName { at, name }),
        Lexeme::Query => step_program(stack, alloc, Mode::Wants, lexeme),
        Lexeme::OpenBrace(_) => step_program(stack, alloc, Mode::Wants, lexeme),
        _ => step_either(stack, alloc, Mode::Wants, lexeme),
    }
}

/// A lexeme behind the name with which an expression begins.
fn step_first_name(
    stack: &mut Stack,
    alloc: Global,
    at: usize,
    name: Name,
    lexeme: Lexeme,
) -> Result<Place, LexemeFault>
    ensures { IsOpen stack.old [] [] → Agrees (ShowsExpression stack.new) result (expression_step (FirstName at name) (seen lexeme)) }
{
    match lexeme {
        Lexeme::Prime => Ok(Place::FirstPrime(name)),
        Lexeme::Semi => step_program(stack, alloc, Mode::Starts(name), lexeme),
        Lexeme::Gets => step_program(stack, alloc, Mode::Starts(name), lexeme),
        _ => step_either(stack, alloc, Mode::Has(Last::Name { at, name }), lexeme),
    }
}

/// Reads the name and the prime with which an expression begins as a term.
fn differential(stack: &mut Stack, name: Name) -> Result<Mode, LexemeFault>
    ensures { IsOpen stack.old [] [] → Agrees (Shows stack.new) result (Some (Has [] (Is sort_of.Term (Variable name true) Done))) }
{
    stack.out.push(variable(name, true))?;
    Ok(Mode::Has(Last::Tree(Sort::Term, Tail::Done)))
}

/// A lexeme behind them.
fn step_first_prime(
    stack: &mut Stack,
    alloc: Global,
    name: Name,
    lexeme: Lexeme,
) -> Result<Place, LexemeFault>
    ensures { IsOpen stack.old [] [] → Agrees (ShowsExpression stack.new) result (expression_step (FirstPrime name) (seen lexeme)) }
{
    if let Lexeme::Gets = lexeme {
        return step_program(stack, alloc, Mode::StartsPrime(name), lexeme);
    }
    let mode = differential(stack, name)?;
    step_either(stack, alloc, mode, lexeme)
}

/// What a lexeme makes of what was read of one tree.
pub(crate) fn step_tree(
    stack: &mut Stack,
    alloc: Global,
    place: Place,
    lexeme: Lexeme,
) -> Result<Place, LexemeFault>
    ensures expression { (x : ExpressionState) → ShowsExpression stack.old place x
        → Agrees (ShowsExpression stack.new) result (expression_step x (seen lexeme)) }
    ensures of { (sort : TheSort) (x : State) → ShowsOf sort stack.old place x
        → Agrees (ShowsOf sort stack.new) result (step sort x (seen lexeme)) }
{
    match place {
        Place::Unread => step_unread(stack, alloc, lexeme),
        Place::FirstName { at, name } => step_first_name(stack, alloc, at, name, lexeme),
        Place::FirstPrime(name) => step_first_prime(stack, alloc, name, lexeme),
        Place::Either(mode) => step_either(stack, alloc, mode, lexeme),
        Place::Of(sort, mode) => step_of(stack, alloc, sort, mode, lexeme),
    }
}

/// The end of one tree.
pub(crate) fn end_tree(stack: &mut Stack, place: Place) -> Result<(), LexemeFault>
    ensures expression { (x : ExpressionState) → ShowsExpression stack.old place x
        → Agrees (λ _ t. IsWhole stack.new t) result (expression_ended x) }
    ensures of { (sort : TheSort) (x : State) → ShowsOf sort stack.old place x
        → Agrees (λ _ t. IsWhole stack.new t) result (ended sort x) }
{
    match place {
        Place::Unread => Err(LexemeFault::Syntax),
        Place::FirstName { at, name } => stack.end_either(Mode::Has(Last::Name { at, name })),
        Place::FirstPrime(name) => {
            let mode = differential(stack, name)?;
            stack.end_either(mode)
        }
        Place::Either(mode) => stack.end_either(mode),
        Place::Of(sort, mode) => stack.end(sort, mode),
    }
}
