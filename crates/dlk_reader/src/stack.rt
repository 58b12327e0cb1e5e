//! What is open, and the operators of what was read.
ghost use Rattle.std.specs.Prelude.{◌≡◌, ◌+◌, ◌<◌, [], ◌∷◌, ◌++◌, List, Some, OnSome, vec_len};
ghost use Rattle.dlk_grammar.specs.Phrases.{Variable, Head as MachineHead};
ghost use Rattle.dlk_machine.specs.Machine.{Part as MachinePart, Tail as MachineTail, Piece, Symbol, as_sort, join, reduce, fits, place};
ghost use Rattle.dlk_reader.specs.declared.code.Code.{Code as TheCode};
ghost use Rattle.dlk_reader.specs.Codes.{postfix};
ghost use Rattle.dlk_reader.specs.Shows.{shape, shapes, part_code, piece_code, head_of, head_code, primes_code, symbol_of, unit_code, IsLast, IsOpen, Stands};
ghost use Rattle.dlk_reader.specs.Shows.{Agrees, Reduces, Pops, TakesAbove, Writes, Joins};

use crate::code::Code;
use crate::parts::{Head, Last, Part, Tail};
use crate::stop::LexemeFault;
use crate::tables::{
    allows, operand_sort, operator, prefix_operator, prefix_sort, result_sort, sort_in, wanted,
};
use dlk_tree::{Kind, Name, Op, Sort, Sym, Var};
use std::alloc::Global;

/// What is open, innermost last, and the operators of what was read, each behind its operands.
#[derive(Drop)]
pub struct Stack {
    /// What is open.
    pub parts: Vec<Part>,
    /// The operators.
    pub out: Vec<Code>,
}

/// One more than a number of things in memory.
///
/// # Errors
///
/// `Memory` comes where no more fit into memory.
pub fn one_more(count: usize) -> Result<usize, LexemeFault>
    ensures { Agrees (λ m n. m ≡ n) result (Some (count + 1)) }
{
    match count.checked_add(1) {
        Some(more) => Ok(more),
        None => Err(LexemeFault::Memory),
    }
}

/// Takes the last open part.
pub(crate) fn pop(parts: &mut Vec<Part>) -> Option<Part>
    ensures popped { (S : List MachinePart) → parts.old.items ≡ shapes S → Pops S result parts.new.items }
    ensures shorter { OnSome result (vec_len parts.new < vec_len parts.old) }
{
    parts.pop()
}

/// Takes the last open part, where it wants more than a level.
#[inline(always)]
fn take_above(parts: &mut Vec<Part>, level: u8) -> Option<Part>
    ensures taken { (S : List MachinePart) → parts.old.items ≡ shapes S → TakesAbove level S result parts.new.items }
    ensures shorter { OnSome result (vec_len parts.new < vec_len parts.old) }
{
    let Some(top) = parts.last() else {
        return None;
    };
    if wanted(top) <= level {
        return None;
    }
    pop(parts)
}

/// What is to stand under these open parts.
pub(crate) fn place(goal: Sort, parts: &[Part]) -> Sort
    ensures { (S : List MachinePart) → parts.now ≡ shapes S → result ≡ place goal S }
{
    match parts.last() {
        Some(part) => sort_in(part),
        None => goal,
    }
}

/// Writes the operator of a symbol, as a predicate's where it holds.
fn write_symbol(out: &mut Vec<Code>, head: Head, holds: bool) -> Result<(), LexemeFault>
    ensures { (h : MachineHead) (before : List TheCode) → head ≡ head_of h → out.old.items ≡ before ++ head_code h
        → Agrees (λ _ t. Writes out.new.items before t) result (Some (symbol_of holds h)) }
{
    match head {
        Head::Call { at, name, count } => Ok(out.push(Code::Call {
            holds,
            at,
            name,
            count,
        })?),
        Head::Any { name, taboo } => Ok(out.push(unit_symbol(name, taboo, holds))?),
    }
}

/// The operator of a unit symbol, as a predicate's where it holds.
fn unit_symbol(name: Name, taboo: Option<Name>, holds: bool) -> Code
    ensures { result ≡ unit_code holds name taboo }
{
    let kind = if holds {
        Kind::UnitPred
    } else {
        Kind::UnitFunc
    };
    let symbol = Sym {
        kind,
        name,
        arity: 0,
        taboo,
    };
    Code::Operator(if holds {
        Op::UnitPred(symbol)
    } else {
        Op::UnitFun(symbol)
    })
}

/// Writes the operators of so many primes.
fn write_primes(out: &mut Vec<Code>, holds: bool, primes: usize) -> Result<(), LexemeFault>
    ensures { Agrees (λ _ c. out.new.items ≡ out.old.items ++ c) result (Some (primes_code holds primes)) }
{
    for _ in 0..primes {
        let op = if holds { Op::DiffF } else { Op::Diff };
        out.push(Code::Operator(op))?;
    }
    Ok(())
}

/// Writes the operators of a symbol, once its sort is known.
fn settle_symbol(
    out: &mut Vec<Code>,
    head: Head,
    primes: usize,
    sort: Sort,
) -> Result<(), LexemeFault>
    ensures { (h : MachineHead) (k : MachineTail) (before : List TheCode) → head ≡ head_of h → out.old.items ≡ before ++ head_code h
        → Agrees (λ _ t. Writes out.new.items before t) result (as_sort sort (Symbol h primes k)) }
{
    match sort {
        Sort::Term => {
            write_symbol(out, head, false)?;
            write_primes(out, false, primes)
        }
        Sort::Formula => {
            write_symbol(out, head, true)?;
            write_primes(out, true, primes)
        }
        Sort::Program => Err(LexemeFault::Syntax),
    }
}

/// Writes the operators of what was read last, once its sort is known.
#[inline(always)]
pub(crate) fn settle(out: &mut Vec<Code>, last: Last, sort: Sort) -> Result<(), LexemeFault>
    ensures { (p : Piece) (before : List TheCode) → IsLast last p → out.old.items ≡ before ++ piece_code p
        → Agrees (λ _ t. Writes out.new.items before t) result (as_sort sort p) }
{
    match (last, sort) {
        (Last::Tree(Sort::Term, _), Sort::Term) => Ok(()),
        (Last::Tree(Sort::Formula, _), Sort::Formula) => Ok(()),
        (Last::Tree(Sort::Program, _), Sort::Program) => Ok(()),
        (Last::Tree(_, _), _) => Err(LexemeFault::Syntax),
        (Last::Name { at: _, name }, Sort::Term) => Ok(out.push(variable(name, false))?),
        (Last::Name { .. }, Sort::Formula) => Err(LexemeFault::Syntax),
        (Last::Name { .. }, Sort::Program) => Err(LexemeFault::Syntax),
        (Last::Symbol { head, primes, .. }, sort) => {
            settle_symbol(out, head.into_inner(), primes, sort)
        }
    }
}

/// The operator of a variable.
pub fn variable(name: Name, primed: bool) -> Code
    ensures { postfix (Variable name primed) ≡ result ∷ [] }
{
    Code::Operator(Op::Variable(Var { name, primed }))
}

/// Closes an open part with its operand.
#[inline(always)]
fn join(out: &mut Vec<Code>, part: Part, last: Last) -> Result<Last, LexemeFault>
    ensures { (e : MachinePart) (p : Piece) (before : List TheCode) → part ≡ shape e → IsLast last p → out.old.items ≡ before ++ (part_code e ++ piece_code p)
        → Agrees (Joins out.new.items before) result (join e p) }
{
    match part {
        Part::Left(between) => {
            settle(out, last, operand_sort(between))?;
            out.push(Code::Operator(operator(between)))?;
            Ok(Last::Tree(result_sort(between), Tail::Done))
        }
        Part::Before(prefix) => {
            let sort = prefix_sort(&prefix);
            settle(out, last, sort)?;
            out.push(Code::Operator(prefix_operator(prefix)))?;
            Ok(Last::Tree(sort, Tail::Done))
        }
        Part::Inside(_) => Err(LexemeFault::Syntax),
    }
}

impl Stack {
    /// Nothing is open, and nothing was read.
    pub fn new(alloc: Global) -> Stack
        ensures { IsOpen result [] [] }
    {
        Stack {
            parts: Vec::new(alloc),
            out: Vec::new(alloc),
        }
    }

    /// Closes the open parts that want more than a level.
    ///
    /// # Errors
    ///
    /// `Syntax` comes exactly where an operand is of another sort, and `Memory` where memory ran out.
    #[inline(always)]
    pub fn reduce(&mut self, level: u8, last: Last) -> Result<Last, LexemeFault>
        ensures { (S : List MachinePart) (p : Piece) → Stands self.old last S p
            → Agrees (Reduces self.new) result (reduce level S p) }
    {
        let mut last = last;
        while let Some(part) = take_above(&mut self.parts, level) {
            last = join(&mut self.out, part, last)?;
        }
        Ok(last)
    }

    /// Whether what is of a sort may stand under the open parts.
    pub(crate) fn fits(&self, goal: Sort, sort: Sort) -> bool
        ensures { (S : List MachinePart) → self.now.parts.items ≡ shapes S → result ≡ fits goal sort S }
    {
        allows(place(goal, self.parts.as_slice()), sort)
    }
}
