//! Operands and the operators between them.
ghost use Rattle.std.specs.Prelude.{◌≡◌, List, [], ◌∷◌, Some};
ghost use Rattle.dlk_grammar.specs.Phrases.{Phrase};
ghost use Rattle.dlk_reader.specs.declared.parts.Head.TheVariants as head;
ghost use Rattle.dlk_reader.specs.declared.parts.Tail.TheVariants as tail;
ghost use Rattle.dlk_reader.specs.declared.parts.Last.TheVariants as last;
ghost use Rattle.dlk_reader.specs.declared.parts.Mode.TheVariants as mode;
ghost use Rattle.dlk_reader.specs.declared.stack.Stack.{Stack as TheStack};
ghost use Rattle.dlk_machine.specs.Machine.{when, Part as MachinePart, Quantifier as MachineQuantifier, Piece, Done, Grouped, Bare, Is, Wants, Has, Binds};
ghost use Rattle.dlk_machine.specs.Machine.{fits, start_operand, after_operand, primed, name_after, prime_after, call_step, bars_name_step, bind_step};
ghost use Rattle.dlk_tree.specs.declared.op.Sort.TheVariants as sort_of;
ghost use Rattle.dlk_reader.specs.declared.code.Code.TheVariants as code;
ghost use Rattle.dlk_reader.specs.Codes.{postfix};
ghost use Rattle.dlk_reader.specs.Outcomes.{leaving};
ghost use Rattle.dlk_reader.specs.Owed.{Owes};
ghost use Rattle.dlk_reader.specs.Shows.{seen, said, shape, part_code, quantifier_of, tail_of, left_opened, IsOpen, Stands, Shows, Agrees};

use crate::code::Code;
use crate::kept::Kept;
use crate::lexeme::Lexeme;
use crate::parts::{Between, Head, Holder, Last, Modality, Mode, Part, Prefix, Quantifier, Tail};
use crate::stack::{Stack, one_more, settle, variable};
use crate::stop::LexemeFault;
use crate::tables::{level, operand_sort, result_sort};
use dlk_grammar::Infix;
use dlk_tree::{Name, Op, Sort};
use std::alloc::Global;

impl Stack {
    /// Opens a part.
    pub(crate) fn open(&mut self, mode: &mut Mode, part: Part) -> Result<(), LexemeFault>
        ensures { (S : List MachinePart) (e : MachinePart) → part ≡ shape e → IsOpen self.old S (part_code e)
            → Agrees (Shows self.new) (leaving mode.new result) (Some (Wants (e ∷ S))) }
    {
        self.parts.push(part)?;
        mode.set(Mode::Wants);
        Ok(())
    }

    /// Opens a part of a formula.
    fn open_formula(&mut self, goal: Sort, mode: &mut Mode, part: Part) -> Result<(), LexemeFault>
        ensures agrees { (S : List MachinePart) (e : MachinePart) → part ≡ shape e → IsOpen self.old S (part_code e)
            → Agrees (Shows self.new) (leaving mode.new result) (when (fits goal sort_of.Formula S) (Some (Wants (e ∷ S)))) }
        ensures owed { (S : List MachinePart) (e : MachinePart) → part ≡ shape e → IsOpen self.old S (part_code e)
            → Owes (leaving mode.new result) (when (fits goal sort_of.Formula S) (Some (Wants (e ∷ S)))) }
    {
        if !self.fits(goal, Sort::Formula) {
            return Err(LexemeFault::Syntax);
        }
        self.open(mode, part)
    }

    /// A tree of one operator.
    #[inline(always)]
    pub(crate) fn leaf(&mut self, mode: &mut Mode, op: Op, sort: Sort) -> Result<(), LexemeFault>
        ensures { (S : List MachinePart) (t : Phrase) → postfix t ≡ code.Operator op ∷ [] → IsOpen self.old S []
            → Agrees (Shows self.new) (leaving mode.new result) (Some (Has S (Is sort t Done))) }
    {
        self.out.push(Code::Operator(op))?;
        mode.set(Mode::Has(Last::Tree(sort, Tail::Done)));
        Ok(())
    }

    fn leaf_formula(&mut self, goal: Sort, mode: &mut Mode, op: Op) -> Result<(), LexemeFault>
        ensures agrees { (S : List MachinePart) (t : Phrase) → postfix t ≡ code.Operator op ∷ [] → IsOpen self.old S []
            → Agrees (Shows self.new) (leaving mode.new result) (when (fits goal sort_of.Formula S) (Some (Has S (Is sort_of.Formula t Done)))) }
        ensures owed { (S : List MachinePart) (t : Phrase) → postfix t ≡ code.Operator op ∷ [] → IsOpen self.old S []
            → Owes (leaving mode.new result) (when (fits goal sort_of.Formula S) (Some (Has S (Is sort_of.Formula t Done)))) }
    {
        if !self.fits(goal, Sort::Formula) {
            return Err(LexemeFault::Syntax);
        }
        self.leaf(mode, op, Sort::Formula)
    }

    fn quantify(
        &mut self,
        goal: Sort,
        mode: &mut Mode,
        quantifier: Quantifier,
    ) -> Result<(), LexemeFault>
        ensures agrees { (S : List MachinePart) (q : MachineQuantifier) → quantifier ≡ quantifier_of q → IsOpen self.old S []
            → Agrees (Shows self.new) (leaving mode.new result) (when (fits goal sort_of.Formula S) (Some (Binds S q))) }
        ensures owed { (S : List MachinePart) (q : MachineQuantifier) → quantifier ≡ quantifier_of q → IsOpen self.old S []
            → Owes (leaving mode.new result) (when (fits goal sort_of.Formula S) (Some (Binds S q))) }
    {
        if !self.fits(goal, Sort::Formula) {
            return Err(LexemeFault::Syntax);
        }
        mode.set(Mode::Binds(quantifier));
        Ok(())
    }

    /// A lexeme where an operand is wanted.
    #[inline(always)]
    pub(crate) fn start_operand(
        &mut self,
        goal: Sort,
        mode: &mut Mode,
        lexeme: Lexeme,
    ) -> Result<(), LexemeFault>
        ensures agrees { (S : List MachinePart) → IsOpen self.old S []
            → Agrees (Shows self.new) (leaving mode.new result) (start_operand goal S (seen lexeme)) }
        ensures owed { (S : List MachinePart) → IsOpen self.old S []
            → Owes (leaving mode.new result) (start_operand goal S (seen lexeme)) }
    {
        match lexeme {
            Lexeme::Name(at, name) => {
                mode.set(Mode::Has(Last::Name { at, name }));
                Ok(())
            }
            Lexeme::Number(halves) => self.leaf(mode, Op::Number(halves.number()), Sort::Term),
            Lexeme::Dot(number) => self.leaf(mode, Op::Dot(number), Sort::Term),
            Lexeme::Open => {
                let fits = self.fits(goal, Sort::Formula);
                self.open(mode, Part::Inside(Holder::Round(fits)))
            }
            Lexeme::Op(Infix::Sub) => self.open(mode, Part::Before(Prefix::Minus)),
            Lexeme::True => self.leaf_formula(goal, mode, Op::True),
            Lexeme::False => self.leaf_formula(goal, mode, Op::False),
            Lexeme::Blank => self.leaf_formula(goal, mode, Op::Hole),
            Lexeme::Bang => self.open_formula(goal, mode, Part::Before(Prefix::Not)),
            Lexeme::All => self.quantify(goal, mode, Quantifier::ForAll),
            Lexeme::Exist => self.quantify(goal, mode, Quantifier::ForSome),
            Lexeme::OpenBox => self.open_formula(
                goal,
                mode,
                Part::Inside(Holder::In(Modality::InBox)),
            ),
            Lexeme::Op(Infix::Less) => {
                self.open_formula(goal, mode, Part::Inside(Holder::In(Modality::InDia)))
            }
            _ => Err(LexemeFault::Syntax),
        }
    }

    /// An operator behind its left operand, which is whole.
    #[inline(always)]
    pub(crate) fn left(
        &mut self,
        goal: Sort,
        between: Between,
        last: Last,
    ) -> Result<(), LexemeFault>
        ensures { (S : List MachinePart) (p : Piece) → Stands self.old last S p
            → Agrees (λ _ T. IsOpen self.new T []) result (left_opened goal (said between) S p) }
    {
        settle(&mut self.out, last, operand_sort(between))?;
        if !self.fits(goal, result_sort(between)) {
            return Err(LexemeFault::Syntax);
        }
        Ok(self.parts.push(Part::Left(between))?)
    }

    /// An operator after an operand.
    #[inline(always)]
    pub(crate) fn after_operand(
        &mut self,
        goal: Sort,
        between: Between,
        last: Last,
    ) -> Result<(), LexemeFault>
        ensures { (S : List MachinePart) (p : Piece) → Stands self.old last S p
            → Agrees (λ _ T. IsOpen self.new T []) result (after_operand goal (said between) S p) }
    {
        let last = self.reduce(level(between), last)?;
        self.left(goal, between, last)
    }

    /// A name before a bracket.
    pub(crate) fn name_after(
        &mut self,
        goal: Sort,
        mode: &mut Mode,
        last: Last,
        lexeme: Lexeme,
    ) -> Result<(), LexemeFault>
        ensures agrees { (S : List MachinePart) (p : Piece) → Stands self.old last S p
            → Agrees (Shows self.new) (leaving mode.new result) (name_after goal S (seen lexeme) (tail_of p)) }
        ensures owed { (S : List MachinePart) (p : Piece) → Stands self.old last S p
            → Owes (leaving mode.new result) (name_after goal S (seen lexeme) (tail_of p)) }
    {
        match last {
            Last::Name { at, name } => self.name_step(goal, mode, at, name, lexeme),
            Last::Tree(_, _) => Err(LexemeFault::Syntax),
            Last::Symbol { .. } => Err(LexemeFault::Syntax),
        }
    }

    fn name_step(
        &mut self,
        goal: Sort,
        mode: &mut Mode,
        at: usize,
        name: Name,
        lexeme: Lexeme,
    ) -> Result<(), LexemeFault>
        ensures agrees { (S : List MachinePart) → IsOpen self.old S []
            → Agrees (Shows self.new) (leaving mode.new result) (name_after goal S (seen lexeme) (Bare at name)) }
        ensures owed { (S : List MachinePart) → IsOpen self.old S []
            → Owes (leaving mode.new result) (name_after goal S (seen lexeme) (Bare at name)) }
    {
        match lexeme {
            Lexeme::Open => {
                mode.set(Mode::Calls { at, name });
                Ok(())
            }
            Lexeme::RoundBars => {
                mode.set(any(*self.out.allocator(), name, None)?);
                Ok(())
            }
            Lexeme::RoundBar => {
                mode.set(Mode::Bars(name));
                Ok(())
            }
            Lexeme::OpenBrace(_) => self.open_formula(
                goal,
                mode,
                Part::Inside(Holder::InContext(name)),
            ),
            _ => Err(LexemeFault::Syntax),
        }
    }

    /// A prime behind a name or a bracket.
    pub(crate) fn prime_after(&mut self, mode: &mut Mode, last: Last) -> Result<(), LexemeFault>
        ensures agrees { (S : List MachinePart) (p : Piece) → Stands self.old last S p
            → Agrees (Shows self.new) (leaving mode.new result) (prime_after S p (tail_of p)) }
        ensures owed { (S : List MachinePart) (p : Piece) → Stands self.old last S p
            → Owes (leaving mode.new result) (prime_after S p (tail_of p)) }
    {
        match last {
            Last::Name { at: _, name } => {
                self.out.push(variable(name, true))?;
                mode.set(Mode::Has(Last::Tree(Sort::Term, Tail::Done)));
                Ok(())
            }
            Last::Tree(sort, Tail::Grouped) => self.prime(mode, sort),
            Last::Symbol {
                head,
                primes,
                tail: Tail::Grouped,
            } => {
                let primes = one_more(primes)?;
                mode.set(Mode::Has(Last::Symbol {
                    head,
                    primes,
                    tail: Tail::Done,
                }));
                Ok(())
            }
            Last::Tree(_, _) => Err(LexemeFault::Syntax),
            Last::Symbol { .. } => Err(LexemeFault::Syntax),
        }
    }

    /// A prime behind a tree in brackets. No program stands in them.
    fn prime(&mut self, mode: &mut Mode, sort: Sort) -> Result<(), LexemeFault>
        ensures { (S : List MachinePart) (t : Phrase) → IsOpen self.old S (postfix t)
            → Agrees (Shows self.new) (leaving mode.new result) (Some (Has S (primed (Is sort t Grouped)))) }
    {
        match sort {
            Sort::Term => {
                self.out.push(Code::Operator(Op::Diff))?;
                mode.set(Mode::Has(Last::Tree(Sort::Term, Tail::Done)));
            }
            Sort::Formula => {
                self.out.push(Code::Operator(Op::DiffF))?;
                mode.set(Mode::Has(Last::Tree(Sort::Formula, Tail::Done)));
            }
            Sort::Program => mode.set(Mode::Has(Last::Tree(Sort::Program, Tail::Grouped))),
        }
        Ok(())
    }

    /// A lexeme behind a name and `(`.
    pub(crate) fn call_step(
        &mut self,
        goal: Sort,
        mode: &mut Mode,
        at: usize,
        name: Name,
        lexeme: Lexeme,
    ) -> Result<(), LexemeFault>
        ensures { (S : List MachinePart) → IsOpen self.old S []
            → Agrees (Shows self.new) (leaving mode.new result) (call_step goal S at name (seen lexeme)) }
    {
        if let Lexeme::Close = lexeme {
            let head = Kept::new(*self.out.allocator(), Head::Call { at, name, count: 0 })?;
            mode.set(Mode::Has(Last::Symbol {
                head,
                primes: 0,
                tail: Tail::Done,
            }));
            return Ok(());
        }
        self.parts
            .push(Part::Inside(Holder::Args { at, name, count: 0 }))?;
        self.start_operand(goal, mode, lexeme)
    }

    /// A lexeme behind a quantifier.
    pub(crate) fn bind_step(
        &mut self,
        mode: &mut Mode,
        quantifier: Quantifier,
        lexeme: Lexeme,
    ) -> Result<(), LexemeFault>
        ensures agrees { (S : List MachinePart) (q : MachineQuantifier) → quantifier ≡ quantifier_of q → IsOpen self.old S []
            → Agrees (Shows self.new) (leaving mode.new result) (bind_step S q (seen lexeme)) }
        ensures owed { (S : List MachinePart) (q : MachineQuantifier) → quantifier ≡ quantifier_of q → IsOpen self.old S []
            → Owes (leaving mode.new result) (bind_step S q (seen lexeme)) }
    {
        let name = lexeme.into_name()?;
        self.open(mode, Part::Before(Prefix::Bound(quantifier, name)))
    }
}

/// A unit symbol was read.
fn any(alloc: Global, name: Name, taboo: Option<Name>) -> Result<Mode, LexemeFault>
    ensures { Agrees (λ m n. m ≡ n) result (Some (mode.Has (last.Symbol (head.Any name taboo) 0 tail.Done))) }
{
    Ok(Mode::Has(Last::Symbol {
        head: Kept::new(alloc, Head::Any { name, taboo })?,
        primes: 0,
        tail: Tail::Done,
    }))
}

/// A lexeme behind a name, `(|` and a name.
pub(crate) fn bars_name_step(
    alloc: Global,
    mode: &mut Mode,
    name: Name,
    taboo: Name,
    lexeme: Lexeme,
) -> Result<(), LexemeFault>
    ensures agrees { (k : TheStack) (S : List MachinePart) → IsOpen k S []
        → Agrees (Shows k) (leaving mode.new result) (bars_name_step S name taboo (seen lexeme)) }
    ensures owed { (k : TheStack) (S : List MachinePart) → IsOpen k S []
        → Owes (leaving mode.new result) (bars_name_step S name taboo (seen lexeme)) }
{
    match lexeme {
        Lexeme::BarRound => {
            mode.set(any(alloc, name, Some(taboo))?);
            Ok(())
        }
        _ => Err(LexemeFault::Syntax),
    }
}
