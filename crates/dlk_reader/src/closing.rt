//! Lexemes that close what they stand in.
ghost use Rattle.std.specs.Prelude.{◌≡◌, ℕ, Bool, List, [], ◌∷◌, ◌++◌, Some};
ghost use Rattle.dlk_grammar.specs.Phrases.{Phrase, Context, Items as MachineItems};
ghost use Rattle.dlk_grammar.specs.Lexemes.{Op as Operator};
ghost use Rattle.dlk_grammar.specs.declared.token.Infix.TheVariants.{And};
ghost use Rattle.dlk_machine.specs.Machine.{Part as MachinePart, Holder as MachineHolder, Tail as MachineTail, Piece, Is, Has, Round, Evolves, Grouped};
ghost use Rattle.dlk_machine.specs.Machine.{with_tail, as_sort, held_sort, close, close_top, closing, and_top, infix_after};
ghost use Rattle.dlk_reader.specs.declared.code.Code.{Code as TheCode};
ghost use Rattle.dlk_reader.specs.declared.parts.Last.TheVariants as last;
ghost use Rattle.dlk_reader.specs.Codes.{postfix, postfix_terms};
ghost use Rattle.dlk_reader.specs.Outcomes.{leaving};
ghost use Rattle.dlk_reader.specs.Shows.{holder_of, holder_code, equations_of, closer_lexeme, last_of, piece_code, formulas_joined, IsNoBracket, IsVariable};
ghost use Rattle.dlk_reader.specs.Shows.{IsLast, IsOpen, Stands, Shows, Agrees};

use crate::code::Code;
use crate::items::add_item;
use crate::kept::Kept;
use crate::parts::{
    Between, Closer, Equations, Head, Holder, Last, Modality, Mode, Part, Prefix, Tail,
};
use crate::stack::{Stack, one_more, pop, settle, variable};
use crate::stop::LexemeFault;
use crate::tables::{held_sort, level};
use dlk_grammar::Infix;
use dlk_tree::{Kind, Name, OdeItem, Op, Sort, Sym, Var};

impl Stack {
    /// A lexeme that closes the innermost holder.
    pub(crate) fn closing(
        &mut self,
        mode: &mut Mode,
        closer: Closer,
        last: Last,
    ) -> Result<(), LexemeFault>
        ensures { (S : List MachinePart) (p : Piece) → Stands self.old last S p
            → Agrees (Shows self.new) (leaving mode.new result) (closing (closer_lexeme closer) S p) }
    {
        let last = self.reduce(0, last)?;
        self.close_top(mode, closer, last)
    }

    /// The innermost open part is to be a holder.
    fn close_top(&mut self, mode: &mut Mode, closer: Closer, last: Last) -> Result<(), LexemeFault>
        ensures { (S : List MachinePart) (p : Piece) → Stands self.old last S p
            → Agrees (Shows self.new) (leaving mode.new result) (close_top (closer_lexeme closer) S p) }
    {
        match pop(&mut self.parts) {
            Some(Part::Inside(holder)) => self.close(mode, closer, holder, last),
            _ => Err(LexemeFault::Syntax),
        }
    }

    /// What stands in the holder is to be whole, and of its sort.
    fn close(
        &mut self,
        mode: &mut Mode,
        closer: Closer,
        holder: Holder,
        last: Last,
    ) -> Result<(), LexemeFault>
        ensures { (S : List MachinePart) (h : MachineHolder) (p : Piece) → holder ≡ holder_of h → IsLast last p
            → IsOpen self.old S (holder_code h ++ piece_code p)
            → Agrees (Shows self.new) (leaving mode.new result) (close (closer_lexeme closer) h S p) }
    {
        if let Holder::Round(_) = holder {
            return self.close_bracket(mode, closer, last);
        }
        settle(&mut self.out, last, held_sort(&holder))?;
        self.close_settled(mode, closer, holder)
    }

    /// A bracket round a term or a formula.
    fn close_bracket(
        &mut self,
        mode: &mut Mode,
        closer: Closer,
        last: Last,
    ) -> Result<(), LexemeFault>
        ensures { (S : List MachinePart) (b : Bool) (p : Piece) → Stands self.old last S p
            → Agrees (Shows self.new) (leaving mode.new result) (close (closer_lexeme closer) (Round b) S p) }
    {
        match closer {
            Closer::Round => self.group(mode, last),
            _ => Err(LexemeFault::Syntax),
        }
    }

    /// What was read last, in brackets.
    fn group(&mut self, mode: &mut Mode, last: Last) -> Result<(), LexemeFault>
        ensures { (S : List MachinePart) (p : Piece) → Stands self.old last S p
            → Agrees (Shows self.new) (leaving mode.new result) (Some (Has S (with_tail Grouped p))) }
    {
        match last {
            Last::Name { at: _, name } => {
                self.out.push(variable(name, false))?;
                mode.set(Mode::Has(Last::Tree(Sort::Term, Tail::Grouped)));
            }
            Last::Tree(sort, _) => mode.set(Mode::Has(Last::Tree(sort, Tail::Grouped))),
            Last::Symbol { head, primes, .. } => {
                mode.set(Mode::Has(Last::Symbol {
                    head,
                    primes,
                    tail: Tail::Grouped,
                }));
            }
        }
        Ok(())
    }

    /// A lexeme that closes a holder, in which a tree of its sort is whole.
    fn close_settled(
        &mut self,
        mode: &mut Mode,
        closer: Closer,
        holder: Holder,
    ) -> Result<(), LexemeFault>
        ensures { (S : List MachinePart) (h : MachineHolder) (p : Piece) (t : Phrase) → holder ≡ holder_of h
            → as_sort (held_sort h) p ≡ Some t → IsNoBracket h → IsOpen self.old S (holder_code h ++ postfix t)
            → Agrees (Shows self.new) (leaving mode.new result) (close (closer_lexeme closer) h S p) }
    {
        match (closer, holder) {
            (Closer::Round, Holder::Args { at, name, count }) => {
                let count = one_more(count)?;
                let head = Kept::new(*self.out.allocator(), Head::Call { at, name, count })?;
                mode.set(Mode::Has(Last::Symbol {
                    head,
                    primes: 0,
                    tail: Tail::Done,
                }));
                Ok(())
            }
            (Closer::Comma, Holder::Args { at, name, count }) => {
                let count = one_more(count)?;
                self.open(mode, Part::Inside(Holder::Args { at, name, count }))
            }
            (Closer::Brace, Holder::InContext(name)) => {
                self.made(mode, predicational(name), Sort::Formula, Tail::Done)
            }
            (Closer::Square, Holder::In(Modality::InBox)) => {
                self.open(mode, Part::Before(Prefix::Modal(Modality::InBox)))
            }
            (Closer::Greater, Holder::In(Modality::InDia)) => {
                self.open(mode, Part::Before(Prefix::Modal(Modality::InDia)))
            }
            (Closer::Brace, Holder::InBrace) => {
                mode.set(Mode::Has(Last::Tree(Sort::Program, Tail::Braced)));
                Ok(())
            }
            (Closer::Semicolon, Holder::Assigns { name, primed }) => {
                let code = Code::Operator(Op::Assign(Var { name, primed }));
                self.made(mode, code, Sort::Program, Tail::Done)
            }
            (Closer::Semicolon, Holder::Tests) => {
                self.made(mode, Code::Operator(Op::Test), Sort::Program, Tail::Done)
            }
            (Closer::Brace, Holder::Evolves(equations, name)) => {
                let equations = add_item(equations, OdeItem::Evolve(name))?;
                self.end_system(mode, equations)
            }
            (Closer::Comma, Holder::Evolves(equations, name)) => {
                let equations = add_item(equations, OdeItem::Evolve(name))?;
                mode.set(Mode::WantsItem(equations));
                Ok(())
            }
            (Closer::Brace, Holder::Domain(equations)) => {
                let Equations { at, items } = equations;
                let items = items.into_inner();
                self.made(
                    mode,
                    Code::System { at, items },
                    Sort::Program,
                    Tail::Braced,
                )
            }
            (Closer::Round, Holder::Notes(count)) => {
                let count = one_more(count)?;
                self.out.push(Code::EndNotes(count))?;
                mode.set(Mode::Has(Last::Tree(Sort::Program, Tail::Annotated)));
                Ok(())
            }
            (Closer::Comma, Holder::Notes(count)) => {
                let count = one_more(count)?;
                self.open(mode, Part::Inside(Holder::Notes(count)))
            }
            _ => Err(LexemeFault::Syntax),
        }
    }

    /// A tree of an operator, whose operands are on the list.
    fn made(
        &mut self,
        mode: &mut Mode,
        code: Code,
        sort: Sort,
        tail: Tail,
    ) -> Result<(), LexemeFault>
        ensures { (S : List MachinePart) (operands : List TheCode) (t : Phrase) (k : MachineTail) → postfix t ≡ operands ++ code ∷ []
            → IsOpen self.old S operands → last.Tree sort tail ≡ last_of (Is sort t k) → IsVariable k (Is sort t k)
            → Agrees (Shows self.new) (leaving mode.new result) (Some (Has S (Is sort t k))) }
    {
        self.out.push(code)?;
        mode.set(Mode::Has(Last::Tree(sort, tail)));
        Ok(())
    }

    /// The lexeme `&` behind an operand.
    pub(crate) fn and(&mut self, goal: Sort, mode: &mut Mode, last: Last) -> Result<(), LexemeFault>
        ensures { (S : List MachinePart) (p : Piece) → Stands self.old last S p
            → Agrees (Shows self.new) (leaving mode.new result) (infix_after goal And S p) }
    {
        let last = self.reduce(level(Between::By(Infix::And)), last)?;
        self.and_top(goal, mode, last)
    }

    /// It ends the term of an item, or joins two formulas.
    fn and_top(&mut self, goal: Sort, mode: &mut Mode, last: Last) -> Result<(), LexemeFault>
        ensures { (S : List MachinePart) (p : Piece) → Stands self.old last S p
            → Agrees (Shows self.new) (leaving mode.new result) (and_top goal S p) }
    {
        match pop(&mut self.parts) {
            Some(Part::Inside(Holder::Evolves(equations, name))) => {
                self.begin_domain(mode, equations, name, last)
            }
            Some(part) => {
                self.parts.push(part)?;
                self.join_formulas(goal, mode, last)
            }
            None => self.join_formulas(goal, mode, last),
        }
    }

    /// The term of an item is whole, and a domain follows.
    fn begin_domain(
        &mut self,
        mode: &mut Mode,
        equations: Equations,
        name: Name,
        last: Last,
    ) -> Result<(), LexemeFault>
        ensures { (S : List MachinePart) (n : ℕ) (l : MachineItems) (p : Piece) → equations ≡ equations_of n l → IsLast last p
            → IsOpen self.old S (postfix_terms l ++ piece_code p)
            → Agrees (Shows self.new) (leaving mode.new result) (close (Operator And) (Evolves n l name) S p) }
    {
        settle(&mut self.out, last, Sort::Term)?;
        let equations = add_item(equations, OdeItem::Evolve(name))?;
        self.open(mode, Part::Inside(Holder::Domain(equations)))
    }

    /// A formula stands before the lexeme.
    fn join_formulas(&mut self, goal: Sort, mode: &mut Mode, last: Last) -> Result<(), LexemeFault>
        ensures { (S : List MachinePart) (p : Piece) → Stands self.old last S p
            → Agrees (Shows self.new) (leaving mode.new result) (formulas_joined goal S p) }
    {
        self.left(goal, Between::By(Infix::And), last)?;
        mode.set(Mode::Wants);
        Ok(())
    }
}

/// The operator of a predicational.
fn predicational(name: Name) -> Code
    ensures { (t : Phrase) → postfix (Context name t) ≡ postfix t ++ result ∷ [] }
{
    Code::Operator(Op::Predicational(Sym {
        kind: Kind::Quant,
        name,
        arity: 0,
        taboo: None,
    }))
}
