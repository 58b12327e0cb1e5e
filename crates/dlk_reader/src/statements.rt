//! Statements, and what stands behind a brace.
ghost use Rattle.std.specs.Prelude.{◌≡◌, List, [], ◌∷◌, Some};
ghost use Rattle.dlk_grammar.specs.Phrases.{Phrase, Const};
ghost use Rattle.dlk_reader.specs.declared.stack.Stack.{Stack as TheStack};
ghost use Rattle.dlk_reader.specs.declared.code.Code.TheVariants as code;
ghost use Rattle.dlk_machine.specs.Machine.{Part as MachinePart, Inside, InBrace, Piece, start_statement, statement_step, statement_prime_step};
ghost use Rattle.dlk_machine.specs.Machine.{statement_gets_step, statement_star_step, opens_step, opens_name_step, opens_prime_step, star_after};
ghost use Rattle.dlk_machine.specs.Machine.{invariant_after, semi_after, invariants_step};
ghost use Rattle.dlk_reader.specs.Codes.{postfix};
ghost use Rattle.dlk_reader.specs.Outcomes.{leaving};
ghost use Rattle.dlk_reader.specs.Owed.{Owes};
ghost use Rattle.dlk_reader.specs.Shows.{seen, is_star, IsOpen, Stands, Shows, Agrees};

use crate::code::Code;
use crate::lexeme::Lexeme;
use crate::parts::{Equations, Holder, Last, Mode, Part, Tail};
use crate::stack::Stack;
use crate::stop::LexemeFault;
use dlk_grammar::Infix;
use dlk_tree::{Kind, Name, Op, Sort, Sym};
use std::alloc::Global;

impl Stack {
    /// A lexeme where a statement is wanted.
    pub(crate) fn start_statement(
        &mut self,
        mode: &mut Mode,
        lexeme: Lexeme,
    ) -> Result<(), LexemeFault>
        ensures agrees { (S : List MachinePart) → IsOpen self.old S []
            → Agrees (Shows self.new) (leaving mode.new result) (start_statement S (seen lexeme)) }
        ensures owed { (S : List MachinePart) → IsOpen self.old S []
            → Owes (leaving mode.new result) (start_statement S (seen lexeme)) }
    {
        match lexeme {
            Lexeme::Name(_, name) => {
                mode.set(Mode::Starts(name));
                Ok(())
            }
            Lexeme::Query => self.open(mode, Part::Inside(Holder::Tests)),
            Lexeme::OpenBrace(at) => {
                mode.set(Mode::Opens(at));
                Ok(())
            }
            _ => Err(LexemeFault::Syntax),
        }
    }

    /// A lexeme behind the name of a statement.
    pub(crate) fn statement_step(
        &mut self,
        mode: &mut Mode,
        name: Name,
        lexeme: Lexeme,
    ) -> Result<(), LexemeFault>
        ensures agrees { (S : List MachinePart) → IsOpen self.old S []
            → Agrees (Shows self.new) (leaving mode.new result) (statement_step S name (seen lexeme)) }
        ensures owed { (S : List MachinePart) → IsOpen self.old S []
            → Owes (leaving mode.new result) (statement_step S name (seen lexeme)) }
    {
        match lexeme {
            Lexeme::Semi => self.leaf(mode, program_constant(name), Sort::Program),
            Lexeme::Gets => {
                mode.set(Mode::StartsGets(name));
                Ok(())
            }
            Lexeme::Prime => {
                mode.set(Mode::StartsPrime(name));
                Ok(())
            }
            _ => Err(LexemeFault::Syntax),
        }
    }

    /// A lexeme behind the name of a statement and a prime.
    pub(crate) fn statement_prime_step(
        &mut self,
        mode: &mut Mode,
        name: Name,
        lexeme: Lexeme,
    ) -> Result<(), LexemeFault>
        ensures agrees { (S : List MachinePart) → IsOpen self.old S []
            → Agrees (Shows self.new) (leaving mode.new result) (statement_prime_step S name (seen lexeme)) }
        ensures owed { (S : List MachinePart) → IsOpen self.old S []
            → Owes (leaving mode.new result) (statement_prime_step S name (seen lexeme)) }
    {
        match lexeme {
            Lexeme::Gets => self.open(mode, Part::Inside(Holder::Assigns { name, primed: true })),
            _ => Err(LexemeFault::Syntax),
        }
    }

    /// A lexeme behind `:=`: a star, which stands for any value, or one that begins a term.
    pub(crate) fn statement_gets_step(
        &mut self,
        goal: Sort,
        mode: &mut Mode,
        name: Name,
        lexeme: Lexeme,
    ) -> Result<(), LexemeFault>
        ensures { (S : List MachinePart) → IsOpen self.old S []
            → Agrees (Shows self.new) (leaving mode.new result) (statement_gets_step goal S name (seen lexeme)) }
    {
        let star = is_star(&lexeme);
        if star {
            mode.set(Mode::StartsStar(name));
            return Ok(());
        }
        self.parts.push(Part::Inside(Holder::Assigns {
            name,
            primed: false,
        }))?;
        self.start_operand(goal, mode, lexeme)
    }

    /// The semicolon behind `:=` and a star.
    pub(crate) fn statement_star_step(
        &mut self,
        mode: &mut Mode,
        name: Name,
        lexeme: Lexeme,
    ) -> Result<(), LexemeFault>
        ensures agrees { (S : List MachinePart) → IsOpen self.old S []
            → Agrees (Shows self.new) (leaving mode.new result) (statement_star_step S name (seen lexeme)) }
        ensures owed { (S : List MachinePart) → IsOpen self.old S []
            → Owes (leaving mode.new result) (statement_star_step S name (seen lexeme)) }
    {
        match lexeme {
            Lexeme::Semi => self.leaf(mode, Op::Any(name), Sort::Program),
            _ => Err(LexemeFault::Syntax),
        }
    }

    /// A program stands in a brace.
    fn open_brace(&mut self) -> Result<(), LexemeFault>
        ensures { (S : List MachinePart) → IsOpen self.old S []
            → Agrees (λ _ T. IsOpen self.new T []) result (Some (Inside InBrace ∷ S)) }
    {
        Ok(self.parts.push(Part::Inside(Holder::InBrace))?)
    }

    /// A lexeme behind a brace.
    pub(crate) fn opens_step(
        &mut self,
        mode: &mut Mode,
        at: usize,
        lexeme: Lexeme,
    ) -> Result<(), LexemeFault>
        ensures agrees { (S : List MachinePart) → IsOpen self.old S []
            → Agrees (Shows self.new) (leaving mode.new result) (opens_step S at (seen lexeme)) }
        ensures owed { (S : List MachinePart) → IsOpen self.old S []
            → Owes (leaving mode.new result) (opens_step S at (seen lexeme)) }
    {
        match lexeme {
            Lexeme::Name(_, name) => {
                mode.set(Mode::OpensName { at, name });
                Ok(())
            }
            Lexeme::Query => {
                self.open_brace()?;
                self.start_statement(mode, Lexeme::Query)
            }
            Lexeme::OpenBrace(inner) => {
                self.open_brace()?;
                self.start_statement(mode, Lexeme::OpenBrace(inner))
            }
            _ => Err(LexemeFault::Syntax),
        }
    }

    /// A lexeme behind a brace and a name.
    pub(crate) fn opens_name_step(
        &mut self,
        alloc: Global,
        mode: &mut Mode,
        at: usize,
        name: Name,
        lexeme: Lexeme,
    ) -> Result<(), LexemeFault>
        ensures { (S : List MachinePart) → IsOpen self.old S []
            → Agrees (Shows self.new) (leaving mode.new result) (opens_name_step S at name (seen lexeme)) }
    {
        match lexeme {
            Lexeme::Prime => {
                mode.set(Mode::OpensPrime { at, name });
                Ok(())
            }
            Lexeme::Semi => {
                self.open_brace()?;
                self.statement_step(mode, name, Lexeme::Semi)
            }
            Lexeme::Gets => {
                self.open_brace()?;
                self.statement_step(mode, name, Lexeme::Gets)
            }
            lexeme => {
                let equations = Equations::new(alloc, at)?;
                self.item_name_step(mode, equations, name, lexeme)
            }
        }
    }

    /// A lexeme behind a brace, a name and a prime.
    pub(crate) fn opens_prime_step(
        &mut self,
        alloc: Global,
        mode: &mut Mode,
        at: usize,
        name: Name,
        lexeme: Lexeme,
    ) -> Result<(), LexemeFault>
        ensures { (S : List MachinePart) → IsOpen self.old S []
            → Agrees (Shows self.new) (leaving mode.new result) (opens_prime_step S at name (seen lexeme)) }
    {
        match lexeme {
            Lexeme::Gets => {
                self.open_brace()?;
                self.statement_prime_step(mode, name, Lexeme::Gets)
            }
            lexeme => {
                let equations = Equations::new(alloc, at)?;
                self.item_prime_step(mode, equations, name, lexeme)
            }
        }
    }

    /// A star behind a brace.
    pub(crate) fn star_after(&mut self, mode: &mut Mode, last: Last) -> Result<(), LexemeFault>
        ensures agrees { (S : List MachinePart) (p : Piece) → Stands self.old last S p
            → Agrees (Shows self.new) (leaving mode.new result) (star_after S p) }
        ensures owed { (S : List MachinePart) (p : Piece) → Stands self.old last S p
            → Owes (leaving mode.new result) (star_after S p) }
    {
        match last {
            Last::Tree(sort, Tail::Braced) => {
                self.out.push(Code::Operator(Op::Loop))?;
                mode.set(Mode::Has(Last::Tree(sort, Tail::Starred)));
                Ok(())
            }
            Last::Tree(_, _) => Err(LexemeFault::Syntax),
            Last::Name { .. } => Err(LexemeFault::Syntax),
            Last::Symbol { .. } => Err(LexemeFault::Syntax),
        }
    }

    /// The bracket behind `@invariant`.
    pub(crate) fn invariants_step(
        &mut self,
        mode: &mut Mode,
        lexeme: Lexeme,
    ) -> Result<(), LexemeFault>
        ensures agrees { (S : List MachinePart) (t : Phrase) → IsOpen self.old S (postfix t)
            → Agrees (Shows self.new) (leaving mode.new result) (invariants_step S t (seen lexeme)) }
        ensures owed { (S : List MachinePart) (t : Phrase) → IsOpen self.old S (postfix t)
            → Owes (leaving mode.new result) (invariants_step S t (seen lexeme)) }
    {
        match lexeme {
            Lexeme::Open => {
                self.out.push(Code::Notes)?;
                self.open(mode, Part::Inside(Holder::Notes(0)))
            }
            _ => Err(LexemeFault::Syntax),
        }
    }
}

/// Whether it stands for any value.
fn is_star(lexeme: &Lexeme) -> bool
    ensures { result ≡ is_star lexeme.now }
{
    matches!(lexeme, Lexeme::Op(Infix::Mul))
}

/// The operator of a program constant.
fn program_constant(name: Name) -> Op
    ensures { postfix (Const name) ≡ code.Operator result ∷ [] }
{
    Op::Const(Sym {
        kind: Kind::Prog,
        name,
        arity: 0,
        taboo: None,
    })
}

/// `@invariant` behind a brace or its star.
pub(crate) fn invariant_after(mode: &mut Mode, last: Last) -> Result<(), LexemeFault>
    ensures agrees { (k : TheStack) (S : List MachinePart) (p : Piece) → Stands k last S p
        → Agrees (Shows k) (leaving mode.new result) (invariant_after S p) }
    ensures owed { (k : TheStack) (S : List MachinePart) (p : Piece) → Stands k last S p
        → Owes (leaving mode.new result) (invariant_after S p) }
{
    match last {
        Last::Tree(_, Tail::Braced | Tail::Starred) => {
            mode.set(Mode::Invariants);
            Ok(())
        }
        Last::Tree(_, _) => Err(LexemeFault::Syntax),
        Last::Name { .. } => Err(LexemeFault::Syntax),
        Last::Symbol { .. } => Err(LexemeFault::Syntax),
    }
}

/// A semicolon behind a brace, its star or its invariants.
pub(crate) fn semi_after(mode: &mut Mode, last: Last) -> Result<(), LexemeFault>
    ensures agrees { (k : TheStack) (S : List MachinePart) (p : Piece) → Stands k last S p
        → Agrees (Shows k) (leaving mode.new result) (semi_after S p) }
    ensures owed { (k : TheStack) (S : List MachinePart) (p : Piece) → Stands k last S p
        → Owes (leaving mode.new result) (semi_after S p) }
{
    match last {
        Last::Tree(sort, Tail::Braced | Tail::Starred | Tail::Annotated) => {
            mode.set(Mode::Has(Last::Tree(sort, Tail::Done)));
            Ok(())
        }
        Last::Tree(_, _) => Err(LexemeFault::Syntax),
        Last::Name { .. } => Err(LexemeFault::Syntax),
        Last::Symbol { .. } => Err(LexemeFault::Syntax),
    }
}
