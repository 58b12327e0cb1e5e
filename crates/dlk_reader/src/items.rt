//! The items of a system.
ghost use Rattle.std.specs.Prelude.{◌≡◌, ℕ, List, Some};
ghost use Rattle.dlk_grammar.specs.Phrases.{Item, Flow, Items as MachineItems, add};
ghost use Rattle.dlk_grammar.specs.Erased.{item_of};
ghost use Rattle.dlk_machine.specs.Machine.{Part as MachinePart, items_step, item_name_step, item_prime_step, item_bar_name_step};
ghost use Rattle.dlk_grammar.specs.Lexemes.{CloseBrace};
ghost use Rattle.dlk_reader.specs.Codes.{postfix_terms};
ghost use Rattle.dlk_reader.specs.Outcomes.{leaving};
ghost use Rattle.dlk_reader.specs.Owed.{Owes};
ghost use Rattle.dlk_reader.specs.Shows.{seen, equations_of, space_of, IsOpen, Shows, Agrees};
ghost use Rattle.dlk_reader.specs.declared.stack.Stack.{Stack as TheStack};

use crate::code::Code;
use crate::kept::Kept;
use crate::lexeme::Lexeme;
use crate::parts::{Equations, Holder, Last, Mode, Part, Tail};
use crate::stack::Stack;
use crate::stop::LexemeFault;
use dlk_grammar::Infix;
use dlk_tree::{Items, Kind, Name, OdeItem, Op, Sort, Sym};

/// One item more.
pub(crate) fn add_item(equations: Equations, item: OdeItem) -> Result<Equations, LexemeFault>
    ensures { (n : ℕ) (l : MachineItems) (i : Item) → equations ≡ equations_of n l → item ≡ item_of i
        → Agrees (λ e m. e ≡ equations_of n m) result (Some (add l i)) }
{
    let mut items = equations.items.into_inner().into_vec();
    items.push(item)?;
    let alloc = *items.allocator();
    Ok(Equations {
        at: equations.at,
        items: Kept::new(alloc, Items::new(items))?,
    })
}

/// An ODE constant more, and the variable on which it does not depend.
pub(crate) fn add_constant(
    equations: Equations,
    name: Name,
    taboo: Option<Name>,
) -> Result<Equations, LexemeFault>
    ensures { (n : ℕ) (l : MachineItems) → equations ≡ equations_of n l
        → Agrees (λ e m. e ≡ equations_of n m) result (Some (add l (Flow name (space_of taboo)))) }
{
    let symbol = Sym {
        kind: Kind::Ode,
        name,
        arity: 0,
        taboo,
    };
    add_item(equations, OdeItem::Const(symbol))
}

impl Stack {
    /// A system without a domain is whole.
    pub(crate) fn end_system(
        &mut self,
        mode: &mut Mode,
        equations: Equations,
    ) -> Result<(), LexemeFault>
        ensures { (S : List MachinePart) (n : ℕ) (l : MachineItems) → equations ≡ equations_of n l → IsOpen self.old S (postfix_terms l)
            → Agrees (Shows self.new) (leaving mode.new result) (items_step S n l CloseBrace) }
    {
        self.out.push(Code::Operator(Op::True))?;
        self.out.push(Code::System {
            at: equations.at,
            items: equations.items.into_inner(),
        })?;
        mode.set(Mode::Has(Last::Tree(Sort::Program, Tail::Braced)));
        Ok(())
    }

    /// A lexeme behind whole items.
    pub(crate) fn items_step(
        &mut self,
        mode: &mut Mode,
        equations: Equations,
        lexeme: Lexeme,
    ) -> Result<(), LexemeFault>
        ensures { (S : List MachinePart) (n : ℕ) (l : MachineItems) → equations ≡ equations_of n l → IsOpen self.old S (postfix_terms l)
            → Agrees (Shows self.new) (leaving mode.new result) (items_step S n l (seen lexeme)) }
    {
        match lexeme {
            Lexeme::Comma => {
                mode.set(Mode::WantsItem(equations));
                Ok(())
            }
            Lexeme::Op(Infix::And) => self.open(mode, Part::Inside(Holder::Domain(equations))),
            Lexeme::CloseBrace => self.end_system(mode, equations),
            _ => Err(LexemeFault::Syntax),
        }
    }

    /// A lexeme behind the name of an item.
    pub(crate) fn item_name_step(
        &mut self,
        mode: &mut Mode,
        equations: Equations,
        name: Name,
        lexeme: Lexeme,
    ) -> Result<(), LexemeFault>
        ensures { (S : List MachinePart) (n : ℕ) (l : MachineItems) → equations ≡ equations_of n l → IsOpen self.old S (postfix_terms l)
            → Agrees (Shows self.new) (leaving mode.new result) (item_name_step S n l name (seen lexeme)) }
    {
        match lexeme {
            Lexeme::Prime => {
                mode.set(Mode::ItemPrime(equations, name));
                Ok(())
            }
            Lexeme::BraceBar => {
                mode.set(Mode::ItemBar(equations, name));
                Ok(())
            }
            lexeme => {
                let equations = add_constant(equations, name, None)?;
                self.items_step(mode, equations, lexeme)
            }
        }
    }

    /// A lexeme behind the name of an item and a prime.
    pub(crate) fn item_prime_step(
        &mut self,
        mode: &mut Mode,
        equations: Equations,
        name: Name,
        lexeme: Lexeme,
    ) -> Result<(), LexemeFault>
        ensures agrees { (S : List MachinePart) (n : ℕ) (l : MachineItems) → equations ≡ equations_of n l → IsOpen self.old S (postfix_terms l)
            → Agrees (Shows self.new) (leaving mode.new result) (item_prime_step S n l name (seen lexeme)) }
        ensures owed { (S : List MachinePart) (n : ℕ) (l : MachineItems) → equations ≡ equations_of n l → IsOpen self.old S (postfix_terms l)
            → Owes (leaving mode.new result) (item_prime_step S n l name (seen lexeme)) }
    {
        match lexeme {
            Lexeme::Op(Infix::Equal) => self.open(
                mode,
                Part::Inside(Holder::Evolves(equations, name)),
            ),
            _ => Err(LexemeFault::Syntax),
        }
    }
}

/// A lexeme behind the name of an item, `{|` and a name.
pub(crate) fn item_bar_name_step(
    mode: &mut Mode,
    equations: Equations,
    name: Name,
    taboo: Name,
    lexeme: Lexeme,
) -> Result<(), LexemeFault>
    ensures { (k : TheStack) (S : List MachinePart) (n : ℕ) (l : MachineItems) → equations ≡ equations_of n l → IsOpen k S (postfix_terms l)
        → Agrees (Shows k) (leaving mode.new result) (item_bar_name_step S n l name taboo (seen lexeme)) }
{
    match lexeme {
        Lexeme::BarBrace => {
            mode.set(Mode::ItemEnds(add_constant(equations, name, Some(taboo))?));
            Ok(())
        }
        _ => Err(LexemeFault::Syntax),
    }
}
