//! The left sides of pairs.
ghost use Rattle.std.specs.Prelude.{◌≡◌, ◌+◌, ◌==◌, true, false, Some, codes};
ghost use Rattle.std.specs.Str.{bytes_eq};
ghost use Rattle.dlk_tree.specs.declared.op.Kind.TheVariants.{Quant, Ode};
ghost use Rattle.dlk_tree.specs.declared.op.Sort.TheVariants.{Formula};
ghost use Rattle.dlk_grammar.specs.Erased.{symbol};
ghost use Rattle.dlk_grammar.specs.Phrases.{Everywhere};
ghost use Rattle.dlk_grammar.specs.Substitutions.{function, predicate};
ghost use Rattle.dlk_machine.specs.Machine.{when};
ghost use Rattle.dlk_machine.specs.Pairs.{Begins, LeftName, Calls, DotsOf, DotWanted, Bars, BarsName, InContext, ContextHole, FlowOpens, FlowName};
ghost use Rattle.dlk_machine.specs.Pairs.{FlowBar, FlowBarName, FlowExcept, LeftEnds as EndsLeft, TextOf as WantsText, SystemOf as WantsSystem};
ghost use Rattle.dlk_machine.specs.Pairs.{right_of, pair_step, target_step};
ghost use Rattle.dlk_reader.specs.Owed.{Owes};
ghost use Rattle.dlk_reader.specs.Shows.{seen, space_of, Agrees};
ghost use Rattle.dlk_forms.specs.PairReaders.{target_of, left_state, IsLeft};

use crate::pairs::PairMode;
use dlk_reader::{Lexeme, LexemeFault};
use dlk_tree::{Kind, Name, Sort, Sym};

/// How many argument dots there are: `._0` to `._7`.
const MOST_DOTS: u8 = 8;

/// A function or a predicate on the left of a pair.
#[derive(Drop)]
pub(crate) enum Target {
    /// Over so many argument dots.
    Over { name: Name, arity: u8 },
    /// Over all variables, or over all but one.
    Unit { name: Name, taboo: Option<Name> },
}

/// What a left side wants on the right.
#[derive(Drop)]
pub(crate) enum Right {
    /// A formula, or else a term.
    EitherOf(Target),
    /// A text of a sort.
    TextOf(Sort, Sym),
    /// A system without a domain.
    SystemOf(Sym),
}

/// Where the reader of a left side stands. A function or a predicate has with it whether the word `term` came.
#[derive(Drop)]
pub(crate) enum LeftMode {
    Begins,
    /// After `x` and after `term x`.
    LeftName(Name),
    TermName(Name),
    /// After `x (`, behind so many argument dots, and behind their comma.
    Calls { term: bool, name: Name },
    DotsOf { term: bool, name: Name, count: u8 },
    DotWanted { term: bool, name: Name, count: u8 },
    /// After `x (|` and after `x (| y`.
    Bars { term: bool, name: Name },
    BarsName { term: bool, name: Name, taboo: Name },
    /// After `x {` and after `x { _`.
    InContext(Name),
    ContextHole(Name),
    /// After `{`, `{ x`, `{ x {|`, `{ x {| y` and `{ x {| y |}`.
    FlowOpens,
    FlowName(Name),
    FlowBar(Name),
    FlowBarName { name: Name, taboo: Name },
    FlowExcept { name: Name, taboo: Name },
}

fn symbol(kind: Kind, name: Name, taboo: Option<Name>) -> Sym
    ensures { result ≡ symbol kind name 0 (space_of taboo) }
{
    Sym {
        kind,
        name,
        arity: 0,
        taboo,
    }
}

/// The symbol of a function.
pub(crate) fn function(target: Target) -> Sym
    ensures { result ≡ function (target_of target) }
{
    match target {
        Target::Over { name, arity } => Sym {
            kind: Kind::Func,
            name,
            arity,
            taboo: None,
        },
        Target::Unit { name, taboo } => symbol(Kind::UnitFunc, name, taboo),
    }
}

/// The symbol of a predicate.
pub(crate) fn predicate(target: Target) -> Sym
    ensures { result ≡ predicate (target_of target) }
{
    match target {
        Target::Over { name, arity } => Sym {
            kind: Kind::Pred,
            name,
            arity,
            taboo: None,
        },
        Target::Unit { name, taboo } => symbol(Kind::UnitPred, name, taboo),
    }
}

fn is_term_word(name: &Name) -> bool
    ensures { result ≡ bytes_eq name.now (codes "term") }
{
    name.bytes() == b"term".as_slice()
}

/// A function or a predicate is whole: behind the word `term` it wants a term, and else a formula or a term.
fn target_ends(term: bool, target: Target) -> PairMode
    ensures { IsLeft result (EndsLeft (right_of term (target_of target))) }
{
    PairMode::LeftEnds(if term {
        Right::TextOf(Sort::Term, function(target))
    } else {
        Right::EitherOf(target)
    })
}

/// A lexeme behind the name of a function or a predicate.
fn target_step(term: bool, name: Name, lexeme: Lexeme) -> Result<PairMode, LexemeFault>
    ensures agrees { Agrees IsLeft result (target_step term name (seen lexeme)) }
    ensures owed { Owes result (target_step term name (seen lexeme)) }
{
    match lexeme {
        Lexeme::Open => Ok(PairMode::Left(LeftMode::Calls { term, name })),
        Lexeme::RoundBars => Ok(target_ends(term, Target::Unit { name, taboo: None })),
        Lexeme::RoundBar => Ok(PairMode::Left(LeftMode::Bars { term, name })),
        _ => Err(LexemeFault::Syntax),
    }
}

/// A lexeme behind the name with which a pair begins.
fn name_step(name: Name, lexeme: Lexeme) -> Result<PairMode, LexemeFault>
    ensures agrees { Agrees IsLeft result (pair_step (LeftName name) (seen lexeme)) }
    ensures owed { Owes result (pair_step (LeftName name) (seen lexeme)) }
{
    match lexeme {
        Lexeme::Name(_, second) => {
            if is_term_word(&name) {
                Ok(PairMode::Left(LeftMode::TermName(second)))
            } else {
                Err(LexemeFault::Syntax)
            }
        }
        Lexeme::OpenBrace(_) => Ok(PairMode::Left(LeftMode::InContext(name))),
        Lexeme::Semi => {
            let symbol = symbol(Kind::Prog, name, None);
            Ok(PairMode::LeftEnds(Right::TextOf(Sort::Program, symbol)))
        }
        lexeme => target_step(false, name, lexeme),
    }
}

/// An argument dot behind so many others.
fn next_dot(term: bool, name: Name, count: u8, dot: u8) -> Result<PairMode, LexemeFault>
    ensures agrees { Agrees IsLeft result (when (dot == count) (Some (DotsOf term name (count + 1)))) }
    ensures owed { Owes result (when (dot == count) (Some (DotsOf term name (count + 1)))) }
{
    if dot != count {
        return Err(LexemeFault::Syntax);
    }
    match count.checked_add(1) {
        Some(count) => Ok(PairMode::Left(LeftMode::DotsOf { term, name, count })),
        // no text has so many argument dots
        None => Err(LexemeFault::Memory),
    }
}

/// A lexeme behind `x (`.
fn call_step(term: bool, name: Name, lexeme: Lexeme) -> Result<PairMode, LexemeFault>
    ensures agrees { Agrees IsLeft result (pair_step (Calls term name) (seen lexeme)) }
    ensures owed { Owes result (pair_step (Calls term name) (seen lexeme)) }
{
    match lexeme {
        Lexeme::Close => Ok(target_ends(term, Target::Over { name, arity: 0 })),
        Lexeme::Dot(dot) => next_dot(term, name, 0, dot),
        _ => Err(LexemeFault::Syntax),
    }
}

/// A lexeme behind so many argument dots.
fn dots_step(term: bool, name: Name, count: u8, lexeme: Lexeme) -> Result<PairMode, LexemeFault>
    ensures agrees { Agrees IsLeft result (pair_step (DotsOf term name count) (seen lexeme)) }
    ensures owed { Owes result (pair_step (DotsOf term name count) (seen lexeme)) }
{
    match lexeme {
        Lexeme::Comma if count < MOST_DOTS => {
            Ok(PairMode::Left(LeftMode::DotWanted { term, name, count }))
        }
        Lexeme::Close => Ok(target_ends(term, Target::Over { name, arity: count })),
        _ => Err(LexemeFault::Syntax),
    }
}

/// The argument of a predicational is whole.
fn context_ends(name: Name) -> PairMode
    ensures { IsLeft result (EndsLeft (WantsText Formula (symbol Quant name 0 Everywhere))) }
{
    let symbol = symbol(Kind::Quant, name, None);
    PairMode::LeftEnds(Right::TextOf(Sort::Formula, symbol))
}

/// An ODE constant is whole.
fn flow_ends(name: Name, taboo: Option<Name>) -> PairMode
    ensures { IsLeft result (EndsLeft (WantsSystem (symbol Ode name 0 (space_of taboo)))) }
{
    PairMode::LeftEnds(Right::SystemOf(symbol(Kind::Ode, name, taboo)))
}

/// A lexeme behind `{ x`.
fn flow_step(name: Name, lexeme: Lexeme) -> Result<PairMode, LexemeFault>
    ensures agrees { Agrees IsLeft result (pair_step (FlowName name) (seen lexeme)) }
    ensures owed { Owes result (pair_step (FlowName name) (seen lexeme)) }
{
    match lexeme {
        Lexeme::CloseBrace => Ok(flow_ends(name, None)),
        Lexeme::BraceBar => Ok(PairMode::Left(LeftMode::FlowBar(name))),
        _ => Err(LexemeFault::Syntax),
    }
}

/// A lexeme where a pair begins.
fn begin_step(lexeme: Lexeme) -> Result<PairMode, LexemeFault>
    ensures agrees { Agrees IsLeft result (pair_step Begins (seen lexeme)) }
    ensures owed { Owes result (pair_step Begins (seen lexeme)) }
{
    match lexeme {
        Lexeme::Name(_, name) => Ok(PairMode::Left(LeftMode::LeftName(name))),
        Lexeme::OpenBrace(_) => Ok(PairMode::Left(LeftMode::FlowOpens)),
        _ => Err(LexemeFault::Syntax),
    }
}

/// A lexeme where an argument dot is wanted behind so many others.
fn dot_step(term: bool, name: Name, count: u8, lexeme: Lexeme) -> Result<PairMode, LexemeFault>
    ensures agrees { Agrees IsLeft result (pair_step (DotWanted term name count) (seen lexeme)) }
    ensures owed { Owes result (pair_step (DotWanted term name count) (seen lexeme)) }
{
    match lexeme {
        Lexeme::Dot(dot) => next_dot(term, name, count, dot),
        _ => Err(LexemeFault::Syntax),
    }
}

/// A lexeme behind `x (|`.
fn bars_step(term: bool, name: Name, lexeme: Lexeme) -> Result<PairMode, LexemeFault>
    ensures agrees { Agrees IsLeft result (pair_step (Bars term name) (seen lexeme)) }
    ensures owed { Owes result (pair_step (Bars term name) (seen lexeme)) }
{
    match lexeme {
        Lexeme::Name(_, taboo) => Ok(PairMode::Left(LeftMode::BarsName { term, name, taboo })),
        _ => Err(LexemeFault::Syntax),
    }
}

/// A lexeme behind `x (| y`.
fn bars_name_step(
    term: bool,
    name: Name,
    taboo: Name,
    lexeme: Lexeme,
) -> Result<PairMode, LexemeFault>
    ensures agrees { Agrees IsLeft result (pair_step (BarsName term name taboo) (seen lexeme)) }
    ensures owed { Owes result (pair_step (BarsName term name taboo) (seen lexeme)) }
{
    match lexeme {
        Lexeme::BarRound => {
            let taboo = Some(taboo);
            Ok(target_ends(term, Target::Unit { name, taboo }))
        }
        _ => Err(LexemeFault::Syntax),
    }
}

/// A lexeme behind `x {`.
fn context_step(name: Name, lexeme: Lexeme) -> Result<PairMode, LexemeFault>
    ensures agrees { Agrees IsLeft result (pair_step (InContext name) (seen lexeme)) }
    ensures owed { Owes result (pair_step (InContext name) (seen lexeme)) }
{
    match lexeme {
        Lexeme::Blank => Ok(PairMode::Left(LeftMode::ContextHole(name))),
        _ => Err(LexemeFault::Syntax),
    }
}

/// A lexeme behind `x { _`.
fn hole_step(name: Name, lexeme: Lexeme) -> Result<PairMode, LexemeFault>
    ensures agrees { Agrees IsLeft result (pair_step (ContextHole name) (seen lexeme)) }
    ensures owed { Owes result (pair_step (ContextHole name) (seen lexeme)) }
{
    match lexeme {
        Lexeme::CloseBrace => Ok(context_ends(name)),
        _ => Err(LexemeFault::Syntax),
    }
}

/// A lexeme behind `{`.
fn open_step(lexeme: Lexeme) -> Result<PairMode, LexemeFault>
    ensures agrees { Agrees IsLeft result (pair_step FlowOpens (seen lexeme)) }
    ensures owed { Owes result (pair_step FlowOpens (seen lexeme)) }
{
    match lexeme {
        Lexeme::Name(_, name) => Ok(PairMode::Left(LeftMode::FlowName(name))),
        _ => Err(LexemeFault::Syntax),
    }
}

/// A lexeme behind `{ x {|`.
fn flow_bar_step(name: Name, lexeme: Lexeme) -> Result<PairMode, LexemeFault>
    ensures agrees { Agrees IsLeft result (pair_step (FlowBar name) (seen lexeme)) }
    ensures owed { Owes result (pair_step (FlowBar name) (seen lexeme)) }
{
    match lexeme {
        Lexeme::Name(_, taboo) => Ok(PairMode::Left(LeftMode::FlowBarName { name, taboo })),
        _ => Err(LexemeFault::Syntax),
    }
}

/// A lexeme behind `{ x {| y`.
fn flow_bar_name_step(name: Name, taboo: Name, lexeme: Lexeme) -> Result<PairMode, LexemeFault>
    ensures agrees { Agrees IsLeft result (pair_step (FlowBarName name taboo) (seen lexeme)) }
    ensures owed { Owes result (pair_step (FlowBarName name taboo) (seen lexeme)) }
{
    match lexeme {
        Lexeme::BarBrace => Ok(PairMode::Left(LeftMode::FlowExcept { name, taboo })),
        _ => Err(LexemeFault::Syntax),
    }
}

/// A lexeme behind `{ x {| y |}`.
fn flow_except_step(name: Name, taboo: Name, lexeme: Lexeme) -> Result<PairMode, LexemeFault>
    ensures agrees { Agrees IsLeft result (pair_step (FlowExcept name taboo) (seen lexeme)) }
    ensures owed { Owes result (pair_step (FlowExcept name taboo) (seen lexeme)) }
{
    match lexeme {
        Lexeme::CloseBrace => Ok(flow_ends(name, Some(taboo))),
        _ => Err(LexemeFault::Syntax),
    }
}

/// What a lexeme makes of a left side.
pub(crate) fn left_step(mode: LeftMode, lexeme: Lexeme) -> Result<PairMode, LexemeFault>
    ensures agrees { Agrees IsLeft result (pair_step (left_state mode) (seen lexeme)) }
    ensures owed { Owes result (pair_step (left_state mode) (seen lexeme)) }
{
    match mode {
        LeftMode::Begins => begin_step(lexeme),
        LeftMode::LeftName(name) => name_step(name, lexeme),
        LeftMode::TermName(name) => target_step(true, name, lexeme),
        LeftMode::Calls { term, name } => call_step(term, name, lexeme),
        LeftMode::DotsOf { term, name, count } => dots_step(term, name, count, lexeme),
        LeftMode::DotWanted { term, name, count } => dot_step(term, name, count, lexeme),
        LeftMode::Bars { term, name } => bars_step(term, name, lexeme),
        LeftMode::BarsName { term, name, taboo } => bars_name_step(term, name, taboo, lexeme),
        LeftMode::InContext(name) => context_step(name, lexeme),
        LeftMode::ContextHole(name) => hole_step(name, lexeme),
        LeftMode::FlowOpens => open_step(lexeme),
        LeftMode::FlowName(name) => flow_step(name, lexeme),
        LeftMode::FlowBar(name) => flow_bar_step(name, lexeme),
        LeftMode::FlowBarName { name, taboo } => flow_bar_name_step(name, taboo, lexeme),
        LeftMode::FlowExcept { name, taboo } => flow_except_step(name, taboo, lexeme),
    }
}
