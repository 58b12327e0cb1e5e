//! Symbols by their canonical texts, over argument dots.
ghost use Rattle.std.specs.Prelude.{◌≡◌, ℕ, List, Option, IfSome, IfNone, IfOk, IfErr};
ghost use Rattle.dlk_tree.specs.declared.op.Kind.TheVariants.{Func, UnitFunc, Pred, UnitPred};
ghost use Rattle.dlk_tree.specs.declared.op.Sym.{Sym as TreeSym};
ghost use Rattle.dlk_lines.specs.Read.{IsLineFaultOf};
ghost use Rattle.dlk_nodes.specs.Symbols.{dots_bytes, AreDots, SpellsTaboo, SpellsOfSort, ArePaired, SpellsCalled};

use crate::details::{name, symbol};
use crate::items::constant;
use crate::parts::{before, behind};
use dlk_lines::{LineFault, cut_at};
use dlk_tree::{Kind, Name, Sort, Sym};
use std::alloc::Global;

/// So many argument dots, at most eight, behind their opening bracket.
fn dots(n: u8) -> &'static [u8]
    ensures { result.now ≡ dots_bytes n }
{
    match n {
        0 => b")",
        1 => b"._0)",
        2 => b"._0,._1)",
        3 => b"._0,._1,._2)",
        4 => b"._0,._1,._2,._3)",
        5 => b"._0,._1,._2,._3,._4)",
        6 => b"._0,._1,._2,._3,._4,._5)",
        7 => b"._0,._1,._2,._3,._4,._5,._6)",
        _ => b"._0,._1,._2,._3,._4,._5,._6,._7)",
    }
}

/// How many argument dots stand there, behind their opening bracket.
fn arity(text: &[u8]) -> Option<u8>
    ensures found { IfSome result (AreDots text.now) }
    ensures none { IfNone result ((n : ℕ) → ¬ AreDots text.now n) }
{
    for n in 0..9 {
        if text == dots(n) {
            return Some(n);
        }
    }
    None
}

/// The taboo between the bars of a unit symbol: nothing stands there where it has none.
fn taboo(alloc: Global, text: &[u8]) -> Result<Option<Name>, LineFault>
    ensures found { IfOk result (SpellsTaboo text.now) }
    ensures fault { IfErr result (IsLineFaultOf ((y : Option (List ℕ)) → ¬ SpellsTaboo text.now y)) }
{
    if text.is_empty() {
        return Ok(None);
    }
    let name = name(alloc, text)?;
    Ok(Some(name))
}

/// A name over its argument dots, or a unit symbol, each of its kind.
fn called(alloc: Global, applied: Kind, unit: Kind, text: &[u8]) -> Result<Sym, LineFault>
    requires { ArePaired applied unit }
    ensures found { IfOk result (SpellsCalled applied unit text.now) }
    ensures fault { IfErr result (IsLineFaultOf ((s : TreeSym) → ¬ SpellsCalled applied unit text.now s)) }
{
    let Some((x, rest)) = cut_at(text, b'(') else {
        return Err(LineFault::Malformed);
    };
    let Some(inner) = behind(rest, b"|") else {
        let Some(arity) = arity(rest) else {
            return Err(LineFault::Malformed);
        };
        return symbol(alloc, applied, x, usize::from(arity));
    };
    let Some(y) = before(inner, b"|)") else {
        return Err(LineFault::Malformed);
    };
    let name = name(alloc, x)?;
    let taboo = taboo(alloc, y)?;
    Ok(Sym {
        kind: unit,
        name,
        arity: 0,
        taboo,
    })
}

/// A symbol for formulas: a predicate, a unit predicate or a predicational.
fn for_formulas(alloc: Global, text: &[u8]) -> Result<Sym, LineFault>
    ensures found { IfOk result (SpellsOfSort Sort.Formula text.now) }
    ensures fault { IfErr result (IsLineFaultOf ((s : TreeSym) → ¬ SpellsOfSort Sort.Formula text.now s)) }
{
    let Some(_) = cut_at(text, b'(') else {
        let Some(x) = before(text, b"{_}") else {
            return Err(LineFault::Malformed);
        };
        return symbol(alloc, Kind::Quant, x, 0);
    };
    called(alloc, Kind::Pred, Kind::UnitPred, text)
}

/// A symbol for programs: a program constant or an ODE constant.
fn for_programs(alloc: Global, text: &[u8]) -> Result<Sym, LineFault>
    ensures found { IfOk result (SpellsOfSort Sort.Program text.now) }
    ensures fault { IfErr result (IsLineFaultOf ((s : TreeSym) → ¬ SpellsOfSort Sort.Program text.now s)) }
{
    let Some(inner) = behind(text, b"{") else {
        let Some(x) = before(text, b";") else {
            return Err(LineFault::Malformed);
        };
        return symbol(alloc, Kind::Prog, x, 0);
    };
    let Some(inner) = before(inner, b"}") else {
        return Err(LineFault::Malformed);
    };
    let (name, taboo) = constant(alloc, inner)?;
    Ok(Sym {
        kind: Kind::Ode,
        name,
        arity: 0,
        taboo,
    })
}

/// The symbol that the text says, of those that stand for trees of this sort.
pub(crate) fn symbol_for(alloc: Global, sort: Sort, text: &[u8]) -> Result<Sym, LineFault>
    ensures found { IfOk result (SpellsOfSort sort text.now) }
    ensures fault { IfErr result (IsLineFaultOf ((s : TreeSym) → ¬ SpellsOfSort sort text.now s)) }
{
    match sort {
        Sort::Term => called(alloc, Kind::Func, Kind::UnitFunc, text),
        Sort::Formula => for_formulas(alloc, text),
        Sort::Program => for_programs(alloc, text),
    }
}
