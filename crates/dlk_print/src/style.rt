//! How each operator is written.
ghost use Rattle.std.specs.Prelude.{◌≡◌, [], ◌∷◌, ◌++◌, if◌then◌else◌, ◌==◌, None, MatchOption, codes};
ghost use Rattle.dlk_tree.specs.declared.op.Op.TheVariants.{System};
ghost use Rattle.std.specs.Fmt.{decimal};
ghost use Rattle.dlk_grammar.specs.Shown.{spell, level, least, opening, between, closing, items_of, variable, unit_brackets, ode_brackets, is_true};
ghost use Rattle.dlk_grammar.specs.Shown.{open_bracket, close_bracket};
ghost use Rattle.dlk_print.specs.Printed.{Appends};

use crate::appending::{append, append_between, append_name};
use crate::fault::PrintFault;
use crate::number::{append_decimal, append_number};
use dlk_tree::{Items, Name, Op, Sort, Var};

pub(crate) fn level(op: &Op) -> u8
    ensures { result ≡ level op.now }
{
    match op {
        Op::Equiv | Op::Add | Op::Sub | Op::Choice => 1,
        Op::Imply | Op::Mul | Op::Div | Op::Seq => 2,
        Op::Or | Op::Neg => 3,
        Op::And | Op::Pow => 4,
        Op::Not | Op::Forall(_) | Op::Exists(_) | Op::Box | Op::Dia => 5,
        Op::Variable(_) | Op::Number(_) | Op::Dot(_) | Op::UnitFun(_) | Op::Apply(_) | Op::Diff => {
            5
        }
        Op::Const(_) | Op::Assign(_) | Op::Any(_) | Op::Test | Op::System(_) | Op::Loop => 3,
        _ => 6,
    }
}

/// The least level of the kid at place `i`.
pub(crate) fn least(op: &Op, i: usize) -> u8
    ensures { result ≡ least op.now i }
{
    match op {
        Op::Equiv | Op::Choice => either(i, 2, 1),
        Op::Imply | Op::Seq => either(i, 3, 2),
        Op::Or => either(i, 4, 3),
        Op::And => either(i, 5, 4),
        Op::Not | Op::Forall(_) | Op::Exists(_) => either(i, 5, 5),
        Op::Box | Op::Dia => either(i, 1, 5),
        Op::Add | Op::Sub => either(i, 1, 2),
        Op::Mul | Op::Div => either(i, 2, 3),
        Op::Neg => either(i, 3, 3),
        Op::Pow => either(i, 5, 3),
        _ => either(i, 1, 1),
    }
}

/// The first for the first kid, and the other for a later one.
fn either(i: usize, first: u8, later: u8) -> u8
    ensures { result ≡ (if i == 0 then first else later) }
{
    if i == 0 { first } else { later }
}

/// Appends what stands before the kids.
pub(crate) fn open(out: &mut Vec<u8>, op: &Op) -> Result<(), PrintFault>
    ensures { Appends out.old.items out.new.items (spell (opening op.now)) result }
{
    match op {
        Op::Variable(v) => append_variable(out, v, b"", b"'"),
        Op::Number(n) => append_number(out, n),
        Op::Dot(n) => append_dot(out, *n),
        Op::UnitFun(s) | Op::UnitPred(s) => append_name(out, &s.name, b""),
        Op::Apply(s) | Op::Holds(s) => append_name(out, &s.name, b"("),
        Op::Neg => append(out, b"-"),
        Op::Diff | Op::DiffF => append(out, b"("),
        Op::True => append(out, b"true"),
        Op::False => append(out, b"false"),
        Op::Hole => append(out, b"_"),
        Op::Predicational(s) => append_name(out, &s.name, b"{"),
        Op::Not => append(out, b"!"),
        Op::Forall(x) => append_between(out, b"\\forall ", x, b" "),
        Op::Exists(x) => append_between(out, b"\\exists ", x, b" "),
        Op::Box => append(out, b"["),
        Op::Dia => append(out, b"<"),
        Op::Const(s) => append_name(out, &s.name, b";"),
        Op::Assign(v) => append_variable(out, v, b":=", b"':="),
        Op::Any(x) => append_name(out, x, b":=*;"),
        Op::Test => append(out, b"?"),
        Op::System(_) | Op::Loop => append(out, b"{"),
        _ => append(out, b""),
    }
}

/// Appends a variable's name, and behind it the first of the texts, or the other where it is primed.
pub(crate) fn append_variable(
    out: &mut Vec<u8>,
    v: &Var,
    plain: &[u8],
    primed: &[u8],
) -> Result<(), PrintFault>
    ensures { Appends out.old.items out.new.items (v.now.name ++ (if v.now.primed then primed.now else plain.now)) result }
{
    append_name(out, &v.name, if v.primed { primed } else { plain })
}

pub(crate) fn append_dot(out: &mut Vec<u8>, n: u8) -> Result<(), PrintFault>
    ensures { Appends out.old.items out.new.items (codes "._" ++ decimal n) result }
{
    append(out, b"._")?;
    append_decimal(out, u128::from(n))
}

/// What stands between two kids.
pub(crate) fn between(op: &Op) -> &'static [u8]
    ensures { result.now ≡ spell (between op.now) }
{
    match op {
        Op::Equiv => b" <-> ",
        Op::Imply => b" -> ",
        Op::Or => b"|",
        Op::And => b"&",
        Op::Eq => b"=",
        Op::Ne => b"!=",
        Op::Ge => b">=",
        Op::Gt => b">",
        Op::Le => b"<=",
        Op::Lt => b"<",
        Op::Box => b"]",
        Op::Dia => b">",
        Op::Add => b"+",
        Op::Sub => b"-",
        Op::Mul => b"*",
        Op::Div => b"/",
        Op::Pow => b"^",
        Op::Choice => b"++",
        Op::Neg | Op::Not | Op::Forall(_) | Op::Exists(_) | Op::Seq => b"",
        _ => b",",
    }
}

/// Appends what stands behind the kids.
pub(crate) fn close(out: &mut Vec<u8>, op: &Op) -> Result<(), PrintFault>
    ensures { Appends out.old.items out.new.items (spell (closing op.now)) result }
{
    match op {
        Op::UnitFun(s) | Op::UnitPred(s) => unit_brackets(out, &s.taboo),
        Op::Apply(_) | Op::Holds(_) => append(out, b")"),
        Op::Diff | Op::DiffF => append(out, b")'"),
        Op::Predicational(_) | Op::System(_) => append(out, b"}"),
        Op::Assign(_) | Op::Test => append(out, b";"),
        Op::Loop => append(out, b"}*"),
        _ => append(out, b""),
    }
}

/// Appends the brackets of a unit symbol with this taboo.
pub(crate) fn unit_brackets(out: &mut Vec<u8>, taboo: &Option<Name>) -> Result<(), PrintFault>
    ensures { Appends out.old.items out.new.items (spell (unit_brackets taboo.now)) result }
{
    match taboo {
        None => append(out, b"(||)"),
        Some(y) => append_between(out, b"(|", y, b"|)"),
    }
}

/// Appends the brackets of an ODE constant with this taboo.
pub(crate) fn ode_brackets(out: &mut Vec<u8>, taboo: &Option<Name>) -> Result<(), PrintFault>
    ensures { Appends out.old.items out.new.items (spell (ode_brackets taboo.now)) result }
{
    match taboo {
        None => append(out, b""),
        Some(y) => append_between(out, b"{|", y, b"|}"),
    }
}

/// A system's items.
pub(crate) fn items_of(op: &Op) -> Option<&Items>
    ensures { MatchOption result (items_of op.now ≡ None) (λ items. op.now ≡ System items.now) }
{
    match op {
        Op::System(items) => Some(items),
        _ => None,
    }
}

pub(crate) fn is_true(op: &Op) -> bool
    ensures { result ≡ is_true op.now }
{
    matches!(op, Op::True)
}

pub(crate) fn open_bracket(inside: bool, sort: Sort) -> &'static [u8]
    ensures { result.now ≡ (if inside then spell (open_bracket sort ∷ []) else []) }
{
    if !inside {
        return b"";
    }
    match sort {
        Sort::Term | Sort::Formula => b"(",
        Sort::Program => b"{",
    }
}

pub(crate) fn close_bracket(inside: bool, sort: Sort) -> &'static [u8]
    ensures { result.now ≡ (if inside then spell (close_bracket sort ∷ []) else []) }
{
    if !inside {
        return b"";
    }
    match sort {
        Sort::Term | Sort::Formula => b")",
        Sort::Program => b"}",
    }
}
