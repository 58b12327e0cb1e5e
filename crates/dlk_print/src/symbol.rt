//! The texts of variables and symbols by themselves.
ghost use Rattle.std.specs.Prelude.{◌≡◌, ◌++◌, OnOk};
ghost use Rattle.dlk_grammar.specs.Shown.{spell, variable, unit_brackets, ode_brackets};
ghost use Rattle.dlk_grammar.specs.Symbols.{dots, shown_symbol};
ghost use Rattle.dlk_print.specs.Printed.{Begun, Appends};

use crate::appending::{append, append_between, append_name};
use crate::fault::PrintFault;
use crate::printing::gap;
use crate::style::{append_dot, append_variable, ode_brackets, unit_brackets};
use dlk_tree::{Kind, Sym, Var};

/// Appends a variable, as `x` or `x'`. Without memory a prefix of it was appended.
///
/// # Errors
///
/// `Memory` alone.
pub fn variable_text(v: &Var, out: &mut Vec<u8>) -> Result<(), PrintFault>
    ensures ok { OnOk result (out.new.items ≡ out.old.items ++ spell (variable v.now)) }
    ensures memory { Begun out.old.items out.new.items (spell (variable v.now)) }
{
    append_variable(out, v, b"", b"'")
}

/// Appends a symbol over its argument dots, as it stands on the left of a substitution's pair: `f(._0)`, `p(||)`, `C{_}`, `a;`,
/// `{c}`. Without memory a prefix of it was appended.
///
/// # Errors
///
/// `Memory` alone.
pub fn symbol_text(s: &Sym, out: &mut Vec<u8>) -> Result<(), PrintFault>
    ensures ok { OnOk result (out.new.items ≡ out.old.items ++ spell (shown_symbol s.now)) }
    ensures memory { Begun out.old.items out.new.items (spell (shown_symbol s.now)) }
{
    match s.kind {
        Kind::Func | Kind::Pred => {
            append_name(out, &s.name, b"")?;
            append_dots(out, s.arity)
        }
        Kind::UnitFunc | Kind::UnitPred => {
            append_name(out, &s.name, b"")?;
            unit_brackets(out, &s.taboo)
        }
        Kind::Quant => append_name(out, &s.name, b"{_}"),
        Kind::Prog => append_name(out, &s.name, b";"),
        Kind::Ode => {
            append_between(out, b"{", &s.name, b"")?;
            ode_brackets(out, &s.taboo)?;
            append(out, b"}")
        }
    }
}

/// Appends so many argument dots in brackets.
fn append_dots(out: &mut Vec<u8>, count: u8) -> Result<(), PrintFault>
    ensures { Appends out.old.items out.new.items (spell (dots count)) result }
{
    append(out, b"(")?;
    for i in 0..count {
        append(out, gap(usize::from(i), b","))?;
        append_dot(out, i)?;
    }
    append(out, b")")
}
