//! The symbols of variables and of functions.
ghost use Rattle.std.specs.Prelude.{◌≡◌, ◌++◌, OnOk, codes, if◌then◌else◌};
ghost use Rattle.dlk_tree.specs.Statics.{plain};
ghost use Rattle.dlk_smt.specs.Smt.{variable_symbol, function_symbol};

use dlk_print::{PrintFault, append};
use dlk_tree::{Name, Var};

/// Appends a name between two texts.
fn append_between(
    out: &mut Vec<u8>,
    before: &[u8],
    name: &Name,
    after: &[u8],
) -> Result<(), PrintFault>
    ensures { OnOk result (out.new.items ≡ out.old.items ++ (before.now ++ (name.now ++ after.now))) }
{
    append(out, before)?;
    append(out, name.bytes())?;
    append(out, after)
}

/// What stands behind a variable's name.
fn bar(primed: bool) -> &'static [u8]
    ensures { result.now ≡ (if primed then codes "'|" else codes "|") }
{
    if primed { b"'|" } else { b"|" }
}

/// Appends the symbol of a variable.
pub(crate) fn append_variable(out: &mut Vec<u8>, v: &Var) -> Result<(), PrintFault>
    ensures { OnOk result (out.new.items ≡ out.old.items ++ variable_symbol v.now) }
{
    append_between(out, b"|v.", &v.name, bar(v.primed))
}

/// Appends the symbol of the unprimed variable of this name.
pub(crate) fn append_unprimed(out: &mut Vec<u8>, x: &Name) -> Result<(), PrintFault>
    ensures { OnOk result (out.new.items ≡ out.old.items ++ variable_symbol (plain x.now)) }
{
    append_between(out, b"|v.", x, b"|")
}

/// Appends the symbol of a function.
pub(crate) fn append_function(out: &mut Vec<u8>, g: &Name) -> Result<(), PrintFault>
    ensures { OnOk result (out.new.items ≡ out.old.items ++ function_symbol g.now) }
{
    append_between(out, b"|f.", g, b"|")
}
