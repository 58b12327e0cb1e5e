//! The details of operators.
ghost use Rattle.std.specs.Prelude.{◌≡◌, ◌≢◌, ℕ, List, Option, None, Err, IfOk, OnOk, IfErr, IsTrue};
ghost use Rattle.dlk_tree.specs.declared.op.Var.{Var as TreeVar};
ghost use Rattle.dlk_tree.specs.Names.{is_between, is_name};
ghost use Rattle.dlk_tree.specs.Table.{is_sym};
ghost use Rattle.dlk_nodes.specs.Details.{SpellsVariable, SpellsDot, SpellsUnit};
ghost use Rattle.dlk_lines.specs.declared.fault.LineFault.TheVariants.{Memory};
ghost use Rattle.dlk_lines.specs.Read.{IsLineFaultOf};

use dlk_lines::{LineFault, cut_at};
use dlk_tree::table::is_sym;
use dlk_tree::{Kind, Name, Sym, Var};
use std::alloc::Global;

/// The name that the text is.
pub(crate) fn name(alloc: Global, text: &[u8]) -> Result<Name, LineFault>
    ensures found { IfOk result (λ name. name ≡ text.now) }
    ensures real { OnOk result (IsTrue (is_name text.now)) }
    ensures fault { IfErr result (IsLineFaultOf (¬ IsTrue (is_name text.now))) }
    ensures memory { result ≡ Err Memory → IsTrue (is_name text.now) }
{
    let name = Name::new(alloc, text)?;
    Ok(name)
}

/// The variable that the text spells: a name, and a prime behind it where it is primed.
pub(crate) fn variable(alloc: Global, text: &[u8]) -> Result<Var, LineFault>
    ensures found { IfOk result (SpellsVariable text.now) }
    ensures fault { IfErr result (IsLineFaultOf ((v : TreeVar) → ¬ SpellsVariable text.now v)) }
    ensures memory { result ≡ Err Memory → (v : TreeVar) × SpellsVariable text.now v }
{
    let Some((front, behind)) = cut_at(text, b'\'') else {
        let name = name(alloc, text)?;
        return Ok(Var::plain(name));
    };
    if !behind.is_empty() {
        return Err(LineFault::Malformed);
    }
    let name = name(alloc, front)?;
    Ok(Var { name, primed: true })
}

/// The name and the taboo of a unit symbol that the text spells.
pub(crate) fn unit(alloc: Global, text: &[u8]) -> Result<(Name, Option<Name>), LineFault>
    ensures found { IfOk result (SpellsUnit text.now) }
    ensures fault { IfErr result (IsLineFaultOf ((u : List ℕ × Option (List ℕ)) → ¬ SpellsUnit text.now u)) }
{
    let Some((front, behind)) = cut_at(text, b'|') else {
        return Ok((name(alloc, text)?, None));
    };
    let Some((taboo, end)) = cut_at(behind, b'|') else {
        return Err(LineFault::Malformed);
    };
    if !end.is_empty() {
        return Err(LineFault::Malformed);
    }
    let x = name(alloc, front)?;
    let y = name(alloc, taboo)?;
    Ok((x, Some(y)))
}

/// Whether the byte is a digit from 0 to 7.
fn is_dot_digit(b: u8) -> bool
    ensures { result ≡ is_between 48 55 b }
{
    b'0' <= b && b <= b'7'
}

/// The number of the argument dot that the text spells, a digit from 0 to 7.
pub(crate) fn dot(text: &[u8]) -> Result<u8, LineFault>
    ensures found { IfOk result (SpellsDot text.now) }
    ensures fault { IfErr result (IsLineFaultOf ((n : ℕ) → ¬ SpellsDot text.now n)) }
    ensures decides { IfErr result (λ why. why ≢ Memory) }
{
    let Some((digit, rest)) = text.split_first() else {
        return Err(LineFault::Malformed);
    };
    if !rest.is_empty() {
        return Err(LineFault::Malformed);
    }
    if !is_dot_digit(*digit) {
        return Err(LineFault::Malformed);
    }
    Ok(*digit - b'0')
}

/// The symbol of this kind, name and arity, without a taboo.
pub(crate) fn symbol(alloc: Global, kind: Kind, text: &[u8], arity: usize) -> Result<Sym, LineFault>
    ensures found { IfOk result (λ s. s ≡ record { kind = kind; name = text.now; arity = arity; taboo = None }) }
    ensures real { IfOk result (λ s. IsTrue (is_sym s)) }
    ensures fault { IfErr result (IsLineFaultOf (¬ IsTrue (is_sym (record { kind = kind; name = text.now; arity = arity; taboo = None })))) }
    ensures memory { result ≡ Err Memory → IsTrue (is_name text.now) }
{
    if arity > 8 {
        return Err(LineFault::Malformed);
    }
    let name = name(alloc, text)?;
    let symbol = Sym {
        kind,
        name,
        arity: arity as u8,
        taboo: None,
    };
    if !is_sym(&symbol) {
        return Err(LineFault::Malformed);
    }
    Ok(symbol)
}
