//! The items of a system.
ghost use Rattle.std.specs.Prelude.{◌≡◌, ◌↔◌, ◌&&◌, nat_le, ℕ, length, List, Option, IfOk, IfErr, IsTrue};
ghost use Rattle.dlk_tree.specs.declared.op.OdeItem.{OdeItem as TreeItem};
ghost use Rattle.dlk_tree.specs.Table.{evolved, all_distinct};
ghost use Rattle.dlk_nodes.specs.Fields.{parts_of, Each};
ghost use Rattle.dlk_nodes.specs.Details.{SpellsConstant, SpellsItem, SpellsItems};
ghost use Rattle.dlk_lines.specs.Read.{IsLineFaultOf};

use crate::details::name;
use dlk_lines::{LineFault, cut_at};
use dlk_tree::{Items, Kind, Name, OdeItem, Sym, are_distinct};
use std::alloc::Global;

/// Whether the bytes are these.
fn are(text: &[u8], wanted: &[u8]) -> bool
    ensures { IsTrue result ↔ (text.now ≡ wanted.now) }
{
    text == wanted
}

/// The name and the taboo of a constant that the text spells.
pub(crate) fn constant(alloc: Global, text: &[u8]) -> Result<(Name, Option<Name>), LineFault>
    ensures found { IfOk result (SpellsConstant text.now) }
    ensures fault { IfErr result (IsLineFaultOf ((u : List ℕ × Option (List ℕ)) → ¬ SpellsConstant text.now u)) }
{
    let Some((front, behind)) = cut_at(text, b'{') else {
        return Ok((name(alloc, text)?, None));
    };
    let Some((none, inner)) = cut_at(behind, b'|') else {
        return Err(LineFault::Malformed);
    };
    let Some((taboo, end)) = cut_at(inner, b'|') else {
        return Err(LineFault::Malformed);
    };
    if !none.is_empty() {
        return Err(LineFault::Malformed);
    }
    if !are(end, b"}") {
        return Err(LineFault::Malformed);
    }
    let x = name(alloc, front)?;
    let y = name(alloc, taboo)?;
    Ok((x, Some(y)))
}

/// The item that the text spells.
fn item(alloc: Global, text: &[u8]) -> Result<OdeItem, LineFault>
    ensures found { IfOk result (SpellsItem text.now) }
    ensures fault { IfErr result (IsLineFaultOf ((i : TreeItem) → ¬ SpellsItem text.now i)) }
{
    let Some((front, behind)) = cut_at(text, b'\'') else {
        let (name, taboo) = constant(alloc, text)?;
        return Ok(OdeItem::Const(Sym {
            kind: Kind::Ode,
            name,
            arity: 0,
            taboo,
        }));
    };
    if !behind.is_empty() {
        return Err(LineFault::Malformed);
    }
    Ok(OdeItem::Evolve(name(alloc, front)?))
}

/// The items that the parts of the text between commas spell.
fn each_item(alloc: Global, text: &[u8]) -> Result<Vec<OdeItem>, LineFault>
    ensures found { IfOk result (λ items. Each SpellsItem (parts_of 44 text.now) items.items) }
    ensures fault { IfErr result (IsLineFaultOf ((items : List TreeItem) → ¬ Each SpellsItem (parts_of 44 text.now) items)) }
{
    let mut items = Vec::new(alloc);
    let mut left = text;
    while let Some((part, behind)) = cut_at(left, b',') {
        items.push(item(alloc, part)?)?;
        left = behind;
    }
    items.push(item(alloc, left)?)?;
    Ok(items)
}

/// Whether there are at most 64 items, and no variable is evolved twice.
fn are_few_and_distinct(items: &[OdeItem]) -> bool
    ensures { result ≡ (nat_le (length items.now) 64 && all_distinct (evolved items.now)) }
{
    items.len() <= 64 && are_distinct(items)
}

/// The items of a system that the text spells: 1 to 64, and no variable is evolved twice.
pub(crate) fn items(alloc: Global, text: &[u8]) -> Result<Items, LineFault>
    ensures found { IfOk result (SpellsItems text.now) }
    ensures fault { IfErr result (IsLineFaultOf ((items : List TreeItem) → ¬ SpellsItems text.now items)) }
{
    let items = each_item(alloc, text)?;
    if !are_few_and_distinct(items.as_slice()) {
        return Err(LineFault::Malformed);
    }
    Ok(Items::new(items))
}
