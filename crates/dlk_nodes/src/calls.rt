//! Operators by their words and details.
ghost use Rattle.std.specs.Prelude.{◌≡◌, ◌≢◌, ◌++◌, ℕ, List, Option, IfOk, IfErr};
ghost use Rattle.dlk_store.specs.declared.Id.{Id as TreeId};
ghost use Rattle.dlk_tree.specs.declared.op.Op.{Op as TreeOp};
ghost use Rattle.dlk_lines.specs.Parts.{Lacks};
ghost use Rattle.dlk_nodes.specs.Parts.{IsBehind};
ghost use Rattle.dlk_nodes.specs.Words.{NoDetail, call_of};
ghost use Rattle.dlk_nodes.specs.Nodes.{IsRead};
ghost use Rattle.dlk_nodes.specs.Details.{SpellsUnit, IsCall};
ghost use Rattle.dlk_lines.specs.Read.{IsLineFaultOf};

use crate::details::{dot, name, symbol, unit, variable};
use crate::items::items;
use crate::literals::literal;
use crate::numbers::nodes_behind;
use crate::parts::front_of;
use crate::table::NodeTable;
use crate::words::plain_op;
use dlk_lines::LineFault;
use dlk_store::Id;
use dlk_tree::{Kind, Op, Sym};
use std::alloc::Global;

/// The unit symbol of this kind that the text spells.
fn unit_symbol(alloc: Global, kind: Kind, text: &[u8]) -> Result<Sym, LineFault>
    ensures found { IfOk result (λ s. SpellsUnit text.now (s.name, s.taboo)) }
    ensures kind { IfOk result (λ s. s ≡ record { kind = kind; name = s.name; arity = 0; taboo = s.taboo }) }
    ensures fault { IfErr result (IsLineFaultOf ((u : List ℕ × Option (List ℕ)) → ¬ SpellsUnit text.now u)) }
{
    let (name, taboo) = unit(alloc, text)?;
    Ok(Sym {
        kind,
        name,
        arity: 0,
        taboo,
    })
}

/// The operator of a word with a detail, over so many kids.
fn call(alloc: Global, word: &str, detail: &[u8], kids: usize) -> Result<Op, LineFault>
    ensures found { IfOk result (IsCall word.now detail.now kids) }
    ensures fault { IfErr result (IsLineFaultOf ((op : TreeOp) → ¬ IsCall word.now detail.now kids op)) }
{
    match word {
        "system" => Ok(Op::System(items(alloc, detail)?)),
        "assign" => Ok(Op::Assign(variable(alloc, detail)?)),
        "var" => Ok(Op::Variable(variable(alloc, detail)?)),
        "app" => Ok(Op::Apply(symbol(alloc, Kind::Func, detail, kids)?)),
        "forall" => Ok(Op::Forall(name(alloc, detail)?)),
        "num" => Ok(Op::Number(literal(alloc, detail)?)),
        "exists" => Ok(Op::Exists(name(alloc, detail)?)),
        "dot" => Ok(Op::Dot(dot(detail)?)),
        "ufun" => Ok(Op::UnitFun(unit_symbol(alloc, Kind::UnitFunc, detail)?)),
        "upred" => Ok(Op::UnitPred(unit_symbol(alloc, Kind::UnitPred, detail)?)),
        "holds" => Ok(Op::Holds(symbol(alloc, Kind::Pred, detail, kids)?)),
        "quant" => Ok(Op::Predicational(symbol(alloc, Kind::Quant, detail, 0)?)),
        "const" => Ok(Op::Const(symbol(alloc, Kind::Prog, detail, 0)?)),
        "any" => Ok(Op::Any(name(alloc, detail)?)),
        _ => Err(LineFault::Malformed),
    }
}

/// The operator of a word that wants a detail, and the nodes of its kids. Behind the word comes nothing or a space.
fn with_detail(
    alloc: Global,
    word: &str,
    behind: &[u8],
    table: &NodeTable,
) -> Result<(Op, Vec<Id>), LineFault>
    requires word { Lacks word.now 32 }
    requires detail { (op : TreeOp) → call_of op ≢ (word.now, NoDetail) }
    requires behind { IsBehind behind.now }
    ensures found { IfOk result (λ p. IsRead table.now (word.now ++ behind.now) p.0 p.1.items) }
    ensures fault { IfErr result (IsLineFaultOf ((op : TreeOp) (kids : List TreeId) → ¬ IsRead table.now (word.now ++ behind.now) op kids)) }
{
    let Some((_, text)) = behind.split_first() else {
        return Err(LineFault::Malformed);
    };
    let (detail, behind) = front_of(text);
    let kids = nodes_behind(alloc, behind, table)?;
    let op = call(alloc, word, detail, kids.len())?;
    Ok((op, kids))
}

/// The operator that the text says, and the nodes of its kids.
pub(crate) fn op_and_kids(
    alloc: Global,
    text: &[u8],
    table: &NodeTable,
) -> Result<(Op, Vec<Id>), LineFault>
    ensures found { IfOk result (λ p. IsRead table.now text.now p.0 p.1.items) }
    ensures fault { IfErr result (IsLineFaultOf ((op : TreeOp) (kids : List TreeId) → ¬ IsRead table.now text.now op kids)) }
{
    let (word, behind) = front_of(text);
    if let Some(op) = plain_op(word) {
        let kids = nodes_behind(alloc, behind, table)?;
        return Ok((op, kids));
    }
    let Ok(word) = str::from_utf8(word) else {
        return Err(LineFault::Malformed);
    };
    with_detail(alloc, word, behind, table)
}
