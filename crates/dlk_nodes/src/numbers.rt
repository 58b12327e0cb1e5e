//! Items by their numbers in a text.
ghost use Rattle.std.specs.Prelude.{◌≡◌, ◌==◌, IfOk, IfErr, MatchOption, List};
ghost use Rattle.dlk_store.specs.declared.Id.{Id as TreeId};
ghost use Rattle.dlk_lines.specs.Spelled.{Names, NamesEach};
ghost use Rattle.dlk_nodes.specs.Fields.{parts_of, Each};
ghost use Rattle.dlk_lines.specs.Read.{IsLineFaultOf};

use crate::table::NodeTable;
use dlk_lines::{LineFault, number, number_before};
use dlk_store::Id;
use std::alloc::Global;

/// The node that the text is the number of.
pub(crate) fn node_numbered(text: &[u8], table: &NodeTable) -> Option<Id>
    ensures { MatchOption result ((id : TreeId) → ¬ Names table.now text.now id) (Names table.now text.now) }
{
    let number = number(text)?;
    table.node(number)
}

/// The nodes that the fields of a text are the numbers of.
fn nodes_numbered(alloc: Global, text: &[u8], table: &NodeTable) -> Result<Vec<Id>, LineFault>
    ensures found { IfOk result (λ ids. Each (Names table.now) (parts_of 32 text.now) ids.items) }
    ensures fault { IfErr result (IsLineFaultOf ((ids : List TreeId) → ¬ Each (Names table.now) (parts_of 32 text.now) ids)) }
{
    let mut ids = Vec::new(alloc);
    let mut left = text;
    while let Some((number, behind)) = number_before(left, b' ') {
        let Some(id) = table.node(number) else {
            return Err(LineFault::Malformed);
        };
        ids.push(id)?;
        left = behind;
    }
    let Some(id) = node_numbered(left, table) else {
        return Err(LineFault::Malformed);
    };
    ids.push(id)?;
    Ok(ids)
}

/// The nodes whose numbers stand in the text, each behind a space.
pub(crate) fn nodes_behind(
    alloc: Global,
    text: &[u8],
    table: &NodeTable,
) -> Result<Vec<Id>, LineFault>
    ensures found { IfOk result (λ ids. NamesEach table.now text.now ids.items) }
    ensures fault { IfErr result (IsLineFaultOf ((ids : List TreeId) → ¬ NamesEach table.now text.now ids)) }
{
    let Some((space, fields)) = text.split_first() else {
        return Ok(Vec::new(alloc));
    };
    if !is_space(*space) {
        return Err(LineFault::Malformed);
    }
    let ids = nodes_numbered(alloc, fields, table)?;
    Ok(ids)
}

fn is_space(b: u8) -> bool
    ensures { result ≡ (b == 32) }
{
    b == b' '
}
