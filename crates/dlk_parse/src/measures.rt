//! Where a text is of ill shape, and the sizes and depths of its trees, before a node is made.
ghost use Rattle.std.specs.Prelude.{◌≡◌, ◌≤◌, ◌+◌, ◌++◌, IfOk, OnOk, length};
ghost use Rattle.dlk_parse.specs.Measures.{AreMeasures};
ghost use Rattle.dlk_parse.specs.Stacks.{top, below};
ghost use Rattle.dlk_parse.specs.Measuring.{are_ill, lesser, place_when, over_kids, joined, beside, measure_step};

use dlk_reader::Code;
use dlk_tree::{OdeItem, are_distinct, arity_of, count_evolved};
use std::alloc::{AllocError, Global};

/// What is measured of a tree and of the formulas that stand beside it in the text: the first byte of the least place of
/// ill shape, if there is one, and the tree's size and depth, at most the greatest `u32`.
#[derive(Clone, Copy, Debug)]
pub(crate) struct Measure {
    pub ill: Option<usize>,
    pub size: u32,
    pub depth: u32,
}

/// The measures of the phrases whose code this is, in order.
pub(crate) fn measures(alloc: Global, code: &[Code]) -> Result<Vec<Measure>, AllocError>
    ensures { IfOk result (λ v. AreMeasures code.now v.items) }
{
    let mut stack = Vec::new(alloc);
    for next in code {
        step(&mut stack, next)?;
    }
    Ok(stack)
}

/// Puts the measures of a node in place of those of its kids, which stand last.
fn step(stack: &mut Vec<Measure>, code: &Code) -> Result<(), AllocError>
    ensures { OnOk result (stack.new.items ≡ measure_step stack.old.items code.now) }
{
    match code {
        Code::Operator(op) => join(stack, arity_of(op), None),
        Code::Call { at, count, .. } => join(stack, *count, place_when(*count > 8, *at)),
        Code::System { at, items } => {
            let items = items.items();
            join(
                stack,
                count_evolved(items) + 1,
                place_when(are_ill(items), *at),
            )
        }
        Code::Notes => Ok(()),
        Code::EndNotes(count) => join_notes(stack, *count),
    }
}

fn place_when(ill: bool, at: usize) -> Option<usize>
    ensures { result ≡ place_when ill at }
{
    if ill { Some(at) } else { None }
}

fn join(stack: &mut Vec<Measure>, count: usize, ill: Option<usize>) -> Result<(), AllocError>
    ensures { OnOk result (stack.new.items ≡ joined count ill stack.old.items) }
{
    let at = stack.len().saturating_sub(count);
    let node = over_kids(ill, &stack[at..]);
    stack.truncate(at);
    stack.push(node)?;
    Ok(())
}

/// Adds to a program's ill places those of the formulas that stand beside it.
fn join_notes(stack: &mut Vec<Measure>, count: usize) -> Result<(), AllocError>
    ensures { OnOk result (stack.new.items ≡ below (count + 1) stack.old.items ++ beside (top (count + 1) stack.old.items)) }
{
    let at = stack.len().saturating_sub(count).saturating_sub(1);
    let Some((program, notes)) = stack[at..].split_first() else {
        return Ok(());
    };
    let program = Measure {
        ill: over_kids(program.ill, notes).ill,
        ..*program
    };
    stack.truncate(at);
    stack.push(program)?;
    Ok(())
}

/// The measures of a node over these kids.
fn over_kids(ill: Option<usize>, kids: &[Measure]) -> Measure
    ensures { result ≡ over_kids ill kids.now }
{
    let mut node = Measure {
        ill,
        size: 1,
        depth: 0,
    };
    for kid in kids {
        node = Measure {
            ill: lesser(node.ill, kid.ill),
            size: node.size.saturating_add(kid.size),
            depth: node.depth.max(kid.depth),
        };
    }
    Measure {
        depth: node.depth.saturating_add(1),
        ..node
    }
}

pub(crate) fn lesser(a: Option<usize>, b: Option<usize>) -> Option<usize>
    ensures { result ≡ lesser a b }
{
    match (a, b) {
        (None, b) => b,
        (a, None) => a,
        (Some(a), Some(b)) => Some(a.min(b)),
    }
}

/// Whether a system has more than 64 items, or evolves a variable twice.
fn are_ill(items: &[OdeItem]) -> bool
    ensures { result ≡ are_ill items.now }
{
    items.len() > 64 || !are_distinct(items)
}
