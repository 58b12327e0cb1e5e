//! What a text says, as a list in which each operator stands behind its operands.
use dlk_tree::{Items, Name, Op};

/// One operator of a text.
#[derive(Drop)]
pub enum Code {
    /// An operator behind as many operands as it has kids.
    Operator(Op),
    /// A function, or with `holds` a predicate, behind its arguments: the place of its name, its name, their number.
    Call {
        holds: bool,
        at: usize,
        name: Name,
        count: usize,
    },
    /// A system behind its right sides and its domain: the place of its brace, and its items.
    System {
        at: usize,
        items: Items,
    },
    /// Behind a program: the formulas of its `@invariant` come next.
    Notes,
    /// Behind these formulas: their number.
    EndNotes(usize),
}
