//! What may come next in a text of a strategy, and what is open.
ghost use Rattle.std.specs.Prelude.{◌≡◌, ◌∷◌, [], OnOk};
ghost use Rattle.dlk_scripts.specs.Table.{top, without_top, nothing_open};

use std::alloc::{AllocError, Global};
use std::marker::Model;

/// A bracket that is open round strategies.
#[derive(Clone, Copy)]
pub(crate) enum Opening {
    /// `(`
    Group,
    /// `<(`
    Fork,
}

/// What stands behind the parts so far.
#[derive(Clone, Copy)]
pub(crate) enum Mode {
    /// A strategy begins.
    Wants,
    /// The next part of a sequence begins, behind `;`.
    Next,
    /// A name without brackets has come.
    Named,
    /// A part of a sequence has come, with so many repeats.
    After(u8),
    /// The star of so many repeats has come.
    Starred(u8),
    /// An argument begins.
    Argument,
    /// The minus of a place has come.
    Signed,
    /// A number of a place has come.
    Place,
    /// The point of a place has come.
    Pointed,
    /// An argument has come that is no place.
    Argued,
}

/// What a part does to the brackets that are open.
#[derive(Clone, Copy)]
pub(crate) enum Change {
    Keep,
    Open(Opening),
    Close,
}

/// What a part leads to.
#[derive(Clone, Copy)]
pub(crate) struct Turn {
    pub(crate) mode: Mode,
    pub(crate) change: Change,
}

/// The brackets that are open. Contracts see the innermost first.
#[derive(Drop)]
pub(crate) struct Openings {
    items: Vec<Opening>,
}

impl Model for Openings {
    ghost use Rattle.std.specs.Prelude.{List, reverse};
    ghost use Rattle.dlk_scripts.specs.declared.mode.Opening.{Opening as TheOpening};

    ghost Value = { List TheOpening };

    ghost view = { λ o. reverse o.items.items };
}

impl Openings {
    pub(crate) fn new(alloc: Global) -> Self
        ensures { result ≡ [] }
    {
        Openings {
            items: Vec::new(alloc),
        }
    }

    pub(crate) fn is_empty(&self) -> bool
        ensures { result ≡ nothing_open self.now }
    {
        self.items.is_empty()
    }

    /// The innermost.
    pub(crate) fn top(&self) -> Option<Opening>
        ensures { result ≡ top self.now }
    {
        self.items.last().copied()
    }

    pub(crate) fn push(&mut self, opening: Opening) -> Result<(), AllocError>
        ensures { OnOk result (self.new ≡ opening ∷ self.old) }
    {
        self.items.push(opening)?;
        Ok(())
    }

    /// Takes out the innermost, if there is one.
    pub(crate) fn pop(&mut self)
        ensures { self.new ≡ without_top self.old }
    {
        let _ = self.items.pop();
    }
}
