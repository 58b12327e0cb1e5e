//! Sets of symbols.
ghost use Rattle.std.specs.Prelude.{◌≡◌, ◌||◌, [], OnOk};
ghost use Rattle.std.specs.List.{list_any};
ghost use Rattle.dlk_tree.specs.Tests.{sym_eq};
ghost use Rattle.dlk_tree.specs.declared.op.Sym.{Sym as TheSym};

use dlk_tree::Sym;
use std::alloc::{AllocError, Global};
use std::collections::BTreeSet;
use std::marker::Model;

/// A set of symbols. Contracts see it as their list.
#[derive(Drop)]
pub(crate) struct Symbols {
    set: BTreeSet<Sym>,
}

impl Model for Symbols {
    ghost use Rattle.std.specs.Prelude.{List};
    ghost use Rattle.dlk_tree.specs.declared.op.Sym.{Sym};

    ghost Value = { List Sym };

    ghost view = { λ s. s.set.keys };
}

impl Symbols {
    pub fn new(alloc: Global) -> Symbols
        ensures { result ≡ [] }
    {
        Symbols {
            set: BTreeSet::new(alloc),
        }
    }

    /// Whether the symbol is in the set.
    pub fn has(&self, s: &Sym) -> bool
        ensures { result ≡ list_any (sym_eq s.now) self.now }
    {
        self.set.contains(s)
    }

    /// The symbol is in the set from now on.
    pub fn insert(&mut self, s: &Sym) -> Result<(), AllocError>
        ensures { OnOk result ((t : TheSym) → list_any (sym_eq t) self.new ≡ (list_any (sym_eq t) self.old || sym_eq t s.now)) }
    {
        self.set.insert(s.clone()?)?;
        Ok(())
    }
}
