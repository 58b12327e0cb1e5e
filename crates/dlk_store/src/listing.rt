//! Sets of variables, listed.
ghost use Rattle.std.specs.Prelude.{◌≡◌};

use dlk_tree::Var;
use std::marker::Model;

/// One of the three sets of variables of a tree (Platzer 2017, section on static semantics).
#[derive(Clone, Copy, Debug, PartialEq, Eq)]
pub enum Which {
    /// What the tree reads.
    Free,
    /// What the tree may bind.
    Bound,
    /// What each run of the program writes; none in a term or a formula.
    Must,
}

/// Variables in a row, which contracts see as their list.
#[derive(Drop, Debug)]
pub struct Vars {
    vars: Vec<Var>,
}

impl Model for Vars {
    ghost use Rattle.std.specs.Prelude.{List};
    ghost use Rattle.dlk_tree.specs.declared.op.Var.{Var};

    ghost Value = { List Var };

    ghost view = { λ s. s.vars.items };
}

impl Vars {
    /// The variables of a vector, which takes no memory.
    pub fn new(vars: Vec<Var>) -> Vars
        ensures { result ≡ vars.items }
    {
        Vars { vars }
    }

    /// The variables as a vector, which takes no memory.
    pub fn into_vec(self) -> Vec<Var>
        ensures { result.items ≡ self }
    {
        self.vars
    }

    /// The variables in order.
    pub fn as_slice(&self) -> &[Var]
        ensures { result.now ≡ self.now }
    {
        self.vars.as_slice()
    }
}

/// A set of variables: its members, or with `all_but` the variables that aren't members, in order of name bytes and the
/// unprimed before the primed.
#[derive(Drop, Debug)]
pub struct Listing {
    pub all_but: bool,
    pub vars: Vars,
}
