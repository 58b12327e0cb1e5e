//! Tables of variables.
ghost use Rattle.std.specs.Prelude.{◌≡◌, [], Some, None, IfOk, OnOk, OnErr};
ghost use Rattle.std.specs.Option.{option_map};
ghost use Rattle.dlk_vars.specs.Tables.{number_of, numbered, IsTable, Grows};

use crate::fault::VarFault;
use dlk_tree::Var;
use indexmap::IndexSet;
use std::alloc::Global;
use std::marker::Model;

/// A variable's number in its table.
#[derive(Clone, Copy, Debug, PartialEq, Eq, PartialOrd, Ord, Hash)]
pub struct VarNo(pub usize);

/// A table that numbers variables from 0 in order of first use. Contracts see it as their list.
#[derive(Drop)]
pub struct VarTable {
    vars: IndexSet<Var>,
}

impl Model for VarTable {
    ghost use Rattle.std.specs.Prelude.{List};
    ghost use Rattle.dlk_tree.specs.declared.op.Var.{Var};
    ghost use Rattle.dlk_vars.specs.Tables.{IsTable};

    ghost Value = { List Var };

    ghost view = { λ t. t.vars.keys };

    ghost invariant = { λ t. IsTable t.vars.keys };
}

impl VarTable {
    /// A table without variables.
    pub fn new(alloc: Global) -> VarTable
        ensures empty { result ≡ [] }
        ensures table { IsTable result }
    {
        VarTable {
            vars: IndexSet::new(alloc),
        }
    }

    /// The number of the variable, which gets the next one where it has none. Each variable that is there keeps its number.
    ///
    /// # Errors
    ///
    /// `Memory` alone; the table is as it was then.
    pub fn number(&mut self, v: &Var) -> Result<VarNo, VarFault>
        ensures number { IfOk result (λ n. number_of self.new v.now ≡ Some n.0) }
        ensures numbered { OnOk result (self.new ≡ numbered self.old v.now) }
        ensures unchanged { OnErr result (self.new ≡ self.old) }
        ensures new { OnErr result (number_of self.old v.now ≡ None) }
        ensures grows { Grows self.old self.new }
        ensures table { IsTable self.new }
    {
        if let Some(n) = self.find(v) {
            return Ok(n);
        }
        prove!(v.name.is_name());
        let (n, _) = self.vars.insert_full(v.clone()?)?;
        Ok(VarNo(n))
    }

    /// The number of the variable. None comes exactly where it has none.
    pub fn find(&self, v: &Var) -> Option<VarNo>
        ensures number { option_map (λ n. n.0) result ≡ number_of self.now v.now }
        ensures table { IsTable self.now }
    {
        let n = self.vars.get_index_of(v)?;
        Some(VarNo(n))
    }

    /// The variables in order of their numbers.
    pub fn as_slice(&self) -> &[Var]
        ensures vars { result.now ≡ self.now }
        ensures table { IsTable self.now }
    {
        self.vars.as_slice()
    }
}
