//! The variables and the functions of trees.
ghost use Rattle.std.specs.Prelude.{◌≡◌, [], IfOk, OnOk, All};
ghost use Rattle.dlk_store.specs.Stores.{IsId, tree, kid_trees};
ghost use Rattle.dlk_smt.specs.Smt.{own_variables, own_functions, everywhere, everywhere_in};
ghost use Rattle.dlk_smt.specs.Collected.{Gains};

use dlk_print::PrintFault;
use dlk_store::{Id, Steps, Store};
use dlk_tree::{Name, Op, Var};
use std::alloc::Global;
use std::collections::BTreeSet;
use std::sync::ledger::Ledger;

/// Variables and functions, each once and in order.
#[derive(Drop)]
pub struct Symbols {
    pub variables: BTreeSet<Var>,
    pub functions: BTreeSet<Name>,
}

impl Symbols {
    pub(crate) fn new(alloc: Global) -> Symbols
        ensures variables { result.variables.keys ≡ [] }
        ensures functions { result.functions.keys ≡ [] }
    {
        Symbols {
            variables: BTreeSet::new(alloc),
            functions: BTreeSet::new(alloc),
        }
    }

    /// Adds those of the trees.
    pub(crate) fn add_trees<S: Store, L: Ledger>(
        &mut self,
        store: &S,
        ids: &[Id],
        steps: &mut Steps<L>,
    ) -> Result<(), PrintFault>
        requires { All (IsId (S.trees store.now)) ids.now }
        ensures { let trees = kid_trees (S.trees store.now) ids.now in
            OnOk result (Gains self.old self.new (everywhere_in own_variables trees) (everywhere_in own_functions trees)) }
    {
        let [id, rest @ ..] = ids else {
            return Ok(());
        };
        let node = store.look(*id, steps);
        self.add_own(node.op)?;
        self.add_trees(store, node.kids, steps)?;
        self.add_trees(store, rest, steps)
    }

    /// Adds the operator, if it is one of them.
    fn add_own(&mut self, op: &Op) -> Result<(), PrintFault>
        ensures { OnOk result (Gains self.old self.new (own_variables op.now) (own_functions op.now)) }
    {
        match op {
            Op::Variable(v) => {
                let v = v.clone()?;
                self.variables.insert(v)?;
            }
            Op::Apply(s) => {
                let name = s.name.clone()?;
                self.functions.insert(name)?;
            }
            _ => {}
        }
        Ok(())
    }
}
