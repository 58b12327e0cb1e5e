//! Variables of a set and symbols of a signature, listed.
ghost use Rattle.std.specs.Prelude.{◌≡◌, IfOk, OnOk};
ghost use Rattle.std.specs.List.Sorted.{IsStrictlySortedBy};
ghost use Rattle.dlk_tree.specs.Listed.{var_cmp, sym_cmp};
ghost use Rattle.dlk_shared.specs.SetTables.{stands_out, AddsWhere};
ghost use Rattle.dlk_shared.specs.Signs.{AddsSymbol};

use dlk_tree::{Sym, Var};
use dlk_vars::{VarFault, VarNo, VarSet};
use std::alloc::{AllocError, Global};
use std::collections::BTreeSet;

/// Adds the variable of this number if it stands out: if it is in the set where the variables without a number aren't, or the other way round.
pub fn list_var(listed: &mut BTreeSet<Var>, set: &VarSet, v: &Var, n: usize) -> Result<(), VarFault>
    ensures { OnOk result (AddsWhere (stands_out set.now n) v.now listed.old.keys listed.new.keys) }
{
    if set.has(VarNo(n)) != set.has_others() {
        listed.insert(v.clone()?)?;
    }
    Ok(())
}

/// The variables in order.
pub fn vars_in_order(alloc: Global, vars: BTreeSet<Var>) -> Result<Vec<Var>, AllocError>
    ensures items { IfOk result (λ v. v.items ≡ vars.keys) }
    ensures ordered { IsStrictlySortedBy var_cmp vars.keys }
{
    vars.into_iter().collect(alloc)
}

/// Adds the symbol if it is wanted.
pub fn list_symbol(listed: &mut BTreeSet<Sym>, s: &Sym, wanted: bool) -> Result<(), VarFault>
    ensures { OnOk result (AddsSymbol wanted s.now listed.old.keys listed.new.keys) }
{
    if wanted {
        listed.insert(s.clone()?)?;
    }
    Ok(())
}

/// The symbols in order.
pub fn symbols_in_order(alloc: Global, syms: BTreeSet<Sym>) -> Result<Vec<Sym>, AllocError>
    ensures items { IfOk result (λ v. v.items ≡ syms.keys) }
    ensures ordered { IsStrictlySortedBy sym_cmp syms.keys }
{
    syms.into_iter().collect(alloc)
}
