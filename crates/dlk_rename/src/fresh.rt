//! Whether another name is fresh.
ghost use Rattle.std.specs.Prelude.{◌≡◌, ◌&&◌, ◌||◌, IfOk};
ghost use Rattle.std.specs.List.{list_any};
ghost use Rattle.dlk_tree.specs.Statics.{free};
ghost use Rattle.dlk_store.specs.Stores.{IsId, tree};
ghost use Rattle.dlk_calculus.specs.Rename.{hides_variables, has_hidden_variables, may_rename};

use dlk_store::{Id, Store, StoreFault};
use dlk_tree::{Name, Sym, Var, kind_row};
use std::alloc::{AllocError, Global};

/// Whether the symbol may read variables that aren't written with it.
fn hides_variables(s: &Sym) -> bool
    ensures { result ≡ hides_variables s.now }
{
    !kind_row(s.kind).arguments
}

fn any_is_open(symbols: &[Sym]) -> bool
    ensures { result ≡ list_any hides_variables symbols.now }
{
    symbols.iter().any(|s| hides_variables(s))
}

/// Whether such a symbol occurs in the tree.
fn has_hidden_variables<S: Store>(alloc: Global, store: &S, id: Id) -> Result<bool, StoreFault>
    requires { IsId (S.trees store.now) id }
    ensures { IfOk result (λ some. some ≡ has_hidden_variables (tree (S.trees store.now) id)) }
{
    let symbols = store.symbols(alloc, id)?;
    Ok(any_is_open(&symbols))
}

/// Whether the variable of this name and mark is free in the tree.
fn frees<S: Store>(store: &S, id: Id, name: &Name, primed: bool) -> Result<bool, AllocError>
    requires { IsId (S.trees store.now) id }
    ensures { IfOk result (λ is. is ≡ free (tree (S.trees store.now) id) (record { name = name.now; primed = primed })) }
{
    let name = name.clone()?;
    Ok(store.frees(id, &Var { name, primed }))
}

/// Whether `y` may stand for `x`, bound in a formula with this body: `y`, `y'` and `x'` aren't free there, and no unit symbol,
/// predicational, program constant or ODE constant occurs there.
///
/// # Errors
///
/// `Memory` alone.
pub(crate) fn may_rename<S: Store>(
    alloc: Global,
    store: &S,
    x: &Name,
    y: &Name,
    body: Id,
) -> Result<bool, StoreFault>
    requires { IsId (S.trees store.now) body }
    ensures { IfOk result (λ may. may ≡ may_rename x.now y.now (tree (S.trees store.now) body)) }
{
    let is_taken = frees(store, body, y, false)?
        || frees(store, body, y, true)?
        || frees(store, body, x, true)?
        || has_hidden_variables(alloc, store, body)?;
    Ok(!is_taken)
}
