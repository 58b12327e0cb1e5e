//! Names and replacements, taken one by one.
ghost use Rattle.std.specs.Prelude.{◌≡◌, List, None, Some, MatchOption, IfOk};
ghost use Rattle.dlk_tree.specs.Trees.{Tree};
ghost use Rattle.dlk_store.specs.Stores.{IsId, tree};
ghost use Rattle.dlk_sequent.specs.Extras.{extra_at, IsKnownExtra};
ghost use Rattle.dlk_match.specs.Matching.{renamed_to, GetsName, GetsReplacement};
ghost use Rattle.dlk_match.specs.Tried.{Tried, id_for};

use dlk_sequent::{Extra, Pair};
use dlk_store::{Id, Steps, Store};
use dlk_tree::{Name, Sym, kind_row, same_sym, sort_of};
use std::alloc::AllocError;
use std::sync::ledger::Ledger;

/// The name that the name gets, if it gets one.
pub(crate) fn new_name<'a>(renames: &'a [(Name, Name)], x: &Name) -> Option<&'a Name>
    ensures { MatchOption result (renamed_to renames.now x.now ≡ None) (λ y. renamed_to renames.now x.now ≡ Some y.now) }
{
    for (name, other) in renames {
        if x == name {
            return Some(other);
        }
    }
    None
}

/// What replaces the symbol, if it has a pair.
fn find(pairs: &[Pair], s: &Sym) -> Option<Id>
    ensures { result ≡ id_for pairs.now s.now }
{
    for pair in pairs {
        if same_sym(s, &pair.sym) {
            return Some(pair.by);
        }
    }
    None
}

/// The name gets this one: it has it already, or has none yet and it comes last. False where it has another one.
pub(crate) fn rename(extra: &mut Extra, x: &Name, y: &Name) -> Result<bool, AllocError>
    ensures matched { IfOk result (λ is. (trees : List Tree) → Tried (GetsName x.now y.now) (extra_at trees extra.old) (extra_at trees extra.new) is) }
    ensures pairs { extra.new.pairs ≡ extra.old.pairs }
{
    if let Some(z) = new_name(extra.renames.as_slice(), x) {
        return Ok(z == y);
    }
    let rename = (x.clone()?, y.clone()?);
    extra.renames.push(rename)?;
    Ok(true)
}

/// The tree replaces the symbol: it does so already, or nothing does yet and the pair comes last. False where another tree does, or the
/// tree is of another sort.
pub(crate) fn replace<S: Store, L: Ledger>(
    store: &S,
    extra: &mut Extra,
    s: &Sym,
    e: Id,
    steps: &mut Steps<L>,
) -> Result<bool, AllocError>
    requires extra { IsKnownExtra (S.trees store.now) extra.old }
    requires e { IsId (S.trees store.now) e }
    ensures matched { IfOk result
        (Tried (GetsReplacement s.now (tree (S.trees store.now) e)) (extra_at (S.trees store.now) extra.old) (extra_at (S.trees store.now) extra.new)) }
    ensures known { IsKnownExtra (S.trees store.now) extra.new }
{
    if sort_of(store.look(e, steps).op) != kind_row(s.kind).sort {
        return Ok(false);
    }
    if let Some(by) = find(extra.pairs.as_slice(), s) {
        return Ok(store.same(by, e));
    }
    let sym = s.clone()?;
    extra.pairs.push(Pair { sym, by: e })?;
    Ok(true)
}
