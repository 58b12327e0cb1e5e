//! The items of a system of the key, and the members of a system.
ghost use Rattle.std.specs.Prelude.{◌≡◌, ◌<◌, ◌≤◌, List, [], ◌∷◌, All, IfOk, MatchOption, length};
ghost use Rattle.dlk_tree.specs.Trees.{Tree, Forest};
ghost use Rattle.dlk_tree.specs.Table.{evolved};
ghost use Rattle.dlk_tree.specs.declared.op.OdeItem.{OdeItem};
ghost use Rattle.dlk_tree.specs.declared.op.Op.TheVariants.{System};
ghost use Rattle.dlk_store.specs.Stores.{IsId, tree, StandsFor};
ghost use Rattle.dlk_sequent.specs.Extras.{extra_at, IsKnownExtra};
ghost use Rattle.dlk_match.specs.Matching.{GetsName, GetsReplacement, system_of};
ghost use Rattle.dlk_match.specs.Members.{members_at, AreWellMade, AreParts, HasNoParts, IsEquation, IsNoEquation, TakingIs, leaving_none, leaving, LeftIs};
ghost use Rattle.dlk_match.specs.Tried.{Tried, HeadIs};

use crate::head::Head;
use crate::taking::{rename, replace};
use dlk_sequent::Extra;
use dlk_store::{Id, Steps, Store, StoreFault};
use dlk_tree::{Items, Name, OdeItem, Op, Sym, count_evolved};
use std::alloc::{AllocError, Global};
use std::sync::ledger::Ledger;

/// Some members of a system: their items, and kids of which the first are their right sides.
#[derive(Clone, Copy)]
pub(crate) struct Members<'a> {
    pub items: &'a [OdeItem],
    pub kids: &'a [Id],
}

/// What comes of items of the key that are to take members.
#[derive(Clone, Copy)]
pub(crate) enum Taking {
    /// They don't take them.
    Fails,
    /// They take them, and no right side is left to match.
    LeavesNone,
    /// They take them, and this right side is left to match.
    Leaves(Id),
}

impl<'a> Members<'a> {
    /// The first members, and the others: at least one each.
    fn split(&self, n: usize) -> Option<(Members<'a>, Members<'a>)>
        requires { length (evolved self.now.items.now) ≤ length self.now.kids.now }
        ensures { (trees : List Tree) → AreWellMade trees self.now → MatchOption result (HasNoParts self.now n) (AreParts trees self.now n) }
    {
        if n == 0 || self.items.len() <= n {
            return None;
        }
        let items = &self.items[..n];
        let front = Members {
            items,
            kids: self.kids,
        };
        let others = Members {
            items: &self.items[n..],
            kids: &self.kids[count_evolved(items)..],
        };
        Some((front, others))
    }

    /// The equation that is the only member, with its right side.
    fn equation(&self) -> Option<(&'a Name, Id)>
        requires { length (evolved self.now.items.now) ≤ length self.now.kids.now }
        ensures { (trees : List Tree) → AreWellMade trees self.now →
            MatchOption result (IsNoEquation trees self.now) (λ found. IsEquation trees self.now found.0.now found.1) }
    {
        if self.items.len() != 1 {
            return None;
        }
        match &self.items[0] {
            OdeItem::Evolve(y) => Some((y, self.kids[0])),
            OdeItem::Const(_) => None,
        }
    }

    /// Their system, with the domain `true`.
    fn system<S: Store>(&self, alloc: Global, store: &mut S) -> Result<Id, StoreFault>
        requires { AreWellMade (S.trees store.old) self.now }
        ensures made { IfOk result (λ id. StandsFor (S.trees store.new) id (system_of (members_at (S.trees store.old) self.now))) }
        ensures grows { S.grows store.old store.new }
    {
        let domain = store.make(alloc, Op::True, &[])?;
        let mut kids = self.kids[..count_evolved(self.items)].to_vec(alloc)?;
        kids.push(domain)?;
        let items = Items::new(self.items.to_vec(alloc)?);
        store.make(alloc, Op::System(items), kids.as_slice())
    }
}

/// The system of the members replaces the constant.
fn take_system<S: Store, L: Ledger>(
    alloc: Global,
    store: &mut S,
    extra: &mut Extra,
    s: &Sym,
    ms: &Members<'_>,
    steps: &mut Steps<L>,
) -> Result<bool, StoreFault>
    requires extra { IsKnownExtra (S.trees store.old) extra.old }
    requires members { AreWellMade (S.trees store.old) ms.now }
    ensures matched { IfOk result (Tried (GetsReplacement s.now (system_of (members_at (S.trees store.old) ms.now))) (extra_at (S.trees store.old) extra.old)
        (extra_at (S.trees store.new) extra.new)) }
    ensures known { IsKnownExtra (S.trees store.new) extra.new }
    ensures grows { S.grows store.old store.new }
{
    let system = ms.system(alloc, store)?;
    Ok(replace(store, extra, s, system, steps)?)
}

/// What a try comes to where it leaves no right side.
fn leaving_none(is: bool) -> Taking
    ensures { result ≡ leaving_none is }
{
    if is {
        Taking::LeavesNone
    } else {
        Taking::Fails
    }
}

/// What a try comes to where it leaves this right side.
fn leaving(is: bool, e: Id) -> Taking
    ensures { result ≡ leaving is e }
{
    if is { Taking::Leaves(e) } else { Taking::Fails }
}

/// An equation takes the only member.
fn take_equation(extra: &mut Extra, x: &Name, ms: &Members<'_>) -> Result<Taking, AllocError>
    requires { length (evolved ms.now.items.now) ≤ length ms.now.kids.now }
    ensures matched { IfOk result (λ taking. (trees : List Tree) → AreWellMade trees ms.now →
        TakingIs (OdeItem.Evolve x.now ∷ []) (members_at trees ms.now) trees (extra_at trees extra.old) (extra_at trees extra.new) taking) }
    ensures pairs { extra.new.pairs ≡ extra.old.pairs }
{
    let Some((y, e)) = ms.equation() else {
        return Ok(Taking::Fails);
    };
    Ok(leaving(rename(extra, x, y)?, e))
}

/// An equation takes the first member, and a constant the others.
fn take_first<S: Store, L: Ledger>(
    alloc: Global,
    store: &mut S,
    extra: &mut Extra,
    x: &Name,
    s: &Sym,
    ms: &Members<'_>,
    steps: &mut Steps<L>,
) -> Result<Taking, StoreFault>
    requires extra { IsKnownExtra (S.trees store.old) extra.old }
    requires members { AreWellMade (S.trees store.old) ms.now }
    ensures matched { IfOk result (TakingIs (OdeItem.Evolve x.now ∷ OdeItem.Const s.now ∷ []) (members_at (S.trees store.old) ms.now) (S.trees store.new)
        (extra_at (S.trees store.old) extra.old) (extra_at (S.trees store.new) extra.new)) }
    ensures known { IsKnownExtra (S.trees store.new) extra.new }
    ensures grows { S.grows store.old store.new }
{
    let Some((first, others)) = ms.split(1) else {
        return Ok(Taking::Fails);
    };
    let Some((y, e)) = first.equation() else {
        return Ok(Taking::Fails);
    };
    if !rename(extra, x, y)? {
        return Ok(Taking::Fails);
    }
    let is = take_system(alloc, store, extra, s, &others, steps)?;
    Ok(leaving(is, e))
}

/// A constant takes all members but the last, and an equation takes that.
fn take_last<S: Store, L: Ledger>(
    alloc: Global,
    store: &mut S,
    extra: &mut Extra,
    s: &Sym,
    x: &Name,
    ms: &Members<'_>,
    steps: &mut Steps<L>,
) -> Result<Taking, StoreFault>
    requires extra { IsKnownExtra (S.trees store.old) extra.old }
    requires members { AreWellMade (S.trees store.old) ms.now }
    ensures matched { IfOk result (TakingIs (OdeItem.Const s.now ∷ OdeItem.Evolve x.now ∷ []) (members_at (S.trees store.old) ms.now) (S.trees store.new)
        (extra_at (S.trees store.old) extra.old) (extra_at (S.trees store.new) extra.new)) }
    ensures known { IsKnownExtra (S.trees store.new) extra.new }
    ensures grows { S.grows store.old store.new }
{
    let Some((others, last)) = ms.split(ms.items.len().saturating_sub(1)) else {
        return Ok(Taking::Fails);
    };
    let Some((y, e)) = last.equation() else {
        return Ok(Taking::Fails);
    };
    if !take_system(alloc, store, extra, s, &others, steps)? {
        return Ok(Taking::Fails);
    }
    Ok(leaving(rename(extra, x, y)?, e))
}

/// A constant takes the first member, and another the others.
fn take_both<S: Store, L: Ledger>(
    alloc: Global,
    store: &mut S,
    extra: &mut Extra,
    s: &Sym,
    t: &Sym,
    ms: &Members<'_>,
    steps: &mut Steps<L>,
) -> Result<Taking, StoreFault>
    requires extra { IsKnownExtra (S.trees store.old) extra.old }
    requires members { AreWellMade (S.trees store.old) ms.now }
    ensures matched { IfOk result (TakingIs (OdeItem.Const s.now ∷ OdeItem.Const t.now ∷ []) (members_at (S.trees store.old) ms.now) (S.trees store.new)
        (extra_at (S.trees store.old) extra.old) (extra_at (S.trees store.new) extra.new)) }
    ensures known { IsKnownExtra (S.trees store.new) extra.new }
    ensures grows { S.grows store.old store.new }
{
    let Some((first, others)) = ms.split(1) else {
        return Ok(Taking::Fails);
    };
    if !take_system(alloc, store, extra, s, &first, steps)? {
        return Ok(Taking::Fails);
    }
    let is = take_system(alloc, store, extra, t, &others, steps)?;
    Ok(leaving_none(is))
}

/// One item takes all members.
fn take_by_one<S: Store, L: Ledger>(
    alloc: Global,
    store: &mut S,
    extra: &mut Extra,
    item: &OdeItem,
    ms: &Members<'_>,
    steps: &mut Steps<L>,
) -> Result<Taking, StoreFault>
    requires extra { IsKnownExtra (S.trees store.old) extra.old }
    requires members { AreWellMade (S.trees store.old) ms.now }
    ensures matched { IfOk result (TakingIs (item.now ∷ []) (members_at (S.trees store.old) ms.now) (S.trees store.new) (extra_at (S.trees store.old) extra.old)
        (extra_at (S.trees store.new) extra.new)) }
    ensures known { IsKnownExtra (S.trees store.new) extra.new }
    ensures grows { S.grows store.old store.new }
{
    match item {
        OdeItem::Const(s) => Ok(leaving_none(take_system(alloc, store, extra, s, ms, steps)?)),
        OdeItem::Evolve(x) => Ok(take_equation(extra, x, ms)?),
    }
}

/// Two items take all members.
fn take_by_two<S: Store, L: Ledger>(
    alloc: Global,
    store: &mut S,
    extra: &mut Extra,
    first: &OdeItem,
    second: &OdeItem,
    ms: &Members<'_>,
    steps: &mut Steps<L>,
) -> Result<Taking, StoreFault>
    requires extra { IsKnownExtra (S.trees store.old) extra.old }
    requires members { AreWellMade (S.trees store.old) ms.now }
    ensures matched { IfOk result (TakingIs (first.now ∷ second.now ∷ []) (members_at (S.trees store.old) ms.now) (S.trees store.new)
        (extra_at (S.trees store.old) extra.old) (extra_at (S.trees store.new) extra.new)) }
    ensures known { IsKnownExtra (S.trees store.new) extra.new }
    ensures grows { S.grows store.old store.new }
{
    match first {
        OdeItem::Evolve(x) => match second {
            OdeItem::Const(s) => take_first(alloc, store, extra, x, s, ms, steps),
            OdeItem::Evolve(_) => Ok(Taking::Fails),
        },
        OdeItem::Const(s) => match second {
            OdeItem::Evolve(x) => take_last(alloc, store, extra, s, x, ms, steps),
            OdeItem::Const(t) => take_both(alloc, store, extra, s, t, ms, steps),
        },
    }
}

/// The items of the key take all members.
fn take_members<S: Store, L: Ledger>(
    alloc: Global,
    store: &mut S,
    extra: &mut Extra,
    items: &[OdeItem],
    ms: &Members<'_>,
    steps: &mut Steps<L>,
) -> Result<Taking, StoreFault>
    requires extra { IsKnownExtra (S.trees store.old) extra.old }
    requires members { AreWellMade (S.trees store.old) ms.now }
    ensures matched { IfOk result (TakingIs items.now (members_at (S.trees store.old) ms.now) (S.trees store.new) (extra_at (S.trees store.old) extra.old)
        (extra_at (S.trees store.new) extra.new)) }
    ensures known { IsKnownExtra (S.trees store.new) extra.new }
    ensures grows { S.grows store.old store.new }
{
    match items {
        [item] => take_by_one(alloc, store, extra, item, ms, steps),
        [first, second] => take_by_two(alloc, store, extra, first, second, ms, steps),
        _ => Ok(Taking::Fails),
    }
}

/// What is left to match of a system with this domain.
fn left(alloc: Global, taking: Taking, domain: Id) -> Result<Head, AllocError>
    ensures { IfOk result (LeftIs taking domain) }
{
    match taking {
        Taking::Fails => Ok(Head::Refused),
        Taking::LeavesNone => Ok(Head::Left(vec![in alloc; domain]?)),
        Taking::Leaves(e) => Ok(Head::Left(vec![in alloc; e, domain]?)),
    }
}

/// A system of the key with these items.
pub(crate) fn match_system<S: Store, L: Ledger>(
    alloc: Global,
    store: &mut S,
    extra: &mut Extra,
    items: &[OdeItem],
    target: Id,
    steps: &mut Steps<L>,
) -> Result<Head, StoreFault>
    requires extra { IsKnownExtra (S.trees store.old) extra.old }
    requires target { IsId (S.trees store.old) target }
    ensures matched { (keys : Forest) → IfOk result (HeadIs (System items.now) keys (tree (S.trees store.old) target) (S.trees store.new)
        (extra_at (S.trees store.old) extra.old) (extra_at (S.trees store.new) extra.new)) }
    ensures known { IsKnownExtra (S.trees store.new) extra.new }
    ensures grows { S.grows store.old store.new }
{
    let node = store.look(target, steps);
    let Op::System(there) = node.op else {
        return Ok(Head::Refused);
    };
    let there = there.clone()?;
    let kids = node.kids.to_vec(alloc)?;
    let ms = Members {
        items: there.items(),
        kids: kids.as_slice(),
    };
    let taking = take_members(alloc, store, extra, items, &ms, steps)?;
    Ok(left(alloc, taking, kids[kids.len() - 1])?)
}
