//! A system whose constants give way to items.
ghost use Rattle.std.specs.Prelude.{◌≡◌, ◌+◌, ◌≤◌, ◌↔◌, ◌++◌, ◌∷◌, [], ◌-◌, IsTrue, OnOk, IfOk, All, Err, Some, List, length, take};
ghost use Rattle.dlk_tree.specs.Table.{are_items, Fits};
ghost use Rattle.dlk_tree.specs.Trees.{Tree, WellMade};
ghost use Rattle.dlk_tree.specs.declared.op.OdeItem.{OdeItem};
ghost use Rattle.dlk_store.specs.Stores.{IsId, tree, kid_trees, sorts_at};
ghost use Rattle.dlk_calculus.specs.Kids.{last};
ghost use Rattle.dlk_calculus.specs.Pairs.{Pair as TreePair, replacement};
ghost use Rattle.dlk_calculus.specs.Captures.{Stays};
ghost use Rattle.dlk_calculus.specs.Subst.{IsAdmissible, SubstAt, members_for, new_members, items_of, kids_of};
ghost use Rattle.dlk_sequent.specs.Substitutions.{pairs_at, AreKnownPairs};
ghost use Rattle.dlk_subst.specs.Counts.{replacement_subtrees, distinct_count};
ghost use Rattle.dlk_subst.specs.Looked.{IsSeen, AreSeen, SeesMore};
ghost use Rattle.dlk_subst.specs.Results.{IsResult, HasNone};
ghost use Rattle.dlk_subst.specs.Splices.{Puts, PutsItem};
ghost use Rattle.dlk_sequent.specs.declared.fault.ApplyFault.TheVariants.{NotAdmissible};

use crate::pairs::{find, keep_admissible};
use crate::seen::{Seen, look_once};
use dlk_sequent::{ApplyFault, Pair};
use dlk_store::{Id, Steps, Store};
use dlk_tree::{Items, Name, OdeItem, Op, Sort, Sym, arity_of, fits};
use std::alloc::{AllocError, Global};
use std::sync::ledger::Ledger;

/// The items of a system that is made, and its kids: a right side for each evolved variable, and last the domain.
#[derive(Drop)]
pub(crate) struct Spliced {
    pub items: Vec<OdeItem>,
    pub kids: Vec<Id>,
}

impl Spliced {
    /// The system of the items, and its kids.
    fn into_parts(self) -> (Op, Vec<Id>)
        ensures system { result.0 ≡ Op.System self.items.items }
        ensures kids { result.1.items ≡ self.kids.items }
    {
        (Op::System(Items::new(self.items)), self.kids)
    }
}

/// The kids before the last.
fn front(kids: &[Id]) -> &[Id]
    ensures { result.now ≡ take (length kids.now - 1) kids.now }
{
    match kids.split_last() {
        Some((_, front)) => front,
        None => kids,
    }
}

impl Spliced {
    /// A constant stays.
    fn put_symbol(&mut self, s: &Sym) -> Result<(), AllocError>
        ensures items { OnOk result (self.new.items.items ≡ self.old.items.items ++ OdeItem.Const s.now ∷ []) }
        ensures kids { OnOk result (self.new.kids.items ≡ self.old.kids.items) }
    {
        self.items.push(OdeItem::Const(s.clone()?))?;
        Ok(())
    }

    /// The items of a system with these kids, and its right sides without the domain.
    fn put_system(&mut self, items: &[OdeItem], kids: &[Id]) -> Result<(), AllocError>
        ensures items { OnOk result (self.new.items.items ≡ self.old.items.items ++ items.now) }
        ensures kids { OnOk result (self.new.kids.items ≡ self.old.kids.items ++ take (length kids.now - 1) kids.now) }
    {
        self.items.extend_from_slice(items)?;
        self.kids.extend_from_slice(front(kids))?;
        Ok(())
    }

    /// What stands for a constant whose replacement has this node.
    fn put_replacement(&mut self, s: &Sym, seen: &Seen<'_>) -> Result<(), AllocError>
        ensures { (trees : List Tree) → All WellMade trees → IsSeen trees seen.now →
            OnOk result (Puts trees (members_for s.now (Some (tree trees seen.now.id))) self.old self.new) }
    {
        match seen.op {
            Op::System(items) => self.put_system(items.items(), seen.kids),
            _ => self.put_symbol(s),
        }
    }

    /// What stands for a constant.
    fn put_constant<'b, S: Store, L: Ledger>(
        &mut self,
        store: &'b S,
        pairs: &[Pair],
        s: &Sym,
        seen: &mut Vec<Seen<'b>>,
        steps: &mut Steps<L>,
    ) -> Result<(), AllocError>
        requires pairs { AreKnownPairs (S.trees store.now) pairs.now }
        requires seen { AreSeen (S.trees store.now) (replacement_subtrees (pairs_at (S.trees store.now) pairs.now)) seen.old.items }
        ensures puts { OnOk result
            (Puts (S.trees store.now) (members_for s.now (replacement (pairs_at (S.trees store.now) pairs.now) s.now)) self.old self.new) }
        ensures sees { SeesMore (S.trees store.now)
            (replacement_subtrees (pairs_at (S.trees store.now) pairs.now)) seen.old.items seen.new.items steps.old steps.new }
    {
        let Some(by) = find(pairs, s) else {
            return self.put_symbol(s);
        };
        let node = look_once(store, seen, by, steps)?;
        self.put_replacement(s, &node)
    }

    /// An evolved variable stays, with the first of these kids as its right side; the others are left.
    fn put_evolved<'a>(&mut self, x: &Name, kids: &'a [Id]) -> Result<&'a [Id], AllocError>
        ensures { (trees : List Tree) (pairs : List TreePair) →
            IfOk result (λ left. PutsItem trees pairs (OdeItem.Evolve x.now) kids.now self.old self.new left.now) }
    {
        self.items.push(OdeItem::Evolve(x.clone()?))?;
        match kids.split_first() {
            Some((side, later)) => {
                self.kids.push(*side)?;
                Ok(later)
            }
            None => Ok(kids),
        }
    }

    /// What stands for an item, whose right side is the first of these kids, if it has one; the others are left.
    fn put<'a, 'b, S: Store, L: Ledger>(
        &mut self,
        store: &'b S,
        pairs: &[Pair],
        item: &OdeItem,
        kids: &'a [Id],
        seen: &mut Vec<Seen<'b>>,
        steps: &mut Steps<L>,
    ) -> Result<&'a [Id], AllocError>
        requires pairs { AreKnownPairs (S.trees store.now) pairs.now }
        requires seen { AreSeen (S.trees store.now) (replacement_subtrees (pairs_at (S.trees store.now) pairs.now)) seen.old.items }
        ensures puts { IfOk result (λ left.
            PutsItem (S.trees store.now) (pairs_at (S.trees store.now) pairs.now) item.now kids.now self.old self.new left.now) }
        ensures sees { SeesMore (S.trees store.now)
            (replacement_subtrees (pairs_at (S.trees store.now) pairs.now)) seen.old.items seen.new.items steps.old steps.new }
    {
        match item {
            OdeItem::Evolve(x) => self.put_evolved(x, kids),
            OdeItem::Const(s) => {
                self.put_constant(store, pairs, s, seen, steps)?;
                Ok(kids)
            }
        }
    }
}

/// The new items of a system, and its new kids made of these. Each replacement is looked at once, however many constants have it.
fn all_spliced<S: Store, L: Ledger>(
    alloc: Global,
    store: &S,
    pairs: &[Pair],
    items: &[OdeItem],
    kids: &[Id],
    steps: &mut Steps<L>,
) -> Result<Spliced, AllocError>
    requires pairs { AreKnownPairs (S.trees store.now) pairs.now }
    requires kids { All (IsId (S.trees store.now)) kids.now }
    requires fits { Fits (Op.System items.now) (sorts_at (S.trees store.now) kids.now) }
    ensures items { IfOk result (λ new.
        new.items.items ≡ items_of (new_members (pairs_at (S.trees store.now) pairs.now) items.now (kid_trees (S.trees store.now) kids.now))) }
    ensures kids { IfOk result (λ new. kid_trees (S.trees store.now) new.kids.items ≡ kids_of (new_members (pairs_at (S.trees store.now) pairs.now) items.now
        (kid_trees (S.trees store.now) kids.now)) (last (kid_trees (S.trees store.now) kids.now))) }
    ensures known { IfOk result (λ new. All (IsId (S.trees store.now)) new.kids.items) }
    ensures cost { IsTrue S.unique → steps.new ≤ steps.old + distinct_count (replacement_subtrees (pairs_at (S.trees store.now) pairs.now)) }
{
    let mut new = Spliced {
        items: Vec::new(alloc),
        kids: Vec::new(alloc),
    };
    let mut seen = Vec::new(alloc);
    let mut left = kids;
    for item in items {
        left = new.put(store, pairs, item, left, &mut seen, steps)?;
    }
    new.kids.extend_from_slice(left)?;
    Ok(new)
}

/// Whether the system has items that a system may have: 1 to 64, and no variable is evolved twice.
fn has_items(alloc: Global, system: &Op) -> Result<bool, AllocError>
    ensures { (items : List OdeItem) → system.now ≡ Op.System items → IfOk result (λ good. IsTrue good ↔ IsTrue (are_items items)) }
{
    let mut sorts = vec![in alloc; Sort::Term; arity_of(system).saturating_sub(1)]?;
    sorts.push(Sort::Formula)?;
    Ok(fits(system, sorts.as_slice()))
}

/// The system over new kids, where a system may have its items and what it binds is admissible for the kids of before.
fn keep_system<S: Store>(
    alloc: Global,
    store: &mut S,
    pairs: &[Pair],
    system: &Op,
    old: &[Id],
    new: &[Id],
) -> Result<Id, ApplyFault>
    requires system { (items : List OdeItem) × (system.now ≡ Op.System items) }
    requires pairs { AreKnownPairs (S.trees store.old) pairs.now }
    requires old { All (IsId (S.trees store.old)) old.now }
    requires new { All (IsId (S.trees store.old)) new.now }
    requires fits { (items : List OdeItem) → system.now ≡ Op.System items → IsTrue (are_items items) → Fits system.now (sorts_at (S.trees store.old) new.now) }
    ensures ok { IfOk result (IsResult (Stays (IsAdmissible (pairs_at (S.trees store.old) pairs.now)) system.now (kid_trees (S.trees store.old) old.now)
        (kid_trees (S.trees store.old) new.now)) (S.trees store.new)) }
    ensures none { result ≡ Err NotAdmissible → HasNone (λ t. Stays (IsAdmissible (pairs_at (S.trees store.old) pairs.now)) system.now
        (kid_trees (S.trees store.old) old.now) (kid_trees (S.trees store.old) new.now) t × WellMade t) }
    ensures grows { S.grows store.old store.new }
{
    if !has_items(alloc, system)? {
        return Err(ApplyFault::NotAdmissible);
    }
    keep_admissible(alloc, store, pairs, system, old, new)
}

/// The system with its new items over its new kids, where a system may have these items and what it binds is admissible for
/// the kids of before.
pub fn splice_at<S: Store, L: Ledger>(
    alloc: Global,
    store: &mut S,
    pairs: &[Pair],
    items: &[OdeItem],
    old: &[Id],
    new: &[Id],
    steps: &mut Steps<L>,
) -> Result<Id, ApplyFault>
    requires pairs { AreKnownPairs (S.trees store.old) pairs.now }
    requires old { All (IsId (S.trees store.old)) old.now }
    requires new { All (IsId (S.trees store.old)) new.now }
    requires fits { Fits (Op.System items.now) (sorts_at (S.trees store.old) new.now) }
    ensures ok { IfOk result (IsResult (SubstAt (pairs_at (S.trees store.old) pairs.now) (Op.System items.now) (kid_trees (S.trees store.old) old.now)
        (kid_trees (S.trees store.old) new.now)) (S.trees store.new)) }
    ensures none { result ≡ Err NotAdmissible → HasNone (λ t. SubstAt (pairs_at (S.trees store.old) pairs.now) (Op.System items.now)
        (kid_trees (S.trees store.old) old.now) (kid_trees (S.trees store.old) new.now) t × WellMade t) }
    ensures grows { S.grows store.old store.new }
    ensures cost { IsTrue S.unique → steps.new ≤ steps.old + distinct_count (replacement_subtrees (pairs_at (S.trees store.old) pairs.now)) }
{
    let spliced = all_spliced(alloc, store, pairs, items, new, steps)?;
    let (system, kids) = spliced.into_parts();
    keep_system(alloc, store, pairs, &system, old, kids.as_slice())
}
