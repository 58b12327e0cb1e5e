//! Sets of variables on the two variables of a name.
ghost use Rattle.std.specs.Prelude.{◌≡◌};
ghost use Rattle.dlk_tree.specs.Statics.{just, plain, with_prime, all_but, free_in_items, bound_in_items, must_in_items};
ghost use Rattle.dlk_plain.specs.Sets.{on, at, empty, full, union, meet, minus, primed_too, members_are};

use dlk_tree::{Name, OdeItem, Var};

/// Whether `x`, and whether `x'`, is in a set, for some name `x`.
#[derive(Clone, Copy)]
pub struct Two {
    pub plain: bool,
    pub prime: bool,
}

/// Whether the two variables of a name are in each of the three sets of a tree.
#[derive(Clone, Copy)]
pub struct Members {
    pub free: Two,
    pub bound: Two,
    pub must: Two,
}

impl Two {
    /// Whether the variable with the prime, or the one without, is in the set.
    pub fn at(self, primed: bool) -> bool
        ensures { result ≡ at self primed }
    {
        if primed { self.prime } else { self.plain }
    }

    /// What is in one of the two sets.
    pub fn either(self, other: Two) -> Two
        ensures { result ≡ union self other }
    {
        Two {
            plain: self.plain || other.plain,
            prime: self.prime || other.prime,
        }
    }

    /// What is in both sets.
    pub fn both(self, other: Two) -> Two
        ensures { result ≡ meet self other }
    {
        Two {
            plain: self.plain && other.plain,
            prime: self.prime && other.prime,
        }
    }

    /// What is in this set and not in the other.
    pub fn without(self, other: Two) -> Two
        ensures { result ≡ minus self other }
    {
        Two {
            plain: self.plain && !other.plain,
            prime: self.prime && !other.prime,
        }
    }

    /// The set with `x'` where it has `x`.
    pub fn and_primes(self) -> Two
        ensures { result ≡ primed_too self }
    {
        Two {
            plain: self.plain,
            prime: self.prime || self.plain,
        }
    }
}

/// The empty set.
pub fn none() -> Two
    ensures { result ≡ empty }
{
    Two {
        plain: false,
        prime: false,
    }
}

/// All variables.
pub fn all() -> Two
    ensures { result ≡ full }
{
    Two {
        plain: true,
        prime: true,
    }
}

/// The variable alone.
pub fn just(v: &Var, name: &[u8]) -> Two
    ensures { result ≡ on name.now (just v.now) }
{
    let same = name == v.name.bytes();
    Two {
        plain: same && !v.primed,
        prime: same && v.primed,
    }
}

/// The unprimed variable of a name alone.
pub fn just_plain(x: &Name, name: &[u8]) -> Two
    ensures { result ≡ on name.now (just (plain x.now)) }
{
    Two {
        plain: name == x.bytes(),
        prime: false,
    }
}

/// Both variables of a name.
pub fn with_prime(x: &Name, name: &[u8]) -> Two
    ensures { result ≡ on name.now (with_prime x.now) }
{
    let same = name == x.bytes();
    Two {
        plain: same,
        prime: same,
    }
}

/// All variables, or with a taboo all but its two variables.
pub fn all_but(taboo: &Option<Name>, name: &[u8]) -> Two
    ensures { result ≡ on name.now (all_but taboo.now) }
{
    match taboo {
        None => all(),
        Some(y) => all().without(with_prime(y, name)),
    }
}

/// What the items of a system read.
pub fn free_in_items(items: &[OdeItem], name: &[u8]) -> Two
    ensures { result ≡ on name.now (free_in_items items.now) }
{
    match items.split_first() {
        None => none(),
        Some((OdeItem::Evolve(x), rest)) => just_plain(x, name).either(free_in_items(rest, name)),
        Some((OdeItem::Const(s), rest)) => all_but(&s.taboo, name).either(free_in_items(
            rest, name,
        )),
    }
}

/// What the items of a system bind.
pub fn bound_in_items(items: &[OdeItem], name: &[u8]) -> Two
    ensures { result ≡ on name.now (bound_in_items items.now) }
{
    match items.split_first() {
        None => none(),
        Some((OdeItem::Evolve(x), rest)) => with_prime(x, name).either(bound_in_items(rest, name)),
        Some((OdeItem::Const(s), rest)) => all_but(&s.taboo, name).either(bound_in_items(
            rest, name,
        )),
    }
}

/// What the items of a system must-bind.
pub fn must_in_items(items: &[OdeItem], name: &[u8]) -> Two
    ensures { result ≡ on name.now (must_in_items items.now) }
{
    match items.split_first() {
        None => none(),
        Some((OdeItem::Evolve(x), rest)) => with_prime(x, name).either(must_in_items(rest, name)),
        Some((OdeItem::Const(_), rest)) => must_in_items(rest, name),
    }
}

/// An operator that reads these variables, and binds none.
pub fn reads(free: Two) -> Members
    ensures { result ≡ members_are free empty empty }
{
    Members {
        free,
        bound: none(),
        must: none(),
    }
}

/// An operator of which nothing is known: it may read and bind every variable.
pub fn unknown() -> Members
    ensures { result ≡ members_are full full empty }
{
    Members {
        free: all(),
        bound: all(),
        must: none(),
    }
}

impl Members {
    /// A differential over these kids.
    pub fn and_primes(self) -> Members
        ensures { result ≡ members_are (primed_too self.free) self.bound self.must }
    {
        Members {
            free: self.free.and_primes(),
            ..self
        }
    }

    /// A quantifier of this variable over these kids.
    pub fn quantified(self, x: Two) -> Members
        ensures { result ≡ members_are (minus self.free x) (union self.bound x) empty }
    {
        Members {
            free: self.free.without(x),
            bound: self.bound.either(x),
            must: none(),
        }
    }

    /// A sequence of these two programs.
    pub fn then(self, second: Members) -> Members
        ensures { result ≡ members_are (union self.free (minus second.free self.must)) (union self.bound second.bound) (union self.must second.must) }
    {
        Members {
            free: self.free.either(second.free.without(self.must)),
            bound: self.bound.either(second.bound),
            must: self.must.either(second.must),
        }
    }

    /// A box or a diamond of this program and this formula.
    pub fn modal(self, formula: Members) -> Members
        ensures { result ≡ members_are (union self.free (minus formula.free self.must)) (union self.bound formula.bound) empty }
    {
        Members {
            must: none(),
            ..self.then(formula)
        }
    }

    /// A choice of these two programs.
    pub fn or(self, second: Members) -> Members
        ensures { result ≡ members_are (union self.free second.free) (union self.bound second.bound) (meet self.must second.must) }
    {
        Members {
            free: self.free.either(second.free),
            bound: self.bound.either(second.bound),
            must: self.must.both(second.must),
        }
    }

    /// An assignment of such a term to this variable.
    pub fn assigns(self, v: Two) -> Members
        ensures { result ≡ members_are self.free v v }
    {
        Members {
            free: self.free,
            bound: v,
            must: v,
        }
    }

    /// A system of these items over such terms and such a domain.
    pub fn evolves(self, items: &[OdeItem], name: &[u8]) -> Members
        ensures { result ≡ members_are (union (on name.now (free_in_items items.now)) self.free) (on name.now (bound_in_items items.now))
            (on name.now (must_in_items items.now)) }
    {
        Members {
            free: free_in_items(items, name).either(self.free),
            bound: bound_in_items(items, name),
            must: must_in_items(items, name),
        }
    }
}
