//! The arguments of rules, by their shape.
ghost use Rattle.std.specs.Prelude.{◌≡◌, ◌≢◌, MatchOption};
ghost use Rattle.dlk_rules.specs.Words.{shape_in};

use dlk_store::Id;
use dlk_tree::Name;

/// What stands in the brackets behind the word of a rule.
#[derive(Clone, Copy, Debug, PartialEq, Eq)]
pub enum Shape {
    OnePlace,
    TwoPlaces,
    PlaceAndFormula,
    OneFormula,
    PlaceAndName,
}

/// A side of a sequent.
#[derive(Clone, Copy, Debug, PartialEq, Eq)]
pub enum Side {
    Left,
    Right,
}

/// The arguments of a rule: places, counted from 1, a formula, and a name as `N` has it.
#[derive(Drop, Debug)]
pub enum Arguments<N> {
    OnePlace(u32),
    TwoPlaces(u32, u32),
    PlaceAndFormula(u32, Id),
    OneFormula(Id),
    PlaceAndName(u32, N),
}

impl Arguments<Name> {
    /// The place, where they are one.
    pub(crate) fn place(self) -> Option<u32>
        ensures { MatchOption result (shape_in self ≢ Shape.OnePlace) (λ i. self ≡ Arguments.OnePlace i) }
    {
        match self {
            Arguments::OnePlace(i) => Some(i),
            _ => None,
        }
    }

    /// The places, where they are two.
    pub(crate) fn two_places(self) -> Option<(u32, u32)>
        ensures { MatchOption result (shape_in self ≢ Shape.TwoPlaces) (λ p. self ≡ Arguments.TwoPlaces p.0 p.1) }
    {
        match self {
            Arguments::TwoPlaces(i, k) => Some((i, k)),
            _ => None,
        }
    }

    /// The place and the formula, where they are these.
    pub(crate) fn place_and_formula(self) -> Option<(u32, Id)>
        ensures { MatchOption result (shape_in self ≢ Shape.PlaceAndFormula) (λ p. self ≡ Arguments.PlaceAndFormula p.0 p.1) }
    {
        match self {
            Arguments::PlaceAndFormula(i, h) => Some((i, h)),
            _ => None,
        }
    }

    /// The formula, where they are one.
    pub(crate) fn formula(self) -> Option<Id>
        ensures { MatchOption result (shape_in self ≢ Shape.OneFormula) (λ h. self ≡ Arguments.OneFormula h) }
    {
        match self {
            Arguments::OneFormula(h) => Some(h),
            _ => None,
        }
    }

    /// The place and the name, where they are these.
    pub(crate) fn place_and_name(self) -> Option<(u32, Name)>
        ensures { MatchOption result (shape_in self ≢ Shape.PlaceAndName) (λ p. self ≡ Arguments.PlaceAndName p.0 p.1) }
    {
        match self {
            Arguments::PlaceAndName(i, y) => Some((i, y)),
            _ => None,
        }
    }
}
