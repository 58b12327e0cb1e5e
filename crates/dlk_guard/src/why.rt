use dlk_tree::{Name, Sym};
use std::alloc::AllocError;

/// Why a line is unguarded. Where it uses a raw row, the reason is why that row is raw: the first condition on an instance of its axiom
/// that the row doesn't meet, in the order of this list.
#[derive(Drop, Debug, PartialEq, Eq)]
pub enum Why {
    /// `DI`: the ODE constant is left in the system.
    OdeConstant(Sym),
    /// `DI`: the formula isn't made of comparisons of smooth terms.
    NotSmooth,
    /// `DI`: the variable stands in the formula, the system doesn't evolve it, and the domain doesn't say that it is constant.
    NotEvolved(Name),
    /// `DI`: the system evolves the variable, and its primed one is free in the domain or in a right side.
    Primed(Name),
    /// `DG`: a term of the new equation isn't smooth.
    GhostNotSmooth,
    /// `subst`: a replacement has `_` below a `( )'` of a formula.
    DifferentialContext,
    /// `axiom Dforall`.
    Dforall,
    /// `DI` or `DG`: the axiom itself is used, of which no instance was made.
    RawFact,
}

impl Clone for Why {
    ghost use Rattle.std.specs.Prelude.{◌≡◌};

    ghost is_clone = { λ a b. a ≡ b };

    fn clone(&self) -> Result<Why, AllocError> {
        Ok(match self {
            Why::OdeConstant(s) => Why::OdeConstant(s.clone()?),
            Why::NotSmooth => Why::NotSmooth,
            Why::NotEvolved(x) => Why::NotEvolved(x.clone()?),
            Why::Primed(x) => Why::Primed(x.clone()?),
            Why::GhostNotSmooth => Why::GhostNotSmooth,
            Why::DifferentialContext => Why::DifferentialContext,
            Why::Dforall => Why::Dforall,
            Why::RawFact => Why::RawFact,
        })
    }
}
