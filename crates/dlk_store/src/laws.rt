//! Laws of listings: calls that do nothing, for their contracts.
ghost use Rattle.std.specs.Prelude.{◌≡◌, Bool};
ghost use Rattle.dlk_tree.specs.Trees.{Tree};
ghost use Rattle.dlk_tree.specs.Listed.{IsSignature};
ghost use Rattle.dlk_tree.specs.declared.op.Var.{Var};
ghost use Rattle.dlk_store.specs.Listings.{IsListingOf};

use crate::listing::Listing;
use dlk_tree::Sym;

/// A set has at most one listing. The statement of the static semantics asks for it.
pub fn one_listing(a: &Listing, b: &Listing)
    ghost set: { Var → Bool }
    requires first { IsListingOf set a.now }
    requires second { IsListingOf set b.now }
    ensures { a.now ≡ b.now }
{}

/// A tree has at most one signature. The statement of the static semantics asks for it.
pub fn one_signature(a: &[Sym], b: &[Sym])
    ghost t: { Tree }
    requires first { IsSignature t a.now }
    requires second { IsSignature t b.now }
    ensures { a.now ≡ b.now }
{}
