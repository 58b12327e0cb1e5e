//! What was named before.
ghost use Rattle.std.specs.Prelude.{◌≡◌, []};

use crate::axioms::NamedAxioms;
use crate::named_rules::NamedRules;
use std::alloc::Global;

/// The axioms and the axiomatic rules that were named so far.
#[derive(Drop, Debug)]
pub(crate) struct Named {
    pub axioms: NamedAxioms,
    pub rules: NamedRules,
}

impl Named {
    /// None so far.
    pub(crate) fn new(alloc: Global) -> Named
        ensures { result ≡ record { axioms = []; rules = [] } }
    {
        Named {
            axioms: NamedAxioms::new(alloc),
            rules: NamedRules::new(alloc),
        }
    }
}
