//! What a use of an axiom is given beside its name.
ghost use Rattle.std.specs.Prelude.{◌≡◌, IfOk};

use crate::listed::Listed;
use crate::subst::Pair;
use dlk_tree::Name;
use std::alloc::{AllocError, Global};

/// Names with the names that they get, and pairs of a substitution.
#[derive(Drop, Debug)]
pub struct Extra {
    pub renames: Listed<(Name, Name)>,
    pub pairs: Listed<Pair>,
}

fn copy_renames(alloc: Global, from: &[(Name, Name)]) -> Result<Listed<(Name, Name)>, AllocError>
    ensures { IfOk result (λ renames. renames ≡ from.now) }
{
    let mut renames = Vec::new(alloc);
    for (name, other) in from {
        let rename = (name.clone()?, other.clone()?);
        renames.push(rename)?;
    }
    Ok(Listed::from_vec(renames))
}

fn copy_pairs(alloc: Global, from: &[Pair]) -> Result<Listed<Pair>, AllocError>
    ensures { IfOk result (λ pairs. pairs ≡ from.now) }
{
    let mut pairs = Vec::new(alloc);
    for pair in from {
        let sym = pair.sym.clone()?;
        pairs.push(Pair { sym, by: pair.by })?;
    }
    Ok(Listed::from_vec(pairs))
}

impl Extra {
    /// The same once more.
    pub fn copy(&self, alloc: Global) -> Result<Extra, AllocError>
        ensures { IfOk result (λ extra. extra ≡ self.now) }
    {
        let renames = copy_renames(alloc, self.renames.as_slice())?;
        let pairs = copy_pairs(alloc, self.pairs.as_slice())?;
        Ok(Extra { renames, pairs })
    }
}
