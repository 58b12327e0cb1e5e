//! Names made of bytes that are known to be names.
ghost use Rattle.std.specs.Prelude.{◌≡◌, IsTrue, IfOk, All, map};
ghost use Rattle.dlk_tree.specs.Names.{is_name};

use dlk_tree::{Name, NameFault};
use std::alloc::{AllocError, Global};

/// The name of bytes that are one.
pub(crate) fn name_of(alloc: Global, bytes: &[u8]) -> Result<Name, AllocError>
    requires { IsTrue (is_name bytes.now) }
    ensures { IfOk result (λ name. name ≡ bytes.now) }
{
    match Name::new(alloc, bytes) {
        Ok(name) => Ok(name),
        Err(NameFault::Memory) => Err(AllocError),
        Err(NameFault::NotAName) => unreachable!(),
    }
}

/// The names of bytes that are names, in order.
pub(crate) fn names_of(alloc: Global, words: &[&[u8]]) -> Result<Vec<Name>, AllocError>
    requires { All (λ word. IsTrue (is_name word.now)) words.now }
    ensures { IfOk result (λ names. names.items ≡ map (λ word. word.now) words.now) }
{
    let mut names = Vec::new(alloc);
    for word in words {
        let name = name_of(alloc, word)?;
        names.push(name)?;
    }
    Ok(names)
}
