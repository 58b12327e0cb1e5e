//! Rare values in boxes, so that what is handed on is small.
ghost use Rattle.std.specs.Prelude.{◌≡◌, IfOk};

use std::alloc::{AllocError, Global};
use std::boxed::Box;
use std::marker::Model;

/// A value in a place of its own, so that what holds it is small. Contracts see it as the value.
#[derive(Drop)]
pub struct Kept<T> {
    owned: Box<T>,
}

impl<T> Model for Kept<T> {
    ghost Value = { T };

    ghost view = { λ k. k.owned.value };
}

impl<T> Kept<T> {
    /// Keeps a value apart.
    pub fn new(alloc: Global, value: T) -> Result<Self, AllocError>
    where
        T: Drop,
        ensures { IfOk result (λ k. k ≡ value) }
    {
        let owned = Box::new(alloc, value)?;
        Ok(Kept { owned })
    }

    /// The value.
    pub fn into_inner(self) -> T
        ensures { result ≡ self }
    {
        Box::into_inner(self.owned)
    }
}
