//! Values with several owners, and lists of them.
ghost use Rattle.std.specs.Prelude.{◌≡◌, ◌++◌, IfOk, OnOk};
ghost use Rattle.dlk_calculus.specs.Places.{IsPlace, put_all};

use crate::listed::Listed;
use std::alloc::{AllocError, Global};
use std::marker::Model;
use std::rc::Rc;

/// A value with several owners, which contracts see as the value.
#[derive(Drop, Debug)]
pub struct Shared<T> {
    owned: Rc<T>,
}

impl<T> Model for Shared<T> {
    ghost Value = { T };

    ghost view = { λ s. s.owned.value };
}

impl<T> Shared<T> {
    /// The value with a first owner.
    pub fn new(alloc: Global, value: T) -> Result<Self, AllocError>
    where
        T: Drop,
        ensures { IfOk result (λ s. s ≡ value) }
    {
        let owned = Rc::new(alloc, value)?;
        Ok(Shared { owned })
    }

    /// The same value with one more owner. Nothing is copied, and it fails only where no more owners can be counted.
    pub fn share(&self) -> Result<Self, AllocError>
    where
        T: Drop,
        ensures { IfOk result (λ s. s ≡ self.now) }
    {
        let owned = self.owned.clone()?;
        Ok(Shared { owned })
    }

    /// The value.
    pub fn value(&self) -> &T
        ensures { result.now ≡ self.now }
    {
        self.owned.as_ref()
    }
}

/// The same values at the end.
fn append<T: Drop>(into: &mut Vec<Shared<T>>, from: &[Shared<T>]) -> Result<(), AllocError>
    ensures { OnOk result (into.new.items ≡ into.old.items ++ from.now) }
{
    for item in from {
        into.push(item.share()?)?;
    }
    Ok(())
}

impl<T: Drop> Listed<Shared<T>> {
    /// The same values once more, with room for `more` behind them.
    pub fn share_with_room(&self, alloc: Global, more: usize) -> Result<Self, AllocError>
        ensures { IfOk result (λ items. items ≡ self.now) }
    {
        let items = self.as_slice();
        let mut all = Vec::with_capacity(alloc, items.len().saturating_add(more))?;
        append(&mut all, items)?;
        Ok(Listed::from_vec(all))
    }

    /// The same values but for others instead of the one at a place, which is there. Places count from 1.
    pub fn with_all_at(
        &self,
        alloc: Global,
        place: u32,
        new: &[Shared<T>],
    ) -> Result<Self, AllocError>
        requires { IsPlace self.now place }
        ensures { IfOk result (λ items. items ≡ put_all self.now place new.now) }
    {
        let items = self.as_slice();
        let mut all = Vec::with_capacity(alloc, items.len() - 1 + new.len())?;
        append(&mut all, &items[..place as usize - 1])?;
        append(&mut all, new)?;
        append(&mut all, &items[place as usize..])?;
        Ok(Listed::from_vec(all))
    }
}

/// The values of a vector, each with a first owner.
pub fn shared_each<T: Drop>(alloc: Global, values: Vec<T>) -> Result<Listed<Shared<T>>, AllocError>
    ensures { IfOk result (λ items. items ≡ values.items) }
{
    let mut all = Vec::with_capacity(alloc, values.len())?;
    for value in values {
        all.push(Shared::new(alloc, value)?)?;
    }
    Ok(Listed::from_vec(all))
}
