ghost use Rattle.std.specs.Prelude.{◌≡◌, ◌∷◌, ◌++◌, [], length, None, Some, MatchOption, IfOk, OnOk, OnErr};
ghost use Rattle.dlk_calculus.specs.Places.{at, IsPlace, put, without_place};

use std::alloc::{AllocError, Global};
use std::marker::Model;

/// Items in order, which contracts see as their list.
#[derive(Drop, Debug)]
pub struct Listed<T> {
    items: Vec<T>,
}

impl<T> Model for Listed<T> {
    ghost use Rattle.std.specs.Prelude.{List};

    ghost Value = { List T };

    ghost view = { λ l. l.items.items };
}

/// The item at a place, counted from 1. None comes where there is no such place.
pub fn item_at<T>(items: &[T], place: u32) -> Option<&T>
    ensures { MatchOption result (at items.now place ≡ None) (λ x. at items.now place ≡ Some x.now) }
{
    if place == 0 {
        return None;
    }
    items.get(place as usize - 1)
}

impl<T> Listed<T> {
    /// No items.
    pub fn new(alloc: Global) -> Self
        ensures { result ≡ [] }
    {
        Listed {
            items: Vec::new(alloc),
        }
    }

    /// The items of a vector, which takes no memory.
    pub fn from_vec(items: Vec<T>) -> Self
        ensures { result ≡ items.items }
    {
        Listed { items }
    }

    /// The items as a vector, which takes no memory.
    pub fn into_vec(self) -> Vec<T>
        ensures { result.items ≡ self }
    {
        self.items
    }

    /// The items.
    pub fn as_slice(&self) -> &[T]
        ensures { result.now ≡ self.now }
    {
        self.items.as_slice()
    }

    /// Adds an item at the end. Without memory nothing has changed.
    pub fn push(&mut self, item: T) -> Result<(), AllocError>
    where
        T: Drop,
        ensures ok { OnOk result (self.new ≡ self.old ++ item ∷ []) }
        ensures err { OnErr result (self.new ≡ self.old) }
    {
        self.items.push(item)?;
        Ok(())
    }
}

impl<T: Copy> Listed<T> {
    /// The same items once more.
    pub fn copied(&self, alloc: Global) -> Result<Listed<T>, AllocError>
        ensures { IfOk result (λ items. items ≡ self.now) }
    {
        Ok(Listed::from_vec(Vec::from_slice(alloc, self.as_slice())?))
    }

    /// Puts another item at a place, which is there. Places count from 1.
    pub fn set(&mut self, place: u32, item: T)
        requires { IsPlace self.old place }
        ensures { self.new ≡ put self.old place item }
    {
        self.items[place as usize - 1] = item;
    }

    /// Takes out the item at a place, which is there. Places count from 1.
    pub fn remove(&mut self, place: u32)
        requires { IsPlace self.old place }
        ensures { self.new ≡ without_place self.old place }
    {
        self.items.remove(place as usize - 1);
    }
}
