//! Lists with several owners.

ghost use Rattle.std.specs.Prelude.{◌≡◌, IfOk};
ghost use Rattle.std.specs.Arc.{arc_slice_items};

use std::alloc::AllocError;
use std::marker::Model;
use std::sync::ArcSlice;

/// Values in order, stored once for all their owners. Contracts see them as a list.
#[derive(Drop)]
pub struct Shared<T> {
    items: ArcSlice<T>,
}

impl<T> Model for Shared<T> {
    ghost use Rattle.std.specs.Prelude.{List};
    ghost use Rattle.std.specs.Arc.{arc_slice_items};

    ghost Value = { List T };

    ghost view = { λ a. arc_slice_items a.items };
}

impl<T: Drop> Shared<T> {
    /// Returns the values of a vector, with one owner. Fails only if memory runs out for the count of owners.
    pub fn from_vec(items: Vec<T>) -> Result<Self, AllocError>
        ensures { IfOk result (λ list. list ≡ items.items) }
    {
        let items = ArcSlice::from_vec(items)?;
        Ok(Shared { items })
    }

    /// Returns the same list, with one more owner. Fails only if it has more owners than can be counted.
    pub fn another(&self) -> Result<Self, AllocError>
        ensures { IfOk result (λ list. list ≡ self.now) }
    {
        let items = self.items.clone()?;
        Ok(Shared { items })
    }
}

impl<T> Shared<T> {
    /// Returns the values.
    pub fn as_slice(&self) -> &[T]
        ensures { result.now ≡ self.now }
    {
        self.items.as_slice()
    }
}
