//! Contents of pages.

ghost use Rattle.std.specs.Prelude.{◌≡◌, ◌≤◌, ◌+◌, [], ◌∷◌, IfOk, drop, length, take};

use crate::shared::Shared;
use std::alloc::{AllocError, Global};
use std::marker::Model;
use std::sync::ArcSlice;

/// The values of a page's cells, cell 0 first. Contracts see them as a list. A single value has no memory of its own.
/// Shared values are stored once, however many contents share them. Contents can also be a part of a list of values that
/// has several owners, and then have no memory of their own either.
#[derive(Drop)]
pub struct Contents {
    stored: Stored,
}

/// Where the values are stored.
#[derive(Drop)]
enum Stored {
    One([u64; 1]),
    Many(Vec<u64>),
    Shared(ArcSlice<u64>),
    Part(Part),
}

/// A part of a list of values that has several owners: so many values, from a place on.
#[derive(Drop)]
struct Part {
    all: Shared<u64>,
    from: usize,
    count: usize,
}

impl Model for Contents {
    ghost use Rattle.std.specs.Prelude.{ℕ, List};
    ghost use Rattle.migration_types.specs.inner.Stored.{values, IsWithin};

    ghost Value = { List ℕ };

    ghost view = { λ a. values a.stored };

    ghost invariant = { λ a. IsWithin a.stored };
}

impl Contents {
    /// Returns the contents of a page of one cell. Allocates no memory.
    pub fn one(value: u64) -> Self
        ensures { result ≡ value ∷ [] }
    {
        Contents {
            stored: Stored::One([value]),
        }
    }

    /// Returns contents with the values of a vector. Allocates no memory.
    pub fn from_vec(items: Vec<u64>) -> Self
        ensures { result ≡ items.items }
    {
        Contents {
            stored: Stored::Many(items),
        }
    }

    /// Makes the values such that several contents can share them. Fails only if memory runs out, and then they stay as
    /// they were.
    pub fn share(&mut self, alloc: Global) -> Result<(), AllocError>
        ensures { self.new ≡ self.old }
    {
        if let Stored::Many(values) = &self.stored {
            let shared = ArcSlice::from_slice(alloc, values)?;
            self.stored = Stored::Shared(shared);
        }
        Ok(())
    }

    /// Returns the same contents again. Shared values are not copied. Other values are copied, and the copy can be
    /// shared. Fails only if memory runs out.
    pub fn another(&self, alloc: Global) -> Result<Self, AllocError>
        ensures { IfOk result (λ c. c ≡ self.now) }
    {
        match &self.stored {
            Stored::One(value) => Ok(Contents::one(value[0])),
            Stored::Many(values) => {
                let shared = ArcSlice::from_slice(alloc, values)?;
                Ok(Contents {
                    stored: Stored::Shared(shared),
                })
            }
            Stored::Shared(values) => {
                let shared = values.clone()?;
                Ok(Contents {
                    stored: Stored::Shared(shared),
                })
            }
            Stored::Part(part) => Contents::part(&part.all, part.from, part.count),
        }
    }

    /// Returns contents with this many of the values of a list, from a place on, in the list's memory. Fails only if the
    /// list has more owners than can be counted.
    pub fn part(all: &Shared<u64>, from: usize, count: usize) -> Result<Self, AllocError>
        requires { from + count ≤ length all.now }
        ensures { IfOk result (λ c. c ≡ take count (drop from all.now)) }
    {
        let all = all.another()?;
        Ok(Contents {
            stored: Stored::Part(Part { all, from, count }),
        })
    }

    /// Returns a copy of these values. Fails only if memory runs out.
    pub fn copied(alloc: Global, values: &[u64]) -> Result<Self, AllocError>
        ensures { IfOk result (λ c. c ≡ values.now) }
    {
        match values {
            [value] => Ok(Contents::one(*value)),
            _ => Ok(Contents::from_vec(Vec::from_slice(alloc, values)?)),
        }
    }

    /// Returns the values.
    pub fn as_slice(&self) -> &[u64]
        ensures { result.now ≡ self.now }
    {
        match &self.stored {
            Stored::One(value) => value,
            Stored::Many(values) => values,
            Stored::Shared(values) => values.as_slice(),
            Stored::Part(part) => &part.all.as_slice()[part.from..part.from + part.count],
        }
    }
}
