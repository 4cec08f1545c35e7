//! A table with a value for each page of a machine: marks, or numbers of records.

ghost use Rattle.std.specs.Prelude.{◌≡◌, ◌<◌, IfOk};

use migration_types::PageNo;
use std::alloc::{AllocError, Global};
use std::marker::Model;

/// A value for each page of a machine. Only the constructors allocate memory, one block for all values.
#[derive(Drop)]
pub struct Table<T> {
    /// The value that each page began with.
    initial: T,
    /// The value of each page, page 0 first.
    items: Vec<T>,
}

impl<T> Model for Table<T> {
    ghost use Rattle.page_store.specs.Tables.{Values};

    ghost Value = { Values T };

    ghost view = { λ t. record { initial = t.initial; items = t.items.items } };
}

impl Table<bool> {
    ghost use Rattle.std.specs.Prelude.{false};
    ghost use Rattle.page_store.specs.Tables.{all_at, marked_if, pages_of, values, IsWith};

    /// Returns a table of marks for this many pages, none of them set. Fails only if memory runs out.
    pub fn no_marks(alloc: Global, pages: u32) -> Result<Table<bool>, AllocError>
        ensures pages { IfOk result (λ t. pages_of t ≡ pages) }
        ensures values { IfOk result (λ t. values t ≡ all_at false) }
    {
        let items = vec![in alloc; false; pages as usize]?;
        Ok(Table {
            initial: false,
            items,
        })
    }

    /// Marks a page if the test is true.
    pub fn mark_if(&mut self, page: PageNo, test: bool)
        requires { page < pages_of self.old }
        ensures { IsWith self.old self.new (marked_if test page (values self.old)) }
    {
        if test {
            self.set(page, true);
        }
    }
}

impl Table<Option<u32>> {
    ghost use Rattle.std.specs.Prelude.{None};
    ghost use Rattle.page_store.specs.Tables.{all_at, noted, pages_of, values, IsWith};

    /// Returns a table of record numbers for this many pages, none of them set. Fails only if memory runs out.
    pub fn no_numbers(alloc: Global, pages: u32) -> Result<Table<Option<u32>>, AllocError>
        ensures pages { IfOk result (λ t. pages_of t ≡ pages) }
        ensures values { IfOk result (λ t. values t ≡ all_at None) }
    {
        let initial: Option<u32> = None;
        let items = vec![in alloc; initial; pages as usize]?;
        Ok(Table { initial, items })
    }

    /// Sets the number of a page that has none.
    pub fn note(&mut self, page: PageNo, number: u32)
        requires { page < pages_of self.old }
        ensures { IsWith self.old self.new (noted page number (values self.old)) }
    {
        if self.at(page).is_none() {
            self.set(page, Some(number));
        }
    }
}

impl<T: Copy> Table<T> {
    ghost use Rattle.page_store.specs.Tables.{pages_of, values, with_value, IsWith};

    /// Returns the value of a page.
    pub fn at(&self, page: PageNo) -> T
        requires { page < pages_of self.now }
        ensures { result ≡ values self.now page }
    {
        self.items[page.index()]
    }

    /// Sets the value of a page. The other pages stay as they are.
    pub fn set(&mut self, page: PageNo, value: T)
        requires { page < pages_of self.old }
        ensures { IsWith self.old self.new (with_value page value (values self.old)) }
    {
        self.items[page.index()] = value;
    }
}
