//! What is allowed at a line of a text, and why a text is refused. The messages to people are made from this.

use crate::{Counted, TextFault};

/// What is allowed at a line of a text.
#[derive(Clone, Copy)]
pub struct Wanted {
    /// What is expected there, such as `a record of the guest`.
    pub what: &'static str,
    /// How it may be written. A word of capital letters is a field, such as `P` for a page.
    pub forms: &'static [&'static str],
    /// What else a line in one of these forms must satisfy, such as `pages rise`. Empty if there is nothing else.
    pub rule: &'static str,
    /// For an item of a counted list: how many came before it, how many the list has, and the line that says so. That
    /// line is 0 if the list before it, if any, has nothing to do with it.
    pub came: u32,
    pub count: u32,
    pub counted_at: u32,
    /// The machine's pages and cells, if they are known.
    pub pages: u32,
    pub cells: u32,
    /// How many records a log may have, if that is known. A record's number is below this one.
    pub records: u32,
    /// The least and the greatest number that `N` may be.
    pub least: u32,
    pub most: u32,
}

impl Wanted {
    /// Expects a line in one of these forms, of which no more is known.
    pub fn one(what: &'static str, forms: &'static [&'static str]) -> Self {
        Wanted {
            what,
            forms,
            rule: "",
            came: 0,
            count: 0,
            counted_at: 0,
            pages: 0,
            cells: 0,
            records: 0,
            least: 0,
            most: 0,
        }
    }

    /// Expects nothing that is known.
    pub fn unknown() -> Self {
        Wanted::one("", &[])
    }

    /// Expects the closing line.
    pub fn closing_line() -> Self {
        Wanted::one("the closing line", &["end"])
    }

    /// Expects nothing, after the closing line.
    pub fn nothing_more() -> Self {
        Wanted::one("nothing after the closing line", &[])
    }

    /// Adds that it is the next item of this list, or the line after the last. The line `at` gives the number of items.
    pub fn of_list<X: Drop>(self, list: &Counted<X>, at: u32) -> Self {
        self.counted(list.came(), list.count(), at)
    }

    /// Adds that this many items of a list of `count` came before, as the line `at` says.
    pub fn counted(self, came: u32, count: u32, at: u32) -> Self {
        Wanted {
            came,
            count,
            counted_at: at,
            ..self
        }
    }

    /// Adds that `N` is a number from `least` to `most`.
    pub fn within(self, least: u32, most: u32) -> Self {
        Wanted {
            least,
            most,
            ..self
        }
    }

    /// Adds the machine's number of pages and of cells.
    pub fn of_machine(self, pages: u32, cells: u32) -> Self {
        Wanted {
            pages,
            cells,
            ..self
        }
    }

    /// Adds how many records a log of the machine may have.
    pub fn of_logs(self, records: u32) -> Self {
        Wanted { records, ..self }
    }

    /// Adds this rule.
    pub fn under(self, rule: &'static str) -> Self {
        Wanted { rule, ..self }
    }
}

/// Why a text is refused.
#[derive(Drop)]
pub struct Refusal {
    /// The line, and the kind of its fault.
    pub fault: TextFault,
    /// The first bytes of the line.
    pub line: Vec<u8>,
    /// Whether the text ends with that line, without a line feed.
    pub is_last: bool,
    /// What is allowed there.
    pub wanted: Wanted,
}
