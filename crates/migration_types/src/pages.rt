//! Pages.

ghost use Rattle.std.specs.Prelude.{◌≡◌, ◌<◌, ◌^◌};

use crate::contents::Contents;
use std::marker::Model;

/// A page's number, 0 to 16,777,215, stored in three bytes. Contracts see the number.
#[derive(Clone, Copy, Debug, Default, PartialEq, Eq, Hash)]
pub struct PageNo {
    high: u8,
    middle: u8,
    low: u8,
}

impl Model for PageNo {
    ghost use Rattle.std.specs.Prelude.{ℕ};
    ghost use Rattle.migration_types.specs.inner.Bytes.{AreBytes, of_bytes, high_byte, middle_byte, low_byte, high_back, middle_back, low_back};

    ghost Value = { ℕ };

    ghost view = { λ a. of_bytes a.high a.middle a.low };

    ghost invariant = { λ a. AreBytes a.high a.middle a.low };

    ghost inverse = { λ n. record { high = high_byte n; middle = middle_byte n; low = low_byte n } };

    ghost inverse_ok = { λ a h i. record {
      high = high_back a.high a.middle a.low h i;
      middle = middle_back a.high a.middle a.low h i;
      low = low_back a.high a.middle a.low h i;
    } };
}

impl PageNo {
    /// Returns the page with this number.
    #[inline(always)]
    pub fn new(number: u32) -> Self
        requires { number < 2 ^ 24 }
        ensures { result ≡ number }
    {
        PageNo {
            high: (number / 65_536) as u8,
            middle: (number / 256 % 256) as u8,
            low: (number % 256) as u8,
        }
    }

    /// Returns the number.
    #[inline(always)]
    pub fn number(self) -> u32
        ensures value { result ≡ self }
        ensures small { result < 2 ^ 24 }
    {
        u32::from(self.high) * 65_536 + u32::from(self.middle) * 256 + u32::from(self.low)
    }

    /// Returns the number as an index into a table of pages.
    #[inline(always)]
    pub fn index(self) -> usize
        ensures value { result ≡ self }
        ensures small { result < 2 ^ 24 }
    {
        self.number() as usize
    }
}

/// A page that does not begin as zeros, with the values of its cells, cell 0 first.
#[derive(Drop)]
pub struct InitPage {
    pub page: PageNo,
    pub cells: Contents,
}
