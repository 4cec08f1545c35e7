//! A cell's value in hexadecimal.

ghost use Rattle.std.specs.Prelude.{◌≡◌, ◌≢◌, ◌^◌, ◌<◌, ◌*◌, length, List, ℕ, MatchOption, IsTrue, ◌↔◌, map, take};
ghost use Rattle.std.specs.List.{AllByRecursion};
ghost use Rattle.text_lines.specs.Contents.{cell_text, digit_number, pairs_in};

use std::simd::prelude::*;

/// Returns the number of each digit, and 255 for each byte that is not a lower-case hexadecimal digit.
#[inline(always)]
fn digit_numbers(bytes: u8x16) -> u8x16
    requires { length bytes ≡ 16 }
    ensures { result ≡ map digit_number bytes }
{
    let digits = bytes - u8x16::splat(b'0');
    let letters = bytes - u8x16::splat(b'a');
    digits.simd_lt(u8x16::splat(10)).select(
        digits,
        letters
            .simd_lt(u8x16::splat(6))
            .select(letters + u8x16::splat(10), u8x16::splat(255)),
    )
}

/// Returns whether all numbers are below a bound.
#[inline(always)]
pub(crate) fn are_below(numbers: u8x16, bound: u8) -> bool
    requires { length numbers ≡ 16 }
    ensures { IsTrue result ↔ AllByRecursion (λ n. n < bound) numbers }
{
    numbers.simd_lt(u8x16::splat(bound)).to_bitmask() == 65_535
}

/// Joins each pair of numbers into one number of this base.
#[inline(always)]
pub(crate) fn pairs(numbers: u8x16, base: u8) -> u8x8
    requires { length numbers ≡ 16 }
    ensures { result ≡ pairs_in base numbers }
{
    let high: u8x8 = numbers.swizzle([0, 2, 4, 6, 8, 10, 12, 14]);
    let low: u8x8 = numbers.swizzle([1, 3, 5, 7, 9, 11, 13, 15]);
    high * u8x8::splat(base) + low
}

/// Returns the cell that sixteen lower-case hexadecimal digits spell, or `None` if the text is not that.
#[inline(always)]
pub fn read_cell(text: &[u8]) -> Option<u64>
    ensures { MatchOption result ((x : ℕ) → x < 2 ^ 64 → text.now ≢ cell_text x) (λ x. text.now ≡ cell_text x) }
{
    if text.len() != 16 {
        return None;
    }
    let numbers = digit_numbers(u8x16::from_slice(text));
    if !are_below(numbers, 16) {
        return None;
    }
    Some(u64::from_be_bytes(pairs(numbers, 16).to_array()))
}
