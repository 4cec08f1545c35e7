//! Quick reading of four numbers that are fields of a line, with no branch on how many digits they have.

ghost use Rattle.std.specs.Prelude.{◌≡◌, ◌≤◌, ◌<◌, ◌+◌, ◌-◌, ◌^◌, ◌++◌, ◌∷◌, ℕ, length, drop, map, get_or, IfSome, IsTrue};
ghost use Rattle.std.specs.Int.{bit_at};
ghost use Rattle.std.specs.Int.RustNames.{bit_and};
ghost use Rattle.std.specs.Fmt.{decimal};
ghost use Rattle.text_lines.specs.inner.Blocks.{digit_less, IsDigitStart, AreEnds, IsField};

use crate::eights::{counted_digits, more_than};
use std::simd::prelude::*;

/// How many bytes a text must have: those that are searched for the ends of fields, and those that are read with a last
/// field that begins there.
const ROOM: usize = 72;

/// The least number that is written with so many digits. No number is written with none.
const LEAST: [u64; 21] = [
    u64::MAX,
    0,
    10,
    100,
    1_000,
    10_000,
    100_000,
    1_000_000,
    10_000_000,
    100_000_000,
    1_000_000_000,
    10_000_000_000,
    100_000_000_000,
    1_000_000_000_000,
    10_000_000_000_000,
    100_000_000_000_000,
    1_000_000_000_000_000,
    10_000_000_000_000_000,
    100_000_000_000_000_000,
    1_000_000_000_000_000_000,
    10_000_000_000_000_000_000,
];

/// Returns the number of each digit, and ten or more for each other byte.
#[inline(always)]
fn numbers_in(bytes: u8x16) -> u8x16
    requires { length bytes ≡ 16 }
    ensures { result ≡ map digit_less bytes }
{
    bytes - u8x16::splat(b'0')
}

/// Returns a bit for each of sixteen numbers, which is set if the number is ten or more.
#[inline(always)]
fn large_in(numbers: u8x16) -> u64
    requires { length numbers ≡ 16 }
    ensures fits { result < 2 ^ 16 }
    ensures large { (i : ℕ) → i < 16 → bit_at result i ≡ 0 → get_or numbers i 0 < 10 }
{
    numbers.simd_ge(u8x16::splat(10)).to_bitmask()
}

/// Returns a bit for each of the first sixteen bytes, which is set if the byte is no digit.
#[inline(always)]
fn sixteen_ends(text: &[u8]) -> u64
    requires { 16 ≤ length text.now }
    ensures { AreEnds text.now 0 16 result }
{
    large_in(numbers_in(u8x16::from_slice(text)))
}

/// Returns a bit for each of the first forty-eight bytes, which is set if the byte is no digit.
#[inline(always)]
fn ends_in(text: &[u8]) -> u64
    requires { 48 ≤ length text.now }
    ensures { AreEnds text.now 0 48 result }
{
    let (_, second) = text.split_at(16);
    let (_, third) = text.split_at(32);
    sixteen_ends(text) + (sixteen_ends(second) << 16) + (sixteen_ends(third) << 32)
}

/// Returns the bits without the lowest of them that is set.
#[inline(always)]
fn without_lowest(bits: u64) -> u64
    ensures { result ≡ bit_and bits (bits - 1) }
{
    bits & bits.wrapping_sub(1)
}

/// Returns where the first four fields end. May return `None` for any text.
#[inline(always)]
fn four_ends(text: &[u8]) -> Option<(usize, usize, usize, usize)>
    requires { 48 ≤ length text.now }
    ensures { IfSome result (λ e. IsField text.now 0 e.0 × IsField text.now (e.0 + 1) e.1 × IsField text.now (e.1 + 1) e.2 × IsField text.now (e.2 + 1) e.3) }
{
    let first = ends_in(text);
    let second = without_lowest(first);
    let third = without_lowest(second);
    let fourth = without_lowest(third);
    if fourth == 0 {
        return None;
    }
    Some((
        first.trailing_zeros() as usize,
        second.trailing_zeros() as usize,
        third.trailing_zeros() as usize,
        fourth.trailing_zeros() as usize,
    ))
}

/// Returns whether the first `count` bytes are a number as it is written, and `end` follows.
#[inline(always)]
fn is_number_then(text: &[u8], n: u64, count: usize, end: u8) -> bool
    requires digits { IsDigitStart text.now n count }
    requires count { count ≤ 20 }
    requires within { count < length text.now }
    requires end { end < 48 }
    ensures { IsTrue result → text.now ≡ decimal n ++ end ∷ drop (count + 1) text.now }
{
    if n < LEAST[count] {
        return false;
    }
    text[count] == end
}

/// Returns the number in a field, if a space follows it. May return `None` for any field.
#[inline(always)]
fn number_in(text: &[u8], start: usize, end: usize, limit: u32) -> Option<u32>
    requires room { 72 ≤ length text.now }
    requires field { IsField text.now start end }
    ensures { IfSome result (λ n. (n ≤ limit) × (drop start text.now ≡ decimal n ++ 32 ∷ drop (end + 1) text.now)) }
{
    let count = end - start;
    if count > 8 {
        return None;
    }
    let (_, field) = text.split_at(start);
    let n = counted_digits(field, count as u32);
    if n > u64::from(limit) {
        return None;
    }
    if !is_number_then(field, n, count, b' ') {
        return None;
    }
    Some(n as u32)
}

/// Returns the number of 64 bits that the first `count` bytes spell.
#[inline(always)]
fn long_digits(text: &[u8], count: usize) -> Option<u64>
    requires room { 24 ≤ length text.now }
    requires count { count ≤ 20 }
    requires digits { (i : ℕ) → i < count → digit_less (get_or text.now i 0) < 10 }
    ensures { IfSome result (λ n. IsDigitStart text.now n count) }
{
    let first = count.min(8);
    let second = (count - first).min(8);
    let third = count - first - second;
    let (_, later) = text.split_at(8);
    let (_, last) = text.split_at(16);
    let n = counted_digits(text, first as u32);
    let n = more_than(n, second, counted_digits(later, second as u32))?;
    more_than(n, third, counted_digits(last, third as u32))
}

/// Returns the number of 64 bits in a field, if a line feed follows it. May return `None` for any field.
#[inline(always)]
fn value_in(text: &[u8], start: usize, end: usize) -> Option<u64>
    requires room { 72 ≤ length text.now }
    requires field { IsField text.now start end }
    ensures { IfSome result (λ n. drop start text.now ≡ decimal n ++ 10 ∷ drop (end + 1) text.now) }
{
    let count = end - start;
    if count > 20 {
        return None;
    }
    let (_, field) = text.split_at(start);
    let n = long_digits(field, count)?;
    if !is_number_then(field, n, count, b'\n') {
        return None;
    }
    Some(n)
}

/// Returns the four numbers of the line at the front of a text, with a space between two, and what follows the line.
/// The first three are at most these limits. May return `None` for any text.
#[inline(always)]
pub fn front_four(text: &[u8], limits: (u32, u32, u32)) -> Option<(u32, u32, u32, u64, &[u8])>
    ensures limits { IfSome result (λ found. (found.0 ≤ limits.0) × (found.1 ≤ limits.1) × (found.2 ≤ limits.2) × (found.3 < 2 ^ 64)) }
    ensures found { IfSome result (λ found. text.now ≡ decimal found.0 ++ 32 ∷ (decimal found.1 ++ 32 ∷ (decimal found.2 ++ 32 ∷ (decimal found.3 ++ 10 ∷ found.4.now)))) }
{
    if text.len() < ROOM {
        return None;
    }
    let (first, second, third, fourth) = four_ends(text)?;
    let a = number_in(text, 0, first, limits.0)?;
    let b = number_in(text, first + 1, second, limits.1)?;
    let c = number_in(text, second + 1, third, limits.2)?;
    let d = value_in(text, third + 1, fourth)?;
    let (_, rest) = text.split_at(fourth + 1);
    Some((a, b, c, d, rest))
}
