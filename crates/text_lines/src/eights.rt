//! Up to eight decimal digits at a time.

ghost use Rattle.std.specs.Prelude.{◌≡◌, ◌≤◌, ◌<◌, ◌+◌, ◌-◌, ◌*◌, ◌^◌, ℕ, List, length, map, take, get_or, IfSome};
ghost use Rattle.std.specs.List.{AllByRecursion};
ghost use Rattle.std.specs.Int.Digits.{number_from_digits};
ghost use Rattle.std.specs.Str.Parse.{AllDigits, digits_value};
ghost use Rattle.std.specs.Simd.Lanes.{number_l};
ghost use Rattle.text_lines.specs.inner.Blocks.{digit_less, padded};

use std::simd::prelude::*;

/// The powers of ten, up to the eighth.
const POWERS: [u64; 9] = [
    1,
    10,
    100,
    1_000,
    10_000,
    100_000,
    1_000_000,
    10_000_000,
    100_000_000,
];

/// The first byte of each pair.
const FIRSTS: u64 = 0x00ff_00ff_00ff_00ff;

/// The first pair of bytes of each four.
const FIRST_TWOS: u64 = 0x0000_ffff_0000_ffff;

/// What adds ten times each byte of a word to the next byte.
const TENS: u64 = (10 << 8) + 1;

/// What adds a hundred times each pair of bytes to the next pair.
const HUNDREDS: u64 = (100 << 16) + 1;

/// What adds ten thousand times the first four bytes to the last four.
const TEN_THOUSANDS: u64 = (10_000 << 32) + 1;

/// Returns the number of each digit, and ten or more for each other byte.
#[inline(always)]
fn numbers_of(bytes: u8x8) -> u8x8
    requires { length bytes ≡ 8 }
    ensures { result ≡ map digit_less bytes }
{
    bytes - u8x8::splat(b'0')
}

/// Returns how many of the numbers are below ten, up to the first that is not.
#[inline(always)]
fn small_before(numbers: u8x8) -> u32
    requires { length numbers ≡ 8 }
    ensures within { result ≤ 8 }
    ensures small { (i : ℕ) → i < result → get_or numbers i 0 < 10 }
    ensures stops { result < 8 → 10 ≤ get_or numbers result 0 }
{
    numbers
        .simd_lt(u8x8::splat(10))
        .to_bitmask()
        .trailing_ones()
}

/// Returns the first `count` of eight bytes as the last bytes of a word, whose first bytes are zeros.
#[inline(always)]
fn front_word(bytes: u8x8, count: u32) -> u64
    requires long { length bytes ≡ 8 }
    requires each { AllByRecursion (λ b. b < 256) bytes }
    requires count { count ≤ 8 }
    ensures { result ≡ number_l 256 (padded (8 - count) (take count bytes)) }
{
    // (two shifts, because one shift cannot move all bits of a word)
    let half = 32 - 4 * count;
    u64::from_le_bytes(bytes.to_array()) << half << half
}

/// Returns the number that the bytes of a word spell in decimal, of which the first is the lowest of the word.
#[inline(always)]
fn decimal_of(word: u64) -> u64
    ensures { (ds : List ℕ) → length ds ≡ 8 → AllByRecursion (λ d. d < 10) ds → word ≡ number_l 256 ds → result ≡ number_from_digits 10 ds }
{
    let twos = (word.wrapping_mul(TENS) >> 8) & FIRSTS;
    let fours = (twos.wrapping_mul(HUNDREDS) >> 16) & FIRST_TWOS;
    fours.wrapping_mul(TEN_THOUSANDS) >> 32
}

/// Returns the number that the first `count` bytes spell, which are digits, at most eight of them.
#[inline(always)]
pub(crate) fn counted_digits(text: &[u8], count: u32) -> u64
    requires long { 8 ≤ length text.now }
    requires count { count ≤ 8 }
    requires small { (i : ℕ) → i < count → digit_less (get_or text.now i 0) < 10 }
    ensures digits { AllDigits 10 (take count text.now) }
    ensures value { result ≡ digits_value 10 (take count text.now) }
{
    decimal_of(front_word(numbers_of(u8x8::from_slice(text)), count))
}

/// Returns the number that the digits of `n` spell with `count` more of them behind, which spell `more`, if it has at
/// most 64 bits.
#[inline(always)]
pub(crate) fn more_than(n: u64, count: usize, more: u64) -> Option<u64>
    requires { count ≤ 8 }
    ensures { IfSome result (λ sum. (sum ≡ n * 10 ^ count + more) × (sum < 2 ^ 64)) }
{
    n.checked_mul(POWERS[count])?.checked_add(more)
}

/// Returns the number that the digits at the front of a text spell, at most eight of them, and how many they are.
#[inline(always)]
pub(crate) fn eight_digits(text: &[u8]) -> (u64, usize)
    requires { 8 ≤ length text.now }
    ensures within { result.1 ≤ 8 }
    ensures digits { AllDigits 10 (take result.1 text.now) }
    ensures value { result.0 ≡ digits_value 10 (take result.1 text.now) }
    ensures stops { result.1 < 8 → 10 ≤ digit_less (get_or text.now result.1 0) }
{
    let count = small_before(numbers_of(u8x8::from_slice(text)));
    (counted_digits(text, count), count as usize)
}
