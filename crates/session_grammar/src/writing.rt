//! Writing pages and their contents.

ghost use Rattle.std.specs.Prelude.{◌≡◌, [], ◌∷◌, ◌++◌, OnOk};
ghost use Rattle.text_lines.specs.Contents.{cell_text, contents_text};
ghost use Rattle.session_grammar.specs.Records.{page_text};

use migration_types::PageNo;
use std::alloc::AllocError;
use std::simd::prelude::*;
use text_lines::{end_line, push_then};

/// Appends a line that is a key, a page and its contents. Fails only if memory runs out.
pub fn push_page(
    out: &mut Vec<u8>,
    key: &[u8],
    page: PageNo,
    contents: &[u64],
) -> Result<(), AllocError>
    ensures { OnOk result (out.new.items ≡ out.old.items ++ (key.now ++ page_text page contents.now ++ 10 ∷ [])) }
{
    out.extend_from_slice(key)?;
    push_then(out, page.number())?;
    push_contents(out, contents)?;
    end_line(out)
}

/// Appends sixteen digits for each cell. Fails only if memory runs out.
pub fn push_contents(out: &mut Vec<u8>, cells: &[u64]) -> Result<(), AllocError>
    ensures { OnOk result (out.new.items ≡ out.old.items ++ contents_text cells.now) }
{
    let mut rest = cells;
    while let Some((four, after)) = rest.split_first_chunk::<4>() {
        let digits = [
            digits_of_two(four[0], four[1]).to_array(),
            digits_of_two(four[2], four[3]).to_array(),
        ];
        out.extend_from_slice(digits.as_flattened())?;
        rest = after;
    }
    for value in rest {
        out.extend_from_slice(&cell_digits(*value).to_array())?;
    }
    Ok(())
}

/// Returns the sixteen digits of a cell's value.
#[inline(always)]
pub fn cell_digits(value: u64) -> u8x16
    ensures { result ≡ cell_text value }
{
    digits_of_two(value, 0).extract::<0, 16>()
}

/// Returns the sixteen digits of a cell's value, and those of a second one.
#[inline(always)]
fn digits_of_two(first: u64, second: u64) -> u8x32
    ensures { result ≡ cell_text first ++ cell_text second }
{
    let bytes: u8x16 = u64x2::from_array([first, second])
        .to_le_bytes()
        .swizzle([7, 6, 5, 4, 3, 2, 1, 0, 15, 14, 13, 12, 11, 10, 9, 8]);
    let high = bytes >> u8x16::splat(4);
    let low = bytes & u8x16::splat(15);
    let numbers: u8x32 = high.shuffle(
        low,
        [
            0, 16, 1, 17, 2, 18, 3, 19, 4, 20, 5, 21, 6, 22, 7, 23, 8, 24, 9, 25, 10, 26, 11, 27,
            12, 28, 13, 29, 14, 30, 15, 31,
        ],
    );
    let letters = numbers
        .simd_lt(u8x32::splat(10))
        .select(u8x32::splat(0), u8x32::splat(b'a' - 10 - b'0'));
    numbers + u8x32::splat(b'0') + letters
}
