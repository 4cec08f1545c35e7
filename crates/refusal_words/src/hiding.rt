//! The characters that are not shown as they are, and their escapes.

ghost use Rattle.std.specs.Prelude.{◌≡◌, ◌<◌};
ghost use Rattle.refusal_words.specs.Hidden.{bytes_of, escape, escaped_unit, hex_digit, hides, is_hidden};

use ucd_category::GeneralCategory;

/// Returns whether the characters of a category are not printed, or may change how others are.
fn hides(category: GeneralCategory) -> bool
    ensures { result ≡ hides category }
{
    matches!(
        category,
        GeneralCategory::Control
            | GeneralCategory::Format
            | GeneralCategory::LineSeparator
            | GeneralCategory::ParagraphSeparator
            | GeneralCategory::Surrogate
            | GeneralCategory::Unassigned
    )
}

/// Returns whether a character is not shown as it is, by its Unicode category: controls, formats such as a change of
/// direction, the ends of lines and of paragraphs, and code points that are no character.
pub fn is_hidden(character: char) -> bool
    ensures { result ≡ is_hidden character }
{
    hides(GeneralCategory::for_char(character))
}

/// Returns the hexadecimal digit for a number below 16.
fn hex_digit(number: u32) -> u8
    requires { number < 16 }
    ensures { result ≡ hex_digit number }
{
    let number = number as u8;
    if number < 10 {
        b'0' + number
    } else {
        b'a' - 10 + number
    }
}

/// Returns a unit of UTF-16 as a string of JSON has its escape.
fn escaped_unit(unit: u32) -> [u8; 6]
    requires { unit < 65536 }
    ensures { result ≡ escaped_unit unit }
{
    [
        b'\\',
        b'u',
        hex_digit(unit / 4096),
        hex_digit(unit / 256 % 16),
        hex_digit(unit / 16 % 16),
        hex_digit(unit % 16),
    ]
}

/// The escape of a character in a string of JSON: of its unit in UTF-16, or of both of its units.
#[derive(Clone, Copy)]
pub enum Escape {
    One([u8; 6]),
    Two([u8; 6], [u8; 6]),
}

/// Returns the escape of a character.
pub fn escape_of(character: char) -> Escape
    ensures { bytes_of result ≡ escape character }
{
    let code = character as u32;
    if code < 65_536 {
        return Escape::One(escaped_unit(code));
    }
    Escape::Two(
        escaped_unit(55_232 + code / 1024),
        escaped_unit(56_320 + code % 1024),
    )
}
