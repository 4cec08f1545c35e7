//! How the bytes of a text are shown.

use std::alloc::AllocError;

/// The greatest number of bytes in a quote.
const QUOTED: usize = 60;

/// The mark for bytes that are left out.
pub(crate) const CUT: &str = "..";

/// Returns whether a byte is shown as it is.
fn is_plain(byte: u8) -> bool {
    byte == b' ' || byte.is_ascii_graphic()
}

/// Returns how many columns a byte takes when it is shown.
pub(crate) fn width(byte: u8) -> usize {
    if is_plain(byte) { 1 } else { 4 }
}

/// Appends bytes as they are shown. A byte that is not printable ASCII becomes `\xNN`.
pub(crate) fn push_shown(out: &mut String, bytes: &[u8]) -> Result<(), AllocError> {
    for byte in bytes {
        let byte = *byte;
        if is_plain(byte) {
            out.push(char::from(byte))?;
        } else {
            write!(out, "\\x{byte:02x}")?;
        }
    }
    Ok(())
}

/// Appends what follows the first bytes that are shown of some, if there are more.
fn push_cut(out: &mut String, left_out: &[u8]) -> Result<(), AllocError> {
    out.push_str(if left_out.is_empty() { "" } else { CUT })
}

/// Appends bytes as they are shown. If they are many, it shows the first of them.
pub(crate) fn push_short(out: &mut String, bytes: &[u8]) -> Result<(), AllocError> {
    let (shown, left_out) = bytes.split_at(bytes.len().min(QUOTED));
    push_shown(out, shown)?;
    push_cut(out, left_out)
}

/// Appends bytes between quotation marks. If they are many, it shows the first of them. Fails only if memory runs out.
pub fn push_quote(out: &mut String, bytes: &[u8]) -> Result<(), AllocError> {
    let (shown, left_out) = bytes.split_at(bytes.len().min(QUOTED));
    out.push('"')?;
    push_shown(out, shown)?;
    out.push('"')?;
    push_cut(out, left_out)
}
