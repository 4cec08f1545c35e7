//! Packets to bytes.

ghost use Rattle.std.specs.Prelude.{true, ◌≡◌, ◌∷◌, ◌++◌, ◌≤◌, length, OnOk, IfOk, MatchBool};
ghost use Rattle.std.specs.List.{flat_map};
ghost use Rattle.migration_types.specs.Contents.{IsContent};
ghost use Rattle.migration_types.specs.Limits.{most_pages, most_cells};
ghost use Rattle.page_stream.specs.Bytes.{number_bytes, cell_bytes, packet_bytes, Rises, Fits, IsShort};
ghost use Rattle.page_stream.specs.declared.Packet.TheVariants.{State as StatePacket, Page as PagePacket};

use crate::Packet;
use migration_types::{Geometry, LAST_RECORD, PageNo};
use std::alloc::{AllocError, Global};

fn put_numbers(out: &mut Vec<u8>, pages: &[PageNo]) -> Result<(), AllocError>
    ensures { OnOk result (out.new.items ≡ out.old.items ++ flat_map number_bytes pages.now) }
{
    for page in pages {
        out.extend_from_slice(&page.number().to_be_bytes())?;
    }
    Ok(())
}

fn put_cells(out: &mut Vec<u8>, cells: &[u64]) -> Result<(), AllocError>
    ensures { OnOk result (out.new.items ≡ out.old.items ++ flat_map cell_bytes cells.now) }
{
    for cell in cells {
        out.extend_from_slice(&cell.to_be_bytes())?;
    }
    Ok(())
}

fn put_number(out: &mut Vec<u8>, number: u32) -> Result<(), AllocError>
    ensures { OnOk result (out.new.items ≡ out.old.items ++ number_bytes number) }
{
    out.extend_from_slice(&number.to_be_bytes())
}

/// Appends the beginning of a packet, and makes room for the rest of it.
fn put_head(out: &mut Vec<u8>, length: u32, kind: u8, number: u32) -> Result<(), AllocError>
    ensures { OnOk result (out.new.items ≡ out.old.items ++ (number_bytes length ++ kind ∷ number_bytes number)) }
{
    out.reserve(4 + length as usize)?;
    put_number(out, length)?;
    out.push(kind)?;
    put_number(out, number)
}

fn put_state(out: &mut Vec<u8>, number: u32, released: &[PageNo]) -> Result<(), AllocError>
    requires { length released.now ≤ most_pages }
    ensures { OnOk result (out.new.items ≡ out.old.items ++ packet_bytes (StatePacket number released.now)) }
{
    let count = released.len() as u32;
    put_head(out, 9 + 4 * count, 1, number)?;
    put_number(out, count)?;
    put_numbers(out, released)?;
    Ok(())
}

fn put_page(out: &mut Vec<u8>, number: u32, page: PageNo, cells: &[u64]) -> Result<(), AllocError>
    requires { length cells.now ≤ most_cells }
    ensures { OnOk result (out.new.items ≡ out.old.items ++ packet_bytes (PagePacket number page cells.now)) }
{
    put_head(out, 9 + 8 * cells.len() as u32, 2, number)?;
    put_number(out, page.number())?;
    put_cells(out, cells)?;
    Ok(())
}

/// Appends the bytes of a packet. Fails only if memory runs out; some of them may then have been appended.
pub(crate) fn put_packet(out: &mut Vec<u8>, packet: &Packet) -> Result<(), AllocError>
    requires { IsShort packet.now }
    ensures { OnOk result (out.new.items ≡ out.old.items ++ packet_bytes packet.now) }
{
    match packet {
        Packet::State { number, released } => put_state(out, *number, released.as_slice()),
        Packet::Page {
            number,
            page,
            cells,
        } => put_page(out, *number, *page, cells.as_slice()),
        Packet::Want { number, page } => {
            put_head(out, 9, 3, *number)?;
            put_number(out, page.number())
        }
        Packet::All { number } => put_head(out, 5, 4, *number),
    }
}

/// Returns the bytes of a packet: a length, which counts what follows it, a kind byte, the record number, and the
/// fields. Numbers take 4 bytes and cells 8, the highest byte first. The packet must not have more released pages than
/// a machine has pages, nor more cells than a page has; a packet that `fits` some geometry never does. Fails only if
/// memory runs out.
pub fn encode(alloc: Global, packet: &Packet) -> Result<Vec<u8>, AllocError>
    requires { IsShort packet.now }
    ensures { IfOk result (λ v. v.items ≡ packet_bytes packet.now) }
{
    let mut out = Vec::new(alloc);
    put_packet(&mut out, packet)?;
    Ok(out)
}

fn pages_fit(geometry: Geometry, pages: &[PageNo]) -> bool
    ensures few { result ≡ true → length pages.now ≤ most_pages }
    ensures rises { MatchBool result (Rises 0 geometry.pages pages.now) (Rises 0 geometry.pages pages.now → ⊥) }
{
    geometry.keeps_limits();
    let mut next = 0;
    for page in pages {
        let page = page.number();
        if page < next || page >= geometry.pages() {
            return false;
        }
        next = page + 1;
    }
    true
}

fn contents_fit(cells: u32, values: &[u64]) -> bool
    requires { cells ≤ most_cells }
    ensures few { result ≡ true → length values.now ≤ most_cells }
    ensures fits { MatchBool result (IsContent cells values.now) (IsContent cells values.now → ⊥) }
{
    if values.len() != cells as usize {
        return false;
    }
    true
}

/// Returns whether a machine of this geometry sends the packet, so that the packet has bytes: its record number is at
/// most 1,048,575, its pages are below the page count, released pages rise, and contents have as many cells as a page.
pub fn fits(geometry: Geometry, packet: &Packet) -> bool
    ensures fits { MatchBool result (Fits geometry packet.now) (Fits geometry packet.now → ⊥) }
    ensures short { result ≡ true → IsShort packet.now }
{
    geometry.keeps_limits();
    if packet.number() > LAST_RECORD {
        return false;
    }
    match packet {
        Packet::State {
            number: _,
            released,
        } => pages_fit(geometry, released.as_slice()),
        Packet::Page {
            number: _,
            page,
            cells,
        } => {
            if page.number() >= geometry.pages() {
                return false;
            }
            contents_fit(geometry.cells(), cells.as_slice())
        }
        Packet::Want { number: _, page } => page.number() < geometry.pages(),
        Packet::All { number: _ } => true,
    }
}
