//! Packets from bytes.

ghost use Rattle.std.specs.Prelude.{◌≡◌, ◌++◌, ◌<◌, ◌≤◌, ◌^◌, ℕ, List, length, IfOk, MatchOption};
ghost use Rattle.std.specs.List.{flat_map};
ghost use Rattle.migration_types.specs.Contents.{IsContent};
ghost use Rattle.migration_types.specs.Limits.{most_cells, most_records};
ghost use Rattle.migration_types.specs.Extents.{Extent};
ghost use Rattle.page_stream.specs.Bytes.{number_bytes, cell_bytes, body_of, Rises, Fits, IsNoBody};
ghost use Rattle.page_stream.specs.inner.Fronts.{IsNoFields, AreFields};

use crate::Packet;
use migration_types::{Contents, Geometry, LAST_RECORD, PageNo, Shared};
use std::alloc::{AllocError, Global};

/// Returns the number of 4 bytes at the front, and what follows it.
pub(crate) fn number_at(bytes: &[u8]) -> Option<(u32, &[u8])>
    ensures { MatchOption result (length bytes.now < 4) (λ x. (bytes.now ≡ number_bytes x.0 ++ x.1.now) × (x.0 < 2 ^ 32)) }
{
    let (front, rest) = bytes.split_first_chunk::<4>()?;
    Some((u32::from_be_bytes(*front), rest))
}

/// Returns the cell at the front, and what follows it.
fn cell_at(bytes: &[u8]) -> Option<(u64, &[u8])>
    ensures { MatchOption result (length bytes.now < 8) (λ x. bytes.now ≡ cell_bytes x.0 ++ x.1.now) }
{
    let (front, rest) = bytes.split_first_chunk::<8>()?;
    Some((u64::from_be_bytes(*front), rest))
}

/// Returns the pages that these bytes list, if they rise.
fn pages_of(
    alloc: Global,
    geometry: Geometry,
    bytes: &[u8],
) -> Result<Option<Vec<PageNo>>, AllocError>
    ensures { IfOk result (λ found. MatchOption found
        ((ps : List ℕ) → Rises 0 geometry.pages ps → bytes.now ≡ flat_map number_bytes ps → ⊥)
        (λ v. Rises 0 geometry.pages v.items × (bytes.now ≡ flat_map number_bytes v.items))) }
{
    geometry.keeps_limits();
    let mut pages = Vec::with_capacity(alloc, bytes.len() / 4)?;
    let mut next = 0;
    let mut rest = bytes;
    while let Some((page, after)) = number_at(rest) {
        if page < next || page >= geometry.pages() {
            return Ok(None);
        }
        pages.push(PageNo::new(page))?;
        next = page + 1;
        rest = after;
    }
    if rest.is_empty() {
        Ok(Some(pages))
    } else {
        Ok(None)
    }
}

/// Returns the cells that these bytes hold.
fn cells_of(alloc: Global, count: u32, bytes: &[u8]) -> Result<Option<Vec<u64>>, AllocError>
    requires { count ≤ most_cells }
    ensures { IfOk result (λ found. MatchOption found
        ((cs : List ℕ) → IsContent count cs → bytes.now ≡ flat_map cell_bytes cs → ⊥)
        (λ v. IsContent count v.items × (bytes.now ≡ flat_map cell_bytes v.items))) }
{
    let count = count as usize;
    if bytes.len() != 8 * count {
        return Ok(None);
    }
    let mut cells = Vec::with_capacity(alloc, count)?;
    let mut rest = bytes;
    while let Some((cell, after)) = cell_at(rest) {
        cells.push(cell)?;
        rest = after;
    }
    Ok(Some(cells))
}

fn state_of(
    alloc: Global,
    geometry: Geometry,
    number: u32,
    fields: &[u8],
) -> Result<Option<Packet>, AllocError>
    requires { number < most_records }
    ensures { IfOk result (λ found. MatchOption found (IsNoFields geometry 1 number fields.now) (AreFields geometry 1 number fields.now)) }
{
    geometry.keeps_limits();
    match number_at(fields) {
        None => Ok(None),
        Some((count, rest)) => {
            if rest.len() != 4 * count as usize {
                return Ok(None);
            }
            match pages_of(alloc, geometry, rest)? {
                None => Ok(None),
                Some(pages) => {
                    let released = Shared::from_vec(pages)?;
                    Ok(Some(Packet::State { number, released }))
                }
            }
        }
    }
}

fn page_of(
    alloc: Global,
    geometry: Geometry,
    number: u32,
    fields: &[u8],
) -> Result<Option<Packet>, AllocError>
    requires { number < most_records }
    ensures { IfOk result (λ found. MatchOption found (IsNoFields geometry 2 number fields.now) (AreFields geometry 2 number fields.now)) }
{
    geometry.keeps_limits();
    match number_at(fields) {
        None => Ok(None),
        Some((page, rest)) => {
            if page >= geometry.pages() {
                return Ok(None);
            }
            match cells_of(alloc, geometry.cells(), rest)? {
                None => Ok(None),
                Some(cells) => Ok(Some(Packet::Page {
                    number,
                    page: PageNo::new(page),
                    cells: Contents::from_vec(cells),
                })),
            }
        }
    }
}

fn want_of(geometry: Geometry, number: u32, fields: &[u8]) -> Option<Packet>
    requires { number < most_records }
    ensures { MatchOption result (IsNoFields geometry 3 number fields.now) (AreFields geometry 3 number fields.now) }
{
    geometry.keeps_limits();
    match number_at(fields) {
        None => None,
        Some((page, rest)) => {
            if page >= geometry.pages() || !rest.is_empty() {
                return None;
            }
            Some(Packet::Want {
                number,
                page: PageNo::new(page),
            })
        }
    }
}

fn all_of(number: u32, fields: &[u8]) -> Option<Packet>
    requires { number < most_records }
    ensures { (e : Extent) → MatchOption result (IsNoFields e 4 number fields.now) (AreFields e 4 number fields.now) }
{
    if fields.is_empty() {
        Some(Packet::All { number })
    } else {
        None
    }
}

fn fields_of_kind(
    alloc: Global,
    geometry: Geometry,
    kind: u8,
    number: u32,
    fields: &[u8],
) -> Result<Option<Packet>, AllocError>
    requires { number < most_records }
    ensures { IfOk result (λ found. MatchOption found (IsNoFields geometry kind number fields.now) (AreFields geometry kind number fields.now)) }
{
    match kind {
        1 => state_of(alloc, geometry, number, fields),
        2 => page_of(alloc, geometry, number, fields),
        3 => Ok(want_of(geometry, number, fields)),
        4 => Ok(all_of(number, fields)),
        _ => Ok(None),
    }
}

/// Returns the packet that these bytes are, which follow its length.
pub(crate) fn decode(
    alloc: Global,
    geometry: Geometry,
    body: &[u8],
) -> Result<Option<Packet>, AllocError>
    ensures { IfOk result (λ found. MatchOption found (IsNoBody geometry body.now) (λ p. Fits geometry p × (body.now ≡ body_of p))) }
{
    match body {
        [] => Ok(None),
        [kind, rest @ ..] => match number_at(rest) {
            None => Ok(None),
            Some((number, fields)) => {
                if number > LAST_RECORD {
                    return Ok(None);
                }
                fields_of_kind(alloc, geometry, *kind, number, fields)
            }
        },
    }
}
