//! Records and packets with the contents of a page, and the memory for them.

ghost use Rattle.std.specs.Prelude.{◌≡◌, ◌+◌, ◌<◌, ◌≤◌, ◌⊎◌, ◌++◌, ◌∷◌, [], Some, slice_get, option_and_then, length, vec_len, vec_capacity, IfOk, OnOk, IsErrOf};
ghost use Rattle.migration_types.specs.Limits.{most_records};
ghost use Rattle.active_push.specs.inner.Sent.{contents_in};
ghost use Rattle.page_store.specs.Tables.{values, with_value, pages_of, IsWith};

use crate::SourceFault;
use migration_types::{Contents, PageNo, SourceRec};
use page_store::Table;
use page_stream::Packet;
use std::alloc::{AllocError, Global};

/// Makes room for this many more records.
pub fn make_room(log: &mut Vec<SourceRec>, count: usize) -> Result<(), SourceFault>
    ensures items { log.new.items ≡ log.old.items }
    ensures room { OnOk result (vec_len log.new + count ≤ vec_capacity log.new) }
    ensures full { IsErrOf result SourceFault.LogFull → ⊥ }
{
    log.reserve(count).map_err(|_| SourceFault::Memory)
}

/// Returns memory for the contents of a page that is not chosen yet. A single value needs none. Fails only if memory
/// runs out.
pub fn blank(alloc: Global, cells: usize) -> Result<Vec<u64>, AllocError>
    ensures { IfOk result (λ v. (cells ≡ 1) ⊎ (length v.items ≡ cells)) }
{
    if cells == 1 {
        return Ok(Vec::new(alloc));
    }
    vec![in alloc; 0; cells]
}

/// Returns contents with these values, in memory that was allocated for them.
pub fn filled(blank: Vec<u64>, values: &[u64]) -> Contents
    requires { (length values.now ≡ 1) ⊎ (length blank.items ≡ length values.now) }
    ensures { result ≡ values.now }
{
    match values {
        [value] => Contents::one(*value),
        _ => {
            let mut cells = blank;
            cells.copy_from_slice(values);
            Contents::from_vec(cells)
        }
    }
}

/// A page's contents twice: for the record that sends it, and for the packet.
#[derive(Drop)]
pub struct Copies {
    pub record: Contents,
    pub packet: Contents,
}

/// Returns a page's contents twice. Fails only if memory runs out.
pub fn copied_twice(alloc: Global, values: &[u64]) -> Result<Copies, AllocError>
    ensures record { IfOk result (λ c. c.record ≡ values.now) }
    ensures packet { IfOk result (λ c. c.packet ≡ values.now) }
{
    let record = Contents::copied(alloc, values)?;
    let packet = Contents::copied(alloc, values)?;
    Ok(Copies { record, packet })
}

/// Returns the contents that a record sends, which are shared with the record from then on, or `None` if it is not a
/// `send`. The record stays as it was. Fails only if memory runs out.
fn shared_of(alloc: Global, rec: &mut SourceRec) -> Result<Option<Contents>, AllocError>
    ensures same { rec.new ≡ rec.old }
    ensures ok { IfOk result (λ found. found ≡ contents_in rec.old) }
{
    match rec {
        SourceRec::Send { page: _, contents } => {
            contents.share(alloc)?;
            let shared = contents.another(alloc)?;
            Ok(Some(shared))
        }
        _ => Ok(None),
    }
}

/// Returns the contents of the `send` at this place, which are shared with it from then on, or `None` if there is no
/// `send`. Fails only if memory runs out.
pub fn sent_again(
    alloc: Global,
    log: &mut Vec<SourceRec>,
    sending: u32,
) -> Result<Option<Contents>, AllocError>
    ensures same { log.new.items ≡ log.old.items }
    ensures ok { IfOk result (λ found. found ≡ option_and_then contents_in (slice_get log.old.items sending)) }
{
    match log.get_mut(sending as usize) {
        Some(rec) => shared_of(alloc, rec),
        None => Ok(None),
    }
}

/// Sends a page for the first time: notes its record and its number, and returns the packet.
pub fn send(
    log: &mut Vec<SourceRec>,
    sent: &mut Table<Option<u32>>,
    page: PageNo,
    contents: Copies,
) -> Packet
    requires room { vec_len log.old < vec_capacity log.old }
    requires short { length log.old.items < most_records }
    requires page { page < pages_of sent.old }
    ensures log { log.new.items ≡ log.old.items ++ SourceRec.Send page contents.record ∷ [] }
    ensures sent { IsWith sent.old sent.new (with_value page (Some (length log.old.items)) (values sent.old)) }
    ensures packet { result ≡ Packet.Page (length log.old.items) page contents.packet }
{
    let number = log.len() as u32;
    log.push_reserved(SourceRec::Send {
        page,
        contents: contents.record,
    });
    sent.set(page, Some(number));
    Packet::Page {
        number,
        page,
        cells: contents.packet,
    }
}
