//! What is sent, stored together: many contents in one block of memory.

ghost use Rattle.std.specs.Prelude.{◌≡◌, ◌≤◌, ◌+◌, IsTrue, drop, length, take};

use migration_types::{Contents, Shared, SourceRec};
use session_grammar::Sizes;
use std::alloc::{AllocError, Global};

/// How many records at most have their contents in one block.
const BLOCK: usize = 512;

/// Stores together what the records send from one of them on, as far as there is memory for it. A single cell's value never has memory
/// of its own.
pub(crate) fn pack(sizes: Sizes, records: &mut Vec<SourceRec>, from: usize)
    ensures { records.new.items ≡ records.old.items }
{
    if sizes.cells < 2 {
        return;
    }
    let past = records.len();
    for block in 0..past.saturating_sub(from).div_ceil(BLOCK) {
        let first = from.saturating_add(block.saturating_mul(BLOCK)).min(past);
        pack_block(
            sizes.alloc,
            records,
            first,
            first.saturating_add(BLOCK).min(past),
        );
    }
}

/// Stores in one block what the records send from one of them up to another, if there is memory for it.
fn pack_block(alloc: Global, records: &mut Vec<SourceRec>, first: usize, past: usize)
    requires order { first ≤ past }
    requires within { past ≤ length records.old.items }
    ensures { records.new.items ≡ records.old.items }
{
    let Ok(block) = block_of(alloc, &records[first..past]) else {
        return;
    };
    let mut from = 0;
    for n in first..past {
        from = put_part(&mut records[n], &block, from);
    }
}

/// Returns what the records send, in their order. What is sent again at once is there once.
fn block_of(alloc: Global, records: &[SourceRec]) -> Result<Shared<u64>, AllocError> {
    let mut block = Vec::with_capacity(alloc, values_of(records))?;
    let mut last: &[u64] = &[];
    for rec in records {
        if let SourceRec::Send { contents, .. } = rec {
            if contents.as_slice() != last {
                block.extend_from_slice(contents.as_slice())?;
            }
            last = contents.as_slice();
        }
    }
    Shared::from_vec(block)
}

/// Returns how many values the records send, without what is sent again at once.
fn values_of(records: &[SourceRec]) -> usize {
    let mut count: usize = 0;
    let mut last: &[u64] = &[];
    for rec in records {
        if let SourceRec::Send { contents, .. } = rec {
            if contents.as_slice() != last {
                count = count.saturating_add(contents.as_slice().len());
            }
            last = contents.as_slice();
        }
    }
    count
}

/// Returns whether values stand at a place of others.
fn stands_at(all: &[u64], at: usize, values: &[u64]) -> bool
    ensures { IsTrue result → (at + length values.now ≤ length all.now) × (values.now ≡ take (length values.now) (drop at all.now)) }
{
    if at > all.len() || values.len() > all.len() - at {
        return false;
    }
    &all[at..at + values.len()] == values
}

/// Lets what a record sends be a part of a block, if that has the same before a place, or from there on. Returns the place behind.
fn put_part(rec: &mut SourceRec, block: &Shared<u64>, from: usize) -> usize
    ensures { rec.new ≡ rec.old }
{
    let SourceRec::Send { contents, .. } = rec else {
        return from;
    };
    let count = contents.as_slice().len();
    if from >= count && stands_at(block.as_slice(), from - count, contents.as_slice()) {
        put(contents, block, from - count, count);
        return from;
    }
    if stands_at(block.as_slice(), from, contents.as_slice()) {
        put(contents, block, from, count);
    }
    from.saturating_add(count)
}

/// Lets contents be this part of a block, which has the same there.
fn put(contents: &mut Contents, block: &Shared<u64>, from: usize, count: usize)
    requires within { from + count ≤ length block.now }
    requires same { contents.old ≡ take count (drop from block.now) }
    ensures { contents.new ≡ contents.old }
{
    if let Ok(part) = Contents::part(block, from, count) {
        *contents = part;
    }
}
