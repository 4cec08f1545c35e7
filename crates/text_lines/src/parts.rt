//! Reading items of consecutive lines by several threads at once.

ghost use Rattle.std.specs.Prelude.{◌≤◌, [], length};
ghost use Rattle.std.specs.Thread.{IsSend, IsSync};
ghost use Rattle.text_lines.specs.Counted.{TakesItems};

use crate::LineForm;
use crate::counted::take_items;
use memchr::memchr;
use std::alloc::Global;
use std::thread::{Threads, join_mut};

/// A part of the items, read into a list of its own, with what follows them and how many they were.
#[derive(Drop)]
struct Part<'a, T> {
    items: Vec<T>,
    rest: &'a [u8],
    count: u32,
}

/// Fewer bytes than this are left to one thread.
const SMALL: usize = 65_536;

/// Returns the first start of a line at or after a place, or the end.
fn line_start(bytes: &[u8], at: usize) -> usize
    ensures { result ≤ length bytes.now }
{
    if at == 0 || at >= bytes.len() {
        return at.min(bytes.len());
    }
    match memchr(b'\n', &bytes[at - 1..]) {
        Some(behind) => at + behind,
        None => bytes.len(),
    }
}

/// Reads items at the front of the bytes into a list of their own, at most `most` of them.
fn read_part<'a, F: LineForm>(
    form: &F,
    alloc: Global,
    most: u32,
    bytes: &'a [u8],
) -> Part<'a, F::Item>
    requires { F.IsForm form.now }
    ensures { TakesItems F.spell (F.Fits form.now) F.MayFollow [] result.items.items bytes.now result.rest.now result.count }
{
    let mut items = Vec::new(alloc);
    let (rest, count) = take_items(form, &mut items, most, bytes);
    Part { items, rest, count }
}

/// Appends the items of a part of the bytes if they are at most `most` and the first is allowed there. Returns what
/// follows the appended items, and how many they were.
fn add_part<'a, F: LineForm>(
    form: &F,
    items: &mut Vec<F::Item>,
    most: u32,
    bytes: &'a [u8],
    part: Part<'a, F::Item>,
) -> (&'a [u8], u32)
    requires form { F.IsForm form.now }
    requires part { TakesItems F.spell (F.Fits form.now) F.MayFollow [] part.items.items bytes.now part.rest.now part.count }
    ensures taken { TakesItems F.spell (F.Fits form.now) F.MayFollow items.old.items items.new.items bytes.now result.0.now result.1 }
    ensures most { result.1 ≤ most }
{
    let Some(first) = part.items.first() else {
        return (bytes, 0);
    };
    if part.count > most || !form.may_follow(items, first) {
        return (bytes, 0);
    }
    let mut more = part.items;
    if items.append(&mut more).is_err() {
        return (bytes, 0);
    }
    (part.rest, part.count)
}

/// Reads items as `take_parts` does, in parts that begin `size` bytes apart. The calling thread reads the first part
/// straight into the list. Each other part gets a list of its own, and a thread of its own if one can be started. These
/// lists are appended in order, while later parts are still being read.
#[cycle(each)]
fn take_each<'a, R: Threads + Sync, X: Send + Drop, F: LineForm<Item = X> + Sync>(
    rt: &R,
    form: &F,
    parts: usize,
    size: usize,
    items: &mut Vec<X>,
    most: u32,
    bytes: &'a [u8],
) -> (&'a [u8], u32)
    requires { F.IsForm form.now }
    ensures taken { TakesItems F.spell (F.Fits form.now) F.MayFollow items.old.items items.new.items bytes.now result.0.now result.1 }
    ensures most { result.1 ≤ most }
{
    if parts < 2 {
        return take_items(form, items, most, bytes);
    }
    let before = parts - 1;
    let alloc = *items.allocator();
    let (front, last) = bytes.split_at(line_start(bytes, before.saturating_mul(size)));
    let mut read_last = || -> Part<'_, X>
        requires { F.IsForm form.now }
        ensures { TakesItems F.spell (F.Fits form.entry.now) F.MayFollow [] result.items.items last.entry.now result.rest.now result.count }
    { read_part(form, alloc, most, last) };
    let mut take_front = || -> (&[u8], u32)
        requires { IsSync R.row × IsSync F.row × IsSend X.row × F.IsForm form.now }
        ensures taken { TakesItems F.spell (F.Fits form.entry.now) F.MayFollow items.entry.now.items items.exit.now.items front.entry.now result.0.now result.1 }
        ensures most { result.1 ≤ most }
    { take_each(rt, form, before, size, items, most, front) };
    let (part, (rest, count)) = join_mut(rt, &mut read_last, &mut take_front);
    if rest.is_empty() {
        let (rest, more) = add_part(form, items, most - count, last, part);
        return (rest, count + more);
    }
    let (_, rest) = bytes.split_at(front.len() - rest.len());
    (rest, count)
}

/// Reads items at the front of the bytes, at most `most`, in this many parts at once; it may stop after any item. Each
/// part has a thread of its own if one can be started. Returns what follows, and how many they were.
pub fn take_parts<'a, R: Threads + Sync, X: Send + Drop, F: LineForm<Item = X> + Sync>(
    rt: &R,
    form: &F,
    parts: usize,
    items: &mut Vec<X>,
    most: u32,
    bytes: &'a [u8],
) -> (&'a [u8], u32)
    requires { F.IsForm form.now }
    ensures taken { TakesItems F.spell (F.Fits form.now) F.MayFollow items.old.items items.new.items bytes.now result.0.now result.1 }
    ensures most { result.1 ≤ most }
{
    if parts < 2 || most == 0 || bytes.len() < SMALL {
        return take_items(form, items, most, bytes);
    }
    take_each(rt, form, parts, bytes.len() / parts + 1, items, most, bytes)
}
