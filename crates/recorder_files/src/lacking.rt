//! What a log lacks.

ghost use Rattle.std.specs.Prelude.{◌≡◌, ◌<◌, ◌++◌, IfOk, OnOk, length, slice_get, Some, take, drop, ◌+◌};
ghost use Rattle.std.specs.Option.{option_to_list};
ghost use Rattle.recorder_files.specs.Lacks.{begin_lack, is_gone_on, lacks, lacks_at, left_lack, record_count};
ghost use Rattle.recorder_files.specs.declared.log_parts.LogPart.{LogPart as LogPart};

use crate::lines::Last;
use crate::log_parts::LogPart;
use std::alloc::{AllocError, Global};

/// What a log lacks. Files are counted from 0.
#[derive(Clone, Copy)]
pub enum LogLack {
    /// The part that begins in this file does not go on where those in front of it end.
    Begin {
        file: usize,
        /// The number with which it was opened.
        first: u32,
        /// How many records those in front of it have.
        front: u64,
    },
    /// No file of the part that begins in this one tells how it was left.
    End {
        file: usize,
    },
    /// This file tells that a record was not written, because of this system error.
    Record {
        file: usize,
        errno: u32,
    },
    /// This file tells that another process goes on after this many records, and no later part begins there.
    Heir {
        file: usize,
        count: u32,
    },
}

/// Returns how many records a log of these parts has: the greatest of their counts.
pub fn count_records(parts: &[LogPart]) -> u64
    ensures { result ≡ record_count parts.now }
{
    let mut count = 0;
    for part in parts {
        count = part.count.max(count);
    }
    count
}

/// Returns whether one of the later parts was opened with this number.
fn is_gone_on(later: &[LogPart], count: u32) -> bool
    ensures { result ≡ is_gone_on later.now count }
{
    later.iter().any(|part| part.first == count)
}

/// Returns what is lacking where one of the parts begins.
fn lack_of_begin(parts: &[LogPart], at: usize) -> Option<LogLack>
    requires { at < length parts.now }
    ensures { (p : LogPart) → slice_get parts.now at ≡ Some p → result ≡ begin_lack (record_count (take at parts.now)) p }
{
    let part = parts[at];
    let front = count_records(&parts[..at]);
    if u64::from(part.first) != front && u64::from(part.first) < part.count {
        Some(LogLack::Begin {
            file: part.file,
            first: part.first,
            front,
        })
    } else {
        None
    }
}

/// Returns what is lacking where one of the parts ends.
fn lack_of_end(parts: &[LogPart], at: usize) -> Option<LogLack>
    requires { at < length parts.now }
    ensures { (p : LogPart) → slice_get parts.now at ≡ Some p → result ≡ left_lack (drop (at + 1) parts.now) p.file p.left }
{
    let part = parts[at];
    match part.left {
        None => Some(LogLack::End { file: part.file }),
        Some(left) => match left.last {
            Last::End(_) => None,
            Last::Lost(errno) => Some(LogLack::Record {
                file: left.file,
                errno,
            }),
            Last::Next(count) => {
                if is_gone_on(&parts[at + 1..], count) {
                    None
                } else {
                    Some(LogLack::Heir {
                        file: left.file,
                        count,
                    })
                }
            }
        },
    }
}

/// Appends what is lacking, if something is.
fn push_lack(lacks: &mut Vec<LogLack>, lack: Option<LogLack>) -> Result<(), AllocError>
    ensures { OnOk result (lacks.new.items ≡ lacks.old.items ++ option_to_list lack) }
{
    match lack {
        Some(lack) => {
            lacks.push(lack)?;
            Ok(())
        }
        None => Ok(()),
    }
}

/// Appends what is lacking at one of the parts.
fn push_lacks(parts: &[LogPart], at: usize, lacks: &mut Vec<LogLack>) -> Result<(), AllocError>
    requires { at < length parts.now }
    ensures { OnOk result ((p : LogPart) → slice_get parts.now at ≡ Some p → lacks.new.items ≡ lacks.old.items ++ lacks_at (take at parts.now) p (drop (at + 1) parts.now)) }
{
    push_lack(lacks, lack_of_begin(parts, at))?;
    push_lack(lacks, lack_of_end(parts, at))?;
    Ok(())
}

/// Returns what a log of these parts lacks, part after part.
pub fn find_lacks(alloc: Global, parts: &[LogPart]) -> Result<Vec<LogLack>, AllocError>
    ensures { IfOk result (λ list. list.items ≡ lacks parts.now) }
{
    let mut lacks = Vec::new(alloc);
    for at in 0..parts.len() {
        push_lacks(parts, at, &mut lacks)?;
    }
    Ok(lacks)
}
