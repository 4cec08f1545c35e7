//! Records as a recorder writes them.

ghost use Rattle.std.specs.Prelude.{◌≡◌, ◌≢◌, ◌≤◌, ℕ, ◌++◌, length, IfSome, IfNone};
ghost use Rattle.std.specs.Fmt.{decimal};
ghost use Rattle.recordings.specs.Wide.{extent_of};
ghost use Rattle.recorder_files.specs.Raw.{lost_number, raw_source_line, raw_pager_line, IsRawSourceOf, IsRawPagerOf};

use crate::records::LogRecord;
use recordings::{WideMachine, WidePager, WideSource};
use std::alloc::Global;
use text_lines::{FaultKind, read_keyed};

const ASK_SENT_KEY: &[u8] = b"ask-sent ";

const GOT_SENT_KEY: &[u8] = b"got-sent ";

const PULL_SENT_KEY: &[u8] = b"pull-sent ";

/// A record of the source as a recorder writes it.
#[derive(Drop)]
pub enum RawSource {
    /// A record of a session.
    Own(WideSource),
    /// An `ask` that names the record with which the pager sent it.
    AskSent { asking: u64 },
}

/// A record of the pager as a recorder writes it.
#[derive(Drop)]
pub enum RawPager {
    /// A record of a session.
    Own(WidePager),
    /// A `got` that names the record with which the source sent the packet.
    GotSent { sending: u64 },
    /// A `pull` that names the record with which the source sent the packet.
    PullSent { sending: u64 },
}

/// Returns the number after a key, if the line is these two. Most other lines differ from the key in its last byte but
/// one, which is compared first.
#[inline(always)]
fn sent(line: &[u8], key: &[u8]) -> Option<u64>
    requires { 2 ≤ length key.now }
    ensures found { IfSome result (λ n. (n ≤ lost_number) × (line.now ≡ key.now ++ decimal n)) }
    ensures none { IfNone result ((n : ℕ) → n ≤ lost_number → line.now ≢ key.now ++ decimal n) }
{
    let near = key.len() - 2;
    if line.len() <= near || line[near] != key[near] {
        return None;
    }
    match read_keyed(line, key, u32::MAX) {
        Ok(number) => Some(u64::from(number)),
        Err(_) => None,
    }
}

impl LogRecord for RawSource {
    ghost line = { raw_source_line };

    ghost IsOf = { λ machine r. IsRawSourceOf (extent_of machine) r };

    #[inline(always)]
    fn read_line(
        alloc: Global,
        machine: &WideMachine,
        text: &[u8],
    ) -> Result<RawSource, FaultKind> {
        if let Some(asking) = sent(text, ASK_SENT_KEY) {
            return Ok(RawSource::AskSent { asking });
        }
        match WideSource::read(alloc, machine, text) {
            Ok(rec) => Ok(RawSource::Own(rec)),
            Err(kind) => Err(kind),
        }
    }
}

impl LogRecord for RawPager {
    ghost line = { raw_pager_line };

    ghost IsOf = { λ machine r. IsRawPagerOf machine.version (extent_of machine) r };

    #[inline(always)]
    fn read_line(alloc: Global, machine: &WideMachine, text: &[u8]) -> Result<RawPager, FaultKind> {
        if let Some(sending) = sent(text, GOT_SENT_KEY) {
            return Ok(RawPager::GotSent { sending });
        }
        if let Some(sending) = sent(text, PULL_SENT_KEY) {
            return Ok(RawPager::PullSent { sending });
        }
        match WidePager::read(alloc, machine, text) {
            Ok(rec) => Ok(RawPager::Own(rec)),
            Err(kind) => Err(kind),
        }
    }
}
