//! Where logs are cut, and why, in words.

ghost use Rattle.std.specs.Prelude.{◌≤◌, ⊤, OnOk};
ghost use Rattle.migration_types.specs.Sessions.{Recorded, log_length};
ghost use Rattle.recorder_files.specs.Fronts.{cursors_of};
ghost use Rattle.recorder_files.specs.Named.{IsNaming};
ghost use Rattle.session_commands.specs.Telling.{SaysUnless};

use crate::facts::Facts;
use crate::files::OpenedLogs;
use crate::places::{FoundRecord, push_place};
use crate::stops::{Stop, add};
use crate::words::{Piece, push, push_message, push_sentence, sentence, word_at};
use migration_types::LogName;
use recorder_files::{Front, LOST, Party, named_by};
use recordings::{Visitor, Wide, WideInit, WideMachine};
use std::alloc::{AllocError, Global};
use text_access::TextSource;
use text_lines::read_decimal;

/// The record in front of which a log is cut.
#[derive(Drop)]
struct End {
    log: LogName,
    /// Its line, with the line feed.
    line: Vec<u8>,
    /// The record that it names.
    named: Option<(LogName, u64)>,
}

/// A visitor that keeps the records in front of which the logs are cut.
#[derive(Drop)]
pub(crate) struct Ends {
    alloc: Global,
    front: Front,
    ends: Vec<End>,
}

impl Ends {
    /// Returns a visitor that has met nothing. The logs are cut to this front.
    pub fn new(alloc: Global, front: Front) -> Self {
        Ends {
            alloc,
            front,
            ends: Vec::new(alloc),
        }
    }

    /// Keeps a record, whose number this is, if its log is cut in front of it.
    fn keep(&mut self, number: u64, rec: &Wide) -> Result<(), AllocError> {
        let log = rec.log();
        if number != self.front.of(log) {
            return Ok(());
        }
        let mut line = Vec::new(self.alloc);
        rec.push(&mut line)?;
        let named = named_by(rec);
        add(&mut self.ends, End { log, line, named })
    }
}

impl Visitor for Ends {
    ghost IsNew = { λ _. ⊤ };

    ghost Met = { λ _ _. ⊤ };

    fn machine(&mut self, machine: &WideMachine) -> Result<(), AllocError> {
        let _ = machine;
        let _front = self.front;
        Ok(())
    }

    fn init(&mut self, page: WideInit) -> Result<(), AllocError> {
        let _ = page.page;
        let _front = self.front;
        Ok(())
    }

    fn record(&mut self, number: u64, rec: Wide) -> Result<(), AllocError> {
        let kept = self.keep(number, &rec);
        drop(rec);
        kept
    }
}

/// The beginning of a record of the source in a file that has the number of the pager's record, and not that of its delivery.
const ASK_SENT: &[u8] = b"ask-sent ";

/// Returns the number of the pager's record that a record of the source names in its file, if it was not lost.
fn asked_number(text: &[u8]) -> Option<&[u8]> {
    let number = text.strip_prefix(ASK_SENT)?;
    if read_decimal(number) == Some(LOST) {
        None
    } else {
        Some(number)
    }
}

/// Appends that the number of the record that a record names was lost, or that it names one of the pager's log, if it stands so
/// in its file.
fn push_lost(
    out: &mut Vec<u8>,
    alloc: Global,
    line: &[u8],
    other: LogName,
    found: &Option<FoundRecord>,
) -> Result<(), AllocError> {
    if let Some(found) = found {
        let text = found.text.as_slice();
        if let Some(number) = asked_number(text) {
            return push_sentence(
                out,
                alloc,
                ", {}, names record {} of the pager's log, which is not there",
                &[Piece::Spelled(text), Piece::Bytes(number)],
            );
        }
    }
    push_sentence(
        out,
        alloc,
        ", {}, names no record of the {}'s log: the number was lost",
        &[Piece::Spelled(line), Piece::Text(other.word())],
    )
}

/// Appends that the record that a record names is missing, and why.
fn push_missing(
    out: &mut Vec<u8>,
    alloc: Global,
    line: &[u8],
    other: LogName,
    number: u64,
    count: u64,
) -> Result<(), AllocError> {
    let form = if number < count {
        ", {}, names record {} of the {}'s log, which is left out too"
    } else if count == 0 && (other == LogName::Link || other == LogName::Lane) {
        ", {}, names record {} of the {}'s log, which is not there: where nobody writes the {}'s log it is '{}_sent' that \
         takes the sender's number"
    } else {
        ", {}, names record {} of the {}'s log, which is not there"
    };
    let log = Piece::Text(other.word());
    push_sentence(
        out,
        alloc,
        form,
        &[
            Piece::Spelled(line),
            Piece::Count(number),
            log,
            log,
            Piece::Bytes(word_at(line, 0)),
        ],
    )
}

/// Appends a record, and why its log is cut in front of it.
fn push_cause(
    out: &mut Vec<u8>,
    alloc: Global,
    end: &End,
    found: &Option<FoundRecord>,
    counts: Front,
) -> Result<(), AllocError> {
    let line = end.line.as_slice();
    let line = line.strip_suffix(b"\n").unwrap_or(line);
    match end.named {
        Some((other, number)) => {
            if number == LOST {
                push_lost(out, alloc, line, other, found)
            } else {
                push_missing(out, alloc, line, other, number, counts.of(other))
            }
        }
        None => push_sentence(out, alloc, ", {}", &[Piece::Spelled(line)]),
    }
}

/// Appends why a log is cut in front of a record.
fn push_end<S: TextSource>(
    out: &mut Vec<u8>,
    alloc: Global,
    files: &OpenedLogs<'_, S>,
    end: &End,
    place: u64,
    counts: Front,
) -> Result<(), Stop> {
    let party = Party::Of(end.log);
    let paths = files.logs.log(party).paths.as_slice();
    let found = push_place(out, alloc, files.texts, party, paths, place)?;
    push_cause(out, alloc, end, &found, counts)?;
    Ok(())
}

/// Appends why a log is cut to a front.
fn push_why<S: TextSource>(
    out: &mut Vec<u8>,
    alloc: Global,
    files: &OpenedLogs<'_, S>,
    facts: &Facts,
    front: Front,
    ends: &Ends,
    log: LogName,
) -> Result<(), Stop> {
    if log == LogName::Source && facts.is_lone(facts.naming.greatest_front()) {
        push(out, "a halted that is alone tells nothing")?;
        return Ok(());
    }
    for end in &ends.ends {
        if end.log == log {
            return push_end(out, alloc, files, end, front.of(log), facts.naming.counts());
        }
    }
    Ok(())
}

/// Adds what is said of a log that is cut to a front.
pub(crate) fn tell_cut<S: TextSource>(
    said: &mut Vec<u8>,
    alloc: Global,
    files: &OpenedLogs<'_, S>,
    facts: &Facts,
    front: Front,
    ends: &Ends,
    log: LogName,
) -> Result<(), Stop>
    ensures { OnOk result ((s : Recorded) → IsNaming facts.now.naming s → SaysUnless said.old.items said.new.items (log_length s log ≤ cursors_of front log)) }
{
    let counts = facts.naming.counts();
    let count = counts.of(log).saturating_sub(front.of(log));
    if count == 0 {
        return Ok(());
    }
    let mut line = sentence(alloc, "{}", &[Piece::On(Party::Of(log), count)])?;
    push_why(&mut line, alloc, files, facts, front, ends, log)?;
    push_message(said, line.as_slice())?;
    Ok(())
}
