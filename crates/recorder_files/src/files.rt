//! A recorder's file, read record by record.

ghost use Rattle.std.specs.Prelude.{◌≡◌, ◌≤◌, ℕ, List, [], ◌∷◌, ◌++◌, Option, Some, None, IfOk, IfErr, MatchOption};
ghost use Rattle.recorder_files.specs.Gathered.{Numbered};
ghost use Rattle.recorder_files.specs.Said.{CameTo, Goes, IsFault, Says};
ghost use Rattle.recorder_files.specs.declared.lines.Party.{Party as Writer};

use crate::heads::take_head;
use crate::lines::{Last, Opening, Party, last_behind, read_numbered};
use crate::pieces::{take_end, take_line};
use std::alloc::Global;
use std::io::Read;
use std::marker::Model;
use thiserror::Error;

/// Why a file is not that of a recorder, or could not be read.
#[derive(Clone, Copy, Debug, Error)]
pub enum FileFault {
    /// The line, counted from 1, at which the bytes stop being those of a recorder's file.
    #[error("line {0}: not the line of a recorder's file")]
    Line(u64),
    /// The line of a record whose number is not above the numbers of the records before it, or is below the file's
    /// first number.
    #[error("line {0}: a record out of order")]
    Order(u64),
    /// A read failed.
    #[error("the file was not read")]
    File,
    /// Memory ran out.
    #[error("out of memory")]
    Memory,
}

/// The most bytes of one read.
const PIECE: usize = 8_704;

/// Reads a file record by record. Contracts see the state of the reader.
#[derive(Drop)]
pub struct FileReader<R: Read + Drop> {
    reader: R,
    buffer: Vec<u8>,
    start: usize,
    end: usize,
    text: usize,
    text_end: usize,
    low: u64,
    line: u64,
    name: Vec<u8>,
    opening: Opening,
    last: Option<Last>,
}

impl<R: Read + Drop> Model for FileReader<R> {
    ghost use Rattle.std.specs.Prelude.{◌≤◌, ◌<◌, vec_len, slice_range};
    ghost use Rattle.std.specs.Io.KnownBytes.{prepend_known};
    ghost use Rattle.recorder_files.specs.Said.{longest_line, Standing};

    ghost Value = { Standing };

    ghost view = { λ a. record { name = a.name.items; opening = a.opening; low = a.low; line = a.line; text = slice_range a.buffer.items a.text a.text_end; last = a.last; left = prepend_known (slice_range a.buffer.items a.start a.end) (R.remaining a.reader) } };

    ghost invariant = { λ a. (a.start ≤ a.end) × (a.end ≤ vec_len a.buffer) × (longest_line < vec_len a.buffer) × (a.text ≤ a.text_end) × (a.text_end ≤ vec_len a.buffer) };
}

impl<R: Read + Drop> FileReader<R> {
    /// Reads the head of a party's file. Returns `None` if the file ends within its head, because its process died
    /// before it wrote that.
    ///
    /// # Errors
    ///
    /// The line at which the file stops being that of a recorder, or a read failed, or memory ran out.
    pub fn open(alloc: Global, party: Party, reader: R) -> Result<Option<Self>, FileFault>
        ensures opened { IfOk result (λ found. MatchOption found (Says party (R.remaining reader) None) (λ file. CameTo party (R.remaining reader) file [])) }
        ensures refused { IfErr result (λ fault. IsFault party (R.remaining reader) fault) }
    {
        let mut reader = reader;
        let Ok(mut buffer) = vec![in alloc; 0u8; PIECE] else {
            return Err(FileFault::Memory);
        };
        match take_head(alloc, party, &mut reader, buffer.as_mut_slice()) {
            Ok(Some(head)) => Ok(Some(FileReader {
                reader,
                buffer,
                start: head.start,
                end: head.end,
                name: head.name,
                opening: head.opening,
                low: u64::from(head.opening.first),
                line: 4,
                text: 0,
                text_end: 0,
                last: None,
            })),
            Ok(None) => Ok(None),
            Err(fault) => Err(fault),
        }
    }

    /// Takes the next record, and returns its number. Returns `None` if there are no more records: the file was read to
    /// its end.
    ///
    /// # Errors
    ///
    /// The line at which the file stops being that of a recorder, or a read failed. Do not call it again after an error
    /// or after `None`.
    #[inline(always)]
    pub fn next(&mut self) -> Result<Option<u64>, FileFault>
        ensures taken { IfOk result (λ found. (party : Writer) (known : Option (List ℕ)) (came : Numbered (List ℕ)) → CameTo party known self.old came → Goes party known self.new came found) }
        ensures refused { IfErr result (λ fault. (party : Writer) (known : Option (List ℕ)) (came : Numbered (List ℕ)) → CameTo party known self.old came → IsFault party known fault) }
        ensures head { (self.new.name ≡ self.old.name) × (self.new.opening ≡ self.old.opening) }
    {
        let at = self.line;
        if at >= u64::MAX - 1 {
            return Err(FileFault::File);
        }
        let buffer = self.buffer.as_mut_slice();
        let Some(cut) = take_line(&mut self.reader, buffer, self.start, self.end, at)? else {
            return Ok(None);
        };
        self.start = cut.end + 1;
        self.end = cut.held;
        self.line = at + 1;
        let line = &self.buffer[cut.start..cut.end];
        match read_numbered(line) {
            Some((number, text)) => {
                if number < self.low {
                    return Err(FileFault::Order(at));
                }
                self.text = cut.end - text.len();
                self.text_end = cut.end;
                self.low = number + 1;
                Ok(Some(number))
            }
            None => {
                let Some(last) = last_behind(line, self.low) else {
                    return Err(FileFault::Line(at));
                };
                self.last = Some(last);
                let buffer = self.buffer.as_mut_slice();
                take_end(&mut self.reader, buffer, self.start, self.end, at + 1)?;
                Ok(None)
            }
        }
    }

    /// Returns the name of the recording to which the file belongs.
    pub fn name(&self) -> &[u8]
        ensures { result.now ≡ self.now.name }
    {
        &self.name
    }

    /// Returns the party whose log it is, and the number of its first record.
    pub fn opening(&self) -> Opening
        ensures { result ≡ self.now.opening }
    {
        self.opening
    }

    /// Returns the text of the record that was taken last.
    pub fn text(&self) -> &[u8]
        ensures { result.now ≡ self.now.text }
    {
        &self.buffer[self.text..self.text_end]
    }

    /// Returns how the file's process left the log, if the end of the file says that.
    pub fn last(&self) -> Option<Last>
        ensures { result ≡ self.now.last }
    {
        self.last
    }
}
