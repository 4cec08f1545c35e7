//! The files of a log, read as one.

ghost use Rattle.std.specs.Prelude.{◌≡◌, ◌<◌, ◌+◌, ◌++◌, ◌∷◌, [], ℕ, Bool, true, false, List, Option, None, length, slice_get, IfOk, IfErr, IfSome, OnOk, MatchOption};
ghost use Rattle.recorder_files.specs.Gathered.{Has, Numbered};
ghost use Rattle.recorder_files.specs.Said.{IsFault, Standing};
ghost use Rattle.recorder_files.specs.declared.lines.Party.{Party};
ghost use Rattle.recorder_files.specs.Logs.{AreAt, AreBegun, Came, Gathering, IsGatherFault, SayLog, nothing_of, text_in};

use crate::files::{FileFault, FileReader};
use crate::turns::{Turn, Turns};
use std::alloc::Global;
use std::io::Read;
use std::marker::Model;
use thiserror::Error;

/// Why files are not those of a log, or are not read. Files are counted from 0.
#[derive(Clone, Copy, Debug, Error)]
pub enum GatherFault {
    /// What is wrong with this file.
    #[error("file {0}: {1}")]
    File(usize, FileFault),
    /// These files have a record each of the number that is next.
    #[error("files {0} and {1} have a record of one number")]
    Twice(usize, usize),
    /// No file has a record of the number that is next: this is the least number that one has.
    #[error("no file has the record that is next, and one has record {0}")]
    Missing(u64),
    /// Memory was refused.
    #[error("out of memory")]
    Memory,
}

/// Reads one of some files on to its next record.
#[inline(always)]
fn read_on<R: Read + Drop>(
    files: &mut [FileReader<R>],
    heads: &mut [Option<u64>],
    i: usize,
) -> Result<(), GatherFault>
    requires files { i < length files.old }
    requires heads { i < length heads.old }
    ensures kept { (j n : ℕ) → Has heads.new j n → (j ≡ i → ⊥) → Has heads.old j n }
    ensures read { OnOk result ((party : Party) (knowns : List (Option (List ℕ))) (takens : List (Numbered (List ℕ))) (low : ℕ) (before after : ℕ → Bool) → AreAt party knowns files.old heads.old takens low before → before i ≡ true → after i ≡ false → ((k : ℕ) → (k ≡ i → ⊥) → after k ≡ before k) → AreAt party knowns files.new heads.new takens low after) }
    ensures refused { IfErr result (λ fault. (party : Party) (knowns : List (Option (List ℕ))) (takens : List (Numbered (List ℕ))) (low : ℕ) (before : ℕ → Bool) → AreAt party knowns files.old heads.old takens low before → before i ≡ true → (g : Gathering) (log : List (List ℕ)) → IsGatherFault party knowns g log fault) }
{
    match files[i].next() {
        Ok(head) => {
            heads[i] = head;
            Ok(())
        }
        Err(fault) => Err(GatherFault::File(i, fault)),
    }
}

/// Reads each of some files on to its first record.
fn read_first<R: Read + Drop>(
    files: &mut [FileReader<R>],
    heads: &mut [Option<u64>],
) -> Result<(), GatherFault>
    requires { length heads.old ≡ length files.old }
    ensures read { OnOk result ((party : Party) (knowns : List (Option (List ℕ))) → AreBegun party knowns files.old → AreAt party knowns files.new heads.new (nothing_of files.old) 0 (λ _. false)) }
    ensures refused { IfErr result (λ fault. (party : Party) (knowns : List (Option (List ℕ))) → AreBegun party knowns files.old → (g : Gathering) (log : List (List ℕ)) → IsGatherFault party knowns g log fault) }
{
    for i in 0..files.len() {
        read_on(files, heads, i)?;
    }
    Ok(())
}

/// The files of a log, read as one: record after record by their numbers.
#[derive(Drop)]
pub struct Gatherer<R: Read + Drop> {
    files: Vec<FileReader<R>>,
    heads: Vec<Option<u64>>,
    given: Option<usize>,
    number: u64,
    turns: Turns,
}

impl<R: Read + Drop> Model for Gatherer<R> {
    ghost use Rattle.std.specs.Prelude.{◌≡◌, ◌<◌, length, IfSome};
    ghost use Rattle.recorder_files.specs.Logs.{Gathering};
    ghost use Rattle.recorder_files.specs.inner.Turns.{AreTurns};

    ghost Value = { Gathering };

    ghost view = { λ a. record { files = a.files.items; heads = a.heads.items; given = a.given; number = a.number } };

    ghost invariant = { λ a. (length a.heads.items ≡ length a.files.items) × IfSome a.given (λ i. (i < length a.files.items) × (i ≡ a.turns.last)) × AreTurns a.heads.items a.turns };
}

impl<R: Read + Drop> Gatherer<R> {
    /// Of files of a party's log, none of whose records were read.
    ///
    /// # Errors
    ///
    /// What is wrong with one of the files in front of its second record, or that memory was refused.
    pub fn new(alloc: Global, files: Vec<FileReader<R>>) -> Result<Self, GatherFault>
        ensures begun { IfOk result (λ g. (party : Party) (knowns : List (Option (List ℕ))) → AreBegun party knowns files.items → Came party knowns g []) }
        ensures refused { IfErr result (λ fault. (party : Party) (knowns : List (Option (List ℕ))) → AreBegun party knowns files.items → (g : Gathering) (log : List (List ℕ)) → IsGatherFault party knowns g log fault) }
    {
        let mut files = files;
        let Ok(mut heads) = vec![in alloc; None; files.len()] else {
            return Err(GatherFault::Memory);
        };
        read_first(&mut files, &mut heads)?;
        let Ok(turns) = Turns::new(alloc, &heads) else {
            return Err(GatherFault::Memory);
        };
        Ok(Gatherer {
            files,
            heads,
            given: None,
            number: 0,
            turns,
        })
    }

    /// Reads the file whose record came last on, so that it is known which record each has next.
    #[inline(always)]
    fn read_given(&mut self) -> Result<(), GatherFault>
        ensures read { OnOk result ((party : Party) (knowns : List (Option (List ℕ))) (log : List (List ℕ)) → Came party knowns self.old log → Came party knowns self.new log) }
        ensures none_given { OnOk result (self.new.given ≡ None) }
        ensures number { OnOk result (self.new.number ≡ self.old.number) }
        ensures refused { IfErr result (λ fault. (party : Party) (knowns : List (Option (List ℕ))) (log : List (List ℕ)) → Came party knowns self.old log → (g : Gathering) (front : List (List ℕ)) → IsGatherFault party knowns g front fault) }
    {
        if let Some(i) = self.given {
            read_on(&mut self.files, &mut self.heads, i)?;
            self.given = None;
        }
        Ok(())
    }

    /// Takes the next record, and answers its number. None where no file has one any more: each was read to its end, and what came
    /// is the log.
    ///
    /// # Errors
    ///
    /// What is wrong with a file, or that two files have a record of one number, or that a number is missing. What came is a front
    /// of the log. After an error, or the end, there is no next record to be asked for.
    #[inline(always)]
    pub fn next(&mut self) -> Result<Option<u64>, GatherFault>
        ensures taken { IfOk result (λ found. (party : Party) (knowns : List (Option (List ℕ))) (log : List (List ℕ)) → Came party knowns self.old log → MatchOption found (SayLog party knowns self.new.files log) (λ n. (n ≡ length log) × Came party knowns self.new (log ++ text_in self.new.files self.new.given ∷ []))) }
        ensures counted { IfOk result (λ found. IfSome found (λ n. (n ≡ self.old.number) × (self.new.number ≡ n + 1))) }
        ensures refused { IfErr result (λ fault. (party : Party) (knowns : List (Option (List ℕ))) (log : List (List ℕ)) → Came party knowns self.old log → IsGatherFault party knowns self.new log fault) }
    {
        self.read_given()?;
        let number = self.number;
        let Ok(turn) = self.turns.take(&self.heads, number) else {
            return Err(GatherFault::Memory);
        };
        match turn {
            Turn::Of(i) => {
                let Some(next) = number.checked_add(1) else {
                    return Err(GatherFault::Memory);
                };
                self.number = next;
                self.given = Some(i);
                Ok(Some(number))
            }
            Turn::Twice(i, j) => Err(GatherFault::Twice(i, j)),
            Turn::Missing(least) => Err(GatherFault::Missing(least)),
            Turn::End => Ok(None),
        }
    }

    /// The text of the record that came last.
    #[inline(always)]
    pub fn text(&self) -> &[u8]
        ensures { result.now ≡ text_in self.now.files self.now.given }
    {
        match self.given {
            Some(i) => self.files[i].text(),
            None => &[],
        }
    }

    /// The files.
    pub fn files(&self) -> &[FileReader<R>]
        ensures { result.now ≡ self.now.files }
    {
        &self.files
    }
}
