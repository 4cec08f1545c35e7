//! What a file says, but for its records.

ghost use Rattle.std.specs.Prelude.{◌≡◌, ℕ, [], List, Option, IfOk, IfErr};
ghost use Rattle.recorder_files.specs.Said.{CameTo, IsFault};
ghost use Rattle.recorder_files.specs.declared.lines.Party.{Party};
ghost use Rattle.recorder_files.specs.Surveys.{IsSurveyOf};

use crate::files::{FileFault, FileReader};
use crate::lines::{Last, Opening, Party};
use std::alloc::AllocError;
use std::io::Read;

/// What a file says of its log, but for its records' texts.
#[derive(Clone, Copy)]
pub struct Surveyed {
    /// Which process wrote it, among the processes of all folders.
    pub process: usize,
    /// The party, the number with which the process opened the log, and the file in which it began.
    pub opening: Opening,
    /// How many records the file has.
    pub records: u64,
    /// The number after that of its last record. Where it has no record, this is the number with which the log was opened.
    pub next: u64,
    /// How the process left the log, if the file says that.
    pub last: Option<Last>,
}

/// Looks on while files are surveyed.
pub trait Onlooker {
    /// Sees the text of a party's record.
    ///
    /// # Errors
    ///
    /// Memory was refused.
    fn see(&mut self, party: Party, number: u64, text: &[u8]) -> Result<(), AllocError>;
}

/// Nobody looks on.
#[derive(Clone, Copy)]
pub struct NoOnlooker;

impl Onlooker for NoOnlooker {
    #[inline(always)]
    fn see(&mut self, _party: Party, _number: u64, _text: &[u8]) -> Result<(), AllocError> {
        Ok(())
    }
}

/// Reads a file, none of whose records were read, to its end. The onlooker sees each record.
///
/// # Errors
///
/// The line at which the file stops being that of a recorder, or a read failed, or memory was refused.
pub fn survey<R: Read + Drop, O: Onlooker>(
    process: usize,
    file: &mut FileReader<R>,
    onlooker: &mut O,
) -> Result<Surveyed, FileFault>
    ensures process { IfOk result (λ s. s.process ≡ process) }
    ensures surveyed { IfOk result (λ s. (party : Party) (known : Option (List ℕ)) → CameTo party known file.old [] → IsSurveyOf party known file.old.name s) }
    ensures refused { IfErr result (λ fault. (party : Party) (known : Option (List ℕ)) → CameTo party known file.old [] → IsFault party known fault) }
{
    let opening = file.opening();
    let mut records: u64 = 0;
    let mut next = u64::from(opening.first);
    'records: loop {
        match file.next()? {
            Some(number) => {
                let Some(more) = records.checked_add(1) else {
                    return Err(FileFault::File);
                };
                let Some(after) = number.checked_add(1) else {
                    return Err(FileFault::File);
                };
                records = more;
                next = after;
                if onlooker.see(opening.party, number, file.text()).is_err() {
                    return Err(FileFault::Memory);
                }
            }
            None => {
                return Ok(Surveyed {
                    process,
                    opening,
                    records,
                    next,
                    last: file.last(),
                });
            }
        }
    }
}
