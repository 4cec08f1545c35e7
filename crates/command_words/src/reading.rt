//! Reading the words of a command line.

ghost use Rattle.std.specs.Prelude.{◌≡◌, IfOk};
ghost use Rattle.command_words.specs.Words.{word_texts};

use crate::matching::{NOTHING, find_in};
use crate::requests::{Intent, Invocation, NO_TARGETS, Targets};
use clap::error::ErrorKind;
use std::alloc::{AllocError, Global};
use std::marker::Model;

/// What the words of a command line ask for, or why they are refused. The model of a reading is its words.
#[derive(Drop)]
pub struct Reading<'a> {
    words: &'a [&'a str],
    found: Result<Invocation<'a>, clap::Error>,
}

impl<'a> Model for Reading<'a> {
    ghost use Rattle.std.specs.Prelude.{List, ℕ};
    ghost use Rattle.command_words.specs.Words.{word_texts};
    ghost use Rattle.command_words.specs.Readings.{IsRead};

    ghost Value = { List (List ℕ) };

    ghost view = { λ r. word_texts r.words.now };

    ghost invariant = { λ r. IsRead (word_texts r.words.now) r.found };
}

/// Reads the words of a command line. The first word is the program's own name. Fails only if memory runs out.
pub fn read_words<'a>(alloc: Global, words: &'a [&'a str]) -> Result<Reading<'a>, AllocError>
    ensures { IfOk result (λ reading. reading ≡ word_texts words.entry.now) }
{
    if words.len() <= 1 {
        return Ok(Reading {
            words,
            found: Ok(NOTHING),
        });
    }
    match find_in(alloc, words) {
        Ok(found) => Ok(Reading {
            words,
            found: Ok(found),
        }),
        Err(error) => {
            if error.kind() == ErrorKind::OutOfMemory {
                return Err(AllocError);
            }
            Ok(Reading {
                words,
                found: Err(error),
            })
        }
    }
}

impl<'a> Reading<'a> {
    ghost use Rattle.std.specs.Prelude.{◌≡◌, ◌<◌, ◌≤◌, IfErr, IfOk, None, Ok, OnOk, [], false, length, option_and_then, option_map};
    ghost use Rattle.clap.specs.Words.{kind_of};
    ghost use Rattle.command_words.specs.Table.{folders_of, job_of, several_of};
    ghost use Rattle.command_words.specs.Readings.{AreTargets, IsAsked};
    ghost use Rattle.command_words.specs.Words.{AreAccepted, AreRefused, IsKindFor, asked, clashing, error_kinds, folders_asked, several_asked, target_names};

    /// Returns what the words ask for, or `None` if they are the program's own name alone, or not even that. The error
    /// is clap's: the words are no command, they have options that clash, or they ask for the help or the version.
    pub fn intent(self) -> Result<Option<Intent<'a>>, clap::Error>
        ensures bare { length self.entry ≤ 1 → result ≡ Ok None }
        ensures job { IfOk result (λ r. option_and_then job_of r ≡ asked self.entry) }
        ensures several { IfOk result (λ r. option_and_then several_of r ≡ several_asked self.entry) }
        ensures folders { IfOk result (λ r. option_and_then folders_of r ≡ folders_asked self.entry) }
        ensures alike { IfOk result (λ _. clashing self.entry ≡ false) }
        ensures accepted { OnOk result (1 < length self.entry → error_kinds self.entry ≡ []) }
        ensures kind { IfErr result (λ e. IsKindFor self.entry (kind_of e)) }
    {
        match self.found {
            Ok(found) => Ok(found.intent),
            Err(error) => Err(error),
        }
    }

    /// Returns what the words ask for, if it is anything, for who looks at it before it is done.
    pub fn asks(&self) -> Option<&Intent<'a>>
        ensures accepted { AreAccepted self.now → IsAsked self.now (option_map (λ intent. intent.now) result) }
        ensures bare { length self.now ≤ 1 → result ≡ None }
        ensures refused { AreRefused self.now → result ≡ None }
    {
        match &self.found {
            Ok(found) => found.intent.as_ref(),
            Err(_) => None,
        }
    }

    /// Returns the files that the words name for what is written, as in `-o FILE` and `--lines FILE`. Words that are
    /// refused name no file, nor does the program's own name alone.
    pub fn targets(&self) -> Targets<'a>
        ensures accepted { AreAccepted self.now → AreTargets self.now result }
        ensures bare { length self.now ≤ 1 → target_names result ≡ (None, None) }
        ensures refused { AreRefused self.now → target_names result ≡ (None, None) }
    {
        match &self.found {
            Ok(found) => found.targets,
            Err(_) => NO_TARGETS,
        }
    }
}
