//! Reading a text of runs, line by line.

ghost use Rattle.cert_text.specs.Runs.{SpellsRuns};

use crate::run_lines::RunLines;
use migration_types::{Run, Seq, Size, Version};
use std::alloc::Global;
use std::thread::Threads;
use text_lines::{Alone, FaultKind, Stages, StagesApart, StagesBack, Team, Wanted, expect_line};

/// The first line of a text of runs.
pub const RUNS_HEADER: &[u8] = b"postcopy-runs 1";

/// What was read of the runs, which are those of the second version and of the large size. The stage says whether the
/// header was read.
#[derive(Drop)]
pub struct RunsParts {
    runs: RunLines,
}

impl Stages for RunsParts {
    type Stage = bool;

    type Text = Seq<Run>;

    ghost spells = { SpellsRuns };

    ghost use Rattle.cert_text.specs.inner.Headed.{held_at, LiveAt};

    ghost held = { held_at };

    ghost Live = { LiveAt };

    fn begin(alloc: Global) -> (bool, Self) {
        let runs = RunLines::new(alloc, Version::Two, Size::Large);
        (false, RunsParts { runs })
    }

    fn take(&mut self, headed: bool, line: &[u8]) -> Result<bool, FaultKind> {
        if headed {
            self.runs.line(line)?;
        } else {
            expect_line(line, RUNS_HEADER)?;
        }
        Ok(true)
    }

    fn lines<'a>(&mut self, headed: bool, bytes: &'a [u8]) -> (&'a [u8], u32) {
        if headed {
            self.runs.lines(&Alone, bytes)
        } else {
            (bytes, 0)
        }
    }

    fn goes_on(&self, _headed: bool) {
        self.runs.goes_on();
        self.runs.few();
    }

    fn wanted(&self, headed: bool) -> Wanted {
        if headed {
            self.runs.wanted(2)
        } else {
            Wanted::one("the header of a runs text", &["postcopy-runs 1"])
        }
    }

    fn text(self, headed: bool) -> Option<Seq<Run>> {
        if headed { self.runs.text() } else { None }
    }

    ghost use Rattle.cert_text.specs.inner.Plain.{plain_runs_text};

    ghost plain = { plain_runs_text };
}

impl StagesBack for RunsParts {
    fn count(&self, headed: bool) -> u32 {
        self.runs.few();
        if headed { self.runs.count() + 1 } else { 0 }
    }

    fn undo(&mut self, _headed: bool) -> bool {
        if self.runs.count() == 0 {
            return false;
        }
        self.runs.undo();
        true
    }
}

impl StagesApart for RunsParts {
    fn lines_apart<'a, H: Threads + Sync>(
        &mut self,
        rt: &H,
        parts: usize,
        headed: bool,
        bytes: &'a [u8],
    ) -> (&'a [u8], u32) {
        if headed {
            self.runs.lines(&Team { rt, parts }, bytes)
        } else {
            (bytes, 0)
        }
    }
}
