//! Reading runs line by line, as part of a text.

ghost use Rattle.std.specs.Prelude.{◌≡◌, ◌≢◌, [], ◌∷◌, ◌++◌, ◌<◌, ◌^◌, ℕ, List, length, IfSome, IfNone, OnOk, OnErr, IfErr};
ghost use Rattle.text_lines.specs.Text.{Begins, TakesLines};
ghost use Rattle.migration_types.specs.declared.cert.Run.{Run as Told};
ghost use Rattle.cert_text.specs.Runs.{SpellsRunLines};

use crate::runs::{RUNS_KEY, RunForm, wanted_run, wanted_run_count};
use migration_types::{Run, Seq, Size, Version, most_runs};
use std::alloc::Global;
use std::marker::Model;
use text_lines::{CLOSING, Counted, FaultKind, ItemCrew, Wanted, is_line};

/// The kind of line that comes next.
#[derive(Clone, Copy)]
pub enum RunStage {
    /// The number of runs.
    Count,
    /// A run, or after the last the closing line.
    Runs,
    /// No line.
    Done,
}

/// A reader of the lines of runs of a version and a size: what they said so far. Contracts see the version, the size
/// and the lines.
#[derive(Drop)]
pub struct RunLines {
    form: RunForm,
    stage: RunStage,
    runs: Counted<Run>,
}

impl Model for RunLines {
    ghost use Rattle.std.specs.Prelude.{[]};
    ghost use Rattle.cert_text.specs.inner.Held.{RunsSoFar, runs_held, RunsLive};

    ghost Value = { RunsSoFar };

    ghost view = { λ a. record { version = a.form.version; size = a.form.size; lines = runs_held a.stage a.runs [] } };

    ghost invariant = { λ a. RunsLive a.form.version a.form.size a.stage a.runs };
}

impl RunLines {
    /// Returns a reader that has read no line of the runs of a version and a size. Allocates no memory.
    pub fn new(alloc: Global, version: Version, size: Size) -> Self
        ensures { result ≡ record { version = version; size = size; lines = [] } }
    {
        RunLines {
            form: RunForm { version, size },
            stage: RunStage::Count,
            runs: Counted::nothing(alloc),
        }
    }

    /// Returns the version.
    pub fn version(&self) -> Version
        ensures { result ≡ self.now.version }
    {
        self.form.version
    }

    /// Returns the size.
    pub fn size(&self) -> Size
        ensures { result ≡ self.now.size }
    {
        self.form.size
    }

    /// Changes the version and the size. No line may have been read yet.
    pub fn set_version(&mut self, version: Version, size: Size)
        requires { self.old.lines ≡ [] }
        ensures { self.new ≡ record { version = version; size = size; lines = [] } }
    {
        self.form.version = version;
        self.form.size = size;
    }

    /// Takes the next line. If no lines of runs go on with it, returns why and stays as it was.
    pub fn line(&mut self, line: &[u8]) -> Result<(), FaultKind>
        ensures version { self.new.version ≡ self.old.version }
        ensures size { self.new.size ≡ self.old.size }
        ensures ok { OnOk result (self.new.lines ≡ self.old.lines ++ line.now ∷ []) }
        ensures refused { IfErr result (λ kind. kind ≢ FaultKind.Memory → Begins (SpellsRunLines self.old.version self.old.size) (self.old.lines ++ line.now ∷ []) → ⊥) }
        ensures err { OnErr result (self.new ≡ self.old) }
    {
        match self.stage {
            RunStage::Count => {
                let most = most_runs(self.form.version, self.form.size);
                self.runs.announce(line, RUNS_KEY, most)?;
                self.stage = RunStage::Runs;
                Ok(())
            }
            RunStage::Runs => {
                if self.runs.is_whole() {
                    if !is_line(line, CLOSING) {
                        return Err(FaultKind::Form);
                    }
                    self.stage = RunStage::Done;
                    return Ok(());
                }
                self.runs.line(&self.form, line)
            }
            RunStage::Done => Err(FaultKind::Ended),
        }
    }

    /// Takes as many of the first lines as are runs in plain form, and returns what follows them and how many they
    /// were.
    pub fn lines<'a, C: ItemCrew<RunForm>>(&mut self, crew: &C, bytes: &'a [u8]) -> (&'a [u8], u32)
        requires { C.IsReady crew.now }
        ensures version { self.new.version ≡ self.old.version }
        ensures size { self.new.size ≡ self.old.size }
        ensures lines { TakesLines self.old.lines self.new.lines bytes.now result.0.now result.1 }
    {
        match self.stage {
            RunStage::Runs => self.runs.lines(crew, &self.form, bytes),
            _ => (bytes, 0),
        }
    }

    /// Some lines of runs begin with the lines so far. Runs nothing.
    pub fn goes_on(&self)
        ensures { Begins (SpellsRunLines self.now.version self.now.size) self.now.lines }
    {
        let _ = &self.stage;
    }

    /// The lines so far are few. Runs nothing.
    pub fn few(&self)
        ensures { length self.now.lines < 2 ^ 31 }
    {
        let _ = &self.stage;
    }

    /// Returns what is allowed at the next line, if the number of runs is at the line `at`.
    pub fn wanted(&self, at: u32) -> Wanted {
        match self.stage {
            RunStage::Count => wanted_run_count(self.form.version, self.form.size),
            RunStage::Runs => self.wanted_in_list().of_list(&self.runs, at),
            RunStage::Done => Wanted::nothing_more(),
        }
    }

    /// Expects a run, or after the last the closing line.
    fn wanted_in_list(&self) -> Wanted {
        if self.runs.is_whole() {
            Wanted::closing_line()
        } else {
            wanted_run(self.form.version, self.form.size, self.runs.items())
        }
    }

    /// Returns the runs, if the lines so far are all of them.
    pub fn text(self) -> Option<Seq<Run>>
        ensures found { IfSome result (λ runs. SpellsRunLines self.version self.size runs self.lines) }
        ensures none { IfNone result ((runs : List Told) → SpellsRunLines self.version self.size runs self.lines → ⊥) }
    {
        match self.stage {
            RunStage::Done => Some(Seq::from_vec(self.runs.into_vec())),
            _ => None,
        }
    }

    /// Returns how many lines came.
    pub fn count(&self) -> u32
        ensures { result ≡ length self.now.lines }
    {
        match self.stage {
            RunStage::Count => 0,
            RunStage::Runs => self.runs.came() + 1,
            RunStage::Done => self.runs.came() + 2,
        }
    }

    /// Takes the last line back.
    pub fn undo(&mut self)
        requires { 0 < length self.old.lines }
        ensures version { self.new.version ≡ self.old.version }
        ensures size { self.new.size ≡ self.old.size }
        ensures lines { (line : List ℕ) × (self.old.lines ≡ self.new.lines ++ line ∷ []) }
    {
        match self.stage {
            RunStage::Count => {}
            RunStage::Runs => {
                if !self.runs.drop_last() {
                    self.stage = RunStage::Count;
                }
            }
            RunStage::Done => self.stage = RunStage::Runs,
        }
    }
}
