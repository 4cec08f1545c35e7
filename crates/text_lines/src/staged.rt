//! Readers of texts whose lines come in stages.

ghost use Rattle.std.specs.Prelude.{◌≡◌, ◌≢◌, ◌+◌, ◌<◌, ◌^◌, List, [], ◌∷◌, ◌++◌, ℕ, length, OnErr, IfOk, IfErr, IfSome, IfNone};
ghost use Rattle.std.specs.List.{AllByRecursion};
ghost use Rattle.std.specs.Thread.{IsSync};
ghost use Rattle.text_lines.specs.Text.{Begins, IsLine, TakesLines};

use crate::{FaultKind, LineReader, LinesApart, Rewind, Wanted};
use std::alloc::Global;
use std::marker::Model;
use std::thread::Threads;

/// What was read of a text whose lines come in stages.
pub trait Stages: Drop {
    /// The kind of line that comes next.
    type Stage: Copy;

    type Text: Drop;

    /// The grammar: which lines spell a value.
    ghost spells: { Self.Text → List (List ℕ) → Type 0 };

    /// The lines read so far.
    ghost held: { Self.Stage → Self → List (List ℕ) };

    /// The invariant of what was read, before the line of a stage.
    ghost Live: { Self.Stage → Self → Type 0 };

    /// Returns the stage of the first line, with nothing read. Allocates no memory.
    fn begin(alloc: Global) -> (Self::Stage, Self)
        ensures live { Live result.0 result.1 }
        ensures none { held result.0 result.1 ≡ [] };

    /// Takes the next line, and returns the stage of the line after it.
    fn take(&mut self, stage: Self::Stage, line: &[u8]) -> Result<Self::Stage, FaultKind>
        requires { Live stage self.old }
        ensures ok { IfOk result (λ next. Live next self.new × (held next self.new ≡ held stage self.old ++ line.now ∷ [])) }
        ensures refused { IfErr result (λ kind. kind ≢ FaultKind.Memory → Begins spells (held stage self.old ++ line.now ∷ []) → ⊥) }
        ensures err_live { OnErr result (Live stage self.new) }
        ensures err { OnErr result (held stage self.new ≡ held stage self.old) };

    /// Takes as many of the first lines of a stage as it likes, as `LineReader::lines` does.
    fn lines<'a>(&mut self, stage: Self::Stage, bytes: &'a [u8]) -> (&'a [u8], u32)
        requires { Live stage self.old }
        ensures live { Live stage self.new }
        ensures taken { TakesLines (held stage self.old) (held stage self.new) bytes.now result.0.now result.1 }
    {
        let _ = stage;
        (bytes, 0)
    }

    /// Some text begins with the lines so far, and these are few.
    fn goes_on(&self, stage: Self::Stage)
        requires { Live stage self.now }
        ensures begins { Begins spells (held stage self.now) }
        ensures few { length (held stage self.now) + 1 < 2 ^ 32 };

    /// Returns what is allowed at the next line.
    fn wanted(&self, stage: Self::Stage) -> Wanted
        requires { Live stage self.now }
    {
        let _ = stage;
        Wanted::unknown()
    }

    /// Returns the value if the lines so far are a complete text.
    fn text(self, stage: Self::Stage) -> Option<Self::Text>
        requires { Live stage self }
        ensures found { IfSome result (λ v. spells v (held stage self)) }
        ensures none { IfNone result ((v : Self.Text) → spells v (held stage self) → ⊥) };

    /// No line of a text has an LF.
    ghost plain: { (v : Self.Text) (lines : List (List ℕ)) → spells v lines → AllByRecursion IsLine lines };
}

/// What was read of a text whose lines can be taken back.
pub trait StagesBack: Stages {
    /// Returns how many lines were read.
    fn count(&self, stage: Self::Stage) -> u32
        requires { Self.Live stage self.now }
        ensures { result ≡ length (Self.held stage self.now) };

    /// Takes the last line back, and returns its stage.
    fn undo(&mut self, stage: Self::Stage) -> Self::Stage
        requires live { Self.Live stage self.old }
        requires some { 0 < length (Self.held stage self.old) }
        ensures live { Self.Live result self.new }
        ensures back { (line : List ℕ) × (Self.held stage self.old ≡ Self.held result self.new ++ line ∷ []) };
}

/// What was read of a text whose lines several threads may take.
pub trait StagesApart: StagesBack {
    /// Takes as many of the first lines of a stage as it likes, as `lines` does, in this many parts at once.
    fn lines_apart<'a, H: Threads + Sync>(
        &mut self,
        rt: &H,
        parts: usize,
        stage: Self::Stage,
        bytes: &'a [u8],
    ) -> (&'a [u8], u32)
        requires sync { IsSync H.row }
        requires live { Self.Live stage self.old }
        ensures live { Self.Live stage self.new }
        ensures taken { TakesLines (Self.held stage self.old) (Self.held stage self.new) bytes.now result.0.now result.1 };
}

/// A reader of a text whose lines come in stages: what its lines said so far. Contracts see the lines.
#[derive(Drop)]
pub struct Staged<P: Stages> {
    stage: P::Stage,
    parts: P,
}

impl<P: Stages> Model for Staged<P> {
    ghost use Rattle.std.specs.Prelude.{ℕ, List};

    ghost Value = { List (List ℕ) };

    ghost view = { λ a. P.held a.stage a.parts };

    ghost invariant = { λ a. P.Live a.stage a.parts };
}

impl<P: Stages> Staged<P> {
    /// Returns a reader that has read no line. Allocates no memory.
    pub fn new(alloc: Global) -> Self
        ensures { result ≡ [] }
    {
        let (stage, parts) = P::begin(alloc);
        Staged { stage, parts }
    }
}

impl<P: Stages> LineReader for Staged<P> {
    type Text = P::Text;

    ghost spells = { P.spells };

    ghost held = { λ s. s };

    fn line(&mut self, line: &[u8]) -> Result<(), FaultKind> {
        match self.parts.take(self.stage, line) {
            Ok(stage) => {
                self.stage = stage;
                Ok(())
            }
            Err(kind) => Err(kind),
        }
    }

    fn lines<'a>(&mut self, bytes: &'a [u8]) -> (&'a [u8], u32) {
        self.parts.lines(self.stage, bytes)
    }

    fn goes_on(&self) {
        self.parts.goes_on(self.stage);
    }

    fn wanted(&self) -> Wanted {
        self.parts.wanted(self.stage)
    }

    fn text(self) -> Option<P::Text> {
        self.parts.text(self.stage)
    }

    ghost plain = { P.plain };
}

impl<P: StagesBack> Rewind for Staged<P> {
    fn empty(alloc: Global) -> Self {
        Staged::new(alloc)
    }

    fn count(&self) -> u32 {
        self.parts.count(self.stage)
    }

    fn undo(&mut self) {
        self.stage = self.parts.undo(self.stage);
    }
}

impl<P: StagesApart> LinesApart for Staged<P> {
    fn lines_apart<'a, H: Threads + Sync>(
        &mut self,
        rt: &H,
        parts: usize,
        bytes: &'a [u8],
    ) -> (&'a [u8], u32) {
        self.parts.lines_apart(rt, parts, self.stage, bytes)
    }
}
