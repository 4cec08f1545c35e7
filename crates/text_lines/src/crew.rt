//! Pools of workers: what reads many items at once, by one thread or by several.

ghost use Rattle.std.specs.Prelude.{◌≤◌};
ghost use Rattle.std.specs.Thread.{IsSync};
ghost use Rattle.text_lines.specs.Text.{TakesLines};
ghost use Rattle.text_lines.specs.Counted.{TakesItems};

use crate::counted::take_items;
use crate::{LineForm, LineReader, Rewind};
use std::thread::Threads;

/// A pool of workers, which reads many items at once.
pub trait Crew {
    /// What a pool must satisfy.
    ghost IsReady: { Self → Type 0 };
}

/// A pool of workers that reads items of this form.
pub trait ItemCrew<F: LineForm>: Crew {
    /// Reads items at the front of the bytes, at most `most`; it may stop after any item. Returns what follows, and how
    /// many they were.
    fn take<'a>(
        &self,
        form: &F,
        items: &mut Vec<F::Item>,
        most: u32,
        bytes: &'a [u8],
    ) -> (&'a [u8], u32)
        requires ready { Self.IsReady self.now }
        requires form { F.IsForm form.now }
        ensures taken { TakesItems F.spell (F.Fits form.now) F.MayFollow items.old.items items.new.items bytes.now result.0.now result.1 }
        ensures most { result.1 ≤ most };
}

/// A pool of workers that takes lines for this reader.
pub trait LineCrew<R: LineReader>: Crew {
    /// Lets a reader take as many of the first lines as it likes, as `LineReader::lines` does.
    fn lines<'a>(&self, reader: &mut R, bytes: &'a [u8]) -> (&'a [u8], u32)
        requires { Self.IsReady self.now }
        ensures { TakesLines (R.held reader.old) (R.held reader.new) bytes.now result.0.now result.1 };
}

/// The calling thread alone.
#[derive(Clone, Copy)]
pub struct Alone;

impl Crew for Alone {
    ghost IsReady = { λ _. Unit {0} };
}

impl<F: LineForm> ItemCrew<F> for Alone {
    #[inline(always)]
    fn take<'a>(
        &self,
        form: &F,
        items: &mut Vec<F::Item>,
        most: u32,
        bytes: &'a [u8],
    ) -> (&'a [u8], u32) {
        take_items(form, items, most, bytes)
    }
}

impl<R: LineReader> LineCrew<R> for Alone {
    #[inline(always)]
    fn lines<'a>(&self, reader: &mut R, bytes: &'a [u8]) -> (&'a [u8], u32) {
        reader.lines(bytes)
    }
}

/// Threads that read this many parts at once. The crate of each form that they read implements this with `take_parts`.
#[derive(Drop)]
pub struct Team<'a, H> {
    pub rt: &'a H,
    pub parts: usize,
}

impl<'a, H: Threads + Sync> Crew for Team<'a, H> {
    ghost use Rattle.std.specs.Thread.{IsSync};

    ghost IsReady = { λ _. IsSync H.row };
}

impl<'a, H: Threads + Sync, R: LinesApart> LineCrew<R> for Team<'a, H> {
    #[inline(always)]
    fn lines<'b>(&self, reader: &mut R, bytes: &'b [u8]) -> (&'b [u8], u32) {
        reader.lines_apart(self.rt, self.parts, bytes)
    }
}

/// A reader whose lines several threads may take. A reader that is used by one thread alone reaches no code that starts
/// a thread.
pub trait LinesApart: Rewind {
    /// Takes as many of the first lines as it likes, as `lines` does, in this many parts at once.
    fn lines_apart<'a, H: Threads + Sync>(
        &mut self,
        rt: &H,
        parts: usize,
        bytes: &'a [u8],
    ) -> (&'a [u8], u32)
        requires { IsSync H.row }
        ensures { TakesLines (Self.held self.old) (Self.held self.new) bytes.now result.0.now result.1 }
    {
        let _ = rt;
        let _ = parts;
        self.lines(bytes)
    }
}
