//! Cutting a window out of a recording.

ghost use Rattle.std.specs.Prelude.{◌≡◌, IfOk, IfErr};
ghost use Rattle.windows.specs.Cuts.{IsCutOf, IsNotCutBy};
ghost use Rattle.windows.specs.inner.Settled.{IsFoundIn, IsNotWrittenBy, found_later};

use crate::faults::CutFault;
use crate::marking::Marks;
use crate::pages::Window;
use crate::session::WindowText;
use crate::visiting::{Marking, Way, Writing};
use recordings::Visited;
use std::alloc::Global;
use std::marker::Brand;

/// Returns the window of these pages, cut out of a recording in four passes over it: its text, and the line of the
/// recording's text that each of its lines comes from. Allocates memory only for what is in the window.
///
/// # Errors
///
/// If a pass does not go through the recording, its fault. `Outside` if the window has no page, or a page that the
/// machine does not have. `Changed` if the passes did not meet one recording: a later one met a machine without these
/// pages, or the last one keeps other records than the passes before.
pub fn cut<R: Visited>(
    alloc: Global,
    window: Window,
    recording: &R,
) -> Result<WindowText, CutFault<R::Fault>>
    ensures cut { IfOk result (IsCutOf (R.is_recording recording.now) window) }
    ensures fault { IfErr result (IsNotCutBy (R.is_recording recording.now) window) }
{
    let first = mark::<R, Brand>(alloc, window, Marks::new(alloc), recording)?;
    let second = again(mark::<R, Brand>(alloc, window, first, recording))?;
    let third = again(mark::<R, Brand>(alloc, window, second, recording))?;
    again(write::<R, Brand>(alloc, window, third, recording))
}

/// Returns the result of a later pass, after the first met a machine with these pages: if there are none of them now,
/// the recording has changed.
fn again<T: Drop, F: Drop>(found: Result<T, CutFault<F>>) -> Result<T, CutFault<F>>
    ensures { result ≡ found_later found }
{
    match found {
        Err(CutFault::Outside) => Err(CutFault::Changed),
        found => found,
    }
}

/// Marks the kept records, going by what the pass before found.
fn mark<R: Visited, W: Way>(
    alloc: Global,
    window: Window,
    known: Marks,
    recording: &R,
) -> Result<Marks, CutFault<R::Fault>>
    requires { W.guide ≡ record { window = window; known = known } }
    ensures found { IfOk result (IsFoundIn (R.is_recording recording.now) window known) }
    ensures fault { IfErr result (IsNotCutBy (R.is_recording recording.now) window) }
{
    let mut marking = Marking::<W>::new(alloc, window, known);
    match recording.visit(alloc, &mut marking) {
        Ok(()) => {}
        Err(fault) => {
            drop(marking);
            return Err(CutFault::Recording(fault));
        }
    }
    if window.is_of(marking.found.machine.pages) {
        Ok(marking.into_found())
    } else {
        drop(marking);
        Err(CutFault::Outside)
    }
}

/// Writes the kept records, going by what the pass before found.
fn write<R: Visited, W: Way>(
    alloc: Global,
    window: Window,
    known: Marks,
    recording: &R,
) -> Result<WindowText, CutFault<R::Fault>>
    requires { W.guide ≡ record { window = window; known = known } }
    ensures cut { IfOk result (IsCutOf (R.is_recording recording.now) window) }
    ensures fault { IfErr result (IsNotWrittenBy (R.is_recording recording.now) window known) }
{
    let mut writing = Writing::<W>::new(alloc, window, known);
    match recording.visit(alloc, &mut writing) {
        Ok(()) => {
            let out = writing.window_text(alloc, window);
            drop(writing);
            out
        }
        Err(fault) => {
            drop(writing);
            Err(CutFault::Recording(fault))
        }
    }
}
