//! Writing the text of a whole recording.

ghost use Rattle.std.specs.Prelude.{◌≡◌, None, OnOk};
ghost use Rattle.text_access.specs.Written.{Gains};
ghost use Rattle.walked_sessions.specs.Written.{Writes};
ghost use Rattle.walked_sessions.specs.inner.Made.{IsKept, IsNothing};

use crate::text::Text;
use crate::visiting::{Begun, Opened, TextWriter};
use crate::write_faults::{PushFault, WriteFault};
use recorder_files::Front;
use recordings::Visited;
use std::alloc::Global;
use std::io::Write;
use std::marker::Brand;

/// Returns the fault of a text.
fn fault_of<F: Drop>(fault: PushFault) -> WriteFault<F> {
    match fault {
        PushFault::Output(cause) => WriteFault::Output(cause),
        PushFault::Changed => WriteFault::Changed,
        PushFault::Memory => WriteFault::Memory,
    }
}

/// Writes the text of a recording with a writer that has met nothing.
fn go_through<R: Visited, W: Write, B: Begun>(
    alloc: Global,
    recording: R,
    writer: &mut TextWriter<'_, W, B>,
) -> Result<(), WriteFault<R::Fault>>
    requires { IsNothing B.start B.front B.init (W.contents writer.now.output.now) writer.now.text.now writer.now.fault }
    ensures { OnOk result (Writes (R.is_recording recording) B.start (W.contents writer.new.output.now) B.front B.init) }
{
    match recording.visit(alloc, writer) {
        Ok(()) => {}
        Err(fault) => return Err(WriteFault::Recording(fault)),
    }
    match writer.finish() {
        Ok(()) => Ok(()),
        Err(fault) => Err(fault_of(fault)),
    }
}

/// Writes the text of a recording to an output, which it hands back. `told` becomes the result.
fn write_through<'a, R: Visited, W: Write, B: Begun>(
    alloc: Global,
    recording: R,
    opened: Opened<'a, W>,
    told: &mut Result<(), WriteFault<R::Fault>>,
) -> Opened<'a, W>
    requires new { IsNothing B.start B.front B.init (W.contents opened.output.now) opened.text.now None }
    requires name { opened.output.ghost_name ≡ B.name }
    requires kept { IsKept B.start (W.contents opened.output.now) }
    ensures name { result.output.ghost_name ≡ B.name }
    ensures gains { Gains B.start (W.contents result.output.now) }
    ensures written { OnOk told.new (Writes (R.is_recording recording) B.start (W.contents result.output.now) B.front B.init) }
{
    let mut writer = TextWriter::<W, B>::new(opened);
    *told = go_through(alloc, recording, &mut writer);
    writer.close()
}

/// Writes the text of a recording, cut to a front, as it is met. Takes memory for a piece of the text alone. `front` is
/// how many records of each log are written, and `init` is how many initial pages the recording has.
///
/// # Errors
///
/// The recording is not gone through, or has fewer records than the front or another number of initial pages, or bytes
/// could not be written, or memory ran out. Bytes may have been appended to the output by then; nothing that it had
/// before is lost.
pub fn write_recording<R: Visited, W: Write>(
    alloc: Global,
    recording: R,
    output: &mut W,
    front: Front,
    init: u64,
) -> Result<(), WriteFault<R::Fault>>
    ensures written { OnOk result (Writes (R.is_recording recording) (W.contents output.old) (W.contents output.new) front init) }
    ensures gains { Gains (W.contents output.old) (W.contents output.new) }
{
    let mut text = Text::new(alloc, front, init);
    let mut told = Ok(());
    let opened = Opened::new(output, &mut text);
    let _closed = write_through::<R, W, Brand>(alloc, recording, opened, &mut told);
    told
}
