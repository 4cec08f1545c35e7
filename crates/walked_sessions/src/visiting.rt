//! The visitor of a recording that writes its text.

ghost use Rattle.std.specs.Prelude.{◌≡◌, ℕ, List, [], length, Option, None, IsOk, OnOk};
ghost use Rattle.std.specs.Io.KnownBytes.{Appends};
ghost use Rattle.std.proofs.Props.{props};
ghost use Rattle.migration_types.specs.Sessions.{Recorded};
ghost use Rattle.text_access.specs.Written.{Gains};
ghost use Rattle.recordings.specs.inner.Held.{SessionDraft};
ghost use Rattle.walked_sessions.specs.Written.{text_of, HasRecords};
ghost use Rattle.walked_sessions.specs.inner.Made.{Holds, IsKept, IsSame, Meets};

use crate::text::Text;
use crate::write_faults::PushFault;
use recordings::{Visitor, Wide, WideInit, WideMachine};
use std::alloc::AllocError;
use std::io::Write;
use std::marker::{Brand, PhantomData};

/// The output of a text, by the name of its reference, the bytes that it had before, the front to which the text is cut,
/// and how many initial pages it has. Only proofs use this.
pub(crate) trait Begun {
    ghost use Rattle.std.specs.Prelude.{List, ℕ, Option};
    ghost use Rattle.std.specs.Borrow.{GName};
    ghost use Rattle.recorder_files.specs.declared.fronts.Front.{Front};

    ghost name: { GName };

    ghost start: { Option (List ℕ) };

    ghost front: { Front };

    ghost init: { ℕ };
}

impl Begun for Brand {
    ghost use Rattle.std.specs.Prelude.{None};
    ghost use Rattle.walked_sessions.specs.inner.Made.{no_front};

    ghost name = { 0 };

    ghost start = { None };

    ghost front = { no_front };

    ghost init = { 0 };
}

/// How many bytes a text has when a piece of it is written.
const PIECE: usize = 65_536;

/// An output, and the text that is written to it.
#[derive(Drop)]
pub(crate) struct Opened<'a, W: Write> {
    pub(crate) output: &'a mut W,
    pub(crate) text: &'a mut Text,
}

impl<'a, W: Write> Opened<'a, W> {
    pub(crate) fn new(output: &'a mut W, text: &'a mut Text) -> Self
        ensures output { (result.output.ghost_name ≡ output.entry.ghost_name) × (result.output.now ≡ output.old) }
        ensures text { result.text.now ≡ text.old }
    {
        Opened { output, text }
    }
}

/// A visitor that writes the text of the recording that it meets, cut to a front. A write that fails is kept, and
/// nothing more is written.
#[derive(Drop)]
pub(crate) struct TextWriter<'a, W: Write, B: Begun> {
    pub(crate) output: &'a mut W,
    pub(crate) text: &'a mut Text,
    pub(crate) fault: Option<PushFault>,
    of: PhantomData<B>,
    ghost name: { output.ghost_name ≡ B.name },
    ghost kept: { IsKept B.start (W.contents output.now) } by { Prim.hlevel props },
}

impl<'a, W: Write, B: Begun> TextWriter<'a, W, B> {
    /// Returns a visitor that has met nothing and has written nothing.
    pub(crate) fn new(opened: Opened<'a, W>) -> TextWriter<'a, W, B>
        requires name { opened.output.ghost_name ≡ B.name }
        requires kept { IsKept B.start (W.contents opened.output.now) }
        ensures output { (result.output.ghost_name ≡ opened.entry.output.ghost_name) × (result.output.now ≡ opened.entry.output.now) }
        ensures text { result.text.now ≡ opened.entry.text.now }
        ensures no_fault { result.fault ≡ None }
    {
        let Opened { output, text } = opened;
        TextWriter {
            output,
            text,
            fault: None,
            of: PhantomData,
        }
    }

    /// Hands the output back.
    pub(crate) fn close(self) -> Opened<'a, W>
        ensures output { (result.output.ghost_name ≡ self.entry.output.ghost_name) × (result.output.now ≡ self.entry.output.now) }
        ensures gains { Gains B.start (W.contents result.output.now) }
    {
        let TextWriter {
            output,
            text,
            fault,
            of,
        } = self;
        let _ = fault;
        let _ = of;
        Opened { output, text }
    }

    /// Writes the bytes that are not yet written.
    fn write(&mut self)
        ensures same { IsSame self.old.text.now self.new.text.now × (self.new.text.now.section ≡ self.old.text.now.section) × (self.new.text.now.left ≡ self.old.text.now.left) }
        ensures written { self.new.fault ≡ None → Appends (W.contents self.old.output.now) (W.contents self.new.output.now) self.old.text.now.bytes.items × (self.new.text.now.bytes.items ≡ []) }
    {
        match self.text.write(self.output) {
            Ok(()) => {}
            Err(cause) => self.fault = Some(PushFault::Output(cause)),
        }
    }

    /// Keeps a fault, or writes a piece of the text if one is there.
    fn settle(&mut self, pushed: Result<(), PushFault>) -> Result<(), AllocError>
        ensures holds { (start : Option (List ℕ)) (d : SessionDraft) → (OnOk pushed (Holds start (W.contents self.old.output.now) self.old.text.now d)) → self.new.fault ≡ None → Holds start (W.contents self.new.output.now) self.new.text.now d }
        ensures same { IsSame self.old.text.now self.new.text.now }
        ensures ok { self.new.fault ≡ None → IsOk pushed }
    {
        match pushed {
            Ok(()) => {
                if self.text.bytes.len() >= PIECE {
                    self.write();
                }
                Ok(())
            }
            Err(fault) => {
                self.fault = Some(fault);
                match fault {
                    PushFault::Memory => Err(AllocError),
                    _ => Ok(()),
                }
            }
        }
    }

    /// Writes the end of the text, and the bytes that are not yet written.
    pub(crate) fn finish(&mut self) -> Result<(), PushFault>
        ensures { (s : Recorded) → Meets B.start B.front B.init (W.contents self.old.output.now) self.old.text.now self.old.fault s → OnOk result (Appends B.start (W.contents self.new.output.now) (text_of B.front s) × HasRecords s B.front × (length s.init ≡ B.init)) }
    {
        if let Some(fault) = self.fault {
            return Err(fault);
        }
        self.text.push_end()?;
        self.write();
        match self.fault {
            Some(fault) => Err(fault),
            None => Ok(()),
        }
    }
}

impl<'a, W: Write, B: Begun> Visitor for TextWriter<'a, W, B> {
    ghost use Rattle.walked_sessions.specs.inner.Made.{IsNothing, Meets};

    ghost IsNew = { λ a. IsNothing B.start B.front B.init (W.contents a.output.now) a.text.now a.fault };

    ghost Met = { λ a d. Meets B.start B.front B.init (W.contents a.output.now) a.text.now a.fault d };

    fn machine(&mut self, machine: &WideMachine) -> Result<(), AllocError> {
        let pushed = self.text.push_machine(machine);
        self.settle(pushed)
    }

    fn init(&mut self, page: WideInit) -> Result<(), AllocError> {
        if self.fault.is_some() {
            return Ok(());
        }
        let pushed = self.text.push_init(&page);
        self.settle(pushed)
    }

    #[inline(always)]
    fn record(&mut self, number: u64, rec: Wide) -> Result<(), AllocError> {
        if self.fault.is_some()
            || number >= self.text.front.of(rec.log())
            || !rec.log().is_in(self.text.version)
        {
            return Ok(());
        }
        let pushed = self.text.push(&rec);
        self.settle(pushed)
    }
}
