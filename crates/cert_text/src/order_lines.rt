//! Reading a text that gives an order, line by line.

ghost use Rattle.std.specs.Prelude.{◌≡◌, ◌≢◌, ◌+◌, ◌^◌, ◌<◌, ℕ, List, [], ◌∷◌, ◌++◌, true, false, length, OnOk, OnErr, IfErr};
ghost use Rattle.text_lines.specs.Text.{Begins, TakesLines};
ghost use Rattle.cert_text.specs.Order.{SpellsOrder};
ghost use Rattle.cert_text.specs.inner.OrderHeld.{IsFirst};
ghost use Rattle.cert_text.specs.inner.Parts.{held_at, inner_at, LiveAt, StaysAt};

use crate::first_lines::{form_of, wanted_first};
use crate::forms::OrderForm;
use crate::{CertRuns, RunsText};
use migration_types::{Run, Seq};
use std::alloc::Global;
use std::thread::Threads;
use text_lines::{
    Alone, FaultKind, LineCrew, LineReader, Rewind, Stages, StagesApart, StagesBack, Team, Wanted,
};

/// What was read of a text that gives an order. The stage says whether its first line was read, and with it the form.
#[derive(Drop)]
pub struct OrderParts {
    form: OrderForm,
    runs: RunsText,
    cert: CertRuns,
}

impl OrderParts {
    /// Takes the first line, which says that the text has this form.
    fn first_of(&mut self, form: OrderForm, line: &[u8]) -> Result<(), FaultKind>
        requires live { LiveAt false self.old }
        requires first { IsFirst form line.now }
        ensures live { OnOk result (LiveAt true self.new) }
        ensures ok { OnOk result (held_at true self.new ≡ line.now ∷ []) }
        ensures refused { IfErr result (λ kind. kind ≢ FaultKind.Memory → Begins SpellsOrder (line.now ∷ []) → ⊥) }
        ensures err { OnErr result (LiveAt false self.new) }
    {
        self.form = form;
        if self.form.has_front() {
            return Ok(());
        }
        if self.form.has_runs() {
            return self.runs.line(line);
        }
        self.cert.line(line)
    }

    /// Takes the first line.
    fn first(&mut self, line: &[u8]) -> Result<(), FaultKind>
        requires { LiveAt false self.old }
        ensures live { OnOk result (LiveAt true self.new) }
        ensures ok { OnOk result (held_at true self.new ≡ line.now ∷ []) }
        ensures refused { IfErr result (λ kind. kind ≢ FaultKind.Memory → Begins SpellsOrder (line.now ∷ []) → ⊥) }
        ensures err { OnErr result (LiveAt false self.new) }
    {
        match form_of(line) {
            Some(form) => self.first_of(form, line),
            None => Err(FaultKind::Form),
        }
    }

    /// Takes a line after the first.
    fn next(&mut self, line: &[u8]) -> Result<(), FaultKind>
        requires { LiveAt true self.old }
        ensures live { LiveAt true self.new }
        ensures ok { OnOk result (held_at true self.new ≡ held_at true self.old ++ line.now ∷ []) }
        ensures refused { IfErr result (λ kind. kind ≢ FaultKind.Memory → Begins SpellsOrder (held_at true self.old ++ line.now ∷ []) → ⊥) }
        ensures err { OnErr result (held_at true self.new ≡ held_at true self.old) }
    {
        if self.form.has_runs() {
            self.runs.goes_on();
            return self.runs.line(line);
        }
        self.cert.goes_on();
        self.cert.line(line)
    }

    /// Takes as many lines after the first as the pool likes, and returns what follows them and how many they were.
    fn lines_by<'a, C: LineCrew<RunsText> + LineCrew<CertRuns>>(
        &mut self,
        crew: &C,
        begun: bool,
        bytes: &'a [u8],
    ) -> (&'a [u8], u32)
        requires ready { C.IsReady crew.now }
        requires live { LiveAt begun self.old }
        ensures live { LiveAt begun self.new }
        ensures taken { TakesLines (held_at begun self.old) (held_at begun self.new) bytes.now result.0.now result.1 }
    {
        if !begun {
            return (bytes, 0);
        }
        if self.form.has_runs() {
            return crew.lines(&mut self.runs, bytes);
        }
        crew.lines(&mut self.cert, bytes)
    }

    /// Returns how many lines of the runs' text or of the certificate were read.
    fn inner(&self) -> u32
        ensures count { result ≡ length (inner_at self.now) }
        ensures few { result + 1 < 2 ^ 32 }
    {
        self.runs.goes_on();
        self.cert.goes_on();
        if self.form.has_runs() {
            self.runs.count()
        } else {
            self.cert.count()
        }
    }

    /// Returns how many lines were read, once the form is known.
    fn came(&self) -> u32
        ensures { result ≡ length (held_at true self.now) }
    {
        if self.form.has_front() {
            self.inner() + 1
        } else {
            self.inner()
        }
    }

    /// Takes the last line of the runs' text or of the certificate back.
    fn undo_inner(&mut self)
        requires live { LiveAt true self.old }
        requires some { 0 < length (inner_at self.old) }
        ensures stays { StaysAt self.old self.new }
        ensures back { (line : List ℕ) × (inner_at self.old ≡ inner_at self.new ++ line ∷ []) }
    {
        if self.form.has_runs() {
            self.runs.undo();
        } else {
            self.cert.undo();
        }
    }
}

/// Returns what is allowed at a line of a text below one other line.
fn below(wanted: Wanted) -> Wanted {
    if wanted.counted_at == 0 {
        return wanted;
    }
    Wanted {
        counted_at: wanted.counted_at.saturating_add(1),
        ..wanted
    }
}

impl Stages for OrderParts {
    type Stage = bool;

    type Text = Seq<Run>;

    ghost spells = { SpellsOrder };

    ghost use Rattle.cert_text.specs.inner.Parts.{held_at, LiveAt};

    ghost held = { held_at };

    ghost Live = { LiveAt };

    fn begin(alloc: Global) -> (bool, Self) {
        let parts = OrderParts {
            form: OrderForm::Runs,
            runs: RunsText::new(alloc),
            cert: CertRuns::new(alloc),
        };
        (false, parts)
    }

    fn take(&mut self, begun: bool, line: &[u8]) -> Result<bool, FaultKind> {
        if begun {
            self.next(line)?;
        } else {
            self.first(line)?;
        }
        Ok(true)
    }

    fn lines<'a>(&mut self, begun: bool, bytes: &'a [u8]) -> (&'a [u8], u32) {
        self.lines_by(&Alone, begun, bytes)
    }

    fn goes_on(&self, _begun: bool) {
        self.runs.goes_on();
        self.cert.goes_on();
    }

    fn wanted(&self, begun: bool) -> Wanted {
        if !begun {
            return wanted_first();
        }
        let wanted = if self.form.has_runs() {
            self.runs.wanted()
        } else {
            self.cert.wanted()
        };
        if self.form.has_front() {
            below(wanted)
        } else {
            wanted
        }
    }

    fn text(self, begun: bool) -> Option<Seq<Run>> {
        if !begun {
            return None;
        }
        self.runs.goes_on();
        self.cert.goes_on();
        if self.form.has_runs() {
            self.runs.text()
        } else {
            self.cert.text()
        }
    }

    ghost use Rattle.cert_text.specs.inner.OrderPlain.{plain_order};

    ghost plain = { plain_order };
}

impl StagesBack for OrderParts {
    fn count(&self, begun: bool) -> u32 {
        if begun { self.came() } else { 0 }
    }

    fn undo(&mut self, _begun: bool) -> bool {
        if self.inner() == 0 {
            return false;
        }
        self.undo_inner();
        self.came() > 0
    }
}

impl StagesApart for OrderParts {
    fn lines_apart<'a, H: Threads + Sync>(
        &mut self,
        rt: &H,
        parts: usize,
        begun: bool,
        bytes: &'a [u8],
    ) -> (&'a [u8], u32) {
        self.lines_by(&Team { rt, parts }, begun, bytes)
    }
}
