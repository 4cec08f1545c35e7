//! The window that a pass has written.

ghost use Rattle.std.specs.Prelude.{◌≡◌, true, false, IfOk, IfErr};
ghost use Rattle.migration_types.specs.Sessions.{Recorded};
ghost use Rattle.windows.specs.inner.Met.{AreSame};
ghost use Rattle.windows.specs.Cuts.{IsOf, IsWindowOf};
ghost use Rattle.windows.specs.inner.Settled.{Meets, IsUnwritten};

use crate::faults::CutFault;
use crate::origins::line_origins;
use crate::pages::Window;
use crate::session::{WindowText, session_text};
use crate::visiting::Writing;
use std::alloc::{AllocError, Global};

impl<W> Writing<W> {
    /// Returns the window of the recording that it met, if it went by this window.
    pub(crate) fn window_text<F: Drop>(
        &self,
        alloc: Global,
        window: Window,
    ) -> Result<WindowText, CutFault<F>>
        ensures cut { IfOk result (λ out. (s : Recorded) → Meets self.now s → self.now.guide.window ≡ window → IsWindowOf window s out) }
        ensures refused { IfErr result (IsUnwritten self.now window) }
    {
        if !window.is_of(self.found.machine.pages) {
            return Err(CutFault::Outside);
        }
        if !self.is_settled() {
            return Err(CutFault::Changed);
        }
        match self.settled_text(alloc, window) {
            Ok(out) => Ok(out),
            Err(_) => Err(CutFault::Memory),
        }
    }

    /// Returns whether the marks that it found are those that it went by.
    fn is_settled(&self) -> bool
        ensures same { result ≡ true → AreSame self.now.guide.known self.now.found }
        ensures other { result ≡ false → ¬ AreSame self.now.guide.known self.now.found }
    {
        self.guide.known.is_same(&self.found)
    }

    /// Returns the window, if the marks that it found are those that it went by.
    fn settled_text(&self, alloc: Global, window: Window) -> Result<WindowText, AllocError>
        ensures { IfOk result (λ out. (s : Recorded) → Meets self.now s → self.now.guide.window ≡ window → AreSame self.now.guide.known self.now.found → IsOf window self.now.found.machine.pages → IsWindowOf window s out) }
    {
        let machine = &self.found.machine;
        let text = session_text(alloc, window.count, machine, &self.sections)?;
        let lines = line_origins(alloc, machine.version, &self.found.init, &self.guide.known)?;
        Ok(WindowText { text, lines })
    }
}
