//! The text of a recording, made line by line.

ghost use Rattle.std.specs.Prelude.{◌≡◌, ℕ, ◌≤◌, [], List, OnOk};
ghost use Rattle.std.specs.Io.KnownBytes.{Appends};
ghost use Rattle.text_access.specs.Written.{Gains};
ghost use Rattle.recordings.specs.Wide.{init_of};
ghost use Rattle.recordings.specs.inner.Held.{SessionDraft};
ghost use Rattle.walked_sessions.specs.inner.Made.{list_of};

use crate::write_faults::PushFault;
use migration_types::{LogName, Version};
use recorder_files::Front;
use recordings::{Wide, WideInit, WideMachine};
use session_grammar::{
    CELLS_KEY, GUEST_KEY, INIT_KEY, LANE_KEY, LINK_KEY, PAGER_KEY, PAGES_KEY, SOURCE_KEY,
    session_header,
};
use std::alloc::{AllocError, Global};
use std::io::Write;
use text_access::{Cause, write_or_why};
use text_lines::{CLOSING, push_keyed, push_line};

/// A counted list of lines in the text.
#[derive(Clone, Copy, PartialEq, Eq)]
pub(crate) enum ListKind {
    Init,
    Guest,
    Source,
    Link,
    Lane,
    Pager,
}

/// Returns the list of a log's records.
#[inline(always)]
fn list_of(log: LogName) -> ListKind
    ensures { result ≡ list_of log }
{
    match log {
        LogName::Guest => ListKind::Guest,
        LogName::Source => ListKind::Source,
        LogName::Link => ListKind::Link,
        LogName::Lane => ListKind::Lane,
        LogName::Pager => ListKind::Pager,
    }
}

/// A text that is being made: its bytes since the last piece, what it announces, and the list whose lines come next.
#[derive(Drop)]
pub(crate) struct Text {
    pub(crate) bytes: Vec<u8>,
    /// How many records of each log the text has.
    pub(crate) front: Front,
    /// How many initial pages it has.
    pub(crate) init: u64,
    pub(crate) version: Version,
    pub(crate) section: ListKind,
    /// How many lines of the list are still to come.
    pub(crate) left: u64,
}

impl Text {
    ghost use Rattle.migration_types.specs.declared.version.Version.TheVariants.{Two};
    ghost use Rattle.walked_sessions.specs.inner.Made.{Stands, IsSame, IsHead, IsMachineSaid, Begins, Takes, IsEnded, rank, and_init, and_record};

    /// Returns a text without lines.
    pub(crate) fn new(alloc: Global, front: Front, init: u64) -> Self
        ensures front { result.front ≡ front }
        ensures init { result.init ≡ init }
        ensures bytes { result.bytes.items ≡ [] }
    {
        Text {
            bytes: Vec::new(alloc),
            front,
            init,
            version: Version::One,
            section: ListKind::Init,
            left: init,
        }
    }

    /// Appends the lines of the machine, and the number of initial pages.
    pub(crate) fn push_machine(&mut self, machine: &WideMachine) -> Result<(), PushFault>
        ensures { OnOk result (IsMachineSaid self.old self.new machine.now) }
    {
        let Ok(()) = self.push_head(machine) else {
            return Err(PushFault::Memory);
        };
        self.version = machine.version;
        self.section = ListKind::Init;
        self.left = self.init;
        Ok(())
    }

    fn push_head(&mut self, machine: &WideMachine) -> Result<(), AllocError>
        ensures { OnOk result (IsHead self.old self.new machine.now) }
    {
        push_line(
            &mut self.bytes,
            session_header(machine.version, machine.size),
        )?;
        push_keyed(&mut self.bytes, PAGES_KEY, machine.pages)?;
        push_keyed(&mut self.bytes, CELLS_KEY, machine.cells)?;
        push_keyed(&mut self.bytes, INIT_KEY, self.init)
    }

    /// Ends a list, none of whose lines is missing, and begins the next with the line of its number.
    fn begin(&mut self, section: ListKind, key: &[u8], count: u64) -> Result<(), PushFault>
        ensures { OnOk result (Begins self.old self.new section key.now count) }
    {
        if self.left != 0 {
            return Err(PushFault::Changed);
        }
        let Ok(()) = push_keyed(&mut self.bytes, key, count) else {
            return Err(PushFault::Memory);
        };
        self.section = section;
        self.left = count;
        Ok(())
    }

    /// Counts a line of a list, whose turn it is.
    fn take(&mut self, section: ListKind) -> Result<(), PushFault>
        ensures { OnOk result (Takes self.old self.new section) }
    {
        if self.section != section || self.left == 0 {
            return Err(PushFault::Changed);
        }
        self.left -= 1;
        Ok(())
    }

    /// Begins the guest's log, if it has not begun.
    fn reach_guest(&mut self) -> Result<(), PushFault>
        ensures stands { (before : List ℕ) (d : SessionDraft) → Stands before self.old d → OnOk result (Stands before self.new d) }
        ensures reached { OnOk result (1 ≤ rank self.new.section) }
        ensures same { OnOk result (IsSame self.old self.new) }
    {
        match self.section {
            ListKind::Init => self.begin(ListKind::Guest, GUEST_KEY, self.front.guest),
            _ => Ok(()),
        }
    }

    /// Begins the source's log, if it has not begun.
    fn reach_source(&mut self) -> Result<(), PushFault>
        ensures stands { (before : List ℕ) (d : SessionDraft) → Stands before self.old d → OnOk result (Stands before self.new d) }
        ensures reached { OnOk result (2 ≤ rank self.new.section) }
        ensures same { OnOk result (IsSame self.old self.new) }
    {
        self.reach_guest()?;
        match self.section {
            ListKind::Guest => self.begin(ListKind::Source, SOURCE_KEY, self.front.source),
            _ => Ok(()),
        }
    }

    /// Begins the link's log, if it has not begun.
    fn reach_link(&mut self) -> Result<(), PushFault>
        ensures stands { (before : List ℕ) (d : SessionDraft) → Stands before self.old d → OnOk result (Stands before self.new d) }
        ensures reached { OnOk result (3 ≤ rank self.new.section) }
        ensures same { OnOk result (IsSame self.old self.new) }
    {
        self.reach_source()?;
        match self.section {
            ListKind::Source => self.begin(ListKind::Link, LINK_KEY, self.front.link),
            _ => Ok(()),
        }
    }

    /// Begins the lane's log, if it has not begun and the version has one.
    fn reach_lane(&mut self) -> Result<(), PushFault>
        ensures stands { (before : List ℕ) (d : SessionDraft) → Stands before self.old d → OnOk result (Stands before self.new d) }
        ensures reached { OnOk result (3 ≤ rank self.new.section) }
        ensures version { OnOk result (self.new.version ≡ Two → 4 ≤ rank self.new.section) }
        ensures same { OnOk result (IsSame self.old self.new) }
    {
        self.reach_link()?;
        match (self.section, self.version) {
            (ListKind::Link, Version::Two) => self.begin(ListKind::Lane, LANE_KEY, self.front.lane),
            _ => Ok(()),
        }
    }

    /// Begins the pager's log, if it has not begun.
    fn reach_pager(&mut self) -> Result<(), PushFault>
        ensures stands { (before : List ℕ) (d : SessionDraft) → Stands before self.old d → OnOk result (Stands before self.new d) }
        ensures reached { OnOk result (5 ≤ rank self.new.section) }
        ensures same { OnOk result (IsSame self.old self.new) }
    {
        self.reach_lane()?;
        match self.section {
            ListKind::Pager => Ok(()),
            _ => self.begin(ListKind::Pager, PAGER_KEY, self.front.pager),
        }
    }

    /// Appends the line of an initial page.
    pub(crate) fn push_init(&mut self, page: &WideInit) -> Result<(), PushFault>
        ensures stands { (before : List ℕ) (d : SessionDraft) → Stands before self.old d → OnOk result (Stands before self.new (and_init d (init_of page.now))) }
        ensures same { OnOk result (IsSame self.old self.new) }
    {
        self.take(ListKind::Init)?;
        let Ok(()) = page.push(&mut self.bytes) else {
            return Err(PushFault::Memory);
        };
        Ok(())
    }

    /// Begins a log, if it has not begun; the lane's only if the version has one.
    #[inline(always)]
    fn reach(&mut self, log: LogName) -> Result<(), PushFault>
        ensures stands { (before : List ℕ) (d : SessionDraft) → Stands before self.old d → OnOk result (Stands before self.new d) }
        ensures same { OnOk result (IsSame self.old self.new) }
    {
        match log {
            LogName::Guest => self.reach_guest(),
            LogName::Source => self.reach_source(),
            LogName::Link => self.reach_link(),
            LogName::Lane => self.reach_lane(),
            LogName::Pager => self.reach_pager(),
        }
    }

    /// Appends the line of a record.
    #[inline(always)]
    pub(crate) fn push(&mut self, rec: &Wide) -> Result<(), PushFault>
        ensures stands { (before : List ℕ) (d : SessionDraft) → Stands before self.old d → OnOk result (Stands before self.new (and_record d rec.now)) }
        ensures same { OnOk result (IsSame self.old self.new) }
    {
        self.reach(rec.log())?;
        self.take(list_of(rec.log()))?;
        let Ok(()) = rec.push(&mut self.bytes) else {
            return Err(PushFault::Memory);
        };
        Ok(())
    }

    /// Writes the bytes since the last piece, and drops them. An error leaves them.
    pub(crate) fn write<W: Write>(&mut self, output: &mut W) -> Result<(), Cause>
        ensures same { IsSame self.old self.new × (self.new.section ≡ self.old.section) × (self.new.left ≡ self.old.left) }
        ensures gains { Gains (W.contents output.old) (W.contents output.new) }
        ensures written { OnOk result (Appends (W.contents output.old) (W.contents output.new) self.old.bytes.items × (self.new.bytes.items ≡ [])) }
    {
        write_or_why(output, &self.bytes)?;
        self.bytes.clear();
        Ok(())
    }

    /// Appends the numbers of the logs that have not begun, and the closing line.
    pub(crate) fn push_end(&mut self) -> Result<(), PushFault>
        ensures { (before : List ℕ) (d : SessionDraft) → Stands before self.old d → OnOk result (IsEnded before self.new d) }
    {
        self.reach_pager()?;
        if self.left != 0 {
            return Err(PushFault::Changed);
        }
        let Ok(()) = push_line(&mut self.bytes, CLOSING) else {
            return Err(PushFault::Memory);
        };
        Ok(())
    }
}
