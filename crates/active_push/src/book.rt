//! The source's book, and its part of each event.

ghost use Rattle.std.specs.Prelude.{◌≡◌, ℕ, ◌<◌, ◌≤◌, ◌+◌, ◌++◌, ◌∷◌, [], List, length, Option, IfOk, OnOk, OnErr, IfErr, IsErrOf, MatchBool, true, None};
ghost use Rattle.std.specs.List.{list_any};
ghost use Rattle.migration_types.specs.Limits.{most_records};
ghost use Rattle.page_store.specs.Frames.{memory_of};
ghost use Rattle.balloon_ledger.specs.Released.{released};
ghost use Rattle.bubbling.specs.Bubbling.{most_pivots};
ghost use Rattle.active_push.specs.inner.Opening.{IsOpening};
ghost use Rattle.active_push.specs.inner.Wanted.{HasNext, wanted_first, wanted_again};
ghost use Rattle.active_push.specs.SourcePart.{halted_source, silent, state_packet, source_push, source_serve, source_tick, owes, asks, serves_want, serves_all};

use crate::SourceFault;
use crate::records::{self, Copies};
use balloon_ledger::Ledger;
use bubbling::Bubbles;
use migration_events::look_for_room;
use migration_types::{Geometry, PageNo, Shared, SourceRec};
use page_store::{Store, Table};
use page_stream::Packet;
use std::alloc::{AllocError, Global};
use std::marker::Model;

/// The number of the record that sent the processor state.
const STATE: u32 = 1;

/// The source's book: the machine as the guest left it, and the source's log of what it sends. The log begins with the
/// halt and the state, and has at most 1,048,576 records. Each page is sent at most once by a `send`, which carries its
/// contents, and no released page is sent. A page is still to be pushed if it is owed and not sent. Contracts see the
/// book as the source's part of the events.
#[derive(Drop)]
pub struct SourceBook {
    alloc: Global,
    log: Vec<SourceRec>,
    frames: Store,
    ledger: Ledger,
    /// The number of each page's `send`.
    sent: Table<Option<u32>>,
    bubbles: Bubbles,
    was_asked: bool,
    is_done: bool,
    /// The released pages, which each packet with the processor state carries.
    released: Shared<PageNo>,
}

impl Model for SourceBook {
    ghost use Rattle.active_push.specs.Books.{SourceKept, IsSourceBook};

    ghost Value = { SourceKept };

    ghost view = { λ b. record { log = b.log.items; frames = b.frames; ledger = b.ledger; sent = b.sent; bubbles = b.bubbles; was_asked = b.was_asked; is_done = b.is_done; released = b.released } };

    ghost invariant = { λ b. IsSourceBook (record { log = b.log.items; frames = b.frames; ledger = b.ledger; sent = b.sent; bubbles = b.bubbles; was_asked = b.was_asked; is_done = b.is_done; released = b.released }) };
}

impl SourceBook {
    ghost use Rattle.active_push.specs.Books.{part_of, is_end, IsSourceBook};

    /// Returns the book after the guest's halt, which is the guest's record of this number, and the packet with the
    /// processor state and the released pages, which must be offered to the link. At most this many pivots, 1 to 16,
    /// are kept. If memory runs out, the frames and the ledger come back as they were.
    pub fn halted(
        alloc: Global,
        store: Store,
        ledger: Ledger,
        halt: u32,
        pivots: u32,
    ) -> Result<(SourceBook, Packet), (Store, Ledger, AllocError)>
        requires some { 1 ≤ pivots }
        requires few { pivots ≤ most_pivots }
        requires geometry { ledger.geometry ≡ store.geometry }
        ensures book { IfOk result (λ r. part_of r.0 ≡ halted_source store.geometry (memory_of store) (released ledger) pivots halt) }
        ensures packet { IfOk result (λ r. r.1 ≡ state_packet 1 (halted_source store.geometry (memory_of store) (released ledger) pivots halt)) }
        ensures err { IfErr result (λ r. (r.0 ≡ store) × (r.1 ≡ ledger)) }
    {
        let opening = match opened(alloc, store.geometry(), &ledger, halt, pivots) {
            Ok(opening) => opening,
            Err(error) => return Err((store, ledger, error)),
        };
        let book = SourceBook {
            alloc,
            log: opening.log,
            frames: store,
            ledger,
            sent: opening.sent,
            bubbles: opening.bubbles,
            was_asked: false,
            is_done: false,
            released: opening.released,
        };
        let packet = Packet::State {
            number: STATE,
            released: opening.packet,
        };
        Ok((book, packet))
    }

    /// Sends the next page of bubbling: appends its `send`, and returns its packet, which must be offered after the
    /// others. Returns `None` if all owed pages are sent or the pager has them all, and then nothing changes. On an
    /// error, nothing changes. The error is `LogFull` exactly when the log has no room for the record; this is checked
    /// before memory is allocated.
    pub fn push(&mut self) -> Result<Option<Packet>, SourceFault>
        ensures ok { IfOk result (λ packet. record { book = part_of self.new; packet = packet } ≡ source_push (part_of self.old)) }
        ensures full { IsErrOf result SourceFault.LogFull → most_records < length (source_push (part_of self.old)).book.log }
        ensures memory { IsErrOf result SourceFault.Memory → length (source_push (part_of self.old)).book.log ≤ most_records }
        ensures err { OnErr result (part_of self.new ≡ part_of self.old) }
    {
        if self.has_nothing_to_push() {
            return Ok(None);
        }
        look_for_room(&self.log, 1)?;
        let cells = self.frames.geometry().cells() as usize;
        let Ok(record) = records::blank(self.alloc, cells) else {
            return Err(SourceFault::Memory);
        };
        let Ok(packet) = records::blank(self.alloc, cells) else {
            return Err(SourceFault::Memory);
        };
        records::make_room(&mut self.log, 1)?;
        let Some(page) = self.bubbles.next() else {
            return Ok(None);
        };
        let values = self.frames.page(page);
        let contents = Copies {
            record: records::filled(record, values),
            packet: records::filled(packet, values),
        };
        Ok(Some(records::send(&mut self.log, &mut self.sent, page, contents)))
    }

    /// Returns whether the log has room for what a push appends. Allocates no memory.
    pub fn look_to_push(&self) -> Result<(), SourceFault>
        ensures room { OnOk result (length (source_push (part_of self.now)).book.log ≤ most_records) }
        ensures full { OnErr result (most_records < length (source_push (part_of self.now)).book.log) }
        ensures memory { IsErrOf result SourceFault.Memory → ⊥ }
    {
        self.keeps_limits();
        let more = if self.has_nothing_to_push() { 0 } else { 1 };
        look_for_room(&self.log, more)
    }

    /// Takes a packet that the link's record of this number delivered up, and appends `ask`. A want of an owed page
    /// makes the page a pivot and sends it: by a `send` the first time, and then by `again` of its `send`. Its packet
    /// must be offered ahead of the others. A want of another page sends nothing. The first packet that says that all
    /// pages are placed appends `done`, and a later one nothing more. A packet of the source changes nothing. On an
    /// error, nothing changes. The error is `LogFull` exactly when the log has no room for the records; this is checked
    /// before memory is allocated.
    pub fn serve(
        &mut self,
        link_number: u32,
        packet: &Packet,
    ) -> Result<Option<Packet>, SourceFault>
        ensures ok { IfOk result (λ offered. record { book = part_of self.new; packet = offered } ≡ source_serve link_number packet.now (part_of self.old)) }
        ensures full { IsErrOf result SourceFault.LogFull → most_records < length (source_serve link_number packet.now (part_of self.old)).book.log }
        ensures memory { IsErrOf result SourceFault.Memory → length (source_serve link_number packet.now (part_of self.old)).book.log ≤ most_records }
        ensures err { OnErr result (part_of self.new ≡ part_of self.old) }
    {
        match packet {
            Packet::Want { page, .. } => self.serve_want(link_number, *page),
            Packet::All { .. } => self.serve_all(link_number),
            Packet::State { .. } | Packet::Page { .. } => Ok(None),
        }
    }

    /// Returns whether the log has room for what serving the packet with this record of the link appends. Allocates no
    /// memory.
    pub fn look_to_serve(&self, link_number: u32, packet: &Packet) -> Result<(), SourceFault>
        ensures room { OnOk result (length (source_serve link_number packet.now (part_of self.now)).book.log ≤ most_records) }
        ensures full { OnErr result (most_records < length (source_serve link_number packet.now (part_of self.now)).book.log) }
        ensures memory { IsErrOf result SourceFault.Memory → ⊥ }
    {
        self.keeps_limits();
        let _link_number = link_number;
        match packet {
            Packet::Want { page, .. } => {
                let more = if self.owes(*page) { 2 } else { 1 };
                look_for_room(&self.log, more)
            }
            Packet::All { .. } => {
                let more = if self.is_done { 1 } else { 2 };
                look_for_room(&self.log, more)
            }
            Packet::State { .. } | Packet::Page { .. } => Ok(()),
        }
    }

    /// If the source was not asked for anything yet, sends the processor state again: appends `again` of the state, and
    /// returns its packet, which must be offered after the others. Later it returns `None`, and nothing changes. On an
    /// error, nothing changes. The error is `LogFull` exactly when the log has no room for the record; this is checked
    /// before memory is allocated.
    pub fn tick(&mut self) -> Result<Option<Packet>, SourceFault>
        ensures ok { IfOk result (λ packet. record { book = part_of self.new; packet = packet } ≡ source_tick (part_of self.old)) }
        ensures full { IsErrOf result SourceFault.LogFull → most_records < length (source_tick (part_of self.old)).book.log }
        ensures memory { IsErrOf result SourceFault.Memory → length (source_tick (part_of self.old)).book.log ≤ most_records }
        ensures err { OnErr result (part_of self.new ≡ part_of self.old) }
    {
        if self.was_asked {
            return Ok(None);
        }
        look_for_room(&self.log, 1)?;
        let Ok(released) = self.released.another() else {
            return Err(SourceFault::Memory);
        };
        records::make_room(&mut self.log, 1)?;
        let number = self.log.len() as u32;
        self.log.push_reserved(SourceRec::Again { sending: STATE });
        Ok(Some(Packet::State { number, released }))
    }

    /// Returns whether the log has room for what a tick appends. Allocates no memory.
    pub fn look_to_tick(&self) -> Result<(), SourceFault>
        ensures room { OnOk result (length (source_tick (part_of self.now)).book.log ≤ most_records) }
        ensures full { OnErr result (most_records < length (source_tick (part_of self.now)).book.log) }
        ensures memory { IsErrOf result SourceFault.Memory → ⊥ }
    {
        self.keeps_limits();
        if !self.was_asked {
            return look_for_room(&self.log, 1);
        }
        Ok(())
    }

    /// Takes a want of a page.
    fn serve_want(&mut self, up: u32, page: PageNo) -> Result<Option<Packet>, SourceFault>
        ensures ok { IfOk result (λ offered. record { book = part_of self.new; packet = offered } ≡ serves_want page (asks up (part_of self.old))) }
        ensures full { IsErrOf result SourceFault.LogFull → most_records < length (serves_want page (asks up (part_of self.old))).book.log }
        ensures memory { IsErrOf result SourceFault.Memory → length (serves_want page (asks up (part_of self.old))).book.log ≤ most_records }
        ensures err { OnErr result (part_of self.new ≡ part_of self.old) }
    {
        if !self.owes(page) {
            self.note_ask(up)?;
            return Ok(None);
        }
        match self.sent.at(page) {
            None => self.send_wanted(up, page),
            Some(sending) => self.send_again(up, page, sending),
        }
    }

    /// Sends a wanted page for the first time.
    fn send_wanted(&mut self, up: u32, page: PageNo) -> Result<Option<Packet>, SourceFault>
        requires owed { owes (part_of self.old) page ≡ true }
        requires unsent { (part_of self.old).sent page ≡ None }
        ensures ok { IfOk result (λ offered. record { book = part_of self.new; packet = offered } ≡ wanted_first up page (part_of self.old)) }
        ensures full { IsErrOf result SourceFault.LogFull → most_records < length self.old.log + 2 }
        ensures memory { IsErrOf result SourceFault.Memory → length self.old.log + 2 ≤ most_records }
        ensures err { OnErr result (part_of self.new ≡ part_of self.old) }
    {
        look_for_room(&self.log, 2)?;
        let Ok(contents) = records::copied_twice(self.alloc, self.frames.page(page)) else {
            return Err(SourceFault::Memory);
        };
        records::make_room(&mut self.log, 2)?;
        self.log.push_reserved(SourceRec::Ask { up });
        self.was_asked = true;
        self.bubbles.fault_at(page);
        self.bubbles.mark_sent(page);
        Ok(Some(records::send(&mut self.log, &mut self.sent, page, contents)))
    }

    /// Sends a wanted page again, whose `send` is the record of this number.
    fn send_again(
        &mut self,
        up: u32,
        page: PageNo,
        sending: u32,
    ) -> Result<Option<Packet>, SourceFault>
        requires owed { owes (part_of self.old) page ≡ true }
        requires sent { (part_of self.old).sent page ≡ Some sending }
        ensures ok { IfOk result (λ offered. record { book = part_of self.new; packet = offered } ≡ wanted_again up sending page (part_of self.old)) }
        ensures full { IsErrOf result SourceFault.LogFull → most_records < length self.old.log + 2 }
        ensures memory { IsErrOf result SourceFault.Memory → length self.old.log + 2 ≤ most_records }
        ensures err { OnErr result (part_of self.new ≡ part_of self.old) }
    {
        look_for_room(&self.log, 2)?;
        let contents = match records::sent_again(self.alloc, &mut self.log, sending) {
            Ok(Some(contents)) => contents,
            Ok(None) => unreachable!(),
            Err(_) => return Err(SourceFault::Memory),
        };
        records::make_room(&mut self.log, 2)?;
        self.log.push_reserved(SourceRec::Ask { up });
        self.was_asked = true;
        self.bubbles.fault_at(page);
        let number = self.log.len() as u32;
        self.log.push_reserved(SourceRec::Again { sending });
        Ok(Some(Packet::Page {
            number,
            page,
            cells: contents,
        }))
    }

    /// Takes the packet that says that every owed page is placed.
    fn serve_all(&mut self, up: u32) -> Result<Option<Packet>, SourceFault>
        ensures ok { IfOk result (λ offered. record { book = part_of self.new; packet = offered } ≡ serves_all (asks up (part_of self.old))) }
        ensures full { IsErrOf result SourceFault.LogFull → most_records < length (serves_all (asks up (part_of self.old))).book.log }
        ensures memory { IsErrOf result SourceFault.Memory → length (serves_all (asks up (part_of self.old))).book.log ≤ most_records }
        ensures err { OnErr result (part_of self.new ≡ part_of self.old) }
    {
        if self.is_done {
            self.note_ask(up)?;
            return Ok(None);
        }
        look_for_room(&self.log, 2)?;
        records::make_room(&mut self.log, 2)?;
        self.log.push_reserved(SourceRec::Ask { up });
        self.log.push_reserved(SourceRec::Done);
        self.was_asked = true;
        self.is_done = true;
        Ok(None)
    }

    /// Notes that the source was asked, and nothing else.
    fn note_ask(&mut self, up: u32) -> Result<(), SourceFault>
        ensures ok { OnOk result (part_of self.new ≡ asks up (part_of self.old)) }
        ensures full { IsErrOf result SourceFault.LogFull → most_records < length self.old.log + 1 }
        ensures memory { IsErrOf result SourceFault.Memory → length self.old.log + 1 ≤ most_records }
        ensures err { OnErr result (part_of self.new ≡ part_of self.old) }
    {
        look_for_room(&self.log, 1)?;
        records::make_room(&mut self.log, 1)?;
        self.log.push_reserved(SourceRec::Ask { up });
        self.was_asked = true;
        Ok(())
    }

    /// Returns whether a page is owed: the machine has it, and it was not released at the halt.
    fn owes(&self, page: PageNo) -> bool
        ensures { result ≡ owes (part_of self.now) page }
    {
        page.number() < self.frames.geometry().pages() && !self.ledger.holds(page)
    }

    /// Returns whether a push does nothing: all owed pages are sent, or the pager has them all.
    fn has_nothing_to_push(&self) -> bool
        ensures { MatchBool result (source_push (part_of self.now) ≡ silent (part_of self.now)) (HasNext (part_of self.now)) }
    {
        self.is_done || self.bubbles.left() == 0
    }

    /// Returns the source's log.
    pub fn source_log(&self) -> &[SourceRec]
        ensures { result.now ≡ self.now.log }
    {
        &self.log
    }

    /// Returns the source's log, and consumes the book.
    pub fn into_log(self) -> Vec<SourceRec>
        ensures { result.items ≡ self.log }
    {
        self.log
    }

    /// Returns the number of a page's `send`, or `None` if it was not sent.
    pub fn sent(&self, page: PageNo) -> Option<u32>
        requires { page < self.now.frames.geometry.pages }
        ensures { result ≡ (part_of self.now).sent page }
    {
        self.sent.at(page)
    }

    /// Returns whether the source was told that every owed page is placed, so that its log has a `done`.
    pub fn is_done(&self) -> bool
        ensures told { result ≡ self.now.is_done }
        ensures log { result ≡ list_any is_end self.now.log }
    {
        self.keeps_limits();
        self.is_done
    }

    /// Returns the machine's geometry.
    pub fn geometry(&self) -> Geometry
        ensures { result ≡ self.now.frames.geometry }
    {
        self.frames.geometry()
    }

    /// States the invariant of every book. Its parts are of one machine. Its log begins with the halt and the state,
    /// has at most 1,048,576 records, and has one `send` of each page that is sent, which carries the page's contents,
    /// and none of a released page. The pages to be pushed are the owed ones that are not sent. Runs nothing.
    pub fn keeps_limits(&self)
        ensures { IsSourceBook self.now }
    {
        let _is_done = self.is_done;
    }
}

/// The parts that a book begins with, apart from the machine.
#[derive(Drop)]
struct OpeningParts {
    log: Vec<SourceRec>,
    sent: Table<Option<u32>>,
    bubbles: Bubbles,
    released: Shared<PageNo>,
    /// The released pages again, for the packet.
    packet: Shared<PageNo>,
}

/// Returns the log with the halt and the state, no page sent, all that is owed to be pushed, and the released pages.
/// Fails only if memory runs out.
fn opened(
    alloc: Global,
    geometry: Geometry,
    ledger: &Ledger,
    halt: u32,
    pivots: u32,
) -> Result<OpeningParts, AllocError>
    requires some { 1 ≤ pivots }
    requires few { pivots ≤ most_pivots }
    requires geometry { ledger.now.geometry ≡ geometry }
    ensures { IfOk result (IsOpening geometry ledger.now halt pivots) }
{
    let mut log = Vec::with_capacity(alloc, 2)?;
    log.push_reserved(SourceRec::Halted { halt });
    log.push_reserved(SourceRec::State);
    let sent = Table::no_numbers(alloc, geometry.pages())?;
    let bubbles = Bubbles::new(alloc, geometry, pivots, ledger)?;
    let released = Shared::from_vec(ledger.released_list()?)?;
    let packet = released.another()?;
    Ok(OpeningParts {
        log,
        sent,
        bubbles,
        released,
        packet,
    })
}
