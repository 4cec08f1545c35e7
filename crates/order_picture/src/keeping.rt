//! Which records of an order have a row of their own: those of the page, except that of its reads and writes before the
//! faulty record only those in the story do; the records that these receive; the halt and the resume; and those next to
//! the faulty record. If these are too many, only the first, the last, those nearest to the faulty record, the cause, and
//! the record that it is set against.

use crate::focus::{Focus, is_page};
use crate::records::guest_record;
use crate::rows::{Certain, is_certain};
use migration_types::{GuestRec, LOG_COUNT, LogName, Run, Session, logs};
use session_story::{Name, TopicStory, page_of, tells_of};
use std::alloc::{AllocError, Global};

/// How many are kept at each end of the order.
const MOST_AT_ENDS: usize = 8;

/// How many are kept on each side of the middle.
const MOST_BESIDE: usize = 40;

/// Marks a place as wanted, if it exists.
fn want(wanted: &mut Vec<bool>, place: usize) {
    if let Some(is_wanted) = wanted.get_mut(place) {
        *is_wanted = true;
    }
}

/// Returns whether a record of the guest, if there is one, reads or writes another page than the picture is about, or any
/// page if that is about none.
fn is_elsewhere(focus: &Focus, rec: Option<&GuestRec>) -> bool {
    match rec {
        Some(GuestRec::Read { page: used, .. } | GuestRec::Write { page: used, .. }) => {
            match focus.page {
                Some(page) => used.number() != page.number(),
                None => true,
            }
        }
        _ => false,
    }
}

/// What decides which records have rows.
#[derive(Clone, Copy)]
pub(crate) struct Keeping<'a> {
    pub session: &'a Session,
    pub told: &'a TopicStory,
    pub focus: &'a Focus,
    /// The runs, the first of which make the order.
    pub runs: &'a [Run],
    /// The places of the order whose records always have rows, or are next to such a record.
    pub certain: Certain,
    /// The place of the order around which most is shown.
    pub middle: usize,
}

/// Returns whether a record concerns what the picture is about: a page, or the order if the report names no record of a
/// page.
fn concerns(keeping: &Keeping<'_>, place: usize, name: Name) -> bool {
    let session = keeping.session;
    let uses = match guest_record(session, name) {
        Some(GuestRec::Halt | GuestRec::Resume { .. }) => return true,
        Some(GuestRec::Read { .. } | GuestRec::Write { .. }) => true,
        _ => false,
    };
    match keeping.focus.page {
        Some(_) => {
            is_page(keeping.focus.page, page_of(session, name))
                && (place > keeping.middle || !uses || tells_of(keeping.told, name.1))
        }
        None => matches!(keeping.told, TopicStory::Report(_)) && session.named(name).is_some(),
    }
}

/// The records of a session, of which some are wanted.
#[derive(Drop)]
struct Flags {
    /// Where each log begins if all records stand in one list, log after log.
    begins: [usize; LOG_COUNT],
    /// For each record, whether it is wanted.
    wanted: Vec<bool>,
}

impl Flags {
    /// Returns the flags of a session's records, with none wanted.
    fn of(alloc: Global, session: &Session) -> Result<Self, AllocError> {
        let mut begins = [0; LOG_COUNT];
        let mut all: usize = 0;
        for log in logs() {
            begins[log.index()] = all;
            all = all.saturating_add(session.len(log));
        }
        let wanted = vec![in alloc; false; all]?;
        Ok(Flags { begins, wanted })
    }

    /// Returns the place of a record among all records of the session.
    fn place(&self, name: Name) -> usize {
        self.begins[name.0.index()].saturating_add(name.1 as usize)
    }

    /// Wants a record.
    fn want(&mut self, name: Name) {
        let place = self.place(name);
        want(&mut self.wanted, place);
    }

    /// Wants a record, and the one that it receives, if it receives one.
    fn want_both(&mut self, session: &Session, name: Name) {
        self.want(name);
        if let Some(sent) = session.named(name) {
            self.want(sent);
        }
    }

    /// Returns whether this many records of a log are wanted, from one on.
    fn of_run(&self, name: Name, count: usize) -> &[bool] {
        let from = self.place(name);
        self.wanted
            .get(from..from.saturating_add(count))
            .unwrap_or(&[])
    }
}

/// Wants the record at this place of the order if it concerns what the picture is about, and the one that it receives.
fn note(flags: &mut Flags, keeping: &Keeping<'_>, place: usize, name: Name) {
    if concerns(keeping, place, name) {
        flags.want_both(keeping.session, name);
    }
}

/// Notes the guest's records of a run, whose first is at this place of the order. Nearly all of them are elsewhere.
fn note_guest(flags: &mut Flags, keeping: &Keeping<'_>, at: usize, names: &[Name], from: u32) {
    let guest = keeping.session.guest();
    let records = guest.get(from as usize..).unwrap_or(&[]);
    for (k, name) in names.iter().enumerate() {
        if !is_elsewhere(keeping.focus, records.get(k)) {
            note(flags, keeping, at.saturating_add(k), *name);
        }
    }
}

/// Notes the records of a run, whose first is at this place of the order.
fn note_run(flags: &mut Flags, keeping: &Keeping<'_>, at: usize, names: &[Name]) {
    match names.first() {
        Some((LogName::Guest, from)) => note_guest(flags, keeping, at, names, *from),
        _ => {
            for (k, name) in names.iter().enumerate() {
                note(flags, keeping, at.saturating_add(k), *name);
            }
        }
    }
}

/// Wants the record at a place of the order, if there is one, and the one that it receives.
fn want_at(flags: &mut Flags, session: &Session, order: &[Name], place: Option<usize>) {
    let Some(place) = place else {
        return;
    };
    if let Some(name) = order.get(place) {
        flags.want_both(session, *name);
    }
}

/// Wants the records next to a place of the order.
fn want_beside(flags: &mut Flags, order: &[Name], place: usize) {
    if let Some(name) = order.get(place.saturating_sub(1)) {
        flags.want(*name);
    }
    if let Some(name) = order.get(place.saturating_add(1)) {
        flags.want(*name);
    }
}

/// Returns which records of the session concern what the picture is about, or are received by such a record, or are
/// next to the faulty one.
fn concerned(alloc: Global, keeping: &Keeping<'_>, order: &[Name]) -> Result<Flags, AllocError> {
    let mut flags = Flags::of(alloc, keeping.session)?;
    let certain = keeping.certain;
    for place in [certain.fault, certain.cause, certain.against] {
        want_at(&mut flags, keeping.session, order, place);
    }
    let mut at: usize = 0;
    for run in keeping.runs {
        let to = at.saturating_add(run.count as usize);
        let Some(names) = order.get(at..to) else {
            break;
        };
        note_run(&mut flags, keeping, at, names);
        at = to;
    }
    if keeping.focus.fault.is_some() {
        want_beside(&mut flags, order, keeping.middle);
    }
    Ok(flags)
}

/// Marks the places of the order that have a wanted record.
fn mark_places(marks: &mut Vec<bool>, flags: &Flags, runs: &[Run], order: &[Name]) {
    let mut at: usize = 0;
    for run in runs {
        let Some(name) = order.get(at) else {
            break;
        };
        for is_wanted in flags.of_run(*name, run.count as usize) {
            if *is_wanted {
                want(marks, at);
            }
            at = at.saturating_add(1);
        }
    }
}

/// Returns how many places are marked.
fn count_of(marks: &[bool]) -> usize {
    let mut count: usize = 0;
    for is_marked in marks {
        if *is_marked {
            count = count.saturating_add(1);
        }
    }
    count
}

/// Which of the wanted places have room, if not all do: the first and the last, and those nearest to the middle.
#[derive(Clone, Copy)]
struct Room {
    /// How many are wanted.
    count: usize,
    /// How many of these are before the middle.
    rank: usize,
}

impl Room {
    /// Returns the room for the marked places.
    fn of(marks: &[bool], middle: usize) -> Self {
        let rank = count_of(marks.get(..middle).unwrap_or(marks));
        let behind = count_of(marks.get(middle..).unwrap_or(&[]));
        Room {
            count: rank.saturating_add(behind),
            rank,
        }
    }

    /// Returns whether there is room for the wanted place that comes after this many others.
    fn has(&self, at: usize) -> bool {
        self.count <= MOST_BESIDE
            || at < MOST_AT_ENDS
            || at.saturating_add(MOST_AT_ENDS) >= self.count
            || (at.saturating_add(MOST_BESIDE) >= self.rank
                && at <= self.rank.saturating_add(MOST_BESIDE))
    }
}

/// Leaves the marks of those places for which there is room, and of those that are certain. Also marks a single place
/// between two of them, or between one and an end: it takes no more room than a fold of it.
fn keep(marks: &mut Vec<bool>, middle: usize, certain: Certain) {
    let room = Room::of(marks, middle);
    let mut at: usize = 0;
    let mut next: usize = 0;
    for place in 0..marks.len() {
        let Some(mark) = marks.get_mut(place) else {
            break;
        };
        if !*mark {
            continue;
        }
        if room.has(at) || is_certain(certain, place) {
            if next.saturating_add(1) == place {
                want(marks, next);
            }
            next = place.saturating_add(1);
        } else {
            *mark = false;
        }
        at = at.saturating_add(1);
    }
    if next.saturating_add(1) == marks.len() {
        want(marks, next);
    }
}

/// Returns which places of an order have a row of their own. Allocates memory for two flags for each record. Fails only
/// if memory runs out.
pub(crate) fn kept_in(
    alloc: Global,
    keeping: &Keeping<'_>,
    order: &[Name],
) -> Result<Vec<bool>, AllocError> {
    let flags = concerned(alloc, keeping, order)?;
    let mut kept = vec![in alloc; false; order.len()]?;
    mark_places(&mut kept, &flags, keeping.runs, order);
    keep(&mut kept, keeping.middle, keeping.certain);
    Ok(kept)
}
