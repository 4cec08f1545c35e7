//! The words of a picture: how many records there are, what the heading says, and what the signs mean.

use crate::behind::{Obstacle, tie_of};
use crate::elements::push;
use crate::heading::Subject;
use crate::shown::OrderShown;
use crate::signs::Sign;
use merge_runs::{TakenCounts, all_of};
use migration_types::{Session, logs};
use session_story::Name;
use std::alloc::{AllocError, Global};
use story_words::{push_record, push_wait};
use text_lines::push_number;

/// The name of the lines in the margin.
pub(crate) const LINES: &[u8] = b"line";

/// The words between the wrong value of a record and the right one.
pub(crate) const RIGHT_VALUE: &[u8] = b", right: ";

/// The line of a text of runs that has its first run.
const FIRST_RUN_LINE: u64 = 3;

/// Appends a count and its noun.
fn push_many(out: &mut Vec<u8>, count: u64, one: &[u8]) -> Result<(), AllocError> {
    push_number(out, count)?;
    push(out, one)?;
    if count != 1 {
        push(out, b"s")?;
    }
    Ok(())
}

/// Returns how many records these counts make.
fn sum_of(counts: &TakenCounts) -> u64 {
    let mut sum: u64 = 0;
    for log in logs() {
        sum = sum.saturating_add(counts.of(log) as u64);
    }
    sum
}

/// Appends how many records these counts make, and how many each log has that has some, as in "15 records: guest 12,
/// link 3".
pub(crate) fn push_records(out: &mut Vec<u8>, counts: &TakenCounts) -> Result<(), AllocError> {
    push_many(out, sum_of(counts), b" record")?;
    let mut before: &[u8] = b": ";
    for log in logs() {
        let count = counts.of(log) as u64;
        if count > 0 {
            push(out, before)?;
            push(out, log.word().as_bytes())?;
            push(out, b" ")?;
            push_number(out, count)?;
            before = b", ";
        }
    }
    Ok(())
}

/// Appends the size of the machine and of the logs, as in "4 pages of 2 cells, 15 records: guest 12, link 3".
pub(crate) fn push_facts(out: &mut Vec<u8>, session: &Session) -> Result<(), AllocError> {
    let geometry = session.geometry();
    push_many(out, u64::from(geometry.pages()), b" page")?;
    push(out, b" of ")?;
    push_many(out, u64::from(geometry.cells()), b" cell")?;
    push(out, b", ")?;
    push_records(out, &all_of(session))
}

/// Appends which order is shown.
pub(crate) fn push_order(out: &mut Vec<u8>, order: OrderShown) -> Result<(), AllocError> {
    match order {
        OrderShown::EveryOrder => push(out, b"It goes wrong in every order, as in this one"),
        OrderShown::OneOrder => push(out, b"In an order in which it goes wrong"),
        OrderShown::FirstFault => push(
            out,
            b"In the order that shows the first fault of the session",
        ),
        OrderShown::Found => push(out, b"In the found order"),
        OrderShown::FoundPart => push(out, b"In the found order, as far as it goes"),
        OrderShown::Given => push(out, b"Along the given runs"),
        OrderShown::GivenPart(place) => {
            push(
                out,
                b"Along the given runs, which are no merging: up to line ",
            )?;
            push_number(out, (place as u64).saturating_add(FIRST_RUN_LINE))?;
            push(out, b" of their text, which cannot be taken")
        }
    }
}

/// Returns the meaning of a sign.
pub(crate) fn meaning_of(sign: Sign) -> &'static [u8] {
    match sign {
        Sign::Faulty => b"the faulty record",
        Sign::OwnCause => b"the faulty record, also the cause",
        Sign::Cause => b"the cause",
        Sign::Tied => b"waits for another of these",
        Sign::Tie => b"has to come first",
        Sign::TieBehind => b"one behind it has to come first",
        Sign::Against => b"what it is set against",
        Sign::OfPage => b"about the same page",
        Sign::Plain => b"another record",
        Sign::Stuck => b"the next of its log, not taken",
        Sign::Arrow => b"is received",
        Sign::Stub => b"is received; it has no row",
    }
}

/// Appends to the title of a record's box why the order does not take the record.
fn push_obstacle(
    text: &mut String,
    subject: Subject<'_>,
    name: Name,
    obstacle: Obstacle,
) -> Result<(), AllocError> {
    match obstacle {
        Obstacle::Nothing => Ok(()),
        Obstacle::Waits => match tie_of(subject.told, name) {
            Some(tie) => push_wait(text, subject.session, &tie.waiting, &tie.next),
            None => Ok(()),
        },
        Obstacle::NotSent => text.push_str("; cannot be taken: what it receives was not"),
        Obstacle::Unhindered => text.push_str("; not taken"),
    }
}

/// Appends the place of a record, what it says, and why the order does not take it, as in "line 12 (guest 5): virtual
/// processor 0 reads 7 in cell 0 of page 1".
pub(crate) fn push_title(
    out: &mut Vec<u8>,
    alloc: Global,
    subject: Subject<'_>,
    name: Name,
    obstacle: Obstacle,
) -> Result<(), AllocError> {
    let mut text = String::new(alloc);
    push_record(&mut text, subject.session, name.0, name.1)?;
    push_obstacle(&mut text, subject, name, obstacle)?;
    push(out, text.as_bytes())
}
