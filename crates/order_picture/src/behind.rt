//! The records that have a row after the order. Of those that the order does not take, these are the next of each log,
//! the faulty record, the cause, the record that it is set against, and those that wait for one another.

ghost use Rattle.std.specs.Prelude.{◌≡◌, [], ◌∷◌, ◌++◌, filter, IfOk, OnOk};
ghost use Rattle.order_picture.specs.Behind.{is_behind, kind_behind, log_behind, names_behind, obstacle_of, place_in, tie_of};

use crate::boxes::BoxKind;
use crate::picture::Picture;
use crate::records::is_one;
use migration_types::{LogName, Session, logs};
use session_story::{Explanation, Knot, Name, TopicStory, Waiting};
use std::alloc::{AllocError, Global};

/// A record that waits for another waiting record.
#[derive(Clone, Copy)]
pub struct Tie {
    pub waiting: Waiting,
    /// The record that it waits for, or one that comes before that in its log.
    pub next: Waiting,
}

/// Why the order does not take a record.
#[derive(Clone, Copy)]
pub enum Obstacle {
    /// The order takes it.
    Nothing,
    /// It waits for another waiting record.
    Waits,
    /// The record that it receives was not taken.
    NotSent,
    /// The order ends before it, and nothing else prevents it.
    Unhindered,
}

/// Returns the place of a record among those that wait for one another.
fn place_in(knot: &Knot, name: Name) -> Option<usize>
    ensures { result ≡ place_in knot.now name }
{
    knot.waits
        .iter()
        .position(|waiting| is_one(Some((waiting.log, waiting.place)), name))
}

/// Returns a record and the record that it waits for, if both are among those that wait for one another.
pub fn tie_of(told: &TopicStory, name: Name) -> Option<Tie>
    ensures { result ≡ tie_of told.now name }
{
    let TopicStory::Report(Explanation::Knot(knot)) = told else {
        return None;
    };
    let Some(place) = place_in(knot, name) else {
        return None;
    };
    match (knot.waits.get(place), knot.next(place)) {
        (Some(waiting), Some(next)) => Some(Tie {
            waiting: *waiting,
            next,
        }),
        _ => None,
    }
}

/// Returns whether a record that the order does not take has a row.
fn is_behind(picture: &Picture, name: Name) -> bool
    ensures { result ≡ is_behind picture.now name }
{
    name.1 as usize == picture.taken.of(name.0)
        || is_one(picture.focus.fault, name)
        || is_one(picture.focus.cause, name)
        || is_one(picture.focus.against, name)
        || tie_of(&picture.told, name).is_some()
}

/// Appends a record, if it has a row.
fn push_if_behind(names: &mut Vec<Name>, picture: &Picture, name: Name) -> Result<(), AllocError>
    ensures { OnOk result (names.new.items ≡ names.old.items ++ filter (is_behind picture.now) (name ∷ [])) }
{
    if is_behind(picture, name) {
        names.push(name)?;
    }
    Ok(())
}

/// Appends the records of a log that have a row after the order.
fn push_log_behind(
    names: &mut Vec<Name>,
    session: &Session,
    picture: &Picture,
    log: LogName,
) -> Result<(), AllocError>
    ensures { OnOk result (names.new.items ≡ names.old.items ++ log_behind session.now picture.now log) }
{
    let next = picture.taken.of(log);
    let len = session.len(log);
    for place in next..len {
        push_if_behind(names, picture, (log, place as u32))?;
    }
    Ok(())
}

/// Returns the records that have a row after the order.
pub(crate) fn names_behind(
    alloc: Global,
    session: &Session,
    picture: &Picture,
) -> Result<Vec<Name>, AllocError>
    ensures { IfOk result (λ names. names.items ≡ names_behind session.now picture.now) }
{
    let mut names = Vec::new(alloc);
    for log in logs() {
        push_log_behind(&mut names, session, picture, log)?;
    }
    Ok(names)
}

/// Returns what the box of a record after the order says about it.
pub(crate) fn kind_behind(picture: &Picture, name: Name) -> BoxKind
    ensures { result ≡ kind_behind picture.now name }
{
    if is_one(picture.focus.fault, name) {
        if is_one(picture.focus.cause, name) {
            BoxKind::OwnCause
        } else {
            BoxKind::Faulty
        }
    } else if tie_of(&picture.told, name).is_some() {
        BoxKind::Tied
    } else if is_one(picture.focus.cause, name) {
        BoxKind::Cause
    } else if is_one(picture.focus.against, name) {
        BoxKind::Against
    } else {
        BoxKind::Stuck
    }
}

/// Returns why the order does not take a record.
pub(crate) fn obstacle_of(session: &Session, picture: &Picture, name: Name) -> Obstacle
    ensures { result ≡ obstacle_of session.now picture.now name }
{
    match tie_of(&picture.told, name) {
        Some(_) => Obstacle::Waits,
        None => {
            if picture.taken.received(session.named(name)) {
                Obstacle::Unhindered
            } else {
                Obstacle::NotSent
            }
        }
    }
}
