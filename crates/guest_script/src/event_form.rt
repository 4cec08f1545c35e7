//! Lines of events.

ghost use Rattle.std.specs.Prelude.{◌≡◌, ◌≢◌, [], ◌∷◌, ◌++◌, IfOk, OnOk, OnErr, MatchOption};
ghost use Rattle.migration_events.specs.declared.events.Event.{Event as Said};
ghost use Rattle.migration_events.specs.declared.events.Fate.{Fate as Met};
ghost use Rattle.guest_script.specs.Events.{event_line, fate_word, link_key, EventFits};
ghost use Rattle.guest_script.specs.inner.EventKinds.{IsAlone};

use crate::keys::{GUEST_KEY, fate_word_of, link_key_of};
use migration_events::{Direction, Event, Fate};
use migration_types::LAST_VCPU;
use std::alloc::AllocError;
use text_lines::{FaultKind, LineForm, after_key, is_line, push_keyed, push_line, read_keyed};

/// The forms of events.
pub const EVENT_FORMS: &[&str] = &[
    "guest V",
    "halt",
    "push",
    "serve",
    "source-tick",
    "link down FATE",
    "link up FATE",
    "link lane FATE",
    "pop",
    "pop-lane",
    "fault",
    "flush",
    "deliver",
    "pager-tick",
];

/// Returns the delivery outcome that a word spells.
pub fn read_fate(word: &[u8]) -> Option<Fate>
    ensures { MatchOption result ((fate : Met) → word.now ≢ fate_word fate) (λ fate. word.now ≡ fate_word fate) }
{
    if is_line(word, b"deliver") {
        return Some(Fate::Deliver);
    }
    if is_line(word, b"lose") {
        return Some(Fate::Lose);
    }
    if is_line(word, b"repeat") {
        return Some(Fate::Repeat);
    }
    if is_line(word, b"back") {
        return Some(Fate::Back);
    }
    None
}

/// Returns the event that a line of one word spells.
fn read_word(line: &[u8]) -> Option<Event>
    ensures { MatchOption result ((e : Said) → IsAlone e → line.now ≢ event_line e) (λ e. EventFits e × (line.now ≡ event_line e)) }
{
    if is_line(line, b"halt") {
        return Some(Event::Halt);
    }
    if is_line(line, b"push") {
        return Some(Event::Push);
    }
    if is_line(line, b"serve") {
        return Some(Event::Serve);
    }
    if is_line(line, b"source-tick") {
        return Some(Event::SourceTick);
    }
    if is_line(line, b"pop") {
        return Some(Event::PagerPop);
    }
    if is_line(line, b"pop-lane") {
        return Some(Event::PagerPull);
    }
    if is_line(line, b"fault") {
        return Some(Event::PagerFault);
    }
    if is_line(line, b"flush") {
        return Some(Event::PagerFlush);
    }
    if is_line(line, b"deliver") {
        return Some(Event::PagerDeliver);
    }
    if is_line(line, b"pager-tick") {
        return Some(Event::PagerTick);
    }
    None
}

/// Returns the turn of the link in a direction that a line spells.
fn read_turn(line: &[u8], direction: Direction) -> Option<Event>
    ensures { MatchOption result ((fate : Met) → line.now ≢ link_key direction ++ fate_word fate) (λ e. EventFits e × (line.now ≡ event_line e)) }
{
    let word = after_key(line, link_key_of(direction))?;
    let fate = read_fate(word)?;
    Some(Event::LinkTurn { direction, fate })
}

/// Returns the event that a line spells.
fn read_event(line: &[u8]) -> Result<Event, FaultKind>
    ensures found { IfOk result (λ e. EventFits e × (line.now ≡ event_line e)) }
    ensures refused { OnErr result ((e : Said) → EventFits e → line.now ≢ event_line e) }
{
    if let Some(event) = read_word(line) {
        return Ok(event);
    }
    if let Some(event) = read_turn(line, Direction::Down) {
        return Ok(event);
    }
    if let Some(event) = read_turn(line, Direction::Up) {
        return Ok(event);
    }
    if let Some(event) = read_turn(line, Direction::Lane) {
        return Ok(event);
    }
    let vcpu = read_keyed(line, GUEST_KEY, u32::from(LAST_VCPU))?;
    Ok(Event::GuestStep { vcpu: vcpu as u8 })
}

/// Appends the line of an event.
fn push_event(out: &mut Vec<u8>, event: Event) -> Result<(), AllocError>
    ensures { OnOk result (out.new.items ≡ out.old.items ++ (event_line event ++ 10 ∷ [])) }
{
    match event {
        Event::GuestStep { vcpu } => push_keyed(out, GUEST_KEY, vcpu),
        Event::Halt => push_line(out, b"halt"),
        Event::Push => push_line(out, b"push"),
        Event::Serve => push_line(out, b"serve"),
        Event::SourceTick => push_line(out, b"source-tick"),
        Event::LinkTurn { direction, fate } => {
            out.extend_from_slice(link_key_of(direction))?;
            push_line(out, fate_word_of(fate))
        }
        Event::PagerPop => push_line(out, b"pop"),
        Event::PagerPull => push_line(out, b"pop-lane"),
        Event::PagerFault => push_line(out, b"fault"),
        Event::PagerFlush => push_line(out, b"flush"),
        Event::PagerDeliver => push_line(out, b"deliver"),
        Event::PagerTick => push_line(out, b"pager-tick"),
    }
}

/// The lines of events.
#[derive(Clone, Copy)]
pub struct EventForm;

impl LineForm for EventForm {
    type Item = Event;

    ghost spell = { event_line };

    ghost IsForm = { λ _. Unit {0} };

    ghost Fits = { λ _ e. EventFits e };

    ghost by_last = { λ a b x y h. h };

    fn read(&self, _before: &[Event], line: &[u8]) -> Result<Event, FaultKind> {
        read_event(line)
    }

    fn push(item: &Event, out: &mut Vec<u8>) -> Result<(), AllocError> {
        push_event(out, *item)
    }
}
