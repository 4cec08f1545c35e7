//! Records by their names, and the record that a record names.

ghost use Rattle.std.specs.Prelude.{◌≡◌};
ghost use Rattle.session_story.specs.Named.{furthest, named_among, named_by, named_in, or_else};

use migration_types::{Field, LogName, Session};

/// A record, by its log and its number there.
pub type Name = (LogName, u32);

/// Returns the record of this number in a log, if there is a number.
pub fn named_in(log: LogName, place: Option<u32>) -> Option<Name>
    ensures { result ≡ named_in log place }
{
    match place {
        Some(place) => Some((log, place)),
        None => None,
    }
}

/// Returns the first of these records that exists.
fn or_else(name: Option<Name>, other: Option<Name>) -> Option<Name>
    ensures { result ≡ or_else name other }
{
    match name {
        Some(name) => Some(name),
        None => other,
    }
}

/// Returns how far a page came: to the pager, or else to a delivery by the link, or by the lane, or to the source's
/// sending.
pub fn furthest(
    got: Option<u32>,
    delivered: Option<u32>,
    by_lane: Option<u32>,
    sent: Option<u32>,
) -> Option<Name>
    ensures { result ≡ furthest got delivered by_lane sent }
{
    let sent = named_in(LogName::Source, sent);
    let by_lane = or_else(named_in(LogName::Lane, by_lane), sent);
    let delivered = or_else(named_in(LogName::Link, delivered), by_lane);
    or_else(named_in(LogName::Pager, got), delivered)
}

/// Returns the first record that fields name, if they name one.
fn named_among(fields: &[Field]) -> Option<Name>
    ensures { result ≡ named_among fields.now }
{
    for field in fields {
        match *field {
            Field::Number(log, number) | Field::Handover(log, number) => return Some((log, number)),
            _ => {}
        }
    }
    None
}

/// Returns the record that a record names, if it names one.
pub fn named_by(session: &Session, name: Name) -> Option<Name>
    ensures { result ≡ named_by session.now name }
{
    match session.row(name) {
        Some(row) => named_among(row.fields()),
        None => None,
    }
}
