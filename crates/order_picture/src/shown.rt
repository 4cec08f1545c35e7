//! What the heading of a picture says about the order that is shown.

ghost use Rattle.std.specs.Prelude.{◌≡◌};
ghost use Rattle.order_picture.specs.Shown.{faulty_order, order_shown};

use crate::picture::Picture;
use audit_report::Report;
use session_story::{TopicStory, is_always_wrong};

/// Which order a picture shows.
#[derive(Clone, Copy)]
pub enum Shown {
    /// The order of the report.
    Reported,
    /// The order of given runs.
    Given,
}

/// What the heading says about the order.
#[derive(Clone, Copy)]
pub enum OrderShown {
    /// A record goes wrong in every order, as it does in this one.
    EveryOrder,
    /// A record goes wrong in this order.
    OneOrder,
    /// It shows the first fault of the session, and the picture is about a page or a line.
    FirstFault,
    /// It is the found order, which is complete.
    Found,
    /// It is the found order, as far as it goes.
    FoundPart,
    /// It is the order of the given runs, which spell a merging.
    Given,
    /// It is the order of the given runs before the one at this place, which cannot be taken.
    GivenPart(usize),
}

/// Returns what the heading says about an order that shows a fault of the session, given the story.
fn faulty_order(told: &TopicStory) -> OrderShown
    ensures { result ≡ faulty_order told.now }
{
    match told {
        TopicStory::Report(explanation) => {
            if is_always_wrong(explanation) {
                OrderShown::EveryOrder
            } else {
                OrderShown::OneOrder
            }
        }
        _ => OrderShown::FirstFault,
    }
}

/// Returns what the heading says about the order that a picture shows.
pub(crate) fn order_shown(report: &Report, picture: &Picture, shown: Shown) -> OrderShown
    ensures { result ≡ order_shown report.now picture.now shown }
{
    match (shown, report, picture.bad) {
        (Shown::Reported, Report::Faulty { .. }, _) => faulty_order(&picture.told),
        (Shown::Reported, _, Some(_)) => OrderShown::FoundPart,
        (Shown::Reported, _, None) => OrderShown::Found,
        (Shown::Given, _, Some(place)) => OrderShown::GivenPart(place),
        (Shown::Given, _, None) => OrderShown::Given,
    }
}
