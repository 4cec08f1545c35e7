//! The story of a report, as a value.

use crate::Counts;
use crate::fault_stories::{ApartStory, FaultStory, ShapeStory};
use crate::knots::Knot;

/// The story of a report: what it names, with the records that led to it.
#[derive(Drop)]
pub enum Explanation {
    /// A record that does not have the right shape.
    Shape {
        story: ShapeStory,
        /// The faulty pages that misshapen records do not touch, if there are any.
        apart: Option<ApartStory>,
    },
    /// No order of the records exists, because some wait for one another.
    Knot(Knot),
    /// A fault of a page.
    Faulty {
        story: FaultStory,
        /// How many other pages have a fault too.
        more: usize,
    },
    /// The session is clean.
    Clean(Counts),
}
