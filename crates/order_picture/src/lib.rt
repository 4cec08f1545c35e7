//! The picture of a session's records in an order. It is made in three steps: first a plan of it as values (which records
//! have a row, which are folded, what is marked, which record receives which), then a list of shapes, and last their
//! text as SVG.
#![tactic(auto)]

mod arrows;
mod behind;
mod boxes;
mod drawing;
mod elements;
mod focus;
mod heading;
mod keeping;
mod labels;
mod layout;
mod legend;
mod order;
mod picture;
mod planning;
mod records;
mod rows;
mod shapes;
mod shown;
mod signs;
mod style;
mod svg;
mod words;

pub use planning::{plan_along, plan_on};
pub use svg::{picture_text, print_picture_along, print_picture_on, write_shapes};
