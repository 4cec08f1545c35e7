//! The signs that a legend explains.

ghost use Rattle.std.specs.Prelude.{◌≡◌, filter, IfOk};
ghost use Rattle.order_picture.specs.Signs.{arrow_sign, box_sign, number_of, occurs, shows, sign_of, signs_in};

use crate::arrows::ArrowKind;
use crate::boxes::BoxKind;
use crate::shapes::Shape;
use std::alloc::{AllocError, Global};

/// A sign that a legend explains.
#[derive(Clone, Copy)]
pub enum Sign {
    /// The box of the faulty record.
    Faulty,
    /// The box of the faulty record that is also the cause.
    OwnCause,
    /// The box of the record that is the cause.
    Cause,
    /// The box of a record that waits for another waiting record.
    Tied,
    /// The arrow to such a record from the one that it receives.
    Tie,
    /// The arrow to such a record from one that comes before the one that it receives.
    TieBehind,
    /// The box of the record that the cause is set against.
    Against,
    /// The box of a record of the page.
    OfPage,
    /// The box of another record.
    Plain,
    /// The box of the next record of a log, which the order does not take.
    Stuck,
    /// The arrow to a record from the one that it receives.
    Arrow,
    /// The end of such an arrow from a record that has no row.
    Stub,
}

/// Returns the sign for a box.
fn box_sign(kind: BoxKind) -> Sign
    ensures { result ≡ box_sign kind }
{
    match kind {
        BoxKind::Faulty => Sign::Faulty,
        BoxKind::OwnCause => Sign::OwnCause,
        BoxKind::Cause => Sign::Cause,
        BoxKind::Against => Sign::Against,
        BoxKind::OfPage => Sign::OfPage,
        BoxKind::Plain => Sign::Plain,
        BoxKind::Tied => Sign::Tied,
        BoxKind::Stuck => Sign::Stuck,
    }
}

/// Returns the sign for an arrow.
fn arrow_sign(kind: ArrowKind) -> Sign
    ensures { result ≡ arrow_sign kind }
{
    match kind {
        ArrowKind::Received | ArrowKind::OfPage => Sign::Arrow,
        ArrowKind::Tied => Sign::Tie,
        ArrowKind::TiedBehind => Sign::TieBehind,
    }
}

/// Returns the sign for a shape, if a legend explains it.
fn sign_of(shape: &Shape) -> Option<Sign>
    ensures { result ≡ sign_of shape.now }
{
    match shape {
        Shape::Record { kind, .. } => Some(box_sign(*kind)),
        Shape::Arrow { kind, .. } => Some(arrow_sign(*kind)),
        Shape::Stub { .. } => Some(Sign::Stub),
        _ => None,
    }
}

/// Returns the place of a sign in a legend.
fn number_of(sign: Sign) -> usize
    ensures { result ≡ number_of sign }
{
    match sign {
        Sign::Faulty => 0,
        Sign::OwnCause => 1,
        Sign::Cause => 2,
        Sign::Tied => 3,
        Sign::Tie => 4,
        Sign::TieBehind => 5,
        Sign::Against => 6,
        Sign::OfPage => 7,
        Sign::Plain => 8,
        Sign::Stuck => 9,
        Sign::Arrow => 10,
        Sign::Stub => 11,
    }
}

/// Returns whether a shape has this sign.
fn shows(sign: Sign, shape: &Shape) -> bool
    ensures { result ≡ shows sign shape.now }
{
    match sign_of(shape) {
        Some(other) => number_of(other) == number_of(sign),
        None => false,
    }
}

/// Returns whether one of the shapes has this sign.
fn occurs(shapes: &[Shape], sign: Sign) -> bool
    ensures { result ≡ occurs shapes.now sign }
{
    shapes.iter().any(|shape| shows(sign, shape))
}

/// Returns the signs that occur among shapes, in the order of a legend.
pub(crate) fn signs_in(alloc: Global, shapes: &[Shape]) -> Result<Vec<Sign>, AllocError>
    ensures { IfOk result (λ found. found.items ≡ signs_in shapes.now) }
{
    let mut found = Vec::new(alloc);
    let signs = [
        Sign::Faulty,
        Sign::OwnCause,
        Sign::Cause,
        Sign::Tied,
        Sign::Tie,
        Sign::TieBehind,
        Sign::Against,
        Sign::OfPage,
        Sign::Plain,
        Sign::Stuck,
        Sign::Arrow,
        Sign::Stub,
    ];
    for sign in signs {
        if occurs(shapes, sign) {
            found.push(sign)?;
        }
    }
    Ok(found)
}
