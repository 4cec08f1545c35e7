//! Whether a record is within the limits, decided by what it consists of.

ghost use Rattle.std.specs.Prelude.{◌≡◌, ◌↔◌, IsTrue};
ghost use Rattle.std.specs.List.{AllByRecursion};
ghost use Rattle.migration_types.specs.Contents.{IsContent};
ghost use Rattle.migration_types.specs.Follow.{ContentFits, FieldFits, RowFits};

use crate::geometry::Geometry;
use crate::records::{LAST_VCPU, LogName, Record};
use crate::rows::Field;
use crate::version::Version;

/// Returns whether a field is within the limits.
fn field_fits(version: Version, geometry: Geometry, field: Field) -> bool
    ensures { IsTrue result ↔ FieldFits version geometry field }
{
    match field {
        Field::Vcpu(vcpu) => u32::from(vcpu) <= LAST_VCPU,
        Field::Page(page) => geometry.has_page(page),
        Field::Cell(cell) => u32::from(cell) < geometry.cells(),
        Field::Value(_) => true,
        Field::Number(log, number) | Field::Handover(log, number) => {
            log.is_in(version) && number < geometry.size().limits().records
        }
    }
}

/// Returns whether there is one value for each of this many cells.
fn is_content(cells: u32, values: &[u64]) -> bool
    ensures { IsTrue result ↔ IsContent cells values.now }
{
    values.len() == cells as usize
}

/// Returns whether the contents, if there are any, have one value for each cell of a page.
fn has_content<R: Record>(geometry: Geometry, rec: &R) -> bool
    ensures { IsTrue result ↔ ContentFits geometry (R.contents rec.now) }
{
    match rec.contents() {
        Some(values) => is_content(geometry.cells(), values),
        None => true,
    }
}

/// Returns whether each field is within the limits.
fn fields_fit(version: Version, geometry: Geometry, fields: &[Field]) -> bool
    ensures { IsTrue result ↔ AllByRecursion (FieldFits version geometry) fields.now }
{
    fields
        .iter()
        .all(|field| field_fits(version, geometry, *field))
}

/// Returns whether a record of a log is allowed in a session of a version, and its numbers are within the machine.
/// Allocates no memory.
#[tactic(auto, using(crate::proofs::Fitting::row_fits, crate::proofs::Fitting::row_back))]
pub fn fits<R: Record>(version: Version, geometry: Geometry, log: LogName, rec: &R) -> bool
    ensures { IsTrue result ↔ RowFits version geometry log (R.consists rec.now) (R.contents rec.now) }
{
    log.is_in(version)
        && fields_fit(version, geometry, rec.row().fields())
        && has_content(geometry, rec)
}
