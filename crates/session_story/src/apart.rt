//! The faulty pages of a misshapen session that its misshapen records do not touch.

ghost use Rattle.std.specs.Prelude.{◌≡◌, ◌<◌, IfOk, MatchOption, filter, not, slice_get};
ghost use Rattle.std.specs.List.{All, Contains};
ghost use Rattle.audit_model.specs.declared.reasons.ShapeReason.TheVariants.{Start};
ghost use Rattle.audit_model.specs.Shape.{is_right};
ghost use Rattle.cert_check.specs.ShapeFaults.{AreShapeFaults};
ghost use Rattle.page_store.specs.Tables.{pages_of, values};
ghost use Rattle.session_story.specs.Apart.{AreFaultyApart, IsApart};
ghost use Rattle.session_story.specs.inner.Touched.{AreNotApart, NoneApart, is_look, page_touched};

use crate::{Name, page_of};
use audit_model::{pager_start, source_start};
use cert_check::{ShapeFault, shape_faults};
use migration_types::{GuestRec, LogName, PageNo, Session};
use page_facts::{FaultyPage, OneThread, faulty_pages};
use page_store::Table;
use std::alloc::{AllocError, Global};

/// Returns whether the record with this name looks at a placement.
fn is_look(session: &Session, name: Name) -> bool
    ensures { result ≡ is_look session.now name }
{
    match name.0 {
        LogName::Guest => match session.guest().get(name.1 as usize) {
            Some(GuestRec::See { .. }) => true,
            _ => false,
        },
        _ => false,
    }
}

/// Returns whether the record with this name is right where the source's or the pager's log starts, or ends.
fn is_right_at_start(session: &Session, name: Name) -> bool
    ensures { result ≡ is_right session.now Start name }
{
    let place = name.1 as usize;
    match name.0 {
        LogName::Source => match session.source().get(place) {
            Some(rec) => source_start(session, place, rec),
            None => true,
        },
        LogName::Pager => match session.pager().get(place) {
            Some(rec) => pager_start(session, place, rec),
            None => true,
        },
        _ => true,
    }
}

/// Returns the one page that a misshapen record touches, or `None` if it may touch any page: it is a look, it is of the
/// start, or it is about no page.
fn page_touched(session: &Session, name: Name) -> Option<PageNo>
    ensures { result ≡ page_touched session.now name }
{
    if is_look(session, name) || !is_right_at_start(session, name) {
        return None;
    }
    page_of(session, name)
}

/// Marks the page that each of these misshapen records touches. Returns `None` if one of them may touch any page.
fn marked(
    alloc: Global,
    session: &Session,
    faults: &[ShapeFault],
) -> Result<Option<Table<bool>>, AllocError>
    requires { AreShapeFaults session.now faults.now }
    ensures { IfOk result (λ marks. MatchOption marks (NoneApart session.now) (AreNotApart session.now)) }
{
    session.keeps_limits();
    let mut marks = Table::no_marks(alloc, session.geometry().pages())?;
    for fault in faults {
        let Some(page) = page_touched(session, (fault.log, fault.place)) else {
            return Ok(None);
        };
        marks.set(page, true);
    }
    Ok(Some(marks))
}

/// Returns the pages that are not marked.
fn unmarked(
    alloc: Global,
    faulty: &[FaultyPage],
    marks: &Table<bool>,
) -> Result<Vec<FaultyPage>, AllocError>
    requires { All (λ f. f.fault.page < pages_of marks.now) faulty.now }
    ensures { IfOk result (λ kept. kept.items ≡ filter (λ f. not (values marks.now f.fault.page)) faulty.now) }
{
    let mut kept = Vec::new(alloc);
    for page in faulty {
        if !marks.at(page.fault.page) {
            kept.push(*page)?;
        }
    }
    Ok(kept)
}

/// Returns each page of a session that has a fault and that no misshapen record touches, in the order of pages, with
/// its first fault. A misshapen record touches the page that it is about; and one touches all pages that is of the
/// start, looks at a placement, or is about no page. If the shape is right, these are all faulty pages.
///
/// Makes a few passes over each log, and allocates memory for some numbers for each page, for the cells of all pages,
/// and for the list of misshapen records. Fails only if memory runs out.
pub fn faulty_apart(alloc: Global, session: &Session) -> Result<Vec<FaultyPage>, AllocError>
    ensures { IfOk result (λ found. AreFaultyApart session.now found.items) }
{
    let faults = shape_faults(alloc, session)?;
    let Some(marks) = marked(alloc, session, &faults)? else {
        return Ok(Vec::new(alloc));
    };
    let faulty = faulty_pages(&OneThread, alloc, session)?;
    unmarked(alloc, &faulty, &marks)
}
