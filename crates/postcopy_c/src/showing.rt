//! A session in words, as a picture or with all its faults: as numbers, and as texts in the caller's room.

ghost use Rattle.std.specs.Prelude.{◌≡◌, ◌≢◌, length, IfOk};
ghost use Rattle.std.specs.List.{AllZip, concat};
ghost use Rattle.audit_model.specs.World.{IsSafe};
ghost use Rattle.page_facts.specs.FaultyPages.{AreFaultyPages};
ghost use Rattle.audit_report.specs.Reports.{IsCleanWith, IsReport, ReportFits};
ghost use Rattle.session_answers.specs.Forms.{AreListed, Tells};
ghost use Rattle.session_answers.specs.Judged.{Reported};
ghost use Rattle.judged_texts.specs.Checked.{SpellsOneSession, OfSpelled};
ghost use Rattle.judged_texts.specs.Audited.{HasReport, FindsClean, FindsFault, IsSafeExactlyIf, IsUnsafe};
ghost use Rattle.postcopy_c.specs.Numbers.{audited_numbers};
ghost use Rattle.postcopy_c.specs.Answers.{IsPut};
ghost use Rattle.postcopy_c.specs.Texts.{AreMeasured, ends_from, texts_of};
ghost use Rattle.postcopy_c.specs.Showings.{IsLackByReport, IsLackText, IsRightJudged, IsShowing, IsShowingOf, IsShownAnswer, IsShownJudged, IsShownRefusal, IsShownReport};
ghost use Rattle.postcopy_c.specs.Questions.{IsToldAll};

use crate::answer::{PostcopyAnswer, audited_answer, out_of_memory};
use crate::kinds::{CLEAN, FAULTY, NO_MEMORY, SESSION_TEXT};
use crate::telling::put;
use crate::texts::Texts;
use audit_report::{OwnLines, Report, audit_by, print_first_line, print_refused_session};
use completeness::Extent;
use judged_texts::TextAudit;
use migration_types::{Cert, Session, Topic};
use order_picture::print_picture_on;
use page_facts::{FaultyPage, OneThread, clean_sessions_have_no_faulty_page, faulty_pages};
use session_answers::{AnswerForm, LackForm, print_lack_of, print_refusal, print_told};
use session_log::{read_session, session_texts_are_unambiguous};
use session_story::faulty_apart;
use std::alloc::{AllocError, Global};

/// How a session is shown.
#[derive(Clone, Copy)]
pub enum ShownAs {
    /// As the report, in this form.
    Told(AnswerForm),
    /// As the picture about a topic, in the order of the report.
    Picture(Topic),
    /// As the line that says what is missing first for this extent from a clean session, or no text if it is complete.
    /// For any other session, as the first line of its report.
    Lack(Extent),
}

/// What was judged about the text of a session.
#[derive(Clone, Copy)]
pub enum JudgedText<'a> {
    /// The text is refused at this line.
    Refused(u32),
    /// The text spells a session, which has this report.
    Reported(&'a Session, &'a Report),
}

/// An audit, and the texts that show it.
#[derive(Drop)]
pub struct Showing {
    /// The audit.
    pub audited: TextAudit,
    /// The texts.
    pub texts: Texts,
}

/// Returns the line that says what is missing first for this extent from a session, or no text if it is complete.
fn lack_of(alloc: Global, session: &Session, extent: Extent) -> Result<Vec<u8>, AllocError>
    ensures { IfOk result (λ text. IsLackText extent session.now text.items) }
{
    match print_lack_of(alloc, &OwnLines, session, extent, LackForm::Line)? {
        Some(text) => Ok(text),
        None => Ok(Vec::new(alloc)),
    }
}

/// Returns what is missing from a session, if its report is clean, and otherwise the first line of the report.
fn lack_by_report(
    alloc: Global,
    session: &Session,
    extent: Extent,
    report: &Report,
) -> Result<Vec<u8>, AllocError>
    ensures { IfOk result (λ text. IsLackByReport extent session.now report.now text.items) }
{
    match report {
        Report::Clean(_) => lack_of(alloc, session, extent),
        Report::Shape(_) | Report::Knot { .. } | Report::Faulty { .. } => {
            print_first_line(alloc, report)
        }
    }
}

/// Returns no page, because the session with this report is clean.
fn no_pages(alloc: Global, _session: &Session, _cert: &Cert) -> Vec<FaultyPage>
    requires { IsCleanWith _session.now _cert.now }
    ensures { AreFaultyPages _session.now result.items }
{
    clean_sessions_have_no_faulty_page();
    Vec::new(alloc)
}

/// Returns the pages that a report lists.
fn pages_of(
    alloc: Global,
    session: &Session,
    report: &Report,
) -> Result<Vec<FaultyPage>, AllocError>
    requires { IsReport session.now report.now }
    ensures { IfOk result (λ pages. AreListed session.now report.now pages.items) }
{
    match report {
        Report::Clean(cert) => Ok(no_pages(alloc, session, cert)),
        Report::Faulty { .. } => faulty_pages(&OneThread, alloc, session),
        Report::Shape(_) => faulty_apart(alloc, session),
        Report::Knot { .. } => Ok(Vec::new(alloc)),
    }
}

/// Returns the report on a session in this form.
fn told_in(
    alloc: Global,
    session: &Session,
    report: &Report,
    form: AnswerForm,
) -> Result<Vec<u8>, AllocError>
    requires report { IsReport session.now report.now }
    requires fits { ReportFits report.now }
    ensures { IfOk result (λ text. Tells form (Reported session.now report.now) text.items) }
{
    if form.lists_pages() {
        let pages = pages_of(alloc, session, report)?;
        print_told(alloc, session, report, &pages, form)
    } else {
        print_told(alloc, session, report, &[], form)
    }
}

/// Returns the text for a session with its report.
fn text_of_report(
    alloc: Global,
    session: &Session,
    report: &Report,
    shown_as: ShownAs,
) -> Result<Vec<u8>, AllocError>
    requires report { IsReport session.now report.now }
    requires fits { ReportFits report.now }
    ensures { IfOk result (λ text. IsShownReport shown_as session.now report.now text.items) }
{
    match shown_as {
        ShownAs::Told(form) => told_in(alloc, session, report, form),
        ShownAs::Picture(topic) => print_picture_on(alloc, session, report, topic),
        ShownAs::Lack(extent) => lack_by_report(alloc, session, extent, report),
    }
}

/// Returns the text for a session's text that is refused at this line.
fn text_of_refusal(alloc: Global, line: u32, shown_as: ShownAs) -> Result<Vec<u8>, AllocError>
    ensures { IfOk result (λ text. IsShownRefusal shown_as line text.items) }
{
    match shown_as {
        ShownAs::Told(form) => print_refusal(alloc, line, form),
        ShownAs::Picture(_) | ShownAs::Lack(_) => print_refused_session(alloc, line),
    }
}

/// Returns the text for what was judged about a session's text.
fn text_of(alloc: Global, judged: JudgedText<'_>, shown_as: ShownAs) -> Result<Vec<u8>, AllocError>
    requires { IsRightJudged judged }
    ensures { IfOk result (λ text. IsShownJudged shown_as judged.entry text.items) }
{
    match judged {
        JudgedText::Refused(line) => text_of_refusal(alloc, line, shown_as),
        JudgedText::Reported(session, report) => text_of_report(alloc, session, report, shown_as),
    }
}

/// Returns the texts for what was judged about a session's text, one for each thing that is asked.
fn texts_for(alloc: Global, judged: JudgedText<'_>, asked: &[ShownAs]) -> Result<Texts, AllocError>
    requires { IsRightJudged judged }
    ensures shown { IfOk result (λ held. AllZip (λ shown_as text. IsShownJudged shown_as judged.entry text) asked.now (texts_of held)) }
    ensures measured { IfOk result AreMeasured }
{
    let mut texts = Texts::new(alloc);
    for shown_as in asked {
        let text = text_of(alloc, judged, *shown_as)?;
        texts.push(text)?;
    }
    Ok(texts)
}

/// Returns what is shown about a session. Only the calling thread judges it.
fn show_session(alloc: Global, session: &Session, asked: &[ShownAs]) -> Result<Showing, AllocError>
    ensures shown { IfOk result (IsShowingOf asked.now session.now) }
    ensures safe { IfOk result (λ showing. FindsClean showing.audited → IsSafe session.now) }
    ensures exactly { IfOk result (λ showing. IsSafeExactlyIf (FindsClean showing.audited) session.now) }
    ensures faulty { IfOk result (λ showing. FindsFault showing.audited → IsUnsafe session.now) }
{
    let report = audit_by(&OneThread, alloc, session)?;
    let texts = texts_for(alloc, JudgedText::Reported(session, &report), asked)?;
    Ok(Showing {
        audited: TextAudit::Reported(report),
        texts,
    })
}

/// Returns what is shown about the session that a text spells.
fn show_text(alloc: Global, session: &[u8], asked: &[ShownAs]) -> Result<Showing, AllocError>
    ensures showing { IfOk result (IsShowing asked.now session.now) }
    ensures one_session { IfOk result (λ showing. HasReport showing.audited → SpellsOneSession session.now) }
    ensures safe { IfOk result (λ showing. FindsClean showing.audited → OfSpelled session.now IsSafe) }
    ensures exactly { IfOk result (λ showing. OfSpelled session.now (IsSafeExactlyIf (FindsClean showing.audited))) }
    ensures faulty { IfOk result (λ showing. FindsFault showing.audited → OfSpelled session.now IsUnsafe) }
{
    session_texts_are_unambiguous();
    match read_session(alloc, session) {
        Ok(recorded) => show_session(alloc, &recorded, asked),
        Err(fault) => {
            let line = fault.refused_line()?;
            let texts = texts_for(alloc, JudgedText::Refused(line), asked)?;
            Ok(Showing {
                audited: TextAudit::Refused(line),
                texts,
            })
        }
    }
}

/// Writes the texts to the room, and their ends, if they fit. Returns the audit in numbers, with the length of all
/// texts.
fn put_shown(showing: &Showing, ends: &mut [usize], room: &mut [u8]) -> PostcopyAnswer
    requires { AreMeasured showing.now.texts }
    ensures numbers { result ≡ audited_numbers showing.now.audited (length (concat (texts_of showing.now.texts))) }
    ensures put { IsPut (concat (texts_of showing.now.texts)) room.old room.new }
    ensures ends { IsPut (ends_from 0 (texts_of showing.now.texts)) ends.old ends.new }
{
    showing.texts.put(room);
    put(&showing.texts.ends, ends);
    audited_answer(&showing.audited, showing.texts.whole)
}

/// Shows everything that is asked about the session that a text spells, which is read once and judged once.
pub(crate) fn tell_all(
    alloc: Global,
    session: &[u8],
    asked: &[ShownAs],
    ends: &mut [usize],
    room: &mut [u8],
) -> PostcopyAnswer
    ensures told { IsToldAll asked.now session.now ends.old ends.new room.old room.new result }
    ensures one_session { result.kind ≢ SESSION_TEXT → result.kind ≢ NO_MEMORY → SpellsOneSession session.now }
    ensures safe { result.kind ≡ CLEAN → OfSpelled session.now IsSafe }
    ensures exactly { result.kind ≢ NO_MEMORY → OfSpelled session.now (IsSafeExactlyIf (result.kind ≡ CLEAN)) }
    ensures faulty { result.kind ≡ FAULTY → OfSpelled session.now IsUnsafe }
{
    match show_text(alloc, session, asked) {
        Ok(showing) => put_shown(&showing, ends, room),
        Err(_) => out_of_memory(),
    }
}

/// Shows the session that a text spells.
pub(crate) fn tell_shown(
    alloc: Global,
    session: &[u8],
    shown_as: ShownAs,
    room: &mut [u8],
) -> PostcopyAnswer
    ensures told { IsShownAnswer shown_as session.now room.old room.new result }
    ensures one_session { result.kind ≢ SESSION_TEXT → result.kind ≢ NO_MEMORY → SpellsOneSession session.now }
    ensures safe { result.kind ≡ CLEAN → OfSpelled session.now IsSafe }
    ensures exactly { result.kind ≢ NO_MEMORY → OfSpelled session.now (IsSafeExactlyIf (result.kind ≡ CLEAN)) }
    ensures faulty { result.kind ≡ FAULTY → OfSpelled session.now IsUnsafe }
{
    tell_all(alloc, session, &[shown_as], &mut [], room)
}
