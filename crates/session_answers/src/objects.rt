//! The object of each result.

ghost use Rattle.std.specs.Prelude.{◌≡◌, ◌++◌, codes, OnOk};
ghost use Rattle.completeness.specs.Complete.{IsFirstMissing};
ghost use Rattle.session_answers.specs.JsonText.{all_faults_object, at_line, begun, fault_told, missing_object, missing_told, number, pages_told, record_at, report_begun, report_object, shape_object, shape_told, some_pages_told, table_object, verdict_object, word};
ghost use Rattle.session_answers.specs.TopicsText.{IsStory, told_object};

use crate::causes::push_cause;
use crate::fields::{
    begin, end, push_bare, push_number_under, push_page, push_record, push_word_under,
};
use crate::kinds::push_faults;
use crate::lists::{push_list_under, push_runs};
use crate::records::records_of;
use crate::topics::{push_apart, push_topic};
use audit_report::{Lines, OwnLines, Report, line_of_taken};
use cert_check::{ShapeFault, Verdict};
use completeness::Lack;
use migration_types::{LogName, PageNo, Run, Session};
use page_facts::{FaultyPage, PageFault};
use session_story::{TopicStory, cause_of, page_at};
use std::alloc::{AllocError, Global};

/// Appends the object of a verdict at a line of a text.
fn push_at_line(out: &mut Vec<u8>, verdict: &[u8], line: u64) -> Result<(), AllocError>
    ensures { OnOk result (out.new.items ≡ out.old.items ++ at_line verdict.now line) }
{
    begin(out, verdict)?;
    push_number_under(out, b"line", line)?;
    end(out)
}

/// Appends the object that says that a session's text is refused at this line, with its line number from `lines`. Fails
/// only if memory runs out.
pub fn push_refused<L: Lines>(out: &mut Vec<u8>, lines: &L, line: u32) -> Result<(), AllocError>
    ensures { OnOk result (out.new.items ≡ out.old.items ++ at_line (codes "session-text") (L.tell lines.now line)) }
{
    push_at_line(out, b"session-text", lines.line(line))
}

/// Appends the object that says that the text of a table of lines is refused at this line. Fails only if memory runs
/// out.
pub fn push_refused_table(out: &mut Vec<u8>, line: u32) -> Result<(), AllocError>
    ensures { OnOk result (out.new.items ≡ out.old.items ++ table_object line) }
{
    push_at_line(out, b"lines-text", u64::from(line))
}

/// Begins the object of a fault of shape, with its line number from `lines`.
fn begin_shape<L: Lines>(out: &mut Vec<u8>, lines: &L, fault: &ShapeFault) -> Result<(), AllocError>
    ensures { OnOk result (out.new.items ≡ out.old.items ++ (begun (codes "shape") ++ shape_told (L.tell lines.now) fault.now)) }
{
    begin(out, b"shape")?;
    push_record(out, lines.line(fault.line), fault.log, fault.place)?;
    push_word_under(out, b"reason", fault.reason.word())
}

/// Appends the object of a fault of shape.
fn push_shape(out: &mut Vec<u8>, fault: &ShapeFault) -> Result<(), AllocError>
    ensures { OnOk result (out.new.items ≡ out.old.items ++ shape_object fault.now) }
{
    begin_shape(out, &OwnLines, fault)?;
    end(out)
}

/// Appends the fields of a record's fault, with the runs of an order in which it shows.
#[tactic(auto, unfolding(crate::specs::JsonText::fault_told))]
fn push_fault(
    out: &mut Vec<u8>,
    session: &Session,
    line: u64,
    fault: &PageFault,
    order: &[Run],
) -> Result<(), AllocError>
    ensures { OnOk result (out.new.items ≡ out.old.items ++ fault_told session.now line fault.now order.now) }
{
    push_record(out, line, fault.log, fault.place)?;
    push_word_under(out, b"reason", fault.reason.word())?;
    push_page(out, page_at(session, fault.log, fault.place))?;
    push_runs(out, order)
}

/// Begins the object of the report on a session, with its line numbers from `lines`.
#[tactic(auto, unfolding(crate::specs::JsonText::report_begun))]
fn begin_report<L: Lines>(
    out: &mut Vec<u8>,
    lines: &L,
    session: &Session,
    report: &Report,
) -> Result<(), AllocError>
    ensures { OnOk result (out.new.items ≡ out.old.items ++ report_begun (L.tell lines.now) session.now report.now) }
{
    match report {
        Report::Clean(cert) => {
            begin(out, b"clean")?;
            push_runs(out, cert.runs())
        }
        Report::Shape(fault) => begin_shape(out, lines, fault),
        Report::Knot { left, found } => {
            begin(out, b"knot")?;
            push_record(out, lines.line(left.line), left.log, left.place)?;
            push_runs(out, found.runs.as_slice())
        }
        Report::Faulty {
            line,
            fault,
            order,
            ..
        } => {
            begin(out, b"faulty")?;
            push_fault(out, session, lines.line(*line), fault, order.as_slice())
        }
    }
}

/// Appends the object of the report on a session. Fails only if memory runs out.
pub fn push_report(out: &mut Vec<u8>, session: &Session, report: &Report) -> Result<(), AllocError>
    ensures { OnOk result (out.new.items ≡ out.old.items ++ report_object session.now report.now) }
{
    begin_report(out, &OwnLines, session, report)?;
    end(out)
}

/// Appends the pages with a fault, or nothing if there is no such page.
fn push_some_pages(out: &mut Vec<u8>, pages: &[FaultyPage]) -> Result<(), AllocError>
    ensures { OnOk result (out.new.items ≡ out.old.items ++ some_pages_told pages.now) }
{
    match pages {
        [] => Ok(()),
        _ => push_list_under(out, b"pages", pages),
    }
}

/// Appends the pages with a fault that a report lists.
fn push_pages(out: &mut Vec<u8>, report: &Report, pages: &[FaultyPage]) -> Result<(), AllocError>
    ensures { OnOk result (out.new.items ≡ out.old.items ++ pages_told report.now pages.now) }
{
    match report {
        Report::Clean(_) | Report::Faulty { .. } => push_list_under(out, b"pages", pages),
        Report::Shape(_) => push_some_pages(out, pages),
        Report::Knot { .. } => Ok(()),
    }
}

/// Appends the object of the report on a session that lists each page with a fault: that of the report, with these
/// pages if it is clean or faulty, or if it is of the shape and there are any. No page is listed for a session that has
/// no merging. Fails only if memory runs out.
pub fn push_all_faults(
    out: &mut Vec<u8>,
    session: &Session,
    report: &Report,
    pages: &[FaultyPage],
) -> Result<(), AllocError>
    ensures { OnOk result (out.new.items ≡ out.old.items ++ all_faults_object session.now report.now pages.now) }
{
    begin_report(out, &OwnLines, session, report)?;
    push_pages(out, report, pages)?;
    end(out)
}

/// Appends the object of the report on a session with the story on a topic: the topic, unless it is the report, for a
/// report of the shape the first fault that misshapen records do not touch, if there is one, the cause of the fault of a
/// page that the story tells, all faults by kind of the page that it is about, and the records of the story, each with
/// its role. Line numbers are from `lines`. Of the report, these are the records that led to what it names, and for a
/// clean session none. Of a page, they are the record of its first fault, if it has one, and those of
/// the page's story. Of a line, they are its record and those of the page that this is about. Fails only if memory runs
/// out.
pub fn push_told<L: Lines>(
    alloc: Global,
    out: &mut Vec<u8>,
    lines: &L,
    session: &Session,
    report: &Report,
    told: &TopicStory,
) -> Result<(), AllocError>
    requires { IsStory session.now report.now told.now }
    ensures { OnOk result (out.new.items ≡ out.old.items ++ told_object (L.tell lines.now) session.now report.now told.now) }
{
    begin_report(out, lines, session, report)?;
    push_topic(out, lines, session, told)?;
    push_apart(out, lines, session, &told.apart())?;
    push_cause(out, lines, session, cause_of(told))?;
    push_faults(alloc, out, lines, session, &told.page())?;
    let records = records_of(alloc, session, lines, told)?;
    push_list_under(out, b"records", &records)?;
    end(out)
}

/// Appends the object of a verdict on a certificate. Fails only if memory runs out.
pub fn push_verdict(out: &mut Vec<u8>, verdict: Verdict) -> Result<(), AllocError>
    ensures { OnOk result (out.new.items ≡ out.old.items ++ verdict_object verdict) }
{
    match verdict {
        Verdict::SessionText(line) => push_at_line(out, b"session-text", u64::from(line)),
        Verdict::CertText(line) => push_at_line(out, b"certificate-text", u64::from(line)),
        Verdict::Shape(fault) => push_shape(out, &fault),
        Verdict::Pages => push_bare(out, b"pages"),
        Verdict::Runs(line) => push_at_line(out, b"runs", u64::from(line)),
        Verdict::Page(line) => push_at_line(out, b"page", u64::from(line)),
        Verdict::Yes => push_bare(out, b"yes"),
    }
}

/// Appends that a page is missing.
fn push_missing_page(out: &mut Vec<u8>, page: PageNo) -> Result<(), AllocError>
    ensures { OnOk result (out.new.items ≡ out.old.items ++ (word (codes "missing") (codes "page") ++ number (codes "page") page)) }
{
    push_word_under(out, b"missing", b"page")?;
    push_number_under(out, b"page", u64::from(page.number()))
}

/// Appends that the placement of the packet that this record of the pager took is missing.
fn push_missing_placement(out: &mut Vec<u8>, line: u64, n: u32) -> Result<(), AllocError>
    ensures { OnOk result (out.new.items ≡ out.old.items ++ (word (codes "missing") (codes "placement") ++ record_at line LogName.Pager n)) }
{
    push_word_under(out, b"missing", b"placement")?;
    push_record(out, line, LogName::Pager, n)
}

/// Appends the fields of what is missing from a session.
#[tactic(auto, unfolding(crate::specs::JsonText::missing_told))]
fn push_lack<L: Lines>(
    out: &mut Vec<u8>,
    lines: &L,
    session: &Session,
    missing: Lack,
) -> Result<(), AllocError>
    requires { IsFirstMissing session.now missing }
    ensures { OnOk result (out.new.items ≡ out.old.items ++ missing_told (L.tell lines.now) session.now missing) }
{
    match missing {
        Lack::Halt => push_word_under(out, b"missing", b"halt"),
        Lack::Returned => push_word_under(out, b"missing", b"returned"),
        Lack::Resume => push_word_under(out, b"missing", b"resume"),
        Lack::Page(page) => push_missing_page(out, page),
        Lack::All => push_word_under(out, b"missing", b"all"),
        Lack::Done => push_word_under(out, b"missing", b"done"),
        Lack::Taken(n) => {
            let line = line_of_taken(session, n);
            push_missing_placement(out, lines.line(line), n)
        }
    }
}

/// Appends the object that says that this is missing from a session, with its line number from `lines`. Fails only if
/// memory runs out.
pub fn push_missing<L: Lines>(
    out: &mut Vec<u8>,
    lines: &L,
    session: &Session,
    missing: Lack,
) -> Result<(), AllocError>
    requires { IsFirstMissing session.now missing }
    ensures { OnOk result (out.new.items ≡ out.old.items ++ missing_object (L.tell lines.now) session.now missing) }
{
    begin(out, b"incomplete")?;
    push_lack(out, lines, session, missing)?;
    end(out)
}
