//! The line of a record, made from what the record consists of.

ghost use Rattle.std.specs.Prelude.{◌≡◌, ◌++◌, None, OnOk};
ghost use Rattle.migration_types.specs.declared.records.GuestRec.{GuestRec};
ghost use Rattle.migration_types.specs.declared.records.SourceRec.{SourceRec};
ghost use Rattle.migration_types.specs.declared.records.LinkRec.{LinkRec};
ghost use Rattle.migration_types.specs.declared.records.LaneRec.{LaneRec};
ghost use Rattle.migration_types.specs.declared.records.PagerRec.{PagerRec};
ghost use Rattle.migration_types.specs.Rows.{guest_row, source_row, link_row, lane_row, pager_row, source_contents, pager_contents};
ghost use Rattle.session_grammar.specs.Records.{guest_line, source_line, link_line, lane_line, pager_line};
ghost use Rattle.session_log.specs.Rows.{fields_text, row_line};

use migration_types::{Field, Row};
use std::alloc::AllocError;
use text_lines::push_number;

/// A law: a record's line is its word, with a space before each of its fields and before its contents.
pub fn lines_follow()
    ensures guest { (r : GuestRec) → guest_line r ≡ row_line (guest_row r) None }
    ensures source { (r : SourceRec) → source_line r ≡ row_line (source_row r) (source_contents r) }
    ensures link { (r : LinkRec) → link_line r ≡ row_line (link_row r) None }
    ensures lane { (r : LaneRec) → lane_line r ≡ row_line (lane_row r) None }
    ensures pager { (r : PagerRec) → pager_line r ≡ row_line (pager_row r) (pager_contents r) }
{}

/// Appends each field after a space.
#[tactic(auto, using(crate::proofs::RowLines::first_text))]
fn push_fields(out: &mut Vec<u8>, fields: &[Field]) -> Result<(), AllocError>
    ensures { OnOk result (out.new.items ≡ out.old.items ++ fields_text fields.now None) }
{
    for field in fields {
        out.push(b' ')?;
        push_number(out, field.number())?;
    }
    Ok(())
}

/// Appends the line of a record, without its contents. Fails only if memory runs out.
pub fn push_row(out: &mut Vec<u8>, row: &Row) -> Result<(), AllocError>
    ensures { OnOk result (out.new.items ≡ out.old.items ++ row_line row.now None) }
{
    out.extend_from_slice(row.word())?;
    push_fields(out, row.fields())
}
