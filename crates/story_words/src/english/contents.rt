//! Values in words.

use super::Teller;
use audit_report::Lines;
use migration_types::LogName;
use session_story::{CellValue, Name};
use std::alloc::AllocError;

/// Appends a value as a record of the guest has it, and as contents have it.
fn push_value(out: &mut String, value: u64) -> Result<(), AllocError> {
    write!(out, "{value}, {value:016x},")
}

impl<L: Lines> Teller<'_, L> {
    /// Appends since when a cell has had its value.
    fn push_since(&self, out: &mut String, by: Option<u32>) -> Result<(), AllocError> {
        self.push_with_record_or(out, "since ", "as at the start.", LogName::Guest, by)
    }

    /// Appends what one machine that never moved has instead of what a read gives.
    pub(crate) fn push_one_machine(
        &self,
        out: &mut String,
        held: CellValue,
    ) -> Result<(), AllocError> {
        let value = held.value;
        match held.by {
            Some(_) => write!(out, "One machine that never moved has {value} there, ")?,
            None => write!(
                out,
                "One machine that never moved has {value}, {value:016x}, there, "
            )?,
        }
        self.push_since(out, held.by)
    }

    /// Appends what a record has in a cell, and what its page has there at the halt.
    pub(crate) fn push_contents(
        &self,
        out: &mut String,
        name: Name,
        value: u64,
        at_halt: CellValue,
    ) -> Result<(), AllocError> {
        let cell = at_halt.cell;
        match name.0 {
            LogName::Source => out.push_str("The page is sent with ")?,
            _ => out.push_str("The page is placed with ")?,
        }
        push_value(out, value)?;
        write!(out, " in cell {cell}, where it has ")?;
        push_value(out, at_halt.value)?;
        out.push_str(" at the halt, ")?;
        self.push_since(out, at_halt.by)
    }

    /// Appends the value with which a page was sent.
    pub(crate) fn push_sent_with(
        &self,
        out: &mut String,
        got: u32,
        value: u64,
        sending: u32,
    ) -> Result<(), AllocError> {
        write!(out, "What came with pager {got} was sent with ")?;
        push_value(out, value)?;
        self.push_with_record(out, " there: ", (LogName::Source, sending))
    }
}
