//! The sentences about records that wait for one another, in words.

use super::Teller;
use audit_report::Lines;
use session_story::Waiting;
use std::alloc::AllocError;

pub(crate) const NO_ORDER: &str =
    "No order of the records keeps the order of each log and puts each record after the record of another log that it names: each of these waits for the next, and the last for one of them.";

impl<L: Lines> Teller<'_, L> {
    /// Appends the record that a waiting one must come after. If that is not the next waiting record, but comes after
    /// it, also appends the next.
    pub(crate) fn push_wait(
        &self,
        out: &mut String,
        waiting: &Waiting,
        next: &Waiting,
    ) -> Result<(), AllocError> {
        out.push_str("; it has to come after ")?;
        self.push_place(out, (waiting.sent_log, waiting.sent_place))?;
        if waiting.sent_place == next.place {
            return Ok(());
        }
        out.push_str(", which its log has after ")?;
        self.push_place(out, (next.log, next.place))
    }

    /// Appends a record that waits, and what it waits for.
    pub(crate) fn push_waits(
        &self,
        out: &mut String,
        waiting: &Waiting,
        next: Option<Waiting>,
    ) -> Result<(), AllocError> {
        out.push_str("  ")?;
        self.push_record(out, (waiting.log, waiting.place))?;
        match next {
            Some(next) => self.push_wait(out, waiting, &next),
            None => Ok(()),
        }
    }
}
