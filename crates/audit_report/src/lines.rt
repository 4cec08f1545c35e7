//! The line numbers that are printed for a session's text.

ghost use Rattle.std.specs.Prelude.{◌≡◌};
ghost use Rattle.audit_report.specs.ToldLines.{line_by};

use migration_types::Seq;

/// The line numbers that are printed for the lines of a session's text.
pub trait Lines {
    ghost use Rattle.std.specs.Prelude.{ℕ};

    /// The line number that is printed for a line.
    ghost tell: { Self → ℕ → ℕ };

    /// Returns the line number that is printed for this line of the session's text. Lines count from 1.
    fn line(&self, line: u32) -> u64
        ensures { result ≡ tell self.now line };
}

/// The line numbers of the session's own text.
#[derive(Clone, Copy)]
pub struct OwnLines;

impl Lines for OwnLines {
    ghost use Rattle.audit_report.specs.ToldLines.{own};

    ghost tell = { λ _. own };

    fn line(&self, line: u32) -> u64 {
        u64::from(line)
    }
}

/// Returns the line that a table has for a line, counted from 1, or the line itself if the table has none.
fn line_by(table: &[u64], line: u32) -> u64
    ensures { result ≡ line_by table.now line }
{
    if line == 0 {
        return 0;
    }
    match table.get((line - 1) as usize) {
        Some(told) => *told,
        None => u64::from(line),
    }
}

/// A table with a line number for each line of a session's text, in order. A line that is not in the table keeps its
/// own number.
impl Lines for Seq<u64> {
    ghost tell = { line_by };

    fn line(&self, line: u32) -> u64 {
        line_by(self.as_slice(), line)
    }
}
