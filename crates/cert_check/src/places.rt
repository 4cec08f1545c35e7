//! The lines of a certificate's text that have its entries and its runs.

ghost use Rattle.std.specs.Prelude.{◌≡◌, ◌+◌, ◌<◌, MatchOption};
ghost use Rattle.cert_check.specs.Verdicts.{entry_line, run_line};

/// The line of an entry is its page's number plus this.
pub(crate) const BEFORE_ENTRIES: u32 = 3;

/// The line of a run is the number of pages plus the run's place plus this.
pub(crate) const BEFORE_RUNS: u32 = 4;

/// Returns the number of the page whose entry is at this line of a certificate's text, or `None` before the entries.
pub fn page_at(line: u32) -> Option<u32>
    ensures { MatchOption result (line < 3) (λ page. line ≡ entry_line page) }
{
    if line < BEFORE_ENTRIES {
        return None;
    }
    Some(line - BEFORE_ENTRIES)
}

/// Returns the place of the run that is at this line of the text of a certificate of this many pages, or `None` before
/// the runs.
pub fn run_at(pages: u32, line: u32) -> Option<u32>
    ensures { MatchOption result (line < pages + 4) (λ place. line ≡ run_line pages place) }
{
    if line < BEFORE_RUNS || line - BEFORE_RUNS < pages {
        return None;
    }
    Some(line - BEFORE_RUNS - pages)
}
