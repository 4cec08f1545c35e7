//! Lines of runs.

ghost use Rattle.std.specs.Prelude.{◌≡◌, ◌≢◌, ℕ, List, [], ◌∷◌, ◌++◌, ◌↔◌, IsTrue, IfSome, IsSomeAnd, OnOk, slice_index};
ghost use Rattle.migration_types.specs.declared.records.LogName.{LogName as Log};
ghost use Rattle.migration_types.specs.Certs.{RunFits};
ghost use Rattle.migration_types.specs.declared.cert.Run.{Run as Told};
ghost use Rattle.text_lines.specs.Text.{ended};
ghost use Rattle.cert_text.specs.Runs.{log_word, run_line, runs_lines};
ghost use Rattle.cert_text.specs.inner.Held.{MayFollow};

use migration_types::{LogName, Run, Size, Version, most_runs};
use std::alloc::AllocError;
use std::thread::Threads;
use text_lines::{
    CLOSING, FaultKind, ItemCrew, LineForm, Team, Wanted, after_end, after_key, end_line,
    front_number, push_counted, push_line, push_number, take_parts,
};

/// The beginning of the line with the number of runs.
pub const RUNS_KEY: &[u8] = b"runs ";

/// The beginning of the line of a run.
const RUN_KEY: &[u8] = b"run ";

/// Returns the log whose word begins with these letters.
#[inline(always)]
fn log_with_letters(first: u8, second: u8) -> LogName
    ensures { (log : Log) → first ≡ slice_index (log_word log) 0 → second ≡ slice_index (log_word log) 1 → result ≡ log }
{
    match first {
        b'g' => LogName::Guest,
        b's' => LogName::Source,
        b'l' if second == b'i' => LogName::Link,
        b'l' => LogName::Lane,
        _ => LogName::Pager,
    }
}

/// Returns the log whose word is at the front, and what follows the space after it.
#[inline(always)]
fn log_then(text: &[u8]) -> Option<(LogName, &[u8])>
    ensures found { IfSome result (λ found. text.now ≡ log_word found.0 ++ 32 ∷ found.1.now) }
    ensures whole { (log : Log) (rest : List ℕ) → text.now ≡ log_word log ++ 32 ∷ rest → IsSomeAnd result (λ found. found.1.now ≡ rest) }
{
    let first = *text.first()?;
    let second = *text.get(1)?;
    let log = log_with_letters(first, second);
    let behind = after_key(text, log.word().as_bytes())?;
    let rest = after_key(behind, b" ")?;
    Some((log, rest))
}

/// Returns the run of a version and a size at the front, and what follows. Nothing follows if the text is that line
/// alone.
#[inline(always)]
fn run_then(text: &[u8], version: Version, size: Size) -> Option<(Run, &[u8])>
    ensures found { IfSome result (λ found. RunFits version size found.0 × (text.now ≡ run_line found.0 ++ found.1.now)) }
    ensures whole { (run : Told) → RunFits version size run → text.now ≡ run_line run → IsSomeAnd result (λ found. found.1.now ≡ []) }
{
    let (log, text) = log_then(after_key(text, RUN_KEY)?)?;
    if !log.is_in(version) {
        return None;
    }
    let (count, rest) = front_number(text)?;
    if count == 0 || count > u64::from(size.limits().records) {
        return None;
    }
    let count = count as u32;
    Some((Run { log, count }, rest))
}

/// The forms of a run of each log.
const GUEST: &str = "run guest N";

const SOURCE: &str = "run source N";

const LINK: &str = "run link N";

const LANE: &str = "run lane N";

const PAGER: &str = "run pager N";

/// Returns the forms of the runs of the first version after a run of this log.
fn first_forms(last: Option<LogName>) -> &'static [&'static str] {
    match last {
        None | Some(LogName::Lane) => &[GUEST, SOURCE, LINK, PAGER],
        Some(LogName::Guest) => &[SOURCE, LINK, PAGER],
        Some(LogName::Source) => &[GUEST, LINK, PAGER],
        Some(LogName::Link) => &[GUEST, SOURCE, PAGER],
        Some(LogName::Pager) => &[GUEST, SOURCE, LINK],
    }
}

/// Returns the forms of the runs of the second version after a run of this log.
fn second_forms(last: Option<LogName>) -> &'static [&'static str] {
    match last {
        None => &[GUEST, SOURCE, LINK, LANE, PAGER],
        Some(LogName::Guest) => &[SOURCE, LINK, LANE, PAGER],
        Some(LogName::Source) => &[GUEST, LINK, LANE, PAGER],
        Some(LogName::Link) => &[GUEST, SOURCE, LANE, PAGER],
        Some(LogName::Lane) => &[GUEST, SOURCE, LINK, PAGER],
        Some(LogName::Pager) => &[GUEST, SOURCE, LINK, LANE],
    }
}

/// Returns what is allowed after these runs of a version and a size, if one more run may follow.
pub fn wanted_run(version: Version, size: Size, before: &[Run]) -> Wanted {
    let last = match before.last() {
        Some(run) => Some(run.log),
        None => None,
    };
    let forms = match version {
        Version::One => first_forms(last),
        Version::Two => second_forms(last),
    };
    Wanted::one("a run", forms)
        .within(1, size.limits().records)
        .under("two runs in a row take from different logs")
}

/// Returns what is allowed at the number of runs of a version and a size.
pub fn wanted_run_count(version: Version, size: Size) -> Wanted {
    Wanted::one("the number of runs", &["runs N"]).within(0, most_runs(version, size))
}

/// Returns whether a run of this log may follow these: the last of them must be of another log.
#[inline(always)]
fn may_follow(runs: &[Run], log: LogName) -> bool
    ensures { IsTrue result ↔ MayFollow runs.now log }
{
    match runs.last() {
        Some(last) => last.log != log,
        None => true,
    }
}

/// The lines of runs that a version and a size allow, with no two neighbours of one log.
#[derive(Clone, Copy)]
pub struct RunForm {
    pub version: Version,
    pub size: Size,
}

impl LineForm for RunForm {
    type Item = Run;

    ghost spell = { run_line };

    ghost IsForm = { λ _. Unit {0} };

    ghost Fits = { λ form run. RunFits form.version form.size run };

    ghost MayFollow = { λ runs run. MayFollow runs run.log };

    ghost use Rattle.cert_text.specs.inner.Held.{runs_by_last};

    ghost by_last = { runs_by_last };

    fn read(&self, before: &[Run], line: &[u8]) -> Result<Run, FaultKind> {
        let Some((run, rest)) = run_then(line, self.version, self.size) else {
            return Err(FaultKind::Form);
        };
        if !rest.is_empty() || !may_follow(before, run.log) {
            return Err(FaultKind::Form);
        }
        Ok(run)
    }

    #[inline(always)]
    fn front<'a>(&self, before: &[Run], text: &'a [u8]) -> Option<(Run, &'a [u8])> {
        let (run, rest) = run_then(text, self.version, self.size)?;
        if !may_follow(before, run.log) {
            return None;
        }
        Some((run, after_end(rest)?))
    }

    fn may_follow(&self, before: &[Run], run: &Run) -> bool {
        may_follow(before, run.log)
    }

    #[inline(always)]
    fn push(run: &Run, out: &mut Vec<u8>) -> Result<(), AllocError> {
        out.extend_from_slice(RUN_KEY)?;
        out.extend_from_slice(run.log.word().as_bytes())?;
        out.push(b' ')?;
        push_number(out, run.count)?;
        end_line(out)
    }
}

impl<'a, H: Threads + Sync> ItemCrew<RunForm> for Team<'a, H> {
    fn take<'b>(
        &self,
        form: &RunForm,
        items: &mut Vec<Run>,
        most: u32,
        bytes: &'b [u8],
    ) -> (&'b [u8], u32) {
        take_parts(self.rt, form, self.parts, items, most, bytes)
    }
}

/// Appends the lines of runs: their number, a line for each, and the closing line. Fails only if memory runs out.
pub fn push_runs(out: &mut Vec<u8>, runs: &[Run]) -> Result<(), AllocError>
    ensures { OnOk result (out.new.items ≡ out.old.items ++ ended (runs_lines runs.now)) }
{
    push_counted::<RunForm>(out, RUNS_KEY, runs)?;
    push_line(out, CLOSING)
}
