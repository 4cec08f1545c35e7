//! Reading a certificate, line by line.

ghost use Rattle.std.specs.Prelude.{◌≡◌, ◌≢◌, ℕ, [], MatchOption, IfSome, IfNone};
ghost use Rattle.migration_types.specs.declared.version.Version.{Version as Told};
ghost use Rattle.migration_types.specs.declared.size.Size.{Size as Limited};
ghost use Rattle.migration_types.specs.Limits.{HasSize};
ghost use Rattle.migration_types.specs.Certs.{Certified};
ghost use Rattle.text_lines.specs.Text.{TakesLines};
ghost use Rattle.cert_text.specs.Grammar.{header, SpellsCert};
ghost use Rattle.cert_text.specs.inner.CertDraft.{held_at, LiveAt};

use crate::entry_lines::{drop_entry, take_entries, take_entry, wanted_entry};
use crate::run_lines::RunLines;
use crate::runs::RunForm;
use migration_types::{Cert, Entry, Run, Seq, Size, Version};
use std::alloc::Global;
use std::thread::Threads;
use text_lines::{
    Alone, FaultKind, ItemCrew, Stages, StagesApart, StagesBack, Team, Wanted, is_line, read_some,
};

/// The beginning of the line with the number of pages.
pub const PAGES_KEY: &[u8] = b"pages ";

/// The kind of line that comes next.
#[derive(Clone, Copy)]
pub enum CertStage {
    /// The header.
    Header,
    /// The number of pages.
    Pages,
    /// A page's entry, or after the last a line of the runs.
    Entries,
}

/// What was read of a certificate.
#[derive(Drop)]
pub struct CertParts {
    pages: u32,
    entries: Vec<Entry>,
    runs: RunLines,
}

impl CertParts {
    /// Takes as many of the first lines as are in plain form, and returns what follows them and how many they were.
    fn lines_by<'a, C: ItemCrew<RunForm>>(
        &mut self,
        crew: &C,
        stage: CertStage,
        bytes: &'a [u8],
    ) -> (&'a [u8], u32)
        requires ready { C.IsReady crew.now }
        requires live { LiveAt stage self.old }
        ensures live { LiveAt stage self.new }
        ensures taken { TakesLines (held_at stage self.old) (held_at stage self.new) bytes.now result.0.now result.1 }
    {
        match stage {
            CertStage::Entries => {
                if self.entries.len() == self.pages as usize {
                    return self.runs.lines(crew, bytes);
                }
                let version = self.runs.version();
                let size = self.runs.size();
                take_entries(&mut self.entries, version, size, self.pages, bytes)
            }
            _ => (bytes, 0),
        }
    }

    /// Returns the version, the size, the entries and the runs, if the lines so far are a complete certificate.
    pub fn whole(self, stage: CertStage) -> Option<(Version, Size, Vec<Entry>, Seq<Run>)>
        requires { LiveAt stage self }
        ensures found { IfSome result (λ parts. SpellsCert (record { version = parts.0; size = parts.1; entries = parts.2.items; runs = parts.3 }) (held_at stage self)) }
        ensures none { IfNone result ((c : Certified) → SpellsCert c (held_at stage self) → ⊥) }
    {
        match stage {
            CertStage::Entries => {
                let version = self.runs.version();
                let size = self.runs.size();
                match self.runs.text() {
                    Some(runs) => Some((version, size, self.entries, runs)),
                    None => None,
                }
            }
            _ => None,
        }
    }

    /// Expects the next page's entry, or after the last a line of the runs, which are counted from line 2.
    fn wanted_in_entries(&self) -> Wanted
        requires { LiveAt CertStage.Entries self.now }
    {
        let came = self.entries.len() as u32;
        if came < self.pages {
            return wanted_entry(self.runs.version(), came).counted(came, self.pages, 2);
        }
        let wanted = self.runs.wanted(self.pages.saturating_add(3));
        if self.runs.count() == 0 {
            return wanted.counted(came, self.pages, 2);
        }
        wanted
    }
}

/// Returns the words for the certificates that have more pages than those of a size.
fn more_pages(size: Size) -> &'static str {
    match size {
        Size::Small => "postcopy-certificate 3 has up to 16777216",
        Size::Large => "",
    }
}

/// The forms of the header.
const HEADER_FORMS: &[&str] = &[
    "postcopy-certificate 1",
    "postcopy-certificate 2",
    "postcopy-certificate 3",
];

impl Stages for CertParts {
    type Stage = CertStage;

    ghost use Rattle.cert_text.specs.inner.CertDraft.{held_at, LiveAt};

    ghost held = { held_at };

    ghost Live = { LiveAt };

    fn begin(alloc: Global) -> (CertStage, Self) {
        let parts = CertParts {
            pages: 0,
            entries: Vec::new(alloc),
            runs: RunLines::new(alloc, Version::One, Size::Small),
        };
        (CertStage::Header, parts)
    }

    fn take(&mut self, stage: CertStage, line: &[u8]) -> Result<CertStage, FaultKind> {
        match stage {
            CertStage::Header => {
                let Some((version, size)) = version_of(line) else {
                    return Err(FaultKind::Form);
                };
                self.runs.set_version(version, size);
                Ok(CertStage::Pages)
            }
            CertStage::Pages => {
                self.pages = read_some(line, PAGES_KEY, self.runs.size().limits().pages)?;
                Ok(CertStage::Entries)
            }
            CertStage::Entries => {
                if self.entries.len() == self.pages as usize {
                    self.runs.line(line)?;
                } else {
                    let version = self.runs.version();
                    take_entry(&mut self.entries, version, self.runs.size(), line)?;
                }
                Ok(CertStage::Entries)
            }
        }
    }

    fn lines<'a>(&mut self, stage: CertStage, bytes: &'a [u8]) -> (&'a [u8], u32) {
        self.lines_by(&Alone, stage, bytes)
    }

    fn goes_on(&self, _stage: CertStage) {
        self.runs.goes_on();
        self.runs.few();
    }

    fn wanted(&self, stage: CertStage) -> Wanted {
        let limits = self.runs.size().limits();
        let wanted = match stage {
            CertStage::Header => Wanted::one("the header of a certificate", HEADER_FORMS),
            CertStage::Pages => Wanted::one("the number of pages", &["pages N"])
                .within(1, limits.pages)
                .under(more_pages(self.runs.size())),
            CertStage::Entries => self.wanted_in_entries(),
        };
        wanted.of_machine(self.pages, 0).of_logs(limits.records)
    }

    fn text(self, stage: CertStage) -> Option<Cert> {
        match self.whole(stage) {
            Some((version, size, entries, runs)) => {
                Some(Cert::new(version, size, Seq::from_vec(entries), runs))
            }
            None => None,
        }
    }

    type Text = Cert;

    ghost spells = { SpellsCert };

    ghost use Rattle.cert_text.specs.inner.Plain.{plain_cert};

    ghost plain = { plain_cert };
}

impl StagesBack for CertParts {
    fn count(&self, stage: CertStage) -> u32 {
        self.runs.few();
        match stage {
            CertStage::Header => 0,
            CertStage::Pages => 1,
            CertStage::Entries => self.entries.len() as u32 + self.runs.count() + 2,
        }
    }

    fn undo(&mut self, stage: CertStage) -> CertStage {
        match stage {
            CertStage::Entries => {
                if self.runs.count() > 0 {
                    self.runs.undo();
                } else if !drop_entry(&mut self.entries) {
                    return CertStage::Pages;
                }
                CertStage::Entries
            }
            _ => CertStage::Header,
        }
    }
}

impl StagesApart for CertParts {
    fn lines_apart<'a, H: Threads + Sync>(
        &mut self,
        rt: &H,
        parts: usize,
        stage: CertStage,
        bytes: &'a [u8],
    ) -> (&'a [u8], u32) {
        self.lines_by(&Team { rt, parts }, stage, bytes)
    }
}

/// Returns the first line of a certificate of this version and size. It is empty if the version does not have this
/// size.
pub fn cert_header(version: Version, size: Size) -> &'static [u8]
    ensures { result.now ≡ header version size }
{
    match (version, size) {
        (Version::One, Size::Small) => b"postcopy-certificate 1",
        (Version::Two, Size::Small) => b"postcopy-certificate 2",
        (Version::One, Size::Large) => b"",
        (Version::Two, Size::Large) => b"postcopy-certificate 3",
    }
}

/// Returns the version and the size whose certificates have this first line.
#[tactic(auto, using(crate::proofs::Laws::no_header))]
fn version_of(line: &[u8]) -> Option<(Version, Size)>
    ensures { MatchOption result ((version : Told) (size : Limited) → HasSize version size → line.now ≢ header version size) (λ told. HasSize told.0 told.1 × (line.now ≡ header told.0 told.1)) }
{
    if is_line(line, cert_header(Version::One, Size::Small)) {
        return Some((Version::One, Size::Small));
    }
    if is_line(line, cert_header(Version::Two, Size::Small)) {
        return Some((Version::Two, Size::Small));
    }
    if is_line(line, cert_header(Version::Two, Size::Large)) {
        return Some((Version::Two, Size::Large));
    }
    None
}
