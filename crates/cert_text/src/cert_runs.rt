//! Reading only the runs of a certificate, line by line.

ghost use Rattle.cert_text.specs.Grammar.{SpellsCertRuns};

use crate::cert_lines::{CertParts, CertStage};
use migration_types::{Run, Seq};
use std::alloc::Global;
use std::thread::Threads;
use text_lines::{FaultKind, Stages, StagesApart, StagesBack, Wanted};

/// What was read of a certificate whose runs alone are wanted.
#[derive(Drop)]
pub struct CertRunsParts {
    cert: CertParts,
}

impl Stages for CertRunsParts {
    type Stage = CertStage;

    type Text = Seq<Run>;

    ghost spells = { SpellsCertRuns };

    ghost use Rattle.cert_text.specs.inner.CertDraft.{held_at, LiveAt};

    ghost held = { λ stage parts. held_at stage parts.cert };

    ghost Live = { λ stage parts. LiveAt stage parts.cert };

    fn begin(alloc: Global) -> (CertStage, Self) {
        let (stage, cert) = CertParts::begin(alloc);
        (stage, CertRunsParts { cert })
    }

    #[tactic(auto, using(crate::proofs::CertRuns::no_cert_runs))]
    fn take(&mut self, stage: CertStage, line: &[u8]) -> Result<CertStage, FaultKind> {
        self.cert.take(stage, line)
    }

    fn lines<'a>(&mut self, stage: CertStage, bytes: &'a [u8]) -> (&'a [u8], u32) {
        self.cert.lines(stage, bytes)
    }

    #[tactic(auto, using(crate::proofs::CertRuns::cert_runs_begin))]
    fn goes_on(&self, stage: CertStage) {
        self.cert.goes_on(stage);
    }

    fn wanted(&self, stage: CertStage) -> Wanted {
        self.cert.wanted(stage)
    }

    fn text(self, stage: CertStage) -> Option<Seq<Run>> {
        match self.cert.whole(stage) {
            Some((_, _, _, runs)) => Some(runs),
            None => None,
        }
    }

    ghost use Rattle.cert_text.specs.inner.Plain.{plain_cert_runs};

    ghost plain = { plain_cert_runs };
}

impl StagesBack for CertRunsParts {
    fn count(&self, stage: CertStage) -> u32 {
        self.cert.count(stage)
    }

    fn undo(&mut self, stage: CertStage) -> CertStage {
        self.cert.undo(stage)
    }
}

impl StagesApart for CertRunsParts {
    fn lines_apart<'a, H: Threads + Sync>(
        &mut self,
        rt: &H,
        parts: usize,
        stage: CertStage,
        bytes: &'a [u8],
    ) -> (&'a [u8], u32) {
        self.cert.lines_apart(rt, parts, stage, bytes)
    }
}
