//! Lines of a log's records, for any log.

ghost use Rattle.std.specs.Prelude.{◌≡◌, ◌≢◌, [], ◌∷◌, ◌++◌, List, ℕ, IfOk, IfErr, IfSome, OnOk};

use std::alloc::AllocError;
use text_lines::{FaultKind, LineForm, after_end};

/// The form of a log's records, which does not depend on the records before.
pub(crate) trait RecordForm: Sync + Drop {
    type Record: Send + Drop;

    /// The line of a record.
    ghost spell: { Self.Record → List ℕ };

    /// What every form must satisfy, such as having a machine within its limits.
    ghost IsForm: { Self → Type 0 };

    /// The record is allowed in the log.
    ghost Fits: { Self → Self.Record → Type 0 };

    /// Returns the record at the front, and what follows. Nothing follows if the text is that line alone.
    fn record_then<'a>(&self, text: &'a [u8]) -> Result<(Self::Record, &'a [u8]), FaultKind>
        requires { IsForm self.now }
        ensures found { IfOk result (λ found. Fits self.now found.0 × (text.now ≡ spell found.0 ++ found.1.now)) }
        ensures refused { IfErr result (λ kind. kind ≢ FaultKind.Memory → (r : Self.Record) → Fits self.now r → text.now ≢ spell r) }
        ensures whole { IfOk result (λ found. (r : Self.Record) → Fits self.now r → text.now ≡ spell r → found.1.now ≡ []) };

    /// Returns the record at the front of a text of whole lines, and what follows its line. May return `None` for any
    /// text.
    #[inline(always)]
    fn front<'a>(&self, text: &'a [u8]) -> Option<(Self::Record, &'a [u8])>
        requires { IsForm self.now }
        ensures { IfSome result (λ found. Fits self.now found.0 × (text.now ≡ spell found.0 ++ 10 ∷ found.1.now)) }
    {
        let (record, rest) = self.record_then(text).ok()?;
        Some((record, after_end(rest)?))
    }

    /// Settles the records from one of them on, which one thread has read: they may be stored otherwise, and stay the same records.
    fn settle(&self, records: &mut Vec<Self::Record>, from: usize)
        requires { IsForm self.now }
        ensures { records.new.items ≡ records.old.items }
    {
        let _ = records;
        let _ = from;
    }

    /// Appends the line of a record.
    fn push(rec: &Self::Record, out: &mut Vec<u8>) -> Result<(), AllocError>
        ensures { OnOk result (out.new.items ≡ out.old.items ++ (spell rec.now ++ 10 ∷ [])) };
}

/// The lines of records in this form.
#[derive(Drop)]
pub(crate) struct Records<F>(pub F);

impl<F: RecordForm> LineForm for Records<F> {
    type Item = F::Record;

    ghost spell = { F.spell };

    ghost IsForm = { λ f. F.IsForm f.0 };

    ghost Fits = { λ f r. F.Fits f.0 r };

    ghost by_last = { λ a b x y h. h };

    fn read(&self, _before: &[F::Record], line: &[u8]) -> Result<F::Record, FaultKind> {
        let (record, rest) = self.0.record_then(line)?;
        if !rest.is_empty() {
            return Err(FaultKind::Form);
        }
        Ok(record)
    }

    #[inline(always)]
    fn front<'a>(&self, _before: &[F::Record], text: &'a [u8]) -> Option<(F::Record, &'a [u8])> {
        self.0.front(text)
    }

    fn may_follow(&self, _before: &[F::Record], _item: &F::Record) -> bool {
        true
    }

    fn settle(&self, items: &mut Vec<F::Record>, from: usize) {
        self.0.settle(items, from);
    }

    #[inline(always)]
    fn push(item: &F::Record, out: &mut Vec<u8>) -> Result<(), AllocError> {
        F::push(item, out)
    }
}
