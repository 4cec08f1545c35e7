//! Where texts get names.

ghost use Rattle.std.specs.Prelude.{◌≡◌, ℕ, List, [], ◌∷◌, ◌++◌, Option, None, IfOk, IfSome, OnOk, OnErr};
ghost use Rattle.std.specs.Io.KnownBytes.{Appends, append_known};
ghost use Rattle.commands.specs.Saving.{Named, with_more};

use std::alloc::Global;
use std::io;
use std::io::Write;

/// Names that texts are put under, such as those of files. Until a text is whole it is a draft, which has no name.
pub trait TextSink {
    /// A text that is to get a name.
    type Draft: Drop;

    /// It is known what drafts have, and which texts have names.
    ghost is_known: { Type 0 } = { ⊥ };

    /// The name that a draft is for, and its text.
    ghost draft_of: { Self.Draft → List ℕ × List ℕ } = { λ _. ([], []) };

    /// The texts that got names, in order.
    ghost named: { Self → Named } = { λ _. [] };

    /// Begins a draft for a name. There is none for what is written in place, such as a device.
    fn begin(&self, alloc: Global, name: &str) -> io::Result<Option<Self::Draft>>
        ensures { is_known → IfOk result (λ begun. IfSome begun (λ draft. draft_of draft ≡ (name.now, []))) };

    /// Adds bytes to a draft.
    fn add(&self, draft: &mut Self::Draft, bytes: &[u8]) -> io::Result<()>
        ensures { is_known → OnOk result (draft_of draft.new ≡ with_more bytes.now (draft_of draft.old)) };

    /// Waits until a draft is stored.
    fn store(&self, draft: &Self::Draft) -> io::Result<()>;

    /// Gives a draft its name.
    fn keep(&mut self, draft: &Self::Draft) -> io::Result<()>
        ensures ok { is_known → OnOk result (named self.new ≡ named self.old ++ draft_of draft.now ∷ []) }
        ensures err { is_known → OnErr result (named self.new ≡ named self.old) };

    /// Removes a draft.
    fn remove(&self, draft: &Self::Draft);

    /// Writes a text to what is written in place.
    fn write_in_place(&mut self, name: &str, text: &[u8]) -> io::Result<()>
        ensures ok { is_known → OnOk result (named self.new ≡ named self.old ++ (name.now, text.now) ∷ []) }
        ensures err { is_known → OnErr result (named self.new ≡ named self.old) };

    /// Writes the text of a draft to an output.
    fn copy<O: Write>(&self, draft: &mut Self::Draft, output: &mut O) -> io::Result<()>
        ensures draft { is_known → draft_of draft.new ≡ draft_of draft.old }
        ensures ok { is_known → OnOk result (Appends (O.contents output.old) (O.contents output.new) (draft_of draft.old).1) };
}

/// What was written so far of an answer that is to get a name, or of one that is to get none. Only proofs use this.
pub trait Account: Drop {
    /// The name that the answer is to get.
    ghost name: { Option (List ℕ) } = { None };

    ghost written: { Self → Option (List ℕ) } = { λ _. None };

    fn add(&mut self, bytes: &[u8])
        ensures { written self.new ≡ append_known (written self.old) bytes.now };
}

impl Account for () {
    fn add(&mut self, _bytes: &[u8]) {}
}
