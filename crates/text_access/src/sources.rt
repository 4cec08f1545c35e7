//! Texts under names.

ghost use Rattle.std.specs.Prelude.{◌≡◌, ◌⊎◌, ℕ, List, Option, Some, None, IfOk, IfSome, OnOk, map, string_bytes};
ghost use Rattle.std.specs.List.Sorted.{IsPermutation};
ghost use Rattle.text_lines.specs.Text.{IsSpelling};
ghost use Rattle.session_grammar.specs.Grammar.{SpellsSession};

use migration_types::Session;
use std::alloc::Global;
use std::io;
use std::io::{ErrorKind, Read};

/// Texts under names, such as files.
pub trait TextSource {
    /// A text that is being read.
    type Text: Read + Drop;

    /// The bytes that a name stands for, if they are known.
    ghost bytes_of: { Self → List ℕ → Option (List ℕ) } = { λ _ _. None };

    /// The names of what is in a folder, if they are known.
    ghost names_in: { Self → List ℕ → Option (List (List ℕ)) } = { λ _ _. None };

    /// This is the text of the session under a name that has no text of its own, such as that of a folder.
    ghost text_in: { Self → List ℕ → List ℕ → Type 0 } = { λ _ _ _. ⊥ };

    /// Opens the text under a name. A folder has none.
    fn text(&self, name: &str) -> io::Result<Self::Text>
        ensures bytes { IfOk result (λ t. IfSome (bytes_of self.now name.now) (λ xs. Self.Text.remaining t ≡ Some xs)) }
        ensures file { OnOk result (names_in self.now name.now ≡ None) };

    /// Opens the text under a name, or that of the session under a name that has no text of its own. A source has no such
    /// sessions unless it says so.
    fn session_text(&self, name: &str) -> io::Result<Self::Text>
        ensures bytes { IfOk result (λ t. IfSome (bytes_of self.now name.now) (λ xs. Self.Text.remaining t ≡ Some xs)) }
        ensures named { IfOk result (λ t. (names_in self.now name.now ≡ None) ⊎ ((text : List ℕ) × text_in self.now name.now text × (Self.Text.remaining t ≡ Some text))) }
    {
        self.text(name)
    }

    /// Returns whether the text under a name can be read again. The text of a pipe cannot. No proof depends on it.
    fn stays(&self, _name: &str) -> bool {
        true
    }

    /// Returns the session under a name that has no text of its own, or `None` if there is none, or if its text has to be
    /// read. A source has no such sessions unless it says so. If what is there makes no session, the error is that of data
    /// that is not valid.
    fn session(&self, alloc: Global, name: &str) -> io::Result<Option<Session>>
        ensures { IfOk result (λ found. IfSome found (λ session. (text : List ℕ) × text_in self.now name.now text × IsSpelling SpellsSession session text)) }
    {
        let _ = alloc;
        let _ = name;
        Ok(None)
    }

    /// Returns the names of what is in a folder, in no order. Names that are not UTF-8 are left out. A source has no
    /// folders unless it says so. What has names in it has no bytes of its own.
    fn names(&self, alloc: Global, folder: &str) -> io::Result<Vec<String>>
        ensures folder { OnOk result (bytes_of self.now folder.now ≡ None) }
        ensures names { IfOk result (λ names. IfSome (names_in self.now folder.now) (λ known. IsPermutation known (map string_bytes names.items))) }
    {
        let _ = alloc;
        let _ = folder;
        Err(io::Error::from(ErrorKind::NotADirectory))
    }

    /// Returns whether two names lead to one folder, as far as it can be known. No proof depends on it.
    fn is_one(&self, folder: &str, other: &str) -> bool {
        folder == other
    }
}
