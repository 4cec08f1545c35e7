//! Files that are no text of the wanted kind, and line ends of another kind.

use crate::fitting::first_word;
use crate::refused::Refused;
use text_lines::Wanted;

/// What a file is, or how its lines end, if that is why it is refused.
#[derive(Clone, Copy)]
pub(crate) enum Special {
    ByteOrderMark,
    Utf16,
    /// A compressed file: its kind, with its article.
    Packed(&'static str),
    /// A text of another kind than the wanted one, and whether a call reads another text beside it.
    Another {
        found: Kind,
        wanted: Kind,
        is_one_of_two: bool,
    },
    /// The output of an audit, and the kind of the text after its first line.
    Report {
        behind: Option<Kind>,
        wanted: Kind,
    },
    /// One of the files that recorders leave in a folder.
    Records {
        wanted: Kind,
    },
    CarriageReturn,
}

/// The kinds of texts.
#[derive(Clone, Copy, PartialEq, Eq)]
pub(crate) enum Kind {
    Session,
    Certificate,
    Runs,
    Script,
    Events,
}

impl Kind {
    const ALL: [Kind; 5] = [
        Kind::Session,
        Kind::Certificate,
        Kind::Runs,
        Kind::Script,
        Kind::Events,
    ];

    /// Returns the beginning of the first line of such a text.
    fn key(self) -> &'static [u8] {
        match self {
            Kind::Session => b"postcopy-session ",
            Kind::Certificate => b"postcopy-certificate ",
            Kind::Runs => b"postcopy-runs ",
            Kind::Script => b"postcopy-script ",
            Kind::Events => b"postcopy-events ",
        }
    }

    /// Returns the words for the kind.
    pub(crate) fn words(self) -> &'static str {
        match self {
            Kind::Session => "a session",
            Kind::Certificate => "a certificate",
            Kind::Runs => "a text of runs",
            Kind::Script => "a script",
            Kind::Events => "a list of events",
        }
    }

    /// Returns the kind of the text that begins with this line.
    fn of(line: &[u8]) -> Option<Kind> {
        for kind in &Kind::ALL {
            if line.starts_with(kind.key()) {
                return Some(*kind);
            }
        }
        None
    }
}

/// The first bytes of compressed files, and their kinds with the article.
const PACKED: [(&[u8], &str); 5] = [
    (b"\x1f\x8b", "a gzip"),
    (b"\x28\xb5\x2f\xfd", "a zstd"),
    (b"\xfd7zXZ\0", "an xz"),
    (b"BZh", "a bzip2"),
    (b"PK", "a zip"),
];

/// Returns the kind of an encoding or of a compressed file that begins with this line.
fn encoded(line: &[u8]) -> Option<Special> {
    if line.starts_with(b"\xef\xbb\xbf") {
        return Some(Special::ByteOrderMark);
    }
    if line.starts_with(b"\xff\xfe") || line.starts_with(b"\xfe\xff") {
        return Some(Special::Utf16);
    }
    for packed in &PACKED {
        if line.starts_with(packed.0) {
            return Some(Special::Packed(packed.1));
        }
    }
    None
}

/// The whole first line of the report on a clean session.
const CLEAN: &[u8] = b"clean";

/// The beginning of the report on a session with a fault.
const FAULTY: &[u8] = b"faulty line ";

/// The beginnings of reports that are one line long.
const LONE: [&[u8]; 4] = [
    b"knot line ",
    b"shape line ",
    b"session-text line ",
    b"incomplete ",
];

/// The beginning of the first line of a recorder's file.
const RECORDS: &[u8] = b"postcopy-records ";

/// What one of the files is that recorders leave in a folder, with its article.
pub const RECORDERS_FILE: &str = "a file of a recorder";

/// Returns what a text is that begins with these bytes, with its article, if it is a text that commands read and that tells a
/// migration, or a file that a recorder left. Any version of it is one.
pub fn text_begun(front: &[u8]) -> Option<&'static str> {
    if front.starts_with(RECORDS) {
        return Some(RECORDERS_FILE);
    }
    match Kind::of(front) {
        Some(kind) => Some(kind.words()),
        None => None,
    }
}

/// Returns the output of an audit, or the recorder's file, that a text is, if it begins with this line.
fn output(line: &[u8], wanted: Kind) -> Option<Special> {
    if line.starts_with(RECORDS) {
        return Some(Special::Records { wanted });
    }
    let behind = if line == CLEAN {
        Some(Kind::Certificate)
    } else if line.starts_with(FAULTY) {
        Some(Kind::Runs)
    } else if LONE.iter().any(|front| line.starts_with(front)) {
        None
    } else {
        return None;
    };
    Some(Special::Report { behind, wanted })
}

/// Returns whether a line begins with the first word of a form that is allowed there.
fn begins_as_wanted(line: &[u8], wanted: &Wanted) -> bool {
    let (word, _) = first_word(line);
    wanted
        .forms
        .iter()
        .any(|form| first_word(form.as_bytes()).0 == word)
}

/// Returns the text of another kind than every allowed one that begins with the refused line.
fn of_another_kind(refused: &Refused) -> Option<Special> {
    let line = refused.misread.text.as_slice();
    if begins_as_wanted(line, &refused.misread.wanted) {
        return None;
    }
    let wanted = Kind::of(refused.misread.wanted.forms.first()?.as_bytes())?;
    match Kind::of(line) {
        None => output(line, wanted),
        Some(found) if found != wanted => Some(Special::Another {
            found,
            wanted,
            is_one_of_two: refused.is_one_of_two,
        }),
        Some(_) => None,
    }
}

/// Returns what a file is, or how its lines end, if that is why it is refused.
pub(crate) fn special_of(refused: &Refused) -> Option<Special> {
    let line = refused.misread.text.as_slice();
    if refused.line == 1 {
        if let Some(special) = encoded(line) {
            return Some(special);
        }
        if let Some(special) = of_another_kind(refused) {
            return Some(special);
        }
    }
    match line.last() {
        Some(b'\r') => Some(Special::CarriageReturn),
        _ => None,
    }
}
