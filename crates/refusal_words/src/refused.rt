//! Why a text is refused, as its reader says it.

ghost use Rattle.std.specs.Prelude.{◌≡◌};

use text_lines::{FaultKind, Refusal, Wanted};

/// What was found at a refused line, and what is allowed there.
#[derive(Drop)]
pub struct Misread {
    pub kind: FaultKind,
    /// The first bytes of the line.
    pub text: Vec<u8>,
    /// Whether the text ends with that line, without a line feed.
    pub is_last: bool,
    pub wanted: Wanted,
}

/// Why a text is refused.
#[derive(Drop)]
pub struct Refused {
    /// The line, counted from 1.
    pub line: u64,
    /// Whether the text is one of the two that a call reads.
    pub is_one_of_two: bool,
    pub misread: Misread,
}

impl Refused {
    /// Returns why a text is refused, as its reader says it.
    pub fn new(refusal: Refusal) -> Self
        ensures { result.line ≡ refusal.fault.line }
    {
        Refused {
            line: u64::from(refusal.fault.line),
            is_one_of_two: false,
            misread: Misread {
                kind: refusal.fault.kind,
                text: refusal.line,
                is_last: refusal.is_last,
                wanted: refusal.wanted,
            },
        }
    }

    /// Returns why one of the two texts that a call reads is refused.
    pub fn of_two(self) -> Self
        ensures { result.line ≡ self.line }
    {
        Refused {
            is_one_of_two: true,
            ..self
        }
    }
}
