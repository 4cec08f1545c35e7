//! Notes on texts, beside the answers to them.

ghost use Rattle.std.specs.Prelude.{◌≡◌, Some, option_map};
ghost use Rattle.command_texts.specs.Reasons.{IsNote};
ghost use Rattle.text_access.specs.Written.{MayTell};

use crate::shown::write_line_of;
use std::io::Write;

/// Writes the note on the text under a name, if there is one. A note that cannot be written is left out.
pub fn tell_note<E: Write>(name: &str, note: &Option<Vec<u8>>, errors: &mut E)
    ensures { MayTell (IsNote (λ words. option_map (λ v. v.items) note.now ≡ Some words) name.now) (E.contents errors.old) (E.contents errors.new) }
{
    if let Some(words) = note {
        write_line_of(errors, name, words.as_slice());
    }
}
