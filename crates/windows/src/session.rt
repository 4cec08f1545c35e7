//! The text of a window.

ghost use Rattle.std.specs.Prelude.{◌≡◌, ℕ, [], ◌∷◌, ◌++◌, List, length, OnOk, IfOk};
ghost use Rattle.std.specs.Fmt.{decimal};
ghost use Rattle.migration_types.specs.Sessions.{Recorded};
ghost use Rattle.text_lines.specs.Text.{ended};
ghost use Rattle.session_grammar.specs.Grammar.{session_lines};
ghost use Rattle.recordings.specs.Wide.{extent_of};
ghost use Rattle.windows.specs.inner.Met.{IsSection};
ghost use Rattle.windows.specs.inner.Parts.{AreSections, lane_lines};

use crate::sections::{Section, Sections};
use migration_types::Version;
use recordings::WideMachine;
use session_grammar::{
    CELLS_KEY, GUEST_KEY, INIT_KEY, LANE_KEY, LINK_KEY, PAGER_KEY, PAGES_KEY, SOURCE_KEY,
    session_header,
};
use std::alloc::{AllocError, Global};
use text_lines::{CLOSING, push_keyed, push_line};

/// The session of a window as text, and for each of its lines the line of the recording's text that it comes from,
/// counted from 1.
#[derive(Drop)]
pub struct WindowText {
    pub text: Vec<u8>,
    pub lines: Vec<u64>,
}

/// Returns the text of a session of this many pages on such a machine, with these lines.
pub(crate) fn session_text(
    alloc: Global,
    pages: u64,
    machine: &WideMachine,
    sections: &Sections,
) -> Result<Vec<u8>, AllocError>
    ensures { IfOk result (λ out. (s : Recorded) → AreSections sections.now s → machine.now.version ≡ s.version → extent_of (record machine.now { pages = pages }) ≡ s.geometry → out.items ≡ ended (session_lines s)) }
{
    let mut out = Vec::new(alloc);
    push_line(&mut out, session_header(machine.version, machine.size))?;
    push_keyed(&mut out, PAGES_KEY, pages)?;
    push_keyed(&mut out, CELLS_KEY, machine.cells)?;
    push_section(&mut out, INIT_KEY, &sections.init)?;
    push_section(&mut out, GUEST_KEY, &sections.guest)?;
    push_section(&mut out, SOURCE_KEY, &sections.source)?;
    push_section(&mut out, LINK_KEY, &sections.link)?;
    push_lane(&mut out, machine.version, &sections.lane)?;
    push_section(&mut out, PAGER_KEY, &sections.pager)?;
    push_line(&mut out, CLOSING)?;
    Ok(out)
}

/// Appends a line with the number of lines, and the lines.
#[tactic(auto, using(crate::proofs::Text::section_text))]
fn push_section(out: &mut Vec<u8>, key: &[u8], section: &Section) -> Result<(), AllocError>
    ensures { (lines : List (List ℕ)) → IsSection section.now lines → OnOk result (out.new.items ≡ out.old.items ++ ended ((key.now ++ decimal (length lines)) ∷ lines)) }
{
    push_keyed(out, key, section.count)?;
    out.extend_from_slice(&section.lines)?;
    Ok(())
}

/// Appends the lines of the lane's log, if the version has one.
fn push_lane(out: &mut Vec<u8>, version: Version, section: &Section) -> Result<(), AllocError>
    ensures { (lines : List (List ℕ)) → IsSection section.now lines → OnOk result (out.new.items ≡ out.old.items ++ ended (lane_lines version lines)) }
{
    match version {
        Version::One => Ok(()),
        Version::Two => push_section(out, LANE_KEY, section),
    }
}
