//! What is allowed at each line of a session's text, as far as the kind of line, the version and the machine say.

use crate::Stage;
use crate::machine::{wanted_cells, wanted_pages};
use crate::pages::{an_init_count, an_init_page};
use migration_types::{Size, Version};
use text_lines::Wanted;

/// The forms of the header.
const HEADER_FORMS: &[&str] = &[
    "postcopy-session 1",
    "postcopy-session 2",
    "postcopy-session 3",
];

/// The forms of the guest's records.
const GUEST_FORMS: &[&str] = &[
    "r V P C X",
    "w V P C X",
    "z V P",
    "miss V P",
    "halt",
    "resume I",
    "see I",
];

/// Returns the forms of the source's records of a size.
fn source_forms(size: Size) -> &'static [&'static str] {
    match size {
        Size::Small => &[
            "halted I",
            "state",
            "send P HEX",
            "again I",
            "ask I",
            "done",
        ],
        Size::Large => &[
            "halted I",
            "state",
            "send P HEX",
            "again I",
            "ask I",
            "done",
            "back",
        ],
    }
}

/// The forms of the link's records.
const LINK_FORMS: &[&str] = &["down I", "up I"];

/// The forms of the lane's records.
const LANE_FORMS: &[&str] = &["down I"];

/// Returns the forms of the pager's records in a version.
fn pager_forms(version: Version) -> &'static [&'static str] {
    match version {
        Version::One => &[
            "got I",
            "ready",
            "fault I",
            "join I",
            "want P",
            "place P I HEX",
            "zero P",
            "skip I",
            "all",
        ],
        Version::Two => &[
            "got I",
            "pull I",
            "ready",
            "fault I",
            "join I",
            "want P",
            "place P I HEX",
            "zero P",
            "skip I",
            "all",
        ],
    }
}

/// Returns what is allowed at the line of the next item of a stage's list. An initial page may have any number.
pub fn wanted_item(stage: Stage, version: Version, size: Size) -> Wanted {
    match stage {
        Stage::Init => an_init_page(),
        Stage::Guest => Wanted::one("a record of the guest", GUEST_FORMS),
        Stage::Source => Wanted::one("a record of the source", source_forms(size)),
        Stage::Link => Wanted::one("a record of the link", LINK_FORMS),
        Stage::Lane => Wanted::one("a record of the lane", LANE_FORMS),
        Stage::Pager => Wanted::one("a record of the pager", pager_forms(version)),
        _ => Wanted::unknown(),
    }
}

/// Returns what is allowed at the line after all lines of a stage. The number of initial pages may be any.
pub fn wanted_behind(stage: Stage, version: Version, size: Size) -> Wanted {
    match stage {
        Stage::Header => Wanted::one("the header of a session", HEADER_FORMS),
        Stage::Pages => wanted_pages(size).under(more_pages(size)),
        Stage::Cells => wanted_cells(size),
        Stage::InitCount => an_init_count(),
        Stage::Init => records_of(size, "the number of the guest's records", &["guest N"]),
        Stage::Guest => records_of(size, "the number of the source's records", &["source N"]),
        Stage::Source => records_of(size, "the number of the link's records", &["link N"]),
        Stage::Link => match version {
            Version::One => wanted_pager_count(size),
            Version::Two => records_of(size, "the number of the lane's records", &["lane N"]),
        },
        Stage::Lane => wanted_pager_count(size),
        Stage::Pager => Wanted::closing_line(),
        Stage::Done => Wanted::nothing_more(),
    }
}

/// Expects the number of a log's records.
fn records_of(size: Size, what: &'static str, forms: &'static [&'static str]) -> Wanted {
    Wanted::one(what, forms).within(0, size.limits().records)
}

/// Expects the number of the pager's records.
fn wanted_pager_count(size: Size) -> Wanted {
    records_of(size, "the number of the pager's records", &["pager N"])
}

/// Returns the words for the sessions that have more pages than those of a size.
fn more_pages(size: Size) -> &'static str {
    match size {
        Size::Small => "postcopy-session 3 has up to 16777216",
        Size::Large => "",
    }
}
