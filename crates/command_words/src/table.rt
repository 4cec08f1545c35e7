//! The table of commands.

ghost use Rattle.std.specs.Prelude.{◌≡◌, map};
ghost use Rattle.command_words.specs.Table.{carriers, carrier_name, carrier_named, format_name, format_named, formats, rows_of, table};

use crate::requests::{
    Audits, Carrier, Checks, Demand, Explains, Format, OneText, Pages, ReportForm, Request,
    StoryForm, Takes, TwoTexts, VerdictForm,
};
use migration_types::Topic;

/// A word of the command line, or an option.
#[derive(Clone, Copy)]
pub struct Word {
    /// Its name; that of an option has no dashes here.
    pub name: &'static str,
    /// The help for it.
    pub help: &'static str,
}

/// A command.
#[derive(Clone, Copy)]
pub struct CommandRow {
    pub name: &'static str,
    /// The help for the command, with an example.
    pub about: &'static str,
    pub takes: Takes<Word>,
}

/// The word for a session.
pub const SESSION: Word = Word {
    name: "SESSION",
    help: "Session file, folder with files of recorders, or - for standard input",
};

const CERT: Word = Word {
    name: "CERT",
    help: "Certificate file, or - for standard input",
};

const RUNS: Word = Word {
    name: "RUNS",
    help: "File of runs, or - for standard input",
};

const SCRIPT: Word = Word {
    name: "SCRIPT",
    help: "File of a guest script, or - for standard input",
};

const EVENTS: Word = Word {
    name: "EVENTS",
    help: "File of events, or - for standard input",
};

const INPUT: Word = Word {
    name: "INPUT",
    help: "Folder with files of recorders, of a recording of any size. Or a session file, or - for standard input",
};

/// The word for the first page of a window.
pub const FIRST: Word = Word {
    name: "FIRST",
    help: "Number of the first page",
};

/// The word for the number of pages of a window.
pub const COUNT: Word = Word {
    name: "COUNT",
    help: "Number of pages",
};

/// The word for a folder of recorders' files.
pub const FOLDER: Word = Word {
    name: "FOLDER",
    help: "Folder with files of recorders. A recording may be spread over several folders",
};

/// The option for the carrier of a migration.
pub const LINK: &str = "link";

/// The option that requires a session of a whole migration.
pub const COMPLETE: &str = "complete";

/// The option that requires a session that has the halt, the resume, and how each owed page came.
pub const COMPLETE_PAGES: &str = "complete-pages";

/// The option for the first line alone.
pub const QUIET: &str = "quiet";

/// The option for the form of an answer.
pub const FORMAT: &str = "format";

/// The option for the faults of all pages.
pub const ALL: &str = "all";

/// The option for a page.
pub const PAGE: &str = "page";

/// The option for a line of a session's text.
pub const LINE: &str = "line";

/// The option for the file that has, for each line of a window, the line of its recording.
pub const LINES: &str = "lines";

/// The option for the file of an answer.
pub const OUTPUT: &str = "output";

/// The option that cuts a recording that lacks something.
pub const CUT: &str = "cut";

/// What `check` asks for without options: a safe session, and the verdict as a line.
const PLAIN_CHECK: Checks = Checks {
    demand: Demand::Safety,
    form: VerdictForm::Line,
};

/// What `audit` asks for without options: a safe session, and the report in lines.
const PLAIN_AUDIT: Audits = Audits {
    demand: Demand::Safety,
    form: ReportForm::Lines,
};

/// No pages: a placeholder for those that the words of `window` give.
const NO_PAGES: Pages = Pages { first: 0, count: 0 };

static FORMATS: [Format; 2] = [Format::Text, Format::Json];

static FORMAT_NAMES: [&str; 2] = ["text", "json"];

/// Returns the names of the forms of an answer.
pub fn format_names() -> &'static [&'static str]
    ensures { map (λ name. name.now) result.now ≡ map format_name formats }
{
    &FORMAT_NAMES
}

/// Returns the form of an answer with this name.
pub fn format_named(name: &str) -> Option<Format>
    ensures { result ≡ format_named name.now }
{
    FORMATS.iter().find(|format| format.name() == name).copied()
}

static CARRIERS: [Carrier; 2] = [Carrier::Memory, Carrier::Tcp];

static CARRIER_NAMES: [&str; 2] = ["memory", "tcp"];

/// Returns the names of the carriers of a migration.
pub fn carrier_names() -> &'static [&'static str]
    ensures { map (λ name. name.now) result.now ≡ map carrier_name carriers }
{
    &CARRIER_NAMES
}

/// Returns the carrier of a migration with this name.
pub fn carrier_named(name: &str) -> Option<Carrier>
    ensures { result ≡ carrier_named name.now }
{
    CARRIERS
        .iter()
        .find(|carrier| carrier.name() == name)
        .copied()
}

static COMMANDS: [CommandRow; 10] = [
    CommandRow {
        name: "check",
        about: "Judge the certificate of a session. Example: postcopy check session cert",
        takes: Takes::Texts(Request::Two(TwoTexts::Check(PLAIN_CHECK), SESSION, CERT)),
    },
    CommandRow {
        name: "certify",
        about: "Write the certificate of a clean session, or the first line of the report on another. Example: postcopy certify session",
        takes: Takes::Texts(Request::One(OneText::Certify, SESSION)),
    },
    CommandRow {
        name: "audit",
        about: "Write the report on a session, or a line on each of several. Example: postcopy audit session",
        takes: Takes::Texts(Request::One(OneText::Audit(PLAIN_AUDIT), SESSION)),
    },
    CommandRow {
        name: "explain",
        about: "Explain what happened in a session, with the records of its fault. Example: postcopy explain session",
        takes: Takes::Texts(Request::One(
            OneText::Explain(Explains {
                demand: Demand::Safety,
                form: StoryForm::Words(Topic::Report),
            }),
            SESSION,
        )),
    },
    CommandRow {
        name: "replay",
        about: "Replay a session in the order of its runs. Example: postcopy replay session runs",
        takes: Takes::Texts(Request::Two(TwoTexts::Replay, SESSION, RUNS)),
    },
    CommandRow {
        name: "steps",
        about: "Write the session that events record from a guest script. Example: postcopy steps script events",
        takes: Takes::Texts(Request::Two(TwoTexts::Steps, SCRIPT, EVENTS)),
    },
    CommandRow {
        name: "migrate",
        about: "Migrate the guest of a script, and write its session and certificate. The page PREPAGING says which pivots and window to choose. Example: postcopy migrate script | postcopy",
        takes: Takes::Texts(Request::Migrate(Carrier::Memory, SCRIPT)),
    },
    CommandRow {
        name: "draw",
        about: "Draw the records of a session as SVG, in the order of its report or of runs. Example: postcopy draw session -o picture.svg",
        takes: Takes::Texts(Request::Draw(Topic::Report, SESSION, Some(RUNS))),
    },
    CommandRow {
        name: "window",
        about: "Write the session of some pages of a recording. Example: postcopy window recording 4096 1024 -o session",
        takes: Takes::Texts(Request::Window(NO_PAGES, INPUT, None)),
    },
    CommandRow {
        name: "session",
        about: "Make the session of the files that recorders left in folders. Example: postcopy session recording -o session",
        takes: Takes::Folders(FOLDER),
    },
];

/// Returns the commands.
pub fn commands() -> &'static [CommandRow]
    ensures { rows_of result.now ≡ table }
{
    &COMMANDS
}
