//! What the words of the command line may ask for.

ghost use Rattle.std.specs.Prelude.{◌≡◌, None, if◌then◌else◌};
ghost use Rattle.command_words.specs.Table.{carrier_name, format_name};
ghost use Rattle.command_words.specs.Words.{is_due, target_names};

use migration_types::Topic;

/// What is required of a session before the answer is that all is well.
#[derive(Clone, Copy)]
pub enum Demand {
    /// That it is safe.
    Safety,
    /// That it is also complete as to its pages: it has the halt, the resume, and how each owed page came.
    Pages,
    /// That it is also complete: it tells of a whole migration.
    Whole,
}

/// The form of an answer, which an option names.
#[derive(Clone, Copy)]
pub enum Format {
    /// Lines of text.
    Text,
    /// A JSON object, on one line.
    Json,
}

impl Format {
    /// Returns the name that the option `--format` has for it.
    pub fn name(self) -> &'static str
        ensures { result.now ≡ format_name self }
    {
        match self {
            Format::Text => "text",
            Format::Json => "json",
        }
    }
}

/// The form of the verdict on a certificate.
#[derive(Clone, Copy)]
pub enum VerdictForm {
    Line,
    Object,
}

/// What is asked about a session and its certificate.
#[derive(Clone, Copy)]
pub struct Checks {
    pub demand: Demand,
    pub form: VerdictForm,
}

/// The form of the report on a session.
#[derive(Clone, Copy)]
pub enum ReportForm {
    /// Lines, with the order that shows the first fault, or the certificate.
    Lines,
    /// The first line alone.
    FirstLine,
    /// Lines, with each page that has a fault.
    AllFaults,
    /// An object.
    Object,
    /// An object with each page that has a fault.
    AllFaultsObject,
}

/// What an audit asks.
#[derive(Clone, Copy)]
pub struct Audits {
    pub demand: Demand,
    pub form: ReportForm,
}

/// The form of the reports on several sessions.
#[derive(Clone, Copy)]
pub enum ListForm {
    /// The first line of each, and how many are clean.
    FirstLines,
    /// An object for each.
    Objects,
    /// An object for each, with each page that has a fault.
    AllFaultsObjects,
}

/// What the audit of several sessions asks about each.
#[derive(Clone, Copy)]
pub struct Lists {
    pub demand: Demand,
    pub form: ListForm,
}

/// The form of the story of a session.
#[derive(Clone, Copy)]
pub enum StoryForm {
    /// Words, about this topic.
    Words(Topic),
    /// An object, about this topic.
    Object(Topic),
}

/// What an explanation asks.
#[derive(Clone, Copy)]
pub struct Explains {
    pub demand: Demand,
    pub form: StoryForm,
}

/// A command on one text.
#[derive(Clone, Copy)]
pub enum OneText {
    /// Writes the certificate of a session, or the first line of the report on it.
    Certify,
    /// Writes the report on a session.
    Audit(Audits),
    /// Writes the story of a session.
    Explain(Explains),
}

/// A command on two texts.
#[derive(Clone, Copy)]
pub enum TwoTexts {
    /// Writes the verdict on a session and its certificate.
    Check(Checks),
    /// Writes the outcome of a replay of a session along runs.
    Replay,
    /// Writes the session that events record from a script.
    Steps,
    /// Writes the story of a session that is a window, with the line numbers of its recording. The second text has
    /// those.
    Explain(Explains),
}

/// What carries the packets of a migration.
#[derive(Clone, Copy)]
pub enum Carrier {
    /// Queues in memory.
    Memory,
    /// A TCP connection over the loopback interface.
    Tcp,
}

impl Carrier {
    /// Returns the name that the option `--link` has for it.
    pub fn name(self) -> &'static str
        ensures { result.now ≡ carrier_name self }
    {
        match self {
            Carrier::Memory => "memory",
            Carrier::Tcp => "tcp",
        }
    }
}

/// What is done with a recording that lacks something.
#[derive(Clone, Copy)]
pub enum Lacking {
    /// Nothing is written.
    Refused,
    /// What is left is written. It is cut so that no record names one that is missing.
    Cut,
}

/// The pages of a window.
#[derive(Clone, Copy)]
pub struct Pages {
    /// The number of the first page.
    pub first: u64,
    /// How many pages.
    pub count: u64,
}

/// A command, with a word for each of its texts.
#[derive(Clone, Copy)]
pub enum Request<W> {
    One(OneText, W),
    Two(TwoTexts, W, W),
    /// Migrates a script's guest, with this carrier of the packets.
    Migrate(Carrier, W),
    /// Draws a session about this topic, along runs if they are named.
    Draw(Topic, W, Option<W>),
    /// Cuts the session of these pages out of a recording. If a file is named, it gets the line of the recording for
    /// each line of the session.
    Window(Pages, W, Option<W>),
}

/// What a command takes, with words for it.
#[derive(Clone, Copy)]
pub enum Takes<W> {
    /// Texts.
    Texts(Request<W>),
    /// Folders of recorders' files. There is one word for all of them.
    Folders(W),
}

/// What the words ask for, with the names of its texts.
pub type Job<'a> = Request<&'a str>;

/// Several sessions to audit.
#[derive(Drop)]
pub struct Several<'a> {
    pub lists: Lists,
    /// Their names: two or more.
    pub names: Vec<&'a str>,
}

/// The folders that have the files of a recording.
#[derive(Drop)]
pub struct Folders<'a> {
    pub lacking: Lacking,
    /// Their names: one or more.
    pub names: Vec<&'a str>,
}

/// What the words ask for.
#[derive(Drop)]
pub enum Intent<'a> {
    /// A command, with a name for each of its texts.
    Job(Job<'a>),
    /// The audit of several sessions.
    Several(Several<'a>),
    /// The session of the files that recorders left in folders.
    Folders(Folders<'a>),
}

/// The kind of a command's answer.
#[derive(Clone, Copy)]
pub enum AnswerKind {
    /// A certificate, a session or a picture. With status 1 there is none, and the answer is one line instead.
    Artifact,
    /// A verdict or a report, with status 0 or 1.
    Report,
}

/// The files that the words name for what is written.
#[derive(Clone, Copy)]
pub struct Targets<'a> {
    /// The file for the lines of a window.
    pub lines: Option<&'a str>,
    /// The file for the answer.
    pub output: Option<&'a str>,
    /// The kind of the answer.
    pub answer: AnswerKind,
}

/// No files, and a report as the answer.
pub const NO_TARGETS: Targets<'static> = Targets {
    lines: None,
    output: None,
    answer: AnswerKind::Report,
};

impl<'a> Targets<'a> {
    /// Returns the files to write for an answer with this status, from 0 to 4. With 0 they are all files. With 1 a
    /// report goes to its file, and an artifact does not. Above 1 there are none.
    pub fn at(self, status: u8) -> Targets<'a>
        ensures { target_names result ≡ (if is_due self.entry.answer status then target_names self.entry else (None, None)) }
    {
        match (status, self.answer) {
            (0, _) | (1, AnswerKind::Report) => self,
            _ => NO_TARGETS,
        }
    }
}

/// What is found in words.
#[derive(Drop)]
pub struct Invocation<'a> {
    /// What they ask for.
    pub intent: Option<Intent<'a>>,
    pub targets: Targets<'a>,
}
