//! The words and the options of each command.

ghost use Rattle.std.specs.Prelude.{◌≡◌, fold};
ghost use Rattle.clap.specs.Words.{App};
ghost use Rattle.command_words.specs.declared.building.Choices.{Choices};
ghost use Rattle.command_words.specs.Parameters.{with_parameter};
ghost use Rattle.command_words.specs.Table.{further_name, taken_names, word_names};
ghost use Rattle.command_words.specs.Words.{with_further, with_taken, with_words};
ghost use Rattle.command_words.specs.declared.requests.Request.TheVariants.{One, Two};

use crate::requests::{Carrier, OneText, Request, Takes, TwoTexts};
use crate::table::{ALL, COMPLETE, COMPLETE_PAGES, COUNT, CUT, FIRST, LINE, PAGE, QUIET, Word};

const COMPLETE_HELP: &str =
    "Succeed only if the session has a whole migration, from the halt to the end";

const COMPLETE_PAGES_HELP: &str =
    "Succeed only if the guest was halted and resumed, and each owed page was placed or released at the target. --complete asks for more";

const QUIET_HELP: &str = "Write only the first line of the answer";

const ALL_HELP: &str = "List each page that has a fault, with its first fault";

const PAGE_HELP: &str = "Show this page, whether it has a fault or not";

const LINE_HELP: &str = "Show the record at this line of the session, and its page";

const CUT_HELP: &str =
    "If something is missing, write what is left, cut so that no record names one that is missing";

/// The most words and options of a command, without the option for the file of its answer.
const MOST_PARAMETERS: usize = 7;

/// A word or an option of a command.
#[derive(Clone, Copy)]
pub enum Parameter {
    /// A word for a text.
    Text(Word),
    /// A word for texts: one or more.
    Texts(Word),
    /// A word for a number of pages.
    Count(Word),
    /// A word that may be left out.
    Further(Word),
    /// An option without a value.
    Flag(Word),
    /// An option that has a number as its value.
    Number(Word),
    /// The option for the file of a recording's lines.
    Lines,
    /// The option for the file of the answer.
    Output,
    /// The option for the carrier of a migration, with the default.
    Link(Carrier),
    /// The option for the form of the answer. The default is lines of text.
    Format,
}

/// The words and the options of a command, in the order of its help.
pub type Parameters = [Option<Parameter>; MOST_PARAMETERS];

const COMPLETE_FLAG: Parameter = Parameter::Flag(Word {
    name: COMPLETE,
    help: COMPLETE_HELP,
});

const COMPLETE_PAGES_FLAG: Parameter = Parameter::Flag(Word {
    name: COMPLETE_PAGES,
    help: COMPLETE_PAGES_HELP,
});

const ALL_FLAG: Parameter = Parameter::Flag(Word {
    name: ALL,
    help: ALL_HELP,
});

const QUIET_FLAG: Parameter = Parameter::Flag(Word {
    name: QUIET,
    help: QUIET_HELP,
});

const CUT_FLAG: Parameter = Parameter::Flag(Word {
    name: CUT,
    help: CUT_HELP,
});

const PAGE_NUMBER: Parameter = Parameter::Number(Word {
    name: PAGE,
    help: PAGE_HELP,
});

const LINE_NUMBER: Parameter = Parameter::Number(Word {
    name: LINE,
    help: LINE_HELP,
});

// Returns the words and the options of a command on one text. `audit` takes several sessions.
fn of_one(task: OneText, word: &Word) -> Parameters
    ensures { (choices : Choices) (app : App) → fold (with_parameter choices) app result ≡ with_words choices app (One task word.now.name.now) }
{
    match task {
        OneText::Audit(_) => [
            Some(Parameter::Texts(*word)),
            Some(COMPLETE_FLAG),
            Some(COMPLETE_PAGES_FLAG),
            Some(ALL_FLAG),
            Some(QUIET_FLAG),
            Some(Parameter::Format),
            None,
        ],
        OneText::Explain(_) => [
            Some(Parameter::Text(*word)),
            Some(COMPLETE_FLAG),
            Some(COMPLETE_PAGES_FLAG),
            Some(PAGE_NUMBER),
            Some(LINE_NUMBER),
            Some(Parameter::Lines),
            Some(Parameter::Format),
        ],
        OneText::Certify => [
            Some(Parameter::Text(*word)),
            None,
            None,
            None,
            None,
            None,
            None,
        ],
    }
}

// Returns the words and the options of a command on two texts.
fn of_two(task: TwoTexts, first: &Word, second: &Word) -> Parameters
    ensures { (choices : Choices) (app : App) → fold (with_parameter choices) app result ≡ with_words choices app (Two task first.now.name.now second.now.name.now) }
{
    let first = Some(Parameter::Text(*first));
    let second = Some(Parameter::Text(*second));
    match task {
        TwoTexts::Check(_) => [
            first,
            second,
            Some(COMPLETE_FLAG),
            Some(COMPLETE_PAGES_FLAG),
            Some(Parameter::Format),
            None,
            None,
        ],
        TwoTexts::Replay | TwoTexts::Steps | TwoTexts::Explain(_) => {
            [first, second, None, None, None, None, None]
        }
    }
}

// Returns the word that may be left out, if there is one.
fn further_word(word: &Option<Word>) -> Option<Parameter>
    ensures { (choices : Choices) (app : App) → with_parameter choices app result ≡ with_further app (further_name word.now) }
{
    match word {
        Some(word) => Some(Parameter::Further(*word)),
        None => None,
    }
}

// Returns the words and the options of a command on texts.
fn of_texts(asked: &Request<Word>) -> Parameters
    ensures { (choices : Choices) (app : App) → fold (with_parameter choices) app result ≡ with_words choices app (word_names asked.now) }
{
    match asked {
        Request::One(task, word) => of_one(*task, word),
        Request::Two(task, first, second) => of_two(*task, first, second),
        Request::Migrate(carrier, word) => [
            Some(Parameter::Text(*word)),
            Some(Parameter::Link(*carrier)),
            None,
            None,
            None,
            None,
            None,
        ],
        Request::Draw(_, word, further) => [
            Some(Parameter::Text(*word)),
            further_word(further),
            Some(PAGE_NUMBER),
            None,
            None,
            None,
            None,
        ],
        Request::Window(_, word, _) => [
            Some(Parameter::Text(*word)),
            Some(Parameter::Count(FIRST)),
            Some(Parameter::Count(COUNT)),
            Some(Parameter::Lines),
            None,
            None,
            None,
        ],
    }
}

/// Returns the words and the options of a command on texts, or on folders.
pub(crate) fn parameters_of(takes: &Takes<Word>) -> Parameters
    ensures { (choices : Choices) (app : App) → fold (with_parameter choices) app result ≡ with_taken choices app (taken_names takes.now) }
{
    match takes {
        Takes::Texts(asked) => of_texts(asked),
        Takes::Folders(word) => {
            let folders = Parameter::Texts(*word);
            [Some(folders), Some(CUT_FLAG), None, None, None, None, None]
        }
    }
}
