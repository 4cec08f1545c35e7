//! What the words and the options of a command give.

ghost use Rattle.std.specs.Prelude.{◌≡◌, None, Some, false, option_map, true, find};
ghost use Rattle.std.specs.Str.{bytes_eq};
ghost use Rattle.command_words.specs.Table.{asked_names, further_name, job_of, taken_names, word_names};
ghost use Rattle.command_words.specs.Words.{all_faults_form_in, asked_of, audits_in, carrier_in, checks_in, count_in, count_of, demand_in, explains_in, further_in, given_in, has, is_set, lacking_in, list_form_in, lists_in, number_in, number_of, one_in, only_of, page_in, report_form_in, short_form_in, story_form_in, texts_in, told_with, topic_in, two_in, verdict_form_in, wants_object, window_in, word_texts};
ghost use Rattle.command_words.specs.declared.requests.Request.TheVariants.{One, Two, Migrate, Draw};
ghost use Rattle.clap.specs.Words.{all_of, first_of, found_of, rows_of, takes};

use crate::requests::{
    Audits, Carrier, Checks, Demand, Explains, Folders, Format, Job, Lacking, ListForm, Lists,
    OneText, Pages, ReportForm, Request, StoryForm, Takes, TwoTexts, VerdictForm,
};
use crate::table::{
    ALL, COMPLETE, COMPLETE_PAGES, COUNT, CUT, CommandRow, FIRST, FORMAT, LINE, LINES, LINK, PAGE,
    QUIET, Word, carrier_named, commands, format_named,
};
use clap::ArgMatches;
use migration_types::Topic;

/// Returns the argument for a word or an option.
pub(crate) fn name_given<'a>(id: &str, matches: &ArgMatches<'a>) -> Option<&'a str>
    ensures { option_map (λ name. name.now) result ≡ first_of id.now (rows_of (found_of matches.now)) }
{
    matches.get_str(id)
}

/// Returns all arguments for a word.
pub(crate) fn names_given<'m, 'a>(id: &str, matches: &'m ArgMatches<'a>) -> Option<&'m [&'a str]>
    ensures { option_map (λ names. word_texts names.now) result ≡ all_of id.now (rows_of (found_of matches.now)) }
{
    matches.get_strs(id)
}

// Returns the argument for a word, if it has only one.
fn only_given<'a>(id: &str, matches: &ArgMatches<'a>) -> Option<&'a str>
    ensures { option_map (λ name. name.now) result ≡ only_of id.now (rows_of (found_of matches.now)) }
{
    match names_given(id, matches) {
        Some(&[name]) => Some(name),
        _ => None,
    }
}

// Returns the carrier of a migration that was named, or else this one.
fn carrier_given(otherwise: Carrier, matches: &ArgMatches<'_>) -> Carrier
    ensures { result ≡ carrier_in (rows_of (found_of matches.now)) otherwise }
{
    match name_given(LINK, matches) {
        Some(name) => carrier_named(name).unwrap_or(otherwise),
        None => otherwise,
    }
}

/// Returns whether an option without a value was given.
pub(crate) fn is_given(option: &str, matches: &ArgMatches<'_>) -> bool
    ensures { result ≡ is_set (first_of option.now (rows_of (found_of matches.now))) }
{
    match name_given(option, matches) {
        Some(given) => given == "true",
        None => false,
    }
}

// Returns what is required of a session: that it is complete, if an option says so, or else that it is safe. If both
// options are given, the session must tell of a whole migration.
fn demand_given(matches: &ArgMatches<'_>) -> Demand
    ensures { result ≡ demand_in (rows_of (found_of matches.now)) }
{
    if is_given(COMPLETE, matches) {
        Demand::Whole
    } else if is_given(COMPLETE_PAGES, matches) {
        Demand::Pages
    } else {
        Demand::Safety
    }
}

/// Returns whether an object is asked for.
pub(crate) fn wants_object(matches: &ArgMatches<'_>) -> bool
    ensures { result ≡ wants_object (rows_of (found_of matches.now)) }
{
    match name_given(FORMAT, matches) {
        Some(name) => matches!(format_named(name), Some(Format::Json)),
        None => false,
    }
}

// Returns the form of the verdict on a certificate.
fn verdict_form(matches: &ArgMatches<'_>) -> VerdictForm
    ensures { result ≡ verdict_form_in (rows_of (found_of matches.now)) }
{
    if wants_object(matches) {
        VerdictForm::Object
    } else {
        VerdictForm::Line
    }
}

// Returns what is asked about a session and its certificate.
fn checks_given(matches: &ArgMatches<'_>) -> Checks
    ensures { result ≡ checks_in (rows_of (found_of matches.now)) }
{
    Checks {
        demand: demand_given(matches),
        form: verdict_form(matches),
    }
}

// Returns the form of a report with the faults of all pages.
fn all_faults_form(matches: &ArgMatches<'_>) -> ReportForm
    ensures { result ≡ all_faults_form_in (rows_of (found_of matches.now)) }
{
    if wants_object(matches) {
        ReportForm::AllFaultsObject
    } else {
        ReportForm::AllFaults
    }
}

// Returns the form of a report in lines: all of them, or the first alone.
fn short_form(matches: &ArgMatches<'_>) -> ReportForm
    ensures { result ≡ short_form_in (rows_of (found_of matches.now)) }
{
    if is_given(QUIET, matches) {
        ReportForm::FirstLine
    } else {
        ReportForm::Lines
    }
}

// Returns the form of the report on a session.
fn report_form(matches: &ArgMatches<'_>) -> ReportForm
    ensures { result ≡ report_form_in (rows_of (found_of matches.now)) }
{
    if is_given(ALL, matches) {
        all_faults_form(matches)
    } else if wants_object(matches) {
        ReportForm::Object
    } else {
        short_form(matches)
    }
}

// Returns what an audit asks.
fn audits_given(matches: &ArgMatches<'_>) -> Audits
    ensures { result ≡ audits_in (rows_of (found_of matches.now)) }
{
    Audits {
        demand: demand_given(matches),
        form: report_form(matches),
    }
}

// Returns the form of the reports on several sessions.
fn list_form(matches: &ArgMatches<'_>) -> ListForm
    ensures { result ≡ list_form_in (rows_of (found_of matches.now)) }
{
    if !wants_object(matches) {
        ListForm::FirstLines
    } else if is_given(ALL, matches) {
        ListForm::AllFaultsObjects
    } else {
        ListForm::Objects
    }
}

/// Returns what the audit of several sessions asks about each.
pub(crate) fn lists_given(matches: &ArgMatches<'_>) -> Lists
    ensures { result ≡ lists_in (rows_of (found_of matches.now)) }
{
    Lists {
        demand: demand_given(matches),
        form: list_form(matches),
    }
}

// Returns the number that a text gives, if it gives one.
fn number_of(text: &str) -> Option<u32>
    ensures { result ≡ number_of text.now }
{
    text.parse::<u32>().ok()
}

// Returns the number that was given for an option.
fn number_given(option: &str, matches: &ArgMatches<'_>) -> Option<u32>
    ensures { result ≡ number_in option.now (rows_of (found_of matches.now)) }
{
    match name_given(option, matches) {
        Some(text) => number_of(text),
        None => None,
    }
}

// Returns the number of pages that a text gives, if it gives one.
fn count_of(text: &str) -> Option<u64>
    ensures { result ≡ count_of text.now }
{
    text.parse::<u64>().ok()
}

// Returns the number of pages that was given for a word.
fn count_given(word: &str, matches: &ArgMatches<'_>) -> Option<u64>
    ensures { result ≡ count_in word.now (rows_of (found_of matches.now)) }
{
    match name_given(word, matches) {
        Some(text) => count_of(text),
        None => None,
    }
}

// Returns the window that was given.
fn window_given<'a>(word: &Word, matches: &ArgMatches<'a>) -> Option<Job<'a>>
    ensures { option_map asked_names result ≡ window_in (rows_of (found_of matches.now)) word.now.name.now }
{
    let name = name_given(word.name, matches)?;
    let first = count_given(FIRST.name, matches)?;
    let count = count_given(COUNT.name, matches)?;
    let lines = name_given(LINES, matches);
    Some(Request::Window(Pages { first, count }, name, lines))
}

// Returns the topic: the page that an option names, or else this one.
fn page_given(otherwise: Topic, matches: &ArgMatches<'_>) -> Topic
    ensures { result ≡ page_in (rows_of (found_of matches.now)) otherwise }
{
    match number_given(PAGE, matches) {
        Some(page) => Topic::Page(page),
        None => otherwise,
    }
}

// Returns the topic: the line that an option names, or else the page, or else this one.
fn topic_given(otherwise: Topic, matches: &ArgMatches<'_>) -> Topic
    ensures { result ≡ topic_in (rows_of (found_of matches.now)) otherwise }
{
    match number_given(LINE, matches) {
        Some(line) => Topic::Line(line),
        None => page_given(otherwise, matches),
    }
}

// Returns the form of the story of a session.
fn story_form(matches: &ArgMatches<'_>) -> StoryForm
    ensures { result ≡ story_form_in (rows_of (found_of matches.now)) }
{
    let topic = topic_given(Topic::Report, matches);
    if wants_object(matches) {
        StoryForm::Object(topic)
    } else {
        StoryForm::Words(topic)
    }
}

// Returns what an explanation asks.
fn explains_given(matches: &ArgMatches<'_>) -> Explains
    ensures { result ≡ explains_in (rows_of (found_of matches.now)) }
{
    Explains {
        demand: demand_given(matches),
        form: story_form(matches),
    }
}

// Returns a command on one text, with what the arguments ask for.
fn one_given(task: OneText, matches: &ArgMatches<'_>) -> OneText
    ensures { result ≡ one_in (rows_of (found_of matches.now)) task }
{
    match task {
        OneText::Audit(_) => OneText::Audit(audits_given(matches)),
        OneText::Explain(_) => OneText::Explain(explains_given(matches)),
        OneText::Certify => task,
    }
}

// Returns a command on two texts, with what the arguments ask for.
fn two_given(task: TwoTexts, matches: &ArgMatches<'_>) -> TwoTexts
    ensures { result ≡ two_in (rows_of (found_of matches.now)) task }
{
    match task {
        TwoTexts::Check(_) => TwoTexts::Check(checks_given(matches)),
        TwoTexts::Replay | TwoTexts::Steps | TwoTexts::Explain(_) => task,
    }
}

// Returns a command on one text. An explanation is a command on two if the file of a recording's lines is named.
fn told_with<'a>(lines: Option<&'a str>, task: OneText, name: &'a str) -> Job<'a>
    ensures { asked_names result ≡ told_with (option_map (λ name. name.now) lines.entry) task name.now }
{
    match (task, lines) {
        (OneText::Explain(explains), Some(lines)) => {
            Request::Two(TwoTexts::Explain(explains), name, lines)
        }
        _ => Request::One(task, name),
    }
}

// Returns the argument for an optional word.
fn further_given<'a>(word: &Option<Word>, matches: &ArgMatches<'a>) -> Option<&'a str>
    ensures { option_map (λ name. name.now) result ≡ further_in (rows_of (found_of matches.now)) (further_name word.now) }
{
    match word {
        Some(word) => name_given(word.name, matches),
        None => None,
    }
}

/// Returns what is done with a recording that lacks something: it is cut if an option says so.
pub(crate) fn lacking_given(matches: &ArgMatches<'_>) -> Lacking
    ensures { result ≡ lacking_in (rows_of (found_of matches.now)) }
{
    if is_given(CUT, matches) {
        Lacking::Cut
    } else {
        Lacking::Refused
    }
}

// Returns what a command on one text asks for, with the name that was given for its word.
fn on_one<'a>(task: OneText, word: &Word, matches: &ArgMatches<'a>) -> Option<Job<'a>>
    ensures { option_map asked_names result ≡ texts_in (rows_of (found_of matches.now)) (One task word.now.name.now) }
{
    let name = only_given(word.name, matches)?;
    let lines = name_given(LINES, matches);
    Some(told_with(lines, one_given(task, matches), name))
}

// Returns what a command on two texts asks for, with the names that were given for its words.
fn on_two<'a>(
    task: TwoTexts,
    first: &Word,
    second: &Word,
    matches: &ArgMatches<'a>,
) -> Option<Job<'a>>
    ensures { option_map asked_names result ≡ texts_in (rows_of (found_of matches.now)) (Two task first.now.name.now second.now.name.now) }
{
    let first = name_given(first.name, matches)?;
    let second = name_given(second.name, matches)?;
    Some(Request::Two(two_given(task, matches), first, second))
}

// Returns the migration that was given.
fn migration_given<'a>(carrier: Carrier, word: &Word, matches: &ArgMatches<'a>) -> Option<Job<'a>>
    ensures { option_map asked_names result ≡ texts_in (rows_of (found_of matches.now)) (Migrate carrier word.now.name.now) }
{
    let name = name_given(word.name, matches)?;
    Some(Request::Migrate(carrier_given(carrier, matches), name))
}

// Returns the picture that was given.
fn picture_given<'a>(
    topic: Topic,
    word: &Word,
    further: &Option<Word>,
    matches: &ArgMatches<'a>,
) -> Option<Job<'a>>
    ensures { option_map asked_names result ≡ texts_in (rows_of (found_of matches.now)) (Draw topic word.now.name.now (further_name further.now)) }
{
    let name = name_given(word.name, matches)?;
    let further = further_given(further, matches);
    Some(Request::Draw(page_given(topic, matches), name, further))
}

// Returns what a command asks for, with the names that were given for its words.
fn given<'a>(asks: &Request<Word>, matches: &ArgMatches<'a>) -> Option<Job<'a>>
    ensures { option_map asked_names result ≡ texts_in (rows_of (found_of matches.now)) (word_names asks.now) }
{
    match asks {
        Request::One(task, word) => on_one(*task, word, matches),
        Request::Two(task, first, second) => on_two(*task, first, second, matches),
        Request::Migrate(carrier, word) => migration_given(*carrier, word, matches),
        Request::Draw(topic, word, further) => picture_given(*topic, word, further, matches),
        Request::Window(_, word, _) => window_given(word, matches),
    }
}

// Returns what a command on texts asks for, with the names that were given for its words.
fn texts_given<'a>(takes: &Takes<Word>, matches: &ArgMatches<'a>) -> Option<Job<'a>>
    ensures { option_map asked_names result ≡ given_in (rows_of (found_of matches.now)) (taken_names takes.now) }
{
    match takes {
        Takes::Texts(asks) => given(asks, matches),
        Takes::Folders(_) => None,
    }
}

// Returns the row with this name.
fn row_named<'a>(rows: &'a [CommandRow], name: &str) -> Option<&'a CommandRow>
    ensures { option_map (λ row. row.now) result ≡ find (λ row. bytes_eq row.name.now name.now) rows.now }
{
    rows.iter().find(|row| row.name == name)
}

/// Returns what the matches of the command with this name ask for.
pub(crate) fn job_of<'a>(name: &str, matches: &ArgMatches<'a>) -> Option<Job<'a>>
    ensures { option_map asked_names result ≡ asked_of (name.now, rows_of (found_of matches.now)) }
{
    match row_named(commands(), name) {
        Some(row) => texts_given(&row.takes, matches),
        None => None,
    }
}
