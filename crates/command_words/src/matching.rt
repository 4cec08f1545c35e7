//! What words ask for.

ghost use Rattle.std.specs.Prelude.{◌≡◌, ◌⊎◌, [], IfOk, IfErr, OnOk, None, Some, is_some, option_and_then, option_map};
ghost use Rattle.command_words.specs.Table.{asked_names, folders_names, folders_of, job_of, several_names, several_of};
ghost use Rattle.command_words.specs.Readings.{IsFoundIn};
ghost use Rattle.command_words.specs.Words.{IsKindFor, IsRefusedFor, answer_kind, answer_of, asked_of, clash_in, clashes, error_kinds, faults_clash, folders_among, folders_given, folders_named, has, lines_file, postcopy_words, sessions_in, several_among, several_given, several_named, topics_clash, wants_object, word_texts};
ghost use Rattle.clap.specs.Words.{HasKind, found_of, kind_of, rows_of, subcommand_of, subcommand_rows_of};

use crate::building::{Choices, command_line, refused_for};
use crate::giving::{
    is_given, job_of, lacking_given, lists_given, name_given, names_given, wants_object,
};
use crate::requests::{
    AnswerKind, Folders, Intent, Invocation, Job, NO_TARGETS, OneText, Request, Several, Targets,
    TwoTexts,
};
use crate::table::{ALL, FOLDER, LINE, OUTPUT, PAGE, QUIET, SESSION, carrier_names, format_names};
use clap::ArgMatches;
use clap::builder::ValueParser;
use clap::error::ErrorKind;
use std::alloc::{AllocError, Global};

const PAGE_WITH_LINE: &str = "the argument '--page <NUMBER>' cannot be used with '--line <NUMBER>'";

const ALL_IN_A_LINE: &str = "the argument '--all' cannot be used with '--quiet'";

const ALL_OF_SEVERAL: &str =
    "the argument '--all' cannot be used with several sessions, unless '--format json' is given";

// Returns whether an option with a value was given.
fn is_named(option: &str, matches: &ArgMatches<'_>) -> bool
    ensures { result ≡ has option.now (rows_of (found_of matches.now)) }
{
    name_given(option, matches).is_some()
}

// Returns the sessions that were given, if there are several.
fn sessions_given<'m, 'a>(matches: &'m ArgMatches<'a>) -> Option<&'m [&'a str]>
    ensures { option_map (λ names. word_texts names.now) result ≡ sessions_in (rows_of (found_of matches.now)) }
{
    match names_given(SESSION.name, matches) {
        Some(names) if names.len() > 1 => Some(names),
        _ => None,
    }
}

// Returns the message on why the options for topics clash, if they do.
fn clash_of_topics(matches: &ArgMatches<'_>) -> Option<&'static str>
    ensures { is_some result ≡ topics_clash (rows_of (found_of matches.now)) }
{
    if is_named(PAGE, matches) && is_named(LINE, matches) {
        Some(PAGE_WITH_LINE)
    } else {
        None
    }
}

// Returns the message on why the option for the faults of all pages clashes with the others, if it does.
fn clash_of_faults(matches: &ArgMatches<'_>) -> Option<&'static str>
    ensures { is_some result ≡ faults_clash (rows_of (found_of matches.now)) }
{
    if !is_given(ALL, matches) {
        return None;
    }
    if is_given(QUIET, matches) {
        return Some(ALL_IN_A_LINE);
    }
    if sessions_given(matches).is_some() && !wants_object(matches) {
        return Some(ALL_OF_SEVERAL);
    }
    None
}

// Returns the message on options that clash, if some do.
fn clash_of(matches: &ArgMatches<'_>) -> Option<&'static str>
    ensures { is_some result ≡ clashes (rows_of (found_of matches.now)) }
{
    match clash_of_topics(matches) {
        Some(clash) => Some(clash),
        None => clash_of_faults(matches),
    }
}

// Returns what the command line finds in the words.
fn matches_in<'a>(alloc: Global, words: &'a [&'a str]) -> Result<ArgMatches<'a>, clap::Error>
    ensures ok { IfOk result (λ m. subcommand_rows_of m ≡ subcommand_of postcopy_words (word_texts words.entry.now)) }
    ensures accepted { OnOk result (error_kinds (word_texts words.entry.now) ≡ []) }
    ensures kinds { IfErr result (HasKind (error_kinds (word_texts words.entry.now))) }
{
    let choices = Choices {
        carriers: ValueParser::Names(carrier_names()),
        formats: ValueParser::Names(format_names()),
    };
    let line = command_line(alloc, choices)?;
    match line.try_get_matches_from(words) {
        Ok(matches) => Ok(matches),
        Err(error) => Err(error),
    }
}

// Returns a list of these names.
fn kept<'a>(alloc: Global, names: &[&'a str]) -> Result<Vec<&'a str>, AllocError>
    ensures { IfOk result (λ kept. kept.items ≡ names.now) }
{
    let mut kept = Vec::new(alloc);
    kept.extend_from_slice(names)?;
    Ok(kept)
}

// Returns what is asked about the sessions of an audit, if there are several.
fn sessions_asked<'a>(
    alloc: Global,
    matches: &ArgMatches<'a>,
) -> Result<Option<Several<'a>>, AllocError>
    ensures { IfOk result (λ r. option_map several_names r ≡ several_among (rows_of (found_of matches.now))) }
{
    let Some(names) = sessions_given(matches) else {
        return Ok(None);
    };
    Ok(Some(Several {
        lists: lists_given(matches),
        names: kept(alloc, names)?,
    }))
}

// Returns the folders of a recording, if there are some.
fn folders_asked<'a>(
    alloc: Global,
    matches: &ArgMatches<'a>,
) -> Result<Option<Folders<'a>>, AllocError>
    ensures { IfOk result (λ r. option_map folders_names r ≡ folders_among (rows_of (found_of matches.now))) }
{
    let Some(names) = names_given(FOLDER.name, matches) else {
        return Ok(None);
    };
    Ok(Some(Folders {
        lacking: lacking_given(matches),
        names: kept(alloc, names)?,
    }))
}

// Returns what is asked of all names for the one word of the command with this name: the audit of several sessions, or
// the session of the files in folders.
fn intent_of_names<'a>(
    alloc: Global,
    name: &str,
    matches: &ArgMatches<'a>,
) -> Result<Option<Intent<'a>>, AllocError>
    ensures job { IfOk result (λ r. option_and_then job_of r ≡ None) }
    ensures several { IfOk result (λ r. option_and_then several_of r ≡ several_named (name.now, rows_of (found_of matches.now))) }
    ensures folders { IfOk result (λ r. option_and_then folders_of r ≡ folders_named (name.now, rows_of (found_of matches.now))) }
{
    if name == "audit" {
        return match sessions_asked(alloc, matches)? {
            Some(several) => Ok(Some(Intent::Several(several))),
            None => Ok(None),
        };
    }
    if name != "session" {
        return Ok(None);
    }
    match folders_asked(alloc, matches)? {
        Some(folders) => Ok(Some(Intent::Folders(folders))),
        None => Ok(None),
    }
}

// Returns what the matches of the command with this name ask for: a command on named texts, or else what is asked of
// all names for one word.
fn intent_of<'a>(
    alloc: Global,
    name: &str,
    matches: &ArgMatches<'a>,
) -> Result<Option<Intent<'a>>, AllocError>
    ensures job { IfOk result (λ r. option_and_then job_of r ≡ asked_of (name.now, rows_of (found_of matches.now))) }
    ensures several { IfOk result (λ r. option_and_then several_of r ≡ several_given (name.now, rows_of (found_of matches.now))) }
    ensures folders { IfOk result (λ r. option_and_then folders_of r ≡ folders_given (name.now, rows_of (found_of matches.now))) }
{
    match job_of(name, matches) {
        Some(job) => Ok(Some(Intent::Job(job))),
        None => intent_of_names(alloc, name, matches),
    }
}

// Returns the file for the lines of a window, if one is named.
fn lines_file<'a>(intent: &Option<Intent<'a>>) -> Option<&'a str>
    ensures { option_map (λ name. name.now) result ≡ lines_file (option_and_then job_of intent.now) }
{
    match intent {
        Some(Intent::Job(Request::Window(_, _, lines))) => *lines,
        _ => None,
    }
}

// Returns the kind of a command's answer.
fn answer_of(job: &Job<'_>) -> AnswerKind
    ensures { result ≡ answer_of (asked_names job.now) }
{
    match job {
        Request::One(OneText::Certify, _)
        | Request::Two(TwoTexts::Steps, _, _)
        | Request::Migrate(..)
        | Request::Draw(..)
        | Request::Window(..) => AnswerKind::Artifact,
        Request::One(OneText::Audit(_) | OneText::Explain(_), _)
        | Request::Two(TwoTexts::Check(_) | TwoTexts::Replay | TwoTexts::Explain(_), _, _) => {
            AnswerKind::Report
        }
    }
}

// Returns the kind of the answer to an intent.
fn answer_kind(intent: &Option<Intent<'_>>) -> AnswerKind
    ensures { result ≡ answer_kind (option_and_then job_of intent.now) (option_and_then folders_of intent.now) }
{
    match intent {
        Some(Intent::Job(job)) => answer_of(job),
        Some(Intent::Folders(_)) => AnswerKind::Artifact,
        Some(Intent::Several(_)) | None => AnswerKind::Report,
    }
}

// Returns what is found for the command with this name. Fails if its options clash, or memory runs out.
fn found_for<'a>(
    alloc: Global,
    name: &str,
    matches: &ArgMatches<'a>,
) -> Result<Invocation<'a>, clap::Error>
    ensures ok { IfOk result (IsFoundIn (Some (name.now, rows_of (found_of matches.now)))) }
    ensures err { IfErr result (λ e. IsRefusedFor (clashes (rows_of (found_of matches.now))) (kind_of e)) }
{
    if let Some(clash) = clash_of(matches) {
        return Err(refused_for(alloc, clash)?);
    }
    let intent = intent_of(alloc, name, matches)?;
    let targets = Targets {
        lines: lines_file(&intent),
        output: name_given(OUTPUT, matches),
        answer: answer_kind(&intent),
    };
    Ok(Invocation { intent, targets })
}

/// Nothing is found.
pub(crate) const NOTHING: Invocation<'static> = Invocation {
    intent: None,
    targets: NO_TARGETS,
};

// Returns what is found in the matches. Fails as [`found_for`] does.
fn found_in<'a>(alloc: Global, matches: &ArgMatches<'a>) -> Result<Invocation<'a>, clap::Error>
    ensures ok { IfOk result (IsFoundIn (subcommand_rows_of matches.now)) }
    ensures err { IfErr result (λ e. IsRefusedFor (clash_in (subcommand_rows_of matches.now)) (kind_of e)) }
{
    match matches.subcommand() {
        Some((name, inner)) => found_for(alloc, name, inner),
        None => Ok(NOTHING),
    }
}

/// Returns what is found in words. The first word is the program's own name. The error is clap's: the words are no
/// command, they have options that clash, they ask for the help or the version, or memory ran out.
pub(crate) fn find_in<'a>(
    alloc: Global,
    words: &'a [&'a str],
) -> Result<Invocation<'a>, clap::Error>
    ensures ok { IfOk result (IsFoundIn (subcommand_of postcopy_words (word_texts words.entry.now))) }
    ensures accepted { OnOk result (error_kinds (word_texts words.entry.now) ≡ []) }
    ensures kinds { IfErr result (λ e. (kind_of e ≡ ErrorKind.OutOfMemory) ⊎ IsKindFor (word_texts words.entry.now) (kind_of e)) }
{
    let matches = matches_in(alloc, words)?;
    found_in(alloc, &matches)
}
