//! The command line that the table makes.

ghost use Rattle.std.specs.Prelude.{◌≡◌, IfOk, false, fold};
ghost use Rattle.command_words.specs.Parameters.{file_rule, option_rule, parameter_rule, with_parameter};
ghost use Rattle.command_words.specs.Table.{row_of};
ghost use Rattle.command_words.specs.Words.{choice_rule, command_words, count_rule, line_words, needed, number_rule, program_words};
ghost use Rattle.clap.specs.Words.{app_of, kind_of, new_rule, rule_of};
ghost use Rattle.clap.specs.declared.builder.command.Command.TheViews.{out-Command as fields_of};

use crate::parameters::{Parameter, parameters_of};
use crate::requests::Format;
use crate::table::{CommandRow, FORMAT, LINES, LINK, OUTPUT, Word, commands};
use clap::builder::ValueParser;
use clap::error::ErrorKind;
use clap::{Arg, ArgAction, Command};
use std::alloc::{AllocError, Global};

/// The greatest number for an option.
const MOST_NUMBER: u64 = 4_294_967_295;

/// The greatest number for pages or a page.
const MOST_PAGES: u64 = 9_223_372_036_854_775_807;

const VERSION: &str = "1.1.0";

const ABOUT: &str =
    "Record post-copy migrations, and audit recorded sessions. Without a command, it runs: check - -";

const AFTER_HELP: &str =
    "The file name - means standard input. Two such files share it: the first text ends at its first line 'end'.

Exit status:
  0  success
  1  any other answer
  2  usage error
  3  a file, a link or an output failed
  4  out of memory";

/// The option for the file of a recording's lines.
const LINES_OPTION: Word = Word {
    name: LINES,
    help: "File of the recording's line numbers, one for each line of its window: window writes it, explain reads it",
};

/// The option for the file of the answer.
const OUTPUT_OPTION: Word = Word {
    name: OUTPUT,
    help: "Write the answer to this file instead of standard output. The file gets all of it or stays as it was",
};

/// The option for the carrier of a migration.
const LINK_OPTION: Word = Word {
    name: LINK,
    help: "Transport of the migration's packets",
};

/// The option for the form of the answer.
const FORMAT_OPTION: Word = Word {
    name: FORMAT,
    help: "Format of the answer: lines of text, or a JSON object on one line",
};

/// The parsers of the values of options.
#[derive(Clone, Copy)]
pub struct Choices<'a> {
    /// The parser of carriers.
    pub carriers: ValueParser<'a>,
    /// The parser of forms of an answer.
    pub formats: ValueParser<'a>,
}

// Returns the argument for a word.
fn word_arg<'a>(alloc: Global, word: &Word) -> Arg<'a>
    ensures rule { rule_of result ≡ new_rule word.now.name.now }
    ensures local { result.global ≡ false }
{
    Arg::new(alloc, word.name).help(word.help)
}

// Returns the argument for a required word.
fn required_arg<'a>(alloc: Global, word: &Word) -> Arg<'a>
    ensures rule { rule_of result ≡ needed word.now.name.now }
    ensures local { result.global ≡ false }
{
    word_arg(alloc, word).required(true)
}

// Returns the argument for a required word that gives a number of pages.
fn count_arg<'a>(alloc: Global, word: &Word) -> Arg<'a>
    ensures rule { rule_of result ≡ count_rule word.now.name.now }
    ensures local { result.global ≡ false }
{
    required_arg(alloc, word).value_parser(ValueParser::Unsigned(0, MOST_PAGES))
}

// Returns the argument for an option.
fn option_arg<'a>(alloc: Global, option: &Word) -> Arg<'a>
    ensures rule { rule_of result ≡ option_rule option.now.name.now }
    ensures local { result.global ≡ false }
{
    word_arg(alloc, option).long(option.name)
}

// Returns the argument for an option that has a number as its value.
fn number_arg<'a>(alloc: Global, option: &Word) -> Arg<'a>
    ensures rule { rule_of result ≡ number_rule option.now.name.now }
    ensures local { result.global ≡ false }
{
    option_arg(alloc, option)
        .value_name("NUMBER")
        .value_parser(ValueParser::Unsigned(0, MOST_NUMBER))
}

// Returns the argument for an option that names a file.
fn file_arg<'a>(alloc: Global, option: &Word) -> Arg<'a>
    ensures rule { rule_of result ≡ file_rule option.now.name.now }
    ensures local { result.global ≡ false }
{
    option_arg(alloc, option).value_name("FILE")
}

// Returns the argument for an option whose value this parser accepts, and with this default. `value` is the name of its
// value in the help.
fn choice_arg<'a>(
    alloc: Global,
    option: &Word,
    value: &'static str,
    parser: ValueParser<'a>,
    otherwise: &'static str,
) -> Arg<'a>
    ensures rule { rule_of result ≡ choice_rule option.now.name.now parser.entry otherwise.now }
    ensures local { result.global ≡ false }
{
    option_arg(alloc, option)
        .value_name(value)
        .value_parser(parser)
        .default_value(otherwise)
}

// Returns the argument for a word or an option. `choices` has the parsers of the values of options.
fn arg_of<'a>(alloc: Global, choices: Choices<'a>, parameter: &Parameter) -> Arg<'a>
    ensures rule { rule_of result ≡ parameter_rule choices.entry parameter.now }
    ensures local { result.global ≡ false }
{
    match parameter {
        Parameter::Text(word) => required_arg(alloc, word),
        Parameter::Texts(word) => required_arg(alloc, word).action(ArgAction::Append),
        Parameter::Count(word) => count_arg(alloc, word),
        Parameter::Further(word) => word_arg(alloc, word),
        Parameter::Flag(option) => option_arg(alloc, option).action(ArgAction::SetTrue),
        Parameter::Number(option) => number_arg(alloc, option),
        Parameter::Lines => file_arg(alloc, &LINES_OPTION),
        Parameter::Output => file_arg(alloc, &OUTPUT_OPTION).short('o'),
        Parameter::Link(carrier) => choice_arg(
            alloc,
            &LINK_OPTION,
            "CARRIER",
            choices.carriers,
            carrier.name(),
        ),
        Parameter::Format => choice_arg(
            alloc,
            &FORMAT_OPTION,
            "FORM",
            choices.formats,
            Format::Text.name(),
        ),
    }
}

// Returns the command with one more word or option, if there is one.
fn with_parameter<'a>(
    alloc: Global,
    command: Command<'a>,
    choices: Choices<'a>,
    parameter: &Option<Parameter>,
) -> Result<Command<'a>, AllocError>
    requires { (fields_of command).has_globals ≡ false }
    ensures app { IfOk result (λ c. app_of c ≡ with_parameter choices.entry (app_of command.entry) parameter.now) }
    ensures local { IfOk result (λ c. (fields_of c).has_globals ≡ false) }
{
    match parameter {
        Some(parameter) => command.arg(arg_of(alloc, choices, parameter)),
        None => Ok(command),
    }
}

// Returns the command with these words and options.
fn with_parameters<'a>(
    alloc: Global,
    command: Command<'a>,
    choices: Choices<'a>,
    parameters: &[Option<Parameter>],
) -> Result<Command<'a>, AllocError>
    requires { (fields_of command).has_globals ≡ false }
    ensures app { IfOk result (λ c. app_of c ≡ fold (with_parameter choices.entry) (app_of command.entry) parameters.now) }
    ensures local { IfOk result (λ c. (fields_of c).has_globals ≡ false) }
{
    let mut whole = command;
    for parameter in parameters {
        whole = with_parameter(alloc, whole, choices, parameter)?;
    }
    Ok(whole)
}

// Returns the command of a row. `choices` has the parsers of the values of options.
fn command_of<'a>(
    alloc: Global,
    choices: Choices<'a>,
    row: &CommandRow,
) -> Result<Command<'a>, AllocError>
    ensures app { IfOk result (λ c. app_of c ≡ command_words choices.entry (row_of row.now)) }
    ensures local { IfOk result (λ c. (fields_of c).has_globals ≡ false) }
{
    let command = Command::new(alloc, row.name).about(row.about);
    let command = with_parameters(alloc, command, choices, &parameters_of(&row.takes))?;
    with_parameter(alloc, command, choices, &Some(Parameter::Output))
}

// Returns the program, with no command yet.
fn program<'a>(alloc: Global) -> Command<'a>
    ensures app { app_of result ≡ program_words }
    ensures local { (fields_of result).has_globals ≡ false }
{
    Command::new(alloc, "postcopy")
        .version(VERSION)
        .about(ABOUT)
        .after_help(AFTER_HELP)
        .subcommand_required(true)
}

/// Returns the error for words that have options that clash. `clash` is its message.
pub(crate) fn refused_for(alloc: Global, clash: &str) -> Result<clap::Error, AllocError>
    ensures { IfOk result (λ e. kind_of e ≡ ErrorKind.ArgumentConflict) }
{
    program(alloc).error(ErrorKind::ArgumentConflict, clash)
}

/// Returns the command line of the program. `choices` has the parsers of the values of options.
pub(crate) fn command_line<'a>(
    alloc: Global,
    choices: Choices<'a>,
) -> Result<Command<'a>, AllocError>
    ensures { IfOk result (λ c. app_of c ≡ line_words choices.entry) }
{
    let mut line = program(alloc);
    for row in commands() {
        let command = command_of(alloc, choices, row)?;
        line = line.subcommand(command)?;
    }
    Ok(line)
}
