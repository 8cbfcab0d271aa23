//! The commands and their arguments, as `clap` parses them.
use crate::format::{FORMAT_NAMES, INPUT_FORMAT_NAMES};
use clap::builder::ValueParser;
use clap::{Arg, ArgAction, Command};
use std::alloc::{AllocError, Global};

/// The name of the program.
const NAME: &str = "cookies";

/// The version of the program.
const VERSION: &str = "0.1.0";

/// What the help says after the commands.
const AFTER_HELP: &str = "\
A file has the format of its suffix: .json, .jsonl, .ron, .sqlite or .txt. What
extensions of browsers and Playwright export is read by --format browser and
--format playwright, a copy of Firefox's cookies.sqlite by --format firefox. The
name - is standard input or standard output.";

/// An argument: its name, what its value is called, and its help.
enum Argument {
    /// A word at its place, which is required.
    Word(&'static str, &'static str),
    /// A word that is required without the option in the middle.
    WordUnless(&'static str, &'static str, &'static str),
    /// An option without a value.
    Flag(&'static str, &'static str),
    /// An option without a value, which requires the option in the middle.
    FlagWith(&'static str, &'static str, &'static str),
    /// An option with a value.
    Value(&'static str, &'static str, &'static str),
    /// An option with a value, which excludes these arguments.
    ValueWithout(&'static str, &'static str, &'static [&'static str], &'static str),
    /// An option with the format of a file that is written.
    Format(&'static str, &'static str),
    /// An option with the format of a file that is read.
    InputFormat(&'static str, &'static str),
}

const FILE: Argument = Argument::Word("FILE", "The file of the cookies");

const REQUEST_URL: Argument = Argument::Word("URL", "The URL of the request");

const CROSS_SITE: Argument = Argument::FlagWith(
    "cross-site",
    "strict",
    "The request comes from another site",
);

const ONLY_LISTED: Argument = Argument::FlagWith(
    "only-listed",
    "suffixes",
    "Does not add the rule * to LIST",
);

const STRICT: Argument = Argument::Flag("strict", "Follows the rules of browsers");

const SKIP_MALFORMED: Argument = Argument::Flag(
    "skip-malformed",
    "Leaves out malformed lines of a cookies.txt and items of an export",
);

const FORMAT: Argument = Argument::Format("format", "The format of FILE");

const INPUT_FORMAT: Argument = Argument::InputFormat("format", "The format of FILE");

const NOW: Argument = Argument::Value(
    "now",
    "TIME",
    "The time, as 2026-01-31T23:59:59Z, instead of that of the clock",
);

/// The commands: the name of each, what it does, and its arguments.
static COMMANDS: [(&str, &str, &[Argument]); 7] = [
    (
        "show",
        "Prints a table of the cookies",
        &[
            FILE,
            Argument::Flag("json", "Prints a JSON list instead"),
            SKIP_MALFORMED,
            INPUT_FORMAT,
            NOW,
        ],
    ),
    (
        "header",
        "Prints the value of the Cookie header of a request",
        &[
            REQUEST_URL,
            FILE,
            Argument::Value(
                "suffixes",
                "LIST",
                "Leaves out domain cookies of the public suffixes of LIST",
            ),
            ONLY_LISTED,
            STRICT,
            CROSS_SITE,
            SKIP_MALFORMED,
            INPUT_FORMAT,
            NOW,
        ],
    ),
    (
        "explain",
        "Prints why a request has a cookie or not, or a value is stored or not",
        &[
            REQUEST_URL,
            Argument::WordUnless("FILE", "set-cookie", "The file of the cookies"),
            Argument::ValueWithout(
                "set-cookie",
                "VALUE",
                &["FILE", "format", "skip-malformed"],
                "Explains a Set-Cookie header value received from URL instead",
            ),
            Argument::Value("suffixes", "LIST", "Follows the public suffixes of LIST"),
            ONLY_LISTED,
            STRICT,
            CROSS_SITE,
            SKIP_MALFORMED,
            INPUT_FORMAT,
            NOW,
        ],
    ),
    (
        "set",
        "Inserts the cookie of a Set-Cookie header value",
        &[
            Argument::Word("URL", "The URL that the value was received from"),
            Argument::Word("SET-COOKIE", "The value of the Set-Cookie header"),
            Argument::Word("FILE", "The file of the cookies, which need not exist"),
            Argument::Value(
                "suffixes",
                "LIST",
                "Rejects domain cookies for the public suffixes of LIST",
            ),
            ONLY_LISTED,
            STRICT,
            FORMAT,
            NOW,
        ],
    ),
    (
        "remove",
        "Removes one cookie",
        &[
            FILE,
            Argument::Word("DOMAIN", "The domain of the cookie"),
            Argument::Word("PATH", "The path of the cookie"),
            Argument::Word("NAME", "The name of the cookie"),
            FORMAT,
            NOW,
        ],
    ),
    (
        "purge",
        "Removes expired cookies, session cookies, or those of a domain",
        &[
            FILE,
            Argument::Flag("expired", "Removes expired cookies; the default"),
            Argument::Flag("session", "Removes session cookies"),
            Argument::Value(
                "domain",
                "D",
                "Removes the cookies of the domain D, not of its subdomains",
            ),
            FORMAT,
            NOW,
        ],
    ),
    (
        "convert",
        "Reads the cookies of a file, and writes them to another",
        &[
            Argument::Word("IN", "The file to read"),
            Argument::Word("OUT", "The file to write"),
            SKIP_MALFORMED,
            Argument::Flag(
                "skip-unrepresentable",
                "Leaves out cookies that a cookies.txt cannot represent",
            ),
            Argument::InputFormat("from", "The format of IN"),
            Argument::Format("to", "The format of OUT"),
            NOW,
        ],
    ),
];

/// Returns the command line of the program.
pub fn command_line<'a>(alloc: Global) -> Result<Command<'a>, AllocError> {
    let mut program = program(alloc)?;
    for (name, about, arguments) in &COMMANDS {
        program = program.subcommand(command(alloc, name, about, arguments)?)?;
    }
    Ok(program)
}

// Returns the program without its commands.
fn program<'a>(alloc: Global) -> Result<Command<'a>, AllocError> {
    let program = Command::new(alloc, NAME)
        .version(VERSION)
        .about("Shows, edits and converts files of cookies")
        .after_help(AFTER_HELP)
        .subcommand_required(true);
    program.bin_name(NAME)
}

// Returns the command with these arguments.
fn command<'a>(
    alloc: Global,
    name: &'a str,
    about: &'a str,
    arguments: &[Argument],
) -> Result<Command<'a>, AllocError> {
    let mut command = Command::new(alloc, name).about(about);
    for argument in arguments {
        command = command.arg(parsed(alloc, argument)?)?;
    }
    Ok(command)
}

// Returns how `clap` parses an argument.
fn parsed<'a>(alloc: Global, argument: &Argument) -> Result<Arg<'a>, AllocError> {
    match *argument {
        Argument::Word(id, help) => Ok(word(alloc, id, help).required(true)),
        Argument::WordUnless(id, other, help) => word(alloc, id, help).required_unless_present(
            other,
        ),
        Argument::Flag(id, help) => Ok(flag(alloc, id, help)),
        Argument::FlagWith(id, other, help) => flag(alloc, id, help).requires_arg(other),
        Argument::Value(id, value, help) => Ok(option(alloc, id, value, help)),
        Argument::ValueWithout(id, value, others, help) => {
            excluding(option(alloc, id, value, help), others)
        }
        Argument::Format(id, help) => {
            Ok(option(alloc, id, "F", help).value_parser(ValueParser::Names(&FORMAT_NAMES)))
        }
        Argument::InputFormat(id, help) => {
            Ok(option(alloc, id, "F", help).value_parser(ValueParser::Names(&INPUT_FORMAT_NAMES)))
        }
    }
}

fn word<'a>(alloc: Global, id: &'a str, help: &'a str) -> Arg<'a> {
    Arg::new(alloc, id).help(help)
}

fn flag<'a>(alloc: Global, id: &'a str, help: &'a str) -> Arg<'a> {
    Arg::new(alloc, id)
        .long(id)
        .action(ArgAction::SetTrue)
        .help(help)
}

fn option<'a>(alloc: Global, id: &'a str, value_name: &'a str, help: &'a str) -> Arg<'a> {
    Arg::new(alloc, id)
        .long(id)
        .value_name(value_name)
        .help(help)
}

// Returns an argument that excludes others.
fn excluding<'a>(argument: Arg<'a>, others: &[&'static str]) -> Result<Arg<'a>, AllocError> {
    let mut argument = argument;
    for other in others {
        argument = argument.conflicts_with(other)?;
    }
    Ok(argument)
}
