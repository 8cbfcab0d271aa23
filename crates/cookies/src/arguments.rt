//! Parses the command line.
use crate::command_line::command_line;
use crate::error::{Failure, Usage};
use crate::format::{InputFormat, OutputFormat};
use crate::options::{Command, CookieFile, InputFile, Key, OutputFile, Request, SuffixFile};
use crate::purge::Purge;
use clap::ArgMatches;
use clap::error::ErrorKind;
use cookie_inputs::parse_unambiguous;
use cookie_store::saved::read_moment;
use cookie_store::strict::Context;
use jiff::civil::DateTime;
use std::alloc::{AllocError, Global};
use url::Url;

/// Parses the words of the command line, the program's name first.
pub fn parse<'a>(alloc: Global, words: &'a [String]) -> Result<Request<'a>, Failure<'a>> {
    match command_line(alloc)?.try_get_matches_from(words) {
        Ok(matches) => matched(alloc, &matches),
        Err(error) => unmatched(alloc, &error),
    }
}

// Returns the request of the words.
fn matched<'a>(alloc: Global, matches: &ArgMatches<'a>) -> Result<Request<'a>, Failure<'a>> {
    match matches.subcommand() {
        Some((verb, matches)) => request(alloc, verb, matches),
        None => Err(Failure::from(Usage::Missing("COMMAND"))),
    }
}

// Returns the request of a command's name and arguments.
fn request<'a>(
    alloc: Global,
    verb: &str,
    matches: &ArgMatches<'a>,
) -> Result<Request<'a>, Failure<'a>> {
    let now = time(matches)?;
    let command = command(alloc, verb, matches)?;
    Ok(Request { command, now })
}

fn command<'a>(
    alloc: Global,
    verb: &str,
    matches: &ArgMatches<'a>,
) -> Result<Command<'a>, Failure<'a>> {
    match verb {
        "show" => show(matches),
        "header" => header(alloc, matches),
        "explain" => explain(alloc, matches),
        "set" => set(alloc, matches),
        "remove" => remove(matches),
        "purge" => purge(matches),
        _ => convert(matches),
    }
}

// Returns the help or the version if the words ask for it, else the error.
fn unmatched<'a>(alloc: Global, error: &clap::Error) -> Result<Request<'a>, Failure<'a>> {
    let text = error.to_string(alloc)?;
    match error.kind() {
        ErrorKind::DisplayHelp | ErrorKind::DisplayVersion => Ok(Request {
            command: Command::Print { text },
            now: None,
        }),
        ErrorKind::OutOfMemory => Err(Failure::Memory),
        _ => Err(Failure::Arguments(one_line(alloc, text.as_str())?)),
    }
}

// Returns the first paragraph of an error as one line, without its label.
fn one_line(alloc: Global, text: &str) -> Result<String, AllocError> {
    let text = text.strip_prefix("error: ").unwrap_or(text);
    let mut line = String::new(alloc);
    for part in text.lines().take_while(|part| !part.is_empty()) {
        push_part(&mut line, part.trim_start())?;
    }
    Ok(line)
}

// Appends a part of a line, after a space unless it is the first.
fn push_part(line: &mut String, part: &str) -> Result<(), AllocError> {
    if !line.is_empty() {
        line.push(' ')?;
    }
    line.push_str(part)
}

fn show<'a>(matches: &ArgMatches<'a>) -> Result<Command<'a>, Failure<'a>> {
    Ok(Command::Show {
        file: input_file(matches, "FILE", "format", "--format")?,
        is_json: matches.get_flag("json"),
    })
}

fn header<'a>(alloc: Global, matches: &ArgMatches<'a>) -> Result<Command<'a>, Failure<'a>> {
    let url = url(alloc, matches)?;
    let (file, suffixes) = input_and_suffixes(matches)?;
    Ok(Command::Header {
        url,
        file,
        suffixes,
        context: context(matches, matches.get_flag("cross-site")),
    })
}

fn explain<'a>(alloc: Global, matches: &ArgMatches<'a>) -> Result<Command<'a>, Failure<'a>> {
    match matches.get_str("set-cookie") {
        Some(value) => explain_value(alloc, matches, value),
        None => explain_file(alloc, matches),
    }
}

fn explain_value<'a>(
    alloc: Global,
    matches: &ArgMatches<'a>,
    value: &'a str,
) -> Result<Command<'a>, Failure<'a>> {
    let url = url(alloc, matches)?;
    let suffixes = suffixes(matches)?;
    Ok(Command::ExplainValue {
        url,
        value,
        suffixes,
        context: context(matches, matches.get_flag("cross-site")),
    })
}

fn explain_file<'a>(alloc: Global, matches: &ArgMatches<'a>) -> Result<Command<'a>, Failure<'a>> {
    let url = url(alloc, matches)?;
    let (file, suffixes) = input_and_suffixes(matches)?;
    Ok(Command::Explain {
        url,
        file,
        suffixes,
        context: context(matches, matches.get_flag("cross-site")),
    })
}

fn set<'a>(alloc: Global, matches: &ArgMatches<'a>) -> Result<Command<'a>, Failure<'a>> {
    let value = word(matches, "SET-COOKIE")?;
    let url = url(alloc, matches)?;
    let (file, suffixes) = output_and_suffixes(matches)?;
    Ok(Command::Set {
        url,
        value,
        file,
        suffixes,
        context: context(matches, false),
    })
}

fn remove<'a>(matches: &ArgMatches<'a>) -> Result<Command<'a>, Failure<'a>> {
    Ok(Command::Remove {
        file: output_file(matches, "FILE", "format", "--format")?,
        key: key(matches)?,
    })
}

fn purge<'a>(matches: &ArgMatches<'a>) -> Result<Command<'a>, Failure<'a>> {
    Ok(Command::Purge {
        file: output_file(matches, "FILE", "format", "--format")?,
        purge: Purge::of_options(
            matches.get_flag("expired"),
            matches.get_flag("session"),
            matches.get_str("domain"),
        ),
    })
}

fn convert<'a>(matches: &ArgMatches<'a>) -> Result<Command<'a>, Failure<'a>> {
    Ok(Command::Convert {
        input: input_file(matches, "IN", "from", "--from")?,
        output: output_file(matches, "OUT", "to", "--to")?,
        skips_unrepresentable: matches.get_flag("skip-unrepresentable"),
    })
}

fn key<'a>(matches: &ArgMatches<'a>) -> Result<Key<'a>, Usage<'a>> {
    Ok(Key {
        domain: word(matches, "DOMAIN")?,
        path: word(matches, "PATH")?,
        name: word(matches, "NAME")?,
    })
}

// Returns an argument that `clap` requires.
fn word<'a>(matches: &ArgMatches<'a>, id: &'static str) -> Result<&'a str, Usage<'a>> {
    matches.get_str(id).ok_or(Usage::Missing(id))
}

// Returns the file of the cookies, which is only read, and the file of a public suffix list.
fn input_and_suffixes<'a>(
    matches: &ArgMatches<'a>,
) -> Result<(InputFile<'a>, Option<SuffixFile<'a>>), Usage<'a>> {
    let file = input_file(matches, "FILE", "format", "--format")?;
    Ok((file, suffixes(matches)?))
}

// Returns the file of the cookies, which is written, and the file of a public suffix list.
fn output_and_suffixes<'a>(
    matches: &ArgMatches<'a>,
) -> Result<(OutputFile<'a>, Option<SuffixFile<'a>>), Usage<'a>> {
    let file = output_file(matches, "FILE", "format", "--format")?;
    Ok((file, suffixes(matches)?))
}

// Returns the file of an argument that is written, in the format of an option or of the file's
// suffix.
fn output_file<'a>(
    matches: &ArgMatches<'a>,
    id: &'static str,
    option_id: &str,
    option: &'static str,
) -> Result<OutputFile<'a>, Usage<'a>> {
    let name = word(matches, id)?;
    let format = match matches.get_str(option_id) {
        Some(format) => OutputFormat::of_name(format),
        None => OutputFormat::of_file_name(name),
    };
    match format {
        Some(OutputFormat::File(format)) => Ok(OutputFile::File(CookieFile { name, format })),
        Some(OutputFormat::Sqlite) if name == "-" => Err(Usage::SqliteStream),
        Some(OutputFormat::Sqlite) => Ok(OutputFile::Sqlite(name)),
        None => Err(Usage::UnknownFormat(name, option)),
    }
}

// Returns the file of an argument that is only read, in the format of an option or of the file's
// suffix.
fn input_file<'a>(
    matches: &ArgMatches<'a>,
    id: &'static str,
    option_id: &str,
    option: &'static str,
) -> Result<InputFile<'a>, Usage<'a>> {
    let name = word(matches, id)?;
    let format = match matches.get_str(option_id) {
        Some(format) => InputFormat::of_name(format),
        None => InputFormat::of_file_name(name),
    };
    match format {
        Some(InputFormat::Output(OutputFormat::Sqlite) | InputFormat::Firefox) if name == "-" => {
            Err(Usage::SqliteStream)
        }
        Some(format) => Ok(InputFile {
            name,
            format,
            skips_malformed: matches.get_flag("skip-malformed"),
        }),
        None => Err(Usage::UnknownFormat(name, option)),
    }
}

// Returns the file of a public suffix list, if there is one. Standard input can't be both this and
// the file of the cookies.
fn suffixes<'a>(matches: &ArgMatches<'a>) -> Result<Option<SuffixFile<'a>>, Usage<'a>> {
    match matches.get_str("suffixes") {
        Some("-") if matches.get_str("FILE") == Some("-") => Err(Usage::InputTwice),
        Some(name) => Ok(Some(SuffixFile {
            name,
            only_listed: matches.get_flag("only-listed"),
        })),
        None => Ok(None),
    }
}

// Returns where a request comes from, if the rules of browsers hold.
fn context(matches: &ArgMatches<'_>, is_cross_site: bool) -> Option<Context> {
    if !matches.get_flag("strict") {
        return None;
    }
    Some(Context {
        is_same_site: !is_cross_site,
        is_top_level: false,
        is_safe: true,
        is_lax_by_default: true,
    })
}

fn url<'a>(alloc: Global, matches: &ArgMatches<'a>) -> Result<Url, Failure<'a>> {
    let text = word(matches, "URL")?;
    match parse_unambiguous(alloc, text)? {
        Some(url) => Ok(url),
        None => Err(Failure::from(Usage::BadUrl(text))),
    }
}

fn time<'a>(matches: &ArgMatches<'a>) -> Result<Option<DateTime>, Failure<'a>> {
    let Some(text) = matches.get_str("now") else {
        return Ok(None);
    };
    match read_moment(text) {
        Some(moment) => Ok(Some(moment)),
        None => Err(Failure::from(Usage::BadTime(text))),
    }
}
