//! The formats of files of cookies.
ghost use Rattle.std.specs.Prelude.{◌≡◌};
ghost use Rattle.cookies.specs.FileFormats.{format_of_name, input_format_of_file_name, input_format_of_name, is_cookies_txt, output_format_of_file_name, output_format_of_name};

use cookie_store::serde::Format;
use std::path::Path;

/// The format of a file that is read and written whole.
#[derive(Clone, Copy, Debug, PartialEq, Eq)]
pub enum FileFormat {
    /// A format of the library.
    Saved(Format),
    /// A JSON object a line.
    JsonLines,
}

/// The format of a file that is written.
#[derive(Clone, Copy, Debug, PartialEq, Eq)]
pub enum OutputFormat {
    /// A file that is written whole.
    File(FileFormat),
    /// A SQLite file with a row for each cookie.
    Sqlite,
}

/// The names of these formats, as `--format` takes them.
pub const FORMAT_NAMES: [&str; 5] = ["json", "jsonl", "ron", "sqlite", "txt"];

/// A format that is only read: what another program exports, in JSON.
#[derive(Clone, Copy, Debug, PartialEq, Eq)]
pub enum Export {
    /// The list of an extension of a browser, such as Cookie-Editor.
    Browser,
    /// A storage state of Playwright.
    Playwright,
}

/// The format of a file that is read.
#[derive(Clone, Copy, Debug, PartialEq, Eq)]
pub enum InputFormat {
    /// A format that is written too.
    Output(OutputFormat),
    /// A format that is only read.
    Export(Export),
    /// A copy of Firefox's file, which is only read.
    Firefox,
}

/// The names of the formats that are read.
pub const INPUT_FORMAT_NAMES: [&str; 8] = [
    "json",
    "jsonl",
    "ron",
    "sqlite",
    "txt",
    "browser",
    "firefox",
    "playwright",
];

impl FileFormat {
    /// Returns the format with this name.
    pub fn of_name(name: &str) -> Option<FileFormat>
        ensures { result ≡ format_of_name name.now }
    {
        match name {
            "json" => Some(FileFormat::Saved(Format::Json)),
            "jsonl" => Some(FileFormat::JsonLines),
            "ron" => Some(FileFormat::Saved(Format::Ron)),
            "txt" => Some(FileFormat::Saved(Format::Netscape)),
            _ => None,
        }
    }

    /// Returns whether this is the format of a `cookies.txt`.
    pub fn is_cookies_txt(self) -> bool
        ensures { result ≡ is_cookies_txt self }
    {
        matches!(self, FileFormat::Saved(Format::Netscape))
    }
}

impl OutputFormat {
    /// Returns the format with this name.
    #[tactic(auto, unfolding(crate::specs::FileFormats::output_format_of_name))]
    pub fn of_name(name: &str) -> Option<OutputFormat>
        ensures { result ≡ output_format_of_name name.now }
    {
        if name == "sqlite" {
            Some(OutputFormat::Sqlite)
        } else {
            Some(OutputFormat::File(FileFormat::of_name(name)?))
        }
    }

    /// Returns the format that the suffix of a file name stands for: what follows its last dot.
    pub fn of_file_name(file_name: &str) -> Option<OutputFormat>
        ensures { result ≡ output_format_of_file_name file_name.now }
    {
        match Path::new(file_name).extension() {
            Some(suffix) => OutputFormat::of_name(suffix),
            None => None,
        }
    }
}

impl InputFormat {
    /// Returns the format with this name.
    #[tactic(auto, unfolding(crate::specs::FileFormats::input_format_of_name))]
    pub fn of_name(name: &str) -> Option<InputFormat>
        ensures { result ≡ input_format_of_name name.now }
    {
        if name == "browser" {
            Some(InputFormat::Export(Export::Browser))
        } else if name == "playwright" {
            Some(InputFormat::Export(Export::Playwright))
        } else if name == "firefox" {
            Some(InputFormat::Firefox)
        } else {
            Some(InputFormat::Output(OutputFormat::of_name(name)?))
        }
    }

    /// Returns the format that the suffix of a file name stands for, which is one that is written too.
    pub fn of_file_name(file_name: &str) -> Option<InputFormat>
        ensures { result ≡ input_format_of_file_name file_name.now }
    {
        Some(InputFormat::Output(OutputFormat::of_file_name(file_name)?))
    }
}
