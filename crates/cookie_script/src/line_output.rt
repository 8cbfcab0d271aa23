//! The output of a line, and how it is written.
ghost use Rattle.std.specs.Prelude.{◌≡◌, ◌++◌, ◌^◌, ◌-◌, ◌<◌, flat_map, map};
ghost use Rattle.cookie_script.specs.LineOutput.{line_output_text, Gathers};
ghost use Rattle.cookie_script.specs.Script.{header_text, line_text, reply_text, row_line, rows_text};
ghost use Rattle.cookie_store.specs.Header.{later_pair, pair_text};
ghost use Rattle.cookie_store.specs.Runs.{Stored};

use cookie_device::{DeviceFailed, Output, Sink};
use cookie_store::{Cookie, InsertResult, IterAny, StoreAction};

/// The output of a line.
#[derive(Drop)]
pub enum LineOutput<'a> {
    /// No output.
    Nothing,
    /// A prefix and a string, as a line.
    Line(&'static str, &'static str),
    /// The `Cookie` header of the cookies, as a line.
    Header(Vec<&'a Cookie<'static>>),
    /// The domain, the path and the name of each row, one line each.
    Rows(IterAny<'a>),
}

impl<'a> LineOutput<'a> {
    /// Returns the line for the result of inserting a cookie.
    pub fn of_insert_result(inserted: InsertResult) -> LineOutput<'a>
        ensures { line_output_text result ≡ line_text (reply_text (Stored inserted)) }
    {
        match inserted {
            Ok(action) => LineOutput::Line("", action_text(action)),
            Err(error) => LineOutput::Line("refused: ", error.text()),
        }
    }

    /// Appends the output to `out`. If a part no longer fits, the buffered bytes are written to
    /// `sink` first.
    pub fn put<W: Sink>(self, out: &mut Output, sink: &mut W) -> Result<(), DeviceFailed>
        requires { (W.state sink.old).failed < 2 ^ 64 - 1 }
        ensures { Gathers result (W.state sink.old) (W.state sink.new) out.old out.new (line_output_text self.entry) }
    {
        match self {
            LineOutput::Nothing => Ok(()),
            LineOutput::Line(mark, text) => put_line(mark, text, out, sink),
            LineOutput::Header(cookies) => put_header(&cookies, out, sink),
            LineOutput::Rows(rows) => put_rows(rows, out, sink),
        }
    }
}

fn action_text(action: StoreAction) -> &'static str
    ensures { result.now ≡ reply_text (Stored (Ok action)) }
{
    match action {
        StoreAction::Inserted => "inserted",
        StoreAction::ExpiredExisting => "expired existing",
        StoreAction::UpdatedExisting => "updated",
    }
}

// Appends `mark` and `text` as a line.
fn put_line<W: Sink>(
    mark: &str,
    text: &str,
    out: &mut Output,
    sink: &mut W,
) -> Result<(), DeviceFailed>
    requires { (W.state sink.old).failed < 2 ^ 64 - 1 }
    ensures { Gathers result (W.state sink.old) (W.state sink.new) out.old out.new (line_text (mark.now ++ text.now)) }
{
    out.put_all(sink, &[mark, text, "\n"])
}

// Appends the `Cookie` header as a line, RFC 6265 4.2.1.
fn put_header<W: Sink>(
    cookies: &[&Cookie<'static>],
    out: &mut Output,
    sink: &mut W,
) -> Result<(), DeviceFailed>
    requires { (W.state sink.old).failed < 2 ^ 64 - 1 }
    ensures { Gathers result (W.state sink.old) (W.state sink.new) out.old out.new (line_text (header_text (map (λ c. c.now) cookies.now))) }
{
    match cookies.split_first() {
        Some((first, others)) => {
            put_pair("Cookie: ", first, out, sink)?;
            put_others(others, out, sink)
        }
        None => put_line("", "Cookie:", out, sink),
    }
}

// Appends the cookies after the first one, and the line feed.
fn put_others<W: Sink>(
    cookies: &[&Cookie<'static>],
    out: &mut Output,
    sink: &mut W,
) -> Result<(), DeviceFailed>
    requires { (W.state sink.old).failed < 2 ^ 64 - 1 }
    ensures { Gathers result (W.state sink.old) (W.state sink.new) out.old out.new (line_text (flat_map (λ c. later_pair c.now) cookies.now)) }
{
    for cookie in cookies {
        put_pair("; ", cookie, out, sink)?;
    }
    put_line("", "", out, sink)
}

// Appends `mark` and the name and value of a cookie.
fn put_pair<W: Sink>(
    mark: &str,
    cookie: &Cookie<'static>,
    out: &mut Output,
    sink: &mut W,
) -> Result<(), DeviceFailed>
    requires { (W.state sink.old).failed < 2 ^ 64 - 1 }
    ensures { Gathers result (W.state sink.old) (W.state sink.new) out.old out.new (mark.now ++ pair_text cookie.now) }
{
    out.put_all(sink, &[mark, cookie.name(), "=", cookie.value()])
}

// Appends a line for each row.
fn put_rows<W: Sink>(rows: IterAny<'_>, out: &mut Output, sink: &mut W) -> Result<(), DeviceFailed>
    requires { (W.state sink.old).failed < 2 ^ 64 - 1 }
    ensures { Gathers result (W.state sink.old) (W.state sink.new) out.old out.new (rows_text rows.entry) }
{
    for row in rows {
        put_row(row, out, sink)?;
    }
    Ok(())
}

// Appends the domain, the path and the name of a row as a line, separated by single spaces.
fn put_row<W: Sink>(
    row: &Cookie<'static>,
    out: &mut Output,
    sink: &mut W,
) -> Result<(), DeviceFailed>
    requires { (W.state sink.old).failed < 2 ^ 64 - 1 }
    ensures { Gathers result (W.state sink.old) (W.state sink.new) out.old out.new (row_line row.now) }
{
    let domain = row.domain.as_str();
    out.put_all(
        sink,
        &[domain, " ", row.path.as_str(), " ", row.name(), "\n"],
    )
}
