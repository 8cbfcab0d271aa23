//! Files after an edit. Of a `cookies.txt`, only the lines of the edited cookies change.
ghost use Rattle.std.specs.Prelude.{◌≡◌, [], IfOk, string_bytes};
ghost use Rattle.std.specs.Option.{option_copied};
ghost use Rattle.cookie_store.specs.NetscapeLists.{file_text};
ghost use Rattle.cookies.specs.EditedFiles.{AfterRemoval, AfterSet, has_row, new_row};

use crate::error::FileError;
use crate::format::FileFormat;
use crate::storage::written_cookies;
use cookie_store::edit::{put_line, retain_lines};
use cookie_store::netscape::new_text;
use cookie_store::{Cookie, CookieStore};
use std::alloc::{AllocError, Global};

/// Returns the contents of a file after cookies were removed, of which `store` has the others.
pub fn after_removal(
    format: FileFormat,
    contents: &[u8],
    store: &CookieStore,
) -> Result<Vec<u8>, FileError>
    ensures { IfOk result (λ new. AfterRemoval format contents.now store.now.rows new.items) }
{
    if !format.is_cookies_txt() {
        return written_cookies(format, store);
    }
    let edited = retain_lines(store.allocator(), text_of(contents)?, store)?;
    Ok(edited.into_bytes())
}

/// Returns the contents of a file after `cookie` was set, which `store` has beside the other cookies.
pub fn after_set(
    format: FileFormat,
    contents: &[u8],
    store: &CookieStore,
    cookie: &Cookie<'_>,
) -> Result<Vec<u8>, FileError>
    ensures { IfOk result (λ new. AfterSet format contents.now store.now.rows cookie.now new.items) }
{
    if !format.is_cookies_txt() {
        return written_cookies(format, store);
    }
    let alloc = store.allocator();
    if contents.is_empty() {
        let edited = put_line(alloc, new_file(alloc)?.as_str(), cookie)?;
        return Ok(edited.into_bytes());
    }
    let edited = put_line(alloc, text_of(contents)?, cookie)?;
    Ok(edited.into_bytes())
}

/// Returns the first cookie of `after` that `before` does not have so, if there is one.
pub fn set_cookie<'s>(before: &CookieStore, after: &'s CookieStore) -> Option<&'s Cookie<'static>>
    ensures { option_copied result ≡ new_row before.now.rows after.now.rows }
{
    for cookie in after.iter_any() {
        if !has(before, cookie) {
            return Some(cookie);
        }
    }
    None
}

// Whether the store has this cookie.
fn has(store: &CookieStore, cookie: &Cookie<'static>) -> bool
    ensures { result ≡ has_row store.now.rows cookie.now }
{
    match store.get_any(cookie.domain.as_str(), cookie.path.as_str(), cookie.name()) {
        Some(stored) => stored == cookie,
        None => false,
    }
}

// A file without cookies: its first line.
fn new_file(alloc: Global) -> Result<String, AllocError>
    ensures { IfOk result (λ text. string_bytes text ≡ file_text []) }
{
    let mut text = new_text(alloc)?;
    text.push('\n')?;
    Ok(text)
}

fn text_of(contents: &[u8]) -> Result<&str, FileError>
    ensures { IfOk result (λ text. text.now ≡ contents.now) }
{
    match str::from_utf8(contents) {
        Ok(text) => Ok(text),
        Err(_) => Err(FileError::NotUtf8),
    }
}
