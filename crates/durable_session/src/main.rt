//! A session whose cookies survive crashes, in the SQLite file that the argument names.
//!
//! A line of standard input is a call: `set URL VALUE`, where `VALUE` is a `Set-Cookie` header value
//! received from the URL, `remove DOMAIN PATH NAME`, `purge`, which removes expired cookies, or
//! `clear`. The calls between the lines `begin` and `commit`, of which none is `purge`, are a batch:
//! they are committed together. What became of a call is printed once its change is committed. At the
//! end the file is closed and opened again, and its cookies are printed.
#![tactic(auto)]

ghost use Rattle.cookie_durable.specs.Durable.{IsInStep};

use cookie_core::{Call, CookieStore, Reply};
use cookie_durable::DurableStore;
use cookie_parts::StoreAction;
use jiff::civil::{DateTime, date};
use sqlite_disk::Unknown;
use sqlite_trees::store::Store;
use std::alloc::Global;
use std::env;
use std::test::Fail;
use url::Url;

/// Executes the calls of standard input, closes the file, and opens it again to print its cookies.
/// Session cookies are kept, since most logins are.
fn run(rt: &HostRuntime, path: &str, now: DateTime) -> Result<(), Fail> {
    let mut session = DurableStore::open_path(rt, path, true, Unknown)?;
    let executed = execute_lines(rt, &mut session, now);
    let (file, copied) = session.close();
    drop(file);
    executed?;
    copied?;
    let session = DurableStore::open_path(rt, path, true, Unknown)?;
    print_session(rt, session, now)
}

/// Executes the calls of standard input.
fn execute_lines<S: Store>(
    rt: &HostRuntime,
    session: &mut DurableStore<S>,
    now: DateTime,
) -> Result<(), Fail>
    requires { IsInStep session.old (S.Store.view session.old.file) }
    ensures { IsInStep session.new (S.Store.view session.new.file) }
{
    let mut batch = None;
    for line in rt.lines(rt.alloc()) {
        let line = line?;
        execute_line(rt, session, &mut batch, line.as_str(), now)?;
    }
    match batch {
        Some(_) => Err(Fail::new("begin without commit")),
        None => Ok(()),
    }
}

/// Executes the call of a line, and prints what became of it. After `begin` it adds the call to a
/// batch, which `commit` executes.
fn execute_line<S: Store>(
    rt: &HostRuntime,
    session: &mut DurableStore<S>,
    batch: &mut Option<Vec<Call>>,
    line: &str,
    now: DateTime,
) -> Result<(), Fail>
    requires { IsInStep session.old (S.Store.view session.old.file) }
    ensures { IsInStep session.new (S.Store.view session.new.file) }
{
    match line {
        "begin" if batch.is_none() => *batch = Some(Vec::new(rt.alloc())),
        "commit" => {
            let calls = batch.take().ok_or("commit without begin")?;
            execute_batch(rt, session, calls)?;
        }
        _ => match batch {
            Some(calls) => calls.push(call_of(rt.alloc(), line, now)?)?,
            None => {
                let outcome = execute(session, rt.alloc(), line, now)?;
                println!(rt; "{outcome}")?;
            }
        },
    }
    Ok(())
}

/// Executes the calls of a batch, commits their changes together, and prints what became of each.
fn execute_batch<S: Store>(
    rt: &HostRuntime,
    session: &mut DurableStore<S>,
    calls: Vec<Call>,
) -> Result<(), Fail>
    requires { IsInStep session.old (S.Store.view session.old.file) }
    ensures { IsInStep session.new (S.Store.view session.new.file) }
{
    let (replies, executed) = session.apply_all(rt.alloc(), calls);
    if !session.is_failed() {
        print_replies(rt, replies.as_slice())?;
    }
    executed?;
    Ok(())
}

/// Prints what became of calls, a line for each.
fn print_replies(rt: &HostRuntime, replies: &[Reply]) -> Result<(), Fail> {
    for reply in replies {
        println!(rt; "{}", text_of(reply))?;
    }
    Ok(())
}

/// Executes the call of a line and commits the change. Returns what became of it.
fn execute<S: Store>(
    session: &mut DurableStore<S>,
    alloc: Global,
    line: &str,
    now: DateTime,
) -> Result<&'static str, Fail>
    requires { IsInStep session.old (S.Store.view session.old.file) }
    ensures { IsInStep session.new (S.Store.view session.new.file) }
{
    if line == "purge" {
        session.remove_expired(alloc, now)?;
        return Ok("purged");
    }
    let call = call_of(alloc, line, now)?;
    let reply = session.apply(alloc, call)?;
    Ok(text_of(&reply))
}

/// Parses a call other than `purge`.
fn call_of(alloc: Global, line: &str, now: DateTime) -> Result<Call, Fail> {
    let (verb, rest) = line.split_once(' ').unwrap_or((line, ""));
    match verb {
        "set" => set_call(alloc, rest, now),
        "remove" => remove_call(alloc, rest),
        "clear" => Ok(Call::Clear),
        _ => Err(Fail::new("no such call")),
    }
}

/// The URL, a space, and the rest of the line as the header value.
fn set_call(alloc: Global, rest: &str, now: DateTime) -> Result<Call, Fail> {
    let (url, text) = rest.split_once(' ').ok_or("a URL without a header value")?;
    let url = Url::parse(alloc, url)?;
    let text = String::from_str(alloc, text)?;
    Ok(Call::Set { text, url, now })
}

/// The domain and the path, each followed by a space, and the name.
fn remove_call(alloc: Global, rest: &str) -> Result<Call, Fail> {
    let (domain, rest) = rest.split_once(' ').ok_or("a domain without a path")?;
    let (path, name) = rest.split_once(' ').ok_or("a path without a name")?;
    let domain = String::from_str(alloc, domain)?;
    let path = String::from_str(alloc, path)?;
    let name = String::from_str(alloc, name)?;
    Ok(Call::Remove { domain, path, name })
}

/// Returns what became of a call.
fn text_of(reply: &Reply) -> &'static str {
    match reply {
        Reply::Stored(Ok(StoreAction::Inserted)) => "inserted",
        Reply::Stored(Ok(StoreAction::UpdatedExisting)) => "replaced",
        Reply::Stored(Ok(StoreAction::ExpiredExisting)) => "expired",
        Reply::Stored(Err(error)) => error.text(),
        Reply::Removed(Some(_)) => "removed",
        Reply::Removed(None) => "none",
        Reply::Cleared => "cleared",
    }
}

/// Prints the cookies of an open file.
fn print_session<S: Store + Drop>(
    rt: &HostRuntime,
    session: DurableStore<S>,
    now: DateTime,
) -> Result<(), Fail> {
    print_store(rt, session.store(), now)
}

/// Prints the cookies, expired ones too.
fn print_store(rt: &HostRuntime, store: &CookieStore, now: DateTime) -> Result<(), Fail> {
    for cookie in store.iter_any() {
        let (domain, path) = (cookie.domain.as_str(), cookie.path.as_str());
        let (name, value) = (cookie.name(), cookie.value());
        let note = if cookie.is_expired(now) {
            ", expired"
        } else {
            ""
        };
        println!(rt; "{domain} {path} {name}={value}{note}")?;
    }
    Ok(())
}

fn main(rt: HostRuntime) -> Result<(), Fail> {
    let words: Vec<String> = env::args(&rt)?.collect(rt.alloc())?;
    let path = words.get(1).ok_or("no file is named")?;
    let now = date(2026, 1, 1).at(0, 0, 0, 0);
    run(&rt, path.as_str(), now)
}
