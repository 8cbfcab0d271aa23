//! Calls of a store and their replies, as values, and how a store executes them.
ghost use Rattle.std.specs.Prelude.{◌≡◌, ◌≢◌, map, Err, IfErr, IfOk, OnErr, OnOk};
ghost use Rattle.cookie_parts.specs.declared.cookie_error.CookieError.TheVariants.{Memory};
ghost use Rattle.cookie_core.specs.CallViews.{call_view, reply_view, MayAllocate, StopsAfter, StopsAt};
ghost use Rattle.cookie_laws.specs.Runs.{replies, step, store_after, Stored};

use crate::{CookieStore, InsertResult};
use cookie_parts::{Cookie, CookieError};
use itoa::Buffer;
use jiff::civil::DateTime;
use std::alloc::AllocError;
use std::fmt;
use url::Url;

/// A call of a store, for [`CookieStore::apply`](crate::CookieStore::apply).
#[derive(Debug, Drop)]
pub enum Call {
    /// Parses a `Set-Cookie` header value and inserts the cookie, as
    /// [`CookieStore::parse`](crate::CookieStore::parse) does.
    Set {
        /// The header value.
        text: String,
        /// The URL from which it was received.
        url: Url,
        /// The time at which it was received, in UTC.
        now: DateTime,
    },
    /// Inserts a cookie, as [`CookieStore::insert`](crate::CookieStore::insert) does.
    Insert {
        /// The cookie.
        cookie: Cookie<'static>,
        /// The URL from which it was received.
        url: Url,
        /// The time at which it was received, in UTC.
        now: DateTime,
    },
    /// Removes the cookie with this domain, path and name, expired or not.
    Remove {
        /// The cookie's domain.
        domain: String,
        /// Its path.
        path: String,
        /// Its name.
        name: String,
    },
    /// Removes all cookies.
    Clear,
}

/// The reply to a [`Call`].
#[derive(Debug, Drop)]
pub enum Reply {
    /// The result of a `Set` or an `Insert`, never `Memory`.
    Stored(InsertResult),
    /// The cookie that a `Remove` removed, if there was one.
    Removed(Option<Cookie<'static>>),
    /// The reply to a `Clear`.
    Cleared,
}

/// The error of [`CookieStore::apply_all`](crate::CookieStore::apply_all): out of memory.
#[derive(Debug, Drop)]
pub struct Stopped {
    /// The replies to the calls that were executed.
    pub replies: Vec<Reply>,
    /// The number of calls that were executed.
    pub count: usize,
}

impl fmt::Display for Stopped {
    ghost use Rattle.std.specs.Prelude.{Some};
    ghost use Rattle.cookie_core.specs.CallViews.{stopped_text};

    ghost output = { λ stopped. Some (stopped_text stopped) };

    ghost styled_output = { λ stopped _. Some (stopped_text stopped) };

    #[tactic(auto, using(crate::proofs::StyledTexts::styled_three))]
    fn fmt<W: fmt::Write>(&self, f: &mut fmt::Formatter<W>) -> fmt::Result {
        f.write_str("out of memory after ")?;
        f.write_str(Buffer::new().format(self.count))?;
        f.write_str(" calls")
    }
}

impl std::error::Error for Stopped {}

impl CookieStore {
    /// Executes a call and returns its reply.
    ///
    /// `Set` is [`parse`](Self::parse), `Insert` is [`insert`](Self::insert), `Remove` is
    /// [`remove`](Self::remove), and `Clear` is [`clear`](Self::clear). A cookie that is rejected
    /// is a reply, not an error.
    ///
    /// # Errors
    ///
    /// `AllocError`: out of memory, and the store is unchanged. `Remove` and `Clear` allocate
    /// nothing, `Set` fails only if `parse` can return `Memory`, and `Insert` only if the cookie
    /// would be inserted.
    pub fn apply(&mut self, call: Call) -> Result<Reply, AllocError>
        ensures reply { IfOk result (λ reply.
            reply_view reply ≡ (step (call_view call) self.old).reply) }
        ensures never_memory { IfOk result (λ reply. reply_view reply ≢ Stored (Err Memory)) }
        ensures store { OnOk result (self.new ≡ (step (call_view call) self.old).store) }
        ensures unchanged { OnErr result (self.new ≡ self.old) }
        ensures memory { OnErr result
            (MayAllocate (call_view call) (step (call_view call) self.old).reply) }
    {
        match call {
            Call::Set { text, url, now } => reply_or_memory(self.parse(text.as_str(), &url, now)),
            Call::Insert { cookie, url, now } => reply_or_memory(self.insert(cookie, &url, now)),
            Call::Remove { domain, path, name } => Ok(Reply::Removed(self.remove(
                domain.as_str(),
                path.as_str(),
                name.as_str(),
            ))),
            Call::Clear => {
                self.clear();
                Ok(Reply::Cleared)
            }
        }
    }

    /// Executes the calls in order and returns their replies.
    ///
    /// # Errors
    ///
    /// [`Stopped`]: out of memory. The calls before the one that failed remain in effect; `Stopped`
    /// has their number and replies.
    pub fn apply_all(&mut self, calls: Vec<Call>) -> Result<Vec<Reply>, Stopped>
        ensures replies { IfOk result (λ reported.
            map reply_view reported.items ≡ replies (map call_view calls.items) self.old) }
        ensures store { OnOk result (self.new ≡ store_after (map call_view calls.items) self.old) }
        ensures stopped { IfErr result (λ stopped. StopsAfter stopped (map call_view calls.items) self.old self.new) }
        ensures stopping_point { IfErr result (λ stopped. StopsAt stopped.count (map call_view calls.items) self.new) }
    {
        // Room for all replies first, so that no reply is lost once its call was executed.
        let Ok(mut reported) = Vec::with_capacity(self.allocator(), calls.len()) else {
            return Err(Stopped {
                replies: Vec::new(self.allocator()),
                count: 0,
            });
        };
        for call in calls {
            match self.apply(call) {
                Ok(reply) => reported.push(reply).unwrap(),
                Err(AllocError) => {
                    let count = reported.len();
                    return Err(Stopped {
                        replies: reported,
                        count,
                    });
                }
            }
        }
        Ok(reported)
    }
}

// Returns the reply for the result of an insertion, or `AllocError` if it is `Memory`.
fn reply_or_memory(reported: InsertResult) -> Result<Reply, AllocError>
    ensures reply { IfOk result (λ reply. (reply_view reply ≡ Stored reported) × (reported ≢ Err Memory)) }
    ensures memory { OnErr result (reported ≡ Err Memory) }
{
    match reported {
        Err(CookieError::Memory) => Err(AllocError),
        reported => Ok(Reply::Stored(reported)),
    }
}
