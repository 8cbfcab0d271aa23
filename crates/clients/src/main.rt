//! Three clients, one after the other: one of a single site, which saves its cookies; a crawler of many
//! hosts under a public suffix list; and one with a reader and a writer of its own.
#![tactic(auto)]

mod client_session;
mod crawler;
mod custom_io;
mod urls;

use cookie_store::Error;

fn main(rt: HostRuntime) -> Result<(), Error> {
    client_session::run(&rt)?;
    crawler::run(&rt)?;
    custom_io::run(&rt)
}
