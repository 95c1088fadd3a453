//! The methods of a session, called by the name and the arguments in a line.

ghost use Rattle.sshc_client_table.specs.Grown.{Grown};

mod bytes;
mod forwards;
mod opens;
mod requests;
mod terminal;

use super::gave::Gave;
use super::words::Words;
use sshc_client::{Error, Session};
use std::alloc::Global;

/// The result of a method that returns nothing.
fn nothing(answer: Result<(), Error>) -> Result<Gave, Error> {
    match answer {
        Ok(()) => Ok(Gave::Nothing),
        Err(e) => Err(e),
    }
}

/// Calls the method that a line names, with the line's other words as arguments.
pub fn call_method(alloc: Global, session: &mut Session, line: &str) -> Result<Gave, Error>
    ensures { Grown session.old session.new }
{
    let mut words = Words::new(line);
    let name = words.text();
    if name.starts_with("channel_open_") {
        opens::call(session, name, &mut words)
    } else if name.starts_with("request_") {
        terminal::call(alloc, session, name, &mut words)
    } else {
        bytes::call(alloc, session, name, &mut words)
    }
}
