//! The other requests on a channel.

ghost use Rattle.sshc_client_table.specs.Grown.{Grown};

use super::{forwards, nothing};
use crate::steps::gave::Gave;
use crate::steps::words::Words;
use sshc_client::{Error, Session};
use sshc_wire::Sig;
use std::alloc::Global;

#[tactic(auto, using(sshc_client_table::specs::GrownLaws::grown_same))]
fn signal(alloc: Global, session: &mut Session, words: &mut Words<'_>) -> Result<Gave, Error>
    ensures { Grown session.old session.new }
{
    let id = words.id();
    let signal = Sig::from_name(alloc, words.text())?;
    nothing(session.signal(id, &signal))
}

/// The terminal's new size: columns, rows, and the same in pixels.
fn window_change(session: &mut Session, words: &mut Words<'_>) -> Result<Gave, Error>
    ensures { Grown session.old session.new }
{
    let (id, columns, rows) = (words.id(), words.number(), words.number());
    let (width, height) = (words.number(), words.number());
    nothing(session.window_change(id, columns, rows, width, height))
}

/// Calls a method for a request; another method is looked up among those for global requests.
pub(super) fn call(
    alloc: Global,
    session: &mut Session,
    name: &str,
    words: &mut Words<'_>,
) -> Result<Gave, Error>
    ensures { Grown session.old session.new }
{
    match name {
        "set_env" => {
            let (id, want_reply) = (words.id(), words.flag());
            let (name, value) = (words.text(), words.text());
            nothing(session.set_env(id, want_reply, name, value))
        }
        "exec" => {
            let (id, want_reply, command) = (words.id(), words.flag(), words.text());
            nothing(session.exec(id, want_reply, command.as_bytes()))
        }
        "signal" => signal(alloc, session, words),
        "window_change" => window_change(session, words),
        "agent_forward" => {
            let (id, want_reply) = (words.id(), words.flag());
            nothing(session.agent_forward(id, want_reply))
        }
        _ => forwards::call(session, name, words),
    }
}
