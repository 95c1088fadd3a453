//! Bytes and ends on a channel, exchanges, the end of a session, and a session's queries.

ghost use Rattle.sshc_client_table.specs.Grown.{Grown};

use super::{nothing, requests};
use crate::steps::gave::Gave;
use crate::steps::words::Words;
use sshc_client::{Error, Session};
use sshc_wire::Disconnect;
use std::alloc::Global;

/// Disconnects: the reason's number, a description and a language.
fn disconnect(session: &mut Session, words: &mut Words<'_>) -> Result<Gave, Error>
    ensures { Grown session.old session.new }
{
    let reason = Disconnect::from_u32(words.number()).unwrap_or(Disconnect::Reserved);
    let (description, language) = (words.text(), words.text());
    nothing(session.disconnect(reason, description, language))
}

/// The result of a query of a session; `None` if no query has this name.
fn told(session: &Session, name: &str, words: &mut Words<'_>) -> Option<Gave> {
    match name {
        "awaits_answer" => Some(Gave::Flag(session.awaits_answer())),
        "wants_user_events" => Some(Gave::Flag(session.wants_user_events())),
        "has_pending_data" => Some(Gave::Flag(session.has_pending_data(words.id()))),
        "reply_queue" => Some(Gave::Number(session.reply_queue().len() as u64)),
        "reply_room" => Some(Gave::Number(session.reply_queue().capacity() as u64)),
        "sender_window_size" => Some(Gave::Number(session.sender_window_size(words.id()) as u64)),
        _ => None,
    }
}

/// Calls a query, or else a method for requests.
#[tactic(auto, using(sshc_client_table::specs::GrownLaws::grown_same))]
fn ask(
    alloc: Global,
    session: &mut Session,
    name: &str,
    words: &mut Words<'_>,
) -> Result<Gave, Error>
    ensures { Grown session.old session.new }
{
    match told(session, name, words) {
        Some(gave) => Ok(gave),
        None => requests::call(alloc, session, name, words),
    }
}

/// Calls a method for bytes or ends; another method is looked up among the queries and requests.
pub(super) fn call(
    alloc: Global,
    session: &mut Session,
    name: &str,
    words: &mut Words<'_>,
) -> Result<Gave, Error>
    ensures { Grown session.old session.new }
{
    match name {
        "data" => {
            let (id, body) = (words.id(), words.text());
            nothing(session.data(id, body.as_bytes()))
        }
        "extended_data" => {
            let (id, ext, body) = (words.id(), words.number(), words.text());
            nothing(session.extended_data(id, ext, body.as_bytes()))
        }
        "eof" => nothing(session.eof(words.id())),
        "close" => nothing(session.close(words.id())),
        "initiate_rekey" => nothing(session.initiate_rekey()),
        "disconnect" => disconnect(session, words),
        _ => ask(alloc, session, name, words),
    }
}
