//! Global requests.

ghost use Rattle.sshc_client_table.specs.Grown.{Grown};

use super::nothing;
use crate::steps::gave::Gave;
use crate::steps::words::Words;
use sshc_client::{Error, Session};

/// Forwards of ports and sockets, and their ends.
#[tactic(auto, using(sshc_client_table::specs::GrownLaws::grown_same))]
fn forward(session: &mut Session, name: &str, words: &mut Words<'_>) -> Result<Gave, Error>
    ensures { Grown session.old session.new }
{
    let (ticket, place) = (words.ticket(), words.text());
    match name {
        "tcpip_forward" => nothing(session.tcpip_forward(ticket, place, words.number())),
        "cancel_tcpip_forward" => {
            nothing(session.cancel_tcpip_forward(ticket, place, words.number()))
        }
        "streamlocal_forward" => nothing(session.streamlocal_forward(ticket, place)),
        "cancel_streamlocal_forward" => nothing(session.cancel_streamlocal_forward(ticket, place)),
        _ => Ok(Gave::NoSuchMethod),
    }
}

/// Calls a method for a global request.
pub(super) fn call(session: &mut Session, name: &str, words: &mut Words<'_>) -> Result<Gave, Error>
    ensures { Grown session.old session.new }
{
    match name {
        "send_ping" => nothing(session.send_ping(words.ticket())),
        "send_keepalive" => nothing(session.send_keepalive(words.flag())),
        "no_more_sessions" => nothing(session.no_more_sessions(words.flag())),
        "send_global_request" => {
            let (ticket, name, body) = (words.ticket(), words.text(), words.text());
            nothing(session.send_global_request(ticket, name, body.as_bytes()))
        }
        _ => forward(session, name, words),
    }
}
