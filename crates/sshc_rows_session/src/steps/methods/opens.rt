//! Channels of ours.

ghost use Rattle.sshc_client_table.specs.Grown.{Grown};

use crate::steps::gave::Gave;
use crate::steps::words::Words;
use sshc_client::{Error, Session};
use sshc_wire::ChannelId;

/// The number of a channel that was opened.
fn opened(answer: Result<ChannelId, Error>) -> Result<Gave, Error> {
    match answer {
        Ok(id) => Ok(Gave::Number(u64::from(id.0))),
        Err(e) => Err(e),
    }
}

/// Opens a channel.
#[tactic(auto, using(sshc_client_table::specs::GrownLaws::grown_same))]
pub(super) fn call(session: &mut Session, name: &str, words: &mut Words<'_>) -> Result<Gave, Error>
    ensures { Grown session.old session.new }
{
    match name {
        "channel_open_session" => opened(session.channel_open_session()),
        "channel_open_x11" => {
            let (address, port) = (words.text(), words.number());
            opened(session.channel_open_x11(address, port))
        }
        "channel_open_direct_tcpip" => {
            let (host, port) = (words.text(), words.number());
            let (from, from_port) = (words.text(), words.number());
            opened(session.channel_open_direct_tcpip(host, port, from, from_port))
        }
        "channel_open_direct_streamlocal" => {
            opened(session.channel_open_direct_streamlocal(words.text()))
        }
        _ => Ok(Gave::NoSuchMethod),
    }
}
