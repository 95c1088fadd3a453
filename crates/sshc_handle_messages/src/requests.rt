//! Requests that are of no channel as messages.

ghost use Rattle.std.specs.Prelude.{◌≡◌, IfOk};
ghost use Rattle.sshc_handle_messages.specs.Messages.{asked_ticket};
ghost use Rattle.sshc_client.specs.declared.message.Msg.TheVariants as msgs;

use crate::logins::asked;
use sshc_client::Msg;
use sshc_key::PublicKey;
use sshc_wire::{Disconnect, List, NoMemory, Octets, Text, Ticket};
use std::alloc::Global;

/// The server is to listen at an address and a port, 0 for one of its choice (RFC 4254, section 7.1).
pub fn forward(alloc: Global, address: &str, port: u32) -> Result<Msg, NoMemory>
    ensures { IfOk result (λ m. m ≡ msgs.TcpIpForward asked_ticket address.now port) }
{
    Ok(Msg::TcpIpForward {
        ticket: asked(),
        address: Text::from_str(alloc, address)?,
        port,
    })
}

/// The server is to listen there no more (RFC 4254, section 7.1).
pub fn cancel_forward(alloc: Global, address: &str, port: u32) -> Result<Msg, NoMemory>
    ensures { IfOk result (λ m. m ≡ msgs.CancelTcpIpForward asked_ticket address.now port) }
{
    Ok(Msg::CancelTcpIpForward {
        ticket: asked(),
        address: Text::from_str(alloc, address)?,
        port,
    })
}

/// The server is to listen on a Unix socket (OpenSSH's PROTOCOL, section 2.4).
pub fn streamlocal(alloc: Global, path: &str) -> Result<Msg, NoMemory>
    ensures { IfOk result (λ m. m ≡ msgs.StreamLocalForward asked_ticket path.now) }
{
    Ok(Msg::StreamLocalForward {
        ticket: asked(),
        socket_path: Text::from_str(alloc, path)?,
    })
}

/// The server is to listen there no more (OpenSSH's PROTOCOL, section 2.4).
pub fn cancel_streamlocal(alloc: Global, path: &str) -> Result<Msg, NoMemory>
    ensures { IfOk result (λ m. m ≡ msgs.CancelStreamLocalForward asked_ticket path.now) }
{
    Ok(Msg::CancelStreamLocalForward {
        ticket: asked(),
        socket_path: Text::from_str(alloc, path)?,
    })
}

/// The end of the session, with a description and the tag of its language (RFC 4253, section 11.1).
pub fn disconnection(
    alloc: Global,
    reason: Disconnect,
    description: &str,
    language_tag: &str,
) -> Result<Msg, NoMemory>
    ensures { IfOk result (λ m. m ≡ msgs.Disconnect reason description.now language_tag.now) }
{
    Ok(Msg::Disconnect {
        reason,
        description: Text::from_str(alloc, description)?,
        language_tag: Text::from_str(alloc, language_tag)?,
    })
}

/// A global request by its name and the bytes after it (RFC 4254, section 4), with an answer asked for or not.
pub fn global_request(
    alloc: Global,
    name: &str,
    body: &[u8],
    ticket: Option<Ticket>,
) -> Result<Msg, NoMemory>
    ensures { IfOk result (λ m. m ≡ msgs.SendGlobalRequest name.now body.now ticket) }
{
    Ok(Msg::SendGlobalRequest {
        name: Text::from_str(alloc, name)?,
        body: Octets::from_slice(alloc, body)?,
        ticket,
    })
}

/// The server is to prove that it holds these host keys (OpenSSH's PROTOCOL, section 2.5).
pub fn prove_keys(keys: Vec<PublicKey>) -> Result<Msg, NoMemory>
    ensures { IfOk result (λ m. m ≡ msgs.HostKeysProve asked_ticket keys.items) }
{
    Ok(Msg::HostKeysProve {
        ticket: asked(),
        keys: List::from_vec(keys)?,
    })
}
