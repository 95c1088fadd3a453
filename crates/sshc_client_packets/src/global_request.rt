//! Requests to the server as a whole, and replies to its own (RFC 4254, sections 4 and 7.1).

ghost use Rattle.std.specs.Prelude.{◌≡◌, ◌++◌, IfOk, OnOk};
ghost use Rattle.std.specs.List.{flat_map};
ghost use Rattle.sshc_client_packets.specs.GlobalRequests.{blob_text, global_fields, global_name, global_request};
ghost use Rattle.sshc_client_packets.specs.GlobalRequests.{global_request_text};
ghost use Rattle.sshc_client_packets.specs.Messages.{request_failure_text, request_success_text};

use crate::putting::{address_size, put_address, put_words};
use sshc_key::{PublicKey, put_key};
use sshc_wire::{NoMemory, Octets, begin_string, end_string, msg, put_bool, string_size};
use std::alloc::Global;

/// What is asked of the server as a whole.
#[derive(Clone, Copy)]
pub enum GlobalRequest<'a> {
    /// Listen on a port; port 0 lets the server choose one (RFC 4254, section 7.1).
    TcpIpForward { address: &'a str, port: u32 },
    CancelTcpIpForward { address: &'a str, port: u32 },
    /// Listen on a socket (OpenSSH's PROTOCOL, section 2.4).
    StreamLocalForward { socket_path: &'a str },
    CancelStreamLocalForward { socket_path: &'a str },
    /// A keepalive: any reply will do.
    Keepalive,
    /// No session will be opened any more (OpenSSH's PROTOCOL, section 2.2).
    NoMoreSessions,
    /// Prove that these host keys are held (OpenSSH's PROTOCOL, section 2.5).
    HostKeysProve { keys: &'a [PublicKey] },
    /// A request by its name and the bytes after the flag.
    Own { name: &'a str, body: &'a [u8] },
}

impl<'a> GlobalRequest<'a> {
    /// The request's name.
    pub fn name(&self) -> &'a str
        ensures { result.now ≡ global_name (global_request self.now) }
    {
        match self {
            GlobalRequest::TcpIpForward { .. } => "tcpip-forward",
            GlobalRequest::CancelTcpIpForward { .. } => "cancel-tcpip-forward",
            GlobalRequest::StreamLocalForward { .. } => "streamlocal-forward@openssh.com",
            GlobalRequest::CancelStreamLocalForward { .. } =>
                "cancel-streamlocal-forward@openssh.com",
            GlobalRequest::Keepalive => "keepalive@openssh.com",
            GlobalRequest::NoMoreSessions => "no-more-sessions@openssh.com",
            GlobalRequest::HostKeysProve { .. } => "hostkeys-prove-00@openssh.com",
            GlobalRequest::Own { name, .. } => name,
        }
    }

    /// How many bytes the fields take.
    fn size(&self) -> usize {
        match self {
            GlobalRequest::TcpIpForward { address, .. } => address_size(address),
            GlobalRequest::CancelTcpIpForward { address, .. } => address_size(address),
            GlobalRequest::StreamLocalForward { socket_path } => string_size(socket_path.len()),
            GlobalRequest::CancelStreamLocalForward { socket_path } => string_size(
                socket_path.len(),
            ),
            GlobalRequest::Keepalive => 0,
            GlobalRequest::NoMoreSessions => 0,
            GlobalRequest::HostKeysProve { keys } => blobs_size(keys),
            GlobalRequest::Own { body, .. } => body.len(),
        }
    }
}

/// How many bytes a request takes before its fields, without its name: its number, a length and the flag.
const REQUEST: usize = 6;

/// How many bytes the keys' blobs take as strings.
fn blobs_size(keys: &[PublicKey]) -> usize {
    let mut size = 0usize;
    for key in keys {
        size = size.saturating_add(string_size(key.key.size()));
    }
    size
}

/// A string of the key's blob.
#[tactic(auto, using(sshc_wire::specs::NestedLaws::string_ended))]
pub(crate) fn put_blob(out: &mut Vec<u8>, key: &PublicKey) -> Result<(), NoMemory>
    ensures { OnOk result (out.new.items ≡ out.old.items ++ blob_text key.now) }
{
    let at = begin_string(out)?;
    put_key(out, &key.key)?;
    end_string(out, at)
}

#[tactic(auto, using(std::proofs::lemmas::List::append_assoc))]
fn put_blobs(out: &mut Vec<u8>, keys: &[PublicKey]) -> Result<(), NoMemory>
    ensures { OnOk result (out.new.items ≡ out.old.items ++ flat_map blob_text keys.now) }
{
    for key in keys {
        put_blob(out, key)?;
    }
    Ok(())
}

fn put_fields(out: &mut Vec<u8>, request: &GlobalRequest<'_>) -> Result<(), NoMemory>
    ensures { OnOk result (out.new.items ≡ out.old.items ++ global_fields (global_request request.now)) }
{
    match request {
        GlobalRequest::TcpIpForward { address, port } => put_address(out, address, *port),
        GlobalRequest::CancelTcpIpForward { address, port } => put_address(out, address, *port),
        GlobalRequest::StreamLocalForward { socket_path } => put_words(out, socket_path),
        GlobalRequest::CancelStreamLocalForward { socket_path } => put_words(out, socket_path),
        GlobalRequest::Keepalive => Ok(()),
        GlobalRequest::NoMoreSessions => Ok(()),
        GlobalRequest::HostKeysProve { keys } => put_blobs(out, keys),
        GlobalRequest::Own { body, .. } => {
            out.extend_from_slice(body)?;
            Ok(())
        }
    }
}

/// GLOBAL_REQUEST (RFC 4254, section 4).
#[tactic(auto, using(crate::proofs::Hints::joined), unfolding(crate::specs::GlobalRequests::global_request_text))]
pub fn global_request_packet(
    alloc: Global,
    want_reply: bool,
    request: &GlobalRequest<'_>,
) -> Result<Octets, NoMemory>
    ensures { IfOk result (λ packet. packet ≡ global_request_text want_reply (global_request request.now)) }
{
    let size = request.name().len().saturating_add(request.size());
    let mut packet = Vec::with_capacity(alloc, size.saturating_add(REQUEST))?;
    packet.push(msg::GLOBAL_REQUEST)?;
    put_words(&mut packet, request.name())?;
    put_bool(&mut packet, want_reply)?;
    put_fields(&mut packet, request)?;
    Octets::from_vec(packet)
}

/// REQUEST_SUCCESS with no fields (RFC 4254, section 4).
pub fn request_success_packet(alloc: Global) -> Result<Octets, NoMemory>
    ensures { IfOk result (λ packet. packet ≡ request_success_text) }
{
    let mut packet = Vec::with_capacity(alloc, 1)?;
    packet.push(msg::REQUEST_SUCCESS)?;
    Octets::from_vec(packet)
}

/// REQUEST_FAILURE (RFC 4254, section 4).
pub fn request_failure_packet(alloc: Global) -> Result<Octets, NoMemory>
    ensures { IfOk result (λ packet. packet ≡ request_failure_text) }
{
    let mut packet = Vec::with_capacity(alloc, 1)?;
    packet.push(msg::REQUEST_FAILURE)?;
    Octets::from_vec(packet)
}
