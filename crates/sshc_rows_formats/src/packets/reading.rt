//! Packets that are read, each without its number.

use crate::files::let_go;
use sshc_client_packets::{
    PeerGlobal, PeerRequest, forward_port, key_blobs, read_channel, read_channel_open,
    read_channel_request, read_confirmation, read_data, read_extended_data, read_global_request,
    read_nothing, read_open_failure, read_request_head, read_server_open, read_window_adjust,
};
use sshc_key::PublicKey;
use sshc_wire::{ServerOpen, WireError};
use std::alloc::{AllocError, Global};

/// Packets by their numbers. Of 98 and 90 the line begins with the name of the request or the channel instead.
const PACKETS: [(u8, &[u8]); 27] = [
    (
        91,
        b"\x00\x00\x00\x01\x00\x00\x00\x05\x00\x00\x00\x64\x00\x00\x80\x00",
    ),
    (91, b"\x00\x00\x00\x01\x00\x00\x00\x05"),
    (
        92,
        b"\x00\x00\x00\x01\x00\x00\x00\x09\x00\x00\x00\x02no\x00\x00\x00\x02en",
    ),
    (
        92,
        b"\x00\x00\x00\x01\x00\x00\x00\x02\x00\x00\x00\x01\xff\x00\x00\x00\x00",
    ),
    (93, b"\x00\x00\x00\x01\x00\x00\x00\x09"),
    (94, b"\x00\x00\x00\x01\x00\x00\x00\x02ok"),
    (95, b"\x00\x00\x00\x01\x00\x00\x00\x01\x00\x00\x00\x00"),
    (96, b"\x00\x00\x00\x01"),
    (97, b"\x00\x00\x00\x01\x00"),
    (98, b"\x00\x00\x00\x01\x00\x00\x00\x08xon-xoff\x00\x01"),
    (
        98,
        b"\x00\x00\x00\x01\x00\x00\x00\x0bexit-status\x00\x00\x00\x00\x00",
    ),
    (
        98,
        b"\x00\x00\x00\x01\x00\x00\x00\x0bexit-signal\x00\x00\x00\x00\x04TERM\x01\x00\x00\x00\x03bye\x00\x00\x00\x00",
    ),
    (
        98,
        b"\x00\x00\x00\x01\x00\x00\x00\x15keepalive@openssh.com\x01",
    ),
    (98, b"\x00\x00\x00\x01\x00\x00\x00\x03foo\x01more"),
    (98, b"\x00\x00\x00\x01\x00\x00\x00\x0bexit-status\x00\x00"),
    (
        90,
        b"\x00\x00\x00\x03foo\x00\x00\x00\x07\x00\x00\x00\x10\x00\x00\x00\x10",
    ),
    (
        90,
        b"\x00\x00\x00\x16auth-agent@openssh.com\x00\x00\x00\x07\x00\x00\x00\x10\x00\x00\x00\x10",
    ),
    (
        90,
        b"\x00\x00\x00\x0fforwarded-tcpip\x00\x00\x00\x07\x00\x00\x00\x10\x00\x00\x00\x10\x00\x00\x00\x01h\x00\x00\x00\
            \x16\x00\x00\x00\x01o\x00\x00\x00\x01later",
    ),
    (
        90,
        b"\x00\x00\x00\x03x11\x00\x00\x00\x07\x00\x00\x00\x10\x00\x00\x00\x10\x00\x00\x00\x01h",
    ),
    (80, b"\x00\x00\x00\x09keepalive\x01"),
    (80, b"\x00\x00\x00\x03foo\x00more"),
    // The second string is an Ed25519 key followed by a byte; the first isn't a key.
    (
        80,
        b"\x00\x00\x00\x17hostkeys-00@openssh.com\x00\x00\x00\x00\x01x\x00\x00\x00\x34\x00\x00\x00\x0bssh-ed25519\x00\
            \x00\x00\x2001234567890123456789012345678901x",
    ),
    (80, b"\x00\x00\x00\x09keepalive\x01\x00"),
    (81, b""),
    (81, b"\x00\x00\x1f\x90"),
    (81, b"\x00"),
    (82, b"\x00"),
];

fn fault(alloc: Global, number: u8, error: WireError) -> Result<String, AllocError> {
    format!(in alloc; "{number} {error}")
}

fn channel(alloc: Global, number: u8, body: &[u8]) -> Result<String, AllocError> {
    match read_channel(body) {
        Ok(id) => format!(in alloc; "{number} channel {}", id.0),
        Err(error) => fault(alloc, number, error),
    }
}

fn confirmation(alloc: Global, body: &[u8]) -> Result<String, AllocError> {
    match read_confirmation(body) {
        Ok(c) => format!(in alloc;
            "91 {} {} {} {}",
            c.recipient, c.sender.channel, c.sender.window_size, c.sender.max_packet_size
        ),
        Err(error) => fault(alloc, 91, error),
    }
}

fn refusal(alloc: Global, body: &[u8]) -> Result<String, AllocError> {
    match read_open_failure(body) {
        Ok(r) => format!(in alloc;
            "92 {} {} {} {}",
            r.id.0,
            r.reason.code(),
            r.description,
            r.language
        ),
        Err(error) => fault(alloc, 92, error),
    }
}

fn adjustment(alloc: Global, body: &[u8]) -> Result<String, AllocError> {
    match read_window_adjust(body) {
        Ok(a) => format!(in alloc; "93 {} {}", a.id.0, a.bytes_to_add),
        Err(error) => fault(alloc, 93, error),
    }
}

fn data(alloc: Global, body: &[u8]) -> Result<String, AllocError> {
    match read_data(body) {
        Ok(d) => format!(in alloc; "94 {} {} bytes", d.id.0, d.body.len()),
        Err(error) => fault(alloc, 94, error),
    }
}

fn extended_data(alloc: Global, body: &[u8]) -> Result<String, AllocError> {
    match read_extended_data(body) {
        Ok(d) => format!(in alloc; "95 {} {} {} bytes", d.id.0, d.ext, d.body.len()),
        Err(error) => fault(alloc, 95, error),
    }
}

fn known_request(alloc: Global, name: &str, request: &PeerRequest) -> Result<String, AllocError> {
    match request {
        PeerRequest::XonXoff { client_can_do } => {
            format!(in alloc; "{name} xon-xoff {client_can_do}")
        }
        PeerRequest::ExitStatus { exit_status } => {
            format!(in alloc; "{name} status {exit_status}")
        }
        PeerRequest::ExitSignal {
            signal_name,
            core_dumped,
            error_message,
            ..
        } => format!(in alloc;
            "{name} signal {} {core_dumped} {}",
            signal_name.name(),
            error_message.as_str()
        ),
        PeerRequest::Keepalive { want_reply } => format!(in alloc; "{name} keepalive {want_reply}"),
        PeerRequest::Unknown { want_reply } => format!(in alloc; "{name} unknown {want_reply}"),
    }
}

/// A request on a channel, from the recipient's number on.
fn request(alloc: Global, body: &[u8]) -> Result<String, AllocError> {
    match read_request_head(body) {
        Ok(head) => match read_channel_request(alloc, head.name, head.rest) {
            Ok(request) => {
                let line = known_request(alloc, head.name, &request);
                let_go(request);
                line
            }
            Err(error) => format!(in alloc; "{} {error}", head.name),
        },
        Err(error) => fault(alloc, 98, error),
    }
}

fn known_open(alloc: Global, kind: &str, opened: &ServerOpen) -> Result<String, AllocError> {
    match opened {
        ServerOpen::ForwardedTcpIp {
            connected_address,
            connected_port,
            originator_address,
            originator_port,
        } => format!(in alloc;
            "{kind} {} {connected_port} {} {originator_port}",
            connected_address.as_str(),
            originator_address.as_str()
        ),
        ServerOpen::Unknown => format!(in alloc; "{kind} unknown"),
        ServerOpen::AgentForward => format!(in alloc; "{kind} agent"),
        _ => format!(in alloc; "{kind} known"),
    }
}

fn open(alloc: Global, body: &[u8]) -> Result<String, AllocError> {
    match read_channel_open(body) {
        Ok(head) => match read_server_open(alloc, head.kind, head.rest) {
            Ok(opened) => {
                let line = known_open(alloc, head.kind, &opened);
                let_go(opened);
                line
            }
            Err(error) => format!(in alloc; "{} {error}", head.kind),
        },
        Err(error) => fault(alloc, 90, error),
    }
}

/// How many keys are announced.
fn host_keys(alloc: Global, keys: &[PublicKey]) -> anyhow::Result<String> {
    let blobs = key_blobs(alloc, keys)?;
    Ok(format!(in alloc; "80 host keys {}", blobs.as_slice().len())?)
}

fn known_global(alloc: Global, request: &PeerGlobal) -> anyhow::Result<String> {
    match request {
        PeerGlobal::Keepalive { want_reply } => {
            Ok(format!(in alloc; "80 keepalive {want_reply}")?)
        }
        PeerGlobal::HostKeys { keys } => host_keys(alloc, keys.as_slice()),
        PeerGlobal::Unknown { want_reply } => Ok(format!(in alloc; "80 unknown {want_reply}")?),
    }
}

fn global(alloc: Global, body: &[u8]) -> anyhow::Result<String> {
    match read_global_request(alloc, body) {
        Ok(request) => {
            let line = known_global(alloc, &request);
            let_go(request);
            line
        }
        Err(error) => Ok(format!(in alloc; "80 {error}")?),
    }
}

fn port(alloc: Global, body: &[u8]) -> Result<String, AllocError> {
    match forward_port(body) {
        Some(port) => format!(in alloc; "81 port {port}"),
        None => String::from_str(alloc, "81 no port"),
    }
}

fn nothing(alloc: Global, body: &[u8]) -> Result<String, AllocError> {
    match read_nothing(body) {
        Ok(()) => String::from_str(alloc, "82 nothing"),
        Err(error) => fault(alloc, 82, error),
    }
}

/// What is read from a packet: its fields, or why it is refused.
fn line(alloc: Global, number: u8, body: &[u8]) -> Result<String, AllocError> {
    match number {
        81 => port(alloc, body),
        82 => nothing(alloc, body),
        90 => open(alloc, body),
        91 => confirmation(alloc, body),
        92 => refusal(alloc, body),
        93 => adjustment(alloc, body),
        94 => data(alloc, body),
        95 => extended_data(alloc, body),
        98 => request(alloc, body),
        _ => channel(alloc, number, body),
    }
}

pub fn print_packets(rt: &HostRuntime) -> anyhow::Result<()> {
    let alloc = rt.alloc();
    for (number, body) in PACKETS {
        let line = match number {
            80 => global(alloc, body)?,
            _ => line(alloc, number, body)?,
        };
        println!(rt; "{line}")?;
    }
    Ok(())
}
