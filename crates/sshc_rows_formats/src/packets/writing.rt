//! Packets of an open session that are written.

use super::authenticating::{CERTIFICATE, KEY};
use super::print_packet;
use crate::files::let_go;
use sshc_client_packets::{
    ChannelOpen, ChannelRequest, Confirmation, GlobalRequest, Sender, TerminalSize,
    channel_failure_packet, channel_open_packet, channel_request_packet, channel_success_packet,
    confirmation_packet, global_request_packet, open_failure_packet, request_failure_packet,
    request_success_packet,
};
use sshc_key::{Error, PublicKey, parse_public_key_base64};
use sshc_wire::{ChannelOpenFailure, NoMemory, Octets, Pty, Sig};
use std::alloc::Global;

/// Global requests with their names, and whether a reply is wanted.
const GLOBAL_REQUESTS: [(&str, bool, GlobalRequest<'static>); 6] = [
    (
        "tcpip-forward",
        true,
        GlobalRequest::TcpIpForward {
            address: "localhost",
            port: 8080,
        },
    ),
    (
        "cancel-tcpip-forward",
        false,
        GlobalRequest::CancelTcpIpForward {
            address: "",
            port: 0,
        },
    ),
    (
        "streamlocal-forward",
        true,
        GlobalRequest::StreamLocalForward { socket_path: "/s" },
    ),
    (
        "cancel-streamlocal-forward",
        true,
        GlobalRequest::CancelStreamLocalForward { socket_path: "/s" },
    ),
    ("keepalive", true, GlobalRequest::Keepalive),
    ("no-more-sessions", false, GlobalRequest::NoMoreSessions),
];

/// A request by its name and bytes.
const OWN: GlobalRequest<'static> = GlobalRequest::Own {
    name: "a@b",
    body: b"\x01\x02",
};

const OPENS: [(&str, ChannelOpen<'static>); 4] = [
    ("open-session", ChannelOpen::Session),
    (
        "open-x11",
        ChannelOpen::X11 {
            originator_address: "h",
            originator_port: 6000,
        },
    ),
    (
        "open-direct-tcpip",
        ChannelOpen::DirectTcpIp {
            host_to_connect: "h",
            port_to_connect: 80,
            originator_address: "o",
            originator_port: 1,
        },
    ),
    (
        "open-direct-streamlocal",
        ChannelOpen::DirectStreamLocal { socket_path: "/s" },
    ),
];

const SIZE: TerminalSize = TerminalSize {
    col_width: 80,
    row_height: 24,
    pix_width: 640,
    pix_height: 480,
};

const CHANNEL_REQUESTS: [(&str, ChannelRequest<'static>); 8] = [
    (
        "pty-req",
        ChannelRequest::PtyReq {
            want_reply: true,
            term: "xterm",
            size: SIZE,
            modes: &[(Pty(53), 1), (Pty(0), 9), (Pty(128), 9600)],
        },
    ),
    ("window-change", ChannelRequest::WindowChange { size: SIZE }),
    (
        "x11-req",
        ChannelRequest::X11 {
            want_reply: false,
            single_connection: true,
            protocol: "p",
            cookie: "c",
            screen: 2,
        },
    ),
    (
        "env",
        ChannelRequest::Env {
            want_reply: false,
            name: "A",
            value: "b",
        },
    ),
    ("shell", ChannelRequest::Shell { want_reply: true }),
    (
        "exec",
        ChannelRequest::Exec {
            want_reply: true,
            command: b"ls",
        },
    ),
    (
        "subsystem",
        ChannelRequest::Subsystem {
            want_reply: true,
            name: "sftp",
        },
    ),
    (
        "auth-agent-req",
        ChannelRequest::AgentForward { want_reply: false },
    ),
];

const CONFIRMATION: Confirmation = Confirmation {
    recipient: 7,
    sender: Sender {
        channel: 2,
        window_size: 100,
        max_packet_size: 50,
    },
};

const ANSWERS: [&str; 6] = [
    "request-success",
    "request-failure",
    "confirmation",
    "open-failure",
    "channel-success",
    "channel-failure",
];

/// A key and a certificate.
fn both_keys(alloc: Global) -> Result<Vec<PublicKey>, Error> {
    let mut keys = Vec::new(alloc);
    for base64 in [KEY, CERTIFICATE] {
        keys.push(parse_public_key_base64(alloc, base64)?)?;
    }
    Ok(keys)
}

/// A request to prove that these keys are held.
fn proof_of(alloc: Global, keys: &[PublicKey]) -> Result<Octets, NoMemory> {
    global_request_packet(alloc, true, &GlobalRequest::HostKeysProve { keys })
}

/// A request to prove that a key and a certificate are held.
fn proof_of_both(alloc: Global) -> Result<Octets, Error> {
    let keys = both_keys(alloc)?;
    let packet = proof_of(alloc, &keys);
    let_go(keys);
    Ok(packet?)
}

pub fn print_global_requests(rt: &HostRuntime) -> anyhow::Result<()> {
    for (name, want_reply, request) in GLOBAL_REQUESTS {
        print_packet(
            rt,
            name,
            global_request_packet(rt.alloc(), want_reply, &request)?,
        )?;
    }
    print_packet(rt, "hostkeys-prove", proof_of(rt.alloc(), &[])?)?;
    print_packet(rt, "hostkeys-prove-both", proof_of_both(rt.alloc())?)?;
    print_packet(rt, "own", global_request_packet(rt.alloc(), true, &OWN)?)
}

pub fn print_opens(rt: &HostRuntime) -> anyhow::Result<()> {
    let sender = Sender {
        channel: 1,
        window_size: 2097152,
        max_packet_size: 32768,
    };
    for (name, asked) in OPENS {
        print_packet(rt, name, channel_open_packet(rt.alloc(), &asked, sender)?)?;
    }
    Ok(())
}

pub fn print_channel_requests(rt: &HostRuntime) -> anyhow::Result<()> {
    for (name, request) in CHANNEL_REQUESTS {
        print_packet(rt, name, channel_request_packet(rt.alloc(), 5, &request)?)?;
    }
    let signal = ChannelRequest::Signal { signal: &Sig::TERM };
    print_packet(
        rt,
        "signal",
        channel_request_packet(rt.alloc(), 5, &signal)?,
    )
}

/// An answer to the server, by its name in the table.
fn answer(alloc: Global, name: &str) -> Result<Octets, NoMemory> {
    match name {
        "request-success" => request_success_packet(alloc),
        "request-failure" => request_failure_packet(alloc),
        "confirmation" => confirmation_packet(alloc, CONFIRMATION),
        "open-failure" => open_failure_packet(alloc, 7, ChannelOpenFailure::UnknownChannelType),
        "channel-success" => channel_success_packet(alloc, 7),
        _ => channel_failure_packet(alloc, 7),
    }
}

pub fn print_answers(rt: &HostRuntime) -> anyhow::Result<()> {
    for name in ANSWERS {
        print_packet(rt, name, answer(rt.alloc(), name)?)?;
    }
    Ok(())
}
