//! Requests on a channel, and replies to the server's own (RFC 4254, sections 5.4 and 6).

ghost use Rattle.std.specs.Prelude.{◌≡◌, ◌++◌, IfOk, OnOk};
ghost use Rattle.std.specs.List.{flat_map};
ghost use Rattle.sshc_wire.specs.Wire.{bool_text, string_text, u32_text};
ghost use Rattle.sshc_client_packets.specs.ChannelRequests.{channel_request, channel_request_text, entry_text};
ghost use Rattle.sshc_client_packets.specs.ChannelRequests.{modes_text, request_fields, request_name, size_text};
ghost use Rattle.sshc_client_packets.specs.ChannelRequests.{wants_reply};
ghost use Rattle.sshc_client_packets.specs.Messages.{channel_failure_text, channel_success_text};

use crate::putting::{ADDRESSED, put_addressed, put_words};
use sshc_wire::{
    NoMemory, Octets, Pty, Sig, begin_string, end_string, msg, put_bool, put_string, put_u32,
    string_size,
};
use std::alloc::Global;

/// A terminal's size: columns and rows, and the same in pixels.
#[derive(Clone, Copy, PartialEq, Eq)]
pub struct TerminalSize {
    pub col_width: u32,
    pub row_height: u32,
    pub pix_width: u32,
    pub pix_height: u32,
}

/// What is asked on a channel.
#[derive(Clone, Copy)]
pub enum ChannelRequest<'a> {
    /// A terminal (RFC 4254, section 6.2). A mode of number 0 isn't written, since 0 ends the modes.
    PtyReq {
        want_reply: bool,
        term: &'a str,
        size: TerminalSize,
        modes: &'a [(Pty, u32)],
    },
    /// The terminal's new size (RFC 4254, section 6.7), which never gets a reply.
    WindowChange {
        size: TerminalSize,
    },
    /// X11 forwarding (RFC 4254, section 6.3.1).
    X11 {
        want_reply: bool,
        single_connection: bool,
        protocol: &'a str,
        cookie: &'a str,
        screen: u32,
    },
    /// A variable of the environment (RFC 4254, section 6.4).
    Env {
        want_reply: bool,
        name: &'a str,
        value: &'a str,
    },
    /// The user's shell (RFC 4254, section 6.5).
    Shell {
        want_reply: bool,
    },
    /// A command (RFC 4254, section 6.5).
    Exec {
        want_reply: bool,
        command: &'a [u8],
    },
    /// A signal for the remote process (RFC 4254, section 6.9), which never gets a reply.
    Signal {
        signal: &'a Sig,
    },
    /// A subsystem by its name (RFC 4254, section 6.5).
    Subsystem {
        want_reply: bool,
        name: &'a str,
    },
    /// Agent forwarding (OpenSSH's PROTOCOL.agent).
    AgentForward {
        want_reply: bool,
    },
}

impl<'a> ChannelRequest<'a> {
    /// The request's name.
    pub fn name(&self) -> &'static str
        ensures { result.now ≡ request_name (channel_request self.now) }
    {
        match self {
            ChannelRequest::PtyReq { .. } => "pty-req",
            ChannelRequest::WindowChange { .. } => "window-change",
            ChannelRequest::X11 { .. } => "x11-req",
            ChannelRequest::Env { .. } => "env",
            ChannelRequest::Shell { .. } => "shell",
            ChannelRequest::Exec { .. } => "exec",
            ChannelRequest::Signal { .. } => "signal",
            ChannelRequest::Subsystem { .. } => "subsystem",
            ChannelRequest::AgentForward { .. } => "auth-agent-req@openssh.com",
        }
    }

    /// Whether a reply of the server is wanted.
    pub fn wants_reply(&self) -> bool
        ensures { result ≡ wants_reply (channel_request self.now) }
    {
        match self {
            ChannelRequest::PtyReq { want_reply, .. } => *want_reply,
            ChannelRequest::WindowChange { .. } => false,
            ChannelRequest::X11 { want_reply, .. } => *want_reply,
            ChannelRequest::Env { want_reply, .. } => *want_reply,
            ChannelRequest::Shell { want_reply } => *want_reply,
            ChannelRequest::Exec { want_reply, .. } => *want_reply,
            ChannelRequest::Signal { .. } => false,
            ChannelRequest::Subsystem { want_reply, .. } => *want_reply,
            ChannelRequest::AgentForward { want_reply } => *want_reply,
        }
    }

    /// How many bytes the fields take.
    fn size(&self) -> usize {
        match self {
            ChannelRequest::PtyReq { term, modes, .. } => pty_size(term, modes),
            ChannelRequest::WindowChange { .. } => TERMINAL_SIZE,
            ChannelRequest::X11 {
                protocol,
                cookie,
                ..
            } => both_sizes(protocol, cookie).saturating_add(X11),
            ChannelRequest::Env { name, value, .. } => both_sizes(name, value),
            ChannelRequest::Shell { .. } => 0,
            ChannelRequest::Exec { command, .. } => string_size(command.len()),
            ChannelRequest::Signal { signal } => string_size(signal.name().len()),
            ChannelRequest::Subsystem { name, .. } => string_size(name.len()),
            ChannelRequest::AgentForward { .. } => 0,
        }
    }
}

/// How many bytes a request takes before its fields, without its name: its head, a length and the flag.
const REQUEST: usize = 10;

/// How many bytes a terminal's size takes.
const TERMINAL_SIZE: usize = 16;

/// How many bytes X11 forwarding takes beside its two strings: the flag and the screen.
const X11: usize = 5;

/// How many bytes a mode takes: its number and its value.
const MODE: usize = 5;

fn both_sizes(one: &str, other: &str) -> usize {
    string_size(one.len()).saturating_add(string_size(other.len()))
}

/// How many bytes the modes and their end take, without those of number 0.
fn modes_size(modes: &[(Pty, u32)]) -> usize {
    let mut size = 1usize;
    for entry in modes {
        if entry.0.0 != 0 {
            size = size.saturating_add(MODE);
        }
    }
    size
}

fn pty_size(term: &str, modes: &[(Pty, u32)]) -> usize {
    let text = string_size(modes_size(modes)).saturating_add(TERMINAL_SIZE);
    string_size(term.len()).saturating_add(text)
}

#[tactic(auto, using(std::proofs::lemmas::List::append_assoc))]
fn put_size(out: &mut Vec<u8>, size: TerminalSize) -> Result<(), NoMemory>
    ensures { OnOk result (out.new.items ≡ out.old.items ++ size_text size) }
{
    put_u32(out, size.col_width)?;
    put_u32(out, size.row_height)?;
    put_u32(out, size.pix_width)?;
    put_u32(out, size.pix_height)
}

/// A mode, unless its number ends the modes.
#[tactic(auto, using(std::proofs::lemmas::List::append_assoc))]
fn put_entry(out: &mut Vec<u8>, entry: &(Pty, u32)) -> Result<(), NoMemory>
    ensures { OnOk result (out.new.items ≡ out.old.items ++ entry_text entry.now) }
{
    let (mode, value) = *entry;
    if mode.0 == 0 {
        return Ok(());
    }
    out.push(mode.0)?;
    put_u32(out, value)
}

/// The modes except those of number 0, and their end (RFC 4254, section 8).
#[tactic(auto, using(std::proofs::lemmas::List::append_assoc))]
fn put_each_mode(out: &mut Vec<u8>, modes: &[(Pty, u32)]) -> Result<(), NoMemory>
    ensures { OnOk result (out.new.items ≡ out.old.items ++ modes_text modes.now) }
{
    for entry in modes {
        put_entry(out, entry)?;
    }
    out.push(Pty::TTY_OP_END.0)?;
    Ok(())
}

/// A string of the modes and their end.
#[tactic(auto, using(sshc_wire::specs::NestedLaws::string_ended))]
fn put_modes(out: &mut Vec<u8>, modes: &[(Pty, u32)]) -> Result<(), NoMemory>
    ensures { OnOk result (out.new.items ≡ out.old.items ++ string_text (modes_text modes.now)) }
{
    let at = begin_string(out)?;
    put_each_mode(out, modes)?;
    end_string(out, at)
}

#[tactic(auto, using(std::proofs::lemmas::List::append_assoc))]
fn put_pty(
    out: &mut Vec<u8>,
    term: &str,
    size: TerminalSize,
    modes: &[(Pty, u32)],
) -> Result<(), NoMemory>
    ensures { OnOk result
        (out.new.items
        ≡ out.old.items ++ string_text term.now ++ size_text size ++ string_text (modes_text modes.now)) }
{
    put_words(out, term)?;
    put_size(out, size)?;
    put_modes(out, modes)
}

#[tactic(auto, using(std::proofs::lemmas::List::append_assoc))]
fn put_x11(
    out: &mut Vec<u8>,
    single_connection: bool,
    protocol: &str,
    cookie: &str,
    screen: u32,
) -> Result<(), NoMemory>
    ensures { OnOk result
        (out.new.items
        ≡ out.old.items ++ bool_text single_connection ++ string_text protocol.now ++ string_text cookie.now
        ++ u32_text screen) }
{
    put_bool(out, single_connection)?;
    put_words(out, protocol)?;
    put_words(out, cookie)?;
    put_u32(out, screen)
}

#[tactic(auto, using(std::proofs::lemmas::List::append_assoc))]
fn put_variable(out: &mut Vec<u8>, name: &str, value: &str) -> Result<(), NoMemory>
    ensures { OnOk result (out.new.items ≡ out.old.items ++ string_text name.now ++ string_text value.now) }
{
    put_words(out, name)?;
    put_words(out, value)
}

fn put_fields(out: &mut Vec<u8>, request: &ChannelRequest<'_>) -> Result<(), NoMemory>
    ensures { OnOk result (out.new.items ≡ out.old.items ++ request_fields (channel_request request.now)) }
{
    match request {
        ChannelRequest::PtyReq {
            term,
            size,
            modes,
            ..
        } => put_pty(out, term, *size, modes),
        ChannelRequest::WindowChange { size } => put_size(out, *size),
        ChannelRequest::X11 {
            single_connection,
            protocol,
            cookie,
            screen,
            ..
        } => put_x11(out, *single_connection, protocol, cookie, *screen),
        ChannelRequest::Env { name, value, .. } => put_variable(out, name, value),
        ChannelRequest::Shell { .. } => Ok(()),
        ChannelRequest::Exec { command, .. } => put_string(out, command),
        ChannelRequest::Signal { signal } => put_words(out, signal.name()),
        ChannelRequest::Subsystem { name, .. } => put_words(out, name),
        ChannelRequest::AgentForward { .. } => Ok(()),
    }
}

/// CHANNEL_REQUEST (RFC 4254, section 5.4).
#[tactic(auto, using(crate::proofs::Hints::joined), unfolding(crate::specs::ChannelRequests::channel_request_text))]
pub fn channel_request_packet(
    alloc: Global,
    recipient: u32,
    request: &ChannelRequest<'_>,
) -> Result<Octets, NoMemory>
    ensures { IfOk result (λ packet. packet ≡ channel_request_text recipient (channel_request request.now)) }
{
    let size = request.name().len().saturating_add(request.size());
    let mut packet = Vec::with_capacity(alloc, size.saturating_add(REQUEST))?;
    put_addressed(&mut packet, msg::CHANNEL_REQUEST, recipient)?;
    put_words(&mut packet, request.name())?;
    put_bool(&mut packet, request.wants_reply())?;
    put_fields(&mut packet, request)?;
    Octets::from_vec(packet)
}

/// CHANNEL_SUCCESS (RFC 4254, section 5.4).
pub fn channel_success_packet(alloc: Global, recipient: u32) -> Result<Octets, NoMemory>
    ensures { IfOk result (λ packet. packet ≡ channel_success_text recipient) }
{
    let mut packet = Vec::with_capacity(alloc, ADDRESSED)?;
    put_addressed(&mut packet, msg::CHANNEL_SUCCESS, recipient)?;
    Octets::from_vec(packet)
}

/// CHANNEL_FAILURE (RFC 4254, section 5.4).
pub fn channel_failure_packet(alloc: Global, recipient: u32) -> Result<Octets, NoMemory>
    ensures { IfOk result (λ packet. packet ≡ channel_failure_text recipient) }
{
    let mut packet = Vec::with_capacity(alloc, ADDRESSED)?;
    put_addressed(&mut packet, msg::CHANNEL_FAILURE, recipient)?;
    Octets::from_vec(packet)
}
