//! Requests and bytes for a channel.

ghost use Rattle.sshc_auth_event.specs.declared.channel_msg.ChannelMsg.TheVariants as asks;
ghost use Rattle.sshc_client.specs.declared.message.Msg.TheVariants as msgs;
ghost use Rattle.sshc_handle_calls.specs.Asking.{Tells, Told};

use crate::line::{Line, tell};
use sshc_auth::{ChannelMsg, Error};
use sshc_client::Msg;
use sshc_handle_messages::{
    bytes_sent, command, environment, extended_bytes, signal_sent, subsystem, terminal,
    x11_forwarding,
};
use sshc_wire::{ChannelId, Pty, Sig};
use std::alloc::Global;
use std::sync::Wait;

/// A message of the channel, without an answer.
fn tell_channel<L: Line, R: Wait>(
    rt: &R,
    line: &mut L,
    id: ChannelId,
    msg: ChannelMsg,
) -> Result<(), Error>
    ensures { Told (msgs.Channel id msg) (L.calls line.old) (L.calls line.new) result }
{
    tell(rt, line, Msg::Channel(id, msg))
}

/// Bytes for the peer (RFC 4254, section 5.2).
pub fn data<L: Line, R: Wait>(
    rt: &R,
    line: &mut L,
    alloc: Global,
    id: ChannelId,
    body: &[u8],
) -> Result<(), Error>
    ensures { Tells (msgs.Channel id (asks.Data body.now)) (L.calls line.old) (L.calls line.new) result }
{
    let msg = bytes_sent(alloc, body)?;
    tell_channel(rt, line, id, msg)
}

/// Bytes for the peer with a type code (RFC 4254, section 5.2).
pub fn extended_data<L: Line, R: Wait>(
    rt: &R,
    line: &mut L,
    alloc: Global,
    id: ChannelId,
    ext: u32,
    body: &[u8],
) -> Result<(), Error>
    ensures { Tells (msgs.Channel id (asks.ExtendedData ext body.now)) (L.calls line.old) (L.calls line.new) result }
{
    let msg = extended_bytes(alloc, ext, body)?;
    tell_channel(rt, line, id, msg)
}

/// A terminal (RFC 4254, section 6.2): width and height in characters, then in pixels, and its modes.
pub fn request_pty<L: Line, R: Wait>(
    rt: &R,
    line: &mut L,
    alloc: Global,
    id: ChannelId,
    want_reply: bool,
    term: &str,
    col_width: u32,
    row_height: u32,
    pix_width: u32,
    pix_height: u32,
    modes: &[(Pty, u32)],
) -> Result<(), Error>
    ensures { Tells
        (msgs.Channel id (asks.RequestPty want_reply term.now col_width row_height pix_width pix_height modes.now))
        (L.calls line.old) (L.calls line.new) result }
{
    let msg = terminal(
        alloc, want_reply, term, col_width, row_height, pix_width, pix_height, modes,
    )?;
    tell_channel(rt, line, id, msg)
}

/// X11 forwarding, by a protocol, a cookie and a screen (RFC 4254, section 6.3.1).
pub fn request_x11<L: Line, R: Wait>(
    rt: &R,
    line: &mut L,
    alloc: Global,
    id: ChannelId,
    want_reply: bool,
    single_connection: bool,
    protocol: &str,
    cookie: &str,
    screen: u32,
) -> Result<(), Error>
    ensures { Tells (msgs.Channel id (asks.RequestX11 want_reply single_connection protocol.now cookie.now screen))
        (L.calls line.old) (L.calls line.new) result }
{
    let msg = x11_forwarding(
        alloc,
        want_reply,
        single_connection,
        protocol,
        cookie,
        screen,
    )?;
    tell_channel(rt, line, id, msg)
}

/// A variable of the environment (RFC 4254, section 6.4).
pub fn set_env<L: Line, R: Wait>(
    rt: &R,
    line: &mut L,
    alloc: Global,
    id: ChannelId,
    want_reply: bool,
    name: &str,
    value: &str,
) -> Result<(), Error>
    ensures { Tells (msgs.Channel id (asks.SetEnv want_reply name.now value.now))
        (L.calls line.old) (L.calls line.new) result }
{
    let msg = environment(alloc, want_reply, name, value)?;
    tell_channel(rt, line, id, msg)
}

/// A command (RFC 4254, section 6.5).
pub fn exec<L: Line, R: Wait>(
    rt: &R,
    line: &mut L,
    alloc: Global,
    id: ChannelId,
    want_reply: bool,
    words: &[u8],
) -> Result<(), Error>
    ensures { Tells (msgs.Channel id (asks.Exec want_reply words.now)) (L.calls line.old) (L.calls line.new) result }
{
    let msg = command(alloc, want_reply, words)?;
    tell_channel(rt, line, id, msg)
}

/// A signal for the remote process (RFC 4254, section 6.9).
pub fn signal<L: Line, R: Wait>(
    rt: &R,
    line: &mut L,
    id: ChannelId,
    signal: &Sig,
) -> Result<(), Error>
    ensures { Tells (msgs.Channel id (asks.Signal signal.now)) (L.calls line.old) (L.calls line.new) result }
{
    let msg = signal_sent(signal)?;
    tell_channel(rt, line, id, msg)
}

/// A subsystem by its name (RFC 4254, section 6.5).
pub fn request_subsystem<L: Line, R: Wait>(
    rt: &R,
    line: &mut L,
    alloc: Global,
    id: ChannelId,
    want_reply: bool,
    name: &str,
) -> Result<(), Error>
    ensures { Tells (msgs.Channel id (asks.RequestSubsystem want_reply name.now))
        (L.calls line.old) (L.calls line.new) result }
{
    let msg = subsystem(alloc, want_reply, name)?;
    tell_channel(rt, line, id, msg)
}

/// No more bytes will be sent (RFC 4254, section 5.3).
pub fn eof<L: Line, R: Wait>(rt: &R, line: &mut L, id: ChannelId) -> Result<(), Error>
    ensures { Told (msgs.Channel id asks.Eof) (L.calls line.old) (L.calls line.new) result }
{
    tell_channel(rt, line, id, ChannelMsg::Eof)
}

/// The channel is to be closed (RFC 4254, section 5.3).
pub fn close<L: Line, R: Wait>(rt: &R, line: &mut L, id: ChannelId) -> Result<(), Error>
    ensures { Told (msgs.Channel id asks.Close) (L.calls line.old) (L.calls line.new) result }
{
    tell_channel(rt, line, id, ChannelMsg::Close)
}

/// The user's shell (RFC 4254, section 6.5).
pub fn request_shell<L: Line, R: Wait>(
    rt: &R,
    line: &mut L,
    id: ChannelId,
    want_reply: bool,
) -> Result<(), Error>
    ensures { Told (msgs.Channel id (asks.RequestShell want_reply)) (L.calls line.old) (L.calls line.new) result }
{
    tell_channel(rt, line, id, ChannelMsg::RequestShell { want_reply })
}

/// The terminal's new size (RFC 4254, section 6.7), in characters, then in pixels.
pub fn window_change<L: Line, R: Wait>(
    rt: &R,
    line: &mut L,
    id: ChannelId,
    col_width: u32,
    row_height: u32,
    pix_width: u32,
    pix_height: u32,
) -> Result<(), Error>
    ensures { Told (msgs.Channel id (asks.WindowChange col_width row_height pix_width pix_height))
        (L.calls line.old) (L.calls line.new) result }
{
    let msg = ChannelMsg::WindowChange {
        col_width,
        row_height,
        pix_width,
        pix_height,
    };
    tell_channel(rt, line, id, msg)
}

/// Agent forwarding (`auth-agent-req@openssh.com`).
pub fn agent_forward<L: Line, R: Wait>(
    rt: &R,
    line: &mut L,
    id: ChannelId,
    want_reply: bool,
) -> Result<(), Error>
    ensures { Told (msgs.Channel id (asks.AgentForward want_reply)) (L.calls line.old) (L.calls line.new) result }
{
    tell_channel(rt, line, id, ChannelMsg::AgentForward { want_reply })
}
