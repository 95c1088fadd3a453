//! Requests and bytes for a channel, as messages of it.

ghost use Rattle.std.specs.Prelude.{◌≡◌, IfOk};
ghost use Rattle.sshc_auth_event.specs.declared.channel_msg.ChannelMsg.TheVariants as msgs;

use sshc_auth::ChannelMsg;
use sshc_client::signal_copied;
use sshc_wire::{List, NoMemory, Octets, Pty, Sig, Text};
use std::alloc::Global;

/// Bytes for the peer (RFC 4254, section 5.2).
pub fn bytes_sent(alloc: Global, body: &[u8]) -> Result<ChannelMsg, NoMemory>
    ensures { IfOk result (λ m. m ≡ msgs.Data body.now) }
{
    Ok(ChannelMsg::Data {
        body: Octets::from_slice(alloc, body)?,
    })
}

/// Bytes for the peer with a type code (RFC 4254, section 5.2).
pub fn extended_bytes(alloc: Global, ext: u32, body: &[u8]) -> Result<ChannelMsg, NoMemory>
    ensures { IfOk result (λ m. m ≡ msgs.ExtendedData ext body.now) }
{
    Ok(ChannelMsg::ExtendedData {
        ext,
        body: Octets::from_slice(alloc, body)?,
    })
}

/// A terminal (RFC 4254, sections 6.2 and 8): width and height in characters, then in pixels, and its modes.
pub fn terminal(
    alloc: Global,
    want_reply: bool,
    term: &str,
    col_width: u32,
    row_height: u32,
    pix_width: u32,
    pix_height: u32,
    modes: &[(Pty, u32)],
) -> Result<ChannelMsg, NoMemory>
    ensures { IfOk result
        (λ m. m ≡ msgs.RequestPty want_reply term.now col_width row_height pix_width pix_height modes.now) }
{
    Ok(ChannelMsg::RequestPty {
        want_reply,
        term: Text::from_str(alloc, term)?,
        col_width,
        row_height,
        pix_width,
        pix_height,
        terminal_modes: List::from_vec(Vec::from_slice(alloc, modes)?)?,
    })
}

/// X11 forwarding, by a protocol, a cookie and a screen (RFC 4254, section 6.3.1).
pub fn x11_forwarding(
    alloc: Global,
    want_reply: bool,
    single_connection: bool,
    protocol: &str,
    cookie: &str,
    screen: u32,
) -> Result<ChannelMsg, NoMemory>
    ensures { IfOk result (λ m. m ≡ msgs.RequestX11 want_reply single_connection protocol.now cookie.now screen) }
{
    Ok(ChannelMsg::RequestX11 {
        want_reply,
        single_connection,
        x11_authentication_protocol: Text::from_str(alloc, protocol)?,
        x11_authentication_cookie: Text::from_str(alloc, cookie)?,
        x11_screen_number: screen,
    })
}

/// A variable of the environment (RFC 4254, section 6.4).
pub fn environment(
    alloc: Global,
    want_reply: bool,
    name: &str,
    value: &str,
) -> Result<ChannelMsg, NoMemory>
    ensures { IfOk result (λ m. m ≡ msgs.SetEnv want_reply name.now value.now) }
{
    Ok(ChannelMsg::SetEnv {
        want_reply,
        variable_name: Text::from_str(alloc, name)?,
        variable_value: Text::from_str(alloc, value)?,
    })
}

/// A command (RFC 4254, section 6.5).
pub fn command(alloc: Global, want_reply: bool, command: &[u8]) -> Result<ChannelMsg, NoMemory>
    ensures { IfOk result (λ m. m ≡ msgs.Exec want_reply command.now) }
{
    Ok(ChannelMsg::Exec {
        want_reply,
        command: Octets::from_slice(alloc, command)?,
    })
}

/// A subsystem by its name (RFC 4254, section 6.5).
pub fn subsystem(alloc: Global, want_reply: bool, name: &str) -> Result<ChannelMsg, NoMemory>
    ensures { IfOk result (λ m. m ≡ msgs.RequestSubsystem want_reply name.now) }
{
    Ok(ChannelMsg::RequestSubsystem {
        want_reply,
        name: Text::from_str(alloc, name)?,
    })
}

/// A signal for the remote process (RFC 4254, section 6.9).
pub fn signal_sent(signal: &Sig) -> Result<ChannelMsg, NoMemory>
    ensures { IfOk result (λ m. m ≡ msgs.Signal signal.now) }
{
    Ok(ChannelMsg::Signal {
        signal: signal_copied(signal)?,
    })
}
