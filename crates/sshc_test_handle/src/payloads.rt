//! What each call writes, beside the bytes of the standards, and what reaches the user of a channel.

use crate::answers::{Came, leave, logged_in, prompted, respond};
use crate::script::{Line, scripted, shows};
use sshc_client::Error;
use sshc_handle::{Channel, ChannelCalls, Handle, HandleCalls};
use sshc_sample_fakes::{Keeper, run_beside};
use sshc_wire::{Octets, Pty, Sig};
use std::alloc::Global;
use std::sync::Wait;
use std::test::*;

/// RFC 4254, sections 5 and 6: a channel with each of its requests, bytes, and its end.
const CHANNEL_LINES: &[Line] = &[
    (
        b"\x5a\0\0\0\x07session\0\0\0\x01\0\x20\0\0\0\0\x80\0",
        b"\x5b\0\0\0\x01\0\0\0\x07\0\0\x10\0\0\0\x10\0",
    ),
    (
        b"\x62\0\0\0\x07\0\0\0\x07pty-req\x01\0\0\0\x05xterm\0\0\0\x50\0\0\0\x18\0\0\0\0\0\0\0\0\0\0\0\x06\x35\0\0\0\
            \x01\0",
        b"\x63\0\0\0\x01",
    ),
    (
        b"\x62\0\0\0\x07\0\0\0\x07x11-req\0\x01\0\0\0\x01p\0\0\0\x02ff\0\0\0\x02",
        b"",
    ),
    (
        b"\x62\0\0\0\x07\0\0\0\x03env\0\0\0\0\x04LANG\0\0\0\x01C",
        b"",
    ),
    (b"\x62\0\0\0\x07\0\0\0\x05shell\x01", b"\x64\0\0\0\x01"),
    (b"\x62\0\0\0\x07\0\0\0\x04exec\0\0\0\0\x02ls", b""),
    (b"\x62\0\0\0\x07\0\0\0\x09subsystem\0\0\0\0\x04sftp", b""),
    (b"\x62\0\0\0\x07\0\0\0\x06signal\0\0\0\0\x04TERM", b""),
    (
        b"\x62\0\0\0\x07\0\0\0\x0dwindow-change\0\0\0\0\x50\0\0\0\x19\0\0\0\x01\0\0\0\x02",
        b"",
    ),
    (b"\x62\0\0\0\x07\0\0\0\x1aauth-agent-req@openssh.com\0", b""),
    (b"\x5e\0\0\0\x07\0\0\0\x02hi", b""),
    (b"\x5f\0\0\0\x07\0\0\0\x01\0\0\0\x02no", b""),
    (b"\x60\0\0\0\x07", b""),
    (b"\x61\0\0\0\x07", b"\x61\0\0\0\x01"),
];

/// Asks for a terminal, a display, a variable, and programs.
fn ask_to_run<R: Wait>(rt: &R, channel: &Channel<Keeper>) -> Result<(), Error> {
    channel.request_pty(rt, true, "xterm", 80, 24, 0, 0, &[(Pty(53), 1)])?;
    channel.request_x11(rt, false, true, "p", "ff", 2)?;
    channel.set_env(rt, false, "LANG", "C")?;
    channel.request_shell(rt, true)?;
    channel.exec(rt, false, b"ls")?;
    channel.request_subsystem(rt, false, "sftp")
}

/// Sends a signal, a new size, a wish for the agent, and bytes, and ends the channel.
fn send_and_close<R: Wait>(rt: &R, channel: &Channel<Keeper>) -> Result<(), Error> {
    channel.signal(rt, &Sig::TERM)?;
    channel.window_change(rt, 80, 25, 1, 2)?;
    channel.agent_forward(rt, false)?;
    channel.data(rt, b"hi")?;
    channel.extended_data(rt, 1, b"no")?;
    channel.eof(rt)?;
    channel.close(rt)
}

/// Asks all that can be asked of a channel.
fn ask_all<R: Wait>(rt: &R, channel: &Channel<Keeper>) -> Result<(), Error> {
    ask_to_run(rt, channel)?;
    send_and_close(rt, channel)
}

/// Opens a channel, asks all of it, and returns whether its user sees the answers and the end.
fn use_channel<R: Wait>(rt: &R, handle: &Handle<Keeper>) -> Result<bool, Error> {
    let mut channel = handle.channel_open_session(rt)?;
    match ask_all(rt, &channel) {
        Ok(()) => Ok(shows(rt, &mut channel, &['o', 's', 'f', 'c'])),
        Err(e) => Err(e),
    }
}

/// Uses a channel, and leaves.
fn use_and_leave<R: Wait>(rt: &R, handle: &Handle<Keeper>) -> Result<bool, Error> {
    let shown = use_channel(rt, handle);
    let _ = leave(rt, handle);
    shown
}

/// Each request of a channel is written as the standard has it, and its user sees the answers and the end.
#[test]
fn writes_what_a_channel_asks(rt: HostRuntime) -> Result<(), Fail> {
    let (handle, runner) = scripted(rt.alloc(), true, CHANNEL_LINES)?;
    let (shown, _left) = run_beside(&rt, &handle, runner, |handle| use_and_leave(&rt, handle));
    assert!(&rt; shown == Ok(true));
    Ok(())
}

/// RFC 4254, sections 4 and 7, and OpenSSH's PROTOCOL: requests that are of no channel.
const REQUEST_LINES: &[Line] = &[
    (b"\x50\0\0\0\x15keepalive@openssh.com\0", b""),
    (b"\x50\0\0\0\x1cno-more-sessions@openssh.com\0", b""),
    (b"\x50\0\0\0\x15keepalive@openssh.com\x01", b"\x52"),
    (
        b"\x50\0\0\0\x0dtcpip-forward\x01\0\0\0\x01h\0\0\0\0",
        b"\x51\0\0\x1f\x90",
    ),
    (
        b"\x50\0\0\0\x14cancel-tcpip-forward\x01\0\0\0\x01h\0\0\x1f\x90",
        b"\x51",
    ),
    (
        b"\x50\0\0\0\x1fstreamlocal-forward@openssh.com\x01\0\0\0\x02/s",
        b"\x51",
    ),
    (
        b"\x50\0\0\0\x26cancel-streamlocal-forward@openssh.com\x01\0\0\0\x02/s",
        b"\x52",
    ),
    (b"\x50\0\0\0\x03own\0x", b""),
    (b"\x50\0\0\0\x03own\x01x", b"\x51yz"),
];

/// Requests without an answer, and a ping.
fn keep_alive<R: Wait>(rt: &R, handle: &Handle<Keeper>) -> Result<(), Error> {
    handle.send_keepalive(rt, false)?;
    handle.no_more_sessions(rt, false)?;
    handle.send_ping(rt)
}

/// Forwards: that of a port is granted port 8080, and the end of that of a socket is refused.
fn forward<R: Wait>(rt: &R, handle: &Handle<Keeper>) -> Result<bool, Error> {
    let port = handle.tcpip_forward(rt, "h", 0)?;
    handle.cancel_tcpip_forward(rt, "h", port)?;
    handle.streamlocal_forward(rt, "/s")?;
    let refused = handle.cancel_streamlocal_forward(rt, "/s");
    Ok(port == 8080 && refused == Err(Error::RequestDenied))
}

fn is_reply(reply: &Option<Octets>, awaited: &[u8]) -> bool {
    match reply {
        Some(body) => body.as_slice() == awaited,
        None => false,
    }
}

/// Requests of a name of the user's own, without an answer and with one.
fn ask_own<R: Wait>(rt: &R, handle: &Handle<Keeper>) -> Result<bool, Error> {
    let unanswered = handle
        .send_global_request(rt, "own", b"x", false)?
        .is_none();
    let reply = handle.send_global_request(rt, "own", b"x", true)?;
    Ok(unanswered && is_reply(&reply, b"yz"))
}

/// Calls that write no packet.
fn ask_nothing<R: Wait>(rt: &R, alloc: Global, handle: &Handle<Keeper>) -> Result<bool, Error> {
    handle.hostkeys_prove(rt, Vec::new(alloc))?;
    Ok(handle.best_supported_rsa_hash(rt)? == None)
}

/// Makes all requests, and returns whether each was answered as it should be.
fn request_all<R: Wait>(rt: &R, alloc: Global, handle: &Handle<Keeper>) -> Result<bool, Error> {
    keep_alive(rt, handle)?;
    let forwarded = forward(rt, handle)?;
    let asked = ask_own(rt, handle)?;
    let none = ask_nothing(rt, alloc, handle)?;
    Ok(forwarded && asked && none)
}

/// Makes all requests, asks for new keys, and leaves.
fn request_and_leave<R: Wait>(
    rt: &R,
    alloc: Global,
    handle: &Handle<Keeper>,
) -> Result<bool, Error> {
    let right = request_all(rt, alloc, handle);
    let _ = handle.rekey_soon(rt);
    let _ = leave(rt, handle);
    right
}

/// Each request of no channel is written as the standard has it, and answered by what comes back.
#[test]
fn writes_what_is_requested(rt: HostRuntime) -> Result<(), Fail> {
    let alloc = rt.alloc();
    let (handle, runner) = scripted(alloc, true, REQUEST_LINES)?;
    let (right, _left) = run_beside(
        &rt,
        &handle,
        runner,
        |handle| request_and_leave(&rt, alloc, handle),
    );
    assert!(&rt; right == Ok(true));
    Ok(())
}

/// RFC 4252, sections 5 and 8, and RFC 4256: logins, of which the last is let in.
const LOGIN_LINES: &[Line] = &[
    (b"\x05\0\0\0\x0cssh-userauth", b"\x06\0\0\0\x0cssh-userauth"),
    (
        b"\x32\0\0\0\x05alice\0\0\0\x0essh-connection\0\0\0\x04none",
        b"\x33\0\0\0\x08password\0",
    ),
    (
        b"\x32\0\0\0\x05alice\0\0\0\x0essh-connection\0\0\0\x14keyboard-interactive\0\0\0\0\0\0\0\x03sub",
        b"\x3c\0\0\0\x01n\0\0\0\0\0\0\0\0\0\0\0\x01\0\0\0\x01?\0",
    ),
    (b"\x3d\0\0\0\x01\0\0\0\x03yes", b"\x33\0\0\0\x08password\0"),
    (
        b"\x32\0\0\0\x05alice\0\0\0\x0essh-connection\0\0\0\x08password\0\0\0\0\x02pw",
        b"\x34",
    ),
];

/// Logs in by nothing, by prompts and by a password, and leaves.
fn try_all<R: Wait>(rt: &R, alloc: Global, handle: &Handle<Keeper>) -> [Came; 4] {
    let none = logged_in(handle.authenticate_none(rt, "alice"));
    let asked = prompted(handle.authenticate_keyboard_interactive_start(rt, "alice", Some("sub")));
    let responded = respond(rt, alloc, handle);
    let password = logged_in(handle.authenticate_password(rt, "alice", "pw"));
    let _ = leave(rt, handle);
    [none, asked, responded, password]
}

/// Each login is written as the standard has it, with its password or the responses.
#[test]
fn writes_what_logs_in(rt: HostRuntime) -> Result<(), Fail> {
    let alloc = rt.alloc();
    let (handle, runner) = scripted(alloc, false, LOGIN_LINES)?;
    let (came, _left) = run_beside(&rt, &handle, runner, |handle| try_all(&rt, alloc, handle));
    assert!(&rt; came == [Came::Out, Came::Prompted, Came::Out, Came::In]);
    Ok(())
}
