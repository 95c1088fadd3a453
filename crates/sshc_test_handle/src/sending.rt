//! What `Handle::data` and `Handle::rekey_soon` cause, and what is asked of a channel without waiting.

use crate::answers::{GONE, done, leave, ping};
use crate::script::{Line, parting, scripted, shows};
use sshc_auth::{ChannelMsg, Error};
use sshc_handle::{ChannelCalls, Handle, HandleCalls};
use sshc_sample_fakes::{Keeper, run_beside};
use std::sync::Wait;
use std::test::*;

/// RFC 4254, sections 5.1 to 5.3: a channel, bytes on it, which the server answers by its end, and the client's end.
const DATA_LINES: &[Line] = &[
    (
        b"\x5a\0\0\0\x07session\0\0\0\x01\0\x20\0\0\0\0\x80\0",
        b"\x5b\0\0\0\x01\0\0\0\x07\0\0\x10\0\0\0\x10\0",
    ),
    (b"\x5e\0\0\0\x07\0\0\0\x02hi", b"\x61\0\0\0\x01"),
    (b"\x61\0\0\0\x07", b""),
];

/// Opens a channel, sends bytes by its number, and sees what comes at a channel of that number: whether it is that the
/// channel is open, and its end.
fn send_by_number<R: Wait>(rt: &R, handle: &Handle<Keeper>) -> Result<bool, Error> {
    let id = handle.channel_open_session(rt)?.id();
    handle.data(rt, id, b"hi")?;
    let mut channel = handle.channel(id)?;
    Ok(shows(rt, &mut channel, &['o', 'c']))
}

/// The same, and leaves.
fn send_and_leave<R: Wait>(rt: &R, handle: &Handle<Keeper>) -> Result<bool, Error> {
    let shown = send_by_number(rt, handle);
    let _ = leave(rt, handle);
    shown
}

/// The bytes are written on the channel of that number: the server, which awaits them, answers by the channel's end.
#[test]
fn writes_bytes_by_a_number(rt: HostRuntime) -> Result<(), Fail> {
    let (handle, runner) = scripted(rt.alloc(), true, DATA_LINES)?;
    let (shown, _left) = run_beside(&rt, &handle, runner, |handle| send_and_leave(&rt, handle));
    assert!(&rt; shown == Ok(true));
    Ok(())
}

/// OpenSSH's keepalive as a ping.
const PING_LINES: &[Line] = &[(b"\x50\0\0\0\x15keepalive@openssh.com\x01", b"")];

/// The server answers a ping only after an exchange that the client begins: it does, since that is asked for.
#[test]
fn rekeys_when_asked(rt: HostRuntime) -> Result<(), Fail> {
    let (handle, runner) = parting(rt.alloc(), true, PING_LINES, b"\x52")?;
    let asked = ping(&rt, &handle);
    let submitted = handle.rekey_soon(&rt);
    let run = runner.run(&rt);
    let answer = done(handle.poll_ticket(&rt, asked));
    assert!(&rt; submitted == Ok(()) && run == GONE && answer == Some(Ok(())));
    Ok(())
}

/// A channel whose window is of 4,096 bytes, and which the server closes after the client.
const CLOSED_LINES: &[Line] = &[
    (
        b"\x5a\0\0\0\x07session\0\0\0\x01\0\x20\0\0\0\0\x80\0",
        b"\x5b\0\0\0\x01\0\0\0\x07\0\0\x10\0\0\0\x10\0",
    ),
    (b"\x61\0\0\0\x07", b"\x61\0\0\0\x01"),
];

fn is_open(msg: Option<ChannelMsg>) -> bool {
    matches!(msg, Some(ChannelMsg::Open { .. }))
}

/// Opens a channel, looks at its window and at what is held of it, and closes it.
fn look_and_close<R: Wait>(rt: &R, handle: &Handle<Keeper>) -> Result<bool, Error> {
    let mut channel = handle.channel_open_session(rt)?;
    let window = handle.sender_window_size(rt, channel.id());
    let pending = handle.has_pending_data(rt, channel.id());
    let opened = is_open(channel.poll(rt));
    let empty = channel.poll(rt).is_none() && !channel.is_at_end(rt);
    channel.close(rt)?;
    let closed = shows(rt, &mut channel, &['c']) && channel.is_at_end(rt);
    Ok(window == 4096 && !pending && opened && empty && closed)
}

/// The same, and leaves.
fn look_and_leave<R: Wait>(rt: &R, handle: &Handle<Keeper>) -> Result<bool, Error> {
    let looked = look_and_close(rt, handle);
    let _ = leave(rt, handle);
    looked
}

/// The peer's window is that of its confirmation, nothing of ours waits, and `poll` takes what is held and no more.
#[test]
fn looks_at_a_channel(rt: HostRuntime) -> Result<(), Fail> {
    let (handle, runner) = scripted(rt.alloc(), true, CLOSED_LINES)?;
    let (looked, _left) = run_beside(&rt, &handle, runner, |handle| look_and_leave(&rt, handle));
    assert!(&rt; looked == Ok(true));
    Ok(())
}
