//! How one thread serves many channels: what is held of any of them, and waits with a limit.

use crate::answers::leave;
use crate::script::{Line, scripted};
use sshc_auth::{ChannelMsg, Error};
use sshc_handle::{Handle, HandleCalls};
use sshc_sample_fakes::{Keeper, run_beside};
use sshc_wire::ChannelId;
use std::sync::Wait;
use std::test::*;
use std::time::{Clock, Duration};

/// Two opens of channels (RFC 4254, section 5.1), of which the second is refused.
const OPEN_LINES: &[Line] = &[
    (
        b"\x5a\0\0\0\x07session\0\0\0\x01\0\x20\0\0\0\0\x80\0",
        b"\x5b\0\0\0\x01\0\0\0\x07\0\0\x10\0\0\0\x10\0",
    ),
    (
        b"\x5a\0\0\0\x07session\0\0\0\x02\0\x20\0\0\0\0\x80\0",
        b"\x5c\0\0\0\x02\0\0\0\x01\0\0\0\0\0\0\0\0",
    ),
];

/// How long a wait with a limit lasts at most, in milliseconds.
const SHORT: u64 = 10;

/// The channel of what is held first, and one letter for it: `o` that it is open, `r` that it was refused.
fn taken<R: Wait>(rt: &R, handle: &Handle<Keeper>) -> Result<Option<(u32, char)>, Error> {
    let Some(id) = handle.wait_any(rt) else {
        return Ok(None);
    };
    let mut channel = handle.channel(id)?;
    match channel.poll(rt) {
        Some(ChannelMsg::Open { .. }) => Ok(Some((id.0, 'o'))),
        Some(ChannelMsg::OpenFailure(_)) => Ok(Some((id.0, 'r'))),
        _ => Ok(Some((id.0, '?'))),
    }
}

/// Whether nothing more is held, of any channel and of the first, which isn't at its end.
fn is_quiet<R: Wait + Clock>(rt: &R, handle: &Handle<Keeper>) -> Result<bool, Error> {
    let mut channel = handle.channel(ChannelId(1))?;
    let limit = Duration::from_millis(SHORT);
    let none = handle.wait_any_for(rt, limit).is_none();
    Ok(none && channel.wait_for(rt, limit).is_none() && !channel.is_at_end(rt))
}

/// Opens two channels, of which one is refused, and takes what is held of each.
fn serve<R: Wait + Clock>(rt: &R, handle: &Handle<Keeper>) -> Result<bool, Error> {
    let opened = handle.channel_open_session(rt).is_ok();
    let refused = handle.channel_open_session(rt).is_err();
    let first = taken(rt, handle)?;
    let second = taken(rt, handle)?;
    Ok(
        opened
            && refused
            && first == Some((1, 'o'))
            && second == Some((2, 'r'))
            && is_quiet(rt, handle)?,
    )
}

/// The same, and leaves.
fn serve_and_leave<R: Wait + Clock>(rt: &R, handle: &Handle<Keeper>) -> Result<bool, Error> {
    let served = serve(rt, handle);
    let _ = leave(rt, handle);
    served
}

/// One thread takes what happens on every channel, also of an open that was refused, and waits no longer than its
/// limit.
#[test]
fn serves_all_channels(rt: HostRuntime) -> Result<(), Fail> {
    let (handle, runner) = scripted(rt.alloc(), true, OPEN_LINES)?;
    let (served, _left) = run_beside(&rt, &handle, runner, |handle| serve_and_leave(&rt, handle));
    assert!(&rt; served == Ok(true) && handle.wait_any(&rt).is_none());
    Ok(())
}
