//! Ways to end a session that takes nothing that is submitted, and one that never runs.

use crate::answers::{GONE, done, leave, ping};
use crate::script::{Line, Script, awaiting};
use sshc_auth::{Ended, Error};
use sshc_client::Config;
use sshc_handle::{
    ChannelCalls, Handle, HandleCalls, Runner, Stoppable, Stopper, connect_stream, with_stopper,
};
use sshc_sample_fakes::{FakeTransport, Host, Keeper, StillClock, at_once, opened};
use sshc_toy::{RefusingVerifier, ToySigner};
use sshc_wire::ChannelId;
use std::alloc::Global;
use std::sync::Wait;
use std::test::*;
use std::thread;
use std::time::{Clock, Duration};

/// A channel whose peer grants no window, so that bytes wait for good.
const NARROW_LINES: &[Line] = &[(
    b"\x5a\0\0\0\x07session\0\0\0\x01\0\x20\0\0\0\0\x80\0",
    b"\x5b\0\0\0\x01\0\0\0\x07\0\0\0\0\0\0\x10\0",
)];

/// A runner over a scripted server, whose transport can be stopped.
type StoppableRunner = Runner<
    Keeper,
    Stoppable<FakeTransport<Script>>,
    ToySigner,
    RefusingVerifier,
    StillClock,
>;

/// A session over such a server, which its first exchange opens.
fn narrow(alloc: Global) -> Result<(Handle<Keeper>, StoppableRunner, Stopper), Error> {
    let coming = Host::new(alloc, 1).greeting()?;
    let mut config = Config::default_in(alloc)?;
    config.anonymous = true;
    let transport = FakeTransport::new(awaiting(alloc, NARROW_LINES), coming, 1000);
    let (transport, stopper) = with_stopper(alloc, transport)?;
    let (handle, runner) = connect_stream(
        alloc,
        config,
        transport,
        Keeper,
        ToySigner::new(alloc),
        RefusingVerifier,
        StillClock(0),
    )?;
    Ok((handle, runner, stopper))
}

/// Waits until bytes of a channel wait for a window.
fn await_pending<R: Wait + Clock>(rt: &R, handle: &Handle<Keeper>, id: ChannelId) {
    for _ in rt.forever() {
        if handle.has_pending_data(rt, id) {
            break;
        }
        thread::sleep(rt, Duration::from_millis(1));
    }
}

/// What becomes of a session with bytes that wait for a window: whether it has ended some time after its user
/// disconnected, and how it ends once its transport is stopped.
fn stopped<R: Wait + Clock>(
    rt: &R,
    handle: &Handle<Keeper>,
    stopper: &Stopper,
) -> Result<(bool, Ended), Error> {
    let channel = handle.channel_open_session(rt)?;
    channel.data(rt, b"hi")?;
    leave(rt, handle)?;
    await_pending(rt, handle, channel.id());
    // That nothing happens can't be waited for: a runner that takes the disconnection does it within this time.
    thread::sleep(rt, Duration::from_millis(20));
    let early = handle.is_closed();
    stopper.stop();
    Ok((early, handle.wait_closed(rt)?))
}

/// While bytes wait for the peer's window no disconnection is taken; a transport that is stopped ends the session.
#[test]
fn ends_by_a_stopped_transport(rt: HostRuntime) -> Result<(), Fail> {
    let (handle, runner, stopper) = narrow(rt.alloc())?;
    let (seen, run) = at_once(
        &rt,
        &handle,
        |handle| stopped(&rt, handle, &stopper),
        |_handle| runner.run(&rt),
    );
    assert!(&rt; seen == Ok((false, Ended::Disconnected)) && run == GONE);
    Ok(())
}

/// A runner that is dropped and hasn't run answers who waits, whether before or after, and nothing more is submitted.
#[test]
fn tells_who_waits_that_nothing_runs(rt: HostRuntime) -> Result<(), Fail> {
    let alloc = rt.alloc();
    let (handle, runner) = opened(alloc, Host::new(alloc, 1))?;
    let asked = ping(&rt, &handle);
    let (ended, _gone) = at_once(
        &rt,
        &handle,
        |handle| handle.wait_closed(&rt),
        |_handle| drop(runner),
    );
    assert!(&rt;
        ended == Err(Error::Disconnect) && handle.is_closed() && handle.wait_any(&rt).is_none()
    );
    assert!(&rt;
        done(handle.poll_ticket(&rt, asked)) == Some(GONE)
            && handle.send_ping(&rt) == Err(Error::SendError)
    );
    Ok(())
}
