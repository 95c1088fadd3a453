//! Runs of a runner behind two pings: how each ends, and what the pings are answered.

use crate::answers::{GONE, done, leave, ping};
use sshc_auth::Error;
use sshc_client::{Config, Ended};
use sshc_handle::Handle;
use sshc_key::AgentSessionBinding;
use sshc_sample_fakes::{FakeRunner, HOST_KEY, Host, Keeper, hosted, opened};
use sshc_wire::{NoMemory, Ticket};
use std::alloc::Global;
use std::sync::Wait;
use std::test::*;
use std::time::Clock;

/// The settings of a run whose first exchange opens the session. The clock moves by 60 milliseconds a turn.
#[derive(Clone, Copy)]
struct Scene {
    /// In milliseconds.
    inactivity_timeout: Option<u64>,
    /// In milliseconds.
    keepalive_interval: Option<u64>,
    keepalive_max: u64,
    /// How many packets the transport takes before it fails.
    good: u64,
}

const PLAIN: Scene = Scene {
    inactivity_timeout: None,
    keepalive_interval: None,
    keepalive_max: 3,
    good: 1000,
};

/// What the two pings and the run were answered.
#[derive(Clone, Copy)]
struct Output {
    /// Whether the first ping had an answer before the run.
    early: bool,
    first: Option<Result<(), Error>>,
    second: Option<Result<(), Error>>,
    run: Result<(), Error>,
}

fn config_of(alloc: Global, scene: Scene) -> Result<Config, NoMemory> {
    let mut config = Config::default_in(alloc)?;
    config.anonymous = true;
    config.inactivity_timeout = scene.inactivity_timeout;
    config.keepalive_interval = scene.keepalive_interval;
    config.keepalive_max = scene.keepalive_max;
    Ok(config)
}

fn made(
    alloc: Global,
    host: Host,
    scene: Scene,
) -> Result<(Handle<Keeper>, FakeRunner<Host>), Error> {
    let config = config_of(alloc, scene)?;
    let coming = host.greeting()?;
    hosted(alloc, config, host, coming, scene.good, 60)
}

/// Runs behind two pings.
fn run_of<R: Wait + Clock>(
    rt: &R,
    alloc: Global,
    host: Host,
    scene: Scene,
) -> Result<Output, Error> {
    let (handle, runner) = made(alloc, host, scene)?;
    Ok(ran(rt, &handle, runner))
}

fn ran<R: Wait + Clock>(rt: &R, handle: &Handle<Keeper>, runner: FakeRunner<Host>) -> Output {
    let one = ping(rt, handle);
    let two = ping(rt, handle);
    let early = done(handle.poll_ticket(rt, one)).is_some();
    let run = runner.run(rt);
    Output {
        early,
        first: done(handle.poll_ticket(rt, one)),
        second: done(handle.poll_ticket(rt, two)),
        run,
    }
}

/// How the server answers a ping.
#[derive(Clone, Copy)]
enum Pong {
    /// By this packet; with no bytes it doesn't answer.
    Packet(&'static [u8]),
    /// The first as it should be; then it closes the stream.
    OneAndClose,
}

fn host_of(alloc: Global, pong: Pong) -> Host {
    match pong {
        Pong::Packet(packet) => Host::ponging(alloc, packet),
        Pong::OneAndClose => Host::closing(alloc, 1),
    }
}

/// A name, how the server answers a ping, the settings, and what the first ping, the second and the run are answered.
type Row = (&'static str, Pong, Scene, [Result<(), Error>; 3]);

const ROWS: &[Row] = &[
    (
        "the server disconnects",
        Pong::Packet(b"\x01\0\0\0\x0b\0\0\0\0\0\0\0\0"),
        PLAIN,
        [GONE, GONE, Ok(())],
    ),
    (
        "a disconnect that can't be read",
        Pong::Packet(b"\x01\0"),
        PLAIN,
        [GONE, GONE, Err(Error::SshEncoding)],
    ),
    (
        "the stream closes behind the first answer",
        Pong::OneAndClose,
        PLAIN,
        [Ok(()), GONE, GONE],
    ),
    (
        "nothing comes for too long",
        Pong::Packet(b""),
        Scene {
            inactivity_timeout: Some(100),
            ..PLAIN
        },
        [GONE, GONE, Err(Error::InactivityTimeout)],
    ),
    (
        "no keepalive is answered",
        Pong::Packet(b""),
        Scene {
            keepalive_interval: Some(100),
            keepalive_max: 1,
            ..PLAIN
        },
        [GONE, GONE, Err(Error::KeepaliveTimeout)],
    ),
    (
        "the transport takes the first packet and fails at the second",
        Pong::Packet(b""),
        Scene { good: 1, ..PLAIN },
        [GONE, GONE, Err(Error::TransportFailed)],
    ),
];

/// Whether that was answered, and nothing before the run.
fn is_said(output: Output, answers: [Result<(), Error>; 3]) -> bool {
    let [first, second, run] = answers;
    !output.early
        && output.first == Some(first)
        && output.second == Some(second)
        && output.run == run
}

/// Each kind of end answers the pings and the run as its row says.
#[test]
fn ends_as_the_rows_say(rt: HostRuntime) -> Result<(), Fail> {
    for (name, pong, scene, answers) in ROWS {
        let output = run_of(&rt, rt.alloc(), host_of(rt.alloc(), *pong), *scene)?;
        assert!(&rt; is_said(output, *answers), "{name}");
    }
    Ok(())
}

/// What the first exchange bound the session to (OpenSSH's PROTOCOL.agent, section 1).
fn is_bound(binding: Result<Option<AgentSessionBinding>, Error>) -> Option<bool> {
    match binding {
        Ok(Some(binding)) => Some(
            binding.host_key() == HOST_KEY.as_slice()
                && binding.session_id() == b"session-id".as_slice(),
        ),
        Ok(None) => None,
        Err(_) => Some(false),
    }
}

fn is_disconnected(ended: Result<Ended, Error>) -> bool {
    matches!(ended, Ok(Ended::Disconnected))
}

/// Whether a session that the user has left is open until it runs, and then gone, and the binding is that of the first
/// exchange, with none before it.
fn leaves<R: Wait + Clock>(rt: &R, handle: &Handle<Keeper>, runner: FakeRunner<Host>) -> bool {
    let asked = ping(rt, handle);
    let left = leave(rt, handle);
    let before = is_bound(handle.agent_session_binding(rt));
    let was_closed = handle.is_closed();
    let run = runner.run(rt);
    let is_told = left == Ok(()) && before.is_none() && !was_closed && run == GONE;
    is_told && has_ended(rt, handle, asked)
}

/// Whether a ping is dropped, and the session closed, after the user disconnected.
fn has_ended<R: Wait>(rt: &R, handle: &Handle<Keeper>, asked: Ticket) -> bool {
    handle.is_closed()
        && done(handle.poll_ticket(rt, asked)) == Some(GONE)
        && is_disconnected(handle.wait_closed(rt))
        && is_bound(handle.agent_session_binding(rt)) == Some(true)
}

/// The user disconnects.
#[test]
fn ends_by_the_user(rt: HostRuntime) -> Result<(), Fail> {
    let (handle, runner) = opened(rt.alloc(), Host::ponging(rt.alloc(), b""))?;
    assert!(&rt; leaves(&rt, &handle, runner));
    Ok(())
}

/// The last handle goes.
#[test]
fn ends_without_users(rt: HostRuntime) -> Result<(), Fail> {
    let (handle, runner) = opened(rt.alloc(), Host::new(rt.alloc(), 1))?;
    let gone = handle.gone(&rt);
    let run = runner.run(&rt);
    assert!(&rt; gone == Ok(()) && run == GONE);
    Ok(())
}
