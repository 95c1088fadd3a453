//! A runner that is woken: by the thread that fills its transport, and by its timers.

use sshc_auth::{Ended, Error};
use sshc_client::Config;
use sshc_handle::{Handle, Runner, Waker, connect_stream};
use sshc_sample_fakes::{Keeper, TickingClock, at_once};
use sshc_toy::{RefusingVerifier, ToySigner};
use sshc_transport::{Transport, TransportEvent};
use sshc_wire::Failed;
use std::alloc::Global;
use std::sync::atomic::{AtomicBool, Ordering};
use std::sync::{Arc, Wait};
use std::test::*;
use std::thread;
use std::time::{Clock, Duration};

/// A transport that has nothing until its flag is raised, and then is at its end.
#[derive(Drop)]
struct Bell {
    is_rung: Arc<AtomicBool, Global>,
}

impl Transport for Bell {
    ghost use Rattle.std.specs.Prelude.{None};

    ghost answers = { λ _. None };

    ghost handed = { λ _. None };

    ghost faults = { λ _. 0 };

    fn next(&mut self) -> Result<Option<TransportEvent>, Failed> {
        if self.is_rung.load(Ordering::SeqCst) {
            Ok(None)
        } else {
            Ok(Some(TransportEvent::Quiet))
        }
    }

    fn hand(&mut self, _packet: &[u8]) -> Result<(), Failed> {
        Ok(())
    }

    fn begin_exchange(&mut self) -> Result<(), Failed> {
        Ok(())
    }

    fn remote_sshid(&self) -> &[u8] {
        b"SSH-2.0-bell"
    }
}

/// A runner over such a transport.
type BellRunner = Runner<Keeper, Bell, ToySigner, RefusingVerifier, TickingClock>;

/// A session over a transport with this flag, which ends where nothing comes for so many milliseconds, by a clock that
/// advances by ten milliseconds each time.
fn silent(
    alloc: Global,
    is_rung: &Arc<AtomicBool, Global>,
    inactivity_timeout: Option<u64>,
) -> Result<(Handle<Keeper>, BellRunner), Error> {
    let mut config = Config::default_in(alloc)?;
    config.inactivity_timeout = inactivity_timeout;
    let transport = Bell {
        is_rung: Arc::try_clone(is_rung)?,
    };
    connect_stream(
        alloc,
        config,
        transport,
        Keeper,
        ToySigner::new(alloc),
        RefusingVerifier,
        TickingClock { now: 0, step: 10 },
    )
}

/// Raises the flag once the runner rests, wakes it, and waits for the end of the session.
fn ring<R: Wait + Clock>(
    rt: &R,
    handle: &Handle<Keeper>,
    waker: &Waker,
    is_rung: &AtomicBool,
) -> Result<Ended, Error> {
    thread::sleep(rt, Duration::from_millis(20));
    is_rung.store(true, Ordering::SeqCst);
    waker.wake();
    handle.wait_closed(rt)
}

/// A runner with a waker asks its transport when it is woken: the session ends, which it doesn't before.
#[test]
fn asks_when_it_is_woken(rt: HostRuntime) -> Result<(), Fail> {
    let alloc = rt.alloc();
    let is_rung = Arc::new(alloc, AtomicBool::new(false))?;
    let (handle, runner) = silent(alloc, &is_rung, None)?;
    let mut runner = runner;
    let waker = runner.waker()?;
    let (seen, _left) = at_once(
        &rt,
        &handle,
        |handle| ring(&rt, handle, &waker, &is_rung),
        |_handle| runner.run(&rt),
    );
    assert!(&rt; seen == Ok(Ended::Disconnected));
    Ok(())
}

/// A runner with a waker that nobody wakes takes its timers all the same.
#[test]
fn takes_a_timer_while_nobody_wakes_it(rt: HostRuntime) -> Result<(), Fail> {
    let alloc = rt.alloc();
    let is_rung = Arc::new(alloc, AtomicBool::new(false))?;
    let (_handle, runner) = silent(alloc, &is_rung, Some(30))?;
    let mut runner = runner;
    let _waker = runner.waker()?;
    assert!(&rt; runner.run(&rt) == Err(Error::InactivityTimeout));
    Ok(())
}
