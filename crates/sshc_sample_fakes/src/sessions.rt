//! A session whose every part is a stand-in.

use crate::beside::FakeRunner;
use crate::clock::TickingClock;
use crate::host::Host;
use crate::keeper::Keeper;
use crate::server::Coming;
use crate::transport::FakeTransport;
use sshc_client::{Config, Error};
use sshc_handle::{Handle, connect_stream};
use sshc_toy::{RefusingVerifier, ToySigner};
use std::alloc::Global;

/// A session with these settings over a host, with these first events; the transport takes `good` packets before a call
/// fails, and the clock advances by this step.
pub fn hosted(
    alloc: Global,
    config: Config,
    host: Host,
    coming: Coming,
    good: u64,
    step: u64,
) -> Result<(Handle<Keeper>, FakeRunner<Host>), Error> {
    connect_stream(
        alloc,
        config,
        FakeTransport::new(host, coming, good),
        Keeper,
        ToySigner::new(alloc),
        RefusingVerifier,
        TickingClock { now: 0, step },
    )
}

/// A session like that whose first exchange opens it, over a host that takes each packet, with a clock that doesn't
/// move.
pub fn opened(alloc: Global, host: Host) -> Result<(Handle<Keeper>, FakeRunner<Host>), Error> {
    let mut config = Config::default_in(alloc)?;
    config.anonymous = true;
    let coming = host.greeting()?;
    hosted(alloc, config, host, coming, u64::MAX, 0)
}
