//! Two proofs of host keys that are asked for at once, of which the server gives one.

use crate::calls::{Call, DENIED, are, make_both};
use crate::packets::PROVE;
use sshc_client::{Config, Error};
use sshc_handle::{Handle, Runner, connect_stream};
use sshc_sample_fakes::{Coming, FakeTransport, Host, Keeper, Server, StillClock, at_once};
use sshc_toy::{ToySigner, ToyVerifier};
use sshc_wire::NoMemory;
use std::alloc::Global;
use std::test::*;

/// The server grants the request, with the toy pair's signature by the key over the request's name, the session id and
/// the key (OpenSSH's PROTOCOL, section 2.5).
const PROOF: &[u8] =
    b"Q\0\0\0'\0\0\0\x0bssh-ed\x32\x35\x35\x31\x39\0\0\0\x14\xec\xf4\xa4\x06\xbd\xf1*\xcbP\xd2\x11\
    +j\x35\xcd\xdcBwN\0";

/// The server refuses the request.
const REFUSAL: &[u8] = b"\x52";

/// A server that awaits two requests for a proof, and gives a proof for the first alone.
#[derive(Drop)]
struct OneProof {
    host: Host,
    /// Whether it has heard the first.
    has_heard: bool,
}

impl Server for OneProof {
    fn hear(&mut self, packet: &[u8], coming: &mut Coming) -> Result<(), NoMemory> {
        if packet != PROVE {
            coming.end();
            return Ok(());
        }
        if self.has_heard {
            coming.packet(PROOF)?;
            return coming.packet(REFUSAL);
        }
        self.has_heard = true;
        Ok(())
    }

    fn exchange(&mut self, coming: &mut Coming) -> Result<(), NoMemory> {
        self.host.exchange(coming)
    }
}

/// A runner that verifies by the toy pair.
type OneProofRunner = Runner<Keeper, FakeTransport<OneProof>, ToySigner, ToyVerifier, StillClock>;

/// A session over such a server, which its first exchange opens.
fn session(alloc: Global) -> Result<(Handle<Keeper>, OneProofRunner), Error> {
    let host = Host::new(alloc, 1);
    let coming = host.greeting()?;
    let server = OneProof {
        host,
        has_heard: false,
    };
    let mut config = Config::default_in(alloc)?;
    config.anonymous = true;
    connect_stream(
        alloc,
        config,
        FakeTransport::new(server, coming, 1000),
        Keeper,
        ToySigner::new(alloc),
        ToyVerifier::new(alloc),
        StillClock(0),
    )
}

/// Of two proofs of a key that are asked for at once, the one that the server gives is accepted, and the other is denied:
/// the requests are written as the document has them.
#[test]
fn accepts_the_proof_that_is_given(rt: HostRuntime) -> Result<(), Fail> {
    let alloc = rt.alloc();
    let (handle, runner) = session(alloc)?;
    let (both, _left) = at_once(
        &rt,
        &handle,
        |handle| make_both(&rt, alloc, handle, Call::Prove, Call::Prove),
        |_handle| runner.run(&rt),
    );
    assert!(&rt; are(both, Ok(0), DENIED));
    Ok(())
}
