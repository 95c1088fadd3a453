//! The packets of the calls that `payloads.rt` doesn't show, beside the bytes of the standards.

use crate::answers::Came;
use crate::calls::{Answer, Call, DENIED, PROHIBITED};
use crate::logins::{Way, tried};
use crate::script::{Line, scripted};
use sshc_client::{Config, Error};
use sshc_handle::{Handle, HandleCalls, connect_stream};
use sshc_sample_fakes::{Coming, FakeTransport, Host, Keeper, Server, TickingClock, run_beside};
use sshc_toy::{RefusingVerifier, ToySigner};
use sshc_wire::{Disconnect, NoMemory};
use std::alloc::Global;
use std::sync::atomic::{AtomicBool, Ordering};
use std::sync::{Arc, Wait};
use std::test::*;

/// A channel of X11 (RFC 4254, section 6.3.2).
const X11: &[u8] = b"Z\0\0\0\x03x\x31\x31\0\0\0\x01\0\x20\0\0\0\0\x80\0\0\0\0\x01a\0\0\x17p";

/// A connection to a host and a port, for one from an address and a port (RFC 4254, section 7.2).
const DIRECT: &[u8] =
    b"Z\0\0\0\x0cdirect-tcpip\0\0\0\x02\0\x20\0\0\0\0\x80\0\0\0\0\x01h\0\0\0P\0\0\0\x01a\0\0\0\x16";

/// A connection to a Unix socket (OpenSSH's PROTOCOL, section 2.4).
const STREAM: &[u8] =
    b"Z\0\0\0\x1edirect-streamlocal@openssh.com\0\0\0\x03\0\x20\0\0\0\0\x80\0\0\0\0\x02/s\0\0\0\0\0\0\
    \0\0";

/// Host keys to be proved (OpenSSH's PROTOCOL, section 2.5).
pub(crate) const PROVE: &[u8] =
    b"P\0\0\0\x1dhostkeys-prove-\x30\x30@openssh.com\x01\0\0\0\x33\0\0\0\x0bssh-ed\x32\x35\x35\x31\x39\
    \0\0\0\x20\x08\x08\x08\x08\x08\x08\x08\x08\x08\x08\x08\x08\x08\x08\x08\x08\x08\x08\x08\x08\x08\
    \x08\x08\x08\x08\x08\x08\x08\x08\x08\x08\x08";

/// A disconnection with a reason, a description and a language (RFC 4253, section 11.1).
const LEAVE: &[u8] = b"\x01\0\0\0\x02\0\0\0\x03bye\0\0\0\x02en";

/// A login by a key pair, signed by an HMAC as the toy signer makes it (RFC 4252, section 7).
const PAIR: &[u8] =
    b"\x32\0\0\0\x05alice\0\0\0\x0essh-connection\0\0\0\x09publickey\x01\0\0\0\x0bssh-ed\x32\x35\x35\
    \x31\x39\0\0\0\x33\0\0\0\x0bssh-ed\x32\x35\x35\x31\x39\0\0\0\x20\x08\x08\x08\x08\x08\x08\x08\x08\
    \x08\x08\x08\x08\x08\x08\x08\x08\x08\x08\x08\x08\x08\x08\x08\x08\x08\x08\x08\x08\x08\x08\x08\x08\
    \0\0\0'\0\0\0\x0bssh-ed\x32\x35\x35\x31\x39\0\0\0\x14^I\xdf\x9f|L\x89\xa6\xbaK\x0ajS\x36+\xce\
    \x89RXw";

/// The same by a certificate and its pair.
const PAIR_CERT: &[u8] =
    b"\x32\0\0\0\x05alice\0\0\0\x0essh-connection\0\0\0\x09publickey\x01\0\0\0\x20ssh-ed\x32\x35\x35\
    \x31\x39-cert-v\x30\x31@openssh.com\0\0\x01/\0\0\0\x20ssh-ed\x32\x35\x35\x31\x39-cert-v\x30\x31@\
    openssh.com\0\0\0\x20\x01\x01\x01\x01\x01\x01\x01\x01\x01\x01\x01\x01\x01\x01\x01\x01\x01\x01\
    \x01\x01\x01\x01\x01\x01\x01\x01\x01\x01\x01\x01\x01\x01\0\0\0\x20\x08\x08\x08\x08\x08\x08\x08\
    \x08\x08\x08\x08\x08\x08\x08\x08\x08\x08\x08\x08\x08\x08\x08\x08\x08\x08\x08\x08\x08\x08\x08\x08\
    \x08\0\0\0\0\0\0\0\x07\0\0\0\x01\0\0\0\x05alice\0\0\0\0\0\0\0\0\0\0\0\0\xff\xff\xff\xff\xff\xff\
    \xff\xff\0\0\0\0\0\0\0\0\0\0\0\0\0\0\0\x33\0\0\0\x0bssh-ed\x32\x35\x35\x31\x39\0\0\0\x20\x06\x06\
    \x06\x06\x06\x06\x06\x06\x06\x06\x06\x06\x06\x06\x06\x06\x06\x06\x06\x06\x06\x06\x06\x06\x06\x06\
    \x06\x06\x06\x06\x06\x06\0\0\0S\0\0\0\x0bssh-ed\x32\x35\x35\x31\x39\0\0\0@\x09\x09\x09\x09\x09\
    \x09\x09\x09\x09\x09\x09\x09\x09\x09\x09\x09\x09\x09\x09\x09\x09\x09\x09\x09\x09\x09\x09\x09\x09\
    \x09\x09\x09\x09\x09\x09\x09\x09\x09\x09\x09\x09\x09\x09\x09\x09\x09\x09\x09\x09\x09\x09\x09\x09\
    \x09\x09\x09\x09\x09\x09\x09\x09\x09\x09\x09\0\0\0'\0\0\0\x0bssh-ed\x32\x35\x35\x31\x39\0\0\0\
    \x14\x33\x95\x1dY\xd4U\x9a\x1f\xf3\xe5\xec\x96h\xf2\x13\x8f\xcc\x92\xdc\xc1";

/// A key that is asked about (RFC 4252, section 7).
pub(crate) const PROBE: &[u8] =
    b"\x32\0\0\0\x05alice\0\0\0\x0essh-connection\0\0\0\x09publickey\0\0\0\0\x0bssh-ed\x32\x35\x35\x31\
    \x39\0\0\0\x33\0\0\0\x0bssh-ed\x32\x35\x35\x31\x39\0\0\0\x20\x08\x08\x08\x08\x08\x08\x08\x08\x08\
    \x08\x08\x08\x08\x08\x08\x08\x08\x08\x08\x08\x08\x08\x08\x08\x08\x08\x08\x08\x08\x08\x08\x08";

/// The key is accepted.
pub(crate) const PROBE_OK: &[u8] =
    b"<\0\0\0\x0bssh-ed\x32\x35\x35\x31\x39\0\0\0\x33\0\0\0\x0bssh-ed\x32\x35\x35\x31\x39\0\0\0\x20\
    \x08\x08\x08\x08\x08\x08\x08\x08\x08\x08\x08\x08\x08\x08\x08\x08\x08\x08\x08\x08\x08\x08\x08\x08\
    \x08\x08\x08\x08\x08\x08\x08\x08";

/// The same key with the caller's signature.
const SEALED: &[u8] =
    b"\x32\0\0\0\x05alice\0\0\0\x0essh-connection\0\0\0\x09publickey\x01\0\0\0\x0bssh-ed\x32\x35\x35\
    \x31\x39\0\0\0\x33\0\0\0\x0bssh-ed\x32\x35\x35\x31\x39\0\0\0\x20\x08\x08\x08\x08\x08\x08\x08\x08\
    \x08\x08\x08\x08\x08\x08\x08\x08\x08\x08\x08\x08\x08\x08\x08\x08\x08\x08\x08\x08\x08\x08\x08\x08\
    \0\0\0\x04seal";

/// A certificate that is asked about.
const PROBE_CERT: &[u8] =
    b"\x32\0\0\0\x05alice\0\0\0\x0essh-connection\0\0\0\x09publickey\0\0\0\0\x20ssh-ed\x32\x35\x35\x31\
    \x39-cert-v\x30\x31@openssh.com\0\0\x01/\0\0\0\x20ssh-ed\x32\x35\x35\x31\x39-cert-v\x30\x31@open\
    ssh.com\0\0\0\x20\x01\x01\x01\x01\x01\x01\x01\x01\x01\x01\x01\x01\x01\x01\x01\x01\x01\x01\x01\
    \x01\x01\x01\x01\x01\x01\x01\x01\x01\x01\x01\x01\x01\0\0\0\x20\x08\x08\x08\x08\x08\x08\x08\x08\
    \x08\x08\x08\x08\x08\x08\x08\x08\x08\x08\x08\x08\x08\x08\x08\x08\x08\x08\x08\x08\x08\x08\x08\x08\
    \0\0\0\0\0\0\0\x07\0\0\0\x01\0\0\0\x05alice\0\0\0\0\0\0\0\0\0\0\0\0\xff\xff\xff\xff\xff\xff\xff\
    \xff\0\0\0\0\0\0\0\0\0\0\0\0\0\0\0\x33\0\0\0\x0bssh-ed\x32\x35\x35\x31\x39\0\0\0\x20\x06\x06\x06\
    \x06\x06\x06\x06\x06\x06\x06\x06\x06\x06\x06\x06\x06\x06\x06\x06\x06\x06\x06\x06\x06\x06\x06\x06\
    \x06\x06\x06\x06\x06\0\0\0S\0\0\0\x0bssh-ed\x32\x35\x35\x31\x39\0\0\0@\x09\x09\x09\x09\x09\x09\
    \x09\x09\x09\x09\x09\x09\x09\x09\x09\x09\x09\x09\x09\x09\x09\x09\x09\x09\x09\x09\x09\x09\x09\x09\
    \x09\x09\x09\x09\x09\x09\x09\x09\x09\x09\x09\x09\x09\x09\x09\x09\x09\x09\x09\x09\x09\x09\x09\x09\
    \x09\x09\x09\x09\x09\x09\x09\x09\x09\x09";

/// The certificate is accepted.
const PROBE_CERT_OK: &[u8] =
    b"<\0\0\0\x20ssh-ed\x32\x35\x35\x31\x39-cert-v\x30\x31@openssh.com\0\0\x01/\0\0\0\x20ssh-ed\x32\
    \x35\x35\x31\x39-cert-v\x30\x31@openssh.com\0\0\0\x20\x01\x01\x01\x01\x01\x01\x01\x01\x01\x01\
    \x01\x01\x01\x01\x01\x01\x01\x01\x01\x01\x01\x01\x01\x01\x01\x01\x01\x01\x01\x01\x01\x01\0\0\0\
    \x20\x08\x08\x08\x08\x08\x08\x08\x08\x08\x08\x08\x08\x08\x08\x08\x08\x08\x08\x08\x08\x08\x08\x08\
    \x08\x08\x08\x08\x08\x08\x08\x08\x08\0\0\0\0\0\0\0\x07\0\0\0\x01\0\0\0\x05alice\0\0\0\0\0\0\0\0\
    \0\0\0\0\xff\xff\xff\xff\xff\xff\xff\xff\0\0\0\0\0\0\0\0\0\0\0\0\0\0\0\x33\0\0\0\x0bssh-ed\x32\
    \x35\x35\x31\x39\0\0\0\x20\x06\x06\x06\x06\x06\x06\x06\x06\x06\x06\x06\x06\x06\x06\x06\x06\x06\
    \x06\x06\x06\x06\x06\x06\x06\x06\x06\x06\x06\x06\x06\x06\x06\0\0\0S\0\0\0\x0bssh-ed\x32\x35\x35\
    \x31\x39\0\0\0@\x09\x09\x09\x09\x09\x09\x09\x09\x09\x09\x09\x09\x09\x09\x09\x09\x09\x09\x09\x09\
    \x09\x09\x09\x09\x09\x09\x09\x09\x09\x09\x09\x09\x09\x09\x09\x09\x09\x09\x09\x09\x09\x09\x09\x09\
    \x09\x09\x09\x09\x09\x09\x09\x09\x09\x09\x09\x09\x09\x09\x09\x09\x09\x09\x09\x09";

/// The same certificate with the caller's signature.
const SEALED_CERT: &[u8] =
    b"\x32\0\0\0\x05alice\0\0\0\x0essh-connection\0\0\0\x09publickey\x01\0\0\0\x20ssh-ed\x32\x35\x35\
    \x31\x39-cert-v\x30\x31@openssh.com\0\0\x01/\0\0\0\x20ssh-ed\x32\x35\x35\x31\x39-cert-v\x30\x31@\
    openssh.com\0\0\0\x20\x01\x01\x01\x01\x01\x01\x01\x01\x01\x01\x01\x01\x01\x01\x01\x01\x01\x01\
    \x01\x01\x01\x01\x01\x01\x01\x01\x01\x01\x01\x01\x01\x01\0\0\0\x20\x08\x08\x08\x08\x08\x08\x08\
    \x08\x08\x08\x08\x08\x08\x08\x08\x08\x08\x08\x08\x08\x08\x08\x08\x08\x08\x08\x08\x08\x08\x08\x08\
    \x08\0\0\0\0\0\0\0\x07\0\0\0\x01\0\0\0\x05alice\0\0\0\0\0\0\0\0\0\0\0\0\xff\xff\xff\xff\xff\xff\
    \xff\xff\0\0\0\0\0\0\0\0\0\0\0\0\0\0\0\x33\0\0\0\x0bssh-ed\x32\x35\x35\x31\x39\0\0\0\x20\x06\x06\
    \x06\x06\x06\x06\x06\x06\x06\x06\x06\x06\x06\x06\x06\x06\x06\x06\x06\x06\x06\x06\x06\x06\x06\x06\
    \x06\x06\x06\x06\x06\x06\0\0\0S\0\0\0\x0bssh-ed\x32\x35\x35\x31\x39\0\0\0@\x09\x09\x09\x09\x09\
    \x09\x09\x09\x09\x09\x09\x09\x09\x09\x09\x09\x09\x09\x09\x09\x09\x09\x09\x09\x09\x09\x09\x09\x09\
    \x09\x09\x09\x09\x09\x09\x09\x09\x09\x09\x09\x09\x09\x09\x09\x09\x09\x09\x09\x09\x09\x09\x09\x09\
    \x09\x09\x09\x09\x09\x09\x09\x09\x09\x09\x09\0\0\0\x04seal";

/// A login by GSSAPI with one mechanism (RFC 4462, section 3.2).
const GSS: &[u8] =
    b"\x32\0\0\0\x05alice\0\0\0\x0essh-connection\0\0\0\x0fgssapi-with-mic\0\0\0\x01\0\0\0\x0b\x06\x09\
    *\x86H\x86\xf7\x12\x01\x02\x02";

/// The mechanism is chosen (RFC 4462, section 3.3).
const GSS_OK: &[u8] = b"<\0\0\0\x0b\x06\x09*\x86H\x86\xf7\x12\x01\x02\x02";

/// The MIC, as which the stand-in gives the bytes that it is over (RFC 4462, section 3.5).
const MIC: &[u8] =
    b"B\0\0\0=\0\0\0\x0asession-id\x32\0\0\0\x05alice\0\0\0\x0essh-connection\0\0\0\x0fgssapi-with-mic";

/// Opens of each other kind, of which the first is refused, and a proof that is refused.
const ASKED_LINES: &[Line] = &[
    (X11, b"\x5c\0\0\0\x01\0\0\0\x01\0\0\0\0\0\0\0\0"),
    (DIRECT, b"\x5b\0\0\0\x02\0\0\0\x07\0\0\x10\0\0\0\x10\0"),
    (STREAM, b"\x5b\0\0\0\x03\0\0\0\x08\0\0\x10\0\0\0\x10\0"),
    (PROVE, b"\x52"),
];

/// Opens a channel of each other kind, asks for a proof, and leaves.
fn ask_each<R: Wait>(rt: &R, alloc: Global, handle: &Handle<Keeper>) -> [Answer; 4] {
    let x11 = Call::X11.make(rt, alloc, handle);
    let direct = Call::Direct.make(rt, alloc, handle);
    let socket = Call::DirectStreamlocal.make(rt, alloc, handle);
    let proof = Call::Prove.make(rt, alloc, handle);
    let _ = handle.disconnect(rt, Disconnect::ByApplication, "", "");
    [x11, direct, socket, proof]
}

/// The opens of other channels and the request for a proof are written as the standards have them.
#[test]
fn writes_other_opens_and_a_proof(rt: HostRuntime) -> Result<(), Fail> {
    let alloc = rt.alloc();
    let (handle, runner) = scripted(alloc, true, ASKED_LINES)?;
    let (answers, _left) = run_beside(&rt, &handle, runner, |handle| ask_each(&rt, alloc, handle));
    assert!(&rt; answers == [PROHIBITED, Ok(2), Ok(3), DENIED]);
    Ok(())
}

/// What refuses a login.
const REFUSAL: &[u8] = b"\x33\0\0\0\x08password\0";

/// Logins by an authenticator, a pair, a certificate and its pair, and by the caller's signer; the last is let in.
const SIGNED_LINES: &[Line] = &[
    (b"\x05\0\0\0\x0cssh-userauth", b"\x06\0\0\0\x0cssh-userauth"),
    (GSS, GSS_OK),
    (MIC, REFUSAL),
    (PROBE, PROBE_OK),
    (PAIR, REFUSAL),
    (PROBE_CERT, PROBE_CERT_OK),
    (PAIR_CERT, REFUSAL),
    (PROBE, PROBE_OK),
    (SEALED, REFUSAL),
    (PROBE_CERT, PROBE_CERT_OK),
    (SEALED_CERT, b"\x34"),
];

/// Logs in by each of these, and leaves.
fn log_in_by_each<R: Wait>(rt: &R, alloc: Global, handle: &Handle<Keeper>) -> [Came; 5] {
    let gssapi = tried(rt, alloc, handle, Way::Gssapi { refuses: false });
    let pair = tried(rt, alloc, handle, Way::Pair);
    let both = tried(rt, alloc, handle, Way::PairWithCertificate);
    let key = tried(rt, alloc, handle, Way::Key { refuses: false });
    let certificate = tried(rt, alloc, handle, Way::Certificate { refuses: false });
    let _ = handle.disconnect(rt, Disconnect::ByApplication, "", "");
    [gssapi, pair, both, key, certificate]
}

/// Each login by a key, a certificate or GSSAPI is written as the standards have it, with its signature.
#[test]
fn writes_logins_by_keys(rt: HostRuntime) -> Result<(), Fail> {
    let alloc = rt.alloc();
    let (handle, runner) = scripted(alloc, false, SIGNED_LINES)?;
    let (came, _left) = run_beside(
        &rt,
        &handle,
        runner,
        |handle| log_in_by_each(&rt, alloc, handle),
    );
    assert!(&rt; came == [Came::Out, Came::Out, Came::Out, Came::Out, Came::In]);
    Ok(())
}

/// A server that says whether the last packet that it heard is the awaited one.
#[derive(Drop)]
struct Parted {
    host: Host,
    heard: Arc<AtomicBool, Global>,
}

impl Server for Parted {
    fn hear(&mut self, packet: &[u8], _coming: &mut Coming) -> Result<(), NoMemory> {
        self.heard.store(packet == LEAVE, Ordering::SeqCst);
        Ok(())
    }

    fn exchange(&mut self, coming: &mut Coming) -> Result<(), NoMemory> {
        self.host.exchange(coming)
    }
}

/// A disconnection before a runner's only turns: whether it is written as the standard has it.
fn is_parted<R: Wait + std::time::Clock>(rt: &R, alloc: Global) -> Result<bool, Error> {
    let heard = Arc::new(alloc, AtomicBool::new(false))?;
    let host = Host::new(alloc, 1);
    let coming = host.greeting()?;
    let server = Parted {
        host,
        heard: Arc::try_clone(&heard)?,
    };
    let mut config = Config::default_in(alloc)?;
    config.anonymous = true;
    let (handle, runner) = connect_stream(
        alloc,
        config,
        FakeTransport::new(server, coming, 1000),
        Keeper,
        ToySigner::new(alloc),
        RefusingVerifier,
        TickingClock { now: 0, step: 0 },
    )?;
    handle.disconnect(rt, Disconnect::ProtocolError, "bye", "en")?;
    let _left = runner.run(rt);
    Ok(heard.load(Ordering::SeqCst))
}

/// A disconnection is written with its reason, its description and the tag of its language.
#[test]
fn writes_a_disconnection(rt: HostRuntime) -> Result<(), Fail> {
    assert!(&rt; is_parted(&rt, rt.alloc())?);
    Ok(())
}
