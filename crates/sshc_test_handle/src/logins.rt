//! Logins of each kind, with signers and authenticators of the caller's: two that are open at once, of which the
//! first is replaced.

use crate::answers::{Came, leave, logged_in, prompted, respond, together};
use sshc_auth::{Error, GssapiAuthenticator, GssapiError, GssapiStep};
use sshc_client::Config;
use sshc_handle::{AuthResult, Handle, HandleCalls, WithError};
use sshc_key::{AgentIdentity, HashAlg, PrivateKeyWithHashAlg, Signer};
use sshc_sample_fakes::{
    FakeRunner, Host, Keeper, at_once, fake_certificate, fake_key, fake_pair, hosted, run_beside,
};
use sshc_wire::Octets;
use std::alloc::Global;
use std::sync::Wait;
use std::test::*;
use std::thread::Threads;
use std::time::Clock;

/// Why a stand-in refuses.
#[derive(Clone, Copy)]
struct Refused;

/// Signs with four bytes, or refuses; what isn't a login's it refuses too.
#[derive(Clone, Copy)]
struct Seal {
    refuses: bool,
    refusals: u64,
}

/// How the bytes begin that a key is to sign (RFC 4252, section 7).
const SIGNED: &[u8] =
    b"\0\0\0\x0asession-id\x32\0\0\0\x05alice\0\0\0\x0essh-connection\0\0\0\x09publickey\x01";

/// What a MIC is over (RFC 4462, section 3.5).
const MIC_DATA: &[u8] =
    b"\0\0\0\x0asession-id\x32\0\0\0\x05alice\0\0\0\x0essh-connection\0\0\0\x0fgssapi-with-mic";

/// The mechanism Kerberos 5 (RFC 1964, section 1).
const KERBEROS: &[u8] = b"\x06\x09\x2a\x86\x48\x86\xf7\x12\x01\x02\x02";

fn is_kerberos(mechanism: &Option<Octets>) -> bool {
    match mechanism {
        Some(oid) => oid.as_slice() == KERBEROS,
        None => false,
    }
}

impl Signer for Seal {
    type Error = Refused;

    ghost refusals = { λ s. s.refusals };

    fn auth_sign(
        &mut self,
        _key: &AgentIdentity,
        _hash: Option<HashAlg>,
        bytes: Vec<u8>,
    ) -> Result<Vec<u8>, Refused> {
        let mut signed = bytes;
        if self.refuses
            || !signed.starts_with(SIGNED)
            || signed.extend_from_slice(b"\0\0\0\x04seal").is_err()
        {
            self.refusals = self.refusals.saturating_add(1);
            return Err(Refused);
        }
        Ok(signed)
    }
}

impl GssapiAuthenticator for Seal {
    type Error = Refused;

    ghost refusals = { λ s. s.refusals };

    fn gssapi_step(
        &mut self,
        selected_mechanism: Option<Octets>,
        _token: Option<Octets>,
        mic_data: Octets,
    ) -> Result<GssapiStep, Refused> {
        if self.refuses || !is_kerberos(&selected_mechanism) || mic_data.as_slice() != MIC_DATA {
            self.refusals = self.refusals.saturating_add(1);
            return Err(Refused);
        }
        Ok(GssapiStep::Complete {
            token: None,
            mic: Some(mic_data),
        })
    }

    fn gssapi_error(&mut self, _error: GssapiError) {}
}

/// How a user logs in.
#[derive(Clone, Copy)]
pub(crate) enum Way {
    None,
    Password(&'static str),
    Pair,
    PairWithCertificate,
    Prompts,
    Key { refuses: bool },
    Certificate { refuses: bool },
    Gssapi { refuses: bool },
}

fn came_to(answer: Result<AuthResult, WithError<Refused>>) -> Came {
    match answer {
        Ok(AuthResult::Success) => Came::In,
        Ok(AuthResult::Failure { .. }) => Came::Out,
        Err(WithError::Signer(Refused)) => Came::Refused,
        Err(WithError::Session(e)) => Came::Failed(e),
    }
}

/// By prompts: one is asked, and answered.
fn by_prompts<R: Wait>(rt: &R, alloc: Global, handle: &Handle<Keeper>) -> Came {
    let begun = prompted(handle.authenticate_keyboard_interactive_start(rt, "alice", None));
    if begun == Came::Prompted {
        respond(rt, alloc, handle)
    } else {
        begun
    }
}

fn by_pair<R: Wait>(rt: &R, alloc: Global, handle: &Handle<Keeper>) -> Result<AuthResult, Error> {
    let pair = PrivateKeyWithHashAlg::new(fake_pair(alloc)?, None);
    handle.authenticate_publickey(rt, "alice", pair)
}

fn by_both<R: Wait>(rt: &R, alloc: Global, handle: &Handle<Keeper>) -> Result<AuthResult, Error> {
    let (cert, pair) = together(fake_certificate(alloc), fake_pair(alloc))?;
    handle.authenticate_openssh_cert(rt, "alice", pair, cert)
}

fn by_key<R: Wait>(
    rt: &R,
    alloc: Global,
    handle: &Handle<Keeper>,
    seal: &mut Seal,
) -> Result<AuthResult, WithError<Refused>> {
    match fake_key(alloc) {
        Ok(key) => handle.authenticate_publickey_with(rt, "alice", key, None, seal),
        Err(e) => Err(WithError::Session(Error::from(e))),
    }
}

fn by_certificate<R: Wait>(
    rt: &R,
    alloc: Global,
    handle: &Handle<Keeper>,
    seal: &mut Seal,
) -> Result<AuthResult, WithError<Refused>> {
    match fake_certificate(alloc) {
        Ok(cert) => handle.authenticate_certificate_with(rt, "alice", cert, None, seal),
        Err(e) => Err(WithError::Session(Error::from(e))),
    }
}

fn mechanisms(alloc: Global) -> Result<Vec<Octets>, Error> {
    let mut oids = Vec::new(alloc);
    oids.push(Octets::from_slice(alloc, KERBEROS)?)?;
    Ok(oids)
}

fn by_gssapi<R: Wait>(
    rt: &R,
    alloc: Global,
    handle: &Handle<Keeper>,
    seal: &mut Seal,
) -> Result<AuthResult, WithError<Refused>> {
    let oids = mechanisms(alloc)?;
    handle.authenticate_gssapi_with_mic(rt, "alice", oids, seal)
}

fn sealing(refuses: bool) -> Seal {
    Seal {
        refuses,
        refusals: 0,
    }
}

pub(crate) fn tried<R: Wait>(rt: &R, alloc: Global, handle: &Handle<Keeper>, way: Way) -> Came {
    match way {
        Way::None => logged_in(handle.authenticate_none(rt, "alice")),
        Way::Password(user) => logged_in(handle.authenticate_password(rt, user, "pw")),
        Way::Pair => logged_in(by_pair(rt, alloc, handle)),
        Way::PairWithCertificate => logged_in(by_both(rt, alloc, handle)),
        Way::Prompts => by_prompts(rt, alloc, handle),
        Way::Key { refuses } => came_to(by_key(rt, alloc, handle, &mut sealing(refuses))),
        Way::Certificate { refuses } => came_to(by_certificate(
            rt,
            alloc,
            handle,
            &mut sealing(refuses),
        )),
        Way::Gssapi { refuses } => came_to(by_gssapi(rt, alloc, handle, &mut sealing(refuses))),
    }
}

/// Logs in by one way and then by another, and leaves.
fn in_turn<R: Wait>(
    rt: &R,
    alloc: Global,
    handle: &Handle<Keeper>,
    first: Way,
    second: Way,
) -> (Came, Came) {
    let one = tried(rt, alloc, handle, first);
    let two = tried(rt, alloc, handle, second);
    let _ = leave(rt, handle);
    (one, two)
}

/// Logs in twice at once by one way, and leaves.
fn both_at_once<R: Threads + Wait + Sync>(
    rt: &R,
    alloc: Global,
    handle: &Handle<Keeper>,
    way: Way,
) -> (Came, Came) {
    let both = at_once(
        rt,
        handle,
        |handle| tried(rt, alloc, handle, way),
        |handle| tried(rt, alloc, handle, way),
    );
    let _ = leave(rt, handle);
    both
}

/// A session over this host, with the default settings.
fn greeted(alloc: Global, host: Host) -> Result<(Handle<Keeper>, FakeRunner<Host>), Error> {
    let coming = host.greeting()?;
    hosted(alloc, Config::default_in(alloc)?, host, coming, 1000, 0)
}

/// Two logins at once by one way, over a host that answers the later of them.
fn both_come<R: Threads + Wait + Sync + Clock>(
    rt: &R,
    alloc: Global,
    way: Way,
) -> Result<(Came, Came), Error> {
    let (handle, runner) = greeted(alloc, Host::new(alloc, 2))?;
    let (came, _left) = run_beside(
        rt,
        &handle,
        runner,
        |handle| both_at_once(rt, alloc, handle, way),
    );
    Ok(came)
}

/// A way of each kind.
const WAYS: &[(&str, Way)] = &[
    ("none", Way::None),
    ("password", Way::Password("alice")),
    ("pair", Way::Pair),
    ("pair with certificate", Way::PairWithCertificate),
    ("prompts", Way::Prompts),
    ("key", Way::Key { refuses: false }),
    ("certificate", Way::Certificate { refuses: false }),
    ("gssapi", Way::Gssapi { refuses: false }),
];

/// Whether one of the two was replaced, and the other came in.
fn is_one_replaced(came: (Came, Came)) -> bool {
    let replaced = Came::Failed(Error::Disconnect);
    (came.0 == replaced && came.1 == Came::In) || (came.0 == Came::In && came.1 == replaced)
}

/// Of two logins at once the host answers the one that replaced the other.
#[test]
fn replaces_a_login(rt: HostRuntime) -> Result<(), Fail> {
    for (name, way) in WAYS {
        assert!(&rt;
            is_one_replaced(both_come(&rt, rt.alloc(), *way)?),
            "{name}"
        );
    }
    Ok(())
}

/// Two logins, of which the second follows the first.
fn comes_in<R: Threads + Wait + Sync + Clock>(
    rt: &R,
    alloc: Global,
    first: Way,
    second: Way,
) -> Result<(Came, Came), Error> {
    let (handle, runner) = greeted(alloc, Host::new(alloc, 1))?;
    let (came, _left) = run_beside(
        rt,
        &handle,
        runner,
        |handle| in_turn(rt, alloc, handle, first, second),
    );
    Ok(came)
}

/// Logins that are refused, by the server or by the caller's signer or authenticator: how each comes out, and how a
/// login by a password comes out that follows it, where that is looked at.
const REFUSED: &[(&str, Way, Came, Option<Came>)] = &[
    (
        "password",
        Way::Password("refused"),
        Came::Out,
        Some(Came::In),
    ),
    (
        "key",
        Way::Key { refuses: true },
        Came::Refused,
        Some(Came::In),
    ),
    (
        "certificate",
        Way::Certificate { refuses: true },
        Came::Refused,
        Some(Came::In),
    ),
    ("gssapi", Way::Gssapi { refuses: true }, Came::Refused, None),
];

/// Whether the logins came out so.
fn came_so(came: (Came, Came), first: Came, second: Option<Came>) -> bool {
    came.0 == first && (second.is_none() || second == Some(came.1))
}

#[test]
fn logs_in_behind_a_refusal(rt: HostRuntime) -> Result<(), Fail> {
    for (name, way, first, second) in REFUSED {
        let came = comes_in(&rt, rt.alloc(), *way, Way::Password("alice"))?;
        assert!(&rt; came_so(came, *first, *second), "{name}");
    }
    Ok(())
}

/// Responds to the prompts, and leaves.
fn respond_and_leave<R: Wait>(rt: &R, alloc: Global, handle: &Handle<Keeper>) -> Came {
    let came = respond(rt, alloc, handle);
    let _ = leave(rt, handle);
    came
}

/// Begins a login by prompts, and responds from two threads at once.
fn respond_twice<R: Threads + Wait + Sync>(
    rt: &R,
    alloc: Global,
    handle: &Handle<Keeper>,
) -> (Came, (Came, Came)) {
    let begun = prompted(handle.authenticate_keyboard_interactive_start(rt, "alice", None));
    let both = at_once(
        rt,
        handle,
        |handle| respond_and_leave(rt, alloc, handle),
        |handle| respond_and_leave(rt, alloc, handle),
    );
    (begun, both)
}

/// Whether responses came too late: the login had its answer, or the session had ended.
fn is_late(came: Came) -> bool {
    came == Came::Failed(Error::RecvError)
        || came == Came::Failed(Error::Disconnect)
        || came == Came::Failed(Error::SendError)
}

/// Of two responses at once one has the login's answer, and the other comes too late.
#[test]
fn responds_from_two_threads(rt: HostRuntime) -> Result<(), Fail> {
    let alloc = rt.alloc();
    let (handle, runner) = greeted(alloc, Host::new(alloc, 1))?;
    let ((begun, (one, two)), _left) = run_beside(
        &rt,
        &handle,
        runner,
        |handle| respond_twice(&rt, alloc, handle),
    );
    assert!(&rt; begun == Came::Prompted);
    assert!(&rt; (one == Came::In && is_late(two)) || (is_late(one) && two == Came::In));
    Ok(())
}
