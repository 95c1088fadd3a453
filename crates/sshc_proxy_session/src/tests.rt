//! What both of the proxy's modes do with a request to sign, after the same bindings.

ghost use Rattle.std.specs.Prelude.{true};

use crate::{Refusal, SessionConnection, SessionInput, SessionOutput, SessionPolicy, SessionRule};
use sshc_key::{KeyData, Signature, Verifier, agent_msg};
use sshc_proxy::{ProxyCore, ProxyInput, ProxyOutput, parse_policy};
use sshc_wire::{List, NoMemory, Octets, put_string};
use std::alloc::Global;
use std::test::Fail;

/// Takes each signature for its key's.
#[derive(Clone, Copy)]
struct Accepting;

impl Verifier for Accepting {
    ghost accepts = { λ v key bytes sig. true };

    fn verifies(&self, _key: &KeyData, _bytes: &[u8], _sig: &Signature) -> Result<bool, NoMemory> {
        Ok(true)
    }
}

/// What a client asks. A key is an Ed25519 key whose public part is 32 times one byte.
#[derive(Clone, Copy)]
enum Asks {
    /// Binds the session of this name to this host key, and tells whether it forwards the agent.
    Binds(u8, &'static [u8], bool),
    /// Asks for a signature over a login in this session, as this user, which names this host key or none.
    Logs(&'static [u8], &'static [u8], Option<u8>),
    /// Asks for a signature over these bytes.
    Signs(&'static [u8]),
}

const KEY: u8 = 0x11;

const HOST: u8 = 0x22;

const NEXT: u8 = 0x33;

/// Both hosts' other key.
const OTHER: u8 = 0x44;

/// What is asked, in order; why the last is refused by session, if it is; and whether it is forwarded by hosts.
type Row = (&'static [Asks], Option<Refusal>, bool);

const ROWS: &[Row] = &[
    (
        &[
            Asks::Binds(HOST, b"one", false),
            Asks::Logs(b"one", b"alice", None),
        ],
        None,
        true,
    ),
    (
        &[
            Asks::Binds(HOST, b"one", false),
            Asks::Logs(b"two", b"alice", None),
        ],
        Some(Refusal::OtherSession),
        true,
    ),
    (
        &[
            Asks::Binds(HOST, b"one", true),
            Asks::Logs(b"one", b"alice", None),
        ],
        Some(Refusal::Forwarding),
        true,
    ),
    (
        &[Asks::Binds(HOST, b"one", false), Asks::Signs(b"any bytes")],
        Some(Refusal::NoLogin),
        true,
    ),
    (
        &[
            Asks::Binds(HOST, b"one", false),
            Asks::Logs(b"one", b"bob", None),
        ],
        Some(Refusal::NotAllowed),
        true,
    ),
    (
        &[
            Asks::Binds(HOST, b"one", true),
            Asks::Binds(NEXT, b"two", false),
            Asks::Logs(b"two", b"alice", Some(NEXT)),
        ],
        None,
        true,
    ),
    (
        &[
            Asks::Binds(HOST, b"one", true),
            Asks::Binds(NEXT, b"two", false),
            Asks::Logs(b"two", b"alice", None),
        ],
        Some(Refusal::OtherHost),
        true,
    ),
    (
        &[
            Asks::Binds(NEXT, b"two", false),
            Asks::Logs(b"two", b"alice", Some(NEXT)),
        ],
        Some(Refusal::NotAllowed),
        true,
    ),
    (
        &[Asks::Logs(b"one", b"alice", None)],
        Some(Refusal::NothingBound),
        false,
    ),
];

/// Both hosts, for the mode by hosts.
const BY_HOSTS: &str = "allow AAAAC3NzaC1lZDI1NTE5AAAAIBERERERERERERERERERERERERERERERERERERERERER \
    AAAAC3NzaC1lZDI1NTE5AAAAICIiIiIiIiIiIiIiIiIiIiIiIiIiIiIiIiIiIiIiIiIi\n\
    allow AAAAC3NzaC1lZDI1NTE5AAAAIBERERERERERERERERERERERERERERERERERERERERER \
    AAAAC3NzaC1lZDI1NTE5AAAAIDMzMzMzMzMzMzMzMzMzMzMzMzMzMzMzMzMzMzMzMzMz";

/// The blob of the key.
fn blob(alloc: Global, key: u8) -> Result<Octets, NoMemory> {
    let mut out = Vec::new(alloc);
    put_string(&mut out, b"ssh-ed25519")?;
    put_string(&mut out, &[key; 32])?;
    Octets::from_vec(out)
}

/// A host with another key beside this one.
fn keys(alloc: Global, host: u8) -> Result<List<Octets>, NoMemory> {
    let mut keys = List::new(alloc);
    keys.push(blob(alloc, OTHER)?)?;
    keys.push(blob(alloc, host)?)?;
    Ok(keys)
}

fn rule(alloc: Global, host: u8, via: List<List<Octets>>) -> Result<SessionRule, NoMemory> {
    Ok(SessionRule {
        key: blob(alloc, KEY)?,
        user: Some(Octets::from_slice(alloc, b"alice")?),
        host: keys(alloc, host)?,
        via,
    })
}

/// The key logs in as alice to the host, and over it to the next.
fn by_session(alloc: Global) -> Result<SessionPolicy, NoMemory> {
    let mut via = List::new(alloc);
    via.push(keys(alloc, HOST)?)?;
    let mut rules = List::new(alloc);
    rules.push(rule(alloc, HOST, List::new(alloc))?)?;
    rules.push(rule(alloc, NEXT, via)?)?;
    Ok(SessionPolicy::new(rules))
}

fn binds(
    alloc: Global,
    host: u8,
    session_id: &[u8],
    is_forwarding: bool,
) -> Result<Octets, NoMemory> {
    let mut signature = Vec::new(alloc);
    put_string(&mut signature, b"ssh-ed25519")?;
    put_string(&mut signature, &[7; 64])?;
    let mut out = Vec::from_slice(alloc, &[agent_msg::EXTENSION])?;
    put_string(&mut out, b"session-bind@openssh.com")?;
    put_string(&mut out, blob(alloc, host)?.as_slice())?;
    put_string(&mut out, session_id)?;
    put_string(&mut out, &signature)?;
    out.push(u8::from(is_forwarding))?;
    Octets::from_vec(out)
}

fn signs(alloc: Global, bytes: &[u8]) -> Result<Octets, NoMemory> {
    let mut out = Vec::from_slice(alloc, &[agent_msg::SIGN_REQUEST])?;
    put_string(&mut out, blob(alloc, KEY)?.as_slice())?;
    put_string(&mut out, bytes)?;
    out.extend_from_slice(&[0, 0, 0, 0])?;
    Octets::from_vec(out)
}

fn logs(
    alloc: Global,
    session_id: &[u8],
    user: &[u8],
    host: Option<u8>,
) -> Result<Octets, NoMemory> {
    let mut out = Vec::new(alloc);
    put_string(&mut out, session_id)?;
    out.push(50)?;
    put_string(&mut out, user)?;
    put_string(&mut out, b"ssh-connection")?;
    match host {
        Some(_) => put_string(&mut out, b"publickey-hostbound-v00@openssh.com")?,
        None => put_string(&mut out, b"publickey")?,
    }
    out.push(1)?;
    put_string(&mut out, b"ssh-ed25519")?;
    put_string(&mut out, blob(alloc, KEY)?.as_slice())?;
    if let Some(host) = host {
        put_string(&mut out, blob(alloc, host)?.as_slice())?;
    }
    signs(alloc, &out)
}

fn frame_of(alloc: Global, asks: Asks) -> Result<Octets, NoMemory> {
    match asks {
        Asks::Binds(host, session_id, is_forwarding) => {
            binds(alloc, host, session_id, is_forwarding)
        }
        Asks::Logs(session_id, user, host) => logs(alloc, session_id, user, host),
        Asks::Signs(bytes) => signs(alloc, bytes),
    }
}

/// Why the last is refused by session; whether it came to anything else is told by the first.
fn refused(alloc: Global, asks: &[Asks]) -> Result<(bool, Option<Refusal>), NoMemory> {
    let policy = by_session(alloc)?;
    let mut connection = SessionConnection::new(alloc);
    let mut last = (false, None);
    for one in asks {
        let input = SessionInput::Frame(frame_of(alloc, *one)?);
        last = match connection.step(&policy, &input, &Accepting) {
            SessionOutput::Forward(_) => (true, None),
            SessionOutput::Refused(reason) => (false, Some(reason)),
            _ => (false, None),
        };
    }
    Ok(last)
}

/// Whether the last is forwarded by hosts.
fn is_forwarded(alloc: Global, asks: &[Asks]) -> Result<bool, NoMemory> {
    let Ok(policy) = parse_policy(alloc, BY_HOSTS) else {
        return Err(NoMemory);
    };
    let mut core = ProxyCore::new(policy);
    let mut last = false;
    for one in asks {
        let input = ProxyInput::Frame(frame_of(alloc, *one)?);
        last = match core.step(3, &input, &Accepting) {
            ProxyOutput::Forward(_) => true,
            _ => false,
        };
    }
    Ok(last)
}

#[test]
fn a_signature_is_tied_to_its_session(rt: HostRuntime) -> Result<(), Fail> {
    for (number, row) in ROWS.iter().enumerate() {
        let by_session = refused(rt.alloc(), row.0)?;
        assert_eq!(rt; by_session, (row.1.is_none(), row.1), "row {number}");
        let by_hosts = is_forwarded(rt.alloc(), row.0)?;
        assert_eq!(rt; by_hosts, row.2, "row {number}");
    }
    Ok(())
}
