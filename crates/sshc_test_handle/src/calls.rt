//! Calls of one kind from two threads, which are open at once and answered differently.

use crate::answers::leave;
use sshc_auth::Error;
use sshc_handle::{Channel, Handle, HandleCalls};
use sshc_sample_fakes::{Host, Keeper, at_once, fake_key, opened, run_beside};
use sshc_wire::{ChannelOpenFailure, HashAlg, NoMemory};
use std::alloc::Global;
use std::sync::Wait;
use std::test::*;
use std::thread::Threads;
use std::time::Clock;

/// A call with a ticket.
#[derive(Clone, Copy)]
pub(crate) enum Call {
    Forward,
    CancelForward,
    Streamlocal,
    CancelStreamlocal,
    Global,
    Session,
    X11,
    Direct,
    DirectStreamlocal,
    Prove,
    Ping,
    RsaHash,
}

impl Call {
    /// Makes the call. Returns its number, if it has one, else 0.
    pub(crate) fn make<R: Wait>(
        self,
        rt: &R,
        alloc: Global,
        handle: &Handle<Keeper>,
    ) -> Result<u32, Error> {
        match self {
            Call::Forward => handle.tcpip_forward(rt, "", 0),
            Call::CancelForward => numbered(handle.cancel_tcpip_forward(rt, "", 1)),
            Call::Streamlocal => numbered(handle.streamlocal_forward(rt, "/s")),
            Call::CancelStreamlocal => numbered(handle.cancel_streamlocal_forward(rt, "/s")),
            Call::Global => numbered(asks_globally(rt, handle)),
            Call::Session => number_of(handle.channel_open_session(rt)),
            Call::X11 => number_of(handle.channel_open_x11(rt, "a", 6000)),
            Call::Direct => number_of(handle.channel_open_direct_tcpip(rt, "h", 80, "a", 22)),
            Call::DirectStreamlocal => number_of(handle.channel_open_direct_streamlocal(rt, "/s")),
            Call::Prove => numbered(proves(rt, alloc, handle)),
            Call::Ping => numbered(handle.send_ping(rt)),
            Call::RsaHash => hash_number(handle.best_supported_rsa_hash(rt)),
        }
    }
}

fn numbered(answer: Result<(), Error>) -> Result<u32, Error> {
    answer?;
    Ok(0)
}

/// 0 where no list of names is known, 1 where it names no hash, else 2.
fn hash_number(answer: Result<Option<Option<HashAlg>>, Error>) -> Result<u32, Error> {
    match answer? {
        None => Ok(0),
        Some(None) => Ok(1),
        Some(Some(_)) => Ok(2),
    }
}

fn number_of(channel: Result<Channel<Keeper>, Error>) -> Result<u32, Error> {
    Ok(channel?.id().0)
}

fn asks_globally<R: Wait>(rt: &R, handle: &Handle<Keeper>) -> Result<(), Error> {
    let reply = handle.send_global_request(rt, "own", b"", true)?;
    if reply.is_some() {
        Ok(())
    } else {
        Err(Error::Inconsistent)
    }
}

fn proves<R: Wait>(rt: &R, alloc: Global, handle: &Handle<Keeper>) -> Result<(), Error> {
    let keys = only(alloc, fake_key(alloc))?;
    handle.hostkeys_prove(rt, keys)
}

/// A list of one.
fn only<T: Drop>(alloc: Global, item: Result<T, NoMemory>) -> Result<Vec<T>, NoMemory> {
    let mut list = Vec::new(alloc);
    list.push(item?)?;
    Ok(list)
}

/// The answers to two calls that were open at once.
#[derive(Clone, Copy)]
pub(crate) struct Both {
    first: Result<u32, Error>,
    second: Result<u32, Error>,
}

/// Makes both calls at once, and leaves.
pub(crate) fn make_both<R: Threads + Wait + Sync>(
    rt: &R,
    alloc: Global,
    handle: &Handle<Keeper>,
    first: Call,
    second: Call,
) -> Both {
    let (first, second) = at_once(
        rt,
        handle,
        |handle| first.make(rt, alloc, handle),
        |handle| second.make(rt, alloc, handle),
    );
    let _ = leave(rt, handle);
    Both { first, second }
}

/// A host that answers two requests together.
#[derive(Clone, Copy)]
enum Kind {
    /// It grants the one that it heard first, and refuses the other.
    GrantsFirst,
    GrantsBoth,
    /// It answers the first, and closes the stream.
    Closes,
}

fn host_of(alloc: Global, kind: Kind) -> Host {
    match kind {
        Kind::GrantsFirst => Host::new(alloc, 2),
        Kind::GrantsBoth => Host::granting(alloc, 2),
        Kind::Closes => Host::closing(alloc, 2),
    }
}

/// Both calls with this host, in a session that is open from the first exchange on, and the second once more after its
/// end.
fn answered<R: Threads + Wait + Sync + Clock>(
    rt: &R,
    alloc: Global,
    kind: Kind,
    first: Call,
    second: Call,
) -> Result<(Both, Result<u32, Error>), Error> {
    let (handle, runner) = opened(alloc, host_of(alloc, kind))?;
    let (both, _left) = run_beside(
        rt,
        &handle,
        runner,
        |handle| make_both(rt, alloc, handle, first, second),
    );
    Ok((both, second.make(rt, alloc, &handle)))
}

/// The number of a call that has one, or its error.
pub(crate) type Answer = Result<u32, Error>;

/// What refuses a request.
pub(crate) const DENIED: Answer = Err(Error::RequestDenied);

/// What refuses a channel.
pub(crate) const PROHIBITED: Answer = Err(Error::ChannelOpenFailure(
    ChannelOpenFailure::AdministrativelyProhibited,
));

/// Two calls of one kind from two threads: a name, the host, the call, the answer to the one that was heard first, and
/// that to the other.
const OF_ONE_KIND: &[(&str, Kind, Call, Answer, Answer)] = &[
    // Of two forwards of port 0 one is granted 4022.
    (
        "forward",
        Kind::GrantsFirst,
        Call::Forward,
        Ok(4022),
        DENIED,
    ),
    (
        "cancel forward",
        Kind::GrantsFirst,
        Call::CancelForward,
        Ok(0),
        DENIED,
    ),
    (
        "streamlocal",
        Kind::GrantsFirst,
        Call::Streamlocal,
        Ok(0),
        DENIED,
    ),
    (
        "cancel streamlocal",
        Kind::GrantsFirst,
        Call::CancelStreamlocal,
        Ok(0),
        DENIED,
    ),
    ("own", Kind::GrantsFirst, Call::Global, Ok(0), DENIED),
    (
        "session",
        Kind::GrantsFirst,
        Call::Session,
        Ok(1),
        PROHIBITED,
    ),
    ("x11", Kind::GrantsFirst, Call::X11, Ok(1), PROHIBITED),
    ("direct", Kind::GrantsFirst, Call::Direct, Ok(1), PROHIBITED),
    (
        "direct streamlocal",
        Kind::GrantsFirst,
        Call::DirectStreamlocal,
        Ok(1),
        PROHIBITED,
    ),
    // The request is granted, but the answer has no proof in it.
    (
        "prove",
        Kind::GrantsFirst,
        Call::Prove,
        Err(Error::SshEncoding),
        DENIED,
    ),
    // No host is asked: the server has sent no list of names.
    ("rsa hash", Kind::GrantsFirst, Call::RsaHash, Ok(0), Ok(0)),
    // The host answers the first ping, and the other is open at the end.
    (
        "ping",
        Kind::Closes,
        Call::Ping,
        Ok(0),
        Err(Error::Disconnect),
    ),
];

/// Whether one of the two answers is the one, and the other is the other.
pub(crate) fn are(both: Both, one: Answer, other: Answer) -> bool {
    (both.first == one && both.second == other) || (both.first == other && both.second == one)
}

/// The result of a call that can't submit any more.
const LATE: Answer = Err(Error::SendError);

/// Of two calls of a kind the host grants the one that it heard first, and refuses the other. After the end none is
/// submitted.
#[test]
fn answers_each_its_own(rt: HostRuntime) -> Result<(), Fail> {
    for (name, kind, call, one, other) in OF_ONE_KIND {
        let (both, later) = answered(&rt, rt.alloc(), *kind, *call, *call)?;
        assert!(&rt; are(both, *one, *other) && later == LATE, "{name}");
    }
    Ok(())
}

/// A ping and a forward, each answered by what was written for it.
#[test]
fn answers_a_ping_and_a_forward(rt: HostRuntime) -> Result<(), Fail> {
    let kind = Kind::GrantsBoth;
    let (both, _later) = answered(&rt, rt.alloc(), kind, Call::Ping, Call::Forward)?;
    assert!(&rt; both.first == Ok(0) && both.second == Ok(4022));
    Ok(())
}

/// Two threads send pings that the host doesn't answer, while a third leaves.
#[test]
fn ends_while_two_ping(rt: HostRuntime) -> Result<(), Fail> {
    let alloc = rt.alloc();
    let (handle, runner) = opened(alloc, Host::ponging(alloc, b""))?;
    let (both, _left) = run_beside(
        &rt,
        &handle,
        runner,
        |handle| ping_and_leave(&rt, alloc, handle),
    );
    assert!(&rt; is_over(both.first) && is_over(both.second));
    Ok(())
}

/// Two pings while the session is left.
fn ping_and_leave<R: Threads + Wait + Sync>(
    rt: &R,
    alloc: Global,
    handle: &Handle<Keeper>,
) -> Both {
    let (both, _left) = at_once(
        rt,
        handle,
        |handle| make_both(rt, alloc, handle, Call::Ping, Call::Ping),
        |handle| leave(rt, handle),
    );
    both
}

/// Whether a call was dropped at the end, or came after it.
fn is_over(answer: Result<u32, Error>) -> bool {
    answer == Err(Error::Disconnect) || answer == Err(Error::SendError)
}
