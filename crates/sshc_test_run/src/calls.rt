//! Each public call of the opening and of runs that takes memory, with ample memory.

ghost use Rattle.std.specs.Prelude.{◌≡◌};

use crate::scripts::{EXCHANGE, KEXINIT, KNOWN, LOGIN, PASSWORD, let_go, script_of};
use sshc_auth::{Asks, Error as OpeningError, Gate, NamesChosen, Opening, Phase, Step, Told};
use sshc_auth_event::{Event, Method, host_key_of};
use sshc_auth_request::write_auth_request;
use sshc_client::Handler;
use sshc_key::{Asker, Error, LocalSigner, PublicKeyOrCertificate, SignRefused, read_key_pair};
use sshc_run_reader::{EventError, EventKind, NextError, next_event, read_event};
use sshc_run_script::{Config, HandlerError, KnownHostsHandler, RefusingSigner};
use sshc_transport::{ExchangeFlag, ExchangeKey};
use sshc_wire::{Cursor, MemSource, NoMemory, Octets, Outbox, Record, Text, Ticket};
use std::alloc::Global;
use std::test::Fail;

/// The fields of an event: the bytes after its length, moment and kind.
fn fields(event: &[u8]) -> &[u8] {
    event.get(13..).unwrap_or_default()
}

/// The event of the login's exchange.
fn exchange(alloc: Global) -> Result<Event, EventError> {
    read_event(alloc, EventKind::ExchangeDone, fields(EXCHANGE))
}

fn password(alloc: Global) -> Result<Method, NoMemory> {
    let password = Text::from_str(alloc, "pw")?;
    Ok(Method::Password { password })
}

/// Whether these are the default settings of a client.
fn are_default(config: &Config) -> bool {
    config.client_id.as_str() == "SSH-2.0-russh_0.65.1"
        && config.window_size == 2_097_152
        && config.maximum_packet_size == 32768
        && config.max_events == 8192
        && !config.anonymous
        && !config.agent_asks
}

#[test]
fn settings_are_the_default_ones(rt: HostRuntime) -> Result<(), Fail> {
    let config = Config::default_in(rt.alloc())?;
    assert!(rt; are_default(&config));
    Ok(())
}

/// The sizes of the login's events.
const SIZES: [u64; 5] = [13, 130, 33, 30, 14];

/// Whether the login's events are taken one after another, and no other after them.
fn takes_all(alloc: Global) -> Result<bool, NoMemory> {
    let mut source = MemSource::new(script_of(alloc, LOGIN.as_slice())?, Vec::new(alloc));
    let mut buffer = Vec::new(alloc);
    for size in SIZES {
        match next_event(&mut buffer, &mut source, 0) {
            Ok(Some(event)) if event.size() == size => {}
            _ => return Ok(false),
        }
    }
    Ok(matches!(next_event(&mut buffer, &mut source, 0), Ok(None)))
}

/// Whether a script that ends in an event's length is bad.
fn refuses_short(alloc: Global) -> Result<bool, NoMemory> {
    let mut buffer = Vec::new(alloc);
    let mut source = MemSource::new(Vec::from_slice(alloc, &KEXINIT[..4])?, Vec::new(alloc));
    Ok(matches!(next_event(&mut buffer, &mut source, 0), Err(NextError::Bad)))
}

#[test]
fn events_are_taken(rt: HostRuntime) -> Result<(), Fail> {
    assert!(rt; takes_all(rt.alloc())? && refuses_short(rt.alloc())?);
    Ok(())
}

/// Whether the event is the login's request.
fn is_request(read: &Result<Event, EventError>) -> bool {
    match read {
        Ok(
            Event::Authenticate {
                ticket: Ticket(1),
                user,
                method,
            },
        ) => user.as_str() == "alice" && is_password(method.as_method(), "pw"),
        _ => false,
    }
}

fn is_password(method: &Method, text: &str) -> bool {
    matches!(method, Method::Password { password } if password.as_str() == text)
}

#[test]
fn a_request_is_read(rt: HostRuntime) {
    let read = read_event(rt.alloc(), EventKind::Authenticate, fields(PASSWORD));
    let is_so = is_request(&read);
    let_go(read);
    assert!(rt; is_so);
}

/// A gate that accepts each host key, and adds nothing.
#[derive(Drop)]
struct AnyKey;

impl Gate for AnyKey {
    type Error = OpeningError;

    ghost use Rattle.std.specs.Prelude.{◌≡◌, [], Ok, true};

    ghost setting = { λ g. [] };

    ghost judges = { λ g key answer. answer ≡ Ok true };

    ghost tells = { λ _ _ answer more. (answer ≡ Ok tt) × (more ≡ []) };

    ghost tells_banner = { λ _ answer more. (answer ≡ Ok tt) × (more ≡ []) };

    ghost told_as = { λ e. e };

    ghost refusals = { λ g. 0 };

    fn check_server_key(&mut self, _key: &PublicKeyOrCertificate) -> Result<bool, OpeningError> {
        Ok(true)
    }

    fn kex_done(
        &mut self,
        _secret: Option<&[u8]>,
        _names: &NamesChosen,
        _out: &mut Outbox,
    ) -> Result<(), OpeningError> {
        Ok(())
    }

    fn auth_banner(&mut self, _banner: &str, _out: &mut Outbox) -> Result<(), OpeningError> {
        Ok(())
    }

    fn from_auth(e: OpeningError) -> OpeningError
        ensures { result ≡ e }
    {
        e
    }
}

/// What an event asks of the gate.
#[derive(Clone, Copy, PartialEq, Eq)]
enum Asked {
    Nothing,
    HostKey,
    Otherwise,
}

fn kind_of(asks: &Result<Asks, NoMemory>) -> Asked {
    match asks {
        Ok(Asks::Nothing) => Asked::Nothing,
        Ok(Asks::HostKey(_)) => Asked::HostKey,
        _ => Asked::Otherwise,
    }
}

fn asked_by(opening: &Opening, event: &Event) -> Asked {
    let asks = opening.asks(event);
    let asked = kind_of(&asks);
    let_go(asks);
    asked
}

fn has_gone<E>(step: &Step<E>) -> bool {
    matches!(step, Step::Went)
}

/// What the exchange asks of the gate before the peer has begun it and after, and whether the peer's beginning is
/// taken.
#[tactic(auto, unfolding(sshc_auth::specs::OpeningTable::asked_of))]
fn asked_around(alloc: Global, exchange: &Event) -> (Asked, bool, Asked) {
    let mut opening = Opening::new(alloc, 2_097_152, false, false);
    let mut out = Outbox::new(alloc);
    let mut signer = RefusingSigner::new(alloc);
    let before = asked_by(&opening, exchange);
    let begins = Event::PeerKexinit;
    let step = opening.apply(&begins, Told::NotAsked, &mut signer, &mut out);
    let has_begun = has_gone(&step) && opening.flag() == ExchangeFlag::Peer;
    let after = asked_by(&opening, exchange);
    let_go(begins);
    let_go(step);
    (before, has_begun, after)
}

#[test]
fn the_key_of_an_exchange_is_asked_for(rt: HostRuntime) -> Result<(), Fail> {
    let exchange = exchange(rt.alloc())?;
    let asked = asked_around(rt.alloc(), &exchange);
    let_go(exchange);
    assert!(rt; asked.0 == Asked::Nothing && asked.1 && asked.2 == Asked::HostKey);
    Ok(())
}

/// Takes the peer's KEXINIT and the exchange, which the gate accepts.
fn open_service(opening: &mut Opening, alloc: Global, exchange: &Event, out: &mut Outbox) {
    let mut signer = RefusingSigner::new(alloc);
    let begins = Event::PeerKexinit;
    let_go(opening.step(&begins, &mut AnyKey, &mut signer, out));
    let_go(begins);
    let_go(opening.step(exchange, &mut AnyKey, &mut signer, out));
}

fn is_exchange_done(record: &Result<Option<Record>, NoMemory>) -> bool {
    match record {
        Ok(Some(Record::KexDone { kex })) => kex.as_str() == "curve25519-sha256",
        _ => false,
    }
}

/// Whether the first record tells that the exchange is done.
fn tells_exchange(out: &mut Outbox) -> bool {
    let record = out.take_first();
    let is_so = is_exchange_done(&record);
    let_go(record);
    is_so
}

/// Whether the opening has the host key of the event's exchange.
fn has_key_of(opening: &Opening, event: &Event) -> bool {
    match event {
        Event::ExchangeDone(done) => {
            opening.has_kept_key(done) && *opening.host_key() == done.key
        }
        _ => false,
    }
}

/// Whether an opening whose exchange is accepted asks for the user, in the session of that exchange and with its host
/// key, which was missing before.
fn asks_for_user(alloc: Global, exchange: &Event) -> bool {
    let mut out = Outbox::new(alloc);
    let mut opening = Opening::new(alloc, 2_097_152, false, false);
    let had_none = matches!(opening.host_key(), ExchangeKey::Missing);
    open_service(&mut opening, alloc, exchange, &mut out);
    had_none
        && has_key_of(&opening, exchange)
        && opening.phase() == Phase::Service
        && opening.session_id() == b"session-id".as_slice()
        && tells_exchange(&mut out)
}

#[test]
fn an_exchange_that_is_accepted_asks_for_the_user(rt: HostRuntime) -> Result<(), Fail> {
    let exchange = exchange(rt.alloc())?;
    let asks = asks_for_user(rt.alloc(), &exchange);
    let_go(exchange);
    assert!(rt; asks);
    Ok(())
}

/// Whether the copy is the method.
fn is_copy(copy: &Result<Method, NoMemory>, method: &Method) -> bool {
    match copy {
        Ok(copy) => copy == method,
        Err(NoMemory) => false,
    }
}

fn copies(method: &Method) -> bool {
    let copy = method.copy();
    let is_so = is_copy(&copy, method);
    let_go(copy);
    is_so
}

/// The packet of the login's request (RFC 4252, section 8).
const REQUEST: &[u8] =
    b"\x32\0\0\0\x05alice\0\0\0\x0essh-connection\0\0\0\x08password\0\0\0\0\x02pw";

/// Whether the request by this method is written so, and its bytes are copied.
fn is_written(alloc: Global, method: &Method) -> Result<bool, NoMemory> {
    let mut packet = Vec::new(alloc);
    write_auth_request(&mut packet, "alice", method)?;
    let copied = Octets::from_slice(alloc, REQUEST)?;
    Ok(packet.as_slice() == REQUEST && copied.as_slice() == REQUEST)
}

#[test]
fn a_password_request_is_written(rt: HostRuntime) -> Result<(), Fail> {
    let method = password(rt.alloc())?;
    let is_written = is_written(rt.alloc(), &method);
    let is_copied = copies(&method);
    let_go(method);
    assert!(rt; is_written? && is_copied);
    Ok(())
}

/// The host key of an exchange, if the event is one.
fn key_of(alloc: Global, event: &Event) -> Result<Option<PublicKeyOrCertificate>, NoMemory> {
    match event {
        Event::ExchangeDone(done) => host_key_of(alloc, &done.key),
        _ => Ok(None),
    }
}

/// The handler's result for this key with this known hosts text.
fn judged(alloc: Global, known: &str, key: &PublicKeyOrCertificate) -> Result<bool, HandlerError> {
    match KnownHostsHandler::new(alloc, "localhost", 13265, known) {
        Ok(mut handler) => handler.check_server_key(key),
        Err(NoMemory) => Err(HandlerError::Key(Error::NoMemory)),
    }
}

/// Whether this is a plain key, which the handler accepts by the known hosts text and refuses by an empty one.
fn is_judged(alloc: Global, key: &Result<Option<PublicKeyOrCertificate>, NoMemory>) -> bool {
    let Ok(Some(key)) = key else {
        return false;
    };
    matches!(key, PublicKeyOrCertificate::PublicKey { .. })
        && judged(alloc, KNOWN, key) == Ok(true)
        && judged(alloc, "", key) == Ok(false)
}

/// Whether the host key of the event's exchange is found and judged.
fn has_judged_key(alloc: Global, event: &Event) -> bool {
    let key = key_of(alloc, event);
    let is_so = is_judged(alloc, &key);
    let_go(key);
    is_so
}

#[test]
fn the_handler_judges_the_key_of_an_exchange(rt: HostRuntime) -> Result<(), Fail> {
    let exchange = exchange(rt.alloc())?;
    let is_so = has_judged_key(rt.alloc(), &exchange);
    let_go(exchange);
    assert!(rt; is_so);
    Ok(())
}

#[test]
fn a_missing_key_is_none(rt: HostRuntime) {
    let key = host_key_of(rt.alloc(), &ExchangeKey::Missing);
    let is_so = matches!(&key, Ok(None));
    let_go(key);
    assert!(rt; is_so);
}

/// A pair of an Ed25519 key: the public part is 32 bytes of 8, the seed 32 bytes of 7.
const PAIR: &[u8] = b"\0\0\0\x0bssh-ed25519\0\0\0\x20\
\x08\x08\x08\x08\x08\x08\x08\x08\x08\x08\x08\x08\x08\x08\x08\x08\
\x08\x08\x08\x08\x08\x08\x08\x08\x08\x08\x08\x08\x08\x08\x08\x08\
\0\0\0\x40\
\x07\x07\x07\x07\x07\x07\x07\x07\x07\x07\x07\x07\x07\x07\x07\x07\
\x07\x07\x07\x07\x07\x07\x07\x07\x07\x07\x07\x07\x07\x07\x07\x07\
\x08\x08\x08\x08\x08\x08\x08\x08\x08\x08\x08\x08\x08\x08\x08\x08\
\x08\x08\x08\x08\x08\x08\x08\x08\x08\x08\x08\x08\x08\x08\x08\x08";

/// Why the signer that always refuses doesn't sign with the pair.
fn refusal(alloc: Global) -> Result<Option<SignRefused>, Error> {
    let pair = read_key_pair(alloc, &mut Cursor::new(PAIR))?;
    let mut signer = RefusingSigner::new(alloc);
    let refused = signer.sign(Asker::Session, &pair, None, b"bytes").err();
    let_go(pair);
    Ok(refused)
}

#[test]
fn the_signer_refuses_a_pair(rt: HostRuntime) -> Result<(), Fail> {
    assert!(rt; refusal(rt.alloc())? == Some(SignRefused::Refused));
    Ok(())
}
