//! The opening: from the first key exchange to an authenticated user.

ghost use Rattle.std.specs.Prelude.{◌≡◌, ◌++◌, ◌∷◌, [], OnOk, OnErr, option_copied};
ghost use Rattle.sshc_wire.specs.Outgoing.{listed, shown};
ghost use Rattle.sshc_wire.specs.declared.resolution.Resolution.TheVariants.{Dropped};
ghost use Rattle.sshc_auth.specs.OpeningState.{start, shut, is_awaiting};
ghost use Rattle.sshc_auth.specs.OpeningTable.{asked_of, FitsAsked};
ghost use Rattle.sshc_auth.specs.OpeningTable.Exchange.{has_kept_key};
ghost use Rattle.sshc_auth.specs.OpeningTable.User.{is_seen};
ghost use Rattle.sshc_auth.specs.Promises.{Applied};
ghost use Rattle.sshc_auth.specs.Row.{resolved};
ghost use Rattle.sshc_auth.specs.Stepping.{lent};

use crate::error::Error;
use crate::step::{Flow, Step, Told};
use sshc_auth_event::{Event, SharedMethod, is_same_key};
use sshc_key::LocalSigner;
use sshc_transport::{ExchangeFlag, ExchangeKey, ExchangeResult, PendingCount};
use sshc_wire::{List, NoMemory, Octets, Outbox, Record, Resolution, Text, Ticket};
use std::alloc::Global;
use std::marker::Model;

mod asking;
mod auth;
mod auth_gssapi;
mod auth_key;
mod auth_prompts;
mod awaiting;
mod dispatch;
mod exchange;
mod ext_info;
mod packets;
mod service;
mod user;

/// How far a session has come.
#[derive(Clone, Copy, PartialEq, Eq)]
pub enum Phase {
    /// The first key exchange runs.
    Exchanging,
    /// The service of authentication is asked for.
    Service,
    /// The user is being authenticated.
    Auth,
    /// The user is to answer prompts.
    AwaitResponses,
    /// An outside signer is to sign.
    AwaitSignature,
    /// The session is open.
    Open,
}

/// What kind of request was written last: it says which message packet 60 is.
#[derive(Clone, Copy, PartialEq, Eq)]
pub enum Class {
    /// `none` and `password`, for which the content of packet 60 is ignored.
    Plain,
    /// RFC 4252, section 7.
    Key,
    /// RFC 4256.
    Prompts,
    /// RFC 4462.
    Gssapi,
}

/// What an opening was made with.
#[derive(Clone, Copy, PartialEq, Eq)]
pub struct Settings {
    /// Our window at first, in bytes.
    pub window_size: u32,
    /// No user is authenticated: the first exchange opens the session.
    pub anonymous: bool,
    /// The session ends if nothing comes for too long.
    pub inactivity: bool,
}

/// A user who waits for an extension.
#[derive(Drop)]
pub struct Waiter {
    pub ticket: Ticket,
    pub extension_name: Text,
}

/// What is remembered until the session is open. Contracts see it as plain data.
#[derive(Drop)]
pub struct Opening {
    alloc: Global,
    settings: Settings,
    phase: Phase,
    flag: ExchangeFlag,
    session_id: Octets,
    host_key: ExchangeKey,
    requested: bool,
    user: Text,
    method: Option<SharedMethod>,
    class: Class,
    ticket: Ticket,
    ext_infos: u32,
    sig_algs: Option<List<Text>>,
    seen: Vec<Text>,
    waiters: Vec<Waiter>,
    pending: PendingCount,
    handed: Octets,
    is_closed: bool,
}

impl Model for Opening {
    ghost use Rattle.sshc_auth.specs.StateCode.{state_code};
    ghost use Rattle.sshc_auth.specs.OpeningState.{OpeningState};

    ghost Value = { OpeningState };

    ghost coded = { state_code };

    ghost view = { λ o. record {
      settings = o.settings;
      phase = o.phase;
      flag = o.flag;
      session_id = o.session_id;
      host_key = o.host_key;
      requested = o.requested;
      user = o.user;
      method = o.method;
      class = o.class;
      ticket = o.ticket;
      ext_infos = o.ext_infos;
      sig_algs = o.sig_algs;
      seen = o.seen.items;
      waiters = o.waiters.items;
      counted = o.pending;
      handed = o.handed;
      closed = o.is_closed;
    } };
}

impl Opening {
    /// The opening at the start of a connection: a first key exchange of ours runs.
    pub fn new(alloc: Global, window_size: u32, anonymous: bool, inactivity: bool) -> Opening
        ensures { result ≡ start
            (record { window_size = window_size; anonymous = anonymous; inactivity = inactivity }) }
    {
        Opening {
            alloc,
            settings: Settings {
                window_size,
                anonymous,
                inactivity,
            },
            phase: Phase::Exchanging,
            flag: ExchangeFlag::Ours,
            session_id: Octets::new(alloc),
            host_key: ExchangeKey::Missing,
            requested: false,
            user: Text::new(alloc),
            method: None,
            class: Class::Plain,
            ticket: Ticket(0),
            ext_infos: 0,
            sig_algs: None,
            seen: Vec::new(alloc),
            waiters: Vec::new(alloc),
            pending: PendingCount::new(),
            handed: Octets::new(alloc),
            is_closed: false,
        }
    }

    /// What it was made with.
    pub fn settings(&self) -> Settings
        ensures { result ≡ self.now.settings }
    {
        self.settings
    }

    pub fn phase(&self) -> Phase
        ensures { result ≡ self.now.phase }
    {
        self.phase
    }

    pub fn flag(&self) -> ExchangeFlag
        ensures { result ≡ self.now.flag }
    {
        self.flag
    }

    /// How many bytes of packets came while an exchange of ours runs.
    pub fn counted(&self) -> u64
        ensures { result ≡ self.now.counted }
    {
        self.pending.counted()
    }

    /// The first exchange's hash; empty before it.
    pub fn session_id(&self) -> &[u8]
        ensures { result.now ≡ self.now.session_id }
    {
        self.session_id.as_slice()
    }

    /// The first exchange's host key; missing before it.
    pub fn host_key(&self) -> &ExchangeKey
        ensures { result.now ≡ self.now.host_key }
    {
        &self.host_key
    }

    /// Whether a later exchange has the first exchange's host key.
    pub fn has_kept_key(&self, exchange: &ExchangeResult) -> bool
        ensures { result ≡ has_kept_key self.now exchange.now }
    {
        is_same_key(&self.host_key, &exchange.key)
    }

    /// The signature names of the server's last list, if it has sent one (RFC 8308, section 3.1).
    pub fn sig_algs(&self) -> Option<&[Text]>
        ensures { option_copied result ≡ self.now.sig_algs }
    {
        match &self.sig_algs {
            Some(names) => Some(names.as_slice()),
            None => None,
        }
    }

    /// Whether the server has announced an extension of this name (RFC 8308).
    pub fn was_seen(&self, name: &str) -> bool
        ensures { result ≡ is_seen self.now.seen name.now }
    {
        self.seen
            .as_slice()
            .iter()
            .any(|other| other.as_str() == name)
    }

    /// Whether SERVICE_REQUEST was written.
    pub fn has_requested(&self) -> bool
        ensures { result ≡ self.now.requested }
    {
        self.requested
    }

    /// Whether an earlier step opened, ended or refused the session.
    pub fn is_closed(&self) -> bool
        ensures { result ≡ self.now.closed }
    {
        self.is_closed
    }

    /// Closes the opening: each later `step` and `apply` returns `Closed`.
    pub fn shut(&mut self)
        ensures { self.new ≡ shut self.old }
    {
        self.is_closed = true;
    }

    /// Whether an answer of the user is awaited.
    pub fn is_awaiting(&self) -> bool
        ensures { result ≡ is_awaiting self.now.phase }
    {
        match self.phase {
            Phase::AwaitResponses | Phase::AwaitSignature => true,
            Phase::Exchanging | Phase::Service | Phase::Auth | Phase::Open => false,
        }
    }

    /// An open session keeps its exchanges here too: one of ours or of the peer's begins, or none runs any more.
    pub fn set_exchange(&mut self, flag: ExchangeFlag)
        ensures { self.new ≡ record self.old { flag = flag; counted = 0 } }
    {
        self.flag = flag;
        self.pending.reset();
    }

    /// The peer answers an exchange of ours.
    pub fn answer_exchange(&mut self)
        ensures { self.new ≡ record self.old { flag = ExchangeFlag.Peer } }
    {
        self.flag = ExchangeFlag::Peer;
    }

    /// Does the rest of the event's row, after the gate was asked what `asks` returned.
    pub fn apply<S: LocalSigner>(
        &mut self,
        event: &Event,
        told: Told,
        signer: &mut S,
        out: &mut Outbox,
    ) -> Step<Error>
        requires { FitsAsked (asked_of self.old event.now) told }
        ensures { Applied told event.now
            (lent self.old out.old (S.calls signer.old) (S.refusals signer.old))
            (lent self.new out.new (S.calls signer.new) (S.refusals signer.new)) result }
    {
        if self.is_closed {
            return Step::Closed;
        }
        match self.row(event, told, signer, out) {
            Ok(Flow::Went) => Step::Went,
            Ok(Flow::Opened) => {
                self.shut();
                Step::Opened
            }
            Ok(Flow::Ended(e)) => {
                self.shut();
                Step::Ended(e.into_ended())
            }
            Err(e) => {
                self.shut();
                Step::Refused(e)
            }
        }
    }
}

/// Adds the record that resolves a ticket, if there is one, or changes nothing.
pub fn resolve(out: &mut Outbox, ticket: Ticket, resolution: Resolution) -> Result<(), NoMemory>
    ensures ok { OnOk result
        (out.new.records ≡ out.old.records ++ shown out.old.muted (resolved ticket resolution)) }
    ensures err { OnErr result (out.new.records ≡ out.old.records) }
    ensures same { out.new.muted ≡ out.old.muted }
{
    if ticket.0 == 0 {
        return Ok(());
    }
    out.push(Record::Resolved { ticket, resolution })
}

/// Adds the record that drops a ticket's request, if there is one, and the packet behind it, or changes nothing.
pub fn drop_and_send(out: &mut Outbox, ticket: Ticket, packet: Octets) -> Result<(), NoMemory>
    ensures ok { OnOk result
        (out.new.records
        ≡ out.old.records ++ shown out.old.muted (resolved ticket Dropped ++ Record.Payload packet ∷ [])) }
    ensures err { OnErr result (out.new.records ≡ out.old.records) }
    ensures same { out.new.muted ≡ out.old.muted }
{
    if ticket.0 == 0 {
        return out.push_packet(&[], packet.as_slice());
    }
    let dropped = resolved(ticket, Resolution::Dropped);
    out.push_both(dropped, Some(Record::Payload(packet)))
}

/// The record that resolves a ticket; `None` for ticket 0.
pub fn resolved(ticket: Ticket, resolution: Resolution) -> Option<Record>
    ensures { listed result ≡ resolved ticket resolution }
{
    if ticket.0 == 0 {
        None
    } else {
        Some(Record::Resolved { ticket, resolution })
    }
}
