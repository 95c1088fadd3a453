//! A step of the opening: what the row asks, the gate's answers, and the rest of the row.

ghost use Rattle.std.specs.Prelude.{◌≡◌, ◌≤◌, ◌+◌, Result, Bool, false, OnErr, option_copied};
ghost use Rattle.sshc_wire.specs.Faults.{Rose};
ghost use Rattle.sshc_auth.specs.OpeningTable.{asked_of, keys_asked};
ghost use Rattle.sshc_auth.specs.Promises.{ByTable, Stepped};
ghost use Rattle.sshc_auth.specs.Stepping.{gate_answers, lent, with_gate, map_step, exchange_in, Answered, Judged};
ghost use Rattle.sshc_auth.specs.Stepping.{Tells, HasExchange, GateKeeps};

use crate::error::Error;
use crate::gate::Gate;
use crate::opening::Opening;
use crate::step::{Asks, Step, Told};
use sshc_auth_event::Event;
use sshc_key::{LocalSigner, PublicKeyOrCertificate};
use sshc_transport::ExchangeResult;
use sshc_wire::{NoMemory, Outbox, Text};

/// A step's result, with its error as the gate reports it.
fn as_told<G: Gate>(step: Step<Error>) -> Step<G::Error>
    ensures { result ≡ map_step G.told_as step }
{
    match step {
        Step::Went => Step::Went,
        Step::Opened => Step::Opened,
        Step::Ended(e) => Step::Ended(e),
        Step::Refused(e) => Step::Refused(G::from_auth(e)),
        Step::Closed => Step::Closed,
    }
}

/// The shared secret of an exchange, if the transport reported it.
fn secret_of(exchange: &ExchangeResult) -> Option<&[u8]>
    ensures { option_copied result ≡ exchange.now.secret }
{
    match &exchange.secret {
        Some(secret) => Some(secret.as_slice()),
        None => None,
    }
}

/// The exchange of an event that is one.
fn exchange_of(event: &Event) -> Option<&ExchangeResult>
    ensures { option_copied result ≡ exchange_in event.now }
{
    match event {
        Event::ExchangeDone(exchange) => Some(exchange),
        _ => None,
    }
}

/// Calls the gate's `kex_done` with an exchange.
fn tell_exchange<G: Gate>(
    exchange: &ExchangeResult,
    gate: &mut G,
    out: &mut Outbox,
) -> Result<Told, G::Error>
    ensures told { Tells (G.tells exchange.now.secret exchange.now.names) out.old out.new result }
    ensures cause { OnErr result (Rose (G.refusals gate.old) (G.refusals gate.new)) }
    ensures keeps { GateKeeps (G.refusals gate.old) (G.refusals gate.new) (G.setting gate.old) (G.setting gate.new) }
    ensures counted { G.asked gate.new ≤ G.asked gate.old }
{
    match gate.kex_done(secret_of(exchange), &exchange.names, out) {
        Ok(()) => Ok(Told::Went),
        Err(e) => Err(e),
    }
}

/// Calls the gate's `auth_banner` with a banner.
fn tell_banner<G: Gate>(text: &Text, gate: &mut G, out: &mut Outbox) -> Result<Told, G::Error>
    ensures told { Tells (G.tells_banner text.now) out.old out.new result }
    ensures cause { OnErr result (Rose (G.refusals gate.old) (G.refusals gate.new)) }
    ensures keeps { GateKeeps (G.refusals gate.old) (G.refusals gate.new) (G.setting gate.old) (G.setting gate.new) }
    ensures counted { G.asked gate.new ≤ G.asked gate.old }
{
    match gate.auth_banner(text.as_str(), out) {
        Ok(()) => Ok(Told::Went),
        Err(e) => Err(e),
    }
}

/// Asks the gate for the host key, and calls `kex_done` if it accepts the key.
fn judge<G: Gate>(
    key: &PublicKeyOrCertificate,
    exchange: &ExchangeResult,
    gate: &mut G,
    out: &mut Outbox,
) -> Result<Told, G::Error>
    ensures judged { (verdict : Result Bool G.Error) × G.judges gate.old key.now verdict
        × Judged (G.tells exchange.now.secret exchange.now.names) out.old out.new result verdict }
    ensures cause { OnErr result (Rose (G.refusals gate.old) (G.refusals gate.new)) }
    ensures keeps { GateKeeps (G.refusals gate.old) (G.refusals gate.new) (G.setting gate.old) (G.setting gate.new) }
    ensures counted { G.asked gate.new ≤ G.asked gate.old + 1 }
{
    match gate.check_server_key(key) {
        Ok(true) => tell_exchange(exchange, gate, out),
        Ok(false) => Ok(Told::No),
        Err(e) => Err(e),
    }
}

/// Asks the gate what the row asks.
fn ask_gate<G: Gate>(
    asks: &Asks,
    event: &Event,
    gate: &mut G,
    out: &mut Outbox,
) -> Result<Told, G::Error>
    requires { HasExchange asks.now (exchange_in event.now) }
    ensures answered { Answered (gate_answers G.told_as (G.judges gate.old) G.tells G.tells_banner)
        (exchange_in event.now) out.old out.new result asks.now }
    ensures cause { OnErr result (Rose (G.refusals gate.old) (G.refusals gate.new)) }
    ensures keeps { GateKeeps (G.refusals gate.old) (G.refusals gate.new) (G.setting gate.old) (G.setting gate.new) }
    ensures counted { G.asked gate.new ≤ G.asked gate.old + keys_asked asks.now }
{
    match asks {
        Asks::Nothing => Ok(Told::NotAsked),
        Asks::HostKey(key) => match exchange_of(event) {
            Some(exchange) => judge(key, exchange, gate, out),
            None => unreachable!(),
        },
        Asks::Exchange => match exchange_of(event) {
            Some(exchange) => tell_exchange(exchange, gate, out),
            None => unreachable!(),
        },
        Asks::Banner(text) => tell_banner(text, gate, out),
    }
}

impl Opening {
    /// Does an event's row, with what the gate returns.
    pub fn step<G: Gate, S: LocalSigner>(
        &mut self,
        event: &Event,
        gate: &mut G,
        signer: &mut S,
        out: &mut Outbox,
    ) -> Step<G::Error>
        ensures stepped { Stepped (gate_answers G.told_as (G.judges gate.old) G.tells G.tells_banner) event.now
            (with_gate (lent self.old out.old (S.calls signer.old) (S.refusals signer.old)) (G.refusals gate.old)
            (G.setting gate.old))
            (with_gate (lent self.new out.new (S.calls signer.new) (S.refusals signer.new)) (G.refusals gate.new)
            (G.setting gate.new))
            result }
        // The gate is asked about as many host keys at most as the row asks for: one, or none.
        ensures counted { G.asked gate.new ≤ G.asked gate.old + keys_asked (asked_of self.old event.now) }
    {
        self.step_by_table(event, gate, signer, out)
    }

    /// The row of the table, with what the gate returns.
    fn step_by_table<G: Gate, S: LocalSigner>(
        &mut self,
        event: &Event,
        gate: &mut G,
        signer: &mut S,
        out: &mut Outbox,
    ) -> Step<G::Error>
        ensures stepped { ByTable (gate_answers G.told_as (G.judges gate.old) G.tells G.tells_banner) event.now
            (with_gate (lent self.old out.old (S.calls signer.old) (S.refusals signer.old)) (G.refusals gate.old)
            (G.setting gate.old))
            (with_gate (lent self.new out.new (S.calls signer.new) (S.refusals signer.new)) (G.refusals gate.new)
            (G.setting gate.new))
            result }
        ensures counted { G.asked gate.new ≤ G.asked gate.old + keys_asked (asked_of self.old event.now) }
    {
        if self.is_closed() {
            return Step::Closed;
        }
        if !self.may_ask(event) {
            return self.step_unasked(event, gate, signer, out);
        }
        self.step_gated(event, gate, signer, out)
    }

    /// The same, of an event whose row doesn't ask the gate.
    fn step_unasked<G: Gate, S: LocalSigner>(
        &mut self,
        event: &Event,
        gate: &G,
        signer: &mut S,
        out: &mut Outbox,
    ) -> Step<G::Error>
        requires fresh { self.old.closed ≡ false }
        requires unasked { asked_of self.old event.now ≡ Asks.Nothing }
        ensures { ByTable (gate_answers G.told_as (G.judges gate.now) G.tells G.tells_banner) event.now
            (with_gate (lent self.old out.old (S.calls signer.old) (S.refusals signer.old)) (G.refusals gate.now)
            (G.setting gate.now))
            (with_gate (lent self.new out.new (S.calls signer.new) (S.refusals signer.new)) (G.refusals gate.now)
            (G.setting gate.now))
            result }
    {
        let _ = gate;
        as_told::<G>(self.apply(event, Told::NotAsked, signer, out))
    }

    /// The same, of an event whose row may ask the gate. What it asks may be a host key, which has room only here.
    fn step_gated<G: Gate, S: LocalSigner>(
        &mut self,
        event: &Event,
        gate: &mut G,
        signer: &mut S,
        out: &mut Outbox,
    ) -> Step<G::Error>
        requires { self.old.closed ≡ false }
        ensures stepped { ByTable (gate_answers G.told_as (G.judges gate.old) G.tells G.tells_banner) event.now
            (with_gate (lent self.old out.old (S.calls signer.old) (S.refusals signer.old)) (G.refusals gate.old)
            (G.setting gate.old))
            (with_gate (lent self.new out.new (S.calls signer.new) (S.refusals signer.new)) (G.refusals gate.new)
            (G.setting gate.new))
            result }
        ensures counted { G.asked gate.new ≤ G.asked gate.old + keys_asked (asked_of self.old event.now) }
    {
        match self.asks(event) {
            Ok(asks) => {
                let step = self.step_asked(&asks, event, gate, signer, out);
                drop(asks);
                step
            }
            Err(NoMemory) => {
                self.shut();
                Step::Refused(G::from_auth(Error::NoMemory))
            }
        }
    }

    /// The same, once it is known what the row asks.
    fn step_asked<G: Gate, S: LocalSigner>(
        &mut self,
        asks: &Asks,
        event: &Event,
        gate: &mut G,
        signer: &mut S,
        out: &mut Outbox,
    ) -> Step<G::Error>
        requires fresh { self.old.closed ≡ false }
        requires asked { asked_of self.old event.now ≡ asks.now }
        ensures stepped { ByTable (gate_answers G.told_as (G.judges gate.old) G.tells G.tells_banner) event.now
            (with_gate (lent self.old out.old (S.calls signer.old) (S.refusals signer.old)) (G.refusals gate.old)
            (G.setting gate.old))
            (with_gate (lent self.new out.new (S.calls signer.new) (S.refusals signer.new)) (G.refusals gate.new)
            (G.setting gate.new))
            result }
        ensures counted { G.asked gate.new ≤ G.asked gate.old + keys_asked asks.now }
    {
        match ask_gate(asks, event, gate, out) {
            Ok(told) => as_told::<G>(self.apply(event, told, signer, out)),
            Err(e) => {
                self.shut();
                Step::Refused(e)
            }
        }
    }
}
