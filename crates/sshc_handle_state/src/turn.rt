//! A turn of the runner.

ghost use Rattle.std.specs.Prelude.{◌≡◌, None, IfOk};
ghost use Rattle.sshc_client.specs.HandledStep.{handler_gate};
ghost use Rattle.sshc_handle_state.specs.HandleAt.{ended_with, left};
ghost use Rattle.sshc_handle_state.specs.Picking.{link_at};
ghost use Rattle.sshc_handle_state.specs.Turning.{Binds, Closes, DealsWith, TakesEvent, Turns, binding_of};
ghost use Rattle.sshc_handle_state.specs.Turning.{both, callers_at, key_blob, turn_by};
ghost use Rattle.sshc_client_state.specs.OpeningStep.{goes_on};

use crate::dealing::deal;
use crate::end::{End, Turn};
use crate::ending::ended_copied;
use crate::picking::Pick;
use crate::state::HandleState;
use sshc_auth::{Ended, Error, Event, ExchangeKey, ExchangeResult, Step};
use sshc_client::Handler;
use sshc_key::{AgentSessionBinding, LocalSigner, Verifier};
use sshc_transport::Transport;
use sshc_wire::{NoMemory, Octets};

/// The blob of the host key of an exchange.
fn key_blob(key: &ExchangeKey) -> Result<Option<Octets>, NoMemory>
    ensures { IfOk result (λ blob. blob ≡ key_blob key.now) }
{
    match key {
        ExchangeKey::Missing => Ok(None),
        ExchangeKey::Key(blob) | ExchangeKey::Certificate(blob) => Ok(Some(blob.copy()?)),
    }
}

/// What binds an agent to the session of this exchange, if it has a host key.
fn binding_of(exchange: &ExchangeResult) -> Result<Option<AgentSessionBinding>, NoMemory>
    ensures { IfOk result (λ binding. binding ≡ binding_of exchange.now) }
{
    let Some(host_key) = key_blob(&exchange.key)? else {
        return Ok(None);
    };
    Ok(Some(AgentSessionBinding::new(
        host_key,
        exchange.session_hash.copy()?,
        exchange.signature.copy()?,
    )))
}

/// Whether the session continues after its step.
fn goes_on<E>(step: &Step<E>) -> bool
    ensures { result ≡ goes_on step.now }
{
    matches!(step, Step::Went | Step::Opened)
}

/// `NoMemory` if one of two parts ran out of memory.
fn both(first: Result<(), NoMemory>, second: Result<(), NoMemory>) -> Result<(), NoMemory>
    ensures { result ≡ both first second }
{
    first?;
    second
}

/// How a turn is due to end, by the step's result.
fn turn_by<H: Handler>(step: Step<H::Error>, dealt: Result<(), NoMemory>) -> Turn<H::Error>
    ensures { result ≡ turn_by H.told_as step dealt }
{
    match step {
        Step::Ended(ended) => Turn::Ended(ended),
        Step::Refused(e) => Turn::Refused(e),
        Step::Closed => Turn::Ended(Ended::Closed),
        Step::Went | Step::Opened => match dealt {
            Ok(()) => Turn::Took,
            Err(NoMemory) => Turn::Refused(H::from_client(Error::NoMemory)),
        },
    }
}

impl<H> HandleState<H> {
    /// The session has ended: each open ticket is resolved as dropped.
    fn finish(&mut self, end: End)
        ensures { self.new ≡ ended_with end self.old }
    {
        self.tickets.drop_open();
        self.end = Some(end);
    }

    /// No turn will be taken any more: a session that hasn't ended is refused.
    pub fn leave(&mut self)
        ensures { self.new ≡ left self.old }
    {
        if self.end.is_none() {
            self.finish(End::Refused);
        }
    }
}

impl<H: Handler> HandleState<H> {
    fn close_ended(&mut self, ended: Ended) -> Turn<H::Error>
        ensures { Closes H.told_as (Turn.Ended ended) self.old self.new result }
    {
        match ended_copied(&ended) {
            Ok(copy) => {
                self.finish(End::Ended(copy));
                Turn::Ended(ended)
            }
            Err(NoMemory) => {
                self.finish(End::Refused);
                Turn::Refused(H::from_client(Error::NoMemory))
            }
        }
    }

    /// Ends the handle if the turn is due to end it.
    fn close(&mut self, due: Turn<H::Error>) -> Turn<H::Error>
        ensures { Closes H.told_as due self.old self.new result }
    {
        match due {
            Turn::Ended(ended) => self.close_ended(ended),
            Turn::Refused(e) => {
                self.finish(End::Refused);
                Turn::Refused(e)
            }
            Turn::Took => Turn::Took,
            Turn::Idle => Turn::Idle,
        }
    }

    /// Keeps the binding of the first exchange, if the session continues after it.
    fn bind(&mut self, event: &Event, goes: bool) -> Result<(), NoMemory>
        ensures { Binds event.now goes self.old self.new result }
    {
        if goes && self.binding.is_none() {
            if let Event::ExchangeDone(exchange) = event {
                self.binding = binding_of(exchange)?;
            }
        }
        Ok(())
    }

    /// Takes the records of the step, passes them on and holds them.
    fn deal<T: Transport>(&mut self, transport: &mut T) -> Result<(), NoMemory>
        ensures { DealsWith self.old self.new
            (link_at (T.answers transport.old) (T.handed transport.old) (T.faults transport.old))
            (link_at (T.answers transport.new) (T.handed transport.new) (T.faults transport.new)) result }
    {
        let mut output = self.session.take_records();
        deal(&mut output, transport, &mut self.tickets, &mut self.failed)
    }

    /// One step of the session, and what is done with its records.
    fn take<T: Transport, S: LocalSigner, V: Verifier>(
        &mut self,
        event: Event,
        transport: &mut T,
        handler: &mut H,
        signer: &mut S,
        verifier: &V,
    ) -> Turn<H::Error>
        ensures { TakesEvent H.keeps_defaults (handler_gate H.told_as (H.judges handler.old))
            (V.accepts verifier.now) event self.old self.new
            (callers_at (S.calls signer.old) (S.refusals signer.old) (H.at handler.old))
            (callers_at (S.calls signer.new) (S.refusals signer.new) (H.at handler.new))
            (link_at (T.answers transport.old) (T.handed transport.old) (T.faults transport.old))
            (link_at (T.answers transport.new) (T.handed transport.new) (T.faults transport.new)) result }
    {
        let step = self.session.step(&event, handler, signer, verifier);
        let bound = self.bind(&event, goes_on(&step));
        drop(event);
        let dealt = self.deal(transport);
        self.close(turn_by::<H>(step, both(bound, dealt)))
    }

    /// Takes a turn at a moment in milliseconds: at most one event, by the first of the rules that applies. No earlier
    /// turn may have returned `Ended` or `Refused`.
    pub fn turn<T: Transport, S: LocalSigner, V: Verifier>(
        &mut self,
        now: u64,
        transport: &mut T,
        handler: &mut H,
        signer: &mut S,
        verifier: &V,
    ) -> Turn<H::Error>
        requires { self.old.end ≡ None }
        ensures { Turns H.keeps_defaults (handler_gate H.told_as (H.judges handler.old)) (V.accepts verifier.now) now
            self.old self.new
            (callers_at (S.calls signer.old) (S.refusals signer.old) (H.at handler.old))
            (callers_at (S.calls signer.new) (S.refusals signer.new) (H.at handler.new))
            (link_at (T.answers transport.old) (T.handed transport.old) (T.faults transport.old))
            (link_at (T.answers transport.new) (T.handed transport.new) (T.faults transport.new)) result }
    {
        match self.pick(now, transport) {
            Pick::Event(event) => self.take(event, transport, handler, signer, verifier),
            Pick::Idle => Turn::Idle,
            Pick::Ended => self.close(Turn::Ended(Ended::Disconnected)),
            Pick::NoMemory => self.close(Turn::Refused(H::from_client(Error::NoMemory))),
        }
    }
}
