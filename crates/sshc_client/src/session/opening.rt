//! A step before the session is open. The handler is called first, and lent the session, of which the opening remains a
//! part; then the opening's step continues with the handler's verdict on the host key.

ghost use Rattle.std.specs.Prelude.{◌≡◌, ◌&&◌, [], Some, false, option_copied};
ghost use Rattle.sshc_auth.specs.OpeningTable.{asked_of};
ghost use Rattle.sshc_auth.specs.Stepping.{HasExchange, exchange_in};
ghost use Rattle.sshc_client_table.specs.SessionState.{is_open};
ghost use Rattle.sshc_client_state.specs.OpeningStep.{goes_on, lent_session};
ghost use Rattle.sshc_client.specs.Asked.{AsksHandler, StepsBefore, verdict_gate};
ghost use Rattle.sshc_client.specs.HandledStep.{Before, EndsBy, handler_gate, has_left, lent_by};

use super::Session;
use super::exchanges::secret_of;
use crate::handler::Handler;
use crate::verdict::Verdict;
use sshc_auth::{Asks, Ended, Error, Event, ExchangeResult, Step};
use sshc_client_table::Life;
use sshc_key::{LocalSigner, PublicKeyOrCertificate};
use sshc_wire::NoMemory;
use std::marker::PhantomData;

/// The exchange in an event, if the event is one.
fn exchange_of(event: &Event) -> Option<&ExchangeResult>
    ensures { option_copied result ≡ exchange_in event.now }
{
    match event {
        Event::ExchangeDone(exchange) => Some(exchange),
        _ => None,
    }
}

impl Session {
    /// Asks the handler about the host key, and calls it for the exchange if it accepts the key.
    #[tactic(auto, using(crate::proofs::Hints::judge))]
    fn judge<H: Handler>(
        &mut self,
        key: &PublicKeyOrCertificate,
        exchange: &ExchangeResult,
        handler: &mut H,
    ) -> Result<bool, H::Error>
        ensures { AsksHandler H.keeps_defaults (H.judges handler.old) (Asks.HostKey key.now) (Some exchange.now)
            (H.at handler.old)
            (H.at handler.new)
            self.old self.new result }
    {
        if !handler.check_server_key(key)? {
            return Ok(false);
        }
        handler.kex_done(secret_of(exchange), &exchange.names, self)?;
        Ok(true)
    }

    /// Calls the handler as the opening's row asks. Returns whether a host key was accepted.
    #[tactic(auto, using(crate::proofs::Hints::ask_handler))]
    fn ask_handler<H: Handler>(
        &mut self,
        asks: &Asks,
        event: &Event,
        handler: &mut H,
    ) -> Result<bool, H::Error>
        requires { HasExchange asks.now (exchange_in event.now) }
        ensures { AsksHandler H.keeps_defaults (H.judges handler.old) asks.now (exchange_in event.now)
            (H.at handler.old)
            (H.at handler.new)
            self.old self.new result }
    {
        match asks {
            Asks::Nothing => Ok(false),
            Asks::HostKey(key) => match exchange_of(event) {
                Some(exchange) => self.judge(key, exchange, handler),
                None => unreachable!(),
            },
            Asks::Exchange => match exchange_of(event) {
                Some(exchange) => {
                    handler.kex_done(secret_of(exchange), &exchange.names, self)?;
                    Ok(false)
                }
                None => unreachable!(),
            },
            Asks::Banner(text) => {
                handler.auth_banner(text.as_str(), self)?;
                Ok(false)
            }
        }
    }

    /// The opening's step, after the handler was called; if the user left the session meanwhile, the step ends it.
    #[tactic(auto, using(crate::proofs::AskedLemmas::ended_before))]
    fn step_asked<H: Handler, S: LocalSigner>(
        &mut self,
        event: &Event,
        accepts: bool,
        signer: &mut S,
    ) -> Step<H::Error>
        ensures { StepsBefore (verdict_gate H.told_as accepts) event.now
            (lent_session self.old (S.calls signer.old) (S.refusals signer.old) 0 [] [])
            (lent_session self.new (S.calls signer.new) (S.refusals signer.new) 0 [] [])
            result }
    {
        let mut verdict: Verdict<H> = Verdict {
            accepts,
            of: PhantomData,
        };
        let mut step = self.connection.step_opening(event, &mut verdict, signer);
        verdict.let_go();
        self.end_left(&mut step);
        step
    }

    /// A step that would continue ends a session that the user left. The step's result stays where it is.
    #[tactic(auto, using(crate::proofs::StepLemmas::nobody_left_ends))]
    pub(super) fn end_left<E: Drop>(&mut self, step: &mut Step<E>)
        ensures { EndsBy (goes_on step.old && has_left self.old.life) self.old self.new step.old step.new }
    {
        match self.connection.life() {
            Life::Left => self.end_step(step),
            Life::Runs => {}
            Life::Over => {}
        }
    }

    fn end_step<E: Drop>(&mut self, step: &mut Step<E>)
        ensures { EndsBy (goes_on step.old) self.old self.new step.old step.new }
    {
        match step {
            Step::Went | Step::Opened => {
                self.connection.stop();
                *step = Step::Ended(Ended::Disconnected);
            }
            Step::Ended(_) => {}
            Step::Refused(_) => {}
            Step::Closed => {}
        }
    }

    /// What an event does before the session is open.
    #[tactic(auto, using(crate::proofs::BeforeLemmas::steps_closed, crate::proofs::BeforeLemmas::steps_unasked))]
    pub(super) fn step_before<H: Handler, S: LocalSigner>(
        &mut self,
        event: &Event,
        handler: &mut H,
        signer: &mut S,
    ) -> Step<H::Error>
        requires { is_open self.old.opening.phase ≡ false }
        ensures { Before H.keeps_defaults (handler_gate H.told_as (H.judges handler.old)) event.now
            (lent_by self.old (S.calls signer.old) (S.refusals signer.old) (H.at handler.old))
            (lent_by self.new (S.calls signer.new) (S.refusals signer.new) (H.at handler.new))
            result }
    {
        if self.connection.opening().is_closed() {
            return self.step_asked::<H, S>(event, false, signer);
        }
        if !self.connection.opening().may_ask(event) {
            return self.step_asked::<H, S>(event, false, signer);
        }
        self.step_gated(event, handler, signer)
    }

    /// The same, of an event whose row may ask the handler. What it asks may be a host key, which has room only here.
    #[tactic(auto, using(crate::proofs::BeforeLemmas::ran_out))]
    fn step_gated<H: Handler, S: LocalSigner>(
        &mut self,
        event: &Event,
        handler: &mut H,
        signer: &mut S,
    ) -> Step<H::Error>
        requires early { is_open self.old.opening.phase ≡ false }
        requires fresh { self.old.opening.closed ≡ false }
        ensures { Before H.keeps_defaults (handler_gate H.told_as (H.judges handler.old)) event.now
            (lent_by self.old (S.calls signer.old) (S.refusals signer.old) (H.at handler.old))
            (lent_by self.new (S.calls signer.new) (S.refusals signer.new) (H.at handler.new))
            result }
    {
        match self.connection.opening().asks(event) {
            Ok(asks) => self.step_asking(&asks, event, handler, signer),
            Err(NoMemory) => {
                self.connection.shut_opening();
                Step::Refused(H::from_client(Error::NoMemory))
            }
        }
    }

    /// The same, once it is known what the row asks of the handler.
    #[tactic(auto, using(crate::proofs::Hints::step_asking))]
    fn step_asking<H: Handler, S: LocalSigner>(
        &mut self,
        asks: &Asks,
        event: &Event,
        handler: &mut H,
        signer: &mut S,
    ) -> Step<H::Error>
        requires early { is_open self.old.opening.phase ≡ false }
        requires fresh { self.old.opening.closed ≡ false }
        requires asked { asks.now ≡ asked_of self.old.opening event.now }
        ensures { Before H.keeps_defaults (handler_gate H.told_as (H.judges handler.old)) event.now
            (lent_by self.old (S.calls signer.old) (S.refusals signer.old) (H.at handler.old))
            (lent_by self.new (S.calls signer.new) (S.refusals signer.new) (H.at handler.new))
            result }
    {
        match self.ask_handler(asks, event, handler) {
            Ok(accepts) => self.step_asked::<H, S>(event, accepts, signer),
            Err(e) => {
                self.connection.shut_opening();
                Step::Refused(e)
            }
        }
    }
}
