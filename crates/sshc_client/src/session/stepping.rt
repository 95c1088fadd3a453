//! A step of a session.

ghost use Rattle.std.specs.Prelude.{◌≡◌, true};
ghost use Rattle.sshc_client_table.specs.SessionState.{is_live};
ghost use Rattle.sshc_client_table.specs.SessionTable.{session_row};
ghost use Rattle.sshc_client.specs.HandledRow.{FollowsWith};
ghost use Rattle.sshc_client.specs.HandledStep.{EndsRow, SessionSteps, StepsOpen, handler_gate, lent_by};
ghost use Rattle.sshc_client.specs.Stepping.{SessionStepped};

use super::Session;
use crate::handler::Handler;
use crate::stop::{Stop, own};
use sshc_auth::{Ended, Error, Event, Step};
use sshc_client_rows::{
    RowFlow, inactivity_timer, keepalive_timer, peer_kexinit, rekey_limit, user,
};
use sshc_client_table::Life;
use sshc_key::{LocalSigner, Verifier};

impl Session {
    /// What an event does. In an open session its row is followed, with whatever the handler does to the session that
    /// it is lent (`steps`); if the handler keeps its defaults, that is exactly the row (`defaults`). A handler's
    /// refusal ends the session.
    #[tactic(auto, using(crate::proofs::StepLemmas::plain_step))]
    pub fn step<H: Handler, S: LocalSigner, V: Verifier>(
        &mut self,
        event: &Event,
        handler: &mut H,
        signer: &mut S,
        verifier: &V,
    ) -> Step<H::Error>
        ensures steps { SessionSteps H.keeps_defaults (handler_gate H.told_as (H.judges handler.old))
            (V.accepts verifier.now) event.now
            (lent_by self.old (S.calls signer.old) (S.refusals signer.old) (H.at handler.old))
            (lent_by self.new (S.calls signer.new) (S.refusals signer.new) (H.at handler.new))
            result }
        ensures defaults { H.keeps_defaults
            → SessionStepped (handler_gate H.told_as (H.judges handler.old)) (V.accepts verifier.now) event.now
            (lent_by self.old (S.calls signer.old) (S.refusals signer.old) (H.at handler.old))
            (lent_by self.new (S.calls signer.new) (S.refusals signer.new) (H.at handler.new))
            result }
    {
        self.step_with(event, handler, signer, verifier)
    }

    #[tactic(auto, using(crate::proofs::Hints::step_with))]
    fn step_with<H: Handler, S: LocalSigner, V: Verifier>(
        &mut self,
        event: &Event,
        handler: &mut H,
        signer: &mut S,
        verifier: &V,
    ) -> Step<H::Error>
        ensures { SessionSteps H.keeps_defaults (handler_gate H.told_as (H.judges handler.old))
            (V.accepts verifier.now) event.now
            (lent_by self.old (S.calls signer.old) (S.refusals signer.old) (H.at handler.old))
            (lent_by self.new (S.calls signer.new) (S.refusals signer.new) (H.at handler.new))
            result }
    {
        match self.connection.life() {
            Life::Over => Step::Closed,
            Life::Left => {
                self.connection.stop();
                Step::Ended(Ended::Disconnected)
            }
            Life::Runs => {
                if self.connection.is_live() {
                    self.step_open(event, handler, verifier)
                } else {
                    self.step_before(event, handler, signer)
                }
            }
        }
    }

    /// The same in an open session.
    #[tactic(auto, using(crate::proofs::StepLemmas::opened_steps))]
    fn step_open<H: Handler, V: Verifier>(
        &mut self,
        event: &Event,
        handler: &mut H,
        verifier: &V,
    ) -> Step<H::Error>
        requires { is_live self.old ≡ true }
        ensures steps { StepsOpen H.keeps_defaults H.told_as (V.accepts verifier.now) event.now
            (H.at handler.old)
            (H.at handler.new)
            self.old self.new result }
    {
        let answer = self.row(event, handler, verifier);
        self.end_row::<H>(answer)
    }

    /// How a step ends after its row. If the user left the session meanwhile, it doesn't continue.
    fn end_row<H: Handler>(&mut self, answer: Result<RowFlow, Stop<H::Error>>) -> Step<H::Error>
        ensures { EndsRow H.told_as self.old self.new answer result }
    {
        match answer {
            Ok(RowFlow::Went) => {
                let mut step = Step::Went;
                self.end_left(&mut step);
                step
            }
            Ok(RowFlow::Ended(e)) => {
                self.connection.stop();
                Step::Ended(e.into_ended())
            }
            Err(Stop::Own(e)) => {
                self.connection.stop();
                Step::Refused(H::from_client(e))
            }
            Err(Stop::Handler(e)) => {
                self.connection.stop();
                Step::Refused(e)
            }
        }
    }

    /// The row of an event in an open session.
    #[tactic(auto, using(crate::proofs::Hints::row), unfolding(sshc_client_table::specs::SessionTable::session_row))]
    fn row<H: Handler, V: Verifier>(
        &mut self,
        event: &Event,
        handler: &mut H,
        verifier: &V,
    ) -> Result<RowFlow, Stop<H::Error>>
        requires { is_live self.old ≡ true }
        ensures row { FollowsWith H.keeps_defaults
            (H.at handler.old)
            (H.at handler.new)
            (λ o. session_row (V.accepts verifier.now) o self.old event.now) self.old self.new result }
    {
        match event {
            Event::PeerKexinit => own(peer_kexinit(&mut self.connection)),
            Event::ExchangeDone(exchange) => self.exchange_done(exchange, handler),
            Event::Payload(packet) => self.payload(packet, verifier, handler),
            Event::TransportFailed => Err(Stop::Own(Error::TransportFailed)),
            Event::RekeyLimit => own(rekey_limit(&mut self.connection)),
            Event::KeepaliveTimer => own(keepalive_timer(&mut self.connection)),
            Event::InactivityTimer => own(inactivity_timer(&mut self.connection)),
            _ => own(user(&mut self.connection, event)),
        }
    }
}
