//! The opening's steps, before the session is open.

ghost use Rattle.std.specs.Prelude.{◌≡◌, []};
ghost use Rattle.sshc_auth.specs.OpeningState.{shut};
ghost use Rattle.sshc_auth.specs.Stepping.{gate_answers};
ghost use Rattle.sshc_client_table.specs.declared.life.Life.TheVariants.{Over};
ghost use Rattle.sshc_client_state.specs.OpeningStep.{StepsLent, goes_on, lent_session};

use super::Connection;
use sshc_auth::{Event, Gate, Step};
use sshc_client_table::Life;
use sshc_key::LocalSigner;

/// Whether the session continues after the opening's step.
fn goes_on<E>(step: &Step<E>) -> bool
    ensures { result ≡ goes_on step.now }
{
    matches!(step, Step::Went | Step::Opened)
}

impl Connection {
    /// What an event does before the session is open, with the gate's answers. If the opening doesn't continue, the
    /// session is over. Once the user has left the session no packet is added.
    #[tactic(auto, using(crate::proofs::OpeningLemmas::keeps_muted))]
    pub fn step_opening<G: Gate, S: LocalSigner>(
        &mut self,
        event: &Event,
        gate: &mut G,
        signer: &mut S,
    ) -> Step<G::Error>
        ensures { StepsLent (gate_answers G.told_as (G.judges gate.old) G.tells G.tells_banner) event.now
            (lent_session self.old (S.calls signer.old) (S.refusals signer.old) (G.refusals gate.old)
            (G.setting gate.old) [])
            (lent_session self.new (S.calls signer.new) (S.refusals signer.new) (G.refusals gate.new)
            (G.setting gate.new) [])
            result }
    {
        let step = self.opening.step(event, gate, signer, &mut self.outbox);
        if !goes_on(&step) {
            self.outbox.mute();
            self.life = Life::Over;
        }
        step
    }

    /// The opening is refused: it is closed, and the session is over.
    pub fn shut_opening(&mut self)
        ensures { self.new ≡ record self.old { opening = shut self.old.opening; life = Over } }
    {
        self.opening.shut();
        self.outbox.mute();
        self.life = Life::Over;
    }
}
