//! Calls in two parts, between which their signatures are made outside the lock.

ghost use Rattle.std.specs.Prelude.{◌≡◌, List, IfErr, IfOk, IfSome, MatchOption, OnErr, Some};
ghost use Rattle.sshc_key.specs.Signers.{SignCall};
ghost use Rattle.sshc_agent_core.specs.Asked.{asked_of};
ghost use Rattle.sshc_agent_shared.specs.Apart.{Begins, BegunSeen, IsQuestion, IsRefusal, IsTaken};
ghost use Rattle.sshc_agent_shared.specs.Apart.{TellsApart, signed_calls};
ghost use Rattle.sshc_agent_shared.specs.Calls.{call_of};
ghost use Rattle.sshc_agent_shared.specs.Kept.{Adds, due, refused_once};

use crate::error::CallRefused;
use crate::generation::Generation;
use crate::question::{KeptQuestion, SignedQuestion};
use crate::ready::{NoSigner, ReadySigner};
use crate::seat::Seat;
use crate::settings::Settings;
use crate::state::AgentState;
use sshc_agent_core::{AgentInput, AgentOutput, Cause};

/// What the first part of a call comes to.
#[derive(Drop)]
pub enum Begun {
    /// It asks for a signature, with which the second part is to be called. Nothing has changed.
    Asks(AgentInput, KeptQuestion),
    /// It asks for none, and was made.
    Made(Result<AgentOutput, CallRefused>),
}

impl<L: Settings> Generation<L> {
    /// What a step with this input asks to be signed. `None` also where memory runs out.
    pub(crate) fn asks(&self, conn: u32, now: u64, input: &AgentInput) -> Option<KeptQuestion>
        ensures { IfSome result (λ q. asked_of now conn input.now self.now.of.list ≡ Some q) }
    {
        let asked = self.agent.asks(now, conn, input)?;
        KeptQuestion::of(self.alloc, conn, &asked).ok()
    }
}

impl<L: Settings> AgentState<L> {
    /// What a call with this input asks to be signed. `None` also where the journal has no room for the call, or memory
    /// runs out.
    #[tactic(auto, using(crate::proofs::ApartLemmas::question_of))]
    fn asks(&self, conn: u32, now: u64, input: &AgentInput) -> Option<KeptQuestion>
        ensures asked { IfSome result (λ q. asked_of now conn input.now self.now.list ≡ Some q) }
        ensures seen { IfSome result (λ q. IsQuestion conn now input.now q) }
    {
        self.is_legal();
        if !self.generation.has_room(input) {
            return None;
        }
        self.generation.asks(conn, now, input)
    }

    /// The first part of a call: what it asks to be signed, or, if it asks nothing, the whole call. Where memory runs out
    /// for what it asks, the call is made without a signature, and the connection is closed.
    pub fn begin(&mut self, seat: Seat<L>, now: u64, input: AgentInput) -> (Seat<L>, Begun)
        ensures begins { Begins self.old self.new seat result.0 now input result.1 }
        ensures seen { BegunSeen seat result.0 now input result.1 }
    {
        match self.asks(seat.conn, now, &input) {
            Some(question) => (seat, Begun::Asks(input, question)),
            None => {
                let (seat, answer) = self.call(seat, now, input, &mut NoSigner);
                (seat, Begun::Made(answer))
            }
        }
    }

    /// The second part of a call, with what was signed meanwhile: one step of the agent as it is now, with its entry and
    /// its call. The step takes the signature only if it asks just that. If it asks for another, memory counts as having
    /// run out, and the connection is closed.
    pub fn finish(
        &mut self,
        seat: Seat<L>,
        now: u64,
        input: AgentInput,
        signed: Option<SignedQuestion>,
    ) -> (Seat<L>, Result<AgentOutput, CallRefused>)
        ensures adds { IfOk result.1
            (λ out. (taken : List SignCall) × IsTaken signed taken
            × Adds self.old self.new seat result.0 now input taken out) }
        // So the output is that of a step after a legal history.
        ensures tells { IfOk result.1
            (λ out. TellsApart seat result.0 (call_of now input out) (signed_calls signed)) }
        ensures same { OnErr result.1 ((self.new ≡ self.old) × (result.0 ≡ refused_once seat)) }
        ensures due { MatchOption (due self.old seat input) (IfErr result.1 (λ e. e ≡ CallRefused.NoMemory))
            (λ e. result.1 ≡ Err e) }
        // The connection is closed because the signer refused only where it did.
        ensures cause { IfOk result.1 (λ out. out ≡ AgentOutput.Closed Cause.SignerRefused → IsRefusal signed) }
    {
        match signed {
            None => self.call(seat, now, input, &mut NoSigner),
            Some(signed) => {
                let mut signer = ReadySigner {
                    alloc: self.generation.alloc,
                    signed,
                    is_used: false,
                };
                self.call(seat, now, input, &mut signer)
            }
        }
    }
}
