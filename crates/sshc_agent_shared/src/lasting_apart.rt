//! Calls of an agent that lasts, in two parts, between which their signatures are made outside the lock.

ghost use Rattle.std.specs.Prelude.{◌≡◌, ℕ, [], List, IfOk, IfSome, Some};
ghost use Rattle.sshc_agent_core.specs.Asked.{asked_of};
ghost use Rattle.sshc_key.specs.Signers.{SignCall};
ghost use Rattle.sshc_agent_shared.specs.Apart.{IsRefusal, IsTaken, signed_calls};
ghost use Rattle.sshc_agent_shared.specs.Calls.{call_of};
ghost use Rattle.sshc_agent_shared.specs.Lasting.{KeepsLockOn, TakesOn};
ghost use Rattle.sshc_agent_shared.specs.LastingApart.{BeginsOn, IsLastingQuestion, LastingBegunSeen};
ghost use Rattle.sshc_agent_shared.specs.LastingApart.{TellsLastingApart};

use crate::error::{CloseError, LastingRefused};
use crate::lasting::LastingState;
use crate::past::Past;
use crate::question::{KeptQuestion, SignedQuestion};
use crate::ready::{NoSigner, ReadySigner};
use crate::settings::Settings;
use sshc_agent_core::{AgentInput, AgentOutput, Cause};

/// What the first part of a call comes to.
#[derive(Drop)]
pub enum LastingBegun {
    /// It asks for a signature, with which the second part is to be called. Nothing has changed.
    Asks(AgentInput, KeptQuestion),
    /// It asks for none, and was made, as `take` makes it.
    Made(Result<AgentOutput, LastingRefused>, Option<Result<Past, CloseError>>),
}

impl<L: Settings> LastingState<L> {
    /// What a call with this input asks to be signed. `None` also where no connection has this number, or memory runs
    /// out.
    fn asks(&self, conn: u32, now: u64, input: &AgentInput) -> Option<KeptQuestion>
        ensures asked { IfSome result (λ q. asked_of now conn input.now self.now.generation.of.list ≡ Some q) }
        ensures seen { IfSome result (λ q. IsLastingQuestion L.asks conn now input.now q) }
    {
        self.generation.is_legal();
        self.generation.is_as_named();
        if !self.is_connected(conn) {
            return None;
        }
        self.generation.asks(conn, now, input)
    }

    /// The first part of a call: what it asks to be signed, or, if it asks nothing, the whole call. Where memory runs out
    /// for what it asks, the call is made without a signature, and the connection is closed.
    pub fn begin(&mut self, conn: u32, now: u64, input: AgentInput) -> LastingBegun
        ensures begins { BeginsOn L.limit self.old self.new conn now input result }
        ensures seen { LastingBegunSeen L.asks conn now input result }
    {
        match self.asks(conn, now, &input) {
            Some(question) => LastingBegun::Asks(input, question),
            None => {
                let (answer, seam) = self.take(conn, now, input, &mut NoSigner);
                LastingBegun::Made(answer, seam)
            }
        }
    }

    /// The second part of a call, with what was signed meanwhile: as `take`, one step of the agent as it is now. The step
    /// takes the signature only if it asks just that. If it asks for another, memory counts as having run out, and the
    /// connection is closed.
    pub fn finish(
        &mut self,
        conn: u32,
        now: u64,
        input: AgentInput,
        signed: Option<SignedQuestion>,
    ) -> (
        Result<AgentOutput, LastingRefused>,
        Option<Result<Past, CloseError>>,
    )
        ensures takes { (taken : List SignCall) × IsTaken signed taken
            × TakesOn L.limit self.old self.new conn now input taken result.0 result.1 }
        // The output is that of a step of an agent to which generations lead.
        ensures tells { IfOk result.0
            (λ out. TellsLastingApart L.asks conn (call_of now input out) (signed_calls signed)) }
        // A lock that came meanwhile holds: no signature is taken.
        ensures locked { IfOk result.0
            (λ out. (p : List ℕ) → self.old.generation.of.list.passphrase ≡ Some p
            → KeepsLockOn p now conn input self.old.generation.of.list self.new.generation.of.list [] out) }
        // The connection is closed because the signer refused only where it did.
        ensures cause { IfOk result.0
            (λ out. out ≡ AgentOutput.Closed Cause.SignerRefused → IsRefusal signed) }
    {
        match signed {
            None => self.take(conn, now, input, &mut NoSigner),
            Some(signed) => {
                let mut signer = ReadySigner {
                    alloc: self.generation.alloc,
                    signed,
                    is_used: false,
                };
                self.take(conn, now, input, &mut signer)
            }
        }
    }
}
