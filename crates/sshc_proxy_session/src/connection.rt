//! One client's connection: one step for each input.

ghost use Rattle.std.specs.Prelude.{◌≡◌, ◌++◌, ◌∷◌, List, [], IfOk, None, option_map};
ghost use Rattle.sshc_proxy.specs.Binding.{Accepts, binding_seen};
ghost use Rattle.sshc_proxy_session.specs.SessionHistory.{Remembers, Step};
ghost use Rattle.sshc_proxy_session.specs.SessionTable.{Follows, Steps, answer_in, frame_in, question_by, question_in};
ghost use Rattle.sshc_proxy_session.specs.SessionTable.{session_row, verdict};
ghost use Rattle.sshc_proxy_session.specs.declared.event.SessionInput.TheVariants as inputs;
ghost use Rattle.sshc_proxy_session.specs.declared.session_policy.SessionRule.{SessionRule as Rule};

use crate::bound::Bound;
use crate::event::{SessionInput, SessionOutput};
use crate::session_policy::SessionPolicy;
use sshc_key::Verifier;
use sshc_proxy::{Awaited, Binding, binding_of, is_signed};
use sshc_wire::{List, NoMemory};
use std::alloc::Global;
use std::marker::Model;

mod answers;
mod requests;

/// What is kept of a client's connection, which contracts see as plain data: the sessions that are bound, and the answer
/// of the agent that is awaited. A connection of its own needs a value of its own; all can share a policy.
#[derive(Drop)]
pub struct SessionConnection {
    alloc: Global,
    bindings: List<Bound>,
    awaits: Option<Awaited>,
}

impl Model for SessionConnection {
    ghost use Rattle.sshc_proxy_session.specs.SessionTable.{Standing};

    ghost Value = { Standing };

    ghost view = { λ c. record { bindings = c.bindings; awaits = c.awaits } };
}

impl SessionConnection {
    /// No session is bound, and no answer is awaited.
    #[tactic(auto, using(crate::proofs::HistoryLemmas::remembers_none))]
    pub fn new(alloc: Global) -> SessionConnection
        ensures fresh { result ≡ record { bindings = []; awaits = None } }
        // No step was taken yet.
        ensures history { (accepts : Accepts) (policy : List Rule) → Remembers accepts policy result [] }
    {
        SessionConnection {
            alloc,
            bindings: List::new(alloc),
            awaits: None,
        }
    }

    /// The sessions that are bound, in order.
    pub fn bindings(&self) -> &[Bound]
        ensures { result.now ≡ self.now.bindings }
    {
        self.bindings.as_slice()
    }

    /// Takes an input. After `NoMemory` the connection is as it was. It is `asks`, the verifier, and `apply` with its
    /// answer.
    pub fn step<V: Verifier>(
        &mut self,
        policy: &SessionPolicy,
        input: &SessionInput,
        verifier: &V,
    ) -> SessionOutput
        ensures row { Steps (verdict (V.accepts verifier.now) (question_in self.old input.now))
            policy.now input.now self.old self.new result }
        // What is kept is what the steps so far say, and each of them keeps the policy: a request to sign is forwarded
        // only for a login of the session that was bound last, by a host that the policy names for this key, user and
        // way and that proved itself by a signature.
        ensures history { (steps : List Step) → Remembers (V.accepts verifier.now) policy.now self.old steps
            → Remembers (V.accepts verifier.now) policy.now self.new
            (steps ++ record { input = input.now; output = result } ∷ []) }
    {
        match self.ask(input, verifier) {
            Ok(is_verified) => self.apply(policy, input, is_verified),
            Err(NoMemory) => SessionOutput::NoMemory,
        }
    }

    /// The binding in the input whose signature is to be verified before `apply`: the host key's, which has to be one
    /// plain key, over the session's identifier. `None` where the input is no binding, and where an answer is awaited.
    pub fn asks<'a>(&self, input: &'a SessionInput) -> Option<Binding<'a>>
        ensures { option_map binding_seen result ≡ question_in self.now input.now }
    {
        match input {
            SessionInput::Frame(whole) => self.asks_frame(whole.as_slice()),
            SessionInput::Upstream(_) => None,
        }
    }

    fn asks_frame<'a>(&self, whole: &'a [u8]) -> Option<Binding<'a>>
        ensures { option_map binding_seen result ≡ question_by self.now.awaits whole.now }
    {
        match self.awaits {
            Some(_) => None,
            None => binding_of(whole),
        }
    }

    /// Asks the verifier what a step has to know.
    fn ask<V: Verifier>(&self, input: &SessionInput, verifier: &V) -> Result<bool, NoMemory>
        ensures { IfOk result
            (λ yes. yes ≡ verdict (V.accepts verifier.now) (question_in self.now input.now)) }
    {
        match self.asks(input) {
            Some(binding) => is_signed(self.alloc, &binding, verifier),
            None => Ok(false),
        }
    }

    /// Does the rest of a step, after whoever verifies was asked what `asks` returned: the row of the table, where
    /// `is_verified` tells that the binding's host key is one plain key and the signature that key's. After `NoMemory`
    /// the connection is as it was.
    pub fn apply(
        &mut self,
        policy: &SessionPolicy,
        input: &SessionInput,
        is_verified: bool,
    ) -> SessionOutput
        ensures row { Steps is_verified policy.now input.now self.old self.new result }
        // As `step`'s, for each relation that says of the binding what was told.
        ensures history { (accepts : Accepts) (steps : List Step)
            → is_verified ≡ verdict accepts (question_in self.old input.now)
            → Remembers accepts policy.now self.old steps → Remembers accepts policy.now self.new
            (steps ++ record { input = input.now; output = result } ∷ []) }
    {
        input.knows_bytes();
        self.take(policy, input, is_verified)
    }

    /// Does the row of an input, or runs out of memory.
    fn take(
        &mut self,
        policy: &SessionPolicy,
        input: &SessionInput,
        is_verified: bool,
    ) -> SessionOutput
        ensures row { Steps is_verified policy.now input.now self.old self.new result }
    {
        match self.row(policy, input, is_verified) {
            Ok(output) => output,
            Err(NoMemory) => SessionOutput::NoMemory,
        }
    }

    fn row(
        &mut self,
        policy: &SessionPolicy,
        input: &SessionInput,
        is_verified: bool,
    ) -> Result<SessionOutput, NoMemory>
        ensures row { Follows (session_row is_verified policy.now self.old input.now)
            input.now self.old self.new result }
    {
        match input {
            SessionInput::Frame(whole) => self.frame_input(policy, whole.as_slice(), is_verified),
            SessionInput::Upstream(answer) => self.answer_input(policy, answer.as_slice()),
        }
    }

    /// A frame. While an answer is awaited it is ignored.
    fn frame_input(
        &mut self,
        policy: &SessionPolicy,
        whole: &[u8],
        is_verified: bool,
    ) -> Result<SessionOutput, NoMemory>
        ensures row { Follows (frame_in is_verified policy.now self.old.bindings self.old.awaits whole.now)
            (inputs.Frame whole.now) self.old self.new result }
    {
        match self.awaits {
            Some(_) => Ok(SessionOutput::Nothing),
            None => self.frame(policy, whole, is_verified),
        }
    }

    /// An answer. One that isn't awaited is ignored.
    fn answer_input(
        &mut self,
        policy: &SessionPolicy,
        answer: &[u8],
    ) -> Result<SessionOutput, NoMemory>
        ensures row { Follows (answer_in policy.now self.old.bindings self.old.awaits answer.now)
            (inputs.Upstream answer.now) self.old self.new result }
    {
        match self.awaits {
            None => Ok(SessionOutput::Nothing),
            Some(kind) => self.answer(policy, kind, answer),
        }
    }
}
