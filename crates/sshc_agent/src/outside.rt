//! What a server needs from its caller: the user who answers questions, the listener, and a pause for tests.

ghost use Rattle.std.specs.Prelude.{◌≡◌, ℕ, Bool, List, true};
ghost use Rattle.sshc_wire.specs.Faults.{HasCause};
ghost use Rattle.sshc_wire.specs.declared.message_type.MessageType.{MessageType as Kind};

use sshc_wire::{AgentStream, Failed, MessageType};

/// Answers the agent's questions in its user's place.
pub trait Agent: Send + Sync {
    /// The answers that it may give to the question about a request of this kind.
    ghost allows: { Self → Kind → Bool → Type 0 };

    /// The answers that it may give to the question about the key with this blob.
    ghost confirms: { Self → List ℕ → Bool → Type 0 };

    /// Whether the key with this blob may sign.
    fn confirm(&self, blob: &[u8]) -> bool
        ensures { confirms self.now blob.now result };

    /// Whether a request of this kind is allowed.
    fn confirm_request(&self, message: MessageType) -> bool
        ensures { allows self.now message result };
}

/// Answers yes to each question.
impl Agent for () {
    ghost allows = { λ s message yes. yes ≡ true };

    ghost confirms = { λ s blob yes. yes ≡ true };

    fn confirm(&self, _blob: &[u8]) -> bool {
        true
    }

    fn confirm_request(&self, _message: MessageType) -> bool {
        true
    }
}

/// Accepts one stream after another, and counts its faults.
pub trait Listener {
    type Stream: AgentStream + Send + Drop;

    ghost faults: { Self → ℕ };

    /// Waits for the next stream and returns it.
    fn accept(&mut self) -> Result<Self::Stream, Failed>
        ensures cause { HasCause (faults self.old) (faults self.new) result };
}

/// Is called before each call of a connection, while the agent's mutex isn't held. Calls are numbered from 0.
pub trait Pause: Sync {
    fn before(&self, conn: u32, number: u32);
}

impl Pause for () {
    fn before(&self, _conn: u32, _number: u32) {}
}
