//! Adding and removing keys (draft-miller-ssh-agent, sections 3.2 and 3.4).

ghost use Rattle.sshc_key.specs.Gives.{GivesAll};
ghost use Rattle.sshc_ask.specs.AgentCalls.{Calls};
ghost use Rattle.sshc_ask.specs.AgentCalls.Frames.{frame, add_identity, remove_all_identities, remove_identity};
ghost use Rattle.sshc_ask.specs.AgentCalls.Readings.{success_reading};

use crate::calls::messages::{addition, removal};
use crate::client::AgentClient;
use crate::message::Message;
use sshc_key::{Constraint, Error, PrivateKey, PublicKey, agent_msg};
use sshc_wire::AgentStream;

impl<S: AgentStream> AgentClient<S> {
    /// Adds a key pair under these constraints, with an empty comment. If the public and the private part have
    /// different algorithms, the frame contains no bytes for the pair.
    pub fn add_identity(
        &mut self,
        key: &PrivateKey,
        constraints: &[Constraint],
    ) -> Result<(), Error>
        ensures call { Calls (frame (add_identity key.now constraints.now))
            (λ answer. GivesAll (λ x. x) result (success_reading answer)) self.old self.new result }
    {
        let message = addition(self.alloc, key, constraints)?;
        self.succeed(message)
    }

    /// Removes a key.
    pub fn remove_identity(&mut self, public: &PublicKey) -> Result<(), Error>
        ensures call { Calls (frame (remove_identity public.now.0))
            (λ answer. GivesAll (λ x. x) result (success_reading answer)) self.old self.new result }
    {
        let message = removal(self.alloc, public)?;
        self.succeed(message)
    }

    /// Removes all keys.
    pub fn remove_all_identities(&mut self) -> Result<(), Error>
        ensures call { Calls (frame remove_all_identities)
            (λ answer. GivesAll (λ x. x) result (success_reading answer)) self.old self.new result }
    {
        let message = Message::new(self.alloc, agent_msg::REMOVE_ALL_IDENTITIES)?;
        self.succeed(message)
    }
}
