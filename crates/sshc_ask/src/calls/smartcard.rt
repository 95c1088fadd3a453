//! Keys on smart cards (draft-miller-ssh-agent, sections 3.3 and 3.4).

ghost use Rattle.sshc_key.specs.Gives.{GivesAll};
ghost use Rattle.sshc_ask.specs.AgentCalls.{Calls};
ghost use Rattle.sshc_ask.specs.AgentCalls.Frames.{frame, add_smartcard_key, remove_smartcard_key};
ghost use Rattle.sshc_ask.specs.AgentCalls.Readings.{success_reading};

use crate::calls::messages::{smartcard_addition, smartcard_removal};
use crate::client::AgentClient;
use sshc_key::{Constraint, Error};
use sshc_wire::AgentStream;

impl<S: AgentStream> AgentClient<S> {
    /// Adds the keys of a card, named by `id`, under these constraints.
    pub fn add_smartcard_key(
        &mut self,
        id: &str,
        pin: &[u8],
        constraints: &[Constraint],
    ) -> Result<(), Error>
        ensures call { Calls (frame (add_smartcard_key id.now pin.now constraints.now))
            (λ answer. GivesAll (λ x. x) result (success_reading answer)) self.old self.new result }
    {
        let message = smartcard_addition(self.alloc, id, pin, constraints)?;
        self.succeed(message)
    }

    /// Removes the keys of a card.
    pub fn remove_smartcard_key(&mut self, id: &str, pin: &[u8]) -> Result<(), Error>
        ensures call { Calls (frame (remove_smartcard_key id.now pin.now))
            (λ answer. GivesAll (λ x. x) result (success_reading answer)) self.old self.new result }
    {
        let message = smartcard_removal(self.alloc, id, pin)?;
        self.succeed(message)
    }
}
