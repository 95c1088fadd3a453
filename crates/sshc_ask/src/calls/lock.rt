//! The lock of an agent (draft-miller-ssh-agent, section 3.7).

ghost use Rattle.sshc_key.specs.Gives.{GivesAll};
ghost use Rattle.sshc_ask.specs.AgentCalls.{Calls};
ghost use Rattle.sshc_ask.specs.AgentCalls.Frames.{frame, lock, unlock};
ghost use Rattle.sshc_ask.specs.AgentCalls.Readings.{success_reading};

use crate::calls::messages::{locking, unlocking};
use crate::client::AgentClient;
use sshc_key::Error;
use sshc_wire::AgentStream;

impl<S: AgentStream> AgentClient<S> {
    /// Locks the agent with a passphrase.
    pub fn lock(&mut self, passphrase: &[u8]) -> Result<(), Error>
        ensures call { Calls (frame (lock passphrase.now))
            (λ answer. GivesAll (λ x. x) result (success_reading answer)) self.old self.new result }
    {
        let message = locking(self.alloc, passphrase)?;
        self.succeed(message)
    }

    /// Unlocks the agent by the passphrase of its lock.
    pub fn unlock(&mut self, passphrase: &[u8]) -> Result<(), Error>
        ensures call { Calls (frame (unlock passphrase.now))
            (λ answer. GivesAll (λ x. x) result (success_reading answer)) self.old self.new result }
    {
        let message = unlocking(self.alloc, passphrase)?;
        self.succeed(message)
    }
}
