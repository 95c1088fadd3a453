//! The keys that an agent holds (draft-miller-ssh-agent, section 3.5).

ghost use Rattle.sshc_key.specs.Gives.{GivesAll};
ghost use Rattle.sshc_ask.specs.AgentCalls.{Calls};
ghost use Rattle.sshc_ask.specs.AgentCalls.Frames.{frame, request_identities};
ghost use Rattle.sshc_ask.specs.AgentCalls.Readings.{identities_reading};

use crate::answer::identities_in;
use crate::client::AgentClient;
use crate::message::Message;
use sshc_key::{AgentIdentity, Error, agent_msg};
use sshc_wire::AgentStream;

impl<S: AgentStream> AgentClient<S> {
    /// The keys and certificates that the agent holds, each with its comment, in the agent's order. The result is empty
    /// if the agent answers with anything but a list, as a locked one may.
    pub fn request_identities(&mut self) -> Result<Vec<AgentIdentity>, Error>
        ensures call { Calls (frame request_identities)
            (λ answer. GivesAll (λ found. found.items) result (identities_reading answer)) self.old self.new result }
    {
        let message = Message::new(self.alloc, agent_msg::REQUEST_IDENTITIES)?;
        let answer = self.ask(message)?;
        identities_in(self.alloc, &answer)
    }
}
