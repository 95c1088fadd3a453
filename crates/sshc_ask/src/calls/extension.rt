//! Extensions (draft-miller-ssh-agent, section 3.8), and the one that binds a session (OpenSSH's PROTOCOL.agent,
//! section 1).

ghost use Rattle.std.specs.Prelude.{◌≡◌, OnErr};
ghost use Rattle.sshc_key.specs.Gives.{GivesAll};
ghost use Rattle.sshc_ask.specs.AgentCalls.{Calls, Found};
ghost use Rattle.sshc_ask.specs.AgentCalls.Frames.{frame, bind_session, extension, query_extension};
ghost use Rattle.sshc_ask.specs.AgentCalls.Readings.{extension_reading, query_reading, success_reading};

use crate::answer::{extension_in, string_in};
use crate::calls::messages::{extending, querying, session_bind};
use crate::client::AgentClient;
use sshc_key::{AgentSessionBinding, Error};
use sshc_wire::AgentStream;

impl<S: AgentStream> AgentClient<S> {
    /// Binds a session to this connection; `forwarding` means that the connection is to be forwarded.
    pub fn bind_session(
        &mut self,
        binding: &AgentSessionBinding,
        forwarding: bool,
    ) -> Result<(), Error>
        ensures call { Calls (frame (bind_session binding.now forwarding))
            (λ answer. GivesAll (λ x. x) result (success_reading answer)) self.old self.new result }
    {
        let message = session_bind(self.alloc, binding, forwarding)?;
        self.succeed(message)
    }

    /// Asks for an extension by its name, with contents preceded by their length.
    pub fn extension(&mut self, typ: &[u8], ext: &[u8]) -> Result<(), Error>
        ensures call { Calls (frame (extension typ.now ext.now))
            (λ answer. GivesAll (λ x. x) result (extension_reading answer)) self.old self.new result }
    {
        let message = extending(self.alloc, typ, ext)?;
        let answer = self.ask(message)?;
        extension_in(&answer)
    }

    /// Asks for an extension by its name, and appends the string in the agent's answer to `ext`. Returns false if the
    /// answer has none; then, and after an error, `ext` is unchanged.
    pub fn query_extension(&mut self, typ: &[u8], ext: &mut Vec<u8>) -> Result<bool, Error>
        ensures call { Calls (frame (query_extension typ.now))
            (λ answer. Found ext.old.items ext.new.items result (query_reading answer)) self.old self.new result }
        ensures err { OnErr result (ext.new.items ≡ ext.old.items) }
    {
        let message = querying(self.alloc, typ)?;
        let answer = self.ask(message)?;
        match string_in(&answer) {
            Some(text) => {
                ext.extend_from_slice(text)?;
                Ok(true)
            }
            None => Ok(false),
        }
    }
}
