//! Rows of the agent's answer, where one is awaited.

ghost use Rattle.std.specs.Prelude.{◌≡◌, IfOk};
ghost use Rattle.sshc_proxy.specs.Listing.{keys_seen, listed_keys};
ghost use Rattle.sshc_proxy_session.specs.SessionTable.{Follows, answer_row, listing_by, listing_row, signature_row};
ghost use Rattle.sshc_proxy_session.specs.SessionTable.{usable_keys};
ghost use Rattle.sshc_proxy_session.specs.declared.event.SessionInput.TheVariants.{Upstream};

use super::SessionConnection;
use crate::bound::Bound;
use crate::event::SessionOutput;
use crate::refusal::Refusal;
use crate::session_policy::SessionPolicy;
use sshc_key::{Error, agent_msg};
use sshc_proxy::{Awaited, Listed, framed_listing, listed_keys};
use sshc_wire::{NoMemory, framed};

/// Keeps the keys that could be used.
fn keep_usable(keys: &mut Vec<Listed<'_>>, policy: &SessionPolicy, bindings: &[Bound])
    ensures { keys_seen keys.new.items ≡ usable_keys policy.now bindings.now (keys_seen keys.old.items) }
{
    keys.retain(|key| policy.is_usable(bindings, key.blob));
}

impl SessionConnection {
    /// An answer, by what was asked for. None is awaited afterwards.
    pub(super) fn answer(
        &mut self,
        policy: &SessionPolicy,
        kind: Awaited,
        answer: &[u8],
    ) -> Result<SessionOutput, NoMemory>
        ensures row { Follows (answer_row policy.now self.old.bindings kind answer.now)
            (Upstream answer.now) self.old self.new result }
    {
        let output = self.answered(policy, kind, answer)?;
        self.awaits = None;
        Ok(output)
    }

    fn answered(
        &self,
        policy: &SessionPolicy,
        kind: Awaited,
        answer: &[u8],
    ) -> Result<SessionOutput, NoMemory>
        ensures { IfOk result (λ output. output ≡ answer_row policy.now self.now.bindings kind answer.now) }
    {
        match kind {
            Awaited::Listing => self.listing(policy, answer),
            Awaited::Signature => self.signature(answer),
        }
    }

    /// IDENTITIES_ANSWER (draft-miller-ssh-agent, section 3.5).
    #[tactic(auto, unfolding(crate::specs::SessionTable::listing_row))]
    fn listing(&self, policy: &SessionPolicy, answer: &[u8]) -> Result<SessionOutput, NoMemory>
        ensures { IfOk result (λ output. output ≡ listing_row policy.now self.now.bindings answer.now) }
    {
        match answer {
            [agent_msg::IDENTITIES_ANSWER, body @ ..] => self.usable_listing(policy, body),
            _ => Ok(SessionOutput::Refused(Refusal::AgentRefused)),
        }
    }

    /// The keys that could be used, of those in the answer.
    fn usable_listing(&self, policy: &SessionPolicy, body: &[u8]) -> Result<SessionOutput, NoMemory>
        ensures { IfOk result
            (λ output. output ≡ listing_by policy.now self.now.bindings (listed_keys body.now)) }
    {
        match listed_keys(self.alloc, body) {
            Ok(mut keys) => {
                keep_usable(&mut keys, policy, self.bindings.as_slice());
                Ok(SessionOutput::Answer(framed_listing(self.alloc, keys.as_slice())?))
            }
            Err(Error::NoMemory) => Err(NoMemory),
            Err(_) => Ok(SessionOutput::Refused(Refusal::AgentRefused)),
        }
    }

    /// SIGN_RESPONSE (draft-miller-ssh-agent, section 3.6).
    #[tactic(auto, unfolding(crate::specs::SessionTable::signature_row))]
    fn signature(&self, answer: &[u8]) -> Result<SessionOutput, NoMemory>
        ensures { IfOk result (λ output. output ≡ signature_row answer.now) }
    {
        match answer {
            [agent_msg::SIGN_RESPONSE, _body @ ..] => {
                Ok(SessionOutput::Answer(framed(self.alloc, answer)?))
            }
            _ => Ok(SessionOutput::Refused(Refusal::AgentRefused)),
        }
    }
}
