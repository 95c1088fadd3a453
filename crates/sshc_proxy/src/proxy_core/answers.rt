//! Rows of the agent's answer, on a connection on which one is awaited.

ghost use Rattle.std.specs.Prelude.{◌≡◌, IfOk};
ghost use Rattle.sshc_proxy.specs.ProxyTable.{Follows, answer_row, bound_at, listing_by, listing_row, signature_row};
ghost use Rattle.sshc_proxy.specs.Listing.{listed_keys};
ghost use Rattle.sshc_proxy.specs.declared.input.ProxyInput.TheVariants.{Upstream};

use super::ProxyCore;
use crate::input::ProxyOutput;
use crate::listing::{framed_listing, keep_allowed, listed_keys};
use crate::waiting::Awaited;
use sshc_key::{Error, agent_msg};
use sshc_wire::{NoMemory, framed};

impl ProxyCore {
    /// An answer, by what was asked for. None is awaited afterwards.
    #[tactic(auto, using(crate::proofs::Moved::answer_moves))]
    pub(super) fn answer(
        &mut self,
        conn: u32,
        kind: Awaited,
        answer: &[u8],
    ) -> Result<ProxyOutput, NoMemory>
        ensures row { Follows (answer_row self.old.policy (bound_at self.old.bound conn) kind answer.now)
            conn (Upstream answer.now) self.old self.new result }
    {
        let output = self.answered(conn, kind, answer)?;
        self.awaits.end(conn);
        Ok(output)
    }

    fn answered(&self, conn: u32, kind: Awaited, answer: &[u8]) -> Result<ProxyOutput, NoMemory>
        ensures { IfOk result
            (λ output. output ≡ answer_row self.now.policy (bound_at self.now.bound conn) kind answer.now) }
    {
        match kind {
            Awaited::Listing => self.listing(conn, answer),
            Awaited::Signature => self.signature(answer),
        }
    }

    /// IDENTITIES_ANSWER (draft-miller-ssh-agent, section 3.5).
    #[tactic(auto, unfolding(crate::specs::ProxyTable::listing_row))]
    fn listing(&self, conn: u32, answer: &[u8]) -> Result<ProxyOutput, NoMemory>
        ensures { IfOk result
            (λ output. output ≡ listing_row self.now.policy (bound_at self.now.bound conn) answer.now) }
    {
        match answer {
            [agent_msg::IDENTITIES_ANSWER, body @ ..] => self.allowed_listing(conn, body),
            _ => self.failure(),
        }
    }

    /// The keys that are allowed, of those in the answer.
    fn allowed_listing(&self, conn: u32, body: &[u8]) -> Result<ProxyOutput, NoMemory>
        ensures { IfOk result
            (λ output. output ≡ listing_by self.now.policy (bound_at self.now.bound conn) (listed_keys body.now)) }
    {
        match listed_keys(self.alloc, body) {
            Ok(mut keys) => {
                keep_allowed(&mut keys, &self.policy, self.bound.hosts(conn));
                Ok(ProxyOutput::Answer(framed_listing(self.alloc, keys.as_slice())?))
            }
            Err(Error::NoMemory) => Err(NoMemory),
            Err(_) => self.failure(),
        }
    }

    /// SIGN_RESPONSE (draft-miller-ssh-agent, section 3.6).
    #[tactic(auto, unfolding(crate::specs::ProxyTable::signature_row))]
    fn signature(&self, answer: &[u8]) -> Result<ProxyOutput, NoMemory>
        ensures { IfOk result (λ output. output ≡ signature_row answer.now) }
    {
        match answer {
            [agent_msg::SIGN_RESPONSE, _body @ ..] => {
                Ok(ProxyOutput::Answer(framed(self.alloc, answer)?))
            }
            _ => self.failure(),
        }
    }
}
