//! Rows of a client's frame, on a connection on which no answer is awaited.

ghost use Rattle.std.specs.Prelude.{◌≡◌, ◌∷◌, Some};
ghost use Rattle.sshc_proxy.specs.Binding.{binding_of, binding_seen, is_signed};
ghost use Rattle.sshc_proxy.specs.ProxyTable.{Follows, asked_by, awaited_at, bound_at, extension_row, forwards};
ghost use Rattle.sshc_proxy.specs.ProxyTable.{frame_row, sign_request_row, succeeds};
ghost use Rattle.sshc_key.specs.AgentNumbers.{EXTENSION};
ghost use Rattle.sshc_proxy.specs.declared.input.ProxyInput.TheVariants.{Frame};
ghost use Rattle.sshc_proxy.specs.declared.waiting.Awaited.TheVariants.{Signature};

use super::ProxyCore;
use crate::binding::{Binding, binding_in, is_signed};
use crate::input::ProxyOutput;
use crate::waiting::Awaited;
use sshc_key::{Verifier, agent_msg};
use sshc_wire::{Cursor, NoMemory, Octets, framed};

/// The greatest number of hosts that are bound on one connection.
const MOST_BOUND: usize = 256;

impl ProxyCore {
    /// A frame, by its number.
    #[tactic(auto, unfolding(crate::specs::ProxyTable::frame_row), using(crate::proofs::Moved::refuses))]
    pub(super) fn frame<V: Verifier>(
        &mut self,
        conn: u32,
        whole: &[u8],
        verifier: &V,
    ) -> Result<ProxyOutput, NoMemory>
        ensures row { Follows
            (frame_row (V.accepts verifier.now) self.old.policy (bound_at self.old.bound conn) whole.now)
            conn (Frame whole.now) self.old self.new result }
    {
        match whole {
            [agent_msg::REQUEST_IDENTITIES, _body @ ..] => {
                self.forward(conn, Awaited::Listing, whole)
            }
            [agent_msg::SIGN_REQUEST, body @ ..] => self.sign_request(conn, body, whole),
            [agent_msg::EXTENSION, body @ ..] => self.extension(conn, body, whole, verifier),
            _ => self.failure(),
        }
    }

    /// Forwards a frame, whose answer is awaited from now on.
    #[tactic(auto, using(crate::proofs::Moved::forwards_moves))]
    fn forward(&mut self, conn: u32, kind: Awaited, whole: &[u8]) -> Result<ProxyOutput, NoMemory>
        requires { asked_by whole.now ≡ kind }
        ensures row { Follows (forwards whole.now) conn (Frame whole.now) self.old self.new result }
    {
        let frame = framed(self.alloc, whole)?;
        self.awaits.begin(conn, kind)?;
        Ok(ProxyOutput::Forward(frame))
    }

    /// SIGN_REQUEST (draft-miller-ssh-agent, section 3.6).
    #[tactic(auto, unfolding(crate::specs::ProxyTable::sign_request_row), using(crate::proofs::Moved::refuses))]
    fn sign_request(
        &mut self,
        conn: u32,
        body: &[u8],
        whole: &[u8],
    ) -> Result<ProxyOutput, NoMemory>
        requires { asked_by whole.now ≡ Signature }
        ensures row { Follows (sign_request_row self.old.policy (bound_at self.old.bound conn) body.now whole.now)
            conn (Frame whole.now) self.old self.new result }
    {
        match Cursor::new(body).bytes() {
            Ok(key) => {
                if self.policy.allows(self.bound.hosts(conn), key) {
                    self.forward(conn, Awaited::Signature, whole)
                } else {
                    self.failure()
                }
            }
            Err(_) => self.failure(),
        }
    }

    /// EXTENSION (OpenSSH's PROTOCOL.agent, section 1).
    #[tactic(auto, unfolding(crate::specs::ProxyTable::extension_row), using(crate::proofs::Moved::refuses))]
    fn extension<V: Verifier>(
        &mut self,
        conn: u32,
        body: &[u8],
        whole: &[u8],
        verifier: &V,
    ) -> Result<ProxyOutput, NoMemory>
        requires { whole.now ≡ EXTENSION ∷ body.now }
        ensures row { Follows (extension_row (V.accepts verifier.now) body.now)
            conn (Frame whole.now) self.old self.new result }
    {
        match binding_in(body) {
            Some(binding) => {
                if is_signed(self.alloc, &binding, verifier)? {
                    self.bind(conn, &binding, whole)
                } else {
                    self.failure()
                }
            }
            None => self.failure(),
        }
    }

    /// Binds the host and answers SUCCESS. More than 256 hosts on one connection count as out of memory, so that no
    /// client makes the proxy grow.
    #[tactic(auto, using(crate::proofs::Moved::succeeds_moves))]
    fn bind(
        &mut self,
        conn: u32,
        binding: &Binding<'_>,
        whole: &[u8],
    ) -> Result<ProxyOutput, NoMemory>
        requires { binding_of whole.now ≡ Some (binding_seen binding.now) }
        ensures row { Follows succeeds conn (Frame whole.now) self.old self.new result }
    {
        if self.bound.hosts(conn).len() >= MOST_BOUND {
            return Err(NoMemory);
        }
        let answer = framed(self.alloc, &[agent_msg::SUCCESS])?;
        let host = Octets::from_slice(self.alloc, binding.host_key)?;
        self.bound.bind(conn, host)?;
        Ok(ProxyOutput::Answer(answer))
    }
}
