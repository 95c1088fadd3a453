//! Who signs with a key pair that is at hand.

ghost use Rattle.std.specs.Prelude.{◌≡◌, ◌≤◌, ℕ, List, IfOk, OnErr, Err, length};
ghost use Rattle.sshc_wire.specs.Faults.{Rose};
ghost use Rattle.sshc_key.specs.Signers.{IsSignature, SignCall, KeepsCall};

use crate::agent::AgentIdentity;
use crate::pair::PrivateKey;
use sshc_wire::HashAlg;

/// Who asks for a signature: the session, or a connection of the agent by its number.
#[derive(Clone, Copy, PartialEq, Eq)]
pub enum Asker {
    Session,
    Agent(u32),
}

/// Why there is no signature.
#[derive(Clone, Copy, PartialEq, Eq)]
pub enum SignRefused {
    Refused,
    NoMemory,
}

/// Makes signatures. It keeps the list of its calls with their answers, and a count of its refusals.
pub trait LocalSigner {
    ghost calls: { Self → List SignCall };

    ghost refusals: { Self → ℕ };

    /// Signs the bytes, and returns one whole signature. The hash counts for RSA keys alone.
    fn sign(
        &mut self,
        by: Asker,
        key: &PrivateKey,
        hash: Option<HashAlg>,
        bytes: &[u8],
    ) -> Result<Vec<u8>, SignRefused>
        ensures call { KeepsCall (calls self.old) (calls self.new) by key.now hash bytes.now result }
        ensures whole { IfOk result (λ v. IsSignature v.items) }
        ensures short { IfOk result (λ v. length v.items ≤ 65536) }
        ensures cause { result ≡ Err SignRefused.Refused → Rose (refusals self.old) (refusals self.new) }
        ensures later { refusals self.old ≤ refusals self.new };
}

/// Signs for a login with keys that it holds, as an agent or a card does. It keeps a count of its refusals.
pub trait Signer {
    type Error;

    ghost refusals: { Self → ℕ };

    /// The bytes, and behind them the signature of the key over them as a string (RFC 4252, section 7). The hash counts
    /// for RSA keys alone. Each error is a refusal that is counted, also out of memory.
    fn auth_sign(
        &mut self,
        key: &AgentIdentity,
        hash: Option<HashAlg>,
        bytes: Vec<u8>,
    ) -> Result<Vec<u8>, Self::Error>
        ensures cause { OnErr result (Rose (refusals self.old) (refusals self.new)) }
        ensures later { refusals self.old ≤ refusals self.new };
}
