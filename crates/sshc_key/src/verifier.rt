//! Who judges signatures.

ghost use Rattle.std.specs.Prelude.{◌≡◌, ℕ, List, Bool, IfOk};
ghost use Rattle.sshc_key.specs.Algorithms.{whole_signature, is_accepted};
ghost use Rattle.sshc_key.specs.KeyGrammar.{Key};
ghost use Rattle.sshc_key.specs.View.{view};
ghost use Rattle.sshc_key.specs.declared.signature.Signature.{Signature as Signed};

use crate::error::Error;
use crate::key_data::KeyData;
use crate::public_key::PublicKey;
use crate::reading::whole_signature;
use crate::signature::Signature;
use sshc_wire::NoMemory;

/// Judges signatures, always by the same relation.
pub trait Verifier {
    ghost accepts: { Self → Key → List ℕ → Signed → Bool };

    /// Whether the signature is the key's over the bytes.
    fn verifies(&self, key: &KeyData, bytes: &[u8], sig: &Signature) -> Result<bool, NoMemory>
        ensures { IfOk result (λ yes. yes ≡ accepts self.now (view key.now) bytes.now sig.now) };
}

/// Judges the blobs of signatures by a verifier.
pub trait Verify {
    ghost key: { Self → Key };

    /// Whether the bytes are one whole signature that the verifier accepts as the client's over the buffer.
    fn verify_client_auth<V: Verifier>(
        &self,
        verifier: &V,
        buffer: &[u8],
        sig: &[u8],
    ) -> Result<bool, NoMemory>
        ensures { IfOk result
            (λ yes. yes ≡ is_accepted (V.accepts verifier.now (key self.now) buffer.now) (whole_signature sig.now)) };

    /// The same of the server's signature.
    fn verify_server_auth<V: Verifier>(
        &self,
        verifier: &V,
        buffer: &[u8],
        sig: &[u8],
    ) -> Result<bool, NoMemory>
        ensures { IfOk result
            (λ yes. yes ≡ is_accepted (V.accepts verifier.now (key self.now) buffer.now) (whole_signature sig.now)) };
}

impl Verify for PublicKey {
    ghost key = { λ k. k.0 };

    #[tactic(auto, unfolding(crate::specs::Algorithms::whole_signature))]
    fn verify_client_auth<V: Verifier>(
        &self,
        verifier: &V,
        buffer: &[u8],
        sig: &[u8],
    ) -> Result<bool, NoMemory> {
        match whole_signature(self.comment.allocator(), sig) {
            Ok(signature) => verifier.verifies(&self.key, buffer, &signature),
            Err(Error::NoMemory) => Err(NoMemory),
            Err(_) => Ok(false),
        }
    }

    fn verify_server_auth<V: Verifier>(
        &self,
        verifier: &V,
        buffer: &[u8],
        sig: &[u8],
    ) -> Result<bool, NoMemory> {
        self.verify_client_auth(verifier, buffer, sig)
    }
}
