//! Reads signatures (RFC 4253, section 6.6; PROTOCOL.u2f).

ghost use Rattle.std.specs.Prelude.{◌≡◌, ◌↔◌, ◌++◌, ℕ, List, Ok, OnErr};
ghost use Rattle.sshc_wire.specs.Whole.{whole_at};
ghost use Rattle.sshc_key.specs.Gives.{Gives, GivesAll};
ghost use Rattle.sshc_key.specs.KeyGrammar.{signature_text, SignatureFits};
ghost use Rattle.sshc_key.specs.KeyReading.{sk_at, signature_at};
ghost use Rattle.sshc_key.specs.declared.signature.Signature.{Signature as Signed};
ghost use Rattle.sshc_key.specs.declared.error.Error.TheVariants.{SshKey};

use crate::error::Error;
use crate::reading::parts::{octets_of, text_of, u8_of, u32_of};
use crate::signature::{Signature, SkFields};
use sshc_wire::Cursor;
use std::alloc::Global;

#[tactic(auto, unfolding(crate::specs::KeyReading::sk_at))]
fn sk_of(name: &[u8], c: &mut Cursor<'_>) -> Result<Option<SkFields>, Error>
    ensures { Gives (λ x. x) result c.new (sk_at name.now c.old) }
{
    if !name.starts_with(b"sk-") {
        return Ok(None);
    }
    let flags = u8_of(c)?;
    let counter = u32_of(c)?;
    Ok(Some(SkFields { flags, counter }))
}

#[tactic(auto, unfolding(crate::specs::KeyReading::signature_at))]
pub(super) fn signature_of(alloc: Global, c: &mut Cursor<'_>) -> Result<Signature, Error>
    ensures { Gives (λ x. x) result c.new (signature_at c.old) }
{
    let name = text_of(alloc, c)?;
    let body = octets_of(alloc, c)?;
    let sk = sk_of(name.as_str().as_bytes(), c)?;
    Ok(Signature { name, body, sk })
}

pub(crate) fn whole_signature(alloc: Global, bytes: &[u8]) -> Result<Signature, Error>
    ensures { GivesAll (λ x. x) result (whole_at SshKey signature_at bytes.now) }
{
    let mut c = Cursor::new(bytes);
    let signature = signature_of(alloc, &mut c)?;
    if !c.rest().is_empty() {
        return Err(Error::SshKey);
    }
    Ok(signature)
}

/// Reads a signature. A refused cursor is unmoved.
pub fn read_signature(alloc: Global, c: &mut Cursor<'_>) -> Result<Signature, Error>
    ensures reads { Gives (λ s. s) result c.new (signature_at c.old) }
    ensures unmoved { OnErr result (c.new ≡ c.old) }
    // What is read is a signature of the grammar with its text at the front, and there is no other.
    ensures grammar { (s : Signed) (rest : List ℕ) → (signature_at c.old ≡ Ok (s, rest))
        ↔ (SignatureFits s × (c.old ≡ signature_text s ++ rest)) }
{
    let mut after = Cursor::new(c.rest());
    match signature_of(alloc, &mut after) {
        Ok(signature) => {
            *c = after;
            Ok(signature)
        }
        Err(error) => Err(error),
    }
}
