//! The bytes that are signed (RFC 4252, section 7; RFC 4462, section 3.5).

ghost use Rattle.std.specs.Prelude.{◌≡◌, ◌<◌, ◌^◌, length, Option, ◌++◌, codes, IfOk, OnOk};
ghost use Rattle.sshc_wire.specs.Wire.{string_text};
ghost use Rattle.sshc_key.specs.KeyGrammar.{Key};
ghost use Rattle.sshc_wire.specs.declared.hash_alg.HashAlg.{HashAlg as Hash};
ghost use Rattle.sshc_auth_request.specs.RequestTexts.{mic, request_head, signed, signed_by, signed_request};
ghost use Rattle.sshc_auth_request.specs.KeyParts.{IsKeyPart};

use crate::parts::{KeyPart, certificate_part, head_size, key_part, put_head, put_key_method};
use sshc_key::{HashAlg, PublicKeyOrCertificate};
use sshc_wire::{NoMemory, Octets, put_bytes, put_text, string_size};
use std::alloc::Global;

/// How many bytes the method's name takes at the end of the bytes of which a MIC is made.
const MIC_METHOD: usize = 19;

/// The bytes to sign for a key in a request, which begin with the session id as a string.
pub fn part_to_sign(
    alloc: Global,
    session_id: &[u8],
    user: &str,
    part: &KeyPart<'_>,
) -> Result<Vec<u8>, NoMemory>
    requires id { length session_id.now < 2 ^ 32 }
    requires user { length user.now < 2 ^ 32 }
    ensures { IfOk result
        (λ v. (key : Key) (hash : Option Hash) → IsKeyPart part.now key hash
        → v.items ≡ signed session_id.now user.now key hash) }
{
    let request = head_size(user).saturating_add(part.size());
    let size = string_size(session_id.len()).saturating_add(request);
    let mut bytes = Vec::with_capacity(alloc, size)?;
    put_bytes(&mut bytes, session_id)?;
    put_head(&mut bytes, user)?;
    put_key_method(&mut bytes, 1, part)?;
    Ok(bytes)
}

/// The signed request, as a packet.
#[tactic(auto, using(std::proofs::lemmas::List::append_assoc), unfolding(crate::specs::RequestTexts::unsigned_request))]
pub fn signed_packet(
    alloc: Global,
    user: &str,
    part: &KeyPart<'_>,
    signature: &[u8],
) -> Result<Octets, NoMemory>
    requires user { length user.now < 2 ^ 32 }
    requires signature { length signature.now < 2 ^ 32 }
    ensures { IfOk result
        (λ packet. (key : Key) (hash : Option Hash) → IsKeyPart part.now key hash
        → packet ≡ signed_request user.now key hash signature.now) }
{
    let request = head_size(user).saturating_add(part.size());
    let size = request.saturating_add(string_size(signature.len()));
    let mut packet = Vec::with_capacity(alloc, size)?;
    put_head(&mut packet, user)?;
    put_key_method(&mut packet, 1, part)?;
    put_bytes(&mut packet, signature)?;
    Octets::from_vec(packet)
}

/// The bytes that a user signs with a key. `hash` is used only for a certificate; a plain key has its own.
pub fn to_sign(
    alloc: Global,
    session_id: &[u8],
    user: &str,
    k: &PublicKeyOrCertificate,
    hash: Option<HashAlg>,
) -> Result<Vec<u8>, NoMemory>
    requires id { length session_id.now < 2 ^ 32 }
    requires user { length user.now < 2 ^ 32 }
    ensures { IfOk result (λ v. v.items ≡ signed_by session_id.now user.now k.now hash) }
{
    match k {
        PublicKeyOrCertificate::PublicKey { key, hash_alg } => {
            let part = key_part(key, *hash_alg);
            part_to_sign(alloc, session_id, user, &part)
        }
        PublicKeyOrCertificate::Certificate(certificate) => {
            let part = certificate_part(certificate, hash);
            part_to_sign(alloc, session_id, user, &part)
        }
    }
}

/// Writes the session id, and a request by GSSAPI without its mechanisms.
#[tactic(auto, using(std::proofs::lemmas::List::append_assoc))]
fn put_mic_data(out: &mut Vec<u8>, session_id: &[u8], user: &str) -> Result<(), NoMemory>
    requires id { length session_id.now < 2 ^ 32 }
    requires user { length user.now < 2 ^ 32 }
    ensures { OnOk result
        (out.new.items
        ≡ out.old.items ++ string_text session_id.now ++ request_head user.now
        ++ string_text (codes "gssapi-with-mic")) }
{
    put_bytes(out, session_id)?;
    put_head(out, user)?;
    put_text(out, "gssapi-with-mic")?;
    Ok(())
}

/// The bytes of which a MIC is made.
#[tactic(auto, unfolding(crate::specs::RequestTexts::mic))]
pub fn mic_data(alloc: Global, session_id: &[u8], user: &str) -> Result<Vec<u8>, NoMemory>
    requires id { length session_id.now < 2 ^ 32 }
    requires user { length user.now < 2 ^ 32 }
    ensures { IfOk result (λ v. v.items ≡ mic session_id.now user.now) }
{
    let request = head_size(user).saturating_add(MIC_METHOD);
    let size = string_size(session_id.len()).saturating_add(request);
    let mut bytes = Vec::with_capacity(alloc, size)?;
    put_mic_data(&mut bytes, session_id, user)?;
    Ok(bytes)
}
