//! The message of a sign request (draft-miller-ssh-agent, section 3.6; RFC 8332).

ghost use Rattle.std.specs.Prelude.{◌≡◌, ◌∷◌, ◌++◌, IfOk};
ghost use Rattle.sshc_wire.specs.Wire.{string_text, u32_text};
ghost use Rattle.sshc_key.specs.Algorithms.{kept_hash};
ghost use Rattle.sshc_key.specs.KeyGrammar.{key_text};
ghost use Rattle.sshc_key.specs.View.{view};
ghost use Rattle.sshc_key.specs.AgentNumbers.{SIGN_REQUEST};
ghost use Rattle.sshc_ask.specs.AgentCalls.Frames.{message, hash_flag, sent_hash, sign_request, signing_key};

use crate::message::Message;
use sshc_key::{
    AgentIdentity, Certificate, HashAlg, KeyData, PublicKey, PublicKeyBase64, agent_msg,
};
use sshc_wire::NoMemory;
use std::alloc::Global;

/// The hash, which only an RSA key has.
fn own_hash(key: &KeyData, hash_alg: Option<HashAlg>) -> Option<HashAlg>
    ensures { result ≡ kept_hash (view key.now) hash_alg }
{
    match key {
        KeyData::Rsa { .. } => hash_alg,
        KeyData::Certificate(certificate) => {
            let _ = &certificate.nonce;
            None
        }
        _ => None,
    }
}

fn certificate_hash(certificate: &Certificate, hash_alg: Option<HashAlg>) -> Option<HashAlg>
    ensures { result ≡ sent_hash certificate.now hash_alg }
{
    own_hash(&certificate.public_key, hash_alg)
}

/// The hash that a sign request for this key or certificate asks for.
pub(super) fn key_hash(key: &KeyData, hash_alg: Option<HashAlg>) -> Option<HashAlg>
    ensures { result ≡ sent_hash (view key.now) hash_alg }
{
    match key {
        KeyData::Certificate(certificate) => certificate_hash(certificate, hash_alg),
        _ => own_hash(key, hash_alg),
    }
}

/// The hash that a sign request for this identity asks for.
pub(super) fn identity_hash(identity: &AgentIdentity, hash_alg: Option<HashAlg>) -> Option<HashAlg>
    ensures { result ≡ sent_hash (signing_key identity.now) hash_alg }
{
    match identity {
        AgentIdentity::PublicKey { key, .. } => key_hash(&key.key, hash_alg),
        AgentIdentity::Certificate { certificate, .. } => certificate_hash(certificate, hash_alg),
    }
}

fn flag_of(asked: Option<HashAlg>) -> u32
    ensures { result ≡ hash_flag asked }
{
    match asked {
        None => 0,
        Some(HashAlg::Sha256) => agent_msg::SSH_AGENT_RSA_SHA2_256,
        Some(HashAlg::Sha512) => agent_msg::SSH_AGENT_RSA_SHA2_512,
    }
}

fn blob_of(identity: &AgentIdentity) -> Result<Vec<u8>, NoMemory>
    ensures { IfOk result (λ v. v.items ≡ key_text (signing_key identity.now)) }
{
    match identity {
        AgentIdentity::PublicKey { key, .. } => key.public_key_bytes(),
        AgentIdentity::Certificate { certificate, .. } => certificate.to_bytes(),
    }
}

/// The blob, the bytes to sign and the flag of the hash.
fn signing(
    alloc: Global,
    blob: &[u8],
    asked: Option<HashAlg>,
    body: &[u8],
) -> Result<Message, NoMemory>
    ensures { IfOk result
        (λ m. m ≡ SIGN_REQUEST ∷ (string_text blob.now ++ (string_text body.now ++ u32_text (hash_flag asked)))) }
{
    let mut written = Message::new(alloc, agent_msg::SIGN_REQUEST)?;
    written.string(blob)?;
    written.string(body)?;
    written.number(flag_of(asked))?;
    Ok(written)
}

pub(super) fn identity_signing(
    alloc: Global,
    identity: &AgentIdentity,
    hash_alg: Option<HashAlg>,
    body: &[u8],
) -> Result<Message, NoMemory>
    ensures { IfOk result (λ m. m ≡ message (sign_request (signing_key identity.now) hash_alg body.now)) }
{
    let blob = blob_of(identity)?;
    signing(alloc, &blob, identity_hash(identity, hash_alg), body)
}

pub(super) fn key_signing(
    alloc: Global,
    public: &PublicKey,
    hash_alg: Option<HashAlg>,
    body: &[u8],
) -> Result<Message, NoMemory>
    ensures { IfOk result (λ m. m ≡ message (sign_request public.now.0 hash_alg body.now)) }
{
    let blob = public.public_key_bytes()?;
    signing(alloc, &blob, key_hash(&public.key, hash_alg), body)
}
