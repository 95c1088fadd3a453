//! Judges the proof of host keys (OpenSSH's PROTOCOL, section 2.5).

ghost use Rattle.std.specs.Prelude.{◌≡◌, ◌++◌, Some, None, IfOk, OnOk, Ok, codes};
ghost use Rattle.sshc_wire.specs.Wire.{string_text};
ghost use Rattle.sshc_key.specs.Algorithms.{whole_signature};
ghost use Rattle.sshc_client_packets.specs.GlobalRequests.{blob_text};
ghost use Rattle.sshc_client_packets.specs.HostKeyProof.{JudgedIsProof, proof_bytes, proof_judged, signature_judged};

use crate::global_request::put_blob;
use crate::putting::put_words;
use sshc_key::{Error, PublicKey, Signature, Verifier, read_signature};
use sshc_wire::{Cursor, HostKeysFault, NoMemory, put_string, string_size};
use std::alloc::Global;

/// How many bytes the request's name takes before the bytes that are signed.
const REQUEST_NAME: usize = 33;

/// The request's name, the session id and the key's blob, each a string.
#[tactic(auto, using(std::proofs::lemmas::List::append_assoc))]
fn put_proof(out: &mut Vec<u8>, session_id: &[u8], key: &PublicKey) -> Result<(), NoMemory>
    ensures { OnOk result
        (out.new.items
        ≡ out.old.items ++ string_text (codes "hostkeys-prove-00@openssh.com") ++ string_text session_id.now
        ++ blob_text key.now) }
{
    put_words(out, "hostkeys-prove-00@openssh.com")?;
    put_string(out, session_id)?;
    put_blob(out, key)?;
    Ok(())
}

/// The bytes that a host key signs in its proof.
#[tactic(auto, unfolding(crate::specs::HostKeyProof::proof_bytes))]
fn proof_bytes(alloc: Global, session_id: &[u8], key: &PublicKey) -> Result<Vec<u8>, NoMemory>
    ensures { IfOk result (λ v. v.items ≡ proof_bytes session_id.now key.now.0) }
{
    let size = string_size(session_id.len()).saturating_add(string_size(key.key.size()));
    let mut bytes = Vec::with_capacity(alloc, size.saturating_add(REQUEST_NAME))?;
    put_proof(&mut bytes, session_id, key)?;
    Ok(bytes)
}

/// The signature that the whole bytes encode, if they encode one.
#[tactic(auto, unfolding(sshc_key::specs::Algorithms::whole_signature))]
fn signature_in(alloc: Global, bytes: &[u8]) -> Result<Option<Signature>, NoMemory>
    ensures { IfOk result (λ o. o ≡ whole_signature bytes.now) }
{
    let mut c = Cursor::new(bytes);
    match read_signature(alloc, &mut c) {
        Ok(signature) => {
            if c.rest().is_empty() {
                Ok(Some(signature))
            } else {
                Ok(None)
            }
        }
        Err(error) => {
            if error == Error::NoMemory {
                Err(NoMemory)
            } else {
                Ok(None)
            }
        }
    }
}

/// Judges the string of one key: no fault if it is one whole signature of the key's.
fn part_fault<V: Verifier>(
    alloc: Global,
    verifier: &V,
    session_id: &[u8],
    key: &PublicKey,
    part: &[u8],
) -> Result<Result<(), HostKeysFault>, NoMemory>
    ensures { IfOk result
        (λ r. r ≡ signature_judged (V.accepts verifier.now key.now.0 (proof_bytes session_id.now key.now.0))
        (whole_signature part.now)) }
{
    let Some(signature) = signature_in(alloc, part)? else {
        return Ok(Err(HostKeysFault::SshEncoding));
    };
    let bytes = proof_bytes(alloc, session_id, key)?;
    if verifier.verifies(&key.key, &bytes, &signature)? {
        Ok(Ok(()))
    } else {
        Ok(Err(HostKeysFault::WrongServerSig))
    }
}

fn judge_from<V: Verifier>(
    alloc: Global,
    verifier: &V,
    session_id: &[u8],
    keys: &[PublicKey],
    reply: &[u8],
) -> Result<Result<(), HostKeysFault>, NoMemory>
    ensures { IfOk result (λ r. r ≡ proof_judged (V.accepts verifier.now) session_id.now keys.now reply.now) }
{
    let mut c = Cursor::new(reply);
    for key in keys {
        let Ok(part) = c.bytes() else {
            return Ok(Err(HostKeysFault::SshEncoding));
        };
        if let Err(fault) = part_fault(alloc, verifier, session_id, key, part)? {
            return Ok(Err(fault));
        }
    }
    if c.rest().is_empty() {
        Ok(Ok(()))
    } else {
        Ok(Err(HostKeysFault::SshEncoding))
    }
}

/// Judges the reply to a request to prove these keys, without the reply's number. The first part that fails decides:
/// a signature that isn't the key's is `WrongServerSig`, everything else `SshEncoding`.
pub fn judge_host_key_proof<V: Verifier>(
    alloc: Global,
    verifier: &V,
    session_id: &[u8],
    keys: &[PublicKey],
    reply: &[u8],
) -> Result<Result<(), HostKeysFault>, NoMemory>
    ensures judged { IfOk result (λ r. r ≡ proof_judged (V.accepts verifier.now) session_id.now keys.now reply.now) }
    // The reply is a proof exactly if it is one signature of each key, in order, with no bytes after them.
    ensures proof { JudgedIsProof (V.accepts verifier.now) session_id.now keys.now reply.now }
{
    judge_from(alloc, verifier, session_id, keys, reply)
}
