//! How the calls read the answer to a sign request (draft-miller-ssh-agent, section 3.6; RFC 8332).

ghost use Rattle.std.specs.Prelude.{◌≡◌, IfOk, Ok, string_bytes};
ghost use Rattle.sshc_key.specs.Gives.{GivesAll};
ghost use Rattle.sshc_ask.specs.AgentCalls.Readings.{asked_signature, base64_reading, is_asked, sign_reading};
ghost use Rattle.sshc_ask.specs.AgentCalls.Readings.{signature_reading, signature_text_in};

use base64::engine::general_purpose::STANDARD_NO_PAD;
use sshc_key::{Error, HashAlg, Signature, agent_msg, read_signature};
use sshc_wire::{Cursor, NoMemory, put_string};
use std::alloc::Global;

/// Whether a signature of this name may answer a request that asked for this hash.
fn is_name_asked(asked: Option<HashAlg>, name: &str) -> bool
    ensures { result ≡ is_asked asked name.now }
{
    match asked {
        None => true,
        Some(HashAlg::Sha256) => name == "rsa-sha2-256",
        Some(HashAlg::Sha512) => name == "rsa-sha2-512",
    }
}

/// Reads one whole signature. Its name is checked before the following fields are read.
#[tactic(auto, unfolding(crate::specs::AgentCalls::Readings::asked_signature, sshc_key::specs::KeyReading::utf8_at))]
fn signature_of(alloc: Global, asked: Option<HashAlg>, text: &[u8]) -> Result<Signature, Error>
    ensures { GivesAll (λ s. s) result (asked_signature asked text.now) }
{
    let name = Cursor::new(text).text()?;
    if !is_name_asked(asked, name) {
        return Err(Error::AgentProtocolError);
    }
    let mut c = Cursor::new(text);
    let signature = read_signature(alloc, &mut c)?;
    c.ensure_end()?;
    Ok(signature)
}

/// The signature string of an answer, after it was checked.
#[tactic(auto, unfolding(crate::proofs::By::signature_text_in, crate::proofs::By::octets_at))]
fn signature_text(alloc: Global, asked: Option<HashAlg>, body: &[u8]) -> Result<&[u8], Error>
    ensures { GivesAll (λ text. text.now) result (signature_text_in asked body.now) }
{
    let text = Cursor::new(body).bytes()?;
    signature_of(alloc, asked, text)?;
    Ok(text)
}

/// The bytes that were to be signed, followed by the signature of the answer as a string.
#[tactic(auto, unfolding(crate::specs::AgentCalls::Readings::sign_reading))]
pub(crate) fn signed_in(
    alloc: Global,
    asked: Option<HashAlg>,
    mut bytes: Vec<u8>,
    answer: &[u8],
) -> Result<Vec<u8>, Error>
    ensures { GivesAll (λ v. v.items) result (sign_reading asked bytes.items answer.now) }
{
    match answer {
        [agent_msg::SIGN_RESPONSE, body @ ..] => {
            let text = signature_text(alloc, asked, body)?;
            put_string(&mut bytes, text)?;
            Ok(bytes)
        }
        [agent_msg::FAILURE, ..] => Err(Error::AgentFailure),
        _ => Err(Error::AgentProtocolError),
    }
}

/// The signature of the answer, whatever its name.
#[tactic(auto, unfolding(crate::proofs::By::signature_reading, crate::proofs::By::octets_at))]
pub(crate) fn signature_in(alloc: Global, answer: &[u8]) -> Result<Signature, Error>
    ensures { GivesAll (λ s. s) result (signature_reading answer.now) }
{
    match answer {
        [agent_msg::SIGN_RESPONSE, body @ ..] => {
            let text = Cursor::new(body).bytes()?;
            signature_of(alloc, None, text)
        }
        _ => Err(Error::AgentProtocolError),
    }
}

/// The base64 without padding of what follows the message number in the answer to a sign request; empty for any other
/// answer.
#[tactic(auto, unfolding(crate::specs::AgentCalls::Readings::base64_reading))]
pub(crate) fn base64_in(alloc: Global, answer: &[u8]) -> Result<String, NoMemory>
    ensures { IfOk result (λ text. string_bytes text ≡ base64_reading answer.now) }
{
    match answer {
        [agent_msg::SIGN_RESPONSE, body @ ..] => Ok(STANDARD_NO_PAD.encode(alloc, body)?),
        _ => Ok(String::new(alloc)),
    }
}
