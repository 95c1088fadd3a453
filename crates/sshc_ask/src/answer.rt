//! How the calls read an answer, which comes without its length (draft-miller-ssh-agent, section 3).

ghost use Rattle.std.specs.Prelude.{◌≡◌, [], ◌++◌, option_map};
ghost use Rattle.sshc_wire.specs.Counted.{times_at};
ghost use Rattle.sshc_key.specs.Gives.{Gives, GivesAll};
ghost use Rattle.sshc_ask.specs.AgentCalls.Readings.{extension_reading, identities_reading, identity_at, identity_of};
ghost use Rattle.sshc_ask.specs.AgentCalls.Readings.{listed, query_reading, success_reading};

use sshc_key::{AgentIdentity, Error, KeyData, PublicKey, agent_msg, parse_public_key};
use sshc_wire::{Cursor, Text};
use std::alloc::Global;

/// `Ok` if the agent acknowledged the request.
#[tactic(auto, unfolding(crate::specs::AgentCalls::Readings::success_reading))]
pub(crate) fn success_in(answer: &[u8]) -> Result<(), Error>
    ensures { GivesAll (λ x. x) result (success_reading answer.now) }
{
    match answer {
        [] => Err(Error::AgentFailure),
        [kind, _body @ ..] => {
            if *kind == agent_msg::SUCCESS {
                Ok(())
            } else {
                Err(Error::AgentFailure)
            }
        }
    }
}

/// `Ok` if the agent acknowledged an extension.
#[tactic(auto, unfolding(crate::specs::AgentCalls::Readings::extension_reading))]
pub(crate) fn extension_in(answer: &[u8]) -> Result<(), Error>
    ensures { GivesAll (λ x. x) result (extension_reading answer.now) }
{
    match answer {
        [] => Err(Error::AgentFailure),
        [kind, _body @ ..] => {
            if *kind == agent_msg::SUCCESS || *kind == agent_msg::EXTENSION_RESPONSE {
                Ok(())
            } else {
                Err(Error::AgentFailure)
            }
        }
    }
}

/// The string that the agent sent with its acknowledgement, if it did.
#[tactic(auto, unfolding(crate::specs::AgentCalls::Readings::query_reading))]
pub(crate) fn string_in(answer: &[u8]) -> Option<&[u8]>
    ensures { option_map (λ text. text.now) result ≡ query_reading answer.now }
{
    match answer {
        [agent_msg::SUCCESS, body @ ..] => match Cursor::new(body).bytes() {
            Ok(text) => Some(text),
            Err(_) => None,
        },
        _ => None,
    }
}

/// A key of a listing, with its comment there.
fn identity(key: PublicKey, comment: Text) -> AgentIdentity
    requires { key.1 ≡ [] }
    ensures { result ≡ identity_of key.0 comment }
{
    let PublicKey {
        key: data,
        comment: own,
    } = key;
    match data {
        KeyData::Certificate(certificate) => {
            let certificate = Box::into_inner(certificate);
            let _ = &certificate.nonce;
            AgentIdentity::Certificate {
                certificate,
                comment,
            }
        }
        plain => AgentIdentity::PublicKey {
            key: PublicKey {
                key: plain,
                comment: own,
            },
            comment,
        },
    }
}

/// Reads a key of a listing: its blob, its comment, and then the key in the blob.
#[tactic(auto, unfolding(crate::proofs::By::identity_at, crate::proofs::By::octets_at, crate::proofs::By::utf8_at))]
fn read_identity(alloc: Global, c: &mut Cursor<'_>) -> Result<AgentIdentity, Error>
    ensures { Gives (λ x. x) result c.new (identity_at c.old) }
{
    let blob = c.bytes()?;
    let comment = c.text()?;
    let key = parse_public_key(alloc, blob)?;
    Ok(identity(key, Text::from_str(alloc, comment)?))
}

/// Reads `count` keys of a listing.
fn read_identities(
    alloc: Global,
    count: u32,
    c: &mut Cursor<'_>,
) -> Result<Vec<AgentIdentity>, Error>
    ensures { Gives (λ found. found.items) result c.new (times_at count identity_at c.old) }
{
    let mut found = Vec::new(alloc);
    for _taken in 0..count {
        let one = read_identity(alloc, c)?;
        found.push(one)?;
    }
    Ok(found)
}

#[tactic(auto, unfolding(crate::specs::AgentCalls::Readings::listed, sshc_key::specs::KeyReading::u32_at))]
fn listing(alloc: Global, body: &[u8]) -> Result<Vec<AgentIdentity>, Error>
    ensures { GivesAll (λ found. found.items) result (listed body.now) }
{
    let mut c = Cursor::new(body);
    let count = c.u32()?;
    read_identities(alloc, count, &mut c)
}

/// The keys that the agent lists.
#[tactic(auto, unfolding(crate::specs::AgentCalls::Readings::identities_reading))]
pub(crate) fn identities_in(alloc: Global, answer: &[u8]) -> Result<Vec<AgentIdentity>, Error>
    ensures { GivesAll (λ found. found.items) result (identities_reading answer.now) }
{
    match answer {
        [agent_msg::IDENTITIES_ANSWER, body @ ..] => listing(alloc, body),
        _ => Ok(Vec::new(alloc)),
    }
}
