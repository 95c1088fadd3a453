//! Makes the call that a row names, and describes its result in words. An error of the call is an error here too.

use crate::files::let_go;
use crate::opener::MemOpener;
use crate::row::bytes_of;
use sshc_ask::{AgentClient, Duplex, connect_env};
use sshc_key::{
    AgentIdentity, AgentSessionBinding, Constraint, Error, HashAlg, KeyData, KeyRef, PrivateKey,
    PublicKey, Signature, Signer, parse_public_key_base64, read_key_pair,
};
use sshc_wire::{Cursor, NoMemory, Octets, PieceSink, PieceSource};
use std::alloc::Global;

/// A client over memory.
pub type Client = AgentClient<Duplex<PieceSource, PieceSink>>;

/// The words of a call: its name and its arguments.
#[derive(Clone, Copy)]
struct Words<'a> {
    command: &'a str,
    first: &'a str,
    second: &'a str,
    third: &'a str,
}

fn words_of(call: &str) -> Words<'_> {
    let mut words = call.split_whitespace();
    let command = words.next().unwrap_or("");
    let first = words.next().unwrap_or("");
    let second = words.next().unwrap_or("");
    let third = words.next().unwrap_or("");
    Words {
        command,
        first,
        second,
        third,
    }
}

/// `ok` for a call that returns nothing.
fn done(alloc: Global, answer: Result<(), Error>) -> Result<String, Error> {
    answer?;
    Ok(String::from_str(alloc, "ok")?)
}

fn in_hexadecimal(alloc: Global, answer: Result<Vec<u8>, Error>) -> Result<String, Error> {
    let bytes = answer?;
    Ok(hex::encode(alloc, &bytes)?)
}

fn hash_of(word: &str) -> Option<HashAlg> {
    match word {
        "sha256" => Some(HashAlg::Sha256),
        "sha512" => Some(HashAlg::Sha512),
        _ => None,
    }
}

/// The constraints in a word, a letter for each: `l` for a lifetime of an hour, `c` for a confirmation, `x` for the
/// extension `x` with the details `d`.
fn constraints_of(alloc: Global, word: &str) -> Result<Vec<Constraint>, Error> {
    let mut constraints = Vec::new(alloc);
    for letter in word.as_bytes() {
        let constraint = match *letter {
            b'l' => Constraint::KeyLifetime { seconds: 3600 },
            b'c' => Constraint::Confirm,
            _ => Constraint::Extensions {
                name: Octets::from_slice(alloc, b"x")?,
                details: Octets::from_slice(alloc, b"d")?,
            },
        };
        constraints.push(constraint)?;
    }
    Ok(constraints)
}

/// The key pair of a word, in hexadecimal.
fn pair_of(alloc: Global, word: &str) -> Result<PrivateKey, Error> {
    let bytes = bytes_of(alloc, word);
    read_key_pair(alloc, &mut Cursor::new(&bytes))
}

fn key_of(alloc: Global, word: &str) -> Result<PublicKey, Error> {
    parse_public_key_base64(alloc, word)
}

fn binding_of(alloc: Global, words: Words<'_>) -> Result<AgentSessionBinding, Error> {
    Ok(AgentSessionBinding::new(
        Octets::from_slice(alloc, words.first.as_bytes())?,
        Octets::from_slice(alloc, words.second.as_bytes())?,
        Octets::from_slice(alloc, words.third.as_bytes())?,
    ))
}

/// Whether a copy is the identity again.
fn is_copied(identity: &AgentIdentity) -> Result<bool, NoMemory> {
    let copy = identity.copy()?;
    let is_same = copy == *identity;
    let_go(copy);
    Ok(is_same)
}

/// Whether a listed key lent itself, or a certificate gave the key that it speaks of.
fn is_key_of(identity: &AgentIdentity, found: &KeyRef<'_>) -> bool {
    match identity {
        AgentIdentity::PublicKey { key, .. } => match found {
            KeyRef::Borrowed(lent) => *lent == key,
            KeyRef::Owned(_) => false,
        },
        AgentIdentity::Certificate { certificate, .. } => match found {
            KeyRef::Owned(made) => {
                made.key == certificate.public_key && made.comment.as_str().is_empty()
            }
            KeyRef::Borrowed(_) => false,
        },
    }
}

fn has_key(identity: &AgentIdentity) -> Result<bool, NoMemory> {
    let found = identity.public_key()?;
    let is_right = is_key_of(identity, &found);
    let_go(found);
    Ok(is_right)
}

/// The kind and comment of a listed identity, and of a certificate its identifier.
fn put_identity(text: &mut String, identity: &AgentIdentity) -> Result<(), NoMemory> {
    match identity {
        AgentIdentity::PublicKey { .. } => {
            text.push_str(" key:")?;
            text.push_str(identity.comment())?;
        }
        AgentIdentity::Certificate { certificate, .. } => {
            text.push_str(" certificate:")?;
            text.push_str(identity.comment())?;
            text.push_str(":")?;
            text.push_str(certificate.key_id.as_str())?;
        }
    }
    Ok(())
}

/// How many keys there are, and each. An identity whose copy or whose key is another one is wrong.
fn list_text(alloc: Global, found: &[AgentIdentity]) -> Result<String, Error> {
    let mut text = format!(in alloc; "{}", found.len())?;
    for identity in found {
        put_identity(&mut text, identity)?;
        if !is_copied(identity)? || !has_key(identity)? {
            text.push_str(" WRONG")?;
        }
    }
    Ok(text)
}

fn listed(alloc: Global, client: &mut Client) -> Result<String, Error> {
    let found = client.request_identities()?;
    let text = list_text(alloc, found.as_slice());
    let_go(found);
    text
}

fn queried(alloc: Global, client: &mut Client, typ: &str) -> Result<String, Error> {
    let mut ext = vec![in alloc; b'>']?;
    let found = client.query_extension(typ.as_bytes(), &mut ext)?;
    let digits = hex::encode(alloc, &ext)?;
    Ok(format!(in alloc; "{found} {digits}")?)
}

fn signature_text(alloc: Global, signature: &Signature) -> Result<String, Error> {
    let body = hex::encode(alloc, signature.body.as_slice())?;
    let has_sk = signature.sk.is_some();
    Ok(format!(in alloc; "{} {body} {has_sk}", signature.name.as_str())?)
}

fn signature(alloc: Global, client: &mut Client, words: Words<'_>) -> Result<String, Error> {
    let key = key_of(alloc, words.first)?;
    let body = words.third.as_bytes();
    let answer = client.sign_request_signature(&key, hash_of(words.second), body);
    let_go(key);
    let signature = answer?;
    let text = signature_text(alloc, &signature);
    let_go(signature);
    text
}

/// A key or certificate as an agent would list it.
fn identity_of(alloc: Global, word: &str) -> Result<AgentIdentity, Error> {
    let PublicKey { key, comment } = key_of(alloc, word)?;
    Ok(match key {
        KeyData::Certificate(certificate) => AgentIdentity::from(Box::into_inner(certificate)),
        key => AgentIdentity::from(PublicKey { key, comment }),
    })
}

/// A signature by a key or certificate as an agent would list it.
fn signed(alloc: Global, client: &mut Client, words: Words<'_>) -> Result<Vec<u8>, Error> {
    let body = Vec::from_slice(alloc, words.third.as_bytes())?;
    let identity = identity_of(alloc, words.first)?;
    let answer = if words.command == "auth-sign" {
        client.auth_sign(&identity, hash_of(words.second), body)
    } else {
        client.sign_request(&identity, hash_of(words.second), body)
    };
    let_go(identity);
    answer
}

fn added(alloc: Global, client: &mut Client, words: Words<'_>) -> Result<(), Error> {
    let constraints = constraints_of(alloc, words.second)?;
    let pair = pair_of(alloc, words.first)?;
    let answer = client.add_identity(&pair, &constraints);
    let_go(pair);
    answer
}

fn added_card(alloc: Global, client: &mut Client, words: Words<'_>) -> Result<(), Error> {
    let constraints = constraints_of(alloc, words.third)?;
    client.add_smartcard_key(words.first, words.second.as_bytes(), &constraints)
}

fn removed(alloc: Global, client: &mut Client, word: &str) -> Result<(), Error> {
    let key = key_of(alloc, word)?;
    let answer = client.remove_identity(&key);
    let_go(key);
    answer
}

fn bound(alloc: Global, client: &mut Client, words: Words<'_>) -> Result<(), Error> {
    let binding = binding_of(alloc, words)?;
    client.bind_session(&binding, true)
}

/// A call that returns nothing; a word that is no other call removes all keys.
fn told(alloc: Global, client: &mut Client, words: Words<'_>) -> Result<(), Error> {
    let (first, second) = (words.first.as_bytes(), words.second.as_bytes());
    match words.command {
        "lock" => client.lock(first),
        "unlock" => client.unlock(first),
        "extension" => client.extension(first, second),
        "bind" => bound(alloc, client, words),
        "add" => added(alloc, client, words),
        "add-card" => added_card(alloc, client, words),
        "remove-card" => client.remove_smartcard_key(words.first, second),
        "remove" => removed(alloc, client, words.first),
        _ => client.remove_all_identities(),
    }
}

/// The result of a call that borrows its client.
fn outcome(alloc: Global, client: &mut Client, words: Words<'_>) -> Result<String, Error> {
    match words.command {
        "list" => listed(alloc, client),
        "query" => queried(alloc, client, words.first),
        "sign" | "auth-sign" => {
            let answer = signed(alloc, client, words);
            in_hexadecimal(alloc, answer)
        }
        "sign-signature" => signature(alloc, client, words),
        _ => {
            let answer = told(alloc, client, words);
            done(alloc, answer)
        }
    }
}

/// The client, and the result of the call that consumes and returns its client.
fn signed_in_base64(
    alloc: Global,
    client: Client,
    words: Words<'_>,
) -> (Client, Result<String, Error>) {
    match key_of(alloc, words.first) {
        Ok(key) => {
            let body = words.third.as_bytes();
            let answer = client.sign_request_base64(&key, hash_of(words.second), body);
            let_go(key);
            answer
        }
        Err(error) => (client, Err(error)),
    }
}

/// The client, and the result of the call.
pub fn returned(alloc: Global, mut client: Client, call: &str) -> (Client, Result<String, Error>) {
    let words = words_of(call);
    if words.command == "sign-base64" {
        return signed_in_base64(alloc, client, words);
    }
    let answer = outcome(alloc, &mut client, words);
    (client, answer)
}

/// `ok` for a client of the agent at a path, if there is one.
pub fn connected(
    alloc: Global,
    path: Option<&str>,
    opener: &mut MemOpener,
) -> Result<String, Error> {
    let client = connect_env(alloc, path, opener)?;
    let_go(client);
    Ok(String::from_str(alloc, "ok")?)
}
