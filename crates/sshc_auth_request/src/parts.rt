//! Parts of requests: the head, lists of strings, and a key with its algorithm's name.

ghost use Rattle.std.specs.Prelude.{◌≡◌, ◌<◌, ◌^◌, ◌∷◌, ◌++◌, length, codes, IfOk, OnOk};
ghost use Rattle.sshc_wire.specs.Wire.{string_text};
ghost use Rattle.sshc_key.specs.KeyGrammar.{key_text};
ghost use Rattle.sshc_key.specs.LentNames.{spelled};
ghost use Rattle.sshc_auth_request.specs.KeyParts.{IsKeyPart, key_lent};
ghost use Rattle.sshc_auth_request.specs.RequestTexts.{counted_strings, request_head};

use sshc_key::{
    AlgorithmName, Certificate, HashAlg, KeyData, PublicKey, append_certificate, append_key,
};
use sshc_wire::{
    List, NoMemory, Octets, Text, begin_string, end_string, msg, put_bytes, put_text, put_u32,
    string_size,
};
use std::alloc::Global;

/// How many bytes a request has before its method beside the user's own: a number, two lengths and the service.
const HEAD: usize = 23;

/// How many bytes a request by key has after the service beside the algorithm's name and the key: the method's name
/// and a flag.
const BY_KEY: usize = 14;

/// How many bytes the number of strings has.
const COUNT: usize = 4;

/// How many bytes user and service take.
pub(crate) fn head_size(user: &str) -> usize {
    user.len().saturating_add(HEAD)
}

/// How many bytes the strings take with their number.
pub(crate) fn octets_size(strings: &List<Octets>) -> usize {
    let mut size = COUNT;
    for one in strings.as_slice() {
        size = size.saturating_add(string_size(one.as_slice().len()));
    }
    size
}

/// How many bytes the texts take with their number.
pub(crate) fn texts_size(texts: &List<Text>) -> usize {
    let mut size = COUNT;
    for one in texts.as_slice() {
        size = size.saturating_add(string_size(one.as_str().len()));
    }
    size
}

/// Writes user and service.
#[tactic(auto, using(std::proofs::lemmas::List::append_assoc))]
pub fn put_head(out: &mut Vec<u8>, user: &str) -> Result<(), NoMemory>
    requires { length user.now < 2 ^ 32 }
    ensures { OnOk result (out.new.items ≡ out.old.items ++ request_head user.now) }
{
    out.push(msg::USERAUTH_REQUEST)?;
    put_text(out, user)?;
    put_text(out, "ssh-connection")
}

/// Writes the strings' number and the strings.
#[tactic(auto, using(std::proofs::lemmas::List::append_assoc))]
pub fn put_octets(out: &mut Vec<u8>, strings: &List<Octets>) -> Result<(), NoMemory>
    ensures { OnOk result (out.new.items ≡ out.old.items ++ counted_strings strings.now) }
{
    let all = strings.as_slice();
    put_u32(out, all.len() as u32)?;
    for one in all {
        put_bytes(out, one.as_slice())?;
    }
    Ok(())
}

/// Writes the texts' number and the texts.
#[tactic(auto, using(std::proofs::lemmas::List::append_assoc))]
pub fn put_texts(out: &mut Vec<u8>, texts: &List<Text>) -> Result<(), NoMemory>
    ensures { OnOk result (out.new.items ≡ out.old.items ++ counted_strings texts.now) }
{
    let all = texts.as_slice();
    put_u32(out, all.len() as u32)?;
    for one in all {
        put_text(out, one.as_str())?;
    }
    Ok(())
}

/// A borrowed key or certificate.
#[derive(Clone, Copy)]
pub enum LentKey<'a> {
    Key(&'a KeyData),
    Certificate(&'a Certificate),
}

impl<'a> LentKey<'a> {
    /// How many bytes the blob takes.
    fn size(&self) -> usize {
        match self {
            LentKey::Key(key) => key.size(),
            LentKey::Certificate(certificate) => certificate.size(),
        }
    }

    /// Writes the blob.
    fn put(&self, out: &mut Vec<u8>) -> Result<(), NoMemory>
        ensures { OnOk result (out.new.items ≡ out.old.items ++ key_text (key_lent self.now)) }
    {
        match self {
            LentKey::Key(key) => append_key(out, key),
            LentKey::Certificate(certificate) => append_certificate(out, certificate),
        }
    }
}

/// A key with the name of the algorithm by which it signs, of which a request has the name and the blob.
#[derive(Clone, Copy)]
pub struct KeyPart<'a> {
    pub algorithm: AlgorithmName<'a>,
    pub key: LentKey<'a>,
}

impl<'a> KeyPart<'a> {
    /// How many bytes a request by this key takes after the service, without a signature.
    pub(crate) fn size(&self) -> usize {
        let names = self.algorithm.size().saturating_add(BY_KEY);
        names.saturating_add(string_size(self.key.size()))
    }

    /// Writes the blob as a string.
    #[tactic(auto, using(sshc_wire::specs::NestedLaws::string_ended))]
    fn put_blob(&self, out: &mut Vec<u8>) -> Result<(), NoMemory>
        ensures { OnOk result (out.new.items ≡ out.old.items ++ string_text (key_text (key_lent self.now.key))) }
    {
        let at = begin_string(out)?;
        self.key.put(out)?;
        end_string(out, at)
    }

    /// The blob.
    pub fn blob(&self, alloc: Global) -> Result<Octets, NoMemory>
        ensures { IfOk result (λ blob. blob ≡ key_text (key_lent self.now.key)) }
    {
        let mut blob = Vec::with_capacity(alloc, self.key.size())?;
        self.key.put(&mut blob)?;
        Octets::from_vec(blob)
    }
}

/// The key part of a public key, or of the certificate in its place.
pub fn key_part(key: &PublicKey, hash: Option<HashAlg>) -> KeyPart<'_>
    ensures { IsKeyPart result key.now.0 hash }
{
    KeyPart {
        algorithm: key.key.request_name(hash),
        key: LentKey::Key(&key.key),
    }
}

/// The key part of a certificate.
pub fn certificate_part(certificate: &Certificate, hash: Option<HashAlg>) -> KeyPart<'_>
    ensures { IsKeyPart result certificate.now hash }
{
    KeyPart {
        algorithm: certificate.request_name(hash),
        key: LentKey::Certificate(certificate),
    }
}

/// Writes the method `publickey` with a key, without a signature.
#[tactic(auto, using(std::proofs::lemmas::List::append_assoc))]
pub fn put_key_method(out: &mut Vec<u8>, flag: u8, part: &KeyPart<'_>) -> Result<(), NoMemory>
    ensures { OnOk result
        (out.new.items ≡ out.old.items ++ string_text (codes "publickey")
        ++ (flag ∷ string_text (spelled part.now.algorithm)) ++ string_text (key_text (key_lent part.now.key))) }
{
    put_text(out, "publickey")?;
    out.push(flag)?;
    part.algorithm.put(out)?;
    part.put_blob(out)
}
