//! Writes keys, and certificates with the keys in them (PROTOCOL.certkeys).

ghost use Rattle.std.specs.Prelude.{◌≡◌, ◌++◌, IfOk, OnErr, OnOk};
ghost use Rattle.std.specs.List.{flat_map};
ghost use Rattle.sshc_wire.specs.Wire.{string_text};
ghost use Rattle.sshc_key.specs.KeyGrammar.{type_number, option_text, body_text, key_text, signature_text};
ghost use Rattle.sshc_key.specs.KeyWriting.{first_text, second_text, said_text};
ghost use Rattle.sshc_key.specs.View.{view};

use crate::key_data::{CertType, Certificate, KeyData};
use crate::signature::Signature;
use crate::writing::fields::put_fields;
use crate::writing::signature::put_signature;
use sshc_wire::{
    NoMemory, Octets, Text, begin_string, end_string, put_bytes, put_text, put_u32, put_u64,
};
use std::alloc::Global;

fn put_each_text(out: &mut Vec<u8>, texts: &[Text]) -> Result<(), NoMemory>
    ensures { OnOk result (out.new.items ≡ out.old.items ++ flat_map string_text texts.now) }
{
    for text in texts {
        put_text(out, text.as_str())?;
    }
    Ok(())
}

/// A string of the texts.
#[tactic(auto, using(sshc_wire::specs::NestedLaws::string_ended))]
fn put_texts(out: &mut Vec<u8>, texts: &[Text]) -> Result<(), NoMemory>
    ensures { OnOk result (out.new.items ≡ out.old.items ++ string_text (flat_map string_text texts.now)) }
{
    let at = begin_string(out)?;
    put_each_text(out, texts)?;
    end_string(out, at)
}

fn put_each_option(out: &mut Vec<u8>, options: &[(Text, Octets)]) -> Result<(), NoMemory>
    ensures { OnOk result (out.new.items ≡ out.old.items ++ flat_map option_text options.now) }
{
    for option in options {
        put_text(out, option.0.as_str())?;
        put_bytes(out, option.1.as_slice())?;
    }
    Ok(())
}

/// A string of the options.
#[tactic(auto, using(sshc_wire::specs::NestedLaws::string_ended))]
fn put_options(out: &mut Vec<u8>, options: &[(Text, Octets)]) -> Result<(), NoMemory>
    ensures { OnOk result (out.new.items ≡ out.old.items ++ string_text (flat_map option_text options.now)) }
{
    let at = begin_string(out)?;
    put_each_option(out, options)?;
    end_string(out, at)
}

/// A string of the signature.
#[tactic(auto, using(sshc_wire::specs::NestedLaws::string_ended))]
fn put_signature_string(out: &mut Vec<u8>, signature: &Signature) -> Result<(), NoMemory>
    ensures { OnOk result (out.new.items ≡ out.old.items ++ string_text (signature_text signature.now)) }
{
    let at = begin_string(out)?;
    put_signature(out, signature)?;
    end_string(out, at)
}

impl CertType {
    fn number(self) -> u32
        ensures { result ≡ type_number self }
    {
        match self {
            CertType::User => 1,
            CertType::Host => 2,
        }
    }
}

fn put_first(out: &mut Vec<u8>, certificate: &Certificate) -> Result<(), NoMemory>
    ensures { OnOk result (out.new.items ≡ out.old.items ++ first_text certificate.now) }
{
    put_u64(out, certificate.serial)?;
    put_u32(out, certificate.cert_type.number())?;
    put_text(out, certificate.key_id.as_str())?;
    put_texts(out, certificate.valid_principals.as_slice())
}

fn put_second(out: &mut Vec<u8>, certificate: &Certificate) -> Result<(), NoMemory>
    ensures { OnOk result (out.new.items ≡ out.old.items ++ second_text certificate.now) }
{
    put_u64(out, certificate.valid_after)?;
    put_u64(out, certificate.valid_before)?;
    put_options(out, certificate.critical_options.as_slice())?;
    put_options(out, certificate.extensions.as_slice())?;
    put_bytes(out, certificate.reserved.as_slice())
}

fn put_statement(out: &mut Vec<u8>, certificate: &Certificate) -> Result<(), NoMemory>
    ensures { OnOk result (out.new.items ≡ out.old.items ++ said_text certificate.now) }
{
    put_first(out, certificate)?;
    put_second(out, certificate)
}

#[cycle(put_keys)]
fn put_certificate_body(out: &mut Vec<u8>, certificate: &Certificate) -> Result<(), NoMemory>
    ensures { OnOk result (out.new.items ≡ out.old.items ++ body_text certificate.now) }
{
    put_bytes(out, certificate.nonce.as_slice())?;
    put_fields(out, &certificate.public_key)?;
    put_statement(out, certificate)?;
    put_key_string(out, &certificate.signature_key)?;
    put_signature_string(out, &certificate.signature)
}

/// A string of the key's blob.
#[cycle(put_keys)]
#[tactic(auto, using(sshc_wire::specs::NestedLaws::string_ended))]
fn put_key_string(out: &mut Vec<u8>, key: &KeyData) -> Result<(), NoMemory>
    ensures { OnOk result (out.new.items ≡ out.old.items ++ string_text (key_text (view key.now))) }
{
    let at = begin_string(out)?;
    append_key(out, key)?;
    end_string(out, at)
}

#[cycle(put_keys)]
fn put_body(out: &mut Vec<u8>, key: &KeyData) -> Result<(), NoMemory>
    ensures { OnOk result (out.new.items ≡ out.old.items ++ body_text (view key.now)) }
{
    match key {
        KeyData::Certificate(certificate) => put_certificate_body(out, certificate),
        _ => put_fields(out, key),
    }
}

/// Writes the key's blob. After an error it may be written in part.
#[cycle(put_keys)]
pub fn append_key(out: &mut Vec<u8>, key: &KeyData) -> Result<(), NoMemory>
    ensures { OnOk result (out.new.items ≡ out.old.items ++ key_text (view key.now)) }
{
    key.name().put(out)?;
    put_body(out, key)
}

/// Writes the certificate's blob. After an error it may be written in part.
pub fn append_certificate(out: &mut Vec<u8>, certificate: &Certificate) -> Result<(), NoMemory>
    ensures { OnOk result (out.new.items ≡ out.old.items ++ key_text certificate.now) }
{
    certificate.name().put(out)?;
    put_certificate_body(out, certificate)
}

/// The key's blob.
pub(crate) fn key_bytes(alloc: Global, key: &KeyData) -> Result<Vec<u8>, NoMemory>
    ensures { IfOk result (λ v. v.items ≡ key_text (view key.now)) }
{
    let mut out = Vec::with_capacity(alloc, key.size())?;
    append_key(&mut out, key)?;
    Ok(out)
}

/// Writes the key's blob, or nothing.
pub fn put_key(out: &mut Vec<u8>, key: &KeyData) -> Result<(), NoMemory>
    ensures written { OnOk result (out.new.items ≡ out.old.items ++ key_text (view key.now)) }
    ensures refused { OnErr result (out.new.items ≡ out.old.items) }
{
    let blob = key_bytes(*out.allocator(), key)?;
    out.extend_from_slice(&blob)?;
    Ok(())
}

/// Writes the certificate's blob, or nothing.
pub fn put_certificate(out: &mut Vec<u8>, certificate: &Certificate) -> Result<(), NoMemory>
    ensures written { OnOk result (out.new.items ≡ out.old.items ++ key_text certificate.now) }
    ensures refused { OnErr result (out.new.items ≡ out.old.items) }
{
    let mut blob = Vec::with_capacity(*out.allocator(), certificate.size())?;
    append_certificate(&mut blob, certificate)?;
    out.extend_from_slice(&blob)?;
    Ok(())
}

impl Certificate {
    /// The certificate's blob.
    pub fn to_bytes(&self) -> Result<Vec<u8>, NoMemory>
        ensures { IfOk result (λ v. v.items ≡ key_text self.now) }
    {
        let mut out = Vec::with_capacity(self.key_id.allocator(), self.size())?;
        append_certificate(&mut out, self)?;
        Ok(out)
    }
}
