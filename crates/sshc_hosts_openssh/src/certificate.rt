//! What a host certificate is worth (OpenSSH's PROTOCOL.certkeys).

ghost use Rattle.std.specs.Prelude.{◌≡◌, ◌++◌, IfOk, OnOk, bytes_eq};
ghost use Rattle.std.specs.List.{list_any};
ghost use Rattle.sshc_wire.specs.Wire.{string_text};
ghost use Rattle.sshc_key.specs.KeyGrammar.{signature_text};
ghost use Rattle.sshc_key.specs.View.{view};
ghost use Rattle.sshc_hosts_openssh.specs.Certificates.{has_no_options, is_good, is_of_host, is_principal, signed_text};
ghost use Rattle.sshc_hosts_openssh.specs.Certificates.{is_signing_name};
ghost use Rattle.sshc_hosts_openssh.specs.Cuts.{is_valid_certificate};

use sshc_key::{CertType, Certificate, KeyData, Signature, Verifier};
use sshc_wire::{NoMemory, Octets, Text, begin_string, end_string, put_bytes, put_text, put_u32};
use std::alloc::Global;

/// Whether an authority may sign with the algorithm of this name.
fn is_signing_name(name: &str) -> bool
    ensures { result ≡ is_signing_name name.now }
{
    name == "ssh-ed25519"
        || name == "ecdsa-sha2-nistp256"
        || name == "ecdsa-sha2-nistp384"
        || name == "ecdsa-sha2-nistp521"
        || name == "sk-ssh-ed25519@openssh.com"
        || name == "sk-ecdsa-sha2-nistp256@openssh.com"
        || name == "rsa-sha2-512"
        || name == "rsa-sha2-256"
}

fn is_of_host(cert_type: CertType) -> bool
    ensures { result ≡ is_of_host cert_type }
{
    match cert_type {
        CertType::User => false,
        CertType::Host => true,
    }
}

/// Whether one of the principals is the host.
fn has_principal(host: &[u8], principals: &[Text]) -> bool
    ensures { result ≡ list_any (λ principal. bytes_eq principal host.now) principals.now }
{
    for principal in principals {
        if principal.as_str().as_bytes() == host {
            return true;
        }
    }
    false
}

/// Whether the principals name the host: an empty list names every host.
fn is_principal(host: &[u8], principals: &[Text]) -> bool
    ensures { result ≡ is_principal host.now principals.now }
{
    principals.is_empty() || has_principal(host, principals)
}

fn has_no_options(options: &[(Text, Octets)]) -> bool
    ensures { result ≡ has_no_options options.now }
{
    options.is_empty()
}

/// Whether the certificate is a host's, for this host, at this moment.
fn is_valid(now: u64, host: &[u8], certificate: &Certificate) -> bool
    ensures { result ≡ is_valid_certificate now host.now certificate.now }
{
    let _ = certificate.is_certificate();
    is_of_host(certificate.cert_type)
        && certificate.valid_after <= now
        && now < certificate.valid_before
        && has_no_options(certificate.critical_options.as_slice())
        && is_principal(host, certificate.valid_principals.as_slice())
}

/// The signature as a string.
#[tactic(auto, using(sshc_wire::specs::NestedLaws::string_ended))]
fn signature_string(alloc: Global, signature: &Signature) -> Result<Vec<u8>, NoMemory>
    ensures { IfOk result (λ v. v.items ≡ string_text (signature_text signature.now)) }
{
    let mut out = Vec::new(alloc);
    let at = begin_string(&mut out)?;
    put_signature(&mut out, signature)?;
    end_string(&mut out, at)?;
    Ok(out)
}

/// Writes the signature.
fn put_signature(out: &mut Vec<u8>, signature: &Signature) -> Result<(), NoMemory>
    ensures { OnOk result (out.new.items ≡ out.old.items ++ signature_text signature.now) }
{
    put_text(out, signature.name.as_str())?;
    put_bytes(out, signature.body.as_slice())?;
    match signature.sk {
        None => Ok(()),
        Some(sk) => {
            out.push(sk.flags)?;
            put_u32(out, sk.counter)
        }
    }
}

/// What an authority signs: the certificate's blob without its signature.
fn signed_text(alloc: Global, certificate: &Certificate) -> Result<Vec<u8>, NoMemory>
    ensures { IfOk result (λ v. v.items ≡ signed_text certificate.now) }
{
    let _ = certificate.is_certificate();
    let mut blob = certificate.to_bytes()?;
    let end = signature_string(alloc, &certificate.signature)?;
    blob.truncate(blob.len() - end.len());
    Ok(blob)
}

/// Whether the certificate is valid for the host at this moment, and its signature is its signer's.
fn is_good_certificate<V: Verifier>(
    alloc: Global,
    verifier: &V,
    now: u64,
    host: &[u8],
    certificate: &Certificate,
) -> Result<bool, NoMemory>
    ensures { IfOk result (λ b. b ≡ is_good (V.accepts verifier.now) now host.now certificate.now) }
{
    let _ = certificate.is_certificate();
    if !is_valid(now, host, certificate) || !is_signing_name(certificate.signature.name.as_str()) {
        return Ok(false);
    }
    let signed = signed_text(alloc, certificate)?;
    verifier.verifies(&certificate.signature_key, &signed, &certificate.signature)
}

/// Whether the key is a host certificate that is valid for the host at this moment, and that its signer signed.
pub fn is_good<V: Verifier>(
    alloc: Global,
    verifier: &V,
    now: u64,
    host: &[u8],
    key: &KeyData,
) -> Result<bool, NoMemory>
    ensures { IfOk result (λ b. b ≡ is_good (V.accepts verifier.now) now host.now (view key.now)) }
{
    match key {
        KeyData::Certificate(certificate) => {
            is_good_certificate(alloc, verifier, now, host, certificate)
        }
        _ => Ok(false),
    }
}
