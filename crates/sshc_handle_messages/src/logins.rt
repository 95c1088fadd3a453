//! A login as a message, and with what a signer signs.

ghost use Rattle.std.specs.Prelude.{◌≡◌, IfOk, Some};
ghost use Rattle.sshc_handle_messages.specs.Messages.{asked_ticket, identity_of_certificate, identity_of_key};
ghost use Rattle.sshc_auth_event.specs.declared.method.Method.TheVariants as methods;
ghost use Rattle.sshc_client.specs.declared.message.Msg.TheVariants as msgs;

use sshc_auth::{Method, SharedMethod};
use sshc_client::Msg;
use sshc_key::{AgentIdentity, Certificate, HashAlg, PublicKey};
use sshc_wire::{NoMemory, Text, Ticket};
use std::alloc::Global;

/// A placeholder for the ticket that the submission assigns.
pub fn asked() -> Option<Ticket>
    ensures { result ≡ asked_ticket }
{
    Some(Ticket(0))
}

/// A login (RFC 4252, section 5).
pub fn login(alloc: Global, user: &str, method: Method) -> Result<Msg, NoMemory>
    ensures { IfOk result (λ m. m ≡ msgs.Authenticate user.now method asked_ticket) }
{
    let method = SharedMethod::new(alloc, method)?;
    Ok(Msg::Authenticate {
        user: Text::from_str(alloc, user)?,
        method,
        ticket: asked(),
    })
}

/// A login by a key whose signatures a signer makes, with the key as the signer knows it.
pub fn key_login(
    key: PublicKey,
    hash_alg: Option<HashAlg>,
) -> Result<(AgentIdentity, Method), NoMemory>
    ensures identity { IfOk result (λ p. p.0 ≡ identity_of_key key) }
    ensures method { IfOk result (λ p. p.1 ≡ methods.FuturePublicKey key hash_alg) }
{
    match key_identity(&key) {
        Ok(identity) => Ok((identity, Method::FuturePublicKey { key, hash_alg })),
        Err(e) => {
            drop(key);
            Err(e)
        }
    }
}

fn key_identity(key: &PublicKey) -> Result<AgentIdentity, NoMemory>
    ensures { IfOk result (λ i. i ≡ identity_of_key key.now) }
{
    Ok(AgentIdentity::from(key.copy()?))
}

/// A login by a certificate for whose key a signer makes signatures, with the certificate as the signer knows it.
pub fn certificate_login(
    cert: Certificate,
    hash_alg: Option<HashAlg>,
) -> Result<(AgentIdentity, Method), NoMemory>
    ensures identity { IfOk result (λ p. p.0 ≡ identity_of_certificate cert) }
    ensures method { IfOk result (λ p. p.1 ≡ methods.FutureCertificate cert hash_alg) }
{
    match certificate_identity(&cert) {
        Ok(identity) => Ok((identity, Method::FutureCertificate { cert, hash_alg })),
        Err(e) => {
            drop(cert);
            Err(e)
        }
    }
}

fn certificate_identity(cert: &Certificate) -> Result<AgentIdentity, NoMemory>
    ensures { IfOk result (λ i. i ≡ identity_of_certificate cert.now) }
{
    Ok(AgentIdentity::from(cert.copy()?))
}
