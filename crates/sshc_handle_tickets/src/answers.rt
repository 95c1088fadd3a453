//! How a method of a handle reads its answer from a record of its ticket. A record that isn't an answer to it is
//! `None`; a session that ended first reads as `Disconnect`.

ghost use Rattle.std.specs.Prelude.{◌≡◌};
ghost use Rattle.sshc_handle_tickets.specs.Answers.{algs_answer, auth_answer, best_hash, done_answer, has_name};
ghost use Rattle.sshc_handle_tickets.specs.Answers.{open_answer, port_answer, prompt_answer, prompt_said, proof_error};
ghost use Rattle.sshc_handle_tickets.specs.Answers.{reply_answer, resolution_in};

use sshc_auth::{AuthResult, Error, KeyboardInteractiveAuthResponse};
use sshc_wire::{AuthRecord, ChannelId, HashAlg, HostKeysFault, Octets, Record, Resolution, Text};

fn resolution_of(r: Record) -> Option<Resolution>
    ensures { result ≡ resolution_in r }
{
    match r {
        Record::Resolved { resolution, .. } => Some(resolution),
        _ => None,
    }
}

/// The answer to a request to log in (RFC 4252, section 5.1).
pub fn auth_answer(r: Record) -> Option<Result<AuthResult, Error>>
    ensures { result ≡ auth_answer r }
{
    match resolution_of(r)? {
        Resolution::AuthSuccess => Some(Ok(AuthResult::Success)),
        Resolution::AuthFailure {
            remaining_methods,
            partial_success,
        } => Some(Ok(AuthResult::Failure {
            remaining_methods,
            partial_success,
        })),
        Resolution::Dropped => Some(Err(Error::Disconnect)),
        _ => None,
    }
}

fn prompt_said(resolution: Resolution) -> Option<Result<KeyboardInteractiveAuthResponse, Error>>
    ensures { result ≡ prompt_said resolution }
{
    match resolution {
        Resolution::AuthSuccess => Some(Ok(KeyboardInteractiveAuthResponse::Success)),
        Resolution::AuthFailure {
            remaining_methods,
            partial_success,
        } => Some(Ok(KeyboardInteractiveAuthResponse::Failure {
            remaining_methods,
            partial_success,
        })),
        Resolution::Dropped => Some(Err(Error::Disconnect)),
        _ => None,
    }
}

/// The answer to a request to log in by prompts (RFC 4256, section 3): prompts, or the result.
pub fn prompt_answer(r: Record) -> Option<Result<KeyboardInteractiveAuthResponse, Error>>
    ensures { result ≡ prompt_answer r }
{
    match r {
        Record::Auth {
            asked: AuthRecord::AuthInfoRequest {
                name,
                instructions,
                prompts,
            },
            ..
        } => Some(Ok(KeyboardInteractiveAuthResponse::InfoRequest {
            name,
            instructions,
            prompts,
        })),
        Record::Resolved { resolution, .. } => prompt_said(resolution),
        _ => None,
    }
}

/// The answer to a request for a channel (RFC 4254, section 5.1): its number.
pub fn open_answer(r: Record) -> Option<Result<ChannelId, Error>>
    ensures { result ≡ open_answer r }
{
    match resolution_of(r)? {
        Resolution::ChannelOpened { id } => Some(Ok(id)),
        Resolution::ChannelOpenFailed { reason } => Some(Err(Error::ChannelOpenFailure(reason))),
        Resolution::Dropped => Some(Err(Error::Disconnect)),
        _ => None,
    }
}

/// Why host keys aren't proved.
fn proof_error(fault: HostKeysFault) -> Error
    ensures { result ≡ proof_error fault }
{
    match fault {
        HostKeysFault::SshEncoding => Error::SshEncoding,
        HostKeysFault::WrongServerSig => Error::WrongServerSig,
    }
}

/// The answer to a request that is granted or not (RFC 4254, section 4), to a ping and to a proof of host keys.
pub fn done_answer(r: Record) -> Option<Result<(), Error>>
    ensures { result ≡ done_answer r }
{
    match resolution_of(r)? {
        Resolution::Done => Some(Ok(())),
        Resolution::Pong => Some(Ok(())),
        Resolution::HostKeysProved => Some(Ok(())),
        Resolution::Denied => Some(Err(Error::RequestDenied)),
        Resolution::HostKeysRefused(fault) => Some(Err(proof_error(fault))),
        Resolution::Dropped => Some(Err(Error::Disconnect)),
        _ => None,
    }
}

/// The answer to a request for a forward (RFC 4254, section 7.1): the port; 0 if it is the one that was asked for.
pub fn port_answer(r: Record) -> Option<Result<u32, Error>>
    ensures { result ≡ port_answer r }
{
    match resolution_of(r)? {
        Resolution::ForwardPort { port } => Some(Ok(port)),
        Resolution::Denied => Some(Err(Error::RequestDenied)),
        Resolution::Dropped => Some(Err(Error::Disconnect)),
        _ => None,
    }
}

/// The answer to a global request of the user's own (RFC 4254, section 4): the bytes after the packet's number.
pub fn reply_answer(r: Record) -> Option<Result<Octets, Error>>
    ensures { result ≡ reply_answer r }
{
    match resolution_of(r)? {
        Resolution::GlobalReply { body } => Some(Ok(body)),
        Resolution::Denied => Some(Err(Error::RequestDenied)),
        Resolution::Dropped => Some(Err(Error::Disconnect)),
        _ => None,
    }
}

fn has_name(names: &[Text], name: &str) -> bool
    ensures { result ≡ has_name name.now names.now }
{
    names.iter().any(|other| other.as_str() == name)
}

/// SHA-512 if the server names it for RSA, else SHA-256 (RFC 8332), else `None`.
fn best_hash(names: &[Text]) -> Option<HashAlg>
    ensures { result ≡ best_hash names.now }
{
    if has_name(names, "rsa-sha2-512") {
        Some(HashAlg::Sha512)
    } else if has_name(names, "rsa-sha2-256") {
        Some(HashAlg::Sha256)
    } else {
        None
    }
}

/// The best hash for RSA by the list that the server announced (RFC 8308, section 3.1); `None` if it announced no list.
pub fn algs_answer(r: Record) -> Option<Result<Option<Option<HashAlg>>, Error>>
    ensures { result ≡ algs_answer r }
{
    match resolution_of(r)? {
        Resolution::SigAlgs { known: true, names } => Some(Ok(Some(best_hash(names.as_slice())))),
        Resolution::SigAlgs { known: false, .. } => Some(Ok(None)),
        Resolution::Dropped => Some(Err(Error::Disconnect)),
        _ => None,
    }
}
