//! Logins whose signatures the caller's own signer makes.

ghost use Rattle.std.specs.Prelude.{◌≡◌, ◌≤◌, ℕ, List, Option, OnErr};
ghost use Rattle.sshc_wire.specs.Faults.{Rose};
ghost use Rattle.sshc_auth_event.specs.declared.method.Method.TheVariants as methods;
ghost use Rattle.sshc_client.specs.declared.message.Msg.TheVariants as msgs;
ghost use Rattle.sshc_handle_tickets.specs.Answers.{auth_answer};
ghost use Rattle.sshc_handle_messages.specs.Messages.{asked_ticket, identity_of_certificate, identity_of_key};
ghost use Rattle.sshc_handle_calls.specs.Lines.{submitted};
ghost use Rattle.sshc_handle_calls.specs.Rounds.{Until, or_record, read_by};
ghost use Rattle.sshc_handle_calls.specs.Signing.{SignerCall, Signs, SignsAndTells, SignsIn, SigningRound, and_call};
ghost use Rattle.sshc_handle_calls.specs.Signing.{bytes_to_sign, signature_in, signer_at, signing_at};

use crate::line::{Line, tell};
use crate::with_error::WithError;
use sshc_auth::{Error, Method};
use sshc_client::Msg;
use sshc_handle_messages::{certificate_login, key_login, login};
use sshc_handle_tickets::{AuthResult, auth_answer};
use sshc_key::{AgentIdentity, Certificate, HashAlg, PublicKey, Signer};
use sshc_wire::{AuthRecord, NoMemory, Octets, Record, Ticket};
use std::alloc::Global;
use std::sync::Wait;

/// A signer that keeps the list of its calls with their answers, as far as that is known, and a count of its refusals.
/// Each `Signer` is one, whose list isn't known.
pub trait LoggedSigner {
    type Refusal;

    ghost calls: { Self → Option (List SignerCall) };

    ghost refusals: { Self → ℕ };

    /// The bytes, and behind them the signature of the key over them as a string (RFC 4252, section 7). Each error is a
    /// refusal that is counted.
    fn sign_for_login(
        &mut self,
        key: &AgentIdentity,
        hash: Option<HashAlg>,
        bytes: Vec<u8>,
    ) -> Result<Vec<u8>, Self::Refusal>
        ensures call { calls self.new ≡ and_call (calls self.old)
            (record { key = key.now; hash = hash; bytes = bytes.items; answer = signature_in result }) }
        ensures cause { OnErr result (Rose (refusals self.old) (refusals self.new)) }
        ensures later { refusals self.old ≤ refusals self.new };
}

impl<S: Signer> LoggedSigner for S {
    type Refusal = S::Error;

    ghost use Rattle.std.specs.Prelude.{None};

    ghost calls = { λ s. None };

    ghost refusals = { λ s. S.refusals s };

    fn sign_for_login(
        &mut self,
        key: &AgentIdentity,
        hash: Option<HashAlg>,
        bytes: Vec<u8>,
    ) -> Result<Vec<u8>, S::Error> {
        self.auth_sign(key, hash, bytes)
    }
}

/// The bytes that a record asks to be signed, or the record if it asks for none (RFC 4252, section 7).
fn to_sign(output: Record) -> Result<Octets, Record>
    ensures { result ≡ or_record (bytes_to_sign output) output }
{
    match output {
        Record::Auth {
            asked: AuthRecord::SignRequest { body, .. },
            ..
        } => Ok(body),
        Record::Auth {
            asked: AuthRecord::SignRequestCert { body, .. },
            ..
        } => Ok(body),
        other => Err(other),
    }
}

/// The message to submit after the signer was asked to sign these bytes, and the error if the login is given up.
fn signed<S: LoggedSigner>(
    signer: &mut S,
    identity: &AgentIdentity,
    hash_alg: Option<HashAlg>,
    bytes: Octets,
) -> (Msg, Result<(), WithError<S::Refusal>>)
    ensures { Signs identity.now hash_alg bytes (signer_at (S.calls signer.old) (S.refusals signer.old))
        (signer_at (S.calls signer.new) (S.refusals signer.new)) result.0 result.1 }
{
    match signer.sign_for_login(identity, hash_alg, bytes.into_vec()) {
        Ok(signed) => match Octets::from_vec(signed) {
            Ok(body) => (Msg::Signed { body }, Ok(())),
            Err(NoMemory) => (Msg::SignFailed, Err(WithError::Session(Error::NoMemory))),
        },
        Err(e) => (Msg::SignFailed, Err(WithError::Signer(e))),
    }
}

/// Signs the bytes, and submits what comes of it.
fn sign_and_tell<S: LoggedSigner, L: Line, R: Wait>(
    rt: &R,
    line: &mut L,
    identity: &AgentIdentity,
    hash_alg: Option<HashAlg>,
    bytes: Octets,
    signer: &mut S,
) -> Result<(), WithError<S::Refusal>>
    ensures { SignsAndTells identity.now hash_alg bytes
        (signing_at (L.calls line.old) (S.calls signer.old) (S.refusals signer.old))
        (signing_at (L.calls line.new) (S.calls signer.new) (S.refusals signer.new)) result }
{
    let (msg, signs) = signed(signer, identity, hash_alg, bytes);
    let told = tell(rt, line, msg);
    signs?;
    told?;
    Ok(())
}

/// What a record says of a login: its result, or `None` if it goes on.
pub(crate) fn read_login<E>(output: Record) -> Result<Option<AuthResult>, WithError<E>>
    ensures { result ≡ read_by (auth_answer output) }
{
    match auth_answer(output) {
        Some(Ok(answer)) => Ok(Some(answer)),
        Some(Err(e)) => Err(WithError::Session(e)),
        None => Ok(None),
    }
}

/// Waits for the next record of a login, and deals with it. It returns the login's result if the record has it.
fn sign_once<S: LoggedSigner, L: Line, R: Wait>(
    rt: &R,
    line: &mut L,
    ticket: Ticket,
    identity: &AgentIdentity,
    hash_alg: Option<HashAlg>,
    signer: &mut S,
) -> Result<Option<AuthResult>, WithError<S::Refusal>>
    ensures { SigningRound identity.now hash_alg ticket
        (signing_at (L.calls line.old) (S.calls signer.old) (S.refusals signer.old))
        (signing_at (L.calls line.new) (S.calls signer.new) (S.refusals signer.new)) result }
{
    match to_sign(line.record(rt, ticket)) {
        Ok(bytes) => match sign_and_tell(rt, line, identity, hash_alg, bytes, signer) {
            Ok(()) => Ok(None),
            Err(e) => Err(e),
        },
        Err(output) => read_login(output),
    }
}

/// Waits for the answer to a login, and signs what it asks for.
#[tactic(auto, using(crate::proofs::RoundLemmas::no_round, crate::proofs::RoundLemmas::one_round_more))]
fn sign_until_answered<S: LoggedSigner, L: Line, R: Wait>(
    rt: &R,
    line: &mut L,
    ticket: Ticket,
    identity: &AgentIdentity,
    hash_alg: Option<HashAlg>,
    signer: &mut S,
) -> Result<AuthResult, WithError<S::Refusal>>
    ensures { Until (SigningRound identity.now hash_alg ticket)
        (signing_at (L.calls line.old) (S.calls signer.old) (S.refusals signer.old))
        (signing_at (L.calls line.new) (S.calls signer.new) (S.refusals signer.new)) result }
{
    for _ in rt.forever() {
        match sign_once(rt, line, ticket, identity, hash_alg, signer) {
            Ok(Some(answer)) => return Ok(answer),
            Ok(None) => {}
            Err(e) => return Err(e),
        }
    }
    unreachable!()
}

/// Logs in by a method whose signatures the signer makes with this identity.
fn sign_in<S: LoggedSigner, L: Line, R: Wait>(
    rt: &R,
    line: &mut L,
    alloc: Global,
    user: &str,
    method: Method,
    identity: &AgentIdentity,
    hash_alg: Option<HashAlg>,
    signer: &mut S,
) -> Result<AuthResult, WithError<S::Refusal>>
    ensures { SignsIn identity.now hash_alg (submitted (msgs.Authenticate user.now method asked_ticket))
        (signing_at (L.calls line.old) (S.calls signer.old) (S.refusals signer.old))
        (signing_at (L.calls line.new) (S.calls signer.new) (S.refusals signer.new)) result }
{
    match login(alloc, user, method) {
        Ok(msg) => match line.submit(rt, msg) {
            Ok(Some(ticket)) => sign_until_answered(rt, line, ticket, identity, hash_alg, signer),
            Ok(None) => unreachable!(),
            Err(e) => Err(WithError::Session(e)),
        },
        Err(NoMemory) => Err(WithError::Session(Error::NoMemory)),
    }
}

/// Logs in by a key that the signer holds (RFC 4252, section 7). A refusal of the signer is returned as `Signer`.
pub fn authenticate_publickey_with<S: LoggedSigner, L: Line, R: Wait>(
    rt: &R,
    line: &mut L,
    alloc: Global,
    user: &str,
    key: PublicKey,
    hash_alg: Option<HashAlg>,
    signer: &mut S,
) -> Result<AuthResult, WithError<S::Refusal>>
    ensures { SignsIn (identity_of_key key) hash_alg
        (submitted (msgs.Authenticate user.now (methods.FuturePublicKey key hash_alg) asked_ticket))
        (signing_at (L.calls line.old) (S.calls signer.old) (S.refusals signer.old))
        (signing_at (L.calls line.new) (S.calls signer.new) (S.refusals signer.new)) result }
{
    match key_login(key, hash_alg) {
        Ok((identity, method)) => {
            let answer = sign_in(rt, line, alloc, user, method, &identity, hash_alg, signer);
            drop(identity);
            answer
        }
        Err(NoMemory) => Err(WithError::Session(Error::NoMemory)),
    }
}

/// Logs in by a certificate whose key the signer holds.
pub fn authenticate_certificate_with<S: LoggedSigner, L: Line, R: Wait>(
    rt: &R,
    line: &mut L,
    alloc: Global,
    user: &str,
    cert: Certificate,
    hash_alg: Option<HashAlg>,
    signer: &mut S,
) -> Result<AuthResult, WithError<S::Refusal>>
    ensures { SignsIn (identity_of_certificate cert) hash_alg
        (submitted (msgs.Authenticate user.now (methods.FutureCertificate cert hash_alg) asked_ticket))
        (signing_at (L.calls line.old) (S.calls signer.old) (S.refusals signer.old))
        (signing_at (L.calls line.new) (S.calls signer.new) (S.refusals signer.new)) result }
{
    match certificate_login(cert, hash_alg) {
        Ok((identity, method)) => {
            let answer = sign_in(rt, line, alloc, user, method, &identity, hash_alg, signer);
            drop(identity);
            answer
        }
        Err(NoMemory) => Err(WithError::Session(Error::NoMemory)),
    }
}
