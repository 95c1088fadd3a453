//! The row of phase Auth for keys: the server would take the key, and the request is signed (RFC 4252, section 7).

ghost use Rattle.std.specs.Prelude.{◌≡◌, Option, Some};
ghost use Rattle.sshc_wire.specs.declared.hash_alg.HashAlg.{HashAlg as Hash};
ghost use Rattle.sshc_key.specs.KeyGrammar.{Key};
ghost use Rattle.sshc_auth_request.specs.KeyParts.{IsKeyPart};
ghost use Rattle.sshc_auth.specs.OpeningTable.AuthKey.{pk_ok_row, is_pk_ok_body, key_row, sign_row, ask_key_row};
ghost use Rattle.sshc_auth.specs.OpeningTable.AuthKey.{ask_certificate_row};
ghost use Rattle.sshc_auth.specs.Row.{Follows, FollowsAsking, signer_at, span};
ghost use Rattle.sshc_auth.specs.Signing.{SignedBy, Handed, flow_of, signing_span};

use super::{Opening, Phase};
use crate::error::Error;
use crate::step::Flow;
use sshc_auth_event::Method;
use sshc_auth_request::{KeyPart, certificate_part, key_part, part_to_sign, signed_packet};
use sshc_key::{Asker, HashAlg, LocalSigner, PrivateKey, SignRefused};
use sshc_wire::{AuthRecord, Cursor, Octets, Outbox, Record};

impl Opening {
    /// USERAUTH_PK_OK (RFC 4252, section 7).
    #[tactic(auto, unfolding(crate::specs::OpeningTable::AuthKey::pk_ok_row))]
    pub(super) fn pk_ok<S: LocalSigner>(
        &mut self,
        body: &[u8],
        signer: &mut S,
        out: &mut Outbox,
    ) -> Result<Flow, Error>
        ensures row { FollowsAsking (pk_ok_row self.old body.now)
            (signer_at (S.calls signer.old) (S.refusals signer.old))
            (signer_at (S.calls signer.new) (S.refusals signer.new)) (span self.old self.new out.old out.new) result }
    {
        if !is_pk_ok(body) {
            return Err(Error::SshEncoding);
        }
        self.take_method(signer, out)
    }

    /// Signs the stored request, whose method is cleared.
    fn take_method<S: LocalSigner>(
        &mut self,
        signer: &mut S,
        out: &mut Outbox,
    ) -> Result<Flow, Error>
        ensures row { FollowsAsking (key_row self.old self.old.method)
            (signer_at (S.calls signer.old) (S.refusals signer.old))
            (signer_at (S.calls signer.new) (S.refusals signer.new)) (span self.old self.new out.old out.new) result }
    {
        match self.sign_stored(signer, out) {
            Ok(Some(bytes)) => {
                self.forget_method();
                self.phase = Phase::AwaitSignature;
                self.handed = bytes;
                Ok(Flow::Went)
            }
            Ok(None) => {
                self.forget_method();
                Ok(Flow::Went)
            }
            Err(e) => Err(e),
        }
    }

    /// Signs the stored request, or hands out the bytes to sign, which are returned.
    #[tactic(auto, unfolding(crate::specs::OpeningTable::AuthKey::key_row))]
    fn sign_stored<S: LocalSigner>(
        &self,
        signer: &mut S,
        out: &mut Outbox,
    ) -> Result<Option<Octets>, Error>
        ensures row { FollowsAsking (key_row self.now self.now.method)
            (signer_at (S.calls signer.old) (S.refusals signer.old))
            (signer_at (S.calls signer.new) (S.refusals signer.new)) (signing_span self.now out.old out.new result)
            (flow_of result) }
    {
        match &self.method {
            Some(stored) => self.sign_method(stored.as_method(), signer, out),
            None => Ok(None),
        }
    }

    /// The same, by the method.
    #[tactic(auto, unfolding(crate::specs::OpeningTable::AuthKey::key_row))]
    fn sign_method<S: LocalSigner>(
        &self,
        method: &Method,
        signer: &mut S,
        out: &mut Outbox,
    ) -> Result<Option<Octets>, Error>
        ensures row { FollowsAsking (key_row self.now (Some method.now))
            (signer_at (S.calls signer.old) (S.refusals signer.old))
            (signer_at (S.calls signer.new) (S.refusals signer.new)) (signing_span self.now out.old out.new result)
            (flow_of result) }
    {
        match method {
            Method::PublicKey { key } => {
                let part = key_part(key.key().public_key(), key.hash_alg());
                self.sign(key.key(), &part, key.hash_alg(), signer, out)
            }
            Method::OpenSshCertificate { key, cert } => {
                let part = certificate_part(cert, None);
                self.sign(key, &part, None, signer, out)
            }
            Method::FuturePublicKey { key, hash_alg } => {
                let part = key_part(key, *hash_alg);
                self.ask_key(&part, *hash_alg, out)
            }
            Method::FutureCertificate { cert, hash_alg } => {
                let part = certificate_part(cert, *hash_alg);
                self.ask_certificate(&part, *hash_alg, out)
            }
            _ => Ok(None),
        }
    }

    /// Asks the signer once.
    fn sign<S: LocalSigner>(
        &self,
        pair: &PrivateKey,
        part: &KeyPart<'_>,
        hash: Option<HashAlg>,
        signer: &mut S,
        out: &mut Outbox,
    ) -> Result<Option<Octets>, Error>
        ensures row { (key : Key) → IsKeyPart part.now key hash → FollowsAsking (sign_row self.now pair.now key hash)
            (signer_at (S.calls signer.old) (S.refusals signer.old))
            (signer_at (S.calls signer.new) (S.refusals signer.new)) (signing_span self.now out.old out.new result)
            (flow_of result) }
    {
        let bytes = part_to_sign(
            self.alloc,
            self.session_id.as_slice(),
            self.user.as_str(),
            part,
        )?;
        let answer = signer.sign(Asker::Session, pair, hash, &bytes);
        self.signed_by(part, answer, out)
    }

    /// Writes the signed request, by the signer's answer.
    fn signed_by(
        &self,
        part: &KeyPart<'_>,
        answer: Result<Vec<u8>, SignRefused>,
        out: &mut Outbox,
    ) -> Result<Option<Octets>, Error>
        ensures row { (key : Key) (hash : Option Hash) → IsKeyPart part.now key hash
            → SignedBy self.now key hash answer out.old out.new result }
    {
        match answer {
            Ok(signature) => {
                let signature = Octets::from_vec(signature)?;
                let packet = signed_packet(
                    self.alloc,
                    self.user.as_str(),
                    part,
                    signature.as_slice(),
                )?;
                out.push(Record::Payload(packet))?;
                Ok(None)
            }
            Err(SignRefused::Refused) => Err(Error::SignerFault),
            Err(SignRefused::NoMemory) => Err(Error::NoMemory),
        }
    }

    /// Hands out the bytes to sign, with the key.
    fn ask_key(
        &self,
        part: &KeyPart<'_>,
        hash: Option<HashAlg>,
        out: &mut Outbox,
    ) -> Result<Option<Octets>, Error>
        ensures row { (key : Key) → IsKeyPart part.now key hash
            → Handed (ask_key_row self.now key hash) self.now out.old out.new result }
    {
        let bytes = part_to_sign(
            self.alloc,
            self.session_id.as_slice(),
            self.user.as_str(),
            part,
        )?;
        let bytes = Octets::from_vec(bytes)?;
        let body = bytes.copy()?;
        out.push(Record::Auth {
            ticket: self.ticket,
            asked: AuthRecord::SignRequest {
                key: part.blob(self.alloc)?,
                hash_alg: hash,
                body,
            },
        })?;
        Ok(Some(bytes))
    }

    /// Hands out the bytes to sign, with the certificate.
    fn ask_certificate(
        &self,
        part: &KeyPart<'_>,
        hash: Option<HashAlg>,
        out: &mut Outbox,
    ) -> Result<Option<Octets>, Error>
        ensures row { (key : Key) → IsKeyPart part.now key hash
            → Handed (ask_certificate_row self.now key hash) self.now out.old out.new result }
    {
        let bytes = part_to_sign(
            self.alloc,
            self.session_id.as_slice(),
            self.user.as_str(),
            part,
        )?;
        let bytes = Octets::from_vec(bytes)?;
        let body = bytes.copy()?;
        out.push(Record::Auth {
            ticket: self.ticket,
            asked: AuthRecord::SignRequestCert {
                cert: part.blob(self.alloc)?,
                hash_alg: hash,
                body,
            },
        })?;
        Ok(Some(bytes))
    }
}

/// Whether the packet has its two parts: the algorithm's name and the key's blob.
fn is_pk_ok(body: &[u8]) -> bool
    ensures { result ≡ is_pk_ok_body body.now }
{
    let mut packet = Cursor::new(body);
    packet.text().is_ok() && packet.bytes().is_ok() && packet.ensure_end().is_ok()
}
