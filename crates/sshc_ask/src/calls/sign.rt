//! Signatures (draft-miller-ssh-agent, section 3.6; RFC 8332).

ghost use Rattle.std.specs.Prelude.{◌≡◌, ◌≤◌, Ok, OnErr, OnOk, string_bytes};
ghost use Rattle.sshc_wire.specs.Faults.{Rose};
ghost use Rattle.sshc_wire.specs.Wire.{string_text};
ghost use Rattle.sshc_key.specs.Gives.{GivesAll};
ghost use Rattle.sshc_ask.specs.AgentCalls.{Calls};
ghost use Rattle.sshc_ask.specs.AgentCalls.Frames.{frame, sent_hash, sign_request, signing_key};
ghost use Rattle.sshc_ask.specs.AgentCalls.Readings.{base64_reading, sign_reading, signature_reading};

use crate::calls::sign_message::{identity_hash, identity_signing, key_signing};
use crate::client::AgentClient;
use crate::message::Message;
use crate::sign_answer::{base64_in, signature_in, signed_in};
use sshc_key::{AgentIdentity, Error, HashAlg, PublicKey, Signature, Signer};
use sshc_wire::AgentStream;

impl<S: AgentStream> AgentClient<S> {
    /// Signs the bytes with a key or certificate, and returns them followed by the signature as a string. For an RSA
    /// key the hash selects the signature's name; a signature of another name is a protocol error.
    pub fn sign_request(
        &mut self,
        identity: &AgentIdentity,
        hash_alg: Option<HashAlg>,
        body: Vec<u8>,
    ) -> Result<Vec<u8>, Error>
        ensures call { Calls (frame (sign_request (signing_key identity.now) hash_alg body.items))
            (λ answer. GivesAll (λ v. v.items) result
            (sign_reading (sent_hash (signing_key identity.now) hash_alg) body.items answer))
            self.old self.new result }
    {
        let message = identity_signing(self.alloc, identity, hash_alg, &body)?;
        let answer = self.ask(message)?;
        signed_in(self.alloc, identity_hash(identity, hash_alg), body, &answer)
    }

    /// Signs the bytes with a key, and returns the signature whatever its name.
    pub fn sign_request_signature(
        &mut self,
        public: &PublicKey,
        hash_alg: Option<HashAlg>,
        body: &[u8],
    ) -> Result<Signature, Error>
        ensures call { Calls (frame (sign_request public.now.0 hash_alg body.now))
            (λ answer. GivesAll (λ s. s) result (signature_reading answer)) self.old self.new result }
    {
        let message = key_signing(self.alloc, public, hash_alg, body)?;
        let answer = self.ask(message)?;
        signature_in(self.alloc, &answer)
    }

    fn base64_answer(&mut self, message: Message) -> Result<String, Error>
        ensures call { Calls (string_text message)
            (λ answer. GivesAll (λ text. string_bytes text) result (Ok (base64_reading answer)))
            self.old self.new result }
    {
        let answer = self.ask(message)?;
        Ok(base64_in(self.alloc, &answer)?)
    }

    fn base64_signature(
        &mut self,
        public: &PublicKey,
        hash_alg: Option<HashAlg>,
        body: &[u8],
    ) -> Result<String, Error>
        ensures call { Calls (frame (sign_request public.now.0 hash_alg body.now))
            (λ answer. GivesAll (λ text. string_bytes text) result (Ok (base64_reading answer)))
            self.old self.new result }
    {
        let message = key_signing(self.alloc, public, hash_alg, body)?;
        self.base64_answer(message)
    }

    /// Signs the bytes with a key, and returns the base64 without padding of the whole answer after its message number;
    /// the empty text if the agent answers with anything but a signature. The client is returned, too.
    pub fn sign_request_base64(
        self,
        public: &PublicKey,
        hash_alg: Option<HashAlg>,
        body: &[u8],
    ) -> (AgentClient<S>, Result<String, Error>)
        ensures call { Calls (frame (sign_request public.now.0 hash_alg body.now))
            (λ answer. GivesAll (λ text. string_bytes text) result.1 (Ok (base64_reading answer))) self result.0
            result.1 }
    {
        let mut client = self;
        let text = client.base64_signature(public, hash_alg, body);
        (client, text)
    }

    fn count_refusal(&mut self)
        ensures rose { Rose self.old.refusals self.new.refusals }
        ensures later { self.old.refusals ≤ self.new.refusals }
        ensures others { self.new ≡ record self.old { refusals = self.new.refusals } }
    {
        self.refusals = self.refusals.saturating_add(1);
    }
}

impl<S: AgentStream> Signer for AgentClient<S> {
    type Error = Error;

    ghost refusals = { λ c. c.refusals };

    /// Signs as `sign_request` does, and counts each error as a refusal.
    fn auth_sign(
        &mut self,
        key: &AgentIdentity,
        hash: Option<HashAlg>,
        bytes: Vec<u8>,
    ) -> Result<Vec<u8>, Error>
        ensures cause { OnErr result (Rose self.old.refusals self.new.refusals) }
        ensures later { self.old.refusals ≤ self.new.refusals }
        ensures same { OnOk result (self.new.refusals ≡ self.old.refusals) }
        ensures call { Calls (frame (sign_request (signing_key key.now) hash bytes.items))
            (λ answer. GivesAll (λ v. v.items) result
            (sign_reading (sent_hash (signing_key key.now) hash) bytes.items answer))
            self.old (record self.new { refusals = self.old.refusals }) result }
    {
        let signed = self.sign_request(key, hash, bytes);
        if signed.is_err() {
            self.count_refusal();
        }
        signed
    }
}
