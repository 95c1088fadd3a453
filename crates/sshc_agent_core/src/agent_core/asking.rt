//! What a step asks to be signed (draft-miller-ssh-agent, section 3.6).

ghost use Rattle.std.specs.Prelude.{◌≡◌, option_copied};
ghost use Rattle.sshc_wire.specs.Reads.{string_at};
ghost use Rattle.sshc_key.specs.View.{view};
ghost use Rattle.sshc_agent_core.specs.AgentList.{aged};
ghost use Rattle.sshc_agent_core.specs.AgentTable.Sign.{flagged_hash, hash_of};
ghost use Rattle.sshc_agent_core.specs.Asked.{asked_of, request_by};
ghost use Rattle.sshc_agent_core.specs.AskedRows.{body_asks, frame_asks, key_asks, may_ask, rest_asks, taken_by};
ghost use Rattle.sshc_agent_core.specs.AskedRows.{taken_now};
ghost use Rattle.sshc_agent_core.specs.Connections.{standing_of};

use super::AgentCore;
use crate::connections::Standing;
use crate::input::AgentInput;
use crate::key_list::HeldKey;
use crate::signing::{SignQuestion, Taken};
use sshc_key::KeyData;
use sshc_key::agent_msg::{SIGN_REQUEST, SSH_AGENT_RSA_SHA2_256, SSH_AGENT_RSA_SHA2_512};
use sshc_wire::{Cursor, HashAlg};

/// The hash that the flags of a request ask for; flag 2 is tested first.
fn flagged_hash(flags: u32) -> Option<HashAlg>
    ensures { result ≡ flagged_hash flags }
{
    if flags & SSH_AGENT_RSA_SHA2_256 != 0 {
        Some(HashAlg::Sha256)
    } else if flags & SSH_AGENT_RSA_SHA2_512 != 0 {
        Some(HashAlg::Sha512)
    } else {
        None
    }
}

/// The hash to sign with, which only an RSA key has.
fn hash_of(key: &KeyData, flags: u32) -> Option<HashAlg>
    ensures { result ≡ hash_of (view key.now) flags }
{
    match key {
        KeyData::Rsa { .. } => flagged_hash(flags),
        KeyData::Certificate(certificate) => {
            let _ = &certificate.nonce;
            None
        }
        _ => None,
    }
}

/// What is asked of a key that signs; `rest` is what follows its blob in the request.
fn rest_asks<'a>(_conn: u32, key: &'a HeldKey, rest: &'a [u8]) -> Option<SignQuestion<'a>>
    ensures { request_by _conn result ≡ rest_asks _conn key.now rest.now }
{
    let mut c = Cursor::new(rest);
    let bytes = c.bytes().ok()?;
    let flags = c.u32().ok()?;
    Some(SignQuestion {
        key: &key.pair,
        hash: hash_of(&key.pair.public.key, flags),
        bytes,
    })
}

/// The same of a key that asks for a confirmation before it signs, unless it is there.
fn key_asks<'a>(
    conn: u32,
    is_confirmed: bool,
    key: Option<&'a HeldKey>,
    rest: &'a [u8],
) -> Option<SignQuestion<'a>>
    ensures { request_by conn result ≡ key_asks conn is_confirmed (option_copied key.entry) rest.now }
{
    let key = key?;
    if key.constraints.confirm && !is_confirmed {
        None
    } else {
        rest_asks(conn, key, rest)
    }
}

/// Whether a step with this input may ask something: another frame than a sign request doesn't.
fn may_ask(input: &AgentInput) -> bool
    ensures { result ≡ may_ask input.now }
{
    match input {
        AgentInput::Frame(whole) => match whole.as_slice() {
            [] => false,
            [number, ..] => *number == SIGN_REQUEST,
        },
        _ => true,
    }
}

impl AgentCore {
    /// What a sign request asks that is taken now; `body` is what follows its number. The user has said yes to the use
    /// of its key if `is_confirmed`.
    fn body_asks<'a>(
        &'a self,
        now: u64,
        conn: u32,
        is_confirmed: bool,
        body: &'a [u8],
    ) -> Option<SignQuestion<'a>>
        ensures { request_by conn result ≡ body_asks conn is_confirmed (aged now self.now).keys (string_at body.now) }
    {
        let mut c = Cursor::new(body);
        let blob = c.bytes().ok()?;
        let key = self.keys.find_at(blob, self.latest.max(now));
        key_asks(conn, is_confirmed, key, c.rest())
    }

    /// The same of any request that is taken now.
    fn frame_asks<'a>(
        &'a self,
        now: u64,
        conn: u32,
        is_confirmed: bool,
        whole: &'a [u8],
    ) -> Option<SignQuestion<'a>>
        ensures { request_by conn result ≡ frame_asks conn is_confirmed (aged now self.now) whole.now }
    {
        match whole {
            [] => None,
            [number, body @ ..] => {
                if *number != SIGN_REQUEST || self.passphrase.is_some() {
                    None
                } else {
                    self.body_asks(now, conn, is_confirmed, body)
                }
            }
        }
    }

    /// The frame that a step with this input takes now, if no question about the request comes before that.
    fn taken<'a>(&'a self, conn: u32, input: &'a AgentInput) -> Option<Taken<'a>>
        ensures { taken_by result ≡ taken_now self.now.asks (standing_of self.now.conns conn) input.now }
    {
        match self.conns.standing(conn) {
            Some(Standing::Closed) => None,
            Some(Standing::RequestAsked(whole)) => match input {
                AgentInput::RequestAnswer(true) => Some(Taken {
                    is_confirmed: false,
                    whole: whole.as_slice(),
                }),
                _ => None,
            },
            Some(Standing::KeyAsked(whole)) => match input {
                AgentInput::KeyAnswer(true) => Some(Taken {
                    is_confirmed: true,
                    whole: whole.as_slice(),
                }),
                _ => None,
            },
            None | Some(Standing::Open) => match input {
                AgentInput::Frame(whole) if !self.asks => Some(Taken {
                    is_confirmed: false,
                    whole: whole.as_slice(),
                }),
                _ => None,
            },
        }
    }

    /// What a step with this input, at a moment in milliseconds, asks to be signed; `None` if it asks nothing. Nothing
    /// changes: whoever has the answer hands it to `apply`.
    #[tactic(auto, using(crate::proofs::Hints::asks))]
    pub fn asks<'a>(
        &'a self,
        now: u64,
        conn: u32,
        input: &'a AgentInput,
    ) -> Option<SignQuestion<'a>>
        ensures { request_by conn result ≡ asked_of now conn input.now self.now }
    {
        if !may_ask(input) {
            return None;
        }
        match self.taken(conn, input) {
            None => None,
            Some(taken) => self.frame_asks(now, conn, taken.is_confirmed, taken.whole),
        }
    }
}
