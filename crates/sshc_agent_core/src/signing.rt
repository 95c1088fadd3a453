//! What a step asks to be signed, and the answer that it is told.

ghost use Rattle.std.specs.Prelude.{◌≡◌};
ghost use Rattle.sshc_agent_core.specs.Asked.{answer_of, told_of};

use sshc_key::{HashAlg, PrivateKey, SignRefused};

/// What a step asks to be signed: by whoever holds or reaches the key, in this process or another.
#[derive(Clone, Copy)]
pub struct SignQuestion<'a> {
    pub key: &'a PrivateKey,
    /// The hash that the request's flags ask for; only an RSA key has one.
    pub hash: Option<HashAlg>,
    pub bytes: &'a [u8],
}

/// The signer's answer to what a step asked.
#[derive(Clone, Copy)]
pub enum Told<'a> {
    /// Nothing was asked, or there is no answer because memory ran out.
    Unanswered,
    /// One whole signature (RFC 4253, section 6.6), of at most 65536 bytes.
    Signed(&'a [u8]),
    Refused,
}

/// A request that is taken now, as a frame without its length.
#[derive(Clone, Copy)]
pub(crate) struct Taken<'a> {
    /// The user said yes to the use of its key.
    pub(crate) is_confirmed: bool,
    pub(crate) whole: &'a [u8],
}

/// What a signer returned, as a step is told it.
pub(crate) fn told_by(answer: &Result<Vec<u8>, SignRefused>) -> Told<'_>
    ensures { told_of result ≡ answer_of answer.now }
{
    match answer {
        Ok(signature) => Told::Signed(signature.as_slice()),
        Err(SignRefused::Refused) => Told::Refused,
        Err(SignRefused::NoMemory) => Told::Unanswered,
    }
}
