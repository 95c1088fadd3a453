//! What an authentication asks the user for (RFC 4252, section 7; RFC 4256; RFC 4462, section 3).

use crate::hash_alg::HashAlg;
use crate::list::List;
use crate::octets::Octets;
use crate::text::Text;

/// One prompt of an interactive authentication (RFC 4256, section 3.2).
#[derive(PartialEq, Eq, Drop)]
pub struct Prompt {
    pub prompt: Text,
    /// Whether what the user types may be shown.
    pub echo: bool,
}

/// What the user is asked for before the authentication continues.
#[derive(PartialEq, Eq, Drop)]
pub enum AuthRecord {
    /// A signature by the key of this blob over the body.
    SignRequest {
        key: Octets,
        hash_alg: Option<HashAlg>,
        body: Octets,
    },
    /// A signature by the key in the certificate of this blob over the body.
    SignRequestCert {
        cert: Octets,
        hash_alg: Option<HashAlg>,
        body: Octets,
    },
    /// Answers to the prompts, one each.
    AuthInfoRequest {
        name: Text,
        instructions: Text,
        prompts: List<Prompt>,
    },
    /// A step of a GSSAPI authentication.
    Gssapi(GssapiRecord),
}

/// What the server said in a GSSAPI authentication (RFC 4462, section 3).
#[derive(PartialEq, Eq, Drop)]
pub enum GssapiRecord {
    /// The mechanism that it chose; the user's first token is due.
    Response {
        mechanism: Octets,
        mic_data: Octets,
    },
    /// Its token; the user's next token or MIC is due.
    Token {
        token: Octets,
        mic_data: Octets,
    },
    Error {
        major_status: u32,
        minor_status: u32,
        message: Text,
    },
    ErrorToken {
        token: Octets,
    },
}
