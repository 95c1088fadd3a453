//! Authenticates the user by GSSAPI for a login (RFC 4462, section 3).

ghost use Rattle.std.specs.Prelude.{◌≤◌, ℕ, OnErr};
ghost use Rattle.sshc_wire.specs.Faults.{Rose};

use sshc_wire::{Octets, Text};

/// What an authenticator hands back for the server. Each part has fewer than 2^32 bytes, as its type says.
#[derive(PartialEq, Eq, Drop)]
pub enum GssapiStep {
    /// A token, after which the server's next one is awaited (RFC 4462, section 3.4).
    Continue {
        token: Octets,
    },
    /// The context is established: a last token, if there is one, and the MIC, if integrity is available (RFC 4462,
    /// section 3.5); without a MIC the exchange is complete (section 3.6).
    Complete {
        token: Option<Octets>,
        mic: Option<Octets>,
    },
}

/// What the server reported (RFC 4462, sections 3.8 and 3.9).
#[derive(PartialEq, Eq, Drop)]
pub enum GssapiError {
    /// The status codes of the failure, and a message for the user.
    Status {
        major_status: u32,
        minor_status: u32,
        message: Text,
    },
    /// The token of an error.
    ErrorToken(Octets),
}

/// Authenticates the user by GSSAPI for a login. It keeps a count of its refusals.
pub trait GssapiAuthenticator {
    type Error;

    ghost refusals: { Self → ℕ };

    /// The next step: at first with the mechanism that the server chose and no token, then with the server's tokens.
    /// The bytes are those of which a MIC is made (RFC 4462, section 3.5). Each error is a refusal that is counted,
    /// also out of memory.
    fn gssapi_step(
        &mut self,
        selected_mechanism: Option<Octets>,
        token: Option<Octets>,
        mic_data: Octets,
    ) -> Result<GssapiStep, Self::Error>
        ensures cause { OnErr result (Rose (refusals self.old) (refusals self.new)) }
        ensures later { refusals self.old ≤ refusals self.new };

    /// The server reported an error. A failure of the request follows it.
    fn gssapi_error(&mut self, error: GssapiError)
        ensures later { refusals self.old ≤ refusals self.new };
}
