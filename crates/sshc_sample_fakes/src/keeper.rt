//! A handler that accepts each host key.

ghost use Rattle.std.specs.Prelude.{◌≡◌};
ghost use Rattle.sshc_client.specs.Handling.{ended_by};

use sshc_client::{DisconnectReason, Error, Handler};
use sshc_key::PublicKeyOrCertificate;

/// Accepts each host key, and keeps all other defaults.
#[derive(Clone, Copy, PartialEq, Eq)]
pub struct Keeper;

impl Handler for Keeper {
    type Error = Error;

    ghost use Rattle.std.specs.Prelude.{◌≡◌, [], Ok, true};

    ghost at = { λ _. record { refusals = 0; setting = []; heard = [] } };

    ghost judges = { λ _ _ answer. answer ≡ Ok true };

    ghost told_as = { λ e. e };

    ghost keeps_defaults = { Unit {0} };

    fn check_server_key(&mut self, _key: &PublicKeyOrCertificate) -> Result<bool, Error> {
        Ok(true)
    }

    fn disconnected(&mut self, reason: DisconnectReason<Error>) -> Result<(), Error>
        ensures default { result ≡ ended_by reason }
    {
        match reason {
            DisconnectReason::ReceivedDisconnect(_) => Ok(()),
            DisconnectReason::Error(e) => Err(e),
        }
    }

    fn from_client(e: Error) -> Error
        ensures { result ≡ e }
    {
        e
    }
}
