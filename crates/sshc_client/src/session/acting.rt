//! The results of a session's methods.

ghost use Rattle.std.specs.Prelude.{◌≡◌};
ghost use Rattle.sshc_client.specs.Methods.{acted};

use sshc_auth::Error;
use sshc_wire::NoMemory;

/// The result of a method that did its moves.
pub(super) fn acted(moved: Result<(), NoMemory>) -> Result<(), Error>
    ensures { result ≡ acted moved }
{
    match moved {
        Ok(()) => Ok(()),
        Err(NoMemory) => Err(Error::NoMemory),
    }
}
