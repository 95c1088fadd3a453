//! The errors of a login with a signer or an authenticator of the caller's.

ghost use Rattle.std.specs.Prelude.{◌≡◌};
ghost use Rattle.sshc_handle_calls.specs.declared.with_error.WithError.TheVariants as errors;

use sshc_auth::Error;

/// Why a login with a signer or an authenticator of the caller's has no answer.
#[derive(Drop)]
pub enum WithError<E> {
    /// The signer or the authenticator refused.
    Signer(E),
    Session(Error),
}

impl<E> From<Error> for WithError<E> {
    ghost from_gives = { λ x e. e ≡ errors.Session x };

    fn from(error: Error) -> WithError<E> {
        WithError::Session(error)
    }
}
