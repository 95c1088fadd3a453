//! Why a row doesn't continue.

ghost use Rattle.std.specs.Prelude.{◌≡◌};
ghost use Rattle.sshc_auth.specs.declared.error.Error.TheVariants as errors;
ghost use Rattle.sshc_client.specs.HandledRow.{lent_result, own_result, went_result};
ghost use Rattle.sshc_client.specs.declared.stop.Stop.TheVariants as stops;

use sshc_auth::Error;
use sshc_client_rows::RowFlow;
use sshc_wire::{NoMemory, WireError};

/// Why a row doesn't continue.
#[derive(Drop)]
pub enum Stop<E> {
    /// The session refuses it.
    Own(Error),
    /// The handler refused.
    Handler(E),
}

impl<E> From<Error> for Stop<E> {
    ghost from_gives = { λ x e. e ≡ stops.Own x };

    fn from(error: Error) -> Stop<E> {
        Stop::Own(error)
    }
}

impl<E> From<NoMemory> for Stop<E> {
    ghost from_gives = { λ _ e. e ≡ stops.Own errors.NoMemory };

    fn from(_error: NoMemory) -> Stop<E> {
        Stop::Own(Error::NoMemory)
    }
}

impl<E> From<WireError> for Stop<E> {
    ghost from_gives = { λ _ e. e ≡ stops.Own errors.SshEncoding };

    fn from(_error: WireError) -> Stop<E> {
        Stop::Own(Error::SshEncoding)
    }
}

/// The result of a row that calls no handler.
pub(crate) fn own<E>(row: Result<RowFlow, Error>) -> Result<RowFlow, Stop<E>>
    ensures { result ≡ own_result row }
{
    match row {
        Ok(flow) => Ok(flow),
        Err(e) => Err(Stop::Own(e)),
    }
}

/// The result of the moves at the end of a row.
pub(crate) fn went<E>(moved: Result<(), NoMemory>) -> Result<RowFlow, Stop<E>>
    ensures { result ≡ went_result moved }
{
    match moved {
        Ok(()) => Ok(RowFlow::Went),
        Err(NoMemory) => Err(Stop::Own(Error::NoMemory)),
    }
}

/// The handler's result, as one of a row.
pub(crate) fn lent<T, E>(answer: Result<T, E>) -> Result<T, Stop<E>>
    ensures { result ≡ lent_result answer }
{
    match answer {
        Ok(x) => Ok(x),
        Err(e) => Err(Stop::Handler(e)),
    }
}
