//! The handler's verdict on a host key, as a gate of the opening.

use crate::handler::Handler;
use sshc_auth::{Error, Gate, NamesChosen};
use sshc_key::PublicKeyOrCertificate;
use sshc_wire::Outbox;
use std::marker::PhantomData;

/// Returns the handler's verdict on the host key. The handler has already been called for exchanges and banners, so
/// this gate does nothing with them.
pub(crate) struct Verdict<H: Handler> {
    pub(crate) accepts: bool,
    pub(crate) of: PhantomData<H>,
}

impl<H: Handler> Verdict<H> {
    pub(crate) fn let_go(self) {
        let Verdict { accepts: _, of: _ } = self;
    }
}

impl<H: Handler> Gate for Verdict<H> {
    type Error = H::Error;

    ghost use Rattle.std.specs.Prelude.{◌≡◌, [], Ok};
    ghost use Rattle.sshc_client.specs.HandledStep.{AddsNothing};

    ghost setting = { λ _. [] };

    ghost judges = { λ v _ answer. answer ≡ Ok v.accepts };

    ghost tells = { λ _ _. AddsNothing };

    ghost tells_banner = { λ _. AddsNothing };

    ghost told_as = { H.told_as };

    ghost refusals = { λ _. 0 };

    fn check_server_key(&mut self, _key: &PublicKeyOrCertificate) -> Result<bool, H::Error> {
        Ok(self.accepts)
    }

    fn kex_done(
        &mut self,
        _secret: Option<&[u8]>,
        _names: &NamesChosen,
        _out: &mut Outbox,
    ) -> Result<(), H::Error> {
        Ok(())
    }

    fn auth_banner(&mut self, _banner: &str, _out: &mut Outbox) -> Result<(), H::Error> {
        Ok(())
    }

    fn from_auth(e: Error) -> H::Error {
        H::from_client(e)
    }
}
