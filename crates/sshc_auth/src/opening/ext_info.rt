//! The row of EXT_INFO in phases Service and Auth (RFC 8308, sections 2.3 and 2.4).

ghost use Rattle.std.specs.Prelude.{◌≡◌, ◌<◌};
ghost use Rattle.sshc_auth.specs.OpeningTable.ExtInfo.{ext_info_row, extensions_row, is_third};
ghost use Rattle.sshc_auth.specs.Row.{Follows, span};

use super::Opening;
use crate::error::Error;
use crate::extension::{Extension, MOST_EXT_INFOS, answers_to, read_extensions, take_extensions};
use crate::step::Flow;
use sshc_wire::{Cursor, List, Outbox};

impl Opening {
    /// EXT_INFO, of which a server sends two at most.
    #[tactic(auto, unfolding(crate::specs::OpeningTable::ExtInfo::ext_info_row))]
    pub(super) fn ext_info(&mut self, body: &[u8], out: &mut Outbox) -> Result<Flow, Error>
        ensures row { Follows (ext_info_row self.old body.now) (span self.old self.new out.old out.new) result }
    {
        if self.is_third_ext_info() {
            return Err(Error::Inconsistent);
        }
        let mut packet = Cursor::new(body);
        let extensions = read_extensions(self.alloc, &mut packet)?;
        packet.ensure_end()?;
        self.announce(extensions, out)
    }

    /// Whether as many EXT_INFO came as a server may send.
    fn is_third_ext_info(&self) -> bool
        ensures { result ≡ is_third self.now }
    {
        MOST_EXT_INFOS <= self.ext_infos
    }

    /// Takes the extensions in order, and resolves the tickets of those who waited for them. What can fail comes first.
    fn announce(&mut self, extensions: List<Extension>, out: &mut Outbox) -> Result<Flow, Error>
        requires { self.old.ext_infos < 2 }
        ensures row { Follows (extensions_row self.old extensions) (span self.old self.new out.old out.new) result }
    {
        let extensions = extensions.into_vec();
        let mut answers = answers_to(self.alloc, extensions.as_slice(), self.waiters.as_slice())?;
        self.seen.reserve(extensions.len())?;
        out.append(&mut answers)?;
        self.ext_infos += 1;
        take_extensions(
            extensions,
            &mut self.sig_algs,
            &mut self.seen,
            &mut self.waiters,
        );
        Ok(Flow::Went)
    }
}
