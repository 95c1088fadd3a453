//! The gate: it judges host keys, and is notified of key exchanges and banners.

ghost use Rattle.std.specs.Prelude.{◌≡◌, ◌≤◌, ◌+◌, ℕ, List, Option, Result, Bool, OnErr, option_copied};
ghost use Rattle.sshc_wire.specs.Faults.{Rose};
ghost use Rattle.sshc_wire.specs.declared.record.Record.{Record as Output};
ghost use Rattle.sshc_key.specs.declared.identity.PublicKeyOrCertificate.{PublicKeyOrCertificate as HostKey};
ghost use Rattle.sshc_auth.specs.declared.error.Error.{Error as Refusal};
ghost use Rattle.sshc_transport.specs.declared.exchange.ExchangeNames.{ExchangeNames as Names};
ghost use Rattle.sshc_auth.specs.Stepping.{Adds};

use crate::error::Error;
use sshc_key::PublicKeyOrCertificate;
use sshc_transport::NamesChosen;
use sshc_wire::Outbox;

/// Judges the host key of the first exchange, and is notified of key exchanges and banners.
pub trait Gate {
    type Error;

    /// What the gate judges by; no call changes it.
    ghost setting: { Self → List (List ℕ) };

    /// What `check_server_key` may return for a host key.
    ghost judges: { Self → HostKey → Result Bool Self.Error → Type 0 };

    /// What `kex_done` may return for an exchange's secret and names, and the answers to tickets that it then adds.
    ghost tells: { Option (List ℕ) → Names → Result (Unit {0}) Self.Error → List Output → Type 0 };

    /// The same for `auth_banner`, by the banner's text.
    ghost tells_banner: { List ℕ → Result (Unit {0}) Self.Error → List Output → Type 0 };

    /// The gate's error for an error of the opening.
    ghost told_as: { Refusal → Self.Error };

    /// How often the gate has refused.
    ghost refusals: { Self → ℕ };

    /// How many host keys the gate was asked about, as far as it counts them. A step asks about one at most.
    ghost asked: { Self → ℕ } = { λ _. 0 };

    /// Whether the host key is accepted.
    fn check_server_key(&mut self, key: &PublicKeyOrCertificate) -> Result<bool, Self::Error>
        ensures judged { judges self.old key.now result }
        ensures cause { OnErr result (Rose (refusals self.old) (refusals self.new)) }
        ensures later { refusals self.old ≤ refusals self.new }
        ensures kept { setting self.new ≡ setting self.old }
        ensures counted { asked self.new ≤ asked self.old + 1 };

    /// A key exchange is done. It may add answers to tickets.
    fn kex_done(
        &mut self,
        secret: Option<&[u8]>,
        names: &NamesChosen,
        out: &mut Outbox,
    ) -> Result<(), Self::Error>
        ensures added { Adds (tells (option_copied secret.entry) names.now) out.old out.new result }
        ensures cause { OnErr result (Rose (refusals self.old) (refusals self.new)) }
        ensures later { refusals self.old ≤ refusals self.new }
        ensures kept { setting self.new ≡ setting self.old }
        ensures counted { asked self.new ≤ asked self.old };

    /// The server's banner (RFC 4252, section 5.4). It may add answers to tickets.
    fn auth_banner(&mut self, banner: &str, out: &mut Outbox) -> Result<(), Self::Error>
        ensures added { Adds (tells_banner banner.now) out.old out.new result }
        ensures cause { OnErr result (Rose (refusals self.old) (refusals self.new)) }
        ensures later { refusals self.old ≤ refusals self.new }
        ensures kept { setting self.new ≡ setting self.old }
        ensures counted { asked self.new ≤ asked self.old };

    /// The gate's error for an error of the opening.
    fn from_auth(e: Error) -> Self::Error
        ensures { result ≡ told_as e };
}
