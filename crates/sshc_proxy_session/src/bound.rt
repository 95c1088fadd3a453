//! A session that is bound to a connection of an agent.

ghost use Rattle.std.specs.Prelude.{◌≡◌, option_map};
ghost use Rattle.sshc_proxy_session.specs.SessionTable.{is_known, names_host, parted};

use sshc_wire::Octets;

/// A binding that was accepted.
#[derive(Drop)]
pub struct Bound {
    /// The blob of the server's host key.
    pub host_key: Octets,
    pub session_id: Octets,
    /// Whether the session forwards the agent, and isn't the one in which the user logs in.
    pub is_forwarding: bool,
}

/// The last binding, with those before it.
pub(crate) fn parted(bindings: &[Bound]) -> Option<(&[Bound], &Bound)>
    ensures { option_map (λ p. (p.0.now, p.1.now)) result ≡ parted bindings.now }
{
    match bindings {
        [] => None,
        [hops @ .., last] => Some((hops, last)),
    }
}

/// Whether the session is bound already.
pub(crate) fn is_known(bindings: &[Bound], session_id: &[u8]) -> bool
    ensures { result ≡ is_known bindings.now session_id.now }
{
    bindings
        .iter()
        .any(|bound| bound.session_id.as_slice() == session_id)
}

/// Whether a login that names this host key, or none, is one to the last binding's host. Over a hop it has to name it.
pub(crate) fn names_host(hops: &[Bound], last: &Bound, host_key: Option<&[u8]>) -> bool
    ensures { result ≡ names_host hops.now last.now (option_map (λ h. h.now) host_key.entry) }
{
    match host_key {
        Some(host_key) => host_key == last.host_key.as_slice(),
        None => hops.is_empty(),
    }
}
