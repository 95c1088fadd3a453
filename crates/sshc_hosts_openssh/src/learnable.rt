//! Hosts whose key may be added to a known hosts file.

ghost use Rattle.std.specs.Prelude.{◌≡◌, ℕ, true};
ghost use Rattle.std.specs.List.{list_all};
ghost use Rattle.sshc_hosts.specs.HostText.{host_text};
ghost use Rattle.sshc_hosts.specs.Learning.{IsLearnable};
ghost use Rattle.sshc_hosts_openssh.specs.Learnable.{is_host_byte, is_learnable};

/// Whether the byte may stand in the name or the address of a host.
fn is_host_byte(b: u8) -> bool
    ensures { result ≡ is_host_byte b }
{
    b.is_ascii_alphanumeric() || b == b'.' || b == b'-' || b == b'_' || b == b':' || b == b'%'
}

fn all_host_bytes(host: &[u8]) -> bool
    ensures { result ≡ list_all is_host_byte host.now }
{
    host.iter().all(|b| is_host_byte(*b))
}

/// Whether a line for the host names this host and no other: a name or an address of letters, digits and `.-_:%`. Ask it
/// before a key is learned for a host that comes from somewhere else, as from a URL.
pub fn is_learnable(host: &str) -> bool
    ensures test { result ≡ is_learnable host.now }
    // What `sshc_hosts::learn_text` asks of a host, at every port.
    ensures law { result ≡ true → (port : ℕ) → IsLearnable host.now (host_text host.now port) }
{
    let host = host.as_bytes();
    host.len() > 0 && all_host_bytes(host)
}
