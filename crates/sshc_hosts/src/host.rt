//! How a known hosts file names a host at a port.

ghost use Rattle.std.specs.Prelude.{◌≡◌, IfOk};
ghost use Rattle.sshc_hosts.specs.HostText.{host_text};

use sshc_wire::{NoMemory, Text};
use std::alloc::Global;

/// The port that a known hosts file leaves out.
const DEFAULT_PORT: u16 = 22;

/// The text that names the host at the port: the host alone at port 22, and `[host]:port` otherwise.
pub fn host_text(alloc: Global, host: &str, port: u16) -> Result<Text, NoMemory>
    ensures { IfOk result (λ t. t ≡ host_text host.now port) }
{
    if port == DEFAULT_PORT {
        Text::from_str(alloc, host)
    } else {
        Text::from_string(format!(in alloc; "[{host}]:{port}")?)
    }
}
