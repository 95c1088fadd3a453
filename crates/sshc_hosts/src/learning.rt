//! The text that is added to a known hosts text to learn a key.

ghost use Rattle.std.specs.Prelude.{◌≡◌, ◌++◌, ◌∷◌, IfOk};
ghost use Rattle.sshc_hosts.specs.Learning.{ends_line, line_feed_after, added_line, learned, IsLearnable};
ghost use Rattle.sshc_hosts.specs.Learning.{IsLearnableKey, Learns};
ghost use Rattle.sshc_hosts.specs.HostText.{host_text};

use crate::host::host_text;
use sshc_key::PublicKey;
use sshc_wire::{NoMemory, Text};
use std::alloc::Global;

/// Whether the text ends with a line feed.
fn ends_line(text: &str) -> bool
    ensures { result ≡ ends_line text.now }
{
    match text.as_bytes().last() {
        Some(b) => *b == b'\n',
        None => false,
    }
}

/// A line feed, unless the old text ends with one.
fn line_feed_after(old: &str) -> &'static str
    ensures { result.now ≡ line_feed_after old.now }
{
    if ends_line(old) { "" } else { "\n" }
}

/// A line of a host text and a key's text, as it is added to the old text: on a line of its own.
fn added_line(alloc: Global, old: &str, host: &str, key: &str) -> Result<Text, NoMemory>
    ensures { IfOk result (λ t. t ≡ added_line old.now (host.now ++ 32 ∷ key.now)) }
{
    let line_feed = line_feed_after(old);
    Text::from_string(format!(in alloc; "{line_feed}{host} {key}\n")?)
}

/// The text that is added to a known hosts text to learn the key for the host at the port: a line of its own.
pub fn learn_text(
    alloc: Global,
    old: &str,
    host: &str,
    port: u16,
    key: &PublicKey,
) -> Result<Text, NoMemory>
    ensures text { IfOk result (λ t. t ≡ learned old.now (host_text host.now port) key.now) }
    ensures law { IsLearnable host.now (host_text host.now port) → IsLearnableKey key.now
        → IfOk result (λ t. Learns old.now t (host_text host.now port) key.now.0) }
{
    let host = host_text(alloc, host, port)?;
    let key = key.to_openssh()?;
    added_line(alloc, old, host.as_str(), key.as_str())
}
