//! The `hosts` command-line arguments.

ghost use Rattle.std.specs.Prelude.{◌∷◌, [], IfSome, IsNone};
ghost use Rattle.sshc_hosts_words.specs.Asked.{Asked, Asks, HasParts, place, asked_by};

use crate::port::port_of;
use sshc_wire::Text;

/// A host at a port, and the path of a known hosts file.
#[derive(Clone, Copy)]
pub struct KnownAt<'a> {
    pub host: &'a str,
    pub port: u16,
    pub path: &'a str,
}

/// The request of the arguments. The key is the argument KEY, unparsed.
#[derive(Clone, Copy)]
pub enum HostsWords<'a> {
    Check { at: KnownAt<'a>, key: &'a str },
    Keys { at: KnownAt<'a> },
    Learn { at: KnownAt<'a>, key: &'a str },
}

/// The request about a key.
fn with_key<'a>(verb: &str, at: KnownAt<'a>, key: &'a str) -> Option<HostsWords<'a>>
    ensures some { IfSome result (λ asked. HasParts verb.now (place at.entry) (key.now ∷ []) (asked_by asked)) }
    ensures none { IsNone result → (asked : Asked) → HasParts verb.now (place at.entry) (key.now ∷ []) asked → ⊥ }
{
    if verb == "check" {
        return Some(HostsWords::Check { at, key });
    }
    if verb == "learn" {
        return Some(HostsWords::Learn { at, key });
    }
    None
}

/// The request of the second argument and the arguments after KNOWN.
fn with_verb<'a>(verb: &str, at: KnownAt<'a>, last: &'a [Text]) -> Option<HostsWords<'a>>
    ensures some { IfSome result (λ asked. HasParts verb.now (place at.entry) last.now (asked_by asked)) }
    ensures none { IsNone result → (asked : Asked) → HasParts verb.now (place at.entry) last.now asked → ⊥ }
{
    if last.len() == 1 {
        return with_key(verb, at, last[0].as_str());
    }
    if last.is_empty() && verb == "keys" {
        return Some(HostsWords::Keys { at });
    }
    None
}

/// The request of the arguments, if they have one of the three forms.
pub fn hosts_words<'a>(words: &'a [Text]) -> Option<HostsWords<'a>>
    ensures some { IfSome result (λ asked. Asks words.now (asked_by asked)) }
    ensures none { IsNone result → (asked : Asked) → Asks words.now asked → ⊥ }
{
    if words.len() < 5 || words[0].as_str() != "hosts" {
        return None;
    }
    match port_of(words[3].as_str()) {
        Some(port) => with_verb(
            words[1].as_str(),
            KnownAt {
                host: words[2].as_str(),
                port,
                path: words[4].as_str(),
            },
            &words[5..],
        ),
        None => None,
    }
}
