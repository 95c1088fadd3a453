//! The auditor's command-line arguments.

ghost use Rattle.std.specs.Prelude.{◌≡◌, IfSome, IsNone, length};
ghost use Rattle.sshc_audit.specs.AuditWords.{Asked, Asks, asked_by};

use sshc_hosts_words::port_of;
use sshc_wire::Text;

/// What the arguments ask for: the path of a known hosts file, with the path of its salts, or with a host at a port.
#[derive(Clone, Copy)]
pub enum AuditAsked<'a> {
    Hash {
        file: &'a str,
        salts: &'a str,
    },
    Drop {
        file: &'a str,
    },
    Remove {
        host: &'a str,
        port: u16,
        file: &'a str,
    },
}

/// The request of two arguments.
fn two_words<'a>(words: &'a [Text]) -> Option<AuditAsked<'a>>
    requires { length words.now ≡ 2 }
    ensures some { IfSome result (λ asked. Asks words.now (asked_by asked)) }
    ensures none { IsNone result → (asked : Asked) → Asks words.now asked → ⊥ }
{
    if words[0].as_str() != "drop" {
        return None;
    }
    Some(AuditAsked::Drop {
        file: words[1].as_str(),
    })
}

/// The request of three arguments.
fn three_words<'a>(words: &'a [Text]) -> Option<AuditAsked<'a>>
    requires { length words.now ≡ 3 }
    ensures some { IfSome result (λ asked. Asks words.now (asked_by asked)) }
    ensures none { IsNone result → (asked : Asked) → Asks words.now asked → ⊥ }
{
    if words[0].as_str() != "hash" {
        return None;
    }
    Some(AuditAsked::Hash {
        file: words[1].as_str(),
        salts: words[2].as_str(),
    })
}

/// The request of four arguments.
fn four_words<'a>(words: &'a [Text]) -> Option<AuditAsked<'a>>
    requires { length words.now ≡ 4 }
    ensures some { IfSome result (λ asked. Asks words.now (asked_by asked)) }
    ensures none { IsNone result → (asked : Asked) → Asks words.now asked → ⊥ }
{
    if words[0].as_str() != "remove" {
        return None;
    }
    match port_of(words[2].as_str()) {
        Some(port) => Some(AuditAsked::Remove {
            host: words[1].as_str(),
            port,
            file: words[3].as_str(),
        }),
        None => None,
    }
}

/// The request of the arguments, if they have one of the three forms.
pub fn audit_asked<'a>(words: &'a [Text]) -> Option<AuditAsked<'a>>
    ensures some { IfSome result (λ asked. Asks words.now (asked_by asked)) }
    ensures none { IsNone result → (asked : Asked) → Asks words.now asked → ⊥ }
{
    match words.len() {
        2 => two_words(words),
        3 => three_words(words),
        4 => four_words(words),
        _ => None,
    }
}
