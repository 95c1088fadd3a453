//! Ports in command-line arguments.

ghost use Rattle.std.specs.Prelude.{ℕ, IfSome, IsNone};
ghost use Rattle.sshc_hosts_words.specs.Port.{IsPort};

/// The port in an argument of one to five decimal digits.
pub fn port_of(word: &str) -> Option<u16>
    ensures some { IfSome result (λ port. IsPort word.now port) }
    ensures none { IsNone result → (port : ℕ) → IsPort word.now port → ⊥ }
{
    if word.len() > 5 || word.starts_with('+') {
        return None;
    }
    match word.parse::<u16>() {
        Ok(port) => Some(port),
        Err(_) => None,
    }
}
