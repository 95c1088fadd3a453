//! Cutting a text at a character.

ghost use Rattle.std.specs.Prelude.{◌≡◌, ◌<◌, ◌==◌, length, position, IfNone, IfSome, [], ◌∷◌};
ghost use Rattle.sshc_hosts.specs.MatchingLines.{parts_at};

use memchr::memchr;

/// The index of the first such byte.
#[tactic(auto, using(crate::proofs::Places::first_place))]
fn first_of(text: &str, at: u8) -> Option<usize>
    ensures { result ≡ position (λ b. b == at) text.now }
{
    memchr(at, text.as_bytes())
}

/// The part before the first such ASCII character, and the text after that character, if there is one.
pub fn cut(text: &str, at: u8) -> (&str, Option<&str>)
    requires { at < 128 }
    ensures none { IfNone result.1 (parts_at at text.now ≡ result.0.now ∷ []) }
    ensures some { IfSome result.1 (λ rest. parts_at at text.now ≡ result.0.now ∷ parts_at at rest.now) }
    ensures shorter { IfSome result.1 (λ rest. length rest.now < length text.now) }
{
    match first_of(text, at) {
        None => (text, None),
        Some(i) => (&text[..i], Some(&text[i + 1..])),
    }
}
