//! Patterns of host names (OpenSSH's ssh_config(5), "PATTERNS").

ghost use Rattle.std.specs.Prelude.{◌≡◌};
ghost use Rattle.sshc_hosts_openssh.specs.Patterns.{fits, matches};
ghost use Rattle.sshc_hosts_openssh.specs.PatternSteps.{front, seek, stop_seen, IsShorter};

/// How far a pattern goes at the beginning of a name.
#[derive(Clone, Copy)]
enum Reach<'a> {
    /// A byte of the name doesn't fit, or one is missing.
    Fails,
    /// The pattern ends where the name does.
    Ends,
    /// A `*` is met: what follows it in the pattern, and what is left of the name.
    Star { pattern: &'a [u8], name: &'a [u8] },
}

/// Whether a byte of a pattern that isn't `*` fits a byte of a name in lower case.
fn fits(p: u8, c: u8) -> bool
    ensures { result ≡ fits p c }
{
    p == b'?' || p.to_ascii_lowercase() == c
}

/// How far the pattern goes at the beginning of the name.
fn front<'a>(pattern: &'a [u8], name: &'a [u8]) -> Reach<'a>
    ensures stop { stop_seen result ≡ front pattern.now name.now }
    ensures shorter { IsShorter (stop_seen result) pattern.now }
{
    let mut pattern_left = pattern;
    let mut name_left = name;
    'bytes: loop {
        match (pattern_left.split_first(), name_left.split_first()) {
            (None, None) => return Reach::Ends,
            (None, Some(_)) => return Reach::Fails,
            (Some((b'*', later)), _) => {
                return Reach::Star {
                    pattern: later,
                    name: name_left,
                };
            }
            (Some(_), None) => return Reach::Fails,
            (Some((p, later)), Some((c, rest))) => {
                if !fits(*p, *c) {
                    return Reach::Fails;
                }
                pattern_left = later;
                name_left = rest;
            }
        }
    }
}

/// How far the pattern goes at the first ending of the name where it doesn't fail.
fn seek<'a>(pattern: &'a [u8], name: &'a [u8]) -> Reach<'a>
    ensures stop { stop_seen result ≡ seek pattern.now name.now }
    ensures shorter { IsShorter (stop_seen result) pattern.now }
{
    let mut left = name;
    'places: loop {
        match (front(pattern, left), left.split_first()) {
            (Reach::Fails, Some((_, rest))) => left = rest,
            (stop, _) => return stop,
        }
    }
}

/// Whether the pattern matches the whole of a name in lower case: `*` stands for any number of bytes, `?` for one, and
/// a letter for itself in either case.
#[tactic(auto, using(crate::proofs::PatternLemmas::matching_begun))]
pub fn matches_pattern(pattern: &[u8], name: &[u8]) -> bool
    ensures { result ≡ matches pattern.now name.now }
{
    let mut stop = front(pattern, name);
    'stars: loop {
        match stop {
            Reach::Fails => return false,
            Reach::Ends => return true,
            Reach::Star {
                pattern: later,
                name: rest,
            } => stop = seek(later, rest),
        }
    }
}
