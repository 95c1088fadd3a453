//! The names of signatures that a server's list may have (RFC 8308, section 3.1; RFC 8332, section 3).

ghost use Rattle.std.specs.Prelude.{◌≡◌, bytes_eq, is_some};
ghost use Rattle.std.specs.List.{list_all, list_any};
ghost use Rattle.sshc_key.specs.AlgorithmNames.{is_name_byte, known_stemmed, is_taken, is_side, is_marked, is_opaque};
ghost use Rattle.sshc_key.specs.AlgorithmNames.{is_opaque_name};
ghost use Rattle.sshc_auth.specs.SignatureNames.{is_signature_name, signature_names};

/// The most bytes of a name with a domain.
const LONGEST: usize = 64;

#[tactic(auto, unfolding(sshc_key::specs::AlgorithmNames::is_name_byte))]
fn is_name_char(byte: u8) -> bool
    ensures { result ≡ is_name_byte byte }
{
    33 <= byte && byte <= 126 && byte != b',' && byte != b'@'
}

fn are_name_chars(bytes: &[u8]) -> bool
    ensures { result ≡ list_all is_name_byte bytes.now }
{
    bytes.iter().all(|byte| is_name_char(*byte))
}

/// Whether these bytes may be one side of the `@`.
#[tactic(auto, unfolding(sshc_key::specs::AlgorithmNames::is_side))]
fn is_name_side(bytes: &[u8]) -> bool
    ensures { result ≡ is_side bytes.now }
{
    !bytes.is_empty() && are_name_chars(bytes)
}

/// Whether this is how the name of a known algorithm begins, before its domain.
#[tactic(auto, unfolding(sshc_key::specs::AlgorithmNames::known_stemmed))]
fn is_stem(front: &[u8]) -> bool
    ensures { result ≡ is_some (known_stemmed front.now) }
{
    "ssh-dss".as_bytes() == front
        || "ecdsa-sha2-nistp256".as_bytes() == front
        || "ecdsa-sha2-nistp384".as_bytes() == front
        || "ecdsa-sha2-nistp521".as_bytes() == front
        || "ssh-ed25519".as_bytes() == front
        || "ssh-rsa".as_bytes() == front
        || "sk-ecdsa-sha2-nistp256".as_bytes() == front
        || "sk-ssh-ed25519".as_bytes() == front
}

/// Whether this is the name of a known algorithm followed by OpenSSH's domain.
#[tactic(auto, unfolding(sshc_key::specs::AlgorithmNames::is_taken))]
fn is_taken_name(front: &[u8], domain: &[u8]) -> bool
    ensures { result ≡ is_taken (record { front = front.now; domain = domain.now }) }
{
    domain == b"openssh.com".as_slice() && is_stem(front)
}

#[tactic(auto, unfolding(sshc_key::specs::AlgorithmNames::is_marked))]
fn ends_marked(front: &[u8]) -> bool
    ensures { result ≡ is_marked front.now }
{
    front.ends_with(b"-cert-v01")
}

/// Whether these are the two sides of the name of an algorithm that isn't in any table.
#[tactic(auto, unfolding(sshc_key::specs::AlgorithmNames::is_opaque))]
fn is_opaque_pair(front: &[u8], domain: &[u8]) -> bool
    ensures { result ≡ is_opaque (record { front = front.now; domain = domain.now }) }
{
    is_name_side(front)
        && is_name_side(domain)
        && front.len() + 1 + domain.len() <= LONGEST
        && !is_taken_name(front, domain)
        && !ends_marked(front)
}

#[tactic(auto, unfolding(sshc_key::specs::AlgorithmNames::parted))]
fn is_opaque_name(name: &str) -> bool
    ensures { result ≡ is_opaque_name name.now }
{
    match name.split_once('@') {
        Some((front, domain)) => is_opaque_pair(front.as_bytes(), domain.as_bytes()),
        None => false,
    }
}

/// Whether the name is in the table.
fn is_listed(name: &str) -> bool
    ensures { result ≡ list_any (λ known. bytes_eq known name.now) signature_names }
{
    "ssh-dss" == name
        || "ecdsa-sha2-nistp256" == name
        || "ecdsa-sha2-nistp384" == name
        || "ecdsa-sha2-nistp521" == name
        || "ssh-ed25519" == name
        || "ssh-rsa" == name
        || "sk-ecdsa-sha2-nistp256@openssh.com" == name
        || "sk-ssh-ed25519@openssh.com" == name
        || "rsa-sha2-256" == name
        || "rsa-sha2-512" == name
}

/// Whether it names a known algorithm, RSA's with a hash among them, or has a domain. A certificate's name doesn't
/// count.
#[tactic(auto, unfolding(crate::specs::SignatureNames::is_signature_name))]
pub fn is_signature_name(name: &str) -> bool
    ensures { result ≡ is_signature_name name.now }
{
    is_listed(name) || is_opaque_name(name)
}
