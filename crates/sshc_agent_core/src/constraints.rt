//! The constraints under which a key is held (draft-miller-ssh-agent, section 3.2.7).

/// How long a key is held, and whether each use is confirmed.
#[derive(Clone, Copy, PartialEq, Eq)]
pub struct Constraints {
    /// In seconds; `None` if the key doesn't expire.
    pub lifetime: Option<u32>,
    /// The user is asked before each use.
    pub confirm: bool,
}
