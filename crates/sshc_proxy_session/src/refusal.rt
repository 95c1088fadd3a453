//! Why a request is answered with FAILURE.

/// Why a request is answered with FAILURE.
#[derive(Clone, Copy, Debug, PartialEq, Eq)]
pub enum Refusal {
    /// An empty message, or a request to sign whose fields aren't a key, bytes and flags.
    Malformed,
    /// A message or an extension that isn't passed on.
    NotSupported,
    /// A request to sign before any session is bound.
    NothingBound,
    /// The session that was bound last forwards the agent: nobody logs in with it.
    Forwarding,
    /// The bytes are no login by public key.
    NoLogin,
    /// The login is by another key than the one that is to sign.
    OtherKey,
    /// The login is of another session than the one that was bound last.
    OtherSession,
    /// The login names another host key than the last session's; or it names none, after a session that forwards.
    OtherHost,
    /// The policy doesn't name the key for this user, host and way.
    NotAllowed,
    /// A binding after one in which the user logs in.
    LoggedIn,
    /// The session is bound already.
    SameSession,
    /// A binding after sixteen.
    TooMany,
    /// The binding's host key isn't one plain key, or its signature isn't that key's over the session's identifier.
    NotSigned,
    /// The agent refused, or its answer isn't what was asked for.
    AgentRefused,
}

impl Refusal {
    /// Its name, for a line of a log.
    pub fn name(self) -> &'static str {
        match self {
            Refusal::Malformed => "malformed",
            Refusal::NotSupported => "not-supported",
            Refusal::NothingBound => "nothing-bound",
            Refusal::Forwarding => "forwarding",
            Refusal::NoLogin => "no-login",
            Refusal::OtherKey => "other-key",
            Refusal::OtherSession => "other-session",
            Refusal::OtherHost => "other-host",
            Refusal::NotAllowed => "not-allowed",
            Refusal::LoggedIn => "logged-in",
            Refusal::SameSession => "same-session",
            Refusal::TooMany => "too-many",
            Refusal::NotSigned => "not-signed",
            Refusal::AgentRefused => "agent-refused",
        }
    }
}
