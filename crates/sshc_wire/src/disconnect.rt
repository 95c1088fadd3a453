//! Reasons of a disconnection (RFC 4253, section 11.1).

ghost use Rattle.std.specs.Prelude.{◌≡◌, ◌==◌, find};
ghost use Rattle.sshc_wire.specs.Reasons.{disconnect_code, disconnect_of};

/// Why a connection ends.
#[derive(Clone, Copy, Debug, PartialEq, Eq)]
pub enum Disconnect {
    HostNotAllowedToConnect = 1,
    ProtocolError = 2,
    KeyExchangeFailed = 3,
    Reserved = 4,
    MACError = 5,
    CompressionError = 6,
    ServiceNotAvailable = 7,
    ProtocolVersionNotSupported = 8,
    HostKeyNotVerifiable = 9,
    ConnectionLost = 10,
    ByApplication = 11,
    TooManyConnections = 12,
    AuthCancelledByUser = 13,
    NoMoreAuthMethodsAvailable = 14,
    IllegalUserName = 15,
}

impl Disconnect {
    /// The reasons in the order of their numbers.
    pub const ALL: [Disconnect; 15] = [
        Disconnect::HostNotAllowedToConnect,
        Disconnect::ProtocolError,
        Disconnect::KeyExchangeFailed,
        Disconnect::Reserved,
        Disconnect::MACError,
        Disconnect::CompressionError,
        Disconnect::ServiceNotAvailable,
        Disconnect::ProtocolVersionNotSupported,
        Disconnect::HostKeyNotVerifiable,
        Disconnect::ConnectionLost,
        Disconnect::ByApplication,
        Disconnect::TooManyConnections,
        Disconnect::AuthCancelledByUser,
        Disconnect::NoMoreAuthMethodsAvailable,
        Disconnect::IllegalUserName,
    ];

    /// The reason's number, 1 to 15.
    pub fn code(self) -> u32
        ensures { result ≡ disconnect_code self }
    {
        self as u32
    }

    /// The reason of this number; `None` outside 1 to 15.
    pub fn from_u32(code: u32) -> Option<Disconnect>
        ensures { result ≡ disconnect_of code }
    {
        Disconnect::ALL
            .iter()
            .copied()
            .find(|reason| reason.code() == code)
    }
}
