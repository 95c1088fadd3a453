//! Reasons for which a channel isn't opened (RFC 4254, section 5.1).

ghost use Rattle.std.specs.Prelude.{◌≡◌, ◌==◌, find};
ghost use Rattle.sshc_wire.specs.Reasons.{open_failure_code, open_failure_of, open_failure_description};

/// Why a channel isn't opened.
#[derive(Clone, Copy, Debug, PartialEq, Eq)]
pub enum ChannelOpenFailure {
    AdministrativelyProhibited = 1,
    ConnectFailed = 2,
    UnknownChannelType = 3,
    ResourceShortage = 4,
}

impl ChannelOpenFailure {
    /// The reasons in the order of their numbers.
    pub const ALL: [ChannelOpenFailure; 4] = [
        ChannelOpenFailure::AdministrativelyProhibited,
        ChannelOpenFailure::ConnectFailed,
        ChannelOpenFailure::UnknownChannelType,
        ChannelOpenFailure::ResourceShortage,
    ];

    /// The reason's number, 1 to 4.
    pub fn code(self) -> u32
        ensures { result ≡ open_failure_code self }
    {
        self as u32
    }

    /// The reason of this number; `None` outside 1 to 4.
    pub fn from_u32(code: u32) -> Option<ChannelOpenFailure>
        ensures { result ≡ open_failure_of code }
    {
        ChannelOpenFailure::ALL
            .iter()
            .copied()
            .find(|reason| reason.code() == code)
    }

    /// The text that is sent with the reason.
    pub fn description(self) -> &'static str
        ensures { result.now ≡ open_failure_description self }
    {
        match self {
            ChannelOpenFailure::AdministrativelyProhibited => "administratively prohibited",
            ChannelOpenFailure::ConnectFailed => "connect failed",
            ChannelOpenFailure::UnknownChannelType => "unknown channel type",
            ChannelOpenFailure::ResourceShortage => "resource shortage",
        }
    }
}
