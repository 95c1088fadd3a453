//! What a user asks of a channel, by its number in an event.

ghost use Rattle.std.specs.Prelude.{◌≡◌};
ghost use Rattle.sshc_run_reader.specs.ChannelSorts.{channel_sort_numbered};

/// What a user asks of a channel, by its number in an event.
#[derive(Clone, Copy, PartialEq, Eq)]
pub enum ChannelSort {
    Data,
    ExtendedData,
    Eof,
    Close,
    RequestPty,
    WindowChange,
    RequestX11,
    SetEnv,
    RequestShell,
    Exec,
    Signal,
    RequestSubsystem,
    AgentForward,
}

impl ChannelSort {
    /// The sort with this number; `None` for any other number.
    pub fn from_u8(number: u8) -> Option<ChannelSort>
        ensures { result ≡ channel_sort_numbered number }
    {
        match number {
            0 => Some(ChannelSort::Data),
            1 => Some(ChannelSort::ExtendedData),
            2 => Some(ChannelSort::Eof),
            3 => Some(ChannelSort::Close),
            4 => Some(ChannelSort::RequestPty),
            5 => Some(ChannelSort::WindowChange),
            6 => Some(ChannelSort::RequestX11),
            7 => Some(ChannelSort::SetEnv),
            8 => Some(ChannelSort::RequestShell),
            9 => Some(ChannelSort::Exec),
            10 => Some(ChannelSort::Signal),
            11 => Some(ChannelSort::RequestSubsystem),
            12 => Some(ChannelSort::AgentForward),
            _ => None,
        }
    }
}
