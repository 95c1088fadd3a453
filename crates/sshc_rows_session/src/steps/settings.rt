//! The settings of a row's session.

use sshc_client::{SessionSettings, Settings};
use sshc_wire::Octets;
use std::alloc::Global;

/// The settings of a session and of its opening.
#[derive(Drop)]
pub struct RowSettings {
    pub session: SessionSettings,
    pub opening: Settings,
}

impl RowSettings {
    /// The default settings of a client, except that no user is authenticated.
    fn usual(alloc: Global) -> RowSettings {
        RowSettings {
            session: SessionSettings {
                max_packet_size: 32768,
                keepalive_interval: None,
                keepalive_max: 3,
                remote_sshid: Octets::new(alloc),
            },
            opening: Settings {
                window_size: 2_097_152,
                anonymous: true,
                inactivity: false,
            },
        }
    }

    /// Sets what a word states: `window=N`, `packet=N`, `keepalive=N` (the interval), `keepalives=N` (how many),
    /// `inactivity`, or `user` for an authenticated user.
    fn set(mut self, word: &str) -> RowSettings {
        let (name, value) = word.split_once('=').unwrap_or((word, ""));
        let number = value.parse::<u32>().unwrap_or(0);
        match name {
            "window" => self.opening.window_size = number,
            "packet" => self.session.max_packet_size = number,
            "keepalive" => self.session.keepalive_interval = Some(u64::from(number)),
            "keepalives" => self.session.keepalive_max = u64::from(number),
            "inactivity" => self.opening.inactivity = true,
            "user" => self.opening.anonymous = false,
            _ => {}
        }
        self
    }

    /// The settings by the words of a line.
    pub fn of(alloc: Global, line: &str) -> RowSettings {
        let mut settings = RowSettings::usual(alloc);
        for word in line.split_whitespace() {
            settings = settings.set(word);
        }
        settings
    }
}
