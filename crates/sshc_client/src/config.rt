//! The configuration of a session.

ghost use Rattle.std.specs.Prelude.{◌≡◌, IfOk};
ghost use Rattle.sshc_client.specs.Configured.{IsDefault, session_settings_of, settings_of};

use sshc_auth::Settings;
use sshc_client_table::SessionSettings;
use sshc_wire::{NoMemory, Octets, Text};
use std::alloc::Global;

/// The settings of a session. Times are milliseconds.
#[derive(Drop)]
pub struct Config {
    /// The text of our version line, which the transport uses (RFC 4253, section 4.2).
    pub client_id: Text,
    /// How many bytes a channel's peer may send at first (RFC 4254, section 5.1).
    pub window_size: u32,
    /// The most bytes of a channel's packet (RFC 4254, section 5.1).
    pub maximum_packet_size: u32,
    /// How many messages a channel is to hold for its user. Nothing here reads it: it is for whoever makes the
    /// transport.
    pub channel_buffer_size: usize,
    pub inactivity_timeout: Option<u64>,
    pub keepalive_interval: Option<u64>,
    /// How many keepalives may stay unanswered; 0 sets no bound.
    pub keepalive_max: u64,
    /// No user is authenticated: the first exchange opens the session.
    pub anonymous: bool,
    pub nodelay: bool,
    /// The most events of a script.
    pub max_events: u32,
    /// Whether the agent asks before it serves a connection.
    pub agent_asks: bool,
}

impl Config {
    /// The default settings of a client.
    pub fn default_in(alloc: Global) -> Result<Config, NoMemory>
        ensures { IfOk result IsDefault }
    {
        Ok(Config {
            client_id: Text::from_str(alloc, "SSH-2.0-russh_0.65.1")?,
            window_size: 2_097_152,
            maximum_packet_size: 32768,
            channel_buffer_size: 100,
            inactivity_timeout: None,
            keepalive_interval: None,
            keepalive_max: 3,
            anonymous: false,
            nodelay: false,
            max_events: 8192,
            agent_asks: false,
        })
    }

    /// The settings that an open session keeps, with the server's identification string.
    pub fn session_settings(&self, remote_sshid: Octets) -> SessionSettings
        ensures { result ≡ session_settings_of self.now remote_sshid }
    {
        SessionSettings {
            max_packet_size: self.maximum_packet_size,
            keepalive_interval: self.keepalive_interval,
            keepalive_max: self.keepalive_max,
            remote_sshid,
        }
    }

    /// The settings that the opening keeps.
    pub fn opening_settings(&self) -> Settings
        ensures { result ≡ settings_of self.now }
    {
        Settings {
            window_size: self.window_size,
            anonymous: self.anonymous,
            inactivity: self.inactivity_timeout.is_some(),
        }
    }
}
