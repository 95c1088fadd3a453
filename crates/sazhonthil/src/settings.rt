//! The settings of a session, as a caller in C hands them in.

ghost use Rattle.std.specs.Prelude.{◌≡◌, IfOk};
ghost use Rattle.sazhonthil.specs.SettingsKept.{Keeps, interval_of, is_yes};

use sshc_client::Config;
use sshc_wire::NoMemory;
use std::alloc::Global;

/// Sizes are bytes, times milliseconds.
#[repr(C)]
#[derive(Drop, Clone, Copy)]
pub struct Settings {
    /// 0: no keepalives.
    pub keepalive_interval: u64,
    /// How many keepalives may stay unanswered; 0 sets no bound.
    pub keepalive_max: u64,
    /// 0: no limit.
    pub inactivity_timeout: u64,
    /// How many bytes a channel's peer may send at first.
    pub window_size: u32,
    /// The most bytes of a channel's packet.
    pub maximum_packet_size: u32,
    /// The most events that a session takes.
    pub max_events: u32,
    /// Not 0: no user is authenticated, and the first exchange opens the session.
    pub anonymous: u32,
}

/// The settings of `sshc script`, but for the most events.
#[unsafe(no_mangle)]
pub extern "C" fn sshc_settings_default(settings: &mut Settings)
    ensures { settings.new ≡ record {
      keepalive_interval = 0;
      keepalive_max = 3;
      inactivity_timeout = 0;
      window_size = 2097152;
      maximum_packet_size = 32768;
      max_events = 4294967295;
      anonymous = 0;
    } }
{
    *settings = Settings {
        keepalive_interval: 0,
        keepalive_max: 3,
        inactivity_timeout: 0,
        window_size: 2_097_152,
        maximum_packet_size: 32768,
        max_events: u32::MAX,
        anonymous: 0,
    };
}

fn interval_of(milliseconds: u64) -> Option<u64>
    ensures { result ≡ interval_of milliseconds }
{
    match milliseconds {
        0 => None,
        _ => Some(milliseconds),
    }
}

fn is_yes(number: u32) -> bool
    ensures { result ≡ is_yes number }
{
    number != 0
}

/// The configuration of a run with these settings.
pub fn config_of(alloc: Global, settings: &Settings) -> Result<Config, NoMemory>
    ensures { IfOk result (λ config. Keeps settings.now config) }
{
    let mut config = Config::default_in(alloc)?;
    config.window_size = settings.window_size;
    config.maximum_packet_size = settings.maximum_packet_size;
    config.inactivity_timeout = interval_of(settings.inactivity_timeout);
    config.keepalive_interval = interval_of(settings.keepalive_interval);
    config.keepalive_max = settings.keepalive_max;
    config.anonymous = is_yes(settings.anonymous);
    config.max_events = settings.max_events;
    Ok(config)
}
