//! Lines that the program writes to its sink, and the statuses if they are cut.

ghost use Rattle.std.specs.Prelude.{◌≤◌};
ghost use Rattle.sshc_hosts_words.specs.Adding.{Adds};

use sshc_wire::{Failed, Sink, write_whole};

/// The exit status for invalid command-line arguments.
pub const WORDS_STATUS: u8 = 2;

/// The exit status for a known hosts file that isn't UTF-8 text or can't be read.
pub const KNOWN_FILE_STATUS: u8 = 3;

/// The exit statuses of errors begin here, in the order of a run's errors.
pub const NO_MEMORY_STATUS: u8 = 20;

/// The exit status for a line that the sink refused.
pub const WRITE_FAULT_STATUS: u8 = 22;

/// Writes a line, and returns its status, or that of a failed write.
pub fn add_line<K: Sink>(sink: &mut K, line: &str, status: u8) -> u8
    ensures adds { Adds line.now status (K.contents sink.old) (K.contents sink.new) (K.faults sink.old)
        (K.faults sink.new) result }
    ensures later { K.faults sink.old ≤ K.faults sink.new }
{
    match write_whole(sink, line.as_bytes()) {
        Ok(()) => status,
        Err(Failed::Fault) => WRITE_FAULT_STATUS,
        Err(Failed::NoMemory) => NO_MEMORY_STATUS,
    }
}
