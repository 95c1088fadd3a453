//! The program's arguments that need no script: known hosts are checked, listed and learned.
#![tactic(auto)]

mod adding;
mod asked;
mod hosts_words;
mod key_lines;
mod port;
mod told;

pub use adding::{KNOWN_FILE_STATUS, NO_MEMORY_STATUS, WORDS_STATUS, WRITE_FAULT_STATUS, add_line};
pub use hosts_words::run_hosts_words;
pub use port::port_of;
