//! Command-line arguments.

use sshc_hosts_words::run_hosts_words;
use sshc_wire::{Files, Sink, Text};
use std::alloc::Global;

/// Does what the arguments `hosts check HOST PORT KNOWN KEY`, `hosts keys ..` or `hosts learn ..` ask, and returns the
/// exit status; 2 for other arguments.
pub fn hosts_status<F: Files, K: Sink>(
    alloc: Global,
    words: &[Text],
    files: &mut F,
    sink: &mut K,
) -> u8 {
    match run_hosts_words(alloc, words, files, sink) {
        Some(status) => status,
        None => 2,
    }
}
