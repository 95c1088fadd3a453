//! The command-line arguments of the program: there are none.

ghost use Rattle.std.specs.Prelude.{◌≡◌, []};
ghost use Rattle.sshc_forward_core.specs.ForwardPromises.{outside, source_state, sink_state};
ghost use Rattle.sshc_forward_core.specs.ForwardWords.{RunsBy, RefusesWords};

use crate::run::run_forward;
use crate::telling::{add_line, tell};
use sshc_wire::{Sink, Source, Text};
use std::alloc::Global;

/// The status if there are arguments.
const WORDS_STATUS: u8 = 2;

/// Runs the events of the source and prints the result.
fn run_told<S: Source, K: Sink>(alloc: Global, source: &mut S, sink: &mut K) -> u8
    ensures { RunsBy
        (outside (source_state (S.left source.old) (S.faults source.old))
        (sink_state (K.contents sink.old) (K.faults sink.old)))
        (outside (source_state (S.left source.new) (S.faults source.new))
        (sink_state (K.contents sink.new) (K.faults sink.new)))
        result }
{
    let answer = run_forward(alloc, source, sink);
    tell(alloc, sink, answer)
}

/// Without arguments, runs the events of the source (`run_forward`), and prints `left N` with the number of pairs that
/// are left, or `error NAME`, after the lines of what is to be done. Returns the status: 0, 20 for `no-memory`, 21 for
/// `read-fault`, 22 for a failed write, after which nothing is printed, 24 for `bad-event AT`, 44 for `taken AT`. With
/// arguments it prints `error words` and returns 2. If the write of the last line fails the status is 22, or 20 if
/// memory ran out for it.
pub fn forward_words<S: Source, K: Sink>(
    alloc: Global,
    words: &[Text],
    source: &mut S,
    sink: &mut K,
) -> u8
    ensures runs { words.now ≡ [] → RunsBy
        (outside (source_state (S.left source.old) (S.faults source.old))
        (sink_state (K.contents sink.old) (K.faults sink.old)))
        (outside (source_state (S.left source.new) (S.faults source.new))
        (sink_state (K.contents sink.new) (K.faults sink.new)))
        result }
    ensures refuses { (words.now ≡ [] → ⊥) → RefusesWords
        (outside (source_state (S.left source.old) (S.faults source.old))
        (sink_state (K.contents sink.old) (K.faults sink.old)))
        (outside (source_state (S.left source.new) (S.faults source.new))
        (sink_state (K.contents sink.new) (K.faults sink.new)))
        result }
    ensures words { result ≡ 2 → words.now ≡ [] → ⊥ }
{
    if words.is_empty() {
        run_told(alloc, source, sink)
    } else {
        add_line(sink, "error words\n", WORDS_STATUS)
    }
}
