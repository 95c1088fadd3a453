//! The command-line arguments, and what each of them runs.

ghost use Rattle.std.specs.Prelude.{◌≡◌, ℕ, List, codes, ◌++◌, ◌∷◌, []};
ghost use Rattle.sshc_run_script.specs.RunOutside.{run_outside, sink_state, source_state};
ghost use Rattle.sshc_run_script.specs.Words.{IsScriptWords, ScriptGives};
ghost use Rattle.sshc_run.specs.GenWords.{IsGenWords, GenGives};
ghost use Rattle.sshc_hosts_words.specs.Adding.{Adds};
ghost use Rattle.sshc_hosts_words.specs.Asked.{Asked, Asks};
ghost use Rattle.sshc_hosts_words.specs.HostsWords.{outside, AskedGives};

use crate::gen_words::{gen_words, run_gen_words};
use crate::script_words::{run_script_words, script_words};
use sshc_hosts_words::{WORDS_STATUS, add_line, run_hosts_words};
use sshc_key::{LocalSigner, Verifier};
use sshc_wire::{Files, Sink, Source, Text};
use std::alloc::Global;

/// Runs arguments that aren't those of a script: those of known hosts, or invalid ones.
fn run_other_words<F: Files, K: Sink>(
    alloc: Global,
    words: &[Text],
    files: &mut F,
    sink: &mut K,
) -> u8
    ensures hosts { (asked : Asked) → Asks words.now asked → AskedGives asked
        (outside (F.contents files.old) (F.read_faults files.old) (F.append_faults files.old) (K.contents sink.old)
        (K.faults sink.old))
        (outside (F.contents files.new) (F.read_faults files.new) (F.append_faults files.new) (K.contents sink.new)
        (K.faults sink.new)) result }
    ensures other { ((asked : Asked) → Asks words.now asked → ⊥) → (F.contents files.new ≡ F.contents files.old)
        × Adds (codes "error words" ++ 10 ∷ []) 2 (K.contents sink.old) (K.contents sink.new) (K.faults sink.old)
        (K.faults sink.new) result }
{
    match run_hosts_words(alloc, words, files, sink) {
        Some(status) => status,
        None => add_line(sink, "error words\n", WORDS_STATUS),
    }
}

/// Runs the program by its command-line arguments, and returns its status: 0 if the run ended or known hosts answered,
/// 1 for an unknown key, 2 for invalid arguments, 3 for a known hosts file that isn't text or can't be read, 4 for one
/// that can't be added to, 5 for an argument KEY that can't be read, and 20 to 40 for the errors of a run in their
/// order.
pub fn run_words<F: Files, S: Source, K: Sink, G: LocalSigner, V: Verifier>(
    alloc: Global,
    words: &[Text],
    files: &mut F,
    signer: &mut G,
    verifier: &V,
    source: &mut S,
    sink: &mut K,
) -> u8
    // `script HOST PORT KNOWN`: the run with all its guarantees, and the line that reports its result.
    ensures script { (host : List ℕ) (port : ℕ) (path : List ℕ) → IsScriptWords words.now host port path →
        ScriptGives (V.accepts verifier.now) host port path (F.contents files.old)
        (run_outside
        (source_state (S.left source.old) (S.reads source.old) (S.empty_reads source.old) (S.faults source.old))
        (sink_state (K.contents sink.old) (K.writes sink.old) (K.empty_writes sink.old) (K.faults sink.old))
        (G.calls signer.old))
        (run_outside
        (source_state (S.left source.new) (S.reads source.new) (S.empty_reads source.new) (S.faults source.new))
        (sink_state (K.contents sink.new) (K.writes sink.new) (K.empty_writes sink.new) (K.faults sink.new))
        (G.calls signer.new))
        (F.read_faults files.old) (F.read_faults files.new) result }
    // The files are unchanged: no script adds to a known hosts file.
    ensures kept { (host : List ℕ) (port : ℕ) (path : List ℕ) → IsScriptWords words.now host port path
        → F.contents files.new ≡ F.contents files.old }
    // `gen SEED N`: the run of the generated script over memory, reported in a summary. The files are unchanged, and
    // nothing is read.
    ensures generated { (seed : ℕ) (count : ℕ) → IsGenWords words.now seed count
        → (S.left source.new ≡ S.left source.old) × (F.contents files.new ≡ F.contents files.old)
        × GenGives seed count (K.contents sink.old) (K.contents sink.new) (K.faults sink.old)
        (K.faults sink.new) result }
    // `hosts check`, `hosts keys` and `hosts learn`: the answer of known hosts, printed; nothing is read from the
    // source.
    ensures hosts { (asked : Asked) → Asks words.now asked → (S.left source.new ≡ S.left source.old) × AskedGives asked
        (outside (F.contents files.old) (F.read_faults files.old) (F.append_faults files.old) (K.contents sink.old)
        (K.faults sink.old))
        (outside (F.contents files.new) (F.read_faults files.new) (F.append_faults files.new) (K.contents sink.new)
        (K.faults sink.new)) result }
    // No arguments but those of a script read from the source or call the signer.
    ensures untouched { ((host : List ℕ) (port : ℕ) (path : List ℕ) → IsScriptWords words.now host port path → ⊥) →
        (S.left source.new ≡ S.left source.old) × (S.reads source.new ≡ S.reads source.old)
        × (G.calls signer.new ≡ G.calls signer.old) }
    // Other arguments: nothing is read, and the files are unchanged.
    ensures other { ((host : List ℕ) (port : ℕ) (path : List ℕ) → IsScriptWords words.now host port path → ⊥) →
        ((seed : ℕ) (count : ℕ) → IsGenWords words.now seed count → ⊥) → ((asked : Asked) → Asks words.now asked → ⊥) →
        (S.left source.new ≡ S.left source.old) × (F.contents files.new ≡ F.contents files.old)
        × Adds (codes "error words" ++ 10 ∷ []) 2 (K.contents sink.old) (K.contents sink.new) (K.faults sink.old)
        (K.faults sink.new) result }
{
    match script_words(words) {
        Some(asked) => run_script_words(alloc, &asked, files, signer, verifier, source, sink),
        None => match gen_words(words) {
            Some(asked) => run_gen_words(alloc, asked, sink),
            None => run_other_words(alloc, words, files, sink),
        },
    }
}
