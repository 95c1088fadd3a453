//! The arguments `script HOST PORT KNOWN`: a run of the script of the source, with its report.

ghost use Rattle.std.specs.Prelude.{◌≡◌, ℕ, List, IfSome, IsNone};
ghost use Rattle.sshc_run_script.specs.RunOutside.{run_outside, sink_state, source_state};
ghost use Rattle.sshc_run_script.specs.RunPromises.{run_asked};
ghost use Rattle.sshc_run_script.specs.Words.{IsScriptWords, RunsBy, TextGives, words_asked, ScriptGives};

use crate::told::tell;
use sshc_hosts_words::{KNOWN_FILE_STATUS, NO_MEMORY_STATUS, add_line, port_of};
use sshc_key::{LocalSigner, Verifier};
use sshc_run_script::{Config, run_script};
use sshc_wire::{Failed, Files, Found, NoMemory, Sink, Source, Text};
use std::alloc::Global;

/// The arguments `script HOST PORT KNOWN`.
#[derive(Clone, Copy)]
pub(crate) struct ScriptWords<'a> {
    pub host: &'a str,
    pub port: u16,
    pub path: &'a str,
}

/// The arguments, if they are `script HOST PORT KNOWN`.
pub(crate) fn script_words<'a>(words: &'a [Text]) -> Option<ScriptWords<'a>>
    ensures some { IfSome result (λ asked. IsScriptWords words.now asked.host.now asked.port asked.path.now) }
    ensures none { IsNone result → (host : List ℕ) (port : ℕ) (path : List ℕ) → IsScriptWords words.now host port path
        → ⊥ }
{
    if words.len() != 4 || words[0].as_str() != "script" {
        return None;
    }
    match port_of(words[2].as_str()) {
        Some(port) => Some(ScriptWords {
            host: words[1].as_str(),
            port,
            path: words[3].as_str(),
        }),
        None => None,
    }
}

/// Runs a script by these settings and a known hosts text, and prints the line of the result.
fn run_told<S: Source, K: Sink, G: LocalSigner, V: Verifier>(
    alloc: Global,
    config: &Config,
    asked: &ScriptWords<'_>,
    known: &str,
    signer: &mut G,
    verifier: &V,
    source: &mut S,
    sink: &mut K,
) -> u8
    ensures runs { RunsBy (run_asked asked.now.host.now asked.now.port known.now (V.accepts verifier.now) config.now)
        (run_outside
        (source_state (S.left source.old) (S.reads source.old) (S.empty_reads source.old) (S.faults source.old))
        (sink_state (K.contents sink.old) (K.writes sink.old) (K.empty_writes sink.old) (K.faults sink.old))
        (G.calls signer.old))
        (run_outside
        (source_state (S.left source.new) (S.reads source.new) (S.empty_reads source.new) (S.faults source.new))
        (sink_state (K.contents sink.new) (K.writes sink.new) (K.empty_writes sink.new) (K.faults sink.new))
        (G.calls signer.new))
        result }
{
    let answer = run_script(
        alloc, config, asked.host, asked.port, known, signer, verifier, source, sink,
    );
    tell(alloc, sink, &answer)
}

/// Runs a script by the default settings and a known hosts text, and prints the line of the result.
fn run_default<S: Source, K: Sink, G: LocalSigner, V: Verifier>(
    alloc: Global,
    asked: &ScriptWords<'_>,
    known: &str,
    signer: &mut G,
    verifier: &V,
    source: &mut S,
    sink: &mut K,
) -> u8
    ensures gives { TextGives (words_asked (V.accepts verifier.now) asked.now.host.now asked.now.port known.now)
        (run_outside
        (source_state (S.left source.old) (S.reads source.old) (S.empty_reads source.old) (S.faults source.old))
        (sink_state (K.contents sink.old) (K.writes sink.old) (K.empty_writes sink.old) (K.faults sink.old))
        (G.calls signer.old))
        (run_outside
        (source_state (S.left source.new) (S.reads source.new) (S.empty_reads source.new) (S.faults source.new))
        (sink_state (K.contents sink.new) (K.writes sink.new) (K.empty_writes sink.new) (K.faults sink.new))
        (G.calls signer.new))
        result }
{
    match Config::default_in(alloc) {
        Ok(config) => run_told(alloc, &config, asked, known, signer, verifier, source, sink),
        Err(NoMemory) => add_line(sink, "error no-memory\n", NO_MEMORY_STATUS),
    }
}

/// Runs the arguments `script HOST PORT KNOWN`: the script of the source, with the known hosts text of the file KNOWN,
/// which is empty if the file can't be opened.
pub(crate) fn run_script_words<F: Files, S: Source, K: Sink, G: LocalSigner, V: Verifier>(
    alloc: Global,
    asked: &ScriptWords<'_>,
    files: &mut F,
    signer: &mut G,
    verifier: &V,
    source: &mut S,
    sink: &mut K,
) -> u8
    ensures gives { ScriptGives (V.accepts verifier.now) asked.now.host.now asked.now.port asked.now.path.now
        (F.contents files.old)
        (run_outside
        (source_state (S.left source.old) (S.reads source.old) (S.empty_reads source.old) (S.faults source.old))
        (sink_state (K.contents sink.old) (K.writes sink.old) (K.empty_writes sink.old) (K.faults sink.old))
        (G.calls signer.old))
        (run_outside
        (source_state (S.left source.new) (S.reads source.new) (S.empty_reads source.new) (S.faults source.new))
        (sink_state (K.contents sink.new) (K.writes sink.new) (K.empty_writes sink.new) (K.faults sink.new))
        (G.calls signer.new))
        (F.read_faults files.old) (F.read_faults files.new) result }
    ensures kept { F.contents files.new ≡ F.contents files.old }
{
    match files.read_text(asked.path) {
        Ok(Found::Text(known)) => run_default(
            alloc,
            asked,
            known.as_str(),
            signer,
            verifier,
            source,
            sink,
        ),
        Ok(Found::NotOpened) => run_default(alloc, asked, "", signer, verifier, source, sink),
        Ok(Found::NotText) | Err(Failed::Fault) => add_line(
            sink,
            "error known-file\n",
            KNOWN_FILE_STATUS,
        ),
        Err(Failed::NoMemory) => add_line(sink, "error no-memory\n", NO_MEMORY_STATUS),
    }
}
