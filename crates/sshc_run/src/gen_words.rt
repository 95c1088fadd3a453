//! The arguments `gen SEED N`: a run of a generated script over memory, reported in a summary.

ghost use Rattle.std.specs.Prelude.{◌≡◌, ◌≤◌, ◌++◌, ℕ, IfOk, IfSome, IsNone, string_bytes};
ghost use Rattle.sshc_run.specs.Blocks.{generated};
ghost use Rattle.sshc_run_script.specs.Words.{answer_line, status_of};
ghost use Rattle.sshc_hosts_words.specs.Adding.{Adds};
ghost use Rattle.sshc_run.specs.GenWords.{IsSeed, IsBlockCount, IsGenWords, IsRunOf, GenGives, is_fault};
ghost use Rattle.sshc_run.specs.Summary.{summary_lines};

use crate::summary::{Summary, summary_lines, summary_of};
use crate::told::{answer_line, status_of};
use crate::{Generated, HOST, KNOWN, PORT, generate};
use sshc_auth::Ended;
use sshc_hosts_words::{NO_MEMORY_STATUS, add_line};
use sshc_run_script::{Config, RunError, ToySigner, ToyVerifier, run_script};
use sshc_wire::{MemSink, MemSource, NoMemory, Sink, Text};
use std::alloc::Global;

/// The command-line arguments `gen SEED N`.
#[derive(Clone, Copy)]
pub(crate) struct GenWords {
    pub seed: u64,
    pub count: u32,
}

/// The most blocks of a generated script.
const MOST_BLOCKS: u32 = 100_000;

/// The most events that its run takes.
const MOST_EVENTS: u32 = 300_000;

/// The seed in an argument.
fn seed_of(word: &str) -> Option<u64>
    ensures some { IfSome result (λ seed. IsSeed word.now seed) }
    ensures none { IsNone result → (seed : ℕ) → IsSeed word.now seed → ⊥ }
{
    if word.starts_with('+') {
        return None;
    }
    match word.parse::<u64>() {
        Ok(seed) => Some(seed),
        Err(_) => None,
    }
}

/// The number of blocks in an argument.
fn block_count_of(word: &str) -> Option<u32>
    ensures some { IfSome result (λ count. IsBlockCount word.now count) }
    ensures none { IsNone result → (count : ℕ) → IsBlockCount word.now count → ⊥ }
{
    if word.starts_with('+') {
        return None;
    }
    match word.parse::<u32>() {
        Ok(count) if 1 <= count && count <= MOST_BLOCKS => Some(count),
        _ => None,
    }
}

/// The arguments, if they are `gen SEED N`.
pub(crate) fn gen_words(words: &[Text]) -> Option<GenWords>
    ensures some { IfSome result (λ asked. IsGenWords words.now asked.seed asked.count) }
    ensures none { IsNone result → (seed : ℕ) (count : ℕ) → IsGenWords words.now seed count → ⊥ }
{
    if words.len() != 3 || words[0].as_str() != "gen" {
        return None;
    }
    match (
        seed_of(words[1].as_str()),
        block_count_of(words[2].as_str()),
    ) {
        (Some(seed), Some(count)) => Some(GenWords { seed, count }),
        _ => None,
    }
}

/// How a run of a generated script ended, and the summary of its record lines.
#[derive(Drop)]
struct GeneratedRun {
    events: u64,
    answer: Result<Ended, RunError>,
    summary: Summary,
}

/// Whether a read or a write of a run failed.
fn is_fault(answer: &Result<Ended, RunError>) -> bool
    ensures { result ≡ is_fault answer.now }
{
    matches!(answer, Err(RunError::ReadFault | RunError::WriteFault))
}

/// Runs a generated script over memory.
fn run_generated(alloc: Global, script: Generated) -> Result<GeneratedRun, NoMemory>
    ensures { IfOk result (λ run. IsRunOf script run.events run.summary run.answer) }
{
    let mut config = Config::default_in(alloc)?;
    config.max_events = MOST_EVENTS;
    let events = script.events();
    let mut source = MemSource::new(script.into_text(), Vec::new(alloc));
    let mut sink = MemSink::new(Vec::new(alloc), Vec::new(alloc));
    let mut signer = ToySigner::new(alloc);
    let verifier = ToyVerifier::new(alloc);
    let answer = run_script(
        alloc,
        &config,
        HOST,
        PORT,
        KNOWN,
        &mut signer,
        &verifier,
        &mut source,
        &mut sink,
    );
    // Memory fails only at the calls that it is set to fail at, of which there are none here.
    if is_fault(&answer) {
        return Err(NoMemory);
    }
    Ok(GeneratedRun {
        events,
        answer,
        summary: summary_of(sink.contents()),
    })
}

/// The run of the script that the arguments ask for.
fn run_asked(alloc: Global, asked: GenWords) -> Result<GeneratedRun, NoMemory>
    requires { asked.count ≤ 100000 }
    ensures { IfOk result (λ run. IsRunOf (generated asked.seed asked.count) run.events run.summary run.answer) }
{
    run_generated(alloc, generate(alloc, asked.seed, asked.count)?)
}

/// The lines that report a run.
fn run_lines(alloc: Global, run: &GeneratedRun) -> Result<String, NoMemory>
    ensures { IfOk result
        (λ text. string_bytes text ≡ summary_lines run.now.events run.now.summary ++ answer_line run.now.answer) }
{
    let mut lines = summary_lines(alloc, run.events, &run.summary)?;
    lines.push_str(answer_line(alloc, &run.answer)?.as_str())?;
    Ok(lines)
}

/// Reports a run, and returns its status.
fn tell_run<K: Sink>(alloc: Global, sink: &mut K, run: &GeneratedRun) -> u8
    ensures adds { Adds (summary_lines run.now.events run.now.summary ++ answer_line run.now.answer)
        (status_of run.now.answer)
        (K.contents sink.old) (K.contents sink.new) (K.faults sink.old) (K.faults sink.new) result }
{
    match run_lines(alloc, run) {
        Ok(lines) => add_line(sink, lines.as_str(), status_of(&run.answer)),
        Err(NoMemory) => NO_MEMORY_STATUS,
    }
}

/// Runs the arguments `gen SEED N`.
pub(crate) fn run_gen_words<K: Sink>(alloc: Global, asked: GenWords, sink: &mut K) -> u8
    requires { asked.count ≤ 100000 }
    ensures gives { GenGives asked.seed asked.count (K.contents sink.old) (K.contents sink.new) (K.faults sink.old)
        (K.faults sink.new) result }
{
    match run_asked(alloc, asked) {
        Ok(run) => tell_run(alloc, sink, &run),
        Err(NoMemory) => add_line(sink, "error no-memory\n", NO_MEMORY_STATUS),
    }
}
