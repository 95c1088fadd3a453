//! The program `sshc`: it passes real streams, files, a signer and a verifier to `run_words`, and the arguments of an
//! agent to `serve_words`.
#![tactic(auto)]

use sshc_run::{ToySigner, ToyVerifier, run_words, serve_words};
use sshc_wire::{NoMemory, StdFiles, StdSink, StdSource, Text};
use std::alloc::Global;
use std::io::ErrorKind;
use std::process::ExitCode;
use std::{env, io};

/// The status for out of memory.
const NO_MEMORY: u8 = 20;

/// The arguments after the program's own name; no arguments if one of them isn't text.
fn words_of(rt: &HostRuntime) -> Result<Vec<Text>, NoMemory> {
    let mut words = Vec::new(rt.alloc());
    let mut given = match env::args(rt) {
        Ok(given) => given,
        Err(error) => {
            return match error.kind() {
                ErrorKind::OutOfMemory => Err(NoMemory),
                _ => Ok(words),
            };
        }
    };
    let _program = given.next();
    for word in given {
        words.push(Text::from_string(word)?)?;
    }
    Ok(words)
}

/// Whether the arguments are `agent` and a path.
fn is_agent(words: &[Text]) -> bool {
    match words {
        [agent, _socket] => agent.as_str() == "agent",
        _ => false,
    }
}

fn run(rt: &HostRuntime, words: &[Text]) -> Result<u8, NoMemory> {
    let alloc: Global = rt.alloc();
    let mut source = StdSource::new(alloc, rt.reader())?;
    let mut sink = StdSink::new(io::writer(rt));
    let mut files = StdFiles::new(rt);
    let mut signer = ToySigner::new(alloc);
    Ok(run_words(
        alloc,
        words,
        &mut files,
        &mut signer,
        &ToyVerifier::new(alloc),
        &mut source,
        &mut sink,
    ))
}

fn main(rt: HostRuntime) -> ExitCode {
    let Ok(words) = words_of(&rt) else {
        return ExitCode::from(NO_MEMORY);
    };
    if is_agent(words.as_slice()) {
        return ExitCode::from(serve_words(&rt, rt.alloc(), words.as_slice()));
    }
    match run(&rt, words.as_slice()) {
        Ok(status) => ExitCode::from(status),
        Err(NoMemory) => ExitCode::from(NO_MEMORY),
    }
}
