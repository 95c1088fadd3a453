//! The program `sshc_forward_main`: it passes standard input and output to `forward_words`.
#![tactic(auto)]

use sshc_forward_core::forward_words;
use sshc_wire::{NoMemory, StdSink, StdSource, Text};
use std::io::ErrorKind;
use std::process::ExitCode;
use std::{env, io};

/// The status if memory ran out.
const NO_MEMORY: u8 = 20;

/// The command-line arguments after the program's name; empty if one of them isn't text.
fn words_of(rt: &HostRuntime) -> Result<Vec<Text>, NoMemory> {
    let mut words = Vec::new(rt.alloc());
    let mut given = match env::args(rt) {
        Ok(given) => given,
        Err(error) => {
            return match error.kind() {
                ErrorKind::OutOfMemory => Err(NoMemory),
                _ => Ok(words),
            };
        }
    };
    let _program = given.next();
    for word in given {
        words.push(Text::from_string(word)?)?;
    }
    Ok(words)
}

fn run(rt: &HostRuntime) -> Result<u8, NoMemory> {
    let words = words_of(rt)?;
    let mut source = StdSource::new(rt.alloc(), rt.reader())?;
    let mut sink = StdSink::new(io::writer(rt));
    Ok(forward_words(rt.alloc(), words.as_slice(), &mut source, &mut sink))
}

fn main(rt: HostRuntime) -> ExitCode {
    match run(&rt) {
        Ok(status) => ExitCode::from(status),
        Err(NoMemory) => ExitCode::from(NO_MEMORY),
    }
}
