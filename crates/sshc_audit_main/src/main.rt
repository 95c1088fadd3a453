//! The program `sshc_audit_main`: it passes real files and standard output to `audit_words`.
#![tactic(auto)]

use sshc_audit::audit_words;
use sshc_wire::{NoMemory, StdFiles, StdSink, Text};
use std::io::ErrorKind;
use std::process::ExitCode;
use std::{env, io};

/// The status if memory ran out.
const NO_MEMORY: u8 = 20;

/// The command-line arguments after the program's name; empty if one of them isn't text.
fn words_of(rt: &HostRuntime) -> Result<Vec<Text>, NoMemory> {
    let mut words = Vec::new(rt.alloc());
    let mut given = match env::args(rt) {
        Ok(given) => given,
        Err(error) => {
            return match error.kind() {
                ErrorKind::OutOfMemory => Err(NoMemory),
                _ => Ok(words),
            };
        }
    };
    let _program = given.next();
    for word in given {
        words.push(Text::from_string(word)?)?;
    }
    Ok(words)
}

fn run(rt: &HostRuntime) -> Result<u8, NoMemory> {
    let words = words_of(rt)?;
    let mut sink = StdSink::new(io::writer(rt));
    let mut files = StdFiles::new(rt);
    Ok(audit_words(rt.alloc(), words.as_slice(), &mut files, &mut sink))
}

fn main(rt: HostRuntime) -> ExitCode {
    match run(&rt) {
        Ok(status) => ExitCode::from(status),
        Err(NoMemory) => ExitCode::from(NO_MEMORY),
    }
}
