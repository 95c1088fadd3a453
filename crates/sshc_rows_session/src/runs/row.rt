//! A row: a script, its known hosts text, and its expected outcome.

use crate::files::{first_word, put_line};
use crate::parts::bytes_of;
use sshc_run::run_words;
use sshc_toy::{ToySigner, ToyVerifier};
use sshc_wire::{
    MemFiles, MemSink, MemSource, NoMemory, Octets, PieceSink, PieceSource, Text, put_bytes,
    put_u64,
};
use std::alloc::Global;

/// A script and its expected outcome.
#[derive(Drop)]
struct Row {
    known: String,
    script: Vec<u8>,
    /// The text that is expected.
    wanted: String,
    status: u8,
}

impl Row {
    /// A row without events.
    fn new(alloc: Global) -> Row {
        Row {
            known: String::new(alloc),
            script: Vec::new(alloc),
            wanted: String::new(alloc),
            status: 0,
        }
    }

    /// Adds what the lines contain.
    fn lines(&mut self, alloc: Global, lines: &str) -> Result<(), NoMemory> {
        for line in lines.lines() {
            let (command, rest) = first_word(line);
            self.line(alloc, command, rest)?;
        }
        Ok(())
    }

    /// Adds what a line contains: `known` a line of the known hosts text, `event` an event at moment 0 by its kind and
    /// fields, `at` one at the moment that comes first, `bytes` bytes of the script, `record` an expected line,
    /// `answer` the expected last line, `status` the program's expected status.
    fn line(&mut self, alloc: Global, command: &str, rest: &str) -> Result<(), NoMemory> {
        match command {
            "known" => put_line(&mut self.known, rest),
            "event" => self.event(alloc, 0, rest),
            "at" => {
                let (moment, event) = first_word(rest);
                self.event(alloc, moment.parse::<u64>().unwrap_or(0), event)
            }
            "bytes" => self.bytes(alloc, rest),
            "record" => self.record(alloc, rest),
            "answer" => put_line(&mut self.wanted, rest),
            "status" => {
                self.status = rest.parse::<u8>().unwrap_or(u8::MAX);
                Ok(())
            }
            _ => Ok(()),
        }
    }

    fn bytes(&mut self, alloc: Global, rest: &str) -> Result<(), NoMemory> {
        let bytes = bytes_of(alloc, rest)?;
        Ok(self.script.extend_from_slice(&bytes)?)
    }

    fn event(&mut self, alloc: Global, moment: u64, rest: &str) -> Result<(), NoMemory> {
        let mut event = Vec::new(alloc);
        put_u64(&mut event, moment)?;
        event.extend_from_slice(&bytes_of(alloc, rest)?)?;
        let event = Octets::from_vec(event)?;
        put_bytes(&mut self.script, event.as_slice())
    }

    fn record(&mut self, alloc: Global, rest: &str) -> Result<(), NoMemory> {
        let digits = hex::encode(alloc, &bytes_of(alloc, rest)?)?;
        put_line(&mut self.wanted, &digits)
    }

    /// Whether the outcome is the expected one.
    fn is_right(&self, status: u8, written: &[u8]) -> bool {
        status == self.status && written == self.wanted.as_bytes()
    }
}

/// The program's command-line arguments.
fn words(alloc: Global) -> Result<Vec<Text>, NoMemory> {
    let mut words = Vec::new(alloc);
    for word in ["script", "localhost", "13265", "known"] {
        words.push(Text::from_str(alloc, word)?)?;
    }
    Ok(words)
}

/// The one file, with the row's known hosts text.
fn files_of(alloc: Global, row: &Row) -> Result<MemFiles, NoMemory> {
    let name = Text::from_str(alloc, "known")?;
    let text = Octets::from_slice(alloc, row.known.as_bytes())?;
    let mut texts = Vec::new(alloc);
    texts.push((name, text))?;
    Ok(MemFiles::new(texts, Vec::new(alloc)))
}

/// The outcome of a run: the status, and where the lines were written.
#[derive(Drop)]
struct Outcome {
    status: u8,
    sink: PieceSink,
}

/// Runs the words `script localhost 13265 known` over the row's script and known hosts text; a slow run reads and
/// writes one byte at a time.
fn run(alloc: Global, row: &Row, is_slow: bool) -> Result<Outcome, NoMemory> {
    let words = words(alloc)?;
    let script = Vec::from_slice(alloc, &row.script)?;
    let mut files = files_of(alloc, row)?;
    let mut source = PieceSource {
        source: MemSource::new(script, Vec::new(alloc)),
        is_slow,
    };
    let mut sink = PieceSink {
        sink: MemSink::new(Vec::new(alloc), Vec::new(alloc)),
        is_slow,
    };
    let status = run_words(
        alloc,
        words.as_slice(),
        &mut files,
        &mut ToySigner::new(alloc),
        &ToyVerifier::new(alloc),
        &mut source,
        &mut sink,
    );
    Ok(Outcome { status, sink })
}

/// The verdict on an outcome as lines: `ok` with the name, or `WRONG` with the name, what was written and the status.
fn told(alloc: Global, name: &str, row: &Row, outcome: &Outcome) -> Result<String, NoMemory> {
    let written = outcome.sink.sink.contents();
    let status = outcome.status;
    if row.is_right(status, written) {
        return Ok(format!(in alloc; "ok {name}")?);
    }
    let written = str::from_utf8(written).unwrap_or("no text");
    Ok(format!(in alloc; "WRONG {name}\n{written}status {status}")?)
}

/// The verdict on a row: that on its run a byte at a time, unless the run at once is wrong already.
pub fn verdict(alloc: Global, name: &str, lines: &str) -> Result<String, NoMemory> {
    let mut row = Row::new(alloc);
    row.lines(alloc, lines)?;
    let at_once = run(alloc, &row, false)?;
    if !row.is_right(at_once.status, at_once.sink.sink.contents()) {
        return told(alloc, name, &row, &at_once);
    }
    let slow = run(alloc, &row, true)?;
    told(alloc, name, &row, &slow)
}
