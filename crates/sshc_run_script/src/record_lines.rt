//! Writes records as lines.

ghost use Rattle.std.specs.Prelude.{◌≡◌, ◌+◌, ◌≤◌, IfOk, OnOk, OnErr, slice_get};
ghost use Rattle.sshc_wire.specs.Contents.{append, WroteFront, WritesMove, WritesFor};
ghost use Rattle.sshc_wire.specs.Outgoing.{text_in};
ghost use Rattle.sshc_wire.specs.Faults.{HasCause};
ghost use Rattle.sshc_wire.specs.DigitLines.{text_line};
ghost use Rattle.sshc_run_script.specs.RecordLines.{lines};

use sshc_wire::{Failed, NoMemory, Outbox, Sink, digit_line, write_whole};
use std::alloc::Global;

/// Where lines are made. The memory is kept from one line to the next.
#[derive(Drop)]
pub struct LineBuffer {
    memory: Vec<u8>,
}

impl LineBuffer {
    /// A buffer without memory.
    pub fn new(alloc: Global) -> LineBuffer {
        LineBuffer {
            memory: Vec::new(alloc),
        }
    }
}

/// The line of the record at a place: its number and fields in hexadecimal digits, and a line feed.
#[tactic(auto, using(crate::proofs::Lines::lent_line, crate::proofs::Lines::no_line))]
fn line_of<'a>(buffer: &'a mut LineBuffer, out: &Outbox, at: usize) -> Result<&'a [u8], NoMemory>
    ensures { IfOk result (λ line. line.now ≡ text_line (text_in (slice_get out.now.records at))) }
{
    match out.text(at) {
        Some(text) => digit_line(&mut buffer.memory, text),
        None => digit_line(&mut buffer.memory, &[]),
    }
}

/// Writes the line of the record at a place, or a prefix of the line.
fn write_line<K: Sink>(
    buffer: &mut LineBuffer,
    sink: &mut K,
    out: &Outbox,
    at: usize,
) -> Result<(), Failed>
    ensures whole { OnOk result
        (K.contents sink.new ≡ append (K.contents sink.old) (text_line (text_in (slice_get out.now.records at)))) }
    ensures cut { OnErr result
        (WroteFront (K.contents sink.old) (K.contents sink.new) (text_line (text_in (slice_get out.now.records at)))) }
    ensures moved { OnOk result
        (WritesMove (K.contents sink.old) (K.contents sink.new) (K.writes sink.old) (K.writes sink.new)) }
    ensures writes { OnErr result
        (WritesFor (K.contents sink.old) (K.contents sink.new) (K.writes sink.old) (K.writes sink.new)) }
    ensures cause { HasCause (K.faults sink.old) (K.faults sink.new) result }
    ensures moving { OnOk result (K.empty_writes sink.new ≡ K.empty_writes sink.old) }
    ensures last { K.empty_writes sink.new ≤ K.empty_writes sink.old + 1 }
{
    match line_of(buffer, out, at) {
        Ok(line) => write_whole(sink, line),
        Err(NoMemory) => Err(Failed::NoMemory),
    }
}

/// Writes the lines of the records, or a prefix of them. Each line is one piece for the sink.
pub fn write_lines<K: Sink>(
    buffer: &mut LineBuffer,
    sink: &mut K,
    out: &Outbox,
) -> Result<(), Failed>
    ensures whole { OnOk result (K.contents sink.new ≡ append (K.contents sink.old) (lines out.now.records)) }
    ensures cut { OnErr result (WroteFront (K.contents sink.old) (K.contents sink.new) (lines out.now.records)) }
    ensures moved { OnOk result
        (WritesMove (K.contents sink.old) (K.contents sink.new) (K.writes sink.old) (K.writes sink.new)) }
    ensures writes { OnErr result
        (WritesFor (K.contents sink.old) (K.contents sink.new) (K.writes sink.old) (K.writes sink.new)) }
    ensures cause { HasCause (K.faults sink.old) (K.faults sink.new) result }
    ensures moving { OnOk result (K.empty_writes sink.new ≡ K.empty_writes sink.old) }
    ensures last { K.empty_writes sink.new ≤ K.empty_writes sink.old + 1 }
{
    for at in 0..out.len() {
        write_line(buffer, sink, out, at)?;
    }
    Ok(())
}
