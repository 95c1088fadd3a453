//! Writes outputs as lines.

ghost use Rattle.std.specs.Prelude.{◌≡◌, ◌∷◌, ◌++◌, IfOk, OnOk, OnErr};
ghost use Rattle.sshc_wire.specs.Contents.{append, WroteFront};
ghost use Rattle.sshc_wire.specs.Faults.{HasCause};
ghost use Rattle.sshc_wire.specs.Wire.{u32_text, string_text};
ghost use Rattle.sshc_forward_core.specs.OutputLines.{output_text, line, lines};

use crate::FwdOutput;
use sshc_wire::{
    Failed, NoMemory, Octets, Sink, Text, digit_line, put_bytes, put_text, put_u32, write_whole,
};
use std::alloc::Global;

/// Where lines are made: an output's bytes and its line. The memory is kept from one line to the next.
#[derive(Drop)]
pub(crate) struct LineBuffer {
    bytes: Vec<u8>,
    memory: Vec<u8>,
}

impl LineBuffer {
    /// A buffer without memory.
    pub(crate) fn new(alloc: Global) -> LineBuffer {
        LineBuffer {
            bytes: Vec::new(alloc),
            memory: Vec::new(alloc),
        }
    }
}

/// The bytes of an output of one number.
fn put_number(out: &mut Vec<u8>, kind: u8, n: u32) -> Result<(), NoMemory>
    ensures { OnOk result (out.new.items ≡ out.old.items ++ kind ∷ u32_text n) }
{
    out.push(kind)?;
    put_u32(out, n)
}

/// The bytes of an output of a number and bytes.
fn put_number_and_bytes(out: &mut Vec<u8>, kind: u8, n: u32, bytes: &Octets) -> Result<(), NoMemory>
    ensures { OnOk result (out.new.items ≡ out.old.items ++ kind ∷ (u32_text n ++ string_text bytes.now)) }
{
    put_number(out, kind, n)?;
    put_bytes(out, bytes.as_slice())
}

fn put_words(out: &mut Vec<u8>, text: &Text) -> Result<(), NoMemory>
    ensures { OnOk result (out.new.items ≡ out.old.items ++ string_text text.now) }
{
    put_text(out, text.as_str())
}

/// The bytes of an output: its kind and its fields.
fn put_output(out: &mut Vec<u8>, output: &FwdOutput) -> Result<(), NoMemory>
    ensures { OnOk result (out.new.items ≡ out.old.items ++ output_text output.now) }
{
    match output {
        FwdOutput::OpenChannel {
            stream,
            host,
            port,
            originator,
            originator_port,
        } => {
            put_number(out, 0x81, *stream)?;
            put_words(out, host)?;
            put_u32(out, *port)?;
            put_words(out, originator)?;
            put_u32(out, *originator_port)
        }
        FwdOutput::SendData { channel, bytes } => put_number_and_bytes(out, 0x82, *channel, bytes),
        FwdOutput::SendEof { channel } => put_number(out, 0x83, *channel),
        FwdOutput::WriteBytes { stream, bytes } => put_number_and_bytes(out, 0x84, *stream, bytes),
        FwdOutput::EndWriting { stream } => put_number(out, 0x85, *stream),
        FwdOutput::CloseStream { stream } => put_number(out, 0x86, *stream),
        FwdOutput::CloseChannel { channel } => put_number(out, 0x87, *channel),
    }
}

/// The line of an output.
fn line_of<'a>(buffer: &'a mut LineBuffer, output: &FwdOutput) -> Result<&'a [u8], NoMemory>
    ensures { IfOk result (λ made. made.now ≡ line output.now) }
{
    buffer.bytes.clear();
    put_output(&mut buffer.bytes, output)?;
    digit_line(&mut buffer.memory, buffer.bytes.as_slice())
}

/// Writes the line of an output, or a front of the line.
fn write_line<K: Sink>(
    buffer: &mut LineBuffer,
    sink: &mut K,
    output: &FwdOutput,
) -> Result<(), Failed>
    ensures whole { OnOk result
        (K.contents sink.new ≡ append (K.contents sink.old) (line output.now)) }
    ensures cut { OnErr result
        (WroteFront (K.contents sink.old) (K.contents sink.new) (line output.now)) }
    ensures cause { HasCause (K.faults sink.old) (K.faults sink.new) result }
{
    match line_of(buffer, output) {
        Ok(made) => write_whole(sink, made),
        Err(NoMemory) => Err(Failed::NoMemory),
    }
}

/// Writes the lines of the outputs, or a front of them. Each line is one piece for the sink.
pub(crate) fn write_lines<K: Sink>(
    buffer: &mut LineBuffer,
    sink: &mut K,
    outputs: &[FwdOutput],
) -> Result<(), Failed>
    ensures whole { OnOk result (K.contents sink.new ≡ append (K.contents sink.old) (lines outputs.now)) }
    ensures cut { OnErr result (WroteFront (K.contents sink.old) (K.contents sink.new) (lines outputs.now)) }
    ensures cause { HasCause (K.faults sink.old) (K.faults sink.new) result }
{
    for output in outputs {
        write_line(buffer, sink, output)?;
    }
    Ok(())
}
