//! The table as a plain program: byte by byte, with no index.

use sshc_mux::{ChannelId, ChannelTable, Stream};
use sshc_wire::{NoMemory, put_bytes, put_u32};
use std::alloc::Global;

/// The bytes of one call that wait.
#[derive(Drop)]
pub(crate) struct Part {
    stream: Stream,
    bytes: Vec<u8>,
}

/// A channel, with the fields that the rules speak of.
#[derive(Drop)]
pub(crate) struct Plain {
    pub(crate) number: u32,
    pub(crate) by_user: bool,
    pub(crate) established: bool,
    pub(crate) recipient: u32,
    pub(crate) packet_size: u32,
    own_window: u32,
    pub(crate) window: u32,
    parts: Vec<Part>,
    eof_asked: bool,
    eof_sent: bool,
    close_asked: bool,
    close_sent: bool,
}

/// The payloads that were written.
pub(crate) type Output = Vec<Vec<u8>>;

fn piece(alloc: Global, recipient: u32, stream: Stream, bytes: &[u8]) -> Result<Vec<u8>, NoMemory> {
    let mut text = Vec::new(alloc);
    match stream {
        Stream::Data => {
            text.push(94)?;
            put_u32(&mut text, recipient)?;
        }
        Stream::Extended(code) => {
            text.push(95)?;
            put_u32(&mut text, recipient)?;
            put_u32(&mut text, code)?;
        }
    }
    if bytes.len() < 1 << 32 {
        put_bytes(&mut text, bytes)?;
    }
    Ok(text)
}

fn short(alloc: Global, number: u8, recipient: u32) -> Result<Vec<u8>, NoMemory> {
    let mut text = Vec::new(alloc);
    text.push(number)?;
    put_u32(&mut text, recipient)?;
    Ok(text)
}

impl Plain {
    /// A channel whose open waits for its answer.
    pub(crate) fn new(alloc: Global, number: u32, by_user: bool, own_window: u32) -> Plain {
        Plain {
            number,
            by_user,
            established: false,
            recipient: 0,
            packet_size: 0,
            own_window,
            window: 0,
            parts: Vec::new(alloc),
            eof_asked: false,
            eof_sent: false,
            close_asked: false,
            close_sent: false,
        }
    }

    /// Whether bytes wait.
    pub(crate) fn waits(&self) -> bool {
        !self.parts.is_empty()
    }

    /// Whether the table's accessors return what this channel has.
    pub(crate) fn is_shown(&self, table: &ChannelTable) -> bool {
        let id = ChannelId(self.number);
        let recipient = if self.established {
            Some(self.recipient)
        } else {
            None
        };
        table.is_established(id) == self.established
            && table.has_pending_data(id) == self.waits()
            && table.sender_window_size(id) == self.window as usize
            && table.close_sent(id) == self.close_sent
            && table.recipient(id) == recipient
    }

    /// Whether one more byte may be sent.
    fn may_go(&self, exchanging: bool) -> bool {
        self.established && !exchanging && self.packet_size > 0 && self.window > 0
    }

    /// Sends byte by byte, and then EOF and close if they are due.
    pub(crate) fn flush(
        &mut self,
        alloc: Global,
        exchanging: bool,
        output: &mut Output,
    ) -> Result<(), NoMemory> {
        let mut left = Vec::new(alloc);
        let parts = std::mem::replace(&mut self.parts, Vec::new(alloc));
        for part in parts {
            let rest = self.send_part(alloc, exchanging, &part, output)?;
            if !rest.is_empty() {
                left.push(Part {
                    stream: part.stream,
                    bytes: rest,
                })?;
            }
        }
        self.parts = left;
        self.send_ends(alloc, output)
    }

    /// Sends what may be sent of one call's bytes, and returns the rest.
    fn send_part(
        &mut self,
        alloc: Global,
        exchanging: bool,
        part: &Part,
        output: &mut Output,
    ) -> Result<Vec<u8>, NoMemory> {
        let mut rest = Vec::new(alloc);
        let mut at_hand = Vec::new(alloc);
        for byte in part.bytes.as_slice() {
            if self.may_go(exchanging) && rest.is_empty() {
                at_hand.push(*byte)?;
                self.window = self.window.saturating_sub(1);
            } else {
                rest.push(*byte)?;
            }
            if at_hand.len() >= self.packet_size as usize && !at_hand.is_empty() {
                output.push(piece(alloc, self.recipient, part.stream, at_hand.as_slice())?)?;
                at_hand.clear();
            }
        }
        if !at_hand.is_empty() {
            output.push(piece(alloc, self.recipient, part.stream, at_hand.as_slice())?)?;
        }
        Ok(rest)
    }

    fn send_ends(&mut self, alloc: Global, output: &mut Output) -> Result<(), NoMemory> {
        if !self.established || !self.parts.is_empty() {
            return Ok(());
        }
        if self.eof_asked && !self.eof_sent {
            output.push(short(alloc, 96, self.recipient)?)?;
            self.eof_sent = true;
        }
        if self.close_asked && !self.close_sent {
            output.push(short(alloc, 97, self.recipient)?)?;
            self.close_sent = true;
        }
        Ok(())
    }

    pub(crate) fn data(
        &mut self,
        alloc: Global,
        stream: Stream,
        body: &[u8],
        exchanging: bool,
        output: &mut Output,
    ) -> Result<(), NoMemory> {
        if self.eof_asked || self.close_asked || body.is_empty() {
            return Ok(());
        }
        self.parts.push(Part {
            stream,
            bytes: Vec::from_slice(alloc, body)?,
        })?;
        self.flush(alloc, exchanging, output)
    }

    pub(crate) fn eof(&mut self, alloc: Global, output: &mut Output) -> Result<(), NoMemory> {
        if !self.close_sent {
            self.eof_asked = true;
        }
        self.flush(alloc, true, output)
    }

    pub(crate) fn close(&mut self, alloc: Global, output: &mut Output) -> Result<(), NoMemory> {
        self.close_asked = true;
        self.flush(alloc, true, output)
    }

    /// The answer to the peer's close.
    pub(crate) fn answer_close(
        &mut self,
        alloc: Global,
        output: &mut Output,
    ) -> Result<(), NoMemory> {
        if !self.close_sent {
            output.push(short(alloc, 97, self.recipient)?)?;
        }
        Ok(())
    }

    pub(crate) fn grant(
        &mut self,
        alloc: Global,
        amount: u32,
        exchanging: bool,
        output: &mut Output,
    ) -> Result<(), NoMemory> {
        self.window = self.window.saturating_add(amount);
        self.flush(alloc, exchanging, output)
    }

    pub(crate) fn received(
        &mut self,
        alloc: Global,
        len: u64,
        target: u32,
        output: &mut Output,
    ) -> Result<bool, NoMemory> {
        self.own_window = if len < u64::from(self.own_window) {
            self.own_window - len as u32
        } else {
            0
        };
        if self.own_window >= target / 2 {
            return Ok(false);
        }
        let mut text = short(alloc, 93, self.recipient)?;
        put_u32(&mut text, target.saturating_sub(self.own_window))?;
        output.push(text)?;
        self.own_window = target;
        Ok(true)
    }
}
