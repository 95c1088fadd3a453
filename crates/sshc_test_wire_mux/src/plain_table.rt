//! The plain program's channels, in the order of their making.

use crate::let_go;
use crate::plain::{Output, Plain};
use sshc_mux::Stream;
use sshc_wire::NoMemory;
use std::alloc::Global;

#[derive(Drop)]
pub(crate) struct PlainTable {
    pub(crate) channels: Vec<Plain>,
    last: u32,
}

impl PlainTable {
    /// A table with no channels, whose numbers continue after this one.
    pub(crate) fn new(alloc: Global, last: u32) -> PlainTable {
        PlainTable {
            channels: Vec::new(alloc),
            last,
        }
    }

    fn next(&self) -> u32 {
        let mut number = self.last;
        for _ in 0..64 {
            number = number.wrapping_add(1);
            let wanted = number;
            if self.channels.iter().all(|c| c.number != wanted) {
                return number;
            }
        }
        number
    }

    /// The channel of this number.
    fn named(&mut self, number: u32) -> Option<&mut Plain> {
        let at = self.channels.iter().position(|c| c.number == number)?;
        self.channels.get_mut(at)
    }

    /// The channel of this number, if it is established.
    fn established(&mut self, number: u32) -> Option<&mut Plain> {
        let at = self
            .channels
            .iter()
            .position(|c| c.number == number && c.established)?;
        self.channels.get_mut(at)
    }

    /// The place of the channel of this number, if its open waits for an answer, of the peer's or of ours.
    fn waiting(&self, number: u32, by_user: bool) -> Option<usize> {
        self.channels.iter().position(|c| c.number == number
            && c.by_user == by_user
            && !c.established)
    }

    fn remove(&mut self, at: usize) {
        if at < self.channels.len() {
            let_go(self.channels.remove(at));
        }
    }

    /// Adds a channel for an open of ours, and returns its number.
    pub(crate) fn open(&mut self, alloc: Global, amount: u32) -> Result<u32, NoMemory> {
        let number = self.next();
        let mut channel = Plain::new(alloc, number, true, amount);
        channel.packet_size = amount / 2;
        self.channels.push(channel)?;
        self.last = number;
        Ok(number)
    }

    /// Adds a channel for an open of the peer's, and returns its number.
    pub(crate) fn reserve(&mut self, alloc: Global, amount: u32) -> Result<u32, NoMemory> {
        let number = self.next();
        let mut channel = Plain::new(alloc, number, false, 100);
        channel.recipient = 7;
        channel.window = amount;
        channel.packet_size = amount / 3;
        self.channels.push(channel)?;
        self.last = number;
        Ok(number)
    }

    /// Answers an open of the peer's.
    pub(crate) fn settle(&mut self, number: u32, accept: bool) -> bool {
        let Some(at) = self.waiting(number, false) else {
            return false;
        };
        if !accept {
            self.remove(at);
        } else if let Some(channel) = self.channels.get_mut(at) {
            channel.established = true;
        }
        true
    }

    /// The peer confirms an open of ours.
    pub(crate) fn confirm(&mut self, number: u32, amount: u32) -> bool {
        let Some(at) = self.waiting(number, true) else {
            return false;
        };
        if let Some(channel) = self.channels.get_mut(at) {
            channel.established = true;
            channel.recipient = 5;
            channel.window = amount;
            channel.packet_size = amount / 2;
        }
        true
    }

    /// The peer refuses an open of ours.
    pub(crate) fn fail(&mut self, number: u32) -> bool {
        match self.waiting(number, true) {
            Some(at) => {
                self.remove(at);
                true
            }
            None => false,
        }
    }

    /// Sends bytes, and returns whether some of them wait.
    pub(crate) fn data(
        &mut self,
        alloc: Global,
        number: u32,
        stream: Stream,
        body: &[u8],
        exchanging: bool,
        output: &mut Output,
    ) -> Result<bool, NoMemory> {
        let Some(channel) = self.named(number) else {
            return Ok(false);
        };
        channel.data(alloc, stream, body, exchanging, output)?;
        Ok(channel.waits())
    }

    /// Asks for EOF or for the close of our side.
    pub(crate) fn end(
        &mut self,
        alloc: Global,
        number: u32,
        is_eof: bool,
        output: &mut Output,
    ) -> Result<(), NoMemory> {
        match self.named(number) {
            Some(channel) if is_eof => channel.eof(alloc, output),
            Some(channel) => channel.close(alloc, output),
            None => Ok(()),
        }
    }

    /// The peer closes the channel.
    pub(crate) fn close(
        &mut self,
        alloc: Global,
        number: u32,
        output: &mut Output,
    ) -> Result<bool, NoMemory> {
        let Some(channel) = self.established(number) else {
            return Ok(false);
        };
        channel.answer_close(alloc, output)?;
        if let Some(at) = self.channels.iter().position(|c| c.number == number) {
            self.remove(at);
        }
        Ok(true)
    }

    /// The peer grants window; returns what the window is then.
    pub(crate) fn grant(
        &mut self,
        alloc: Global,
        number: u32,
        amount: u32,
        exchanging: bool,
        output: &mut Output,
    ) -> Result<Option<u32>, NoMemory> {
        let Some(channel) = self.established(number) else {
            return Ok(None);
        };
        channel.grant(alloc, amount, exchanging, output)?;
        Ok(Some(channel.window))
    }

    /// Sends what may be sent on each channel.
    pub(crate) fn flush(&mut self, alloc: Global, output: &mut Output) -> Result<(), NoMemory> {
        for channel in self.channels.iter_mut() {
            channel.flush(alloc, false, output)?;
        }
        Ok(())
    }

    /// The peer sent so many bytes; returns whether our window was adjusted.
    pub(crate) fn received(
        &mut self,
        alloc: Global,
        number: u32,
        len: u64,
        output: &mut Output,
    ) -> Result<bool, NoMemory> {
        match self.established(number) {
            Some(channel) => channel.received(alloc, len, 20, output),
            None => Ok(false),
        }
    }
}
