//! The words of a line, taken one by one.

use sshc_wire::{ChannelId, Ticket};

/// The rest of a line. If no word remains, a text is empty, a number is 0 and a flag isn't set.
#[derive(Clone, Copy)]
pub struct Words<'a> {
    rest: &'a str,
}

impl<'a> Words<'a> {
    pub fn new(line: &'a str) -> Words<'a> {
        Words { rest: line }
    }

    pub fn text(&mut self) -> &'a str {
        let (word, rest) = self.rest.split_once(' ').unwrap_or((self.rest, ""));
        self.rest = rest;
        word
    }

    pub fn number(&mut self) -> u32 {
        self.text().parse::<u32>().unwrap_or(0)
    }

    pub fn flag(&mut self) -> bool {
        self.text() == "yes"
    }

    pub fn id(&mut self) -> ChannelId {
        ChannelId(self.number())
    }

    /// A ticket; the word `none` is `None`.
    pub fn ticket(&mut self) -> Option<Ticket> {
        match self.text() {
            "none" => None,
            word => Some(Ticket(word.parse::<u32>().unwrap_or(0))),
        }
    }

    pub fn is_empty(&self) -> bool {
        self.rest.is_empty()
    }
}
