//! A row: a table of one channel, the calls on it, and the packets that they wrote.

use crate::files::let_go;
use sshc_mux::{ChannelId, ChannelTable, MuxError};
use sshc_wire::{NoMemory, Outbox, Ticket};
use std::alloc::Global;

/// What our window is brought back to.
const TARGET: u32 = 100;

/// A table of one channel.
#[derive(Drop)]
struct Row {
    table: ChannelTable,
    out: Outbox,
    id: ChannelId,
    /// How many packets were compared.
    seen: usize,
    is_right: bool,
}

/// Adds a line.
pub fn put_line(text: &mut String, line: &str) -> Result<(), NoMemory> {
    text.push_str(line)?;
    Ok(text.push('\n')?)
}

/// Whether each line of a row holds, on a channel that we open or that the peer opens.
pub fn is_right(alloc: Global, is_ours: bool, lines: &str) -> Result<bool, NoMemory> {
    let mut row = Row::new(alloc);
    let ran = row.run(alloc, is_ours, lines);
    let is_right = row.is_right();
    let_go(row);
    ran?;
    Ok(is_right)
}

fn number(word: &str) -> u32 {
    word.parse::<u32>().unwrap_or(0)
}

impl Row {
    /// A table without a channel.
    fn new(alloc: Global) -> Row {
        Row {
            table: ChannelTable::new(alloc),
            out: Outbox::new(alloc),
            id: ChannelId(0),
            seen: 0,
            is_right: true,
        }
    }

    /// Whether each line held, and all packets were compared.
    fn is_right(&self) -> bool {
        self.is_right && self.seen == self.out.len()
    }

    /// An open of ours with ticket 3, or one of the peer's as its number 5 with window 4 and packet size 9.
    fn open(&mut self, is_ours: bool) -> Result<(), NoMemory> {
        self.id = if is_ours {
            self.table.open_user(TARGET, 7, Some(Ticket(3)))?
        } else {
            self.table.reserve_server(5, 4, 9, TARGET)?
        };
        Ok(())
    }

    /// Opens the channel, and does what the lines say.
    fn run(&mut self, alloc: Global, is_ours: bool, lines: &str) -> Result<(), NoMemory> {
        self.open(is_ours)?;
        for line in lines.lines() {
            let mut words = line.split_whitespace();
            let command = words.next().unwrap_or("#");
            let first = words.next().unwrap_or("");
            let second = words.next().unwrap_or("");
            if command != "#" {
                self.line(alloc, command, first, second)?;
            }
        }
        Ok(())
    }

    /// Does what a line says, and compares.
    fn line(
        &mut self,
        alloc: Global,
        command: &str,
        first: &str,
        second: &str,
    ) -> Result<(), NoMemory> {
        let is_so = match command {
            "packet" => self.is_next(alloc, first),
            "confirm"
            | "confirm-refused"
            | "fail"
            | "fail-refused"
            | "accept"
            | "refuse"
            | "settle-refused" => self.answers(command, number(first), number(second)),
            "established"
            | "not-established"
            | "waits"
            | "none-waits"
            | "window"
            | "recipient"
            | "no-recipient"
            | "close-sent"
            | "close-not-sent" => self.shows(command, number(first)),
            _ => self.calls(command, first, second)?,
        };
        self.is_right = self.is_right && is_so;
        Ok(())
    }

    /// Whether the next packet is this one, in hexadecimal.
    fn is_next(&mut self, alloc: Global, packet: &str) -> bool {
        let at = self.seen;
        self.seen = at.saturating_add(1);
        match hex::decode(alloc, packet) {
            Ok(bytes) => self.out.packet(at) == Some(bytes.as_slice()),
            Err(_) => false,
        }
    }

    /// Whether the table returns what the command says for an answer to the open. The peer confirms the channel as its
    /// number 5.
    fn answers(&mut self, command: &str, window: u32, packet: u32) -> bool {
        match command {
            "confirm" => self.table.confirm(self.id, 5, window, packet) == Ok(Some(Ticket(3))),
            "confirm-refused" => {
                self.table.confirm(self.id, 5, window, packet) == Err(MuxError::Inconsistent)
            }
            "fail" => self.table.fail(self.id) == Some(Some(Ticket(3))),
            "fail-refused" => self.table.fail(self.id) == None,
            "accept" => self.table.settle_server(self.id, true),
            "refuse" => self.table.settle_server(self.id, false),
            _ => !self.table.settle_server(self.id, true),
        }
    }

    /// Whether an accessor returns this.
    fn shows(&self, command: &str, value: u32) -> bool {
        let waits = self.table.has_any_pending_data();
        match command {
            "established" => self.table.is_established(self.id),
            "not-established" => !self.table.is_established(self.id),
            "waits" => self.table.has_pending_data(self.id) && waits,
            "none-waits" => !self.table.has_pending_data(self.id) && !waits,
            "window" => self.table.sender_window_size(self.id) == value as usize,
            "recipient" => self.table.recipient(self.id) == Some(value),
            "no-recipient" => self.table.recipient(self.id) == None,
            "close-sent" => self.table.close_sent(self.id),
            _ => !self.table.close_sent(self.id),
        }
    }

    /// Makes a call that may write packets. Returns whether it returned this; false for an unknown command.
    fn calls(&mut self, command: &str, first: &str, second: &str) -> Result<bool, NoMemory> {
        let (table, id, out) = (&mut self.table, self.id, &mut self.out);
        match command {
            "data" => made(table.data(id, first.as_bytes(), false, out)),
            "data-in-exchange" => made(table.data(id, first.as_bytes(), true, out)),
            "extended" => {
                made(table.extended_data(id, number(first), second.as_bytes(), false, out))
            }
            "eof" => made(table.eof(id, out)),
            "close" => made(table.close_own(id, out)),
            "flush" => made(table.flush_all(out)),
            "peer-close" => table.close_peer(id, out),
            "peer-close-refused" => not(table.close_peer(id, out)),
            "received" => not(table.received(id, u64::from(number(first)), TARGET, out)),
            "received-adjusts" => table.received(id, u64::from(number(first)), TARGET, out),
            _ => self.grants(command, number(first), number(second)),
        }
    }

    /// Takes a grant of the peer's, and returns whether this window is left.
    fn grants(&mut self, command: &str, bytes: u32, left: u32) -> Result<bool, NoMemory> {
        let (in_exchange, wanted) = match command {
            "grant" => (false, Some(left)),
            "grant-in-exchange" => (true, Some(left)),
            "grant-refused" => (false, None),
            _ => return Ok(false),
        };
        Ok(
            self.table
                .grant(self.id, bytes, in_exchange, &mut self.out)?
                == wanted,
        )
    }
}

/// A call that returns nothing was made.
fn made(call: Result<(), NoMemory>) -> Result<bool, NoMemory> {
    match call {
        Ok(()) => Ok(true),
        Err(NoMemory) => Err(NoMemory),
    }
}

fn not(call: Result<bool, NoMemory>) -> Result<bool, NoMemory> {
    match call {
        Ok(is_so) => Ok(!is_so),
        Err(NoMemory) => Err(NoMemory),
    }
}
