//! Random lists of calls on several channels, with each result and payload compared with the plain program's.

use crate::let_go;
use crate::plain::Output;
use crate::plain_table::PlainTable;
use sshc_mux::{ChannelId, ChannelTable, Stream};
use sshc_wire::{NoMemory, Outbox};
use std::alloc::Global;

/// A small generator of numbers, the same in each run (Knuth's linear congruential generator).
#[derive(Clone, Copy)]
struct Numbers(u64);

impl Numbers {
    fn below(&mut self, limit: u32) -> u32 {
        self.0 = self
            .0
            .wrapping_mul(6_364_136_223_846_793_005)
            .wrapping_add(1_442_695_040_888_963_407);
        let high = (self.0 >> 33) as u32;
        high.checked_rem(limit).unwrap_or(0)
    }
}

/// A length of bytes of the peer's: a small one, or now and then one above every u32 whose low half is small.
fn length_of(numbers: &mut Numbers, amount: u32) -> u64 {
    if numbers.below(4) == 0 {
        (1 << 32) + u64::from(amount)
    } else {
        u64::from(amount)
    }
}

/// The table and the plain one, with what each wrote. Each call is made on both, and returns whether the results are
/// equal.
#[derive(Drop)]
struct Both {
    alloc: Global,
    /// The number before the first.
    first: u32,
    table: ChannelTable,
    plain: PlainTable,
    out: Outbox,
    output: Output,
}

impl Both {
    /// Tables with no channels, whose numbers continue after this one.
    fn new(alloc: Global, last: u32) -> Both {
        Both {
            alloc,
            first: last,
            table: ChannelTable::numbered_after(alloc, ChannelId(last)),
            plain: PlainTable::new(alloc, last),
            out: Outbox::new(alloc),
            output: Vec::new(alloc),
        }
    }

    /// One random call.
    fn step(&mut self, numbers: &mut Numbers) -> Result<bool, NoMemory> {
        let near = numbers.below(6).wrapping_sub(numbers.below(2));
        let id = ChannelId(self.first.wrapping_add(near));
        let amount = numbers.below(12);
        let exchanging = numbers.below(4) == 0;
        match numbers.below(14) {
            0 => self.open(amount),
            1 => self.reserve(amount),
            2 => Ok(self.settle(id, amount > 2)),
            3 | 4 => Ok(self.confirm(id, amount)),
            5 => Ok(self.fail(id)),
            6 | 7 => self.data(id, amount, exchanging),
            8 => self.end(id, amount > 3),
            9 => self.close(id),
            10 | 11 => self.grant(id, amount, exchanging),
            12 => self.flush(),
            _ => self.received(id, length_of(numbers, amount)),
        }
    }

    fn open(&mut self, amount: u32) -> Result<bool, NoMemory> {
        let id = self.table.open_user(amount, amount / 2, None)?;
        Ok(id.0 == self.plain.open(self.alloc, amount)?)
    }

    fn reserve(&mut self, amount: u32) -> Result<bool, NoMemory> {
        let id = self.table.reserve_server(7, amount, amount / 3, 100)?;
        Ok(id.0 == self.plain.reserve(self.alloc, amount)?)
    }

    fn settle(&mut self, id: ChannelId, accept: bool) -> bool {
        self.table.settle_server(id, accept) == self.plain.settle(id.0, accept)
    }

    fn confirm(&mut self, id: ChannelId, amount: u32) -> bool {
        let is_confirmed = self.table.confirm(id, 5, amount, amount / 2).is_ok();
        is_confirmed == self.plain.confirm(id.0, amount)
    }

    fn fail(&mut self, id: ChannelId) -> bool {
        self.table.fail(id).is_some() == self.plain.fail(id.0)
    }

    fn data(&mut self, id: ChannelId, amount: u32, exchanging: bool) -> Result<bool, NoMemory> {
        let mut body = Vec::new(self.alloc);
        for byte in 0..amount {
            body.push((byte & 0xff) as u8)?;
        }
        self.body(id, amount, body.as_slice(), exchanging)
    }

    /// Plain data, or now and then extended data of the amount's type.
    fn body(
        &mut self,
        id: ChannelId,
        amount: u32,
        body: &[u8],
        exchanging: bool,
    ) -> Result<bool, NoMemory> {
        let stream = if amount % 3 == 0 {
            self.table
                .extended_data(id, amount, body, exchanging, &mut self.out)?;
            Stream::Extended(amount)
        } else {
            self.table.data(id, body, exchanging, &mut self.out)?;
            Stream::Data
        };
        let waits = self.plain.data(self.alloc, id.0, stream, body, exchanging, &mut self.output)?;
        Ok(self.table.has_pending_data(id) == waits)
    }

    fn end(&mut self, id: ChannelId, is_eof: bool) -> Result<bool, NoMemory> {
        if is_eof {
            self.table.eof(id, &mut self.out)?;
        } else {
            self.table.close_own(id, &mut self.out)?;
        }
        self.plain.end(self.alloc, id.0, is_eof, &mut self.output)?;
        Ok(true)
    }

    fn close(&mut self, id: ChannelId) -> Result<bool, NoMemory> {
        let is_closed = self.table.close_peer(id, &mut self.out)?;
        let is_plain_closed = self.plain.close(self.alloc, id.0, &mut self.output)?;
        Ok(is_closed == is_plain_closed)
    }

    fn grant(&mut self, id: ChannelId, amount: u32, exchanging: bool) -> Result<bool, NoMemory> {
        let window = self.table.grant(id, amount, exchanging, &mut self.out)?;
        let plain_window = self
            .plain
            .grant(self.alloc, id.0, amount, exchanging, &mut self.output)?;
        Ok(window == plain_window)
    }

    fn flush(&mut self) -> Result<bool, NoMemory> {
        self.table.flush_all(&mut self.out)?;
        self.plain.flush(self.alloc, &mut self.output)?;
        Ok(true)
    }

    fn received(&mut self, id: ChannelId, len: u64) -> Result<bool, NoMemory> {
        let is_adjusted = self.table.received(id, len, 20, &mut self.out)?;
        let is_plain_adjusted = self
            .plain
            .received(self.alloc, id.0, len, &mut self.output)?;
        Ok(is_adjusted == is_plain_adjusted)
    }

    /// Thirty random calls.
    fn steps(&mut self, numbers: &mut Numbers) -> Result<bool, NoMemory> {
        let mut are_equal = true;
        for _ in 0..30 {
            are_equal = self.step(numbers)? && are_equal;
        }
        Ok(are_equal)
    }

    /// Whether the payloads are those of the plain program, in its order.
    fn has_same_payloads(&self) -> bool {
        let mut are_equal = self.out.len() == self.output.len();
        for (at, want) in self.output.as_slice().iter().enumerate() {
            are_equal = are_equal && self.out.packet(at) == Some(want.as_slice());
        }
        are_equal
    }

    /// Whether the accessors return what the plain program keeps.
    fn has_same_channels(&self) -> bool {
        let mut are_equal = true;
        let mut any = false;
        for channel in self.plain.channels.as_slice() {
            any = any || channel.waits();
            are_equal = are_equal && channel.is_shown(&self.table);
        }
        are_equal && self.table.has_any_pending_data() == any
    }
}

#[test]
fn random_lists_of_calls(rt: HostRuntime) {
    let mut numbers = Numbers(2026);
    for list in 0..10_000 {
        // In every other list the numbers continue at 0 after the last u32.
        let first = if list % 2 == 0 { 0 } else { u32::MAX - 2 };
        let mut both = Both::new(rt.alloc(), first);
        let are_equal = both.steps(&mut numbers) == Ok(true)
            && both.has_same_payloads()
            && both.has_same_channels();
        let_go(both);
        assert!(rt; are_equal, "list {list}");
    }
}
