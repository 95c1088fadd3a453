//! Blocks of events, each one of eight kinds, by the number that is drawn.

ghost use Rattle.std.specs.Prelude.{◌≡◌, ◌<◌, ◌≤◌, ◌+◌, ◌^◌, ◌++◌, [], length, replicate, IfOk, OnOk};
ghost use Rattle.sshc_wire.specs.Wire.{string_text, u32_text};
ghost use Rattle.sshc_run.specs.Blocks.{adds, alike, block_of, generated, kind_of, with_block};
ghost use Rattle.sshc_run.specs.Draws.{next_number};

use crate::draws::Draws;
use crate::generated::Generated;
use crate::kinds;
use crate::login::{begin, exchange};
use sshc_wire::{NoMemory, msg, put_bytes, put_u32};
use std::alloc::Global;
use std::marker::Model;

/// The kind of a block.
#[derive(Clone, Copy)]
pub enum BlockKind {
    /// The user sends bytes on channel 1.
    SentData,
    /// The server sends bytes on channel 1.
    ServerData,
    /// The server widens the window of channel 1.
    Window,
    /// A keepalive, and its answer.
    Keepalive,
    /// A forward is requested, and granted.
    Forward,
    /// An agent's connection asks for a listing.
    Listing,
    /// The server exchanges keys again.
    Rekey,
    /// A packet IGNORE, which has no effect.
    Ignored,
}

fn kind_of(drawn: u32) -> BlockKind
    requires { drawn < 8 }
    ensures { result ≡ kind_of drawn }
{
    match drawn {
        0 => BlockKind::SentData,
        1 => BlockKind::ServerData,
        2 => BlockKind::Window,
        3 => BlockKind::Keepalive,
        4 => BlockKind::Forward,
        5 => BlockKind::Listing,
        6 => BlockKind::Rekey,
        _ => BlockKind::Ignored,
    }
}

#[tactic(auto, unfolding(sshc_wire::specs::Wire::u32_text, sshc_wire::specs::Wire::string_text))]
/// The fields of an event: its beginning, followed by `count` bytes of that value.
fn with_alike(alloc: Global, beginning: &[u8], count: u32) -> Result<Vec<u8>, NoMemory>
    requires short { length beginning.now ≤ 16 }
    requires few { count ≤ 200 }
    ensures short { IfOk result (λ v. length v.items ≤ 220) }
    ensures bytes { IfOk result (λ v. v.items ≡ beginning.now ++ string_text (replicate count count)) }
{
    let alike = vec![in alloc; count as u8; count as usize]?;
    let mut fields = Vec::new(alloc);
    fields.extend_from_slice(beginning)?;
    put_bytes(&mut fields, &alike)?;
    Ok(fields)
}

#[tactic(auto, unfolding(sshc_wire::specs::Wire::u32_text))]
/// These bytes, and a number.
fn with_number(alloc: Global, beginning: &[u8], number: u32) -> Result<Vec<u8>, NoMemory>
    requires { length beginning.now ≤ 16 }
    ensures short { IfOk result (λ v. length v.items ≤ 20) }
    ensures bytes { IfOk result (λ v. v.items ≡ beginning.now ++ u32_text number) }
{
    let mut fields = Vec::new(alloc);
    fields.extend_from_slice(beginning)?;
    put_u32(&mut fields, number)?;
    Ok(fields)
}

#[tactic(auto, unfolding(sshc_wire::specs::Wire::u32_text, sshc_wire::specs::Wire::string_text))]
/// The fields of a forward of an empty address and port 0, with this ticket.
fn any_port(alloc: Global, ticket: u32) -> Result<Vec<u8>, NoMemory>
    ensures short { IfOk result (λ v. length v.items ≤ 12) }
    ensures bytes { IfOk result (λ v. v.items ≡ u32_text ticket ++ string_text [] ++ u32_text 0) }
{
    let mut fields = Vec::new(alloc);
    put_u32(&mut fields, ticket)?;
    put_u32(&mut fields, 0)?;
    put_u32(&mut fields, 0)?;
    Ok(fields)
}

/// A script so far, and the draws of its blocks.
#[derive(Drop)]
struct Drawn {
    script: Generated,
    draws: Draws,
}

impl Model for Drawn {
    ghost use Rattle.sshc_run.specs.Blocks.{Drawing};

    ghost Value = { Drawing };

    ghost view = { λ d. record { script = d.script; number = d.draws } };
}

/// User data on channel 1: the channel, and the sort of what is asked.
const SEND: &[u8] = b"\0\0\0\x01\0";

/// CHANNEL_DATA on channel 1.
const SERVER_DATA: &[u8] = b"\x5e\0\0\0\x01";

/// CHANNEL_WINDOW_ADJUST of channel 1.
const WINDOW: &[u8] = b"\x5d\0\0\0\x01";

/// REQUEST_SUCCESS.
const GRANTED: &[u8] = b"\x51";

/// A frame of connection 1 that asks for a listing.
const LISTING: &[u8] = b"\0\0\0\x01\0\0\0\x01\x0b";

impl Drawn {
    fn alike(&mut self, alloc: Global, beginning: &[u8]) -> Result<Vec<u8>, NoMemory>
        requires { length beginning.now ≤ 16 }
        ensures short { IfOk result (λ v. length v.items ≤ 220) }
        ensures bytes { IfOk result (λ v. v.items ≡ beginning.now ++ string_text (alike self.new.number)) }
        ensures next { self.new ≡ record self.old { number = next_number self.old.number } }
    {
        let count = 1 + self.draws.draw(200);
        with_alike(alloc, beginning, count)
    }

    #[tactic(auto, unfolding(crate::specs::Blocks::block_of, sshc_wire::specs::Wire::u32_text))]
    fn sent_data(&mut self, alloc: Global, k: u64) -> Result<(), NoMemory>
        ensures { OnOk result (self.new ≡ adds (block_of BlockKind.SentData k self.old.number) self.old) }
    {
        let fields = self.alike(alloc, SEND)?;
        self.script.add(k, kinds::CHANNEL, &fields)
    }

    #[tactic(auto, unfolding(crate::specs::Blocks::block_of, sshc_wire::specs::Wire::u32_text))]
    fn server_data(&mut self, alloc: Global, k: u64) -> Result<(), NoMemory>
        ensures { OnOk result (self.new ≡ adds (block_of BlockKind.ServerData k self.old.number) self.old) }
    {
        let packet = self.alike(alloc, SERVER_DATA)?;
        self.script.add(k, kinds::PAYLOAD, &packet)
    }

    #[tactic(auto, unfolding(crate::specs::Blocks::block_of, sshc_wire::specs::Wire::u32_text))]
    fn window(&mut self, alloc: Global, k: u64) -> Result<(), NoMemory>
        ensures { OnOk result (self.new ≡ adds (block_of BlockKind.Window k self.old.number) self.old) }
    {
        let packet = with_number(alloc, WINDOW, self.draws.draw(1000))?;
        self.script.add(k, kinds::PAYLOAD, &packet)
    }

    #[tactic(auto, unfolding(crate::specs::Blocks::block_of, sshc_wire::specs::Wire::bool_text))]
    fn keepalive(&mut self, k: u64) -> Result<(), NoMemory>
        ensures { OnOk result (self.new ≡ adds (block_of BlockKind.Keepalive k self.old.number) self.old) }
    {
        self.script.add(k, kinds::KEEPALIVE, &[1])?;
        self.script.add(k, kinds::PAYLOAD, &[msg::REQUEST_FAILURE])
    }

    #[tactic(auto, unfolding(crate::specs::Blocks::block_of))]
    fn forward(&mut self, alloc: Global, k: u32) -> Result<(), NoMemory>
        requires { k + 2 < 2 ^ 32 }
        ensures { OnOk result (self.new ≡ adds (block_of BlockKind.Forward k self.old.number) self.old) }
    {
        let asked = any_port(alloc, 2 + k)?;
        self.script.add(u64::from(k), kinds::TCPIP_FORWARD, &asked)?;
        let granted = with_number(alloc, GRANTED, 1024 + self.draws.draw(1000))?;
        self.script.add(u64::from(k), kinds::PAYLOAD, &granted)
    }

    #[tactic(auto, unfolding(crate::specs::Blocks::block_of))]
    fn rekey(&mut self, k: u64) -> Result<(), NoMemory>
        ensures { OnOk result (self.new ≡ adds (block_of BlockKind.Rekey k self.old.number) self.old) }
    {
        exchange(&mut self.script, k)
    }

    #[tactic(auto, unfolding(crate::specs::Blocks::block_of, sshc_wire::specs::Wire::u32_text))]
    fn listing(&mut self, k: u64) -> Result<(), NoMemory>
        ensures { OnOk result (self.new ≡ adds (block_of BlockKind.Listing k self.old.number) self.old) }
    {
        self.script.add(k, kinds::AGENT_BYTES, LISTING)
    }

    #[tactic(auto, unfolding(crate::specs::Blocks::block_of))]
    fn ignored(&mut self, k: u64) -> Result<(), NoMemory>
        ensures { OnOk result (self.new ≡ adds (block_of BlockKind.Ignored k self.old.number) self.old) }
    {
        self.script.add(k, kinds::PAYLOAD, &[msg::IGNORE])
    }

    /// Draws a block, and adds its events.
    fn add_block(&mut self, alloc: Global, k: u32) -> Result<(), NoMemory>
        requires { k + 2 < 2 ^ 32 }
        ensures { OnOk result (self.new ≡ with_block k self.old) }
    {
        let at = u64::from(k);
        match kind_of(self.draws.draw(8)) {
            BlockKind::SentData => self.sent_data(alloc, at),
            BlockKind::ServerData => self.server_data(alloc, at),
            BlockKind::Window => self.window(alloc, at),
            BlockKind::Keepalive => self.keepalive(at),
            BlockKind::Forward => self.forward(alloc, k),
            BlockKind::Listing => self.listing(at),
            BlockKind::Rekey => self.rekey(at),
            BlockKind::Ignored => self.ignored(at),
        }
    }
}

#[tactic(auto, using(crate::proofs::Drawings::next_drawing), unfolding(crate::specs::Blocks::drawing))]
/// The script of a seed with `count` blocks, after a login and the open of a channel.
pub fn generate(alloc: Global, seed: u64, count: u32) -> Result<Generated, NoMemory>
    requires { count ≤ 100000 }
    ensures { IfOk result (λ g. g ≡ generated seed count) }
{
    let mut drawn = Drawn {
        script: begin(alloc)?,
        draws: Draws::new(seed),
    };
    for done in 0..count {
        drawn.add_block(alloc, done + 1)?;
    }
    Ok(drawn.script)
}
