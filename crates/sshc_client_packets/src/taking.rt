//! Parts of packets that are read and kept.

ghost use Rattle.std.specs.Prelude.{◌≡◌};
ghost use Rattle.sshc_client_packets.specs.Parts.{Gives, flag_at, u32_at, u8_at, words_at};

use crate::error::PacketError;
use sshc_wire::{Cursor, Text};
use std::alloc::Global;

#[tactic(auto, unfolding(crate::specs::Parts::u8_at))]
pub(crate) fn u8_of(c: &mut Cursor<'_>) -> Result<u8, PacketError>
    ensures { Gives (λ n. n) result c.new (u8_at c.old) }
{
    Ok(c.u8()?)
}

#[tactic(auto, unfolding(crate::specs::Parts::u32_at))]
pub(crate) fn u32_of(c: &mut Cursor<'_>) -> Result<u32, PacketError>
    ensures { Gives (λ n. n) result c.new (u32_at c.old) }
{
    Ok(c.u32()?)
}

#[tactic(auto, unfolding(crate::specs::Parts::flag_at))]
pub(crate) fn flag_of(c: &mut Cursor<'_>) -> Result<bool, PacketError>
    ensures { Gives (λ b. b) result c.new (flag_at c.old) }
{
    Ok(c.boolean()?)
}

#[tactic(auto, unfolding(crate::specs::Parts::words_at))]
pub(crate) fn words_of<'a>(c: &mut Cursor<'a>) -> Result<&'a str, PacketError>
    ensures { Gives (λ t. t.now) result c.new (words_at c.old) }
{
    Ok(c.text()?)
}

pub(crate) fn text_of(alloc: Global, c: &mut Cursor<'_>) -> Result<Text, PacketError>
    ensures { Gives (λ t. t) result c.new (words_at c.old) }
{
    Ok(Text::from_str(alloc, words_of(c)?)?)
}
