//! What the user asks of a channel (RFC 4254, sections 5 and 6).

ghost use Rattle.std.specs.Prelude.{◌≡◌};
ghost use Rattle.sshc_wire.specs.Format.{made_at, no_bytes_at};
ghost use Rattle.sshc_run_reader.specs.EventParts.{modes_at};
ghost use Rattle.sshc_run_reader.specs.EventReading.{size_at, pty_at, window_change_at, x11_at, env_at, msg_fields_at};
ghost use Rattle.sshc_run_reader.specs.EventReading.{msg_at};
ghost use Rattle.sshc_run_reader.specs.Gives.{Gives};

use crate::channel_sort::ChannelSort;
use crate::error::EventError;
use crate::fields::lists::list_of;
use crate::parts::{channel_sort_of, flag_of, octets_of, text_of, u32_of};
use sshc_auth_event::ChannelMsg;
use sshc_wire::{Cursor, Sig};
use std::alloc::Global;

/// A terminal's size: columns and rows, and the same in pixels.
#[derive(Clone, Copy)]
struct Size {
    col_width: u32,
    row_height: u32,
    pix_width: u32,
    pix_height: u32,
}

#[tactic(auto, unfolding(crate::specs::EventReading::size_at))]
fn terminal_size(c: &mut Cursor<'_>) -> Result<Size, EventError>
    ensures { Gives (λ s. (s.col_width, (s.row_height, (s.pix_width, s.pix_height)))) result c.new (size_at c.old) }
{
    let col_width = u32_of(c)?;
    let row_height = u32_of(c)?;
    let pix_width = u32_of(c)?;
    let pix_height = u32_of(c)?;
    Ok(Size {
        col_width,
        row_height,
        pix_width,
        pix_height,
    })
}

#[tactic(auto, unfolding(crate::specs::EventReading::pty_at, crate::specs::EventParts::modes_at))]
fn pty(alloc: Global, c: &mut Cursor<'_>) -> Result<ChannelMsg, EventError>
    ensures { Gives (λ m. m) result c.new (pty_at c.old) }
{
    let want_reply = flag_of(c)?;
    let term = text_of(alloc, c)?;
    let size = terminal_size(c)?;
    let terminal_modes = list_of(alloc, 5, c)?;
    Ok(ChannelMsg::RequestPty {
        want_reply,
        term,
        col_width: size.col_width,
        row_height: size.row_height,
        pix_width: size.pix_width,
        pix_height: size.pix_height,
        terminal_modes,
    })
}

#[tactic(auto, unfolding(crate::specs::EventReading::window_change_at))]
fn window_change(c: &mut Cursor<'_>) -> Result<ChannelMsg, EventError>
    ensures { Gives (λ m. m) result c.new (window_change_at c.old) }
{
    let size = terminal_size(c)?;
    Ok(ChannelMsg::WindowChange {
        col_width: size.col_width,
        row_height: size.row_height,
        pix_width: size.pix_width,
        pix_height: size.pix_height,
    })
}

#[tactic(auto, unfolding(crate::specs::EventReading::x11_at))]
fn x11(alloc: Global, c: &mut Cursor<'_>) -> Result<ChannelMsg, EventError>
    ensures { Gives (λ m. m) result c.new (x11_at c.old) }
{
    let want_reply = flag_of(c)?;
    let single_connection = flag_of(c)?;
    let x11_authentication_protocol = text_of(alloc, c)?;
    let x11_authentication_cookie = text_of(alloc, c)?;
    let x11_screen_number = u32_of(c)?;
    Ok(ChannelMsg::RequestX11 {
        want_reply,
        single_connection,
        x11_authentication_protocol,
        x11_authentication_cookie,
        x11_screen_number,
    })
}

#[tactic(auto, unfolding(crate::specs::EventReading::env_at))]
fn env(alloc: Global, c: &mut Cursor<'_>) -> Result<ChannelMsg, EventError>
    ensures { Gives (λ m. m) result c.new (env_at c.old) }
{
    let want_reply = flag_of(c)?;
    let variable_name = text_of(alloc, c)?;
    let variable_value = text_of(alloc, c)?;
    Ok(ChannelMsg::SetEnv {
        want_reply,
        variable_name,
        variable_value,
    })
}

fn extended_data(alloc: Global, c: &mut Cursor<'_>) -> Result<ChannelMsg, EventError>
    ensures { Gives (λ m. m) result c.new (msg_fields_at ChannelSort.ExtendedData c.old) }
{
    let ext = u32_of(c)?;
    let body = octets_of(alloc, c)?;
    Ok(ChannelMsg::ExtendedData { ext, body })
}

fn exec(alloc: Global, c: &mut Cursor<'_>) -> Result<ChannelMsg, EventError>
    ensures { Gives (λ m. m) result c.new (msg_fields_at ChannelSort.Exec c.old) }
{
    let want_reply = flag_of(c)?;
    let command = octets_of(alloc, c)?;
    Ok(ChannelMsg::Exec {
        want_reply,
        command,
    })
}

fn signal(alloc: Global, c: &mut Cursor<'_>) -> Result<ChannelMsg, EventError>
    ensures { Gives (λ m. m) result c.new (msg_fields_at ChannelSort.Signal c.old) }
{
    let name = text_of(alloc, c)?;
    let signal = Sig::from_name(alloc, name.as_str())?;
    Ok(ChannelMsg::Signal { signal })
}

fn subsystem(alloc: Global, c: &mut Cursor<'_>) -> Result<ChannelMsg, EventError>
    ensures { Gives (λ m. m) result c.new (msg_fields_at ChannelSort.RequestSubsystem c.old) }
{
    let want_reply = flag_of(c)?;
    let name = text_of(alloc, c)?;
    Ok(ChannelMsg::RequestSubsystem { want_reply, name })
}

fn msg_fields(
    alloc: Global,
    sort: ChannelSort,
    c: &mut Cursor<'_>,
) -> Result<ChannelMsg, EventError>
    ensures { Gives (λ m. m) result c.new (msg_fields_at sort c.old) }
{
    match sort {
        ChannelSort::Data => Ok(ChannelMsg::Data {
            body: octets_of(alloc, c)?,
        }),
        ChannelSort::ExtendedData => extended_data(alloc, c),
        ChannelSort::Eof => Ok(ChannelMsg::Eof),
        ChannelSort::Close => Ok(ChannelMsg::Close),
        ChannelSort::RequestPty => pty(alloc, c),
        ChannelSort::WindowChange => window_change(c),
        ChannelSort::RequestX11 => x11(alloc, c),
        ChannelSort::SetEnv => env(alloc, c),
        ChannelSort::RequestShell => Ok(ChannelMsg::RequestShell {
            want_reply: flag_of(c)?,
        }),
        ChannelSort::Exec => exec(alloc, c),
        ChannelSort::Signal => signal(alloc, c),
        ChannelSort::RequestSubsystem => subsystem(alloc, c),
        ChannelSort::AgentForward => Ok(ChannelMsg::AgentForward {
            want_reply: flag_of(c)?,
        }),
    }
}

/// What is asked of a channel.
#[tactic(auto, unfolding(crate::specs::EventReading::msg_at))]
pub fn channel_msg(alloc: Global, c: &mut Cursor<'_>) -> Result<ChannelMsg, EventError>
    ensures { Gives (λ m. m) result c.new (msg_at c.old) }
{
    let sort = channel_sort_of(c)?;
    msg_fields(alloc, sort, c)
}
