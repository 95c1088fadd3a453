//! Prompts of phase Auth, and their answers (RFC 4256).

ghost use Rattle.sshc_auth.specs.Reading.{ReadsOr};
ghost use Rattle.sshc_auth.specs.OpeningTable.AuthPrompts.{info_request_row, info_response_row, prompt_at, prompts_at};
ghost use Rattle.sshc_auth.specs.OpeningTable.AuthPrompts.{prompts_row};
ghost use Rattle.sshc_auth.specs.Row.{Follows, span};

use super::{Opening, Phase};
use crate::error::Error;
use crate::step::Flow;
use sshc_auth_request::info_response_packet;
use sshc_wire::{AuthRecord, Cursor, List, Outbox, Prompt, Record, Text};
use std::alloc::Global;

/// The prompt at the front.
fn read_prompt(alloc: Global, packet: &mut Cursor<'_>) -> Result<Prompt, Error>
    ensures { ReadsOr (prompt_at packet.old) packet.new result }
{
    let prompt = packet.text()?;
    let echo = packet.boolean()?;
    let prompt = Text::from_str(alloc, prompt)?;
    Ok(Prompt { prompt, echo })
}

/// Reads `n` prompts.
fn read_prompts(alloc: Global, packet: &mut Cursor<'_>, n: u32) -> Result<List<Prompt>, Error>
    ensures { ReadsOr (prompts_at n packet.old) packet.new result }
{
    let mut prompts = List::new(alloc);
    for _ in 0..n {
        match read_prompt(alloc, packet) {
            Ok(prompt) => prompts.push(prompt)?,
            Err(e) => return Err(e),
        }
    }
    Ok(prompts)
}

impl Opening {
    /// USERAUTH_INFO_REQUEST (RFC 4256, section 3.2).
    #[tactic(auto, unfolding(crate::specs::OpeningTable::AuthPrompts::info_request_row))]
    pub(super) fn info_request(&mut self, body: &[u8], out: &mut Outbox) -> Result<Flow, Error>
        ensures row { Follows (info_request_row self.old body.now) (span self.old self.new out.old out.new) result }
    {
        let mut packet = Cursor::new(body);
        let name = packet.text()?;
        let instructions = packet.text()?;
        let _language = packet.text()?;
        let n = packet.u32()?;
        self.prompts(name, instructions, n, &mut packet, out)
    }

    /// Reads the prompts and hands them to the user.
    #[tactic(auto, unfolding(crate::specs::OpeningTable::AuthPrompts::prompts_row))]
    fn prompts(
        &mut self,
        name: &str,
        instructions: &str,
        n: u32,
        packet: &mut Cursor<'_>,
        out: &mut Outbox,
    ) -> Result<Flow, Error>
        ensures row { Follows (prompts_row self.old name.now instructions.now n packet.old)
            (span self.old self.new out.old out.new) result }
    {
        if n as usize > packet.rest().len() / 5 {
            return Err(Error::Inconsistent);
        }
        let name = Text::from_str(self.alloc, name)?;
        let instructions = Text::from_str(self.alloc, instructions)?;
        let prompts = read_prompts(self.alloc, packet, n)?;
        packet.ensure_end()?;
        out.push(Record::Auth {
            ticket: self.ticket,
            asked: AuthRecord::AuthInfoRequest {
                name,
                instructions,
                prompts,
            },
        })?;
        self.phase = Phase::AwaitResponses;
        Ok(Flow::Went)
    }

    /// The user's answers.
    #[tactic(auto, unfolding(crate::specs::OpeningTable::AuthPrompts::info_response_row))]
    pub(super) fn info_response(
        &mut self,
        responses: &List<Text>,
        out: &mut Outbox,
    ) -> Result<Flow, Error>
        ensures row { Follows (info_response_row self.old responses.now)
            (span self.old self.new out.old out.new) result }
    {
        let packet = info_response_packet(self.alloc, responses)?;
        out.push(Record::Payload(packet))?;
        self.phase = Phase::Auth;
        Ok(Flow::Went)
    }
}
