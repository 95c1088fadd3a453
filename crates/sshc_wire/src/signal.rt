//! Signals by their names (RFC 4254, section 6.10).

ghost use Rattle.std.specs.Prelude.{◌≡◌, ◌<◌, ◌^◌, IfOk, length};
ghost use Rattle.sshc_wire.specs.Signals.{signal_name, signal_of};

use crate::error::NoMemory;
use crate::text::Text;
use std::alloc::Global;

/// A signal; each name that isn't in the standard's list is `Custom`.
#[derive(Drop, PartialEq, Eq)]
pub enum Sig {
    ABRT,
    ALRM,
    FPE,
    HUP,
    ILL,
    INT,
    KILL,
    PIPE,
    QUIT,
    SEGV,
    TERM,
    USR1,
    Custom(Text),
}

impl Sig {
    pub fn name(&self) -> &str
        ensures name { result.now ≡ signal_name self.now }
        ensures short { length result.now < 2 ^ 32 }
    {
        match self {
            Sig::ABRT => "ABRT",
            Sig::ALRM => "ALRM",
            Sig::FPE => "FPE",
            Sig::HUP => "HUP",
            Sig::ILL => "ILL",
            Sig::INT => "INT",
            Sig::KILL => "KILL",
            Sig::PIPE => "PIPE",
            Sig::QUIT => "QUIT",
            Sig::SEGV => "SEGV",
            Sig::TERM => "TERM",
            Sig::USR1 => "USR1",
            Sig::Custom(name) => name.as_str(),
        }
    }

    /// The signal of this name.
    pub fn from_name(alloc: Global, name: &str) -> Result<Sig, NoMemory>
        ensures { IfOk result (λ s. s ≡ signal_of name.now) }
    {
        match name {
            "ABRT" => Ok(Sig::ABRT),
            "ALRM" => Ok(Sig::ALRM),
            "FPE" => Ok(Sig::FPE),
            "HUP" => Ok(Sig::HUP),
            "ILL" => Ok(Sig::ILL),
            "INT" => Ok(Sig::INT),
            "KILL" => Ok(Sig::KILL),
            "PIPE" => Ok(Sig::PIPE),
            "QUIT" => Ok(Sig::QUIT),
            "SEGV" => Ok(Sig::SEGV),
            "TERM" => Ok(Sig::TERM),
            "USR1" => Ok(Sig::USR1),
            _ => Ok(Sig::Custom(Text::from_str(alloc, name)?)),
        }
    }
}
