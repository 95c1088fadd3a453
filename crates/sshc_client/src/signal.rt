//! A copy of a signal.

ghost use Rattle.std.specs.Prelude.{◌≡◌, IfOk};

use sshc_wire::{NoMemory, Sig};

/// A copy of a signal (RFC 4254, section 6.10).
pub fn signal_copied(signal: &Sig) -> Result<Sig, NoMemory>
    ensures { IfOk result (λ s. s ≡ signal.now) }
{
    match signal {
        Sig::ABRT => Ok(Sig::ABRT),
        Sig::ALRM => Ok(Sig::ALRM),
        Sig::FPE => Ok(Sig::FPE),
        Sig::HUP => Ok(Sig::HUP),
        Sig::ILL => Ok(Sig::ILL),
        Sig::INT => Ok(Sig::INT),
        Sig::KILL => Ok(Sig::KILL),
        Sig::PIPE => Ok(Sig::PIPE),
        Sig::QUIT => Ok(Sig::QUIT),
        Sig::SEGV => Ok(Sig::SEGV),
        Sig::TERM => Ok(Sig::TERM),
        Sig::USR1 => Ok(Sig::USR1),
        Sig::Custom(name) => Ok(Sig::Custom(name.copy()?)),
    }
}
