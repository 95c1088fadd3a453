//! Where salts come from.

ghost use Rattle.std.specs.Prelude.{◌≡◌, ◌∷◌, [], IfOk, OnErr, IsErrOf};
ghost use Rattle.sshc_wire.specs.Faults.{HasCause};
ghost use Rattle.sshc_audit.specs.Salts.{SaltState, Took, Wants};

use sshc_wire::Failed;

/// Returns salts for hashed names, each of 20 bytes. Contracts see the list of salts that it returned and its count of
/// faults.
pub trait Salts {
    ghost use Rattle.sshc_audit.specs.Salts.{SaltState, Took, Wants};

    ghost state: { Self → SaltState };

    /// The next salt. Fails only if no salt remains.
    fn salt(&mut self) -> Result<[u8; 20], Failed>
        ensures took { IfOk result (λ salt. Took (state self.old) (state self.new) (salt ∷ [])) }
        ensures none { OnErr result (Took (state self.old) (state self.new) []) }
        ensures end { IsErrOf result Failed.Fault → Wants (state self.old) 1 }
        ensures cause { HasCause (state self.old).faults (state self.new).faults result };
}
