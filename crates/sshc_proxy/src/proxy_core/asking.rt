//! Bindings whose signatures the caller verifies.

ghost use Rattle.std.specs.Prelude.{◌≡◌, ◌⊎◌, ◌++◌, ◌∷◌, List, [], IfOk, option_map};
ghost use Rattle.sshc_proxy.specs.Binding.{Accepts, binding_seen};
ghost use Rattle.sshc_proxy.specs.ProxyHistory.{Remembers, Step};
ghost use Rattle.sshc_proxy.specs.ProxyTable.{Starves, Takes, awaited_at};
ghost use Rattle.sshc_proxy.specs.Verdicts.{IsTold, question_by, question_in, told, verdict};

use super::ProxyCore;
use crate::binding::{Binding, binding_of, is_signed};
use crate::input::{ProxyInput, ProxyOutput};
use crate::told::Told;
use sshc_key::Verifier;
use sshc_wire::NoMemory;

impl ProxyCore {
    /// The binding in the input whose signature is to be verified before `apply`: the host key's over the session's
    /// identifier. `None` where the input is no binding, and where an answer is awaited on the connection.
    pub fn asks<'a>(&self, conn: u32, input: &'a ProxyInput) -> Option<Binding<'a>>
        ensures { option_map binding_seen result ≡ question_in self.now conn input.now }
    {
        match input {
            ProxyInput::Frame(whole) => self.asks_frame(conn, whole.as_slice()),
            _ => None,
        }
    }

    fn asks_frame<'a>(&self, conn: u32, whole: &'a [u8]) -> Option<Binding<'a>>
        ensures { option_map binding_seen result
            ≡ question_by (awaited_at self.now.awaits conn) whole.now }
    {
        match self.awaits.awaited(conn) {
            Some(_) => None,
            None => binding_of(whole),
        }
    }

    /// Does the rest of a step, after whoever verifies was asked what `asks` returned: the row of the table, where the
    /// signature of the binding is its host key's if `is_verified`. A binding whose host key isn't one plain key, or
    /// whose signature isn't whole, is refused all the same. After `NoMemory` the core is as it was.
    pub fn apply(&mut self, conn: u32, input: &ProxyInput, is_verified: bool) -> ProxyOutput
        ensures row { Takes (told is_verified) conn input.now self.old self.new result
            ⊎ Starves self.old self.new result }
        // As `step`'s, for each relation that says of the binding what was told.
        ensures history { (accepts : Accepts) (steps : List Step)
            → IsTold accepts (question_in self.old conn input.now) is_verified
            → Remembers accepts self.old steps → Remembers accepts self.new
            (steps ++ record { conn = conn; input = input.now; output = result } ∷ []) }
    {
        self.take(conn, input, &Told { is_verified })
    }

    /// Asks the verifier what the step has to know.
    pub(super) fn ask<V: Verifier>(
        &self,
        conn: u32,
        input: &ProxyInput,
        verifier: &V,
    ) -> Result<bool, NoMemory>
        ensures { IfOk result
            (λ yes. yes ≡ verdict (V.accepts verifier.now) (question_in self.now conn input.now)) }
    {
        match self.asks(conn, input) {
            Some(binding) => is_signed(self.alloc, &binding, verifier),
            None => Ok(false),
        }
    }
}
