//! Clocks.

ghost use Rattle.std.specs.Prelude.{◌≡◌, ◌∷◌, ℕ, [], List, Option};
ghost use Rattle.sshc_wire.specs.Contents.{append};

/// Returns moments in milliseconds.
pub trait Clock {
    /// The moments that it has returned, in order; None if contracts can't see them.
    ghost told: { Self → Option (List ℕ) };

    /// The current moment.
    fn now(&mut self) -> u64
        ensures told { told self.new ≡ append (told self.old) (result ∷ []) };
}
