//! Numbers drawn one after the other from a seed.

ghost use Rattle.std.specs.Prelude.{◌≡◌, ◌<◌};
ghost use Rattle.sshc_run.specs.Draws.{next_number, drawn};

use std::marker::Model;

/// Draws numbers from a seed: a linear congruential generator over 64 bits, of which each draw takes the upper 31.
#[derive(Drop)]
pub struct Draws {
    number: u64,
}

impl Model for Draws {
    ghost use Rattle.std.specs.Prelude.{ℕ};

    ghost Value = { ℕ };

    ghost view = { λ d. d.number };
}

impl Draws {
    /// Draws that begin at this seed.
    pub fn new(seed: u64) -> Draws
        ensures { result ≡ seed }
    {
        Draws { number: seed }
    }

    /// A number below the bound.
    #[tactic(auto, unfolding(crate::specs::Draws::next_number, crate::specs::Draws::drawn))]
    pub fn draw(&mut self, bound: u32) -> u32
        requires { 0 < bound }
        ensures number { result ≡ drawn bound self.new }
        ensures next { self.new ≡ next_number self.old }
        ensures below { result < bound }
    {
        self.number = self
            .number
            .wrapping_mul(6364136223846793005)
            .wrapping_add(1442695040888963407);
        ((self.number >> 33) as u32) % bound
    }
}
