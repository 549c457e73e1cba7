ghost use Rattle.std.specs.Prelude.{◌≡◌, ◌<◌};
ghost use Rattle.seeded_edits.specs.Draws.{drawn, next_state};

use std::marker::Model;

const MULTIPLIER: u64 = 6_364_136_223_846_793_005;

const INCREMENT: u64 = 1_442_695_040_888_963_407;

/// How many lower bits of the state are left out of a number: they repeat soon.
const LEFT_OUT: u32 = 33;

/// Numbers that a seed decides, one after another. Contracts see the state.
#[derive(Debug, Drop)]
pub struct Draws {
    state: u64,
}

impl Model for Draws {
    ghost use Rattle.std.specs.Prelude.{ℕ};

    ghost Value = { ℕ };

    ghost view = { λ draws. draws.state };
}

impl Draws {
    /// The numbers of a seed.
    pub fn from_seed(seed: u64) -> Draws
        ensures { result ≡ seed }
    {
        Draws { state: seed }
    }

    /// The next number, below `n`.
    #[tactic(auto, unfolding(crate::specs::Draws::next_state, crate::specs::Draws::number_in))]
    pub(crate) fn below(&mut self, n: u64) -> u64
        requires { 0 < n }
        ensures number { result ≡ drawn n self.old }
        ensures small { result < n }
        ensures state { self.new ≡ next_state self.old }
    {
        self.state = self.state.wrapping_mul(MULTIPLIER).wrapping_add(INCREMENT);
        (self.state >> LEFT_OUT) % n
    }
}
