ghost use Rattle.std.specs.Prelude.{◌≡◌, ◌<◌, ◌≤◌};
ghost use Rattle.rand_pcg.specs.Lcg.{Lcg, started, increment_of};
ghost use Rattle.rand_pcg.specs.Pcg.{multiplier_64};
ghost use Rattle.random_orders.specs.Draws.{drawn_turn};

use rand_core::utils::NextWord;
use rand_pcg::Pcg32;
use std::marker::Model;

/// The generator of one worker's turns. Contracts see it as the state and the increment of its generator.
#[derive(Drop)]
pub struct Orders {
    generator: Pcg32,
}

impl Model for Orders {
    ghost Value = { Lcg };

    ghost view = { λ orders. orders.generator };

    ghost inverse = { λ generator. record { generator = generator } };
}

impl Orders {
    /// The generator that begins at the state `seed` and has the stream `worker`.
    pub fn new(seed: u64, worker: u32) -> Orders
        ensures { result ≡ started 64 multiplier_64 seed (increment_of 64 worker) }
    {
        Orders {
            generator: Pcg32::new(seed, u64::from(worker)),
        }
    }

    /// Draws one word of 32 bits, and answers the number below `m` that it stands for.
    pub fn turn(&mut self, m: u32) -> u32
        requires { 1 ≤ m }
        ensures drawn { (result, self.new) ≡ drawn_turn m self.old }
        ensures below { result < m }
    {
        let word: u32 = self.generator.next_word();
        ((u64::from(word) * u64::from(m)) >> 32) as u32
    }
}
