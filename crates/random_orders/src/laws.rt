//! What follows from the definitions alone.

ghost use Rattle.std.specs.Prelude.{◌≡◌, ◌+◌, ◌<◌, ◌%◌, List, ℕ, length};
ghost use Rattle.rand_pcg.specs.Lcg.{Lcg};
ghost use Rattle.random_orders.specs.Draws.{drawn_turns, after_draws};

/// A rotation visits each number below `m` once.
#[tactic(auto, using(crate::proofs::Rotating::rotation_reaches))]
pub fn rotation_visits_each_number_once()
    ensures visited { (m start number : ℕ) → start < m → number < m
        → (t : ℕ) × (t < m) × ((start + t) % m ≡ number) }
    ensures once { (m start t u : ℕ) → start < m → t < m → u < m → (start + t) % m ≡ (start + u) % m → t ≡ u }
{}

/// Each turn takes one word, whatever number it is below; and draws add up.
#[tactic(auto, using(crate::proofs::Drawing::turns_advance, crate::proofs::Drawing::draws_add))]
pub fn draws_advance_the_generator()
    ensures turns { (bounds : List ℕ) (generator : Lcg)
        → (drawn_turns bounds generator).1 ≡ after_draws (length bounds) generator }
    ensures sum { (a b : ℕ) (generator : Lcg)
        → after_draws b (after_draws a generator) ≡ after_draws (a + b) generator }
{}
