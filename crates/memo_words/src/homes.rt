//! Where a key is looked for.

ghost use Rattle.std.specs.Prelude.{◌≡◌, ℕ, ◌<◌, ◌≤◌, ◌^◌};
ghost use Rattle.memo_words.specs.Probes.{home, probed};

/// The whole part of 2^64 times the golden ratio less 1, so that neighbouring codes fall far from each other.
const SPREAD: u64 = 11_400_714_819_323_198_485;

/// The position, of `2^bits`, at which the search for a key begins.
#[tactic(auto, unfolding(crate::specs::Probes::home))]
pub fn home(code: u64, bits: u32) -> u32
    requires { (1 ≤ bits) × (bits ≤ 22) }
    ensures home { result ≡ home code bits }
    ensures below { result < 2 ^ bits }
    ensures first { result ≡ probed code bits 0 }
{
    (code.wrapping_mul(SPREAD) >> (64 - bits)) as u32
}

/// The position, of `2^bits`, to which the search for a key comes after so many others.
pub fn nth_position(code: u64, bits: u32, turn: u32) -> u32
    requires { (1 ≤ bits) × (bits ≤ 22) }
    ensures probed { result ≡ probed code bits turn }
    ensures below { result < 2 ^ bits }
{
    let positions = 1u64 << bits;
    ((u64::from(home(code, bits)) + u64::from(turn)) % positions) as u32
}

/// As many tries as there are positions come to each position once.
pub fn each_position_is_tried_once()
    ensures { (code bits i j : ℕ) → i < 2 ^ bits → j < 2 ^ bits → probed code bits i ≡ probed code bits j → i ≡ j }
{}
