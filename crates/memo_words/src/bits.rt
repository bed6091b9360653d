ghost use Rattle.std.specs.Prelude.{◌≡◌, ◌≤◌, ◌^◌};
ghost use Rattle.memo_words.specs.Layout.{IsBits};
ghost use Rattle.adp_model.specs.ProblemFields.{most_cells};

/// The number of bits of a position: the least from 1 on that gives two positions for each cell.
pub(crate) fn bits_for(cells: u64) -> u32
    requires { cells ≤ most_cells }
    ensures bits { IsBits cells result }
    ensures few { result ≤ 22 }
{
    let mut bits = 1;
    while (1u64 << bits) < 2 * cells {
        bits += 1;
    }
    bits
}

/// How many positions have so many bits.
pub(crate) fn slots_of(bits: u32) -> u32
    requires { bits ≤ 22 }
    ensures slots { result ≡ 2 ^ bits }
    ensures few { result ≤ 4194304 }
{
    1 << bits
}
