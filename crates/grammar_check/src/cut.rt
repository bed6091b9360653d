ghost use Rattle.std.specs.Prelude.{◌≡◌, ◌+◌, ◌*◌, ◌^◌};
ghost use Rattle.adp_model.specs.LimitFaults.{told};

/// Numbers above it count as it: it is above each limit, and sums, products and greatest numbers of cut numbers are
/// those of the numbers, cut.
pub const CUT: u64 = 1 << 63;

/// The sum, cut.
pub fn cut_sum(a: u64, b: u64) -> u64
    ensures { result ≡ told (a + b) }
{
    a.saturating_add(b).min(CUT)
}

/// The product, cut.
pub fn cut_product(a: u64, b: u64) -> u64
    ensures { result ≡ told (a * b) }
{
    a.saturating_mul(b).min(CUT)
}
