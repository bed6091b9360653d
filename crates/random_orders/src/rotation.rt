ghost use Rattle.std.specs.Prelude.{◌≡◌, ◌+◌, ◌<◌, ◌%◌};

/// Number `t` of the rotation of the numbers below `m` that begins at `start`.
pub fn rotated(start: u32, m: u32, t: u32) -> u32
    requires start { start < m }
    requires turn { t < m }
    ensures { result ≡ (start + t) % m }
{
    let before_zero = m - start;
    if t < before_zero {
        start + t
    } else {
        t - before_zero
    }
}
