//! Flags, by numbers.

ghost use Rattle.std.specs.Prelude.{◌≡◌, ◌<◌, false, length, slice_index_or};
ghost use Rattle.cell_tables.specs.Flags.{IsRaised};

/// A flag; those that are not there are not set.
#[inline]
pub fn flag(flags: &[bool], number: usize) -> bool
    ensures { result ≡ slice_index_or flags.now number false }
{
    flags.get(number).copied().unwrap_or(false)
}

/// Sets a flag, where this one is set.
pub fn raise(flags: &mut Vec<bool>, number: usize, flag: bool)
    requires { number < length flags.old.items }
    ensures { IsRaised flags.old.items flags.new.items number flag }
{
    if flag {
        flags[number] = true;
    }
}
