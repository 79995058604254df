ghost use Rattle.std.specs.Prelude.{◌≡◌};
ghost use Rattle.elements.specs.Limits.{longest_list, saturated};

/// A list has at most so many elements.
pub const LONGEST_LIST: u32 = 65_536;

/// How many elements a list has at most, as the length of a slice.
pub fn most_elements() -> usize
    ensures { result ≡ longest_list }
{
    LONGEST_LIST as usize
}

/// A number in 32 bits: itself, or the largest that fits.
pub fn saturated(n: u64) -> u32
    ensures { result ≡ saturated n }
{
    u32::try_from(n).unwrap_or(u32::MAX)
}
