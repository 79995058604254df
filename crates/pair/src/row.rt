ghost use Rattle.std.specs.Prelude.{◌≡◌};
ghost use Rattle.pair.specs.Rows.{row_length};

/// How many entries a row for rank k has: the smallest power of two that is at least k.
#[tactic(auto, using(crate::proofs::Halvings::next_power_is_row_length))]
pub(crate) fn row_length(k: u32) -> u64
    ensures { result ≡ row_length k }
{
    (k as u64).next_power_of_two()
}
