ghost use Rattle.std.specs.Prelude.{◌≡◌};
ghost use Rattle.referees.specs.SecretShares.{shares_of, reconstructed};

use crate::shares::Shares;

/// Two words of a strip, which split the two numbers of one question. Nobody else sees them, and splitting moves them, so
/// they split nothing else.
#[derive(Drop)]
pub(crate) struct Masks {
    first: u64,
    second: u64,
}

/// The two numbers of a question, each in two shares by a word of its own.
#[derive(Drop)]
pub(crate) struct SharedNumbers {
    a: Shares,
    b: Shares,
}

impl Masks {
    pub(crate) fn new(first: u64, second: u64) -> Masks
        ensures { (result.first ≡ first) × (result.second ≡ second) }
    {
        Masks { first, second }
    }

    pub(crate) fn split(self, a: u64, b: u64) -> SharedNumbers
        ensures by_own_word { (result.a ≡ shares_of a self.first) × (result.b ≡ shares_of b self.second) }
        ensures reconstructs { (reconstructed result.a ≡ a) × (reconstructed result.b ≡ b) }
    {
        SharedNumbers {
            a: Shares::split(a, self.first),
            b: Shares::split(b, self.second),
        }
    }
}

impl SharedNumbers {
    pub(crate) fn reconstruct(self) -> (u64, u64)
        ensures { result ≡ (reconstructed self.a, reconstructed self.b) }
    {
        (self.a.reconstruct(), self.b.reconstruct())
    }
}
