ghost use Rattle.std.specs.Prelude.{◌≡◌};
ghost use Rattle.referees.specs.SecretShares.{shares_of, reconstructed};

/// A number in two shares: a word, and the difference from it modulo 2^64.
#[derive(Drop)]
pub struct Shares {
    pub word: u64,
    pub difference: u64,
}

impl Shares {
    /// The shares of a number by a word; together they are the number again, whatever the word is.
    pub fn split(number: u64, word: u64) -> Shares
        ensures shares { result ≡ shares_of number word }
        ensures reconstructs { reconstructed result ≡ number }
    {
        Shares {
            word,
            difference: number.wrapping_sub(word),
        }
    }

    /// The number whose shares these are: both added modulo 2^64.
    pub fn reconstruct(self) -> u64
        ensures { result ≡ reconstructed self }
    {
        self.word.wrapping_add(self.difference)
    }
}
