ghost use Rattle.std.specs.Prelude.{◌≡◌, true, false};
ghost use Rattle.runs.specs.Slips.{spent};

use std::marker::PhantomData;

/// Handed out with a run over elements of `T`. It may be dropped only when it is spent, and only the calls that end a run of the
/// protocol with the key `K` spend it: the key is a type that nobody else can make a value of.
pub struct Slip<K, T> {
    spent: bool,
    key: PhantomData<K>,
    elements: PhantomData<T>,
}

impl<K, T> Drop for Slip<K, T> {
    fn drop(self)
        requires { spent self ≡ true }
    {
        let Slip {
            spent: _,
            key: _,
            elements: _,
        } = self;
    }
}

impl<K: Copy, T> Slip<K, T> {
    /// A slip to be taken back later.
    pub fn issue(_key: K) -> Slip<K, T>
        ensures { spent result ≡ false }
    {
        Slip {
            spent: false,
            key: PhantomData,
            elements: PhantomData,
        }
    }

    /// Takes a slip back, and so lets it go.
    pub fn take_back(mut self, _key: K) {
        self.spent = true;
    }
}
