ghost use Rattle.std.specs.Prelude.{◌≡◌};

use std::marker::{Model, PhantomData};

/// What a finished run hands out: the element of the rank asked for, and the number of verdicts that found it. Only the calls
/// of the protocol with the key `K` make one, so that whoever holds it holds what a run came to.
#[derive(Clone, Copy, PartialEq, Eq)]
pub struct Finished<K, T> {
    result: T,
    count: u32,
    key: PhantomData<K>,
}

impl<K, T> Model for Finished<K, T> {
    ghost use Rattle.runs.specs.Finishes.{Outcome};

    ghost Value = { Outcome T };

    ghost view = { λ f. record { result = f.result; count = f.count } };

    ghost inverse = { λ o. record { result = o.result; count = o.count; key = record {} } };
}

impl<K: Copy, T: Copy> Finished<K, T> {
    /// What a run of the protocol with this key hands out.
    pub fn issue(_key: K, element: T, count: u32) -> Finished<K, T>
        ensures { (result.result ≡ element) × (result.count ≡ count) }
    {
        Finished {
            result: element,
            count,
            key: PhantomData,
        }
    }

    /// The element of the rank asked for.
    pub fn result(&self) -> T
        ensures { result ≡ self.now.result }
    {
        self.result
    }

    /// The number of verdicts.
    pub fn count(&self) -> u32
        ensures { result ≡ self.now.count }
    {
        self.count
    }
}
