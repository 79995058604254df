ghost use Rattle.std.specs.Prelude.{◌*◌, ◌≤◌, length};

use rankunit::Delay;

/// Some delays in parts, one after another, of so many delays each. Past the last part there may be some left.
#[derive(Clone, Copy)]
pub(crate) struct Parts<'a> {
    pub(crate) delays: &'a [Delay],
    pub(crate) number: u32,
    pub(crate) each: usize,
    ghost enough: { number * each ≤ length delays.now },
}

impl<'a> Parts<'a> {
    ghost use Rattle.std.specs.Prelude.{◌≡◌, ◌+◌, ◌/◌, [], ◌∷◌, IfSome, IfNone};
    ghost use Rattle.rankunit_c.specs.Measures.{parts};
    ghost use Rattle.rankunit_c.specs.PartLists.{lists_of};

    /// So many equal parts.
    pub(crate) fn equal(delays: &'a [Delay], number: u32) -> Parts<'a>
        ensures { lists_of result ≡ parts number (length delays.now / number) delays.now }
    {
        Parts {
            delays,
            number,
            each: delays.len().checked_div(number as usize).unwrap_or(0),
        }
    }

    /// The first part, and the others.
    pub(crate) fn split_first(&self) -> Option<(&'a [Delay], Parts<'a>)>
        ensures some { IfSome result (λ first. lists_of self.now ≡ first.0.now ∷ lists_of first.1) }
        ensures number { IfSome result (λ first. self.now.number ≡ first.1.number + 1) }
        ensures none { IfNone result (lists_of self.now ≡ []) }
    {
        let number = self.number.checked_sub(1)?;
        let (first, delays) = self.delays.split_at(self.each);
        let later = Parts {
            delays,
            number,
            each: self.each,
        };
        Some((first, later))
    }
}
