ghost use Rattle.std.specs.Prelude.{◌≤◌, length};
ghost use Rattle.elements.specs.Limits.{longest_list};
ghost use Rattle.elements.specs.Orders.{NeverFalls};

use crate::summary::{AtRank, Highlights, Summary};
use elements::ordered::Ordered;
use elements::rank::{median_rank, percentile_rank};

/// A list as a sheet carries it: in order, and not too long.
#[derive(Drop)]
pub(crate) struct SortedList<'a, T: Ordered> {
    pub(crate) list: &'a [T],
    ghost in_order: { NeverFalls T.Ordered.before list.now },
    ghost not_long: { length list.now ≤ longest_list },
}

impl<'a, T: Ordered> SortedList<'a, T> {
    ghost use Rattle.std.specs.Prelude.{◌≡◌, ◌-◌, ◌≤◌, length, slice_index_or};
    ghost use Rattle.sheets.specs.Summaries.{OfItsRank, HighlightsOf, Summarizes};

    /// The element at a rank's index; ranks count from 1.
    fn element_at(&self, rank: u32) -> T
        requires { (1 ≤ rank) × (rank ≤ length self.now.list.now) }
        ensures { result ≡ slice_index_or self.now.list.now (rank - 1) result }
    {
        self.list[rank as usize - 1]
    }

    /// The element of a rank.
    fn at_rank(&self, rank: u32) -> AtRank<T>
        requires first { 1 ≤ rank }
        requires last { rank ≤ length self.now.list.now }
        ensures rank { result.rank ≡ rank }
        ensures element { OfItsRank T.Ordered.before self.now.list.now result }
    {
        AtRank {
            rank,
            element: self.element_at(rank),
        }
    }

    /// How many elements the list has.
    fn count(&self) -> u32
        ensures { result ≡ length self.now.list.now }
    {
        self.list.len() as u32
    }

    /// The elements that a summary names, unless the list is empty.
    fn highlights(&self) -> Option<Highlights<T>>
        ensures { HighlightsOf T.Ordered.before self.now.list.now result }
    {
        let count = self.count();
        let median = median_rank(count).ok()?;
        let ninetieth = percentile_rank(90, count).ok()?;
        Some(Highlights {
            lowest: self.at_rank(1),
            median: self.at_rank(median),
            ninetieth: self.at_rank(ninetieth),
            highest: self.at_rank(count),
        })
    }

    /// The list in short.
    pub(crate) fn summary(&self) -> Summary<T>
        ensures { Summarizes T.Ordered.before self.now.list.now result }
    {
        Summary {
            count: self.count(),
            highlights: self.highlights(),
        }
    }
}
