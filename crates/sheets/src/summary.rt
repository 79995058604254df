ghost use Rattle.sheets.specs.Printing.{at_rank_text, summary_text};
ghost use Rattle.std.specs.Prelude.{length};
ghost use Rattle.sheets.specs.Summaries.{Checks, AcceptsAll};

use crate::reader::read_sheet;
use crate::sheet_element::SheetElement;
use crate::sorted_list::SortedList;
use faults::fault::SheetFault;
use std::fmt;

/// An element of a list, with its rank among the list's elements.
#[derive(Clone, Copy)]
pub struct AtRank<T> {
    pub rank: u32,
    pub element: T,
}

/// The elements of a list that its summary names.
#[derive(Clone, Copy)]
pub struct Highlights<T> {
    pub lowest: AtRank<T>,
    pub median: AtRank<T>,
    pub ninetieth: AtRank<T>,
    pub highest: AtRank<T>,
}

/// A list in short: how many elements it has and, unless it is empty, some of them.
#[derive(Clone, Copy)]
pub struct Summary<T> {
    pub count: u32,
    pub highlights: Option<Highlights<T>>,
}

impl<T: fmt::Display> fmt::Display for AtRank<T> {
    ghost output = { at_rank_text T.Display.output };

    fn fmt<W: fmt::Write>(&self, f: &mut fmt::Formatter<W>) -> fmt::Result {
        let AtRank { rank, element } = self;
        write!(f, "{element} (rank {rank})")
    }
}

impl<T: fmt::Display> fmt::Display for Summary<T> {
    ghost output = { summary_text T.Display.output };

    fn fmt<W: fmt::Write>(&self, f: &mut fmt::Formatter<W>) -> fmt::Result {
        let Summary { count, highlights } = self;
        match highlights {
            None => write!(f, "elements: {count} (the list is empty)"),
            Some(
                Highlights {
                    lowest,
                    median,
                    ninetieth,
                    highest,
                },
            ) => {
                write!(
                    f,
                    "elements: {count}\nlowest: {lowest}\nmedian: {median}\n90th percentile: {ninetieth}\nhighest: {highest}"
                )
            }
        }
    }
}

/// Reads a sheet of one type and sums its list up.
pub fn summarize<T: SheetElement>(bytes: &[u8], list: &mut [T]) -> Result<Summary<T>, SheetFault>
    ensures checks { Checks T.Ordered.before T.SheetElement.format bytes.now list.old list.new result }
    ensures accepts { AcceptsAll T.Ordered.before T.SheetElement.format bytes.now (length list.old) result }
{
    let count = read_sheet(bytes, None, list)?;
    let read = SortedList {
        list: &list[..count],
    };
    Ok(read.summary())
}
