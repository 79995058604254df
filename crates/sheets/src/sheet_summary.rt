ghost use Rattle.sheets.specs.Printing.{sheet_summary_text};
ghost use Rattle.sheets.specs.SheetSummaries.{IsReadAs, ChecksEither, AcceptsEither};

use crate::kind::Kind;
use crate::summary::{Summary, summarize};
use elements::delay::Delay;
use elements::link_level::LinkLevel;
use faults::fault::SheetFault;
use std::fmt;

/// A sheet of either kind in short.
#[derive(Clone, Copy)]
pub enum SheetSummary {
    Delays(Summary<Delay>),
    LinkLevels(Summary<LinkLevel>),
}

impl fmt::Display for SheetSummary {
    ghost output = { sheet_summary_text };

    fn fmt<W: fmt::Write>(&self, f: &mut fmt::Formatter<W>) -> fmt::Result {
        match self {
            SheetSummary::Delays(summary) => write!(f, "kind: delays\n{summary}"),
            SheetSummary::LinkLevels(summary) => write!(f, "kind: link levels\n{summary}"),
        }
    }
}

/// The kind as which a sheet is read: what calls itself neither is read as a sheet of delays.
fn kind_of(bytes: &[u8]) -> Kind
    ensures { IsReadAs bytes.now result }
{
    bytes
        .get(5)
        .and_then(|byte| Kind::try_from(*byte).ok())
        .unwrap_or(Kind::Delays)
}

/// Reads a sheet of either kind and sums its list up; what calls itself neither is refused as a sheet of delays.
pub fn check_sheet(
    bytes: &[u8],
    delays: &mut [Delay],
    levels: &mut [LinkLevel],
) -> Result<SheetSummary, SheetFault>
    ensures checks { ChecksEither bytes.now delays.old delays.new levels.old levels.new result }
    ensures accepts { AcceptsEither bytes.now delays.old levels.old result }
{
    match kind_of(bytes) {
        Kind::Delays => summarize(bytes, delays).map(SheetSummary::Delays),
        Kind::LinkLevels => summarize(bytes, levels).map(SheetSummary::LinkLevels),
    }
}
