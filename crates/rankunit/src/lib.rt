//! The rank unit as its users see it: every call and type that a program needs, each under one name. A program lists this crate
//! alone. Nothing is written here; each name comes from the library that holds it, and its contract with it.
#![tactic(auto)]

// Elements: ordered and placed types, delays and link levels, entries, and the ranks that are asked for most.
pub use elements::delay::Delay;
pub use elements::entry::Entry;
pub use elements::limits::LONGEST_LIST;
pub use elements::link_level::LinkLevel;
pub use elements::ordered::{Ordered, OrderedByCmp};
pub use elements::placed::Placed;
pub use elements::rank::{median_rank, percentile_rank};

// Refusals: what a call refuses with, and the faults that carry it from layer to layer.
pub use faults::fault::{Fault, RunFault, SeatFault, SheetFault};
pub use faults::fault_info::{FaultInfo, HasNotice, Layer, Notice};
pub use faults::refusal::Refusal;
pub use faults::seat::Seat;

// Referees: the traits with what questions take and answer, and the kinds of referees that there are.
pub use referees::operand::{EntryKind, Operand};
pub use referees::plain::Plain;
pub use referees::quota::Quota;
pub use referees::referee::{Referee, Stocked, out_of_stock};
pub use referees::spare::Spare;
pub use referees::strip::Strip;
pub use referees::sums::Sums;
pub use referees::verdict::{GroupVerdict, PairVerdict};

// Questions as values, played in turn to a referee or to a pile of them.
pub use referees::pile::{PileNumbers, play_on_pile};
pub use referees::play::{Line, Outcome, Tally, play};
pub use referees::question::{Answer, Question, ask};

// Runs: their stages, the slip that a run is ended with, what a finished one hands out, and what a refused call gives back.
pub use runs::finished::Finished;
pub use runs::refused::Refused;
pub use runs::slip::Slip;
pub use runs::stage::{Closing, Comparing, Stage};

// The run of a pair.
pub use pair::opening::open as open_pair;
pub use pair::run::{Advanced as PairAdvanced, OfPair, Run as PairRun, StagedRun as StagedPairRun};
pub use pair::side::Side;
pub use pair::window::Window;

// The run of a group.
pub use group::counts::Counts;
pub use group::opening::open as open_group;
pub use group::range::Range;
pub use group::run::{
    Advanced as GroupAdvanced, OfGroup, Run as GroupRun, StagedRun as StagedGroupRun,
};

// Seats: the honest report of a list, and a whole run of a pair that honest seats play.
pub use seats::group_seat::report_of_group;
pub use seats::honest_run::find_rank;
pub use seats::pair_seat::report_of_pair;

// Sheets: lists as bytes, read into a slice or summed up.
pub use sheets::kind::{Kind, UnknownKind};
pub use sheets::reader::read_sheet;
pub use sheets::sheet_element::{OfNamedKind, SheetElement};
pub use sheets::sheet_summary::{SheetSummary, check_sheet};
pub use sheets::summary::{AtRank, Highlights, Summary, summarize};

// Requests: a rank and two sheets in one row of bytes, and the lines of what they come to.
pub use requests::answer::answer as answer_request;
pub use requests::outcome::RequestOutcome;
pub use requests::request::{MOST_VERDICTS, most_delays};
