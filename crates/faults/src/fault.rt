ghost use Rattle.std.specs.Prelude.{◌≡◌, Some};
ghost use Rattle.faults.specs.RefusalOrder.{answered};
ghost use Rattle.faults.specs.declared.fault_info.FaultInfo.{FaultInfo};
ghost use Rattle.faults.specs.FaultInfos.{info_of, notice_of, sheet_info, seat_info, run_info, SeatKeepsSheet, RunKeepsSeat};
ghost use Rattle.faults.specs.Printing.{fault_line};

use crate::fault_info::{FaultInfo, HasNotice, Layer, Notice};
use crate::refusal::Refusal;
use crate::seat::Seat;
use std::fmt;

// A refusal and its seat are two fields in each of the three: a struct of the two would be `SheetFault` by another name.

/// A sheet was refused.
#[derive(Clone, Copy, Debug, PartialEq, Eq)]
pub struct SheetFault {
    pub refusal: Refusal,
    pub seat: Option<Seat>,
}

// An enum for each layer: one generic enum would need a parameter that names the layer, and is no plainer.

/// A seat's own call was refused, or the sheet under it.
#[derive(Clone, Copy, Debug, PartialEq, Eq)]
pub enum SeatFault {
    OfSheet(SheetFault),
    Own(Refusal, Option<Seat>),
}

/// A run's call or a rank call was refused, or the seat's call under it.
#[derive(Clone, Copy, Debug, PartialEq, Eq)]
pub enum RunFault {
    OfSeat(SeatFault),
    Own(Refusal, Option<Seat>),
}

/// A fault of any layer, which has a refusal, a layer and perhaps a seat.
pub trait Fault: Copy {
    ghost carries: { Self → FaultInfo };

    fn info(self) -> FaultInfo
        ensures { result ≡ carries self };
}

/// A refusal by a layer, for a seat.
fn info_of(refusal: Refusal, layer: Layer, seat: Option<Seat>) -> FaultInfo
    ensures { result ≡ info_of refusal layer seat }
{
    FaultInfo {
        refusal,
        layer,
        seat,
    }
}

impl Fault for SheetFault {
    ghost carries = { sheet_info };

    fn info(self) -> FaultInfo {
        info_of(self.refusal, Layer::Sheet, self.seat)
    }
}

// The next two differ in the fault below and in the layer.

impl Fault for SeatFault {
    ghost carries = { seat_info };

    fn info(self) -> FaultInfo {
        match self {
            SeatFault::OfSheet(fault) => fault.info(),
            SeatFault::Own(refusal, seat) => info_of(refusal, Layer::Seat, seat),
        }
    }
}

impl Fault for RunFault {
    ghost carries = { run_info };

    fn info(self) -> FaultInfo {
        match self {
            RunFault::OfSeat(fault) => fault.info(),
            RunFault::Own(refusal, seat) => info_of(refusal, Layer::Run, seat),
        }
    }
}

// The notice of a fault is that of what it says, whichever layer it is of.

impl HasNotice for SheetFault {
    ghost tells = { λ fault. notice_of (sheet_info fault) };

    fn notice(self) -> Notice {
        self.info().notice()
    }
}

impl HasNotice for SeatFault {
    ghost tells = { λ fault. notice_of (seat_info fault) };

    fn notice(self) -> Notice {
        self.info().notice()
    }
}

impl HasNotice for RunFault {
    ghost tells = { λ fault. notice_of (run_info fault) };

    fn notice(self) -> Notice {
        self.info().notice()
    }
}

// One impl for each step: each converts a type of its own.

impl From<SheetFault> for SeatFault {
    ghost from_gives = { SeatKeepsSheet };

    fn from(e: SheetFault) -> SeatFault {
        SeatFault::OfSheet(e)
    }
}

impl From<SeatFault> for RunFault {
    ghost from_gives = { RunKeepsSeat };

    fn from(e: SeatFault) -> RunFault {
        RunFault::OfSeat(e)
    }
}

// One impl for each fault: Rust lets none stand for every type of a trait.

impl fmt::Display for SheetFault {
    ghost output = { λ x. Some (fault_line (sheet_info x)) };

    fn fmt<W: fmt::Write>(&self, f: &mut fmt::Formatter<W>) -> fmt::Result {
        self.info().fmt(f)
    }
}

impl fmt::Display for SeatFault {
    ghost output = { λ x. Some (fault_line (seat_info x)) };

    fn fmt<W: fmt::Write>(&self, f: &mut fmt::Formatter<W>) -> fmt::Result {
        self.info().fmt(f)
    }
}

impl fmt::Display for RunFault {
    ghost output = { λ x. Some (fault_line (run_info x)) };

    fn fmt<W: fmt::Write>(&self, f: &mut fmt::Formatter<W>) -> fmt::Result {
        self.info().fmt(f)
    }
}

/// Lets a call go on where no check refuses it, and else answers the refusal, as the run's, for the seat that the call was given.
pub fn unless_refused(refusal: Option<Refusal>, seat: Option<Seat>) -> Result<(), RunFault>
    ensures { result ≡ answered refusal seat tt }
{
    match refusal {
        Some(refusal) => Err(RunFault::Own(refusal, seat)),
        None => Ok(()),
    }
}
