ghost use Rattle.std.specs.Prelude.{◌≡◌, Some};
ghost use Rattle.faults.specs.FaultInfos.{notice_of};
ghost use Rattle.faults.specs.Printing.{layer_text, text_or_dash, notice_line, fault_line};

use crate::refusal::Refusal;
use crate::seat::Seat;
use std::fmt;

/// The part of the unit that refused.
#[derive(Clone, Copy, Debug, PartialEq, Eq)]
pub enum Layer {
    Sheet,
    Seat,
    Run,
}

/// What a fault says, whatever layers it has come through: the refusal, which has a number and may have a spot, the layer
/// that refused, and the seat that the call was made for.
#[derive(Clone, Copy, Debug, PartialEq, Eq)]
pub struct FaultInfo {
    pub refusal: Refusal,
    pub layer: Layer,
    pub seat: Option<Seat>,
}

/// What a fault is outside: the number of its refusal, the layer, the seat and the spot. Any number and any spot can stand here, so
/// that a fault of a user's own has a line too.
#[derive(Clone, Copy, Debug, PartialEq, Eq)]
pub struct Notice {
    pub number: u8,
    pub layer: Layer,
    pub seat: Option<Seat>,
    pub spot: Option<u64>,
}

/// Whatever has a notice.
pub trait HasNotice: Copy {
    ghost use Rattle.faults.specs.declared.fault_info.Notice.{Notice};

    ghost tells: { Self → Notice };

    fn notice(self) -> Notice
        ensures { result ≡ tells self };
}

impl HasNotice for FaultInfo {
    ghost tells = { notice_of };

    fn notice(self) -> Notice {
        Notice {
            number: self.refusal.number(),
            layer: self.layer,
            seat: self.seat,
            spot: self.refusal.spot(),
        }
    }
}

impl fmt::Display for Layer {
    ghost output = { λ x. Some (layer_text x) };

    fn fmt<W: fmt::Write>(&self, f: &mut fmt::Formatter<W>) -> fmt::Result {
        match self {
            Layer::Sheet => write!(f, "sheet"),
            Layer::Seat => write!(f, "seat"),
            Layer::Run => write!(f, "run"),
        }
    }
}

/// A value where there is one, else a dash.
#[derive(Drop)]
struct OrDash<T>(Option<T>);

impl<T: fmt::Display> fmt::Display for OrDash<T> {
    ghost output = { λ x. text_or_dash T.Display.output x.0 };

    fn fmt<W: fmt::Write>(&self, f: &mut fmt::Formatter<W>) -> fmt::Result {
        match &self.0 {
            Some(value) => write!(f, "{value}"),
            None => write!(f, "-"),
        }
    }
}

impl fmt::Display for Notice {
    ghost output = { λ x. Some (notice_line x) };

    fn fmt<W: fmt::Write>(&self, f: &mut fmt::Formatter<W>) -> fmt::Result {
        let Notice {
            number,
            layer,
            seat,
            spot,
        } = self;
        let seat = OrDash(*seat);
        let spot = OrDash(*spot);
        write!(f, "refused {number} {layer} {seat} {spot}")
    }
}

impl fmt::Display for FaultInfo {
    ghost output = { λ x. Some (fault_line x) };

    fn fmt<W: fmt::Write>(&self, f: &mut fmt::Formatter<W>) -> fmt::Result {
        self.notice().fmt(f)
    }
}
