ghost use Rattle.std.specs.Prelude.{Some};
ghost use Rattle.faults.specs.Printing.{seat_text};

use std::fmt;

/// Whom a call was made for: a side of a pair, or a seat of a group by its number from 1.
#[derive(Clone, Copy, Debug, PartialEq, Eq)]
pub enum Seat {
    A,
    B,
    Numbered(u32),
}

impl fmt::Display for Seat {
    ghost output = { λ x. Some (seat_text x) };

    fn fmt<W: fmt::Write>(&self, f: &mut fmt::Formatter<W>) -> fmt::Result {
        match self {
            Seat::A => write!(f, "A"),
            Seat::B => write!(f, "B"),
            Seat::Numbered(n) => write!(f, "{n}"),
        }
    }
}
