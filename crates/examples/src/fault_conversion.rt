ghost use Rattle.examples.specs.CarriedFaults.{ToSeat, ToRun};

use faults::fault::{RunFault, SeatFault, SheetFault};

/// A reading's answer, carried by `?` into a seat's.
pub fn carried_to_seat(read: Result<usize, SheetFault>) -> Result<usize, SeatFault>
    ensures { ToSeat read result }
{
    Ok(read?)
}

/// A reading's answer, carried by `?` through a seat's into a run's.
pub fn carried_to_run(read: Result<usize, SheetFault>) -> Result<usize, RunFault>
    ensures { ToRun read result }
{
    Ok(carried_to_seat(read)?)
}
