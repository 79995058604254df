ghost use Rattle.std.specs.Prelude.{◌≡◌, ◌≤◌, IfOk};
ghost use Rattle.rankunit.specs.Elements.Delays.{delay_before};
ghost use Rattle.rankunit.specs.Elements.Limits.{longest_list};
ghost use Rattle.rankunit.specs.Elements.LinkLevels.{level_before};
ghost use Rattle.rankunit.specs.Sheets.Formats.{delay_format, level_format};
ghost use Rattle.rankunit_c.specs.Readings.{reading_of, IsReading};

use crate::number::{refusal_number, spot_number};
use rankunit::{Delay, LinkLevel, SheetElement, SheetFault, read_sheet};

/// What a sheet comes to: how many elements were read, or the refusal with its spot.
#[repr(C)]
#[derive(Clone, Copy)]
pub struct Reading {
    pub refusal: u32,
    pub count: u32,
    pub spot: u64,
}

/// What the reader answers, as numbers.
fn reading_of(read: Result<usize, SheetFault>) -> Reading
    requires { IfOk read (λ count. count ≤ longest_list) }
    ensures { result ≡ reading_of read }
{
    match read {
        Ok(count) => Reading {
            refusal: 0,
            count: count as u32,
            spot: 0,
        },
        Err(fault) => Reading {
            refusal: refusal_number(fault.refusal),
            count: 0,
            spot: spot_number(fault.refusal),
        },
    }
}

/// Reads a sheet for no seat.
fn read<T: SheetElement>(bytes: &[u8], list: &mut [T]) -> Reading
    ensures { IsReading T.Ordered.before T.SheetElement.format bytes.now list.old list.new result }
{
    reading_of(read_sheet(bytes, None, list))
}

/// Reads a sheet of delays.
#[unsafe(no_mangle)]
pub extern "C" fn rankunit_read_delays(bytes: &[u8], list: &mut [Delay]) -> Reading
    ensures { IsReading delay_before delay_format bytes.now list.old list.new result }
{
    read(bytes, list)
}

/// Reads a sheet of link levels.
#[unsafe(no_mangle)]
pub extern "C" fn rankunit_read_link_levels(bytes: &[u8], list: &mut [LinkLevel]) -> Reading
    ensures { IsReading level_before level_format bytes.now list.old list.new result }
{
    read(bytes, list)
}
