use rankunit::{Delay, LinkLevel, Seat, SheetElement, read_sheet};
use std::fmt::Display;
use std::io;

/// A sheet, and what it is an example of.
#[derive(Clone, Copy)]
struct Case {
    name: &'static str,
    bytes: &'static [u8],
}

/// Sheets that are read as delays, into a slice of three.
static DELAYS: [Case; 19] = [
    Case {
        name: "no bytes",
        bytes: b"",
    },
    Case {
        name: "five bytes",
        bytes: b"\x01\0\0\0\x01",
    },
    Case {
        name: "short, and of another version",
        bytes: b"\x02\0\0\0\x01",
    },
    Case {
        name: "version 2",
        bytes: b"\x02\0\0\0\x01\x01",
    },
    Case {
        name: "version 0, and the count differs",
        bytes: b"\0\0\0\0\x02\x01",
    },
    Case {
        name: "a count too low",
        bytes: b"\x01\0\0\0\x04\x01\0\0\0\x28",
    },
    Case {
        name: "a count too high, and of another kind",
        bytes: b"\x01\0\0\0\x06\x02\0\0\0\x28",
    },
    Case {
        name: "a count in little-endian",
        bytes: b"\x01\x05\0\0\0\x01\0\0\0\x28",
    },
    Case {
        name: "link levels where delays are wanted",
        bytes: b"\x01\0\0\0\x09\x02\0\0\0\0\0\0\0\x01",
    },
    Case {
        name: "kind 3, and no whole number of elements",
        bytes: b"\x01\0\0\0\x04\x03\0\0\0",
    },
    Case {
        name: "no whole number of elements",
        bytes: b"\x01\0\0\0\x04\x01\0\0\0",
    },
    Case {
        name: "no whole number of elements, and they fall",
        bytes: b"\x01\0\0\0\x0a\x01\0\0\0\x02\0\0\0\x01\0",
    },
    Case {
        name: "falls at the third",
        bytes: b"\x01\0\0\0\x0d\x01\0\0\0\x14\0\0\0\x46\0\0\0\x1f",
    },
    Case {
        name: "falls at the second and third",
        bytes: b"\x01\0\0\0\x0d\x01\0\0\0\x03\0\0\0\x02\0\0\0\x01",
    },
    Case {
        name: "falls, and is longer than the slice",
        bytes: b"\x01\0\0\0\x11\x01\0\0\0\x01\0\0\0\x02\0\0\0\x03\0\0\0\0",
    },
    Case {
        name: "longer than the slice",
        bytes: b"\x01\0\0\0\x11\x01\0\0\0\x01\0\0\0\x02\0\0\0\x03\0\0\0\x04",
    },
    Case {
        name: "no elements",
        bytes: b"\x01\0\0\0\x01\x01",
    },
    Case {
        name: "equal elements",
        bytes: b"\x01\0\0\0\x09\x01\0\0\0\x1f\0\0\0\x1f",
    },
    Case {
        name: "the least and the greatest",
        bytes: b"\x01\0\0\0\x09\x01\0\0\0\0\xff\xff\xff\xff",
    },
];

/// Sheets that are read as link levels, into a slice of two.
static LEVELS: [Case; 5] = [
    Case {
        name: "delays where levels are wanted",
        bytes: b"\x01\0\0\0\x05\x01\0\0\0\x28",
    },
    Case {
        name: "half a level",
        bytes: b"\x01\0\0\0\x05\x02\0\0\0\x28",
    },
    Case {
        name: "the least and the greatest level",
        bytes: b"\x01\0\0\0\x11\x02\x80\0\0\0\0\0\0\0\x7f\xff\xff\xff\xff\xff\xff\xff",
    },
    Case {
        name: "a negative level after a positive one",
        bytes: b"\x01\0\0\0\x11\x02\0\0\0\x01\0\0\0\0\xff\xff\xff\xff\0\0\0\0",
    },
    Case {
        name: "one level, links falling",
        bytes: b"\x01\0\0\0\x11\x02\xff\xff\xef\x66\0\0\0\x07\xff\xff\xef\x66\0\0\0\x06",
    },
];

/// Prints what reading a sheet for a seat answers and, where it is accepted, what the slice then holds.
fn print_reading<T: SheetElement + Display>(
    rt: &HostRuntime,
    case: Case,
    seat: Option<Seat>,
    list: &mut [T],
) -> io::Result<()> {
    let Case { name, bytes } = case;
    match read_sheet(bytes, seat, list) {
        Ok(count) => {
            print!(rt; "{name}: {count} read, slice")?;
            for x in list.iter() {
                print!(rt; " {x}")?;
            }
            println!(rt; "")
        }
        Err(fault) => println!(rt; "{name}: {fault}"),
    }
}

/// What the reader answers to each sheet of the tables, right ones and wrong ones, and leaves in the slice.
pub(crate) fn print_readings(rt: &HostRuntime) -> io::Result<()> {
    for case in DELAYS {
        print_reading(rt, case, Some(Seat::B), &mut [Delay { micros: 9 }; 3])?;
    }
    for case in LEVELS {
        print_reading(
            rt,
            case,
            Some(Seat::Numbered(16)),
            &mut [LinkLevel { level: 9, link: 9 }; 2],
        )?;
    }
    Ok(())
}
