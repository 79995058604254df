use rankunit::{Delay, LinkLevel, Ordered, SheetElement, read_sheet};
use std::alloc::{AllocError, Global};

/// How long a sheet is: how many elements it has, all of them zeros, how many bytes stand after them, and by how many bytes it
/// states too much.
#[derive(Clone, Copy)]
struct Length {
    name: &'static str,
    elements: u32,
    odd: u32,
    overstated: u32,
}

/// The longest sheets, and sheets that are one element longer.
static LENGTHS: [Length; 6] = [
    Length {
        name: "65536",
        elements: 65_536,
        odd: 0,
        overstated: 0,
    },
    Length {
        name: "65536, and the count differs",
        elements: 65_536,
        odd: 0,
        overstated: 1,
    },
    Length {
        name: "65536 and a byte",
        elements: 65_536,
        odd: 1,
        overstated: 0,
    },
    Length {
        name: "65537",
        elements: 65_537,
        odd: 0,
        overstated: 0,
    },
    Length {
        name: "65537, and the count differs",
        elements: 65_537,
        odd: 0,
        overstated: 1,
    },
    Length {
        name: "65537 and a byte",
        elements: 65_537,
        odd: 1,
        overstated: 0,
    },
];

/// A sheet of such a length.
fn zeros<T: SheetElement>(heap: Global, length: Length) -> Result<Vec<u8>, AllocError> {
    let body = length
        .elements
        .saturating_mul(T::BYTES_EACH as u32)
        .saturating_add(length.odd);
    let stated = body.saturating_add(1).saturating_add(length.overstated);
    let mut bytes = vec![in heap; 1]?;
    bytes.extend_from_slice(&stated.to_be_bytes())?;
    bytes.push(T::kind_byte())?;
    bytes.resize(6 + body as usize, 0)?;
    Ok(bytes)
}

/// Prints how a sheet of each length is answered.
fn print_kind<T: SheetElement>(rt: &HostRuntime, what: &str) -> anyhow::Result<()> {
    let mut list = vec![in rt.alloc(); T::sample(); 65_536]?;
    for length in LENGTHS {
        let name = length.name;
        let bytes = zeros::<T>(rt.alloc(), length)?;
        match read_sheet(&bytes, None, &mut list) {
            Ok(read) => println!(rt; "{what}, {name}: {read} read")?,
            Err(fault) => println!(rt; "{what}, {name}: {fault}")?,
        }
    }
    Ok(())
}

/// Sheets of both kinds that are as long as may be, and longer.
pub(crate) fn print_lengths(rt: &HostRuntime) -> anyhow::Result<()> {
    print_kind::<Delay>(rt, "delays")?;
    print_kind::<LinkLevel>(rt, "link levels")
}
