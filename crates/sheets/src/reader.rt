ghost use Rattle.std.specs.Prelude.{◌≡◌};
ghost use Rattle.sheets.specs.Readings.{with_seat, Reads, Answers, ReaderLaw};

use crate::header::check_header;
use crate::sheet_element::SheetElement;
use faults::fault::SheetFault;
use faults::refusal::Refusal;
use faults::seat::Seat;

/// Reads the list of a sheet into the slice, and answers its length.
fn read_list<T: SheetElement>(bytes: &[u8], list: &mut [T]) -> Result<usize, Refusal>
    ensures { Reads T.Ordered.before T.SheetElement.format bytes.now list.old list.new result }
{
    let body = check_header::<T>(bytes)?;
    if let Some(number) = body.first_fall() {
        return Err(Refusal::OutOfOrder(number as u64));
    }
    if list.len() < body.len() {
        return Err(Refusal::SliceTooShort);
    }
    body.fill(list);
    Ok(body.len())
}

/// What a reading answers, for the seat that it was made for.
fn with_seat(seat: Option<Seat>, read: Result<usize, Refusal>) -> Result<usize, SheetFault>
    ensures { result ≡ with_seat seat read }
{
    read.map_err(|refusal| SheetFault { refusal, seat })
}

/// Reads a sheet for a seat, or for none: fills the slice from its start and answers how many elements it read. The caller
/// lends the slice, since nothing here allocates, and sees all of it afterwards: so a number is answered and no part of it.
pub fn read_sheet<T: SheetElement>(
    bytes: &[u8],
    seat: Option<Seat>,
    list: &mut [T],
) -> Result<usize, SheetFault>
    ensures answers { Answers T.Ordered.before T.SheetElement.format bytes.now list.old list.new seat result }
    ensures law { ReaderLaw T.Ordered.before T.SheetElement.format bytes.now list.old list.new result }
{
    with_seat(seat, read_list(bytes, list))
}
