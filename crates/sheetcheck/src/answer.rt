ghost use Rattle.std.specs.Prelude.{◌≡◌, ◌+◌, take, length, IfSome, IfOk};
ghost use Rattle.rankunit.specs.Elements.Limits.{longest_list};
ghost use Rattle.sheetcheck.specs.InputAnswers.{most_bytes, ChecksSheet, AnswersInput, answer_text};

use rankunit::{Delay, LONGEST_LIST, LinkLevel, Ordered, SheetFault, SheetSummary, check_sheet};
use std::alloc::{AllocError, Global};
use std::io::Read;
use std::{fmt, io};

/// Inputs of up to so many bytes, 64 MiB, are answered as sheets; a longer one is too long.
const MOST_BYTES: u32 = 67_108_864;

/// What an input is answered: as a sheet, summed up or refused, or that it is too long, over so many bytes.
#[derive(Drop)]
pub enum InputAnswer {
    Sheet(Result<SheetSummary, SheetFault>),
    TooLong(u32),
}

impl fmt::Display for InputAnswer {
    ghost output = { answer_text };

    fn fmt<W: fmt::Write>(&self, f: &mut fmt::Formatter<W>) -> fmt::Result {
        match self {
            InputAnswer::Sheet(Ok(summary)) => summary.fmt(f),
            InputAnswer::Sheet(Err(fault)) => fault.fmt(f),
            InputAnswer::TooLong(most) => write!(f, "too long: over {most} bytes"),
        }
    }
}

/// Reads an input up to so many bytes, and one more, so that a longer input is seen to be longer.
fn read_input<R: Read + Drop>(heap: Global, input: R, most: u32) -> io::Result<Vec<u8>>
    ensures { IfSome (R.remaining input) (λ xs. IfOk result (λ bytes. bytes.items ≡ take (most + 1) xs)) }
{
    let mut bytes = Vec::new(heap);
    input.take(most as u64 + 1).read_to_end(&mut bytes)?;
    Ok(bytes)
}

/// A slice in which the longest list has room.
fn room_for<T: Ordered + Drop>(heap: Global) -> Result<Vec<T>, AllocError>
    ensures { IfOk result (λ list. length list.items ≡ longest_list) }
{
    vec![in heap; T::sample(); LONGEST_LIST as usize]
}

/// Checks a sheet of either kind, with room for the longest list.
fn check_whole(heap: Global, bytes: &[u8]) -> Result<Result<SheetSummary, SheetFault>, AllocError>
    ensures { IfOk result (ChecksSheet bytes.now) }
{
    let mut delays = room_for(heap)?;
    let mut levels = room_for(heap)?;
    Ok(check_sheet(bytes, &mut delays, &mut levels))
}

/// Answers an input: whole, as a sheet of either kind, if it has at most so many bytes. An error says whether reading or room for
/// the lists was wanting.
fn answer_up_to<R: Read + Drop>(heap: Global, input: R, most: u32) -> anyhow::Result<InputAnswer>
    ensures { IfSome (R.remaining input) (λ xs. IfOk result (AnswersInput most xs)) }
{
    let bytes = read_input(heap, input, most)?;
    if bytes.len() > most as usize {
        return Ok(InputAnswer::TooLong(most));
    }
    Ok(InputAnswer::Sheet(check_whole(heap, &bytes)?))
}

/// Answers an input: whole, as a sheet of either kind, if it has at most `MOST_BYTES`. A longer one is read for one byte more.
pub fn answer_input<R: Read + Drop>(heap: Global, input: R) -> anyhow::Result<InputAnswer>
    ensures { IfSome (R.remaining input) (λ xs. IfOk result (AnswersInput most_bytes xs)) }
{
    answer_up_to(heap, input, MOST_BYTES)
}
