ghost use Rattle.std.specs.Prelude.{◌≡◌};
ghost use Rattle.requests.specs.RequestLayout.{stated_end};
ghost use Rattle.requests.specs.Rooms.{most_delays};

use elements::delay::Delay;
use sheets::sheet_element::SheetElement;

/// Ahead of the elements of a request's first sheet stand the rank, of four bytes, and a header of six.
const BYTES_AHEAD: usize = 4 + 6;

/// How many delays at most either sheet has in a request of so many bytes.
pub fn most_delays(bytes: usize) -> usize
    ensures { result ≡ most_delays bytes }
{
    bytes.saturating_sub(BYTES_AHEAD) / Delay::BYTES_EACH
}

/// No request comes to more verdicts: an accepted rank is at most 2 * 65,536, which is 2^17.
pub const MOST_VERDICTS: usize = 17;

/// A request taken apart: the rank, and the bytes of A's sheet and of B's.
#[derive(Drop)]
pub struct Request<'a> {
    pub rank: u32,
    pub a: &'a [u8],
    pub b: &'a [u8],
}

/// Where a sheet ends of which bytes are the beginning: where it states, or where the bytes end if that is first or they do
/// not reach to the statement.
fn stated_end(bytes: &[u8]) -> usize
    ensures { result ≡ stated_end bytes.now }
{
    let [_, a, b, c, d, ..] = bytes else {
        return bytes.len();
    };
    let stated = u32::from_be_bytes([*a, *b, *c, *d]) as usize + 5;
    stated.min(bytes.len())
}

impl<'a> Request<'a> {
    ghost use Rattle.requests.specs.RequestLayout.{IsRequest};

    /// Takes a request apart, unless it has no whole rank.
    pub fn parse(bytes: &'a [u8]) -> Option<Request<'a>>
        ensures { IsRequest bytes.now result }
    {
        let [k, l, m, n, sheets @ ..] = bytes else {
            return None;
        };
        let (a, b) = sheets.split_at(stated_end(sheets));
        Some(Request {
            rank: u32::from_be_bytes([*k, *l, *m, *n]),
            a,
            b,
        })
    }
}
