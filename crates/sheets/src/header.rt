ghost use Rattle.std.specs.Prelude.{◌≡◌, Some, None, IfOk};
ghost use Rattle.std.specs.Result.{IfErr};
ghost use Rattle.sheets.specs.Headers.{body_of};
ghost use Rattle.sheets.specs.Refusals.{header_refusal};

use crate::body::Body;
use crate::sheet_element::SheetElement;
use elements::limits::most_elements;
use faults::refusal::Refusal;
use std::marker::PhantomData;

/// The body of a sheet, where version, count and kind are right, and it is a whole number of elements and not too many.
pub(crate) fn check_header<T: SheetElement>(bytes: &[u8]) -> Result<Body<'_, T>, Refusal>
    ensures passes { IfOk result (λ _. header_refusal T.SheetElement.format bytes.now ≡ None) }
    ensures body { IfOk result (λ body. body.bytes.now ≡ body_of bytes.now) }
    ensures refused { IfErr result (λ refusal. header_refusal T.SheetElement.format bytes.now ≡ Some refusal) }
{
    let [version, a, b, c, d, kind, body @ ..] = bytes else {
        return Err(Refusal::SheetTooShort);
    };
    if *version != 1 {
        return Err(Refusal::VersionUnknown);
    }
    if u32::from_be_bytes([*a, *b, *c, *d]) as usize != bytes.len() - 5 {
        return Err(Refusal::CountDiffers);
    }
    if *kind != T::kind_byte() {
        return Err(Refusal::KindNotWanted);
    }
    if body.len() % T::BYTES_EACH != 0 || body.len() / T::BYTES_EACH > most_elements() {
        return Err(Refusal::BodyNotAList);
    }
    Ok(Body {
        bytes: body,
        of: PhantomData,
    })
}
