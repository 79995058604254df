ghost use Rattle.std.specs.Fmt.{HasWritten, IsPlainFormatter};
ghost use Rattle.std.specs.Result.{IsOk};
ghost use Rattle.requests.specs.Printing.{digits, outcome_lines};
ghost use Rattle.std.specs.Prelude.{Some};

use elements::delay::Delay;
use pair::run::OfPair;
use referees::verdict::PairVerdict;
use runs::finished::Finished;
use std::fmt;

/// What a request came to, as three lines: the verdicts, a dash where there are none; the result; and the count. The verdicts
/// are the first of those noted, as many as are counted.
#[derive(Drop)]
pub struct RequestOutcome<'a> {
    pub noted: &'a [PairVerdict],
    pub finished: Finished<OfPair, Delay>,
}

/// Writes verdicts as digits in a row.
fn write_digits<W: fmt::Write>(verdicts: &[PairVerdict], f: &mut fmt::Formatter<W>) -> fmt::Result
    ensures writes { IsPlainFormatter f.old → IsOk result → HasWritten W.Write.write_str_gives f.old (digits verdicts.now) f.new }
{
    let [verdict, later @ ..] = verdicts else {
        return Ok(());
    };
    write!(f, "{verdict}")?;
    write_digits(later, f)
}

impl<'a> fmt::Display for RequestOutcome<'a> {
    ghost output = { λ x. Some (outcome_lines x) };

    fn fmt<W: fmt::Write>(&self, f: &mut fmt::Formatter<W>) -> fmt::Result {
        let (result, count) = (self.finished.result(), self.finished.count());
        write!(f, "verdicts ")?;
        if count == 0 {
            write!(f, "-")?;
        }
        let made = self.noted.len().min(count as usize);
        write_digits(&self.noted[..made], f)?;
        write!(f, "\nresult {result}\ncount {count}")
    }
}
