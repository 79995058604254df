ghost use Rattle.std.specs.Prelude.{◌≡◌, ◌-◌};
ghost use Rattle.referees.specs.Plays.{answered_outcome, new_line, line_at, Played, PaidFor, SpendsEach};
ghost use Rattle.referees.specs.PlayPrinting.{line_text, outcome_text};

use crate::question::{Answer, Question, ask};
use crate::referee::Referee;
use elements::ordered::Ordered;
use faults::fault::RunFault;
use std::fmt;

/// A line of a play: a question, what came of it once it was asked, and what the referee then had left (0 until then).
#[derive(Drop)]
pub struct Line<T> {
    pub question: Question<T>,
    pub outcome: Option<Result<Answer<T>, RunFault>>,
    // Beside the outcome and not in it, since an unasked line prints its 0 as well.
    pub left: u32,
}

/// What came of a line's question, by itself, as it is printed: nothing yet, the answer, or why it was refused.
#[derive(Clone, Copy)]
pub struct Outcome<'a, T>(pub &'a Option<Result<Answer<T>, RunFault>>);

/// What came of a whole play: how many questions were answered, and how many the referee has left.
#[derive(Clone, Copy)]
pub struct Tally {
    pub answered: usize,
    pub left: u32,
}

impl<T> Line<T> {
    /// A question still to be asked.
    pub fn new(question: Question<T>) -> Line<T>
        ensures { result ≡ new_line question }
    {
        Line {
            question,
            outcome: None,
            left: 0,
        }
    }

    pub fn is_answered(&self) -> bool
        ensures { result ≡ answered_outcome self.now.outcome }
    {
        matches!(self.outcome, Some(Ok(_)))
    }
}

impl<'a, T: fmt::Display> fmt::Display for Outcome<'a, T> {
    ghost output = { λ outcome. outcome_text T.Display.output outcome.0.now };

    fn fmt<W: fmt::Write>(&self, f: &mut fmt::Formatter<W>) -> fmt::Result {
        match self.0 {
            None => write!(f, "not asked"),
            Some(Ok(answer)) => write!(f, "{answer}"),
            Some(Err(fault)) => write!(f, "{fault}"),
        }
    }
}

impl<T: fmt::Display> fmt::Display for Line<T> {
    ghost output = { line_text T.Display.output };

    fn fmt<W: fmt::Write>(&self, f: &mut fmt::Formatter<W>) -> fmt::Result {
        let Line {
            question,
            outcome,
            left,
        } = self;
        let outcome = Outcome(outcome);
        write!(f, "{question}: {outcome}, left {left}")
    }
}

/// Asks a question and writes down what came of it.
pub fn ask_line<T: Ordered, R: Referee<T>>(referee: &mut R, question: Question<T>) -> Line<T>
    ensures line { result ≡ line_at T.Ordered.before (R.Stocked.stock referee.old) 0 question }
    ensures cost { R.Stocked.stock referee.new ≡ R.Stocked.stock referee.old - 1 }
    ensures empty_stays { R.Stocked.stock referee.old ≡ 0 → referee.new ≡ referee.old }
    ensures spends { PaidFor R.Referee.spends referee.old referee.new result.outcome }
{
    Line {
        question,
        outcome: Some(ask(referee, question)),
        left: (*referee).left(),
    }
}

/// Asks the question of every line in turn, and writes what came of each into its line. It is a call made of many: where a
/// question is refused, the lines before it keep their answers, the referee stays as these have left it, and the play goes
/// on to the next line.
pub fn play<T: Ordered, R: Referee<T>>(referee: &mut R, lines: &mut [Line<T>]) -> Tally
    ensures empty_stays { R.Stocked.stock referee.old ≡ 0 → referee.new ≡ referee.old }
    ensures played { Played T.Ordered.before (R.Stocked.stock referee.old) (R.Stocked.stock referee.new) lines.old lines.new result }
    ensures spends { SpendsEach R.Referee.spends referee.old result.answered referee.new }
{
    // Tried `filter` and `count` after the loop: the proof did not close.
    let mut answered = 0;
    for line in lines.iter_mut() {
        *line = ask_line(referee, line.question);
        if line.is_answered() {
            answered += 1;
        }
    }
    Tally {
        answered,
        left: (*referee).left(),
    }
}
