ghost use Rattle.std.specs.Prelude.{IfOk};
ghost use Rattle.referees.specs.Questions.{OneQuestion};
ghost use Rattle.referees.specs.Truths.{truth_of};
ghost use Rattle.referees.specs.Printing.{question_text, answer_text};

use crate::referee::{Referee, ask_first, ask_lesser};
use crate::sums::Sums;
use crate::verdict::{GroupVerdict, PairVerdict};
use elements::entry::Entry;
use elements::ordered::Ordered;
use faults::fault::RunFault;
use std::fmt;

/// One of the three questions, with what it is about: A's entry and B's, or the sums of a group.
#[derive(Clone, Copy, Debug, PartialEq, Eq)]
pub enum Question<T> {
    First(Entry<T>, Entry<T>),
    Lesser(Entry<T>, Entry<T>),
    Weigh(Sums),
}

/// What the question of the same name is answered with.
#[derive(Clone, Copy, Debug, PartialEq, Eq)]
pub enum Answer<T> {
    First(PairVerdict),
    Lesser(Entry<T>),
    Weigh(GroupVerdict),
}

/// Asks any referee any question.
pub fn ask<T: Ordered, R: Referee<T>>(
    referee: &mut R,
    question: Question<T>,
) -> Result<Answer<T>, RunFault>
    ensures answers { OneQuestion R.Stocked.stock referee.old referee.new (truth_of T.Ordered.before question) result }
    ensures spends { IfOk result (λ answer. R.Referee.spends referee.old referee.new) }
{
    // Each question has an answer of its own type, so one call cannot serve for the three.
    match question {
        Question::First(a, b) => Ok(Answer::First(ask_first(referee, a, b)?)),
        Question::Lesser(a, b) => Ok(Answer::Lesser(ask_lesser(referee, a, b)?)),
        Question::Weigh(sums) => Ok(Answer::Weigh(referee.weigh(sums)?)),
    }
}

impl<T: fmt::Display> fmt::Display for Question<T> {
    ghost output = { question_text T.Display.output };

    fn fmt<W: fmt::Write>(&self, f: &mut fmt::Formatter<W>) -> fmt::Result {
        match self {
            Question::First(a, b) => write!(f, "first {a}, {b}"),
            Question::Lesser(a, b) => write!(f, "lesser {a}, {b}"),
            Question::Weigh(sums) => write!(f, "weigh {sums}"),
        }
    }
}

impl<T: fmt::Display> fmt::Display for Answer<T> {
    ghost output = { answer_text T.Display.output };

    fn fmt<W: fmt::Write>(&self, f: &mut fmt::Formatter<W>) -> fmt::Result {
        match self {
            Answer::First(verdict) => write!(f, "{verdict}"),
            Answer::Lesser(entry) => write!(f, "{entry}"),
            Answer::Weigh(verdict) => write!(f, "{verdict}"),
        }
    }
}
