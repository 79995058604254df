use rankunit::{
    Comparing, Delay, Entry, OfPair, PairAdvanced as Advanced, PairRun as Run, PairVerdict, Plain,
    Refused, RequestOutcome, RunFault, Side, Slip, StagedPairRun as StagedRun, answer_request,
    open_pair,
};
use std::io;

/// Prints whether a call was accepted.
pub(crate) fn print_answer(
    rt: &HostRuntime,
    what: &str,
    answer: Result<(), RunFault>,
) -> io::Result<()> {
    match answer {
        Ok(()) => println!(rt; "{what}: accepted"),
        Err(fault) => println!(rt; "{what}: {fault}"),
    }
}

/// How an opening is answered; an accepted one is broken off at once.
fn opened(a: u32, b: u32, rank: u32) -> Result<(), RunFault> {
    let (stage, slip) = open_pair::<Delay>(a, b, rank)?;
    stage.break_off(slip);
    Ok(())
}

/// Openings at the ends of the ranks, and with a list that is too long.
pub(crate) fn print_openings(rt: &HostRuntime) -> io::Result<()> {
    print_answer(rt, "lengths 3 and 3, rank 6", opened(3, 3, 6))?;
    print_answer(rt, "lengths 3 and 3, rank 7", opened(3, 3, 7))?;
    print_answer(rt, "lengths 3 and 3, rank 0", opened(3, 3, 0))?;
    print_answer(rt, "lengths 65537 and 3, rank 0", opened(65_537, 3, 0))
}

fn element(micros: u32) -> Entry<Delay> {
    Entry::Element(Delay { micros })
}

/// What the calls of one run are answered, and how many verdicts it made until it was broken off.
#[derive(Clone, Copy)]
struct Answers {
    early_step: Option<RunFault>,
    late_step: Option<RunFault>,
    first_a: Option<Result<(), RunFault>>,
    first_b: Option<Result<(), RunFault>>,
    verdict: Option<PairVerdict>,
    lie: Option<Result<(), RunFault>>,
    truth: Option<Result<(), RunFault>>,
    again: Option<Result<(), RunFault>>,
    made: u32,
}

/// No call is made yet.
fn no_answers() -> Answers {
    Answers {
        early_step: None,
        late_step: None,
        first_a: None,
        first_b: None,
        verdict: None,
        lie: None,
        truth: None,
        again: None,
        made: 0,
    }
}

/// A, which reported 40 at place 2 and got the verdict 0, is asked for place 1: 55 cannot stand there, 40 can, and a further
/// report is out of its turn.
fn lie_and_own_up(run: &mut Run<Delay, Comparing>, answers: &mut Answers) {
    answers.lie = Some(run.report(Side::A, element(55)));
    answers.truth = Some(run.report(Side::A, element(40)));
    answers.again = Some(run.report(Side::A, element(40)));
}

/// Steps too early, then has 40 and 31 reported and steps, over a referee of some stock; then A lies.
fn play(run: Run<Delay, Comparing>, slip: Slip<OfPair, Delay>, stock: u64) -> Answers {
    let mut referee = Plain::new(stock);
    let mut answers = no_answers();
    let mut run = match run.step(&mut referee) {
        Err(Refused { fault, given: run }) => {
            answers.early_step = Some(fault);
            run
        }
        Ok(Advanced { verdict: _, run }) => {
            answers.made = run.break_off(slip);
            return answers;
        }
    };
    answers.first_a = Some(run.report(Side::A, element(40)));
    answers.first_b = Some(run.report(Side::B, element(31)));
    match run.step(&mut referee) {
        Ok(Advanced { verdict, run }) => {
            answers.verdict = Some(verdict);
            answers.made = go_on(run, slip, &mut answers);
        }
        Err(Refused { fault, given: run }) => {
            answers.late_step = Some(fault);
            answers.made = run.break_off(slip);
        }
    }
    answers
}

/// Lets A lie in a run that is comparing, and ends the run.
fn go_on(stage: StagedRun<Delay>, slip: Slip<OfPair, Delay>, answers: &mut Answers) -> u32 {
    match stage {
        StagedRun::Comparing(mut run) => {
            lie_and_own_up(&mut run, answers);
            run.break_off(slip)
        }
        StagedRun::Closing(run) => run.break_off(slip),
    }
}

/// A run for rank 4 over lists of 3, broken off after A has lied; and the same over a referee with no stock.
fn played(stock: u64) -> Result<Answers, RunFault> {
    let (stage, slip) = open_pair(3, 3, 4)?;
    match stage {
        StagedRun::Comparing(run) => Ok(play(run, slip, stock)),
        closing => {
            closing.break_off(slip);
            Ok(no_answers())
        }
    }
}

/// Prints a refusal, where there is one.
fn print_fault(rt: &HostRuntime, what: &str, fault: Option<RunFault>) -> io::Result<()> {
    match fault {
        Some(fault) => println!(rt; "{what}: {fault}"),
        None => Ok(()),
    }
}

/// Prints how a report was answered, where one was made.
fn print_report(
    rt: &HostRuntime,
    what: &str,
    answer: Option<Result<(), RunFault>>,
) -> io::Result<()> {
    match answer {
        Some(answer) => print_answer(rt, what, answer),
        None => Ok(()),
    }
}

/// The calls of a run, one by one.
pub(crate) fn print_run(rt: &HostRuntime) -> io::Result<()> {
    match played(64) {
        Err(fault) => println!(rt; "rank 4: {fault}"),
        Ok(answers) => {
            print_fault(rt, "a step before any report", answers.early_step)?;
            print_report(rt, "A reports 40 at place 2", answers.first_a)?;
            print_report(rt, "B reports 31 at place 2", answers.first_b)?;
            if let Some(verdict) = answers.verdict {
                println!(rt; "a step: verdict {verdict}")?;
            }
            print_report(rt, "A reports 55 at place 1", answers.lie)?;
            print_report(rt, "A reports 40 there", answers.truth)?;
            print_report(rt, "A reports 40 again", answers.again)?;
            println!(rt; "broken off: count {}", answers.made)
        }
    }
}

/// The same over a referee with no stock.
pub(crate) fn print_empty_stock(rt: &HostRuntime) -> io::Result<()> {
    match played(0) {
        Err(fault) => println!(rt; "rank 4: {fault}"),
        Ok(answers) => {
            print_fault(rt, "a step with stock 0", answers.late_step)?;
            println!(rt; "broken off: count {}", answers.made)
        }
    }
}

/// A request, and what it is an example of.
#[derive(Clone, Copy)]
struct Request {
    name: &'static str,
    bytes: &'static [u8],
}

/// Requests over A = 12, 40, 55 and B = 20, 31, 70, unless they say otherwise.
static REQUESTS: [Request; 8] = [
    Request {
        name: "three bytes",
        bytes: b"\0\0\0",
    },
    Request {
        name: "rank 1",
        bytes: b"\0\0\0\x01\x01\0\0\0\x0d\x01\0\0\0\x0c\0\0\0\x28\0\0\0\x37\x01\0\0\0\x0d\x01\0\0\0\x14\0\0\0\x1f\0\0\0\x46",
    },
    Request {
        name: "rank 7",
        bytes: b"\0\0\0\x07\x01\0\0\0\x0d\x01\0\0\0\x0c\0\0\0\x28\0\0\0\x37\x01\0\0\0\x0d\x01\0\0\0\x14\0\0\0\x1f\0\0\0\x46",
    },
    Request {
        name: "A empty, rank 2",
        bytes: b"\0\0\0\x02\x01\0\0\0\x01\x01\x01\0\0\0\x0d\x01\0\0\0\x14\0\0\0\x1f\0\0\0\x46",
    },
    Request {
        name: "B is 20, 70, 31",
        bytes: b"\0\0\0\x04\x01\0\0\0\x0d\x01\0\0\0\x0c\0\0\0\x28\0\0\0\x37\x01\0\0\0\x0d\x01\0\0\0\x14\0\0\0\x46\0\0\0\x1f",
    },
    Request {
        name: "A is 40, 12 and B of version 2, rank 0",
        bytes: b"\0\0\0\0\x01\0\0\0\x09\x01\0\0\0\x28\0\0\0\x0c\x02\0\0\0\x01\x01",
    },
    Request {
        name: "A ends before it states, and B is not there",
        bytes: b"\0\0\0\x01\x01\0\0\0\x0d\x01\0\0\0\x0c",
    },
    Request {
        name: "A is whole and B is not there",
        bytes: b"\0\0\0\x01\x01\0\0\0\x05\x01\0\0\0\x0c",
    },
];

/// Prints what a request is answered.
fn print_request(rt: &HostRuntime, request: Request) -> io::Result<()> {
    let Request { name, bytes } = request;
    let mut a = [Delay { micros: 0 }; 3];
    let mut b = [Delay { micros: 0 }; 3];
    let mut log = [PairVerdict::NotBefore; 8];
    match answer_request(bytes, &mut a, &mut b, &mut log) {
        Ok(finished) => println!(rt;
            "{name}:\n{}",
            RequestOutcome {
                noted: &log,
                finished,
            }
        ),
        Err(fault) => println!(rt; "{name}: {fault}"),
    }
}

/// Requests, right ones and wrong ones.
pub(crate) fn print_requests(rt: &HostRuntime) -> io::Result<()> {
    for request in REQUESTS {
        print_request(rt, request)?;
    }
    Ok(())
}
