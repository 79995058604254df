use crate::pair_cases::print_answer;
use rankunit::{
    Comparing, Counts, Delay, Finished, GroupAdvanced as Advanced, GroupRun as Run, GroupVerdict,
    OfGroup, Referee, Refused, RunFault, SeatFault, Slip, StagedGroupRun as StagedRun, Strip,
    open_group, report_of_group,
};
use std::io;

/// How an opening is answered; an accepted one is broken off at once.
fn opened(lengths: &[u32], lo: u64, hi: u64, rank: u32) -> Result<(), RunFault> {
    let (run, slip) = open_group::<Delay>(lengths, lo, hi, rank)?;
    run.break_off(slip);
    Ok(())
}

/// Openings at both ends of the numbers of seats, of ranges and of ranks.
pub(crate) fn print_openings(rt: &HostRuntime) -> io::Result<()> {
    print_answer(rt, "16 seats", opened(&[1; 16], 0, 15, 8))?;
    print_answer(rt, "17 seats", opened(&[1; 17], 0, 15, 8))?;
    print_answer(rt, "1 seat, too long", opened(&[65_537], 0, 15, 1))?;
    print_answer(
        rt,
        "a seat of 65537, a range from 15 to 0",
        opened(&[1, 65_537], 15, 0, 1),
    )?;
    print_answer(
        rt,
        "a range from 15 to 0, rank 0",
        opened(&[1, 1], 15, 0, 0),
    )?;
    print_answer(
        rt,
        "a range to 2^32 of delays",
        opened(&[1, 1], 0, 0x1_0000_0000, 1),
    )?;
    print_answer(rt, "2 seats of 1, rank 3", opened(&[1, 1], 0, 15, 3))
}

/// The delays of a seat.
type Delays<'a> = &'a [Delay];

fn delay(micros: u32) -> Delay {
    Delay { micros }
}

/// What reports to one run are answered.
#[derive(Clone, Copy)]
struct Answers {
    first: Result<(), RunFault>,
    again: Result<(), RunFault>,
    unknown: Result<(), RunFault>,
    too_many: Result<(), RunFault>,
    falling: Result<Counts, SeatFault>,
    outside: Result<Counts, SeatFault>,
}

/// Reports to a run of three seats of 2, 1 and 2 elements, from 0 to 15, and what seats say of lists that they cannot report of.
fn report(run: &mut Run<Delay, Comparing>) -> Answers {
    let one = Counts { below: 1, above: 1 };
    Answers {
        first: run.report(1, one),
        again: run.report(1, one),
        unknown: run.report(4, one),
        too_many: run.report(2, one),
        falling: report_of_group(&[delay(9), delay(3)], run, 1),
        outside: report_of_group(&[delay(3), delay(16)], run, 1),
    }
}

fn reported() -> Result<Answers, RunFault> {
    let (mut run, slip) = open_group(&[2, 1, 2], 0, 15, 3)?;
    let answers = report(&mut run);
    run.break_off(slip);
    Ok(answers)
}

/// Prints what a seat's call is answered.
fn print_counts(rt: &HostRuntime, what: &str, answer: Result<Counts, SeatFault>) -> io::Result<()> {
    match answer {
        Ok(Counts { below, above }) => println!(rt; "{what}: {below} below, {above} above"),
        Err(fault) => println!(rt; "{what}: {fault}"),
    }
}

/// Reports, and lists of which none can be made.
pub(crate) fn print_reports(rt: &HostRuntime) -> io::Result<()> {
    match reported() {
        Err(fault) => println!(rt; "three seats: {fault}"),
        Ok(answers) => {
            print_answer(rt, "seat 1 reports", answers.first)?;
            print_answer(rt, "seat 1 reports again", answers.again)?;
            print_answer(rt, "seat 4 of three reports", answers.unknown)?;
            print_answer(rt, "seat 2 counts more than it declared", answers.too_many)?;
            print_counts(rt, "seat 1 looks at 9, 3", answers.falling)?;
            print_counts(rt, "seat 1 looks at 3, 16", answers.outside)
        }
    }
}

/// A round of a run: the target, and the verdict.
#[derive(Clone, Copy)]
struct Round {
    target: u64,
    verdict: Option<GroupVerdict>,
}

/// Every seat reports of its list.
fn report_all(run: &mut Run<Delay, Comparing>, lists: &[Delays<'_>]) -> Result<(), RunFault> {
    let mut number = 0_u32;
    for list in lists {
        number = number.saturating_add(1);
        let counts = report_of_group(*list, run, number)?;
        run.report(number, counts)?;
    }
    Ok(())
}

/// Plays a run to its end, as long as there is room for its rounds.
fn play<R: Referee<Delay>>(
    mut run: Run<Delay, Comparing>,
    slip: Slip<OfGroup, Delay>,
    lists: &[Delays<'_>],
    referee: &mut R,
    rounds: &mut [Round],
) -> Result<Option<Finished<OfGroup, Delay>>, RunFault> {
    let [round, later @ ..] = rounds else {
        run.break_off(slip);
        return Ok(None);
    };
    round.target = run.range().target();
    if let Err(fault) = report_all(&mut run, lists) {
        run.break_off(slip);
        return Err(fault);
    }
    match run.step(referee) {
        Ok(
            Advanced {
                verdict,
                run: StagedRun::Comparing(run),
            },
        ) => {
            round.verdict = Some(verdict);
            play(run, slip, lists, referee, later)
        }
        Ok(
            Advanced {
                verdict,
                run: StagedRun::Closing(run),
            },
        ) => {
            round.verdict = Some(verdict);
            Ok(Some(run.finish(slip)))
        }
        Err(Refused { fault, given: run }) => {
            run.break_off(slip);
            Err(fault)
        }
    }
}

/// Prints the rounds of a run and what it came to.
fn print_rounds(
    rt: &HostRuntime,
    rounds: &[Round],
    came: Result<Option<Finished<OfGroup, Delay>>, RunFault>,
) -> io::Result<()> {
    for round in rounds {
        if let Some(verdict) = round.verdict {
            let target = round.target;
            println!(rt; "target {target}: {verdict}")?;
        }
    }
    match came {
        Ok(Some(finished)) => println!(rt;
            "result {}, count {}",
            finished.result(),
            finished.count()
        ),
        Ok(None) => println!(rt; "no room for the rounds"),
        Err(fault) => println!(rt; "{fault}"),
    }
}

/// No round yet.
fn no_rounds() -> [Round; 16] {
    [Round {
        target: 0,
        verdict: None,
    }; 16]
}

/// A run over a referee of lent words, from its opening on.
fn run_of(
    lengths: &[u32],
    lists: &[Delays<'_>],
    hi: u64,
    rank: u32,
    words: &mut [u64],
    rounds: &mut [Round],
) -> Result<Option<Finished<OfGroup, Delay>>, RunFault> {
    let (run, slip) = open_group(lengths, 0, hi, rank)?;
    play(run, slip, lists, &mut Strip::new(words), rounds)
}

/// Three seats from 0 to 15; sixteen seats, of one delay each, from 0 to 200; and a strip that is used up.
pub(crate) fn print_runs(rt: &HostRuntime) -> io::Result<()> {
    let mut rounds = no_rounds();
    let three: [Delays<'_>; 3] = [&[delay(3), delay(9)], &[delay(4)], &[delay(9), delay(12)]];
    println!(rt; "seats 3, 9 / 4 / 9, 12, rank 3")?;
    let came = run_of(&[2, 1, 2], &three, 15, 3, &mut [7; 32], &mut rounds);
    print_rounds(rt, &rounds, came)?;
    println!(rt; "the same over a strip of five words")?;
    let mut rounds = no_rounds();
    let came = run_of(&[2, 1, 2], &three, 15, 3, &mut [7; 5], &mut rounds);
    print_rounds(rt, &rounds, came)?;
    println!(rt; "16 seats of one delay each, from 10 to 160, rank 8")?;
    let sixteen: [Delays<'_>; 16] = [
        &[delay(10)],
        &[delay(160)],
        &[delay(20)],
        &[delay(150)],
        &[delay(30)],
        &[delay(140)],
        &[delay(40)],
        &[delay(130)],
        &[delay(50)],
        &[delay(120)],
        &[delay(60)],
        &[delay(110)],
        &[delay(70)],
        &[delay(100)],
        &[delay(80)],
        &[delay(90)],
    ];
    let mut rounds = no_rounds();
    let came = run_of(&[1; 16], &sixteen, 200, 8, &mut [7; 32], &mut rounds);
    print_rounds(rt, &rounds, came)
}
