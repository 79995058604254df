//! Plays questions against a pile of every kind of referee until it is empty, and prints each with what came of it.
#![tactic(auto)]

use rankunit::{Entry, Line, LinkLevel, PileNumbers, Question, Strip, Sums, play_on_pile};
use std::io;

fn level(level: i32, link: u32) -> Entry<LinkLevel> {
    Entry::Element(LinkLevel { level, link })
}

/// One question more than the pile answers; each of the three is put to the plain referee and to the strip.
fn questions() -> [Question<LinkLevel>; 10] {
    [
        Question::First(level(-4250, 7), level(-4250, 9)),
        Question::First(level(310, 2), level(-4250, 7)),
        Question::Lesser(Entry::Above, level(-4250, 7)),
        Question::Weigh(Sums {
            below: 4,
            above: 5,
            k: 4,
            n: 9,
        }),
        Question::First(level(-1, 9), level(0, 0)),
        Question::First(Entry::Below, Entry::Above),
        Question::Lesser(level(310, 2), level(310, 1)),
        Question::Weigh(Sums {
            below: 0,
            above: u32::MAX,
            k: 1,
            n: u32::MAX,
        }),
        Question::Weigh(Sums {
            below: 3,
            above: 5,
            k: 4,
            n: 9,
        }),
        Question::First(Entry::Above, Entry::Above),
    ]
}

/// An odd number of words, so that one is left over.
fn strip_words() -> [u64; 13] {
    [
        0,
        1,
        0xffff_ffff_ffff_ffff,
        0x8000_0000_0000_0000,
        3,
        0x0123_4567_89ab_cdef,
        7,
        0xfedc_ba98_7654_3210,
        0,
        0xffff_ffff,
        12,
        5,
        9,
    ]
}

fn main(rt: HostRuntime) -> io::Result<()> {
    let mut words = strip_words();
    let numbers = PileNumbers {
        whole: 9,
        part: 4,
        plain: 5,
    };
    println!(rt;
        "a quota of {} over a spare: first a quota of {} over a plain referee of stock {}, then a strip of {} words",
        numbers.whole,
        numbers.part,
        numbers.plain,
        words.len()
    )?;
    let mut lines = questions().map(Line::new);
    let tally = play_on_pile(numbers, Strip::new(&mut words), &mut lines);
    for line in lines {
        println!(rt; "{line}")?;
    }
    println!(rt; "answered {}, left {}", tally.answered, tally.left)?;
    Ok(())
}
