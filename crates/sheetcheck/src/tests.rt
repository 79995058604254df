use crate::answer::answer_input;
use std::io;
use std::io::Read;
use std::test::Fail;

const TOO_LONG: &str = "too long: over 67108864 bytes";

const LONGEST_OF_DELAYS: &str = "kind: delays
elements: 65536
lowest: 0 (rank 1)
median: 0 (rank 32768)
90th percentile: 0 (rank 58982)
highest: 0 (rank 65536)";

const LONGEST_OF_LEVELS: &str = "kind: link levels
elements: 65536
lowest: 0 link 0 (rank 1)
median: 0 link 0 (rank 32768)
90th percentile: 0 link 0 (rank 58982)
highest: 0 link 0 (rank 65536)";

/// The line that answers a sheet of the kind, with the count stated, whose body is so many zeros.
fn answer_line(rt: &HostRuntime, kind: u8, stated: u32, body: u64) -> anyhow::Result<String> {
    let [a, b, c, d] = stated.to_be_bytes();
    let header = [1, a, b, c, d, kind];
    let sheet = header.as_slice().chain(io::repeat(0).take(body));
    let answer = answer_input(rt.alloc(), sheet)?;
    Ok(format!(in rt.alloc(); "{answer}")?)
}

#[test]
fn over_long_sheets_are_answered_whole(rt: HostRuntime) -> Result<(), Fail> {
    for (kind, stated, body, line) in [
        // Of 65,536 elements and a byte, then of 65,537 elements, with a right count and one that is too small.
        (1, 262_146, 262_145, "refused 5 sheet - -"),
        (2, 524_290, 524_289, "refused 5 sheet - -"),
        (1, 262_149, 262_148, "refused 5 sheet - -"),
        (2, 524_297, 524_296, "refused 5 sheet - -"),
        (1, 262_148, 262_148, "refused 3 sheet - -"),
        (2, 524_296, 524_296, "refused 3 sheet - -"),
        // Of 64 MiB, and of one byte more, which is no sheet.
        (1, 67_108_859, 67_108_858, "refused 5 sheet - -"),
        (2, 67_108_858, 67_108_858, "refused 3 sheet - -"),
        (1, 67_108_860, 67_108_859, TOO_LONG),
        (2, 67_108_860, u64::MAX, TOO_LONG),
    ] {
        let answer = answer_line(&rt, kind, stated, body)?;
        assert_eq!(rt; answer.as_str(), line, "kind {kind}, body {body}");
    }
    Ok(())
}

#[test]
fn the_longest_sheets_are_summed_up(rt: HostRuntime) -> Result<(), Fail> {
    let delays = answer_line(&rt, 1, 262_145, 262_144)?;
    let levels = answer_line(&rt, 2, 524_289, 524_288)?;
    assert_eq!(rt; delays.as_str(), LONGEST_OF_DELAYS);
    assert_eq!(rt; levels.as_str(), LONGEST_OF_LEVELS);
    Ok(())
}

#[test]
fn a_longer_input_is_read_for_one_byte_more(rt: HostRuntime) -> Result<(), Fail> {
    let mut input = io::repeat(0).take(67_108_874);
    answer_input(rt.alloc(), &mut input)?;
    assert_eq!(rt; input.limit(), 9);
    Ok(())
}
