use rankunit::{Delay, PairVerdict, Plain, Stocked, answer_request, find_rank};
use std::io;

/// A request that is refused once something of it was read, and what it is an example of.
#[derive(Clone, Copy)]
struct Request {
    name: &'static str,
    bytes: &'static [u8],
}

/// Requests over A = 12, 40 and B = 20, 31, unless they say otherwise.
static REFUSED: [Request; 3] = [
    Request {
        name: "A falls",
        bytes: b"\0\0\0\x01\x01\0\0\0\x09\x01\0\0\0\x28\0\0\0\x0c\x01\0\0\0\x09\x01\0\0\0\x14\0\0\0\x1f",
    },
    Request {
        name: "B falls",
        bytes: b"\0\0\0\x01\x01\0\0\0\x09\x01\0\0\0\x0c\0\0\0\x28\x01\0\0\0\x09\x01\0\0\0\x1f\0\0\0\x14",
    },
    Request {
        name: "rank 5",
        bytes: b"\0\0\0\x05\x01\0\0\0\x09\x01\0\0\0\x0c\0\0\0\x28\x01\0\0\0\x09\x01\0\0\0\x14\0\0\0\x1f",
    },
];

/// Prints what a slice of delays holds.
fn print_delays(rt: &HostRuntime, what: &str, list: &[Delay]) -> io::Result<()> {
    print!(rt; ", {what}")?;
    for x in list {
        print!(rt; " {x}")?;
    }
    Ok(())
}

/// Prints what a log holds.
fn print_log(rt: &HostRuntime, log: &[PairVerdict]) -> io::Result<()> {
    print!(rt; ", log ")?;
    for verdict in log {
        print!(rt; "{verdict}")?;
    }
    println!(rt; "")
}

/// What a refused request leaves in the slices that it was lent.
fn print_refused(rt: &HostRuntime, request: Request) -> io::Result<()> {
    let Request { name, bytes } = request;
    let mut a = [Delay { micros: 9 }; 3];
    let mut b = [Delay { micros: 9 }; 3];
    let mut log = [PairVerdict::Before; 3];
    if let Err(fault) = answer_request(bytes, &mut a, &mut b, &mut log) {
        print!(rt; "{name}: {fault}")?;
        print_delays(rt, "A", &a)?;
        print_delays(rt, "B", &b)?;
        print_log(rt, &log)?;
    }
    Ok(())
}

/// Prints what an honest run for rank 4 over A = 12, 40, 55 and B = 20, 31, 70 comes to, what is left of its stock, and the log.
fn print_honest_run(rt: &HostRuntime, stock: u64, log: &mut [PairVerdict]) -> io::Result<()> {
    let a = [12, 40, 55].map(|micros| Delay { micros });
    let b = [20, 31, 70].map(|micros| Delay { micros });
    let mut referee = Plain::new(stock);
    print!(rt; "stock {stock}, room for {}: ", log.len())?;
    match find_rank(&a, &b, 4, &mut referee, log) {
        Ok(finished) => print!(rt; "result {}, count {}", finished.result(), finished.count())?,
        Err(fault) => print!(rt; "{fault}")?,
    }
    print!(rt; ", left {}", referee.left())?;
    print_log(rt, log)
}

/// What calls that are made of several keep, whether they are refused or not.
pub(crate) fn print_kept(rt: &HostRuntime) -> io::Result<()> {
    for request in REFUSED {
        print_refused(rt, request)?;
    }
    for stock in 0..4 {
        print_honest_run(rt, stock, &mut [PairVerdict::Before; 3])?;
    }
    print_honest_run(rt, 64, &mut [PairVerdict::Before; 1])?;
    print_exchanged(rt)
}

/// Prints whether the same lists the other way round come to the same result, by as many verdicts.
fn print_exchanged(rt: &HostRuntime) -> io::Result<()> {
    let a = [12, 40, 55].map(|micros| Delay { micros });
    let b = [20, 31, 70].map(|micros| Delay { micros });
    let one = find_rank(&a, &b, 4, &mut Plain::new(3), &mut []);
    let other = find_rank(&b, &a, 4, &mut Plain::new(3), &mut []);
    let (Ok(one), Ok(other)) = (one, other) else {
        return println!(rt; "A's list at B and B's at A: refused");
    };
    println!(rt;
        "A's list at B and B's at A, the same result: {}",
        one == other
    )
}
