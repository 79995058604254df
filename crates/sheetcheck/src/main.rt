//! Reads one sheet from standard input and prints what is in it, or why it is refused.
//!
//! A sheet of up to 67,108,864 bytes is read whole and answered as the reader answers it. Of a longer input it prints one line,
//! `too long: over 67108864 bytes`, and reads no more of it. The status is 0 in each of these cases, and 1 where memory is
//! wanting, or where input or output fails.
#![tactic(auto)]

mod answer;
#[cfg(test)]
mod tests;

use crate::answer::answer_input;

fn main(rt: HostRuntime) -> anyhow::Result<()> {
    let answer = answer_input(rt.alloc(), rt.stdin())?;
    println!(rt; "{answer}")?;
    Ok(())
}
