//! Runs cases of both protocols through the calls themselves, of requests, and of sheets through their reader, and prints what
//! came of each.
#![tactic(auto)]

mod group_cases;
mod kept_cases;
mod pair_cases;
mod sheet_cases;
mod sheet_lengths;

fn main(rt: HostRuntime) -> anyhow::Result<()> {
    pair_cases::print_openings(&rt)?;
    pair_cases::print_run(&rt)?;
    pair_cases::print_empty_stock(&rt)?;
    pair_cases::print_requests(&rt)?;
    kept_cases::print_kept(&rt)?;
    group_cases::print_openings(&rt)?;
    group_cases::print_reports(&rt)?;
    group_cases::print_runs(&rt)?;
    sheet_lengths::print_lengths(&rt)?;
    sheet_cases::print_readings(&rt)?;
    Ok(())
}
