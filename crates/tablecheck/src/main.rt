#![tactic(auto)]

mod explained;
mod outline;
mod report;

use input::{no_arguments, read_input};
use report::report;
use std::env;
use std::env::{Env, FillError};

// Reads a table from standard input and prints whether it is a routine.
fn main(rt: HostRuntime) -> anyhow::Result<()> {
    // The words are read only where there is an argument: a program's name may be any bytes.
    if !matches!(rt.arg(1, &mut []), Err(FillError::NotPresent)) {
        no_arguments(env::args(&rt)?)?;
    }
    let bytes = read_input(rt.alloc(), rt.stdin())?;
    let report = report(rt.alloc(), &bytes)?;
    print!(rt; "{report}")?;
    Ok(())
}
