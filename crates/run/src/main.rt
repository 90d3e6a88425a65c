#![tactic(auto)]

mod listing;
#[cfg(test)]
mod tests;

use input::{no_arguments, read_input};
use listing::listing;
use std::env;
use std::env::{Env, FillError};

// Reads a table and input words from standard input and prints what a count makes of them.
fn main(rt: HostRuntime) -> anyhow::Result<()> {
    // The words are read only where there is an argument: a program's name may be any bytes.
    if !matches!(rt.arg(1, &mut []), Err(FillError::NotPresent)) {
        no_arguments(env::args(&rt)?)?;
    }
    let bytes = read_input(rt.alloc(), rt.stdin())?;
    let printed = listing(rt.alloc(), &bytes)?;
    print!(rt; "{printed}")?;
    Ok(())
}
