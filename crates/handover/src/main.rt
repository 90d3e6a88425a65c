#![tactic(auto)]

mod call_lists;
mod relay_texts;
mod story;
mod transcripts;

use input::{no_arguments, read_input};
use std::env;
use std::env::{Env, FillError};
use story::story;

// Reads a table and four lists of calls from standard input and prints what comes of them: a count
// that goes from one board to another, twice.
fn main(rt: HostRuntime) -> anyhow::Result<()> {
    // The words are read only where there is an argument: a program's name may be any bytes.
    if !matches!(rt.arg(1, &mut []), Err(FillError::NotPresent)) {
        no_arguments(env::args(&rt)?)?;
    }
    let bytes = read_input(rt.alloc(), rt.stdin())?;
    let printed = story(rt.alloc(), &bytes)?;
    print!(rt; "{printed}")?;
    Ok(())
}
