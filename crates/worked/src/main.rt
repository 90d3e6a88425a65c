// Prints what the plain model makes of the worked routines, a line for each instant.
#![tactic(auto)]

mod worked;

use input::no_arguments;
use std::env::{Env, FillError};
use std::process::ExitCode;
use std::{env, io};
use worked::worked_routines;

// Refuses the words of the command line.
fn refuse_arguments(rt: &HostRuntime) -> anyhow::Result<()> {
    no_arguments(env::args(rt)?)?;
    Ok(())
}

fn main(rt: HostRuntime) -> io::Result<ExitCode> {
    // The words are read only where there is an argument: a program's name may be any bytes.
    if !matches!(rt.arg(1, &mut []), Err(FillError::NotPresent))
        && let Err(error) = refuse_arguments(&rt)
    {
        eprintln!(rt; "Error: {error:?}")?;
        return Ok(ExitCode::FAILURE);
    }
    println!(rt; "routine instant outputs status steps")?;
    for line in worked_routines() {
        println!(rt; "{line}")?;
    }
    Ok(ExitCode::SUCCESS)
}
