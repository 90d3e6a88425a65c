ghost use Rattle.std.specs.Prelude.{◌≡◌, Some, IfOk};
ghost use Rattle.routine.specs.Refusals.{SaysOrMemory};
ghost use Rattle.routine.specs.View.{table_signals, table_kinds};
ghost use Rattle.input.specs.Printed.{said};
ghost use Rattle.tablecheck.specs.Report.{census_text, census, report_of};
ghost use Rattle.tablecheck.specs.Explained.{in_print, explained_text};

use crate::explained::Explained;
use crate::outline::write_outline;
use input::Printed;
use routine::{Refusal, Routine, SignalKind, load};
use std::alloc::{AllocError, Global};
use std::fmt;

// How many signals and statements there are.
#[derive(Clone, Copy, Debug, PartialEq, Eq)]
struct Census {
    inputs: usize,
    outputs: usize,
    locals: usize,
    statements: usize,
}

impl Census {
    // The numbers of a routine.
    fn of(routine: &Routine) -> Self
        ensures { result ≡ census (table_signals routine.now.table)
            (table_kinds routine.now.table) }
    {
        Census {
            inputs: routine.signals(SignalKind::Input),
            outputs: routine.signals(SignalKind::Output),
            locals: routine.signals(SignalKind::Local),
            statements: routine.count(),
        }
    }
}

impl fmt::Display for Census {
    ghost output = { λ c. Some (census_text c) };

    fn fmt<W: fmt::Write>(&self, f: &mut fmt::Formatter<W>) -> fmt::Result {
        write!(
            f,
            "inputs {}, outputs {}, locals {}, statements {}",
            self.inputs, self.outputs, self.locals, self.statements
        )
    }
}

// What there is to say of a table's bytes: the routine that they are, or why they are none,
// whatever memory there is; `Err` is want of memory.
fn verdict(heap: Global, bytes: &[u8]) -> Result<Printed, AllocError>
    ensures { SaysOrMemory (report_of bytes.now) said result }
{
    let routine = match load(heap, bytes) {
        Ok(routine) => routine,
        // Want of memory is no refusal of the table.
        Err(Refusal::Memory) => return Err(AllocError),
        Err(refusal) => return Ok(Printed::Refused { refusal }),
    };
    let mut text = String::new(heap);
    writeln!(text, "{}", Census::of(&routine))?;
    write_outline(&mut text, &routine, 0, 0)?;
    Ok(Printed::Lines { text })
}

/// What there is to print of a table's bytes: the routine that they are, or why they are none, by
/// its number and in plain words, whatever memory there is; `Err` is want of memory.
pub fn report(heap: Global, bytes: &[u8]) -> Result<Explained, AllocError>
    ensures says { SaysOrMemory (report_of bytes.now) (λ e. said e.0) result }
    ensures prints { IfOk result (λ e. explained_text e ≡ in_print (report_of bytes.now)) }
{
    Ok(Explained::new(verdict(heap, bytes)?))
}
