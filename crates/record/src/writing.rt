ghost use Rattle.std.specs.Prelude.{◌≡◌, None, length};
ghost use Rattle.routine.specs.Kinds.{marks};
ghost use Rattle.routine.specs.View.{table_kinds, table_signals};
ghost use Rattle.rules.specs.Rules.{at};
ghost use Rattle.record.specs.Record.{written, byte_at};
ghost use Rattle.record.specs.Taking.{taking_refusal};

use crate::layout::{HEAD_BYTES, HEAD_START, MARKS_START, RECORD_BYTES, contents_of};
use crate::marks;
use crate::standings::Standing;
use routine::{Mark, Routine};

// The mark of statement i, idle beyond the last statement.
fn mark_of(routine: &Routine, i: usize) -> Mark
    ensures { result ≡ at (marks routine.now.table.statements.items) i }
{
    routine
        .table
        .statements
        .get(i)
        .map_or(Mark::Idle, |row| row.mark)
}

// The byte at place i of a record with those contents and that head.
fn byte_at(contents: &[u8; HEAD_START], head: &[u8; HEAD_BYTES], routine: &Routine, i: usize) -> u8
    ensures { result ≡ byte_at contents.now head.now (marks routine.now.table.statements.items) i }
{
    match i {
        0..HEAD_START => contents[i],
        HEAD_START..MARKS_START => head[i - HEAD_START],
        _ => marks::byte(mark_of(routine, i - MARKS_START)),
    }
}

/// The record of where a count stands. [`read`](crate::read) accepts it.
pub fn write(standing: Standing<'_>) -> [u8; RECORD_BYTES]
    ensures bytes { result ≡ written
        (length (table_kinds standing.entry.routine.now.table)) standing.entry.head
        (marks standing.entry.routine.now.table.statements.items) }
    ensures accepted { taking_refusal (table_signals standing.entry.routine.now.table)
        (table_kinds standing.entry.routine.now.table) result ≡ None }
{
    let routine = standing.routine;
    let contents = contents_of(routine);
    let fields = standing.head.to_bytes();
    std::array::from_fn(|i| byte_at(&contents, &fields, routine, i))
}
