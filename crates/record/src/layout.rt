ghost use Rattle.std.specs.Prelude.{◌≡◌, length};
ghost use Rattle.routine.specs.View.{table_kinds};
ghost use Rattle.record.specs.Record.{contents};

use routine::{MOST_STATEMENTS, Routine};

/// The place of the head in a record. Before it lie the contents.
pub const HEAD_START: usize = 8;

/// How many bytes a head has.
pub const HEAD_BYTES: usize = 15;

/// The place of the marks in a record, a byte for each statement.
pub const MARKS_START: usize = HEAD_START + HEAD_BYTES;

/// How many bytes a record has, whatever the routine.
pub const RECORD_BYTES: usize = MARKS_START + MOST_STATEMENTS;

// The contents of a record: where the head lies and how long it is, where the marks lie and how
// many there are.
pub(crate) fn contents_of(routine: &Routine) -> [u8; HEAD_START]
    ensures { result ≡ contents (length (table_kinds routine.now.table)) }
{
    let [low, high] = (routine.count() as u16).to_le_bytes();
    [
        HEAD_START as u8,
        0,
        HEAD_BYTES as u8,
        0,
        MARKS_START as u8,
        0,
        low,
        high,
    ]
}
