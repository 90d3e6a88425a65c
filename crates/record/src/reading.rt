ghost use Rattle.std.specs.Prelude.{◌≡◌, ◌<◌, ◌≤◌, ◌+◌, length, map};
ghost use Rattle.routine.specs.View.{table_kinds, table_signals};
ghost use Rattle.record.specs.Answers.{answer};
ghost use Rattle.record.specs.Record.{contents};
ghost use Rattle.record.specs.Taking.{part, is_wrong, is_fixed_right, head_read, marks_read};
ghost use Rattle.record.specs.Taking.{counted, taking_refusal, saved_in};

use crate::candidates::Candidate;
use crate::heads::{CLOSED_OFFSET, Head, HeadFault, PRESENT_OFFSET, STEPS_OFFSET};
use crate::layout::{HEAD_START, MARKS_START, RECORD_BYTES, contents_of};
use crate::marks;
use crate::phases::Phase;
use routine::{MOST_STATEMENTS, Mark, Refusal, Routine};

/// What a record says.
#[derive(Clone, Copy, Debug, PartialEq, Eq)]
pub struct Saved {
    /// All but the marks.
    pub head: Head,
    /// The mark of each statement, idle beyond the last one.
    pub marks: [Mark; MOST_STATEMENTS],
}

// The N bytes from that place on.
fn part<const N: usize>(bytes: &[u8; RECORD_BYTES], place: usize) -> [u8; N]
    requires { place + N ≤ RECORD_BYTES }
    ensures { result ≡ part bytes.now N place }
{
    std::array::from_fn(|i| bytes[place + i])
}

// Is there at place i another byte than all records of the routine have there?
fn is_wrong(bytes: &[u8; RECORD_BYTES], expected: &[u8; HEAD_START], n: usize, i: usize) -> bool
    requires contents { expected.now ≡ contents n }
    requires inside { i < RECORD_BYTES }
    requires few { n ≤ MOST_STATEMENTS }
    ensures { result ≡ is_wrong n bytes.now i }
{
    (i < HEAD_START || i >= MARKS_START + n) && bytes[i] != expected.get(i).copied().unwrap_or(0)
}

// Are the contents and the zeros after the last mark right?
fn is_fixed_right(bytes: &[u8; RECORD_BYTES], routine: &Routine) -> bool
    ensures { result ≡ is_fixed_right (length (table_kinds routine.now.table)) bytes.now }
{
    let expected = contents_of(routine);
    let n = routine.count();
    !(0..RECORD_BYTES).any(|i| is_wrong(bytes, &expected, n, i))
}

// The head that stands in the record, or what is wrong with its first bad field.
fn read_head(bytes: &[u8; RECORD_BYTES], routine: &Routine) -> Result<Head, HeadFault>
    ensures { result ≡ head_read (length (table_signals routine.now.table)) bytes.now }
{
    let Some(phase) = Phase::from_byte(bytes[HEAD_START]) else {
        return Err(HeadFault::NoPhase);
    };
    let head = Head {
        phase,
        closed: u32::from_le_bytes(part(bytes, HEAD_START + CLOSED_OFFSET)),
        steps: u16::from_le_bytes(part(bytes, HEAD_START + STEPS_OFFSET)),
        present: u64::from_le_bytes(part(bytes, HEAD_START + PRESENT_OFFSET)),
    };
    match head.fault(routine.table.signals.len()) {
        Some(fault) => Err(fault),
        None => Ok(head),
    }
}

// The marks that stand in the record; a zero beyond the last statement is read as idle.
fn read_marks(bytes: &[u8; RECORD_BYTES]) -> [Option<Mark>; MOST_STATEMENTS]
    ensures { result ≡ marks_read MOST_STATEMENTS bytes.now }
{
    std::array::from_fn(|i| marks::from_byte(bytes[MARKS_START + i]))
}

// What they are to the rules of other statements.
fn all_counted(marks: &[Option<Mark>; MOST_STATEMENTS]) -> [Mark; MOST_STATEMENTS]
    ensures { result ≡ map counted marks.now }
{
    marks.map(marks::counted)
}

// What bytes of the right length say.
fn read_whole(bytes: &[u8; RECORD_BYTES], routine: &Routine) -> Result<Saved, Refusal>
    ensures { result ≡ answer
        (taking_refusal (table_signals routine.now.table) (table_kinds routine.now.table) bytes.now)
        (saved_in bytes.now) }
{
    if !is_fixed_right(bytes, routine) {
        return Err(Refusal::RecordForm);
    }
    let head = match read_head(bytes, routine) {
        Ok(head) => head,
        Err(fault) => return Err(Refusal::RecordHead {
            offset: fault.offset(),
        }),
    };
    let marks = read_marks(bytes);
    let candidate = Candidate {
        routine,
        marks: &marks[..routine.count()],
    };
    if let Some(statement) = candidate.offender(head.phase) {
        return Err(Refusal::RecordMarks { statement });
    }
    Ok(Saved {
        head,
        marks: all_counted(&marks),
    })
}

/// What the bytes say as a record of the routine.
///
/// The first refusal that applies is answered: `RecordForm` where they have not the form of a
/// record of the routine, `RecordHead` where a field of the head is bad, `RecordMarks` where a
/// statement breaks its rule.
pub fn read(bytes: &[u8], routine: &Routine) -> Result<Saved, Refusal>
    ensures { result ≡ answer
        (taking_refusal (table_signals routine.now.table) (table_kinds routine.now.table) bytes.now)
        (saved_in bytes.now) }
{
    match bytes.as_array::<RECORD_BYTES>() {
        Some(bytes) => read_whole(bytes, routine),
        None => Err(Refusal::RecordForm),
    }
}
