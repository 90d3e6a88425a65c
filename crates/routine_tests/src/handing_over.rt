use crate::building::{INPUT, LOCAL, OUTPUT, nest, routine};
use count::{Closing, Count, Phase, change_board};
use record::{Head, MOST_INSTANTS, RECORD_BYTES, Saved};
use routine::{MOST_SIGNALS, MOST_STATEMENTS, Mark, Refusal, Routine};
use rules::Status;
use signals::{BitBoard, Board, StampBoard};
use std::alloc::Global;
use std::process::Abort;
use std::test::Fail;

// parallel(local L(local M(sequence(emit L, kill A(loop(sequence(wait M, stop)))))), when
// A(nothing, emit B)), with A, B, L, M = 0, 1, 2, 3: every kind of statement
fn every_kind(heap: Global) -> Result<Routine, Fail> {
    routine(
        heap,
        &[INPUT, OUTPUT, LOCAL, LOCAL],
        &[
            [5, 0, 1, 10],
            [9, 2, 2, 0],
            [9, 3, 3, 0],
            [4, 0, 4, 5],
            [2, 2, 0, 0],
            [8, 0, 6, 0],
            [6, 0, 7, 0],
            [4, 0, 8, 9],
            [3, 3, 0, 0],
            [1, 0, 0, 0],
            [7, 0, 11, 12],
            [0, 0, 0, 0],
            [2, 1, 0, 0],
        ],
    )
}

// At rest after one instant; in the second, with A and B present and two steps made; and over after
// three. Of the marks, 0 is idle, 1 waiting, 2 under way, 3 done.
const RESTING: [u8; 15] = [0, 1, 0, 0, 0, 0, 0, 0, 0, 0, 0, 0, 0, 0, 0];

const RESTING_MARKS: [u8; 13] = [2, 1, 1, 2, 0, 2, 2, 2, 1, 0, 2, 0, 1];

const OPEN: [u8; 15] = [1, 1, 0, 0, 0, 2, 0, 3, 0, 0, 0, 0, 0, 0, 0];

const OPEN_MARKS: [u8; 13] = [2, 2, 1, 2, 0, 2, 2, 2, 1, 0, 2, 0, 3];

const OVER: [u8; 15] = [2, 3, 0, 0, 0, 0, 0, 0, 0, 0, 0, 0, 0, 0, 0];

const OVER_MARKS: [u8; 13] = [2, 3, 0, 0, 0, 0, 0, 0, 0, 0, 2, 0, 3];

fn record(head: [u8; 15], marks: [u8; 13]) -> [u8; RECORD_BYTES] {
    let mut bytes = [0; RECORD_BYTES];
    bytes[..8].copy_from_slice(&[8, 0, 15, 0, 23, 0, 13, 0]);
    bytes[8..23].copy_from_slice(&head);
    bytes[23..36].copy_from_slice(&marks);
    bytes
}

fn hands_over<B: Board + Drop>(
    rt: &impl Abort,
    count: Count<B>,
    record: [u8; RECORD_BYTES],
) -> Routine {
    let mut place = [255; RECORD_BYTES];
    let released = count.hand_over(&mut place);
    assert!(rt; place == record);
    released.routine
}

fn at_rest<B: Board + Drop>(routine: Routine, board: B) -> Result<Count<B>, Fail> {
    let mut count = Count::new(routine, board);
    count.react(0)?;
    Ok(count)
}

fn halfway<B: Board + Drop>(routine: Routine, board: B) -> Result<Count<B>, Fail> {
    let mut count = at_rest(routine, board)?;
    count.begin(1)?;
    count.step(1)?;
    count.step(12)?;
    Ok(count)
}

fn closing(instant: u32, outputs: u64, status: Status, steps: u16) -> Closing {
    Closing {
        instant,
        outputs,
        status,
        steps,
    }
}

// What becomes of the count that is halfway.
fn goes_on<B: Board + Drop>(rt: &impl Abort, mut count: Count<B>) -> Result<(), Fail> {
    assert_eq!(rt; count.lowest_ready(), Some(2));
    count.step(2)?;
    assert_eq!(rt; count.close(), Ok(closing(2, 2, Status::Suspended, 3)));
    assert_eq!(rt; count.react(0), Ok(closing(3, 0, Status::Terminated, 4)));
    hands_over(rt, count, record(OVER, OVER_MARKS));
    Ok(())
}

fn passes_on<A: Board + Drop, B: Board + Drop>(
    rt: &(impl Abort + AllocGlobal),
    first: A,
    second: B,
) -> Result<(), Fail> {
    let count = halfway(every_kind(rt.alloc())?, first)?;
    let routine = hands_over(rt, count, record(OPEN, OPEN_MARKS));
    let mut count = Count::new(routine, second);
    count.begin(0)?;
    count.take_over(&record(OPEN, OPEN_MARKS))?;
    assert_eq!(rt;
        (count.phase(), count.closed(), count.steps()),
        (Phase::Open, 1, 2)
    );
    goes_on(rt, count)
}

#[test]
fn handed_over(rt: HostRuntime) -> Result<(), Fail> {
    let count = at_rest(every_kind(rt.alloc())?, BitBoard::new())?;
    let routine = hands_over(&rt, count, record(RESTING, RESTING_MARKS));
    goes_on(&rt, halfway(routine, BitBoard::new())?)?;
    passes_on(&rt, BitBoard::new(), StampBoard::new())?;
    passes_on(&rt, StampBoard::new(), BitBoard::new())?;
    let count = halfway(every_kind(rt.alloc())?, BitBoard::new())?;
    let moved = change_board(count, StampBoard::new());
    let handed = moved.handed;
    assert!(rt; handed == record(OPEN, OPEN_MARKS));
    assert!(rt; moved.left.ask(1));
    goes_on(&rt, moved.count)?;
    let mut count = Count::new(every_kind(rt.alloc())?, BitBoard::new());
    count.take_over(&handed)?;
    let mut again = [0; 279];
    let left = count.hand_over(&mut again);
    assert!(rt; again == handed);
    assert!(rt; left.board.ask(1));
    Ok(())
}

// 255 loops in one another around a stop, with 64 inputs that are all present.
#[test]
fn handed_over_at_the_limits(rt: HostRuntime) -> Result<(), Fail> {
    let records = nest(rt.alloc(), MOST_STATEMENTS)?;
    let mut count = Count::new(
        routine(rt.alloc(), &[INPUT; MOST_SIGNALS], &records)?,
        BitBoard::new(),
    );
    count.react(0)?;
    count.begin(u64::MAX)?;
    let moved = change_board(count, StampBoard::new());
    let handed = moved.handed;
    let mut count = moved.count;
    let mut expected = [2; RECORD_BYTES];
    expected[..15].copy_from_slice(&[8, 0, 15, 0, 23, 0, 0, 1, 1, 1, 0, 0, 0, 0, 0]);
    expected[15..23].copy_from_slice(&[255; 8]);
    expected[278] = 3;
    assert!(rt; handed == expected);
    assert_eq!(rt; count.step(254), Ok(()));
    Ok(())
}

// The record is refused so, and the count, which is halfway, has the same signals.
fn refuses<B: Board>(rt: &impl Abort, count: &mut Count<B>, record: &[u8], refusal: Refusal) {
    assert_eq!(rt; count.take_over(record), Err(refusal));
    for s in 0..=255 {
        assert_eq!(rt; count.is_present(s), s < 2, "signal {s}");
    }
}

// Wrong lengths, and another byte in the contents or after the last mark.
fn wrong_form<B: Board + Drop>(rt: &(impl Abort + AllocGlobal), board: B) -> Result<(), Fail> {
    let mut count = halfway(every_kind(rt.alloc())?, board)?;
    let right = record(OPEN, OPEN_MARKS);
    let mut long = [0; RECORD_BYTES + 1];
    long[..RECORD_BYTES].copy_from_slice(&right);
    for bytes in [&[], &right[..36], &right[..RECORD_BYTES - 1], &long[..]] {
        refuses(rt, &mut count, bytes, Refusal::RecordForm);
    }
    for place in [0, 1, 2, 3, 4, 5, 6, 7, 36, 278] {
        let mut bytes = record([9; 15], [9; 13]);
        if let Some(byte) = bytes.get_mut(place) {
            *byte ^= 1;
        }
        refuses(rt, &mut count, &bytes, Refusal::RecordForm);
    }
    hands_over(rt, count, record(OPEN, OPEN_MARKS));
    Ok(())
}

// Heads, and the offset of the first bad field.
const WRONG_HEADS: [([u8; 15], usize); 12] = [
    // no phase
    ([3, 0, 0, 0, 0, 0, 0, 0, 0, 0, 0, 0, 0, 0, 0], 0),
    ([255; 15], 0),
    // an open instant without a number
    ([1, 255, 255, 255, 255, 0, 0, 0, 0, 0, 0, 0, 0, 0, 0], 1),
    ([1, 255, 255, 255, 255, 9, 9, 16, 0, 0, 0, 0, 0, 0, 0], 1),
    // steps outside an open instant
    ([0, 0, 0, 0, 0, 1, 0, 0, 0, 0, 0, 0, 0, 0, 0], 5),
    ([2, 255, 255, 255, 255, 0, 1, 1, 0, 0, 0, 0, 0, 0, 0], 5),
    // signals outside an open instant
    ([0, 1, 0, 0, 0, 0, 0, 1, 0, 0, 0, 0, 0, 0, 0], 7),
    ([0, 255, 255, 255, 255, 0, 0, 0, 0, 0, 0, 0, 0, 0, 128], 7),
    ([2, 1, 0, 0, 0, 0, 0, 1, 0, 0, 0, 0, 0, 0, 0], 7),
    // signals that the routine does not have
    ([1, 1, 0, 0, 0, 2, 0, 16, 0, 0, 0, 0, 0, 0, 0], 7),
    ([1, 1, 0, 0, 0, 2, 0, 19, 0, 0, 0, 0, 0, 0, 0], 7),
    ([1, 1, 0, 0, 0, 2, 0, 0, 0, 0, 0, 0, 0, 0, 128], 7),
];

fn wrong_heads<B: Board + Drop>(rt: &(impl Abort + AllocGlobal), board: B) -> Result<(), Fail> {
    let mut count = halfway(every_kind(rt.alloc())?, board)?;
    for (head, offset) in WRONG_HEADS {
        let refusal = Refusal::RecordHead { offset };
        refuses(rt, &mut count, &record(head, [9; 13]), refusal);
    }
    hands_over(rt, count, record(OPEN, OPEN_MARKS));
    Ok(())
}

// Marks in an open instant, and the lowest statement that breaks its rule.
const WRONG_MARKS: [([u8; 13], usize); 36] = [
    // statement 0 is idle
    ([0, 0, 0, 0, 0, 0, 0, 0, 0, 0, 0, 0, 0], 0),
    // a mark that the kind does not have
    ([1, 2, 1, 2, 0, 2, 2, 2, 1, 0, 2, 0, 3], 0),
    ([3, 0, 0, 0, 0, 0, 0, 0, 0, 0, 0, 0, 0], 0),
    ([2, 2, 1, 1, 0, 2, 2, 2, 1, 0, 2, 0, 3], 3),
    ([2, 2, 1, 2, 0, 1, 2, 2, 1, 0, 2, 0, 3], 5),
    ([2, 2, 1, 2, 0, 2, 3, 0, 0, 0, 2, 0, 3], 6),
    ([2, 2, 1, 2, 0, 2, 2, 3, 0, 0, 2, 0, 3], 7),
    ([2, 2, 1, 2, 0, 2, 2, 2, 2, 0, 2, 0, 3], 8),
    ([2, 2, 1, 2, 0, 2, 2, 2, 0, 2, 2, 0, 3], 9),
    ([2, 2, 1, 2, 0, 2, 2, 2, 1, 0, 3, 0, 0], 10),
    ([2, 2, 1, 2, 0, 2, 2, 2, 1, 0, 2, 1, 0], 11),
    ([2, 2, 1, 2, 0, 2, 2, 2, 1, 0, 2, 2, 0], 11),
    ([2, 2, 1, 2, 0, 2, 2, 2, 1, 0, 2, 0, 2], 12),
    // a live part of a statement that is idle or done, or of a loop or when that waits
    ([2, 3, 0, 2, 0, 2, 2, 2, 1, 0, 2, 0, 3], 2),
    ([2, 2, 3, 2, 0, 2, 2, 2, 1, 0, 2, 0, 3], 2),
    ([2, 2, 1, 2, 1, 0, 2, 2, 1, 0, 2, 0, 3], 5),
    ([2, 2, 1, 2, 0, 3, 2, 2, 1, 0, 2, 0, 3], 5),
    ([2, 2, 1, 2, 0, 3, 0, 2, 1, 0, 2, 0, 3], 6),
    ([2, 2, 1, 2, 0, 2, 1, 2, 1, 0, 2, 0, 3], 6),
    ([2, 2, 1, 2, 0, 2, 1, 0, 0, 3, 2, 0, 3], 7),
    ([2, 2, 1, 2, 0, 2, 2, 2, 1, 0, 1, 0, 3], 10),
    // under way with too few or too many live parts, or none live first
    ([2, 2, 1, 2, 0, 2, 2, 2, 1, 0, 0, 0, 0], 0),
    ([2, 2, 0, 0, 0, 0, 0, 0, 0, 0, 2, 0, 3], 1),
    ([2, 2, 1, 0, 0, 0, 0, 0, 0, 0, 2, 0, 3], 2),
    ([2, 2, 1, 2, 1, 2, 2, 2, 1, 0, 2, 0, 3], 3),
    ([2, 2, 1, 2, 0, 2, 0, 0, 0, 0, 2, 0, 3], 5),
    ([2, 2, 1, 2, 0, 2, 2, 0, 0, 0, 2, 0, 3], 6),
    ([2, 2, 1, 2, 0, 2, 2, 2, 0, 0, 2, 0, 3], 7),
    ([2, 2, 1, 2, 0, 2, 2, 2, 1, 0, 2, 3, 3], 10),
    ([2, 2, 1, 2, 0, 2, 2, 2, 1, 0, 2, 0, 0], 10),
    // an open local inside one that is shut
    ([2, 1, 2, 2, 0, 2, 2, 2, 1, 0, 2, 0, 3], 2),
    // no mark, which counts as a live one
    ([4, 2, 1, 2, 0, 2, 2, 2, 1, 0, 2, 0, 3], 0),
    ([2, 2, 1, 2, 0, 2, 2, 2, 4, 0, 2, 0, 3], 8),
    ([2, 2, 1, 2, 0, 2, 2, 2, 1, 4, 2, 0, 3], 7),
    ([2, 2, 1, 2, 0, 2, 2, 2, 1, 0, 2, 0, 255], 12),
    // two statements
    ([2, 2, 1, 2, 0, 2, 2, 2, 2, 0, 2, 0, 2], 8),
];

fn wrong_marks<B: Board + Drop>(rt: &(impl Abort + AllocGlobal), board: B) -> Result<(), Fail> {
    let mut count = halfway(every_kind(rt.alloc())?, board)?;
    for (marks, statement) in WRONG_MARKS {
        let refusal = Refusal::RecordMarks { statement };
        refuses(rt, &mut count, &record(OPEN, marks), refusal);
    }
    let refusal = Refusal::RecordMarks { statement: 1 };
    refuses(rt, &mut count, &record(RESTING, OPEN_MARKS), refusal);
    let refusal = Refusal::RecordMarks { statement: 0 };
    refuses(rt, &mut count, &record(OVER, RESTING_MARKS), refusal);
    hands_over(rt, count, record(OPEN, OPEN_MARKS));
    Ok(())
}

#[test]
fn refused_records(rt: HostRuntime) -> Result<(), Fail> {
    wrong_form(&rt, BitBoard::new())?;
    wrong_form(&rt, StampBoard::new())?;
    wrong_heads(&rt, BitBoard::new())?;
    wrong_heads(&rt, StampBoard::new())?;
    wrong_marks(&rt, BitBoard::new())?;
    wrong_marks(&rt, StampBoard::new())
}

// The last instant that can be counted.
#[test]
fn last_instant(rt: HostRuntime) -> Result<(), Fail> {
    let mut count = Count::new(every_kind(rt.alloc())?, BitBoard::new());
    let resting = [0, 255, 255, 255, 255, 0, 0, 0, 0, 0, 0, 0, 0, 0, 0];
    count.take_over(&record(resting, RESTING_MARKS))?;
    assert_eq!(rt;
        (count.phase(), count.closed()),
        (Phase::Resting, MOST_INSTANTS)
    );
    assert_eq!(rt; count.begin(0), Err(Refusal::NoInstantLeft));
    let open = [1, 254, 255, 255, 255, 255, 255, 15, 0, 0, 0, 0, 0, 0, 0];
    count.take_over(&record(open, OPEN_MARKS))?;
    assert_eq!(rt;
        (count.phase(), count.closed()),
        (Phase::Open, MOST_INSTANTS - 1)
    );
    count.step(2)?;
    let last = closing(MOST_INSTANTS, 2, Status::Suspended, 65_535);
    assert_eq!(rt; count.close(), Ok(last));
    assert_eq!(rt; count.begin(0), Err(Refusal::NoInstantLeft));
    assert_eq!(rt; count.react(0), Err(Refusal::NoInstantLeft));
    count.take_over(&record(OVER, OVER_MARKS))?;
    assert_eq!(rt; (count.phase(), count.closed()), (Phase::Over, 3));
    assert_eq!(rt; count.begin(0), Err(Refusal::AlreadyOver));
    Ok(())
}

// A record read without a count.
#[test]
fn read_alone(rt: HostRuntime) -> Result<(), Fail> {
    let routine = every_kind(rt.alloc())?;
    let Saved { head, marks } = record::read(&record(OPEN, OPEN_MARKS), &routine)?;
    let expected = Head {
        phase: Phase::Open,
        closed: 1,
        steps: 2,
        present: 3,
    };
    assert_eq!(rt; head, expected);
    let first = [Mark::UnderWay, Mark::UnderWay, Mark::Waiting];
    assert!(rt; marks[..3] == first[..]);
    let last = [Mark::Done, Mark::Idle];
    assert!(rt; marks[12..14] == last[..]);
    Ok(())
}
