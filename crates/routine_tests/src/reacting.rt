use crate::building::{INPUT, LOCAL, OUTPUT, nest, routine};
use count::{Closing, Count, Phase};
use routine::{MOST_SIGNALS, MOST_STATEMENTS, Refusal, Routine};
use rules::Status;
use signals::{BitBoard, Board, StampBoard};
use std::process::Abort;
use std::test::Fail;

const S: Status = Status::Suspended;

const T: Status = Status::Terminated;

// A word that a count reacts to, and what it answers: the outputs, the status, the steps.
struct Instant(u64, u64, Status, u16);

fn reacts<B: Board + Drop>(
    rt: &impl Abort,
    routine: Routine,
    board: B,
    instants: &[Instant],
) -> Result<(), Fail> {
    let mut count = Count::new(routine, board);
    let mut instant = 0u32;
    for Instant(word, outputs, status, steps) in instants {
        instant = instant.wrapping_add(1);
        let closing = Closing {
            instant,
            outputs: *outputs,
            status: *status,
            steps: *steps,
        };
        assert_eq!(rt; count.react(*word), Ok(closing));
        assert_eq!(rt; count.closed(), instant);
        if *status == T {
            assert_eq!(rt; count.phase(), Phase::Over);
            assert_eq!(rt; count.react(0), Err(Refusal::AlreadyOver));
        }
    }
    Ok(())
}

fn on_both_boards(
    rt: &(impl Abort + AllocGlobal),
    signals: &[u8],
    records: &[[u8; 4]],
    instants: &[Instant],
) -> Result<(), Fail> {
    reacts(
        rt,
        routine(rt.alloc(), signals, records)?,
        BitBoard::new(),
        instants,
    )?;
    reacts(
        rt,
        routine(rt.alloc(), signals, records)?,
        StampBoard::new(),
        instants,
    )
}

#[test]
fn nothing_and_stop(rt: HostRuntime) -> Result<(), Fail> {
    on_both_boards(&rt, &[], &[[0, 0, 0, 0]], &[Instant(0, 0, T, 0)])?;
    on_both_boards(
        &rt,
        &[],
        &[[1, 0, 0, 0]],
        &[Instant(0, 0, S, 0), Instant(0, 0, T, 0)],
    )
}

// parallel(parallel(when A(emit B, nothing), emit A), sequence(wait B, emit C)), with A, B, C = 0,
// 1, 2
pub(crate) const RELAYED: [[u8; 4]; 9] = [
    [5, 0, 1, 6],
    [5, 0, 2, 5],
    [7, 0, 3, 4],
    [2, 1, 0, 0],
    [0, 0, 0, 0],
    [2, 0, 0, 0],
    [4, 0, 7, 8],
    [3, 1, 0, 0],
    [2, 2, 0, 0],
];

#[test]
fn relayed(rt: HostRuntime) -> Result<(), Fail> {
    on_both_boards(
        &rt,
        &[OUTPUT, OUTPUT, OUTPUT],
        &RELAYED,
        &[Instant(0, 7, T, 6)],
    )
}

// local L(when L(nothing, emit L)): the second part begins in the next instant
#[test]
fn too_late(rt: HostRuntime) -> Result<(), Fail> {
    on_both_boards(
        &rt,
        &[LOCAL],
        &[[9, 0, 1, 0], [7, 0, 2, 3], [0, 0, 0, 0], [2, 0, 0, 0]],
        &[Instant(0, 0, S, 1), Instant(0, 0, T, 3)],
    )
}

// sequence(kill A(loop(stop)), emit B): the killed statement still finishes the instant
#[test]
fn killed(rt: HostRuntime) -> Result<(), Fail> {
    on_both_boards(
        &rt,
        &[INPUT, OUTPUT],
        &[
            [4, 0, 1, 4],
            [8, 0, 2, 0],
            [6, 0, 3, 0],
            [1, 0, 0, 0],
            [2, 1, 0, 0],
        ],
        &[
            Instant(0, 0, S, 1),
            Instant(1, 0, S, 2),
            Instant(0, 2, T, 2),
        ],
    )
}

// kill A(nothing), with A present
#[test]
fn over_already(rt: HostRuntime) -> Result<(), Fail> {
    on_both_boards(
        &rt,
        &[INPUT],
        &[[8, 0, 1, 0], [0, 0, 0, 0]],
        &[Instant(1, 0, T, 1)],
    )
}

// loop(local L(sequence(when L(emit O, nothing), sequence(stop, emit L)))), with L, O = 0, 1
pub(crate) const NEW_LIVES: [[u8; 4]; 9] = [
    [6, 0, 1, 0],
    [9, 0, 2, 0],
    [4, 0, 3, 6],
    [7, 0, 4, 5],
    [2, 1, 0, 0],
    [0, 0, 0, 0],
    [4, 0, 7, 8],
    [1, 0, 0, 0],
    [2, 0, 0, 0],
];

// No round sees an older round's L.
#[test]
fn new_life(rt: HostRuntime) -> Result<(), Fail> {
    on_both_boards(
        &rt,
        &[LOCAL, OUTPUT],
        &NEW_LIVES,
        &[
            Instant(0, 0, S, 2),
            Instant(0, 0, S, 2),
            Instant(0, 0, S, 7),
            Instant(0, 0, S, 2),
        ],
    )
}

// parallel(emit A, wait A)
#[test]
fn emitted(rt: HostRuntime) -> Result<(), Fail> {
    on_both_boards(
        &rt,
        &[OUTPUT],
        &[[5, 0, 1, 2], [2, 0, 0, 0], [3, 0, 0, 0]],
        &[Instant(0, 1, T, 2)],
    )
}

// 255 loops in one another around a stop, with 64 inputs: each loop makes a step to begin, and only
// the innermost one goes round.
#[test]
fn at_the_limits(rt: HostRuntime) -> Result<(), Fail> {
    let records = nest(rt.alloc(), MOST_STATEMENTS)?;
    on_both_boards(
        &rt,
        &[INPUT; MOST_SIGNALS],
        &records,
        &[
            Instant(u64::MAX, 0, S, 255),
            Instant(1 << 63, 0, S, 2),
            Instant(0, 0, S, 2),
        ],
    )
}
