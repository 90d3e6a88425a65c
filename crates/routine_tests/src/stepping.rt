use crate::building::{INPUT, LOCAL, OUTPUT, routine};
use count::{Closing, Count, Phase};
use routine::{Mark, Refusal, Routine};
use rules::Status;
use signals::{BitBoard, Board, StampBoard};
use std::process::Abort;
use std::test::Fail;

// parallel(emit A, wait A): the wait is not ready before the emit was stepped.
fn emit_then_wait<B: Board + Drop>(
    rt: &impl Abort,
    routine: Routine,
    board: B,
) -> Result<(), Fail> {
    let mut count = Count::new(routine, board);
    assert_eq!(rt;
        (count.phase(), count.closed(), count.steps()),
        (Phase::Resting, 0, 0)
    );
    assert_eq!(rt; (count.statements(), count.signals()), (3, 1));
    count.begin(0)?;
    assert_eq!(rt;
        (count.phase(), count.lowest_ready()),
        (Phase::Open, Some(1))
    );
    assert_eq!(rt; count.step(2), Err(Refusal::NotReady { statement: 2 }));
    assert_eq!(rt; count.steps(), 0);
    count.step(1)?;
    assert!(rt; count.is_present(0) && count.is_ready(2) && !count.is_ready(1));
    assert_eq!(rt;
        (count.mark(0), count.mark(1)),
        (Some(Mark::UnderWay), Some(Mark::Done))
    );
    assert_eq!(rt; (count.mark(2), count.mark(3)), (Some(Mark::Waiting), None));
    assert_eq!(rt; count.close(), Err(Refusal::StillReady { statement: 2 }));
    count.step(2)?;
    assert_eq!(rt; (count.steps(), count.lowest_ready()), (2, None));
    let closing = Closing {
        instant: 1,
        outputs: 1,
        status: Status::Terminated,
        steps: 2,
    };
    assert_eq!(rt; count.close(), Ok(closing));
    assert_eq!(rt;
        (count.phase(), count.closed(), count.steps()),
        (Phase::Over, 1, 0)
    );
    assert!(rt; !count.is_present(0));
    Ok(())
}

// Every refusal of a call and each way into it, but for the last instant that can be counted.
fn refusals<B: Board + Drop>(rt: &impl Abort, routine: Routine, board: B) -> Result<(), Fail> {
    let mut count = Count::new(routine, board);
    assert_eq!(rt; count.step(0), Err(Refusal::NotOpenToStep));
    assert_eq!(rt; count.close(), Err(Refusal::NotOpenToClose));
    assert_eq!(rt; count.begin(0b10), Err(Refusal::NotInput { signal: 1 }));
    assert_eq!(rt; count.begin(0b101), Err(Refusal::NotInput { signal: 2 }));
    assert_eq!(rt; count.begin(0b1001), Err(Refusal::NotInput { signal: 3 }));
    assert_eq!(rt; count.react(1 << 63), Err(Refusal::NotInput { signal: 63 }));
    assert_eq!(rt; count.react(u64::MAX), Err(Refusal::NotInput { signal: 1 }));
    assert_eq!(rt; (count.phase(), count.closed()), (Phase::Resting, 0));
    count.begin(0)?;
    assert_eq!(rt; count.begin(0), Err(Refusal::AlreadyOpen));
    assert_eq!(rt; count.begin(2), Err(Refusal::AlreadyOpen));
    assert_eq!(rt; count.react(0), Err(Refusal::AlreadyOpen));
    assert_eq!(rt; count.step(1), Err(Refusal::NotReady { statement: 1 }));
    assert_eq!(rt;
        count.step(4),
        Err(Refusal::NoSuchStatement { statement: 4 })
    );
    assert_eq!(rt;
        count.step(usize::MAX),
        Err(Refusal::NoSuchStatement {
            statement: usize::MAX
        })
    );
    assert_eq!(rt; count.close(), Err(Refusal::StillReady { statement: 0 }));
    count.step(0)?;
    assert_eq!(rt; count.step(0), Err(Refusal::NotReady { statement: 0 }));
    assert_eq!(rt; count.steps(), 1);
    let closing = Closing {
        instant: 1,
        outputs: 0,
        status: Status::Suspended,
        steps: 1,
    };
    assert_eq!(rt; count.close(), Ok(closing));
    assert_eq!(rt; count.close(), Err(Refusal::NotOpenToClose));
    count.begin(1)?;
    assert!(rt; count.is_present(0) && !count.is_present(1));
    assert_eq!(rt; count.step(2), Err(Refusal::NotReady { statement: 2 }));
    count.step(0)?;
    count.step(2)?;
    count.step(1)?;
    count.step(3)?;
    assert_eq!(rt; count.close(), Err(Refusal::StillReady { statement: 0 }));
    count.step(0)?;
    let closing = Closing {
        instant: 2,
        outputs: 2,
        status: Status::Terminated,
        steps: 5,
    };
    assert_eq!(rt; count.close(), Ok(closing));
    assert_eq!(rt; count.begin(0), Err(Refusal::AlreadyOver));
    assert_eq!(rt; count.react(2), Err(Refusal::AlreadyOver));
    assert_eq!(rt; count.step(0), Err(Refusal::NotOpenToStep));
    assert_eq!(rt; count.close(), Err(Refusal::NotOpenToClose));
    assert_eq!(rt; (count.closed(), count.steps()), (2, 0));
    Ok(())
}

const EMIT_AND_WAIT: [[u8; 4]; 3] = [[5, 0, 1, 2], [2, 0, 0, 0], [3, 0, 0, 0]];

// local L(sequence(wait A, emit B)), with A, B, L = 0, 1, 2
const LOCAL_WAIT: [[u8; 4]; 4] = [[9, 2, 1, 0], [4, 0, 2, 3], [3, 0, 0, 0], [2, 1, 0, 0]];

#[test]
fn calls(rt: HostRuntime) -> Result<(), Fail> {
    emit_then_wait(
        &rt,
        routine(rt.alloc(), &[OUTPUT], &EMIT_AND_WAIT)?,
        BitBoard::new(),
    )?;
    emit_then_wait(
        &rt,
        routine(rt.alloc(), &[OUTPUT], &EMIT_AND_WAIT)?,
        StampBoard::new(),
    )
}

#[test]
fn refused_calls(rt: HostRuntime) -> Result<(), Fail> {
    refusals(
        &rt,
        routine(rt.alloc(), &[INPUT, OUTPUT, LOCAL], &LOCAL_WAIT)?,
        BitBoard::new(),
    )?;
    refusals(
        &rt,
        routine(rt.alloc(), &[INPUT, OUTPUT, LOCAL], &LOCAL_WAIT)?,
        StampBoard::new(),
    )
}
