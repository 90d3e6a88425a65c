use crate::building::{INPUT, OUTPUT, routine};
use count::{Closing, Count};
use record::RECORD_BYTES;
use relay::{Call, Event, Keeper, Plan, relay, resume};
use routine::{Mark, Refusal};
use rules::Status;
use signals::{BitBoard, Board, StampBoard};
use std::process::Abort;
use std::test::Fail;

// sequence(wait A, sequence(emit B, stop)), with A, B = 0, 1
const WAIT_AND_EMIT: [[u8; 4]; 5] = [
    [4, 0, 1, 2],
    [3, 0, 0, 0],
    [4, 0, 3, 4],
    [2, 1, 0, 0],
    [1, 0, 0, 0],
];

fn stepped(event: &Event, wanted: usize) -> bool {
    matches!(event, Event::Stepped { statement } if *statement == wanted)
}

fn refused(event: &Event, wanted: Refusal) -> bool {
    matches!(event, Event::Refused { refusal } if *refusal == wanted)
}

// A count is handed over in the middle of an instant; the second board goes on with it.
#[test]
fn midway(rt: HostRuntime) -> Result<(), Fail> {
    let routine = routine(rt.alloc(), &[INPUT, OUTPUT], &WAIT_AND_EMIT)?;
    let plan = Plan {
        first: BitBoard::new(),
        second: StampBoard::new(),
        before: &[
            Call::React { word: 0 },
            Call::Begin { word: 1 },
            Call::Step { statement: 1 },
        ],
        later: &[
            Call::Step { statement: 1 },
            Call::Step { statement: 0 },
            Call::Step { statement: 3 },
            Call::Step { statement: 2 },
            Call::Close,
        ],
    };
    let mut one = Keeper::new(rt.alloc());
    let mut other = Keeper::new(rt.alloc());
    let (relayed, _) = relay(routine, plan, &mut one, &mut other);
    let before = one.events()?;
    let later = other.events()?;
    let [Event::Reacted { word: 0, .. }, _, step] = before.as_slice() else {
        return Err(Fail::new("other events on the first board"));
    };
    assert!(rt; stepped(step, 1));
    let [
        Event::TakenOver,
        again,
        _,
        _,
        _,
        Event::Closed {
            closing: closed,
            marks,
        },
    ] = later.as_slice()
    else {
        return Err(Fail::new("other events on the second board"));
    };
    assert!(rt; refused(again, Refusal::NotReady { statement: 1 }));
    let closing = Closing {
        instant: 2,
        outputs: 2,
        status: Status::Suspended,
        steps: 4,
    };
    assert_eq!(rt; *closed, closing);
    assert_eq!(rt;
        marks.as_slice(),
        [
            Mark::UnderWay,
            Mark::Idle,
            Mark::UnderWay,
            Mark::Idle,
            Mark::Done
        ]
        .as_slice()
    );
    // The first board is as it was at the hand-over, and the second as it was left.
    assert!(rt; relayed.first.ask(0) && !relayed.second.ask(0));
    assert_eq!(rt; (relayed.handed[13], relayed.left[13]), (1, 0));
    Ok(())
}

// The record is taken over by a count that is at something else: refused records leave it there.
#[test]
fn resumed_elsewhere(rt: HostRuntime) -> Result<(), Fail> {
    let mut count = Count::new(
        routine(rt.alloc(), &[INPUT, OUTPUT], &WAIT_AND_EMIT)?,
        BitBoard::new(),
    );
    count.begin(1)?;
    count.step(1)?;
    let mut record = [0; RECORD_BYTES];
    count.hand_over(&mut record);
    let mut count = Count::new(
        routine(rt.alloc(), &[INPUT, OUTPUT], &WAIT_AND_EMIT)?,
        StampBoard::new(),
    );
    count.react(1)?;
    count.begin(0)?;
    let earlier = [Call::TakeOver { record: &[] }, Call::Step { statement: 4 }];
    let later = [
        Call::TakeOver {
            record: &record[1..],
        },
        Call::Step { statement: 0 },
        Call::React { word: 1 },
    ];
    let mut keeper = Keeper::new(rt.alloc());
    resume(&mut count, &earlier, &record, &later, &mut keeper);
    let events = keeper.events()?;
    let [a, b, Event::TakenOver, c, d, e] = events.as_slice() else {
        return Err(Fail::new("other events"));
    };
    assert!(rt; refused(a, Refusal::RecordForm));
    assert!(rt; refused(b, Refusal::NotReady { statement: 4 }));
    assert!(rt; refused(c, Refusal::RecordForm));
    assert!(rt; stepped(d, 0));
    assert!(rt; refused(e, Refusal::AlreadyOpen));
    assert_eq!(rt; (count.closed(), count.steps()), (0, 2));
    Ok(())
}

// A react tells the statements that it steps, the lowest ready one first.
#[test]
fn react_is_told(rt: HostRuntime) -> Result<(), Fail> {
    let mut count = Count::new(
        routine(rt.alloc(), &[INPUT, OUTPUT], &WAIT_AND_EMIT)?,
        BitBoard::new(),
    );
    let mut keeper = Keeper::new(rt.alloc());
    relay::carry_out_all(&mut count, &[Call::React { word: 1 }], &mut keeper);
    let events = keeper.events()?;
    let [Event::Reacted { stepped, .. }] = events.as_slice() else {
        return Err(Fail::new("other events"));
    };
    assert_eq!(rt; stepped.as_slice(), [1, 0, 3, 2].as_slice());
    Ok(())
}
