ghost use Rattle.std.specs.Prelude.{vec_items};
ghost use Rattle.count.specs.Traces.{Trace};

use crate::building::{INPUT, LOCAL, OUTPUT, routine};
use crate::reacting::{NEW_LIVES, RELAYED};
use count::{Count, Tracer};
use routine::{Refusal, Routine};
use signals::{BitBoard, Board, StampBoard};
use std::process::Abort;
use std::test::Fail;

// Keeps the statements that it is told of, as long as there is memory.
#[derive(Debug, Drop)]
struct Kept {
    steps: Vec<usize>,
    lost: bool,
}

impl Tracer for Kept {
    ghost trace = { λ k. record { steps = vec_items k.steps; lost = k.lost; room = 0 } };

    fn step(&mut self, statement: usize) {
        if self.steps.push(statement).is_err() {
            self.lost = true;
        }
    }
}

// The statements that a react to the word 0 steps, one after another.
fn steps<B: Board + Drop>(
    rt: &(impl Abort + AllocGlobal),
    count: &mut Count<B>,
    wanted: &[usize],
) -> Result<(), Fail> {
    let mut kept = Kept {
        steps: Vec::new(rt.alloc()),
        lost: false,
    };
    let closing = count.react_traced(0, &mut kept)?;
    assert!(rt; !kept.lost);
    assert_eq!(rt; kept.steps.as_slice(), wanted);
    assert_eq!(rt; usize::from(closing.steps), wanted.len());
    Ok(())
}

// What is lower becomes ready by what is higher: a loop and its local, when what is inside is over.
fn upwards<B: Board + Drop>(
    rt: &(impl Abort + AllocGlobal),
    routine: Routine,
    board: B,
) -> Result<(), Fail> {
    let mut count = Count::new(routine, board);
    steps(rt, &mut count, &[0, 1])?;
    steps(rt, &mut count, &[1, 2])?;
    steps(rt, &mut count, &[1, 6, 8, 1, 0, 0, 1])?;
    steps(rt, &mut count, &[1, 2])
}

#[test]
fn lowest_first(rt: HostRuntime) -> Result<(), Fail> {
    upwards(
        &rt,
        routine(rt.alloc(), &[LOCAL, OUTPUT], &NEW_LIVES)?,
        BitBoard::new(),
    )?;
    upwards(
        &rt,
        routine(rt.alloc(), &[LOCAL, OUTPUT], &NEW_LIVES)?,
        StampBoard::new(),
    )
}

// An emit makes ready a when that is lower, and what that begins a wait that is higher.
#[test]
fn wakes_the_lower(rt: HostRuntime) -> Result<(), Fail> {
    let mut count = Count::new(
        routine(rt.alloc(), &[OUTPUT, OUTPUT, OUTPUT], &RELAYED)?,
        BitBoard::new(),
    );
    steps(&rt, &mut count, &[5, 2, 3, 7, 6, 8])
}

#[test]
fn refused_unheard(rt: HostRuntime) -> Result<(), Fail> {
    let mut kept = Kept {
        steps: Vec::new(rt.alloc()),
        lost: false,
    };
    let mut count = Count::new(
        routine(rt.alloc(), &[INPUT, OUTPUT], &[[2, 1, 0, 0]])?,
        BitBoard::new(),
    );
    assert_eq!(rt;
        count.react_traced(0b10, &mut kept),
        Err(Refusal::NotInput { signal: 1 })
    );
    assert!(rt; kept.steps.is_empty() && !kept.lost);
    Ok(())
}
