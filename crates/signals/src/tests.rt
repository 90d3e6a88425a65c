ghost use Rattle.std.specs.Prelude.{◌≡◌};
ghost use Rattle.signals.specs.Sets.{empty};

use super::{BitBoard, Board, SIGNALS, StampBoard};
use std::process::Abort;

// The answers for the signals 0 to 63, as the bits of a word.
fn answers<B: Board>(board: &B) -> u64 {
    (0..64)
        .filter(|&signal| board.ask(signal))
        .fold(0, |word, signal| word | 1 << signal)
}

// Every call, on any board that is empty at first.
fn exercise<B: Board>(rt: &impl Abort, board: &mut B)
    requires { B.present board.old ≡ empty }
{
    board.raise(64);
    board.raise(255);
    assert_eq!(rt; answers(board), 0);
    board.raise(0);
    board.raise(5);
    board.raise(5);
    board.raise(63);
    assert_eq!(rt; answers(board), 1 << 63 | 1 << 5 | 1);
    assert!(rt; !board.ask(64) && !board.ask(255));
    board.lower(64);
    board.lower(255);
    assert_eq!(rt; answers(board), 1 << 63 | 1 << 5 | 1);
    board.lower(5);
    board.lower(5);
    assert_eq!(rt; answers(board), 1 << 63 | 1);
    board.wipe();
    assert_eq!(rt; answers(board), 0);
}

#[test]
fn bit_board(rt: HostRuntime) {
    exercise(&rt, &mut BitBoard::new());
}

#[test]
fn stamp_board(rt: HostRuntime) {
    exercise(&rt, &mut StampBoard::new());
}

// The next wipe wraps around. Every signal has the stamp 1, and would be present again if that wipe
// left the stamps as they are.
fn at_last_stamp() -> StampBoard {
    StampBoard {
        stamps: [1; SIGNALS],
        current: u32::MAX,
    }
}

#[test]
fn wrap_around(rt: HostRuntime) {
    let mut board = at_last_stamp();
    assert_eq!(rt; answers(&board), 0);
    board.raise(0);
    board.raise(63);
    assert_eq!(rt; answers(&board), 1 << 63 | 1);
    assert_eq!(rt; board.current, u32::MAX);
    board.wipe();
    assert_eq!(rt; board.current, 1);
    assert_eq!(rt; answers(&board), 0);
    board.raise(7);
    assert_eq!(rt; answers(&board), 1 << 7);
    board.wipe();
    assert_eq!(rt; board.current, 2);
    assert_eq!(rt; answers(&board), 0);
    exercise(&rt, &mut board);
}
