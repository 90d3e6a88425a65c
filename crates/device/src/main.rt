//! One routine on two devices: the first reacts and hands its count over, and the second goes on.
#![tactic(auto)]

mod devices;

use anyhow::bail;
use devices::react_on_two;
use routine::Refusal;
use signals::{BitBoard, StampBoard};

/// loop(sequence(wait 0, sequence(emit 1, stop))): signal 0 is an input, signal 1 an output.
const TABLE: [u8; 34] = [
    8, 0, 2, 0, 10, 0, 6, 0, // contents: signals at 8, 2 of them; statements at 10, 6 of them
    0, 1, // the signals
    6, 0, 1, 0, // 0 loop
    4, 0, 2, 3, // 1 sequence
    3, 0, 0, 0, // 2 wait 0
    4, 0, 4, 5, // 3 sequence
    2, 1, 0, 0, // 4 emit 1
    1, 0, 0, 0, // 5 stop
];

/// What somebody with the device in hand can do about a refusal, by the layer that refuses.
fn advice(refusal: &Refusal) -> &'static str {
    match refusal.layer() {
        Some(1 | 2) => "get the routine again",
        Some(3) => "look where the count stands",
        Some(4) => "get the record again",
        _ => "wait until there is memory",
    }
}

fn main(rt: HostRuntime) -> anyhow::Result<()> {
    let boards = (BitBoard::new(), StampBoard::new());
    let closings = match react_on_two(rt.alloc(), &TABLE, boards, &[0, 1], &[1, 0]) {
        Ok(closings) => closings,
        Err(refusal) => bail!("{refusal}: {}", advice(&refusal)),
    };
    for closing in closings {
        println!(rt; "{closing}")?;
    }
    Ok(())
}
