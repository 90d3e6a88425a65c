use crate::building::{INPUT, LOCAL, OUTPUT, nest, table};
use routine::{MOST_SIGNALS, MOST_STATEMENTS, load};
use std::process::Abort;
use std::test::Fail;

// A table that is refused: its signals, its records, the place of the refusal.
#[derive(Clone, Copy)]
struct Bad<'a>(&'a [u8], &'a [[u8; 4]], usize);

// A table that is a routine: its signals, its records.
#[derive(Clone, Copy)]
struct Good<'a>(&'a [u8], &'a [[u8; 4]]);

fn refuses(rt: &(impl Abort + AllocGlobal), bytes: &[u8], number: u8, place: usize) {
    let refusal = load(rt.alloc(), bytes).err();
    assert_eq!(rt; refusal.and_then(|refusal| refusal.number()), Some(number));
    assert_eq!(rt; refusal.map(|refusal| refusal.place()), Some(place));
}

// Each table is refused by that number.
fn refuses_all(rt: &(impl Abort + AllocGlobal), number: u8, tables: &[Bad]) -> Result<(), Fail> {
    for Bad(signals, records, place) in tables {
        let bytes = table(rt.alloc(), signals, records)?;
        refuses(rt, &bytes, number, *place);
    }
    Ok(())
}

// Each table is a routine.
fn loads_all(rt: &(impl Abort + AllocGlobal), tables: &[Good]) -> Result<(), Fail> {
    for Good(signals, records) in tables {
        let bytes = table(rt.alloc(), signals, records)?;
        assert!(rt; load(rt.alloc(), &bytes).is_ok());
    }
    Ok(())
}

// A loop that waits for an input and emits an output.
#[test]
fn example(rt: HostRuntime) {
    let bytes = b"\x08\x00\x02\x00\x0a\x00\x06\x00\x00\x01\
        \x06\x00\x01\x00\x04\x00\x02\x03\x03\x00\x00\x00\
        \x04\x00\x04\x05\x02\x01\x00\x00\x01\x00\x00\x00";
    assert!(rt; load(rt.alloc(), bytes).is_ok());
}

#[test]
fn limits(rt: HostRuntime) -> Result<(), Fail> {
    let most = nest(rt.alloc(), MOST_STATEMENTS)?;
    loads_all(
        &rt,
        &[Good(&[INPUT; MOST_SIGNALS], &most), Good(&[], &most)],
    )?;
    refuses_all(
        &rt,
        11,
        &[Bad(&[INPUT; MOST_SIGNALS + 1], &most, 0), Bad(&[], &[], 0)],
    )?;
    let more = nest(rt.alloc(), MOST_STATEMENTS + 1)?;
    refuses_all(&rt, 11, &[Bad(&[INPUT; MOST_SIGNALS], &more, 0)])
}

// A table of one nothing.
const ONE_NOTHING: [u8; 12] = [8, 0, 0, 0, 8, 0, 1, 0, 0, 0, 0, 0];

#[test]
fn wrong_form(rt: HostRuntime) {
    assert!(rt; load(rt.alloc(), &ONE_NOTHING).is_ok());
    for (place, wrong) in [(0, 9), (1, 1), (4, 9), (6, 0), (7, 1)] {
        let mut bytes = ONE_NOTHING;
        if let Some(byte) = bytes.get_mut(place) {
            *byte = wrong;
        }
        refuses(&rt, &bytes, 11, 0);
    }
    let mut long = [0; 13];
    long[..12].copy_from_slice(&ONE_NOTHING);
    for bytes in [&[], &ONE_NOTHING[..7], &ONE_NOTHING[..11], &long[..]] {
        refuses(&rt, bytes, 11, 0);
    }
}

#[test]
fn signal_kinds(rt: HostRuntime) -> Result<(), Fail> {
    loads_all(&rt, &[Good(&[INPUT, OUTPUT, LOCAL], &[[0, 0, 0, 0]])])?;
    refuses_all(
        &rt,
        12,
        &[
            Bad(&[3], &[[0, 0, 0, 0]], 0),
            Bad(&[INPUT, 3, 255], &[[0, 0, 0, 0]], 1),
            Bad(&[INPUT, OUTPUT, 255], &[[0, 0, 0, 0]], 2),
            Bad(&[INPUT, 3], &[[10, 0, 0, 0]], 1),
        ],
    )
}

#[test]
fn unused_fields(rt: HostRuntime) -> Result<(), Fail> {
    refuses_all(
        &rt,
        13,
        &[
            Bad(&[INPUT, INPUT], &[[0, 1, 0, 0]], 0),
            Bad(&[INPUT], &[[0, 0, 1, 0], [0, 0, 0, 0]], 0),
            Bad(&[INPUT], &[[1, 0, 0, 1], [0, 0, 0, 0]], 0),
            Bad(&[OUTPUT], &[[2, 0, 1, 0], [0, 0, 0, 0]], 0),
            Bad(&[INPUT], &[[3, 0, 0, 1], [0, 0, 0, 0]], 0),
            Bad(
                &[INPUT, INPUT],
                &[[4, 1, 1, 2], [0, 0, 0, 0], [0, 0, 0, 0]],
                0,
            ),
            Bad(
                &[INPUT, INPUT],
                &[[5, 1, 1, 2], [0, 0, 0, 0], [0, 0, 0, 0]],
                0,
            ),
            Bad(&[INPUT, INPUT], &[[6, 1, 1, 0], [1, 0, 0, 0]], 0),
            Bad(&[INPUT], &[[6, 0, 1, 1], [1, 0, 0, 0]], 0),
            Bad(&[INPUT], &[[8, 0, 1, 1], [1, 0, 0, 0]], 0),
            Bad(&[LOCAL], &[[9, 0, 1, 1], [1, 0, 0, 0]], 0),
        ],
    )
}

#[test]
fn wrong_records(rt: HostRuntime) -> Result<(), Fail> {
    refuses_all(
        &rt,
        13,
        &[
            Bad(&[], &[[10, 0, 0, 0]], 0),
            Bad(&[], &[[6, 0, 1, 0], [255, 0, 0, 0]], 1),
            Bad(&[OUTPUT], &[[2, 1, 0, 0]], 0),
            Bad(&[INPUT], &[[3, 1, 0, 0]], 0),
            Bad(&[INPUT], &[[7, 1, 1, 2], [0, 0, 0, 0], [0, 0, 0, 0]], 0),
            Bad(&[INPUT], &[[8, 1, 1, 0], [0, 0, 0, 0]], 0),
            Bad(&[LOCAL], &[[9, 1, 1, 0], [0, 0, 0, 0]], 0),
            Bad(&[], &[[6, 0, 0, 0], [1, 0, 0, 0]], 0),
            Bad(&[], &[[6, 0, 2, 0], [1, 0, 0, 0]], 0),
            Bad(&[], &[[4, 0, 1, 3], [0, 0, 0, 0], [0, 0, 0, 0]], 0),
            Bad(&[], &[[5, 0, 1, 2], [0, 0, 0, 0], [6, 0, 1, 0]], 2),
            Bad(&[], &[[6, 0, 1, 0], [6, 0, 1, 0], [10, 0, 0, 0]], 1),
        ],
    )
}

#[test]
fn parts_named_once(rt: HostRuntime) -> Result<(), Fail> {
    refuses_all(
        &rt,
        21,
        &[
            Bad(&[], &[[0, 0, 0, 0], [0, 0, 0, 0]], 1),
            Bad(&[], &[[4, 0, 1, 1], [0, 0, 0, 0]], 1),
            Bad(&[], &[[4, 0, 1, 2], [6, 0, 2, 0], [1, 0, 0, 0]], 2),
            Bad(&[], &[[6, 0, 2, 0], [1, 0, 0, 0], [1, 0, 0, 0]], 1),
            Bad(&[INPUT], &[[2, 0, 0, 0], [0, 0, 0, 0]], 1),
        ],
    )
}

#[test]
fn signal_use(rt: HostRuntime) -> Result<(), Fail> {
    loads_all(&rt, &[Good(&[OUTPUT], &[[2, 0, 0, 0]])])?;
    refuses_all(
        &rt,
        22,
        &[
            Bad(&[INPUT], &[[2, 0, 0, 0]], 0),
            Bad(
                &[OUTPUT, INPUT],
                &[[5, 0, 1, 2], [2, 0, 0, 0], [2, 1, 0, 0]],
                2,
            ),
            Bad(&[INPUT], &[[9, 0, 1, 0], [0, 0, 0, 0]], 0),
            Bad(&[OUTPUT], &[[9, 0, 1, 0], [0, 0, 0, 0]], 0),
            Bad(
                &[LOCAL, INPUT],
                &[[4, 0, 1, 2], [2, 0, 0, 0], [2, 1, 0, 0]],
                2,
            ),
        ],
    )
}

#[test]
fn scopes(rt: HostRuntime) -> Result<(), Fail> {
    loads_all(
        &rt,
        &[
            Good(&[LOCAL], &[[9, 0, 1, 0], [2, 0, 0, 0]]),
            Good(
                &[LOCAL, LOCAL],
                &[
                    [9, 0, 1, 0],
                    [9, 1, 2, 0],
                    [5, 0, 3, 4],
                    [2, 0, 0, 0],
                    [3, 1, 0, 0],
                ],
            ),
        ],
    )?;
    refuses_all(
        &rt,
        23,
        &[
            Bad(&[LOCAL], &[[2, 0, 0, 0]], 0),
            Bad(&[LOCAL], &[[3, 0, 0, 0]], 0),
            Bad(&[LOCAL], &[[7, 0, 1, 2], [0, 0, 0, 0], [0, 0, 0, 0]], 0),
            Bad(&[LOCAL], &[[8, 0, 1, 0], [0, 0, 0, 0]], 0),
            Bad(&[LOCAL], &[[8, 0, 1, 0], [9, 0, 2, 0], [0, 0, 0, 0]], 0),
            Bad(
                &[LOCAL],
                &[[4, 0, 1, 3], [9, 0, 2, 0], [2, 0, 0, 0], [3, 0, 0, 0]],
                3,
            ),
            Bad(&[LOCAL, LOCAL], &[[9, 0, 1, 0], [2, 1, 0, 0]], 1),
            Bad(&[LOCAL], &[[9, 0, 1, 0], [9, 0, 2, 0], [0, 0, 0, 0]], 1),
            Bad(
                &[LOCAL],
                &[
                    [5, 0, 1, 3],
                    [9, 0, 2, 0],
                    [0, 0, 0, 0],
                    [9, 0, 4, 0],
                    [0, 0, 0, 0],
                ],
                3,
            ),
        ],
    )
}

#[test]
fn loops_that_end_at_once(rt: HostRuntime) -> Result<(), Fail> {
    refuses_all(
        &rt,
        24,
        &[
            Bad(&[INPUT], &[[6, 0, 1, 0], [3, 0, 0, 0]], 0),
            Bad(&[], &[[6, 0, 1, 0], [0, 0, 0, 0]], 0),
            Bad(&[OUTPUT], &[[6, 0, 1, 0], [2, 0, 0, 0]], 0),
            Bad(
                &[INPUT, OUTPUT],
                &[[6, 0, 1, 0], [4, 0, 2, 3], [3, 0, 0, 0], [2, 1, 0, 0]],
                0,
            ),
            Bad(
                &[],
                &[[6, 0, 1, 0], [5, 0, 2, 3], [0, 0, 0, 0], [0, 0, 0, 0]],
                0,
            ),
            Bad(
                &[INPUT],
                &[[6, 0, 1, 0], [7, 0, 2, 3], [0, 0, 0, 0], [1, 0, 0, 0]],
                0,
            ),
            Bad(&[INPUT], &[[6, 0, 1, 0], [8, 0, 2, 0], [0, 0, 0, 0]], 0),
            Bad(&[LOCAL], &[[6, 0, 1, 0], [9, 0, 2, 0], [2, 0, 0, 0]], 0),
            Bad(
                &[],
                &[
                    [6, 0, 1, 0],
                    [4, 0, 2, 3],
                    [1, 0, 0, 0],
                    [6, 0, 4, 0],
                    [0, 0, 0, 0],
                ],
                3,
            ),
        ],
    )
}

#[test]
fn loops_that_take_time(rt: HostRuntime) -> Result<(), Fail> {
    loads_all(
        &rt,
        &[
            Good(&[], &[[6, 0, 1, 0], [1, 0, 0, 0]]),
            Good(
                &[INPUT],
                &[[6, 0, 1, 0], [7, 0, 2, 3], [1, 0, 0, 0], [0, 0, 0, 0]],
            ),
            Good(
                &[],
                &[[6, 0, 1, 0], [4, 0, 2, 3], [0, 0, 0, 0], [1, 0, 0, 0]],
            ),
            Good(
                &[],
                &[[6, 0, 1, 0], [5, 0, 2, 3], [1, 0, 0, 0], [0, 0, 0, 0]],
            ),
            Good(&[], &[[6, 0, 1, 0], [6, 0, 2, 0], [1, 0, 0, 0]]),
            Good(&[INPUT], &[[6, 0, 1, 0], [8, 0, 2, 0], [1, 0, 0, 0]]),
        ],
    )
}
