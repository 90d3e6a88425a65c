use crate::listing::listing;
use std::alloc::Global;
use std::process::Abort;
use std::test::Fail;

// The table of docs/TABLE.md, after its length. Here and below a table is written with its length,
// contents and signals first, its statements from a new line on, and the words from another.
const EXAMPLE: &[u8] = b"\x22\x00\x08\x00\x02\x00\x0a\x00\x06\x00\x00\x01\
  \x06\x00\x01\x00\x04\x00\x02\x03\x03\x00\x00\x00\x04\x00\x04\x05\x02\x01\x00\x00\
  \x01\x00\x00\x00";

// The example, and what follows it.
fn example_with(heap: Global, rest: &[u8]) -> Result<Vec<u8>, Fail> {
    let mut bytes = EXAMPLE.to_vec(heap)?;
    bytes.extend_from_slice(rest)?;
    Ok(bytes)
}

fn prints(rt: &(impl Abort + AllocGlobal), bytes: &[u8], text: &str) -> Result<(), Fail> {
    let printed = format!(in rt.alloc(); "{}", listing(rt.alloc(), bytes)?)?;
    assert_eq!(rt; printed.as_str(), text);
    Ok(())
}

// Worked routines: nothing, stop, relayed, a second part too late, killed, over already, a new
// life, emitted.
#[test]
fn worked(rt: HostRuntime) -> Result<(), Fail> {
    prints(
        &rt,
        b"\x0c\x00\x08\x00\x00\x00\x08\x00\x01\x00\x00\x00\x00\x00\x00\x00\x00\x00\x00\x00\x00\x00",
        "1 0000000000000000 T 0\n",
    )?;
    prints(
        &rt,
        b"\x0c\x00\x08\x00\x00\x00\x08\x00\x01\x00\
          \x01\x00\x00\x00\
          \x00\x00\x00\x00\x00\x00\x00\x00\x00\x00\x00\x00\x00\x00\x00\x00",
        "1 0000000000000000 S 0\n2 0000000000000000 T 0\n",
    )?;
    prints(
        &rt,
        b"\x2f\x00\x08\x00\x03\x00\x0b\x00\x09\x00\x01\x01\x01\
          \x05\x00\x01\x06\x05\x00\x02\x05\x07\x00\x03\x04\x02\x01\x00\x00\x00\x00\x00\x00\
          \x02\x00\x00\x00\x04\x00\x07\x08\x03\x01\x00\x00\x02\x02\x00\x00\
          \x00\x00\x00\x00\x00\x00\x00\x00",
        "1 0000000000000007 T 6\n",
    )?;
    prints(
        &rt,
        b"\x19\x00\x08\x00\x01\x00\x09\x00\x04\x00\x02\
          \x09\x00\x01\x00\x07\x00\x02\x03\x00\x00\x00\x00\x02\x00\x00\x00\
          \x00\x00\x00\x00\x00\x00\x00\x00\x00\x00\x00\x00\x00\x00\x00\x00",
        "1 0000000000000000 S 1\n2 0000000000000000 T 3\n",
    )?;
    prints(
        &rt,
        b"\x1e\x00\x08\x00\x02\x00\x0a\x00\x05\x00\x00\x01\
          \x04\x00\x01\x04\x08\x00\x02\x00\x06\x00\x03\x00\x01\x00\x00\x00\x02\x01\x00\x00\
          \x00\x00\x00\x00\x00\x00\x00\x00\x01\x00\x00\x00\x00\x00\x00\x00\
          \x00\x00\x00\x00\x00\x00\x00\x00",
        "1 0000000000000000 S 1\n2 0000000000000000 S 2\n3 0000000000000002 T 2\n",
    )?;
    prints(
        &rt,
        b"\x11\x00\x08\x00\x01\x00\x09\x00\x02\x00\x00\
          \x08\x00\x01\x00\x00\x00\x00\x00\
          \x01\x00\x00\x00\x00\x00\x00\x00",
        "1 0000000000000000 T 1\n",
    )?;
    prints(
        &rt,
        b"\x2e\x00\x08\x00\x02\x00\x0a\x00\x09\x00\x02\x01\
          \x06\x00\x01\x00\x09\x00\x02\x00\x04\x00\x03\x06\x07\x00\x04\x05\x02\x01\x00\x00\
          \x00\x00\x00\x00\x04\x00\x07\x08\x01\x00\x00\x00\x02\x00\x00\x00\
          \x00\x00\x00\x00\x00\x00\x00\x00\x00\x00\x00\x00\x00\x00\x00\x00\
          \x00\x00\x00\x00\x00\x00\x00\x00\x00\x00\x00\x00\x00\x00\x00\x00",
        "1 0000000000000000 S 2\n\
         2 0000000000000000 S 2\n\
         3 0000000000000000 S 7\n\
         4 0000000000000000 S 2\n",
    )?;
    prints(
        &rt,
        b"\x15\x00\x08\x00\x01\x00\x09\x00\x03\x00\x01\
          \x05\x00\x01\x02\x02\x00\x00\x00\x03\x00\x00\x00\
          \x00\x00\x00\x00\x00\x00\x00\x00",
        "1 0000000000000001 T 2\n",
    )
}

// A refusal is the last line: of a table, and of a word.
#[test]
fn refused(rt: HostRuntime) -> Result<(), Fail> {
    prints(
        &rt,
        b"\x11\x00\x08\x00\x01\x00\x09\x00\x02\x00\x00\
          \x06\x00\x01\x00\x03\x00\x00\x00\
          \x00\x00\x00\x00\x00\x00\x00\x00",
        "refused 24 0\n",
    )?;
    prints(
        &rt,
        &example_with(
            rt.alloc(),
            b"\x00\x00\x00\x00\x00\x00\x00\x00\x02\x00\x00\x00\x00\x00\x00\x00\
              \x00\x00\x00\x00\x00\x00\x00\x00",
        )?,
        "1 0000000000000000 S 1\nrefused 34 1\n",
    )?;
    prints(
        &rt,
        b"\x0c\x00\x08\x00\x00\x00\x08\x00\x01\x00\
          \x00\x00\x00\x00\
          \x00\x00\x00\x00\x00\x00\x00\x00\x00\x00\x00\x00\x00\x00\x00\x00\
          \x00\x00\x00\x00\x00\x00\x00\x00",
        "1 0000000000000000 T 0\nrefused 32 0\n",
    )?;
    prints(
        &rt,
        &example_with(rt.alloc(), b"\x00\x00\x00\x00\x00\x00\x00\x80")?,
        "refused 34 63\n",
    )
}

// Bytes that are missing, and bytes that are no whole word.
#[test]
fn short(rt: HostRuntime) -> Result<(), Fail> {
    prints(&rt, b"", "refused 11 0\n")?;
    prints(&rt, b"\x22", "refused 11 0\n")?;
    prints(
        &rt,
        b"\x22\x00\x08\x00\x02\x00\x0a\x00\x06\x00\x00\x01\x06\x00\x01\x00\x04\x00\x02\x03",
        "refused 11 0\n",
    )?;
    prints(&rt, EXAMPLE, "")?;
    prints(
        &rt,
        &example_with(rt.alloc(), b"\x00\x00\x00\x00\x00\x00\x00")?,
        "",
    )?;
    prints(
        &rt,
        &example_with(
            rt.alloc(),
            b"\x00\x00\x00\x00\x00\x00\x00\x00\x01\x00\x00\x00\x00\x00\x00",
        )?,
        "1 0000000000000000 S 1\n",
    )
}

// The digits of a word are small letters, from the highest down.
#[test]
fn digits(rt: HostRuntime) -> Result<(), Fail> {
    prints(
        &rt,
        b"\xbc\x00\x08\x00\x20\x00\x28\x00\x25\x00\x01\x01\x01\x01\x01\x01\x01\x01\x01\x01\
          \x01\x01\x01\x01\x01\x01\x01\x01\x01\x01\x01\x01\x01\x01\x01\x01\x01\x01\x01\x01\
          \x01\x01\
          \x05\x00\x01\x02\x02\x00\x00\x00\x05\x00\x03\x04\x02\x02\x00\x00\x05\x00\x05\x06\
          \x02\x08\x00\x00\x05\x00\x07\x08\x02\x09\x00\x00\x05\x00\x09\x0a\x02\x0a\x00\x00\
          \x05\x00\x0b\x0c\x02\x0b\x00\x00\x05\x00\x0d\x0e\x02\x0d\x00\x00\x05\x00\x0f\x10\
          \x02\x0e\x00\x00\x05\x00\x11\x12\x02\x0f\x00\x00\x05\x00\x13\x14\x02\x10\x00\x00\
          \x05\x00\x15\x16\x02\x12\x00\x00\x05\x00\x17\x18\x02\x13\x00\x00\x05\x00\x19\x1a\
          \x02\x16\x00\x00\x05\x00\x1b\x1c\x02\x17\x00\x00\x05\x00\x1d\x1e\x02\x18\x00\x00\
          \x05\x00\x1f\x20\x02\x19\x00\x00\x05\x00\x21\x22\x02\x1b\x00\x00\x05\x00\x23\x24\
          \x02\x1d\x00\x00\x02\x1f\x00\x00\
          \x00\x00\x00\x00\x00\x00\x00\x00",
        "1 00000000abcdef05 T 19\n",
    )
}

// Loops in one another around a stop, with so many inputs and statements; and a word with all bits
// set.
fn nest(heap: Global, signals: u16, statements: u16) -> Result<Vec<u8>, Fail> {
    let mut table = Vec::new(heap);
    for word in [8, signals, signals.wrapping_add(8), statements] {
        table.extend_from_slice(&word.to_le_bytes())?;
    }
    table.resize(usize::from(signals).wrapping_add(8), 0)?;
    for i in 1..statements {
        table.extend_from_slice(&[6, 0, i.to_le_bytes()[0], 0])?;
    }
    table.extend_from_slice(&[1, 0, 0, 0])?;
    let mut bytes = Vec::new(heap);
    bytes.extend_from_slice(&u16::try_from(table.len())?.to_le_bytes())?;
    bytes.extend_from_slice(&table)?;
    bytes.extend_from_slice(&u64::MAX.to_le_bytes())?;
    Ok(bytes)
}

// 64 signals and 256 statements pass; one more of either is refused.
#[test]
fn at_the_limits(rt: HostRuntime) -> Result<(), Fail> {
    prints(
        &rt,
        &nest(rt.alloc(), 64, 256)?,
        "1 0000000000000000 S 255\n",
    )?;
    prints(&rt, &nest(rt.alloc(), 65, 256)?, "refused 11 0\n")?;
    prints(&rt, &nest(rt.alloc(), 64, 257)?, "refused 11 0\n")
}
