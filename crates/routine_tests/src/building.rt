use routine::{Routine, load};
use std::alloc::{AllocError, Global};
use std::test::Fail;

// What a table's byte says of a signal.
pub(crate) const INPUT: u8 = 0;

pub(crate) const OUTPUT: u8 = 1;

pub(crate) const LOCAL: u8 = 2;

// The bytes of a table: signal kinds, and records of kind, signal, first, second.
pub(crate) fn table(heap: Global, signals: &[u8], records: &[[u8; 4]]) -> Result<Vec<u8>, Fail> {
    let mut bytes = Vec::new(heap);
    for word in [
        8,
        signals.len(),
        signals.len().wrapping_add(8),
        records.len(),
    ] {
        bytes.extend_from_slice(&u16::try_from(word)?.to_le_bytes())?;
    }
    bytes.extend_from_slice(signals)?;
    for record in records {
        bytes.extend_from_slice(record)?;
    }
    Ok(bytes)
}

// The routine of signal kinds and of records.
pub(crate) fn routine(heap: Global, signals: &[u8], records: &[[u8; 4]]) -> Result<Routine, Fail> {
    let bytes = table(heap, signals, records)?;
    Ok(load(heap, &bytes)?)
}

// The records of n statements: loops in one another around a stop.
pub(crate) fn nest(heap: Global, n: usize) -> Result<Vec<[u8; 4]>, AllocError> {
    let mut records: Vec<[u8; 4]> = (1..n).map(|i| [6, 0, (i & 0xff) as u8, 0]).collect(heap)?;
    records.push([1, 0, 0, 0])?;
    Ok(records)
}
