ghost use Rattle.std.specs.Prelude.{◌≡◌, ◌++◌, length, None, Err, IfErr, vec_items};
ghost use Rattle.routine.specs.View.{load_of};
ghost use Rattle.record.specs.Taking.{taking_refusal, state_in};
ghost use Rattle.count.specs.CountView.{kinds_of, signals_of, state_of};
ghost use Rattle.device.specs.Closings.{ReactsAll, by_one, by_record, IsOrMemory};

use count::{Closing, Count};
use record::RECORD_BYTES;
use routine::{Refusal, load};
use signals::Board;
use std::alloc::Global;

/// Reacts to each of the words and keeps the closings, which come after those that are there. It
/// stops at the first word that is refused, or where there is no memory.
fn react_all<B: Board>(
    count: &mut Count<B>,
    words: &[u64],
    closings: &mut Vec<Closing>,
) -> Result<(), Refusal>
    ensures { ReactsAll B.present count.old count.new words.now
        (vec_items closings.old) (vec_items closings.new) result }
{
    for word in words {
        closings.push(count.react(*word)?)?;
    }
    Ok(())
}

/// The record of the count, by which a count of the same routine goes on where this one stands.
fn into_record<B: Board + Drop>(count: Count<B>) -> [u8; RECORD_BYTES]
    ensures accepted { taking_refusal (signals_of count) (kinds_of count) result ≡ None }
    ensures says { state_in (length (kinds_of count)) result ≡ state_of B.present count }
{
    let mut record = [0; RECORD_BYTES];
    count.hand_over(&mut record);
    record
}

/// The count takes the record over and reacts to each of the words; its closings come after those
/// that are there.
fn go_on<B: Board + Drop>(
    mut there: Count<B>,
    record: &[u8],
    words: &[u64],
    mut closings: Vec<Closing>,
) -> Result<Vec<Closing>, Refusal>
    ensures { IsOrMemory
        (by_record (signals_of there) (kinds_of there) «record».now (vec_items closings) words.now)
        vec_items result }
{
    there.take_over(record)?;
    react_all(&mut there, words, &mut closings)?;
    Ok(closings)
}

/// The closings of two devices that have the same table: the first reacts to the words before and
/// hands its count over by the record, the second takes it over and reacts to the later words.
///
/// `Err` is the refusal that one device would answer to the table and to all the words, or
/// `Memory`. A table that is refused is refused so whatever memory there is.
pub fn react_on_two<A: Board + Drop, B: Board + Drop>(
    heap: Global,
    table: &[u8],
    boards: (A, B),
    before: &[u64],
    later: &[u64],
) -> Result<Vec<Closing>, Refusal>
    ensures answers { IsOrMemory (by_one table.now (before.now ++ later.now)) vec_items result }
    ensures refused { IfErr (load_of table.now) (λ e. result ≡ Err e) }
{
    let (first, second) = boards;
    let mut closings = Vec::new(heap);
    let mut here = Count::new(load(heap, table)?, first);
    react_all(&mut here, before, &mut closings)?;
    let record = into_record(here);
    let there = Count::new(load(heap, table)?, second);
    go_on(there, &record, later, closings)
}
