ghost use Rattle.std.specs.Prelude.{◌≡◌, ◌++◌, string_bytes, OnOk};
ghost use Rattle.routine.specs.Refusals.{SaysOrMemory};
ghost use Rattle.count.specs.CountView.{kinds_of, signals_of, state_of};
ghost use Rattle.input.specs.Printed.{said};
ghost use Rattle.run.specs.InputWords.{words_of};
ghost use Rattle.run.specs.Listing.{lines, listing_of};

use count::Count;
use input::{Printed, cut};
use routine::{Refusal, load};
use signals::{BitBoard, Board};
use std::alloc::{AllocError, Global};

// A line for each word that the count reacts to; a refusal is the last line. No `Display`, which
// could not change the count.
fn write_lines<B: Board>(
    out: &mut String,
    count: &mut Count<B>,
    bytes: &[u8],
) -> Result<(), AllocError>
    ensures { OnOk result (string_bytes out.new
        ≡ string_bytes out.old
        ++ lines (signals_of count.old) (kinds_of count.old)
        (state_of B.present count.old) (words_of bytes.now)) }
{
    let (words, _) = bytes.as_chunks::<8>();
    for word in words {
        match count.react(u64::from_le_bytes(*word)) {
            Ok(closing) => writeln!(out, "{closing}")?,
            Err(refusal) => return writeln!(out, "{refusal}"),
        }
    }
    Ok(())
}

/// What there is to print of the input's bytes: the refusal of the table, or a line for each input
/// word that a new count of its routine reacts to, on a bit board; a refused word is the last. A
/// table that is no routine is refused whatever memory there is; `Err` is want of memory.
pub fn listing(heap: Global, bytes: &[u8]) -> Result<Printed, AllocError>
    ensures { SaysOrMemory (listing_of bytes.now) said result }
{
    let (table, words) = cut(bytes);
    let routine = match load(heap, table) {
        Ok(routine) => routine,
        // Want of memory is no refusal of the table.
        Err(Refusal::Memory) => return Err(AllocError),
        Err(refusal) => return Ok(Printed::Refused { refusal }),
    };
    let mut text = String::new(heap);
    write_lines(&mut text, &mut Count::new(routine, BitBoard::new()), words)?;
    Ok(Printed::Lines { text })
}
