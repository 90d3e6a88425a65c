#![tactic(auto)]

mod arguments;
mod printed;

ghost use Rattle.std.specs.Prelude.{◌≡◌, IfOk, IfSome, take};
ghost use Rattle.input.specs.Input.{table_part, rest_part};

pub use arguments::{UnknownArgument, no_arguments};
pub use printed::Printed;
use std::alloc::Global;
use std::io;
use std::io::Read;

/// How many bytes of its input a program reads at most.
pub const MOST_INPUT_BYTES: u64 = 65_536;

/// Reads a program's input to its end, or its first `MOST_INPUT_BYTES` bytes; what follows them is
/// not read. `Err` is that of the reader, or want of memory.
pub fn read_input<R: Read + Drop>(heap: Global, input: R) -> io::Result<Vec<u8>>
    ensures { IfOk result (λ bytes. IfSome (R.remaining input)
        (λ all. bytes.items ≡ take MOST_INPUT_BYTES all)) }
{
    let mut bytes = Vec::new(heap);
    input.take(MOST_INPUT_BYTES).read_to_end(&mut bytes)?;
    Ok(bytes)
}

/// Cuts a program's input into the table and what follows it: two bytes say the table's length, the
/// lower first. Bytes that are missing are 0 in the length; a table that is too short is what is
/// there.
pub fn cut(bytes: &[u8]) -> (&[u8], &[u8])
    ensures table { result.0.now ≡ table_part bytes.now }
    ensures rest { result.1.now ≡ rest_part bytes.now }
{
    let Some((length, rest)) = bytes.split_first_chunk::<2>() else {
        return (&[], &[]);
    };
    let length = usize::from(u16::from_le_bytes(*length));
    rest.split_at(length.min(rest.len()))
}
