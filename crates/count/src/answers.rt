ghost use Rattle.std.specs.Prelude.{Some};
ghost use Rattle.count.specs.Texts.{closing_text};

use rules::Status;
use std::fmt;

/// What a closed instant came to.
#[derive(Clone, Copy, Debug, PartialEq, Eq)]
pub struct Closing {
    /// Its number; the first has 1.
    pub instant: u32,
    /// The present outputs: bit s is set where signal s is an output and was present.
    pub outputs: u64,
    /// Whether the routine goes on or is over.
    pub status: Status,
    /// How many steps were made in it, counted up to 65,535.
    pub steps: u16,
}

/// The instant, the word of outputs in sixteen hexadecimal digits, the status and the steps.
impl fmt::Display for Closing {
    ghost output = { λ c. Some (closing_text c) };

    fn fmt<W: fmt::Write>(&self, f: &mut fmt::Formatter<W>) -> fmt::Result {
        let Closing {
            instant,
            outputs,
            status,
            steps,
        } = *self;
        write!(f, "{instant} {outputs:016x} {status} {steps}")
    }
}
