ghost use Rattle.std.specs.Prelude.{Some};
ghost use Rattle.input.specs.Printed.{printed_text};

use routine::Refusal;
use std::fmt;

/// What a program prints of a table: the line of its refusal, for which no memory is wanted, or the
/// text of what was done with it.
#[derive(Debug, Drop)]
pub enum Printed {
    /// The table is no routine.
    Refused { refusal: Refusal },
    /// The whole text, which is printed as it is.
    Lines { text: String },
}

/// The text, or a line for the refusal.
impl fmt::Display for Printed {
    ghost output = { λ p. Some (printed_text p) };

    fn fmt<W: fmt::Write>(&self, f: &mut fmt::Formatter<W>) -> fmt::Result {
        match self {
            Printed::Refused { refusal } => writeln!(f, "{refusal}"),
            Printed::Lines { text } => write!(f, "{text}"),
        }
    }
}
