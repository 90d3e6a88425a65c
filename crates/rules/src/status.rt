ghost use Rattle.std.specs.Prelude.{Some};
ghost use Rattle.rules.specs.Letters.{letter_of};

use std::fmt;

/// How an instant leaves a routine.
#[derive(Clone, Copy, Debug, PartialEq, Eq)]
pub enum Status {
    /// It goes on in the next instant.
    Suspended,
    /// It is at its end.
    Terminated,
}

/// S where it goes on, T at its end.
impl fmt::Display for Status {
    ghost output = { λ s. Some (letter_of s) };

    fn fmt<W: fmt::Write>(&self, f: &mut fmt::Formatter<W>) -> fmt::Result {
        match self {
            Status::Suspended => write!(f, "S"),
            Status::Terminated => write!(f, "T"),
        }
    }
}
