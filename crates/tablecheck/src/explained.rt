ghost use Rattle.std.specs.Prelude.{◌≡◌, Some};
ghost use Rattle.tablecheck.specs.Explained.{explained_text};

use input::Printed;
use routine::Reason;
use std::fmt;

/// What there is to print of a table, and below the line of a refusal the refusal in plain words.
#[derive(Debug, Drop)]
pub struct Explained(Printed);

impl Explained {
    // What is printed of a table, to be explained.
    pub(crate) fn new(printed: Printed) -> Self
        ensures { result.0 ≡ printed }
    {
        Explained(printed)
    }
}

/// The text, or two lines for the refusal: by its number, and in plain words.
impl fmt::Display for Explained {
    ghost output = { λ e. Some (explained_text e) };

    fn fmt<W: fmt::Write>(&self, f: &mut fmt::Formatter<W>) -> fmt::Result {
        write!(f, "{}", self.0)?;
        match &self.0 {
            Printed::Refused { refusal } => writeln!(f, "{}", Reason(*refusal)),
            Printed::Lines { .. } => Ok(()),
        }
    }
}
