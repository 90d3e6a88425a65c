ghost use Rattle.std.specs.Prelude.{◌≡◌, ◌≤◌, ◌↔◌, Some, IsOk, IfErr, length, slice_get};
ghost use Rattle.std.specs.Vec.Iter.{into_iter_items};
ghost use Rattle.input.specs.Arguments.{argument_text};

use std::env::Args;
use std::error::Error;
use std::fmt;

/// An argument of a program that takes none.
#[derive(Debug, Drop)]
pub struct UnknownArgument {
    /// The argument, as it was given.
    pub argument: String,
}

/// That no arguments are taken, and the one that was given.
// The argument comes last, since an error of a program cuts a long text.
impl fmt::Display for UnknownArgument {
    ghost output = { λ e. Some (argument_text e) };

    fn fmt<W: fmt::Write>(&self, f: &mut fmt::Formatter<W>) -> fmt::Result {
        let argument = &self.argument;
        write!(
            f,
            "no arguments are taken, input comes from standard input: {argument}"
        )
    }
}

impl Error for UnknownArgument {}

/// Refuses the words of a command line where one follows the program's name, and names the first
/// that does.
pub fn no_arguments(mut words: Args) -> Result<(), UnknownArgument>
    ensures none { IsOk result ↔ (length (into_iter_items words) ≤ 1) }
    ensures first { IfErr result (λ e. slice_get (into_iter_items words) 1 ≡ Some e.argument) }
{
    let _program = words.next();
    match words.next() {
        Some(argument) => Err(UnknownArgument { argument }),
        None => Ok(()),
    }
}
