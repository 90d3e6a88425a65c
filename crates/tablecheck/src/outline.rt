ghost use Rattle.std.specs.Prelude.{◌≡◌, ◌<◌, ◌≤◌, ◌++◌, Some, string_bytes, OnOk};
ghost use Rattle.routine.specs.Tree.{tree_at};
ghost use Rattle.routine.specs.View.{table_kinds};
ghost use Rattle.tablecheck.specs.Report.{statement_text, outline};

use routine::{Kind, Routine};
use std::alloc::AllocError;
use std::fmt;

// A statement of the outline: two blanks for each level, its number, its name and its signal.
#[derive(Clone, Copy, Debug, PartialEq, Eq)]
struct Line {
    depth: u8,
    number: u8,
    kind: Kind,
}

impl fmt::Display for Line {
    ghost output = { λ l. Some (statement_text l.depth l.number l.kind) };

    #[tactic(auto, using(crate::proofs::Lines::blanks))]
    fn fmt<W: fmt::Write>(&self, f: &mut fmt::Formatter<W>) -> fmt::Result {
        let width = 2 * usize::from(self.depth);
        write!(f, "{:width$}{} {}", "", self.number, self.kind)
    }
}

// The lines of a statement and of all that lies inside it: a function, since a `Display` that
// prints its parts through itself is proved only for a type that contains itself.
pub(crate) fn write_outline(
    out: &mut String,
    routine: &Routine,
    number: u8,
    depth: u8,
) -> Result<(), AllocError>
    requires { depth ≤ number }
    ensures { let ks = table_kinds routine.now.table in
        OnOk result (string_bytes out.new
        ≡ string_bytes out.old ++ outline ks depth (tree_at ks number)) }
{
    let kind = routine.table.kind(usize::from(number));
    let line = Line {
        depth,
        number,
        kind,
    };
    writeln!(out, "{line}")?;
    match kind {
        Kind::Nothing | Kind::Stop | Kind::Emit { .. } | Kind::Wait { .. } => Ok(()),
        Kind::Loop { first } | Kind::Kill { first, .. } | Kind::Local { first, .. } => {
            write_outline(out, routine, first, depth + 1)
        }
        Kind::Sequence { first, second }
        | Kind::Parallel { first, second }
        | Kind::When { first, second, .. } => {
            write_outline(out, routine, first, depth + 1)?;
            write_outline(out, routine, second, depth + 1)
        }
    }
}
