ghost use Rattle.std.specs.Prelude.{◌≡◌, ℕ, ◌<◌, true, None, length};
ghost use Rattle.routine.specs.Kinds.{marks};
ghost use Rattle.routine.specs.Tree.{tree_at};
ghost use Rattle.routine.specs.View.{table_kinds, table_signals};
ghost use Rattle.rules.specs.Rules.{over};
ghost use Rattle.rules.specs.Legal.{keeps};
ghost use Rattle.record.specs.Phases.{is_open, is_over};
ghost use Rattle.record.specs.Taking.{fault_by};

use crate::heads::Head;
use routine::Routine;

/// Where a count can stand: a head and a routine that go together.
///
/// The head has no bad field, the marks of the routine's statements are legal in its phase, and in
/// phase over statement 0 is over.
#[derive(Clone, Copy, Debug)]
pub struct Standing<'a> {
    /// All but the marks.
    pub head: Head,
    /// The routine, whose statements have the marks.
    pub routine: &'a Routine,
    ghost faultless: { fault_by head.phase (length (table_signals routine.now.table)) head ≡ None },
    ghost legal: { ((i : ℕ) → i < length (table_kinds routine.now.table)
        → keeps (is_open head.phase) (table_kinds routine.now.table)
        (marks routine.now.table.statements.items) i ≡ true) },
    ghost finished: { (is_over head.phase ≡ true
        → over (tree_at (table_kinds routine.now.table) 0)
        (marks routine.now.table.statements.items) ≡ true) },
}
