ghost use Rattle.std.specs.Prelude.{◌≡◌, ◌≤◌, Ok, length};
ghost use Rattle.arrayvec.specs.ArrayVec.{array_vec_len};
ghost use Rattle.routine.specs.Kinds.{kinds};
ghost use Rattle.routine.specs.Layout.{Formed};

use crate::kinds::{SignalKind, Statement};
use crate::refusals::Refusal;
use crate::rows::Rows;
use crate::tables::{MOST_SIGNALS, MOST_STATEMENTS, Table};
use arrayvec::ArrayVec;
use std::alloc::Global;

// What a table's bytes say, on the stack: it is tested before memory is asked for, so that want
// of it hides no refusal.
#[derive(Debug, Drop)]
pub(crate) struct Draft {
    pub(crate) signals: ArrayVec<SignalKind, MOST_SIGNALS>,
    pub(crate) statements: ArrayVec<Statement, MOST_STATEMENTS>,
    ghost some: { 1 ≤ array_vec_len statements },
    ghost formed: { Formed (length signals.items) (kinds statements.items) },
}

impl Draft {
    ghost use Rattle.routine.specs.Refusals.{AnswersOrMemory};
    ghost use Rattle.routine.specs.View.{content};
    ghost use Rattle.routine.specs.Lent.{draft_content};

    // The signals and the statements, lent.
    pub(crate) fn rows(&self) -> Rows<'_>
        ensures signals { result.signals.now ≡ self.now.signals.items }
        ensures statements { result.statements.now ≡ self.now.statements.items }
    {
        Rows {
            signals: self.signals.as_slice(),
            statements: self.statements.as_slice(),
        }
    }

    // The same as a table, or want of memory.
    pub(crate) fn table(&self, heap: Global) -> Result<Table, Refusal>
        ensures { AnswersOrMemory (Ok (draft_content self.now)) content result }
    {
        let signals = Vec::from_slice(heap, self.signals.as_slice())?;
        let statements = Vec::from_slice(heap, self.statements.as_slice())?;
        Ok(Table {
            signals,
            statements,
        })
    }
}
