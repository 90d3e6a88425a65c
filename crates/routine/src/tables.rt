ghost use Rattle.std.specs.Prelude.{◌≡◌, ◌≤◌, length, vec_items, vec_len, slice_get};
ghost use Rattle.routine.specs.Kinds.{kinds};
ghost use Rattle.routine.specs.Layout.{Formed};
ghost use Rattle.routine.specs.declared.tables.TheConstants.{MOST_SIGNALS, MOST_STATEMENTS};

use crate::kinds::{Kind, SignalKind, Statement};
use crate::rows::Rows;

/// How many signals a table has at most.
pub const MOST_SIGNALS: usize = 64;

/// How many statements a table has at most.
pub const MOST_STATEMENTS: usize = 256;

// How many bytes a table begins with: its contents.
pub(crate) const CONTENTS_BYTES: usize = 8;

// How many bytes a table has for a statement.
pub(crate) const STATEMENT_BYTES: usize = 4;

/// How many bytes a table has at most: its contents, a byte for each signal, and a record for each
/// statement.
pub const MOST_TABLE_BYTES: usize = CONTENTS_BYTES
    + MOST_SIGNALS
    + STATEMENT_BYTES * MOST_STATEMENTS;

/// What a table's bytes say, not yet checked: its signals and its statements, each with a number
/// from 0 on. It has the form of a table: at most `MOST_SIGNALS` signals, 1 to `MOST_STATEMENTS`
/// statements, and fields that fit. A part is a number and no box, since calls and refusals name
/// statements by number.
#[derive(Debug, Drop)]
pub struct Table {
    /// The kind of each signal, by its number.
    pub signals: Vec<SignalKind>,
    /// Each statement, by its number.
    pub statements: Vec<Statement>,
    ghost few: { vec_len signals ≤ MOST_SIGNALS },
    ghost some: { 1 ≤ vec_len statements },
    ghost most: { vec_len statements ≤ MOST_STATEMENTS },
    ghost formed: { Formed (vec_len signals) (kinds statements.items) },
}

impl Table {
    ghost use Rattle.routine.specs.Kinds.{shape, kind_at};
    ghost use Rattle.routine.specs.Tree.{node, tree_at};
    ghost use Rattle.routine.specs.View.{table_signals, table_kinds, count_of, PartsRise};

    // The signals and the statements, lent.
    pub(crate) fn rows(&self) -> Rows<'_>
        ensures signals { result.signals.now ≡ table_signals self.now }
        ensures statements { result.statements.now ≡ vec_items self.now.statements }
    {
        Rows {
            signals: self.signals.as_slice(),
            statements: self.statements.as_slice(),
        }
    }

    // How many statements there are.
    pub(crate) fn count(&self) -> usize
        ensures rows { result ≡ count_of self.now }
        ensures listed { result ≡ length (table_kinds self.now) }
    {
        self.statements.len()
    }

    /// The kind of a signal, if there is one of that number.
    pub fn signal(&self, signal: usize) -> Option<SignalKind>
        ensures { result ≡ slice_get (table_signals self.now) signal }
    {
        self.rows().signal(signal)
    }

    /// The kind of statement i, whose parts have higher numbers; `Nothing` where there is no such
    /// statement.
    pub fn kind(&self, i: usize) -> Kind
        ensures value { result ≡ kind_at (table_kinds self.now) i }
        ensures rise { PartsRise (count_of self.now) i (shape result) }
        ensures level { tree_at (table_kinds self.now) i
            ≡ node i (shape result) (tree_at (table_kinds self.now)) }
    {
        self.rows().kind(i)
    }
}
