ghost use Rattle.std.specs.Prelude.{◌≡◌, ◌≤◌, length, slice_get};
ghost use Rattle.routine.specs.Kinds.{kinds};
ghost use Rattle.routine.specs.Layout.{Formed};
ghost use Rattle.routine.specs.declared.tables.TheConstants.{MOST_STATEMENTS};

use crate::kinds::{Kind, SignalKind, Statement};

// The signals and the statements of a table, lent: all that the tests of its meaning read.
#[derive(Clone, Copy, Debug)]
pub(crate) struct Rows<'a> {
    pub(crate) signals: &'a [SignalKind],
    pub(crate) statements: &'a [Statement],
    ghost most: { length statements.now ≤ MOST_STATEMENTS },
    ghost formed: { Formed (length signals.now) (kinds statements.now) },
}

impl Rows<'_> {
    ghost use Rattle.routine.specs.Kinds.{shape, kind_at};
    ghost use Rattle.routine.specs.Tree.{node, tree_at};
    ghost use Rattle.routine.specs.View.{PartsRise};
    ghost use Rattle.routine.specs.Lent.{lent_signals, lent_kinds, lent_count};

    // How many statements there are.
    pub(crate) fn count(&self) -> usize
        ensures rows { result ≡ lent_count self.now }
        ensures listed { result ≡ length (lent_kinds self.now) }
    {
        self.statements.len()
    }

    // The kind of a signal, if there is one of that number.
    pub(crate) fn signal(&self, signal: usize) -> Option<SignalKind>
        ensures { result ≡ slice_get (lent_signals self.now) signal }
    {
        self.signals.get(signal).copied()
    }

    // The kind of statement i, one level of its tree, and where its parts lie; nothing where
    // there is no such statement.
    pub(crate) fn kind(&self, i: usize) -> Kind
        ensures value { result ≡ kind_at (lent_kinds self.now) i }
        ensures rise { PartsRise (lent_count self.now) i (shape result) }
        ensures level { tree_at (lent_kinds self.now) i
            ≡ node i (shape result) (tree_at (lent_kinds self.now)) }
    {
        self.statements.get(i).map_or(Kind::Nothing, |row| row.kind)
    }
}
