ghost use Rattle.std.specs.Prelude.{◌≡◌, ℕ, ◌≤◌, true, length, if◌then◌else◌, nat_lt, count_by};
ghost use Rattle.routine.specs.Kinds.{kinds};
ghost use Rattle.routine.specs.Meaning.{same, passes};

use crate::kinds::SignalKind;
use crate::tables::Table;

/// A counting routine: a table that passed every test.
#[derive(Debug, Drop)]
pub struct Routine {
    /// The table. Its statements are idle, or have the marks that the last count gave them.
    pub table: Table,
    ghost passed: { passes table.signals.items (kinds table.statements.items) ≡ true },
}

impl Routine {
    ghost use Rattle.routine.specs.Tree.{tree, occurs, size};
    ghost use Rattle.routine.specs.View.{table_signals, table_kinds, count_of, tree_of};

    /// How many statements there are, 1 to `MOST_STATEMENTS`. Each is once in the routine's tree,
    /// which is the same if one looks deeper than so many levels (`fuel`).
    pub fn count(&self) -> usize
        ensures value { result ≡ length (table_kinds self.now.table) }
        ensures rows { result ≡ count_of self.now.table }
        ensures once { (i : ℕ) → occurs (tree_of self.now) i ≡ (if nat_lt i result then 1 else 0) }
        ensures whole { size (tree_of self.now) ≡ result }
        ensures fuel { (deep : ℕ) → result ≤ deep
            → tree (table_kinds self.now.table) deep 0 ≡ tree_of self.now }
    {
        self.table.count()
    }

    /// How many signals are of this kind, 0 to `MOST_SIGNALS`.
    pub fn signals(&self, kind: SignalKind) -> usize
        ensures { result ≡ count_by (λ g. same g kind) (table_signals self.now.table) }
    {
        self.table
            .signals
            .iter()
            .filter(|&&signal| signal == kind)
            .count()
    }
}
