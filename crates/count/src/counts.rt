ghost use Rattle.std.specs.Prelude.{◌≡◌, ℕ, ◌<◌, true, false, length};
ghost use Rattle.signals.specs.Sets.{empty};
ghost use Rattle.routine.specs.Tree.{tree_at};
ghost use Rattle.rules.specs.Rules.{over};
ghost use Rattle.rules.specs.Legal.{keeps};
ghost use Rattle.record.specs.declared.heads.TheConstants.{MOST_INSTANTS};
ghost use Rattle.record.specs.Phases.{is_open, is_over};
ghost use Rattle.record.specs.Sound.{Within};
ghost use Rattle.count.specs.View.{kinds_in, marks_in, signals_in};

use crate::machine::Rows;
use record::Phase;
use routine::{Mark, Routine, Statement};
use signals::Board;

// No `impl Model`: it would hide the board, which a refused call leaves as it was. The steps stand
// beside the phase, since they are asked for in every phase.

/// A routine at work on a board.
///
/// Its marks are legal, and in phase over statement 0 is over. Only signals of the routine are
/// present, and none outside an open instant. A call that is refused leaves the count as it was,
/// board included.
#[derive(Debug, Drop)]
pub struct Count<B: Board> {
    pub(crate) rows: Rows,
    pub(crate) board: B,
    pub(crate) phase: Phase,
    pub(crate) closed: u32,
    pub(crate) steps: u16,
    ghost legal: { ((i : ℕ) → i < length (kinds_in rows)
        → keeps (is_open phase) (kinds_in rows) (marks_in rows) i ≡ true) },
    ghost finished: { (is_over phase ≡ true
        → over (tree_at (kinds_in rows) 0) (marks_in rows) ≡ true) },
    ghost no_signals: { (is_open phase ≡ false → B.present board ≡ empty) },
    ghost within: { Within (length (signals_in rows)) (B.present board) },
    ghost no_steps: { (is_open phase ≡ false → steps ≡ 0) },
    ghost room: { (is_open phase ≡ true → closed < MOST_INSTANTS) },
}

impl<B: Board> Count<B> {
    ghost use Rattle.std.specs.Prelude.{if◌then◌else◌, Some, None, nat_lt, slice_index_or};
    ghost use Rattle.routine.specs.Kinds.{kinds, marks};
    ghost use Rattle.routine.specs.Search.{lowest};
    ghost use Rattle.routine.specs.View.{table_kinds, table_signals};
    ghost use Rattle.rules.specs.Rules.{rule, ready, at};
    ghost use Rattle.count.specs.Calls.{new_state};
    ghost use Rattle.count.specs.CountView.{kinds_of, signals_of, state_of};

    /// A count at its start, of any routine and on any board: statement 0 is begun, all else is
    /// idle, no signal is present. Marks that the routine had and signals of the board are dropped.
    pub fn new(routine: Routine, mut board: B) -> Count<B>
        ensures kinds { kinds_of result ≡ table_kinds routine.table }
        ensures signals { signals_of result ≡ table_signals routine.table }
        ensures state { state_of B.present result ≡ new_state (table_kinds routine.table) }
    {
        board.wipe();
        let mut rows = Rows::new(routine);
        rows.idle(0);
        rows.begin(0);
        Count {
            rows,
            board,
            phase: Phase::Resting,
            closed: 0,
            steps: 0,
        }
    }

    /// Where the count stands.
    pub fn phase(&self) -> Phase
        ensures { result ≡ (state_of B.present self.now).phase }
    {
        self.phase
    }

    /// How many instants are closed.
    pub fn closed(&self) -> u32
        ensures { result ≡ (state_of B.present self.now).closed }
    {
        self.closed
    }

    /// The steps of the open instant, 0 outside one.
    pub fn steps(&self) -> u16
        ensures { result ≡ (state_of B.present self.now).steps }
    {
        self.steps
    }

    /// How many statements the routine has, 1 to `MOST_STATEMENTS`.
    pub fn statements(&self) -> usize
        ensures { result ≡ length (kinds_of self.now) }
    {
        self.rows.routine.count()
    }

    /// How many signals the routine has, 0 to `MOST_SIGNALS`.
    pub fn signals(&self) -> usize
        ensures { result ≡ length (signals_of self.now) }
    {
        self.rows.routine.table.signals.len()
    }

    /// The mark of statement i, if there is one of that number.
    pub fn mark(&self, i: usize) -> Option<Mark>
        ensures { result ≡ (if nat_lt i (length (kinds_of self.now))
            then Some (at (state_of B.present self.now).marks i) else None) }
    {
        (i < self.rows.routine.count()).then(|| self.rows.mark(i))
    }

    /// Every statement with its mark.
    pub fn rows(&self) -> &[Statement]
        ensures kinds { kinds result.now ≡ kinds_of self.now }
        ensures marks { marks result.now ≡ (state_of B.present self.now).marks }
    {
        &self.rows.routine.table.statements
    }

    /// Is statement k ready? Only in an open instant can it be stepped.
    pub fn is_ready(&self, k: usize) -> bool
        ensures { result ≡ ready (tree_at (kinds_of self.now) 0)
            (state_of B.present self.now).marks (state_of B.present self.now).present k }
    {
        self.is_ready_inside(0, k)
    }

    /// The lowest ready statement, which is the lowest whose own rule applies.
    pub fn lowest_ready(&self) -> Option<usize>
        ensures ready { result ≡ lowest (ready (tree_at (kinds_of self.now) 0)
            (state_of B.present self.now).marks (state_of B.present self.now).present)
            (length (kinds_of self.now)) }
        ensures by_rule { result ≡ lowest (λ i. rule (tree_at (kinds_of self.now) i)
            (state_of B.present self.now).marks (state_of B.present self.now).present)
            (length (kinds_of self.now)) }
    {
        (0..self.statements()).find(|i| self.rule_applies(*i))
    }

    /// Is the signal of that number present?
    pub fn is_present(&self, signal: u8) -> bool
        ensures { result ≡ slice_index_or (state_of B.present self.now).present signal false }
    {
        self.board.ask(signal)
    }
}
