ghost use Rattle.std.specs.Prelude.{◌≡◌, true, false, [], ◌∷◌};
ghost use Rattle.count.specs.Traces.{Trace, Extends, row_trace};

use arrayvec::ArrayVec;
use routine::MOST_STATEMENTS;

/// Who is told of each turn of a reaction. A turn is a step of the lowest ready statement.
pub trait Tracer {
    // The statements told so far, whether some are missing, and for how many more there is room.
    ghost trace: { Self → Trace };

    /// Tells of the statement that a turn steps.
    fn step(&mut self, statement: usize)
        ensures { Extends (trace self.old) (trace self.new) (statement ∷ []) };
}

// Keeps nothing of what it is told.
#[derive(Debug, Drop)]
pub(crate) struct Untraced;

impl Tracer for Untraced {
    ghost trace = { λ _. record { steps = []; lost = true; room = 0 } };

    fn step(&mut self, _statement: usize) {}
}

/// No instant of any routine has more steps than this: 4 for each statement.
pub const MOST_STEPS: usize = 4 * MOST_STATEMENTS;

/// A tracer that keeps the statements of one reaction, for which it always has room. It allocates
/// nothing.
#[derive(Debug, Drop)]
pub struct StepRow {
    steps: ArrayVec<usize, MOST_STEPS>,
    // There was no room for some statement.
    lost: bool,
}

impl StepRow {
    /// A row that was told of none.
    pub fn new() -> StepRow
        ensures { row_trace result ≡ record { steps = []; lost = false; room = MOST_STEPS } }
    {
        StepRow {
            steps: ArrayVec::new(),
            lost: false,
        }
    }

    /// The statements that it was told of, the latest last, but for those that it had no room for.
    pub fn steps(&self) -> &[usize]
        ensures { result.now ≡ (row_trace self.now).steps }
    {
        &self.steps
    }
}

impl Tracer for StepRow {
    ghost trace = { row_trace };

    fn step(&mut self, statement: usize) {
        if self.steps.try_push(statement).is_err() {
            self.lost = true;
        }
    }
}
