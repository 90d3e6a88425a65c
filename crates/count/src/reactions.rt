ghost use Rattle.std.specs.Prelude.{◌≡◌, true, length, IfOk, IfErr};
ghost use Rattle.record.specs.Phases.{is_open};
ghost use Rattle.count.specs.Traces.{Extends};
ghost use Rattle.count.specs.Calls.{begin_state, steps_from, settled_state};
ghost use Rattle.count.specs.CountView.{kinds_of, state_of, SameRoutine, Reacts};

use crate::answers::Closing;
use crate::counts::Count;
use crate::fronts::Front;
use crate::tracers::{Tracer, Untraced};
use routine::Refusal;
use signals::Board;

// A reaction: a whole instant in one call.
impl<B: Board> Count<B> {
    // Steps the lowest ready statement, one a turn, until none is ready. The result is how many
    // turns there were.
    fn settle<T: Tracer>(&mut self, tracer: &mut T) -> usize
        requires live { is_open self.old.phase ≡ true }
        requires fresh { self.old.steps ≡ 0 }
        ensures leaves { state_of B.present self.new
            ≡ settled_state (kinds_of self.old) (state_of B.present self.old) }
        ensures told { Extends (T.trace tracer.old) (T.trace tracer.new)
            (steps_from (kinds_of self.old) (state_of B.present self.old)) }
        ensures turns { result ≡ (state_of B.present self.new).steps }
        ensures routine { SameRoutine self.old self.new }
    {
        // Each turn is a step, and no instant has more than 4 for each statement.
        let most = 4 * self.rows.routine.count();
        let mut front = Front { from: 0, guard: 0 };
        for turn in 0..most {
            let Some(k) = self.ready_from(front) else {
                return turn;
            };
            front = self.rows.front_after(front, k, self.own_signal_present(k));
            self.act(k);
            tracer.step(k);
        }
        most
    }

    /// A reaction that tells the tracer of each of its turns: the statement that it steps.
    ///
    /// Refused as by [`react`](Count::react): then the tracer is unchanged too.
    pub fn react_traced<T: Tracer>(&mut self, word: u64, tracer: &mut T) -> Result<Closing, Refusal>
        ensures reacts { Reacts B.present self.old self.new word result }
        ensures told { IfOk result (λ closing. Extends (T.trace tracer.old) (T.trace tracer.new)
            (steps_from (kinds_of self.old) (begin_state (state_of B.present self.old) word))) }
        ensures turns { IfOk result (λ closing. length
            (steps_from (kinds_of self.old) (begin_state (state_of B.present self.old) word))
            ≡ closing.steps) }
        ensures refused { IfErr result (λ _. tracer.new ≡ tracer.old) }
    {
        self.begin(word)?;
        let turns = self.settle(tracer);
        let closing = self.end_instant();
        let each_turn_is_a_step = usize::from(closing.steps) == turns;
        prove!(each_turn_is_a_step);
        Ok(closing)
    }

    /// A whole instant: begins with the word, steps the lowest ready statement until none is ready,
    /// and closes.
    ///
    /// Refused as by [`begin`](Count::begin).
    pub fn react(&mut self, word: u64) -> Result<Closing, Refusal>
        ensures { Reacts B.present self.old self.new word result }
    {
        self.react_traced(word, &mut Untraced)
    }
}
