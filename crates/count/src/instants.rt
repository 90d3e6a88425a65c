ghost use Rattle.std.specs.Prelude.{◌≡◌, ◌+◌, ◌<◌, true, false, length, None, OnOk, IfOk, IfErr};
ghost use Rattle.std.specs.Prelude.{slice_index_or};
ghost use Rattle.signals.specs.Sets.{empty, word_set};
ghost use Rattle.rules.specs.Rules.{over, ready};
ghost use Rattle.rules.specs.Model.{outputs_of, status_of};
ghost use Rattle.record.specs.Answers.{answer};
ghost use Rattle.record.specs.Phases.{is_open};
ghost use Rattle.count.specs.View.{marks_in, tree_in};
ghost use Rattle.count.specs.Calls.{is_not_input, first_not_input, begin_refusal, step_refusal};
ghost use Rattle.count.specs.Calls.{step_state, close_refusal, closing, close_state, shown_out};
ghost use Rattle.count.specs.CountView.{kinds_of, signals_of, state_of, SameRoutine, Begins, Steps};
ghost use Rattle.count.specs.CountView.{Closes};

use crate::answers::Closing;
use crate::counts::Count;
use crate::words;
use record::{MOST_INSTANTS, Phase};
use routine::{Refusal, SignalKind};
use rules::Status;
use signals::{Board, SIGNALS};

// An instant: it is begun, statements are stepped, and it is closed.
impl<B: Board> Count<B> {
    // Is bit s of the word set, though signal s is no input?
    fn is_not_input(&self, word: u64, s: u8) -> bool
        requires { s < SIGNALS }
        ensures { result ≡ is_not_input (signals_of self.now) word s }
    {
        words::has_bit(word, s)
            && self.rows.routine.table.signal(usize::from(s)) != Some(SignalKind::Input)
    }

    // The lowest set bit that is no input.
    fn first_not_input(&self, word: u64) -> Option<u8>
        ensures { result ≡ first_not_input (signals_of self.now) word }
    {
        (0..words::width(word)).find(|s| self.is_not_input(word, *s))
    }

    // Why the instant may not be begun with that word.
    fn may_begin(&self, word: u64) -> Result<(), Refusal>
        ensures room { OnOk result
            ((self.now.closed < MOST_INSTANTS) × (is_open self.now.phase ≡ false)) }
        ensures inputs { OnOk result (first_not_input (signals_of self.now) word ≡ None) }
        ensures why { result ≡ answer
            (begin_refusal (signals_of self.now) (state_of B.present self.now) word) tt }
    {
        match self.phase {
            Phase::Open => Err(Refusal::AlreadyOpen),
            Phase::Over => Err(Refusal::AlreadyOver),
            Phase::Resting if self.closed == MOST_INSTANTS => Err(Refusal::NoInstantLeft),
            Phase::Resting => match self.first_not_input(word) {
                Some(s) => Err(Refusal::NotInput {
                    signal: usize::from(s),
                }),
                None => Ok(()),
            },
        }
    }

    /// Opens an instant with the input signals of the word: bit s is set where signal s is given.
    ///
    /// Refused by `AlreadyOpen` in an open instant, by `AlreadyOver` at the end of the routine, by
    /// `NoInstantLeft` where [`MOST_INSTANTS`] are closed, and by `NotInput` where a set bit is no
    /// input.
    pub fn begin(&mut self, word: u64) -> Result<(), Refusal>
        ensures exact { Begins B.present self.old self.new word result }

        ensures already_open { self.old.phase ≡ Phase.Open → result ≡ Err Refusal.AlreadyOpen }
        ensures opens { OnOk result ((self.new.phase ≡ Phase.Open) × (self.new.steps ≡ 0)) }
        ensures given { OnOk result (B.present self.new.board ≡ word_set word) }
        ensures unchanged { IfErr result (λ _. self.new ≡ self.old) }
    {
        self.may_begin(word)?;
        words::show(&mut self.board, word);
        self.steps = 0;
        self.phase = Phase::Open;
        Ok(())
    }

    // Why statement k may not be stepped.
    fn may_step(&self, k: usize) -> Result<(), Refusal>
        ensures can { OnOk result
            ((is_open self.now.phase ≡ true)
            × (ready (tree_in self.now.rows 0) (marks_in self.now.rows)
            (B.present self.now.board) k ≡ true)) }
        ensures why { result ≡ answer
            (step_refusal (kinds_of self.now) (state_of B.present self.now) k) tt }
    {
        if self.phase != Phase::Open {
            return Err(Refusal::NotOpenToStep);
        }
        if k >= self.rows.routine.count() {
            return Err(Refusal::NoSuchStatement { statement: k });
        }
        if !self.is_ready_inside(0, k) {
            return Err(Refusal::NotReady { statement: k });
        }
        Ok(())
    }

    // The step of statement k, which is ready.
    pub(crate) fn act(&mut self, k: usize)
        requires live { is_open self.old.phase ≡ true }
        requires ready { ready (tree_in self.old.rows 0) (marks_in self.old.rows)
            (B.present self.old.board) k ≡ true }
        ensures leaves { state_of B.present self.new
            ≡ step_state (kinds_of self.old) (state_of B.present self.old) k }
        ensures routine { SameRoutine self.old self.new }
    {
        let kind = self.rows.kind(k);
        let own_signal_present = self.own_signal_present(k);
        self.rows.fire(k, own_signal_present);
        words::take_effect(&mut self.board, kind);
        self.steps = self.steps.saturating_add(1);
    }

    /// One step of statement k.
    ///
    /// Refused by `NotOpenToStep` outside an open instant, by `NoSuchStatement` where the routine
    /// has no statement k, and by `NotReady` where it is not ready. The steps are counted up to
    /// 65,535, and stay there.
    pub fn step(&mut self, k: usize) -> Result<(), Refusal>
        ensures exact { Steps B.present self.old self.new k result }

        ensures not_open { is_open self.old.phase ≡ false → result ≡ Err Refusal.NotOpenToStep }
        ensures statement { OnOk result (k < length (kinds_of self.old)) }
        ensures counted { OnOk result
            (self.old.steps < u16.MAX → self.new.steps ≡ self.old.steps + 1) }
        ensures unchanged { IfErr result (λ _. self.new ≡ self.old) }
    {
        self.may_step(k)?;
        self.act(k);
        Ok(())
    }

    // Is the signal of that number present?
    pub(crate) fn is_there(&self, s: usize) -> bool
        ensures { result ≡ slice_index_or (B.present self.now.board) s false }
    {
        s < SIGNALS && self.board.ask(s as u8)
    }

    // Is it an output that is present?
    fn is_shown(&self, s: usize) -> bool
        ensures { result ≡ shown_out (signals_of self.now) (B.present self.now.board) s }
    {
        let kind = self.rows.routine.table.signal(s);
        kind == Some(SignalKind::Output) && self.is_there(s)
    }

    // The word of the present output signals.
    fn outputs(&self) -> u64
        ensures { result ≡ outputs_of (signals_of self.now) (B.present self.now.board) }
    {
        words::word_of(self.signals(), |s| self.is_shown(s))
    }

    // The status of the instant if it ends now.
    fn status(&self) -> Status
        ensures { result ≡ status_of (over (tree_in self.now.rows 0) (marks_in self.now.rows)) }
    {
        if self.rows.over(0) {
            Status::Terminated
        } else {
            Status::Suspended
        }
    }

    // Why the instant may not be closed.
    fn may_close(&self) -> Result<(), Refusal>
        ensures live { OnOk result (is_open self.now.phase ≡ true) }
        ensures why { result ≡ answer
            (close_refusal (kinds_of self.now) (state_of B.present self.now)) tt }
    {
        if self.phase != Phase::Open {
            return Err(Refusal::NotOpenToClose);
        }
        match self.lowest_ready() {
            Some(statement) => Err(Refusal::StillReady { statement }),
            None => Ok(()),
        }
    }

    // Ends the instant.
    pub(crate) fn end_instant(&mut self) -> Closing
        requires { is_open self.old.phase ≡ true }
        ensures answers { result
            ≡ closing (signals_of self.old) (kinds_of self.old) (state_of B.present self.old) }
        ensures leaves { state_of B.present self.new
            ≡ close_state (kinds_of self.old) (state_of B.present self.old) }
        ensures routine { SameRoutine self.old self.new }
    {
        let closing = Closing {
            instant: self.closed + 1,
            outputs: self.outputs(),
            status: self.status(),
            steps: self.steps,
        };
        let shown = words::snapshot(&self.board);
        self.rows.end(0, &shown);
        self.board.wipe();
        self.closed += 1;
        self.steps = 0;
        self.phase = Phase::from(closing.status);
        closing
    }

    /// Ends the instant, and says what it came to.
    ///
    /// Refused by `NotOpenToClose` outside an open instant, and by `StillReady` where a statement
    /// is ready.
    pub fn close(&mut self) -> Result<Closing, Refusal>
        ensures exact { Closes B.present self.old self.new result }

        ensures not_open { is_open self.old.phase ≡ false → result ≡ Err Refusal.NotOpenToClose }
        ensures numbered { IfOk result (λ closing. closing.instant ≡ self.old.closed + 1) }
        ensures ended { OnOk result (is_open self.new.phase ≡ false) }
        ensures wiped { OnOk result (B.present self.new.board ≡ empty) }
        ensures unchanged { IfErr result (λ _. self.new ≡ self.old) }
    {
        self.may_close()?;
        Ok(self.end_instant())
    }
}
