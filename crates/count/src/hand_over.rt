ghost use Rattle.std.specs.Prelude.{◌≡◌, false, length, None, OnOk, IfErr, slice_index_or};
ghost use Rattle.rules.specs.Model.{word_from};
ghost use Rattle.record.specs.Record.{record_of, head_of};
ghost use Rattle.record.specs.Taking.{taking_refusal};
ghost use Rattle.count.specs.CountView.{kinds_of, signals_of, state_of, TakesOver};

use crate::counts::Count;
use crate::words;
use record::{Head, Phase, RECORD_BYTES, Saved, Standing};
use routine::{Refusal, Routine};
use signals::Board;

/// What a count that was handed over leaves behind.
#[derive(Debug, Drop)]
pub struct Released<B> {
    /// Its routine, with the marks that it had.
    pub routine: Routine,
    /// Its board, with the signals that were present.
    pub board: B,
}

// A count goes from one place to another as a record.
impl<B: Board> Count<B> {
    // The word of the present signals.
    fn present_word(&self) -> u64
        ensures { result ≡ word_from (λ s. slice_index_or (B.present self.now.board) s false)
            (length (signals_of self.now)) 0 }
    {
        words::word_of(self.signals(), |s| self.is_there(s))
    }

    // What the count is at, but for its marks.
    fn head(&self) -> Head
        ensures { result ≡ head_of (length (signals_of self.now)) (state_of B.present self.now) }
    {
        let (steps, present) = match self.phase {
            Phase::Open => (self.steps, self.present_word()),
            Phase::Resting | Phase::Over => (0, 0),
        };
        Head {
            phase: self.phase,
            closed: self.closed,
            steps,
            present,
        }
    }

    // Where the count stands, as its record says it.
    fn standing(&self) -> Standing<'_>
        ensures head { result.head
            ≡ head_of (length (signals_of self.now)) (state_of B.present self.now) }
        ensures routine { result.routine.now ≡ self.now.rows.routine }
    {
        Standing {
            head: self.head(),
            routine: &self.rows.routine,
        }
    }

    /// Writes the count's record to the place. No count of the routine refuses it.
    ///
    /// The count is used up, and its routine and its board are given back as they are.
    pub fn hand_over(self, place: &mut [u8; RECORD_BYTES]) -> Released<B>
        ensures record { place.new ≡ record_of
            (length (signals_of self)) (length (kinds_of self)) (state_of B.present self) }
        ensures accepted { taking_refusal (signals_of self) (kinds_of self) place.new ≡ None }
        ensures board { result.board ≡ self.board }
        ensures routine { result.routine ≡ self.rows.routine }
    {
        *place = record::write(self.standing());
        Released {
            routine: self.rows.routine,
            board: self.board,
        }
    }

    /// What the record says takes the place of what the count is at, in whatever phase.
    ///
    /// Refused as by [`record::read`]: by `RecordForm`, `RecordHead` or `RecordMarks`. Handed over
    /// straight away, the count writes the same bytes again.
    pub fn take_over(&mut self, record: &[u8]) -> Result<(), Refusal>
        ensures exact { TakesOver B.present self.old self.new «record».now result }

        ensures again { OnOk result
            (record_of (length (signals_of self.new)) (length (kinds_of self.new))
            (state_of B.present self.new) ≡ «record».now) }
        ensures sized { OnOk result (length «record».now ≡ RECORD_BYTES) }
        ensures unchanged { IfErr result (λ _. self.new ≡ self.old) }
    {
        let Saved { head, marks } = record::read(record, &self.rows.routine)?;
        self.rows.put_all(&marks);
        words::show(&mut self.board, head.present);
        self.phase = head.phase;
        self.closed = head.closed;
        self.steps = head.steps;
        Ok(())
    }
}
