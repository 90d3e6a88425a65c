ghost use Rattle.std.specs.Prelude.{◌≡◌, ◌≤◌};
ghost use Rattle.record.specs.Record.{head_bytes};
ghost use Rattle.record.specs.Taking.{fault_by, offset_of};

use crate::layout::HEAD_BYTES;
use crate::phases::Phase;
use routine::MOST_SIGNALS;

/// How many instants a count can close: the number of the last one.
pub const MOST_INSTANTS: u32 = u32::MAX;

// Where the closed instants lie in the head. The phase lies before them.
pub(crate) const CLOSED_OFFSET: usize = 1;

// Where the steps lie in it.
pub(crate) const STEPS_OFFSET: usize = 5;

// Where the word of the present signals lies in it.
pub(crate) const PRESENT_OFFSET: usize = 7;

/// What a count is at, but for its marks: the head of its record.
#[derive(Clone, Copy, Debug, PartialEq, Eq)]
pub struct Head {
    /// Where the count stands.
    pub phase: Phase,
    /// How many instants are closed.
    pub closed: u32,
    /// The steps of the open instant, 0 outside one.
    pub steps: u16,
    /// The present signals: bit s is set where signal s is present. Outside an open instant 0.
    pub present: u64,
}

// What is wrong with a field of a head, so that no count has it.
#[derive(Clone, Copy, Debug, PartialEq, Eq)]
pub(crate) enum HeadFault {
    // The byte of the phase is none.
    NoPhase,
    // The closed instants are all that can be counted, and one more is open.
    NoNumber,
    // There are steps, and no instant is open.
    WrongSteps,
    // A signal is present, and no instant is open, or the routine does not have it.
    WrongSignals,
}

impl HeadFault {
    // Where in the head the field lies.
    pub(crate) fn offset(self) -> usize
        ensures { result ≡ offset_of self }
    {
        match self {
            HeadFault::NoPhase => 0,
            HeadFault::NoNumber => CLOSED_OFFSET,
            HeadFault::WrongSteps => STEPS_OFFSET,
            HeadFault::WrongSignals => PRESENT_OFFSET,
        }
    }
}

impl Head {
    // The bytes of the head in a record.
    pub(crate) fn to_bytes(&self) -> [u8; HEAD_BYTES]
        ensures { result ≡ head_bytes self.now }
    {
        let [c0, c1, c2, c3] = self.closed.to_le_bytes();
        let [s0, s1] = self.steps.to_le_bytes();
        let [p0, p1, p2, p3, p4, p5, p6, p7] = self.present.to_le_bytes();
        [
            u8::from(self.phase),
            c0,
            c1,
            c2,
            c3,
            s0,
            s1,
            p0,
            p1,
            p2,
            p3,
            p4,
            p5,
            p6,
            p7,
        ]
    }

    // What is wrong with the first bad field, for a routine with so many signals.
    pub(crate) fn fault(&self, signals: usize) -> Option<HeadFault>
        requires { signals ≤ MOST_SIGNALS }
        ensures { result ≡ fault_by self.now.phase signals self.now }
    {
        match self.phase {
            Phase::Open if self.closed == MOST_INSTANTS => Some(HeadFault::NoNumber),
            Phase::Open => {
                (u128::from(self.present) >= 1 << signals).then_some(HeadFault::WrongSignals)
            }
            Phase::Resting | Phase::Over if self.steps != 0 => Some(HeadFault::WrongSteps),
            Phase::Resting | Phase::Over => {
                (self.present != 0).then_some(HeadFault::WrongSignals)
            }
        }
    }
}
