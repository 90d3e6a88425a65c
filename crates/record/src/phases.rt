ghost use Rattle.std.specs.Prelude.{◌≡◌};
ghost use Rattle.record.specs.Phases.{phase_of};
ghost use Rattle.record.specs.Record.{phase_byte};
ghost use Rattle.record.specs.Taking.{phase_in};

use rules::Status;

/// Where a count stands.
#[derive(Clone, Copy, Debug, PartialEq, Eq)]
pub enum Phase {
    /// Between two instants, or before the first.
    Resting,
    /// In an open instant.
    Open,
    /// At the end of the routine: no instant follows.
    Over,
}

/// Where a closed instant of that status leaves the count.
impl From<Status> for Phase {
    ghost from_gives = { λ s p. p ≡ phase_of s };

    fn from(status: Status) -> Phase {
        match status {
            Status::Suspended => Phase::Resting,
            Status::Terminated => Phase::Over,
        }
    }
}

/// How a record writes a phase.
impl From<Phase> for u8 {
    ghost from_gives = { λ p b. b ≡ phase_byte p };

    fn from(phase: Phase) -> u8 {
        match phase {
            Phase::Resting => 0,
            Phase::Open => 1,
            Phase::Over => 2,
        }
    }
}

impl Phase {
    // The phase that a record writes so.
    pub(crate) fn from_byte(byte: u8) -> Option<Phase>
        ensures { result ≡ phase_in byte }
    {
        match byte {
            0 => Some(Phase::Resting),
            1 => Some(Phase::Open),
            2 => Some(Phase::Over),
            _ => None,
        }
    }
}
