ghost use Rattle.std.specs.Prelude.{◌≡◌, Some};
ghost use Rattle.routine.specs.declared.refusals.Refusal.TheVariants.{Memory};
ghost use Rattle.routine.specs.Refusals.{number_of, layer_of, place_of, refusal_line};

use std::alloc::{AllocError, AllocFailed};
use std::error::Error;
use std::fmt;

/// Why something was refused: a case for each refusal of the engine, by its layer. The field is its
/// place. docs/REFUSALS.md says when each comes.
#[derive(Clone, Copy, Debug, PartialEq, Eq)]
pub enum Refusal {
    // layer 1: the form of a table
    TableForm,
    SignalKind { signal: usize },
    StatementRecord { statement: usize },
    // layer 2: its meaning
    Parts { statement: usize },
    SignalUse { statement: usize },
    Scope { statement: usize },
    EndlessLoop { statement: usize },
    // layer 3: calls on a count
    AlreadyOpen,
    AlreadyOver,
    NoInstantLeft,
    NotInput { signal: usize },
    NotOpenToStep,
    NoSuchStatement { statement: usize },
    NotReady { statement: usize },
    NotOpenToClose,
    StillReady { statement: usize },
    // layer 4: a hand-over record
    RecordForm,
    RecordHead { offset: usize },
    RecordMarks { statement: usize },
    /// Want of memory, which is of no layer.
    Memory,
}

impl Refusal {
    /// The number by which the refusal is known; `Memory` has none.
    pub fn number(&self) -> Option<u8>
        ensures { result ≡ number_of self.now }
    {
        match self {
            Refusal::TableForm => Some(11),
            Refusal::SignalKind { .. } => Some(12),
            Refusal::StatementRecord { .. } => Some(13),
            Refusal::Parts { .. } => Some(21),
            Refusal::SignalUse { .. } => Some(22),
            Refusal::Scope { .. } => Some(23),
            Refusal::EndlessLoop { .. } => Some(24),
            Refusal::AlreadyOpen => Some(31),
            Refusal::AlreadyOver => Some(32),
            Refusal::NoInstantLeft => Some(33),
            Refusal::NotInput { .. } => Some(34),
            Refusal::NotOpenToStep => Some(41),
            Refusal::NoSuchStatement { .. } => Some(42),
            Refusal::NotReady { .. } => Some(43),
            Refusal::NotOpenToClose => Some(51),
            Refusal::StillReady { .. } => Some(52),
            Refusal::RecordForm => Some(61),
            Refusal::RecordHead { .. } => Some(62),
            Refusal::RecordMarks { .. } => Some(63),
            Refusal::Memory => None,
        }
    }

    /// The layer of the engine that refuses, 1 to 4; `Memory` has none.
    pub fn layer(&self) -> Option<u8>
        ensures { result ≡ layer_of self.now }
    {
        match self {
            Refusal::TableForm | Refusal::SignalKind { .. } | Refusal::StatementRecord { .. } =>
                Some(1),
            Refusal::Parts { .. }
            | Refusal::SignalUse { .. }
            | Refusal::Scope { .. }
            | Refusal::EndlessLoop { .. } => Some(2),
            Refusal::AlreadyOpen
            | Refusal::AlreadyOver
            | Refusal::NoInstantLeft
            | Refusal::NotInput { .. }
            | Refusal::NotOpenToStep
            | Refusal::NoSuchStatement { .. }
            | Refusal::NotReady { .. }
            | Refusal::NotOpenToClose
            | Refusal::StillReady { .. } => Some(3),
            Refusal::RecordForm | Refusal::RecordHead { .. } | Refusal::RecordMarks { .. } => Some(
                4,
            ),
            Refusal::Memory => None,
        }
    }

    /// The place of what is wrong, 0 where the refusal names none.
    pub fn place(&self) -> usize
        ensures { result ≡ place_of self.now }
    {
        match self {
            Refusal::SignalKind { signal } | Refusal::NotInput { signal } => *signal,
            Refusal::StatementRecord { statement }
            | Refusal::Parts { statement }
            | Refusal::SignalUse { statement }
            | Refusal::Scope { statement }
            | Refusal::EndlessLoop { statement }
            | Refusal::NoSuchStatement { statement }
            | Refusal::NotReady { statement }
            | Refusal::StillReady { statement }
            | Refusal::RecordMarks { statement } => *statement,
            Refusal::RecordHead { offset } => *offset,
            Refusal::TableForm
            | Refusal::AlreadyOpen
            | Refusal::AlreadyOver
            | Refusal::NoInstantLeft
            | Refusal::NotOpenToStep
            | Refusal::NotOpenToClose
            | Refusal::RecordForm
            | Refusal::Memory => 0,
        }
    }
}

/// The number and the place, as `refused 24 0`, or `out of memory`.
impl fmt::Display for Refusal {
    ghost output = { λ e. Some (refusal_line e) };

    fn fmt<W: fmt::Write>(&self, f: &mut fmt::Formatter<W>) -> fmt::Result {
        let place = self.place();
        match self.number() {
            Some(number) => write!(f, "refused {number} {place}"),
            None => write!(f, "out of memory"),
        }
    }
}

impl Error for Refusal {}

// `?` wants a conversion from each of the two errors.
impl From<AllocError> for Refusal {
    ghost from_gives = { λ _ r. r ≡ Memory };

    fn from(_e: AllocError) -> Refusal {
        Refusal::Memory
    }
}

impl<T: Drop> From<AllocFailed<T>> for Refusal {
    ghost from_gives = { λ _ r. r ≡ Memory };

    fn from(_e: AllocFailed<T>) -> Refusal {
        Refusal::Memory
    }
}
