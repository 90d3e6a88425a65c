ghost use Rattle.std.specs.Prelude.{◌≡◌, Some};
ghost use Rattle.std.specs.Option.{option_map};
ghost use Rattle.routine.specs.Texts.{subject_of, wording_of, reason_text};

use crate::refusals::Refusal;
use std::fmt;

impl Refusal {
    /// What the refusal's place numbers: a signal, a statement or an offset; `None` where it names
    /// no place.
    pub fn subject(&self) -> Option<&'static str>
        ensures { option_map (λ x. x.now) result ≡ subject_of self.now }
    {
        match self {
            Refusal::SignalKind { .. } | Refusal::NotInput { .. } => Some("signal"),
            Refusal::StatementRecord { .. }
            | Refusal::Parts { .. }
            | Refusal::SignalUse { .. }
            | Refusal::Scope { .. }
            | Refusal::EndlessLoop { .. }
            | Refusal::NoSuchStatement { .. }
            | Refusal::NotReady { .. }
            | Refusal::StillReady { .. }
            | Refusal::RecordMarks { .. } => Some("statement"),
            Refusal::RecordHead { .. } => Some("offset"),
            Refusal::TableForm
            | Refusal::AlreadyOpen
            | Refusal::AlreadyOver
            | Refusal::NoInstantLeft
            | Refusal::NotOpenToStep
            | Refusal::NotOpenToClose
            | Refusal::RecordForm
            | Refusal::Memory => None,
        }
    }

    /// What is wrong there, in plain words, without the place.
    pub fn wording(&self) -> &'static str
        ensures { result.now ≡ wording_of self.now }
    {
        match self {
            Refusal::TableForm => "the contents or the length are not those of a table",
            Refusal::SignalKind { .. } => "its kind is above 2",
            Refusal::StatementRecord { .. } => {
                "an unknown kind, an unused field that is not 0, a signal that is not there, \
                or a part that is not above it and below the number of statements"
            }
            Refusal::Parts { .. } => "it is not named as a part exactly once",
            Refusal::SignalUse { .. } =>
                "an emit of an input, or a local statement whose signal is not local",
            Refusal::Scope { .. } => {
                "a local signal outside its local statement, \
                or a local statement with the signal of a lower one"
            }
            Refusal::EndlessLoop { .. } => "a loop whose first part can end at once",
            Refusal::AlreadyOpen => "an instant is open already",
            Refusal::AlreadyOver => "the routine is over",
            Refusal::NoInstantLeft => "no further instant can be counted",
            Refusal::NotInput { .. } => "it is no input",
            Refusal::NotOpenToStep => "no instant is open, so nothing can be stepped",
            Refusal::NoSuchStatement { .. } => "there is no such statement",
            Refusal::NotReady { .. } => "it is not ready",
            Refusal::NotOpenToClose => "no instant is open, so none can be closed",
            Refusal::StillReady { .. } => "it is still ready",
            Refusal::RecordForm =>
                "the length, the contents or the zeros are not those of a record of this routine",
            Refusal::RecordHead { .. } => "the head of the record has a wrong field there",
            Refusal::RecordMarks { .. } => "its mark is against the rules",
            Refusal::Memory => "out of memory",
        }
    }
}

/// A refusal in plain words, as it is printed: with its subject and its place, where it has one.
#[derive(Clone, Copy, Debug, PartialEq, Eq)]
pub struct Reason(pub Refusal);

/// As `statement 0: a loop whose first part can end at once`, or the words alone.
impl fmt::Display for Reason {
    ghost output = { λ r. Some (reason_text r.0) };

    fn fmt<W: fmt::Write>(&self, f: &mut fmt::Formatter<W>) -> fmt::Result {
        let words = self.0.wording();
        let place = self.0.place();
        match self.0.subject() {
            Some(subject) => write!(f, "{subject} {place}: {words}"),
            None => write!(f, "{words}"),
        }
    }
}
