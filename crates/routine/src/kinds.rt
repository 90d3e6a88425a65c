ghost use Rattle.std.specs.Prelude.{◌≡◌, Some};
ghost use Rattle.routine.specs.Kinds.{fresh};
ghost use Rattle.routine.specs.Layout.{signal_kind, said_by};
ghost use Rattle.routine.specs.Texts.{kind_text};

use std::fmt;

/// Who raises a signal.
#[derive(Clone, Copy, Debug, Default, PartialEq, Eq)]
pub enum SignalKind {
    /// The world outside raises it.
    #[default]
    Input,
    /// The routine raises it for the world outside.
    Output,
    /// The routine raises it for itself.
    Local,
}

impl SignalKind {
    /// The kind of signal that a byte of a table says, `None` where it says none.
    pub fn from_byte(byte: u8) -> Option<Self>
        ensures { result ≡ signal_kind byte }
    {
        match byte {
            0 => Some(SignalKind::Input),
            1 => Some(SignalKind::Output),
            2 => Some(SignalKind::Local),
            _ => None,
        }
    }
}

/// What a statement is: `first` and `second` are the numbers of its parts, `signal` that of its
/// signal. docs/LANGUAGE.md says what each does.
#[derive(Clone, Copy, Debug, Default, PartialEq, Eq)]
pub enum Kind {
    #[default]
    Nothing,
    Stop,
    Emit { signal: u8 },
    Wait { signal: u8 },
    Sequence { first: u8, second: u8 },
    Parallel { first: u8, second: u8 },
    Loop { first: u8 },
    When { signal: u8, first: u8, second: u8 },
    Kill { signal: u8, first: u8 },
    Local { signal: u8, first: u8 },
}

impl Kind {
    /// The statement that a record of a table says: its bytes are the kind, the signal, the first
    /// and the second part. `None` where the kind is unknown, or a field that it does not use is
    /// not 0.
    pub fn from_record(bytes: [u8; 4]) -> Option<Self>
        ensures { result ≡ said_by bytes }
    {
        match bytes {
            [0, 0, 0, 0] => Some(Kind::Nothing),
            [1, 0, 0, 0] => Some(Kind::Stop),
            [2, signal, 0, 0] => Some(Kind::Emit { signal }),
            [3, signal, 0, 0] => Some(Kind::Wait { signal }),
            [4, 0, first, second] => Some(Kind::Sequence { first, second }),
            [5, 0, first, second] => Some(Kind::Parallel { first, second }),
            [6, 0, first, 0] => Some(Kind::Loop { first }),
            [7, signal, first, second] => Some(Kind::When {
                signal,
                first,
                second,
            }),
            [8, signal, first, 0] => Some(Kind::Kill { signal, first }),
            [9, signal, first, 0] => Some(Kind::Local { signal, first }),
            _ => None,
        }
    }
}

/// A statement's name and its signal, as `emit 1`; its parts are left out.
impl fmt::Display for Kind {
    ghost output = { λ k. Some (kind_text k) };

    fn fmt<W: fmt::Write>(&self, f: &mut fmt::Formatter<W>) -> fmt::Result {
        match self {
            Kind::Nothing => write!(f, "nothing"),
            Kind::Stop => write!(f, "stop"),
            Kind::Emit { signal } => write!(f, "emit {signal}"),
            Kind::Wait { signal } => write!(f, "wait {signal}"),
            Kind::Sequence { .. } => write!(f, "sequence"),
            Kind::Parallel { .. } => write!(f, "parallel"),
            Kind::Loop { .. } => write!(f, "loop"),
            Kind::When { signal, .. } => write!(f, "when {signal}"),
            Kind::Kill { signal, .. } => write!(f, "kill {signal}"),
            Kind::Local { signal, .. } => write!(f, "local {signal}"),
        }
    }
}

/// How far a statement has come in a count. docs/LANGUAGE.md says which marks a kind can have.
#[derive(Clone, Copy, Debug, Default, PartialEq, Eq)]
pub enum Mark {
    #[default]
    Idle,
    Waiting,
    UnderWay,
    Done,
}

/// A statement: what it is, and its mark, which is idle until a count begins it.
#[derive(Clone, Copy, Debug, Default, PartialEq, Eq)]
pub struct Statement {
    /// What it is, with its signal and its parts.
    pub kind: Kind,
    /// How far it has come.
    pub mark: Mark,
}

impl Statement {
    /// A statement of this kind that no count has begun.
    pub fn new(kind: Kind) -> Self
        ensures { result ≡ fresh kind }
    {
        Statement {
            kind,
            mark: Mark::Idle,
        }
    }

    /// Gives it another mark; its kind stays.
    pub fn set_mark(&mut self, mark: Mark)
        ensures kept { self.new.kind ≡ self.old.kind }
        ensures after { self.new.mark ≡ mark }
    {
        self.mark = mark;
    }
}
