ghost use Rattle.std.specs.Prelude.{◌≡◌, ◌+◌, ◌*◌, ◌≤◌, length};
ghost use Rattle.routine.specs.Layout.{rises, fits, signals_from, records_from, read_of};
ghost use Rattle.routine.specs.Refusals.{Answers, AnswersOrMemory};
ghost use Rattle.routine.specs.View.{content};
ghost use Rattle.routine.specs.Lent.{draft_content};

use crate::drafts::Draft;
use crate::kinds::{Kind, SignalKind, Statement};
use crate::refusals::Refusal;
use crate::tables::{CONTENTS_BYTES, MOST_SIGNALS, MOST_STATEMENTS, STATEMENT_BYTES, Table};
use arrayvec::ArrayVec;
use std::alloc::Global;

// What the contents announce: how many signals and statements there are.
#[derive(Clone, Copy, Debug, PartialEq, Eq)]
struct Header {
    signals: usize,
    statements: usize,
}

impl Header {
    ghost use Rattle.routine.specs.Header.{Headed};

    // The header of a table's bytes, if the contents and the length are right.
    fn read(bytes: &[u8]) -> Result<Header, Refusal>
        ensures { Headed bytes.now result }
    {
        let [a, b, c, d, e, f, g, h, ..] = bytes else {
            return Err(Refusal::TableForm);
        };
        let signals = word(*c, *d);
        let statements = word(*g, *h);
        let right = word(*a, *b) == CONTENTS_BYTES
            && signals <= MOST_SIGNALS
            && word(*e, *f) == CONTENTS_BYTES + signals
            && 1 <= statements
            && statements <= MOST_STATEMENTS
            && bytes.len() == CONTENTS_BYTES + signals + STATEMENT_BYTES * statements;
        let header = Header {
            signals,
            statements,
        };
        right.then_some(header).ok_or(Refusal::TableForm)
    }

    // Can it be a part of statement i?
    fn rises(self, i: usize, part: u8) -> bool
        ensures { result ≡ rises self.statements i part }
    {
        i < usize::from(part) && usize::from(part) < self.statements
    }

    // Can a statement of this kind have the number i?
    fn fits(self, i: usize, kind: Kind) -> bool
        ensures { result ≡ fits self.signals self.statements i kind }
    {
        match kind {
            Kind::Nothing | Kind::Stop => true,
            Kind::Emit { signal } | Kind::Wait { signal } => usize::from(signal) < self.signals,
            Kind::Sequence { first, second } | Kind::Parallel { first, second } => {
                self.rises(i, first) && self.rises(i, second)
            }
            Kind::Loop { first } => self.rises(i, first),
            Kind::When {
                signal,
                first,
                second,
            } => {
                usize::from(signal) < self.signals && self.rises(i, first) && self.rises(i, second)
            }
            Kind::Kill { signal, first } | Kind::Local { signal, first } => {
                usize::from(signal) < self.signals && self.rises(i, first)
            }
        }
    }
}

// A number of two bytes, the lower first: the library's conversion, in one line for the four
// numbers of a header.
fn word(low: u8, high: u8) -> usize
    ensures { result ≡ low + 256 * high }
{
    usize::from(u16::from_le_bytes([low, high]))
}

// The kinds of the signals, or the first byte that says none.
fn read_signals(bytes: &[u8]) -> Result<ArrayVec<SignalKind, MOST_SIGNALS>, Refusal>
    requires { length bytes.now ≤ MOST_SIGNALS }
    ensures { Answers (signals_from 0 bytes.now) (λ made. made.items) result }
{
    let mut made = ArrayVec::new();
    for (signal, byte) in bytes.iter().enumerate() {
        let kind = SignalKind::from_byte(*byte).ok_or(Refusal::SignalKind { signal })?;
        made.push(kind);
    }
    Ok(made)
}

// The statements, or the first record that says none or does not fit the header.
fn read_statements(
    bytes: &[u8],
    header: Header,
) -> Result<ArrayVec<Statement, MOST_STATEMENTS>, Refusal>
    requires { length bytes.now ≤ STATEMENT_BYTES * MOST_STATEMENTS }
    ensures { Answers (records_from header.signals header.statements 0 bytes.now)
        (λ made. made.items) result }
{
    let mut made = ArrayVec::new();
    let mut left = bytes;
    // A record is taken apart by a pattern that hands on the rest.
    while let [kind, signal, first, second, rest @ ..] = left {
        let statement = made.len();
        let refusal = Refusal::StatementRecord { statement };
        let kind = Kind::from_record([*kind, *signal, *first, *second]).ok_or(refusal)?;
        if !header.fits(statement, kind) {
            return Err(refusal);
        }
        made.push(Statement::new(kind));
        left = rest;
    }
    Ok(made)
}

// The table that the bytes say, on the stack, or why they are none.
pub(crate) fn read_draft(bytes: &[u8]) -> Result<Draft, Refusal>
    ensures { Answers (read_of bytes.now) draft_content result }
{
    let header = Header::read(bytes)?;
    let (kinds, records) = bytes[CONTENTS_BYTES..].split_at(header.signals);
    let signals = read_signals(kinds)?;
    let statements = read_statements(records, header)?;
    Ok(Draft {
        signals,
        statements,
    })
}

/// The table that the bytes say, which may be any, not yet checked. Refused by the first of
/// `TableForm`, `SignalKind` and `StatementRecord` that applies, each test over the whole table;
/// `Memory` comes only where the bytes are a table.
pub fn read(heap: Global, bytes: &[u8]) -> Result<Table, Refusal>
    ensures { AnswersOrMemory (read_of bytes.now) content result }
{
    read_draft(bytes)?.table(heap)
}
