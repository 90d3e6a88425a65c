ghost use Rattle.std.specs.Prelude.{◌≡◌, ◌≤◌, length};
ghost use Rattle.std.specs.List.{list_any, range_with_len};
ghost use Rattle.routine.specs.Search.{FindsLowest};
ghost use Rattle.routine.specs.Kinds.{shape, kind_at};
ghost use Rattle.routine.specs.Tree.{tree_at, contains, inside, can_end};
ghost use Rattle.routine.specs.Meaning.{names, named, is_misnamed, signal_at, misuses, declares};
ghost use Rattle.routine.specs.Meaning.{encloses, in_scope, unscoped, endless, check_of};
ghost use Rattle.routine.specs.View.{Checks};
ghost use Rattle.routine.specs.Lent.{lent_signals, lent_kinds};

use crate::checked::Routine;
use crate::kinds::{Kind, SignalKind};
use crate::refusals::Refusal;
use crate::rows::Rows;
use crate::tables::Table;

// How often a statement of this kind names the part.
fn names(kind: Kind, part: usize) -> usize
    ensures value { result ≡ names (shape kind) part }
    ensures few { result ≤ 2 }
{
    match kind {
        Kind::Nothing | Kind::Stop | Kind::Emit { .. } | Kind::Wait { .. } => 0,
        Kind::Loop { first } | Kind::Kill { first, .. } | Kind::Local { first, .. } => {
            usize::from(part == usize::from(first))
        }
        Kind::Sequence { first, second }
        | Kind::Parallel { first, second }
        | Kind::When { first, second, .. } => {
            usize::from(part == usize::from(first)) + usize::from(part == usize::from(second))
        }
    }
}

impl Rows<'_> {
    // How often statement a is named as a part. Only a statement below it can name it.
    fn named(&self, a: usize) -> usize
        ensures { result ≡ named (lent_kinds self.now) (length (lent_kinds self.now)) a }
    {
        let (below, _) = self.statements.split_at(a.min(self.count()));
        below.iter().map(|row| names(row.kind, a)).sum()
    }

    // Is k statement i, or does it lie inside it?
    #[cycle(contains_inside)]
    fn contains(&self, i: usize, k: usize) -> bool
        ensures { result ≡ contains (tree_at (lent_kinds self.now) i) k }
    {
        k == i || self.inside(i, k)
    }

    // Does statement k lie inside statement i?
    #[cycle(contains_inside)]
    fn inside(&self, i: usize, k: usize) -> bool
        ensures { result ≡ inside (tree_at (lent_kinds self.now) i) k }
    {
        match self.kind(i) {
            Kind::Nothing | Kind::Stop | Kind::Emit { .. } | Kind::Wait { .. } => false,
            Kind::Loop { first } | Kind::Kill { first, .. } | Kind::Local { first, .. } => {
                self.contains(usize::from(first), k)
            }
            Kind::Sequence { first, second }
            | Kind::Parallel { first, second }
            | Kind::When { first, second, .. } => {
                self.contains(usize::from(first), k) || self.contains(usize::from(second), k)
            }
        }
    }

    // Can statement i end at once?
    fn can_end(&self, i: usize) -> bool
        ensures { result ≡ can_end (tree_at (lent_kinds self.now) i) }
    {
        match self.kind(i) {
            Kind::Nothing | Kind::Emit { .. } | Kind::Wait { .. } => true,
            Kind::Stop | Kind::Loop { .. } => false,
            Kind::Sequence { first, second } | Kind::Parallel { first, second } => {
                self.can_end(usize::from(first)) && self.can_end(usize::from(second))
            }
            Kind::When { first, .. } | Kind::Kill { first, .. } | Kind::Local { first, .. } =>
                self.can_end(usize::from(first)),
        }
    }

    // Is statement j a local statement of the signal?
    fn declares(&self, j: usize, signal: u8) -> bool
        ensures { result ≡ declares (kind_at (lent_kinds self.now) j) signal }
    {
        match self.kind(j) {
            Kind::Local { signal: own, .. } => own == signal,
            _ => false,
        }
    }

    // Is statement j a local statement of the signal, with statement i inside it?
    fn encloses(&self, j: usize, signal: u8, i: usize) -> bool
        ensures { result ≡ encloses (lent_kinds self.now) signal i j }
    {
        self.declares(j, signal) && self.inside(j, i)
    }

    // Does statement i lie inside a local statement of the signal?
    fn in_scope(&self, signal: u8, i: usize) -> bool
        ensures { result ≡ in_scope (lent_kinds self.now) signal i }
    {
        (0..self.count()).any(|j| self.encloses(j, signal, i))
    }

    // Is a statement below i a local statement of the signal?
    fn declared_before(&self, signal: u8, i: usize) -> bool
        ensures { result ≡ list_any (λ j. declares (kind_at (lent_kinds self.now) j) signal)
            (range_with_len 0 i) }
    {
        (0..i).any(|j| self.declares(j, signal))
    }

    // The kind of the signal; a number that is none counts as an input.
    fn signal_or_input(&self, signal: u8) -> SignalKind
        ensures { result ≡ signal_at (lent_signals self.now) signal }
    {
        self.signal(usize::from(signal))
            .unwrap_or(SignalKind::Input)
    }

    // Does statement i use a local signal outside its scope, or is it a local statement of a signal
    // that a lower one has?
    fn unscoped(&self, i: usize) -> bool
        ensures { result ≡ unscoped (lent_signals self.now) (lent_kinds self.now) i
            (kind_at (lent_kinds self.now) i) }
    {
        match self.kind(i) {
            Kind::Emit { signal }
            | Kind::Wait { signal }
            | Kind::When { signal, .. }
            | Kind::Kill { signal, .. } => self.signal_or_input(signal) == SignalKind::Local
                && !self.in_scope(signal, i),
            Kind::Local { signal, .. } => self.declared_before(signal, i),
            _ => false,
        }
    }

    // Is statement i an emit of an input, or a local statement whose signal is not local?
    fn misuses(&self, i: usize) -> bool
        ensures { result ≡ misuses (lent_signals self.now) (kind_at (lent_kinds self.now) i) }
    {
        match self.kind(i) {
            Kind::Emit { signal } => self.signal_or_input(signal) == SignalKind::Input,
            Kind::Local { signal, .. } => self.signal_or_input(signal) != SignalKind::Local,
            _ => false,
        }
    }

    // Is statement i a loop whose first can end at once?
    fn endless(&self, i: usize) -> bool
        ensures { result ≡ endless (lent_kinds self.now) (kind_at (lent_kinds self.now) i) }
    {
        match self.kind(i) {
            Kind::Loop { first } => self.can_end(usize::from(first)),
            _ => false,
        }
    }

    // Is statement i another than 0, and not named as a part exactly once?
    fn is_misnamed(&self, i: usize) -> bool
        ensures { result ≡ is_misnamed (lent_kinds self.now) i }
    {
        i != 0 && self.named(i) != 1
    }

    // The lowest statement of which `fails` says yes.
    fn offender<F: Fn(usize) -> bool>(&self, fails: F) -> Option<usize>
        requires { F.IsAlwaysCallable fails }
        ensures { FindsLowest (F.post fails) (length (lent_kinds self.now)) result }
    {
        (0..self.count()).find(|&i| fails(i))
    }

    // The first refusal that applies, if there is one.
    pub(crate) fn fault(&self) -> Option<Refusal>
        ensures { result ≡ check_of (lent_signals self.now) (lent_kinds self.now) }
    {
        if let Some(statement) = self.offender(|i| self.is_misnamed(i)) {
            return Some(Refusal::Parts { statement });
        }
        if let Some(statement) = self.offender(|i| self.misuses(i)) {
            return Some(Refusal::SignalUse { statement });
        }
        if let Some(statement) = self.offender(|i| self.unscoped(i)) {
            return Some(Refusal::Scope { statement });
        }
        if let Some(statement) = self.offender(|i| self.endless(i)) {
            return Some(Refusal::EndlessLoop { statement });
        }
        None
    }
}

/// The routine that the table is, or the first refusal that applies of `Parts`, `SignalUse`,
/// `Scope` and `EndlessLoop`, each test over the whole table. It asks for no memory.
pub fn check(table: Table) -> Result<Routine, Refusal>
    ensures { Checks table result }
{
    match table.rows().fault() {
        Some(refusal) => Err(refusal),
        None => Ok(Routine { table }),
    }
}
