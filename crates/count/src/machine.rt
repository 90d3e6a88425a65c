ghost use Rattle.std.specs.Prelude.{◌≡◌};
ghost use Rattle.routine.specs.Kinds.{kinds};
ghost use Rattle.count.specs.Front.{Guards, Waiters};

use crate::guides::{guards_of, waiters_of};
use routine::{Kind, MOST_SIGNALS, MOST_STATEMENTS, Mark, Routine};

// The statements of a routine with their marks, and what guides the search for the lowest ready
// one: the plain inside of a count.
#[derive(Debug, Drop)]
pub(crate) struct Rows {
    pub(crate) routine: Routine,
    pub(crate) guards: [u8; MOST_STATEMENTS],
    pub(crate) waiters: [u8; MOST_SIGNALS],
    ghost guarded: { Guards (kinds routine.table.statements.items) guards },
    ghost awaited: { Waiters (kinds routine.table.statements.items) waiters },
}

impl Rows {
    ghost use Rattle.std.specs.Prelude.{true, take, slice_index_or, slice_set};
    ghost use Rattle.routine.specs.Kinds.{shape, kind_at};
    ghost use Rattle.routine.specs.Tree.{node};
    ghost use Rattle.routine.specs.View.{PartsRise};
    ghost use Rattle.rules.specs.Rules.{over, begun, idled, fire, ended};
    ghost use Rattle.count.specs.Machine.{applies};
    ghost use Rattle.count.specs.View.{kinds_in, marks_in, count_in, tree_in, Marked};

    // The rows of a routine, with the marks that it has.
    pub(crate) fn new(routine: Routine) -> Rows
        ensures { result.routine ≡ routine }
    {
        let guards = guards_of(&routine);
        let waiters = waiters_of(&routine);
        Rows {
            routine,
            guards,
            waiters,
        }
    }

    // Statement i gets that mark, if there is one of that number.
    fn put(&mut self, i: usize, mark: Mark)
        ensures { Marked self.old self.new (slice_set (marks_in self.old) i mark) }
    {
        if let Some(row) = self.routine.table.statements.get_mut(i) {
            row.set_mark(mark);
        }
    }

    // Each statement gets its mark of these.
    pub(crate) fn put_all(&mut self, marks: &[Mark; MOST_STATEMENTS])
        ensures { Marked self.old self.new (take (count_in self.old) marks.now) }
    {
        for i in 0..self.routine.count() {
            self.put(i, marks[i]);
        }
    }

    // Statement i, one level of its tree, and where its parts lie.
    pub(crate) fn kind(&self, i: usize) -> Kind
        ensures value { result ≡ kind_at (kinds_in self.now) i }
        ensures rise { PartsRise (count_in self.now) i (shape result) }
        ensures level { tree_in self.now i ≡ node i (shape result) (tree_in self.now) }
    {
        self.routine.table.kind(i)
    }

    // The mark of statement i, idle beyond the last one.
    pub(crate) fn mark(&self, i: usize) -> Mark
        ensures { result ≡ slice_index_or (marks_in self.now) i Mark.Idle }
    {
        self.routine
            .table
            .statements
            .get(i)
            .map_or(Mark::Idle, |row| row.mark)
    }

    // Is statement i over?
    pub(crate) fn over(&self, i: usize) -> bool
        ensures { result ≡ over (tree_in self.now i) (marks_in self.now) }
    {
        let kind = self.kind(i);
        if self.mark(i) == Mark::Done {
            return true;
        }
        match kind {
            Kind::Sequence { second, .. } => self.over(usize::from(second)),
            Kind::Parallel { first, second } => {
                self.over(usize::from(first)) && self.over(usize::from(second))
            }
            Kind::When { first, second, .. } => {
                self.over(usize::from(first)) || self.over(usize::from(second))
            }
            _ => false,
        }
    }

    // Statement i and everything inside it gets idle.
    pub(crate) fn idle(&mut self, i: usize)
        ensures { Marked self.old self.new (idled (tree_in self.old i) (marks_in self.old)) }
    {
        let kind = self.kind(i);
        self.put(i, Mark::Idle);
        match kind {
            Kind::Nothing | Kind::Stop | Kind::Emit { .. } | Kind::Wait { .. } => {}
            Kind::Loop { first } | Kind::Kill { first, .. } | Kind::Local { first, .. } => {
                self.idle(usize::from(first))
            }
            Kind::Sequence { first, second }
            | Kind::Parallel { first, second }
            | Kind::When { first, second, .. } => {
                self.idle(usize::from(first));
                self.idle(usize::from(second))
            }
        }
    }

    // Begins statement i.
    pub(crate) fn begin(&mut self, i: usize)
        ensures { Marked self.old self.new (begun (tree_in self.old i) (marks_in self.old)) }
    {
        match self.kind(i) {
            Kind::Nothing => self.put(i, Mark::Done),
            Kind::Stop
            | Kind::Emit { .. }
            | Kind::Wait { .. }
            | Kind::Loop { .. }
            | Kind::When { .. } => self.put(i, Mark::Waiting),
            Kind::Sequence { first, .. } | Kind::Kill { first, .. } => {
                self.put(i, Mark::UnderWay);
                self.begin(usize::from(first))
            }
            Kind::Parallel { first, second } => {
                self.put(i, Mark::UnderWay);
                self.begin(usize::from(first));
                self.begin(usize::from(second))
            }
            Kind::Local { first, .. } => {
                self.put(i, Mark::Waiting);
                self.begin(usize::from(first))
            }
        }
    }

    // Does the rule of statement i apply, where `own_signal_present` says whether its signal is
    // present?
    pub(crate) fn applies(&self, i: usize, own_signal_present: bool) -> bool
        ensures { result ≡ applies (tree_in self.now i) (marks_in self.now) own_signal_present }
    {
        match (self.kind(i), self.mark(i)) {
            (Kind::Emit { .. } | Kind::Loop { .. } | Kind::Local { .. }, Mark::Waiting) => true,
            (Kind::Wait { .. } | Kind::When { .. }, Mark::Waiting) => own_signal_present,
            (Kind::Sequence { first, .. } | Kind::Kill { first, .. } | Kind::Loop { first }, _)
            | (Kind::Local { first, .. }, Mark::UnderWay) => self.over(usize::from(first)),
            _ => false,
        }
    }

    // The step of statement i, whose rule applies.
    pub(crate) fn fire(&mut self, i: usize, own_signal_present: bool)
        requires { applies (tree_in self.old i) (marks_in self.old) own_signal_present ≡ true }
        ensures { Marked self.old self.new (fire (tree_in self.old i) (marks_in self.old)) }
    {
        match (self.kind(i), self.mark(i), own_signal_present) {
            (Kind::Emit { .. }, Mark::Waiting, _) | (Kind::Wait { .. }, Mark::Waiting, true) => {
                self.put(i, Mark::Done)
            }
            (Kind::When { first, .. }, Mark::Waiting, true)
            | (Kind::Loop { first }, Mark::Waiting, _) => {
                self.put(i, Mark::UnderWay);
                self.begin(usize::from(first))
            }
            (Kind::Loop { first }, _, _) => {
                self.put(i, Mark::Waiting);
                self.idle(usize::from(first))
            }
            (Kind::Sequence { first, second }, _, _) => {
                self.idle(usize::from(first));
                self.begin(usize::from(second))
            }
            (Kind::Local { .. }, Mark::Waiting, _) => self.put(i, Mark::UnderWay),
            (Kind::Kill { first, .. }, _, _) | (Kind::Local { first, .. }, Mark::UnderWay, _) => {
                self.put(i, Mark::Done);
                self.idle(usize::from(first))
            }
            _ => {}
        }
    }

    // The end of the instant, down from statement i; `present` has the present signals.
    pub(crate) fn end(&mut self, i: usize, present: &[bool])
        ensures { Marked self.old self.new
            (ended (tree_in self.old i) (marks_in self.old) present.now) }
    {
        match (self.kind(i), self.mark(i)) {
            (Kind::Stop, Mark::Waiting) => self.put(i, Mark::Done),
            (Kind::Loop { first }, Mark::UnderWay) => self.end(usize::from(first), present),
            (Kind::Kill { signal, first }, Mark::UnderWay) => {
                if present.get(usize::from(signal)).copied().unwrap_or(false) {
                    self.put(i, Mark::Done);
                    self.idle(usize::from(first))
                } else {
                    self.end(usize::from(first), present)
                }
            }
            (Kind::Local { first, .. }, Mark::Waiting | Mark::UnderWay) => {
                self.put(i, Mark::Waiting);
                self.end(usize::from(first), present)
            }
            (Kind::When { second, .. }, Mark::Waiting) => {
                self.put(i, Mark::UnderWay);
                self.begin(usize::from(second))
            }
            (
                Kind::Sequence { first, second }
                | Kind::Parallel { first, second }
                | Kind::When { first, second, .. },
                Mark::UnderWay,
            ) if !self.over(i) => {
                self.end(usize::from(first), present);
                self.end(usize::from(second), present)
            }
            _ => {}
        }
    }
}
