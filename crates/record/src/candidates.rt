ghost use Rattle.std.specs.Prelude.{◌≡◌, Some, length, map, slice_index_or};
ghost use Rattle.routine.specs.Kinds.{shape_at};
ghost use Rattle.routine.specs.Search.{lowest};
ghost use Rattle.routine.specs.Tree.{tree_at};
ghost use Rattle.routine.specs.View.{table_kinds};
ghost use Rattle.rules.specs.Rules.{Idle, at, is_live, over, reached};
ghost use Rattle.rules.specs.Legal.{row_legal, open_legal, keeps};
ghost use Rattle.record.specs.Taking.{counted, breaks};

use crate::marks;
use crate::phases::Phase;
use routine::{Kind, Mark, Routine};

// Marks that a record gives to a routine's statements, none where a byte is none. Whether they are
// legal is not known yet.
#[derive(Drop)]
pub(crate) struct Candidate<'a> {
    pub(crate) routine: &'a Routine,
    pub(crate) marks: &'a [Option<Mark>],
}

impl Candidate<'_> {
    // The mark of statement i, if it has one; idle beyond the last.
    fn read(&self, i: usize) -> Option<Mark>
        ensures { result ≡ slice_index_or self.now.marks.now i (Some Idle) }
    {
        self.marks.get(i).copied().unwrap_or(Some(Mark::Idle))
    }

    // The same as the rules of other statements see it.
    fn mark(&self, i: usize) -> Mark
        ensures { result ≡ at (map counted self.now.marks.now) i }
    {
        marks::counted(self.read(i))
    }

    // Is statement i live to the rules of others?
    fn is_live(&self, i: usize) -> bool
        ensures { result ≡ is_live (at (map counted self.now.marks.now) i) }
    {
        self.mark(i) != Mark::Idle
    }

    // Is statement i over?
    fn over(&self, i: usize) -> bool
        ensures { result ≡ over (tree_at (table_kinds self.now.routine.now.table) i)
            (map counted self.now.marks.now) }
    {
        let kind = self.routine.table.kind(i);
        if self.mark(i) == Mark::Done {
            return true;
        }
        match kind {
            Kind::Sequence { second, .. } => self.over(usize::from(second)),
            Kind::Parallel { first, second } => {
                self.over(usize::from(first)) && self.over(usize::from(second))
            }
            Kind::When { first, second, .. } => {
                self.over(usize::from(first)) || self.over(usize::from(second))
            }
            _ => false,
        }
    }

    // Is k statement i or inside it, and not inside a local that is shut?
    fn reached(&self, i: usize, k: usize) -> bool
        ensures { result ≡ reached (tree_at (table_kinds self.now.routine.now.table) i)
            (map counted self.now.marks.now) k }
    {
        let kind = self.routine.table.kind(i);
        if k == i {
            return true;
        }
        match kind {
            Kind::Nothing | Kind::Stop | Kind::Emit { .. } | Kind::Wait { .. } => false,
            Kind::Local { .. } if self.mark(i) == Mark::Waiting => false,
            Kind::Loop { first } | Kind::Kill { first, .. } | Kind::Local { first, .. } => {
                self.reached(usize::from(first), k)
            }
            Kind::Sequence { first, second }
            | Kind::Parallel { first, second }
            | Kind::When { first, second, .. } => {
                self.reached(usize::from(first), k) || self.reached(usize::from(second), k)
            }
        }
    }

    // Do the marks of statement i and of its parts go together?
    fn row_legal(&self, i: usize) -> bool
        ensures { result ≡ row_legal (map counted self.now.marks.now) i
            (shape_at (table_kinds self.now.routine.now.table) i) }
    {
        match (self.routine.table.kind(i), self.mark(i)) {
            (Kind::Nothing, mark) => matches!(mark, Mark::Idle | Mark::Done),
            (Kind::Stop | Kind::Emit { .. } | Kind::Wait { .. }, mark) => mark != Mark::UnderWay,
            (Kind::Loop { first }, Mark::Idle | Mark::Waiting)
            | (Kind::Kill { first, .. } | Kind::Local { first, .. }, Mark::Idle | Mark::Done) => {
                !self.is_live(usize::from(first))
            }
            (Kind::Loop { first } | Kind::Kill { first, .. }, Mark::UnderWay)
            | (Kind::Local { first, .. }, Mark::Waiting | Mark::UnderWay) => {
                self.is_live(usize::from(first))
            }
            (
                Kind::Sequence { first, second }
                | Kind::Parallel { first, second }
                | Kind::When { first, second, .. },
                Mark::Idle,
            )
            | (Kind::When { first, second, .. }, Mark::Waiting) => {
                !self.is_live(usize::from(first)) && !self.is_live(usize::from(second))
            }
            (Kind::Sequence { first, second } | Kind::When { first, second, .. }, Mark::UnderWay) =>
                self.is_live(usize::from(first)) != self.is_live(usize::from(second)),
            (Kind::Parallel { first, second }, Mark::UnderWay) => {
                self.is_live(usize::from(first)) && self.is_live(usize::from(second))
            }
            _ => false,
        }
    }

    // If statement i is a local that is open: is an instant open, and the local not inside one that
    // is shut?
    fn open_legal(&self, in_instant: bool, i: usize) -> bool
        ensures { result ≡ open_legal in_instant (table_kinds self.now.routine.now.table)
            (map counted self.now.marks.now) i }
    {
        match (self.routine.table.kind(i), self.mark(i)) {
            (Kind::Local { .. }, Mark::UnderWay) => in_instant && self.reached(0, i),
            _ => true,
        }
    }

    // Does statement i keep its rule, where `in_instant` says whether an instant is open?
    fn keeps(&self, in_instant: bool, i: usize) -> bool
        ensures { result ≡ keeps in_instant (table_kinds self.now.routine.now.table)
            (map counted self.now.marks.now) i }
    {
        (i != 0 || self.is_live(0)) && self.row_legal(i) && self.open_legal(in_instant, i)
    }

    // Does statement i break its rule in a record of that phase?
    fn breaks(&self, phase: Phase, i: usize) -> bool
        ensures { result ≡ breaks
            (table_kinds self.now.routine.now.table) phase self.now.marks.now i }
    {
        self.read(i).is_none()
            || !self.keeps(phase == Phase::Open, i)
            || i == 0 && phase == Phase::Over && !self.over(0)
    }

    // The lowest statement that does.
    pub(crate) fn offender(&self, phase: Phase) -> Option<usize>
        ensures { result ≡ lowest
            (breaks (table_kinds self.now.routine.now.table) phase self.now.marks.now)
            (length (table_kinds self.now.routine.now.table)) }
    {
        (0..self.routine.count()).find(|&i| self.breaks(phase, i))
    }
}
