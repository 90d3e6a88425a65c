ghost use Rattle.std.specs.Prelude.{◌≡◌, ◌<◌, ◌&&◌, length, nat_lt};
ghost use Rattle.routine.specs.Search.{lowest};
ghost use Rattle.rules.specs.Rules.{ready, rule};
ghost use Rattle.count.specs.Machine.{own_signal_present};
ghost use Rattle.count.specs.Front.{QuietBelow};
ghost use Rattle.count.specs.CountView.{kinds_of};
ghost use Rattle.count.specs.View.{marks_in, tree_in};

use crate::counts::Count;
use crate::fronts::Front;
use routine::{Kind, Mark};
use signals::Board;

impl<B: Board> Count<B> {
    // Is the signal of statement i present?
    pub(crate) fn own_signal_present(&self, i: usize) -> bool
        ensures { result ≡ own_signal_present (tree_in self.now.rows i) (B.present self.now.board) }
    {
        match self.rows.kind(i) {
            Kind::Emit { signal }
            | Kind::Wait { signal }
            | Kind::When { signal, .. }
            | Kind::Kill { signal, .. }
            | Kind::Local { signal, .. } => self.board.ask(signal),
            Kind::Nothing
            | Kind::Stop
            | Kind::Sequence { .. }
            | Kind::Parallel { .. }
            | Kind::Loop { .. } => false,
        }
    }

    // Does the rule of statement i apply?
    pub(crate) fn rule_applies(&self, i: usize) -> bool
        ensures { result ≡ rule (tree_in self.now.rows i) (marks_in self.now.rows)
            (B.present self.now.board) }
    {
        self.rows.applies(i, self.own_signal_present(i))
    }

    // Does the guard lie below the front, and its rule apply?
    fn guard_applies(&self, front: Front) -> bool
        ensures { result ≡ (nat_lt front.guard front.from
            && rule (tree_in self.now.rows front.guard) (marks_in self.now.rows)
            (B.present self.now.board)) }
    {
        front.guard < front.from && self.rule_applies(front.guard)
    }

    // The lowest ready statement, searched from the front on.
    pub(crate) fn ready_from(&self, front: Front) -> Option<usize>
        requires { QuietBelow (kinds_of self.now) (marks_in self.now.rows)
            (B.present self.now.board) front.from front.guard }
        ensures { result ≡ lowest
            (ready (tree_in self.now.rows 0) (marks_in self.now.rows) (B.present self.now.board))
            (length (kinds_of self.now)) }
    {
        if self.guard_applies(front) {
            return Some(front.guard);
        }
        (front.from..self.statements()).find(|i| self.rule_applies(*i))
    }

    // Is statement k, which lies inside statement i or is it, ready?
    pub(crate) fn is_ready_inside(&self, i: usize, k: usize) -> bool
        ensures { result ≡ ready (tree_in self.now.rows i) (marks_in self.now.rows)
            (B.present self.now.board) k }
    {
        let kind = self.rows.kind(i);
        if k == i {
            return self.rule_applies(i);
        }
        match kind {
            Kind::Nothing | Kind::Stop | Kind::Emit { .. } | Kind::Wait { .. } => false,
            Kind::Local { .. } if self.rows.mark(i) == Mark::Waiting => false,
            Kind::Loop { first } | Kind::Kill { first, .. } | Kind::Local { first, .. } => {
                self.is_ready_inside(usize::from(first), k)
            }
            Kind::Sequence { first, second }
            | Kind::Parallel { first, second }
            | Kind::When { first, second, .. } => {
                self.is_ready_inside(usize::from(first), k)
                    || self.is_ready_inside(usize::from(second), k)
            }
        }
    }
}
