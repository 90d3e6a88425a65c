ghost use Rattle.std.specs.Prelude.{◌≡◌, max};
ghost use Rattle.routine.specs.Kinds.{shape_at};
ghost use Rattle.count.specs.Front.{entry, front_after};
ghost use Rattle.count.specs.View.{kinds_in};

use crate::machine::Rows;
use routine::Kind;

// Where the search for the lowest ready statement goes on: below `from` no statement's own rule
// applies, but maybe that of `guard`.
#[derive(Clone, Copy, Debug)]
pub(crate) struct Front {
    pub(crate) from: usize,
    pub(crate) guard: usize,
}

impl Rows {
    // The statement above i that its step can make ready; 0 where there is none, which costs a look
    // and no more.
    fn guard(&self, i: usize) -> usize
        ensures { result ≡ entry self.now.guards i }
    {
        self.guards.get(i).map_or(0, |guard| usize::from(*guard))
    }

    // No more than the lowest statement that awaits the signal.
    fn waiter(&self, signal: u8) -> usize
        ensures { result ≡ entry self.now.waiters signal }
    {
        self.waiters
            .get(usize::from(signal))
            .map_or(0, |waiter| usize::from(*waiter))
    }

    // Where the search goes on after the step of statement k, the lowest ready one: below that
    // number no rule applies but maybe that of its guard. Before the step none below `b` applied
    // but maybe that of k, and `own_signal_present` says whether the signal of k was present then.
    fn from_after(&self, b: usize, k: usize, own_signal_present: bool) -> usize
        ensures { result ≡ front_after (shape_at (kinds_in self.now) k)
            self.now.waiters own_signal_present b k }
    {
        match self.kind(k) {
            Kind::Loop { .. } | Kind::Local { .. } => k,
            Kind::Sequence { second, .. } => b.min(usize::from(second)),
            Kind::When { first, .. } => b.min(usize::from(first)),
            Kind::Emit { signal } if !own_signal_present => b.min(self.waiter(signal)),
            Kind::Emit { .. }
            | Kind::Nothing
            | Kind::Stop
            | Kind::Wait { .. }
            | Kind::Parallel { .. }
            | Kind::Kill { .. } => b,
        }
    }

    // The front after the step of statement k, the lowest ready one, where it was `front` before.
    pub(crate) fn front_after(&self, front: Front, k: usize, own_signal_present: bool) -> Front
        ensures from { result.from ≡ front_after (shape_at (kinds_in self.now) k)
            self.now.waiters own_signal_present (max front.from k) k }
        ensures guard { result.guard ≡ entry self.now.guards k }
    {
        Front {
            from: self.from_after(front.from.max(k), k, own_signal_present),
            guard: self.guard(k),
        }
    }
}
