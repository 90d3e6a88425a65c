ghost use Rattle.std.specs.Prelude.{◌≡◌, ◌<◌};
ghost use Rattle.routine.specs.Kinds.{shape};
ghost use Rattle.routine.specs.View.{table_kinds};
ghost use Rattle.count.specs.Front.{Guards, Waiters, with_guards, with_waiter};

use routine::{Kind, MOST_SIGNALS, MOST_STATEMENTS, Routine};

// Writes the guards of the parts of statement i, which is of that kind and has its own already.
fn guard_parts(guards: &mut [u8; MOST_STATEMENTS], i: usize, kind: Kind)
    requires { i < MOST_STATEMENTS }
    ensures { guards.new ≡ with_guards guards.old i (shape kind) }
{
    let guard = guards[i];
    match kind {
        Kind::Nothing | Kind::Stop | Kind::Emit { .. } | Kind::Wait { .. } => {}
        Kind::Loop { first } | Kind::Kill { first, .. } | Kind::Local { first, .. } => {
            guards[usize::from(first)] = i as u8;
        }
        Kind::Sequence { first, second } => {
            guards[usize::from(first)] = i as u8;
            guards[usize::from(second)] = guard;
        }
        Kind::Parallel { first, second } | Kind::When { first, second, .. } => {
            guards[usize::from(first)] = guard;
            guards[usize::from(second)] = guard;
        }
    }
}

// The guard of each statement, which is the one above it that its step can make ready; 0 where
// there is none.
pub(crate) fn guards_of(routine: &Routine) -> [u8; MOST_STATEMENTS]
    ensures { Guards (table_kinds routine.now.table) result }
{
    let mut guards = [0; MOST_STATEMENTS];
    for i in 0..routine.count() {
        guard_parts(&mut guards, i, routine.table.kind(i));
    }
    guards
}

// Writes statement i, of that kind, where it is the lowest so far that awaits its signal.
#[tactic(auto, using(std::proofs::lemmas::List::set_past))]
fn await_signal(waiters: &mut [u8; MOST_SIGNALS], i: usize, kind: Kind)
    requires { i < MOST_STATEMENTS }
    ensures { waiters.new ≡ with_waiter waiters.old i (shape kind) }
{
    if let Kind::Wait { signal } | Kind::When { signal, .. } = kind {
        let s = usize::from(signal);
        if s < MOST_SIGNALS {
            waiters[s] = waiters[s].min(i as u8);
        }
    }
}

// The lowest statement that awaits each signal; 255 where there is none.
pub(crate) fn waiters_of(routine: &Routine) -> [u8; MOST_SIGNALS]
    ensures { Waiters (table_kinds routine.now.table) result }
{
    let mut waiters = [u8::MAX; MOST_SIGNALS];
    for i in 0..routine.count() {
        await_signal(&mut waiters, i, routine.table.kind(i));
    }
    waiters
}
